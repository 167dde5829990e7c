//! Each call of the interfaces at each type that has it, and rows of answers through generic code. Interners and frozen
//! forms whose type is not known where they are used, and what frozen ones have to show.
use crate::laws::{
    boxed_object_interns_as_one, boxed_rodeo_interns_as_one, boxed_rodeo_object_interns_as_one,
    lent_rodeo_interns_as_one, object_interns_as_one, reader_finds_what_resolves,
    reader_of_boxed_rodeo_knows, reader_of_rodeo_knows, resolver_looks_up_alike,
    resolver_of_boxed_rodeo_knows, resolver_of_rodeo_knows, rodeo_interns_as_one,
};
use crate::steps::{
    Answer, CASES, Case, LIMIT, all_right, first_wrong, gives_hello, is_answer, is_so, of_hello,
    reads_hello, steps_of,
};
use lasso::interface::{
    IntoReader, IntoReaderAndResolver, IntoResolver, SpurInterner, SpurReader, SpurResolver,
};
use lasso::{
    Capacity, Key, LassoResult, MemoryLimits, Rodeo, Spur, SpurRodeo, SpurRodeoReader,
    SpurRodeoResolver,
};
use std::alloc::Global;
use std::test::Fail;
use test_steps::Host;

/// The interner with which the test begins: empty, of 10 bytes with `abc` and then a limit of 0 bytes, or of 4 bytes
/// under a limit of 4 bytes.
pub fn made_for(alloc: Global, case: Case) -> LassoResult<SpurRodeo> {
    match case {
        Case::OneText | Case::LongTexts => Rodeo::new(alloc),
        Case::StaticTexts => {
            let mut rodeo: SpurRodeo = Rodeo::with_capacity(alloc, Capacity::for_bytes(10))?;
            rodeo.try_get_or_intern("abc")?;
            rodeo.set_memory_limits(MemoryLimits::new(0));
            Ok(rodeo)
        }
        Case::NoBytes => {
            let limits = MemoryLimits::new(4);
            Rodeo::with_capacity_and_memory_limits(alloc, Capacity::for_bytes(4), limits)
        }
    }
}

// As what a test hands the interner to generic code.
#[derive(Clone, Copy)]
enum Holder {
    Itself,
    Lent,
    Boxed,
}

// Makes the calls of the case through each holder. Looks at how many texts there are then, and how many bytes the
// buckets take.
fn runs_each(rt: &impl Host, case: Case) -> Result<(), Fail> {
    let (steps, (count, usage)) = (
        steps_of(case),
        match case {
            Case::OneText => (1, 4096),
            Case::StaticTexts => (4, 10),
            Case::NoBytes => (3, 4),
            Case::LongTexts => (7, 4096),
        },
    );
    for holder in [Holder::Itself, Holder::Lent, Holder::Boxed] {
        let mut rodeo = Box::new(rt.alloc(), made_for(rt.alloc(), case)?)?;
        let right = match holder {
            Holder::Itself => first_wrong::<Spur, _>(rt, &mut *rodeo, steps)?,
            Holder::Lent => first_wrong::<Spur, _>(rt, &mut &mut *rodeo, steps)?,
            Holder::Boxed => first_wrong::<Spur, _>(rt, &mut rodeo, steps)?,
        };
        all_right(rt, right, steps.len());
        is_so(rt, rodeo.len() == count, "the number of texts");
        is_so(rt, rodeo.current_memory_usage() == usage, "the usage");
    }
    Ok(())
}

#[test]
fn one_text(rt: HostRuntime) -> Result<(), Fail> {
    runs_each(&rt, Case::OneText)
}

#[test]
fn static_texts(rt: HostRuntime) -> Result<(), Fail> {
    runs_each(&rt, Case::StaticTexts)
}

#[test]
fn static_texts_take_no_bytes(rt: HostRuntime) -> Result<(), Fail> {
    runs_each(&rt, Case::NoBytes)
}

#[test]
fn long_texts(rt: HostRuntime) -> Result<(), Fail> {
    runs_each(&rt, Case::LongTexts)
}

/// Whether what each way of freezing gives has `Hello, world!` alone.
pub fn freezes<K: Key, I: IntoReaderAndResolver<K> + Drop>(
    rt: &impl Host,
    first: I,
    second: I,
) -> LassoResult<bool>
where
    I::Reader: Drop,
    I::Resolver: Drop,
{
    let reader = first.into_reader(rt)?;
    let resolver = second.into_resolver(rt)?;
    Ok(reads_hello(rt, &reader) && gives_hello(&resolver))
}

#[test]
fn plain_interners_freeze(rt: HostRuntime) -> Result<(), Fail> {
    let holds = freezes::<Spur, _>(&rt, of_hello(rt.alloc())?, of_hello(rt.alloc())?)?;
    is_so(&rt, holds, "the frozen forms");
    Ok(())
}

/// Checks that `Hello, world!` is the only text of the reader that was made.
pub fn shows_reader(rt: &impl Host, made: LassoResult<SpurRodeoReader>) -> Result<(), Fail> {
    is_so(rt, reads_hello::<Spur, _>(rt, &made?), "the reader");
    Ok(())
}

/// Checks that `Hello, world!` is the only text of the resolver that was made.
pub fn shows_resolver(rt: &impl Host, made: LassoResult<SpurRodeoResolver>) -> Result<(), Fail> {
    is_so(rt, gives_hello::<Spur, _>(&made?), "the resolver");
    Ok(())
}

/// How a box is frozen.
#[derive(Clone, Copy)]
pub enum Freezing {
    /// What it holds, by the call for a box.
    Boxed,
    /// The box, as what it holds.
    AsHeld,
    /// The box in another box, by the call for a box.
    Twice,
}

fn boxed_hello(alloc: Global) -> LassoResult<Box<SpurRodeo>> {
    Ok(Box::new(alloc, of_hello(alloc)?)?)
}

fn reader_by(
    rt: &impl Host,
    rodeo: Box<SpurRodeo>,
    freezing: Freezing,
) -> LassoResult<SpurRodeoReader> {
    match freezing {
        Freezing::Boxed => IntoReader::into_reader_boxed(rodeo, rt),
        Freezing::AsHeld => IntoReader::into_reader(rodeo, rt),
        Freezing::Twice => IntoReader::into_reader_boxed(Box::new(rt.alloc(), rodeo)?, rt),
    }
}

fn resolver_by(
    rt: &impl Host,
    rodeo: Box<SpurRodeo>,
    freezing: Freezing,
) -> LassoResult<SpurRodeoResolver> {
    match freezing {
        Freezing::Boxed => IntoResolver::into_resolver_boxed(rodeo, rt),
        Freezing::AsHeld => IntoResolver::into_resolver(rodeo, rt),
        Freezing::Twice => IntoResolver::into_resolver_boxed(Box::new(rt.alloc(), rodeo)?, rt),
    }
}

#[test]
fn a_reader_is_frozen_again(rt: HostRuntime) -> Result<(), Fail> {
    let reader = of_hello(rt.alloc())?.into_reader();
    is_so(&rt, reads_hello::<Spur, _>(&rt, &reader), "the reader");
    shows_resolver(&rt, IntoResolver::into_resolver(reader, &rt))
}

#[test]
fn a_boxed_interner_freezes_to_a_reader(rt: HostRuntime) -> Result<(), Fail> {
    let reader = reader_by(&rt, boxed_hello(rt.alloc())?, Freezing::Boxed)?;
    is_so(&rt, reads_hello::<Spur, _>(&rt, &reader), "the reader");
    let boxed = Box::new(rt.alloc(), reader)?;
    shows_resolver(&rt, IntoResolver::into_resolver_boxed(boxed, &rt))
}

// A frozen box of `Hello, world!` has it alone.
#[test]
fn a_box_freezes_to_a_resolver(rt: HostRuntime) -> Result<(), Fail> {
    for freezing in [Freezing::Boxed, Freezing::AsHeld, Freezing::Twice] {
        shows_resolver(&rt, resolver_by(&rt, boxed_hello(rt.alloc())?, freezing))?;
    }
    Ok(())
}

#[test]
fn a_box_freezes_to_a_reader(rt: HostRuntime) -> Result<(), Fail> {
    for freezing in [Freezing::AsHeld, Freezing::Twice] {
        shows_reader(&rt, reader_by(&rt, boxed_hello(rt.alloc())?, freezing))?;
    }
    Ok(())
}

// An interner with `A` alone, in a box.
fn boxed_a(alloc: Global) -> LassoResult<Box<SpurRodeo>> {
    let mut rodeo: SpurRodeo = Rodeo::new(alloc)?;
    rodeo.try_get_or_intern("A")?;
    Ok(Box::new(alloc, rodeo)?)
}

#[test]
fn a_boxed_interner_of_one_text_to_a_reader(rt: HostRuntime) -> Result<(), Fail> {
    let reader = reader_by(&rt, boxed_a(rt.alloc())?, Freezing::Boxed)?;
    is_so(&rt, reader.len() == 1, "the number of texts");
    is_so(&rt, reader.get("A") == Some(Spur::default()), "the key");
    let text = reader.try_resolve(Spur::default());
    is_so(&rt, text == Some("A"), "the text");
    Ok(())
}

#[test]
fn a_boxed_interner_of_one_text_to_a_resolver(rt: HostRuntime) -> Result<(), Fail> {
    let resolver = resolver_by(&rt, boxed_a(rt.alloc())?, Freezing::Boxed)?;
    is_so(&rt, resolver.len() == 1, "the number of texts");
    let text = resolver.try_resolve(Spur::default());
    is_so(&rt, text == Some("A"), "the text");
    Ok(())
}

// The laws hold of the interner, of what is lent from it and of the box, with a text each.
#[test]
fn laws_at_an_interner(rt: HostRuntime) -> Result<(), Fail> {
    let mut rodeo = Box::new(rt.alloc(), SpurRodeo::new(rt.alloc())?)?;
    is_so(&rt, rodeo_interns_as_one(&rt, &mut *rodeo, "a")?, "itself");
    let mut lent: &mut SpurRodeo = &mut *rodeo;
    is_so(&rt, lent_rodeo_interns_as_one(&rt, &mut lent, "b")?, "lent");
    let holds = boxed_rodeo_interns_as_one(&rt, &mut rodeo, "c")?;
    is_so(&rt, holds, "boxed");
    is_so(&rt, rodeo.len() == 3, "three texts");
    let knows = reader_of_boxed_rodeo_knows(&rt, rodeo, "d")?;
    is_so(&rt, knows, "the law of freezing");
    Ok(())
}

// Each frozen form knows a text that is interned before.
#[test]
fn laws_at_what_is_frozen(rt: HostRuntime) -> Result<(), Fail> {
    let alloc = rt.alloc();
    let holds = reader_of_rodeo_knows(&rt, of_hello(alloc)?, "a")?;
    is_so(&rt, holds, "a reader");
    let holds = resolver_of_rodeo_knows(&rt, of_hello(alloc)?, "a")?;
    is_so(&rt, holds, "a resolver");
    let knows = resolver_of_boxed_rodeo_knows(&rt, boxed_hello(alloc)?, "a")?;
    is_so(&rt, knows, "a resolver of a box");
    Ok(())
}

// The laws hold of the reader, and of the resolver that it is frozen to.
#[test]
fn laws_at_a_frozen_form(rt: HostRuntime) -> Result<(), Fail> {
    let reader = of_hello(rt.alloc())?.into_reader();
    for text in ["Hello, world!", "Goodbye!"] {
        is_so(&rt, reader_finds_what_resolves(&rt, &reader, text), text);
    }
    let alike = resolver_looks_up_alike(&reader.into_resolver(), Spur::default());
    is_so(&rt, alike, "the resolver");
    Ok(())
}

fn gives(interner: &mut dyn SpurInterner, text: &str, wanted: Answer) -> LassoResult<bool> {
    is_answer(interner.try_get_or_intern(text), wanted)
}

fn keeps(interner: &mut dyn SpurInterner, text: &'static str, wanted: Answer) -> LassoResult<bool> {
    is_answer(interner.try_get_or_intern_static(text), wanted)
}

// Whether the text is there, and its key stands for it.
fn resolves(interner: &dyn SpurInterner, text: &str) -> bool {
    match interner.get(text) {
        Some(key) => interner.try_resolve(key) == Some(text) && interner.contains_key(key),
        None => false,
    }
}

// Whether an interner with no text takes one, and finds it.
fn takes_one_text(interner: &mut dyn SpurInterner) -> LassoResult<bool> {
    Ok(
        gives(interner, "Hello, world!", Ok(0))?
            && gives(interner, "Hello, world!", Ok(0))?
            && keeps(interner, "Hello, world!", Ok(0))?
            && interner.len() == 1
            && interner.contains("Hello, world!")
            && !interner.contains("Hello")
            && resolves(interner, "Hello, world!"),
    )
}

// Whether an interner of 10 bytes with `abc` and a limit of 0 refuses copied texts alone.
fn takes_a_static_text(interner: &mut dyn SpurInterner) -> LassoResult<bool> {
    Ok(
        gives(interner, "defg", Ok(1))?
            && gives(interner, "0123456789", Err(LIMIT))?
            && gives(interner, "abc", Ok(0))?
            && keeps(interner, "0123456789", Ok(2))?
            && interner.len() == 3
            && resolves(interner, "0123456789"),
    )
}

// Whether an interner of 4 bytes under a limit of 4 has room for one copied text beside two static ones.
fn takes_static_texts_first(interner: &mut dyn SpurInterner) -> LassoResult<bool> {
    Ok(
        keeps(interner, "abcd", Ok(0))?
            && keeps(interner, "efgh", Ok(1))?
            && gives(interner, "wxyz", Ok(2))?
            && gives(interner, "more", Err(LIMIT))?,
    )
}

// Whether an interner with no text takes texts of 14 bytes and more.
fn takes_long_texts(interner: &mut dyn SpurInterner) -> LassoResult<bool> {
    Ok(
        gives(interner, "fourteen bytes", Ok(0))?
            && gives(interner, "a text of more bytes than an entry", Ok(1))?
            && gives(interner, "fourteen bytes", Ok(0))?
            && keeps(interner, "a static text of more bytes than an entry", Ok(2))?
            && resolves(interner, "a text of more bytes than an entry"),
    )
}

fn are_right(interner: &mut dyn SpurInterner, case: Case) -> LassoResult<bool> {
    match case {
        Case::OneText => takes_one_text(interner),
        Case::StaticTexts => takes_a_static_text(interner),
        Case::NoBytes => takes_static_texts_first(interner),
        Case::LongTexts => takes_long_texts(interner),
    }
}

// A present text after the test, and how many bytes the buckets take.
fn left_by(case: Case) -> (&'static str, usize) {
    match case {
        Case::OneText => ("Hello, world!", 4096),
        Case::StaticTexts => ("abc", 10),
        Case::NoBytes => ("wxyz", 4),
        Case::LongTexts => ("fourteen bytes", 4096),
    }
}

// The calls are right, and a law holds of a present text.
#[test]
fn calls_of_an_object(rt: HostRuntime) -> Result<(), Fail> {
    for case in CASES.iter() {
        let (text, usage) = left_by(*case);
        let mut rodeo = made_for(rt.alloc(), *case)?;
        let interner: &mut dyn SpurInterner = &mut rodeo;
        is_so(&rt, are_right(interner, *case)?, "the calls");
        is_so(&rt, object_interns_as_one(interner, text)?, "the law");
        is_so(&rt, rodeo.current_memory_usage() == usage, "the usage");
    }
    Ok(())
}

// Makes the calls on what the box holds. Then a law holds of the box, with a present text.
#[test]
fn calls_of_an_object_in_a_box(rt: HostRuntime) -> Result<(), Fail> {
    for case in CASES.iter() {
        let (text, _usage) = left_by(*case);
        let rodeo = made_for(rt.alloc(), *case)?;
        let mut interner: Box<dyn SpurInterner + Drop> = Box::new(rt.alloc(), rodeo)?;
        is_so(&rt, are_right(&mut *interner, *case)?, "the calls");
        is_so(&rt, boxed_object_interns_as_one(interner, text)?, "the law");
    }
    Ok(())
}

#[test]
fn a_boxed_rodeo_interns_as_one(rt: HostRuntime) -> Result<(), Fail> {
    let rodeo = Box::new(rt.alloc(), of_hello(rt.alloc())?)?;
    let is_one = boxed_rodeo_object_interns_as_one(rodeo, "Goodbye!")?;
    is_so(&rt, is_one, "the law of interning");
    Ok(())
}

// `Hello, world!` is there, and `Goodbye!` is not.
#[test]
fn frozen_forms(rt: HostRuntime) -> Result<(), Fail> {
    let frozen = of_hello(rt.alloc())?.into_reader();
    let reader: &dyn SpurReader = &frozen;
    let first = reader.get("Hello, world!").ok_or("absent")?;
    is_so(&rt, reader.contains("Hello, world!"), "the text");
    is_so(&rt, reader.get("Goodbye!").is_none(), "another text");
    let text = reader.try_resolve(first);
    is_so(&rt, text == Some("Hello, world!"), "the text of its key");
    is_so(&rt, reader.len() == 1, "the number of texts");
    Ok(())
}

#[test]
fn a_frozen_resolver(rt: HostRuntime) -> Result<(), Fail> {
    let frozen = of_hello(rt.alloc())?.into_resolver();
    let resolver: &dyn SpurResolver = &frozen;
    let first = Spur::default();
    let text = resolver.try_resolve(first);
    is_so(&rt, text == Some("Hello, world!"), "the text");
    is_so(&rt, resolver.contains_key(first), "its key");
    is_so(&rt, resolver.len() == 1, "the number of texts");
    Ok(())
}
