//! Each call of the interfaces at an interner that threads share: on its own, lent and in a box. It has no
//! list of its own, so the clauses of the interfaces leave it alone: that they answer as its own calls do,
//! and refuse and copy no more than these, is tested here.
use crate::interfaces::{Freezing, freezes, shows_reader, shows_resolver};
use crate::laws::{reader_knows, resolver_knows};
use crate::steps::Step::{Finds, Interns, Keeps};
use crate::steps::{
    Case, NO_KEY_LEFT, Step, Way, all_right, finds, first_wrong, fresh, hello, is_so, steps_of,
};
use lasso::interface::{IntoReader, IntoResolver};
use lasso::{
    FixedState, LassoResult, MemoryLimits, MicroSpur, Spur, SpurRodeoReader, SpurRodeoResolver,
    SpurThreadedRodeo, ThreadedRodeo,
};
use std::alloc::Global;
use std::sync::atomic::{AtomicBool, Ordering};
use std::test::Fail;
use std::thread::join;
use test_steps::Host;
use test_steps::calls::limited;
use test_steps::cases::reads_what_it_sets;
use test_steps::texts::counted;

// How many of the calls, in order, return what they have to through a reference before one does not.
fn by_reference(
    rt: &impl Host,
    mut shared: &SpurThreadedRodeo,
    steps: &[Step],
) -> LassoResult<usize> {
    first_wrong::<Spur, _>(rt, &mut shared, steps)
}

// As what a test hands the interner to generic code.
#[derive(Clone, Copy)]
enum Holder {
    Itself,
    Reference,
    Lent,
    Boxed,
}

// The interner with which the test begins: empty, of 10 bytes with `abc` and then a limit of 0 bytes, or of 4 bytes
// under a limit of 4 bytes.
fn made_for(rt: &impl Host, case: Case) -> LassoResult<SpurThreadedRodeo> {
    match case {
        Case::OneText | Case::LongTexts => fresh(rt.alloc()),
        Case::StaticTexts => {
            let shared = limited(rt.alloc(), 10, usize::MAX)?;
            shared.try_get_or_intern(rt, "abc")?;
            shared.set_memory_limits(rt, MemoryLimits::new(0));
            Ok(shared)
        }
        Case::NoBytes => limited(rt.alloc(), 4, 4),
    }
}

// Makes the calls of the case through each holder. Looks at how many bytes the buckets take then, and at the limit.
fn runs_each(rt: &impl Host, case: Case) -> Result<(), Fail> {
    let (steps, (usage, limit)) = (
        steps_of(case),
        match case {
            Case::OneText | Case::LongTexts => (4096, usize::MAX),
            Case::StaticTexts => (10, 0),
            Case::NoBytes => (4, 4),
        },
    );
    for holder in [
        Holder::Itself,
        Holder::Reference,
        Holder::Lent,
        Holder::Boxed,
    ] {
        let mut shared = Box::new(rt.alloc(), made_for(rt, case)?)?;
        let right = match holder {
            Holder::Itself => first_wrong::<Spur, _>(rt, &mut *shared, steps)?,
            Holder::Reference => by_reference(rt, &*shared, steps)?,
            Holder::Lent => first_wrong::<Spur, _>(rt, &mut &mut *shared, steps)?,
            Holder::Boxed => first_wrong::<Spur, _>(rt, &mut shared, steps)?,
        };
        all_right(rt, right, steps.len());
        is_so(rt, shared.current_memory_usage(rt) == usage, "the usage");
        is_so(rt, shared.max_memory_usage(rt) == limit, "the limit");
    }
    Ok(())
}

#[test]
fn one_text(rt: HostRuntime) -> Result<(), Fail> {
    runs_each(&rt, Case::OneText)
}

#[test]
fn static_texts(rt: HostRuntime) -> Result<(), Fail> {
    runs_each(&rt, Case::StaticTexts)
}

#[test]
fn static_texts_take_no_bytes(rt: HostRuntime) -> Result<(), Fail> {
    runs_each(&rt, Case::NoBytes)
}

#[test]
fn long_texts(rt: HostRuntime) -> Result<(), Fail> {
    runs_each(&rt, Case::LongTexts)
}

// An interner with a text under each of the 255 keys takes no new text, by itself and by a reference to it.
#[test]
fn no_key_is_left_in_a_shared_interner(rt: HostRuntime) -> Result<(), Fail> {
    let hasher = FixedState::new();
    let mut shared: ThreadedRodeo<MicroSpur, FixedState> = ThreadedRodeo::with_hasher(
        rt.alloc(),
        hasher,
    )?;
    for number in 0..255u32 {
        let text = format!(in rt.alloc(); "{number}")?;
        shared.try_get_or_intern(&rt, text.as_str())?;
    }
    let right = first_wrong::<MicroSpur, _>(&rt, &mut shared, &NO_KEY_LEFT)?;
    all_right(&rt, right, NO_KEY_LEFT.len());
    let right = first_wrong::<MicroSpur, _>(&rt, &mut &shared, &NO_KEY_LEFT)?;
    all_right(&rt, right, NO_KEY_LEFT.len());
    is_so(&rt, shared.len() == 255, "the number of texts");
    Ok(())
}

static HERE: [Step; 1] = [Step::InternsAsOne("Hello, world!")];

static THERE: [Step; 1] = [Step::InternsAsOne("Hello from the thread!")];

#[test]
fn two_threads_intern_through_references(rt: HostRuntime) -> Result<(), Fail> {
    let shared = fresh(rt.alloc())?;
    let (here, there) = join(
        &rt,
        || by_reference(&rt, &shared, &HERE),
        || by_reference(&rt, &shared, &THERE),
    );
    is_so(&rt, here? == 1, "the text of one thread");
    is_so(&rt, there? == 1, "the text of the other");
    is_so(&rt, shared.len() == 2, "the number of texts");
    Ok(())
}

#[test]
fn shared_interners_freeze(rt: HostRuntime) -> Result<(), Fail> {
    let (first, second) = (hello(&rt)?, hello(&rt)?);
    let holds = freezes::<Spur, _>(&rt, first, second)?;
    is_so(&rt, holds, "the frozen forms");
    Ok(())
}

#[test]
fn frozen_shared_interners_know_a_text(rt: HostRuntime) -> Result<(), Fail> {
    let reader = reader_knows::<Spur, _, _>(&rt, fresh(rt.alloc())?, "abc")?;
    is_so(&rt, reader, "a reader");
    let resolver = resolver_knows::<Spur, _, _>(&rt, fresh(rt.alloc())?, "abc")?;
    is_so(&rt, resolver, "a resolver");
    Ok(())
}

fn boxed_hello(rt: &impl Host) -> LassoResult<Box<SpurThreadedRodeo>> {
    Ok(Box::new(rt.alloc(), hello(rt)?)?)
}

fn reader_by(rt: &impl Host, freezing: Freezing) -> LassoResult<SpurRodeoReader> {
    let shared = boxed_hello(rt)?;
    match freezing {
        Freezing::Boxed => IntoReader::into_reader_boxed(shared, rt),
        Freezing::AsHeld => IntoReader::into_reader(shared, rt),
        Freezing::Twice => IntoReader::into_reader_boxed(Box::new(rt.alloc(), shared)?, rt),
    }
}

fn resolver_by(rt: &impl Host, freezing: Freezing) -> LassoResult<SpurRodeoResolver> {
    let shared = boxed_hello(rt)?;
    match freezing {
        Freezing::Boxed => IntoResolver::into_resolver_boxed(shared, rt),
        Freezing::AsHeld => IntoResolver::into_resolver(shared, rt),
        Freezing::Twice => IntoResolver::into_resolver_boxed(Box::new(rt.alloc(), shared)?, rt),
    }
}

// A frozen box of `Hello, world!` has it alone.
#[test]
fn boxed_shared_interners_freeze(rt: HostRuntime) -> Result<(), Fail> {
    for freezing in [Freezing::Boxed, Freezing::AsHeld, Freezing::Twice] {
        shows_reader(&rt, reader_by(&rt, freezing))?;
        shows_resolver(&rt, resolver_by(&rt, freezing))?;
    }
    Ok(())
}

// Two threads that use one shared interner through its interfaces.

// The calls of `Interner`.
static WAYS: [Way; 4] = [Way::TryCopied, Way::Copied, Way::TryStatic, Way::Static];

// How many texts each thread interns.
const EACH: usize = 3000;

// Texts of the letter and a number, as static texts. They are never freed.
fn leaked(alloc: Global, letter: &str) -> LassoResult<Vec<&'static str>> {
    let mut texts = Vec::new(alloc);
    for number in 0..EACH {
        texts.push(counted(alloc, letter, number)?)?;
    }
    Ok(texts)
}

// Interns the texts through a reference. Returns whether each key resolves to its text.
fn interns_by(
    rt: &impl Host,
    shared: &SpurThreadedRodeo,
    way: Way,
    texts: &[&'static str],
) -> LassoResult<bool> {
    let mut all = true;
    for text in texts.iter() {
        all &= is_step(rt, shared, Keeps(way, *text))?;
    }
    Ok(all)
}

// Two threads intern a list each.
#[test]
fn two_threads_intern_many_through_references(rt: HostRuntime) -> Result<(), Fail> {
    let (one, other) = (leaked(rt.alloc(), "a")?, leaked(rt.alloc(), "b")?);
    for way in WAYS.iter() {
        let shared = fresh(rt.alloc())?;
        let (here, there) = join(
            &rt,
            || interns_by(&rt, &shared, *way, &one),
            || interns_by(&rt, &shared, *way, &other),
        );
        is_so(&rt, here? && there?, "the texts of the keys");
        is_so(&rt, shared.len() == 6000, "the number of texts");
    }
    Ok(())
}

// How many limits are set, and calls made, at most, in case the other thread never ends.
const MOST: usize = 1_000_000;

// Whether the call through a reference returns what it has to.
fn is_step(rt: &impl Host, shared: &SpurThreadedRodeo, step: Step) -> LassoResult<bool> {
    Ok(by_reference(rt, shared, &[step])? == 1)
}

// Interns the text by each call, and looks it up, through a reference and through the interner.
fn has_one_key(
    rt: &impl Host,
    shared: &SpurThreadedRodeo,
    text: &'static str,
    number: usize,
) -> LassoResult<bool> {
    let mut all = finds::<Spur, _>(rt, shared, "absent", None)
        && is_step(rt, shared, Finds("absent", None))?
        && is_step(rt, shared, Interns(Way::Copied, text, Ok(number)))?;
    for way in WAYS.iter() {
        all &= is_step(rt, shared, Interns(*way, text, Ok(number)))?
            && is_step(rt, shared, Finds(text, Some(number)))?
            && finds::<Spur, _>(rt, shared, text, Some(number));
    }
    Ok(all)
}

// Interns each of the first hundred texts, and looks it up. Says when it is done.
fn have_one_key(
    rt: &impl Host,
    shared: &SpurThreadedRodeo,
    texts: &[&'static str],
    done: &AtomicBool,
) -> bool {
    let mut all = true;
    for (number, text) in texts.iter().take(100).enumerate() {
        all &= has_one_key(rt, shared, *text, number) == Ok(true);
    }
    done.store(true, Ordering::SeqCst);
    all
}

// One thread sets limits while the other interns. The first bucket has room for all texts.
#[test]
fn no_call_through_a_reference_sets_a_limit(rt: HostRuntime) -> Result<(), Fail> {
    let texts = leaked(rt.alloc(), "a")?;
    let (shared, done) = (fresh(rt.alloc())?, AtomicBool::new(false));
    let (set, made) = join(
        &rt,
        || reads_what_it_sets(&rt, &shared, &done, 5000, MOST),
        || have_one_key(&rt, &shared, &texts, &done),
    );
    is_so(&rt, set, "the limits");
    is_so(&rt, made, "the keys");
    is_so(&rt, shared.len() == 100, "the number of texts");
    Ok(())
}

// Interns the texts, which are new, through a reference, once the other thread has begun. Returns whether each
// has the next number, and says when it is done.
fn intern_in_order(
    rt: &impl Host,
    shared: &SpurThreadedRodeo,
    texts: &[&'static str],
    begun: &AtomicBool,
    done: &AtomicBool,
) -> bool {
    for _ in 0..MOST {
        if begun.load(Ordering::SeqCst) {
            break;
        }
    }
    let mut all = true;
    for (number, text) in texts.iter().enumerate() {
        let wanted = Ok(number.saturating_add(1));
        all &= is_step(rt, shared, Interns(Way::Copied, *text, wanted)) == Ok(true);
    }
    done.store(true, Ordering::SeqCst);
    all
}

// Looks the text up through a reference until the other thread is done. Returns whether it has its key each time.
fn always_finds(
    rt: &impl Host,
    shared: &SpurThreadedRodeo,
    text: &'static str,
    begun: &AtomicBool,
    done: &AtomicBool,
) -> bool {
    let mut all = true;
    for _ in 0..MOST {
        if done.load(Ordering::SeqCst) {
            break;
        }
        all &= is_step(rt, shared, Finds(text, Some(0))) == Ok(true);
        begun.store(true, Ordering::SeqCst);
    }
    all
}

// One thread interns new texts while the other looks up one that is present.
#[test]
fn a_reference_finds_a_text_while_others_are_interned(rt: HostRuntime) -> Result<(), Fail> {
    let texts = leaked(rt.alloc(), "a")?;
    let shared = hello(&rt)?;
    let (begun, done) = (AtomicBool::new(false), AtomicBool::new(false));
    let (made, found) = join(
        &rt,
        || intern_in_order(&rt, &shared, &texts, &begun, &done),
        || always_finds(&rt, &shared, "Hello, world!", &begun, &done),
    );
    is_so(&rt, made, "the new texts");
    is_so(&rt, found, "the present text");
    is_so(&rt, shared.len() == 3001, "the number of texts");
    Ok(())
}
