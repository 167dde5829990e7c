//! Calls of the interfaces as rows, each with what it has to return. One function makes the calls of all rows,
//! so a test that is a list of rows is proved as fast as one of a single call.
use crate::laws::{finds_what_resolves, interns_as_one, looks_up_alike};
use lasso::interface::{Interner, Reader, Resolver};
use lasso::{Key, LassoErrorKind, LassoResult, Rodeo, SpurRodeo, SpurThreadedRodeo, ThreadedRodeo};
use std::alloc::Global;

/// A call that interns a text.
#[derive(Clone, Copy)]
pub enum Way {
    TryCopied,
    Copied,
    TryStatic,
    Static,
}

// Interns the text by the call.
fn key_by<K: Key, I: Interner<K>>(
    rt: &impl Host,
    interner: &mut I,
    way: Way,
    text: &'static str,
) -> LassoResult<K> {
    match way {
        Way::TryCopied => interner.try_get_or_intern(rt, text),
        Way::Copied => interner.get_or_intern(rt, text),
        Way::TryStatic => interner.try_get_or_intern_static(rt, text),
        Way::Static => interner.get_or_intern_static(rt, text),
    }
}

/// A call, and what it has to return.
#[derive(Clone, Copy)]
pub enum Step {
    /// Interns the text by the call, and returns its number, or why it is refused.
    Interns(Way, &'static str, Answer),
    /// Looks the text up by `get` and by `contains`. It has this number, or is absent.
    Finds(&'static str, Option<usize>),
    /// Counts the texts, by `len` and by `is_empty`.
    Counts(usize),
    /// Reads the only text, `Hello, world!`, by all calls of a reader, and by those of a reference to it.
    ReadsHello,
    /// Interns the text twice and looks it up, as a law of `lasso` does.
    InternsAsOne(&'static str),
    /// Interns the text by the call. Its key stands for it.
    Keeps(Way, &'static str),
}

use Step::{Counts, Finds, Interns, InternsAsOne, Keeps, ReadsHello};
use Way::{Copied, Static, TryCopied, TryStatic};
use test_steps::Host;
use test_steps::calls::number_of;

// `Hello, world!` by each of the four intern calls into an interner without a text, and then all that a reader
// says of it.
static ONE_TEXT: [Step; 8] = [
    Counts(0),
    Interns(TryCopied, "Hello, world!", Ok(0)),
    Interns(TryCopied, "Hello, world!", Ok(0)),
    Interns(Copied, "Hello, world!", Ok(0)),
    Interns(Static, "Hello, world!", Ok(0)),
    Interns(TryStatic, "Hello, world!", Ok(0)),
    ReadsHello,
    InternsAsOne("Hello, world!"),
];

// What an interner of 10 bytes with `abc` alone returns under a limit of 0 bytes: the limit refuses a copied
// text alone.
static UNDER_NO_LIMIT: [Step; 9] = [
    Finds("abc", Some(0)),
    Finds("defg", None),
    Interns(Copied, "defg", Ok(1)),
    Interns(TryCopied, "0123456789", Err(LIMIT)),
    Interns(Copied, "0123456789", Err(LIMIT)),
    Interns(TryCopied, "abc", Ok(0)),
    Interns(TryStatic, "0123456789", Ok(2)),
    Interns(Static, "9876543210", Ok(3)),
    Counts(4),
];

// Two static texts beside 4 free bytes under a limit of 4: they leave all 4 to a copied text.
static NO_BYTES: [Step; 5] = [
    Interns(TryStatic, "abcd", Ok(0)),
    Interns(Static, "efgh", Ok(1)),
    Interns(Copied, "wxyz", Ok(2)),
    Interns(TryCopied, "more", Err(LIMIT)),
    Interns(Copied, "more", Err(LIMIT)),
];

// A text of a few hundred bytes.
const PAGE: &str =
    "a text of a few hundred bytes, which no entry holds: one line of it, and then another line of it, \
    and then another line of it, and then another line of it, and then another line of it, and then the last";

// New texts of 14 bytes, one more than an entry of a list holds, and of more, by each call.
static LONG_TEXTS: [Step; 11] = [
    Interns(TryCopied, "fourteen bytes", Ok(0)),
    Interns(Copied, "a text of more bytes than an entry", Ok(1)),
    Interns(
        TryStatic,
        "a static text of more bytes than an entry",
        Ok(2),
    ),
    Interns(Static, "another static text of more bytes", Ok(3)),
    Interns(TryCopied, PAGE, Ok(4)),
    Interns(TryCopied, "a text of more bytes than an entry", Ok(1)),
    Finds(PAGE, Some(4)),
    Finds("fourteen bytes!", None),
    Keeps(Copied, "one more text of more bytes than an entry"),
    InternsAsOne("the last text of more bytes than an entry"),
    Counts(7),
];

/// What an interner with a text under each key returns for a new text.
pub static NO_KEY_LEFT: [Step; 5] = [
    Interns(TryCopied, "new", Err(NO_KEY)),
    Interns(Copied, "new", Err(NO_KEY)),
    Interns(TryStatic, "new", Err(NO_KEY)),
    Interns(Static, "new", Err(NO_KEY)),
    Finds("new", None),
];

/// What a test does with an interner.
#[derive(Clone, Copy)]
pub enum Case {
    /// Interns `Hello, world!` into an interner of default capacity.
    OneText,
    /// Interns more texts after `abc` into an interner of 10 bytes, under a limit of 0.
    StaticTexts,
    /// Interns into an interner of 4 bytes, under a limit of 4.
    NoBytes,
    /// Interns texts of 14 bytes and more into an interner of default capacity.
    LongTexts,
}

/// Each of them.
pub static CASES: [Case; 4] = [
    Case::OneText,
    Case::StaticTexts,
    Case::NoBytes,
    Case::LongTexts,
];

/// The calls of the test.
pub fn steps_of(case: Case) -> &'static [Step] {
    match case {
        Case::OneText => &ONE_TEXT,
        Case::StaticTexts => &UNDER_NO_LIMIT,
        Case::NoBytes => &NO_BYTES,
        Case::LongTexts => &LONG_TEXTS,
    }
}

/// Whether the text has this number, or is absent.
pub fn finds<K: Key, T: Reader<K>>(
    rt: &impl Host,
    reader: &T,
    text: &str,
    number: Option<usize>,
) -> bool {
    reader.contains(rt, text) == number.is_some() && number_of(reader.get(rt, text)) == number
}

fn counts<K: Key, T: Resolver<K>>(resolver: &T, count: usize) -> bool {
    resolver.len() == count && resolver.is_empty() == (count == 0)
}

// Whether the key with this number stands for this text, or for none, by each call that says so. `false` if there is
// no such key.
fn stands_for<K: Key, T: Resolver<K>>(resolver: &T, number: usize, text: Option<&str>) -> bool {
    let Some(key) = K::try_from_usize(number) else {
        return false;
    };
    resolver.try_resolve(key) == text
        && resolver.resolve(key) == text
        && resolver.resolve_unchecked(key) == text
        && resolver.contains_key(key) == text.is_some()
        && looks_up_alike(resolver, key)
}

// Whether key 0 stands for `Hello, world!`, and no other text is there.
fn resolves_hello<K: Key, T: Resolver<K>>(resolver: &T) -> bool {
    counts(resolver, 1)
        && stands_for(resolver, 0, Some("Hello, world!"))
        && stands_for(resolver, 1, None)
}

// Whether `Hello, world!` is the only text.
fn has_hello<K: Key, T: Reader<K>>(rt: &impl Host, reader: &T) -> bool {
    finds(rt, reader, "Hello, world!", Some(0))
        && finds(rt, reader, "Hello", None)
        && finds_what_resolves(rt, reader, "Hello, world!")
        && resolves_hello(reader)
}

/// Whether `Hello, world!` is the only text, by the resolver and by a reference to it.
pub fn gives_hello<K: Key, T: Resolver<K>>(resolver: &T) -> bool {
    resolves_hello::<K, T>(resolver) && resolves_hello::<K, &T>(&resolver)
}

/// Whether `Hello, world!` is the only text, by the reader and by a reference to it.
pub fn reads_hello<K: Key, T: Reader<K>>(rt: &impl Host, reader: &T) -> bool {
    has_hello::<K, T>(rt, reader) && has_hello::<K, &T>(rt, &reader)
}

// Makes the call. Returns whether it returned what it has to. Out of memory is an error.
fn is_right<K: Key, I: Interner<K>>(
    rt: &impl Host,
    interner: &mut I,
    step: Step,
) -> LassoResult<bool> {
    match step {
        Interns(way, text, wanted) => is_answer(key_by(rt, interner, way, text), wanted),
        Finds(text, number) => Ok(finds(rt, interner, text, number)),
        Counts(count) => Ok(counts(interner, count)),
        ReadsHello => Ok(reads_hello(rt, interner)),
        InternsAsOne(text) => interns_as_one(rt, interner, text),
        Keeps(way, text) => {
            let key = key_by(rt, interner, way, text)?;
            Ok(interner.try_resolve(key) == Some(text))
        }
    }
}

/// Makes the calls in order, up to the first that returns something else. Returns how many returned what they
/// have to.
pub fn first_wrong<K: Key, I: Interner<K>>(
    rt: &impl Host,
    interner: &mut I,
    steps: &[Step],
) -> LassoResult<usize> {
    for at in 0..steps.len() {
        if !is_right(rt, interner, steps[at])? {
            return Ok(at);
        }
    }
    Ok(steps.len())
}

// The assertions of these tests, comparisons of what calls return, and calls that several of them make.

// Fails the test unless this holds. `what` names what was checked.
pub(super) fn is_so(rt: &impl Host, holds: bool, what: &str) {
    assert!(rt; holds, "{what}");
}

/// An interner with `Hello, world!` alone, made by `default`.
pub fn of_hello(alloc: Global) -> LassoResult<SpurRodeo> {
    let mut rodeo = Rodeo::default(alloc)?;
    rodeo.try_get_or_intern("Hello, world!")?;
    Ok(rodeo)
}

/// An interner that threads share, without a text.
pub fn fresh(alloc: Global) -> LassoResult<SpurThreadedRodeo> {
    ThreadedRodeo::default(alloc)
}

/// An interner that threads share, with `Hello, world!` alone.
pub fn hello(rt: &impl Host) -> LassoResult<SpurThreadedRodeo> {
    let shared = fresh(rt.alloc())?;
    shared.try_get_or_intern(rt, "Hello, world!")?;
    Ok(shared)
}

/// The refusal by a memory limit.
pub const LIMIT: LassoErrorKind = LassoErrorKind::MemoryLimitReached;

/// The refusal because no key is left.
pub const NO_KEY: LassoErrorKind = LassoErrorKind::KeySpaceExhaustion;

/// The number of a key, or the refusal.
pub type Answer = Result<usize, LassoErrorKind>;

/// Fails the test unless all rows were right. `right` is the number of the first wrong one.
pub fn all_right(rt: &impl Host, right: usize, rows: usize) {
    assert!(rt; right == rows, "row {right}");
}

/// Whether the call returned this. Out of memory is an error.
pub fn is_answer<K: Key>(reply: LassoResult<K>, wanted: Answer) -> LassoResult<bool> {
    match reply {
        Ok(key) => Ok(wanted == Ok(key.into_usize())),
        Err(error) if error.kind().is_failed_alloc() => Err(error),
        Err(error) => Ok(wanted == Err(error.kind())),
    }
}
