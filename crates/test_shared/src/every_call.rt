//! Texts that are not ASCII through each call, without a pass and with one, for key types of each size and
//! two hashers; and key types that lack one number but have the next.
use crate::checks::{Look, Origin, freezes_as, is_so, runs_each, shows_as, shows_in};
use Look::{Compares, Does, Shows, UsesBytesOf, Writes};
use Step::{
    AllocatesOver, ByNew, ByOne, Counts, EachInterns, EqualsItself, Finds, Interns, IsLimited,
    Limits, Reads, Uses,
};
use lasso_parts::keys::{Key, LargeSpur, MicroSpur, MiniSpur, Spur};
use lasso_parts::util::FixedState;
use lasso_shared::threaded::ThreadedRodeo;
use std::hash::BuildHasher;
use std::test::*;
use test_common::hashers::SameState;
use test_common::keys::{WithoutTwo, WithoutZero};
use test_steps::Host;
use test_steps::cases::{Maker, make, paired};
use test_steps::steps::{COPYING, Call, FULL, KEEPING, NO_KEY, Step, WAYS, Way};
use test_steps::texts::List::Texts;

// A text and one that differs from it in its last byte alone. Their characters have 2, 3, 4, and 1 to 4
// bytes; the last texts have 54.
static TEXTS: [(&str, &str); 5] = [
    ("é", "è"),
    ("€", "₭"),
    ("😀", "😁"),
    ("aé€😀", "aé€😁"),
    ("é€😀é€😀é€😀é€😀é€😀é€😀", "é€😀é€😀é€😀é€😀é€😀é€😁"),
];

// A call interns the text, in an interner with 300 bytes in its first bucket and 777 as its limit.
static TAKEN: [Look; 11] = [
    Does(&[
        Finds("@", None),
        ByNew(Call::Finds("@", None)),
        ByNew(Call::Counts(0)),
        Counts(0),
        Reads(0, None),
        IsLimited(777),
        Uses(300),
        ByNew(Call::Sums(777, 300)),
        Interns(Way::Given, "@", Ok(0)),
    ]),
    Shows(Texts(&["@"])),
    Does(&[
        Finds("%", None),
        ByOne(Call::Finds("@", Some(0))),
        ByOne(Call::Finds("%", None)),
        ByOne(Call::Copies("@", Ok(0))),
        ByOne(Call::Keeps("@", Ok(0))),
        ByOne(Call::Finds("@", Some(0))),
        ByOne(Call::Reads(0, Some("@"))),
        ByOne(Call::Reads(1, None)),
        ByOne(Call::Counts(1)),
        EachInterns("@", Ok(0)),
    ]),
    Shows(Texts(&["@"])),
    Does(&[
        Finds("%", None),
        IsLimited(777),
        Uses(300),
        ByNew(Call::Sums(777, 300)),
        Limits(0x0123_4567_89ab_cdef),
        IsLimited(0x0123_4567_89ab_cdef),
        Uses(300),
        ByNew(Call::Sums(0x0123_4567_89ab_cdef, 300)),
        ByNew(Call::Limits(9_876_543_210)),
        IsLimited(9_876_543_210),
        Uses(300),
        ByNew(Call::Sums(9_876_543_210, 300)),
        Limits(777),
        IsLimited(777),
        Uses(300),
        ByNew(Call::Sums(777, 300)),
        AllocatesOver(300),
        EqualsItself,
    ]),
    Compares(Texts(&["@"]), true),
    Compares(Texts(&["%"]), false),
    Writes(Texts(&["@"])),
    Shows(Texts(&["@"])),
    Does(&[IsLimited(777), Uses(300), ByNew(Call::Sums(777, 300))]),
    Compares(Texts(&["@"]), true),
];

// A call interns the text, which is frozen then.
static MADE_BY: [Look; 1] = [Does(&[Interns(Way::Given, "@", Ok(0))])];

// The only bucket has one byte. Each call that copies is refused by the limit and leaves all as it was.
static REFUSED: [Look; 1] = [Does(&[
    Interns(Way::Given, "@", FULL),
    Finds("@", None),
    ByNew(Call::Finds("@", None)),
    ByNew(Call::Counts(0)),
    Counts(0),
    Reads(0, None),
    IsLimited(1),
    Uses(1),
    ByNew(Call::Sums(1, 1)),
])];

// One that keeps the text takes it without a byte, which is free then, also once the text is shown and written.
static KEPT: [Look; 4] = [
    Does(&[Interns(Way::Given, "@", Ok(0))]),
    Shows(Texts(&["@"])),
    Writes(Texts(&["@"])),
    Does(&[
        Finds("%", None),
        IsLimited(1),
        Uses(1),
        ByNew(Call::Sums(1, 1)),
        Interns(Way::TryCopied, "z", Ok(1)),
        IsLimited(1),
        Uses(1),
        ByNew(Call::Sums(1, 1)),
    ]),
];

// An interner that is made of the text as an item, twice, has it alone, in the first bucket and under no limit.
static MADE: [Look; 2] = [
    Shows(Texts(&["@"])),
    Does(&[
        Finds("%", None),
        IsLimited(usize::MAX),
        Uses(4096),
        ByNew(Call::Sums(usize::MAX, 4096)),
    ]),
];

// One that is read from JSON has one bucket of the text's size, and no limit.
static READ: [Look; 3] = [
    Shows(Texts(&["@"])),
    UsesBytesOf(Texts(&["@"])),
    Does(&[Finds("%", None), IsLimited(usize::MAX)]),
];

// Each call that copies the text has to be refused, and then one that keeps it to take it.
fn refuses<K: Key, S: BuildHasher + Default + Drop>(
    rt: &impl Host,
    keeping: Way,
    pair: (&'static str, &'static str),
) -> Result<(), Fail> {
    let full: ThreadedRodeo<K, S> = make(rt, Maker::Full(1))?;
    for way in COPYING.iter() {
        shows_in(rt, &full, REFUSED.as_slice(), paired(*way, pair))?;
    }
    shows_in(rt, &full, KEPT.as_slice(), paired(keeping, pair))
}

// Each call has to take the text, copies have to be refused by the limit, and fillings and JSON to give interners of
// the text alone.
fn takes<K: Key, S: BuildHasher + Default + Drop>(
    rt: &impl Host,
    pair: (&'static str, &'static str),
) -> Result<(), Fail> {
    let (roomy, list) = (Origin::Made(Maker::Sized(50, 300, 777)), Texts(&["@"]));
    for way in WAYS.iter() {
        shows_as::<K, S>(rt, roomy, TAKEN.as_slice(), paired(*way, pair))?;
        let (made, frozen) = (MADE_BY.as_slice(), (list, "absent"));
        freezes_as::<K, S>(rt, roomy, made, frozen, paired(*way, pair))?;
    }
    for way in KEEPING.iter() {
        refuses::<K, S>(rt, *way, pair)?;
    }
    let case = paired(Way::TryCopied, pair);
    shows_as::<K, S>(rt, Origin::Items(Texts(&["@", "@"])), MADE.as_slice(), case)?;
    shows_as::<K, S>(rt, Origin::Object(list), READ.as_slice(), case)?;
    shows_as::<K, S>(rt, Origin::Array(list), READ.as_slice(), case)
}

// Takes each pair of texts in each way, with two hashers.
fn takes_each_text<K: Key>(rt: &impl Host) -> Result<(), Fail> {
    for pair in TEXTS.iter() {
        takes::<K, FixedState>(rt, *pair)?;
        takes::<K, SameState>(rt, *pair)?;
    }
    Ok(())
}

#[test]
fn keys_of_32_bits_take_each_text(rt: HostRuntime) -> Result<(), Fail> {
    takes_each_text::<Spur>(&rt)
}

#[test]
fn keys_of_64_bits_take_each_text(rt: HostRuntime) -> Result<(), Fail> {
    takes_each_text::<LargeSpur>(&rt)
}

#[test]
fn keys_of_16_bits_take_each_text(rt: HostRuntime) -> Result<(), Fail> {
    takes_each_text::<MiniSpur>(&rt)
}

#[test]
fn keys_of_8_bits_take_each_text(rt: HostRuntime) -> Result<(), Fail> {
    takes_each_text::<MicroSpur>(&rt)
}

// Key types that lack one number but have the next.

#[test]
fn no_text_passes_over_a_number_without_a_key(rt: HostRuntime) -> Result<(), Fail> {
    static STEPS: [Step; 8] = [
        Interns(Way::Given, "p", Ok(0)),
        Interns(Way::Given, "q", Ok(1)),
        // each `r` takes one of the two bytes that `p` and `q` leave
        Interns(Way::Given, "r", NO_KEY),
        Interns(Way::Given, "r", NO_KEY),
        Interns(Way::Given, "r", FULL),
        Interns(Way::Given, "q", Ok(1)),
        Counts(2),
        Uses(4),
    ];
    let holds = WithoutTwo::try_from_usize(3).is_some();
    is_so(&rt, holds, "the next number");
    runs_each::<WithoutTwo>(&rt, Maker::Full(4), &STEPS, &[1], &COPYING)
}

// The key type lacks number 0. Each of the first two calls takes two of the four bytes, though the text has no key.
#[test]
fn no_text_has_a_key(rt: HostRuntime) -> Result<(), Fail> {
    static STEPS: [Step; 9] = [
        Interns(Way::Given, "pp", NO_KEY),
        Uses(4),
        Counts(0),
        Interns(Way::Given, "pp", NO_KEY),
        Uses(4),
        Counts(0),
        Interns(Way::Given, "pp", FULL),
        Uses(4),
        Counts(0),
    ];
    runs_each::<WithoutZero>(&rt, Maker::Full(4), &STEPS, &[1], &COPYING)
}

// Static texts are refused, and take no byte: a copy takes all that `p` and `q` would have taken, though it has no key.
#[test]
fn a_static_text_without_a_key_leaves_the_bytes(rt: HostRuntime) -> Result<(), Fail> {
    static STEPS: [Step; 9] = [
        Interns(Way::Given, "p", Ok(0)),
        Interns(Way::Given, "q", Ok(1)),
        Interns(Way::Given, "r", NO_KEY),
        Interns(Way::Given, "r", NO_KEY),
        Interns(Way::TryCopied, "rest", NO_KEY),
        Interns(Way::TryCopied, "r", FULL),
        Counts(2),
        Uses(4),
        IsLimited(4),
    ];
    runs_each::<WithoutTwo>(&rt, Maker::Full(4), &STEPS, &[1], &KEEPING)
}
