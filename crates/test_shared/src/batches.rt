//! Batches: one call that interns or looks up the texts of a list, with a pass. If its hints serve, it takes the texts one
//! by one, as calls that take one text do.
use crate::checks::{runs_as, runs_in_two};
use Step::{ByNew, ByOne, ByOther, Counts, Finds, Interns, IsLimited, Limits, Lists, Reads, Uses};
use lasso_parts::keys::{Key, MicroSpur, Spur};
use lasso_parts::util::{FixedState, LassoErrorKind};
use std::hash::BuildHasher;
use std::test::*;
use test_common::keys::WithoutTwo;
use test_steps::Host;
use test_steps::cases::{HINTED, Maker, PLAIN, SIZE, maker_for, sized, steps_of};
use test_steps::steps::Call::{self, FindsAll, Serves, TakesAll};
use test_steps::steps::{FULL, NO_KEY, Step, Way};
use test_steps::texts::KeyNumbers::{Any, Are, From};
use test_steps::texts::LENGTHS;
use test_steps::texts::List::{Numbers, Texts};

// Makes the calls by passes without hints, and three times each by passes with hints.
fn runs_both<K: Key, S: BuildHasher + Default + Drop>(
    rt: &impl Host,
    maker: Maker,
    steps: &[Step],
) -> Result<(), Fail> {
    runs_as::<K, S>(rt, maker, steps, PLAIN)?;
    runs_as::<K, S>(rt, maker, steps, HINTED)
}

// Whatever pass would do it, no limit is set, no other text is interned, and only the bytes of new texts are taken.
#[test]
fn interning_a_batch_leaves_all_else(rt: HostRuntime) -> Result<(), Fail> {
    static STEPS: [Step; 12] = [
        ByOne(TakesAll(Texts(&["é", "", "é", "ab"]), Are(&[0, 1, 0, 2]), None)),
        IsLimited(usize::MAX),
        ByNew(Call::Sums(usize::MAX, 4)),
        Lists(Texts(&["é", "", "ab"])),
        Limits(5000),
        ByOther(TakesAll(Texts(&["ab", "é"]), Are(&[2, 0]), None)),
        IsLimited(5000),
        ByNew(Call::Sums(5000, 4)),
        Lists(Texts(&["é", "", "ab"])),
        Limits(usize::MAX),
        ByOther(TakesAll(Numbers(0, 3000), From(3), None)),
        Counts(3003),
    ];
    runs_both::<Spur, FixedState>(&rt, Maker::Sized(50, 4, usize::MAX), &STEPS)
}

#[test]
fn looking_up_a_batch_leaves_all(rt: HostRuntime) -> Result<(), Fail> {
    static STEPS: [Step; 11] = [
        ByOne(Call::Copies("é", Ok(0))),
        ByOne(FindsAll(&["ab", "é", ""], &[None, Some(0), None])),
        IsLimited(usize::MAX),
        ByNew(Call::Sums(usize::MAX, 4)),
        Lists(Texts(&["é"])),
        Limits(5000),
        ByOther(FindsAll(&["é"; 200], &[Some(0); 200])),
        IsLimited(5000),
        ByNew(Call::Sums(5000, 4)),
        Lists(Texts(&["é"])),
        Limits(usize::MAX),
    ];
    runs_both::<Spur, FixedState>(&rt, Maker::Sized(50, 4, usize::MAX), &STEPS)
}

// Makes the calls for each length of texts.
fn runs_each_length(rt: &impl Host, maker: Maker, steps: &[Step]) -> Result<(), Fail> {
    for length in LENGTHS.iter() {
        let case = sized(*length);
        let rows = steps_of(rt.alloc(), case, steps)?;
        runs_both::<Spur, FixedState>(rt, maker_for(case, maker), &rows)?;
    }
    Ok(())
}

// The only bucket has the bytes of two of the texts, which are the limit. Looking up takes none of them.
#[test]
fn batches_of_texts_of_each_length(rt: HostRuntime) -> Result<(), Fail> {
    static STEPS: [Step; 11] = [
        ByOne(FindsAll(&["a-", "a.", "a-"], &[None, None, None])),
        Counts(0),
        ByOne(TakesAll(
            Texts(&["a-", "b-", "a-", "z", "c-"]),
            Are(&[0, 1, 0]),
            Some(LassoErrorKind::MemoryLimitReached),
        )),
        ByOther(FindsAll(
            &["a-", "a.", "b-", "b.", "a-", "z", "c-"],
            &[Some(0), None, Some(1), None, Some(0), None, None],
        )),
        ByOther(TakesAll(Texts(&["b-", "a-"]), Are(&[1, 0]), None)),
        Reads(0, Some("a-")),
        Reads(1, Some("b-")),
        Counts(2),
        Finds("c-", None),
        IsLimited(2 * SIZE),
        ByNew(Call::Sums(2 * SIZE, 2 * SIZE)),
    ];
    runs_each_length(&rt, Maker::Full(2 * SIZE), &STEPS)
}

// Some texts of the list come again in it, and some are present.
#[test]
fn many_new_texts_with_doubles(rt: HostRuntime) -> Result<(), Fail> {
    static STEPS: [Step; 5] = [
        ByOne(TakesAll(Texts(&["p", "q"]), Are(&[0, 1]), None)),
        ByOther(TakesAll(
            Texts(&[
                "a", "b", "", "a", "q", "c", "d", "e", "f", "", "g", "h", "b", "i", "j", "p", "k",
            ]),
            Are(&[2, 3, 4, 2, 1, 5, 6, 7, 8, 4, 9, 10, 3, 11, 12, 0, 13]),
            None,
        )),
        Lists(Texts(&[
            "p", "q", "a", "b", "", "c", "d", "e", "f", "g", "h", "i", "j", "k",
        ])),
        ByNew(Call::Sums(usize::MAX, 13)),
        Counts(14),
    ];
    runs_both::<Spur, FixedState>(&rt, Maker::Sized(50, 13, usize::MAX), &STEPS)
}

// Of many new texts the limit refuses the first whose byte has no room. The empty text needs none.
#[test]
fn many_new_texts_past_the_limit(rt: HostRuntime) -> Result<(), Fail> {
    static STEPS: [Step; 5] = [
        ByOne(TakesAll(
            Texts(&[
                "a", "b", "c", "d", "e", "f", "g", "h", "i", "j", "a", "", "k", "l", "m",
            ]),
            Are(&[0, 1, 2, 3, 4, 5, 6, 7, 8, 9, 0, 10]),
            Some(LassoErrorKind::MemoryLimitReached),
        )),
        Lists(Texts(&["a", "b", "c", "d", "e", "f", "g", "h", "i", "j", ""])),
        Finds("k", None),
        ByNew(Call::Sums(10, 10)),
        Counts(11),
    ];
    runs_both::<Spur, FixedState>(&rt, Maker::Full(10), &STEPS)
}

// 255 texts have a key.
#[test]
fn many_new_texts_past_the_last_key(rt: HostRuntime) -> Result<(), Fail> {
    static STEPS: [Step; 4] = [
        ByOne(TakesAll(Numbers(0, 250), From(0), None)),
        ByOther(TakesAll(
            Numbers(245, 300),
            Are(&[245, 246, 247, 248, 249, 250, 251, 252, 253, 254]),
            Some(LassoErrorKind::KeySpaceExhaustion),
        )),
        Finds("00255", None),
        Counts(255),
    ];
    runs_both::<MicroSpur, FixedState>(&rt, Maker::Sized(50, 4, usize::MAX), &STEPS)
}

// Each text has a byte, and only two have a key. The third takes its byte. No later one does, nor a batch of present texts,
// nor one without texts.
#[test]
fn batches_without_a_key_leave_the_bytes_of_later_texts(rt: HostRuntime) -> Result<(), Fail> {
    static STEPS: [Step; 10] = [
        ByOne(TakesAll(
            Texts(&["p", "q", "r", "s", "t", "u", "v", "w", "x", "y"]),
            Are(&[0, 1]),
            Some(LassoErrorKind::KeySpaceExhaustion),
        )),
        ByOne(FindsAll(&["q", "p"], &[Some(1), Some(0)])),
        ByOther(TakesAll(Texts(&["q", "p"]), Are(&[1, 0]), None)),
        ByOne(FindsAll(&[], &[])),
        ByOther(TakesAll(Texts(&[]), Are(&[]), None)),
        Interns(Way::TryCopied, "abc", NO_KEY),
        Interns(Way::TryCopied, "z", FULL),
        Counts(2),
        Uses(6),
        IsLimited(6),
    ];
    runs_as::<WithoutTwo, FixedState>(&rt, Maker::Full(6), &STEPS, PLAIN)
}

// Two threads intern both lists, each beginning with another one.
#[test]
fn batches_of_two_threads_that_meet(rt: HostRuntime) -> Result<(), Fail> {
    static HERE: [Step; 3] = [
        ByOne(TakesAll(Numbers(0, 300), Any, None)),
        ByOne(TakesAll(Numbers(200, 500), Any, None)),
        ByOne(TakesAll(Numbers(0, 500), Any, None)),
    ];
    static THERE: [Step; 3] = [
        ByOne(TakesAll(Numbers(200, 500), Any, None)),
        ByOne(TakesAll(Numbers(0, 300), Any, None)),
        ByOne(TakesAll(Numbers(0, 500), Any, None)),
    ];
    static LAST: [Step; 2] = [ByNew(Call::Counts(500)), Counts(500)];
    runs_in_two(&rt, &[], (&HERE, &THERE), &LAST, PLAIN)?;
    runs_in_two(&rt, &[], (&HERE, &THERE), &LAST, HINTED)
}

// Batches of a pass whose hints serve.

// Whatever pass would do it, no limit is set, no other text is interned, and only the bytes of new texts are taken.
#[test]
fn interning_a_batch_by_serving_hints_leaves_all_else(rt: HostRuntime) -> Result<(), Fail> {
    static STEPS: [Step; 11] = [
        ByOne(Call::Copies("é", Ok(0))),
        ByOne(Serves("é")),
        ByOne(TakesAll(Texts(&["ab", "", "é", "ab"]), Are(&[1, 2, 0, 1]), None)),
        IsLimited(usize::MAX),
        ByNew(Call::Sums(usize::MAX, 4)),
        Lists(Texts(&["é", "ab", ""])),
        Limits(5000),
        ByOne(TakesAll(Texts(&["ab", "é"]), Are(&[1, 0]), None)),
        IsLimited(5000),
        ByNew(Call::Sums(5000, 4)),
        Lists(Texts(&["é", "ab", ""])),
    ];
    runs_as::<Spur, FixedState>(&rt, Maker::Sized(50, 4, usize::MAX), &STEPS, HINTED)
}

#[test]
fn looking_up_a_batch_by_serving_hints_leaves_all(rt: HostRuntime) -> Result<(), Fail> {
    static STEPS: [Step; 11] = [
        ByOne(Call::Copies("é", Ok(0))),
        ByOne(Serves("é")),
        ByOne(FindsAll(&["ab", "é", ""], &[None, Some(0), None])),
        IsLimited(usize::MAX),
        ByNew(Call::Sums(usize::MAX, 4)),
        Lists(Texts(&["é"])),
        Limits(5000),
        ByOne(FindsAll(&["é"; 200], &[Some(0); 200])),
        IsLimited(5000),
        ByNew(Call::Sums(5000, 4)),
        Lists(Texts(&["é"])),
    ];
    runs_as::<Spur, FixedState>(&rt, Maker::Sized(50, 4, usize::MAX), &STEPS, HINTED)
}

// Two threads intern both lists, each beginning with another one.
#[test]
fn two_threads_whose_hints_serve(rt: HostRuntime) -> Result<(), Fail> {
    static FIRST: [Step; 1] = [ByNew(Call::Copies("00000", Ok(0)))];
    static HERE: [Step; 4] = [
        ByOne(Serves("00000")),
        ByOne(TakesAll(Numbers(0, 300), Any, None)),
        ByOne(TakesAll(Numbers(200, 500), Any, None)),
        ByOne(TakesAll(Numbers(0, 500), Any, None)),
    ];
    static THERE: [Step; 4] = [
        ByOne(Serves("00000")),
        ByOne(TakesAll(Numbers(200, 500), Any, None)),
        ByOne(TakesAll(Numbers(0, 300), Any, None)),
        ByOne(TakesAll(Numbers(0, 500), Any, None)),
    ];
    static LAST: [Step; 2] = [ByNew(Call::Counts(500)), Counts(500)];
    runs_in_two(&rt, &FIRST, (&HERE, &THERE), &LAST, HINTED)
}
