//! Setting and reading limits. Changes that a call may not hide under a pass of its own: a call that reads takes no bytes,
//! one that interns takes only the bytes of its text, and one that raises the limit never lowers it on the way.
use crate::checks::{is_so, is_so_at, runs, runs_each, runs_in, runs_in_one};
use Step::{
    AllocatesOver, ByNew, ByOne, ByOther, Counts, EachCopies, Finds, Interns, IsLimited, Limits,
    Reads, Takes, Uses,
};
use lasso_parts::keys::Spur;
use lasso_parts::util::LassoResult;
use std::alloc::{AllocError, Global};
use std::test::*;
use std::thread::join;
use test_steps::Host;
use test_steps::calls::{Caller, Shared, limited, made, refusal_of};
use test_steps::cases::{Maker, PLAIN, SIZE};
use test_steps::steps::{Call, FULL, Step, Way};
use test_steps::texts::LENGTHS;

#[test]
fn a_limit_is_what_was_set_last(rt: HostRuntime) -> Result<(), Fail> {
    static STEPS: [Step; 11] = [
        ByOne(Call::Limits(14)),
        ByOther(Call::Sums(14, 4)),
        Limits(0),
        ByOne(Call::Sums(0, 4)),
        // no limit refuses a static text
        ByOne(Call::Keeps("0123456789", Ok(0))),
        ByOther(Call::Limits(usize::MAX)),
        ByOther(Call::Limits(usize::MAX)),
        ByOther(Call::Reads(0, Some("0123456789"))),
        IsLimited(usize::MAX),
        Uses(4),
        Counts(1),
    ];
    runs(&rt, Maker::Sized(50, 4, 12), &STEPS)
}

// An odd number of 57 bits, whose bytes are all different.
const ODD: usize = 0x0123_4567_89ab_cdef;

// Each power of two and the number before it, and `ODD`, shifted right by 0 to 63 bits, and its complement.
fn limits(alloc: Global) -> Result<Vec<usize>, AllocError> {
    let mut limits = Vec::new(alloc);
    let mut bytes: usize = 1;
    let mut odd = ODD;
    for _ in 0..64u32 {
        limits.push(bytes)?;
        limits.push(bytes.saturating_sub(1))?;
        limits.push(odd)?;
        limits.push(usize::MAX.saturating_sub(odd))?;
        bytes = bytes.saturating_mul(2);
        odd /= 2;
    }
    Ok(limits)
}

// Each limit is set by a pass and without one, in turn with 7, and read by both.
#[test]
fn limits_of_each_size_are_kept(rt: HostRuntime) -> Result<(), Fail> {
    static STEPS: [Step; 12] = [
        Limits(7),
        IsLimited(7),
        ByOne(Call::Sums(7, 4096)),
        ByOne(Call::Limits(SIZE)),
        IsLimited(SIZE),
        ByOne(Call::Sums(SIZE, 4096)),
        ByOne(Call::Limits(7)),
        IsLimited(7),
        ByOne(Call::Sums(7, 4096)),
        Limits(SIZE),
        IsLimited(SIZE),
        ByOne(Call::Sums(SIZE, 4096)),
    ];
    // the last limit is the complement of 0, as `ODD` was shifted to nothing
    static LAST: [Step; 3] = [IsLimited(18_446_744_073_709_551_615), Uses(4096), Counts(0)];
    runs_in_one(&rt, Maker::Default, &STEPS, &limits(rt.alloc())?, &LAST)
}

static COPY: [Way; 1] = [Way::TryCopied];

// The only bucket has room for two of the texts.
#[test]
fn a_static_text_takes_no_bytes(rt: HostRuntime) -> Result<(), Fail> {
    static STEPS: [Step; 10] = [
        ByOne(Call::Keeps("a-", Ok(0))),
        Interns(Way::TryStatic, "b-", Ok(1)),
        Interns(Way::Static, "c-", Ok(2)),
        // nor if it is present
        ByOne(Call::Keeps("a-", Ok(0))),
        Interns(Way::TryStatic, "b-", Ok(1)),
        Interns(Way::Static, "c-", Ok(2)),
        Takes("d-", Ok(3)),
        Takes("e-", Ok(4)),
        Interns(Way::TryCopied, "z", FULL),
        ByOne(Call::Sums(2 * SIZE, 2 * SIZE)),
    ];
    runs_each::<Spur>(&rt, Maker::Full(2 * SIZE), &STEPS, &LENGTHS, &COPY)
}

// The only bucket has two bytes.
#[test]
fn no_new_limit_takes_a_byte(rt: HostRuntime) -> Result<(), Fail> {
    static STEPS: [Step; 5] = [
        Takes("ab", Ok(0)),
        Takes("c", FULL),
        Counts(1),
        Uses(2),
        IsLimited(2),
    ];
    let shared: Shared = limited(rt.alloc(), 2, 2)?;
    let mut caller = Caller::new(&rt, &shared);
    caller.set_limit_plainly(5);
    caller.set_limit(3);
    caller.set_limit_now(2);
    runs_in(&rt, &shared, &STEPS, PLAIN)
}

// The calls that copy a text by itself, and wait.
static WAITING: [Way; 4] = [Way::TryCopied, Way::Copied, Way::Item, Way::CopiedByPass];

// Four buckets of 10, 20, 40 and 80 bytes, which are the limit, have room for 3, 4, 5 and 6 bytes. A text goes into the
// newest, or else into the first with room.
#[test]
fn the_newest_bucket_is_asked_first_and_then_the_oldest(rt: HostRuntime) -> Result<(), Fail> {
    static STEPS: [Step; 13] = [
        Interns(Way::Given, "a seven", Ok(0)),
        Interns(Way::Given, "a sixteen_______", Ok(1)),
        Interns(Way::Given, "a thirty-five______________________", Ok(2)),
        Interns(
            Way::Given,
            "a seventy-four____________________________________________________________",
            Ok(3),
        ),
        Uses(150),
        Interns(Way::Given, "abc", Ok(4)),
        // only the newest had room for it before
        Interns(Way::Given, "abcdef", FULL),
        Interns(Way::Given, "def", Ok(5)),
        Interns(Way::Given, "ghi", Ok(6)),
        Interns(Way::Given, "abcd", Ok(7)),
        Interns(Way::Given, "abcde", Ok(8)),
        Interns(Way::Given, "z", FULL),
        Uses(150),
    ];
    runs_each::<Spur>(&rt, Maker::Sized(50, 10, 150), &STEPS, &[1], &WAITING)
}

// The first bucket has one byte, and the limit leaves the bytes of one text for another. The copied text takes
// that bucket, unless it fits in the first.
#[test]
fn no_static_text_sets_a_limit(rt: HostRuntime) -> Result<(), Fail> {
    static STEPS: [Step; 11] = [
        ByOne(Call::Keeps("a-", Ok(0))),
        ByOne(Call::Sums(SIZE + 1, 1)),
        IsLimited(SIZE + 1),
        Interns(Way::TryStatic, "b-", Ok(1)),
        ByOne(Call::Sums(SIZE + 1, 1)),
        IsLimited(SIZE + 1),
        Interns(Way::Static, "c-", Ok(2)),
        ByOne(Call::Sums(SIZE + 1, 1)),
        IsLimited(SIZE + 1),
        Takes("d-", Ok(3)),
        IsLimited(SIZE + 1),
    ];
    static ONE_BYTE: [Step; 3] = [
        Interns(Way::TryStatic, "a-", Ok(0)),
        Takes("d-", Ok(1)),
        ByOne(Call::Sums(SIZE + 1, 1)),
    ];
    static MORE: [Step; 3] = [
        Interns(Way::TryStatic, "a-", Ok(0)),
        Takes("d-", Ok(1)),
        ByOne(Call::Sums(SIZE + 1, SIZE + 1)),
    ];
    let maker = Maker::Sized(50, 1, SIZE + 1);
    runs_each::<Spur>(&rt, maker, &STEPS, &LENGTHS, &COPY)?;
    runs_each::<Spur>(&rt, maker, &ONE_BYTE, &[1], &COPY)?;
    let (_, longer) = LENGTHS.split_at(1);
    runs_each::<Spur>(&rt, maker, &MORE, longer, &COPY)
}

// Sets the limits from 0 to 99 and then `last`. Returns the limit that it reads then.
fn set_often(rt: &impl Host, shared: &Shared, last: usize) -> usize {
    let mut caller = Caller::new(rt, shared);
    for limit in 0..100usize {
        caller.set_limit(limit);
    }
    caller.set_limit(last);
    caller.sums().0
}

// Each thread reads its own last limit, or one that the other thread set later, and one of them the last.
#[test]
fn two_threads_set_limits(rt: HostRuntime) -> Result<(), Fail> {
    let shared = made(rt.alloc())?;
    let (a, b) = join(
        &rt,
        || set_often(&rt, &shared, 1000),
        || set_often(&rt, &shared, 2000),
    );
    let last = shared.max_memory_usage(&rt);
    is_so(&rt, a == 1000 || a == 2000 || a < 100, "one thread");
    is_so(&rt, b == 1000 || b == 2000 || b < 100, "the other thread");
    is_so(&rt, last == 1000 || last == 2000, "the last limit");
    is_so(&rt, a == last || b == last, "who set it");
    is_so(&rt, shared.current_memory_usage(&rt) == 4096, "the usage");
    Ok(())
}

// Changes that a call may not hide under a pass of its own: a call that reads takes no bytes, one that
// interns takes only the bytes of its text, and one that raises the limit never lowers it on the way.

// The number of each text, of five bytes. The bucket has their bytes alone.
static NUMBERS: [usize; 16] = [0, 1, 2, 3, 4, 5, 6, 7, 8, 9, 10, 11, 12, 13, 14, 15];

#[test]
fn look_ups_take_no_byte(rt: HostRuntime) -> Result<(), Fail> {
    static STEPS: [Step; 24] = [
        Finds("absent", None),
        Reads(SIZE, None),
        Counts(SIZE),
        Uses(80),
        IsLimited(80),
        ByOne(Call::Finds("absent", None)),
        ByOne(Call::Reads(SIZE, None)),
        ByOne(Call::Counts(SIZE)),
        ByOne(Call::Sums(80, 80)),
        Takes("#", Ok(SIZE)),
        Finds("#", Some(SIZE)),
        Reads(SIZE, Some("#")),
        ByOne(Call::Finds("#", Some(SIZE))),
        ByOne(Call::Reads(SIZE, Some("#"))),
        ByNew(Call::Finds("#", Some(SIZE))),
        ByOne(Call::Finds("absent", None)),
        ByOne(Call::Reads(SIZE + 1, None)),
        ByOne(Call::Counts(SIZE + 1)),
        ByOne(Call::Sums(80, 80)),
        Finds("absent", None),
        Reads(SIZE + 1, None),
        Counts(SIZE + 1),
        Uses(80),
        IsLimited(80),
    ];
    // no byte is left
    static LAST: [Step; 2] = [Takes("z", FULL), Counts(16)];
    runs_in_one(&rt, Maker::Full(80), &STEPS, &NUMBERS, &LAST)
}

// The only bucket has exactly the bytes of four texts of each length.
#[test]
fn an_intern_takes_the_bytes_of_its_text_alone(rt: HostRuntime) -> Result<(), Fail> {
    static STEPS: [Step; 16] = [
        Interns(Way::TryCopied, "a-", Ok(0)),
        ByOne(Call::Copies("a-", Ok(0))),
        EachCopies("a-", Ok(0)),
        Interns(Way::Copied, "b-", Ok(1)),
        ByOne(Call::Copies("b-", Ok(1))),
        EachCopies("b-", Ok(1)),
        Interns(Way::Item, "c-", Ok(2)),
        ByOne(Call::Copies("c-", Ok(2))),
        EachCopies("c-", Ok(2)),
        Limits(4 * SIZE),
        AllocatesOver(4 * SIZE),
        ByOne(Call::Copies("d-", Ok(3))),
        ByOne(Call::Copies("d-", Ok(3))),
        EachCopies("d-", Ok(3)),
        Takes("z", FULL),
        ByOne(Call::Sums(4 * SIZE, 4 * SIZE)),
    ];
    static COPY: [Way; 1] = [Way::TryCopied];
    runs_each::<Spur>(&rt, Maker::Full(4 * SIZE), &STEPS, &LENGTHS, &COPY)
}

// How many texts one thread interns while another raises the limit.
const EACH: u32 = 40;

// The limit that all texts need. None fits in the first bucket, of one byte, so each takes a bucket of its
// own 8 bytes.
const NEEDED: usize = 321;

// How many times the limit is raised at most, and how many times a thread looks whether the other has begun.
const TURNS: usize = 1000;

// Waits until the limit is raised, but not for ever, interns different texts of 8 bytes by a pass, and returns how many
// the limit refused.
fn refused_of(rt: &impl Host, shared: &Shared) -> LassoResult<usize> {
    let mut caller = Caller::new(rt, shared);
    for _ in 0..TURNS {
        if caller.sums().0 > NEEDED {
            break;
        }
    }
    let mut refused: usize = 0;
    for number in 0..EACH {
        let text = format!(in rt.alloc(); "{number:08}")?;
        if refusal_of(caller.copied(text.as_str()))?.is_some() {
            refused = refused.saturating_add(1);
        }
    }
    Ok(refused)
}

// How a limit is set: without a pass, with one, or with one and without waiting.
#[derive(Clone, Copy)]
enum Setting {
    Plain,
    ByPass,
    Now,
}

// Raises the limit byte by byte until all texts are seen, but not for ever. Returns how many times.
fn raised(rt: &impl Host, shared: &Shared, setting: Setting) -> usize {
    let mut caller = Caller::new(rt, shared);
    for raised in 0..TURNS {
        if caller.seen() >= EACH as usize {
            return raised;
        }
        let bytes = NEEDED.saturating_add(raised);
        match setting {
            Setting::Plain => caller.set_limit_plainly(bytes),
            Setting::ByPass => caller.set_limit(bytes),
            Setting::Now => caller.set_limit_now(bytes),
        }
    }
    TURNS
}

// One thread interns texts, and another raises the limit, which begins at what all texts need. None is refused, and the
// limit is what was set last.
#[test]
fn a_limit_that_rises_refuses_nothing(rt: HostRuntime) -> Result<(), Fail> {
    for turn in 0..30usize {
        let setting = [Setting::Plain, Setting::ByPass, Setting::Now][turn % 3];
        let shared: Shared = limited(rt.alloc(), 1, NEEDED)?;
        let (refused, raised) = join(
            &rt,
            || refused_of(&rt, &shared),
            || raised(&rt, &shared, setting),
        );
        is_so_at(&rt, refused? == 0, turn);
        let last = NEEDED.saturating_add(raised.saturating_sub(1));
        is_so_at(&rt, shared.max_memory_usage(&rt) == last, turn);
        is_so_at(&rt, shared.len() == EACH as usize, turn);
        is_so_at(&rt, shared.current_memory_usage(&rt) == NEEDED, turn);
    }
    Ok(())
}
