//! Threads that intern texts of their own and texts that all of them intern, also by passes with hints, and threads that
//! call two interners alternately.
use crate::checks::{is_so, runs_in, runs_in_two};
use Step::{ByNew, ByOne, Counts, Fills, IsLimited, Shows, Uses, UsesAtMost};
use lasso_parts::keys::Key;
use lasso_parts::util::LassoResult;
use std::test::*;
use std::thread::{join, map_indices};
use test_steps::Host;
use test_steps::calls::{Caller, Shared, limited, made};
use test_steps::cases::{HINTED, PLAIN};
use test_steps::passes::are_right_beside;
use test_steps::steps::{Call, Step, Way};
use test_steps::texts::List::Numbers;
use test_steps::texts::counted;

#[test]
fn two_threads_intern_by_each_call(rt: HostRuntime) -> Result<(), Fail> {
    static COPIED: [[Step; 1]; 2] = [
        [Fills(Way::Copied, &["a"], 4000)],
        [Fills(Way::Copied, &["b"], 4000)],
    ];
    static TRY_STATIC: [[Step; 1]; 2] = [
        [Fills(Way::TryStatic, &["a"], 4000)],
        [Fills(Way::TryStatic, &["b"], 4000)],
    ];
    static STATIC: [[Step; 1]; 2] = [
        [Fills(Way::Static, &["a"], 4000)],
        [Fills(Way::Static, &["b"], 4000)],
    ];
    static LAST: [Step; 1] = [Counts(8000)];
    for [a, b] in [&COPIED, &TRY_STATIC, &STATIC] {
        runs_in_two(&rt, &[], (a, b), &LAST, PLAIN)?;
    }
    Ok(())
}

// Texts of five letters. All threads intern those of the last one, in turn with their own.
static EACH: [[Step; 1]; 4] = [
    [Fills(Way::TryCopied, &["a", "e"], 4000)],
    [Fills(Way::TryCopied, &["b", "e"], 4000)],
    [Fills(Way::TryCopied, &["c", "e"], 4000)],
    [Fills(Way::TryCopied, &["d", "e"], 4000)],
];

// Four threads intern a list each, and the common one.
#[test]
fn four_threads_share_half_of_their_texts(rt: HostRuntime) -> Result<(), Fail> {
    // each list of 4000 texts has 14890 digits and 4000 letters: 94,450 bytes in all
    static LAST: [Step; 4] = [
        Counts(20_000),
        Shows(&["a", "b", "c", "d", "e"], 4000),
        UsesAtMost(4096 + 4 * 94_450),
        Step::EqualsItself,
    ];
    let shared = made(rt.alloc())?;
    let [a, b, c, d] = &EACH;
    let (here, there) = join(
        &rt,
        || are_right_beside(&rt, &shared, (a, b), PLAIN),
        || are_right_beside(&rt, &shared, (c, d), PLAIN),
    );
    is_so(&rt, here? && there?, "the keys");
    runs_in(&rt, &shared, &LAST, PLAIN)
}

// Threads that intern the same few texts, and threads that call two interners alternately.

static FEW: [&str; 16] = [
    "a", "bb", "ccc", "dddd", "e", "ff", "ggg", "hhhh", "i", "jj", "kkk", "llll", "m", "nn", "ooo",
    "pppp",
];

// Interns each of the few texts 1000 times, starting with the text at `first`, and returns their numbers.
// `None` if a text was refused or had two numbers.
fn numbers_of_few(rt: &impl Host, shared: &Shared, first: usize) -> Option<[usize; 16]> {
    let mut caller = Caller::new(rt, shared);
    let mut numbers = [usize::MAX; 16];
    for call in 0..16_000usize {
        let at = first.wrapping_add(call) % 16;
        let number = caller.copied(FEW[at]).ok()?.into_usize();
        if numbers[at] != usize::MAX && numbers[at] != number {
            return None;
        }
        numbers[at] = number;
    }
    Some(numbers)
}

// Eight threads get the same numbers, which are all below 16.
#[test]
fn few_texts(rt: HostRuntime) -> Result<(), Fail> {
    let shared = made(rt.alloc())?;
    let found = map_indices(
        &rt,
        rt.alloc(),
        8,
        &|thread| numbers_of_few(&rt, &shared, thread.wrapping_mul(2)),
    )?;
    let Some(Some(first)) = found.first() else {
        return Err(Fail::from("no numbers"));
    };
    is_so(&rt, found.len() == 8, "eight threads");
    for numbers in found.iter() {
        is_so(&rt, *numbers == Some(*first), "the same numbers");
    }
    for number in 0..16usize {
        is_so(&rt, first.contains(&number), "each number");
    }
    is_so(&rt, shared.len() == 16, "the count");
    Ok(())
}

// Interns the number of each of 1000 rows in the two interners, as a text of its own. Returns whether each key
// resolves to its text.
fn interns_in_turn(
    rt: &impl Host,
    one: (&Shared, &str),
    other: (&Shared, &str),
) -> LassoResult<bool> {
    let mut all = true;
    for number in 1000..2000usize {
        for (shared, letter) in [one, other] {
            let text = counted(rt.alloc(), letter, number)?;
            all &= Caller::new(rt, shared).resolves_to(Way::CopiedByPass, text)?;
        }
    }
    Ok(all)
}

// Interns the texts in two threads, which call the interners in opposite order. Returns whether each key
// resolves to its text.
fn both_intern(rt: &impl Host, one: &Shared, other: &Shared) -> LassoResult<bool> {
    let (a, b) = join(
        rt,
        || interns_in_turn(rt, (one, "a"), (other, "b")),
        || interns_in_turn(rt, (other, "b"), (one, "a")),
    );
    let (a, b) = (a?, b?);
    Ok(a && b)
}

// Two times two threads fill the interners, of which one has room for exactly its 1000 texts of 5 bytes. Interning the
// texts again adds none.
#[test]
fn two_interners(rt: HostRuntime) -> Result<(), Fail> {
    static ONE: [Step; 3] = [Counts(1000), Uses(5000), IsLimited(5000)];
    static OTHER: [Step; 2] = [Counts(1000), IsLimited(usize::MAX)];
    let (one, other): (Shared, Shared) = (limited(rt.alloc(), 5000, 5000)?, made(rt.alloc())?);
    let (first, second) = join(
        &rt,
        || both_intern(&rt, &one, &other),
        || both_intern(&rt, &one, &other),
    );
    is_so(&rt, first? && second?, "the texts");
    let holds = interns_in_turn(&rt, (&one, "a"), (&other, "b"))?;
    is_so(&rt, holds, "again");
    runs_in(&rt, &one, &ONE, PLAIN)?;
    runs_in(&rt, &other, &OTHER, PLAIN)
}

// Passes that keep hints.

// Two threads intern both lists, each beginning with another one.
#[test]
fn hints_of_two_threads_that_meet(rt: HostRuntime) -> Result<(), Fail> {
    static HERE: [Step; 2] = [
        ByOne(Call::Resolves(Numbers(0, 100))),
        ByOne(Call::Resolves(Numbers(100, 200))),
    ];
    static THERE: [Step; 2] = [
        ByOne(Call::Resolves(Numbers(100, 200))),
        ByOne(Call::Resolves(Numbers(0, 100))),
    ];
    static LAST: [Step; 2] = [ByNew(Call::Counts(200)), Counts(200)];
    runs_in_two(&rt, &[], (&HERE, &THERE), &LAST, HINTED)
}
