//! A thread that sets one limit after another, or lets it fall to 0, beside a thread that makes every other call: none
//! of these sets a limit, and no limit is in force that was never set.
use crate::checks::{is_so, is_so_at, runs_in};
use Step::{
    AllocatesOver, ByOne, Counts, EachCopies, EqualsItself, Extends, Finds, Interns, IsLimitedFrom,
    Reads, Uses,
};
use lasso_parts::keys::{Key, Spur};
use lasso_parts::util::{Capacity, FixedState, LassoErrorKind, LassoResult};
use lasso_shared::threaded::ThreadedRodeo;
use lasso_single::rodeo::Rodeo;
use std::alloc::Global;
use std::sync::atomic::{AtomicBool, Ordering};
use std::test::*;
use std::thread::join;
use test_common::texts::{lettered, numbered};
use test_steps::Host;
use test_steps::calls::{Caller, Shared, limited, refusal_of};
use test_steps::cases::{PLAIN, SIZE, reads_what_it_sets, sized};
use test_steps::passes::first_wrong_of;
use test_steps::steps::{Call, Step, Way};
use test_steps::texts::KeyNumbers::{Any, From};
use test_steps::texts::List::{Numbers, Texts};

// The bytes of the only bucket, which has room for all texts. Each limit is greater.
const BYTES: usize = 100_000;

// How many texts the other thread interns.
const COUNT: usize = 300;

// Each call but those that set a limit, take a list or show all texts, of a text and of the static text 0.
static CALLS: [Step; 20] = [
    EachCopies("#", Ok(SIZE)),
    ByOne(Call::Copies("#", Ok(SIZE))),
    Interns(Way::TryStatic, "s", Ok(0)),
    Interns(Way::Static, "s", Ok(0)),
    ByOne(Call::Keeps("s", Ok(0))),
    Finds("#", Some(SIZE)),
    Finds("absent", None),
    ByOne(Call::Finds("#", Some(SIZE))),
    ByOne(Call::Finds("absent", None)),
    ByOne(Call::Reads(SIZE, Some("#"))),
    ByOne(Call::Reads(SIZE + 1, None)),
    ByOne(Call::Counts(SIZE + 1)),
    ByOne(Call::Uses(BYTES)),
    Reads(SIZE, Some("#")),
    Reads(SIZE + 1, None),
    Uses(BYTES),
    IsLimitedFrom(BYTES),
    AllocatesOver(BYTES),
    EqualsItself,
    Counts(SIZE + 1),
];

// Each call that takes a list, of a new text and of present ones, and of an absent one.
static BATCHES: [Step; 3] = [
    ByOne(Call::TakesAll(Texts(&["#", "s", "#"]), Any, None)),
    ByOne(Call::TakesAll(Numbers(SIZE, SIZE + 1), From(SIZE), None)),
    ByOne(Call::FindsAll(&["s", "absent"], &[Some(0), None])),
];

// Compares the interner with each form of another list. Returns whether it differs.
fn differs(rt: &impl Host, shared: &Shared) -> LassoResult<bool> {
    let rodeo: Rodeo<Spur, FixedState, Global> = Rodeo::from_iter(rt.alloc(), ["other"])?;
    let mut same = shared.eq_rodeo(rt, &rodeo);
    let reader = rodeo.into_reader();
    same |= shared.eq_reader(rt, &reader);
    Ok(!shared.eq_resolver(rt, &reader.into_resolver()) && !same)
}

// Makes each call for each of `COUNT` texts. Returns whether all replies are right.
fn makes_all_calls(rt: &impl Host, shared: &Shared, calls: &[Step]) -> LassoResult<bool> {
    let mut all = true;
    for number in 1..=COUNT {
        all &= first_wrong_of(rt, shared, calls, sized(number))? == calls.len();
        all &= differs(rt, shared)?;
    }
    Ok(all)
}

// Sets limits in one thread, `count` from `least` on, while another makes the calls. Returns whether each is read as it
// was set, and what the calls returned.
fn sets_beside<F: Fn() -> LassoResult<bool> + Sync + Drop>(
    rt: &impl Host,
    shared: &Shared,
    least: usize,
    count: usize,
    calls: F,
) -> (bool, LassoResult<bool>) {
    let done = AtomicBool::new(false);
    join(
        rt,
        || reads_what_it_sets(rt, shared, &done, least, count),
        || {
            let made = calls();
            done.store(true, Ordering::SeqCst);
            made
        },
    )
}

// Fails unless limits are read as they are set while another thread makes each call.
fn limits_stay(rt: &impl Host, calls: &[Step]) -> Result<(), Fail> {
    let shared: Shared = limited(rt.alloc(), BYTES, BYTES)?;
    let first = shared.try_get_or_intern_static(rt, "s")?;
    is_so(rt, first.into_usize() == 0, "the first text");
    let (set, made) = sets_beside(rt, &shared, BYTES, 1_000_000, || {
        makes_all_calls(rt, &shared, calls)
    });
    is_so(rt, set, "the limits");
    is_so(rt, made?, "the calls");
    is_so(rt, shared.len() == COUNT + 1, "the texts");
    Ok(())
}

#[test]
fn no_other_call_sets_a_limit(rt: HostRuntime) -> Result<(), Fail> {
    limits_stay(&rt, &CALLS)
}

#[test]
fn no_call_of_a_list_sets_a_limit(rt: HostRuntime) -> Result<(), Fail> {
    limits_stay(&rt, &BATCHES)
}

// How many texts the interner has that is shown.
const SHOWN: usize = 20;

// Walks over the texts, writes them as JSON and as debug text, and copies their list, by a pass with hints and without
// one. Returns whether all are there.
fn shows(rt: &impl Host, shared: &Shared) -> LassoResult<bool> {
    let alloc = rt.alloc();
    let mut pass = shared.pass_with_hints(alloc);
    let mut all = shared.iter().len() == SHOWN && shared.strings().len() == SHOWN;
    all &= shared.iter_as(&mut pass).len() == SHOWN;
    all &= shared.strings_as(&mut pass).len() == SHOWN;
    all &= shared.serialize(alloc).is_ok();
    all &= shared.serialize_as(alloc, &mut pass).is_ok();
    all &= !format!(in alloc; "{shared:?}")?.is_empty();
    let list = shared.seen_list_as(&mut pass);
    let copy = shared.copy_list(alloc, &list, FixedState::new())?;
    Ok(all && copy.len() == SHOWN)
}

// Shows the texts again and again. Returns whether all are there each time.
fn shows_often(rt: &impl Host, shared: &Shared) -> LassoResult<bool> {
    let mut all = true;
    for _ in 0..COUNT {
        all &= shows(rt, shared)?;
    }
    Ok(all)
}

#[test]
fn no_call_that_shows_texts_sets_a_limit(rt: HostRuntime) -> Result<(), Fail> {
    static FIRST: [Step; 1] = [Extends(Numbers(0, SHOWN), None)];
    let shared: Shared = limited(rt.alloc(), BYTES, BYTES)?;
    runs_in(&rt, &shared, &FIRST, PLAIN)?;
    let (set, shown) = sets_beside(&rt, &shared, BYTES, 1_000_000, || shows_often(&rt, &shared));
    is_so(&rt, set, "the limits");
    is_so(&rt, shown?, "the texts");
    Ok(())
}

// How often each text is refused, so that the other thread sets limits meanwhile.
const ROUNDS: usize = 50;

// Whether the limit refuses each copy of the texts, each time.
fn are_refused(rt: &impl Host, shared: &Shared, texts: &[String]) -> LassoResult<bool> {
    let mut all = true;
    for _ in 0..ROUNDS {
        for text in texts.iter() {
            let refusal = refusal_of(shared.try_get_or_intern(rt, text.as_str()))?;
            all &= refusal == Some(LassoErrorKind::MemoryLimitReached);
        }
    }
    Ok(all)
}

// Of the limits 0 and 1, none leaves room for a text of five bytes besides the first bucket, of one byte.
#[test]
fn no_limit_is_lifted_for_a_moment(rt: HostRuntime) -> Result<(), Fail> {
    static LAST: [Step; 2] = [Counts(0), Uses(1)];
    let texts = numbered(rt.alloc(), 1000)?;
    let shared: Shared = limited(rt.alloc(), 1, 1)?;
    let (set, refused) = sets_beside(&rt, &shared, 0, 2, || are_refused(&rt, &shared, &texts));
    is_so(&rt, set && refused?, "the replies");
    runs_in(&rt, &shared, &LAST, PLAIN)
}

// A limit that falls to 0 while another thread interns.

// How many texts the thread has to intern.
const EACH: u32 = 1000;

// Interns the texts in order, and returns how many got their position as their number. `None` unless the
// limit refused all texts after these.
fn keys_before_refusals(rt: &impl Host, shared: &Shared, texts: &[String]) -> Option<usize> {
    let mut caller = Caller::new(rt, shared);
    let mut taken: usize = 0;
    for (position, text) in texts.iter().enumerate() {
        match caller.copied(text.as_str()) {
            Ok(key) if key.into_usize() == position && taken == position => {
                taken = position.saturating_add(1);
            }
            Err(error) if error.kind() == LassoErrorKind::MemoryLimitReached => {}
            _ => return None,
        }
    }
    Some(taken)
}

// Waits for `awaited` texts, but not for ever. Then sets the limit to 0, and returns the usage.
fn usage_after_fall(rt: &impl Host, shared: &Shared, awaited: usize) -> usize {
    let mut caller = Caller::new(rt, shared);
    for _ in 0..1_000_000usize {
        if caller.seen() >= awaited {
            break;
        }
    }
    caller.set_limit(0);
    caller.sums().1
}

// The texts are interned in one thread, and another lets the limit fall after some of them. None of the texts `t0`,
// `t1` and so on is shorter than an earlier one.
#[test]
fn limit_falls(rt: HostRuntime) -> Result<(), Fail> {
    let texts = lettered(rt.alloc(), "t", EACH)?;
    for awaited in [0usize, 1, 2, 5, 20, 100, 300, 600, 900, 1000] {
        let shared: Shared = ThreadedRodeo::with_capacity(rt.alloc(), Capacity::for_bytes(16))?;
        let (taken, bytes) = join(
            &rt,
            || keys_before_refusals(&rt, &shared, &texts),
            || usage_after_fall(&rt, &shared, awaited),
        );
        let taken = taken.ok_or("the replies")?;
        is_so_at(&rt, shared.current_memory_usage(&rt) == bytes, awaited);
        is_so_at(&rt, shared.len() == taken, awaited);
        let reader = shared.into_reader(&rt)?;
        is_so_at(&rt, reader.len() == taken, awaited);
        for (text, wanted) in reader.strings().zip(texts.iter()) {
            is_so_at(&rt, text == wanted.as_str(), awaited);
        }
    }
    Ok(())
}
