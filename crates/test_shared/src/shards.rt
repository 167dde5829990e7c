//! Calls of different shards, which do not wait for each other; many texts in one shard; and the cells of
//! refused texts, which are freed.
mod batches;
mod hints;
mod writers;

use crate::checks::{is_so, is_so_at, runs_in};
use Step::{Counts, Finds, Keeps};
use lasso_log::log::Opened;
use lasso_parts::index::hash_text;
use lasso_parts::keys::{Key, MicroSpur, Spur};
use lasso_parts::util::{FixedState, LassoErrorKind, LassoResult};
use lasso_shared::shards::Shards;
use lasso_shared::shards::new_text::NewText;
use lasso_shared::shards::tag::number_of;
use lasso_shared::threaded::ThreadedRodeo;
use std::alloc::Global;
use std::hash::BuildHasher;
use std::sync::atomic::{AtomicU64, Ordering};
use std::test::*;
use std::thread;
use std::thread::join;
use test_common::hashers::{FirstState, SameState};
use test_steps::Host;
use test_steps::calls::{answered, numbered};
use test_steps::cases::PLAIN;
use test_steps::steps::{NO_KEY, Reply, Step};
use test_steps::texts::List::Numbers;
use test_steps::texts::items_of;

const OPENED: Opened = Opened {
    size: 4096,
    limit: u64::MAX,
};

// How many times a test looks for a flag before it gives up. It yields after each.
const TURNS: u32 = 10_000_000;

// Waits for the flag, but not for ever. Returns whether it was set.
fn is_seen(flag: &AtomicU64) -> bool {
    for _ in 0..TURNS {
        if flag.load(Ordering::SeqCst) != 0 {
            return true;
        }
        thread::yield_now();
    }
    false
}

// An interner without texts, whose hasher gives the first byte.
fn opened(alloc: Global) -> LassoResult<Shards<Spur, FirstState>> {
    Shards::open(alloc, FirstState::new(), OPENED)
}

// Interns a static text by a new pass, and returns its number.
fn intern_static<K: Key, S: BuildHasher + Drop>(
    rt: &impl Host,
    shards: &Shards<K, S>,
    text: &'static str,
) -> LassoResult<usize> {
    numbered(shards.intern(rt, &mut shards.log.pass(), NewText::Static(text)))
}

// `0` and `a` are texts of shards 3 and 6. Another thread interns `a` while the shard of `0` is locked for writing.
#[test]
fn shards_apart(rt: HostRuntime) -> Result<(), Fail> {
    let hasher = FirstState::new();
    is_so(&rt, number_of(hash_text(&hasher, "0")) == 3, "shard 3");
    is_so(&rt, number_of(hash_text(&hasher, "a")) == 6, "shard 6");
    let (shards, flag) = (opened(rt.alloc())?, AtomicU64::new(0));
    let (guard, shard) = shards.lock(3).write(&rt);
    let (seen, ()) = join(
        &rt,
        || is_seen(&flag),
        || if intern_static(&rt, &shards, "a").is_ok() {
            flag.store(1, Ordering::SeqCst);
        },
    );
    guard.unlock(&rt, shard);
    is_so(&rt, seen, "the flag");
    Ok(())
}

// Looks up a present text, interns it as a static and as a copied one, and then sets the flag.
fn find_and_set(
    rt: &impl Host,
    shards: &Shards<Spur, FirstState>,
    text: &'static str,
    flag: &AtomicU64,
) {
    let mut pass = shards.log.pass();
    let found = shards.get(rt, &mut pass, text).is_some();
    let kept = shards.intern(rt, &mut pass, NewText::Static(text)).is_ok();
    let copied = shards.intern(rt, &mut pass, NewText::Copied(text)).is_ok();
    if found && kept && copied {
        flag.store(1, Ordering::SeqCst);
    }
}

// `0` is found and interned while its shard is locked for reading.
#[test]
fn a_text_that_is_there_is_found_beside_readers(rt: HostRuntime) -> Result<(), Fail> {
    let (shards, flag) = (opened(rt.alloc())?, AtomicU64::new(0));
    intern_static(&rt, &shards, "0")?;
    let reading = shards.lock(3).read(&rt);
    let (seen, ()) = join(
        &rt,
        || is_seen(&flag),
        || find_and_set(&rt, &shards, "0", &flag),
    );
    reading.unlock();
    is_so(&rt, seen, "the flag");
    Ok(())
}

// The texts are of one shard, and have one hash.
#[test]
fn constant_hash(rt: HostRuntime) -> Result<(), Fail> {
    static STEPS: [Step; 4] = [
        Keeps(Numbers(0, 300)),
        Finds("00299", Some(299)),
        Finds("300", None),
        Counts(300),
    ];
    let shared: ThreadedRodeo<Spur, SameState> = ThreadedRodeo::with_hasher(
        rt.alloc(),
        SameState::new(),
    )?;
    runs_in(&rt, &shared, &STEPS, PLAIN)?;
    let items = items_of(rt.alloc(), Numbers(0, 300))?;
    for (position, text) in items.iter().enumerate() {
        let key = shared.get(&rt, *text).ok_or("absent")?;
        is_so_at(&rt, key.into_usize() == position, position);
    }
    let reader = shared.into_reader(&rt)?;
    for (position, text) in items.iter().enumerate() {
        let key = reader.get(*text).ok_or("absent")?;
        is_so_at(&rt, key.into_usize() == position, position);
    }
    is_so(&rt, reader.len() == 300, "the reader");
    is_so(&rt, reader.get("300").is_none(), "another text");
    Ok(())
}

// How many cells the spine keeps for texts to come.
fn kept_cells(rt: &impl Host, shards: &Shards<MicroSpur, FixedState>) -> u64 {
    let (guard, held) = shards.spine.lock(rt);
    let kept = held.tally.spine.kept();
    guard.unlock(rt, held);
    kept
}

// Interns the text, again if memory runs out and no cell is kept. Returns its number, or why it was refused.
fn number(rt: &impl Host, shards: &Shards<MicroSpur, FixedState>, text: &'static str) -> Reply {
    match answered(intern_static(rt, shards, text)) {
        Err(LassoErrorKind::FailedAllocation) if kept_cells(rt, shards) == 0 => {
            answered(intern_static(rt, shards, text))
        }
        reply => reply,
    }
}

// Fails unless interning the text, as a static one, returns its number or the refusal, and then no cell is kept.
fn answers(
    rt: &impl Host,
    shards: &Shards<MicroSpur, FixedState>,
    text: &'static str,
    wanted: Reply,
) {
    is_so(rt, number(rt, shards, text) == wanted, text);
    is_so(rt, kept_cells(rt, shards) == 0, "the cells");
}

// Fails unless a copy of the text is refused for this reason, and then no cell is kept.
fn refuses(
    rt: &impl Host,
    shards: &Shards<MicroSpur, FixedState>,
    text: &str,
    wanted: LassoErrorKind,
) {
    let reply = answered(shards.intern(rt, &mut shards.log.pass(), NewText::Copied(text)));
    is_so(rt, reply.err() == Some(wanted), text);
    is_so(rt, kept_cells(rt, shards) == 0, "the cells");
}

// A call that does not wait makes the cells after its text's too: a call that looked at sixteen ahead before many of
// these finds its own.
#[test]
fn cells_are_made_past_a_text_that_did_not_wait(rt: HostRuntime) -> Result<(), Fail> {
    let shards: Shards<Spur, FixedState> = Shards::open(rt.alloc(), FixedState::new(), OPENED)?;
    let mut pass = shards.log.pass();
    for (position, text) in items_of(rt.alloc(), Numbers(0, 300))?.iter().enumerate() {
        let reply = shards.intern_now(&mut pass, text).map(numbered);
        is_so(
            &rt,
            matches!(reply, Some(Ok(number)) if number == position),
            text,
        );
        is_so(&rt, shards.log.cells() >= position as u64 + 16, "the cells");
    }
    Ok(())
}

// All 255 keys are used up by static texts. No refused text keeps a cell.
#[test]
fn a_refused_text_gives_its_slot_back(rt: HostRuntime) -> Result<(), Fail> {
    let of_four_bytes = Opened { size: 4, limit: 4 };
    let shards = Shards::open(rt.alloc(), FixedState::new(), of_four_bytes)?;
    for (position, text) in items_of(rt.alloc(), Numbers(0, 255))?.iter().enumerate() {
        answers(&rt, &shards, *text, Ok(position));
    }
    // no key is left for another text, nor for the empty one
    answers(&rt, &shards, "255", NO_KEY);
    answers(&rt, &shards, "", NO_KEY);
    // the first copy takes three of the four bytes, though it has no key
    refuses(&rt, &shards, "256", LassoErrorKind::KeySpaceExhaustion);
    refuses(&rt, &shards, "257", LassoErrorKind::MemoryLimitReached);
    // present texts keep theirs
    answers(&rt, &shards, "00000", Ok(0));
    Ok(())
}
