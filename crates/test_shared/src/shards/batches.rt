//! A batch of new texts that comes to a shard which another thread reads. It waits for the reader, but does not hold the
//! spine meanwhile.
use crate::checks::is_so;
use crate::shards::{OPENED, TURNS, is_seen};
use lasso_parts::keys::{Key, Spur};
use lasso_parts::util::LassoResult;
use lasso_shared::shards::Shards;
use std::sync::atomic::{AtomicU64, Ordering};
use std::test::*;
use std::thread::{join, yield_now};
use test_common::hashers::FirstState;
use test_steps::Host;

// The last one is of shard 3, and those before it are of shard 6. All are new, and as many as are appended together.
static TEXTS: [&str; 13] = [
    "a", "b", "c", "d", "e", "f", "g", "h", "i", "j", "k", "l", "0",
];

// Interns the texts by one call, once the shard is read. Returns whether their numbers count from 0.
fn interns_all(
    rt: &impl Host,
    shards: &Shards<Spur, FirstState>,
    is_read: &AtomicU64,
) -> LassoResult<bool> {
    let mut keys = Vec::new(rt.alloc());
    let mut all = is_seen(is_read);
    shards.intern_all(rt, &mut shards.log.pass(), &TEXTS, &mut keys)?;
    for (number, key) in keys.iter().enumerate() {
        all &= key.into_usize() == number;
    }
    Ok(all && keys.len() == TEXTS.len())
}

// Waits until all texts but the last one are there and the spine is free, but not for ever. Returns whether that came.
fn is_spine_let_go(shards: &Shards<Spur, FirstState>) -> bool {
    let mut pass = shards.log.pass();
    for _ in 0..TURNS {
        if shards.log.len(&mut pass) == TEXTS.len() as u64 - 1 {
            if let Some((guard, held)) = shards.spine.lock_now() {
                guard.put_back(held);
                return true;
            }
        }
        yield_now();
    }
    false
}

// Reads the last text's shard until the spine is free and all other texts are there. Returns whether that came.
fn reads(rt: &impl Host, shards: &Shards<Spur, FirstState>, is_read: &AtomicU64) -> bool {
    let reading = shards.lock(3).read(rt);
    is_read.store(1, Ordering::SeqCst);
    let is_free = is_spine_let_go(shards);
    reading.unlock();
    is_free
}

#[test]
fn a_batch_that_waits_for_a_shard_lets_the_spine_go(rt: HostRuntime) -> Result<(), Fail> {
    // the indexes and the list have room, so the texts of shard 6 are appended under one hold of the spine
    let shards = Shards::open_for(rt.alloc(), FirstState::new(), OPENED, 1024)?;
    shards.log.make_cells(rt.alloc(), 64)?;
    let is_read = AtomicU64::new(0);
    let (is_free, are_numbered) = join(
        &rt,
        || reads(&rt, &shards, &is_read),
        || interns_all(&rt, &shards, &is_read),
    );
    is_so(&rt, is_free, "the spine");
    is_so(&rt, are_numbered?, "the numbers");
    Ok(())
}
