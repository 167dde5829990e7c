//! The shards: 16 indexes, each under its own lock, and the spine under another.
//!
//! A text is of one shard, by its hash. A shard's index is exact for a history that the shard has seen. So it
//! is for each history that begins with that one and has no more texts of the shard, which the spine's number
//! of them shows. A thread that holds a shard's lock may lock the spine; one that holds the spine's may try to
//! lock a shard, but never waits for one. A thread that adds a bucket holds the spine's lock and locks a third,
//! that of what is owned of the buckets (`holdings` of the log's memory), under which no other is locked.
ghost use Rattle.std.specs.Prelude.{◌≡◌, ◌<◌, ℕ, length, Some, slice_get};
ghost use Rattle.lasso_log.specs.SharedBuckets.{names_with_book};
ghost use Rattle.lasso_log.specs.Views.{InternerId};

mod append;
mod batches;
mod compare_with_spine;
mod guesses;
mod intern;
mod intern_together;
mod limits;
mod look_ahead;
mod look_up;
mod memory;
mod new_shards;
pub mod new_text;
mod open;
pub mod parts;
pub mod shard;
mod store;
pub mod tag;
mod without_waiting;

use crate::shards::shard::{BoxedShard, BoxedTally};
use lasso_lock::locks::{TaggedMutex, TaggedRwLock};
use lasso_log::log::Log;
use lasso_log::log::buckets::list::BucketList;
use lasso_parts::keys::Key;
use std::alloc::Global;
use std::hash::BuildHasher;

/// The log, the buckets, the hasher and the locks of one interner. The hasher is outside the locks; a growth asks it while its shard is held.
#[derive(Drop)]
pub struct Shards<K: Key, S: BuildHasher + Drop> {
    pub log: Log<K>,
    pub hasher: S,
    shards: Vec<TaggedRwLock<BoxedShard<K, S>>>,
    // The padding is never read. It keeps the spine's lock on a cache line of its own.
    padding_before: [u64; 8],
    pub spine: TaggedMutex<BoxedTally<K, S>>,
    padding_after: [u64; 8],
    pub buckets: BucketList<K>,
    alloc: Global,
    ghost all: { length shards.items ≡ 16 },
    ghost tags: { (i : ℕ) → i < 16 → slice_get shards.items i ≡ Some (record { log = log; hasher = hasher; number = i }) },
    ghost spine_log: { spine.log ≡ log },
    ghost spine_hasher: { spine.hasher ≡ hasher },
    ghost buckets_log: { buckets ≡ names_with_book log },
}

impl<K: Key, S: BuildHasher + Drop> Shards<K, S> {
    /// The lock round the shard of this number, below 16. While a caller holds it for writing, calls about
    /// the shard's texts wait; while one holds it for reading, other readers still find present texts.
    pub fn lock(&self, number: usize) -> &TaggedRwLock<BoxedShard<K, S>>
        requires { number < 16 }
        ensures { (result.now.log ≡ self.now.log) × (result.now.hasher ≡ self.now.hasher) × (result.now.number ≡ number) }
    {
        &self.shards[number]
    }
}
