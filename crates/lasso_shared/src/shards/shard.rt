//! What is under the locks: a shard, and the spine with the shards' numbers.
ghost use Rattle.std.specs.Prelude.{◌≡◌, IfOk, IfErr};
ghost use Rattle.lasso_parts.specs.declared.util.LassoErrorKind.TheVariants.{FailedAllocation};

use crate::shards::tag::ShardTag;
use lasso_lock::latch::Fits;
use lasso_log::log::{Snapshot, Spine};
use lasso_parts::index::Index;
use lasso_parts::keys::Key;
use lasso_parts::util::LassoResult;
use std::alloc::Global;
use std::hash::BuildHasher;
use std::marker::PhantomData;

/// The index of a shard's texts in a history that was seen, and how many they are.
#[derive(Drop)]
pub struct Shard<K: Key, S: BuildHasher + Drop> {
    pub(super) index: Index<K, Global>,
    pub(super) count: u64,
    pub(super) known: Snapshot<K>,
    pub(super) of: PhantomData<S>,
}

/// What a shard's lock keeps: a box, so that locking moves a pointer and not the shard.
#[derive(Drop)]
pub struct BoxedShard<K: Key, S: BuildHasher + Drop> {
    pub shard: Box<Shard<K, S>>,
}

impl<K: Key, S: BuildHasher + Drop> BoxedShard<K, S> {
    // A box with this shard. Its only error is `FailedAllocation`.
    pub(super) fn around(alloc: Global, shard: Shard<K, S>) -> LassoResult<Self>
        ensures shard { IfOk result (λ b. b.shard.value ≡ shard) }
        ensures refused { IfErr result (λ error. error ≡ FailedAllocation) }
    {
        Ok(BoxedShard {
            shard: Box::new(alloc, shard)?,
        })
    }
}

impl<K: Key, S: BuildHasher + Drop> Fits for BoxedShard<K, S> {
    type Tag = ShardTag<K, S>;

    ghost use Rattle.lasso_parts.specs.Hashing.{hash_by};
    ghost use Rattle.lasso_shared.specs.Locked.{IsLocked};

    ghost fits = { λ tag b. IsLocked (hash_by S.BuildHasher S.Hasher.Hasher tag.hasher) tag.number tag.log b.shard.value };
}

/// The spine, and how many texts each shard has in the history that the spine has seen.
#[derive(Drop)]
pub struct Tally<K: Key, S: BuildHasher + Drop> {
    pub spine: Spine<K>,
    pub(super) counts: [u64; 16],
    pub(super) of: PhantomData<S>,
}

/// What the spine's lock keeps. It is a box, so that locking moves a pointer and not the numbers.
#[derive(Drop)]
pub struct BoxedTally<K: Key, S: BuildHasher + Drop> {
    pub tally: Box<Tally<K, S>>,
}

impl<K: Key, S: BuildHasher + Drop> BoxedTally<K, S> {
    // A tally with these numbers. It fails only out of memory (`FailedAllocation`).
    pub(super) fn new(alloc: Global, spine: Spine<K>, counts: [u64; 16]) -> LassoResult<Self>
        ensures spine { IfOk result (λ b. b.tally.value.spine ≡ spine) }
        ensures counts { IfOk result (λ b. b.tally.value.counts ≡ counts) }
        ensures refused { IfErr result (λ error. error ≡ FailedAllocation) }
    {
        let tally = Tally {
            spine,
            counts,
            of: PhantomData,
        };
        Ok(BoxedTally {
            tally: Box::new(alloc, tally)?,
        })
    }
}

impl<K: Key, S: BuildHasher + Drop> Fits for BoxedTally<K, S> {
    type Tag = ShardTag<K, S>;

    ghost use Rattle.lasso_parts.specs.Hashing.{hash_by};
    ghost use Rattle.lasso_shared.specs.Shards.{IsTally};

    ghost fits = { λ tag b. IsTally (hash_by S.BuildHasher S.Hasher.Hasher tag.hasher) tag.log b.tally.value.spine b.tally.value.counts };
}
