//! The shards of an interner that opens with texts: which texts are of which shard, and an index of each shard's.
//!
//! The texts are hashed once to find their shards. Then each shard takes those of its number, in the order of their positions: one walk over the hashes for
//! each of the sixteen.
ghost use Rattle.std.specs.Prelude.{◌≡◌, ◌<◌, [], ℕ, Some, IfOk, IfErr, length, map, slice_get};
ghost use Rattle.lasso_parts.specs.Hashing.{hash_by};
ghost use Rattle.lasso_parts.specs.Texts.{IsDistinct, Fits};
ghost use Rattle.lasso_parts.specs.declared.util.LassoErrorKind.TheVariants.{FailedAllocation};
ghost use Rattle.lasso_log.specs.Views.{list_of};
ghost use Rattle.lasso_shared.specs.Locked.{IsLocked};
ghost use Rattle.lasso_shared.specs.Shards.{CountsAll};

use crate::shards::shard::{BoxedShard, Shard};
use crate::shards::tag::{SHARDS, ShardTag, number_of};
use lasso_lock::locks::TaggedRwLock;
use lasso_parts::index::{Index, Texts, hash_text};
use lasso_parts::keys::Key;
use lasso_parts::util::LassoResult;
use std::alloc::{AllocError, Global};
use std::hash::BuildHasher;
use std::marker::PhantomData;

/// The locks of the shards, in the order of their numbers, and how many texts each shard has.
#[derive(Drop)]
pub(super) struct NewShards<K: Key, S: BuildHasher + Drop> {
    pub(super) locks: Vec<TaggedRwLock<BoxedShard<K, S>>>,
    pub(super) counts: [u64; 16],
}

impl<K: Key, S: BuildHasher + Drop> ShardTag<K, S> {
    // The shards of an interner whose opening has `len` texts. The index of each has room for `room` texts.
    pub(super) fn shards(
        &mut self,
        alloc: Global,
        len: usize,
        room: usize,
    ) -> LassoResult<NewShards<K, S>>
        requires counted { len ≡ length (list_of self.old.log []) }
        requires distinct { IsDistinct (list_of self.old.log []) }
        requires fits { Fits K.key_at (length (list_of self.old.log [])) }
        ensures same { (self.new.log ≡ self.old.log) × (self.new.hasher ≡ self.old.hasher) }
        ensures all { IfOk result (λ made. length made.locks.items ≡ 16) }
        ensures tags { IfOk result (λ made. (i : ℕ) → i < 16 → slice_get made.locks.items i ≡ Some (record self.old { number = i })) }
        ensures counts { IfOk result (λ made. CountsAll (hash_by S.BuildHasher S.Hasher.Hasher self.old.hasher) (list_of self.old.log []) made.counts) }
        ensures refused { IfErr result (λ error. error ≡ FailedAllocation) }
    {
        let hashes = self.hashes(alloc, len)?;
        let mut locks = Vec::with_capacity(alloc, SHARDS)?;
        let mut counts = [0; 16];
        for number in 0..SHARDS {
            self.number = number;
            let shard = self.shard(alloc, hashes.as_slice(), room)?;
            counts[number] = shard.count;
            locks.push_reserved(TaggedRwLock::new(BoxedShard::around(alloc, shard)?, self));
        }
        Ok(NewShards { locks, counts })
    }

    // The hashes of the opening's texts, of which there are `len`, in order.
    fn hashes(&self, alloc: Global, len: usize) -> Result<Vec<u64>, AllocError>
        requires { len ≡ length (list_of self.now.log []) }
        ensures { IfOk result (λ hashes. hashes.items ≡ map (hash_by S.BuildHasher S.Hasher.Hasher self.now.hasher) (list_of self.now.log [])) }
    {
        let pass = self.log.pass();
        let texts = self.log.seen_texts(&pass);
        let mut hashes = Vec::with_capacity(alloc, len)?;
        for position in 0..len {
            hashes.push_reserved(hash_text(&self.hasher, texts.text_at(position)));
        }
        Ok(hashes)
    }

    // The shard of the tag's number, of an interner whose opening's texts have these hashes. Its index has room for
    // `room` texts.
    fn shard(&self, alloc: Global, hashes: &[u64], room: usize) -> LassoResult<Shard<K, S>>
        requires hashes { hashes.now ≡ map (hash_by S.BuildHasher S.Hasher.Hasher self.now.hasher) (list_of self.now.log []) }
        requires distinct { IsDistinct (list_of self.now.log []) }
        requires fits { Fits K.key_at (length (list_of self.now.log [])) }
        ensures shard { IfOk result (λ s. IsLocked (hash_by S.BuildHasher S.Hasher.Hasher self.now.hasher) self.now.number self.now.log s) }
        ensures known { IfOk result (λ s. s.known.notes ≡ []) }
        ensures refused { IfErr result (λ error. error ≡ FailedAllocation) }
    {
        let pass = self.log.pass();
        let texts = self.log.seen_texts(&pass);
        let mut index = Index::with_capacity(alloc, room)?;
        let mut count: u64 = 0;
        for position in 0..hashes.len() {
            let hash = hashes[position];
            if number_of(hash) == self.number {
                index.reserve_one(&texts, &self.hasher)?;
                index.insert_reserved(hash, K::try_from_usize(position).unwrap());
                count += 1;
            }
        }
        Ok(Shard {
            index,
            count,
            known: self.log.snapshot(),
            of: PhantomData,
        })
    }
}
