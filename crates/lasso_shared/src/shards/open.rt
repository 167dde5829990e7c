//! The opening of an interner, with texts or without: its log, its buckets and its locks.
ghost use Rattle.std.specs.Prelude.{◌≡◌, ◌≢◌, ◌≤◌, ◌-◌, ◌^◌, [], Err, IfOk, IfErr, length, map};
ghost use Rattle.lasso_parts.specs.declared.util.LassoErrorKind.TheVariants.{FailedAllocation};
ghost use Rattle.lasso_parts.specs.Texts.{IsDistinct, Fits};
ghost use Rattle.lasso_single.specs.Copies.{bytes_of};
ghost use Rattle.lasso_log.specs.History.{opened};
ghost use Rattle.lasso_log.specs.Openings.{OpeningView, opening_with};
ghost use Rattle.lasso_shared.specs.OpenedTexts.{opened_with_copies};

mod from_static;

use crate::shards::Shards;
use crate::shards::new_shards::NewShards;
use crate::shards::shard::BoxedTally;
use crate::shards::tag::ShardTag;
use lasso_lock::locks::TaggedMutex;
use lasso_log::log::buckets::list::BucketList;
use lasso_log::log::{Log, NewLog, Opened, OpeningTexts};
use lasso_parts::keys::Key;
use lasso_parts::util::LassoResult;
use lasso_single::room::one_bucket;
use std::alloc::Global;
use std::hash::BuildHasher;

// For how many of `count` texts the index of a shard gets room: a sixteenth of them, and a sixteenth of that
// more, since shards differ. For none if they are fewer than 1024.
fn share_of(count: usize) -> usize {
    count / 1024 * 68
}

impl<K: Key, S: BuildHasher + Drop> Shards<K, S> {
    /// The log, the first bucket, the locks and the spine of an interner that holds nothing. It fails only
    /// out of memory (`FailedAllocation`).
    pub fn open(alloc: Global, hasher: S, first: Opened) -> LassoResult<Shards<K, S>>
        requires { first.size ≢ 0 }
        ensures opening { IfOk result (λ s. s.log.opening ≡ opened [] first.size 0 first.limit) }
        ensures hasher { IfOk result (λ s. s.hasher ≡ hasher) }
        ensures refused { IfErr result (λ error. error ≡ FailedAllocation) }
    {
        Shards::open_for(alloc, hasher, first, 0)
    }

    /// What an interner that holds nothing is made of, with room in the index of each shard for its share of
    /// `count` texts. If these are fewer than 1024, the index has none, and grows.
    pub fn open_for(
        alloc: Global,
        hasher: S,
        first: Opened,
        count: usize,
    ) -> LassoResult<Shards<K, S>>
        requires { first.size ≢ 0 }
        ensures opening { IfOk result (λ s. s.log.opening ≡ opened [] first.size 0 first.limit) }
        ensures hasher { IfOk result (λ s. s.hasher ≡ hasher) }
        ensures refused { IfErr result (λ error. error ≡ FailedAllocation) }
    {
        let texts = OpeningTexts::new(alloc, first.size as usize)?;
        Shards::open_with(alloc, hasher, texts, first.limit, share_of(count))
    }

    /// What an interner is made of that opens with the texts of a distinct list that fits the keys, in order, all
    /// copied into one bucket of just their bytes (4096 if they have none), with no limit below the
    /// greatest number. It fails only out of memory (`FailedAllocation`), also if the texts have more
    /// bytes than a `usize` counts.
    pub fn of_texts(alloc: Global, hasher: S, texts: &[&str]) -> LassoResult<Shards<K, S>>
        requires distinct { IsDistinct (map (λ t. t.now) texts.now) }
        requires fits { Fits K.key_at (length (map (λ t. t.now) texts.now)) }
        ensures opening { IfOk result (λ s. s.log.opening ≡ opened_with_copies (map (λ t. t.now) texts.now)) }
        ensures hasher { IfOk result (λ s. s.hasher ≡ hasher) }
        ensures refused { IfErr result (λ error. error ≡ FailedAllocation) }
        ensures overflow { 2 ^ 64 ≤ bytes_of (map (λ t. t.now) texts.now) → result ≡ Err FailedAllocation }
    {
        let room = one_bucket(&texts, texts.len())?;
        let mut opening = OpeningTexts::new(alloc, room.bytes())?;
        for text in texts {
            let Some(piece) = opening.copy_in(text) else {
                unreachable!();
            };
            opening.push(alloc, piece)?;
        }
        Shards::open_with(alloc, hasher, opening, u64::MAX, 0)
    }

    // Opens the log with these texts, their bucket and a limit, and makes the list of buckets and the locks. The
    // index of each shard has room for `room` texts.
    fn open_with(
        alloc: Global,
        hasher: S,
        texts: OpeningTexts,
        limit: u64,
        room: usize,
    ) -> LassoResult<Shards<K, S>>
        requires distinct { IsDistinct texts.texts }
        requires fits { Fits K.key_at (length texts.texts) }
        requires bucket { texts.bucket.size ≢ 0 }
        ensures opening { IfOk result (λ s. s.log.opening ≡ opening_with texts limit) }
        ensures hasher { IfOk result (λ s. s.hasher ≡ hasher) }
        ensures refused { IfErr result (λ error. error ≡ FailedAllocation) }
    {
        let NewLog { log, spine, bucket } = Log::open_with(texts, limit);
        let buckets = BucketList::new(alloc, &log, bucket)?;
        let mut tag = ShardTag {
            log,
            hasher,
            number: 0,
        };
        let NewShards { locks, counts } = tag.shards(alloc, spine.len() as usize, room)?;
        let tally = BoxedTally::new(alloc, spine, counts)?;
        let spine = TaggedMutex::new(tally, &tag);
        let ShardTag {
            log,
            hasher,
            number: _,
        } = tag;
        Ok(Shards {
            log,
            hasher,
            shards: locks,
            padding_before: [0; 8],
            spine,
            padding_after: [0; 8],
            buckets,
            alloc,
        })
    }
}
