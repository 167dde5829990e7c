//! What is owned of buckets whose bytes are lent for an era: all of it comes back, and is freed, once the era
//! is over. Used by the log.
ghost use Rattle.std.specs.Prelude.{◌≡◌, ◌<◌, ◌^◌, ◌∷◌, [], All, IfOk, IfErr, OnErr};
ghost use denote.RawPtr.{block_ptr};
ghost use Rattle.lasso_parts.specs.declared.util.LassoErrorKind.TheVariants.{FailedAllocation};
ghost use Rattle.lasso_log.specs.Events.{site_at, bucket_at};
ghost use Rattle.lasso_log.specs.LentBuckets.{LentBucket, IsRightTo};
ghost use Rattle.lasso_log.specs.SharedBuckets.{AddsLent, IsOfEra};

use crate::shared_memory::era::{Ended, Era};
use crate::shared_memory::rights::{Free, Owed, lend};
use boxcar::tag::{Names, Tag};
use lasso_lock::latch::Fits;
use lasso_parts::bucket::block::{ByteBlock, ByteBlockRight, allocate, deallocate};
use lasso_parts::util::{LassoError, LassoErrorKind, LassoResult};
use std::alloc::Global;
use std::marker::{Model, Send, Sync};

/// What is owned of one bucket: the right to take its bytes back, and the right to free them. It ends by
/// `close` alone. Contracts see where the bucket is and how many bytes it has.
pub struct Holding {
    ptr: *mut u8,
    size: usize,
    owed: Owed,
    block_right: ByteBlockRight<Global>,
    alloc: Global,
}

impl Model for Holding {
    ghost use Rattle.std.specs.Prelude.{◌≡◌};
    ghost use Rattle.lasso_log.specs.LentBuckets.{LentBucket};
    ghost use Rattle.lasso_log.specs.Notes.{lent_coded};
    ghost use Rattle.lasso_log.specs.SharedBuckets.{IsHolding, bucket_owed};

    ghost Value = { LentBucket };

    ghost coded = { lent_coded };

    ghost view = { λ h. bucket_owed h.owed };

    ghost invariant = { λ h. IsHolding h.owed h.ptr h.size h.block_right.at h.block_right.len × (h.block_right.alloc ≡ h.alloc) };
}

unsafe impl Send for Holding {}

unsafe impl Sync for Holding {}

impl Holding {
    // A bucket of `size` bytes, lent for the era, and the right to all of them.
    fn open(alloc: Global, era: &Era, size: usize) -> LassoResult<(Holding, Free)>
        requires { 0 < size }
        ensures era { IfOk result (λ r. IsOfEra era.now.id r.0) }
        ensures size { IfOk result (λ r. (r.0.size ≡ size) × (r.0.used ≡ 0) × (size < 2 ^ 63)) }
        ensures right { IfOk result (λ r. IsRightTo r.1 r.0 size) }
        ensures refused { IfErr result (λ error. error ≡ FailedAllocation) }
    {
        if (isize::MAX as usize) < size {
            return Err(LassoError::new(LassoErrorKind::FailedAllocation));
        }
        let (block, block_right) = allocate(&alloc, size)?;
        let (ptr, slots) = block.into_row();
        let (free, owed) = lend(era, slots);
        let holding = Holding {
            ptr,
            size,
            owed,
            block_right,
            alloc,
        };
        Ok((holding, free))
    }

    // The pointer to its first place.
    fn first(&self) -> *mut u8
        ensures { result ≡ block_ptr self.now.site.block self.now.site.start }
    {
        self.ptr
    }

    // Frees the bucket, whose era is over.
    fn close(self, ended: &Ended)
        requires { IsOfEra ended.now.id self }
    {
        let Holding {
            ptr,
            size,
            owed,
            block_right,
            alloc,
        } = self;
        let slots = owed.take_back(ended, ptr, size);
        deallocate(&alloc, ByteBlock::from_row(ptr, slots), block_right);
    }
}

/// What is owned of all buckets, in the order in which they came. It ends by `close` alone.
pub struct Holdings {
    list: Vec<Holding>,
}

impl Model for Holdings {
    ghost use Rattle.std.specs.Prelude.{List};
    ghost use Rattle.lasso_log.specs.LentBuckets.{LentBucket};

    ghost Value = { List LentBucket };

    ghost view = { λ h. h.list.items };
}

impl Fits for Holdings {
    type Tag = Era;

    ghost use Rattle.std.specs.Prelude.{All};
    ghost use Rattle.lasso_log.specs.SharedBuckets.{IsOfEra};

    // Each bucket is lent for the era that is the tag.
    ghost fits = { λ tag h. All (IsOfEra tag.id) h };
}

impl Holdings {
    /// None yet. It takes no memory.
    pub fn new(alloc: Global) -> Holdings
        ensures { result ≡ [] }
    {
        Holdings {
            list: Vec::new(alloc),
        }
    }

    /// Adds one bucket. Returns the pointer to its first place and the right to all of its bytes. It fails
    /// only out of memory (`FailedAllocation`), and changes nothing then.
    pub(crate) fn add(
        &mut self,
        alloc: Global,
        era: &Era,
        size: usize,
    ) -> LassoResult<(*mut u8, Tag, Free)>
        requires { 0 < size }
        ensures added { IfOk result (λ r. AddsLent self.old self.new r.1.numbers size era.now.id) }
        ensures address { IfOk result (λ r. r.0 ≡ block_ptr (site_at r.1.numbers).block (site_at r.1.numbers).start) }
        ensures right { IfOk result (λ r. IsRightTo r.2 (bucket_at r.1.numbers size 0) size) }
        ensures err { OnErr result (self.new ≡ self.old) }
        ensures refused { IfErr result (λ error. error ≡ FailedAllocation) }
    {
        self.list.reserve(1)?;
        let (holding, right) = Holding::open(alloc, era, size)?;
        let site = Tag::of::<Holding, BySite>(&holding);
        let ptr = holding.first();
        self.list.push_reserved(holding);
        Ok((ptr, site, right))
    }

    /// Frees all buckets, whose era is over.
    pub fn close(self, ended: &Ended)
        requires { All (IsOfEra ended.now.id) self }
    {
        let Holdings { mut list } = self;
        while let Some(holding) = list.pop() {
            holding.close(ended);
        }
        list.destroy_empty();
    }
}

/// Where a bucket is.
struct BySite;

impl Names<Holding> for BySite {
    ghost use Rattle.std.specs.Prelude.{[], ◌∷◌};

    ghost numbers = { λ h. h.site.era ∷ h.site.block ∷ h.site.start ∷ [] };
}
