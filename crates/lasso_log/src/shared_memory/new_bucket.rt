//! A bucket that no history has yet: its bytes are taken without a step. Used by the opening of a log, and by what adds a bucket.
ghost use Rattle.std.specs.Prelude.{◌≡◌, ◌≢◌, ◌+◌, ◌<◌, ◌++◌, ◌∷◌, [], IfOk, IfErr, IfSome, IfNone, OnErr};
ghost use Rattle.lasso_parts.specs.declared.util.LassoErrorKind.TheVariants.{FailedAllocation};
ghost use Rattle.lasso_log.specs.LentBuckets.{LentBucket};
ghost use Rattle.lasso_log.specs.NewBuckets.{IsNextOf, TakesNext};
ghost use Rattle.lasso_log.specs.Pieces.{RangeView};

use crate::shared_memory::era::Era;
use crate::shared_memory::holding::Holdings;
use crate::shared_memory::piece::Range;
use crate::shared_memory::rights::Free;
use boxcar::tag::Tag;
use lasso_parts::util::LassoResult;
use std::alloc::Global;
use std::marker::{Model, Send};

/// A bucket with the right to its bytes that were not taken, which follow those that were. Contracts see
/// where it is, how many bytes it has, and how many of them were taken.
#[derive(Drop)]
pub struct NewBucket {
    pub(crate) ptr: *mut u8,
    pub(crate) size: usize,
    pub(crate) taken: usize,
    pub(crate) site: Tag,
    pub(crate) right: Free,
}

impl Model for NewBucket {
    ghost use Rattle.lasso_log.specs.Events.{bucket_at};
    ghost use Rattle.lasso_log.specs.LentBuckets.{LentBucket};
    ghost use Rattle.lasso_log.specs.Notes.{lent_coded};
    ghost use Rattle.lasso_log.specs.SharedBuckets.{IsNewBucket};

    ghost Value = { LentBucket };

    ghost coded = { lent_coded };

    ghost view = { λ b. bucket_at b.site.numbers b.size b.taken };

    ghost invariant = { λ b. IsNewBucket b.right b.site.numbers b.ptr b.size b.taken };
}

unsafe impl Send for NewBucket {}

impl NewBucket {
    /// An empty bucket of `size` bytes, at least one. `holdings` owns its memory from then on. It fails only
    /// out of memory (`FailedAllocation`), and changes nothing then.
    pub fn with_capacity(
        alloc: Global,
        era: &Era,
        holdings: &mut Holdings,
        bytes: usize,
    ) -> LassoResult<NewBucket>
        requires { bytes ≢ 0 }
        ensures bucket { IfOk result (λ b. (b.site.era ≡ era.now.id) × (b.size ≡ bytes) × (b.used ≡ 0)) }
        ensures held { IfOk result (λ b. holdings.new ≡ holdings.old ++ b ∷ []) }
        ensures err { OnErr result (holdings.new ≡ holdings.old) }
        ensures refused { IfErr result (λ error. error ≡ FailedAllocation) }
    {
        let (ptr, site, right) = holdings.add(alloc, era, bytes)?;
        Ok(NewBucket {
            ptr,
            size: bytes,
            taken: 0,
            site,
            right,
        })
    }

    /// The next `bytes` bytes, to be filled. It returns `None` only if they do not fit, and changes nothing
    /// then.
    pub fn reserve(&mut self, bytes: usize) -> Option<Range>
        ensures range { IfSome result (IsNextOf self.old bytes) }
        ensures taken { IfSome result (λ r. TakesNext self.old self.new bytes) }
        ensures none { IfNone result ((self.new ≡ self.old) × (self.old.size < self.old.used + bytes)) }
    {
        if self.size - self.taken < bytes {
            return None;
        }
        let right = self.right.take(bytes);
        let start = self.taken;
        self.taken += bytes;
        Some(Range::new(self.ptr, start, bytes, right))
    }
}
