//! What a spine does if no bucket has room for a text: it adds one, or the limit refuses the text.
ghost use Rattle.std.specs.Prelude.{◌≡◌, ◌≢◌, ◌+◌, ◌<◌, ◌≤◌, ◌^◌, ◌∷◌, [], length, Some, IfOk, IfErr, IfSome, IsNone, IsTrue, OnOk, OnErr};
ghost use Rattle.lasso_parts.specs.declared.util.LassoErrorKind.TheVariants.{FailedAllocation};
ghost use Rattle.lasso_log.specs.Buckets.{bucket_size};
ghost use Rattle.lasso_log.specs.Charges.{AddsCharge, IsRefusal, NotesCharge, next_size};
ghost use Rattle.lasso_log.specs.Chunks.{era_named};
ghost use Rattle.lasso_log.specs.History.{Charge, IsLegal};
ghost use Rattle.lasso_log.specs.LentBuckets.{LentBucket};
ghost use Rattle.lasso_log.specs.NewBuckets.{IsSharedAt};
ghost use Rattle.lasso_log.specs.Notes.{Since, state};
ghost use Rattle.lasso_log.specs.Pieces.{RangeView};
ghost use Rattle.lasso_log.specs.SharedBuckets.{SharedView, IsNoteOf, site_of, names_with_book};
ghost use Rattle.lasso_log.specs.Turns.{NoneHasRoom, IsPastLimit};
ghost use Rattle.lasso_log.specs.Views.{PassView, InternerId, SpineView, TurnsView, IsSamePass, IsSameSpine, list_of, seen};

use crate::log::buckets::SharedBucket;
use crate::log::buckets::list::BucketList;
use crate::log::pass::Pass;
use crate::log::shared_log::Log;
use crate::log::spine::Spine;
use crate::log::spine::turns::Turns;
use crate::shared_memory::new_bucket::NewBucket;
use crate::shared_memory::piece::Range;
use lasso_parts::keys::Key;
use lasso_parts::util::{LassoError, LassoErrorKind, LassoResult};
use std::alloc::Global;

impl<K: Key> Log<K> {
    /// Adds a bucket for `bytes` bytes, at least one, and returns the right to fill its first `bytes` bytes.
    /// None of the buckets that the spine's turns know has room for them. The bucket has the size that
    /// *store* gives. It is refused by the limit (`MemoryLimitReached`), at a step at which the list is as
    /// long as the spine's; or it fails out of memory (`FailedAllocation`), which it also returns for more
    /// than 2^64 - 3 buckets. It returns `None` if the turns are not the spine's, if the turn word is 2^64 - 1,
    /// or while another thread adds a bucket. In each of these cases no event is added, and the spine stays as
    /// it is. That the bucket is in the list from then on is tested, and not proved. It does not wait.
    pub fn charge_now(
        &self,
        alloc: Global,
        list: &BucketList<K>,
        spine: &mut Spine<K>,
        pass: &mut Pass<K>,
        bytes: u64,
    ) -> Option<LassoResult<Range>>
        requires of { (pass.old.of ≡ self.now) × (spine.old.of ≡ self.now) × (list.now ≡ names_with_book self.now) }
        requires some { bytes ≢ 0 }
        requires room { NoneHasRoom (state self.now.opening pass.old.notes) spine.old.turns.count bytes }
        ensures same { IsSamePass pass.new pass.old × IsSameSpine spine.new spine.old × (spine.new.kept ≡ spine.old.kept) }
        ensures event { IfSome result (λ r. OnOk r (AddsCharge spine.old.turns bytes pass.old pass.new)) }
        ensures range { IfSome result (λ r. IfOk r (λ range. (range.era ≡ era_named self.now.chunks) × (range.len ≡ bytes))) }
        ensures bucket { IfSome result (λ r. IfOk r (λ range. NotesCharge spine.old.turns bytes pass.old pass.new (site_of range))) }
        ensures turns { IfSome result (λ r. OnOk r ((spine.new.turns.notes ≡ pass.new.notes) × (spine.new.turns.count ≡ spine.old.turns.count + 1))) }
        ensures refused { IfSome result (λ r. IfErr r (IsRefusal self.now spine.old.notes pass.old.notes pass.new.notes bytes)) }
        ensures err { IfSome result (λ r. OnErr r (Since pass.old.number pass.old.notes pass.new.notes [] × (spine.new ≡ spine.old))) }
        ensures busy { IsNone result → Since pass.old.number pass.old.notes pass.new.notes [] × (spine.new ≡ spine.old) }
        ensures legal { IsLegal K.key_at self.now.opening (seen pass.new) }
    {
        pass.prove_legal();
        let Some(size) = spine.turns.bucket_for(bytes) else {
            if self.is_past_limit(spine, pass, bytes) {
                return Some(Err(LassoError::new(LassoErrorKind::MemoryLimitReached)));
            }
            return None;
        };
        let (range, bucket) = match self.charge_new(alloc, list, spine, pass, bytes, size)? {
            Ok(made) => made,
            Err(error) => return Some(Err(error)),
        };
        // Its cell is made. If that were filled, the bucket would be in no list, and nobody would take more of its bytes.
        let _ = list.try_push(bucket);
        Some(Ok(range))
    }

    // Adds a bucket of this size to the history, and returns it. The caller puts it into the list, which has room for it from
    // then on: that is made before the step that adds the bucket, so that nothing can fail after that step.
    fn charge_new(
        &self,
        alloc: Global,
        list: &BucketList<K>,
        spine: &mut Spine<K>,
        pass: &mut Pass<K>,
        bytes: u64,
        size: u64,
    ) -> Option<LassoResult<(Range, SharedBucket<K>)>>
        requires of { (pass.old.of ≡ self.now) × (spine.old.of ≡ self.now) }
        requires some { bytes ≢ 0 }
        requires room { NoneHasRoom (state self.now.opening pass.old.notes) spine.old.turns.count bytes }
        requires size { next_size spine.old.turns bytes ≡ Some size }
        requires within { (bytes ≤ size) × (spine.old.turns.usage + size ≤ spine.old.turns.limit) }
        ensures same { IsSamePass pass.new pass.old × IsSameSpine spine.new spine.old × (spine.new.kept ≡ spine.old.kept) }
        ensures event { IfSome result (λ r. OnOk r (Since pass.old.number pass.old.notes pass.new.notes (Charge size bytes ∷ []))) }
        ensures range { IfSome result (λ r. IfOk r (λ made. (made.0.era ≡ era_named self.now.chunks) × (made.0.len ≡ bytes))) }
        ensures note { IfSome result (λ r. IfOk r (λ made. IsNoteOf pass.old.number pass.new.notes (Charge size bytes) (site_of made.0))) }
        ensures bucket { IfSome result (λ r. IfOk r (λ made. made.1.of ≡ self.now)) }
        ensures turns { IfSome result (λ r. OnOk r ((spine.new.turns.notes ≡ pass.new.notes) × (spine.new.turns.count ≡ spine.old.turns.count + 1))) }
        ensures refused { IfSome result (λ r. IfErr r (λ error. error ≡ FailedAllocation)) }
        ensures err { IfSome result (λ r. OnErr r ((pass.new ≡ pass.old) × (spine.new ≡ spine.old))) }
        ensures busy { IsNone result → (pass.new ≡ pass.old) × (spine.new ≡ spine.old) }
        ensures legal { IsLegal K.key_at self.now.opening (seen pass.new) }
    {
        pass.prove_legal();
        if spine.turns.count >= u64::MAX - 2 {
            return Some(Err(LassoError::new(LassoErrorKind::FailedAllocation)));
        }
        let is_made = match list.make_room(alloc, spine.turns.count) {
            Ok(is_made) => is_made,
            Err(error) => return Some(Err(error)),
        };
        if !is_made {
            return None;
        }
        let made = match self.new_bucket(alloc, size) {
            Ok(made) => made,
            Err(error) => return Some(Err(error)),
        };
        let mut bucket = made?;
        let Some(range) = bucket.reserve(bytes as usize) else {
            unreachable!()
        };
        let Some(shared) = self.charge_with(spine, bucket, pass) else {
            range.let_go();
            return None;
        };
        pass.prove_legal();
        Some(Ok((range, shared)))
    }

    // A bucket of `size` bytes that no history has, and that no limit counts. The log owns its memory, and frees
    // it. It returns `None` if another thread is adding a bucket, and fails only out of memory
    // (`FailedAllocation`). It does not wait.
    fn new_bucket(&self, alloc: Global, size: u64) -> LassoResult<Option<NewBucket>>
        requires { size ≢ 0 }
        ensures bucket { IfOk result (λ r. IfSome r (λ b. (b.site.era ≡ era_named self.now.chunks) × (b.size ≡ size) × (b.used ≡ 0))) }
        ensures refused { IfErr result (λ error. error ≡ FailedAllocation) }
    {
        let Some((guard, mut holdings)) = self.memory.holdings.lock_now() else {
            return Ok(None);
        };
        let made = NewBucket::with_capacity(
            alloc,
            self.memory.chunks.era(),
            &mut holdings,
            size as usize,
        );
        guard.put_back(holdings);
        Ok(Some(made?))
    }

    // Adds the bucket if no turn came after the spine's, and counts it in the spine's turns. Otherwise it returns `None`, and
    // no event is added; it also does so if the turn word is 2^64 - 1.
    fn charge_with(
        &self,
        spine: &mut Spine<K>,
        bucket: NewBucket,
        pass: &mut Pass<K>,
    ) -> Option<SharedBucket<K>>
        requires of { (pass.old.of ≡ self.now) × (spine.old.of ≡ self.now) }
        requires era { bucket.site.era ≡ era_named self.now.chunks }
        requires some { bucket.used ≢ 0 }
        requires room { NoneHasRoom (state self.now.opening pass.old.notes) spine.old.turns.count bucket.used }
        requires size { bucket_size spine.old.turns.doubling spine.old.turns.usage spine.old.turns.limit bucket.used ≡ Some bucket.size }
        requires within { spine.old.turns.usage + bucket.size ≤ spine.old.turns.limit }
        requires more { spine.old.turns.count + 2 < 2 ^ 64 }
        ensures same { IsSamePass pass.new pass.old × IsSameSpine spine.new spine.old × (spine.new.kept ≡ spine.old.kept) }
        ensures event { IfSome result (λ b. Since pass.old.number pass.old.notes pass.new.notes (Charge bucket.size bucket.used ∷ [])) }
        ensures note { IfSome result (λ b. IsNoteOf pass.old.number pass.new.notes (Charge bucket.size bucket.used) bucket.site) }
        ensures bucket { IfSome result (IsSharedAt self.now spine.old.turns.count bucket) }
        ensures turns { IfSome result (λ b. (spine.new.turns.notes ≡ pass.new.notes) × (spine.new.turns.count ≡ spine.old.turns.count + 1)) }
        ensures busy { IsNone result → (pass.new ≡ pass.old) × (spine.new ≡ spine.old) }
    {
        let turns = &spine.turns;
        if turns.turns == u64::MAX {
            return None;
        }
        let (taken, size) = (bucket.taken as u64, bucket.size as u64);
        let doubling = turns.doubling_for(taken);
        let shared = self.add_new(turns, bucket, pass)?;
        let (turns, usage, limit, count) = (
            turns.turns + 1,
            turns.usage + size,
            turns.limit,
            turns.count + 1,
        );
        spine.turns = Turns {
            turns,
            doubling,
            usage,
            limit,
            count,
            seen: pass.copy_seen(),
        };
        Some(shared)
    }

    // Whether the limit refuses the bytes at a step that the pass then sees. The length is loaded before the turn word: if the
    // word still has the value of the spine's turns, no turn came in between, so both loads hold of one step.
    fn is_past_limit(&self, spine: &Spine<K>, pass: &mut Pass<K>, bytes: u64) -> bool
        requires of { (pass.old.of ≡ self.now) × (spine.now.of ≡ self.now) }
        requires room { NoneHasRoom (state self.now.opening pass.old.notes) spine.now.turns.count bytes }
        requires above { spine.now.turns.limit < spine.now.turns.usage + bytes }
        ensures same { IsSamePass pass.new pass.old }
        ensures since { Since pass.old.number pass.old.notes pass.new.notes [] }
        ensures past { IsTrue result → IsPastLimit self.now.opening pass.old.notes pass.new.notes (length (list_of self.now spine.now.notes)) bytes }
        ensures legal { IsLegal K.key_at self.now.opening (seen pass.new) }
    {
        pass.learn_seen(&spine.turns.seen);
        let len = self.len(pass);
        let is_at = self.is_at(&spine.turns, pass);
        pass.prove_legal();
        if is_at && len == spine.len() {
            return true;
        }
        false
    }
}
