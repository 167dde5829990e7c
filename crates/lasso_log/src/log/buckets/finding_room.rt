//! Walks over the list of buckets, for bytes of any of them. Used by whoever copies a text into a shared interner.
ghost use Rattle.std.specs.Prelude.{◌≡◌, ◌≢◌, ◌<◌, [], IfSome, IfNone};
ghost use Rattle.lasso_log.specs.Chunks.{era_named};
ghost use Rattle.lasso_log.specs.History.{IsLegal};
ghost use Rattle.lasso_log.specs.Notes.{Since, state};
ghost use Rattle.lasso_log.specs.Pieces.{RangeView};
ghost use Rattle.lasso_log.specs.SharedBuckets.{SharedView, IsReserved, ReservesAmong, joined, names_with_book};
ghost use Rattle.lasso_log.specs.Turns.{NoneHasRoom};
ghost use Rattle.lasso_log.specs.Views.{PassView, InternerId, SpineView, TurnsView, IsSamePass, seen};

use crate::log::buckets::SharedBucket;
use crate::log::buckets::list::BucketList;
use crate::log::pass::Pass;
use crate::log::shared_log::Log;
use crate::log::spine::Spine;
use crate::shared_memory::piece::Range;
use lasso_parts::keys::Key;
use std::sync::Wait;

impl<K: Key> Log<K> {
    /// Does nothing. Contracts learn that a bucket of the log's book is of the log.
    pub(crate) fn prove_shared_opening(&self, bucket: &SharedBucket<K>)
        requires { names_with_book bucket.now.of ≡ names_with_book self.now }
        ensures { bucket.now.of ≡ self.now }
    {
        let mut both = self.seen.again();
        both.learn(&bucket.seen);
    }

    /// Takes bytes, at least one, in the newest bucket that has room of those that the spine's turns know, and
    /// returns the right to fill them. It returns an inner `None` only if none of these buckets has room for them,
    /// and `None` if another thread takes bytes at the same time, or if a bucket is not in the list yet. No event
    /// is added in either case. It takes no memory and does not wait.
    pub fn reserve_now(
        &self,
        list: &BucketList<K>,
        spine: &Spine<K>,
        pass: &mut Pass<K>,
        bytes: u64,
    ) -> Option<Option<Range>>
        requires of { (pass.old.of ≡ self.now) × (spine.now.of ≡ self.now) × (list.now ≡ names_with_book self.now) }
        requires some { bytes ≢ 0 }
        ensures same { IsSamePass pass.new pass.old }
        ensures event { IfSome (joined result) (λ r. ReservesAmong self.now spine.now.turns.count pass.old pass.new r bytes) }
        ensures range { IfSome (joined result) (λ r. (r.era ≡ era_named self.now.chunks) × (r.len ≡ bytes)) }
        ensures none { IfNone (joined result) (Since pass.old.number pass.old.notes pass.new.notes []) }
        ensures full { IfSome result (λ r. IfNone r (NoneHasRoom (state self.now.opening pass.new.notes) spine.now.turns.count bytes)) }
        ensures legal { IsLegal K.key_at self.now.opening (seen pass.new) }
    {
        let count = spine.buckets();
        for newer in 0..count {
            pass.prove_legal();
            let bucket = list.find_now(self, count - 1 - newer)?;
            if let Some(range) = bucket.try_reserve_now(self, pass, bytes)? {
                return Some(Some(range));
            }
        }
        pass.prove_legal();
        Some(None)
    }

    /// Takes bytes, at least one, in a bucket of the list, the newest first, without the spine, and returns
    /// the right to fill them. If it returns `None`, no event is added, and nothing is known of the room.
    /// It takes no memory. It waits while another thread takes bytes at the same time.
    pub fn reserve_anywhere<R: Wait>(
        &self,
        rt: &R,
        list: &BucketList<K>,
        pass: &mut Pass<K>,
        bytes: u64,
    ) -> Option<Range>
        requires of { (pass.old.of ≡ self.now) × (list.now ≡ names_with_book self.now) }
        requires some { bytes ≢ 0 }
        ensures same { IsSamePass pass.new pass.old }
        ensures event { IfSome result (λ r. (b : SharedView) × (b.of ≡ self.now) × IsReserved b pass.old.number pass.old.notes pass.new.notes r bytes) }
        ensures range { IfSome result (λ r. (r.era ≡ era_named self.now.chunks) × (r.len ≡ bytes)) }
        ensures none { IfNone result (Since pass.old.number pass.old.notes pass.new.notes []) }
        ensures legal { IsLegal K.key_at self.now.opening (seen pass.new) }
    {
        let newest = list.newest();
        if let Some(range) = self.reserve_in(rt, list, newest, pass, bytes) {
            return Some(range);
        }
        self.reserve_older(rt, list, newest, pass, bytes)
    }

    // Takes bytes as `reserve_anywhere` does, in the oldest of the first `count` buckets that has room.
    fn reserve_older<R: Wait>(
        &self,
        rt: &R,
        list: &BucketList<K>,
        count: u64,
        pass: &mut Pass<K>,
        bytes: u64,
    ) -> Option<Range>
        requires of { (pass.old.of ≡ self.now) × (list.now ≡ names_with_book self.now) }
        requires some { bytes ≢ 0 }
        ensures same { IsSamePass pass.new pass.old }
        ensures event { IfSome result (λ r. (b : SharedView) × (b.of ≡ self.now) × IsReserved b pass.old.number pass.old.notes pass.new.notes r bytes) }
        ensures range { IfSome result (λ r. (r.era ≡ era_named self.now.chunks) × (r.len ≡ bytes)) }
        ensures none { IfNone result (Since pass.old.number pass.old.notes pass.new.notes []) }
        ensures legal { IsLegal K.key_at self.now.opening (seen pass.new) }
    {
        for number in 0..count {
            if let Some(range) = self.reserve_in(rt, list, number, pass, bytes) {
                return Some(range);
            }
        }
        pass.prove_legal();
        None
    }

    // Takes bytes, at least one, in the bucket of this number, if it is in the list.
    fn reserve_in<R: Wait>(
        &self,
        rt: &R,
        list: &BucketList<K>,
        number: u64,
        pass: &mut Pass<K>,
        bytes: u64,
    ) -> Option<Range>
        requires of { (pass.old.of ≡ self.now) × (list.now ≡ names_with_book self.now) }
        requires some { bytes ≢ 0 }
        ensures same { IsSamePass pass.new pass.old }
        ensures event { IfSome result (λ r. (b : SharedView) × (b.of ≡ self.now) × IsReserved b pass.old.number pass.old.notes pass.new.notes r bytes) }
        ensures range { IfSome result (λ r. (r.era ≡ era_named self.now.chunks) × (r.len ≡ bytes)) }
        ensures none { IfNone result (Since pass.old.number pass.old.notes pass.new.notes []) }
        ensures legal { IsLegal K.key_at self.now.opening (seen pass.new) }
    {
        pass.prove_legal();
        let bucket = list.find_now(self, number)?;
        bucket.try_reserve(rt, self, pass, bytes)
    }
}
