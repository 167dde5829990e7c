//! The steps at a bucket's word: a look at it, and the exchange that takes bytes. Used by the buckets of the shared arena.
ghost use Rattle.std.specs.Prelude.{◌≡◌, ◌≢◌, ◌+◌, ◌<◌, ◌≤◌, ℕ, [], ◌∷◌, IfSome, IfNone};
ghost use Rattle.lasso_log.specs.History.{Reserve};
ghost use Rattle.lasso_log.specs.Notes.{Since, state};
ghost use Rattle.lasso_log.specs.LentBuckets.{IsRightTo};
ghost use Rattle.lasso_log.specs.SharedBuckets.{SharedView, HasTaken, LacksRoom, IsNoteOf};
ghost use Rattle.lasso_log.specs.Views.{PassView, InternerId, IsSamePass};

use crate::chunks::rule::BytesTaken;
use crate::chunks::taking::{right_taken, take_bytes};
use crate::log::book::note::Note;
use crate::log::book::proposals::BytesAsked;
use crate::log::book::rule::{Add, LogRule, Shared};
use crate::log::buckets::SharedBucket;
use crate::log::pass::Pass;
use crate::log::shared_log::Log;
use crate::shared_memory::rights::Free;
use lasso_parts::keys::Key;
use logbook::Offer;

impl<K: Key> SharedBucket<K> {
    /// What its word has at one step: how many bytes were taken since it began.
    pub(crate) fn taken(&self, log: &Log<K>, pass: &mut Pass<K>) -> u64
        requires { (pass.old.of ≡ log.now) × (self.now.of ≡ log.now) }
        ensures same { IsSamePass pass.new pass.old }
        ensures since { Since pass.old.number pass.old.notes pass.new.notes [] }
        ensures reply { HasTaken (state log.now.opening pass.new.notes) self.now.position (self.now.base + result) }
        ensures within { self.now.base + result ≤ self.now.size }
        ensures full { (n : ℕ) → self.now.size < self.now.base + result + n → LacksRoom (state log.now.opening pass.new.notes) self.now.position n }
    {
        pass.learn_seen(&self.seen);
        log.load(&self.word, self.position + 2, pass)
    }
}

impl<K: Key> Log<K> {
    /// Takes the next bytes of a bucket if its word has this value still, and gives the right to them. Else nothing changes.
    pub(crate) fn reserve_at(
        &self,
        bucket: &SharedBucket<K>,
        expected: u64,
        bytes: u64,
        pass: &mut Pass<K>,
    ) -> Option<Free>
        requires of { (pass.old.of ≡ self.now) × (bucket.now.of ≡ self.now) }
        requires some { bytes ≢ 0 }
        requires fits { bucket.now.base + expected + bytes ≤ bucket.now.size }
        ensures same { IsSamePass pass.new pass.old }
        ensures none { IfNone result (pass.new ≡ pass.old) }
        ensures right { IfSome result (λ r. IsRightTo r record { site = bucket.now.site; size = bucket.now.size; used = bucket.now.base + expected } bytes) }
        ensures event { IfSome result (λ r. Since pass.old.number pass.old.notes pass.new.notes (Reserve bucket.now.position bytes ∷ [])) }
        ensures note { IfSome result (λ r. IsNoteOf pass.old.number pass.new.notes (Reserve bucket.now.position bytes) bucket.now.site) }
        ensures taken { IfSome result (λ r. HasTaken (state self.now.opening pass.new.notes) bucket.now.position (bucket.now.base + expected + bytes)) }
    {
        let next = self.next_ticket(pass);
        let mut seen = self.seen.again();
        seen.learn(&bucket.seen);
        seen.learn(&pass.seen);
        let about = BytesAsked {
            bucket: bucket.position,
            bytes,
            size: bucket.size,
            used: bucket.base + expected,
            site: &bucket.site,
            number: &pass.number,
            ticket: &pass.ticket,
            next: &next,
        };
        let mut offer: Offer<Note, u64, LogRule<K>, BytesTaken<Shared<K>>> = take_bytes::<
            _,
            _,
            _,
            _,
            BytesAsked<'_, K>,
            Add<K>,
        >(&seen, &about, bucket.position);
        let found = bucket
            .word
            .compare_exchange::<Add<K>, BytesTaken<Shared<K>>>(
                expected,
                expected + bytes,
                &mut seen,
                &mut offer,
                &mut pass.ticket.pen,
            );
        if found != expected {
            return None;
        }
        let right = right_taken(offer.into_gain());
        pass.used = Some(pass.ticket.use_up(next));
        pass.seen = seen;
        Some(right)
    }
}
