//! Buckets that threads take bytes of by exchanges of the buckets' words, without a lock. Used by the log.
ghost use Rattle.std.specs.Prelude.{◌≡◌, ◌≢◌, ◌+◌, [], ◌∷◌, IfSome, IfNone};
ghost use Rattle.lasso_log.specs.History.{Reserve, IsLegal};
ghost use Rattle.lasso_log.specs.Notes.{Since, state};
ghost use Rattle.lasso_log.specs.Pieces.{RangeView};
ghost use Rattle.lasso_log.specs.SharedBuckets.{SharedView, HasTaken, LacksRoom, IsRangeOf, IsNoteOf, joined};
ghost use Rattle.lasso_log.specs.Views.{PassView, IsSamePass, seen};

mod bid;
mod charges;
mod finding_room;
pub mod list;
mod reserving;

use crate::log::book::note::Note;
use crate::log::book::rule::LogRule;
use crate::log::{Log, Pass};
use crate::shared_memory::piece::Range;
use boxcar::tag::Tag;
use lasso_parts::keys::Key;
use logbook::{Seen, Word};
use std::marker::{Model, Send, Sync};
use std::sync::Wait;

/// A bucket of a history: its word, which counts the bytes that were taken since it began; where it is; how
/// many bytes it has; how many of them were taken before its word began; its position in the history; and a
/// log that has it.
#[derive(Drop)]
pub struct SharedBucket<K: Key> {
    pub(crate) word: Word<Note, u64, LogRule<K>>,
    pub(crate) ptr: *mut u8,
    pub(crate) size: u64,
    pub(crate) base: u64,
    pub(crate) position: u64,
    pub(crate) site: Tag,
    pub(crate) seen: Seen<Note, u64, LogRule<K>>,
}

impl<K: Key> Model for SharedBucket<K> {
    ghost use Rattle.lasso_log.specs.Events.{site_at};
    ghost use Rattle.lasso_log.specs.SharedBuckets.{SharedView, IsShared, shared_seen};

    ghost Value = { SharedView };

    ghost view = { λ b. shared_seen b.seen.book b.seen.names b.seen.log b.position (site_at b.site.numbers) b.size b.base };

    ghost invariant = { λ b. IsShared b.seen.book b.seen.names b.seen.log b.word b.ptr b.position b.base b.size b.site.numbers };
}

unsafe impl<K: Key> Send for SharedBucket<K> {}

unsafe impl<K: Key> Sync for SharedBucket<K> {}

impl<K: Key> SharedBucket<K> {
    /// How many bytes it has.
    pub fn capacity(&self) -> u64
        ensures { result ≡ self.now.size }
    {
        self.size
    }

    /// Its position in the history.
    pub(crate) fn position(&self) -> u64
        ensures { result ≡ self.now.position }
    {
        self.position
    }

    /// How many of its bytes are taken, at one step. It takes no memory and does not wait.
    pub fn len(&self, log: &Log<K>, pass: &mut Pass<K>) -> u64
        requires { (pass.old.of ≡ log.now) × (self.now.of ≡ log.now) }
        ensures same { IsSamePass pass.new pass.old }
        ensures since { Since pass.old.number pass.old.notes pass.new.notes [] }
        ensures reply { HasTaken (state log.now.opening pass.new.notes) self.now.position result }
    {
        self.base + self.taken(log, pass)
    }

    /// Takes `bytes` bytes, at least one, and returns the right to fill them. It returns `None` only if they
    /// do not fit, and adds no event then. It takes no memory. It waits while another thread takes bytes at
    /// the same time.
    #[tactic(auto, using(crate::proofs::Tickets::since_trans))]
    pub fn try_reserve<R: Wait>(
        &self,
        rt: &R,
        log: &Log<K>,
        pass: &mut Pass<K>,
        bytes: u64,
    ) -> Option<Range>
        requires of { (pass.old.of ≡ log.now) × (self.now.of ≡ log.now) }
        requires some { bytes ≢ 0 }
        ensures same { IsSamePass pass.new pass.old }
        ensures event { IfSome result (λ r. Since pass.old.number pass.old.notes pass.new.notes (Reserve self.now.position bytes ∷ [])) }
        ensures note { IfSome result (λ r. IsNoteOf pass.old.number pass.new.notes (Reserve self.now.position bytes) self.now.site) }
        ensures range { IfSome result (λ r. IsRangeOf self.now pass.new.notes r bytes) }
        ensures none { IfNone result (Since pass.old.number pass.old.notes pass.new.notes []) }
        ensures full { IfNone result (LacksRoom (state log.now.opening pass.new.notes) self.now.position bytes) }
        ensures legal { IsLegal K.key_at log.now.opening (seen pass.new) }
    {
        for _ in rt.forever() {
            if let Some(found) = self.try_reserve_now(log, pass, bytes) {
                return found;
            }
        }
        unreachable!()
    }

    /// Takes bytes as `try_reserve` does, without waiting. It returns `None` if another thread takes bytes at the same time,
    /// and an inner `None` if they do not fit. No event is added in either case.
    #[tactic(auto, using(crate::proofs::Tickets::since_trans))]
    pub fn try_reserve_now(
        &self,
        log: &Log<K>,
        pass: &mut Pass<K>,
        bytes: u64,
    ) -> Option<Option<Range>>
        requires of { (pass.old.of ≡ log.now) × (self.now.of ≡ log.now) }
        requires some { bytes ≢ 0 }
        ensures same { IsSamePass pass.new pass.old }
        ensures event { IfSome (joined result) (λ r. Since pass.old.number pass.old.notes pass.new.notes (Reserve self.now.position bytes ∷ [])) }
        ensures note { IfSome (joined result) (λ r. IsNoteOf pass.old.number pass.new.notes (Reserve self.now.position bytes) self.now.site) }
        ensures range { IfSome (joined result) (λ r. IsRangeOf self.now pass.new.notes r bytes) }
        ensures none { IfNone (joined result) (Since pass.old.number pass.old.notes pass.new.notes []) }
        ensures full { IfSome result (λ r. IfNone r (LacksRoom (state log.now.opening pass.new.notes) self.now.position bytes)) }
        ensures legal { IsLegal K.key_at log.now.opening (seen pass.new) }
    {
        let room = self.size - self.base;
        let taken = self.taken(log, pass);
        if room < bytes || room - bytes < taken {
            pass.prove_legal();
            return Some(None);
        }
        let Some(right) = log.reserve_at(self, taken, bytes, pass) else {
            pass.prove_legal();
            return None;
        };
        let start = self.base + taken;
        pass.prove_legal();
        Some(Some(Range::new(self.ptr, start as usize, bytes as usize, right)))
    }
}
