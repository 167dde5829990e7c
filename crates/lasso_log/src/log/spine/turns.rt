//! The turns that a spine has seen: what the charges and limits of a history add up to, and how the limit is replaced and read.
ghost use Rattle.std.specs.Prelude.{◌≡◌, ◌≢◌, ◌+◌, ◌<◌, ◌≤◌, [], IfSome, IfNone, MatchBool};
ghost use Rattle.lasso_log.specs.Buckets.{doubling_after};
ghost use Rattle.lasso_log.specs.Charges.{next_size, SetsLimit, AreLast};
ghost use Rattle.lasso_log.specs.History.{Limit};
ghost use Rattle.lasso_log.specs.Notes.{Since};
ghost use Rattle.lasso_log.specs.Views.{PassView, InternerId, TurnsView, IsSamePass};

use crate::log::book::note::{Change, Note};
use crate::log::book::rule::LogRule;
use crate::log::pass::Pass;
use crate::log::shared_log::{Exchange, Log};
use lasso_parts::keys::Key;
use logbook::Seen;
use std::marker::Model;

/// How many turns a history has that was seen, its doubling size, usage and limit in bytes, and how many buckets it has. A contract sees
/// these numbers, the interner and the notes.
#[derive(Drop)]
pub struct Turns<K: Key> {
    pub(crate) turns: u64,
    pub(crate) doubling: u64,
    pub(crate) usage: u64,
    pub(crate) limit: u64,
    pub(crate) count: u64,
    pub(crate) seen: Seen<Note, u64, LogRule<K>>,
}

impl<K: Key> Model for Turns<K> {
    ghost use Rattle.lasso_log.specs.Parts.{AreTurns};
    ghost use Rattle.lasso_log.specs.Views.{TurnsView, turns_view_coded, turns_seen};

    ghost Value = { TurnsView };

    ghost coded = { turns_view_coded };

    ghost view = { λ t. turns_seen t.seen.book t.seen.names t.seen.log t.turns t.doubling t.usage t.limit t.count };

    ghost invariant = { λ t. AreTurns K.key_at t.seen.log t.turns t.doubling t.usage t.limit t.count };
}

impl<K: Key> Turns<K> {
    // The size of the new bucket for `bytes` bytes if no bucket has room for them, or `None` if the limit
    // refuses them.
    pub(crate) fn bucket_for(&self, bytes: u64) -> Option<u64>
        requires { bytes ≢ 0 }
        ensures size { result ≡ next_size self.now bytes }
        ensures within { IfSome result (λ size. (bytes ≤ size) × (self.now.usage + size ≤ self.now.limit)) }
        ensures refused { IfNone result (self.now.limit < self.now.usage + bytes) }
    {
        let left = self.limit.saturating_sub(self.usage);
        if left < bytes {
            return None;
        }
        if self.doubling > u64::MAX / 2 {
            return Some(left);
        }
        let doubled = 2 * self.doubling;
        if doubled < bytes {
            Some(bytes)
        } else if left < doubled {
            Some(left)
        } else {
            Some(doubled)
        }
    }

    // The doubling size after that bucket is added.
    pub(crate) fn doubling_for(&self, bytes: u64) -> u64
        requires { bytes ≢ 0 }
        ensures { result ≡ doubling_after self.now.doubling self.now.usage self.now.limit bytes }
    {
        let left = self.limit.saturating_sub(self.usage);
        if self.doubling > u64::MAX / 2 {
            return self.doubling;
        }
        let doubled = 2 * self.doubling;
        if doubled < bytes || left < doubled {
            self.doubling
        } else {
            doubled
        }
    }
}

impl<K: Key> Log<K> {
    // Whether the turn word has the value of these turns, at one step.
    pub(crate) fn is_at(&self, turns: &Turns<K>, pass: &mut Pass<K>) -> bool
        requires { (pass.old.of ≡ self.now) × (turns.now.of ≡ self.now) }
        ensures same { IsSamePass pass.new pass.old }
        ensures since { Since pass.old.number pass.old.notes pass.new.notes [] }
        ensures at { MatchBool result (AreLast K.key_at self.now.opening turns.now pass.new.notes) (Unit {0}) }
    {
        pass.learn_seen(&turns.seen);
        self.load(&self.turns, 1, pass) == turns.turns
    }

    // Replaces the limit if the turn word has the value of these turns. Otherwise it does nothing.
    pub(crate) fn try_set_limit(&self, turns: &mut Turns<K>, pass: &mut Pass<K>, limit: u64) -> bool
        requires { (pass.old.of ≡ self.now) × (turns.old.of ≡ self.now) }
        ensures same { IsSamePass pass.new pass.old × (turns.new.of ≡ turns.old.of) }
        ensures done { MatchBool result (SetsLimit limit pass.old pass.new turns.old turns.new) ((pass.new ≡ pass.old) × (turns.new ≡ turns.old)) }
    {
        if turns.turns == u64::MAX {
            return false;
        }
        let expected = turns.turns;
        let numbers = Exchange {
            word_index: 1,
            expected,
            position: 0,
        };
        let change = Change::Limit { limit };
        if !self.exchange(&self.turns, numbers, change, None, &turns.seen, pass) {
            return false;
        }
        turns.turns = expected + 1;
        turns.limit = limit;
        turns.seen = pass.copy_seen();
        true
    }
}
