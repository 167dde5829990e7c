//! A history that was seen, kept with what was read off it. Used by the shards, whose indexes are exact for
//! one.
ghost use Rattle.std.specs.Prelude.{◌≡◌, ◌<◌, [], length};
ghost use mathlib.Core.List.{IsPrefix};
ghost use Rattle.lasso_log.specs.History.{IsLegal, IsOpening};
ghost use Rattle.lasso_log.specs.Notes.{Since, history, opening_of, notes_of, IsOpened};
ghost use Rattle.lasso_log.specs.Views.{InternerId, SnapshotView, IsSamePass, seen};

pub mod known_list;
pub mod seen_list;
pub mod seen_texts;

use crate::log::book::note::Note;
use crate::log::book::rule::LogRule;
use crate::log::pass::Pass;
use crate::log::shared_log::Log;
use lasso_parts::keys::Key;
use logbook::Seen;
use std::marker::Model;

/// A history of one interner that was seen. It has no bytes. A contract sees the interner and the notes.
#[derive(Drop)]
pub struct Snapshot<K: Key> {
    pub(super) seen: Seen<Note, u64, LogRule<K>>,
}

impl<K: Key> Model for Snapshot<K> {
    ghost use Rattle.lasso_log.specs.Notes.{opening_of, notes_of, IsOpened};
    ghost use Rattle.lasso_log.specs.Views.{SnapshotView, snapshot_view_coded, interner_id};

    ghost Value = { SnapshotView };

    ghost coded = { snapshot_view_coded };

    ghost view = { λ k. record { of = interner_id k.seen.book k.seen.names (opening_of k.seen.log); notes = notes_of k.seen.log } };

    ghost invariant = { λ k. IsOpened k.seen.log };
}

impl<K: Key> Snapshot<K> {
    /// Does nothing. Contracts learn that it is a legal history of what an interner may begin with.
    pub fn prove_legal(&self)
        ensures opening { IsOpening K.key_at self.now.of.opening }
        ensures legal { IsLegal K.key_at self.now.of.opening (history self.now.notes) }
    {
        let mut both = self.seen.again();
        both.learn(&self.seen);
    }

    // A copy.
    pub(super) fn again(&self) -> Snapshot<K>
        ensures { result ≡ self.now }
    {
        let seen = self.seen.again();
        Snapshot { seen }
    }

    // The log that it has seen.
    pub(super) fn copy_seen(&self) -> Seen<Note, u64, LogRule<K>>
        ensures of { (result.book ≡ self.now.of.book) × (result.names ≡ self.now.of.chunks) × (opening_of result.log ≡ self.now.of.opening) }
        ensures log { IsOpened result.log × (notes_of result.log ≡ self.now.notes) }
    {
        self.seen.again()
    }
}

impl<K: Key> Log<K> {
    /// What was seen of the log at its opening.
    pub fn snapshot(&self) -> Snapshot<K>
        ensures { (result.of ≡ self.now) × (result.notes ≡ []) }
    {
        Snapshot {
            seen: self.seen.again(),
        }
    }
}

impl<K: Key> Pass<K> {
    /// The history that it has seen.
    pub fn snapshot(&self) -> Snapshot<K>
        ensures { (result.of ≡ self.now.of) × (result.notes ≡ self.now.notes) }
    {
        Snapshot {
            seen: self.copy_seen(),
        }
    }

    /// Afterwards it has seen that history too. It adds no event, takes no memory and does not wait.
    pub fn learn(&mut self, known: &Snapshot<K>)
        requires { self.old.of ≡ known.now.of }
        ensures same { IsSamePass self.new self.old }
        ensures since { Since self.old.number self.old.notes self.new.notes [] }
        ensures known { IsPrefix known.now.notes self.new.notes }
        ensures legal { IsLegal K.key_at self.new.of.opening (seen self.new) }
    {
        self.learn_seen(&known.seen);
    }
}
