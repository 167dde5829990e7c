//! Passes: what a thread has seen of the history, with its number and its tickets.
ghost use Rattle.std.specs.Prelude.{◌≡◌, ◌⊎◌, []};
ghost use mathlib.Core.List.{IsPrefix};
ghost use Rattle.lasso_log.specs.History.{IsLegal, IsOpening};
ghost use Rattle.lasso_log.specs.Notes.{Since, opening_of, notes_of, IsOpened};
ghost use Rattle.lasso_log.specs.Views.{PassView, seen, IsSamePass};

pub(super) mod hints;
mod meeting;
pub(super) mod ticket;

use crate::log::book::looks::look;
use crate::log::book::note::Note;
use crate::log::book::rule::LogRule;
use crate::log::pass::hints::Hints;
use crate::log::pass::ticket::Ticket;
use boxcar::tag::Tag;
use lasso_parts::keys::Key;
use logbook::{Seen, Word};
use std::marker::Model;

/// What its holder has seen of the history of one interner. A contract sees its number, its interner and the
/// notes that it has seen. It has no bytes but those of its tickets' words and of its hints.
pub struct Pass<K: Key> {
    pub(super) seen: Seen<Note, u64, LogRule<K>>,
    // The ticket of its next event.
    pub(super) ticket: Ticket<K>,
    // The word of a ticket that it used, if it used one. No other thread exchanges it.
    pub(super) used: Option<Word<Note, u64, LogRule<K>>>,
    pub(super) number: Tag,
    pub(super) hints: Hints<K>,
}

impl<K: Key> Model for Pass<K> {
    ghost use Rattle.lasso_log.specs.Views.{PassView, pass_view_coded, pass_seen};
    ghost use Rattle.lasso_log.specs.Chunks.{first_number};
    ghost use Rattle.lasso_log.specs.Parts.{IsPass};

    ghost Value = { PassView };

    ghost coded = { pass_view_coded };

    ghost view = { λ p. pass_seen (first_number p.number.numbers) p.seen.book p.seen.names p.seen.log };

    ghost invariant = { λ p. IsPass K.key_at p.seen.book p.seen.names p.seen.log p.number.numbers p.ticket.word p.ticket.pen p.used p.hints.of };
}

// One call, so that proofs of callers see nothing of the fields where a pass is let go.
impl<K: Key> Drop for Pass<K> {
    fn drop(self) {
        let Pass {
            seen: _,
            ticket: _,
            used: _,
            number: _,
            hints: _,
        } = self;
    }
}

impl<K: Key> Pass<K> {
    /// Does nothing. Contracts learn that what the pass has seen is a legal history of what an interner may begin with.
    pub fn prove_legal(&self)
        ensures opening { IsOpening K.key_at self.now.of.opening }
        ensures legal { IsLegal K.key_at self.now.of.opening (seen self.now) }
    {
        // The contract follows from the invariant of a pass, which proofs learn of a value whose field is read.
        let _ = &self.seen;
    }

    /// The log that it has seen.
    pub(super) fn copy_seen(&self) -> Seen<Note, u64, LogRule<K>>
        ensures of { (result.book ≡ self.now.of.book) × (result.names ≡ self.now.of.chunks) × (opening_of result.log ≡ self.now.of.opening) }
        ensures log { IsOpened result.log × (notes_of result.log ≡ self.now.notes) }
    {
        self.seen.again()
    }

    /// Afterwards it has seen what was given too.
    pub(super) fn learn_seen(&mut self, given: &Seen<Note, u64, LogRule<K>>)
        requires { self.old.of.book ≡ given.now.book }
        ensures same { IsSamePass self.new self.old }
        ensures since { Since self.old.number self.old.notes self.new.notes [] }
        ensures given { IsOpened given.now.log → IsPrefix (notes_of given.now.log) self.new.notes }
        ensures legal { IsLegal K.key_at self.new.of.opening (seen self.new) }
    {
        self.seen.learn(given);
        let mut later = self.seen.again();
        look(&mut later, &mut self.ticket.pen);
    }

    /// Does nothing. Contracts learn that of two passes of one interner one has seen a prefix of what the
    /// other has seen.
    pub fn prove_comparable(&self, other: &Pass<K>)
        requires { self.now.of ≡ other.now.of }
        ensures { IsPrefix self.now.notes other.now.notes ⊎ IsPrefix other.now.notes self.now.notes }
    {
        let mut both = self.seen.again();
        both.learn(&other.seen);
    }
}
