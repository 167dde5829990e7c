//! The spine: the numbers of the list and of the turns, which one thread at a time has, and the cells that it keeps.
ghost use Rattle.std.specs.Prelude.{◌≡◌, ◌+◌, ◌-◌, ◌^◌, ◌<◌, length};
ghost use Rattle.std.specs.Prelude.{OnOk, OnErr, IfOk, IfErr, IfSome, IfNone, IsFalse, IsSome, IsTrue};
ghost use Rattle.lasso_parts.specs.declared.util.LassoErrorKind.TheVariants.{FailedAllocation};
ghost use Rattle.lasso_parts.specs.Texts.{Fits};
ghost use Rattle.lasso_log.specs.History.{Append, MayFollow, IsLegal};
ghost use Rattle.lasso_log.specs.Notes.{state, history};
ghost use Rattle.lasso_log.specs.Views.{PassView, InternerId, SpineView, IsSamePass, IsSameSpine, IsAheadOf, IsAppended, TriesAppend, list_of, position_to_keep, seen};
ghost use base.Fml.{Incl};
ghost use Rattle.lasso_log.specs.Eras.{life};
ghost use Rattle.lasso_log.specs.Chunks.{IsCellAt, era_named};

mod limits;
pub(super) mod turns;

use crate::log::book::note::{Change, Note};
use crate::log::book::proposals::CellProof;
use crate::log::book::rule::{LogRule, StoredText};
use crate::log::cells::ahead::{AHEAD, CellsAhead};
use crate::log::cells::kept::KeptCell;
use crate::log::pass::Pass;
use crate::log::shared_log::{Exchange, Log};
use crate::log::spine::turns::Turns;
use lasso_parts::keys::Key;
use lasso_parts::util::{LassoError, LassoErrorKind, LassoResult};
use logbook::Seen;
use std::alloc::Global;
use std::marker::Model;

/// The length of the list in a history that was seen, as the texts of the opening and those appended, and how many
/// cells past it are kept for texts to come; and the turns. It is under a lock. Contracts see the cells kept, the interner, and what
/// the spine has seen of the list and of the turns.
pub struct Spine<K: Key> {
    pub(super) kept: u64,
    pub(super) first: u64,
    pub(super) appended: u64,
    pub(super) seen: Seen<Note, u64, LogRule<K>>,
    pub(super) turns: Turns<K>,
}

impl<K: Key> Model for Spine<K> {
    ghost use Rattle.lasso_log.specs.Parts.{IsSpine};
    ghost use Rattle.lasso_log.specs.Views.{SpineView, spine_view_coded, spine_seen};

    ghost Value = { SpineView };

    ghost coded = { spine_view_coded };

    ghost view = { λ s. spine_seen s.kept s.seen.book s.seen.names s.seen.log s.turns };

    ghost invariant = { λ s. IsSpine K.key_at s.seen.book s.seen.names s.seen.log s.first s.appended s.kept s.turns };
}

// One call, so that proofs of callers see nothing of the fields where a spine is let go.
impl<K: Key> Drop for Spine<K> {
    fn drop(self) {
        let Spine {
            kept: _,
            first: _,
            appended: _,
            seen: _,
            turns: _,
        } = self;
    }
}

impl<K: Key> Spine<K> {
    /// The length of the list that the spine has seen.
    pub fn len(&self) -> u64
        ensures len { result ≡ length (list_of self.now.of self.now.notes) }
        ensures fits { Fits K.key_at (length (list_of self.now.of self.now.notes)) }
        ensures legal { IsLegal K.key_at self.now.of.opening (history self.now.notes) }
    {
        self.first + self.appended
    }

    /// How many buckets the spine has seen.
    pub fn buckets(&self) -> u64
        ensures { result ≡ self.now.turns.count }
    {
        self.turns.count
    }

    /// Does nothing. Contracts learn that a pass of the same interner that has seen a list of the same length has
    /// seen the same list.
    pub fn prove_agrees(&self, pass: &Pass<K>)
        requires { (self.now.of ≡ pass.now.of) × (length (list_of self.now.of self.now.notes) ≡ length (list_of pass.now.of pass.now.notes)) }
        ensures { list_of self.now.of self.now.notes ≡ list_of pass.now.of pass.now.notes }
    {
        let mut both = self.seen.again();
        both.learn(&pass.seen);
    }

    /// How many cells it keeps for texts to come.
    pub fn kept(&self) -> u64
        ensures { result ≡ self.now.kept }
    {
        self.kept
    }

    /// Gives back a cell that `reserve_next` kept. Nothing else changes, and it never fails.
    pub fn give_back(&mut self, cell: KeptCell<K>)
        requires { cell ≡ self.old.of }
        ensures kept { self.new.kept ≡ self.old.kept - 1 }
        ensures same { IsSameSpine self.new self.old }
        ensures turns { self.new.turns ≡ self.old.turns }
    {
        cell.end();
        self.kept = self.kept.saturating_sub(1);
    }
}

impl<K: Key> Log<K> {
    /// Keeps one cell more for a text to come, until it is appended or given back. The cells of the fifteen
    /// positions after it are made too, for a caller that looked at those ahead before this text came. It fails
    /// only out of memory (`FailedAllocation`), which it also returns for position 2^64 - 1. Nothing changes then.
    pub fn reserve_next(&self, alloc: Global, spine: &mut Spine<K>) -> LassoResult<KeptCell<K>>
        requires { spine.old.of ≡ self.now }
        ensures cell { IfOk result (λ cell. cell ≡ self.now) }
        ensures kept { OnOk result (spine.new.kept ≡ spine.old.kept + 1) }
        ensures same { IsSameSpine spine.new spine.old }
        ensures turns { spine.new.turns ≡ spine.old.turns }
        ensures refused { IfErr result (λ error. error ≡ FailedAllocation) }
        ensures unchanged { OnErr result (spine.new.kept ≡ spine.old.kept) }
    {
        let position = spine.first + spine.appended + spine.kept;
        if position == u64::MAX {
            return Err(LassoError::new(LassoErrorKind::FailedAllocation));
        }
        self.memory.chunks.make_chunk(alloc, position)?;
        let end = position.saturating_add(AHEAD);
        self.memory.chunks.make_chunk(alloc, end)?;
        spine.kept += 1;
        Ok(KeptCell::new(self.snapshot()))
    }

    /// Keeps one cell more, for a caller that has made cells ahead. Returns `None` if that cell is
    /// not made, and nothing changes then; it never does so for one of the sixteen positions of these cells but
    /// 2^64 - 1. It takes no memory and does not wait.
    pub fn reserve_ahead(&self, spine: &mut Spine<K>, ahead: &CellsAhead<K>) -> Option<KeptCell<K>>
        requires { (spine.old.of ≡ self.now) × (ahead.now.of ≡ self.now) }
        ensures cell { IfSome result (λ cell. cell ≡ self.now) }
        ensures kept { IfSome result (λ cell. spine.new.kept ≡ spine.old.kept + 1) }
        ensures same { IsSameSpine spine.new spine.old }
        ensures turns { spine.new.turns ≡ spine.old.turns }
        ensures unchanged { IfNone result (spine.new.kept ≡ spine.old.kept) }
        ensures found { let position = position_to_keep self.now spine.old in position < 2 ^ 64 - 1 → IsAheadOf ahead.now position → IsSome result }
    {
        let position = spine.first + spine.appended + spine.kept;
        if position == u64::MAX {
            return None;
        }
        if !self.has_cell(position, ahead) {
            return None;
        }
        spine.kept += 1;
        Some(KeptCell::new(self.snapshot()))
    }

    /// Puts the text last, in a cell that was kept. The text must stay where it is as long as the interner's
    /// era. The list of the spine must lack it, and have a key for its length. The text's cell is filled
    /// before the length moves. It returns false, nothing is appended, and the cell is given back, if the length
    /// isn't the spine's, if the spine keeps no cell, if the chunk of its position isn't made, and if the cell is
    /// filled. Either way the spine keeps one cell less. It does not wait.
    pub fn append_now(
        &self,
        spine: &mut Spine<K>,
        pass: &mut Pass<K>,
        cell: KeptCell<K>,
        text: StoredText,
    ) -> bool
        requires of { (pass.old.of ≡ self.now) × (spine.old.of ≡ self.now) × (cell ≡ self.now) }
        requires lasts { Incl (life (era_named self.now.chunks)) text.until }
        requires may { MayFollow K.key_at (state self.now.opening spine.old.notes) (Append text.text) }
        // On success the text is last, by one event of the pass.
        ensures done { IsTrue result → IsAppended self.now pass.old pass.new spine.old spine.new text.text }

        // On failure nothing is appended.
        ensures refused { IsFalse result → (pass.new ≡ pass.old) × IsSameSpine spine.new spine.old }

        // Either way the spine keeps one cell less. The pass and the spine stay the same ones, and so do the turns. The list is legal.
        ensures kept { spine.new.kept ≡ spine.old.kept - 1 }
        ensures same { IsSamePass pass.new pass.old × (spine.new.of ≡ spine.old.of) }
        ensures turns { spine.new.turns ≡ spine.old.turns }
        ensures legal { IsLegal K.key_at self.now.opening (seen pass.new) }
    {
        let position = spine.len();
        let Ok((chunk, item)) = self.memory.chunks.try_fill(position, text) else {
            spine.give_back(cell);
            pass.prove_legal();
            return false;
        };
        let text = self
            .memory
            .chunks
            .value(position, &chunk, &item)
            .text(self.memory.chunks.era());
        if self.try_append(spine, pass, text, (chunk, item)) {
            cell.end();
            pass.prove_legal();
            return true;
        }
        spine.give_back(cell);
        pass.prove_legal();
        false
    }

    // Appends if the length is the spine's and the spine keeps a cell. Otherwise it does nothing.
    fn try_append(
        &self,
        spine: &mut Spine<K>,
        pass: &mut Pass<K>,
        text: &str,
        cell_proof: CellProof,
    ) -> bool
        requires of { (pass.old.of ≡ self.now) × (spine.old.of ≡ self.now) }
        requires may { MayFollow K.key_at (state self.now.opening spine.old.notes) (Append text.now) }
        requires cell { IsCellAt self.now.chunks (length (list_of self.now spine.old.notes)) cell_proof.0.of cell_proof.0.value.items cell_proof.1.of }
        requires filled { (cell_proof.1.value.text ≡ text.now) × Incl (life (era_named self.now.chunks)) cell_proof.1.value.until }
        ensures same { IsSamePass pass.new pass.old × (spine.new.of ≡ spine.old.of) }
        ensures turns { spine.new.turns ≡ spine.old.turns }
        ensures done { TriesAppend self.now result pass.old pass.new spine.old spine.new text.now }
    {
        if spine.kept == 0 {
            return false;
        }
        let appended = spine.appended;
        let done = self.exchange(
            &self.head,
            Exchange {
                word_index: 0,
                expected: appended,
                position: spine.first + appended,
            },
            Change::Append { text },
            Some(cell_proof),
            &spine.seen,
            pass,
        );
        if !done {
            return false;
        }
        spine.seen = pass.copy_seen();
        spine.appended = appended + 1;
        spine.kept -= 1;
        true
    }
}
