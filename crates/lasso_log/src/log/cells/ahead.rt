//! Cells that are made ahead of the list's length. Used by whoever interns a text.
ghost use Rattle.std.specs.Prelude.{◌≡◌, ◌+◌, ◌-◌, ◌^◌, ◌<◌, ◌↔◌, [], length, IfOk, IfErr, IfSome, IsSome, IsTrue};
ghost use Rattle.lasso_parts.specs.declared.util.LassoErrorKind.TheVariants.{FailedAllocation};
ghost use Rattle.lasso_log.specs.Chunks.{chunk_named, IsAhead, SharesChunk};
ghost use Rattle.lasso_log.specs.Notes.{Since};
ghost use Rattle.lasso_log.specs.Views.{PassView, InternerId, SnapshotView, IsSamePass, list_of};

use crate::chunks::{Chunk, chunk_and_offset};
use crate::log::book::rule::StoredText;
use crate::log::pass::Pass;
use crate::log::shared_log::Log;
use crate::log::snapshot::Snapshot;
use boxcar::slot::Written;
use lasso_parts::keys::Key;
use lasso_parts::util::{LassoError, LassoErrorKind, LassoResult};
use std::alloc::Global;
use std::marker::Model;
use std::sync::Wait;

// Sixteen cells are asked for, from the length on. The last one lies this far past the first.
pub(crate) const AHEAD: u64 = 15;

/// Shows that the cells of the next sixteen positions are made, past the list of a history that was seen:
/// each is in the chunk of the first of them or in that of the last. It takes 8 bytes, the list's length. A
/// contract sees the interner and the history's notes.
///
/// If at most sixteen threads at a time intern a text, and each asks for these cells anew for each text,
/// each text finds its cell made. If its own look was too early for that, the sixteen texts before it came
/// after that look. When the first of these came, at most fourteen other threads had asked already and not
/// yet appended. So one of the next fifteen asked after that, and its cells reach to this text.
#[derive(Drop)]
pub struct CellsAhead<K: Key> {
    known: Snapshot<K>,
    first: Written<Chunk<StoredText>>,
    last: Written<Chunk<StoredText>>,
    start: u64,
}

impl<K: Key> Model for CellsAhead<K> {
    ghost use Rattle.lasso_log.specs.Parts.{AreCellsAhead};
    ghost use Rattle.lasso_log.specs.Views.{SnapshotView, snapshot_view_coded};

    ghost Value = { SnapshotView };

    ghost coded = { snapshot_view_coded };

    ghost view = { λ a. a.known };

    ghost invariant = { λ a. AreCellsAhead a.known a.first.of a.last.of a.start };
}

impl<K: Key> CellsAhead<K> {
    // The first of the sixteen positions.
    fn start(&self) -> u64
        ensures { result ≡ length (list_of self.now.of self.now.notes) }
    {
        self.start
    }
}

// Whether the position is one of the sixteen from `start` on.
fn is_ahead(start: u64, position: u64) -> bool
    ensures { IsTrue result ↔ IsAhead start position }
{
    start <= position && position - start <= AHEAD
}

// Whether the positions from `len` to `end` lie in one chunk with the position before them.
fn shares_chunk(len: u64, end: u64) -> bool
    requires { end ≡ len + 15 }
    ensures { IsTrue result ↔ SharesChunk len }
{
    if len == 0 {
        return false;
    }
    let (before, _) = chunk_and_offset(len - 1);
    let (first, _) = chunk_and_offset(len);
    let (last, _) = chunk_and_offset(end);
    first == before && last == first
}

impl<K: Key> Log<K> {
    /// Shows that the cells of the next sixteen positions are made, at one step. Returns `None` if one is
    /// not, and never if they are in one chunk with the last text. It takes no memory and does not wait.
    pub fn find_ahead(&self, pass: &mut Pass<K>) -> Option<CellsAhead<K>>
        requires { pass.old.of ≡ self.now }
        ensures same { IsSamePass pass.new pass.old }
        ensures since { Since pass.old.number pass.old.notes pass.new.notes [] }
        ensures ahead { IfSome result (λ a. (a.of ≡ self.now) × (a.notes ≡ pass.new.notes)) }
        ensures found { let len = length (list_of self.now pass.new.notes) in len + 15 < 2 ^ 64 → SharesChunk len → IsSome result }
    {
        let len = self.len(pass);
        let end = len.checked_add(AHEAD)?;
        if shares_chunk(len, end) {
            let chunk = self.last_chunk(pass, len);
            return Some(CellsAhead {
                known: pass.snapshot(),
                first: chunk.again(),
                last: chunk,
                start: len,
            });
        }
        let first = self.memory.chunks.find_chunk(len)?;
        let last = self.memory.chunks.find_chunk(end)?;
        Some(CellsAhead {
            known: pass.snapshot(),
            first,
            last,
            start: len,
        })
    }

    // Shows that the chunk of the last text is made. There must be one.
    fn last_chunk(&self, pass: &Pass<K>, len: u64) -> Written<Chunk<StoredText>>
        requires of { pass.now.of ≡ self.now }
        requires len { len ≡ length (list_of pass.now.of pass.now.notes) }
        requires some { 0 < len }
        ensures { result.of ≡ chunk_named self.now.chunks (len - 1) }
    {
        let mut seen = self.seen.again();
        seen.learn(&pass.seen);
        self.memory.chunks.chunk_below(&mut seen, len - 1)
    }

    // Whether the cell of the position is made, as `ahead` or a look shows.
    pub(crate) fn has_cell(&self, position: u64, ahead: &CellsAhead<K>) -> bool
        ensures { IsAhead (length (list_of ahead.now.of ahead.now.notes)) position → IsTrue result }
    {
        is_ahead(ahead.start(), position) || self.memory.chunks.find_chunk(position).is_some()
    }

    /// Makes the cells of the next sixteen positions, at one step, if they are not made, and shows that
    /// they are. It fails only out of memory (`FailedAllocation`), which it also returns if a position
    /// would be 2^64 or more. It waits while another thread makes them at the same time.
    pub fn make_ahead<R: Wait>(
        &self,
        rt: &R,
        alloc: Global,
        pass: &mut Pass<K>,
    ) -> LassoResult<CellsAhead<K>>
        requires { pass.old.of ≡ self.now }
        ensures same { IsSamePass pass.new pass.old }
        ensures since { Since pass.old.number pass.old.notes pass.new.notes [] }
        ensures ahead { IfOk result (λ a. (a.of ≡ self.now) × (a.notes ≡ pass.new.notes)) }
        ensures refused { IfErr result (λ error. error ≡ FailedAllocation) }
    {
        let len = self.len(pass);
        let Some(end) = len.checked_add(AHEAD) else {
            return Err(LassoError::new(LassoErrorKind::FailedAllocation));
        };
        let first = self.memory.chunks.make_chunk_or_wait(rt, alloc, len)?;
        let last = self.memory.chunks.make_chunk_or_wait(rt, alloc, end)?;
        Ok(CellsAhead {
            known: pass.snapshot(),
            first,
            last,
            start: len,
        })
    }
}
