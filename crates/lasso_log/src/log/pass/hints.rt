//! The hints of a pass: it keeps where in the list it met texts, and finds them there again without a lock.
ghost use Rattle.std.specs.Prelude.{◌≡◌, ◌<◌, [], IfSome, Some, length, slice_get};
ghost use Rattle.lasso_log.specs.Notes.{Since};
ghost use Rattle.lasso_log.specs.Views.{PassView, InternerId, SnapshotView, IsSamePass, list_of};

mod table;

use crate::log::pass::Pass;
use crate::log::pass::hints::table::HintTable;
use crate::log::shared_log::Log;
use crate::log::snapshot::Snapshot;
use crate::log::snapshot::known_list::KnownList;
use lasso_parts::keys::Key;
use std::alloc::Global;
use std::marker::Model;

/// A table of hints or none, and the list that they are of. A hint may be wrong, so the text at its position has
/// to be compared. Each position that is returned is one of that list. A contract sees the list's history.
#[derive(Drop)]
pub(crate) struct Hints<K: Key> {
    table: Option<HintTable>,
    // No hint is followed past the length that is known of it.
    list: KnownList<K>,
}

impl<K: Key> Model for Hints<K> {
    ghost use Rattle.lasso_log.specs.Views.{SnapshotView, snapshot_view_coded};

    ghost Value = { SnapshotView };

    ghost coded = { snapshot_view_coded };

    ghost view = { λ h. h.list };
}

impl<K: Key> Hints<K> {
    /// No table. It takes no memory.
    pub(crate) fn none(known: Snapshot<K>) -> Hints<K>
        ensures { result ≡ known }
    {
        Hints {
            table: None,
            list: KnownList::of(known),
        }
    }

    /// Makes the table, if there is none. Out of memory there stays none.
    pub(super) fn make(&mut self, alloc: Global)
        ensures { self.new ≡ self.old }
    {
        if self.table.is_none() {
            self.table = HintTable::new(alloc);
        }
    }

    /// Whether there is a table.
    pub(super) fn exist(&self) -> bool {
        self.table.is_some()
    }

    /// Whether hints found most of the texts that were looked up last.
    #[inline(always)]
    pub(super) fn serve(&self) -> bool {
        match &self.table {
            Some(table) => table.serves(),
            None => false,
        }
    }

    /// A copy of the list.
    pub(super) fn list(&self) -> KnownList<K>
        ensures { result ≡ self.now }
    {
        self.list.again()
    }

    /// A position of the list that was seen, where a text with that hash may be.
    #[inline(always)]
    pub(super) fn find(&mut self, hash: u64) -> Option<u64>
        ensures same { self.new ≡ self.old }
        ensures below { IfSome result (λ n. n < length (list_of self.old.of self.old.notes)) }
    {
        let Some(table) = &mut self.table else {
            return None;
        };
        table.find(hash, self.list.len())
    }

    /// Counts a position that `find` returned, if the text was there.
    #[inline(always)]
    pub(super) fn count_hit(&mut self)
        ensures { self.new ≡ self.old }
    {
        if let Some(table) = &mut self.table {
            table.count_hit();
        }
    }

    /// Keeps the position of a text with that hash, in the list of a history. A position past `u32::MAX` is
    /// not kept.
    #[inline(always)]
    pub(super) fn keep(&mut self, hash: u64, position: u64, known: Snapshot<K>)
        requires of { known.of ≡ self.old.of }
        requires below { position < length (list_of known.of known.notes) }
        ensures { self.new.of ≡ self.old.of }
    {
        let Some(table) = &mut self.table else {
            return;
        };
        let Ok(short) = u32::try_from(position) else {
            return;
        };
        table.keep(hash, short);
        self.list.reach(position + 1, known);
    }
}

impl<K: Key> Pass<K> {
    /// Makes the pass keep hints, in a table of 131,072 bytes that ends with the pass. Out of memory it keeps
    /// none, and nothing changes.
    pub fn make_hints(&mut self, alloc: Global)
        ensures { self.new ≡ self.old }
    {
        self.hints.make(alloc);
    }

    /// Whether the pass keeps hints.
    pub fn has_hints(&self) -> bool {
        self.hints.exist()
    }

    /// Whether hints found most of the texts that were looked up last. Such texts were met lately, so they are in
    /// near caches.
    #[inline(always)]
    pub fn hints_serve(&self) -> bool {
        self.hints.serve()
    }

    /// Keeps where a text with that hash is, in the list that the pass has seen. A pass without hints keeps
    /// nothing.
    #[inline(always)]
    pub fn keep_hint(&mut self, hash: u64, position: u64)
        requires { position < length (list_of self.old.of self.old.notes) }
        ensures { self.new ≡ self.old }
    {
        let known = self.snapshot();
        self.hints.keep(hash, position, known);
    }

    /// A guess at the position of a text with that hash, if the pass has a hint of it. The caller has to compare
    /// the text there, and counts it by `count_hint` if it is the same.
    #[inline(always)]
    pub fn ask_hint(&mut self, hash: u64) -> Option<u64>
        ensures { self.new ≡ self.old }
    {
        self.hints.find(hash)
    }

    /// Counts a position that `ask_hint` returned, if the text was there: hints that find few texts rest.
    #[inline(always)]
    pub fn count_hint(&mut self)
        ensures { self.new ≡ self.old }
    {
        self.hints.count_hit();
    }
}

impl<K: Key> Log<K> {
    /// The text's position in the list that the pass has then seen, if a hint of the pass leads to it: the text
    /// there is compared. `hash` is the text's, by the hasher that the hints were kept with; with another
    /// hash nothing wrong is returned. It takes no lock and no memory, and does not wait.
    #[inline(always)]
    pub fn find_hinted(&self, pass: &mut Pass<K>, hash: u64, text: &str) -> Option<u64>
        requires { pass.old.of ≡ self.now }
        ensures same { IsSamePass pass.new pass.old }
        ensures since { Since pass.old.number pass.old.notes pass.new.notes [] }
        ensures found { IfSome result (λ n. slice_get (list_of pass.new.of pass.new.notes) n ≡ Some text.now) }
    {
        let position = pass.hints.find(hash)?;
        let list = pass.hints.list();
        if !self.is_text_at(pass, &list, position, text) {
            return None;
        }
        pass.hints.count_hit();
        Some(position)
    }
}
