//! The list of a history that was seen, with its length, to be read without a pass. Used by handles of an interner that lend texts.
ghost use Rattle.std.specs.Prelude.{◌≡◌, [], length, option_map, slice_get};
ghost use Rattle.lasso_log.specs.History.{IsLegal, IsOpening};
ghost use Rattle.lasso_log.specs.Notes.{Since, history};
ghost use Rattle.lasso_log.specs.Views.{PassView, InternerId, SnapshotView, IsSamePass, list_of};

use crate::log::pass::Pass;
use crate::log::shared_log::Log;
use crate::log::snapshot::Snapshot;
use crate::log::snapshot::seen_texts::SeenTexts;
use lasso_parts::keys::Key;
use std::marker::Model;

/// A history of one interner that was seen, and the length of its list. A contract sees the history: the interner and the notes.
#[derive(Drop)]
pub struct SeenList<K: Key> {
    len: u64,
    known: Snapshot<K>,
}

impl<K: Key> Model for SeenList<K> {
    ghost use Rattle.std.specs.Prelude.{◌≡◌, length};
    ghost use Rattle.lasso_log.specs.Views.{SnapshotView, snapshot_view_coded, list_of};

    ghost Value = { SnapshotView };

    ghost coded = { snapshot_view_coded };

    ghost view = { λ l. l.known };

    ghost invariant = { λ l. l.len ≡ length (list_of l.known.of l.known.notes) };
}

impl<K: Key> SeenList<K> {
    /// How many texts it has.
    pub fn len(&self) -> usize
        ensures { result ≡ length (list_of self.now.of self.now.notes) }
    {
        self.len as usize
    }

    /// Does nothing. Contracts learn that its history is a legal one of what an interner may begin with.
    pub fn prove_legal(&self)
        ensures opening { IsOpening K.key_at self.now.of.opening }
        ensures legal { IsLegal K.key_at self.now.of.opening (history self.now.notes) }
    {
        self.known.prove_legal();
    }
}

impl<K: Key> Log<K> {
    /// The list that the pass has then seen. It takes no memory and does not wait.
    pub fn seen_list(&self, pass: &mut Pass<K>) -> SeenList<K>
        requires { pass.old.of ≡ self.now }
        ensures of { result.of ≡ self.now }
        ensures notes { result.notes ≡ pass.new.notes }
        ensures same { IsSamePass pass.new pass.old }
        ensures since { Since pass.old.number pass.old.notes pass.new.notes [] }
    {
        let len = self.len(pass);
        let known = pass.snapshot();
        SeenList { len, known }
    }

    /// The text at the position of a list that was seen, or `None` past its end. It is lent as long as the log. It takes no step.
    pub fn text_of(&self, list: &SeenList<K>, position: u64) -> Option<&str>
        requires { list.now.of ≡ self.now }
        ensures { option_map (λ t. t.now) result ≡ slice_get (list_of list.now.of list.now.notes) position }
    {
        if position >= list.len {
            return None;
        }
        Some(self.snapshot_texts(&list.known).lend(position as usize))
    }

    /// The texts of a list that was seen, to be read in place. It takes no step.
    pub fn texts_of(&self, list: &SeenList<K>) -> SeenTexts<'_, K>
        requires { list.now.of ≡ self.now }
        ensures { result ≡ list_of list.now.of list.now.notes }
    {
        self.snapshot_texts(&list.known)
    }
}
