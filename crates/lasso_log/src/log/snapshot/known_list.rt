//! The list of a history that was seen, with a length that it has at least. Used by the hints of a pass, and by the
//! interner that threads share, which reads several texts at guessed positions.
ghost use Rattle.std.specs.Prelude.{◌≡◌, ◌≤◌, [], true, IfSome, Some, length, slice_get};
ghost use Rattle.lasso_log.specs.Notes.{Since};
ghost use Rattle.lasso_log.specs.Views.{PassView, InternerId, SnapshotView, IsSamePass, list_of};

use crate::log::pass::Pass;
use crate::log::shared_log::Log;
use crate::log::snapshot::Snapshot;
use lasso_parts::keys::Key;
use lasso_parts::same::is_same;
use std::marker::Model;

/// A history of one interner that was seen, and a length that its list has at least. A contract sees the
/// history: the interner and the notes.
#[derive(Drop)]
pub struct KnownList<K: Key> {
    len: u64,
    known: Snapshot<K>,
}

impl<K: Key> Model for KnownList<K> {
    ghost use Rattle.std.specs.Prelude.{◌≤◌, length};
    ghost use Rattle.lasso_log.specs.Views.{SnapshotView, snapshot_view_coded, list_of};

    ghost Value = { SnapshotView };

    ghost coded = { snapshot_view_coded };

    ghost view = { λ l. l.known };

    ghost invariant = { λ l. l.len ≤ length (list_of l.known.of l.known.notes) };
}

impl<K: Key> KnownList<K> {
    /// The list of this history, of which no length is known.
    pub(crate) fn of(known: Snapshot<K>) -> KnownList<K>
        ensures { result ≡ known }
    {
        KnownList { len: 0, known }
    }

    /// A copy.
    #[inline(always)]
    pub(crate) fn again(&self) -> KnownList<K>
        ensures { result ≡ self.now }
    {
        KnownList {
            len: self.len,
            known: self.known.again(),
        }
    }

    /// The length that is known: the list has at least as many texts.
    #[inline(always)]
    pub(crate) fn len(&self) -> u64
        ensures { result ≤ length (list_of self.now.of self.now.notes) }
    {
        self.len
    }

    /// Makes the known length at least `len`, which the list of this history has. If it was not, the list is then that of
    /// this history.
    #[inline(always)]
    pub(crate) fn reach(&mut self, len: u64, known: Snapshot<K>)
        requires of { known.of ≡ self.old.of }
        requires has { len ≤ length (list_of known.of known.notes) }
        ensures { self.new.of ≡ self.old.of }
    {
        if self.len < len {
            self.len = len;
            self.known = known;
        }
    }
}

impl<K: Key> Log<K> {
    /// The opening's list, of which no length is known. It takes no step.
    pub fn unknown_list(&self) -> KnownList<K>
        ensures { result.of ≡ self.now }
    {
        KnownList::of(self.snapshot())
    }

    /// The list that the pass has then seen, and how many texts it has at one step. It takes no memory and
    /// does not wait.
    pub fn known_list(&self, pass: &mut Pass<K>) -> KnownList<K>
        requires { pass.old.of ≡ self.now }
        ensures of { result.of ≡ self.now }
        ensures same { IsSamePass pass.new pass.old }
        ensures since { Since pass.old.number pass.old.notes pass.new.notes [] }
    {
        let len = self.len(pass);
        let known = pass.snapshot();
        KnownList { len, known }
    }

    /// The text at the position, or `None` past the length that is known. It is lent as long as the log. It
    /// takes no step.
    #[inline(always)]
    pub fn text_in(&self, list: &KnownList<K>, position: u64) -> Option<&str>
        requires { list.now.of ≡ self.now }
        ensures { IfSome result (λ t. slice_get (list_of list.now.of list.now.notes) position ≡ Some t.now) }
    {
        if position >= list.len {
            return None;
        }
        Some(self.snapshot_texts(&list.known).lend(position as usize))
    }

    /// Whether the text is at the position, which is past no length that is known. If it is, the pass has then
    /// seen the list's history too. It takes no step.
    #[inline(always)]
    pub fn is_text_at(
        &self,
        pass: &mut Pass<K>,
        list: &KnownList<K>,
        position: u64,
        text: &str,
    ) -> bool
        requires of { (pass.old.of ≡ self.now) × (list.now.of ≡ self.now) }
        ensures same { IsSamePass pass.new pass.old }
        ensures since { Since pass.old.number pass.old.notes pass.new.notes [] }
        ensures found { result ≡ true → slice_get (list_of pass.new.of pass.new.notes) position ≡ Some text.now }
    {
        let Some(there) = self.text_in(list, position) else {
            return false;
        };
        if !is_same(there, text) {
            return false;
        }
        pass.learn(&list.known);
        true
    }
}
