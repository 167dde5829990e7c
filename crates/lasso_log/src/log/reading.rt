//! What is read off the log: a text, and the length; by a pass, or of a history that was seen.
ghost use mathlib.Core.List.{IsPrefix};
ghost use Rattle.std.specs.Prelude.{◌≡◌, ◌<◌, [], Some, length, slice_get, option_map};
ghost use Rattle.lasso_log.specs.Chunks.{era_named};
ghost use Rattle.lasso_log.specs.Notes.{Since, texts_in};
ghost use Rattle.lasso_log.specs.Views.{PassView, InternerId, SnapshotView, IsSamePass, list_of};

use crate::log::book::note::Note;
use crate::log::book::rule::LogRule;
use crate::log::pass::Pass;
use crate::log::shared_log::Log;
use crate::log::snapshot::Snapshot;
use crate::shared_memory::era::Era;
use lasso_parts::keys::Key;
use logbook::Seen;

impl<K: Key> Log<K> {
    /// The number of texts at one step. It takes no memory and does not wait.
    pub fn len(&self, pass: &mut Pass<K>) -> u64
        requires { pass.old.of ≡ self.now }
        ensures same { IsSamePass pass.new pass.old }
        ensures since { Since pass.old.number pass.old.notes pass.new.notes [] }
        ensures reply { result ≡ length (list_of pass.new.of pass.new.notes) }
    {
        let appended = self.load(&self.head, 0, pass);
        self.first + appended
    }

    /// The text at the position, of the list as it is at one step, or `None` past its end. It is lent as long
    /// as the log. It takes no memory and does not wait.
    pub fn read(&self, position: u64, pass: &mut Pass<K>) -> Option<&str>
        requires { pass.old.of ≡ self.now }
        ensures same { IsSamePass pass.new pass.old }
        ensures since { Since pass.old.number pass.old.notes pass.new.notes [] }
        ensures reply { option_map (λ t. t.now) result ≡ slice_get (list_of pass.new.of pass.new.notes) position }
    {
        if position >= self.len(pass) {
            return None;
        }
        let mut seen = self.seen.again();
        seen.learn(&pass.seen);
        Some(self.lend(&mut seen, position))
    }

    /// The number of texts at one step, of the history that `known` then is. That history begins with the one that it was. It takes no
    /// memory and does not wait.
    pub fn snapshot_len(&self, known: &mut Snapshot<K>) -> u64
        requires { known.old.of ≡ self.now }
        // The reply is that of the history that `known` then is.
        ensures reply { result ≡ length (list_of known.new.of known.new.notes) }

        // The history stays one of the same interner, and only grows.
        ensures same { known.new.of ≡ known.old.of }
        ensures begins { IsPrefix known.old.notes known.new.notes }
    {
        let appended = self.load_snapshot(&self.head, 0, known);
        self.first + appended
    }

    /// The text at the position, of the list of the history that `known` then is, or `None` past its end. That history begins with the
    /// one that it was. The text is lent as long as the log. It takes no memory and does not wait.
    pub fn read_snapshot(&self, position: u64, known: &mut Snapshot<K>) -> Option<&str>
        requires { known.old.of ≡ self.now }
        // The reply is that of the history that `known` then is.
        ensures reply { option_map (λ t. t.now) result ≡ slice_get (list_of known.new.of known.new.notes) position }

        // The history stays one of the same interner, and only grows.
        ensures same { known.new.of ≡ known.old.of }
        ensures begins { IsPrefix known.old.notes known.new.notes }
    {
        if position >= self.snapshot_len(known) {
            return None;
        }
        Some(self.snapshot_texts(known).lend(position as usize))
    }

    /// The era for which the bytes of its texts are lent.
    pub fn era(&self) -> &Era
        ensures { result.now.id ≡ era_named self.now.chunks }
    {
        self.memory.chunks.era()
    }

    // The text at a position below the length of a list that was seen.
    pub(super) fn lend(&self, seen: &mut Seen<Note, u64, LogRule<K>>, position: u64) -> &str
        requires chunks { seen.old.names ≡ self.now.chunks }
        requires below { position < length (texts_in seen.old.log) }
        ensures text { slice_get (texts_in seen.old.log) position ≡ Some result.now }
    {
        let piece = self.memory.chunks.lend(seen, position);
        piece.text(self.memory.chunks.era())
    }
}
