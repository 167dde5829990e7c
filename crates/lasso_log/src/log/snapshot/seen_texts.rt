//! The list of a history that was seen, as an index and a walk read it. Used by the interner that threads share.
ghost use Rattle.std.specs.Prelude.{◌≡◌, ◌<◌, Some, length, slice_get};
ghost use Rattle.lasso_log.specs.Views.{PassView, InternerId, SnapshotView, list_of};

use crate::log::book::note::Note;
use crate::log::book::rule::LogRule;
use crate::log::pass::Pass;
use crate::log::shared_log::Log;
use crate::log::snapshot::Snapshot;
use lasso_parts::index::Texts;
use lasso_parts::keys::Key;
use logbook::Seen;
use std::marker::Model;

/// The list of a history that was seen. A contract sees its texts.
#[derive(Drop)]
pub struct SeenTexts<'a, K: Key> {
    log: &'a Log<K>,
    seen: Seen<Note, u64, LogRule<K>>,
}

impl<'a, K: Key> Model for SeenTexts<'a, K> {
    ghost use Rattle.std.specs.Prelude.{◌≡◌, List};
    ghost use base.Stored.{coded_list, coded_ℕ};
    ghost use Rattle.lasso_parts.specs.Texts.{Text};
    ghost use Rattle.lasso_log.specs.Notes.{texts_in};

    ghost Value = { List Text };

    ghost coded = { coded_list (coded_list coded_ℕ) };

    ghost view = { λ s. texts_in s.seen.log };

    ghost invariant = { λ s. s.log.now.chunks ≡ s.seen.names };
}

impl<'a, K: Key> Texts for SeenTexts<'a, K> {
    ghost list = { λ s. s };

    fn text_at(&self, position: usize) -> &str {
        self.lend(position)
    }
}

impl<'a, K: Key> SeenTexts<'a, K> {
    /// The text at a position below the list's length. It is lent as long as the log. It takes no memory and does not wait.
    pub fn lend(&self, position: usize) -> &'a str
        requires { position < length self.now }
        ensures { slice_get self.now position ≡ Some result.now }
    {
        let mut seen = self.seen.again();
        self.log.lend(&mut seen, position as u64)
    }
}

impl<K: Key> Log<K> {
    /// The list that the pass has seen. It takes no step.
    pub fn seen_texts(&self, pass: &Pass<K>) -> SeenTexts<'_, K>
        requires { pass.now.of ≡ self.now }
        ensures { result ≡ list_of pass.now.of pass.now.notes }
    {
        SeenTexts {
            log: self,
            seen: pass.copy_seen(),
        }
    }

    /// The list of a history that was seen. It takes no step.
    pub fn snapshot_texts(&self, known: &Snapshot<K>) -> SeenTexts<'_, K>
        requires { known.now.of ≡ self.now }
        ensures { result ≡ list_of known.now.of known.now.notes }
    {
        SeenTexts {
            log: self,
            seen: known.copy_seen(),
        }
    }
}
