//! The notes of the shared log, and the changes that they record. Used by all of the log.
use std::marker::Model;

/// A note of the log. It exists in proofs alone: no value of it is made.
pub struct Note {}

impl Model for Note {
    ghost use Rattle.lasso_log.specs.Notes.{NoteView, note_coded, no_note};

    ghost Value = { NoteView };

    ghost coded = { note_coded };

    ghost view = { λ e. no_note };
}

/// A change of what an interner holds that takes no bytes.
#[derive(Clone, Copy)]
pub enum Change<'t> {
    /// The text is put last.
    Append { text: &'t str },
    /// The limit is replaced, in bytes.
    Limit { limit: u64 },
}
