//! The rule of the shared log, and what each kind of step shows. Used by all of the log.
use crate::chunks::Chunk;
use crate::chunks::rule::{HasText, InChunks, Listed};
use crate::log::book::note::Note;
use crate::shared_memory::piece::Piece;
use lasso_parts::keys::Key;
use logbook::{Plain, Play};
use std::marker::PhantomData;

/// What a cell of the list holds.
pub type StoredText = Piece;

/// The log of an interner with keys of type K.
pub struct Shared<K: Key> {
    of: PhantomData<K>,
}

impl HasText for Piece {
    ghost use base.Fml.{Incl};
    ghost use Rattle.lasso_log.specs.Eras.{life};

    ghost meaning = { λ p. p.text };

    ghost lasts = { λ p era. Incl (life era) p.until };
}

/// The rule of its book: it is kept, the cell of each position below the length has a text that lives as long as
/// the era, and the book has the right to the bytes of each bucket that nobody has taken.
pub type LogRule<K> = InChunks<Shared<K>, StoredText, Chunk<StoredText>>;

impl<K: Key> Listed<Note> for Shared<K> {
    ghost use Rattle.lasso_log.specs.Notes.{texts_shown, lent_shown, bucket_in, appended_text};
    ghost use Rattle.lasso_log.specs.Book.{LogKeepsRule, Moved, shown_of};
    ghost use Rattle.lasso_log.specs.Events.{event_bytes};

    ghost holds = { λ cells log. LogKeepsRule K.key_at cells log };

    ghost shows = { shown_of };

    ghost texts = { texts_shown };

    ghost buckets = { lent_shown };

    ghost moves = { λ e before after. Moved e before after 0 };

    ghost appended_at = { λ e. e.position };

    ghost text = { λ e. appended_text e.event };

    ghost bucket = { λ e. bucket_in e.lent };

    ghost bytes = { λ e. event_bytes e.event };
}

/// A step that looks.
pub struct Peek<K: Key> {
    of: PhantomData<K>,
}

impl<K: Key> Play<Note, u64> for Peek<K> {
    ghost use Rattle.lasso_log.specs.Book.{Peeks};

    ghost then = { Peeks K.key_at };
}

/// A step that fetches a ticket.
pub struct Fetch<K: Key> {
    of: PhantomData<K>,
}

impl<K: Key> Play<Note, u64> for Fetch<K> {
    ghost use Rattle.lasso_log.specs.Book.{Fetches};

    ghost then = { Fetches K.key_at };
}

/// A step that adds a note.
pub struct Add<K: Key> {
    of: PhantomData<K>,
}

impl<K: Key> Play<Note, u64> for Add<K> {
    ghost use Rattle.lasso_log.specs.Book.{Adds};

    ghost then = { Adds K.key_at };
}

/// What a step asks that changes nothing of the list.
pub struct Nothing;

impl Plain<(), Note, u64> for Nothing {
    ghost use Rattle.std.specs.Prelude.{Some};
    ghost use Rattle.lasso_log.specs.Notes.{no_note};

    ghost ask = { λ _. no_note };

    ghost state = { λ _. Some 0 };
}
