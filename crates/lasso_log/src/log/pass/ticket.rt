//! Tickets: a pass has one for its next event, and its number is the first one's. Used by passes and by the log's steps.
ghost use Rattle.std.specs.Prelude.{◌≡◌};
ghost use Rattle.logbook.specs.Pages.{may_write, nib};
ghost use Rattle.lasso_log.specs.Book.{word_of, IsTicket, IsUsed};
ghost use Rattle.lasso_log.specs.Notes.{IsOpened, notes_of};

use crate::chunks::rule::NoGain;
use crate::log::book::note::Note;
use crate::log::book::rule::{Fetch, LogRule, Nothing};
use boxcar::tag::Names;
use lasso_parts::keys::Key;
use logbook::{Offer, Pen, Seen, Word};

/// A word of the book that its holder alone can bring home.
#[derive(Drop)]
pub struct Ticket<K: Key> {
    pub word: Word<Note, u64, LogRule<K>>,
    pub pen: Pen,
}

impl<K: Key> Ticket<K> {
    /// Writes its word, which no other thread sees yet.
    pub fn set(&mut self, value: u64)
        requires { (self.old.word ≡ word_of self.old.pen.book self.old.pen.nib.key) × (self.old.pen.nib.right ≡ may_write) }
        ensures word { self.new.word ≡ self.old.word }
        ensures pen { (self.new.pen.book ≡ self.old.pen.book) × (self.new.pen.nib ≡ nib may_write self.old.pen.nib.key value) }
    {
        self.word.store(&mut self.pen, value);
    }

    /// Takes its pen back, with which its word was written, and writes 0 there: so it was before.
    pub fn take_back(&mut self, pen: Pen)
        requires { (self.old.word ≡ word_of pen.book pen.nib.key) × (pen.nib.right ≡ may_write) }
        ensures word { self.new.word ≡ self.old.word }
        ensures pen { (self.new.pen.book ≡ pen.book) × (self.new.pen.nib ≡ nib may_write pen.nib.key 0) }
    {
        self.pen = pen;
        self.set(0);
    }

    /// Uses the ticket: `next` takes its place, and its word is returned.
    pub fn use_up(&mut self, next: Ticket<K>) -> Word<Note, u64, LogRule<K>>
        ensures next { self.new ≡ next }
        ensures word { result ≡ self.old.word }
    {
        let Ticket { word, pen: _ } = std::mem::replace(self, next);
        word
    }
}

/// Fetches a new ticket by an exchange of a used ticket's word with itself. Only the pass that used that
/// ticket has its word, so no other thread waits for this exchange.
pub fn fetched_by<K: Key>(
    used: &Word<Note, u64, LogRule<K>>,
    seen: &Seen<Note, u64, LogRule<K>>,
) -> Ticket<K>
    requires opened { IsOpened seen.now.log }
    requires word { used.now ≡ word_of seen.now.book used.now.key }
    requires used { IsUsed used.now.key (notes_of seen.now.log) }
    ensures { IsTicket seen.now.book result.word result.pen }
{
    let mut seen = seen.again();
    let mut offer: Offer<Note, u64, LogRule<K>, NoGain> = seen.plain::<NoGain, (), Nothing>(&());
    let mut pen = seen.no_pen();
    used.compare_exchange::<Fetch<K>, NoGain>(0, 0, &mut seen, &mut offer, &mut pen);
    let word = Word::tracked(0, &mut pen);
    Ticket { word, pen }
}

/// The number of a ticket.
pub struct ByKey;

impl<K: Key> Names<Ticket<K>> for ByKey {
    ghost use Rattle.std.specs.Prelude.{[], ◌∷◌};

    ghost numbers = { λ t. t.pen.nib.key ∷ [] };
}
