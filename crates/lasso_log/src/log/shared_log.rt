//! The log of one interner, and its steps: a look at a word, the fetching of a ticket, and the exchange that adds an
//! event. Used by the readings of the log and by its spine.
ghost use Rattle.std.specs.Prelude.{◌≡◌, ◌+◌, ◌<◌, ◌^◌, [], MatchOption};
ghost use mathlib.Core.List.{IsPrefix};
ghost use Rattle.lasso_log.specs.Notes.{Since, IsWord, IsOpened, notes_of};
ghost use Rattle.lasso_log.specs.Book.{word_of, HasValue, IsTicket, MayMove, Reads};
ghost use Rattle.lasso_log.specs.Views.{InternerId, SnapshotView, IsSamePass};
ghost use Rattle.lasso_log.specs.Events.{event_of, IsQuiet};
ghost use Rattle.lasso_log.specs.Exchanges.{IsNextInCell, IsWordIn, TriesEvent};

use crate::chunks::rule::NoGain;
use crate::log::book::looks::look;
use crate::log::book::note::{Change, Note};
use crate::log::book::proposals::{CellProof, Proposal, offered};
use crate::log::book::rule::{Add, Fetch, LogRule, Nothing, Peek, StoredText};
use crate::log::memory::TextMemory;
use crate::log::pass::Pass;
use crate::log::pass::hints::Hints;
use crate::log::pass::ticket::{ByKey, Ticket, fetched_by};
use crate::log::snapshot::Snapshot;
use boxcar::tag::Tag;
use lasso_parts::keys::Key;
use logbook::{Offer, Seen, Word};
use std::marker::Model;

/// The log of one interner: the word that counts the texts appended, the word that counts the turns, the memory
/// that the texts are in, the number of texts at the opening, and the log as it was then. A contract sees which
/// interner it is of.
pub struct Log<K: Key> {
    // The padding is never read. It keeps the word that every append moves on a cache line of its own, so
    // that reading the other fields does not wait for that word.
    pub(super) padding_before: [u64; 8],
    pub(super) head: Word<Note, u64, LogRule<K>>,
    pub(super) padding_after: [u64; 8],
    pub(super) turns: Word<Note, u64, LogRule<K>>,
    pub(super) memory: TextMemory,
    pub(super) first: u64,
    pub(super) seen: Seen<Note, u64, LogRule<K>>,
}

impl<K: Key> Model for Log<K> {
    ghost use Rattle.lasso_log.specs.Parts.{IsLog};
    ghost use Rattle.lasso_log.specs.Views.{InternerId, interner_id_coded, interner_seen};

    ghost Value = { InternerId };

    ghost coded = { interner_id_coded };

    ghost view = { λ l. interner_seen l.seen.book l.seen.names l.seen.log };

    ghost invariant = { λ l. IsLog K.key_at l.seen.book l.seen.names l.seen.log l.head l.turns l.memory l.first };
}

// One call, so that proofs of callers see nothing of the fields where a log is let go.
impl<K: Key> Drop for Log<K> {
    fn drop(self) {
        let Log {
            padding_before: _,
            head: _,
            padding_after: _,
            turns: _,
            memory: _,
            first: _,
            seen: _,
        } = self;
    }
}

/// The numbers of an exchange that adds an event.
#[derive(Clone, Copy)]
pub(super) struct Exchange {
    /// Which word it moves: 0 is the list's length, 1 the turns, and each bucket has a later one.
    pub word_index: u64,
    /// The value that the word must have still.
    pub expected: u64,
    /// The position of an appended text in the list.
    pub position: u64,
}

impl<K: Key> Log<K> {
    // A new ticket, by an exchange of the length word with itself.
    pub(super) fn ticket(&self) -> Ticket<K>
        ensures { IsTicket self.now.book result.word result.pen }
    {
        let mut seen = self.seen.again();
        let mut offer: Offer<Note, u64, LogRule<K>, NoGain> = seen.plain::<NoGain, (), Nothing>(
            &(),
        );
        let mut pen = seen.no_pen();
        self.head
            .compare_exchange::<Fetch<K>, NoGain>(0, 0, &mut seen, &mut offer, &mut pen);
        let word = Word::tracked(0, &mut pen);
        Ticket { word, pen }
    }

    /// A pass that has seen nothing yet. It takes no memory and does not wait.
    pub fn pass(&self) -> Pass<K>
        ensures of { result.of ≡ self.now }
        ensures notes { result.notes ≡ [] }
    {
        let ticket = self.ticket();
        let number = Tag::of::<Ticket<K>, ByKey>(&ticket);
        Pass {
            seen: self.seen.again(),
            ticket,
            used: None,
            number,
            hints: Hints::none(self.snapshot()),
        }
    }

    // The ticket that the pass has after its next event. It is fetched by the word of a ticket that the pass
    // used, which no other thread exchanges; a pass that has used none fetches it by the length word.
    pub(super) fn next_ticket(&self, pass: &Pass<K>) -> Ticket<K>
        requires { pass.now.of ≡ self.now }
        ensures { IsTicket self.now.book result.word result.pen }
    {
        match &pass.used {
            Some(word) => fetched_by(word, &pass.seen),
            None => self.ticket(),
        }
    }

    // Returns what a word has at one step. `seen` then knows the log up to that step. `word_index` says which word it is; the
    // contract alone reads it.
    fn load_seen(
        word: &Word<Note, u64, LogRule<K>>,
        word_index: u64,
        seen: &mut Seen<Note, u64, LogRule<K>>,
    ) -> u64
        requires word { word.now ≡ word_of seen.old.book word.now.key }
        requires known { IsOpened seen.old.log × IsWord (notes_of seen.old.log) word_index word.now.key }
        ensures { (seen.new.book ≡ seen.old.book) × (seen.new.names ≡ seen.old.names) × IsPrefix seen.old.log seen.new.log
            × HasValue K.key_at seen.new.log word.now.key result }
    {
        let mut offer: Offer<Note, u64, LogRule<K>, NoGain> = seen.plain::<NoGain, (), Nothing>(
            &(),
        );
        word.load::<Peek<K>, NoGain>(seen, &mut offer)
    }

    // Returns what a word of the history has at one step. `known` is then the history up to that step.
    pub(super) fn load_snapshot(
        &self,
        word: &Word<Note, u64, LogRule<K>>,
        word_index: u64,
        known: &mut Snapshot<K>,
    ) -> u64
        requires of { (known.old.of ≡ self.now) × (word.now ≡ word_of self.now.book word.now.key) }
        requires known { IsWord known.old.notes word_index word.now.key }
        ensures same { known.new.of ≡ known.old.of }
        ensures begins { IsPrefix known.old.notes known.new.notes }
        ensures reply { Reads K.key_at known.old.of.opening known.new.notes word_index word.now.key result }
    {
        Self::load_seen(word, word_index, &mut known.seen)
    }

    // Returns what a word that the pass has seen has at one step. The pass has then seen that step, and adds no event.
    pub(crate) fn load(
        &self,
        word: &Word<Note, u64, LogRule<K>>,
        word_index: u64,
        pass: &mut Pass<K>,
    ) -> u64
        requires of { (pass.old.of ≡ self.now) × (word.now ≡ word_of self.now.book word.now.key) }
        requires known { IsWord pass.old.notes word_index word.now.key }
        ensures same { IsSamePass pass.new pass.old }
        ensures since { Since pass.old.number pass.old.notes pass.new.notes [] }
        ensures reply { Reads K.key_at pass.old.of.opening pass.new.notes word_index word.now.key result }
    {
        let found = Self::load_seen(word, word_index, &mut pass.seen);
        let mut later = pass.seen.again();
        look(&mut later, &mut pass.ticket.pen);
        found
    }

    // Adds an event if the word still has the expected value, which then is one more. Otherwise nothing
    // changes. `given` is a log that was seen, in which the event may follow while the word has this value;
    // `cell_proof` shows that an appended text is in the cell of its position.
    pub(super) fn exchange(
        &self,
        word: &Word<Note, u64, LogRule<K>>,
        numbers: Exchange,
        change: Change<'_>,
        cell_proof: Option<CellProof>,
        given: &Seen<Note, u64, LogRule<K>>,
        pass: &mut Pass<K>,
    ) -> bool
        requires of { (pass.old.of ≡ self.now) × (given.now.book ≡ self.now.book) × (word.now ≡ word_of self.now.book word.now.key) }
        requires sum { numbers.expected + 1 < 2 ^ 64 }
        requires known { IsWordIn self.now.opening given.now.log numbers.word_index word.now.key }
        requires may { MayMove K.key_at self.now.opening (notes_of given.now.log) numbers.word_index word.now.key numbers.expected (event_of change) }
        requires cell_proof { MatchOption cell_proof (IsQuiet (event_of change))
            (λ f. IsNextInCell self.now (event_of change) numbers word.now.key f.0.of f.0.value.items f.1.of f.1.value) }
        ensures same { IsSamePass pass.new pass.old }
        ensures done { TriesEvent K.key_at self.now.opening pass.old pass.new (notes_of given.now.log) (event_of change.entry) numbers word.now.key result }
    {
        let next = self.next_ticket(pass);
        let mut seen = self.seen.again();
        seen.learn(given);
        seen.learn(&pass.seen);
        let proposal = Proposal {
            change,
            position: numbers.position,
            number: &pass.number,
            ticket: &pass.ticket,
            next: &next,
        };
        let known = seen.again();
        let mut offer = offered(known, proposal, cell_proof);
        let found = word.compare_exchange::<Add<K>, NoGain>(
            numbers.expected,
            numbers.expected + 1,
            &mut seen,
            &mut offer,
            &mut pass.ticket.pen,
        );
        if found != numbers.expected {
            return false;
        }
        pass.used = Some(pass.ticket.use_up(next));
        pass.seen = seen;
        true
    }
}
