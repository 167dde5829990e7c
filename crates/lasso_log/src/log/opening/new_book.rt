//! The book of a new log: its first note, its words, and the spine that has seen it. Used by the opening of a log.
ghost use Rattle.std.specs.Prelude.{◌≡◌, ◌-◌, ◌<◌, ◌^◌, [], ◌∷◌, length};
ghost use Rattle.lasso_log.specs.Book.{AreFirstWords};
ghost use Rattle.lasso_log.specs.LentBuckets.{IsRightTo};
ghost use Rattle.lasso_log.specs.Openings.{OpensBook, first_bucket, first_opening, first_note_of};
ghost use Rattle.lasso_log.specs.Views.{InternerId, SpineView, interner_id};

use crate::chunks::Chunk;
use crate::chunks::facts::{Lines, OpensWith};
use crate::log::book::note::Note;
use crate::log::book::rule::{LogRule, StoredText};
use crate::log::spine::Spine;
use crate::log::spine::turns::Turns;
use crate::shared_memory::rights::Free;
use boxcar::tag::Tag;
use lasso_parts::keys::Key;
use logbook::{Opening, Seen, Word};

/// What the first note of a log records.
#[derive(Drop)]
pub struct First<'a> {
    pub size: u64,
    pub used: u64,
    pub limit: u64,
    pub site: &'a Tag,
    pub known: &'a Lines<StoredText, Chunk<StoredText>>,
}

/// The first note of a log.
pub struct ByOpening;

impl<'a> Opening<First<'a>, Note> for ByOpening {
    ghost use Rattle.std.specs.Prelude.{[], ◌∷◌};
    ghost use Rattle.lasso_log.specs.Events.{bucket_at};
    ghost use Rattle.lasso_log.specs.Openings.{note_of_opening};

    ghost log = { λ count o. note_of_opening o.known.now.texts (bucket_at o.site.now.numbers o.size o.used) o.limit ∷ [] };
}

impl<'a> OpensWith<First<'a>, Note> for ByOpening {
    ghost use Rattle.std.specs.Prelude.{[], ◌∷◌};
    ghost use Rattle.lasso_log.specs.Events.{bucket_at};
    ghost use Rattle.lasso_log.specs.Notes.{shown_note};

    ghost shown = { λ o. shown_note o.known.now.texts (bucket_at o.site.now.numbers o.size o.used ∷ []) };
}

/// A new book, in which the log has its first note alone, and its three words: that of the list's length, that of
/// the turns, and that of the first bucket. Each has the value 0.
#[derive(Drop)]
pub(super) struct NewBook<K: Key> {
    pub(super) seen: Seen<Note, u64, LogRule<K>>,
    pub(super) head: Word<Note, u64, LogRule<K>>,
    pub(super) turns: Word<Note, u64, LogRule<K>>,
    pub(super) bucket: Word<Note, u64, LogRule<K>>,
}

impl<K: Key> NewBook<K> {
    /// The book whose first note is this one. It is handed what shows that the texts are in their cells, and the right to the
    /// bytes of the bucket that nobody has taken.
    pub(super) fn open(
        first: &First<'_>,
        lines: Lines<StoredText, Chunk<StoredText>>,
        right: Free,
    ) -> NewBook<K>
        requires texts { lines.texts ≡ first.now.known.now.texts }
        requires right { IsRightTo right (first_bucket first.now) (first.now.size - first.now.used) }
        requires kept { OpensBook K.key_at (first_opening first.now) }
        ensures names { result.seen.names ≡ lines.names }
        ensures log { result.seen.log ≡ first_note_of first.now ∷ [] }
        ensures words { AreFirstWords result.seen.book result.head result.turns result.bucket }
    {
        let start = lines.start::<_, _, First<'_>, ByOpening>(first, right);
        let (seen, mut pens) = Seen::<Note, u64, LogRule<K>>::open_row::<First<'_>, ByOpening>(
            first, start, 3,
        );
        let mut pen = pens.take();
        let head = Word::tracked(0, &mut pen);
        let mut pen = pens.take();
        let turns = Word::tracked(0, &mut pen);
        let mut pen = pens.take();
        let bucket = Word::tracked(0, &mut pen);
        NewBook {
            seen,
            head,
            turns,
            bucket,
        }
    }

    /// A spine that has seen the first note, which has `len` texts. It keeps no cell.
    pub(super) fn spine(&self, first: &First<'_>, len: u64) -> Spine<K>
        requires log { self.now.seen.log ≡ first_note_of first.now ∷ [] }
        requires kept { OpensBook K.key_at (first_opening first.now) }
        requires len { len ≡ length first.now.known.now.texts }
        requires limit { first.now.limit < 2 ^ 64 }
        ensures of { result.of ≡ interner_id self.now.seen.book self.now.seen.names (first_opening first.now) }
        ensures spine { (result.notes ≡ []) × (result.kept ≡ 0) }
        ensures turns { (result.turns.of ≡ result.of) × (result.turns.notes ≡ []) × (result.turns.count ≡ 1) }
    {
        let turns = Turns {
            turns: 0,
            doubling: first.size,
            usage: first.size,
            limit: first.limit,
            count: 1,
            seen: self.seen.again(),
        };
        Spine {
            kept: 0,
            first: len,
            appended: 0,
            seen: self.seen.again(),
            turns,
        }
    }
}
