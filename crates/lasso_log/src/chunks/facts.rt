//! What shows that cells are filled: how it is handed to a book, and found there again. None of it has bytes, so most
//! arguments are read by contracts alone. Used by the chunks, by the opening of a log and by its tickets.
//!
//! A `Written` is a fact for good, so a book can keep one for each position of its list, and give out copies.
//! How the rights to bytes go in and out, which a book keeps too, is in `taking.rt`.
ghost use Rattle.std.specs.Prelude.{◌≡◌, ◌-◌, ◌<◌, ℕ, List, [], ◌∷◌, ◌++◌, length, None, slice_index_or};
ghost use base.Fml.{fsep};
ghost use Rattle.lasso_parts.specs.Texts.{Text};
ghost use Rattle.logbook.specs.Pages.{Calm};
ghost use Rattle.lasso_log.specs.Chunks.{lined, IsCellAt, ListOnlyGrows, era_named, chunk_named, offset_of, name_at};
ghost use Rattle.lasso_log.specs.LentBuckets.{LentBucket, IsRightTo, OnlyPutsText, all_untaken};

use crate::chunks::rule::{HasCells, HasText, InChunks, Listed, NoGain};
use crate::shared_memory::rights::Free;
use boxcar::slot::Written;
use boxcar::tag::Names;
use logbook::{Offer, Plain, Seen, Start};
use std::marker::{Model, PhantomData};

/// What shows that these texts are in the chunks with these names, from position 0 on.
pub struct Lines<T: HasText, V: HasCells> {
    marker: PhantomData<(T, V)>,
    pub ghost names: { List ℕ },
    pub ghost texts: { List Text },
}

impl<T: HasText, V: HasCells> Model for Lines<T, V> {
    ghost use Rattle.lasso_log.specs.Chunks.{lined};

    ghost also_owns = { λ l. lined V.row T.row V.cells T.meaning T.lasts l.names 0 l.texts };
}

/// What a book begins with.
pub trait OpensWith<X, E> {
    ghost use Rattle.std.specs.Prelude.{List};

    ghost shown: { X → List E };
}

impl<T: HasText, V: HasCells> Lines<T, V> {
    /// No text yet. The names are those of `chunks`.
    pub fn none<X, M: Names<X>>(chunks: &X) -> Lines<T, V>
        ensures names { result.names ≡ M.numbers chunks.now }
        ensures texts { result.texts ≡ [] }
    {
        Lines {
            marker: PhantomData,
        }
    }

    /// One text more, which is at the next position.
    pub fn push(&mut self, chunk: &Written<V>, item: &Written<T>)
        requires cell { IsCellAt self.old.names (length self.old.texts) chunk.now.of (V.cells chunk.now.value) item.now.of }
        requires lasts { T.lasts item.now.value (era_named self.old.names) }
        ensures names { self.new.names ≡ self.old.names }
        ensures texts { self.new.texts ≡ self.old.texts ++ T.meaning item.now.value ∷ [] }
    {}

    /// What a book with one bucket keeps at its opening: the fact that the texts of its list are in the chunks, and the right to
    /// the bucket's bytes that nobody has taken. A book is opened only with what any thread may use, as `calm` says of both.
    pub fn start<E, B: Listed<E>, X, M: OpensWith<X, E>>(
        self,
        about: &X,
        right: Free,
    ) -> Start<E, u64, InChunks<B, T, V>>
        requires texts { B.texts (M.shown about.now) ≡ self.texts }
        requires bucket { (b : LentBucket) × (B.buckets (M.shown about.now) ≡ b ∷ []) × IsRightTo right b (b.size - b.used) }
        ensures start { (result.names ≡ self.names) × (result.shown ≡ M.shown about.now) }
        ensures calm { Calm (λ (shown : List E).
            fsep (lined V.row T.row V.cells T.meaning T.lasts result.names 0 (B.texts shown)) (all_untaken (B.buckets shown))) }
    {
        let Self { marker: _ } = self;
        let Free { marker: _ } = right;
        Start {
            marker: PhantomData,
        }
    }
}

/// An update that puts a text last. `chunk` and `item` show that the cell of its position is filled with it.
pub fn hand_in<E, B: Listed<E>, T: HasText, V: HasCells, X, M: Plain<X, E, u64>>(
    seen: &Seen<E, u64, InChunks<B, T, V>>,
    chunk: &Written<V>,
    item: &Written<T>,
    about: &X,
) -> Offer<E, u64, InChunks<B, T, V>, NoGain>
    requires cell { IsCellAt seen.now.names (B.appended_at (M.ask about.now)) chunk.now.of (V.cells chunk.now.value) item.now.of }
    requires text { T.meaning item.now.value ≡ B.text (M.ask about.now) }
    requires lasts { T.lasts item.now.value (era_named seen.now.names) }
    requires moves { OnlyPutsText B.moves B.texts B.buckets B.appended_at B.text (M.ask about.now) }
    ensures { (result.names ≡ seen.now.names) × (result.ask ≡ M.ask about.now) × (result.about ≡ []) × (result.state ≡ None) }
{
    Offer {
        marker: PhantomData,
    }
}

/// Shows that the chunk of a position below the length is made. `token` may be of any chunk: only its type counts.
pub fn found_chunk<E, B: Listed<E>, T: HasText, V: HasCells>(
    seen: &mut Seen<E, u64, InChunks<B, T, V>>,
    position: u64,
    token: Written<V>,
) -> Written<V>
    requires grows { ListOnlyGrows B.shows B.texts }
    requires below { position < length (B.texts (B.shows seen.old.log)) }
    ensures chunk { result.of ≡ chunk_named seen.old.names position }
    ensures same { seen.new ≡ seen.old }
{
    token
}

/// Shows that the cell of a position below the length is filled, and with what. `token` may be of any cell.
pub fn found_item<E, B: Listed<E>, T: HasText, V: HasCells>(
    seen: &mut Seen<E, u64, InChunks<B, T, V>>,
    chunk: &Written<V>,
    position: u64,
    token: Written<T>,
) -> Written<T>
    requires grows { ListOnlyGrows B.shows B.texts }
    requires below { position < length (B.texts (B.shows seen.old.log)) }
    requires chunk { chunk.now.of ≡ chunk_named seen.old.names position }
    ensures cell { result.of ≡ name_at (V.cells chunk.now.value) (offset_of position) }
    ensures text { T.meaning result.value ≡ slice_index_or (B.texts (B.shows seen.old.log)) position [] }
    ensures lasts { T.lasts result.value (era_named seen.old.names) }
    ensures same { seen.new ≡ seen.old }
{
    token
}

impl<T: HasText, V: HasCells> Drop for Lines<T, V> {
    fn drop(self) {
        let Self { marker: _ } = self;
    }
}
