//! The rule of a book whose texts are in chunks, and which keeps the right to bytes that nobody has taken. Used by the chunks, by the
//! shared arena and by the rule of the log.

use logbook::{Gain, Rule};
use std::marker::PhantomData;

/// The value of a cell: its text, and whether the text lives as long as an era.
pub trait HasText {
    ghost use Rattle.std.specs.Prelude.{ℕ};
    ghost use Rattle.lasso_parts.specs.Texts.{Text};

    ghost meaning: { Self → Text };

    ghost lasts: { Self → ℕ → Type 0 };
}

impl HasText for &'static str {
    ghost meaning = { λ s. s.now };

    ghost lasts = { λ s era. Unit {0} };
}

/// A chunk of cells, in their order.
pub trait HasCells {
    ghost use Rattle.std.specs.Prelude.{List};
    ghost use Rattle.boxcar.specs.Slot.{Named};

    ghost cells: { Self → List Named };
}

/// What defines a book with a list of texts and with buckets: the rule of its words; the part of the log that its keepers see;
/// how the list and the buckets are read off that part, and how a note moves it. Of a note that puts a text last: the text and its
/// position. Of one that takes bytes: their bucket before it, and how many they are.
pub trait Listed<E> {
    ghost use Rattle.std.specs.Prelude.{ℕ, List};
    ghost use Rattle.logbook.specs.Pages.{Cell};
    ghost use Rattle.lasso_parts.specs.Texts.{Text};
    ghost use Rattle.lasso_log.specs.LentBuckets.{LentBucket};

    ghost holds: { List Cell → List E → Type 0 };

    ghost shows: { List E → List E };

    ghost texts: { List E → List Text };

    ghost buckets: { List E → List LentBucket };

    ghost moves: { E → List E → List E → Type 0 };

    ghost appended_at: { E → ℕ };

    ghost text: { E → Text };

    ghost bucket: { E → LentBucket };

    ghost bytes: { E → ℕ };
}

/// The rule of a book of the kind `B`, that the cell of each position of its list is filled with its text, and that the book has
/// the right to each bucket's bytes that nobody has taken. `T` is what a cell holds, and `V` a chunk.
pub struct InChunks<B, T, V> {
    of: PhantomData<(B, T, V)>,
}

impl<E, B: Listed<E>, T: HasText, V: HasCells> Rule<E, u64> for InChunks<B, T, V> {
    ghost use Rattle.std.specs.Prelude.{[]};
    ghost use base.Fml.{fsep};
    ghost use Rattle.lasso_log.specs.Chunks.{lined};
    ghost use Rattle.lasso_log.specs.LentBuckets.{all_untaken};

    ghost holds = { λ cells log. B.holds cells log };

    ghost first = { [] };

    ghost hinted = { λ n log. Unit {0} };

    ghost shows = { λ log. B.shows log };

    ghost keeps = { λ names shown. fsep (lined V.row T.row V.cells T.meaning T.lasts names 0 (B.texts shown)) (all_untaken (B.buckets shown)) };

    ghost moves = { λ ask before after answer. B.moves ask before after };
}

/// What a step's caller gains by its update: nothing.
pub struct NoGain;

impl<E> Gain<E, u64> for NoGain {
    ghost use base.Fml.{ftrue};

    ghost after = { λ names about answer. ftrue };
}

/// What it gains if the update takes bytes: the right to them.
pub struct BytesTaken<B> {
    of: PhantomData<B>,
}

impl<E, B: Listed<E>> Gain<E, u64> for BytesTaken<B> {
    ghost use Rattle.lasso_log.specs.LentBuckets.{bytes_gained};

    ghost after = { λ names about answer. bytes_gained B.bucket B.bytes about };
}
