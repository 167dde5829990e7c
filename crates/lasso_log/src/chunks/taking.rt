//! How a book gives out the right to bytes, and takes in the right to those of a new bucket. None of it has bytes. Used by the
//! log's steps.
ghost use Rattle.std.specs.Prelude.{◌≡◌, ◌-◌, [], ◌∷◌, None};
ghost use Rattle.lasso_log.specs.LentBuckets.{IsRightTo, OnlyAddsBucket, OnlyTakesBytes};

use crate::chunks::rule::{BytesTaken, HasCells, HasText, InChunks, Listed};
use crate::shared_memory::rights::Free;
use logbook::{Gained, Offer, Plain, Seen};
use std::marker::PhantomData;

/// An update that takes the next bytes of the bucket at this position, and leaves the texts as they are. Once it has run it has the
/// right to them.
pub fn take_bytes<E, B: Listed<E>, T: HasText, V: HasCells, X, M: Plain<X, E, u64>>(
    seen: &Seen<E, u64, InChunks<B, T, V>>,
    about: &X,
    bucket: u64,
) -> Offer<E, u64, InChunks<B, T, V>, BytesTaken<B>>
    requires moves { OnlyTakesBytes B.moves B.texts B.buckets B.bucket B.bytes (M.ask about.now) bucket }
    ensures { (result.names ≡ seen.now.names) × (result.ask ≡ M.ask about.now) × (result.about ≡ M.ask about.now ∷ []) × (result.state ≡ None) }
{
    // The contract alone reads the position: the right to the bytes is in the book, and no memory is touched here.
    let _ = bucket;
    Offer {
        marker: PhantomData,
    }
}

/// An update that puts a bucket last, and leaves the texts as they are. It hands in the right to the bucket's bytes that are not
/// taken.
pub fn add_bucket<E, B: Listed<E>, T: HasText, V: HasCells, X, M: Plain<X, E, u64>>(
    seen: &Seen<E, u64, InChunks<B, T, V>>,
    about: &X,
    right: Free,
) -> Offer<E, u64, InChunks<B, T, V>, BytesTaken<B>>
    requires right { IsRightTo right (B.bucket (M.ask about.now)) ((B.bucket (M.ask about.now)).size - (B.bucket (M.ask about.now)).used) }
    requires moves { OnlyAddsBucket B.moves B.texts B.buckets B.bucket (M.ask about.now) }
    ensures { (result.names ≡ seen.now.names) × (result.ask ≡ M.ask about.now) × (result.about ≡ []) × (result.state ≡ None) }
{
    let Free { marker: _ } = right;
    Offer {
        marker: PhantomData,
    }
}

/// The right to the bytes, of an update that took them.
pub fn right_taken<E, B: Listed<E>>(gained: Gained<E, u64, BytesTaken<B>>) -> Free
    requires { (e : E) × (gained.about ≡ e ∷ []) }
    ensures { (e : E) → gained.about ≡ e ∷ [] → IsRightTo result (B.bucket e) (B.bytes e) }
{
    let Gained { marker: _ } = gained;
    Free {
        marker: PhantomData,
    }
}
