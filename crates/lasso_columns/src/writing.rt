//! Writes the texts of an interner or a frozen form as a layout.
ghost use Rattle.std.specs.Prelude.{◌≡◌, ◌+◌, ◌<◌, ◌≤◌, OnOk, IfOk, IfErr, All, IsUtf8, length, map, drop};
ghost use Rattle.std.specs.List.{concat};
ghost use Rattle.lasso_columns.specs.Dictionaries.{IsWriteFault};
ghost use Rattle.lasso_parts.specs.Layout.{offsets_from};

use crate::faults::WriteError;
use crate::layout::Layout;
use lasso_parts::index::Texts;
use lasso_parts::keys::Key;
use lasso_parts::offsets::Offset;
use lasso_single::reader::RodeoReader;
use lasso_single::resolver::RodeoResolver;
use lasso_single::rodeo::Rodeo;
use std::alloc::{Allocator, Global};
use std::hash::BuildHasher;

/// An interner or a frozen form: texts at positions counted from 0, and their number.
pub trait Dictionary: Texts {
    /// The number of texts.
    fn texts(&self) -> usize
        ensures { result ≡ length (Self.list self.now) };
}

impl<K: Key, S: BuildHasher, A: Allocator> Dictionary for Rodeo<K, S, A> {
    fn texts(&self) -> usize {
        self.len()
    }
}

impl<K: Key, S: BuildHasher, A: Allocator> Dictionary for RodeoReader<K, S, A> {
    fn texts(&self) -> usize {
        self.len()
    }
}

impl<K: Key, A: Allocator> Dictionary for RodeoResolver<K, A> {
    fn texts(&self) -> usize {
        self.len()
    }
}

/// Returns the texts from position `from` on as bytes and offsets, in the order of their positions. From
/// position 0 that is the whole list; from `texts()` or above, no text. Reading it gives the same list again
/// (`append_dictionary`, `read_dictionary`).
///
/// Fails with the first text that ends past the greatest offset. If there is none, the only error is out of
/// memory (`NoMemory`).
///
/// ```rust
/// let rodeo = SpurRodeo::from_iter(rt.alloc(), ["red", "", "blue"])?;
/// let layout: Layout<u32> = write_dictionary(rt.alloc(), &rodeo, 1)?;
/// assert!(rt; layout.bytes.as_slice() == b"blue".as_slice());
/// assert!(rt; layout.offsets.as_slice() == [0, 0, 4].as_slice());
/// ```
pub fn write_dictionary<O: Offset, D: Dictionary>(
    alloc: Global,
    dictionary: &D,
    from: usize,
) -> Result<Layout<O>, WriteError>
    ensures bytes { IfOk result (λ layout. layout.bytes.items ≡ concat (drop from (D.list dictionary.now))) }
    ensures offsets { IfOk result (λ layout. map O.number layout.offsets.items ≡ offsets_from 0 (drop from (D.list dictionary.now))) }
    ensures fits { OnOk result (length (concat (drop from (D.list dictionary.now))) ≤ O.GREATEST) }
    ensures texts { OnOk result (All IsUtf8 (drop from (D.list dictionary.now))) }
    ensures fault { IfErr result (IsWriteFault O.GREATEST (D.list dictionary.now) from) }
{
    let total = total_bytes(dictionary, from, O::GREATEST)?;
    let count = dictionary.texts().saturating_sub(from);
    let mut bytes = Vec::with_capacity(alloc, total)?;
    let mut offsets = Vec::with_capacity(alloc, count.saturating_add(1))?;
    offsets.push(O::from_usize(0))?;
    for at in 0..count {
        let text = dictionary.text_at(from + at).as_bytes();
        bytes.extend_from_slice(text)?;
        offsets.push(O::from_usize(bytes.len()))?;
    }
    Ok(Layout { bytes, offsets })
}

// How many bytes the texts from position `from` on have. It is an error if they have more than `most`.
fn total_bytes<D: Dictionary>(dictionary: &D, from: usize, most: usize) -> Result<usize, WriteError>
    ensures total { IfOk result (λ total. total ≡ length (concat (drop from (D.list dictionary.now)))) }
    ensures fits { OnOk result (length (concat (drop from (D.list dictionary.now))) ≤ most) }
    ensures fault { IfErr result (IsWriteFault most (D.list dictionary.now) from) }
{
    let mut total = 0;
    let count = dictionary.texts().saturating_sub(from);
    for at in 0..count {
        let len = dictionary.text_at(from + at).len();
        if len > most - total {
            return Err(WriteError::TooManyBytes(from + at));
        }
        total += len;
    }
    Ok(total)
}
