//! Guesses at the positions of texts. A caller that looks for several texts guesses at all of them first,
//! so that the processor waits for their memory together, and then compares: a guess may be wrong. The
//! crate `lasso` leaves this module out.
ghost use Rattle.std.specs.Prelude.{IfSome};
ghost use Rattle.lasso_parts.specs.Index.{Holds};

use crate::index::Index;
use crate::keys::Key;
use std::alloc::Allocator;

/// A guess at the position of a text with that hash: mostly that of the text, if the index holds it, and
/// mostly `None` if it does not. No text is read.
#[inline(always)]
pub fn guess_position<K: Key, A: Allocator>(index: &Index<K, A>, hash: u64) -> Option<usize>
    ensures { IfSome result (λ n. Holds index.now.slots n) }
{
    index.guess(hash)
}
