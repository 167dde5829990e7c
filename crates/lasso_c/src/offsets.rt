//! Offsets that are read and written as numbers.
ghost use Rattle.std.specs.Prelude.{◌≡◌, ◌<◌, ◌≤◌, length, get_or, slice_set};

use lasso_parts::offsets::Offset;

// How many offsets there are.
pub(crate) fn count<O: Offset>(offsets: &[O]) -> usize
    ensures { result ≡ length (O.numbers offsets.now) }
{
    offsets.len()
}

// The offset at this position.
pub(crate) fn number<O: Offset>(offsets: &[O], at: usize) -> usize
    requires { at < length (O.numbers offsets.now) }
    ensures { result ≡ get_or (O.numbers offsets.now) at 0 }
{
    offsets[at].into_usize()
}

// Writes an offset at this position.
pub(crate) fn put<O: Offset>(offsets: &mut [O], at: usize, number: usize)
    requires within { at < length (O.numbers offsets.old) }
    requires small { number ≤ O.GREATEST }
    ensures { O.numbers offsets.new ≡ slice_set (O.numbers offsets.old) at number }
{
    offsets[at] = O::from_usize(number);
}
