//! What a copy of a list of texts asks for: the count of their bytes, and one bucket that has room for them.
ghost use Rattle.std.specs.Prelude.{◌≡◌, ◌≤◌, ◌<◌, ◌^◌, Err, IfOk, IfErr, IsOk, length, SomeIff};
ghost use Rattle.lasso_parts.specs.declared.util.LassoErrorKind.TheVariants.{FailedAllocation};
ghost use Rattle.lasso_single.specs.Copies.{bytes_of, bucket_for, clone_size};

use lasso_parts::index::Texts;
use lasso_parts::util::{Capacity, LassoError, LassoErrorKind, LassoResult};

/// Room for the texts, in one bucket of just their bytes (4096 if they have none); `len` must be how many
/// there are. It is refused if the texts have more bytes than a `usize` counts.
pub fn one_bucket<T: Texts>(texts: &T, len: usize) -> LassoResult<Capacity>
    requires { len ≡ length (T.list texts.now) }
    ensures bytes { IfOk result (λ capacity. capacity.bytes ≡ clone_size (T.list texts.now)) }
    ensures strings { IfOk result (λ capacity. capacity.strings ≡ len) }
    ensures made { bytes_of (T.list texts.now) < 2 ^ 64 → IsOk result }
    ensures counted { IfOk result (λ _. bytes_of (T.list texts.now) < 2 ^ 64) }
    ensures refused { IfErr result (λ error. error ≡ FailedAllocation) }
    ensures overflow { 2 ^ 64 ≤ bytes_of (T.list texts.now) → result ≡ Err FailedAllocation }
{
    match byte_sum(texts, len) {
        Some(bytes) => Ok(Capacity::new(len, bucket_for(bytes))),
        None => Err(LassoError::new(LassoErrorKind::FailedAllocation)),
    }
}

// How many bytes the texts have in all, or `None` where a `usize` can't count them.
fn byte_sum<T: Texts>(texts: &T, len: usize) -> Option<usize>
    requires { len ≡ length (T.list texts.now) }
    ensures { SomeIff result (bytes_of (T.list texts.now) < 2 ^ 64) (bytes_of (T.list texts.now)) }
{
    let mut bytes: usize = 0;
    for position in 0..len {
        bytes = bytes.checked_add(texts.text_at(position).len())?;
    }
    Some(bytes)
}

// The size of one bucket for `bytes` bytes. A bucket has one byte at least.
fn bucket_for(bytes: usize) -> usize
    ensures value { result ≡ bucket_for bytes }
    ensures some { 0 < result }
{
    if bytes == 0 { 4096 } else { bytes }
}
