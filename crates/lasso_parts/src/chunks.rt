//! The two ends of a list of bytes.
ghost use Rattle.std.specs.Prelude.{◌≡◌, ◌≤◌, ◌-◌, length, take, drop};

/// The first N bytes.
#[inline(always)]
pub(crate) fn first<const N: usize>(bytes: &[u8]) -> &[u8; N]
    requires { N ≤ length bytes.now }
    ensures { result.now ≡ take N bytes.now }
{
    match bytes.first_chunk::<N>() {
        Some(chunk) => chunk,
        None => unreachable!(),
    }
}

/// The last N bytes.
#[inline(always)]
pub(crate) fn last<const N: usize>(bytes: &[u8]) -> &[u8; N]
    requires { N ≤ length bytes.now }
    ensures { result.now ≡ drop (length bytes.now - N) bytes.now }
{
    match bytes.last_chunk::<N>() {
        Some(chunk) => chunk,
        None => unreachable!(),
    }
}
