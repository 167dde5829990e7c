//! Bytes of C's that are tested for UTF-8. Most texts are ASCII, which a few words tell in line.
ghost use Rattle.std.specs.Prelude.{◌≡◌, ◌+◌, ◌<◌, ◌≤◌, IfSome, IsAscii, IsTrue, is_some, length};
ghost use Rattle.std.specs.Str.{is_utf8};
ghost use Rattle.lasso_c.specs.Ascii.{AreAscii};

use std::str::{from_utf8, from_utf8_unchecked};

// The text of the bytes, or `None` if they are not UTF-8.
#[inline(always)]
pub(crate) fn text_of(bytes: &[u8]) -> Option<&str>
    ensures utf8 { is_some result ≡ is_utf8 bytes.now }
    ensures text { IfSome result (λ text. text.now ≡ bytes.now) }
{
    if is_ascii(bytes) {
        return Some(unsafe { from_utf8_unchecked(bytes) });
    }
    text_of_any(bytes)
}

// The text of bytes that are mostly not ASCII, or `None` if they are not UTF-8.
#[inline(never)]
fn text_of_any(bytes: &[u8]) -> Option<&str>
    ensures utf8 { is_some result ≡ is_utf8 bytes.now }
    ensures text { IfSome result (λ text. text.now ≡ bytes.now) }
{
    match from_utf8(bytes) {
        Ok(text) => Some(text),
        Err(_) => None,
    }
}

// Whether all bytes are ASCII.
#[inline(always)]
fn is_ascii(bytes: &[u8]) -> bool
    ensures { IsTrue result → IsAscii bytes.now }
{
    if bytes.len() < 8 {
        is_short_ascii(bytes)
    } else {
        bytes.is_ascii()
    }
}

// Whether fewer than eight bytes are ASCII: their first and their last ones are all of them.
#[inline(always)]
fn is_short_ascii(bytes: &[u8]) -> bool
    requires { length bytes.now < 8 }
    ensures { IsTrue result → IsAscii bytes.now }
{
    let len = bytes.len();
    if len >= 4 {
        is_ascii_half(bytes, 0) & is_ascii_half(bytes, len - 4)
    } else if len > 0 {
        bytes[0] | bytes[len / 2] | bytes[len - 1] < 128
    } else {
        true
    }
}

// Whether the four bytes from `at` on are ASCII.
#[inline(always)]
fn is_ascii_half(bytes: &[u8], at: usize) -> bool
    requires { at + 4 ≤ length bytes.now }
    ensures { IsTrue result → AreAscii bytes.now at 4 }
{
    let half = u32::from_le_bytes([bytes[at], bytes[at + 1], bytes[at + 2], bytes[at + 3]]);
    half & 0x8080_8080 == 0
}
