//! Whether two texts are the same. Those of at most sixteen bytes are compared by their ends, each as one
//! number. The crate `lasso` leaves this module out.
ghost use Rattle.std.specs.Prelude.{◌≡◌, ◌≤◌, true, length, bytes_eq};

use crate::chunks::{first, last};
use crate::entries::short::SHORT;

/// Whether both texts are the same.
#[inline(always)]
pub fn is_same(one: &str, other: &str) -> bool
    ensures { result ≡ bytes_eq one.now other.now }
{
    let one = one.as_bytes();
    let other = other.as_bytes();
    let len = one.len();
    if len != other.len() {
        false
    } else if len > 16 {
        one == other
    } else if len >= 8 {
        have_same_words(one, other)
    } else if len >= 4 {
        have_same_halves(one, other)
    } else if len >= 2 {
        have_same_pairs(one, other)
    } else {
        one == other
    }
}

/// A first look at whether both texts are the same, which those that are the same pass: whether they have
/// the same length and, unless they are short, the same ends. It reads no bytes of a short text, and only
/// the ends of another.
#[inline(always)]
pub fn is_alike(one: &str, other: &str) -> bool
    ensures { one.now ≡ other.now → result ≡ true }
{
    let one = one.as_bytes();
    let other = other.as_bytes();
    if one.len() != other.len() {
        return false;
    }
    one.len() <= SHORT || have_same_ends(one, other)
}

// Whether both texts have the same first eight bytes and the same last eight.
#[inline(always)]
fn have_same_ends(one: &[u8], other: &[u8]) -> bool
    requires one { 8 ≤ length one.now }
    requires other { 8 ≤ length other.now }
    ensures { one.now ≡ other.now → result ≡ true }
{
    is_same_word(last::<8>(one), last::<8>(other))
        && is_same_word(first::<8>(one), first::<8>(other))
}

// Whether both texts have the same first eight bytes and the same last eight, which are all of them.
#[inline(always)]
fn have_same_words(one: &[u8], other: &[u8]) -> bool
    requires same { length one.now ≡ length other.now }
    requires ends { 8 ≤ length one.now }
    requires all { length one.now ≤ 16 }
    ensures { result ≡ bytes_eq one.now other.now }
{
    is_same_word(first::<8>(one), first::<8>(other))
        && is_same_word(last::<8>(one), last::<8>(other))
}

// Whether both texts have the same first four bytes and the same last four, which are all of them.
#[inline(always)]
fn have_same_halves(one: &[u8], other: &[u8]) -> bool
    requires same { length one.now ≡ length other.now }
    requires ends { 4 ≤ length one.now }
    requires all { length one.now ≤ 8 }
    ensures { result ≡ bytes_eq one.now other.now }
{
    is_same_half(first::<4>(one), first::<4>(other))
        && is_same_half(last::<4>(one), last::<4>(other))
}

// Whether both texts have the same first two bytes and the same last two, which are all of them.
#[inline(always)]
fn have_same_pairs(one: &[u8], other: &[u8]) -> bool
    requires same { length one.now ≡ length other.now }
    requires ends { 2 ≤ length one.now }
    requires all { length one.now ≤ 4 }
    ensures { result ≡ bytes_eq one.now other.now }
{
    is_same_pair(first::<2>(one), first::<2>(other))
        && is_same_pair(last::<2>(one), last::<2>(other))
}

// Whether eight bytes are the other eight.
#[inline(always)]
fn is_same_word(one: &[u8; 8], other: &[u8; 8]) -> bool
    ensures { result ≡ bytes_eq one.now other.now }
{
    u64::from_le_bytes(*one) == u64::from_le_bytes(*other)
}

// Whether four bytes are the other four.
#[inline(always)]
fn is_same_half(one: &[u8; 4], other: &[u8; 4]) -> bool
    ensures { result ≡ bytes_eq one.now other.now }
{
    u32::from_le_bytes(*one) == u32::from_le_bytes(*other)
}

// Whether two bytes are the other two.
#[inline(always)]
fn is_same_pair(one: &[u8; 2], other: &[u8; 2]) -> bool
    ensures { result ≡ bytes_eq one.now other.now }
{
    u16::from_le_bytes(*one) == u16::from_le_bytes(*other)
}
