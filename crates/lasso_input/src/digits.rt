//! Writes bytes as hexadecimal digits, and reads them back: sixteen bytes at a time, and then those that are left.
ghost use Rattle.std.specs.Prelude.{◌≡◌, ◌*◌, ◌+◌, ◌++◌, ◌<◌, ◌≤◌, [], ℕ, true, IfOk, OnOk, Ok, Some, is_ok, length, map, slice_index, take};
ghost use Rattle.std.specs.List.{AllPass, list_all};
ghost use Rattle.std.specs.Result.{result_unwrap_or};
ghost use Rattle.std.specs.Simd.Lanes.{chunk};
ghost use Rattle.lasso_input.specs.Lanes.{digit_lane, number_lane};
ghost use Rattle.hex.specs.Hex.{decode_of, decode_pairs, encode_lower, hex_digit_value, is_hex_digit, lower_digits};

use std::alloc::{AllocError, Allocator};
use std::simd::prelude::*;

// The digits.
const DIGITS: [u8; 16] = *b"0123456789abcdef";

// The number of bytes of a vector.
const LANES: usize = 16;

/// Fills `digits` with the lower-case hexadecimal digits of the bytes, two a byte.
pub(crate) fn put_digits(bytes: &[u8], digits: &mut [u8])
    requires { length digits.old ≡ 2 * length bytes.now }
    ensures { digits.new ≡ encode_lower bytes.now }
{
    let blocks = bytes.len() / LANES;
    for block in 0..blocks {
        let at = block * LANES;
        put_block(bytes, digits, at);
    }
    for i in blocks * LANES..bytes.len() {
        let byte = bytes[i];
        let high = digit(byte >> 4);
        let low = digit(byte & 15);
        digits[2 * i] = high;
        digits[2 * i + 1] = low;
    }
}

// Writes the digits of the sixteen bytes from `at` on.
#[inline(always)]
fn put_block(bytes: &[u8], digits: &mut [u8], at: usize)
    requires inside { at + LANES ≤ length bytes.now }
    requires long { length digits.old ≡ 2 * length bytes.now }
    ensures put { take (2 * (at + LANES)) digits.new ≡ take (2 * at) digits.old ++ encode_lower (chunk at LANES bytes.now) }
    ensures len { length digits.new ≡ length digits.old }
{
    let (first, second) = digits_of(u8x16::from_slice(&bytes[at..]));
    first.copy_to_slice(&mut digits[2 * at..]);
    second.copy_to_slice(&mut digits[2 * at + LANES..]);
}

// The digits of sixteen bytes.
#[inline(always)]
fn digits_of(bytes: u8x16) -> (u8x16, u8x16)
    ensures digits { result.0 ++ result.1 ≡ encode_lower bytes }
    ensures first { length result.0 ≡ LANES }
    ensures second { length result.1 ≡ LANES }
{
    let high = digits_of_numbers(bytes >> 4);
    let low = digits_of_numbers(bytes & u8x16::splat(15));
    (
        high.shuffle(
            low,
            [0, 16, 1, 17, 2, 18, 3, 19, 4, 20, 5, 21, 6, 22, 7, 23],
        ),
        high.shuffle(
            low,
            [8, 24, 9, 25, 10, 26, 11, 27, 12, 28, 13, 29, 14, 30, 15, 31],
        ),
    )
}

// The digits of sixteen numbers below 16.
#[inline(always)]
fn digits_of_numbers(numbers: u8x16) -> u8x16
    ensures { result ≡ map digit_lane numbers }
{
    let is_letter = numbers.simd_ge(u8x16::splat(10));
    let more = is_letter.select(u8x16::splat(b'a' - 10), u8x16::splat(b'0'));
    numbers + more
}

// The digit of a number below 16.
#[inline(always)]
fn digit(number: u8) -> u8
    requires { number < 16 }
    ensures { result ≡ slice_index lower_digits number }
{
    DIGITS[usize::from(number)]
}

/// Appends the bytes that have these hexadecimal digits, of both cases, two a byte. Returns whether there are two
/// digits for each byte; if not, nothing is appended.
///
/// # Errors
/// Out of memory.
pub(crate) fn append_read<A: Allocator>(
    bytes: &mut Vec<u8, A>,
    digits: &[u8],
) -> Result<bool, AllocError>
    ensures is_read { IfOk result (λ is_read. is_read ≡ is_ok (decode_of digits.now)) }
    ensures bytes { OnOk result (bytes.new.items ≡ bytes.old.items ++ result_unwrap_or (decode_of digits.now) []) }
{
    if digits.len() % 2 != 0 {
        return Ok(false);
    }
    if !are_digits(digits) {
        return Ok(false);
    }
    let start = bytes.len();
    let Some(end) = start.checked_add(digits.len() / 2) else {
        return Err(AllocError);
    };
    bytes.resize(end, 0)?;
    take_digits(digits, bytes.slice_mut(start..));
    Ok(true)
}

// Whether all bytes are digits, of either case.
fn are_digits(bytes: &[u8]) -> bool
    ensures { result ≡ list_all is_hex_digit bytes.now }
{
    let blocks = bytes.len() / LANES;
    for block in 0..blocks {
        let at = block * LANES;
        if !are_block_digits(u8x16::from_slice(&bytes[at..])) {
            return false;
        }
    }
    for i in blocks * LANES..bytes.len() {
        if !is_digit(bytes[i]) {
            return false;
        }
    }
    true
}

// Whether sixteen bytes are digits, of either case.
#[inline(always)]
fn are_block_digits(bytes: u8x16) -> bool
    ensures { result ≡ list_all is_hex_digit bytes }
{
    let from_zero = bytes - u8x16::splat(b'0');
    let from_a = (bytes | u8x16::splat(b'a' - b'A')) - u8x16::splat(b'a');
    let others = from_zero.simd_ge(u8x16::splat(10)) & from_a.simd_ge(u8x16::splat(6));
    others.to_bitmask() == 0
}

// Whether the byte is a digit, of either case.
#[inline(always)]
fn is_digit(byte: u8) -> bool
    ensures { result ≡ is_hex_digit byte }
{
    match byte {
        b'0'..=b'9' | b'A'..=b'F' | b'a'..=b'f' => true,
        _ => false,
    }
}

// Fills `bytes` with the bytes that have these digits.
fn take_digits(digits: &[u8], bytes: &mut [u8])
    requires long { length digits.now ≡ 2 * length bytes.old }
    requires proper { AllPass is_hex_digit digits.now }
    ensures { decode_of digits.now ≡ Ok bytes.new }
{
    let blocks = bytes.len() / LANES;
    for block in 0..blocks {
        let at = block * LANES;
        let first = u8x16::from_slice(&digits[2 * at..]);
        let second = u8x16::from_slice(&digits[2 * at + LANES..]);
        bytes_of(first, second).copy_to_slice(&mut bytes[at..]);
    }
    for i in blocks * LANES..bytes.len() {
        let high = number(digits[2 * i]);
        let low = number(digits[2 * i + 1]);
        bytes[i] = high * 16 + low;
    }
}

// The sixteen bytes that have these digits.
#[inline(always)]
fn bytes_of(first: u8x16, second: u8x16) -> u8x16
    requires { AllPass is_hex_digit (first ++ second) }
    ensures read { (i : ℕ) → decode_pairs i (first ++ second) ≡ Ok result }
    ensures long { length result ≡ LANES }
{
    let high = first.shuffle(
        second,
        [0, 2, 4, 6, 8, 10, 12, 14, 16, 18, 20, 22, 24, 26, 28, 30],
    );
    let low = first.shuffle(
        second,
        [1, 3, 5, 7, 9, 11, 13, 15, 17, 19, 21, 23, 25, 27, 29, 31],
    );
    (numbers_of(high) << 4) + numbers_of(low)
}

// The numbers below 16 that have these digits. The number of a letter is 9 more than the letter's last four bits.
#[inline(always)]
fn numbers_of(digits: u8x16) -> u8x16
    ensures { result ≡ map number_lane digits }
{
    let is_letter = digits.simd_ge(u8x16::splat(b'A'));
    let more = is_letter.select(u8x16::splat(9), u8x16::splat(0));
    (digits & u8x16::splat(15)) + more
}

// The number below 16 that has this digit, of either case.
#[inline(always)]
fn number(digit: u8) -> u8
    requires { is_hex_digit digit ≡ true }
    ensures value { hex_digit_value digit ≡ Some result }
    ensures small { result < 16 }
{
    if digit < b'A' {
        digit - b'0'
    } else if digit < b'a' {
        digit - b'A' + 10
    } else {
        digit - b'a' + 10
    }
}
