//! Skips lines: finds only their line feeds, in 32 bytes at a time.
ghost use Rattle.std.specs.Prelude.{◌≡◌, ◌≢◌, ℕ, ◌+◌, ◌-◌, ◌<◌, ◌≤◌, ◌==◌, true, drop, length, slice_index};
ghost use Rattle.std.specs.Int.{bit_at};
ghost use Rattle.lasso_input.specs.Skipping.{AreSkipped, FeedBits};

use std::simd::prelude::*;

// The number of bytes of a vector.
const LANES: usize = 32;

// The line feeds among the 32 bytes from the index on, as bits: bit 0 is set if the first of them is a line feed.
#[inline(always)]
fn feeds_from(bytes: &[u8], at: usize) -> u64
    requires { at + 32 ≤ length bytes.now }
    ensures { FeedBits bytes.now at at result }
{
    let lanes = u8x32::from_slice(&bytes[at..]);
    lanes.simd_eq(u8x32::splat(b'\n')).to_bitmask()
}

// The lowest bit that is set.
#[inline(always)]
fn lowest_bit(bits: u64) -> usize
    requires { bits ≢ 0 }
    ensures bound { result < 64 }
    ensures set { bit_at bits result ≡ 1 }
    ensures below { (k : ℕ) → k < result → bit_at bits k ≡ 0 }
{
    bits.trailing_zeros() as usize
}

// The bits without one of them.
#[inline(always)]
fn without_bit(bits: u64, bit: usize) -> u64
    requires bound { bit < 64 }
    requires set { bit_at bits bit ≡ 1 }
    ensures smaller { result < bits }
    ensures kept { (k : ℕ) → k < 64 → k ≢ bit → bit_at result k ≡ bit_at bits k }
    ensures no_more { (k : ℕ) → bit_at result k ≡ 1 → bit_at bits k ≡ 1 }
    ensures gone { bit_at result bit ≡ 0 }
{
    bits & !(1 << bit)
}

/// Skips the first lines that a line feed ends, at most `most` of them. Lines that end in the last `len() % 32` bytes
/// are not skipped. Returns how many it skipped, and the index after the last one's line feed.
pub(crate) fn skip_lines(bytes: &[u8], most: usize) -> (usize, usize)
    ensures most { result.0 ≤ most }
    ensures inside { result.1 ≤ length bytes.now }
    ensures feed { 0 < result.0 → (0 < result.1) × (slice_index bytes.now (result.1 - 1) == 10 ≡ true) }
    ensures skipped { AreSkipped bytes.now result.0 (drop result.1 bytes.now) }
{
    let mut count = 0usize;
    let mut end = 0usize;
    if most == 0 {
        return (0, 0);
    }
    for block in 0..bytes.len() / LANES {
        let at = block * LANES;
        let mut bits = feeds_from(bytes, at);
        while bits != 0 {
            let bit = lowest_bit(bits);
            bits = without_bit(bits, bit);
            end = at + bit + 1;
            count += 1;
            if count == most {
                return (count, end);
            }
        }
    }
    (count, end)
}
