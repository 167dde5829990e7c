//! The fingerprints that a search passes over, sixteen at a time.
ghost use Rattle.std.specs.Prelude.{◌+◌, ◌≤◌, length};
ghost use Rattle.lasso_parts.specs.Groups.{AreOthers};

use std::simd::prelude::*;

// How many fingerprints are looked at together.
const GROUP: usize = 16;

// How many of the sixteen fingerprints from the index on come before the first that is the one given or that of an empty slot.
#[inline(always)]
fn others_in_group(fingerprints: &[u8], at: usize, fingerprint: u8) -> usize
    requires { at + GROUP ≤ length fingerprints.now }
    ensures most { result ≤ GROUP }
    ensures others { AreOthers fingerprints.now fingerprint at (at + result) }
{
    let group = u8x16::from_slice(&fingerprints[at..]);
    let told = group.simd_eq(u8x16::splat(0)) | group.simd_eq(u8x16::splat(fingerprint));
    let bits = told.to_bitmask();
    if bits == 0 {
        GROUP
    } else {
        bits.trailing_zeros() as usize
    }
}

// An index before which no slot from the first one on is empty or has the fingerprint. It passes over whole groups;
// after the last one each slot is left to the caller. It is inlined: a search mostly ends in the first group.
#[inline(always)]
pub fn passed_over(fingerprints: &[u8], from: usize, to: usize, fingerprint: u8) -> usize
    requires ordered { from ≤ to }
    requires range { to ≤ length fingerprints.now }
    ensures from { from ≤ result }
    ensures to { result ≤ to }
    ensures others { AreOthers fingerprints.now fingerprint from result }
{
    let mut at = from;
    while to - at >= GROUP {
        let others = others_in_group(fingerprints, at, fingerprint);
        at += others;
        if others < GROUP {
            return at;
        }
    }
    at
}

// The index of the first of sixteen fingerprints from the index on that is the one given or that of an empty slot,
// or one past them if there is none. The index itself if fewer than sixteen fingerprints are left.
#[inline(always)]
pub fn first_in_group(fingerprints: &[u8], at: usize, fingerprint: u8) -> usize
    requires { at ≤ length fingerprints.now }
    ensures from { at ≤ result }
    ensures others { AreOthers fingerprints.now fingerprint at result }
{
    if fingerprints.len() - at < GROUP {
        at
    } else {
        at + others_in_group(fingerprints, at, fingerprint)
    }
}
