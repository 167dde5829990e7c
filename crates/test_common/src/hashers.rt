//! Hashers that choose the shard and slot of a text, and one that counts the texts.
ghost use Rattle.std.specs.Prelude.{◌≡◌, ◌+◌, ◌*◌, ◌%◌, ◌^◌, ⊤, length};
ghost use Rattle.std.specs.Hash.FoldHasher as folding;

use std::cell::Cell;
use std::hash::{BuildHasher, BuildHasherDefault, FoldHasher, Hasher};

/// Makes hashers that return 0.
pub type SameState = BuildHasherDefault<SameHasher>;

/// Returns 0 for each text.
#[derive(Clone, Copy)]
pub struct SameHasher {
    answer: u64,
}

impl Default for SameHasher {
    ghost is_default = { λ _. ⊤ };

    fn default() -> Self {
        SameHasher { answer: 0 }
    }
}

impl Hasher for SameHasher {
    ghost write = { λ hasher _. hasher };

    ghost finish = { λ hasher. hasher.answer };

    fn finish(&self) -> u64 {
        self.answer
    }

    fn write(&mut self, _bytes: &[u8]) {}
}

/// Makes hashers that return a text's first byte times 2^56. Its high four bits choose the shard.
pub type FirstState = BuildHasherDefault<FirstHasher<56>>;

/// Makes hashers that return a text's first byte times 2^60, modulo 2^64. Its low four bits choose the shard.
pub type LowState = BuildHasherDefault<FirstHasher<60>>;

/// Returns the first byte that is written, shifted left by `BITS` bits, modulo 2^64.
#[derive(Clone, Copy)]
pub struct FirstHasher<const BITS: u32> {
    begun: bool,
    first: u8,
}

impl<const BITS: u32> Default for FirstHasher<BITS> {
    ghost is_default = { λ _. ⊤ };

    fn default() -> Self {
        FirstHasher {
            begun: false,
            first: 0,
        }
    }
}

impl<const BITS: u32> Hasher for FirstHasher<BITS> {
    ghost use Rattle.std.specs.Prelude.{true, slice_index, if◌then◌else◌};

    ghost write = { λ hasher bytes. if hasher.begun then hasher else record { begun = true; first = slice_index bytes 0 } };

    ghost finish = { λ hasher. (hasher.first * 2 ^ (BITS % 64)) % 2 ^ 64 };

    fn finish(&self) -> u64 {
        u64::from(self.first).wrapping_shl(BITS)
    }

    fn write(&mut self, bytes: &[u8]) {
        if !self.begun {
            self.begun = true;
            self.first = if bytes.is_empty() { 0 } else { bytes[0] };
        }
    }
}

/// Makes hashers that return the same for texts of the same length.
pub type LengthState = BuildHasherDefault<LengthHasher>;

/// Returns the number of bytes written times 2^53, so the count begins at the lowest bit of an index's
/// fingerprint.
/// Texts of two lengths below 127 have different fingerprints, and all searches begin at the same slot.
#[derive(Clone, Copy)]
pub struct LengthHasher {
    answer: u64,
}

impl Default for LengthHasher {
    ghost is_default = { λ _. ⊤ };

    fn default() -> Self {
        LengthHasher { answer: 0 }
    }
}

impl Hasher for LengthHasher {
    ghost write = { λ hasher bytes. record { answer = (hasher.answer + length bytes * 2 ^ 53) % 2 ^ 64 } };

    ghost finish = { λ hasher. hasher.answer };

    fn finish(&self) -> u64 {
        self.answer
    }

    fn write(&mut self, bytes: &[u8]) {
        let more = (bytes.len() as u64).wrapping_mul(1 << 53);
        self.answer = self.answer.wrapping_add(more);
    }
}

/// Makes hashers of the fixed seed, and counts them: one for each text that is hashed.
#[derive(Clone, Copy)]
pub struct CountingState<'a> {
    made: &'a Cell<u64>,
}

impl<'a> CountingState<'a> {
    /// Adds the count to the number in the cell.
    pub fn new(made: &'a Cell<u64>) -> Self {
        CountingState { made }
    }
}

impl BuildHasher for CountingState<'_> {
    type Hasher = FoldHasher;

    ghost build_hasher = { λ _. folding.initial };

    fn build_hasher(&self) -> FoldHasher {
        self.made.set(self.made.get().wrapping_add(1));
        FoldHasher::default()
    }
}
