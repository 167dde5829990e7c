//! Types of offsets, which say where the texts of a layout begin and end.
ghost use Rattle.std.specs.Prelude.{◌≡◌, ℕ, ◌≤◌, List, map};
ghost use Rattle.lasso_parts.specs.Layout.{greatest_offset, greatest_large_offset, numbers_each};

/// A type of offsets: `u32` or `u64`. Arrow's offsets are signed integers of the same width, with the same
/// bits. So the greatest offset is the greatest signed integer of that width, and a negative one is above it.
pub trait Offset: Copy {
    /// The greatest offset.
    const GREATEST: usize;

    // the greatest offset, in contracts
    ghost GREATEST: { ℕ };

    // the offset as a number, in contracts
    ghost number: { Self → ℕ };

    // the numbers of several offsets
    ghost numbers: { List Self → List ℕ };

    /// The offset as a number.
    fn into_usize(self) -> usize
        ensures { result ≡ number self };

    /// The offset of this number, which must be at most the greatest offset.
    fn from_usize(number_of_bytes: usize) -> Self
        requires { number_of_bytes ≤ GREATEST }
        ensures { number result ≡ number_of_bytes };

    ghost each: { (offsets : List Self) → numbers offsets ≡ map number offsets };
}

impl Offset for u32 {
    const GREATEST: usize = 2_147_483_647;

    ghost GREATEST = { greatest_offset };

    ghost number = { λ offset. offset };

    ghost numbers = { λ offsets. offsets };

    ghost each = { numbers_each };

    fn into_usize(self) -> usize {
        self as usize
    }

    fn from_usize(number_of_bytes: usize) -> Self {
        number_of_bytes as u32
    }
}

impl Offset for u64 {
    const GREATEST: usize = 9_223_372_036_854_775_807;

    ghost GREATEST = { greatest_large_offset };

    ghost number = { λ offset. offset };

    ghost numbers = { λ offsets. offsets };

    ghost each = { numbers_each };

    fn into_usize(self) -> usize {
        self as usize
    }

    fn from_usize(number_of_bytes: usize) -> Self {
        number_of_bytes as u64
    }
}
