//! The key types that keep a number of 8 to 64 bits. What they keep is the position plus one, never 0.
ghost use Rattle.std.specs.Prelude.{◌≡◌, ◌-◌, Some, codes};
ghost use Rattle.std.proofs.Common.{lit≤};
ghost use Rattle.lasso_parts.specs.Kept.{IsKeptNumber, kept_at, kept_text, kept_made, kept_made_again, kept_equal};

use crate::keys::Key;
use std::fmt;
use std::marker::Model;

/// A key of 32 bits, for 4294967295 positions. Contracts see the number that it keeps.
#[derive(Clone, Copy, PartialEq, Eq, PartialOrd, Ord, Hash)]
pub struct Spur {
    kept: u32,
}

impl Model for Spur {
    ghost use Rattle.std.specs.Prelude.{ℕ};
    ghost use Rattle.lasso_parts.specs.Kept.{IsKeptNumber};

    ghost Value = { ℕ };

    ghost view = { λ k. k.kept };

    ghost invariant = { λ k. IsKeptNumber 4294967295 k.kept };

    ghost inverse = { λ kept. record { kept = kept } };
}

impl Spur {
    /// The number that the key keeps: its position plus one.
    ///
    /// ```rust
    /// let third = Spur::try_from_usize(2).ok_or("no key")?;
    /// assert!(rt; third.into_inner() == 3);
    /// ```
    pub fn into_inner(self) -> u32
        ensures kept { result ≡ self }
        ensures range { IsKeptNumber 4294967295 result }
    {
        self.kept
    }

    /// The key's position in 32 bits, as columns keep it. No key has position 4294967295.
    ///
    /// ```rust
    /// let third = Spur::try_from_usize(2).ok_or("no key")?;
    /// assert!(rt; third.into_position() == 2);
    /// ```
    pub fn into_position(self) -> u32
        ensures position { result ≡ self - 1 }
    {
        self.kept - 1
    }
}

impl Key for Spur {
    ghost is_value = { IsKeptNumber 4294967295 };

    ghost number = { λ k. k - 1 };

    ghost key_at = { kept_at 4294967295 };

    fn into_usize(self) -> usize {
        self.kept as usize - 1
    }

    fn try_from_usize(position: usize) -> Option<Self> {
        if position < u32::MAX as usize {
            Some(Spur {
                kept: position as u32 + 1,
            })
        } else {
            None
        }
    }

    fn show_value(self) {
        let _kept = self.kept;
    }

    ghost made = { kept_made 4294967295 (lit≤ tt) };

    ghost made_again = { kept_made_again 4294967295 };

    ghost equal = { kept_equal 4294967295 };
}

impl Default for Spur {
    ghost is_default = { λ k. k ≡ 1 };

    fn default() -> Self {
        Spur { kept: 1 }
    }
}

impl fmt::Debug for Spur {
    ghost debug_output = { λ k. Some (kept_text (codes "Spur") k) };

    fn fmt<W: fmt::Write>(&self, f: &mut fmt::Formatter<W>) -> fmt::Result {
        let kept = self.kept;
        write!(f, "Spur({kept})")
    }
}

/// A key of 16 bits, for 65535 positions. Contracts see the number that it keeps.
#[derive(Clone, Copy, PartialEq, Eq, PartialOrd, Ord, Hash)]
pub struct MiniSpur {
    kept: u16,
}

impl Model for MiniSpur {
    ghost use Rattle.std.specs.Prelude.{ℕ};
    ghost use Rattle.lasso_parts.specs.Kept.{IsKeptNumber};

    ghost Value = { ℕ };

    ghost view = { λ k. k.kept };

    ghost invariant = { λ k. IsKeptNumber 65535 k.kept };

    ghost inverse = { λ kept. record { kept = kept } };
}

impl MiniSpur {
    /// The number that the key keeps: its position plus one.
    pub fn into_inner(self) -> u16
        ensures kept { result ≡ self }
        ensures range { IsKeptNumber 65535 result }
    {
        self.kept
    }
}

impl Key for MiniSpur {
    ghost is_value = { IsKeptNumber 65535 };

    ghost number = { λ k. k - 1 };

    ghost key_at = { kept_at 65535 };

    fn into_usize(self) -> usize {
        self.kept as usize - 1
    }

    fn try_from_usize(position: usize) -> Option<Self> {
        if position < u16::MAX as usize {
            Some(MiniSpur {
                kept: position as u16 + 1,
            })
        } else {
            None
        }
    }

    fn show_value(self) {
        let _kept = self.kept;
    }

    ghost made = { kept_made 65535 (lit≤ tt) };

    ghost made_again = { kept_made_again 65535 };

    ghost equal = { kept_equal 65535 };
}

impl Default for MiniSpur {
    ghost is_default = { λ k. k ≡ 1 };

    fn default() -> Self {
        MiniSpur { kept: 1 }
    }
}

impl fmt::Debug for MiniSpur {
    ghost debug_output = { λ k. Some (kept_text (codes "MiniSpur") k) };

    fn fmt<W: fmt::Write>(&self, f: &mut fmt::Formatter<W>) -> fmt::Result {
        let kept = self.kept;
        write!(f, "MiniSpur({kept})")
    }
}

/// A key of 8 bits, for 255 positions. Contracts see the number that it keeps.
#[derive(Clone, Copy, PartialEq, Eq, PartialOrd, Ord, Hash)]
pub struct MicroSpur {
    kept: u8,
}

impl Model for MicroSpur {
    ghost use Rattle.std.specs.Prelude.{ℕ};
    ghost use Rattle.lasso_parts.specs.Kept.{IsKeptNumber};

    ghost Value = { ℕ };

    ghost view = { λ k. k.kept };

    ghost invariant = { λ k. IsKeptNumber 255 k.kept };

    ghost inverse = { λ kept. record { kept = kept } };
}

impl MicroSpur {
    /// The number that the key keeps: its position plus one.
    pub fn into_inner(self) -> u8
        ensures kept { result ≡ self }
        ensures range { IsKeptNumber 255 result }
    {
        self.kept
    }
}

impl Key for MicroSpur {
    ghost is_value = { IsKeptNumber 255 };

    ghost number = { λ k. k - 1 };

    ghost key_at = { kept_at 255 };

    fn into_usize(self) -> usize {
        self.kept as usize - 1
    }

    fn try_from_usize(position: usize) -> Option<Self> {
        if position < u8::MAX as usize {
            Some(MicroSpur {
                kept: position as u8 + 1,
            })
        } else {
            None
        }
    }

    fn show_value(self) {
        let _kept = self.kept;
    }

    ghost made = { kept_made 255 (lit≤ tt) };

    ghost made_again = { kept_made_again 255 };

    ghost equal = { kept_equal 255 };
}

impl Default for MicroSpur {
    ghost is_default = { λ k. k ≡ 1 };

    fn default() -> Self {
        MicroSpur { kept: 1 }
    }
}

impl fmt::Debug for MicroSpur {
    ghost debug_output = { λ k. Some (kept_text (codes "MicroSpur") k) };

    fn fmt<W: fmt::Write>(&self, f: &mut fmt::Formatter<W>) -> fmt::Result {
        let kept = self.kept;
        write!(f, "MicroSpur({kept})")
    }
}

/// A key of 64 bits, for 18446744073709551615 positions. Contracts see the number that it keeps.
#[derive(Clone, Copy, PartialEq, Eq, PartialOrd, Ord, Hash)]
pub struct LargeSpur {
    kept: usize,
}

impl Model for LargeSpur {
    ghost use Rattle.std.specs.Prelude.{ℕ};
    ghost use Rattle.lasso_parts.specs.Kept.{IsKeptNumber};

    ghost Value = { ℕ };

    ghost view = { λ k. k.kept };

    ghost invariant = { λ k. IsKeptNumber 18446744073709551615 k.kept };

    ghost inverse = { λ kept. record { kept = kept } };
}

impl LargeSpur {
    /// The number that the key keeps: its position plus one.
    pub fn into_inner(self) -> usize
        ensures kept { result ≡ self }
        ensures range { IsKeptNumber 18446744073709551615 result }
    {
        self.kept
    }
}

impl Key for LargeSpur {
    ghost is_value = { IsKeptNumber 18446744073709551615 };

    ghost number = { λ k. k - 1 };

    ghost key_at = { kept_at 18446744073709551615 };

    fn into_usize(self) -> usize {
        self.kept - 1
    }

    fn try_from_usize(position: usize) -> Option<Self> {
        if position < usize::MAX {
            Some(LargeSpur { kept: position + 1 })
        } else {
            None
        }
    }

    fn show_value(self) {
        let _kept = self.kept;
    }

    ghost made = { kept_made 18446744073709551615 (lit≤ tt) };

    ghost made_again = { kept_made_again 18446744073709551615 };

    ghost equal = { kept_equal 18446744073709551615 };
}

impl Default for LargeSpur {
    ghost is_default = { λ k. k ≡ 1 };

    fn default() -> Self {
        LargeSpur { kept: 1 }
    }
}

impl fmt::Debug for LargeSpur {
    ghost debug_output = { λ k. Some (kept_text (codes "LargeSpur") k) };

    fn fmt<W: fmt::Write>(&self, f: &mut fmt::Formatter<W>) -> fmt::Result {
        let kept = self.kept;
        write!(f, "LargeSpur({kept})")
    }
}
