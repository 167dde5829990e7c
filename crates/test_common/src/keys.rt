//! Key types that lack numbers.
use lasso_parts::keys::Key;
use std::cmp::{Eq, PartialEq};
use std::marker::Model;

/// Keys of the numbers below `COUNT`.
#[derive(Clone, Copy, PartialEq, Eq)]
pub struct Below<const COUNT: u32> {
    position: u32,
}

/// Keys of the numbers 0 and 1.
pub type BelowTwo = Below<2>;

impl<const COUNT: u32> Model for Below<COUNT> {
    ghost use Rattle.std.specs.Prelude.{ℕ, ◌<◌};

    ghost Value = { ℕ };

    ghost view = { λ k. k.position };

    ghost invariant = { λ k. k.position < COUNT };

    ghost inverse = { λ n. record { position = n } };
}

impl<const COUNT: u32> Key for Below<COUNT> {
    ghost use Rattle.std.specs.Prelude.{◌<◌, nat_lt, if◌then◌else◌, Some, None};
    ghost use Rattle.std.proofs.Common.{arith};
    ghost use Rattle.std.proofs.lemmas.Bool.Decides.{nat_tests};

    ghost is_value = { λ k. k < COUNT };

    ghost number = { λ k. k };

    ghost key_at = { λ n. if nat_lt n COUNT then Some n else None };

    fn into_usize(self) -> usize {
        self.position as usize
    }

    fn try_from_usize(position: usize) -> Option<Self> {
        if position < COUNT as usize {
            Some(Below {
                position: position as u32,
            })
        } else {
            None
        }
    }

    fn show_value(self) {
        let _position = self.position;
    }

    ghost made = { λ n k made. Prim.grind (arith, nat_tests) };

    ghost made_again = { λ k is_value. Prim.grind (arith, nat_tests) };

    ghost equal = { λ a b is_value is_value'. Prim.grind (arith, nat_tests) };
}

/// Keys of the numbers below 1000, except `MISSING`.
#[derive(Clone, Copy, PartialEq, Eq)]
pub struct Gap<const MISSING: u16> {
    position: u16,
}

/// Lacks number 0.
pub type WithoutZero = Gap<0>;

/// Lacks number 2.
pub type WithoutTwo = Gap<2>;

impl<const MISSING: u16> Model for Gap<MISSING> {
    ghost use Rattle.std.specs.Prelude.{ℕ, ◌<◌, ◌≢◌};

    ghost Value = { ℕ };

    ghost view = { λ k. k.position };

    ghost invariant = { λ k. (k.position ≢ MISSING) × (k.position < 1000) };

    ghost inverse = { λ n. record { position = n } };
}

impl<const MISSING: u16> Key for Gap<MISSING> {
    ghost use Rattle.std.specs.Prelude.{◌<◌, ◌≢◌, nat_lt, nat_eq, if◌then◌else◌, Some, None};
    ghost use Rattle.std.proofs.Common.{arith};
    ghost use Rattle.std.proofs.lemmas.Bool.Decides.{nat_tests};

    ghost is_value = { λ k. (k ≢ MISSING) × (k < 1000) };

    ghost number = { λ k. k };

    ghost key_at = { λ n. if nat_eq n MISSING then None else if nat_lt n 1000 then Some n else None };

    fn into_usize(self) -> usize {
        usize::from(self.position)
    }

    fn try_from_usize(position: usize) -> Option<Self> {
        if position == usize::from(MISSING) || position >= 1000 {
            return None;
        }
        Some(Gap {
            position: position as u16,
        })
    }

    fn show_value(self) {
        let _position = self.position;
    }

    ghost made = { λ n k made. Prim.grind (arith, nat_tests) };

    ghost made_again = { λ k is_value. Prim.grind (arith, nat_tests) };

    ghost equal = { λ a b is_value is_value'. Prim.grind (arith, nat_tests) };
}
