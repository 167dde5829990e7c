//! A key type of one's own, which leaves numbers free for other uses.
use lasso::Key;
use std::cmp::{Eq, PartialEq};
use std::marker::Model;

/// A key of 8 bits for 200 positions: the numbers from 200 on are free for other uses.
#[derive(Clone, Copy, PartialEq, Eq)]
pub struct SmallKey {
    position: u8,
}

impl Model for SmallKey {
    ghost use Rattle.std.specs.Prelude.{ℕ, ◌<◌};

    ghost Value = { ℕ };

    ghost view = { λ k. k.position };

    ghost invariant = { λ k. k.position < 200 };

    ghost inverse = { λ n. record { position = n } };
}

impl Key for SmallKey {
    ghost use Rattle.std.specs.Prelude.{◌<◌, nat_lt, if◌then◌else◌, Some, None};
    ghost use Rattle.std.proofs.Common.{arith};
    ghost use Rattle.std.proofs.lemmas.Bool.Decides.{nat_tests};

    ghost is_value = { λ k. k < 200 };

    ghost number = { λ k. k };

    ghost key_at = { λ n. if nat_lt n 200 then Some n else None };

    fn into_usize(self) -> usize {
        self.position as usize
    }

    fn try_from_usize(position: usize) -> Option<Self> {
        if position < 200 {
            Some(SmallKey {
                position: position as u8,
            })
        } else {
            None
        }
    }

    fn show_value(self) {
        let _position = self.position;
    }

    ghost made = { λ n k made. Prim.grind (arith, nat_tests) };

    ghost made_again = { λ k is_value. Prim.grind (arith, nat_tests) };

    ghost equal = { λ a b is_value is_value'. Prim.grind (arith, nat_tests) };
}
