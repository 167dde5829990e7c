//! Where the key of a text goes that an index does not hold.
ghost use Rattle.std.specs.Prelude.{◌≡◌};

use std::marker::Model;

/// The empty slot where the search for a text ended. The text's key goes there, as long as the index does not change. It says
/// nothing of an index without slots. Contracts see the slot.
#[derive(Clone, Copy)]
pub struct Vacancy {
    slot: usize,
}

impl Model for Vacancy {
    ghost use Rattle.std.specs.Prelude.{ℕ};

    ghost Value = { ℕ };

    ghost view = { λ v. v.slot };

    ghost inverse = { λ n. record { slot = n } };
}

impl Vacancy {
    // The slot as a vacancy.
    #[inline]
    pub(super) fn at(slot: usize) -> Self
        ensures { result ≡ slot }
    {
        Vacancy { slot }
    }

    // The slot's number.
    #[inline]
    pub(super) fn slot(self) -> usize
        ensures { result ≡ self }
    {
        self.slot
    }
}
