//! What C holds: an interner or none.
ghost use denote.RawPtr.{null_ptr};
ghost use Rattle.std.specs.Prelude.{◌≡◌, None, Some, is_some, option_map};
ghost use Rattle.std.specs.Borrow.{sem};

use crate::seat::{Block, Seat};
use crate::seed::Seed;
use crate::seeded::Interner;
use std::alloc::Global;

/// An interner, or none. All zero it is none. Contracts see it as `seat.value`: `Some` of the interner, or `None`.
#[repr(C)]
pub struct Lasso {
    pub(crate) seat: Seat,
    live: bool,
    ghost agree: { live ≡ is_some seat.value },
}

impl Lasso {
    ghost use Rattle.lasso_c.specs.Lending.{LendsHeld};

    // No interner: all zero.
    pub(crate) fn none(alloc: Global) -> Lasso
        ensures none { result.seat.value ≡ None }
        ensures null { result.seat.at ≡ null_ptr }
    {
        Lasso {
            seat: Seat::none(alloc),
            live: false,
        }
    }

    // The interner, if there is one.
    fn into_box(self) -> Option<Box<Interner<Seed>>>
        ensures { option_map (λ b. b.value) result ≡ self.seat.value }
    {
        let Lasso { seat, live } = self;
        if live {
            return Some(seat.into_box());
        }
        seat.end();
        None
    }

    // The interner, lent, if there is one.
    #[inline(always)]
    pub(crate) fn interner(&mut self) -> Option<&mut Interner<Seed>>
        ensures* writes_back { sem 𝓛 (LendsHeld self.entry result) }
        ensures value { option_map (λ i. i.now) result ≡ self.old.seat.value }
    {
        if self.live {
            return Some(self.seat.get_mut());
        }
        None
    }

    // Holds this interner, and lets go of one that was held.
    pub(crate) fn put(&mut self, alloc: Global, interner: Box<Interner<Seed>>)
        ensures { self.new.seat.value ≡ Some interner.value }
    {
        *self = Lasso {
            seat: Seat::of_block(alloc, Block::of(interner)),
            live: true,
        };
    }
}

impl Drop for Lasso {
    fn drop(self) {
        let _interner = self.into_box();
    }
}
