//! A handle of a shared interner: what C holds.
ghost use denote.RawPtr.{null_ptr};
ghost use Rattle.std.specs.Prelude.{◌≡◌, None, Some, is_some, option_map};
ghost use Rattle.std.specs.Borrow.{sem};

use crate::seat::Block;
use crate::shared::member::Member;
use crate::shared::seat::Seat;
use std::alloc::Global;

/// One thread's part of a shared interner, or none. All zero it is none. Contracts see it as `seat.value`: `Some` of the member that
/// the thread has, or `None`.
#[repr(C)]
pub struct LassoShared {
    pub(crate) seat: Seat,
    live: bool,
    ghost agree: { live ≡ is_some seat.value },
}

impl LassoShared {
    ghost use Rattle.lasso_c.specs.SharedLending.{LendsHeld};

    // No member: all zero.
    pub(crate) fn none(alloc: Global) -> LassoShared
        ensures none { result.seat.value ≡ None }
        ensures null { result.seat.at ≡ null_ptr }
    {
        LassoShared {
            seat: Seat::none(alloc),
            live: false,
        }
    }

    // The member, if there is one.
    fn into_box(self) -> Option<Box<Member>>
        ensures { option_map (λ b. b.value) result ≡ self.seat.value }
    {
        let LassoShared { seat, live } = self;
        if live {
            return Some(seat.into_box());
        }
        seat.end();
        None
    }

    // The member, lent, if there is one.
    #[inline(always)]
    pub(crate) fn member(&mut self) -> Option<&mut Member>
        ensures* writes_back { sem 𝓛 (LendsHeld self.entry result) }
        ensures value { option_map (λ i. i.now) result ≡ self.old.seat.value }
    {
        if self.live {
            return Some(self.seat.get_mut());
        }
        None
    }

    // Holds this member, and lets go of one that was held.
    pub(crate) fn put(&mut self, alloc: Global, member: Box<Member>)
        ensures { self.new.seat.value ≡ Some member.value }
    {
        *self = LassoShared {
            seat: Seat::of_block(alloc, Block::of(member)),
            live: true,
        };
    }
}

impl Drop for LassoShared {
    fn drop(self) {
        let _member = self.into_box();
    }
}
