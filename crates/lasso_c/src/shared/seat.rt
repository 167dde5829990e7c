// Memory of a caller's in which a member of a shared interner is kept between calls.
//
// It is the seat of `lasso_c::seat` once more, with another content: no type that crosses to C may have type parameters, nor hold a
// type that changes behind a `&`, as an interner does.
ghost use denote.RawPtr.{null_ptr};
ghost use Rattle.std.specs.Prelude.{◌≡◌, Option, None, Some};
ghost use Rattle.std.specs.Borrow.{sem};
ghost use Rattle.lasso_c.specs.SharedHeld.{held, member_coded};
ghost use Rattle.lasso_c.specs.declared.shared.member.Member.{Member};

use crate::seat::Block;
use crate::shared::member::Member;
use std::alloc::Global;
use std::marker::Model;

/// Where a member is, if there is one.
#[repr(C)]
pub struct Seat {
    at: *mut u8,
    alloc: Global,
    ghost value: { Option Member } by { member_coded },
}

impl Model for Seat {
    ghost also_owns = { λ s. held s.at s.value };
}

impl Seat {
    ghost use Rattle.lasso_c.specs.SharedLending.{LendsMember};

    // No member, at the null pointer.
    pub(crate) fn none(alloc: Global) -> Seat
        ensures { (result.value ≡ None) × (result.at ≡ null_ptr) }
    {
        Seat {
            at: std::ptr::null_mut(),
            alloc,
        }
    }

    // The seat of the member in the block.
    pub(crate) fn of_block(alloc: Global, block: Block<Member>) -> Seat
        ensures { result.value ≡ Some block.value }
    {
        let Block { at } = block;
        Seat {
            at: at as *mut u8,
            alloc,
        }
    }

    // The member, in a box.
    pub(crate) fn into_box(self) -> Box<Member>
        requires { ¬ (self.value ≡ None) }
        ensures { self.value ≡ Some result.value }
    {
        let Seat { at, alloc } = self;
        unsafe { Box::from_raw(alloc, at as *mut Member) }
    }

    // The member, lent.
    #[inline(always)]
    pub(crate) fn get_mut(&mut self) -> &mut Member
        requires { ¬ (self.old.value ≡ None) }
        ensures* writes_back { sem 𝓛 (LendsMember self.entry result) }
        ensures value { self.old.value ≡ Some result.now }
    {
        unsafe { &mut *(self.at as *mut Member) }
    }

    // Lets go of a seat that holds none.
    pub(crate) fn end(self)
        requires { self.value ≡ None }
    {
        let Seat { at: _, alloc: _ } = self;
    }
}

unsafe impl Send for Seat {}
