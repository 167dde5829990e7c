// Memory of a caller's in which an interner is kept between calls.
//
// An export can take no box, so a box is taken apart here: `Block` is its memory, and `Seat` the same beside what gives it back.
// Both own what is at their pointers by their types' models, so no caller says anything of memory.
ghost use denote.RawPtr.{null_ptr};
ghost use Rattle.std.specs.Prelude.{◌≡◌, Option, None, Some};
ghost use Rattle.std.specs.Borrow.{sem};
ghost use Rattle.std.specs.Box.Ownership.{box_owns};
ghost use Rattle.lasso_c.specs.Held.{freed_by_heap, held, interner_coded};
ghost use Rattle.lasso_c.specs.Seeded.{Interner};

use crate::seed::Seed;
use crate::seeded::Interner;
use std::alloc::Global;
use std::marker::Model;

// The memory of a box, without the box.
pub(crate) struct Block<T> {
    pub(crate) at: *mut T,
    ghost value: { T },
}

impl<T> Model for Block<T> {
    ghost also_owns = { λ b. box_owns freed_by_heap T.row b.at b.value };
}

impl<T> Block<T> {
    // The memory of the box, which is let go.
    pub(crate) fn of(boxed: Box<T>) -> Block<T>
    where
        T: Drop,
        ensures { result.value ≡ boxed.value }
    {
        let at = Box::into_raw(boxed);
        Block { at }
    }
}

/// Where an interner is, if there is one.
#[repr(C)]
pub struct Seat {
    at: *mut u8,
    alloc: Global,
    ghost value: { Option Interner } by { interner_coded },
}

impl Model for Seat {
    ghost also_owns = { λ s. held s.at s.value };
}

impl Seat {
    ghost use Rattle.lasso_c.specs.Lending.{LendsInterner};

    // No interner, at the null pointer.
    pub(crate) fn none(alloc: Global) -> Seat
        ensures { (result.value ≡ None) × (result.at ≡ null_ptr) }
    {
        Seat {
            at: std::ptr::null_mut(),
            alloc,
        }
    }

    // The seat of the interner in the block.
    pub(crate) fn of_block(alloc: Global, block: Block<Interner<Seed>>) -> Seat
        ensures { result.value ≡ Some block.value }
    {
        let Block { at } = block;
        Seat {
            at: at as *mut u8,
            alloc,
        }
    }

    // The interner, in a box.
    pub(crate) fn into_box(self) -> Box<Interner<Seed>>
        requires { ¬ (self.value ≡ None) }
        ensures { self.value ≡ Some result.value }
    {
        let Seat { at, alloc } = self;
        unsafe { Box::from_raw(alloc, at as *mut Interner<Seed>) }
    }

    // The interner, lent.
    #[inline(always)]
    pub(crate) fn get_mut(&mut self) -> &mut Interner<Seed>
        requires { ¬ (self.old.value ≡ None) }
        ensures* writes_back { sem 𝓛 (LendsInterner self.entry result) }
        ensures value { self.old.value ≡ Some result.now }
    {
        unsafe { &mut *(self.at as *mut Interner<Seed>) }
    }

    // Lets go of a seat that holds none.
    pub(crate) fn end(self)
        requires { self.value ≡ None }
    {
        let Seat { at: _, alloc: _ } = self;
    }
}

unsafe impl Send for Seat {}
