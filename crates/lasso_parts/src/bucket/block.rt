//! The places of a block of bytes: how they are allocated, read, written and freed. Raw pointers are also in
//! `region.rt`, which passes one on, and in `entries.rt` and `entries/loan.rt`, which keep one and read by
//! it.
ghost use Rattle.std.specs.Prelude.{◌≡◌, ℕ, ◌+◌, ◌*◌, ◌^◌, ◌<◌, ◌≤◌, ◌++◌, length, take, drop, slice_range, IfOk};
ghost use base.Fml.{ftrue};
ghost use denote.RawPtr.{Ptr, ◌+ₚ◌};
ghost use Rattle.core.specs.Mem.Slots.{slots_items, slots_ptr, slots_len, SamePlaces};
ghost use Rattle.lasso_parts.specs.Block.{LeadsToBlock, deed_owns, AreFilled, SameBefore};

use crate::chunks::{first, last};
use core::slots::Slots;
use std::alloc::{AllocError, Allocator};
use std::marker::{Model, PhantomData, Send, Sync};
use std::slice;

/// The places of one block. They own it, but cannot free it. Contracts see them as their row, in which each
/// place is empty or holds a byte. The pointer leads to the first place, so that a `&` is enough to read.
pub struct ByteBlock {
    ptr: *mut u8,
    slots: Slots<u8>,
}

impl Model for ByteBlock {
    ghost use Rattle.std.specs.Prelude.{◌≡◌, ℕ};
    ghost use base.Fml.{ftrue};
    ghost use Rattle.core.specs.Mem.Slots.{slots_ptr};
    ghost use Rattle.core.specs.declared.slots.Slots.{Slots};
    ghost use Rattle.lasso_parts.specs.Block.{LeadsToBlock};

    ghost Value = { Slots ℕ };

    ghost view = { λ c. c.slots };

    ghost invariant = { λ c. (c.ptr ≡ slots_ptr c.slots) × LeadsToBlock c.ptr };

    // Apart from its fields it owns and lends nothing. These two lines let `TheSendSync` show where it may
    // go.
    ghost also_owns = { λ _. ftrue };

    ghost also_shares = { λ _ _ _. ftrue };
}

unsafe impl Send for ByteBlock {}

unsafe impl Sync for ByteBlock {}

/// The right to give the block of `len` bytes at `at` back to `alloc`. It takes no space.
pub struct ByteBlockRight<A: Allocator> {
    of: PhantomData<*const A>,
    ghost at: { Ptr },
    ghost len: { ℕ },
    ghost alloc: { A },
}

impl<A: Allocator> Model for ByteBlockRight<A> {
    ghost also_owns = { λ d. deed_owns (A.dealloc_token d.alloc) d.at d.len };

    ghost also_shares = { λ _ _ _. ftrue };
}

unsafe impl<A: Allocator + Send> Send for ByteBlockRight<A> {}

// A `&` to it holds nothing.
unsafe impl<A: Allocator> Sync for ByteBlockRight<A> {}

/// A block of `len` bytes of that allocator, with the right to free it. No place holds a byte yet.
pub fn allocate<A: Allocator>(
    alloc: &A,
    len: usize,
) -> Result<(ByteBlock, ByteBlockRight<A>), AllocError>
    requires { len < 2 ^ 63 }
    ensures { IfOk result (λ r. (slots_len r.0 ≡ len) × (r.1.at ≡ slots_ptr r.0) × (r.1.len ≡ len) × (r.1.alloc ≡ alloc.now)) }
{
    match alloc.allocate(len, 1) {
        Ok(ptr) => {
            let slots = unsafe { Slots::from_raw_parts(ptr, len) };
            let of = PhantomData;
            Ok((ByteBlock { ptr, slots }, ByteBlockRight { of }))
        }
        Err(refused) => Err(refused),
    }
}

/// Gives the block back to the allocator that it came from.
pub fn deallocate<A: Allocator>(alloc: &A, block: ByteBlock, block_right: ByteBlockRight<A>)
    requires { (block_right.at ≡ slots_ptr block) × (block_right.len ≡ slots_len block) × (block_right.alloc ≡ alloc.now) }
{
    let ByteBlock { ptr: _, slots } = block;
    let ByteBlockRight { of: _ } = block_right;
    unsafe {
        let (ptr, len) = slots.into_raw_parts();
        alloc.deallocate(ptr, len, 1);
    }
}

impl ByteBlock {
    /// The row of the places, and where the first of them is.
    pub fn into_row(self) -> (*mut u8, Slots<u8>)
        ensures first { (result.0 ≡ slots_ptr self) × LeadsToBlock result.0 }
        ensures row { result.1 ≡ self }
    {
        let ByteBlock { ptr, slots } = self;
        (ptr, slots)
    }

    /// The places of a row, of which the first is where the pointer leads.
    pub fn from_row(first: *mut u8, row: Slots<u8>) -> ByteBlock
        requires { (first ≡ slots_ptr row) × LeadsToBlock first }
        ensures { result ≡ row }
    {
        ByteBlock {
            ptr: first,
            slots: row,
        }
    }

    /// How many places there are.
    #[inline]
    pub(crate) fn len(&self) -> usize
        ensures { result ≡ slots_len self.now }
    {
        self.slots.len()
    }

    /// Copies the bytes to the places from `start` on.
    #[inline(always)]
    pub(crate) fn write(&mut self, start: usize, bytes: &[u8])
        requires { start + length bytes.now ≤ slots_len self.old }
        ensures items { slots_items self.new ≡ take start (slots_items self.old) ++ bytes.now ++ drop (start + length bytes.now) (slots_items self.old) }
        ensures written { AreFilled self.new start (start + length bytes.now) }
        ensures before { SameBefore self.old self.new start }
        ensures places { SamePlaces self.old self.new }
    {
        let len = bytes.len();
        if len > 16 {
            self.slots.copy_in(start, bytes)
        } else if len >= 8 {
            self.write_ends::<8>(start, bytes)
        } else if len >= 4 {
            self.write_ends::<4>(start, bytes)
        } else if len >= 2 {
            self.write_ends::<2>(start, bytes)
        } else {
            self.slots.copy_in(start, bytes)
        }
    }

    // Copies the bytes to the places from `start` on. Their first N and their last N are all of them, and each is
    // one move. Both are read first, so that neither move is tested for whether bytes and places overlap.
    #[inline(always)]
    fn write_ends<const N: usize>(&mut self, start: usize, bytes: &[u8])
        requires room { start + length bytes.now ≤ slots_len self.old }
        requires ends { N ≤ length bytes.now }
        requires all { length bytes.now ≤ 2 * N }
        ensures items { slots_items self.new ≡ take start (slots_items self.old) ++ bytes.now ++ drop (start + length bytes.now) (slots_items self.old) }
        ensures written { AreFilled self.new start (start + length bytes.now) }
        ensures before { SameBefore self.old self.new start }
        ensures places { SamePlaces self.old self.new }
    {
        let rest = bytes.len() - N;
        let (head, tail) = (*first::<N>(bytes), *last::<N>(bytes));
        self.slots.copy_in(start, &head);
        self.slots.copy_in(start + rest, &tail);
    }

    /// Where the place at `start` is, or where the places end.
    #[inline]
    pub(crate) fn address(&self, start: usize) -> *const u8
        requires { start ≤ slots_len self.now }
        ensures { (result ≡ slots_ptr self.now +ₚ start) × LeadsToBlock result }
    {
        unsafe { self.ptr.add(start) }
    }

    /// The `len` bytes from `start` on, in place.
    #[inline]
    pub(crate) fn read(&self, start: usize, len: usize) -> &[u8]
        requires { AreFilled self.now start (start + len) }
        ensures { result.now ≡ slice_range (slots_items self.now) start (start + len) }
    {
        unsafe { slice::from_raw_parts(self.ptr.add(start), len) }
    }
}
