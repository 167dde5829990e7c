//! One region of memory, which fills with bytes from its start, and apart from it the right to free it.
ghost use Rattle.std.specs.Prelude.{◌≡◌, ◌+◌, ◌<◌, ◌≤◌, ◌++◌, [], length, slice_range, IfOk, IfErr, IsUtf8};
ghost use Rattle.lasso_parts.specs.declared.util.LassoErrorKind.TheVariants.{FailedAllocation};
ghost use denote.RawPtr.{◌+ₚ◌};
ghost use Rattle.lasso_parts.specs.Bucket.{block_of};
ghost use Rattle.lasso_parts.specs.Block.{LeadsToBlock};

use super::block::{ByteBlock, ByteBlockRight, allocate, deallocate};
use crate::util::{LassoError, LassoErrorKind, LassoResult};
use std::alloc::Allocator;
use std::marker::Model;
use std::str::from_utf8_unchecked;

/// A region of memory with the bytes in it. It names no allocator, and only `close` lets it go.
pub struct Region {
    block: ByteBlock,
    used: usize,
}

impl Model for Region {
    ghost use Rattle.std.specs.Prelude.{◌<◌};
    ghost use Rattle.core.specs.Mem.Slots.{slots_ptr, slots_len};
    ghost use Rattle.lasso_parts.specs.Bucket.{Extent};
    ghost use Rattle.lasso_parts.specs.Block.{bytes_in, AreFilled};

    ghost Value = { Extent };

    ghost view = { λ r. record { at = slots_ptr r.block; bytes = bytes_in r.used r.block; capacity = slots_len r.block } };

    ghost invariant = { λ r. AreFilled r.block 0 r.used };
}

/// The right to free a region, with the allocator that gave it. Only `close` lets it go.
pub struct RegionRight<A: Allocator> {
    block_right: ByteBlockRight<A>,
    alloc: A,
}

impl<A: Allocator> Model for RegionRight<A> {
    ghost use Rattle.std.specs.Prelude.{◌≡◌};
    ghost use Rattle.lasso_parts.specs.Bucket.{Block};

    ghost Value = { Block };

    ghost view = { λ r. record { at = r.block_right.at; len = r.block_right.len } };

    ghost invariant = { λ r. r.block_right.alloc ≡ r.alloc };
}

/// An empty region that takes `capacity` bytes, with the right to free it. It is `FailedAllocation` if
/// the allocator has no such block, as for each capacity above `isize::MAX`.
pub(crate) fn open<A: Allocator>(alloc: A, capacity: usize) -> LassoResult<(Region, RegionRight<A>)>
    requires { 0 < capacity }
    ensures empty { IfOk result (λ r. (r.0.bytes ≡ []) × (r.0.capacity ≡ capacity)) }
    ensures joined { IfOk result (λ r. r.1 ≡ block_of r.0) }
    ensures refused { IfErr result (λ e. e ≡ FailedAllocation) }
{
    if (isize::MAX as usize) < capacity {
        return Err(LassoError::new(LassoErrorKind::FailedAllocation));
    }
    let (block, block_right) = allocate(&alloc, capacity)?;
    Ok((
        Region { block, used: 0 },
        RegionRight { block_right, alloc },
    ))
}

/// Frees a region by the right to it.
pub(crate) fn close<A: Allocator>(region: Region, right: RegionRight<A>)
    requires { right ≡ block_of region }
{
    let Region { block, used: _ } = region;
    let RegionRight { block_right, alloc } = right;
    deallocate(&alloc, block, block_right);
}

impl Region {
    /// How many bytes fit in all.
    #[inline]
    pub(crate) fn capacity(&self) -> usize
        ensures { result ≡ self.now.capacity }
    {
        self.block.len()
    }

    /// How many bytes still fit.
    #[inline]
    pub(crate) fn free_elements(&self) -> usize
        ensures { result + length self.now.bytes ≡ self.now.capacity }
    {
        self.block.len() - self.used
    }

    /// Forgets the bytes. The region stays where it is.
    pub(crate) fn clear(&mut self)
        ensures { self.new ≡ record self.old { bytes = [] } }
    {
        self.used = 0;
    }

    /// Appends the bytes, and returns where they start.
    #[inline(always)]
    pub(crate) fn push_slice(&mut self, bytes: &[u8]) -> usize
        requires { length self.old.bytes + length bytes.now ≤ self.old.capacity }
        ensures start { result ≡ length self.old.bytes }
        ensures bytes { self.new ≡ record self.old { bytes = self.old.bytes ++ bytes.now } }
    {
        let start = self.used;
        self.block.write(start, bytes);
        self.used = start + bytes.len();
        start
    }

    /// Where the byte at `start` is, or where the bytes end.
    #[inline]
    pub(crate) fn address(&self, start: usize) -> *const u8
        requires { start ≤ length self.now.bytes }
        ensures { (result ≡ self.now.at +ₚ start) × LeadsToBlock result }
    {
        self.block.address(start)
    }

    /// The text in the `len` bytes from `start` on. Nothing is copied, and nothing tested.
    #[inline]
    pub(crate) fn text(&self, start: usize, len: usize) -> &str
        requires in_bounds { start + len ≤ length self.now.bytes }
        requires is_text { IsUtf8 (slice_range self.now.bytes start (start + len)) }
        ensures { result.now ≡ slice_range self.now.bytes start (start + len) }
    {
        unsafe { from_utf8_unchecked(self.block.read(start, len)) }
    }
}
