//! A bucket: memory of a fixed size that fills with bytes from its start. It is for callers alone: an arena
//! keeps its regions in a separate list, and has no `Bucket`.
ghost use Rattle.std.specs.Prelude.{◌≡◌, ◌+◌, ◌<◌, ◌≤◌, ◌↔◌, ◌++◌, [], length, slice_range, IfOk, IfErr, IsTrue, IsUtf8};
ghost use Rattle.lasso_parts.specs.declared.util.LassoErrorKind.TheVariants.{FailedAllocation};

pub mod block;
pub mod region;

use crate::util::LassoResult;
use region::{Region, RegionRight, close, open};
use std::alloc::Allocator;
use std::marker::Model;

/// A run of bytes that never moves and never grows, freed when the bucket is dropped.
pub struct Bucket<A: Allocator> {
    region: Region,
    right: RegionRight<A>,
}

impl<A: Allocator> Model for Bucket<A> {
    ghost use Rattle.std.specs.Prelude.{◌≡◌};
    ghost use Rattle.lasso_parts.specs.Bucket.{Filled, block_of};

    ghost Value = { Filled };

    ghost view = { λ b. record { bytes = b.region.bytes; capacity = b.region.capacity } };

    ghost invariant = { λ b. b.right ≡ block_of b.region };
}

impl<A: Allocator> Drop for Bucket<A> {
    fn drop(self) {
        let Bucket { region, right } = self;
        close(region, right);
    }
}

impl<A: Allocator> Bucket<A> {
    /// An empty bucket for `capacity` bytes. The one error is `FailedAllocation`: the allocator gave no memory,
    /// or `capacity` is above `isize::MAX`, which no allocator has.
    pub fn with_capacity(alloc: A, capacity: usize) -> LassoResult<Self>
        requires some { 0 < capacity }
        ensures empty { IfOk result (λ b. b.bytes ≡ []) }
        ensures capacity { IfOk result (λ b. b.capacity ≡ capacity) }
        ensures refused { IfErr result (λ e. e ≡ FailedAllocation) }
    {
        let (region, right) = open(alloc, capacity)?;
        Ok(Bucket { region, right })
    }

    /// How many bytes still fit.
    pub fn free_elements(&self) -> usize
        ensures { result + length self.now.bytes ≡ self.now.capacity }
    {
        self.region.free_elements()
    }

    /// Whether no byte fits any more.
    pub fn is_full(&self) -> bool
        ensures { IsTrue result ↔ (length self.now.bytes ≡ self.now.capacity) }
    {
        self.free_elements() == 0
    }

    /// Forgets the bytes. The capacity stays.
    pub fn clear(&mut self)
        ensures bytes { self.new.bytes ≡ [] }
        ensures capacity { self.new.capacity ≡ self.old.capacity }
    {
        self.region.clear();
    }

    /// Appends the bytes, and returns where they start. The capacity stays.
    pub fn push_slice(&mut self, bytes: &[u8]) -> usize
        requires fits { length self.old.bytes + length bytes.now ≤ self.old.capacity }
        ensures start { result ≡ length self.old.bytes }
        ensures bytes { self.new.bytes ≡ self.old.bytes ++ bytes.now }
        ensures capacity { self.new.capacity ≡ self.old.capacity }
    {
        self.region.push_slice(bytes)
    }

    /// The text in the `len` bytes from `start` on, as long as nothing changes the bucket.
    pub fn text(&self, start: usize, len: usize) -> &str
        requires in_bounds { start + len ≤ length self.now.bytes }
        requires is_text { IsUtf8 (slice_range self.now.bytes start (start + len)) }
        ensures { result.now ≡ slice_range self.now.bytes start (start + len) }
    {
        self.region.text(start, len)
    }
}
