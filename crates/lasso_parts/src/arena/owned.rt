//! Regions in the order in which they were opened, each with the right to free it.
ghost use Rattle.std.specs.Prelude.{◌≡◌, ◌+◌, ◌^◌, ◌<◌, ◌≤◌, ◌++◌, [], ◌∷◌, length, map, take};
ghost use Rattle.std.specs.Prelude.{IfOk, IfErr, IsOk, OnErr};
ghost use denote.RawPtr.{Ptr};
ghost use Rattle.lasso_parts.specs.Arena.{region_at, with_bytes_at, emptied, usage_of, copied_in};
ghost use Rattle.lasso_parts.specs.Bucket.{block_of};
ghost use Rattle.lasso_parts.specs.Doubled.{kept_of};
ghost use Rattle.lasso_parts.specs.declared.util.LassoErrorKind.TheVariants.{FailedAllocation};

use crate::bucket::region::{Region, RegionRight, close, open};
use crate::memory::list_bytes;
use crate::util::LassoResult;
use std::alloc::Allocator;
use std::marker::Model;
use std::mem::{size_of, size_of_val};

/// A list of regions, and the list of the rights to free them. Contracts see the regions.
pub(crate) struct OwnedRegions<A: Allocator> {
    regions: Vec<Region, A>,
    rights: Vec<RegionRight<A>, A>,
}

impl<A: Allocator> Model for OwnedRegions<A> {
    ghost use Rattle.std.specs.Prelude.{◌≡◌, List, map};
    ghost use Rattle.lasso_parts.specs.Bucket.{Extent, block_of};

    ghost Value = { List Extent };

    ghost view = { λ o. o.regions.items };

    ghost invariant = { λ o. o.rights.items ≡ map block_of o.regions.items };
}

impl<A: Allocator> Drop for OwnedRegions<A> {
    fn drop(self) {
        let OwnedRegions {
            mut regions,
            mut rights,
        } = self;
        while let Some(region) = regions.pop() {
            let right = rights.pop().unwrap();
            close(region, right);
        }
        regions.destroy_empty();
        rights.destroy_empty();
    }
}

impl<A: Allocator> OwnedRegions<A> {
    /// The regions.
    pub(crate) fn as_slice(&self) -> &[Region]
        ensures { result.now ≡ self.now }
    {
        self.regions.as_slice()
    }

    /// How many bytes all regions have. Their capacities must add up to what a `usize` counts.
    pub(crate) fn copied(&self) -> usize
        requires { usage_of self.now < 2 ^ 64 }
        ensures { result ≡ copied_in self.now }
    {
        let mut copied = 0;
        for region in self.regions.as_slice() {
            copied += region.capacity() - region.free_elements();
        }
        copied
    }

    /// How many bytes the allocator gave for the two lists. The bytes of the regions are not counted.
    pub(crate) fn list_bytes(&self) -> usize {
        let right_bytes = match self.rights.first() {
            Some(right) => size_of_val(right),
            None => 0,
        };
        let regions = list_bytes(&self.regions, size_of::<Region>());
        regions.saturating_add(list_bytes(&self.rights, right_bytes))
    }
    /// Keeps the first region and the doubled ones, in their order and without their bytes, frees the others,
    /// and returns how many it keeps. There must be one. It takes no memory.
    pub(crate) fn clear(&mut self) -> usize
        requires { 0 < length self.old }
        ensures kept { self.new ≡ map emptied (kept_of self.old) }
        ensures count { result ≡ length (kept_of self.old) }
    {
        let kept = gather_kept(&mut self.regions, &mut self.rights);
        free_from(&mut self.regions, &mut self.rights, kept);
        clear_each(&mut self.regions);
        kept
    }

    /// Copies a text to the end of a region that has room for it, and returns where it begins.
    #[inline(always)]
    pub(crate) fn push_text(&mut self, at: usize, text: &str) -> usize
        requires in_bounds { at < length self.old }
        requires room { length (region_at self.old at).bytes + length text.now ≤ (region_at self.old at).capacity }
        ensures pushed { self.new ≡ with_bytes_at self.old at text.now }
        ensures start { result ≡ length (region_at self.old at).bytes }
    {
        let region = &mut self.regions[at];
        region.push_slice(text.as_bytes())
    }
}

impl<A: Allocator + Clone> OwnedRegions<A> {
    /// No regions. The only error is `FailedAllocation`.
    pub(crate) fn new(alloc: A) -> LassoResult<Self>
        ensures none { IfOk result (λ regions. regions ≡ []) }
        ensures refused { IfErr result (λ error. error ≡ FailedAllocation) }
    {
        let other = alloc.clone()?;
        Ok(OwnedRegions {
            regions: Vec::new(alloc),
            rights: Vec::new(other),
        })
    }

    /// Appends a region of `capacity` bytes. The only error is `FailedAllocation`, and nothing changes then.
    pub(crate) fn push(&mut self, capacity: usize) -> LassoResult<()>
        requires { 0 < capacity }
        ensures added { IsOk result → (at : Ptr) × (self.new ≡ self.old ++ record { at = at; bytes = []; capacity = capacity } ∷ []) }
        ensures err { OnErr result (self.new ≡ self.old) }
        ensures refused { IfErr result (λ error. error ≡ FailedAllocation) }
    {
        self.regions.reserve(1)?;
        self.rights.reserve(1)?;
        let (region, right) = open(self.regions.allocator().clone()?, capacity)?;
        self.regions.push_reserved(region);
        self.rights.push_reserved(right);
        Ok(())
    }

    /// Appends a region of `capacity` bytes with a text in it. The only error is `FailedAllocation`, and
    /// nothing changes then.
    pub(crate) fn push_filled(&mut self, capacity: usize, text: &str) -> LassoResult<()>
        requires some { 0 < capacity }
        requires room { length text.now ≤ capacity }
        ensures added { IsOk result → (at : Ptr) × (self.new ≡ self.old ++ record { at = at; bytes = text.now; capacity = capacity } ∷ []) }
        ensures err { OnErr result (self.new ≡ self.old) }
        ensures refused { IfErr result (λ error. error ≡ FailedAllocation) }
    {
        let at = self.as_slice().len();
        self.push(capacity)?;
        self.push_text(at, text);
        Ok(())
    }
}

// Puts the first region and the doubled ones in front, in their order, each right at its region's position,
// and returns how many they are.
fn gather_kept<A: Allocator>(
    regions: &mut Vec<Region, A>,
    rights: &mut Vec<RegionRight<A>, A>,
) -> usize
    requires some { 0 < length regions.old.items }
    requires joined { rights.old.items ≡ map block_of regions.old.items }
    ensures kept { take result regions.new.items ≡ kept_of regions.old.items }
    ensures count { result ≤ length regions.new.items }
    ensures joined { rights.new.items ≡ map block_of regions.new.items }
{
    let mut kept = 1;
    let mut last = regions[0].capacity();
    for at in 1..regions.as_slice().len() {
        let capacity = regions[at].capacity();
        if last <= capacity && capacity - last == last {
            regions.swap(kept, at);
            rights.swap(kept, at);
            kept += 1;
            last = capacity;
        }
    }
    kept
}

// Frees the regions from that position on.
fn free_from<A: Allocator>(
    regions: &mut Vec<Region, A>,
    rights: &mut Vec<RegionRight<A>, A>,
    kept: usize,
)
    requires joined { rights.old.items ≡ map block_of regions.old.items }
    requires count { kept ≤ length regions.old.items }
    ensures kept { regions.new.items ≡ take kept regions.old.items }
    ensures joined { rights.new.items ≡ map block_of regions.new.items }
{
    while kept < regions.len() {
        let region = regions.pop().unwrap();
        let right = rights.pop().unwrap();
        close(region, right);
    }
}

// Forgets the bytes of every region.
fn clear_each<A: Allocator>(regions: &mut Vec<Region, A>)
    ensures { regions.new.items ≡ map emptied regions.old.items }
{
    for region in regions.iter_mut() {
        region.clear();
    }
}
