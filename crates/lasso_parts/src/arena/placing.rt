//! Where the next text of an arena goes: the current region, the smallest spare that has room, a new
//! region, or nowhere.
ghost use Rattle.std.specs.Prelude.{◌≡◌, ◌<◌, IfSome, IsNone, None};
ghost use Rattle.lasso_parts.specs.Account.{spare_for};
ghost use Rattle.lasso_parts.specs.Arena.{account_of, first_of};
ghost use Rattle.lasso_parts.specs.Doubled.{IsFirstToTake, NoneTakes};
ghost use Rattle.lasso_parts.specs.Placements.{IsPlacementFor, IsSpareFor, NeedsNew};
ghost use Rattle.lasso_parts.specs.Waste.{HasNoSpare};

use super::{Arena, Placement};
use crate::bucket::region::Region;
use std::alloc::Allocator;

impl<A: Allocator> Arena<A> {
    /// Where a text of n bytes goes.
    #[inline]
    pub(super) fn placement_for(&self, n: usize) -> Placement
        requires { 0 < n }
        ensures { IsPlacementFor self.now n result }
    {
        if n <= self.regions.as_slice()[self.current].free_elements() {
            return Placement::Current;
        }
        match self.spare_for(n) {
            Some(at) => Placement::Spare(at),
            None => self.new_for(n),
        }
    }

    // The position of the smallest spare that has n bytes.
    #[inline(never)]
    fn spare_for(&self, n: usize) -> Option<usize>
        ensures found { IfSome result (λ at. IsSpareFor self.now n at) }
        ensures missing { IsNone result → HasNoSpare (account_of self.now) n × (spare_for (first_of self.now) (account_of self.now) n ≡ None) }
    {
        let spares = &self.regions.as_slice()[1..self.kept];
        match first_to_take(spares, n) {
            Some(at) => Some(at + 1),
            None => None,
        }
    }

    // The new region that n bytes get. No sum is made that can wrap.
    #[inline(never)]
    fn new_for(&self, n: usize) -> Placement
        requires needed { NeedsNew self.now n }
        requires no_spare { spare_for (first_of self.now) (account_of self.now) n ≡ None }
        requires some { 0 < n }
        ensures { IsPlacementFor self.now n result }
    {
        let left = self.limit.saturating_sub(self.usage);
        if self.doubling < n - self.doubling.min(n) {
            return if left < n {
                Placement::Refused
            } else {
                Placement::Exact
            };
        }
        if left / 2 < self.doubling {
            return if left < n {
                Placement::Refused
            } else {
                Placement::Remnant(left)
            };
        }
        Placement::Doubled(2 * self.doubling)
    }
}

// The position of the first region that has no bytes and has room for n.
fn first_to_take(regions: &[Region], n: usize) -> Option<usize>
    ensures found { IfSome result (λ at. IsFirstToTake n regions.now at) }
    ensures missing { IsNone result → NoneTakes n regions.now }
{
    for at in 0..regions.len() {
        let region = &regions[at];
        if n <= region.capacity() && region.free_elements() == region.capacity() {
            return Some(at);
        }
    }
    None
}
