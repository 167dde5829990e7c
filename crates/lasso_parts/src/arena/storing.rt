//! A text stored in an arena once its placement is known.
ghost use Rattle.std.specs.Prelude.{◌≡◌, ◌+◌, ◌<◌, ◌≤◌, length, IfOk, IfErr, IsOk, OnErr, Some};
ghost use Rattle.lasso_parts.specs.Arena.{account_of, first_of, copied_of, region_at, with_bytes_at, AddsRegion};
ghost use Rattle.lasso_parts.specs.Placements.{IsPlacementFor, StoresTo};
ghost use Rattle.lasso_parts.specs.declared.arena.Placement.TheVariants.{Current, Spare, Exact, Remnant, Doubled};
ghost use Rattle.lasso_parts.specs.declared.util.LassoErrorKind.TheVariants.{FailedAllocation};

use super::{Arena, Span};
use crate::util::LassoResult;
use std::alloc::Allocator;

impl<A: Allocator> Arena<A> {
    /// Copies a text to the end of the current region.
    #[inline(always)]
    pub(super) fn store_in_current(&mut self, text: &str) -> Span
        requires some { 0 < length text.now }
        requires placement { IsPlacementFor self.old (length text.now) Current }
        ensures account { StoresTo self.old (length text.now) (account_of self.new) }
        ensures text { self.new ≡ record self.old { all = with_bytes_at self.old.all self.old.current text.now } }
        ensures span { result ≡ record { region = self.old.current; start = length (region_at self.old.all self.old.current).bytes; len = length text.now } }
    {
        let start = self.regions.push_text(self.current, text);
        Span {
            region: self.current,
            start,
            len: text.len(),
        }
    }

    /// Copies a text into the spare at that position, which becomes the current region.
    #[inline(never)]
    pub(super) fn store_in_spare(&mut self, at: usize, text: &str) -> Span
        requires some { 0 < length text.now }
        requires placement { IsPlacementFor self.old (length text.now) (Spare at) }
        ensures account { StoresTo self.old (length text.now) (account_of self.new) }
        ensures text { self.new ≡ record self.old { all = with_bytes_at self.old.all at text.now; current = at } }
        ensures span { result ≡ record { region = at; start = length (region_at self.old.all at).bytes; len = length text.now } }
        ensures inside { at < length self.old.all }
    {
        let start = self.regions.push_text(at, text);
        self.current = at;
        Span {
            region: at,
            start,
            len: text.len(),
        }
    }
}

impl<A: Allocator + Clone> Arena<A> {
    /// Copies a text into a new region of just its bytes, which does not become the current one.
    #[inline(never)]
    pub(super) fn store_in_exact(&mut self, text: &str) -> LassoResult<Span>
        requires some { 0 < length text.now }
        requires placement { IsPlacementFor self.old (length text.now) Exact }
        ensures account { IsOk result → StoresTo self.old (length text.now) (account_of self.new) }
        ensures text { IsOk result → AddsRegion self.old self.new text.now (length text.now) }
        ensures span { IfOk result (λ span. span ≡ record { region = length self.old.all; start = 0; len = length text.now }) }
        ensures err { OnErr result (self.new ≡ self.old) }
        ensures refused { IfErr result (λ error. error ≡ FailedAllocation) }
    {
        let region = self.regions.as_slice().len();
        let len = text.len();
        self.regions.push_filled(len, text)?;
        self.usage += len;
        Ok(Span {
            region,
            start: 0,
            len,
        })
    }

    /// Copies a text into a new region of what the limit leaves, which becomes the current one.
    #[inline(never)]
    pub(super) fn store_in_remnant(&mut self, size: usize, text: &str) -> LassoResult<Span>
        requires some { 0 < length text.now }
        requires placement { IsPlacementFor self.old (length text.now) (Remnant size) }
        ensures account { IsOk result → StoresTo self.old (length text.now) (account_of self.new) }
        ensures text { IsOk result → AddsRegion (record self.old { current = length self.old.all }) self.new text.now size }
        ensures span { IfOk result (λ span. span ≡ record { region = length self.old.all; start = 0; len = length text.now }) }
        ensures err { OnErr result (self.new ≡ self.old) }
        ensures refused { IfErr result (λ error. error ≡ FailedAllocation) }
    {
        let region = self.regions.as_slice().len();
        self.regions.push_filled(size, text)?;
        self.usage += size;
        self.current = region;
        Ok(Span {
            region,
            start: 0,
            len: text.len(),
        })
    }

    /// Copies a text into a new region of twice the doubling size, which becomes the current one, and its size
    /// the doubling size.
    #[inline(never)]
    pub(super) fn store_in_doubled(&mut self, size: usize, text: &str) -> LassoResult<Span>
        requires some { 0 < length text.now }
        requires placement { IsPlacementFor self.old (length text.now) (Doubled size) }
        ensures account { IsOk result → StoresTo self.old (length text.now) (account_of self.new) }
        ensures text { IsOk result → AddsRegion (record self.old { current = length self.old.all; doubling = size }) self.new text.now size }
        ensures span { IfOk result (λ span. span ≡ record { region = length self.old.all; start = 0; len = length text.now }) }
        ensures err { OnErr result (self.new ≡ self.old) }
        ensures refused { IfErr result (λ error. error ≡ FailedAllocation) }
    {
        let region = self.regions.as_slice().len();
        self.regions.push_filled(size, text)?;
        self.usage += size;
        self.current = region;
        self.doubling = size;
        Ok(Span {
            region,
            start: 0,
            len: text.len(),
        })
    }
}
