//! The arena: buckets that texts are copied into, which grow in number under a limit on their bytes.
ghost use Rattle.std.specs.Prelude.{◌≡◌, ◌+◌, ◌*◌, ◌<◌, ◌-◌, ◌^◌, ◌≤◌, ◌↔◌, length, map, Some, None, Err};
ghost use Rattle.std.specs.Prelude.{IfOk, IfErr, IfSome, OnErr, IsOk, IsSome, IsNone, IsTrue};
ghost use Rattle.lasso_parts.specs.Account.{fresh, store, clear, with_limit};
ghost use Rattle.lasso_parts.specs.Placements.{HasPlaceFor, MayRefuse};
ghost use Rattle.lasso_parts.specs.declared.util.LassoErrorKind.TheVariants.{MemoryLimitReached, FailedAllocation};

mod owned;
mod placing;
mod storing;

use crate::bucket::region::Region;
use crate::util::{LassoError, LassoErrorKind, LassoResult};
use owned::OwnedRegions;
use std::alloc::Allocator;
use std::fmt;
use std::marker::Model;

/// Where a text is in an arena.
#[derive(Clone, Copy, Debug, PartialEq, Eq)]
pub struct Span {
    /// The position of its region among the arena's.
    pub region: usize,
    /// The position of its first byte in the region.
    pub start: usize,
    /// How many bytes it has.
    pub len: usize,
}

// Where the next text goes.
#[derive(Clone, Copy)]
enum Placement {
    // the current region, which has room
    Current,
    // the spare region at that position, which is the smallest that has room
    Spare(usize),
    // a new region of exactly the text's bytes, which does not become the current one
    Exact,
    // a new region of what the limit leaves
    Remnant(usize),
    // a new region of twice the doubling size
    Doubled(usize),
    // nowhere: the limit refuses the text
    Refused,
}

/// Memory that texts are copied into: a list of regions, each a bucket, which are freed with the arena.
/// Contracts see the regions with their bytes and capacities, which of them is filled next, how many the
/// last clear kept, the doubling size, the limit, and the most bytes copied in between two clears so far;
/// the account, the usage and the number of bytes copied in are derived from these.
#[derive(Drop)]
pub struct Arena<A: Allocator> {
    regions: OwnedRegions<A>,
    current: usize,
    kept: usize,
    doubling: usize,
    usage: usize,
    limit: usize,
    most: usize,
}

impl<A: Allocator> Model for Arena<A> {
    ghost use Rattle.lasso_parts.specs.Arena.{Regions};
    ghost use Rattle.lasso_parts.specs.Doubled.{IsCountedSound};

    ghost Value = { Regions };

    ghost view = { λ a. record { all = a.regions; current = a.current; kept = a.kept; doubling = a.doubling; limit = a.limit; most = a.most } };

    ghost invariant = { λ a. IsCountedSound a.usage
        (record { all = a.regions; current = a.current; kept = a.kept; doubling = a.doubling; limit = a.limit; most = a.most }) };
}

impl<A: Allocator + Clone> Arena<A> {
    ghost use Rattle.lasso_parts.specs.Arena.{account_of, copied_of, first_of, most_of};

    /// An arena with a first region of `bytes` bytes, whose regions take at most `limit` bytes. The limit may
    /// be less than the first region's bytes. The only error is `FailedAllocation`.
    pub fn new(alloc: A, bytes: usize, limit: usize) -> LassoResult<Self>
        requires { 0 < bytes }
        ensures account { IfOk result (λ arena. account_of arena ≡ fresh bytes limit) }
        ensures first { IfOk result (λ arena. first_of arena ≡ bytes) }
        ensures copied { IfOk result (λ arena. copied_of arena ≡ 0) }
        ensures most { IfOk result (λ arena. most_of arena ≡ 0) }
        ensures refused { IfErr result (λ error. error ≡ FailedAllocation) }
    {
        let mut regions = OwnedRegions::new(alloc)?;
        regions.push(bytes)?;
        Ok(Arena {
            regions,
            current: 0,
            kept: 1,
            doubling: bytes,
            usage: bytes,
            limit,
            most: 0,
        })
    }

    /// An arena with a first region of 4096 bytes and the limit `usize::MAX`. The only error is
    /// `FailedAllocation`.
    pub fn default(alloc: A) -> LassoResult<Self>
        ensures account { IfOk result (λ arena. account_of arena ≡ fresh 4096 (2 ^ 64 - 1)) }
        ensures first { IfOk result (λ arena. first_of arena ≡ 4096) }
        ensures copied { IfOk result (λ arena. copied_of arena ≡ 0) }
        ensures most { IfOk result (λ arena. most_of arena ≡ 0) }
        ensures refused { IfErr result (λ error. error ≡ FailedAllocation) }
    {
        Arena::new(alloc, 4096, usize::MAX)
    }
}

impl<A: Allocator> Arena<A> {
    ghost use Rattle.lasso_parts.specs.Arena.{account_of, copied_of, usage_of, first_of, most_of, IsStored, text_at, emptied, KeepsTexts};
    ghost use Rattle.lasso_parts.specs.Doubled.{kept_of};

    /// The bytes that all regions take. They are at most the first region's and eight times the most bytes
    /// that were copied in between two clears; the time before the first clear and that after the last
    /// count too.
    pub fn memory_usage(&self) -> usize
        ensures usage { result ≡ usage_of self.now.all }
        ensures waste { result ≤ first_of self.now + 8 * most_of self.now }
    {
        self.usage
    }

    /// How many bytes the allocator gave: for the regions, as `memory_usage` counts them, and for the lists that name them.
    pub fn allocated_bytes(&self) -> usize
        ensures { usage_of self.now.all ≤ result }
    {
        self.memory_usage()
            .saturating_add(self.regions.list_bytes())
    }

    /// The most bytes that all regions may take.
    pub fn max_memory_usage(&self) -> usize
        ensures limit { result ≡ self.now.limit }
    {
        self.limit
    }

    /// The regions, which lend the texts.
    pub fn regions(&self) -> &[Region]
        ensures { result.now ≡ self.now.all }
    {
        self.regions.as_slice()
    }

    /// Whether a text of `n` bytes fits, in the current region or in a spare, or is within the limit:
    /// `store_str` then fails only when out of memory. It takes no memory.
    pub fn admits(&self, n: usize) -> bool
        ensures account { IsTrue result ↔ IsSome (store (first_of self.now) (account_of self.now) n) }
        ensures sums { IsTrue result ↔ HasPlaceFor self.now n }
    {
        n == 0 || !matches!(self.placement_for(n), Placement::Refused)
    }

    /// Copies a text in as `store_str` does, if the current region has room for it, and returns where it is.
    /// `None`: there is no such room, or the text has no bytes, and nothing changes. It takes no memory.
    #[inline(always)]
    pub fn store_in_room(&mut self, text: &str) -> Option<Span>
        ensures account { IsSome result → store (first_of self.old) (account_of self.old) (length text.now) ≡ Some (account_of self.new) }
        ensures first { first_of self.new ≡ first_of self.old }
        ensures stored { IfSome result (λ span. IsStored self.new.all span × (text_at self.new.all span ≡ text.now)) }
        ensures kept { KeepsTexts self.old.all self.new.all }
        ensures copied { IsSome result → copied_of self.new ≡ copied_of self.old + length text.now }
        ensures most { self.new.most ≡ self.old.most }
        ensures room { IsSome result ↔ (0 < length text.now) × (length text.now ≤ (account_of self.old).room) }
        ensures none { IsNone result → self.new ≡ self.old }
    {
        let n = text.len();
        if n == 0 || n > self.regions.as_slice()[self.current].free_elements() {
            return None;
        }
        Some(self.store_in_current(text))
    }

    /// The text of a span that this arena returned since the last `clear`.
    pub fn text(&self, span: Span) -> &str
        requires stored { IsStored self.now.all span }
        ensures { result.now ≡ text_at self.now.all span }
    {
        self.regions.as_slice()[span.region].text(span.start, span.len)
    }

    /// Sets the most bytes that all regions may take. It may be below what they take already.
    pub fn set_limit(&mut self, limit: usize)
        ensures limit { self.new ≡ record self.old { limit = limit } }
        ensures account { account_of self.new ≡ with_limit (account_of self.old) limit }
    {
        self.limit = limit;
    }

    /// Forgets every text. The first region and the doubled ones are kept, and filled again; those of exact
    /// size and the remnants are given back. It takes no memory and can't fail. A span or an entry from
    /// before names only what is stored there since, or nothing.
    pub fn clear(&mut self)
        ensures kept { self.new.all ≡ map emptied (kept_of self.old.all) }
        ensures account { account_of self.new ≡ clear (first_of self.old) (account_of self.old) }
        ensures first { first_of self.new ≡ first_of self.old }
        ensures copied { copied_of self.new ≡ 0 }
        ensures most { most_of self.new ≡ most_of self.old }
    {
        self.most = self.most.max(self.regions.copied());
        let first = self.regions.as_slice()[0].capacity();
        self.kept = self.regions.clear();
        self.current = 0;
        self.usage = self.doubling - first + self.doubling;
    }
}

impl<A: Allocator + Clone> Arena<A> {
    ghost use Rattle.lasso_parts.specs.Arena.{account_of, copied_of, first_of, most_of, IsStored, text_at, KeepsTexts};

    /// Copies a text in and returns where it is. Every text stored earlier stays where it is. A text of no
    /// bytes takes no memory. If the current region has no room, the smallest spare that has it is filled:
    /// one that the last `clear` kept and that is empty still. A text longer than twice the doubling size
    /// then gets a region of just its bytes, which does not become the current one. A text that the limit
    /// refuses (`MemoryLimitReached`) is refused before any memory is asked for. Any other text fails only
    /// when out of memory (`FailedAllocation`), and only if it needs a new region. An error changes
    /// nothing: no region, no byte of one, nor the current region, the spares, the doubling size or the
    /// limit.
    #[inline(never)]
    pub fn store_str(&mut self, text: &str) -> LassoResult<Span>
        ensures account { IsOk result → store (first_of self.old) (account_of self.old) (length text.now) ≡ Some (account_of self.new) }
        ensures first { first_of self.new ≡ first_of self.old }
        ensures stored { IfOk result (λ span. IsStored self.new.all span × (text_at self.new.all span ≡ text.now)) }
        ensures kept { KeepsTexts self.old.all self.new.all }
        ensures copied { IsOk result → copied_of self.new ≡ copied_of self.old + length text.now }
        ensures most { self.new.most ≡ self.old.most }
        ensures limit { (result ≡ Err MemoryLimitReached) ↔ (store (first_of self.old) (account_of self.old) (length text.now) ≡ None) }
        ensures memory { IfErr result (λ error. MayRefuse self.old (length text.now) error) }
        ensures err { OnErr result (self.new ≡ self.old) }
    {
        let n = text.len();
        if n == 0 {
            return Ok(Span {
                region: self.current,
                start: 0,
                len: 0,
            });
        }
        match self.placement_for(n) {
            Placement::Refused => Err(LassoError::new(LassoErrorKind::MemoryLimitReached)),
            Placement::Current => Ok(self.store_in_current(text)),
            Placement::Spare(at) => Ok(self.store_in_spare(at, text)),
            Placement::Exact => self.store_in_exact(text),
            Placement::Remnant(size) => self.store_in_remnant(size, text),
            Placement::Doubled(size) => self.store_in_doubled(size, text),
        }
    }
}

impl<A: Allocator> fmt::Debug for Arena<A> {
    fn fmt<W: fmt::Write>(&self, f: &mut fmt::Formatter<W>) -> fmt::Result {
        f.debug_struct("Arena")
            .field("buckets", &BucketCount(self.regions().len()))
            .field("bucket_capacity", &self.doubling)
            .field("memory_usage", &self.usage)
            .field("max_memory_usage", &self.limit)
            .finish()
    }
}

// A number of buckets, whose bytes are left out of debug text.
#[derive(Drop)]
struct BucketCount(usize);

impl fmt::Debug for BucketCount {
    fn fmt<W: fmt::Write>(&self, f: &mut fmt::Formatter<W>) -> fmt::Result {
        if self.0 == 1 {
            f.write_str("... 1 bucket")
        } else {
            write!(f, "... {} buckets", self.0)
        }
    }
}
