//! The makers of a `Rodeo`: by default or given capacity, limit and hasher.
ghost use Rattle.std.specs.Prelude.{◌≡◌, ◌-◌, ◌^◌, [], IfOk, IfErr};
ghost use Rattle.lasso_parts.specs.Account.{fresh};
ghost use Rattle.lasso_single.specs.Interner.{IsMadeWith};
ghost use Rattle.lasso_parts.specs.declared.util.LassoErrorKind.TheVariants.{FailedAllocation};

use super::Rodeo;
use crate::text_list::TextList;
use lasso_parts::index::Index;
use lasso_parts::keys::{Key, Spur};
use lasso_parts::util::{Capacity, FixedState, LassoResult, MemoryLimits};
use std::alloc::Allocator;
use std::hash::BuildHasher;

impl<A: Allocator + Clone> Rodeo<Spur, FixedState, A> {
    /// An interner with `Spur` keys, of default capacity (50 texts, 4096 bytes) and the limit `usize::MAX`.
    /// The only error is `FailedAllocation`.
    ///
    /// ```rust
    /// let rodeo = Rodeo::default(rt.alloc())?;
    /// assert!(rt; rodeo.is_empty());
    /// assert!(rt; rodeo.current_memory_usage() == 4096);
    /// ```
    pub fn default(alloc: A) -> LassoResult<Self>
        ensures texts { IfOk result (λ r. r.texts ≡ []) }
        ensures account { IfOk result (λ r. r.account ≡ fresh 4096 (2 ^ 64 - 1)) }
        ensures made { IfOk result (IsMadeWith 4096 0) }
        ensures refused { IfErr result (λ error. error ≡ FailedAllocation) }
    {
        Rodeo::new(alloc)
    }
}

impl<K: Key, A: Allocator + Clone> Rodeo<K, FixedState, A> {
    /// An interner of default capacity and limit. The only error is `FailedAllocation`.
    ///
    /// ```rust
    /// let mut rodeo: Rodeo<MicroSpur, _, _> = Rodeo::new(rt.alloc())?;
    /// let first = rodeo.try_get_or_intern("Hello, world!")?;
    /// assert!(rt; first.into_usize() == 0);
    /// ```
    pub fn new(alloc: A) -> LassoResult<Self>
        ensures texts { IfOk result (λ r. r.texts ≡ []) }
        ensures account { IfOk result (λ r. r.account ≡ fresh 4096 (2 ^ 64 - 1)) }
        ensures made { IfOk result (IsMadeWith 4096 0) }
        ensures refused { IfErr result (λ error. error ≡ FailedAllocation) }
    {
        Rodeo::with_hasher(alloc, FixedState::new())
    }

    /// An interner with room for `capacity`, of default limit. The only error is `FailedAllocation`.
    ///
    /// ```rust
    /// let capacity = Capacity::new(1000, 65536);
    /// let rodeo: SpurRodeo = Rodeo::with_capacity(rt.alloc(), capacity)?;
    /// assert!(rt; rodeo.current_memory_usage() == 65536);
    /// ```
    pub fn with_capacity(alloc: A, capacity: Capacity) -> LassoResult<Self>
        ensures texts { IfOk result (λ r. r.texts ≡ []) }
        ensures account { IfOk result (λ r. r.account ≡ fresh capacity.bytes (2 ^ 64 - 1)) }
        ensures made { IfOk result (IsMadeWith capacity.bytes 0) }
        ensures refused { IfErr result (λ error. error ≡ FailedAllocation) }
    {
        Rodeo::with_capacity_and_hasher(alloc, capacity, FixedState::new())
    }

    /// An interner of default capacity, whose buckets take at most `limits`. The limit may be less than the
    /// 4096 bytes of the first bucket. The only error is `FailedAllocation`.
    ///
    /// ```rust
    /// let limits = MemoryLimits::new(10000);
    /// let rodeo: SpurRodeo = Rodeo::with_memory_limits(rt.alloc(), limits)?;
    /// assert!(rt; rodeo.max_memory_usage() == 10000);
    /// assert!(rt; rodeo.current_memory_usage() == 4096);
    /// ```
    pub fn with_memory_limits(alloc: A, limits: MemoryLimits) -> LassoResult<Self>
        ensures texts { IfOk result (λ r. r.texts ≡ []) }
        ensures account { IfOk result (λ r. r.account ≡ fresh 4096 limits) }
        ensures made { IfOk result (IsMadeWith 4096 0) }
        ensures refused { IfErr result (λ error. error ≡ FailedAllocation) }
    {
        Rodeo::with_capacity_and_memory_limits(alloc, Capacity::default(), limits)
    }

    /// An interner with room for `capacity`, whose buckets take at most `limits`. The limit may be less than
    /// the first bucket's bytes. The only error is `FailedAllocation`.
    ///
    /// ```rust
    /// let capacity = Capacity::for_bytes(4);
    /// let limits = MemoryLimits::new(4);
    /// let mut rodeo = SpurRodeo::with_capacity_and_memory_limits(rt.alloc(), capacity, limits)?;
    /// rodeo.try_get_or_intern("abcd")?;
    /// let refusal = rodeo.try_get_or_intern("e").err().ok_or("not refused")?;
    /// assert!(rt; refusal.kind().is_memory_limit());
    /// ```
    pub fn with_capacity_and_memory_limits(
        alloc: A,
        capacity: Capacity,
        limits: MemoryLimits,
    ) -> LassoResult<Self>
        ensures texts { IfOk result (λ r. r.texts ≡ []) }
        ensures account { IfOk result (λ r. r.account ≡ fresh capacity.bytes limits) }
        ensures made { IfOk result (IsMadeWith capacity.bytes 0) }
        ensures refused { IfErr result (λ error. error ≡ FailedAllocation) }
    {
        let hasher = FixedState::new();
        Rodeo::with_capacity_memory_limits_and_hasher(alloc, capacity, limits, hasher)
    }
}

impl<K: Key, S: BuildHasher + Drop, A: Allocator + Clone> Rodeo<K, S, A> {
    /// An interner of default capacity and limit, whose index asks the hasher. The only error is
    /// `FailedAllocation`.
    ///
    /// ```rust
    /// let rodeo: SpurRodeo = Rodeo::with_hasher(rt.alloc(), FixedState::new())?;
    /// assert!(rt; rodeo.is_empty());
    /// assert!(rt; rodeo.current_memory_usage() == 4096);
    /// ```
    pub fn with_hasher(alloc: A, hasher: S) -> LassoResult<Self>
        ensures texts { IfOk result (λ r. r.texts ≡ []) }
        ensures account { IfOk result (λ r. r.account ≡ fresh 4096 (2 ^ 64 - 1)) }
        ensures made { IfOk result (IsMadeWith 4096 0) }
        ensures refused { IfErr result (λ error. error ≡ FailedAllocation) }
    {
        Rodeo::with_capacity_and_hasher(alloc, Capacity::default(), hasher)
    }

    /// An interner with room for `capacity`, of default limit, whose index asks the hasher. The only error is
    /// `FailedAllocation`.
    ///
    /// ```rust
    /// let capacity = Capacity::for_bytes(7);
    /// let hasher = FixedState::new();
    /// let rodeo = SpurRodeo::with_capacity_and_hasher(rt.alloc(), capacity, hasher)?;
    /// assert!(rt; rodeo.current_memory_usage() == 7);
    /// ```
    pub fn with_capacity_and_hasher(alloc: A, capacity: Capacity, hasher: S) -> LassoResult<Self>
        ensures texts { IfOk result (λ r. r.texts ≡ []) }
        ensures account { IfOk result (λ r. r.account ≡ fresh capacity.bytes (2 ^ 64 - 1)) }
        ensures made { IfOk result (IsMadeWith capacity.bytes 0) }
        ensures refused { IfErr result (λ error. error ≡ FailedAllocation) }
    {
        let limits = MemoryLimits::default();
        Rodeo::with_capacity_memory_limits_and_hasher(alloc, capacity, limits, hasher)
    }

    /// An interner with room for `capacity`, whose buckets take at most `limits`, and whose index asks the
    /// hasher. The limit may be less than the first bucket's bytes. The only error is `FailedAllocation`.
    ///
    /// ```rust
    /// let alloc = rt.alloc();
    /// let (room, limits) = (Capacity::for_bytes(10), MemoryLimits::new(15));
    /// let hasher = FixedState::new();
    /// let rodeo = SpurRodeo::with_capacity_memory_limits_and_hasher(alloc, room, limits, hasher)?;
    /// assert!(rt; rodeo.current_memory_usage() == 10);
    /// assert!(rt; rodeo.max_memory_usage() == 15);
    /// ```
    pub fn with_capacity_memory_limits_and_hasher(
        alloc: A,
        capacity: Capacity,
        limits: MemoryLimits,
        hasher: S,
    ) -> LassoResult<Self>
        ensures texts { IfOk result (λ r. r.texts ≡ []) }
        ensures account { IfOk result (λ r. r.account ≡ fresh capacity.bytes limits) }
        ensures made { IfOk result (IsMadeWith capacity.bytes 0) }
        ensures refused { IfErr result (λ error. error ≡ FailedAllocation) }
    {
        let list = TextList::new(alloc.clone()?, capacity, limits)?;
        let index = Index::with_capacity(alloc, capacity.strings())?;
        Ok(Rodeo {
            list,
            index,
            hasher,
        })
    }
}
