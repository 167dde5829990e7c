//! The makers of an interner that threads share: by default or given capacity, limit and hasher.
ghost use Rattle.std.specs.Prelude.{◌≡◌, ◌-◌, ◌^◌, [], IfOk, IfErr};
ghost use Rattle.lasso_parts.specs.declared.util.LassoErrorKind.TheVariants.{FailedAllocation};
ghost use Rattle.lasso_log.specs.History.{opened};
ghost use Rattle.lasso_log.specs.Views.{InternerId};

use crate::shards::Shards;
use crate::threaded::ThreadedRodeo;
use lasso_log::log::Opened;
use lasso_parts::keys::{Key, Spur};
use lasso_parts::util::{Capacity, FixedState, LassoResult, MemoryLimits};
use std::alloc::Global;
use std::hash::BuildHasher;

impl ThreadedRodeo<Spur, FixedState> {
    /// An interner with `Spur` keys, of default capacity (50 texts, 4096 bytes) and with no limit below the
    /// greatest number. It fails only out of memory (`FailedAllocation`).
    pub fn default(alloc: Global) -> LassoResult<Self>
        ensures opening { IfOk result (λ t. t.opening ≡ opened [] 4096 0 (2 ^ 64 - 1)) }
        ensures refused { IfErr result (λ error. error ≡ FailedAllocation) }
    {
        ThreadedRodeo::new(alloc)
    }
}

impl<K: Key> ThreadedRodeo<K, FixedState> {
    /// An interner of default capacity and limit. It fails only out of memory (`FailedAllocation`).
    ///
    /// ```rust
    /// let rodeo: ThreadedRodeo<MicroSpur, FixedState> = ThreadedRodeo::new(rt.alloc())?;
    /// let key = rodeo.try_get_or_intern(&rt, "Hello, world!")?;
    /// assert!(rt; key.into_usize() == 0);
    /// ```
    pub fn new(alloc: Global) -> LassoResult<Self>
        ensures opening { IfOk result (λ t. t.opening ≡ opened [] 4096 0 (2 ^ 64 - 1)) }
        ensures refused { IfErr result (λ error. error ≡ FailedAllocation) }
    {
        ThreadedRodeo::with_hasher(alloc, FixedState::new())
    }

    /// An interner of default limit, whose first bucket has the bytes of `capacity`. Its texts are a hint:
    /// the log has cells for them, and if they are many, the shards' indexes have room for them. It fails only
    /// out of memory (`FailedAllocation`).
    ///
    /// ```rust
    /// let capacity = Capacity::new(1000, 65536);
    /// let rodeo: SpurThreadedRodeo = ThreadedRodeo::with_capacity(rt.alloc(), capacity)?;
    /// assert!(rt; rodeo.current_memory_usage(&rt) == 65536);
    /// assert!(rt; rodeo.capacity() >= 1000);
    /// ```
    pub fn with_capacity(alloc: Global, capacity: Capacity) -> LassoResult<Self>
        ensures opening { IfOk result (λ t. t.opening ≡ opened [] capacity.bytes 0 (2 ^ 64 - 1)) }
        ensures refused { IfErr result (λ error. error ≡ FailedAllocation) }
    {
        ThreadedRodeo::with_capacity_and_hasher(alloc, capacity, FixedState::new())
    }

    /// An interner of default capacity, whose buckets take at most `limits` in bytes. The limit may be below
    /// the 4096 bytes of the first bucket. It fails only out of memory (`FailedAllocation`).
    ///
    /// ```rust
    /// let limits = MemoryLimits::new(10000);
    /// let rodeo: SpurThreadedRodeo = ThreadedRodeo::with_memory_limits(rt.alloc(), limits)?;
    /// assert!(rt; rodeo.max_memory_usage(&rt) == 10000);
    /// assert!(rt; rodeo.current_memory_usage(&rt) == 4096);
    /// ```
    pub fn with_memory_limits(alloc: Global, limits: MemoryLimits) -> LassoResult<Self>
        ensures opening { IfOk result (λ t. t.opening ≡ opened [] 4096 0 limits) }
        ensures refused { IfErr result (λ error. error ≡ FailedAllocation) }
    {
        ThreadedRodeo::with_capacity_and_memory_limits(alloc, Capacity::default(), limits)
    }

    /// An interner whose first bucket has the bytes of `capacity`, and whose buckets take at most `limits` in
    /// bytes. The limit may be below the first bucket's bytes. The texts of `capacity` are a hint, as
    /// `with_capacity` has it. It fails only out of memory (`FailedAllocation`).
    ///
    /// ```rust
    /// let capacity = Capacity::new(50, 100);
    /// let limits = MemoryLimits::new(10000);
    /// let made = ThreadedRodeo::with_capacity_and_memory_limits(rt.alloc(), capacity, limits);
    /// let rodeo: SpurThreadedRodeo = made?;
    /// assert!(rt; rodeo.current_memory_usage(&rt) == 100);
    /// assert!(rt; rodeo.max_memory_usage(&rt) == 10000);
    /// ```
    pub fn with_capacity_and_memory_limits(
        alloc: Global,
        capacity: Capacity,
        limits: MemoryLimits,
    ) -> LassoResult<Self>
        ensures opening { IfOk result (λ t. t.opening ≡ opened [] capacity.bytes 0 limits) }
        ensures refused { IfErr result (λ error. error ≡ FailedAllocation) }
    {
        let hasher = FixedState::new();
        ThreadedRodeo::with_capacity_memory_limits_and_hasher(alloc, capacity, limits, hasher)
    }
}

impl<K: Key, S: BuildHasher + Drop> ThreadedRodeo<K, S> {
    /// An interner of default capacity and limit, whose indexes ask the hasher. It fails only out of memory
    /// (`FailedAllocation`).
    ///
    /// ```rust
    /// let hasher = FixedState::new();
    /// let rodeo: SpurThreadedRodeo = ThreadedRodeo::with_hasher(rt.alloc(), hasher)?;
    /// let mut pass = rodeo.pass();
    /// assert!(rt; rodeo.try_resolve_as(&mut pass, Spur::default()) == None);
    /// ```
    pub fn with_hasher(alloc: Global, hasher: S) -> LassoResult<Self>
        ensures opening { IfOk result (λ t. t.opening ≡ opened [] 4096 0 (2 ^ 64 - 1)) }
        ensures refused { IfErr result (λ error. error ≡ FailedAllocation) }
    {
        ThreadedRodeo::with_capacity_and_hasher(alloc, Capacity::default(), hasher)
    }

    /// An interner of default limit, whose indexes ask the hasher, and whose first bucket has the bytes of
    /// `capacity`. The texts of `capacity` are a hint, as `with_capacity` has it. It fails only out of memory
    /// (`FailedAllocation`).
    ///
    /// ```rust
    /// let capacity = Capacity::for_bytes(7);
    /// let hasher = FixedState::new();
    /// let made = ThreadedRodeo::with_capacity_and_hasher(rt.alloc(), capacity, hasher);
    /// let rodeo: SpurThreadedRodeo = made?;
    /// assert!(rt; rodeo.current_memory_usage(&rt) == 7);
    /// ```
    pub fn with_capacity_and_hasher(
        alloc: Global,
        capacity: Capacity,
        hasher: S,
    ) -> LassoResult<Self>
        ensures opening { IfOk result (λ t. t.opening ≡ opened [] capacity.bytes 0 (2 ^ 64 - 1)) }
        ensures refused { IfErr result (λ error. error ≡ FailedAllocation) }
    {
        let limits = MemoryLimits::default();
        ThreadedRodeo::with_capacity_memory_limits_and_hasher(alloc, capacity, limits, hasher)
    }

    /// An interner whose first bucket has the bytes of `capacity`, whose buckets take at most `limits` in
    /// bytes, and whose indexes ask the hasher. The limit may be below the first bucket's bytes. The texts
    /// of `capacity` are a hint, as `with_capacity` has it. It fails only out of memory (`FailedAllocation`).
    ///
    /// ```rust
    /// let rodeo: SpurThreadedRodeo = ThreadedRodeo::with_capacity_memory_limits_and_hasher(
    ///     rt.alloc(),
    ///     Capacity::for_bytes(10),
    ///     MemoryLimits::new(15),
    ///     FixedState::new(),
    /// )?;
    /// assert!(rt; rodeo.current_memory_usage(&rt) == 10);
    /// assert!(rt; rodeo.max_memory_usage(&rt) == 15);
    /// ```
    pub fn with_capacity_memory_limits_and_hasher(
        alloc: Global,
        capacity: Capacity,
        limits: MemoryLimits,
        hasher: S,
    ) -> LassoResult<Self>
        ensures opening { IfOk result (λ t. t.opening ≡ opened [] capacity.bytes 0 limits) }
        ensures refused { IfErr result (λ error. error ≡ FailedAllocation) }
    {
        let first = Opened {
            size: capacity.bytes() as u64,
            limit: limits.max_memory_usage() as u64,
        };
        let shards = Shards::open_for(alloc, hasher, first, capacity.strings())?;
        shards.log.make_cells(alloc, capacity.strings() as u64)?;
        Ok(ThreadedRodeo { shards })
    }
}
