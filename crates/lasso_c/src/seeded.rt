//! The interner that a handle holds, with the seed that its hashers begin with.
//!
//! A `Rodeo` shows its hasher to no contract, so the seed is stored a second time, where contracts see it. The two are the same by
//! form: an `Interner` is generic in its seed, and what makes one, or clones one, is written for any type of seed. So the `Rodeo`
//! is made with the seed that is stored, as there is no other value of its type. Handles hold an `Interner<Seed>`.
ghost use Rattle.std.specs.Prelude.{◌≡◌, [], Some, IfOk};
ghost use Rattle.lasso_parts.specs.Account.{fresh};
ghost use Rattle.lasso_single.specs.Copies.{clone_of, clone_size};

use lasso_parts::keys::Spur;
use lasso_parts::util::{Capacity, LassoResult, MemoryLimits};
use lasso_single::rodeo::Rodeo;
use std::alloc::Global;
use std::hash::BuildHasher;

/// An interner whose keys are codes, and what its hashers begin with.
#[derive(Drop)]
pub struct Interner<S: BuildHasher> {
    pub(crate) rodeo: Rodeo<Spur, S, Global>,
    // Contracts read it, and no code but a clone.
    seed: S,
}

impl<S: BuildHasher + Copy> Interner<S> {
    // The interner that this `Rodeo` is, whose hashers begin with `seed`.
    pub(crate) fn of(rodeo: Rodeo<Spur, S, Global>, seed: S) -> Interner<S>
        ensures { (result.rodeo ≡ rodeo) × (result.seed ≡ seed) }
    {
        Interner { rodeo, seed }
    }

    // An interner with room for `capacity`, whose buckets take at most `limit` bytes, and whose hashers begin with `seed`.
    pub(crate) fn new(
        alloc: Global,
        capacity: Capacity,
        limit: usize,
        seed: S,
    ) -> LassoResult<Interner<S>>
        ensures texts { IfOk result (λ made. made.rodeo.texts ≡ []) }
        ensures account { IfOk result (λ made. made.rodeo.account ≡ fresh capacity.bytes limit) }
        ensures first { IfOk result (λ made. made.rodeo.first ≡ capacity.bytes) }
        ensures seed { IfOk result (λ made. made.seed ≡ seed) }
    {
        let limits = MemoryLimits::new(limit);
        let rodeo = Rodeo::with_capacity_memory_limits_and_hasher(alloc, capacity, limits, seed)?;
        Ok(Interner::of(rodeo, seed))
    }

    // An interner with the same texts under the same codes, in one bucket of just their bytes, with the same seed.
    pub(crate) fn try_clone(&self) -> LassoResult<Interner<S>>
        ensures texts { IfOk result (λ made. made.rodeo.texts ≡ self.now.rodeo.texts) }
        ensures account { IfOk result (λ made. clone_of self.now.rodeo.texts self.now.rodeo.account.limit ≡ Some made.rodeo.account) }
        ensures first { IfOk result (λ made. made.rodeo.first ≡ clone_size self.now.rodeo.texts) }
        ensures seed { IfOk result (λ made. made.seed ≡ self.now.seed) }
    {
        let rodeo = self.rodeo.try_clone()?;
        Ok(Interner::of(rodeo, self.seed))
    }
}
