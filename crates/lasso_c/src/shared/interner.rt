//! The interner that handles share, with the seed that its hashers begin with.
//!
//! As `seeded` has it of the interner of one thread: the seed is stored a second time, where contracts see it, and what makes an
//! interner or copies its texts is written for any type of seed, of which there is no other value than the one that is stored.
ghost use Rattle.std.specs.Prelude.{◌≡◌, [], IfOk, IfSome, Some, false};
ghost use Rattle.lasso_log.specs.History.{opened};
ghost use Rattle.lasso_log.specs.Views.{SnapshotView};
ghost use Rattle.lasso_single.specs.Copies.{clone_size, read_of};
ghost use Rattle.lasso_c.specs.Passes.{texts_of};

use crate::seeded::Interner;
use lasso_log::log::SeenList;
use lasso_parts::keys::Spur;
use lasso_parts::util::{Capacity, LassoResult, MemoryLimits};
use lasso_shared::threaded::ThreadedRodeo;
use std::alloc::Global;
use std::hash::BuildHasher;
use std::sync::Arc;

/// A count of an interner whose keys are codes, and what its hashers begin with.
#[derive(Drop)]
pub struct SharedInterner<S: BuildHasher + Drop> {
    pub(crate) rodeo: Arc<ThreadedRodeo<Spur, S>, Global>,
    // Contracts read it, and no code but a copy of the texts.
    pub(crate) seed: S,
    // Whether it interns no more.
    pub(crate) is_frozen: bool,
}

impl<S: BuildHasher + Copy + Drop> SharedInterner<S> {
    // An interner with room for `capacity`, whose buckets take at most `limit` bytes, and whose hashers begin with `seed`; or none out of
    // memory.
    pub(crate) fn new(
        alloc: Global,
        capacity: Capacity,
        limit: usize,
        seed: S,
    ) -> Option<SharedInterner<S>>
        ensures opening { IfSome result (λ made. made.rodeo.value.opening ≡ opened [] capacity.bytes 0 limit) }
        ensures seed { IfSome result (λ made. made.seed ≡ seed) }
        ensures frozen { IfSome result (λ made. made.is_frozen ≡ false) }
    {
        let limits = MemoryLimits::new(limit);
        let made = ThreadedRodeo::with_capacity_memory_limits_and_hasher(
            alloc, capacity, limits, seed,
        );
        let rodeo = Arc::new(alloc, made.ok()?).ok()?;
        Some(SharedInterner {
            rodeo,
            seed,
            is_frozen: false,
        })
    }

    // Another count of the interner, or none if there are too many.
    pub(crate) fn again(&self) -> Option<SharedInterner<S>>
        ensures rodeo { IfSome result (λ made. made.rodeo.value ≡ self.now.rodeo.value) }
        ensures seed { IfSome result (λ made. made.seed ≡ self.now.seed) }
        ensures frozen { IfSome result (λ made. made.is_frozen ≡ self.now.is_frozen) }
    {
        let rodeo = Arc::try_clone(&self.rodeo).ok()?;
        Some(SharedInterner {
            rodeo,
            seed: self.seed,
            is_frozen: self.is_frozen,
        })
    }

    // Whether no one else counts the interner.
    pub(crate) fn is_sole(&self) -> bool {
        Arc::strong_count(&self.rodeo) == 1
    }

    // An interner of one thread with the texts of the list under the same codes, in one bucket of just their bytes, with the same seed.
    pub(crate) fn copy(&self, alloc: Global, list: &SeenList<Spur>) -> LassoResult<Interner<S>>
        requires { list.now.of ≡ self.now.rodeo.value }
        ensures texts { IfOk result (λ made. made.rodeo.texts ≡ texts_of list.now) }
        ensures account { IfOk result (λ made. read_of (texts_of list.now) ≡ Some made.rodeo.account) }
        ensures first { IfOk result (λ made. made.rodeo.first ≡ clone_size (texts_of list.now)) }
        ensures seed { IfOk result (λ made. made.seed ≡ self.now.seed) }
    {
        let rodeo = self.rodeo.copy_list(alloc, list, self.seed)?;
        Ok(Interner::of(rodeo, self.seed))
    }
}
