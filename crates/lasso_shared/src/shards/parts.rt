//! What is left of an interner that nobody else has, once its locks are let go.
ghost use Rattle.std.specs.Prelude.{◌≡◌};
ghost use Rattle.lasso_log.specs.Views.{InternerId};

use crate::shards::Shards;
use lasso_log::log::Log;
use lasso_parts::keys::Key;
use std::alloc::Global;
use std::hash::BuildHasher;

/// The log of an interner, with the memory that its texts are in, and its hasher and allocator.
#[derive(Drop)]
pub struct Parts<K: Key, S: BuildHasher + Drop> {
    pub log: Log<K>,
    pub hasher: S,
    pub alloc: Global,
}

impl<K: Key, S: BuildHasher + Drop> Shards<K, S> {
    /// The log, the hasher and the allocator. The indexes, the spine, the locks and the list of buckets are let go; the memory of the
    /// buckets stays, as it is the log's. It takes no memory and does not wait.
    pub fn into_parts(self) -> Parts<K, S>
        ensures log { result.log ≡ self.log }
        ensures hasher { result.hasher ≡ self.hasher }
    {
        let Shards {
            log,
            hasher,
            shards: _,
            padding_before: _,
            spine: _,
            padding_after: _,
            buckets: _,
            alloc,
        } = self;
        Parts { log, hasher, alloc }
    }
}
