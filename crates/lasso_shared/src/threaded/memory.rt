//! How many bytes of memory an interner that threads share takes.
ghost use Rattle.std.specs.Prelude.{◌≤◌, ℕ};
ghost use Rattle.lasso_log.specs.Calls.{IsPlainCall};
ghost use Rattle.lasso_log.specs.History.{IsOpening};
ghost use Rattle.lasso_log.specs.Replies.{Usage, Number};
ghost use Rattle.lasso_log.specs.Views.{InternerId};

use crate::threaded::ThreadedRodeo;
use lasso_parts::keys::Key;
use std::hash::BuildHasher;
use std::sync::Wait;

impl<K: Key, S: BuildHasher + Drop> ThreadedRodeo<K, S> {
    /// How many bytes the allocator gave for the list of texts, the indexes and the buckets, those of `current_memory_usage` at one
    /// step among them. The locks and the lists that name the buckets are not counted. Each shard is read in turn, so it counts what
    /// other threads take meanwhile or not. It takes no memory. It waits for the spine, and for those who write in each shard.
    ///
    /// ```rust
    /// let rodeo: SpurThreadedRodeo = ThreadedRodeo::default(rt.alloc())?;
    /// assert!(rt; rodeo.allocated_bytes(&rt) > rodeo.current_memory_usage(&rt));
    /// ```
    pub fn allocated_bytes<R: Wait>(&self, rt: &R) -> usize
        ensures enough { (n : ℕ) × IsPlainCall K.key_at self.now.opening Usage (Number n) × (n ≤ result) }
        ensures opening { IsOpening K.key_at self.now.opening }
    {
        self.current_memory_usage(rt)
            .saturating_add(self.shards.cell_bytes())
            .saturating_add(self.shards.index_bytes(rt))
    }
}
