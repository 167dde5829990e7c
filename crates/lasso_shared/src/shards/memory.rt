//! How many bytes of memory the list of texts and the indexes take.
use crate::shards::Shards;
use crate::shards::tag::SHARDS;
use boxcar::slot::OnceSlot;
use lasso_log::chunks::Any;
use lasso_log::log::book::rule::StoredText;
use lasso_parts::keys::Key;
use std::hash::BuildHasher;
use std::mem::size_of;
use std::sync::Wait;

impl<K: Key, S: BuildHasher + Drop> Shards<K, S> {
    /// How many bytes the allocator gave for the cells of the texts. It takes no memory and does not wait.
    pub fn cell_bytes(&self) -> usize {
        let cells = self.log.cells() as usize;
        cells.saturating_mul(size_of::<OnceSlot<StoredText, Any>>())
    }

    /// How many bytes the allocator gave for the indexes of the shards, which are read one after another. It takes no memory. It
    /// waits for those who write in each shard.
    pub fn index_bytes<R: Wait>(&self, rt: &R) -> usize {
        let mut bytes: usize = 0;
        for number in 0..SHARDS {
            let guard = self.lock(number).read(rt);
            bytes = bytes.saturating_add(guard.get().shard.index.allocated_bytes());
            guard.unlock();
        }
        bytes
    }
}
