//! The cells of the list: how many are made, those that are made ahead of its length, and those that are kept for texts to come.
pub mod ahead;
pub mod kept;

use crate::log::shared_log::Log;
use lasso_parts::keys::Key;
use std::alloc::{AllocError, Global};

impl<K: Key> Log<K> {
    /// Makes the missing cells of the first `count` texts. Out of memory, the cells made by then stay.
    pub fn make_cells(&self, alloc: Global, count: u64) -> Result<(), AllocError> {
        self.memory.chunks.make_cells(alloc, count)
    }

    /// The number of cells made, from the first on. It takes no memory and does not wait.
    pub fn cells(&self) -> u64 {
        self.memory.chunks.cells()
    }
}
