//! The memory of a list of texts.
ghost use Rattle.std.specs.Prelude.{◌≤◌};
ghost use Rattle.lasso_single.specs.Interner.{HaveEntriesOf};

use super::TextList;
use lasso_parts::arena::Arena;
use lasso_parts::entries::Entry;
use lasso_parts::entries::long::LongText;
use lasso_parts::memory::list_bytes;
use std::alloc::Allocator;
use std::mem::size_of;

impl<A: Allocator> TextList<A> {
    /// How many bytes the allocator gave for the entries, the list of long texts and the buckets.
    pub(crate) fn allocated_bytes(&self) -> usize
        ensures usage { self.now.account.usage ≤ result }
        ensures entries { HaveEntriesOf self.now.texts result }
    {
        self.arena
            .allocated_bytes()
            .saturating_add(list_bytes(&self.entries, size_of::<Entry>()))
            .saturating_add(list_bytes(&self.vast, size_of::<LongText>()))
    }

    /// The arena that holds the copied texts.
    pub(crate) fn arena(&self) -> &Arena<A> {
        &self.arena
    }
}
