//! The memory that the texts of an interner are in. Used by the log and by its opening.
use crate::chunks::Chunks;
use crate::log::book::rule::StoredText;
use crate::shared_memory::holding::Holdings;
use lasso_lock::locks::TaggedMutex;
use std::marker::Model;

/// The chunks of an interner, and what is owned of its buckets. A contract sees the names of the chunks.
pub struct TextMemory {
    pub(super) chunks: Chunks<StoredText>,
    pub(super) holdings: TaggedMutex<Holdings>,
}

impl Model for TextMemory {
    ghost use Rattle.std.specs.Prelude.{◌≡◌, ℕ, List};
    ghost use base.Stored.{coded_list, coded_ℕ};
    ghost use Rattle.lasso_log.specs.Chunks.{era_named};

    ghost Value = { List ℕ };

    ghost coded = { coded_list coded_ℕ };

    ghost view = { λ m. m.chunks };

    ghost invariant = { λ m. m.holdings.id ≡ era_named m.chunks };
}

// Ends the era, so that nobody reads the buckets any more, and then frees each of them.
impl Drop for TextMemory {
    fn drop(self) {
        let TextMemory { chunks, holdings } = self;
        let kept = holdings.into_inner();
        let ended = chunks.end();
        if let Some(holdings) = kept {
            holdings.close(&ended);
        }
    }
}
