//! A cell of the list that is kept for a text to come. Used by the spine, and by whoever interns a text.
ghost use Rattle.std.specs.Prelude.{◌≡◌};
ghost use Rattle.lasso_log.specs.Views.{InternerId};

use crate::log::snapshot::Snapshot;
use lasso_parts::keys::Key;
use std::marker::Model;

/// A cell that `Log::reserve_next` or `Log::reserve_ahead` kept. It ends by `Log::append` or by
/// `Spine::give_back`, and by nothing else. It has no bytes. A contract sees which interner it is of.
pub struct KeptCell<K: Key> {
    known: Snapshot<K>,
}

impl<K: Key> Model for KeptCell<K> {
    ghost use Rattle.lasso_log.specs.Views.{InternerId, interner_id_coded};

    ghost Value = { InternerId };

    ghost coded = { interner_id_coded };

    ghost view = { λ s. s.known.of };
}

impl<K: Key> KeptCell<K> {
    // A cell of the interner whose history that is.
    pub(crate) fn new(known: Snapshot<K>) -> KeptCell<K>
        ensures { result ≡ known.of }
    {
        KeptCell { known }
    }

    // Ends the cell; the caller lowers the spine's count of kept cells.
    pub(crate) fn end(self) {
        let KeptCell { known } = self;
        drop(known);
    }
}
