//! The era of an interner: the time for which the bytes of its buckets are lent. Used by the shared arena, and by the
//! chunks, which own an interner's era until its end.
ghost use Rattle.std.specs.Prelude.{◌≡◌, ℕ};

use std::marker::{Model, PhantomData, Send, Sync};

/// The time for which bytes of an interner's buckets are lent. Its holder alone can end it. It has no bytes; a contract
/// sees its number.
pub struct Era {
    marker: PhantomData<()>,
    pub ghost id: { ℕ },
}

impl Model for Era {
    ghost use base.Fraction.{full_share};
    ghost use base.Fml.{flft};
    ghost use Rattle.lasso_log.specs.Eras.{life, lasts};

    ghost also_owns = { λ e. flft (life e.id) full_share };

    ghost also_shares = { λ e _ κ. lasts e.id κ };
}

unsafe impl Send for Era {}

unsafe impl Sync for Era {}

/// What shows that an era is over. It has no bytes.
pub struct Ended {
    marker: PhantomData<()>,
    pub ghost id: { ℕ },
}

impl Model for Ended {
    ghost use base.Fml.{fdead};
    ghost use denote.Sharing.{said};
    ghost use Rattle.lasso_log.specs.Eras.{life};

    ghost also_owns = { λ e. fdead (life e.id) };

    ghost also_shares = { λ e _ κ. said (fdead (life e.id)) κ };
}

impl Era {
    /// A new era.
    pub fn begin() -> Era {
        Era {
            marker: PhantomData,
        }
    }

    /// Ends it.
    pub fn end(self) -> Ended
        ensures { result.id ≡ self.id }
    {
        let Self { marker: _ } = self;
        Ended {
            marker: PhantomData,
        }
    }
}

impl Drop for Ended {
    fn drop(self) {
        let Self { marker: _ } = self;
    }
}
