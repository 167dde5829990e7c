//! An unbounded count of failed calls. It exists only in proofs and takes no memory.
ghost use Rattle.std.specs.Prelude.{◌≡◌, ℕ, ◌+◌};
ghost use base.Fml.{ftrue};

use std::marker::Model;

/// The number of failed calls of a reader or a writer, for proofs.
#[derive(Drop)]
pub struct Failures {
    pub ghost count: { ℕ },
}

impl Model for Failures {
    ghost also_owns = { λ _. ftrue };
}

impl Failures {
    /// A count of 0.
    pub fn none() -> Failures
        ensures { result.count ≡ 0 }
    {
        Failures {}
    }

    /// A count that is one higher.
    pub fn and_one(&self) -> Failures
        ensures { result.count ≡ self.now.count + 1 }
    {
        Failures {}
    }
}
