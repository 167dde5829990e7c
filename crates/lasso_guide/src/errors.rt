//! An error type for calls that intern and calls that allocate.
ghost use Rattle.std.specs.Prelude.{◌≡◌, ◌∷◌, ◌++◌, [], Some, IfOk, OnErr, OnOk, slice_get};
ghost use Rattle.lasso_guide.specs.declared.errors.DeclareError.TheVariants.{OutOfMemory, Refused};

use lasso::{FixedState, Key, LassoError, Rodeo};
use std::alloc::{AllocFailed, Global};

/// Why a name was not declared.
#[derive(Debug, Drop)]
pub enum DeclareError {
    /// The interner refused the name.
    Refused(LassoError),
    /// Out of memory for its value.
    OutOfMemory,
}

impl From<LassoError> for DeclareError {
    ghost from_gives = { λ refusal error. error ≡ Refused refusal };

    fn from(refusal: LassoError) -> Self {
        DeclareError::Refused(refusal)
    }
}

impl<T: Drop> From<AllocFailed<T>> for DeclareError {
    ghost from_gives = { λ _ error. error ≡ OutOfMemory };

    fn from(_: AllocFailed<T>) -> Self {
        DeclareError::OutOfMemory
    }
}

/// Interns the name and appends its value. After an error no value was appended; the name may be interned.
pub fn declare<K: Key>(
    names: &mut Rodeo<K, FixedState, Global>,
    values: &mut Vec<u64>,
    name: &str,
    value: u64,
) -> Result<K, DeclareError>
    ensures named { IfOk result (λ key. slice_get names.new.texts (K.number key) ≡ Some name.now) }
    ensures appended { OnOk result (values.new.items ≡ values.old.items ++ value ∷ []) }
    ensures kept { OnErr result (values.new.items ≡ values.old.items) }
{
    let key = names.try_get_or_intern(name)?;
    values.push(value)?;
    Ok(key)
}
