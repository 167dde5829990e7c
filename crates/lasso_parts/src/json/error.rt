//! What is wrong with a JSON value, or why none could be made.
ghost use Rattle.std.specs.Prelude.{◌≡◌, Some};
ghost use Rattle.lasso_parts.specs.declared.util.LassoErrorKind.TheVariants.{FailedAllocation};
ghost use Rattle.lasso_parts.specs.JsonErrors.{json_error_text};
ghost use Rattle.lasso_parts.specs.declared.json.error.JsonError.TheVariants.{Lasso};

use crate::util::{LassoError, LassoErrorKind};
use std::alloc::{AllocError, AllocFailed};
use std::error::Error;
use std::fmt;

/// Why a JSON value was not read, or not written. `at` counts items or members from 0.
///
/// ```rust
/// let damaged = Value::from_str(rt.alloc(), r#"["b", "a", "b"]"#)?;
/// let fault = SpurRodeo::deserialize(rt.alloc(), &damaged).err();
/// assert!(rt; fault == Some(JsonError::Doubled(2)));
/// ```
#[derive(Clone, Copy, Debug, PartialEq, Eq, Hash)]
pub enum JsonError {
    /// The value is no array.
    NotAnArray,
    /// The item is no text.
    NotText(usize),
    /// The item is a text that an earlier item has.
    Doubled(usize),
    /// The key type has no key for the item's position.
    TooMany(usize),
    /// The value is no object.
    NotAnObject,
    /// The member is no whole number from 1 to the count of members.
    NotAPosition(usize),
    /// The member is the position of an earlier member.
    Taken(usize),
    /// Out of memory: the kind is always `FailedAllocation`.
    Lasso(LassoErrorKind),
    /// The value is no whole number from 1 to the greatest that the key type keeps.
    NotAKey,
}

impl fmt::Display for JsonError {
    ghost output = { λ error. Some (json_error_text error) };

    fn fmt<W: fmt::Write>(&self, f: &mut fmt::Formatter<W>) -> fmt::Result {
        match self {
            JsonError::NotAnArray => f.write_str("The value is not an array"),
            JsonError::NotText(at) => write!(f, "item {at} is not a text"),
            JsonError::Doubled(at) => write!(f, "item {at} is the text of an earlier item"),
            JsonError::TooMany(at) => write!(f, "item {at} has a position without a key"),
            JsonError::NotAnObject => f.write_str("The value is not an object"),
            JsonError::NotAPosition(at) => write!(f, "item {at} is not a position"),
            JsonError::Taken(at) => write!(f, "item {at} is the position of an earlier item"),
            JsonError::Lasso(kind) => write!(f, "Lasso encountered an error: {kind}"),
            JsonError::NotAKey => f.write_str("The value is not a key"),
        }
    }
}

impl Error for JsonError {}

impl From<LassoError> for JsonError {
    ghost from_gives = { λ kind error. error ≡ Lasso kind };

    fn from(refusal: LassoError) -> Self {
        JsonError::Lasso(refusal.kind())
    }
}

impl From<AllocError> for JsonError {
    ghost from_gives = { λ _ error. error ≡ Lasso FailedAllocation };

    fn from(_: AllocError) -> Self {
        JsonError::Lasso(LassoErrorKind::FailedAllocation)
    }
}

impl<T: Drop> From<AllocFailed<T>> for JsonError {
    ghost from_gives = { λ _ error. error ≡ Lasso FailedAllocation };

    fn from(_: AllocFailed<T>) -> Self {
        JsonError::Lasso(LassoErrorKind::FailedAllocation)
    }
}
