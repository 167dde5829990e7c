//! The error of counting texts.
ghost use Rattle.std.specs.Prelude.{◌≡◌, ◌+◌, ◌^◌, ◌<◌, Some};
ghost use Rattle.lasso_columns.specs.Adding.{count_error_text};

use lasso_parts::util::LassoError;
use std::fmt;

/// A text was refused.
#[derive(Debug, Drop, PartialEq, Eq)]
pub struct CountError {
    /// Its position among the texts, from 0. The texts before it are counted.
    pub position: usize,
    /// Why it was refused.
    pub error: LassoError,
}

impl CountError {
    // This error with its position moved by `count` texts.
    pub(crate) fn after(self, count: usize) -> CountError
        requires { count + self.position < 2 ^ 64 }
        ensures position { result.position ≡ count + self.position }
        ensures error { result.error ≡ self.error }
    {
        CountError {
            position: count + self.position,
            error: self.error,
        }
    }
}

impl fmt::Display for CountError {
    ghost output = { λ error. Some (count_error_text error) };

    fn fmt<W: fmt::Write>(&self, f: &mut fmt::Formatter<W>) -> fmt::Result {
        write!(f, "text at position {}: {}", self.position, self.error)
    }
}
