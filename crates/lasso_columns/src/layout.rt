//! Texts as a buffer of bytes and a buffer of offsets, like Arrow's arrays of strings.
ghost use Rattle.std.specs.Prelude.{◌≡◌, None, Some, MatchResult};
ghost use Rattle.std.specs.List.{slice_range};
ghost use Rattle.lasso_columns.specs.Layout.{start_fault, text_fault};

use crate::faults::ReadError;
use std::str::from_utf8;

/// Texts as `write_dictionary` returns them: text n is the bytes from offset n to offset n + 1. There is one
/// more offset than texts, and the first offset is 0.
#[derive(Drop)]
pub struct Layout<O> {
    /// The bytes of the texts, one text after another.
    pub bytes: Vec<u8>,
    /// Where each text begins, followed by where the last one ends.
    pub offsets: Vec<O>,
}

// Checks the offset where the first text begins.
pub(crate) fn check_start(bytes: &[u8], from: usize, most: usize) -> Result<(), ReadError>
    ensures { MatchResult result (λ _. start_fault most bytes.now from ≡ None) (λ error. start_fault most bytes.now from ≡ Some error) }
{
    if from > bytes.len().min(most) {
        return Err(ReadError::OffsetPastBytes(0));
    }
    Ok(())
}

// Returns the text of number `at`, which is the bytes `from..to`. Offsets may be at most `most`.
pub(crate) fn text_between(
    bytes: &[u8],
    at: usize,
    from: usize,
    to: usize,
    most: usize,
) -> Result<&str, ReadError>
    ensures { MatchResult result (λ text. (text.now ≡ slice_range bytes.now from to) × (text_fault most bytes.now at from to ≡ None))
        (λ error. text_fault most bytes.now at from to ≡ Some error) }
{
    if to < from {
        return Err(ReadError::OffsetsFall(at));
    }
    if to > bytes.len().min(most) {
        return Err(ReadError::OffsetPastBytes(at));
    }
    match from_utf8(&bytes[from..to]) {
        Ok(text) => Ok(text),
        Err(_) => Err(ReadError::NotText(at)),
    }
}
