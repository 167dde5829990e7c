//! Encodes lines as rows of a column: each is a text or a null.
ghost use Rattle.std.specs.Prelude.{◌≡◌, ℕ, ◌≤◌, ◌∷◌, ◌++◌, [], Ok, OnOk, IfErr, MatchResult, IsUtf8, vec_capacity, vec_len};
ghost use Rattle.lasso_parts.specs.declared.util.LassoErrorKind.TheVariants.{FailedAllocation};
ghost use Rattle.lasso_columns.specs.Rows.{is_null, word_of, EncodesRows, IsRefusedRow, IsRow, IsRowFault, StopsAtRow};
ghost use Rattle.lasso_input.specs.Lines.{lines_of};

use crate::faults::LineError;
use lasso_input::{Line, Stretch};
use lasso_parts::keys::Spur;
use lasso_parts::util::LassoResult;
use lasso_single::batch::Batch;
use lasso_single::coding::encode_next;
use lasso_single::rodeo::Rodeo;
use std::alloc::Allocator;
use std::hash::BuildHasher;

/// The entry of a null. It is never a code.
pub const NULL: u32 = 4_294_967_295;

/// Whether the line is a null: it is equal to the word.
#[inline(always)]
pub fn is_null(null: Option<&[u8]>, line: &[u8]) -> bool
    ensures { result ≡ is_null (word_of null.entry) line.now }
{
    match null {
        Some(word) => word == line,
        None => false,
    }
}

/// Encodes the lines of the bytes, as `encode_lines` does, and appends an entry for each: its code. A line that
/// equals `null` is a null: it is not interned, and its entry is `NULL`.
///
/// Stops at the first line that is refused or is not UTF-8. The error has the line's number, counted from 1.
/// The lines before it are interned and have their entries. Out of memory (`FailedAllocation`) occurs only if
/// `entries` is full and can't grow, or for an absent text that neither the keys nor the limit refuse.
///
/// ```rust
/// let mut rodeo: SpurRodeo = Rodeo::default(rt.alloc())?;
/// let mut entries = Vec::new(rt.alloc());
/// encode_rows(&mut rodeo, b"to\n-\nbe\nto\n", Some(b"-"), &mut entries)?;
/// assert!(rt; entries.as_slice() == [0, NULL, 1, 0].as_slice());
/// ```
pub fn encode_rows<S: BuildHasher, A: Allocator + Clone>(
    rodeo: &mut Rodeo<Spur, S, A>,
    bytes: &[u8],
    null: Option<&[u8]>,
    entries: &mut Vec<u32>,
) -> Result<(), LineError>
    ensures rows { OnOk result (EncodesRows (word_of null.entry) rodeo.old (lines_of bytes.now) [] entries.old.items rodeo.new entries.new.items) }
    ensures stops { IfErr result (StopsAtRow (word_of null.entry) rodeo.old (lines_of bytes.now) entries.old.items rodeo.new entries.new) }
{
    let mut batch = Batch::new();
    let mut lines = Stretch::new(bytes);
    let mut number = 0;
    lines.look_ahead(rodeo, &mut batch);
    while let Some(line) = lines.next_line() {
        number += 1;
        encode_row(rodeo, &line, null, &mut batch, number, entries)?;
        lines.look_ahead(rodeo, &mut batch);
    }
    Ok(())
}

// Appends the entry of the line of this number, the next text of `batch`. Interns the line, unless it is a
// null. An error changes nothing else.
fn encode_row<S: BuildHasher, A: Allocator + Clone>(
    rodeo: &mut Rodeo<Spur, S, A>,
    line: &Line<'_>,
    null: Option<&[u8]>,
    batch: &mut Batch,
    number: usize,
    entries: &mut Vec<u32>,
) -> Result<(), LineError>
    ensures { MatchResult result
        (λ _. IsUtf8 line.now × ((entry : ℕ) × IsRow (word_of null.entry) rodeo.old line.now rodeo.new entry × (entries.new.items ≡ entries.old.items ++ entry ∷ [])))
        (λ error. (rodeo.new ≡ rodeo.old) × (entries.new.items ≡ entries.old.items) × IsRowFault (word_of null.entry) rodeo.old entries.new line.now number error) }
{
    let Ok(text) = line.text() else {
        return Err(LineError::NotText(number));
    };
    match append_row(rodeo, text, null, batch, entries) {
        Ok(()) => Ok(()),
        Err(error) => Err(LineError::Refused(number, error)),
    }
}

// Appends the entry of the text, the next of `batch`. Interns the text, unless it is a null. A refusal changes
// nothing else.
#[inline(always)]
fn append_row<S: BuildHasher, A: Allocator + Clone>(
    rodeo: &mut Rodeo<Spur, S, A>,
    text: &str,
    null: Option<&[u8]>,
    batch: &mut Batch,
    entries: &mut Vec<u32>,
) -> LassoResult<()>
    ensures { MatchResult result
        (λ _. (entry : ℕ) × IsRow (word_of null.entry) rodeo.old text.now rodeo.new entry × (entries.new.items ≡ entries.old.items ++ entry ∷ []))
        (λ error. (rodeo.new ≡ rodeo.old) × (entries.new.items ≡ entries.old.items)
        × IsRefusedRow (is_null (word_of null.entry) text.now) rodeo.old entries.new text.now error) }
{
    if is_null(null, text.as_bytes()) {
        batch.skip();
        return push_null(entries);
    }
    encode_next(rodeo, text, batch, entries)
}

// Appends the entry of a null.
#[inline(always)]
fn push_null(entries: &mut Vec<u32>) -> LassoResult<()>
    ensures { MatchResult result
        (λ _. entries.new.items ≡ entries.old.items ++ 4294967295 ∷ [])
        (λ error. (error ≡ FailedAllocation) × (entries.new.items ≡ entries.old.items) × (vec_capacity entries.new ≤ vec_len entries.new)) }
{
    entries.reserve(1)?;
    entries.push(NULL)?;
    Ok(())
}
