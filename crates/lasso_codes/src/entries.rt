//! Reads the entries of a column.
ghost use Rattle.std.specs.Prelude.{◌≡◌, ◌+◌, ◌≤◌, ◌++◌, ℕ, List, true, Some, Ok, Err, IfOk, IfErr, IfSome, OnErr, MatchResult, drop, length};
ghost use Rattle.lasso_columns.specs.Rows.{word_of};
ghost use Rattle.lasso_codes.specs.Decode.{line_at};
ghost use Rattle.lasso_codes.specs.Reading.{cut_entry, cut_number, entry_in, number_entry, LosesEntry, TakesEntry};
ghost use Rattle.lasso_codes.specs.Errors.{failed_reads, IsReadError};

use crate::error::{ColumnError, RunError};
use crate::input::{Cut, next_whole_line};
use crate::line_table::LineTable;
use crate::streams::Input;
use lasso_columns::NULL;
use lasso_input::{find_newline, parse_digits};
use std::io::Read;

/// An entry of a column, as it is read.
#[derive(Clone, Copy, Debug, PartialEq, Eq)]
pub enum Entry {
    /// The input ends before the entry does.
    Missing,
    /// A line that is neither a number nor a minus sign.
    Bad,
    /// A null.
    Null,
    /// The code of a text.
    Code(usize),
}

/// Reads the next entry. `line` is a buffer for its bytes.
///
/// # Errors
/// The reader failed, or out of memory.
pub fn next_entry<R: Read + Drop>(
    input: &mut Input<R>,
    line: &mut Vec<u8>,
    binary: bool,
) -> Result<Entry, RunError>
    ensures taken { IfOk result (TakesEntry binary input.old.left input.new.left) }
    ensures lost { OnErr result (LosesEntry binary input.old.left input.new.left) }
    ensures errors { IfErr result (IsReadError 0) }
    ensures reads { input.new.failures ≡ input.old.failures + failed_reads result }
{
    if binary {
        return next_number(input);
    }
    match next_whole_line(input, line)? {
        Cut::Whole => Ok(entry_in(line)),
        Cut::Part | Cut::End => Ok(Entry::Missing),
    }
}

// Reads an entry of four bytes.
fn next_number<R: Read + Drop>(input: &mut Input<R>) -> Result<Entry, RunError>
    ensures taken { IfOk result (TakesEntry true input.old.left input.new.left) }
    ensures lost { OnErr result (LosesEntry true input.old.left input.new.left) }
    ensures errors { IfErr result (IsReadError 0) }
    ensures reads { input.new.failures ≡ input.old.failures + failed_reads result }
{
    let Some(first) = input.next_byte()? else {
        return Ok(Entry::Missing);
    };
    let Some(second) = input.next_byte()? else {
        return Ok(Entry::Missing);
    };
    let Some(third) = input.next_byte()? else {
        return Ok(Entry::Missing);
    };
    let Some(fourth) = input.next_byte()? else {
        return Ok(Entry::Missing);
    };
    let number = u32::from_le_bytes([first, second, third, fourth]);
    Ok(number_entry(number))
}

/// The first entry of the stretch, and its length. `None` if the stretch ends before the entry does.
#[inline]
pub fn first_entry(stretch: &[u8], binary: bool) -> Option<(Entry, usize)>
    ensures cut { IfSome result (λ first. (later : List ℕ) → cut_entry binary (stretch.now ++ later) ≡ (first.0, drop first.1 stretch.now ++ later)) }
    ensures within { IfSome result (λ first. first.1 ≤ length stretch.now) }
{
    if binary {
        return first_number(stretch);
    }
    match find_newline(stretch) {
        Some(len) => Some((entry_in(&stretch[..len]), len + 1)),
        None => None,
    }
}

// The first entry of four bytes, and its length. `None` if the stretch ends before the entry does.
#[inline]
fn first_number(stretch: &[u8]) -> Option<(Entry, usize)>
    ensures cut { IfSome result (λ first. (later : List ℕ) → cut_number (stretch.now ++ later) ≡ (first.0, drop first.1 stretch.now ++ later)) }
    ensures within { IfSome result (λ first. first.1 ≤ length stretch.now) }
{
    if stretch.len() < 4 {
        return None;
    }
    let number = u32::from_le_bytes([stretch[0], stretch[1], stretch[2], stretch[3]]);
    Some((number_entry(number), 4))
}

// The entry with this number.
fn number_entry(number: u32) -> Entry
    ensures { result ≡ number_entry number }
{
    if number == NULL {
        Entry::Null
    } else {
        Entry::Code(number as usize)
    }
}

// Parses a line as an entry.
fn entry_in(line: &[u8]) -> Entry
    ensures { result ≡ entry_in line.now }
{
    if line == b"-".as_slice() {
        return Entry::Null;
    }
    match parse_digits(line) {
        Some(code) => Entry::Code(code),
        None => Entry::Bad,
    }
}

/// The line of the entry with this number: that of its code, or `null` for a null.
///
/// # Errors
/// The entry is missing, is not a code, or its code is past the texts. Or it is a null, and `null` is `None`.
#[inline(always)]
pub fn line_at<'a>(
    table: &'a LineTable<'_>,
    null: Option<&'a [u8]>,
    entry: Entry,
    number: usize,
) -> Result<&'a [u8], ColumnError>
    ensures { MatchResult result
        (λ line. line_at (word_of null.entry) table.now entry number ≡ Ok line.now)
        (λ error. line_at (word_of null.entry) table.now entry number ≡ Err error) }
{
    match entry {
        Entry::Missing => Err(ColumnError::NoEntry(number)),
        Entry::Bad => Err(ColumnError::NotEntry(number)),
        Entry::Null => match null {
            Some(word) => Ok(word),
            None => Err(ColumnError::IsNull(number)),
        },
        Entry::Code(code) => {
            if code >= table.len() {
                return Err(ColumnError::PastTexts(number));
            }
            Ok(table.at(code))
        }
    }
}
