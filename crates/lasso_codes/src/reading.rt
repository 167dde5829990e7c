//! Reads the header and the dictionary of a column.
ghost use Rattle.std.specs.Prelude.{◌≡◌, ◌+◌, ◌≤◌, [], IfOk, IfErr, OnOk, MatchResult, length};
ghost use Rattle.lasso_single.specs.Interner.{InternerView};
ghost use Rattle.lasso_columns.specs.Rows.{word_of};
ghost use Rattle.lasso_codes.specs.Limits.{IfNew, InternsOwn};
ghost use Rattle.lasso_codes.specs.Stages.{ReadsOn, StopsReading};
ghost use Rattle.lasso_codes.specs.Streams.{IfKnown};
ghost use Rattle.lasso_codes.specs.Reading.{after_front, header_in, header_of, header_with, AddError, AddsText, HeaderError, TakesHeader, TakesTexts, TextsError};
ghost use Rattle.lasso_codes.specs.Errors.{failed_reads, IsDataError, IsInputError};

use crate::columns::{BINARY_HEADER, TEXT_HEADER};
use crate::error::{ColumnError, RunError};
use crate::input::{Cut, next_whole_line};
use crate::lines::{TextRule, Walk, intern_line, taken};
use crate::streams::Input;
use lasso_columns::{LineError, SpurRodeo};
use lasso_input::{Line, Stretch, parse_digits};
use memchr::memchr;
use std::io::Read;

/// The header line of a column.
#[derive(Clone, Copy, Debug, PartialEq, Eq)]
pub struct Header {
    /// Whether an entry is four bytes, rather than a line.
    pub binary: bool,
    /// The number of texts in the dictionary.
    pub distinct: usize,
    /// The number of entries.
    pub lines: usize,
}

/// Reads the header of the column with this number. `None` at the end of the input. `line` is a buffer for
/// its bytes.
///
/// # Errors
/// The reader failed, out of memory, or the input does not go on with a header.
pub fn next_header<R: Read + Drop>(
    input: &mut Input<R>,
    line: &mut Vec<u8>,
    column: usize,
) -> Result<Option<Header>, RunError>
    ensures taken { IfOk result (TakesHeader input.old.left input.new.left) }
    ensures error { IfErr result (HeaderError input.old.left input.new.left column) }
    ensures reads { input.new.failures ≡ input.old.failures + failed_reads result }
{
    match next_whole_line(input, line)? {
        Cut::Whole => match header_of(line) {
            Some(header) => Ok(Some(header)),
            None => Err(RunError::Column(column, ColumnError::NoHeader)),
        },
        Cut::Part => Err(RunError::Column(column, ColumnError::NoHeader)),
        Cut::End => Ok(None),
    }
}

/// Reads the dictionary of the column with this number into the interner, which must be empty. `line` is a
/// buffer for the bytes of a text.
///
/// # Errors
/// The reader failed, out of memory, or a text is missing, not let in, comes twice or is refused.
pub fn read_texts<R: Read + Drop>(
    rule: TextRule,
    input: &mut Input<R>,
    line: &mut Vec<u8>,
    rodeo: &mut SpurRodeo,
    distinct: usize,
    column: usize,
) -> Result<(), RunError>
    requires { rodeo.old.texts ≡ [] }
    ensures taken { OnOk result (TakesTexts rule.only_utf8 input.old.left input.new.left distinct rodeo.new.texts) }
    ensures list { OnOk result (InternsOwn rodeo.old rodeo.new) }
    ensures error { IfErr result (λ error. IfKnown input.old.left (λ bytes. IfNew rodeo.old (λ limit.
        TextsError rule.only_utf8 limit distinct column bytes input.new.left error))) }
    ensures faults { IfErr result IsInputError }
    ensures reads { input.new.failures ≡ input.old.failures + failed_reads result }
{
    let mut walk = Walk::new(rule.alloc);
    let mut count = 0;
    while count < distinct {
        let shown = input.buffered();
        let (next, used) = add_texts(rule, rodeo, &mut walk, shown, distinct, count, column)?;
        input.consume(used);
        if next == distinct {
            return Ok(());
        }
        let number = next + 1;
        match next_whole_line(input, line)? {
            Cut::Whole => {
                let whole = Line::untested(line);
                if let Err(error) = add_text(rule, rodeo, &mut walk, &whole, number) {
                    return Err(RunError::Column(column, error));
                }
            }
            Cut::Part | Cut::End => {
                return Err(RunError::Column(column, ColumnError::NoText(number)));
            }
        }
        count = number;
    }
    Ok(())
}

// Interns the texts that end in the stretch. `count` texts came before. Returns the number of texts before
// the next one, and the position where that begins.
fn add_texts(
    rule: TextRule,
    rodeo: &mut SpurRodeo,
    walk: &mut Walk,
    stretch: &[u8],
    distinct: usize,
    count: usize,
    column: usize,
) -> Result<(usize, usize), RunError>
    requires { count ≤ distinct }
    ensures added { IfOk result (λ at. ReadsOn rule.only_utf8 stretch.now count rodeo.old at rodeo.new) }
    ensures list { OnOk result ((start : InternerView) → InternsOwn start rodeo.old → InternsOwn start rodeo.new) }
    ensures more { IfOk result (λ at. (count ≤ at.0) × (at.0 ≤ distinct)) }
    ensures within { IfOk result (λ at. at.1 ≤ length stretch.now) }
    ensures error { IfErr result (StopsReading rule.only_utf8 distinct column stretch.now count rodeo.old) }
    ensures faults { IfErr result IsDataError }
{
    let mut lines = Stretch::new(stretch);
    for position in count..distinct {
        let Some(line) = lines.next_ended() else {
            return Ok((position, taken(stretch, &lines)));
        };
        if let Err(error) = add_text(rule, rodeo, walk, &line, position + 1) {
            return Err(RunError::Column(column, error));
        }
    }
    Ok((distinct, taken(stretch, &lines)))
}

// Interns the text of the line with this number, which has to be new. Texts that are new need no look ahead.
fn add_text(
    rule: TextRule,
    rodeo: &mut SpurRodeo,
    walk: &mut Walk,
    line: &Line<'_>,
    number: usize,
) -> Result<(), ColumnError>
    ensures { MatchResult result (λ _. AddsText rule.only_utf8 rodeo.old line.now rodeo.new) (AddError rule.only_utf8 rodeo.old line.now number) }
{
    match intern_line(rule, rodeo, walk, line, number) {
        Ok(true) => Ok(()),
        Ok(false) => Err(ColumnError::Doubled(number)),
        Err(LineError::NotText(_)) => Err(ColumnError::NotUtf8(number)),
        Err(LineError::Refused(_, error)) => Err(ColumnError::TextRefused(number, error)),
    }
}

/// Parses a header line. `None` if the line is not a header.
pub fn header_of(line: &[u8]) -> Option<Header>
    ensures { result ≡ header_of line.now }
{
    match after_front(line, TEXT_HEADER) {
        Some(numbers) => header_in(false, numbers),
        None => header_in(true, after_front(line, BINARY_HEADER)?),
    }
}

// The rest of the line after `front`, if the line begins with that.
fn after_front<'a>(line: &'a [u8], front: &[u8]) -> Option<&'a [u8]>
    ensures { word_of result ≡ after_front front.now line.now }
{
    line.strip_prefix(front)
}

// Parses the two numbers of a header.
fn header_in(binary: bool, numbers: &[u8]) -> Option<Header>
    ensures { result ≡ header_in binary numbers.now }
{
    match memchr(b' ', numbers) {
        Some(at) => {
            let distinct = parse_digits(&numbers[..at]);
            let lines = parse_digits(&numbers[at + 1..]);
            header_with(binary, distinct, lines)
        }
        None => None,
    }
}

// The header with these numbers, if both are numbers.
fn header_with(binary: bool, distinct: Option<usize>, lines: Option<usize>) -> Option<Header>
    ensures { result ≡ header_with binary distinct lines }
{
    let distinct = distinct?;
    let lines = lines?;
    Some(Header {
        binary,
        distinct,
        lines,
    })
}
