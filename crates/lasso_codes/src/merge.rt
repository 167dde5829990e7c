//! Merges columns into one column.
ghost use Rattle.std.specs.Prelude.{◌≡◌, ◌+◌, ◌-◌, ◌<◌, ◌≤◌, ◌^◌, ◌++◌, ◌∷◌, [], List, cond, length, Ok, Err, OnOk, IfOk, IfErr, MatchResult};
ghost use Rattle.lasso_parts.specs.Texts.{Text};
ghost use Rattle.lasso_single.specs.Interner.{made_with};
ghost use Rattle.lasso_single.specs.Codes.{AreCodes};
ghost use Rattle.lasso_columns.specs.declared.faults.LineError.TheVariants.{Refused};
ghost use Rattle.lasso_parts.specs.declared.util.LassoErrorKind.TheVariants.{FailedAllocation};
ghost use Rattle.lasso_codes.specs.Columns.{column_of, entry_at};
ghost use Rattle.lasso_codes.specs.Errors.{failed_reads, failed_writes, gone_readers, IsDataError, IsInputError};
ghost use Rattle.lasso_codes.specs.Merge.{recoded, without_entries, AddsEntries, AddsEntry, AreMerged, MergedEnd, MergingError};
ghost use Rattle.lasso_codes.specs.Stages.{AddsOn, StopsAdding};
ghost use Rattle.lasso_codes.specs.Reading.{entry_items};
ghost use Rattle.lasso_codes.specs.Streams.{IfKnown, Reports};

use crate::columns::{append, write_column};
use crate::entries::{Entry, first_entry, next_entry};
use crate::error::{ColumnError, RunError};
use crate::interner::new_rodeo;
use crate::line_table::LineTable;
use crate::lines::TextRule;
use crate::reading::{Header, next_header, read_texts};
use crate::streams::{Input, Output};
use lasso_columns::{NULL, SpurRodeo, merge as merge_texts};
use lasso_parts::util::MemoryLimits;
use std::io::{Read, Write};

// Reads the columns of the input, and then writes one column with one dictionary, which has the lines of all; without
// its entries unless `with_entries`. The last bytes stay in the buffer.
//
// A damaged column, a text that is refused or not let in, a failed read, or out of memory: nothing is written. After
// a failed write, a prefix of the column was written.
pub(crate) fn write_merged<R: Read + Drop, W: Write + Drop>(
    rule: TextRule,
    input: &mut Input<R>,
    output: &mut Output<W>,
    limits: MemoryLimits,
    binary: bool,
    with_entries: bool,
) -> Result<(), RunError>
    ensures report { Reports input.old output.old output.new (λ bytes part.
        MergedEnd bytes rule.only_utf8 limits (cond with_entries (column_of binary) (without_entries binary)) input.new.left part result) }
    ensures reads { input.new.failures ≡ input.old.failures + failed_reads result }
    ensures writes { output.new.failures ≡ output.old.failures + failed_writes result }
    ensures gone { output.new.gone ≡ output.old.gone + gone_readers result }
{
    let mut rodeo = new_rodeo(rule.alloc, limits, rule.hasher)?;
    let mut numbers = Vec::new(rule.alloc);
    merge_columns(rule, input, &mut rodeo, &mut numbers, limits)?;
    let table = LineTable::new(rule.alloc, &rodeo)?;
    if with_entries {
        write_column(output, &table, &numbers, binary)
    } else {
        write_column(output, &table, &[], binary)
    }
}

// Interns the texts of each column, and appends its entries with the codes of these. The interner must be new, and there
// must be no entries. Its errors are those of `write_merged` before a write.
fn merge_columns<R: Read + Drop>(
    rule: TextRule,
    input: &mut Input<R>,
    rodeo: &mut SpurRodeo,
    numbers: &mut Vec<u32>,
    limits: MemoryLimits,
) -> Result<(), RunError>
    requires made { rodeo.old ≡ made_with 4096 limits }
    requires no_numbers { numbers.old.items ≡ [] }
    ensures merged { OnOk result (IfKnown input.old.left (λ bytes. AreMerged bytes rule.only_utf8 limits rodeo.new.texts numbers.new.items)) }
    ensures error { IfErr result (λ error. IfKnown input.old.left (λ bytes. MergingError bytes rule.only_utf8 limits input.new.left error)) }
    ensures faults { IfErr result IsInputError }
    ensures reads { input.new.failures ≡ input.old.failures + failed_reads result }
{
    let mut line = Vec::new(rule.alloc);
    for column in 1..usize::MAX {
        let Some(header) = next_header(input, &mut line, column)? else {
            return Ok(());
        };
        let mut texts = new_rodeo(rule.alloc, limits, rule.hasher)?;
        read_texts(rule, input, &mut line, &mut texts, header.distinct, column)?;
        match merge_texts(rule.alloc, rodeo, &texts.into_reader()) {
            Ok(table) => add_numbers(input, &mut line, numbers, &table, header, column)?,
            Err(error) => return Err(RunError::Column(column, ColumnError::NotMerged(error))),
        }
    }
    Err(RunError::TooManyLines)
}

/// Appends each entry of a column with this header and number. `table` has the new code for each code of the column.
///
/// # Errors
/// An entry that is missing, bad or past the texts, a failed read, or out of memory. The entries before it are appended.
pub fn add_numbers<R: Read + Drop>(
    input: &mut Input<R>,
    line: &mut Vec<u8>,
    numbers: &mut Vec<u32>,
    table: &[u32],
    header: Header,
    column: usize,
) -> Result<(), RunError>
    ensures added { (list texts : List Text) → AreCodes list texts table.now → length list < 2 ^ 32 → IfKnown input.old.left (λ bytes.
        AddsEntries (entry_items (recoded list texts) header) bytes column input.new.left numbers.old.items numbers.new.items result) }
    ensures faults { IfErr result IsInputError }
    ensures reads { input.new.failures ≡ input.old.failures + failed_reads result }
{
    let mut count = 0;
    while count < header.lines {
        let (next, used) = add_stretch(numbers, table, header, column, input.buffered(), count)?;
        input.consume(used);
        if next == header.lines {
            return Ok(());
        }
        let entry = next_entry(input, line, header.binary)?;
        add_number(numbers, table, column, entry, next + 1)?;
        count = next + 1;
    }
    Ok(())
}

// Appends the entries that end in the stretch. `count` entries came before. Returns the number of entries
// before the next one, and the position where that begins.
fn add_stretch(
    numbers: &mut Vec<u32>,
    table: &[u32],
    header: Header,
    column: usize,
    stretch: &[u8],
    count: usize,
) -> Result<(usize, usize), RunError>
    requires { count ≤ header.lines }
    ensures added { IfOk result (λ at. AddsOn table.now header.binary stretch.now count numbers.old.items at numbers.new.items) }
    ensures more { IfOk result (λ at. (count ≤ at.0) × (at.0 ≤ header.lines)) }
    ensures within { IfOk result (λ at. at.1 ≤ length stretch.now) }
    ensures error { IfErr result (StopsAdding table.now header column stretch.now count numbers.old.items) }
    ensures faults { IfErr result IsDataError }
{
    let mut used = 0;
    for position in count..header.lines {
        let Some((entry, len)) = first_entry(&stretch[used..], header.binary) else {
            return Ok((position, used));
        };
        add_number(numbers, table, column, entry, position + 1)?;
        used += len;
    }
    Ok((header.lines, used))
}

// Appends the entry with this number.
#[inline]
fn add_number(
    numbers: &mut Vec<u32>,
    table: &[u32],
    column: usize,
    entry: Entry,
    number: usize,
) -> Result<(), RunError>
    ensures added { (list texts : List Text) → AreCodes list texts table.now → length list < 2 ^ 32 →
        AddsEntry (recoded list texts entry number) column numbers.old.items numbers.new.items result }
    ensures faults { IfErr result IsDataError }
{
    match number_at(table, entry, number) {
        Ok(number) => append_number(numbers, number),
        Err(error) => Err(RunError::Column(column, error)),
    }
}

// Appends the number. The only error is out of memory.
fn append_number(numbers: &mut Vec<u32>, number: u32) -> Result<(), RunError>
    ensures items { OnOk result (numbers.new.items ≡ numbers.old.items ++ number ∷ []) }
    ensures error { IfErr result (λ error. error ≡ RunError.Line (Refused 0 FailedAllocation)) }
{
    match append(numbers, number, 0) {
        Ok(()) => Ok(()),
        Err(error) => Err(RunError::Line(error)),
    }
}

// The new entry for the entry with this number: the table's code for its code.
fn number_at(table: &[u32], entry: Entry, number: usize) -> Result<u32, ColumnError>
    ensures { (list texts : List Text) → AreCodes list texts table.now → length list < 2 ^ 32 → MatchResult result
        (λ rewritten. recoded list texts entry number ≡ Ok (entry_at rewritten))
        (λ error. recoded list texts entry number ≡ Err error) }
{
    match entry {
        Entry::Missing => Err(ColumnError::NoEntry(number)),
        Entry::Bad => Err(ColumnError::NotEntry(number)),
        Entry::Null => Ok(NULL),
        Entry::Code(code) => {
            if code < table.len() {
                Ok(table[code])
            } else {
                Err(ColumnError::PastTexts(number))
            }
        }
    }
}
