//! Rewrites the entries of columns by the codes of a dictionary that comes before them, and writes them without or with
//! its texts.
ghost use Rattle.std.specs.Prelude.{◌≡◌, ◌+◌, ◌^◌, ◌<◌, [], ℕ, List, All, length, map, Err, OnOk, IfOk, IfErr};
ghost use Rattle.hex.specs.Hex.{IsBytes};
ghost use Rattle.lasso_parts.specs.Texts.{Text};
ghost use Rattle.lasso_single.specs.Codes.{AreCodes};
ghost use Rattle.lasso_single.specs.Interner.{made_with};
ghost use Rattle.lasso_columns.specs.declared.faults.LineError.TheVariants.{Refused};
ghost use Rattle.lasso_parts.specs.declared.util.LassoErrorKind.TheVariants.{FailedAllocation};
ghost use Rattle.lasso_codes.specs.Columns.{entry_at};
ghost use Rattle.lasso_codes.specs.Errors.{failed_reads, failed_writes, gone_readers, IsInputError};
ghost use Rattle.lasso_codes.specs.Limits.{line_texts, InternsOwn};
ghost use Rattle.lasso_codes.specs.Recode.{AddsColumn, AddsColumns, DictionaryError, FindsCodes, RecodedEnd, TakesDictionary, form_of};
ghost use Rattle.lasso_codes.specs.Streams.{IfKnown, Reports};

use crate::columns::{write_codes, write_column};
use crate::error::{ColumnError, RunError};
use crate::interner::new_rodeo;
use crate::line_table::LineTable;
use crate::lines::TextRule;
use crate::merge::add_numbers;
use crate::reading::{Header, next_header, read_texts};
use crate::streams::{Input, Output};
use lasso_columns::{FindError, SpurRodeo, SpurRodeoReader, find_codes, own_codes};
use lasso_parts::util::MemoryLimits;
use std::alloc::Global;
use std::io::{Read, Write};

// Reads a dictionary and the columns after it, and then writes their entries by the codes of the dictionary: as a
// column without texts, or after the dictionary as one column if `with_texts`. The last bytes stay in the buffer.
//
// A dictionary with entries, no column after it, a damaged column, a text that the dictionary lacks, that is refused
// or not let in, a failed read, or out of memory: nothing is written. After a failed write, a prefix of the column was
// written.
pub(crate) fn write_recoded<R: Read + Drop, W: Write + Drop>(
    rule: TextRule,
    input: &mut Input<R>,
    output: &mut Output<W>,
    limits: MemoryLimits,
    binary: bool,
    with_texts: bool,
) -> Result<(), RunError>
    ensures report { Reports input.old output.old output.new
        (λ bytes part. RecodedEnd bytes rule.only_utf8 limits (form_of with_texts binary) input.new.left part result) }
    ensures reads { input.new.failures ≡ input.old.failures + failed_reads result }
    ensures writes { output.new.failures ≡ output.old.failures + failed_writes result }
    ensures gone { output.new.gone ≡ output.old.gone + gone_readers result }
{
    let mut rodeo = new_rodeo(rule.alloc, limits, rule.hasher)?;
    let mut line = Vec::new(rule.alloc);
    read_dictionary(rule, input, &mut line, &mut rodeo)?;
    let mut numbers = Vec::new(rule.alloc);
    add_columns(rule, input, &mut line, &rodeo, &mut numbers, limits)?;
    if with_texts {
        let table = LineTable::new(rule.alloc, &rodeo)?;
        write_column(output, &table, &numbers, binary)
    } else {
        write_codes(output, &numbers, binary)
    }
}

// Reads the dictionary into the interner, which must be new.
fn read_dictionary<R: Read + Drop>(
    rule: TextRule,
    input: &mut Input<R>,
    line: &mut Vec<u8>,
    rodeo: &mut SpurRodeo,
) -> Result<(), RunError>
    requires { rodeo.old.texts ≡ [] }
    ensures list { OnOk result (InternsOwn rodeo.old rodeo.new) }
    ensures taken { OnOk result (IfKnown input.old.left (λ bytes. (limit : ℕ) → rodeo.old ≡ made_with 4096 limit →
        TakesDictionary rule.only_utf8 limit bytes input.new.left rodeo.new.texts)) }
    ensures error { IfErr result (λ error. IfKnown input.old.left (λ bytes. (limit : ℕ) → rodeo.old ≡ made_with 4096 limit →
        DictionaryError rule.only_utf8 limit bytes input.new.left error)) }
    ensures faults { IfErr result IsInputError }
    ensures reads { input.new.failures ≡ input.old.failures + failed_reads result }
{
    let Some(header) = next_header(input, line, 1)? else {
        return Err(RunError::Column(1, ColumnError::NoHeader));
    };
    if header.lines > 0 {
        return Err(RunError::Column(1, ColumnError::HasEntries));
    }
    read_texts(rule, input, line, rodeo, header.distinct, 1)?;
    Ok(())
}

// Appends the entries of the columns after the dictionary by its codes.
fn add_columns<R: Read + Drop>(
    rule: TextRule,
    input: &mut Input<R>,
    line: &mut Vec<u8>,
    dictionary: &SpurRodeo,
    numbers: &mut Vec<u32>,
    limits: MemoryLimits,
) -> Result<(), RunError>
    requires few { length dictionary.now.texts < 2 ^ 32 }
    requires no_numbers { numbers.old.items ≡ [] }
    ensures added { (list : List Text) → dictionary.now.texts ≡ line_texts list → All IsBytes list → IfKnown input.old.left (λ bytes.
        AddsColumns rule.only_utf8 limits list bytes input.new.left (map entry_at numbers.new.items) result) }
    ensures faults { IfErr result IsInputError }
    ensures reads { input.new.failures ≡ input.old.failures + failed_reads result }
{
    let own = own_table(rule.alloc, dictionary)?;
    for column in 2..usize::MAX {
        let Some(header) = next_header(input, line, column)? else {
            if column == 2 {
                return Err(RunError::Column(2, ColumnError::NoHeader));
            }
            return Ok(());
        };
        add_column(
            rule, input, line, dictionary, &own, numbers, limits, header, column,
        )?;
    }
    Err(RunError::TooManyLines)
}

// Appends the entries of the column after its header. `own` has the codes of the dictionary.
fn add_column<R: Read + Drop>(
    rule: TextRule,
    input: &mut Input<R>,
    line: &mut Vec<u8>,
    dictionary: &SpurRodeo,
    own: &[u32],
    numbers: &mut Vec<u32>,
    limits: MemoryLimits,
    header: Header,
    column: usize,
) -> Result<(), RunError>
    requires few { length dictionary.now.texts < 2 ^ 32 }
    requires own { AreCodes dictionary.now.texts dictionary.now.texts own.now }
    ensures added { (list : List Text) → dictionary.now.texts ≡ line_texts list → All IsBytes list → IfKnown input.old.left (λ bytes.
        AddsColumn rule.only_utf8 limits list header bytes column input.new.left numbers.old.items numbers.new.items result) }
    ensures faults { IfErr result IsInputError }
    ensures reads { input.new.failures ≡ input.old.failures + failed_reads result }
{
    if header.distinct == 0 {
        return add_numbers(input, line, numbers, own, header, column);
    }
    let mut texts = new_rodeo(rule.alloc, limits, rule.hasher)?;
    read_texts(rule, input, line, &mut texts, header.distinct, column)?;
    let table = codes_in(rule.alloc, dictionary, &texts.into_reader(), column)?;
    add_numbers(input, line, numbers, &table, header, column)
}

// The codes of the dictionary's texts.
fn own_table(alloc: Global, dictionary: &SpurRodeo) -> Result<Vec<u32>, RunError>
    ensures codes { IfOk result (λ codes. AreCodes dictionary.now.texts dictionary.now.texts codes.items) }
    ensures refused { IfErr result (λ error. error ≡ RunError.Line (Refused 0 FailedAllocation)) }
{
    match own_codes(alloc, dictionary) {
        Ok(codes) => Ok(codes),
        Err(_) => Err(RunError::no_memory(0)),
    }
}

// The codes that the texts of the column with this number have in the dictionary.
fn codes_in(
    alloc: Global,
    dictionary: &SpurRodeo,
    texts: &SpurRodeoReader,
    column: usize,
) -> Result<Vec<u32>, RunError>
    ensures { FindsCodes dictionary.now.texts texts.now column result }
{
    match find_codes(alloc, dictionary, texts) {
        Ok(codes) => Ok(codes),
        Err(FindError::Absent(number)) => Err(RunError::Column(
            column,
            ColumnError::Absent(number),
        )),
        Err(FindError::NoMemory) => Err(RunError::no_memory(0)),
    }
}
