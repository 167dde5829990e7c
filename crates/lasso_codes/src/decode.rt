//! Decodes columns into their lines.
ghost use Rattle.std.specs.Prelude.{◌≡◌, ◌+◌, ◌-◌, ◌≤◌, Err, IfOk, IfErr, length};
ghost use Rattle.lasso_columns.specs.Rows.{word_of};
ghost use Rattle.lasso_codes.specs.Decode.{line_at, DecodeEnds, WritesEntry, WritesLines};
ghost use Rattle.lasso_codes.specs.Errors.{failed_reads, failed_writes, gone_readers, IsOutputError};
ghost use Rattle.lasso_codes.specs.Reading.{entry_items};
ghost use Rattle.lasso_codes.specs.Stages.{DecodesOn, StopsDecoding};
ghost use Rattle.lasso_codes.specs.Streams.{IfKnown, Reports, Writes};

use crate::entries::{Entry, first_entry, line_at, next_entry};
use crate::error::RunError;
use crate::interner::new_rodeo;
use crate::line_table::LineTable;
use crate::lines::TextRule;
use crate::output::write_line;
use crate::reading::{Header, next_header, read_texts};
use crate::streams::{Input, Output};
use lasso_parts::util::MemoryLimits;
use std::io::{Read, Write};

// Decodes the columns of the input, and writes their lines, each with a line feed. A null is written as `null`. The
// last bytes stay in the buffer.
//
// A damaged column, a null if `null` is `None`, a text that is refused or not let in, a failed read, or out of
// memory: the lines before it were written. After a failed write, a prefix of the lines was written.
pub(crate) fn write_decoded<R: Read + Drop, W: Write + Drop>(
    rule: TextRule,
    input: &mut Input<R>,
    output: &mut Output<W>,
    limits: MemoryLimits,
    null: Option<&[u8]>,
) -> Result<(), RunError>
    ensures report { Reports input.old output.old output.new (DecodeEnds rule.only_utf8 limits (word_of null.entry) input.new.left result) }
    ensures reads { input.new.failures ≡ input.old.failures + failed_reads result }
    ensures writes { output.new.failures ≡ output.old.failures + failed_writes result }
    ensures gone { output.new.gone ≡ output.old.gone + gone_readers result }
{
    let mut line = Vec::new(rule.alloc);
    for column in 1..usize::MAX {
        let Some(header) = next_header(input, &mut line, column)? else {
            return Ok(());
        };
        let mut rodeo = new_rodeo(rule.alloc, limits, rule.hasher)?;
        read_texts(rule, input, &mut line, &mut rodeo, header.distinct, column)?;
        let table = LineTable::new(rule.alloc, &rodeo)?;
        write_lines(input, output, &mut line, &table, header, null, column)?;
    }
    Err(RunError::TooManyLines)
}

// Writes the lines of a column's entries.
fn write_lines<R: Read + Drop, W: Write + Drop>(
    input: &mut Input<R>,
    output: &mut Output<W>,
    line: &mut Vec<u8>,
    table: &LineTable<'_>,
    header: Header,
    null: Option<&[u8]>,
    column: usize,
) -> Result<(), RunError>
    ensures written { IfKnown input.old.left (λ bytes. Writes output.old.written output.new.written (λ part.
        WritesLines (entry_items (line_at (word_of null.entry) table.now) header) bytes column input.new.left part result)) }
    ensures reads { input.new.failures ≡ input.old.failures + failed_reads result }
    ensures writes { output.new.failures ≡ output.old.failures + failed_writes result }
    ensures gone { output.new.gone ≡ output.old.gone + gone_readers result }
{
    let mut count = 0;
    while count < header.lines {
        let shown = input.buffered();
        let (next, used) = write_stretch(output, table, header, null, column, shown, count)?;
        input.consume(used);
        if next == header.lines {
            return Ok(());
        }
        let entry = next_entry(input, line, header.binary)?;
        write_entry_line(output, table, null, column, entry, next + 1)?;
        count = next + 1;
    }
    Ok(())
}

// Writes the lines of the entries that end in the stretch. `count` entries came before. Returns the number of
// entries before the next one, and the position where that begins.
fn write_stretch<W: Write + Drop>(
    output: &mut Output<W>,
    table: &LineTable<'_>,
    header: Header,
    null: Option<&[u8]>,
    column: usize,
    stretch: &[u8],
    count: usize,
) -> Result<(usize, usize), RunError>
    requires { count ≤ header.lines }
    ensures written { IfOk result (λ at.
        DecodesOn (line_at (word_of null.entry) table.now) header.binary stretch.now count output.old.written at output.new.written) }
    ensures more { IfOk result (λ at. (count ≤ at.0) × (at.0 ≤ header.lines)) }
    ensures within { IfOk result (λ at. at.1 ≤ length stretch.now) }
    ensures error { IfErr result
        (StopsDecoding (line_at (word_of null.entry) table.now) header column stretch.now count output.old.written output.new.written) }
    ensures faults { IfErr result IsOutputError }
    ensures writes { output.new.failures ≡ output.old.failures + failed_writes result }
    ensures gone { output.new.gone ≡ output.old.gone + gone_readers result }
{
    let mut used = 0;
    for position in count..header.lines {
        let Some((entry, len)) = first_entry(&stretch[used..], header.binary) else {
            return Ok((position, used));
        };
        write_entry_line(output, table, null, column, entry, position + 1)?;
        used += len;
    }
    Ok((header.lines, used))
}

// Writes the line of the entry with this number.
#[inline(always)]
fn write_entry_line<W: Write + Drop>(
    output: &mut Output<W>,
    table: &LineTable<'_>,
    null: Option<&[u8]>,
    column: usize,
    entry: Entry,
    number: usize,
) -> Result<(), RunError>
    ensures written { Writes output.old.written output.new.written (WritesEntry (line_at (word_of null.entry) table.now entry number) column result) }
    ensures faults { IfErr result IsOutputError }
    ensures writes { output.new.failures ≡ output.old.failures + failed_writes result }
    ensures gone { output.new.gone ≡ output.old.gone + gone_readers result }
{
    match line_at(table, null, entry, number) {
        Ok(decoded) => write_line(output, decoded),
        Err(error) => Err(RunError::Column(column, error)),
    }
}
