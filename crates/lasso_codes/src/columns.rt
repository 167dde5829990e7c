//! The codes of a column's lines, and how a column is written: a header line, the dictionary's lines in the
//! order of their codes, and an entry for each line.
ghost use Rattle.std.specs.Prelude.{◌≡◌, ◌+◌, ◌≤◌, ◌++◌, ◌∷◌, [], Err, IfOk, IfErr, OnOk, OnErr, MatchResult, length, map, take, vec_capacity, vec_len, decimal, flat_map};
ghost use Rattle.lasso_codes.specs.Columns.{column_of, entry_at, entry_bytes, head_of, header, header_front};
ghost use Rattle.lasso_codes.specs.Distinct.{with_feed};
ghost use Rattle.lasso_codes.specs.Streams.{Writes, WritesAll};
ghost use Rattle.lasso_codes.specs.Errors.{failed_writes, gone_readers};
ghost use Rattle.lasso_columns.specs.declared.faults.LineError.TheVariants.{Refused};
ghost use Rattle.lasso_parts.specs.declared.util.LassoErrorKind.TheVariants.{FailedAllocation};

use crate::error::RunError;
use crate::line_table::LineTable;
use crate::output::{write_bytes, write_line, write_number};
use crate::streams::Output;
use itoa::Buffer;
use lasso_columns::{LineError, NULL};
use lasso_parts::util::{LassoError, LassoErrorKind};
use std::io::Write;

/// The start of the header of a column whose entries are lines.
pub const TEXT_HEADER: &[u8] = b"lasso-codes 1 text ";

/// The start of the header of a column whose entries are bytes.
pub const BINARY_HEADER: &[u8] = b"lasso-codes 1 binary ";

/// Appends the code of the line with this number.
///
/// # Errors
/// Out of memory. The codes are as they were.
pub fn append(codes: &mut Vec<u32>, code: u32, line: usize) -> Result<(), LineError>
    ensures items { OnOk result (codes.new.items ≡ codes.old.items ++ code ∷ []) }
    ensures error { IfErr result (λ error. error ≡ Refused line FailedAllocation) }
    ensures full { OnErr result (vec_capacity codes.old ≤ vec_len codes.old) }
{
    if codes.push(code).is_err() {
        let error = LassoError::new(LassoErrorKind::FailedAllocation);
        return Err(LineError::Refused(line, error));
    }
    Ok(())
}

/// Writes the column whose dictionary is the lines of the table. `codes` has the code of each line, or
/// `NULL`.
///
/// # Errors
/// As `write_bytes`.
pub fn write_column<W: Write + Drop>(
    output: &mut Output<W>,
    table: &LineTable<'_>,
    codes: &[u32],
    binary: bool,
) -> Result<(), RunError>
    ensures written { Writes output.old.written output.new.written (WritesAll (column_of binary table.now (map entry_at codes.now)) result) }
    ensures writes { output.new.failures ≡ output.old.failures + failed_writes result }
    ensures gone { output.new.gone ≡ output.old.gone + gone_readers result }
{
    write_head(output, table, codes.len(), binary)?;
    write_entries(output, binary, codes)
}

/// Writes the column without texts whose lines have these codes.
///
/// # Errors
/// As `write_bytes`.
pub fn write_codes<W: Write + Drop>(
    output: &mut Output<W>,
    codes: &[u32],
    binary: bool,
) -> Result<(), RunError>
    ensures written { Writes output.old.written output.new.written (WritesAll (column_of binary [] (map entry_at codes.now)) result) }
    ensures writes { output.new.failures ≡ output.old.failures + failed_writes result }
    ensures gone { output.new.gone ≡ output.old.gone + gone_readers result }
{
    write_header(output, binary, 0, codes.len() as u64)?;
    write_entries(output, binary, codes)
}

/// Writes what comes before the entries of a column of this number of lines: the header, and the lines of the table.
///
/// # Errors
/// As `write_bytes`.
pub fn write_head<W: Write + Drop>(
    output: &mut Output<W>,
    table: &LineTable<'_>,
    lines: usize,
    binary: bool,
) -> Result<(), RunError>
    ensures written { Writes output.old.written output.new.written (WritesAll (head_of binary table.now lines) result) }
    ensures writes { output.new.failures ≡ output.old.failures + failed_writes result }
    ensures gone { output.new.gone ≡ output.old.gone + gone_readers result }
{
    let distinct = table.len();
    write_header(output, binary, distinct as u64, lines as u64)?;
    write_lines(output, table)
}

// Writes the header line.
fn write_header<W: Write + Drop>(
    output: &mut Output<W>,
    binary: bool,
    distinct: u64,
    lines: u64,
) -> Result<(), RunError>
    ensures written { Writes output.old.written output.new.written (WritesAll (header binary distinct lines) result) }
    ensures writes { output.new.failures ≡ output.old.failures + failed_writes result }
    ensures gone { output.new.gone ≡ output.old.gone + gone_readers result }
{
    write_front(output, binary)?;
    write_number_and(output, distinct, b" ")?;
    write_number_and(output, lines, b"\n")
}

// Writes the start of the header.
fn write_front<W: Write + Drop>(output: &mut Output<W>, binary: bool) -> Result<(), RunError>
    ensures written { Writes output.old.written output.new.written (WritesAll (header_front binary) result) }
    ensures writes { output.new.failures ≡ output.old.failures + failed_writes result }
    ensures gone { output.new.gone ≡ output.old.gone + gone_readers result }
{
    if binary {
        write_bytes(output, BINARY_HEADER)
    } else {
        write_bytes(output, TEXT_HEADER)
    }
}

// Writes the number's digits, and then the bytes `after`.
fn write_number_and<W: Write + Drop>(
    output: &mut Output<W>,
    number: u64,
    after: &[u8],
) -> Result<(), RunError>
    ensures written { Writes output.old.written output.new.written (WritesAll (decimal number ++ after.now) result) }
    ensures writes { output.new.failures ≡ output.old.failures + failed_writes result }
    ensures gone { output.new.gone ≡ output.old.gone + gone_readers result }
{
    write_number(output, number)?;
    write_bytes(output, after)
}

// Writes each line with a line feed.
fn write_lines<W: Write + Drop>(
    output: &mut Output<W>,
    table: &LineTable<'_>,
) -> Result<(), RunError>
    ensures written { Writes output.old.written output.new.written (WritesAll (flat_map with_feed table.now) result) }
    ensures writes { output.new.failures ≡ output.old.failures + failed_writes result }
    ensures gone { output.new.gone ≡ output.old.gone + gone_readers result }
{
    for position in 0..table.len() {
        write_line(output, table.at(position))?;
    }
    Ok(())
}

// Entries are written in blocks of this size.
const BLOCK_SIZE: usize = 4096;

/// The length of the longest entry: ten digits and a line feed.
pub const LONGEST_ENTRY: usize = 11;

/// Writes the entry of each code.
///
/// # Errors
/// As `write_bytes`.
pub fn write_entries<W: Write + Drop>(
    output: &mut Output<W>,
    binary: bool,
    codes: &[u32],
) -> Result<(), RunError>
    ensures written { Writes output.old.written output.new.written (WritesAll (flat_map (λ n. entry_bytes binary (entry_at n)) codes.now) result) }
    ensures writes { output.new.failures ≡ output.old.failures + failed_writes result }
    ensures gone { output.new.gone ≡ output.old.gone + gone_readers result }
{
    let mut block = [0; BLOCK_SIZE];
    let mut filled = 0;
    for code in codes {
        filled = make_room(output, &block, filled)?;
        filled = put_entry(&mut block, filled, binary, *code);
    }
    write_bytes(output, &block[..filled])
}

// Writes the first `filled` bytes of the block if there is no room for an entry after them. Returns the
// number of filled bytes that are left.
#[inline]
fn make_room<W: Write + Drop>(
    output: &mut Output<W>,
    block: &[u8],
    filled: usize,
) -> Result<usize, RunError>
    requires fits { filled ≤ 4096 }
    requires long { length block.now ≡ 4096 }
    ensures room { IfOk result (λ left. left + 11 ≤ 4096) }
    ensures written { MatchResult result
        (λ left. Writes output.old.written output.new.written (λ part. part ++ take left block.now ≡ take filled block.now))
        (λ error. Writes output.old.written output.new.written (WritesAll (take filled block.now) (Err error))) }
    ensures writes { output.new.failures ≡ output.old.failures + failed_writes result }
    ensures gone { output.new.gone ≡ output.old.gone + gone_readers result }
{
    if filled <= BLOCK_SIZE - LONGEST_ENTRY {
        return Ok(filled);
    }
    write_bytes(output, &block[..filled])?;
    Ok(0)
}

/// Puts the entry of the code into the block at the position `at`. Returns the position after it. There must be
/// room for the longest entry.
#[inline]
pub fn put_entry(block: &mut [u8], at: usize, binary: bool, code: u32) -> usize
    requires { at + 11 ≤ length block.old }
    ensures put { take result block.new ≡ take at block.old ++ entry_bytes binary (entry_at code) }
    ensures within { result ≤ at + 11 }
    ensures len { length block.new ≡ length block.old }
{
    if binary {
        return put(block, at, &code.to_le_bytes());
    }
    if code == NULL {
        return put(block, at, b"-\n");
    }
    let mut digits = Buffer::new();
    let after = put(block, at, digits.format(code).as_bytes());
    put(block, after, b"\n")
}

// Puts the bytes into the block at the position `at`. Returns the position after them.
#[inline]
fn put(block: &mut [u8], at: usize, bytes: &[u8]) -> usize
    requires { at + length bytes.now ≤ length block.old }
    ensures put { take result block.new ≡ take at block.old ++ bytes.now }
    ensures after { result ≡ at + length bytes.now }
    ensures len { length block.new ≡ length block.old }
{
    let end = at + bytes.len();
    block[at..end].copy_from_slice(bytes);
    end
}
