//! Writes the entries of a column in parts, which several threads turn into bytes.
//!
//! In each round every worker puts the entries of one part into a buffer of its own, and then the calling thread
//! writes these buffers in order. The buffers are used again, so a long column takes no more memory than a
//! round.
ghost use Rattle.std.specs.Prelude.{◌≡◌, ◌+◌, ◌*◌, ◌<◌, ◌≤◌, Some, IfOk, OnOk, length, map, vec_len};
ghost use Rattle.std.specs.Fork.{slice_chunk};
ghost use Rattle.lasso_codes.specs.Columns.{column_of, entries_of, entry_at};
ghost use Rattle.lasso_codes.specs.EntryParts.{PartsHoldEntries, HoldsEntries};
ghost use Rattle.lasso_codes.specs.Streams.{Writes, WritesAll};
ghost use Rattle.lasso_codes.specs.Errors.{failed_writes, gone_readers};

use crate::columns::{LONGEST_ENTRY, put_entry, write_entries, write_head};
use crate::error::RunError;
use crate::line_table::LineTable;
use crate::output::write_bytes;
use crate::streams::Output;
use std::alloc::{AllocError, Global};
use std::io::Write;
use std::thread::{Threads, for_each_mut};

// How many entries a part has, unless it is the last.
const PART_SIZE: usize = 262_144;

/// Writes the column, as `write_column` does, with up to `workers` threads. Several of them put parts of the
/// entries into buffers, and the calling thread writes these in order. It does alone what it finds no memory for.
///
/// # Errors
/// As `write_bytes`.
pub fn write_column_in_parts<H: AllocGlobal + Threads + Sync, W: Write + Drop>(
    rt: &H,
    output: &mut Output<W>,
    table: &LineTable<'_>,
    numbers: &[u32],
    binary: bool,
    workers: usize,
) -> Result<(), RunError>
    ensures written { Writes output.old.written output.new.written (WritesAll (column_of binary table.now (map entry_at numbers.now)) result) }
    ensures writes { output.new.failures ≡ output.old.failures + failed_writes result }
    ensures gone { output.new.gone ≡ output.old.gone + gone_readers result }
{
    write_head(output, table, numbers.len(), binary)?;
    write_in_parts(rt, output, binary, numbers, workers)
}

// Writes the entry of each number, with up to this number of threads.
fn write_in_parts<H: AllocGlobal + Threads + Sync, W: Write + Drop>(
    rt: &H,
    output: &mut Output<W>,
    binary: bool,
    numbers: &[u32],
    workers: usize,
) -> Result<(), RunError>
    ensures written { Writes output.old.written output.new.written (WritesAll (entries_of binary numbers.now) result) }
    ensures writes { output.new.failures ≡ output.old.failures + failed_writes result }
    ensures gone { output.new.gone ≡ output.old.gone + gone_readers result }
{
    if workers < 2 || numbers.len() <= PART_SIZE {
        return write_entries(output, binary, numbers);
    }
    match new_parts(rt.alloc(), workers.min((numbers.len() - 1) / PART_SIZE + 1)) {
        Ok(mut parts) => write_rounds(rt, output, binary, numbers, &mut parts),
        Err(_) => write_entries(output, binary, numbers),
    }
}

// Writes the entry of each number, by rounds over these parts.
fn write_rounds<H: Threads + Sync, W: Write + Drop>(
    rt: &H,
    output: &mut Output<W>,
    binary: bool,
    numbers: &[u32],
    parts: &mut [Part],
) -> Result<(), RunError>
    requires { 0 < length parts.old }
    ensures written { Writes output.old.written output.new.written (WritesAll (entries_of binary numbers.now) result) }
    ensures writes { output.new.failures ≡ output.old.failures + failed_writes result }
    ensures gone { output.new.gone ≡ output.old.gone + gone_readers result }
{
    let most = parts.len().saturating_mul(PART_SIZE);
    let mut rest = numbers;
    while !rest.is_empty() {
        let (round, later) = rest.split_at(most.min(rest.len()));
        write_round(rt, output, binary, round, parts)?;
        rest = later;
    }
    Ok(())
}

// Writes the entry of each number: each part is put into its buffer by a thread, and then this thread writes them.
fn write_round<H: Threads + Sync, W: Write + Drop>(
    rt: &H,
    output: &mut Output<W>,
    binary: bool,
    numbers: &[u32],
    parts: &mut [Part],
) -> Result<(), RunError>
    requires some { 0 < length parts.old }
    requires reach { length numbers.now ≤ length parts.old * 262144 }
    ensures written { Writes output.old.written output.new.written (WritesAll (entries_of binary numbers.now) result) }
    ensures writes { output.new.failures ≡ output.old.failures + failed_writes result }
    ensures gone { output.new.gone ≡ output.old.gone + gone_readers result }
{
    fill_parts(rt, parts, binary, numbers);
    write_parts(output, parts, binary, numbers)
}

// The bytes of a part of the entries.
#[derive(Drop)]
struct Part {
    bytes: Vec<u8>,
    // how many of the bytes are those of the entries, or none without memory for them
    filled: Option<usize>,
}

// This number of parts without bytes.
fn new_parts(alloc: Global, count: usize) -> Result<Vec<Part>, AllocError>
    ensures { IfOk result (λ parts. vec_len parts ≡ count) }
{
    let mut parts = Vec::with_capacity(alloc, count)?;
    for _ in 0..count {
        parts.push(Part {
            bytes: Vec::new(alloc),
            filled: None,
        })?;
    }
    Ok(parts)
}

// Puts the entries of each part into its buffer, each by a thread if one can be started.
fn fill_parts<H: Threads + Sync>(rt: &H, parts: &mut [Part], binary: bool, numbers: &[u32])
    requires some { 0 < length parts.old }
    ensures { PartsHoldEntries binary numbers.now (length parts.old) parts.new }
{
    let threads = parts.len();
    let fill = |index: usize, part: &mut Part|
        ensures { HoldsEntries binary (slice_chunk numbers.entry.now 262144 index) part.exit.now.bytes.items part.exit.now.filled }
    { fill_part(part, binary, numbers, index) };
    for_each_mut(rt, parts, threads, &fill);
}

// The numbers of the part at the index.
fn part_at(numbers: &[u32], index: usize) -> &[u32]
    ensures { result.now ≡ slice_chunk numbers.now 262144 index }
{
    let start = index.saturating_mul(PART_SIZE).min(numbers.len());
    let (_, rest) = numbers.split_at(start);
    let (part, _) = rest.split_at(PART_SIZE.min(rest.len()));
    part
}

// Puts the entries of the part at the index into its buffer.
fn fill_part(part: &mut Part, binary: bool, numbers: &[u32], index: usize)
    ensures { HoldsEntries binary (slice_chunk numbers.now 262144 index) part.new.bytes.items part.new.filled }
{
    let here = part_at(numbers, index);
    part.filled = None;
    if make_room(&mut part.bytes, here.len()).is_err() {
        return;
    }
    part.filled = Some(put_entries(&mut part.bytes, binary, here));
}

// Makes the buffer long enough for this number of entries.
fn make_room(bytes: &mut Vec<u8>, entries: usize) -> Result<(), AllocError>
    ensures { OnOk result (entries * 11 ≤ vec_len bytes.new) }
{
    let Some(len) = entries.checked_mul(LONGEST_ENTRY) else {
        return Err(AllocError);
    };
    if len <= bytes.len() {
        return Ok(());
    }
    bytes.resize(len, 0)
}

// Writes the entries of the numbers to the front of the bytes. Returns how many bytes they take.
fn put_entries(bytes: &mut [u8], binary: bool, numbers: &[u32]) -> usize
    requires { length numbers.now * 11 ≤ length bytes.old }
    ensures { HoldsEntries binary numbers.now bytes.new (Some result) }
{
    let mut filled = 0;
    for number in numbers {
        filled = put_entry(bytes, filled, binary, *number);
    }
    filled
}

// Writes the entry of each number, from the buffers of the parts.
fn write_parts<W: Write + Drop>(
    output: &mut Output<W>,
    parts: &[Part],
    binary: bool,
    numbers: &[u32],
) -> Result<(), RunError>
    requires filled { PartsHoldEntries binary numbers.now (length parts.now) parts.now }
    requires reach { length numbers.now ≤ length parts.now * 262144 }
    ensures written { Writes output.old.written output.new.written (WritesAll (entries_of binary numbers.now) result) }
    ensures writes { output.new.failures ≡ output.old.failures + failed_writes result }
    ensures gone { output.new.gone ≡ output.old.gone + gone_readers result }
{
    for index in 0..parts.len() {
        write_part(output, &parts[index], binary, part_at(numbers, index))?;
    }
    Ok(())
}

// Writes the entry of each number of the part: from its buffer, or each anew if there was no memory for that.
fn write_part<W: Write + Drop>(
    output: &mut Output<W>,
    part: &Part,
    binary: bool,
    numbers: &[u32],
) -> Result<(), RunError>
    requires { HoldsEntries binary numbers.now part.now.bytes.items part.now.filled }
    ensures written { Writes output.old.written output.new.written (WritesAll (entries_of binary numbers.now) result) }
    ensures writes { output.new.failures ≡ output.old.failures + failed_writes result }
    ensures gone { output.new.gone ≡ output.old.gone + gone_readers result }
{
    match part.filled {
        Some(filled) => write_bytes(output, &part.bytes[..filled]),
        None => write_entries(output, binary, numbers),
    }
}
