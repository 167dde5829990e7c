//! Puts encoded blocks into an interner, in their order.
ghost use Rattle.std.specs.Prelude.{◌≡◌, ◌+◌, ◌≤◌, [], Some, OnOk, IfErr, IfSome, IsTrue, length, map, slice_get, vec_capacity, vec_len};
ghost use Rattle.lasso_columns.specs.Blocks.{AddsPlaced, IsBlockToPut, StopsInRound, block_end, placed};
ghost use Rattle.lasso_columns.specs.Rows.{word_of, EncodesRows, StopsAtRow};
ghost use Rattle.lasso_columns.specs.Streams.{AreBlocksFor, lines_in};
ghost use Rattle.lasso_input.specs.Lines.{lines_of};

use crate::blocks::Block;
use crate::faults::LineError;
use crate::merging::encode_list;
use crate::rows::{NULL, encode_rows};
use lasso_parts::keys::Spur;
use lasso_parts::util::LassoResult;
use lasso_single::rodeo::Rodeo;
use std::alloc::{Allocator, Global};
use std::hash::BuildHasher;

/// Does what `encode_rows` does with the lines of the blocks, one block after another. `made` has what
/// `encode_blocks` returned for the first of them, beside this interner or an earlier state of it. A block for
/// which it has nothing is encoded by this thread. `start` is the number of entries before the first line of
/// the run: the error has the line's number from there, counted from 1.
pub fn put_blocks<S: BuildHasher, A: Allocator + Clone>(
    alloc: Global,
    rodeo: &mut Rodeo<Spur, S, A>,
    blocks: &[Vec<u8>],
    made: &[Option<Block>],
    null: Option<&[u8]>,
    entries: &mut Vec<u32>,
    start: usize,
) -> Result<(), LineError>
    requires made { AreBlocksFor (word_of null) rodeo.old.texts blocks.now made.now }
    ensures rows { OnOk result (EncodesRows (word_of null.entry) rodeo.old (lines_in blocks.now) [] entries.old.items rodeo.new entries.new.items) }
    ensures stops { IfErr result (StopsInRound (word_of null.entry) rodeo.old (lines_in blocks.now) entries.old.items rodeo.new entries.new start) }
{
    for i in 0..blocks.len() {
        if let Err(error) = put_block(alloc, rodeo, &blocks[i], block_at(made, i), null, entries) {
            return Err(error.at_line(entries.len().saturating_sub(start) + 1));
        }
    }
    Ok(())
}

// The block at the index, if there is one.
fn block_at(made: &[Option<Block>], i: usize) -> Option<&Block>
    ensures { IfSome result (λ block. slice_get made.now i ≡ Some (Some block.now)) }
{
    match made.get(i) {
        Some(Some(block)) => Some(block),
        _ => None,
    }
}

/// Does what `encode_rows` does with the lines of the bytes. `made` is what `encode_block` returned for them,
/// beside this interner or an earlier state of it.
pub fn put_block<S: BuildHasher, A: Allocator + Clone>(
    alloc: Global,
    rodeo: &mut Rodeo<Spur, S, A>,
    bytes: &[u8],
    made: Option<&Block>,
    null: Option<&[u8]>,
    entries: &mut Vec<u32>,
) -> Result<(), LineError>
    requires { IfSome made (λ block. IsBlockToPut (word_of null) rodeo.old.texts bytes.now block.now) }
    ensures rows { OnOk result (EncodesRows (word_of null.entry) rodeo.old (lines_of bytes.now) [] entries.old.items rodeo.new entries.new.items) }
    ensures stops { IfErr result (StopsAtRow (word_of null.entry) rodeo.old (lines_of bytes.now) entries.old.items rodeo.new entries.new) }
{
    let Some(block) = made else {
        return encode_rows(rodeo, bytes, null, entries);
    };
    // Room for all entries and for the table is reserved before a text is interned.
    let mut table = Vec::new(alloc);
    if entries.reserve(block.entries.len()).is_err() || table.reserve(block.added.len()).is_err() {
        return encode_rows(rodeo, bytes, null, entries);
    }
    let _before = rodeo.len();
    let outcome = encode_list(rodeo, &block.added, &mut table);
    let _after = rodeo.len();
    let start = entries.len();
    append_placed(
        entries,
        &block.entries,
        block.base,
        &table,
        block.added.is_empty(),
    );
    block_end(
        outcome,
        block.is_complete,
        entries.len().saturating_sub(start) + 1,
    )
}

// How a block ends after its added texts were interned with this outcome. `number` is that of the line after
// those that have entries.
fn block_end(outcome: LassoResult<()>, is_complete: bool, number: usize) -> Result<(), LineError>
    ensures { result ≡ block_end outcome is_complete number }
{
    match outcome {
        Ok(()) if is_complete => Ok(()),
        Ok(()) => Err(LineError::NotText(number)),
        Err(error) => Err(LineError::Refused(number, error)),
    }
}

// Appends the entries of a block as the interner has them after its added texts were interned: those from
// `base` on are rewritten by the table, which has the new code of each added text, or of the first ones only.
// Stops at the first entry that the table lacks. `entries` must have room for all. `stays`: none is rewritten.
fn append_placed(entries: &mut Vec<u32>, part: &[u32], base: usize, table: &[u32], stays: bool)
    requires room { vec_len entries.old + length part.now ≤ vec_capacity entries.old }
    requires stays { IsTrue stays → map (placed base table.now) part.now ≡ map Some part.now }
    ensures { AddsPlaced base table.now part.now entries.old.items entries.new.items }
{
    if stays {
        let Ok(()) = entries.extend_from_slice(part) else {
            unreachable!();
        };
        return;
    }
    for i in 0..part.len() {
        let Some(placed) = placed(part[i], base, table) else {
            return;
        };
        let Ok(()) = entries.push(placed) else {
            unreachable!();
        };
    }
}

// The entry as the interner has it after the added texts. `None` if the table lacks it.
#[inline(always)]
fn placed(entry: u32, base: usize, table: &[u32]) -> Option<u32>
    ensures { result ≡ placed base table.now entry }
{
    let position = entry as usize;
    if entry == NULL || position < base {
        return Some(entry);
    }
    table.get(position - base).copied()
}
