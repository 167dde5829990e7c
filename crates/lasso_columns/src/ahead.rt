//! Encodes the blocks of a stream that were read ahead, while it reads the next ones.
ghost use Rattle.std.specs.Prelude.{◌≡◌, ◌<◌, ℕ, List, [], Ok, true, IfErr, IfOk, OnErr, length, vec_len};
ghost use Rattle.lasso_columns.specs.Rows.{word_of};
ghost use Rattle.lasso_columns.specs.Steps.{AreAhead, AreAheadAfter, EncodesFirst};
ghost use Rattle.lasso_columns.specs.Streams.{AddsLast, AreBlocksFor, EndsRound, IsLastFor, ReadsMore, ReadsTexts};
ghost use Rattle.lasso_columns.specs.Streams.{StopsInStreamBy, lines_in};

use crate::blocks::{Block, encode_block, encode_blocks};
use crate::interners::SpurRodeo;
use crate::line_texts::{LineTexts, with_texts};
use crate::reading_blocks::{Blocks, Sizes, new_chunk, read_blocks};
use crate::rounds::put_blocks;
use crate::stream::{Rounds, StreamError};
use lasso_parts::hasher::TextState;
use std::alloc::Global;
use std::io;
use std::io::{BufRead, ErrorKind};
use std::mem::replace;
use std::thread::{Threads, join_mut};

// The blocks of the next round, how to read those after them, and memory that is used again.
#[derive(Drop)]
pub(crate) struct Ahead {
    pub by: LineTexts,
    pub read: Blocks,
    plan: Plan,
    pub chunk: Vec<u8>,
    // blocks of earlier rounds
    spare: Vec<Vec<u8>>,
}

impl Ahead {
    // Reads the first block. Fails only if memory runs out before that.
    pub fn new<I: BufRead>(
        alloc: Global,
        input: &mut I,
        rounds: Rounds,
        by: LineTexts,
    ) -> io::Result<Self>
        ensures by { IfOk result (λ ahead. ahead.by ≡ by) }
        ensures room { IfOk result (λ ahead. 0 < vec_len ahead.chunk) }
        ensures read { IfOk result (λ ahead. ReadsTexts by (I.remaining input.old) (I.remaining input.new) ahead.read.blocks.items ahead.read.more) }
        ensures kept { OnErr result (I.remaining input.new ≡ I.remaining input.old) }
    {
        let plan = Plan::new(rounds);
        let mut chunk = new_chunk(alloc, rounds.smallest)?;
        let mut spare = Vec::new(alloc);
        let read = read_text_blocks(alloc, input, &mut chunk, &mut spare, plan.next(), by);
        Ok(Ahead {
            by,
            read,
            plan,
            chunk,
            spare,
        })
    }

    // Encodes the blocks, and reads the next ones meanwhile. Returns whether more lines follow. The number of a line
    // in an error is counted from the first line of the blocks.
    pub fn encode_round<R: AllocGlobal + Threads + Sync, I: BufRead>(
        &mut self,
        rt: &R,
        input: &mut I,
        rodeo: &mut SpurRodeo,
        null: Option<&[u8]>,
        entries: &mut Vec<u32>,
    ) -> Result<bool, StreamError>
        requires { 0 < vec_len self.old.chunk }
        ensures by { self.new.by ≡ self.old.by }
        ensures room { 0 < vec_len self.new.chunk }
        ensures rows { IfOk result (λ more. (lines : List (List ℕ)) →
            AreAhead self.old.by (lines_in self.old.read.blocks.items) self.old.read.more (I.remaining input.old) lines →
            EncodesFirst self.old.by (word_of null.entry) rodeo.old lines entries.old.items rodeo.new entries.new.items
            (AreAheadAfter more self.new.by (lines_in self.new.read.blocks.items) self.new.read.more (I.remaining input.new))) }
        ensures stops { IfErr result (λ error. (lines : List (List ℕ)) →
            AreAhead self.old.by (lines_in self.old.read.blocks.items) self.old.read.more (I.remaining input.old) lines →
            StopsInStreamBy self.old.by (word_of null.entry) rodeo.old lines entries.old.items rodeo.new entries.new (I.remaining input.new) error) }
    {
        let (made, next) = encode_and_read(
            rt,
            input,
            &mut self.chunk,
            &mut self.spare,
            rodeo,
            &self.read,
            null,
            self.plan,
            self.by,
        );
        let Blocks { blocks, more } = replace(&mut self.read, next);
        let (texts, start) = (rodeo.len(), entries.len());
        if let Err(error) = put_blocks(rt.alloc(), rodeo, &blocks, &made, null, entries, start) {
            return Err(StreamError::Line(error));
        }
        let goes_on = match more {
            Ok(goes_on) => goes_on,
            Err(error) => return Err(StreamError::Read(error)),
        };
        let new_texts = rodeo.len().saturating_sub(texts);
        self.plan = self
            .plan
            .after(new_texts, entries.len().saturating_sub(start));
        self.spare = blocks;
        Ok(goes_on)
    }

    // Encodes the blocks on this thread, and reads no more. Returns the error that ends the stream.
    pub fn encode_last(
        &mut self,
        alloc: Global,
        rodeo: &mut SpurRodeo,
        null: Option<&[u8]>,
        entries: &mut Vec<u32>,
    ) -> StreamError
        ensures by { self.new.by ≡ self.old.by }
        ensures room { vec_len self.new.chunk ≡ vec_len self.old.chunk }
        ensures stops { (left : _) (lines : List (List ℕ)) → AreAhead self.old.by (lines_in self.old.read.blocks.items) self.old.read.more left lines →
            StopsInStreamBy self.old.by (word_of null.entry) rodeo.old lines entries.old.items rodeo.new entries.new left result }
    {
        let none = Blocks {
            blocks: Vec::new(alloc),
            more: Ok(false),
        };
        let read = replace(&mut self.read, none);
        let start = entries.len();
        put_last(alloc, rodeo, read, null, entries, start)
    }
}

// Puts the blocks on this thread, after as many rounds as a call takes. Returns the error of a line, or of the read
// that failed after them, or else that no more is read.
fn put_last(
    alloc: Global,
    rodeo: &mut SpurRodeo,
    now: Blocks,
    null: Option<&[u8]>,
    entries: &mut Vec<u32>,
    start: usize,
) -> StreamError
    ensures { EndsRound (word_of null.entry) rodeo.old (lines_in now.blocks.items) now.more entries.old.items rodeo.new entries.new start result }
{
    if let Err(error) = put_blocks(alloc, rodeo, &now.blocks, &[], null, entries, start) {
        return StreamError::Line(error);
    }
    match now.more {
        Ok(_) => StreamError::Read(io::Error::from(ErrorKind::TimedOut)),
        Err(error) => StreamError::Read(error),
    }
}

// How the next blocks are read and encoded.
#[derive(Clone, Copy)]
struct Plan {
    rounds: Rounds,
    // the lines that were encoded
    encoded: usize,
    // whether threads encode the blocks
    is_round: bool,
    // the bytes of a block of the next round
    size: usize,
}

impl Plan {
    // The first block is encoded by the caller's thread.
    fn new(rounds: Rounds) -> Self {
        Plan {
            rounds,
            encoded: 0,
            is_round: false,
            size: rounds.smallest,
        }
    }

    // The plan after this number of lines, with this number of new texts. One thread is faster for the first lines of
    // a stream, and where more than a quarter of the lines are new texts, since it interns each of them once.
    fn after(self, new_texts: usize, lines: usize) -> Self {
        let size = if self.is_round {
            self.size.saturating_mul(2).min(self.rounds.largest)
        } else {
            self.size
        };
        let encoded = self.encoded.saturating_add(lines);
        let may_start = self.rounds.workers > 1 && encoded >= self.rounds.first_lines;
        Plan {
            rounds: self.rounds,
            encoded,
            is_round: may_start && new_texts <= lines / 4,
            size,
        }
    }

    // The sizes of the blocks that are read next. The thread that encodes the last one of a round also reads those
    // of the next round. Reading a block takes about a sixth of the time of encoding it.
    fn next(self) -> Sizes {
        if self.is_round {
            Sizes {
                count: self.rounds.workers,
                size: self.size,
                last: self
                    .size
                    .saturating_sub((self.size / 6).saturating_mul(self.rounds.workers)),
            }
        } else {
            Sizes {
                count: 1,
                size: self.rounds.alone,
                last: self.rounds.alone,
            }
        }
    }
}

// What this thread does in a round: the next blocks that it read, and what it made of the last block.
#[derive(Drop)]
struct Turn {
    next: Blocks,
    last: Option<Block>,
}

// Encodes the blocks, if they are a round of several: the last by this thread, and each other by a thread of its
// own. Reads the next blocks meanwhile, if more may follow.
fn encode_and_read<R: AllocGlobal + Threads + Sync, I: BufRead>(
    rt: &R,
    input: &mut I,
    chunk: &mut [u8],
    spare: &mut Vec<Vec<u8>>,
    rodeo: &SpurRodeo,
    now: &Blocks,
    null: Option<&[u8]>,
    plan: Plan,
    by: LineTexts,
) -> (Vec<Option<Block>>, Blocks)
    requires { 0 < length chunk.old }
    ensures made { AreBlocksFor (word_of null.entry) rodeo.now.texts now.now.blocks.items result.0.items }
    ensures next { ReadsMore now.now.more by (I.remaining input.old) (I.remaining input.new) result.1.blocks.items result.1.more }
    ensures kept { ¬ (now.now.more ≡ Ok true) → I.remaining input.new ≡ I.remaining input.old }
{
    if !plan.is_round || now.blocks.len() < 2 {
        return (
            Vec::new(rt.alloc()),
            read_next(rt.alloc(), input, chunk, spare, now, plan, by),
        );
    }
    let hasher = plan.rounds.hasher;
    let mut work = || -> Vec<Option<Block>>
        ensures { AreBlocksFor (word_of null.entry) rodeo.entry.now.texts now.entry.now.blocks.items result.items }
    { encode_others(rt, rodeo, now, null, hasher) };
    let mut read = || -> Turn
        requires { 0 < length chunk.now }
        ensures next { ReadsMore now.entry.now.more by (I.remaining input.entry.now) (I.remaining input.exit.now) result.next.blocks.items result.next.more }
        ensures kept { ¬ (now.entry.now.more ≡ Ok true) → I.remaining input.exit.now ≡ I.remaining input.entry.now }
        ensures last { IsLastFor (word_of null.entry) rodeo.entry.now.texts now.entry.now.blocks.items result.last }
    {
        let next = read_next(rt.alloc(), input, chunk, spare, now, plan, by);
        let last = encode_last_block(rt.alloc(), rodeo, now, null, hasher);
        Turn { next, last }
    };
    let (made, turn) = join_mut(rt, &mut work, &mut read);
    let Turn { next, last } = turn;
    (all_made(rodeo, now, null, made, last), next)
}

// Encodes all blocks but the last by threads. Returns none of them if memory runs out.
fn encode_others<R: AllocGlobal + Threads + Sync>(
    rt: &R,
    rodeo: &SpurRodeo,
    now: &Blocks,
    null: Option<&[u8]>,
    hasher: TextState,
) -> Vec<Option<Block>>
    ensures { AreBlocksFor (word_of null.entry) rodeo.now.texts now.now.blocks.items result.items }
{
    let others = now.blocks.len().saturating_sub(1);
    match encode_blocks(rt, rodeo, &now.blocks[..others], null, hasher) {
        Ok(made) => made,
        Err(_) => Vec::new(rt.alloc()),
    }
}

// Encodes the last block. Returns `None` if there is none, or if memory or codes run out.
fn encode_last_block(
    alloc: Global,
    rodeo: &SpurRodeo,
    now: &Blocks,
    null: Option<&[u8]>,
    hasher: TextState,
) -> Option<Block>
    ensures { IsLastFor (word_of null.entry) rodeo.now.texts now.now.blocks.items result }
{
    if now.blocks.is_empty() {
        return None;
    }
    let last = &now.blocks[now.blocks.len() - 1];
    encode_block(alloc, rodeo, last, null, hasher)
}

// What was made of the blocks beside the interner: `made` of all but the last, and `last`. The contract speaks of
// the interner and the null.
fn all_made(
    rodeo: &SpurRodeo,
    now: &Blocks,
    null: Option<&[u8]>,
    made: Vec<Option<Block>>,
    last: Option<Block>,
) -> Vec<Option<Block>>
    requires made { AreBlocksFor (word_of null) rodeo.now.texts now.now.blocks.items made.items }
    requires last { IsLastFor (word_of null) rodeo.now.texts now.now.blocks.items last }
    ensures { AreBlocksFor (word_of null.entry) rodeo.now.texts now.now.blocks.items result.items }
{
    let _ = rodeo;
    let _ = null;
    with_last(made, last, now)
}

// What was made of all blocks but the last, and of the last. Without memory for that, or if the others were not
// encoded, this thread does it again.
fn with_last(mut made: Vec<Option<Block>>, last: Option<Block>, now: &Blocks) -> Vec<Option<Block>>
    ensures { AddsLast now.now.blocks.items made.items last result.items }
{
    if made.len() + 1 != now.blocks.len() {
        return made;
    }
    if made.reserve(1).is_err() {
        return made;
    }
    made.push_reserved(last);
    made
}

// Reads the blocks after these, if more may follow.
fn read_next<I: BufRead>(
    alloc: Global,
    input: &mut I,
    chunk: &mut [u8],
    spare: &mut Vec<Vec<u8>>,
    now: &Blocks,
    plan: Plan,
    by: LineTexts,
) -> Blocks
    requires { 0 < length chunk.old }
    ensures next { ReadsMore now.now.more by (I.remaining input.old) (I.remaining input.new) result.blocks.items result.more }
    ensures kept { ¬ (now.now.more ≡ Ok true) → I.remaining input.new ≡ I.remaining input.old }
{
    if let Ok(true) = now.more {
        return read_text_blocks(alloc, input, chunk, spare, plan.next(), by);
    }
    Blocks {
        blocks: Vec::new(alloc),
        more: Ok(false),
    }
}

// Reads blocks, as `read_blocks` does, and turns their lines into texts.
fn read_text_blocks<I: BufRead>(
    alloc: Global,
    input: &mut I,
    chunk: &mut [u8],
    spare: &mut Vec<Vec<u8>>,
    sizes: Sizes,
    by: LineTexts,
) -> Blocks
    requires { 0 < length chunk.old }
    ensures { ReadsTexts by (I.remaining input.old) (I.remaining input.new) result.blocks.items result.more }
{
    let read = read_blocks(alloc, input, chunk, spare, sizes);
    with_texts(alloc, read, by)
}
