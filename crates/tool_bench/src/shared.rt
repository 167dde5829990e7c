//! The log of a shared interner: texts that threads read at once or copy into a bucket which they share, and how long a
//! call takes each of them.
ghost use Rattle.std.specs.Prelude.{◌≡◌, ◌<◌, [], IfOk, string_bytes};
ghost use Rattle.lasso_log.specs.Views.{list_of, InternerId, PassView};
ghost use Rattle.tool_bench.specs.Names.{named};
ghost use Rattle.lasso_log.specs.SharedBuckets.{SharedView};

use crate::texts::{numbered_text, random_positions};
use crate::timing::{
    ROUNDS, Table, Tenths, elapsed_since, least, started, tenths_if, tenths_if_all, tenths_of,
};
use anyhow::{Result, bail};
use lasso_log::log::buckets::SharedBucket;
use lasso_log::log::{Log, NewLog, Opened, OpeningTexts, Pass, Spine};
use lasso_log::shared_memory::piece::Piece;
use lasso_parts::keys::{Key, Spur};
use std::alloc::{AllocError, Global};
use std::rt::Clock;
use std::sync::Wait;
use std::thread::{Threads, map_indices};

/// A log with `count` texts: `text 0`, `text 1` and so on. They are never freed. It fails when out of memory.
pub fn open_log<R: AllocGlobal + Wait>(rt: &R, count: u32) -> Result<Log<Spur>> {
    let opened = Opened {
        size: 4096,
        limit: u64::MAX,
    };
    let (log, spine) = Log::open(rt.alloc(), opened)?;
    fill(rt, &log, spine, count)?;
    Ok(log)
}

// Puts `count` texts into the log.
fn fill<R: AllocGlobal + Wait>(
    rt: &R,
    log: &Log<Spur>,
    spine: Spine<Spur>,
    count: u32,
) -> Result<()>
    requires { (spine.of ≡ log.now) × (list_of spine.of spine.notes ≡ []) }
{
    let mut spine = spine;
    let mut pass = log.pass();
    for number in 0..count {
        let text = kept_text(rt.alloc(), number)?;
        let Some(_key) = Spur::try_from_usize(spine.len() as usize) else {
            bail!("no key is left");
        };
        let Ok(cell) = log.reserve_next(rt.alloc(), &mut spine) else {
            bail!("no memory for a text");
        };
        if !log.append_now(&mut spine, &mut pass, cell, Piece::from_static(text)) {
            bail!("a text has no cell");
        }
    }
    Ok(())
}

// The text with this number. It is never freed.
fn kept_text(alloc: Global, number: u32) -> Result<&'static str, AllocError>
    ensures { IfOk result (λ text. text.now ≡ named number) }
{
    let text = numbered_text(alloc, u64::from(number))?;
    leaked(text)
}

// The text, which is never freed.
fn leaked(text: String) -> Result<&'static str, AllocError>
    ensures { IfOk result (λ kept. kept.now ≡ string_bytes text) }
{
    let bytes: &'static [u8] = text.into_bytes().leak();
    match std::str::from_utf8(bytes) {
        Ok(text) => Ok(text),
        Err(_) => Err(AllocError),
    }
}

// A log with a pass of it.
#[derive(Drop)]
struct Reading<'a> {
    log: &'a Log<Spur>,
    pass: Pass<Spur>,
    ghost of: { pass.of ≡ log.now },
}

impl Reading<'_> {
    // The length of the text at the position, or 0 if there is none.
    fn length(&mut self, position: u32) -> usize {
        match self.log.read(u64::from(position), &mut self.pass) {
            Some(text) => text.len(),
            None => 0,
        }
    }
}

/// Reads the text at each position, and returns the sum of their lengths in bytes.
pub fn read_all(log: &Log<Spur>, positions: &[u32]) -> usize {
    let mut reading = Reading {
        log,
        pass: log.pass(),
    };
    let mut sum = 0usize;
    for position in positions {
        sum = sum.wrapping_add(reading.length(*position));
    }
    sum
}

// Threads that read texts of the same log at once, and how long a call takes each of them.

/// How many threads read at once.
pub const THREADS: [usize; 3] = [1, 2, 4];

/// How many calls each thread makes.
pub const CALLS: u32 = 2_000_000;

// The bytes of a text before its number.
const BEFORE_NUMBER: usize = 5;

/// Random positions, which may repeat, with what reading them has to answer.
#[derive(Drop)]
pub struct Walk {
    /// Positions of texts.
    positions: Vec<u32>,
    /// The sum of the lengths of the texts there, in bytes.
    lengths: usize,
}

impl Walk {
    /// `calls` positions of `count` texts. The only error is out of memory.
    pub fn new(alloc: Global, count: u32, calls: u32) -> Result<Walk, AllocError>
        requires { 0 < count }
    {
        let positions = random_positions(alloc, count, calls)?;
        let mut lengths = 0usize;
        for position in &positions {
            lengths = lengths
                .wrapping_add(BEFORE_NUMBER)
                .wrapping_add(digits(*position));
        }
        Ok(Walk { positions, lengths })
    }
}

// How many decimal digits the number has.
fn digits(number: u32) -> usize {
    number.checked_ilog10().map_or(1, |top| top as usize + 1)
}

/// Times reading texts by their positions with each number of threads: the least of several rounds.
pub fn time_log<R: AllocGlobal + Clock + Print + Threads + Sync>(
    rt: &R,
    table: &mut Table,
    log: &Log<Spur>,
    walk: &Walk,
) {
    let mut best = [Ok(u64::MAX); 3];
    for _ in 0..ROUNDS {
        for at in 0..3usize {
            best[at] = least(best[at], time_reads(rt, log, walk, THREADS[at]));
        }
    }
    for at in 0..3usize {
        table.add(rt, "read", THREADS[at], best[at]);
    }
}

// Has `threads` threads read all texts of the walk at once.
fn time_reads<R: AllocGlobal + Clock + Threads + Sync>(
    rt: &R,
    log: &Log<Spur>,
    walk: &Walk,
    threads: usize,
) -> Tenths {
    let start = started(rt);
    let sums = map_indices(rt, rt.alloc(), threads, &|_| read_all(log, &walk.positions));
    let elapsed = elapsed_since(rt, start);
    tenths_if_all(
        sums,
        &walk.lengths,
        "a text is wrong",
        elapsed,
        walk.positions.len(),
    )
}

// Texts that one thread copies into a bucket that threads share, and passes that it makes: how long a call takes.

// How many texts are copied in a round, and how many passes are made.
const COPIES: u32 = 65_536;

// The text that is copied, of 16 bytes.
const TEXT: &str = "a text of length";

/// Times taking 16 bytes of a bucket and filling them, and making a pass: the least of several rounds, each with a new bucket. It
/// fails if there is no memory for a bucket.
pub fn time_copying<R: AllocGlobal + Clock + Print + Wait>(
    rt: &R,
    table: &mut Table,
) -> Result<()> {
    let mut copy = Ok(u64::MAX);
    let mut pass = Ok(u64::MAX);
    for _ in 0..ROUNDS {
        let (log, bucket) = one_bucket(rt)?;
        copy = least(copy, time_copies(rt, &log, &bucket));
        pass = least(pass, time_passes(rt, &log));
    }
    table.add(rt, "copy", COPIES as usize, copy);
    table.add(rt, "pass", COPIES as usize, pass);
    Ok(())
}

// A log with a bucket that has room for all copies.
fn one_bucket<R: AllocGlobal>(rt: &R) -> Result<(Log<Spur>, SharedBucket<Spur>)>
    ensures { IfOk result (λ r. r.1.of ≡ r.0) }
{
    let texts = OpeningTexts::new(rt.alloc(), COPIES as usize * 16)?;
    let NewLog {
        log,
        spine: _,
        bucket,
    } = Log::<Spur>::open_with(texts, u64::MAX);
    Ok((log, bucket))
}

// Copies texts into the bucket.
fn time_copies<R: Clock + Wait>(rt: &R, log: &Log<Spur>, bucket: &SharedBucket<Spur>) -> Tenths
    requires { bucket.now.of ≡ log.now }
{
    let start = started(rt);
    let copied = copy_texts(rt, log, bucket);
    let elapsed = elapsed_since(rt, start);
    tenths_if(
        copied == COPIES,
        "a text was not copied",
        elapsed,
        COPIES as usize,
    )
}

// Makes passes.
fn time_passes<R: Clock>(rt: &R, log: &Log<Spur>) -> Tenths {
    let start = started(rt);
    make_passes(log);
    let elapsed = elapsed_since(rt, start);
    tenths_of(elapsed, COPIES as usize)
}

// A bucket, its log and a pass of that.
#[derive(Drop)]
struct Copying<'a> {
    log: &'a Log<Spur>,
    bucket: &'a SharedBucket<Spur>,
    pass: Pass<Spur>,
    ghost of: { (pass.of ≡ log.now) × (bucket.now.of ≡ log.now) },
}

impl Copying<'_> {
    // Copies the text, if the bucket has room for it. Answers whether it had.
    fn is_copied<R: Wait>(&mut self, rt: &R) -> bool {
        match self
            .bucket
            .try_reserve(rt, self.log, &mut self.pass, TEXT.len() as u64)
        {
            Some(range) => {
                drop(range.fill(self.log.era(), TEXT));
                true
            }
            None => false,
        }
    }
}

// Copies the text while the bucket has room for it, at most `COPIES` times, and returns the number of
// copies.
fn copy_texts<R: Wait>(rt: &R, log: &Log<Spur>, bucket: &SharedBucket<Spur>) -> u32
    requires { bucket.now.of ≡ log.now }
{
    let mut copying = Copying {
        log,
        bucket,
        pass: log.pass(),
    };
    for copied in 0..COPIES {
        if !copying.is_copied(rt) {
            return copied;
        }
    }
    COPIES
}

// Makes `COPIES` passes, one after another.
fn make_passes(log: &Log<Spur>) {
    for _ in 0..COPIES {
        drop(log.pass());
    }
}
