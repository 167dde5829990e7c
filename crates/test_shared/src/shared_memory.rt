//! A log with the list of its buckets: steps that a test takes with them, texts that it copies, and what it then has
//! to find. Threads that fill one bucket with texts of lengths at random, and ranges that two threads take of it.
mod lists;

use crate::checks::is_so;
use Step::{
    Finds, Fits, FitsAnywhere, HasBucket, HasBuckets, HasCounted, SetsLimit, Stores, Uses, Walks,
};
use lasso_log::log::buckets::SharedBucket;
use lasso_log::log::buckets::list::BucketList;
use lasso_log::log::{Log, NewLog, OpeningTexts, Pass, Spine};
use lasso_log::shared_memory::era::Era;
use lasso_log::shared_memory::piece::{Piece, Range};
use lasso_parts::keys::Spur;
use lasso_parts::util::{LassoError, LassoErrorKind, LassoResult};
use std::alloc::Global;
use std::mem::size_of;
use std::test::*;
use std::thread::join;
use test_steps::Host;

#[derive(Clone, Copy)]
pub(super) enum Step {
    // the text is copied into a bucket that has room for it, or else into a new one
    Stores(&'static str),
    // the text is copied into a bucket that the spine knows, or no such bucket has room for it
    Fits(&'static str, bool),
    // the same with no spine
    FitsAnywhere(&'static str, bool),
    SetsLimit(u64),
    // the bytes that all buckets take
    Uses(u64),
    // how many buckets the list has
    HasBuckets(u64),
    // how many the spine has counted
    HasCounted(u64),
    // the bytes of the bucket at this position, and how many of them are taken
    HasBucket(u64, u64, u64),
    // how many buckets a walk finds, and how many bytes they have
    Walks(usize, u64),
    // whether a walk finds a later bucket of this size
    Finds(u64, bool),
}

// A log that opens with an empty bucket of `bytes` bytes, under this limit.
fn begins(alloc: Global, bytes: usize, limit: u64) -> LassoResult<NewLog<Spur>> {
    let texts = OpeningTexts::new(alloc, bytes)?;
    Ok(Log::open_with(texts, limit))
}

// A log with an empty bucket of `bytes` bytes, its spine and the list of its buckets.
fn opens(
    alloc: Global,
    bytes: usize,
    limit: u64,
) -> LassoResult<(Log<Spur>, Spine<Spur>, BucketList<Spur>)> {
    let NewLog { log, spine, bucket } = begins(alloc, bytes, limit)?;
    let list = BucketList::new(alloc, &log, bucket)?;
    Ok((log, spine, list))
}

// How many buckets a walk finds, and how many bytes they have.
fn walk(list: &BucketList<Spur>) -> (usize, u64) {
    let mut count: usize = 1;
    let mut bytes: u64 = list.first().capacity();
    for number in 1..list.len() {
        if let Some(bucket) = list.get(number) {
            count = count.saturating_add(1);
            bytes = bytes.saturating_add(bucket.capacity());
        }
    }
    (count, bytes)
}

// How often a test looks for a bucket. `find` would wait for ever for one that got lost.
const TURNS: u32 = 1000;

// Whether a walk finds a later bucket of this size, in bytes.
fn is_there(list: &BucketList<Spur>, bytes: u64) -> bool {
    for _ in 0..TURNS {
        for number in 1..list.len() {
            if let Some(bucket) = list.get(number) {
                if bucket.capacity() == bytes {
                    return true;
                }
            }
        }
    }
    false
}

// The bytes of the bucket at this position, and how many of them are taken.
fn bucket_at(
    rt: &impl Host,
    log: &Log<Spur>,
    list: &BucketList<Spur>,
    position: u64,
) -> (u64, u64) {
    let bucket = list.find(rt, log, position);
    (bucket.capacity(), bucket.len(log, &mut log.pass()))
}

// Copies the text into the range, if there is one. Returns whether there was.
fn fills_range(log: &Log<Spur>, range: Option<Range>, text: &str) -> bool {
    let Some(range) = range else {
        return false;
    };
    drop(range.fill(log.era(), text));
    true
}

// Copies the text into a bucket that is found without the spine, and returns whether one had room for it.
fn fits_anywhere(rt: &impl Host, log: &Log<Spur>, list: &BucketList<Spur>, text: &str) -> bool {
    let range = log.reserve_anywhere(rt, list, &mut log.pass(), text.len() as u64);
    fills_range(log, range, text)
}

// Copies the text into a bucket that has room for it, or else into a new one. A new one that is not in the
// list then is reported as out of memory: no later walk with the spine would end. So is a walk or a charge that
// others are in the way of, since there are none.
fn stores(
    rt: &impl Host,
    log: &Log<Spur>,
    list: &BucketList<Spur>,
    spine: &mut Spine<Spur>,
    pass: &mut Pass<Spur>,
    text: &str,
) -> LassoResult<()> {
    let bytes = text.len() as u64;
    let range = match log.reserve_now(list, spine, pass, bytes) {
        Some(Some(range)) => Some(range),
        Some(None) => match log.charge_now(rt.alloc(), list, spine, pass, bytes) {
            Some(made) => Some(made?),
            None => None,
        },
        None => None,
    };
    if fills_range(log, range, text) && list.len() == spine.buckets() {
        return Ok(());
    }
    Err(LassoError::new(LassoErrorKind::FailedAllocation))
}

// Takes the steps with a log whose first bucket has `bytes` bytes, under the limit.
pub(super) fn run_steps(
    rt: &impl Host,
    bytes: usize,
    limit: u64,
    steps: &[Step],
) -> Result<(), Fail> {
    let (log, mut spine, list) = opens(rt.alloc(), bytes, limit)?;
    let mut pass = log.pass();
    for (number, step) in steps.iter().enumerate() {
        let is_right = match *step {
            Stores(text) => stores(rt, &log, &list, &mut spine, &mut pass, text).is_ok(),
            Fits(text, wanted) => {
                match log.reserve_now(&list, &spine, &mut pass, text.len() as u64) {
                    Some(range) => fills_range(&log, range, text) == wanted,
                    None => false,
                }
            }
            FitsAnywhere(text, wanted) => fits_anywhere(rt, &log, &list, text) == wanted,
            SetsLimit(limit) => {
                log.set_limit(rt, &mut spine, &mut pass, limit);
                true
            }
            Uses(bytes) => log.usage(rt, &spine, &mut pass) == bytes,
            HasBuckets(count) => list.len() == count,
            HasCounted(count) => spine.buckets() == count,
            HasBucket(position, bytes, taken) => {
                bucket_at(rt, &log, &list, position) == (bytes, taken)
            }
            Walks(count, bytes) => walk(&list) == (count, bytes),
            Finds(bytes, wanted) => is_there(&list, bytes) == wanted,
        };
        assert!(rt; is_right, "step {number}");
    }
    Ok(())
}

// Pieces of static texts.

// A cell of the list has a piece, and half of its 32 bytes are the piece's.
const _: () = prove!(size_of::<Piece>() == 16);

#[test]
fn a_static_text_is_a_piece(rt: HostRuntime) {
    let era = Era::begin();
    for text in ["r\u{e9}sum\u{e9}", ""] {
        is_so(&rt, Piece::from_static(text).text(&era) == text, text);
    }
    drop(era.end());
}

// Threads that fill one bucket with texts of lengths at random.

// What each thread writes, 40 bytes of its own letter.
static LETTERS: [&str; 4] = [
    "aaaaaaaaaaaaaaaaaaaaaaaaaaaaaaaaaaaaaaaa",
    "bbbbbbbbbbbbbbbbbbbbbbbbbbbbbbbbbbbbbbbb",
    "cccccccccccccccccccccccccccccccccccccccc",
    "dddddddddddddddddddddddddddddddddddddddd",
];

// A log with an empty bucket of `bytes` bytes, and that bucket.
fn one_bucket(alloc: Global, bytes: usize) -> LassoResult<(Log<Spur>, SharedBucket<Spur>)> {
    let NewLog {
        log,
        spine: _,
        bucket,
    } = begins(alloc, bytes, u64::MAX)?;
    Ok((log, bucket))
}

// Takes as many bytes as the text has, fills them, and gives the piece.
fn copies(
    rt: &impl Host,
    log: &Log<Spur>,
    bucket: &SharedBucket<Spur>,
    pass: &mut Pass<Spur>,
    text: &str,
) -> Option<Piece> {
    let range = bucket.try_reserve(rt, log, pass, text.len() as u64)?;
    Some(range.fill(log.era(), text))
}

// Copies 1 to 40 of the letters, at random, or one if there is no room for them, until the bucket has no room for
// one. Returns how many bytes that were, unless a piece shows other letters.
fn fills(
    rt: &impl Host,
    log: &Log<Spur>,
    bucket: &SharedBucket<Spur>,
    letters: &str,
    seed: u32,
) -> LassoResult<Option<u64>> {
    let mut pass = log.pass();
    let mut pieces = Vec::new(rt.alloc());
    let mut random = seed;
    for _ in 0..65_536u32 {
        random = random.wrapping_mul(1_664_525).wrapping_add(1_013_904_223);
        let count = ((random >> 16) % 40 + 1) as usize;
        let mut piece = copies(rt, log, bucket, &mut pass, &letters[..count]);
        if piece.is_none() {
            piece = copies(rt, log, bucket, &mut pass, &letters[..1]);
        }
        match piece {
            Some(piece) => pieces.push(piece)?,
            None => break,
        }
    }
    let mut bytes: u64 = 0;
    for piece in pieces.iter() {
        let text = piece.text(log.era());
        if text.is_empty() || !letters.starts_with(text) {
            return Ok(None);
        }
        bytes = bytes.saturating_add(text.len() as u64);
    }
    Ok(Some(bytes))
}

// Has two threads fill the bucket, each with its own letters. Returns how many bytes they have filled.
fn two_fill(
    rt: &impl Host,
    log: &Log<Spur>,
    bucket: &SharedBucket<Spur>,
    letters: &[&str],
) -> LassoResult<u64> {
    let (one, other) = join(
        rt,
        || fills(rt, log, bucket, letters[0], 7),
        || fills(rt, log, bucket, letters[1], 41),
    );
    let (one, other) = (one?.unwrap_or(0), other?.unwrap_or(0));
    Ok(one.saturating_add(other))
}

#[test]
fn four_threads_fill_a_bucket_side_by_side(rt: HostRuntime) -> Result<(), Fail> {
    let (log, bucket) = one_bucket(rt.alloc(), 65_536)?;
    let (two, others) = join(
        &rt,
        || two_fill(&rt, &log, &bucket, &LETTERS[..2]),
        || two_fill(&rt, &log, &bucket, &LETTERS[2..]),
    );
    let filled = two?.saturating_add(others?);
    is_so(&rt, filled == 65_536, "the bytes of all pieces");
    let taken = bucket.len(&log, &mut log.pass());
    is_so(&rt, taken == 65_536, "the bytes of the bucket");
    Ok(())
}

// Ranges that two threads take of one bucket, one thread each.

// What two threads have copied.
type Copied = (Option<Piece>, Option<Piece>);

// Has two threads copy a text each.
fn two_copy(
    rt: &impl Host,
    log: &Log<Spur>,
    bucket: &SharedBucket<Spur>,
    texts: (&str, &str),
) -> Copied {
    join(
        rt,
        || copies(rt, log, bucket, &mut log.pass(), texts.0),
        || copies(rt, log, bucket, &mut log.pass(), texts.1),
    )
}

// Whether there is a piece, and it shows this text.
fn shows(log: &Log<Spur>, piece: &Option<Piece>, text: &str) -> bool {
    match piece {
        Some(piece) => piece.text(log.era()) == text,
        None => false,
    }
}

// Has two threads take four bytes each of a bucket of eight.
#[test]
fn two_threads_take_both_halves(rt: HostRuntime) -> Result<(), Fail> {
    let (log, bucket) = one_bucket(rt.alloc(), 8)?;
    let copied = two_copy(&rt, &log, &bucket, ("abcd", "wxyz"));
    is_so(&rt, shows(&log, &copied.0, "abcd"), "the first text");
    is_so(&rt, shows(&log, &copied.1, "wxyz"), "the second text");
    let mut pass = log.pass();
    let taken = bucket.len(&log, &mut pass);
    is_so(&rt, taken == 8, "all bytes are taken");
    let more = copies(&rt, &log, &bucket, &mut pass, "e");
    is_so(&rt, more.is_none(), "no room is left");
    // in a bucket of 8 two texts of 4 that both stand begin at 0 and at 4
    is_so(&rt, shows(&log, &copied.0, "abcd"), "the first text stays");
    is_so(&rt, shows(&log, &copied.1, "wxyz"), "the second text stays");
    Ok(())
}

// Has two threads ask for five bytes each of a bucket of eight, where three are left then.
#[test]
fn the_second_thread_finds_no_room(rt: HostRuntime) -> Result<(), Fail> {
    let (log, bucket) = one_bucket(rt.alloc(), 8)?;
    let copied = two_copy(&rt, &log, &bucket, ("abcde", "vwxyz"));
    let is_one = copied.0.is_some() != copied.1.is_some();
    is_so(&rt, is_one, "one is copied");
    let mut pass = log.pass();
    is_so(&rt, bucket.len(&log, &mut pass) == 5, "five bytes");
    let more = copies(&rt, &log, &bucket, &mut pass, "1234");
    is_so(&rt, more.is_none(), "no room for four");
    let more = copies(&rt, &log, &bucket, &mut pass, "123");
    is_so(&rt, shows(&log, &more, "123"), "room for three");
    let stays = shows(&log, &copied.0, "abcde") != shows(&log, &copied.1, "vwxyz");
    is_so(&rt, stays, "one text stays");
    is_so(&rt, bucket.len(&log, &mut pass) == 8, "eight bytes");
    Ok(())
}
