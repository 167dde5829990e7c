//! Lists of buckets: walks, with the spine and without it, and buckets of doubled and remnant size. Cells that one and
//! two threads fill.
use crate::checks::is_so;
use crate::shared_memory::Step::{
    Finds, Fits, FitsAnywhere, HasBucket, HasBuckets, HasCounted, SetsLimit, Stores, Uses, Walks,
};
use crate::shared_memory::{Step, bucket_at, fits_anywhere, opens, run_steps, stores};
use lasso_log::chunks::Chunks;
use lasso_log::log::buckets::list::BucketList;
use lasso_log::log::{Log, Spine};
use lasso_parts::keys::Spur;
use lasso_parts::util::LassoResult;
use std::alloc::AllocError;
use std::test::*;
use std::thread::join;
use test_steps::Host;

#[test]
fn a_new_list_has_the_first_bucket(rt: HostRuntime) -> Result<(), Fail> {
    static STEPS: [Step; 2] = [HasBuckets(1), Walks(1, 8)];
    run_steps(&rt, 8, u64::MAX, &STEPS)
}

#[test]
fn a_new_bucket_is_in_the_list(rt: HostRuntime) -> Result<(), Fail> {
    static STEPS: [Step; 6] = [
        Finds(8, false),
        Stores("abcde"),
        Finds(8, true),
        Stores("0123456789abcdef"),
        Finds(16, true),
        HasBuckets(3),
    ];
    run_steps(&rt, 4, u64::MAX, &STEPS)
}

#[test]
fn a_walk_finds_each_bucket(rt: HostRuntime) -> Result<(), Fail> {
    static STEPS: [Step; 6] = [
        Walks(1, 4),
        Stores("defghijk"),
        Stores("0123456789abcdef0"),
        // 8 is twice the first bucket, and 17 more than twice that
        Walks(3, 29),
        HasBuckets(3),
        HasCounted(3),
    ];
    run_steps(&rt, 4, u64::MAX, &STEPS)
}

#[test]
fn bytes_are_taken_in_an_earlier_bucket(rt: HostRuntime) -> Result<(), Fail> {
    static STEPS: [Step; 7] = [
        Stores("abc"),
        Stores("defghijk"),
        Fits("xy", false),
        Fits("x", true),
        Fits("y", false),
        HasBucket(0, 4, 4),
        HasBucket(1, 8, 8),
    ];
    run_steps(&rt, 4, u64::MAX, &STEPS)
}

#[test]
fn bytes_are_taken_without_the_spine(rt: HostRuntime) -> Result<(), Fail> {
    static STEPS: [Step; 6] = [
        FitsAnywhere("abcde", true),
        FitsAnywhere("1234", false),
        HasBucket(0, 8, 5),
        FitsAnywhere("123", true),
        FitsAnywhere("x", false),
        HasBucket(0, 8, 8),
    ];
    run_steps(&rt, 8, u64::MAX, &STEPS)
}

#[test]
fn bytes_are_taken_in_a_later_bucket(rt: HostRuntime) -> Result<(), Fail> {
    static STEPS: [Step; 4] = [
        Stores("abcd"),
        Stores("efg"),
        // the first bucket is full, and the second has five bytes left of eight
        FitsAnywhere("12345", true),
        FitsAnywhere("x", false),
    ];
    run_steps(&rt, 4, u64::MAX, &STEPS)
}

// Copies a text of four bytes twenty times, into new buckets where none has room.
fn stores_twenty(
    rt: &impl Host,
    log: &Log<Spur>,
    list: &BucketList<Spur>,
    spine: &mut Spine<Spur>,
) -> LassoResult<()> {
    let mut pass = log.pass();
    for _ in 0..20u32 {
        stores(rt, log, list, spine, &mut pass, "abcd")?;
    }
    Ok(())
}

// Copies a text of three bytes wherever there is room, and returns how many bytes it copied.
fn walks_twenty(rt: &impl Host, log: &Log<Spur>, list: &BucketList<Spur>) -> u64 {
    let mut copied: u64 = 0;
    for _ in 0..20u32 {
        if fits_anywhere(rt, log, list, "xyz") {
            copied = copied.saturating_add(3);
        }
    }
    copied
}

// Has a thread walk while another adds buckets. All bytes that they copied are then taken.
#[test]
fn a_thread_walks_while_another_adds_buckets(rt: HostRuntime) -> Result<(), Fail> {
    let (log, mut spine, list) = opens(rt.alloc(), 4, u64::MAX)?;
    let (stored, copied) = join(
        &rt,
        || stores_twenty(&rt, &log, &list, &mut spine),
        || walks_twenty(&rt, &log, &list),
    );
    stored?;
    let mut taken: u64 = 0;
    for position in 0..list.len() {
        taken = taken.saturating_add(bucket_at(&rt, &log, &list, position).1);
    }
    let holds = taken == copied.saturating_add(80);
    is_so(&rt, holds, "the bytes of both threads");
    Ok(())
}

#[test]
fn buckets_are_doubled_and_then_what_the_limit_leaves(rt: HostRuntime) -> Result<(), Fail> {
    static STEPS: [Step; 12] = [
        Stores("abc"),
        Uses(4),
        Stores("defghijk"),
        Uses(12),
        // the first bucket has room for one byte still
        Stores("x"),
        Uses(12),
        SetsLimit(14),
        Stores("yz"),
        Uses(14),
        HasBuckets(3),
        HasBucket(0, 4, 4),
        HasBucket(2, 2, 2),
    ];
    run_steps(&rt, 4, 12, &STEPS)
}

// Cells that one and two threads fill.

static TEXTS: [&str; 4] = ["", "a", "Bär", "long enough to tell from the others"];

// Makes the chunk of the cell, fills the cell, and looks at what it holds then.
fn fills(
    rt: &impl Host,
    chunks: &Chunks<&'static str>,
    position: u64,
    text: &'static str,
) -> Result<bool, AllocError> {
    let is_made = chunks.make_chunk(rt.alloc(), position)?.is_some();
    let (chunk, item) = chunks.fill(rt, position, text);
    Ok(*chunks.value(position, &chunk, &item) == text && is_made)
}

#[test]
fn a_filled_cell_lends_its_text(rt: HostRuntime) -> Result<(), Fail> {
    let chunks = Chunks::new(rt.alloc(), "")?;
    static CELLS: [(u64, &str); 6] = [
        (0, ""),
        (31, "a"),
        (32, "Bär"),
        (63, "long enough to tell from the others"),
        (64, ""),
        (700, "a"),
    ];
    for (position, text) in CELLS.iter() {
        assert!(rt; fills(&rt, &chunks, *position, *text)?, "at {position}");
    }
    Ok(())
}

// Fills every other one of 400 cells. Returns whether each holds its text then.
fn fill_every_other(
    rt: &impl Host,
    chunks: &Chunks<&'static str>,
    first: u64,
) -> Result<bool, AllocError> {
    let mut all = true;
    for i in 0..200u32 {
        let (position, text) = (first + 2 * u64::from(i), TEXTS[i as usize % 4]);
        chunks.make_chunk(rt.alloc(), position)?;
        let (chunk, item) = chunks.fill(rt, position, text);
        all &= *chunks.value(position, &chunk, &item) == text;
    }
    Ok(all)
}

// Has two threads fill the cells of even and of odd positions.
#[test]
fn two_threads_fill_cells_of_the_same_chunks(rt: HostRuntime) -> Result<(), Fail> {
    let chunks = Chunks::new(rt.alloc(), "")?;
    let (even, odd) = join(
        &rt,
        || fill_every_other(&rt, &chunks, 0),
        || fill_every_other(&rt, &chunks, 1),
    );
    is_so(&rt, even? && odd?, "each cell has its text");
    Ok(())
}
