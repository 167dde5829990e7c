//! What an arena stores, what it refuses, and the bytes that its regions then take.
use crate::interners::{Host, LIMIT, MEMORY, crosses, is_so, is_so_at, refusal_of};
use lasso_parts::arena::Arena;
use lasso_parts::bucket::Bucket;
use lasso_parts::bucket::region::{Region, RegionRight};
use lasso_parts::entries::Entry;
use std::alloc::{Allocator, Global};
use std::mem::size_of;
use std::test::Fail;

#[derive(Clone, Copy, Debug)]
enum Call {
    // the text is stored
    Stores(&'static str),
    // the limit refuses the text
    Refuses(&'static str),
    SetsLimit(usize),
    // the limit is this
    Shows(usize),
    Clears,
}

use Call::{Clears, Refuses, SetsLimit, Shows, Stores};

// Whether the text is stored, and can be read.
fn is_stored(arena: &mut Arena<Global>, text: &str) -> bool {
    match arena.store_str(text) {
        Ok(span) => arena.text(span) == text,
        Err(_) => false,
    }
}

// Makes the call. Returns whether it went as it has to.
fn is_made(arena: &mut Arena<Global>, call: Call) -> bool {
    match call {
        Stores(text) => arena.admits(text.len()) && is_stored(arena, text),
        Refuses(text) => {
            let is_admitted = arena.admits(text.len());
            !is_admitted && refusal_of(arena.store_str(text)) == Some(LIMIT)
        }
        SetsLimit(limit) => {
            arena.set_limit(limit);
            true
        }
        Shows(limit) => arena.max_memory_usage() == limit,
        Clears => {
            arena.clear();
            true
        }
    }
}

// Makes each call with an arena whose first region has `bytes` bytes, under the limit, and checks the usage
// after it.
fn run_row(rt: &impl Host, bytes: usize, limit: usize, row: &[(Call, usize)]) -> Result<(), Fail> {
    let mut arena = Arena::new(rt.alloc(), bytes, limit)?;
    for (call, usage) in row {
        assert!(rt; is_made(&mut arena, *call), "at {call:?}");
        assert!(rt; arena.memory_usage() == *usage, "the usage at {call:?}");
    }
    Ok(())
}

#[test]
fn a_full_region_is_followed_by_twice_the_bytes(rt: HostRuntime) -> Result<(), Fail> {
    let row = [
        (Stores("qqqqqqqq"), 12),
        (SetsLimit(100), 12),
        (Stores("x"), 28),
        (Shows(100), 28),
    ];
    run_row(&rt, 4, 12, &row)
}

#[test]
fn the_limit_refuses_past_a_full_region(rt: HostRuntime) -> Result<(), Fail> {
    let row = [
        (Stores("0123456789"), 10),
        (Stores(""), 10),
        (Refuses("a"), 10),
        (Refuses("dfgsagdfgsdf"), 10),
    ];
    run_row(&rt, 10, 10, &row)
}

#[test]
fn a_long_text_gets_its_own_region(rt: HostRuntime) -> Result<(), Fail> {
    let letters = "abcdefghijklmnopqrstuvwxyz";
    run_row(&rt, 1, 10, &[(Refuses(letters), 1)])?;
    run_row(&rt, 1, 1000, &[(Stores(letters), 27)])
}

#[test]
fn a_clear_gives_back_what_the_limit_left(rt: HostRuntime) -> Result<(), Fail> {
    let row = [
        (Stores("0123456789"), 10),
        (Stores("abc"), 15),
        (Clears, 10),
        (Stores("hello"), 10),
        (Stores("x"), 10),
    ];
    run_row(&rt, 10, 15, &row)?;
    let row = [
        (Stores("abcd"), 4),
        (Stores("xy"), 7),
        (Clears, 4),
        (Stores("abcd"), 4),
        (Stores("xyz"), 7),
    ];
    run_row(&rt, 4, 7, &row)
}

#[test]
fn a_clear_keeps_doubled_regions_alone(rt: HostRuntime) -> Result<(), Fail> {
    let row = [
        (Stores("abcd"), 4),
        (Stores("efghij"), 12),
        (Stores("qqqqqqqqqqqqqqqqqqqq"), 32),
        (Clears, 12),
        (Stores("abcdefg"), 12),
        (Stores("abcd"), 28),
    ];
    run_row(&rt, 4, usize::MAX, &row)
}

#[test]
fn the_smallest_spare_is_filled_once(rt: HostRuntime) -> Result<(), Fail> {
    let row = [
        (Stores("abcd"), 4),
        (Stores("efgh"), 12),
        (Stores("qqqqqqqqq"), 28),
        (Clears, 28),
        (Stores("abcde"), 28),
        (Stores("qqqqqqqqqqqqqqqq"), 28),
        (Stores("x"), 60),
        (Clears, 60),
        (Stores("qqqqqqqqq"), 60),
    ];
    run_row(&rt, 4, usize::MAX, &row)
}

#[test]
fn a_spare_is_filled_at_the_limit(rt: HostRuntime) -> Result<(), Fail> {
    let row = [
        (Stores("abcd"), 4),
        (Stores("efghij"), 12),
        (Refuses("klm"), 12),
        (Clears, 12),
        (Stores("klm"), 12),
        (Stores("no"), 12),
        (Refuses("pqrstuv"), 12),
    ];
    run_row(&rt, 4, 12, &row)
}

#[test]
fn ten_texts_that_double(rt: HostRuntime) -> Result<(), Fail> {
    let mut arena = Arena::default(rt.alloc())?;
    let row = [
        (4096, 4096),
        (8192, 12288),
        (16384, 28672),
        (32768, 61440),
        (65536, 126976),
        (131072, 258048),
        (262144, 520192),
        (524288, 1044480),
        (1048576, 2093056),
        (2097152, 4190208),
    ];
    for (len, usage) in row {
        let text = "a".repeat(rt.alloc(), len)?;
        assert!(rt; is_stored(&mut arena, text.as_str()), "at {len}");
        assert!(rt; arena.memory_usage() == usage, "the usage at {len}");
    }
    Ok(())
}

#[test]
fn no_memory_has_the_greatest_number_of_bytes(rt: HostRuntime) {
    let made = Arena::new(rt.alloc(), usize::MAX, usize::MAX);
    is_so(&rt, refusal_of(made) == Some(MEMORY), "no such region");
}

// Whether `bytes` bytes are left, and the bucket says that it is full if none is.
fn has_free(bucket: &Bucket<Global>, bytes: usize) -> bool {
    bucket.free_elements() == bytes && bucket.is_full() == (bytes == 0)
}

#[test]
fn fills_and_is_cleared(rt: HostRuntime) -> Result<(), Fail> {
    let mut bucket = Bucket::with_capacity(rt.alloc(), 4)?;
    is_so(&rt, bucket.push_slice(b"ab") == 0, "the first bytes");
    is_so(&rt, has_free(&bucket, 2), "two bytes are left");
    is_so(&rt, bucket.push_slice(b"cd") == 2, "the next bytes");
    is_so(&rt, has_free(&bucket, 0), "no byte is left");
    is_so(&rt, bucket.text(2, 2) == "cd", "the next bytes are read");
    bucket.clear();
    is_so(&rt, has_free(&bucket, 4), "all bytes are left");
    Ok(())
}

#[test]
fn no_region_is_so_large(rt: HostRuntime) {
    for capacity in [usize::MAX, isize::MAX as usize + 1] {
        let made = Bucket::with_capacity(rt.alloc(), capacity);
        is_so_at(&rt, refusal_of(made) == Some(MEMORY), capacity);
    }
}

// A bucket and its parts go to another thread, and are shared, where their allocator is.
fn crosses_with<A: Allocator + Send + Sync>() {
    crosses::<Region>();
    crosses::<RegionRight<A>>();
    crosses::<Bucket<A>>();
}

#[test]
fn crosses_with_its_allocator() {
    crosses_with::<Global>();
}

// The size of an entry, and that it crosses threads.

// An entry is read at every probe of an index.
const _: () = prove!(size_of::<Entry>() == 16);

#[test]
fn crosses_freely() {
    crosses::<Entry>();
}
