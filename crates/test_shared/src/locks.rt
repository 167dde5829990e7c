//! Locks and latches that one thread and two threads take.
use crate::checks::is_so;
use lasso_lock::latch::{Fits, Latch};
use lasso_lock::locks::{TaggedMutex, TaggedRwLock};
use std::sync::Wait;
use std::test::*;
use std::thread::{join, yield_now};
use test_steps::Host;

// A number up to the lock's tag.
#[derive(Drop)]
struct Count {
    number: u64,
}

impl Fits for Count {
    type Tag = u64;

    ghost use Rattle.std.specs.Prelude.{◌≤◌};

    ghost fits = { λ most count. count.number ≤ most };
}

// Counts up by one, that many times, and no further than 5000.
fn count_up(rt: &impl Host, lock: &TaggedMutex<Count>, times: u32) {
    for _ in 0..times {
        let (guard, mut count) = lock.lock(rt);
        if count.number < 5000 {
            count.number += 1;
        }
        guard.unlock(rt, count);
    }
}

// The number in the lock.
fn count_in(rt: &impl Host, lock: &TaggedMutex<Count>) -> u64 {
    let (guard, count) = lock.lock(rt);
    let number = count.number;
    guard.unlock(rt, count);
    number
}

#[test]
fn a_taken_value_is_given_back(rt: HostRuntime) {
    let lock = TaggedMutex::new(Count { number: 7 }, &5000);
    count_up(&rt, &lock, 3);
    is_so(&rt, count_in(&rt, &lock) == 10, "7 and 3 more");
}

#[test]
fn two_threads_take_turns(rt: HostRuntime) {
    let lock = TaggedMutex::new(Count { number: 0 }, &5000);
    join(
        &rt,
        || count_up(&rt, &lock, 2000),
        || count_up(&rt, &lock, 2000),
    );
    is_so(&rt, count_in(&rt, &lock) == 4000, "2000 by each");
}

// Two numbers; the second is the first with the lock's tag added.
#[derive(Drop)]
struct Pair {
    first: u64,
    second: u64,
}

impl Fits for Pair {
    type Tag = u64;

    ghost use Rattle.std.specs.Prelude.{◌≡◌, ◌+◌};

    ghost fits = { λ apart pair. pair.second ≡ pair.first + apart };
}

// A lock of this number and the one that is greater by 9.
fn pair_of(first: u64) -> TaggedRwLock<Pair> {
    let second = first + 9;
    TaggedRwLock::new(Pair { first, second }, &9)
}

fn change(rt: &impl Host, lock: &TaggedRwLock<Pair>, times: u32) {
    for i in 0..times {
        let (guard, mut pair) = lock.write(rt);
        pair.first = u64::from(i) + 1;
        pair.second = u64::from(i) + 10;
        guard.unlock(rt, pair);
    }
}

// Whether each reading found numbers that belong together, and never an earlier pair than the one before.
fn reads_whole(rt: &impl Host, lock: &TaggedRwLock<Pair>, times: u32) -> bool {
    let mut whole = true;
    let mut last = 0;
    for _ in 0..times {
        let reading = lock.read(rt);
        let pair = reading.get();
        if pair.first < last || pair.second < 9 || pair.second - 9 != pair.first {
            whole = false;
        }
        last = pair.first;
        reading.unlock();
    }
    whole
}

#[test]
fn readers_share_a_value(rt: HostRuntime) {
    let lock = pair_of(1);
    let (one, other) = (lock.read(&rt), lock.read(&rt));
    let are_found = one.get().first == 1 && other.get().second == 10;
    one.unlock();
    other.unlock();
    is_so(&rt, are_found, "two readers at once");
    change(&rt, &lock, 3);
    let holds = reads_whole(&rt, &lock, 2);
    is_so(&rt, holds, "numbers that belong together");
    let reading = lock.read(&rt);
    let are_found = reading.get().first == 3 && reading.get().second == 12;
    reading.unlock();
    is_so(&rt, are_found, "the last change");
}

// A thread changes the numbers while another reads them.
#[test]
fn a_thread_reads_while_another_changes(rt: HostRuntime) {
    let lock = pair_of(0);
    let (_, is_whole) = join(
        &rt,
        || change(&rt, &lock, 2000),
        || reads_whole(&rt, &lock, 2000),
    );
    is_so(&rt, is_whole, "each reading is whole");
}

// Calls that do not wait, beside a holder.

// The number in the lock.
fn count_now(lock: &TaggedMutex<Count>) -> Option<u64> {
    let (guard, count) = lock.lock_now()?;
    let number = count.number;
    guard.put_back(count);
    Some(number)
}

// The first number in the lock.
fn read_now(lock: &TaggedRwLock<Pair>) -> Option<u64> {
    let reading = lock.read_now()?;
    let number = reading.get().first;
    reading.unlock();
    Some(number)
}

// Puts 3 and 12 into the lock. Returns the first number that was there before.
fn change_now(lock: &TaggedRwLock<Pair>) -> Option<u64> {
    let (guard, mut pair) = lock.write_now()?;
    let number = pair.first;
    pair.first = 3;
    pair.second = 12;
    guard.put_back(pair);
    Some(number)
}

#[test]
fn a_taken_value_is_not_there_now(rt: HostRuntime) {
    let lock = TaggedMutex::new(Count { number: 7 }, &5000);
    assert!(rt; count_now(&lock) == Some(7));
    let (guard, count) = lock.lock(&rt);
    assert!(rt; count_now(&lock) == None);
    guard.put_back(count);
    assert!(rt; count_now(&lock) == Some(7));
}

#[test]
fn a_refused_writer_keeps_no_reader_out(rt: HostRuntime) {
    let lock = pair_of(1);
    let reading = lock.read(&rt);
    assert!(rt; change_now(&lock) == None);
    assert!(rt; read_now(&lock) == Some(1));
    reading.unlock();
    assert!(rt; read_now(&lock) == Some(1));
    assert!(rt; change_now(&lock) == Some(1));
    assert!(rt; read_now(&lock) == Some(3));
}

#[test]
fn a_writer_keeps_calls_out_that_do_not_wait(rt: HostRuntime) {
    let lock = pair_of(1);
    let (guard, pair) = lock.write(&rt);
    assert!(rt; read_now(&lock) == None);
    assert!(rt; change_now(&lock) == None);
    guard.put_back(pair);
    assert!(rt; read_now(&lock) == Some(1));
    assert!(rt; change_now(&lock) == Some(1));
}

// Claims beside one another, and claims by two threads.

fn read(latch: &Latch<Count>) -> Option<u64> {
    let claim = latch.try_read()?;
    let number = claim.get().number;
    claim.unlock_read();
    Some(number)
}

// The number that was there before.
fn write(latch: &Latch<Count>, number: u64) -> Option<u64> {
    let claim = latch.try_lock()?;
    let (claim, old) = claim.swap(Count { number });
    claim.unlock();
    Some(old.number)
}

#[test]
fn readers_share_and_a_writer_stays_out(rt: HostRuntime) {
    let latch = Latch::new(Count { number: 7 }, &9);
    match latch.try_read() {
        Some(reading) => {
            assert!(rt; read(&latch) == Some(7));
            assert!(rt; write(&latch, 8) == None);
            assert!(rt; reading.get().number == 7);
            reading.unlock_read();
        }
        None => assert!(rt; false),
    }
    assert!(rt; write(&latch, 8) == Some(7));
    assert!(rt; latch.into_inner().number == 8);
}

#[test]
fn one_writer_keeps_everybody_out(rt: HostRuntime) {
    let latch = Latch::new(Count { number: 7 }, &9);
    match latch.try_free() {
        Some(claim) => {
            assert!(rt; read(&latch) == None);
            assert!(rt; write(&latch, 8) == None);
            claim.unlock();
        }
        None => assert!(rt; false),
    }
    assert!(rt; read(&latch) == Some(7));
    assert!(rt; write(&latch, 8) == Some(7));
}

#[test]
fn a_marked_latch_takes_no_more_readers(rt: HostRuntime) {
    let latch = Latch::new(Count { number: 7 }, &9);
    match latch.try_read() {
        Some(reading) => {
            latch.keep_readers_out();
            assert!(rt; read(&latch) == None);
            assert!(rt; write(&latch, 8) == None);
            reading.unlock_read();
        }
        None => assert!(rt; false),
    }
    assert!(rt; read(&latch) == None);
    assert!(rt; write(&latch, 8) == Some(7));
    assert!(rt; read(&latch) == Some(8));
}

fn add(rt: &impl Host, latch: &Latch<Count>, times: u32) {
    for _ in 0..times {
        for _ in rt.forever() {
            if let Some(claim) = latch.try_lock() {
                let (claim, Count { number }) = claim.swap(Count { number: 0 });
                let more = if number < 4000 { number + 1 } else { number };
                let (claim, _zero) = claim.swap(Count { number: more });
                claim.unlock();
                break;
            }
            yield_now();
        }
    }
}

#[test]
fn two_threads_add_up(rt: HostRuntime) {
    let latch = Latch::new(Count { number: 0 }, &4000);
    join(&rt, || add(&rt, &latch, 2000), || add(&rt, &latch, 2000));
    assert!(rt; read(&latch) == Some(4000));
}
