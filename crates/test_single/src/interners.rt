//! Interners for tests, calls of them that tests share, assertions, and a list that counts how many times a text is
//! read.
ghost use Rattle.std.specs.Prelude.{map};

use lasso_parts::index::Texts;
use lasso_parts::keys::{Key, Spur};
use lasso_parts::util::{Capacity, FixedState, LassoErrorKind, LassoResult, MemoryLimits};
use lasso_single::reader::RodeoReader;
use lasso_single::resolver::RodeoResolver;
use lasso_single::rodeo::Rodeo;
use std::alloc::{Allocator, Global};
use std::cell::Cell;
use std::hash::BuildHasher;
use std::marker::{Send, Sync};
use std::process::Abort;
use std::sync::Wait;
use std::test::Fail;
use std::thread::Threads;

/// What a test is given: memory, threads, waiting, and the end of the process.
pub trait Host: AllocGlobal + Abort + Wait + Threads + Sync {}

impl<R: AllocGlobal + Abort + Wait + Threads + Sync> Host for R {}

pub type Small = Rodeo<Spur, FixedState, Global>;

pub type SpurReader = RodeoReader<Spur, FixedState, Global>;

pub type SpurResolver = RodeoResolver<Spur, Global>;

pub const LIMIT: LassoErrorKind = LassoErrorKind::MemoryLimitReached;

pub const KEYS: LassoErrorKind = LassoErrorKind::KeySpaceExhaustion;

pub const MEMORY: LassoErrorKind = LassoErrorKind::FailedAllocation;

// What interning returned: the number of the key, or why it was refused.
pub type Answer = Result<usize, LassoErrorKind>;

// An interner with a first bucket of this number of bytes, under this limit.
pub fn interner<K: Key>(
    alloc: Global,
    bytes: usize,
    limit: usize,
) -> LassoResult<Rodeo<K, FixedState, Global>> {
    let capacity = Capacity::for_bytes(bytes);
    Rodeo::with_capacity_and_memory_limits(alloc, capacity, MemoryLimits::new(limit))
}

pub fn of_texts(alloc: Global, texts: &[&str]) -> Result<Small, Fail> {
    let mut rodeo = Rodeo::default(alloc)?;
    rodeo.extend(texts.iter().copied())?;
    Ok(rodeo)
}

// Whether interning the text returns the key of this number.
pub fn interns<K: Key, S: BuildHasher, A: Allocator + Clone>(
    rodeo: &mut Rodeo<K, S, A>,
    text: &str,
    number: usize,
) -> bool {
    told(rodeo.try_get_or_intern(text)) == Ok(number)
}

pub fn has_count<K: Key, S: BuildHasher, A: Allocator>(
    rodeo: &Rodeo<K, S, A>,
    count: usize,
) -> bool {
    rodeo.len() == count && rodeo.is_empty() == (count == 0)
}

// Checks that the interner has exactly these texts, in this order, and that its buckets take `usage` bytes.
pub fn holds<K: Key, S: BuildHasher, A: Allocator>(
    rt: &impl Host,
    rodeo: &Rodeo<K, S, A>,
    texts: &[&str],
    usage: usize,
) {
    let mut walk = rodeo.strings();
    for text in texts {
        let is_there = walk.next() == Some(*text) && rodeo.contains(text);
        is_so(rt, is_there, "the texts");
    }
    is_so(rt, rodeo.len() == texts.len(), "the number of texts");
    is_so(rt, rodeo.current_memory_usage() == usage, "the usage");
}

// Whether interning each of the numbers below `count` in decimal, in order, gives the key of this number, and the
// buckets then take `usage` bytes.
pub fn interns_numbers<K: Key, S: BuildHasher>(
    alloc: Global,
    rodeo: &mut Rodeo<K, S, Global>,
    count: usize,
    usage: usize,
) -> Result<bool, Fail> {
    let mut all = true;
    for number in 0..count {
        let text = number.to_string(alloc)?;
        all &= interns(rodeo, text.as_str(), number) && rodeo.current_memory_usage() == usage;
    }
    Ok(all)
}

// Fails the test if this does not hold. `what` names what was checked.
pub fn is_so(rt: &impl Host, holds: bool, what: &str) {
    assert!(rt; holds, "{what}");
}

// Fails the test if this does not hold of the row of a table.
pub fn is_so_at(rt: &impl Host, holds: bool, row: usize) {
    assert!(rt; holds, "row {row}");
}

pub fn told<K: Key>(outcome: LassoResult<K>) -> Answer {
    match outcome {
        Ok(key) => Ok(key.into_usize()),
        Err(refusal) => Err(refusal.kind()),
    }
}

// Why the call was refused, if it was.
pub fn refusal_of<T: Drop>(outcome: LassoResult<T>) -> Option<LassoErrorKind> {
    match outcome {
        Ok(_made) => None,
        Err(refusal) => Some(refusal.kind()),
    }
}

pub fn key_at(position: usize) -> Result<Spur, Fail> {
    Ok(Spur::try_from_usize(position).ok_or("no key")?)
}

// The number of the text's key, if it is there.
pub fn number_of(key: Option<Spur>) -> Option<usize> {
    match key {
        Some(key) => Some(key.into_usize()),
        None => None,
    }
}

// Compiles for a type that goes to another thread, and is shared.
pub fn crosses<T: Send + Sync>() {}

/// A list of texts that counts how many times one is read.
#[derive(Clone, Copy)]
pub struct CountedTexts<'a> {
    texts: &'a [&'a str],
    read: &'a Cell<u64>,
}

impl<'a> CountedTexts<'a> {
    pub fn new(texts: &'a [&'a str], read: &'a Cell<u64>) -> Self {
        CountedTexts { texts, read }
    }
}

impl Texts for CountedTexts<'_> {
    ghost list = { λ t. map (λ text. text.now) t.texts.now };

    fn text_at(&self, position: usize) -> &str {
        self.read.set(self.read.get().wrapping_add(1));
        self.texts[position]
    }
}
