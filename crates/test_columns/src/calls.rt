//! Interners, calls, assertions and comparisons that these tests share.
use lasso::{
    Capacity, FixedState, Key, LassoError, LassoResult, MemoryLimits, Rodeo, Spur, SpurRodeo,
    SpurThreadedRodeo, ThreadedRodeo,
};
use lasso_shared_columns::{encode_shared, encode_shared_as};
use std::alloc::{Allocator, Global};
use std::hash::BuildHasher;
use std::process::Abort;
use std::sync::Wait;
use std::test::Fail;
use std::thread::Threads;

/// What a test is given: memory, threads, waiting, and the end of the process.
pub trait Host: AllocGlobal + Abort + Wait + Threads + Sync {}

impl<R: AllocGlobal + Abort + Wait + Threads + Sync> Host for R {}

// An interner of these texts.
pub(super) fn interner(alloc: Global, texts: &[&str]) -> LassoResult<SpurRodeo> {
    let mut rodeo: SpurRodeo = Rodeo::new(alloc)?;
    rodeo.extend(texts.iter().copied())?;
    Ok(rodeo)
}

// An interner whose first bucket has 10 bytes. Two texts of five bytes fill it, and the limit of 10 bytes
// leaves no second bucket.
pub(super) fn limited(alloc: Global) -> LassoResult<SpurRodeo> {
    let (capacity, limits) = (Capacity::for_bytes(10), MemoryLimits::new(10));
    Rodeo::with_capacity_and_memory_limits(alloc, capacity, limits)
}

// An interner that threads share, with these bytes in its first bucket, under the limit.
pub(super) fn limited_shared(
    alloc: Global,
    bytes: usize,
    limit: usize,
) -> LassoResult<SpurThreadedRodeo> {
    let (capacity, limits) = (Capacity::for_bytes(bytes), MemoryLimits::new(limit));
    ThreadedRodeo::with_capacity_and_memory_limits(alloc, capacity, limits)
}

// Which of the two calls encodes.
#[derive(Clone, Copy)]
pub(super) enum Call {
    Plain,
    ByPass,
}

pub(super) static CALLS: [Call; 2] = [Call::Plain, Call::ByPass];

/// An interner that threads share, and by which call and by how many workers a column is encoded over it.
#[derive(Drop)]
pub(super) struct Shared<'a, R: Host> {
    pub(super) rt: &'a R,
    pub(super) rodeo: &'a SpurThreadedRodeo,
    pub(super) call: Call,
    pub(super) workers: usize,
}

impl<'a, R: Host> Shared<'a, R> {
    pub(super) fn new(rt: &'a R, rodeo: &'a SpurThreadedRodeo, call: Call, workers: usize) -> Self {
        Shared {
            rt,
            rodeo,
            call,
            workers,
        }
    }

    // Appends the codes of the texts.
    pub(super) fn encode(&self, texts: &[&str], codes: &mut Vec<u32>) -> LassoResult<()> {
        let (rt, rodeo) = (self.rt, self.rodeo);
        match self.call {
            Call::Plain => encode_shared(rt, rodeo, texts, codes, self.workers),
            Call::ByPass => {
                encode_shared_as(rt, rodeo, &mut rodeo.pass(), texts, codes, self.workers)
            }
        }
    }

    // The codes of the texts.
    pub(super) fn encoded(&self, texts: &[&str]) -> LassoResult<Vec<u32>> {
        let mut codes = Vec::new(self.rt.alloc());
        self.encode(texts, &mut codes)?;
        Ok(codes)
    }

    // Whether the limit refuses one of the texts, and no code is added.
    pub(super) fn refuses(&self, texts: &[&str], codes: &mut Vec<u32>) -> Result<bool, Fail> {
        let count = codes.len();
        let refusal = self.encode(texts, codes).err();
        Ok(limit_refuses(refusal)? && codes.len() == count)
    }

    // Whether there is this number of texts, and this limit.
    pub(super) fn is_kept(&self, count: usize, limit: usize) -> bool {
        self.rodeo.len() == count && self.rodeo.max_memory_usage(self.rt) == limit
    }
}

// Fails the test unless this holds. `what` names what was checked.
pub(super) fn is_so(rt: &impl Host, holds: bool, what: &str) {
    assert!(rt; holds, "{what}");
}

// Fails the test unless this holds of the row of a table.
pub(super) fn is_so_at(rt: &impl Host, holds: bool, row: usize) {
    assert!(rt; holds, "row {row}");
}

// Whether the refusal is by the memory limit. Out of memory is an error.
pub(super) fn is_by_the_limit(error: LassoError) -> Result<bool, Fail> {
    if error.kind().is_failed_alloc() {
        return Err(Fail::from(error));
    }
    Ok(error.kind().is_memory_limit())
}

// Whether the memory limit refused the call. Out of memory is an error.
pub(super) fn limit_refuses(refusal: Option<LassoError>) -> Result<bool, Fail> {
    match refusal {
        Some(error) => is_by_the_limit(error),
        None => Ok(false),
    }
}

// How many different texts have these codes. Codes are given in order, from 0.
pub(super) fn distinct_of(codes: &[u32]) -> usize {
    let mut count: usize = 0;
    for code in codes {
        count = count.max((*code as usize).saturating_add(1));
    }
    count
}

// Whether the interner has just these texts, in this order.
pub(super) fn has_texts<A: Allocator>(rodeo: &Rodeo<Spur, FixedState, A>, texts: &[&str]) -> bool {
    let mut all = rodeo.len() == texts.len();
    for (number, text) in texts.iter().enumerate() {
        all &= rodeo.get(*text) == Spur::try_from_usize(number);
    }
    all
}

// Whether there are no more codes than texts, and each code resolves to its text.
pub(super) fn stand_for<A: Allocator>(
    rodeo: &Rodeo<Spur, FixedState, A>,
    codes: &[u32],
    texts: &[&str],
) -> bool {
    let mut all = codes.len() <= texts.len();
    for (code, text) in codes.iter().zip(texts) {
        all &= match Spur::try_from_usize(*code as usize) {
            Some(key) => rodeo.try_resolve(key) == Some(*text),
            None => false,
        };
    }
    all
}

// Whether the key of this number resolves to the text.
fn resolves<S: BuildHasher + Drop>(
    rodeo: &ThreadedRodeo<Spur, S>,
    number: usize,
    text: &str,
) -> bool {
    match Spur::try_from_usize(number) {
        Some(key) => rodeo.try_resolve(key) == Some(text),
        None => false,
    }
}

// Whether there is one code for each text, and it resolves to the text.
pub(super) fn are_codes<S: BuildHasher + Drop>(
    rodeo: &ThreadedRodeo<Spur, S>,
    codes: &[u32],
    texts: &[&str],
) -> bool {
    let mut all = codes.len() == texts.len();
    for (code, text) in codes.iter().zip(texts) {
        all &= resolves(rodeo, *code as usize, *text);
    }
    all
}

// Whether these texts stand in the interner's list from position `first` on, in this order.
pub(super) fn has_from(rodeo: &SpurThreadedRodeo, first: usize, texts: &[&str]) -> bool {
    let mut all = true;
    for (place, text) in texts.iter().enumerate() {
        all &= resolves(rodeo, first.saturating_add(place), *text);
    }
    all
}
