//! Rounds of random calls that threads make of one interner, each by a pass of its own, also about many texts, and whether
//! one list explains all answers.
ghost use Rattle.std.specs.Prelude.{◌≡◌};
ghost use Rattle.lasso_log.specs.Views.{PassView, SnapshotView, InternerId};

use crate::answers::{Answer, Limits, answers, readings};
use crate::checker::{Round, check};
use crate::texts::{Frozen, Texts};
use anyhow::{Result, bail, ensure};
use lasso::log::{Pass, Snapshot};
use lasso::{
    Capacity, FixedState, Key, LassoErrorKind, MemoryLimits, MicroSpur, RodeoReader, Spur,
    ThreadedRodeo,
};
use std::alloc::{AllocError, Global};
use std::rt::Clock;
use std::sync::Wait;
use std::thread::{Threads, map_indices};
use std::time::Instant;
use test_common::texts::Draws;

// The bytes of the first bucket.
const FIRST: usize = 16;

// The least limit.
const LEAST: usize = 1000;

/// Makes rounds of `calls` calls a thread, each with another seed from 0 on, until `seconds` seconds are
/// over, and returns the number of rounds. It fails if a round or the clock does.
pub fn rounds_in<R: AllocGlobal + Clock + Print + Threads + Wait + Sync>(
    rt: &R,
    seconds: u64,
    calls: u32,
) -> Result<u64> {
    let start = Instant::now(rt)?;
    for seed in 0..u64::MAX {
        if start.elapsed(rt)?.as_secs() >= seconds {
            return Ok(seed);
        }
        if let Err(error) = calls_in_round(rt, seed, calls) {
            return Err(error.context(format_args!("round {seed}")));
        }
    }
    Ok(u64::MAX)
}

/// A round: four threads make `calls` random calls each, and each answer is checked. Rounds of even seeds
/// have enough keys; in those of odd seeds keys run out. In every third round one thread alone sets limits.
/// Returns how many texts there are in the end. It fails with a message if an answer is wrong, and when out
/// of memory.
pub fn calls_in_round<R: AllocGlobal + Threads + Wait + Sync>(
    rt: &R,
    seed: u64,
    calls: u32,
) -> Result<usize> {
    let count = if seed % 2 == 0 { 4000 } else { 400 };
    let texts = Texts::new(rt.alloc(), count)?;
    let limits = Limits {
        least: LEAST,
        count: count * 8,
        set: true,
    };
    let work = Work {
        texts: &texts,
        limits,
        setter: setter_of(seed),
        seed,
        calls,
    };
    if seed % 2 == 0 {
        round::<Spur, R>(rt, work)
    } else {
        round::<MicroSpur, R>(rt, work)
    }
}

// The thread that alone sets limits, in every third round.
fn setter_of(seed: u64) -> Option<usize> {
    if seed % 3 == 2 {
        Some((seed / 3) as usize % THREADS)
    } else {
        None
    }
}

// A round with keys of this type.
fn round<K: Key + Send + Sync, R: AllocGlobal + Threads + Wait + Sync>(
    rt: &R,
    work: Work<'_>,
) -> Result<usize> {
    let limit = LEAST.saturating_add(work.limits.count / 2);
    let rodeo: ThreadedRodeo<K, FixedState> = ThreadedRodeo::with_capacity_and_memory_limits(
        rt.alloc(),
        Capacity::for_bytes(FIRST),
        MemoryLimits::new(limit),
    )?;
    let (found, frozen) = found_and_frozen(rt, rodeo, work)?;
    let round = Round {
        texts: work.texts,
        frozen: &frozen,
        usage: FIRST,
        limit,
        alone: work.setter,
    };
    check::<K>(rt.alloc(), &round, found.as_slice())?;
    Ok(frozen.len())
}

// The answers of each thread, and the list that the interner ends with.
fn found_and_frozen<K: Key + Send + Sync, R: AllocGlobal + Threads + Wait + Sync>(
    rt: &R,
    rodeo: ThreadedRodeo<K, FixedState>,
    work: Work<'_>,
) -> Result<(Vec<Vec<Answer>>, Frozen)> {
    let mut pass = rodeo.pass();
    let found = found_by_all(rt, &rodeo, &mut pass, work)?;
    let frozen = freeze(rt, rodeo, &mut pass, work.texts)?;
    Ok((found, frozen))
}

// The answers of each thread, and after them those of the pass that has seen what all had.
fn found_by_all<K: Key + Send + Sync, R: AllocGlobal + Threads + Wait + Sync>(
    rt: &R,
    rodeo: &ThreadedRodeo<K, FixedState>,
    pass: &mut Pass<K>,
    work: Work<'_>,
) -> Result<Vec<Vec<Answer>>>
    requires { pass.old.of ≡ rodeo.now }
    ensures { pass.new.of ≡ rodeo.now }
{
    let found = by_all(rt, rodeo, pass, work)?;
    let last = readings(rt, rodeo, pass);
    with_last(rt.alloc(), found, last)
}

// The texts of the interner, as the pass has then seen them.
fn freeze<K: Key, R: AllocGlobal + Wait>(
    rt: &R,
    rodeo: ThreadedRodeo<K, FixedState>,
    pass: &mut Pass<K>,
    texts: &Texts,
) -> Result<Frozen>
    requires { pass.old.of ≡ rodeo }
{
    let reader = rodeo.into_reader_as(rt, pass)?;
    frozen_of(rt.alloc(), &reader, texts)
}

// The texts of the reader.
fn frozen_of<K: Key>(
    alloc: Global,
    reader: &RodeoReader<K, FixedState, Global>,
    texts: &Texts,
) -> Result<Frozen> {
    let mut frozen = Frozen::new(alloc, texts)?;
    for text in reader.strings() {
        frozen.push(texts, text)?;
    }
    Ok(frozen)
}

// The answers of each thread, and after them the last ones.
fn with_last(alloc: Global, found: Vec<Found>, last: [Answer; 3]) -> Result<Vec<Vec<Answer>>> {
    let mut all = Vec::new(alloc);
    for answers in found {
        let Ok(answers) = answers else {
            bail!("no memory for the answers");
        };
        all.push(with_end(answers, last)?)?;
    }
    Ok(all)
}

// The answers, and after them the last ones.
fn with_end(answers: Vec<Answer>, last: [Answer; 3]) -> Result<Vec<Answer>, AllocError> {
    let mut answers = answers;
    for answer in last {
        answers.push(answer)?;
    }
    Ok(answers)
}

// The threads of a round: each makes random calls by a pass of its own, and in the end one pass has seen what all of them had.

/// How many threads make calls at once.
pub const THREADS: usize = 4;

/// What the threads of a round do. Where one thread alone sets limits, `setter` is its number.
#[derive(Clone, Copy)]
pub struct Work<'a> {
    pub texts: &'a Texts,
    pub limits: Limits,
    pub setter: Option<usize>,
    pub seed: u64,
    pub calls: u32,
}

/// The answers of a thread, or none when out of memory.
pub type Found = Result<Vec<Answer>, AllocError>;

// What a thread found, and what its pass has seen of the interner.
#[derive(Drop)]
struct Told<K: Key> {
    found: Found,
    known: Snapshot<K>,
}

// Makes random calls of the interner by a pass of its own, which keeps hints, as the thread of this number.
fn by_one<K: Key, R: AllocGlobal + Wait>(
    rt: &R,
    rodeo: &ThreadedRodeo<K, FixedState>,
    work: Work<'_>,
    thread: usize,
) -> Told<K>
    ensures { result.known.of ≡ rodeo.now }
{
    let mut pass = rodeo.pass_with_hints(rt.alloc());
    let seed = work
        .seed
        .wrapping_mul(THREADS as u64)
        .wrapping_add(thread as u64);
    let limits = Limits {
        set: work.setter.is_none_or(|setter| setter == thread),
        ..work.limits
    };
    let found = answers(rt, rodeo, &mut pass, work.texts, limits, seed, work.calls);
    Told {
        found,
        known: pass.snapshot(),
    }
}

/// Has the threads make random calls of the interner at once, and gives the answers of each. Where a thread
/// can't be started, the caller makes its calls. The pass has then seen what those of all threads had. The
/// only error is out of memory.
pub fn by_all<K: Key + Send + Sync, R: AllocGlobal + Threads + Wait + Sync>(
    rt: &R,
    rodeo: &ThreadedRodeo<K, FixedState>,
    pass: &mut Pass<K>,
    work: Work<'_>,
) -> Result<Vec<Found>, AllocError>
    requires { pass.old.of ≡ rodeo.now }
    ensures { pass.new.of ≡ rodeo.now }
{
    let make_calls = move |thread: usize| -> Told<K>
        ensures { result.known.of ≡ rodeo.entry.now }
    { by_one(rt, rodeo, work, thread) };
    let told = map_indices(rt, rt.alloc(), THREADS, &make_calls)?;
    for thread in 0..told.len() {
        pass.learn(&told[thread].known);
    }
    found_of(rt.alloc(), told)
}

// The answers of each thread.
fn found_of<K: Key>(alloc: Global, told: Vec<Told<K>>) -> Result<Vec<Found>, AllocError> {
    let mut found = Vec::new(alloc);
    for one in told {
        found.push(one.found)?;
    }
    Ok(found)
}

// Random calls about many texts by a pass, and what they answer for each text.

// A batch has fewer texts than this.
const MOST: usize = 150;

/// Interns or looks up the texts of a random batch, and adds an answer for each, to the first refusal. A key that is missing without a
/// refusal is told as out of memory. The only error is out of memory.
pub fn answer_batch<K: Key, R: AllocGlobal + Wait>(
    rt: &R,
    rodeo: &ThreadedRodeo<K, FixedState>,
    pass: &mut Pass<K>,
    texts: &Texts,
    draws: &mut Draws,
    answers: &mut Vec<Answer>,
) -> Result<(), AllocError>
    requires { pass.old.of ≡ rodeo.now }
    ensures { pass.new.of ≡ pass.old.of }
{
    let numbers = random_numbers(rt.alloc(), texts.count(), draws)?;
    let mut batch = Vec::new(rt.alloc());
    for number in &numbers {
        batch.push(texts.text(*number))?;
    }
    if draws.below(2) == 0 {
        intern_batch(rt, rodeo, pass, &numbers, &batch, answers)
    } else {
        find_batch(rt, rodeo, pass, &numbers, &batch, answers)
    }
}

// Numbers of texts, below `count` or, so that they often repeat, below a smaller number.
fn random_numbers(
    alloc: Global,
    count: usize,
    draws: &mut Draws,
) -> Result<Vec<usize>, AllocError> {
    let below = draws.below(count).saturating_add(1);
    let mut numbers = Vec::new(alloc);
    for _ in 0..draws.below(MOST) {
        numbers.push(draws.below(below))?;
    }
    Ok(numbers)
}

// Interns copies of the texts, which have these numbers.
fn intern_batch<K: Key, R: AllocGlobal + Wait>(
    rt: &R,
    rodeo: &ThreadedRodeo<K, FixedState>,
    pass: &mut Pass<K>,
    numbers: &[usize],
    texts: &[&str],
    answers: &mut Vec<Answer>,
) -> Result<(), AllocError>
    requires { pass.old.of ≡ rodeo.now }
    ensures { pass.new.of ≡ pass.old.of }
{
    let mut keys = Vec::new(rt.alloc());
    let kind = match rodeo.try_get_or_intern_all_as(rt, pass, texts, &mut keys) {
        Ok(()) => LassoErrorKind::FailedAllocation,
        Err(error) => error.kind(),
    };
    for place in 0..numbers.len() {
        let text = numbers[place];
        let Some(key) = keys.get(place) else {
            answers.push(refused(text, kind))?;
            return Ok(());
        };
        answers.push(Answer::Interned {
            text,
            position: key.into_usize(),
        })?;
    }
    Ok(())
}

// Looks up the texts, which have these numbers.
fn find_batch<K: Key, R: AllocGlobal + Wait>(
    rt: &R,
    rodeo: &ThreadedRodeo<K, FixedState>,
    pass: &mut Pass<K>,
    numbers: &[usize],
    texts: &[&str],
    answers: &mut Vec<Answer>,
) -> Result<(), AllocError>
    requires { pass.old.of ≡ rodeo.now }
    ensures { pass.new.of ≡ pass.old.of }
{
    let mut keys = Vec::new(rt.alloc());
    let _ = rodeo.get_all_as(rt, pass, texts, &mut keys);
    for place in 0..numbers.len() {
        let text = numbers[place];
        let Some(found) = keys.get(place) else {
            answers.push(refused(text, LassoErrorKind::FailedAllocation))?;
            return Ok(());
        };
        let position = match *found {
            Some(key) => Some(key.into_usize()),
            None => None,
        };
        answers.push(Answer::Found { text, position })?;
    }
    Ok(())
}

// A copy of the text was refused.
const fn refused(text: usize, kind: LassoErrorKind) -> Answer {
    Answer::Refused {
        text,
        copied: true,
        kind,
    }
}
