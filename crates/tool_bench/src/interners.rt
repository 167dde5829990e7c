//! An interner that threads share: how long a call takes each of them, also one that takes many texts.
ghost use Rattle.std.specs.Prelude.{◌<◌};

use crate::calls::{
    Caller, Calls, Plain, WithHints, WithPass, filled, resolve_keys, resolve_keys_plainly,
};
use crate::shared::THREADS;
use crate::texts::Lines;
use crate::timing::{
    NO_MEMORY, REFUSED, Table, Tenths, elapsed_since, if_so, started, sum_of_positions,
    tenths_if_all, tenths_of,
};
use lasso::{Key, Spur, SpurThreadedRodeo, ThreadedRodeo};
use std::alloc::AllocError;
use std::rt::Clock;
use std::sync::Wait;
use std::thread::{Threads, map_chunks, map_indices};

/// Times one round of each call with each number of threads over the lines.
pub fn time_interners<R: AllocGlobal + Clock + Print + Threads + Wait + Sync>(
    rt: &R,
    table: &mut Table,
    lines: &Lines,
) {
    time_filling::<WithPass, R>(rt, table, ["new", "intern"], lines);
    time_filling::<WithHints, R>(rt, table, ["hinted_new", "hinted_intern"], lines);
    time_filling::<Batches<64>, R>(rt, table, ["batch64_new", "batch64_intern"], lines);
    time_filling::<Batches<1024>, R>(rt, table, ["batch1024_new", "batch1024_intern"], lines);
    let Some(rodeo) = filled(rt, &lines.distinct) else {
        return table.fail(REFUSED);
    };
    time_finding::<WithPass, R>(rt, table, ["present", "get"], &rodeo, lines);
    time_finding::<WithHints, R>(rt, table, ["hinted_present", "hinted_get"], &rodeo, lines);
    time_finding::<Plain, R>(rt, table, ["plain_present", "plain_get"], &rodeo, lines);
    time_finding::<Batches<64>, R>(rt, table, ["batch64_present", "batch64_get"], &rodeo, lines);
    time_finding::<Batches<1024>, R>(
        rt,
        table,
        ["batch1024_present", "batch1024_get"],
        &rodeo,
        lines,
    );
    time_resolving(rt, table, &rodeo, lines);
}

// Times the calls that fill a new interner, with each number of threads.
fn time_filling<C: Calls, R: AllocGlobal + Clock + Print + Threads + Wait + Sync>(
    rt: &R,
    table: &mut Table,
    names: [&str; 2],
    lines: &Lines,
) {
    let [new, intern] = names;
    for threads in THREADS {
        table.add(rt, new, threads, time_new::<C, R>(rt, lines, threads));
        table.add(rt, intern, threads, time_intern::<C, R>(rt, lines, threads));
    }
}

// Times the calls that intern and look up texts of an interner that has them all, with each number of threads.
fn time_finding<C: Calls, R: AllocGlobal + Clock + Print + Threads + Wait + Sync>(
    rt: &R,
    table: &mut Table,
    names: [&str; 2],
    rodeo: &SpurThreadedRodeo,
    lines: &Lines,
) {
    let [present, get] = names;
    for threads in THREADS {
        let interned = time_present::<C, R>(rt, rodeo, lines, threads, true);
        table.add(rt, present, threads, interned);
        let found = time_present::<C, R>(rt, rodeo, lines, threads, false);
        table.add(rt, get, threads, found);
    }
}

// Times the calls that resolve keys, with each number of threads.
fn time_resolving<R: AllocGlobal + Clock + Print + Threads + Wait + Sync>(
    rt: &R,
    table: &mut Table,
    rodeo: &SpurThreadedRodeo,
    lines: &Lines,
) {
    let Ok(keys) = keys_of(rt, rodeo, &lines.again) else {
        return table.fail(NO_MEMORY);
    };
    for threads in THREADS {
        let by_pass = time_resolve(rt, rodeo, &keys, lines, threads, false);
        table.add(rt, "resolve", threads, by_pass);
        let plain = time_resolve(rt, rodeo, &keys, lines, threads, true);
        table.add(rt, "plain_resolve", threads, plain);
    }
}

// The keys of the present texts.
fn keys_of<R: AllocGlobal + Wait>(
    rt: &R,
    rodeo: &SpurThreadedRodeo,
    texts: &[String],
) -> Result<Vec<Spur>, AllocError> {
    let mut keys = Vec::new(rt.alloc());
    for text in texts {
        if let Some(key) = rodeo.get(rt, text.as_str()) {
            keys.push(key)?;
        }
    }
    Ok(keys)
}

// Has `threads` threads intern all lines at once, which are present, or look them up.
fn time_present<C: Calls, R: AllocGlobal + Clock + Threads + Wait + Sync>(
    rt: &R,
    rodeo: &SpurThreadedRodeo,
    lines: &Lines,
    threads: usize,
    is_interned: bool,
) -> Tenths {
    let start = started(rt);
    let sums = map_indices(
        rt,
        rt.alloc(),
        threads,
        &|_| if is_interned {
            C::intern_all(rt, rodeo, &lines.again)
        } else {
            C::get_all(rt, rodeo, &lines.again)
        },
    );
    let elapsed = elapsed_since(rt, start);
    let wanted = Some(lines.positions);
    tenths_if_all(sums, &wanted, "a key is wrong", elapsed, lines.again.len())
}

// Has `threads` threads resolve all keys of the lines at once, with a pass or plainly.
fn time_resolve<R: AllocGlobal + Clock + Threads + Sync>(
    rt: &R,
    rodeo: &SpurThreadedRodeo,
    keys: &[Spur],
    lines: &Lines,
    threads: usize,
    is_plain: bool,
) -> Tenths {
    let start = started(rt);
    let sums = map_indices(
        rt,
        rt.alloc(),
        threads,
        &|_| if is_plain {
            resolve_keys_plainly(rodeo, keys)
        } else {
            resolve_keys(rt.alloc(), rodeo, keys)
        },
    );
    let elapsed = elapsed_since(rt, start);
    tenths_if_all(sums, &lines.lengths, "a text is wrong", elapsed, keys.len())
}

// Has `threads` threads intern the distinct lines, each a part of them, in a new interner.
fn time_new<C: Calls, R: AllocGlobal + Clock + Threads + Wait + Sync>(
    rt: &R,
    lines: &Lines,
    threads: usize,
) -> Tenths {
    let Ok(rodeo) = ThreadedRodeo::default(rt.alloc()) else {
        return Err(NO_MEMORY);
    };
    let (sum, tenths) = time_parts::<C, R>(rt, &rodeo, &lines.distinct, threads);
    let are_keys = sum == Some(sum_of_positions(lines.distinct.len()));
    if_so(are_keys, "a text was refused, or a key is wrong", tenths)
}

// Has `threads` threads intern the lines, each a part of them, in a new interner.
fn time_intern<C: Calls, R: AllocGlobal + Clock + Threads + Wait + Sync>(
    rt: &R,
    lines: &Lines,
    threads: usize,
) -> Tenths {
    let Ok(rodeo) = ThreadedRodeo::default(rt.alloc()) else {
        return Err(NO_MEMORY);
    };
    let (sum, tenths) = time_parts::<C, R>(rt, &rodeo, &lines.texts, threads);
    let are_texts = sum.is_some() && rodeo.len() == lines.distinct.len();
    if_so(are_texts, "a text was refused, or is wrong", tenths)
}

// Has `threads` threads intern the texts, each a part of them. Returns the sum of their positions, or `None` if one is refused, and
// what a call takes each thread.
fn time_parts<C: Calls, R: AllocGlobal + Clock + Threads + Wait + Sync>(
    rt: &R,
    rodeo: &SpurThreadedRodeo,
    texts: &[String],
    threads: usize,
) -> (Option<usize>, Tenths) {
    let size = texts.len().div_ceil(threads.max(1)).max(1);
    let start = started(rt);
    let sums = map_chunks(
        rt,
        rt.alloc(),
        texts,
        size,
        &|_, part| C::intern_all(rt, rodeo, part),
    );
    let elapsed = elapsed_since(rt, start);
    let Ok(sums) = sums else {
        return (None, Err(NO_MEMORY));
    };
    (sum_of_parts(&sums), tenths_of(elapsed, size))
}

// The sum of the parts' sums; `None` if one was refused.
fn sum_of_parts(parts: &[Option<usize>]) -> Option<usize> {
    let mut sum = 0usize;
    for part in parts {
        sum = sum.wrapping_add((*part)?);
    }
    Some(sum)
}

// Calls of an interner that threads share for many texts at a time, with a pass that keeps hints.

/// Batches of this number of texts, at least one.
pub struct Batches<const SIZE: usize>;

impl<const SIZE: usize> Calls for Batches<SIZE> {
    fn intern_all<R: AllocGlobal + Wait>(
        rt: &R,
        rodeo: &SpurThreadedRodeo,
        texts: &[String],
    ) -> Option<usize> {
        intern_batches(rt, rodeo, texts, SIZE.max(1))
    }

    fn get_all<R: AllocGlobal + Wait>(
        rt: &R,
        rodeo: &SpurThreadedRodeo,
        texts: &[String],
    ) -> Option<usize> {
        get_batches(rt, rodeo, texts, SIZE.max(1))
    }
}

// Puts the texts in place of those in `batch`. `false` when out of memory.
fn is_lent<'a>(texts: &'a [String], batch: &mut Vec<&'a str>) -> bool {
    batch.clear();
    if batch.reserve(texts.len()).is_err() {
        return false;
    }
    for text in texts {
        if batch.push(text.as_str()).is_err() {
            return false;
        }
    }
    true
}

// Interns the texts in batches of this size.
fn intern_batches<R: AllocGlobal + Wait>(
    rt: &R,
    rodeo: &SpurThreadedRodeo,
    texts: &[String],
    size: usize,
) -> Option<usize>
    requires { 0 < size }
{
    let mut caller = Caller::new(rt.alloc(), rodeo, true);
    let mut batch = Vec::new(rt.alloc());
    let mut keys = Vec::new(rt.alloc());
    let mut sum = 0usize;
    for part in texts.chunks(size) {
        if !is_lent(part, &mut batch) || !caller.intern_batch(rt, &batch, &mut keys) {
            return None;
        }
        for key in keys.iter() {
            sum = sum.wrapping_add(key.into_usize());
        }
    }
    Some(sum)
}

// Looks the texts up in batches of this size.
fn get_batches<R: AllocGlobal + Wait>(
    rt: &R,
    rodeo: &SpurThreadedRodeo,
    texts: &[String],
    size: usize,
) -> Option<usize>
    requires { 0 < size }
{
    let mut caller = Caller::new(rt.alloc(), rodeo, true);
    let mut batch = Vec::new(rt.alloc());
    let mut keys = Vec::new(rt.alloc());
    let mut sum = 0usize;
    for part in texts.chunks(size) {
        if !is_lent(part, &mut batch) || !caller.find_batch(rt, &batch, &mut keys) {
            return None;
        }
        sum = sum.wrapping_add(position_sum(keys.as_slice())?);
    }
    Some(sum)
}

// The sum of the positions of the keys, or `None` where one is missing.
fn position_sum(keys: &[Option<Spur>]) -> Option<usize> {
    let mut sum = 0usize;
    for key in keys {
        sum = sum.wrapping_add((*key)?.into_usize());
    }
    Some(sum)
}
