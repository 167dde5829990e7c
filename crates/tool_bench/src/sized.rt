//! Calls of the interner that take one text and calls that take all of them, over texts of given sizes; and filling
//! interners: with texts that collide under the fixed seed, and round after round with the same texts.
use crate::single::{intern_all, keys_of, round};
use crate::texts::{Form, Sample};
use crate::timing::{
    NO_MEMORY, Table, Tenths, elapsed_since, if_so, last_byte, least, started, sum_of_last_bytes,
    tenths_if, tenths_of_positions,
};
use anyhow::Result;
use lasso::keyed::keyed_by;
use lasso::{FixedState, Key, LassoResult, Rodeo, Spur, SpurRodeo, TextState};
use std::alloc::{AllocError, Global};
use std::hash::BuildHasher;
use std::rt::Clock;
use test_common::texts::{colliding, not_colliding};

// How many texts there are, and the bytes of each.
static SIZES: [(u32, usize); 12] = [
    (10_000, 7),
    (10_000, 11),
    (10_000, 35),
    (10_000, 200),
    (100_000, 7),
    (100_000, 11),
    (100_000, 35),
    (100_000, 200),
    (1_000_000, 7),
    (1_000_000, 11),
    (1_000_000, 35),
    (1_000_000, 200),
];

/// Times one round of calls over texts of each size. Out of memory is a fault.
pub fn time_sizes<R: AllocGlobal + Clock + Print>(rt: &R, table: &mut Table) {
    for (count, bytes) in &SIZES {
        time_size(rt, table, *count, *bytes);
    }
}

/// Times one round of these calls over `count` texts of `bytes` bytes each.
pub fn time_size<R: AllocGlobal + Clock + Print>(
    rt: &R,
    table: &mut Table,
    count: u32,
    bytes: usize,
) {
    let Ok(sample) = Sample::new(rt.alloc(), Form::Padded(bytes), count) else {
        return table.fail(NO_MEMORY);
    };
    let Ok(mut rodeo) = SpurRodeo::new(rt.alloc()) else {
        return table.fail(NO_MEMORY);
    };
    let [new, present, absent, resolve] = round(rt, &mut rodeo, &sample);
    let [present_all, absent_all, resolve_all] = round_of_all(rt, &mut rodeo, &sample);
    let rows = [
        ("new", new),
        ("present", present),
        ("present_all", present_all),
        ("absent", absent),
        ("absent_all", absent_all),
        ("resolve", resolve),
        ("resolve_all", resolve_all),
    ];
    for (call, tenths) in &rows {
        add_line(rt, table, call, bytes, count as usize, *tenths);
    }
}

// Adds a line whose call is named with the bytes of a text.
fn add_line<R: AllocGlobal + Print>(
    rt: &R,
    table: &mut Table,
    call: &str,
    bytes: usize,
    count: usize,
    tenths: Tenths,
) {
    match format!(in rt.alloc(); "{bytes} {call}") {
        Ok(name) => table.add(rt, name.as_str(), count, tenths),
        Err(_) => table.fail(NO_MEMORY),
    }
}

// What a text takes in each call with all texts: interning present ones, asking for absent ones, and resolving keys.
fn round_of_all<R: AllocGlobal + Clock>(
    rt: &R,
    rodeo: &mut SpurRodeo,
    sample: &Sample,
) -> [Tenths; 3] {
    let (Ok(again), Ok(missing)) = (
        lent(rt.alloc(), &sample.again),
        lent(rt.alloc(), &sample.missing),
    ) else {
        return [Err(NO_MEMORY), Err(NO_MEMORY), Err(NO_MEMORY)];
    };
    let Ok(keys) = keys_of(rt.alloc(), rodeo, &sample.again) else {
        return [Err(NO_MEMORY), Err(NO_MEMORY), Err(NO_MEMORY)];
    };
    let last_bytes = sum_of_last_bytes(&sample.again);
    [
        time_intern_all(rt, rodeo, &again, &keys),
        time_get_all(rt, rodeo, &missing),
        time_resolve_all(rt, rodeo, &keys, last_bytes),
    ]
}

// The texts.
fn lent(alloc: Global, texts: &[String]) -> Result<Vec<&str>, AllocError> {
    let mut list = Vec::new(alloc);
    for text in texts {
        list.push(text.as_str())?;
    }
    Ok(list)
}

// Interns the texts, which have the first positions and these keys. The list of keys was written before, so that its
// memory is there.
fn time_intern_all<R: AllocGlobal + Clock>(
    rt: &R,
    rodeo: &mut SpurRodeo,
    texts: &[&str],
    keys: &[Spur],
) -> Tenths {
    let Ok(mut found) = Vec::from_slice(rt.alloc(), keys) else {
        return Err(NO_MEMORY);
    };
    found.clear();
    let start = started(rt);
    let interned = rodeo.try_get_or_intern_all(texts, &mut found);
    let sum = sum_of_keys(&found);
    let elapsed = elapsed_since(rt, start);
    let sum = if interned.is_ok() { Some(sum) } else { None };
    tenths_of_positions(sum, elapsed, texts.len())
}

// Asks for the texts, which are absent.
fn time_get_all<R: AllocGlobal + Clock>(rt: &R, rodeo: &SpurRodeo, texts: &[&str]) -> Tenths {
    let mut found = Vec::new(rt.alloc());
    if found.resize(texts.len(), None).is_err() {
        return Err(NO_MEMORY);
    }
    found.clear();
    let start = started(rt);
    let asked = rodeo.get_all(texts, &mut found);
    let missing = count_missing(&found);
    let elapsed = elapsed_since(rt, start);
    let are_missing = asked.is_ok() && missing == texts.len();
    tenths_if(
        are_missing,
        "a text is there that should not be",
        elapsed,
        texts.len(),
    )
}

// Resolves the keys, whose texts have this sum of their last bytes.
fn time_resolve_all<R: AllocGlobal + Clock>(
    rt: &R,
    rodeo: &SpurRodeo,
    keys: &[Spur],
    last_bytes: usize,
) -> Tenths {
    if !rodeo.contains_keys(keys) {
        return Err("a key is missing");
    }
    let mut texts = Vec::new(rt.alloc());
    if texts.resize(keys.len(), "").is_err() {
        return Err(NO_MEMORY);
    }
    texts.clear();
    let start = started(rt);
    let resolved = rodeo.resolve_all(keys, &mut texts);
    let sum = sum_of_lent(&texts);
    let elapsed = elapsed_since(rt, start);
    let are_texts = resolved.is_ok() && sum == last_bytes;
    tenths_if(are_texts, "a text is wrong", elapsed, keys.len())
}

// The sum of the keys' positions.
fn sum_of_keys(keys: &[Spur]) -> usize {
    let mut sum = 0usize;
    for key in keys {
        sum = sum.wrapping_add(key.into_usize());
    }
    sum
}

// How many texts have no key.
fn count_missing(keys: &[Option<Spur>]) -> usize {
    let mut missing = 0usize;
    for key in keys {
        if key.is_none() {
            missing = missing.wrapping_add(1);
        }
    }
    missing
}

// The sum of the texts' last bytes.
fn sum_of_lent(texts: &[&str]) -> usize {
    let mut sum = 0usize;
    for text in texts {
        sum = sum.wrapping_add(last_byte(text));
    }
    sum
}

// Filling interners: with texts that collide under the fixed seed, and round after round with the same texts.

// How often each interner is filled.
const ROUNDS: u32 = 4;

// The rounds' seeds are multiples of this number.
const SPREAD: u64 = 0x9e37_79b9_7f4a_7c15;

/// Times filling interners with `count` texts that collide under the fixed seed, and with as many that don't: the least of several
/// rounds, by a text. In each round `seeded` has another seed. It fails if there is no memory for the texts.
pub fn time_collisions<R: AllocGlobal + Clock + Print>(
    rt: &R,
    table: &mut Table,
    count: u32,
) -> Result<()> {
    let texts = colliding(rt.alloc(), count)?;
    let hasher = keyed_by(*b"sixteen of bytes");
    let others = not_colliding(rt.alloc(), count)?;
    let mut fixed = Ok(u64::MAX);
    let mut seeded = Ok(u64::MAX);
    let mut seeded_others = Ok(u64::MAX);
    let mut keyed = Ok(u64::MAX);
    for round in 0..ROUNDS {
        let other = TextState::with_seed(u64::from(round).wrapping_mul(SPREAD), SPREAD);
        fixed = least(fixed, time_filling(rt, FixedState::new(), &texts));
        seeded = least(seeded, time_filling(rt, other, &texts));
        seeded_others = least(seeded_others, time_filling(rt, other, &others));
        keyed = least(keyed, time_filling(rt, hasher, &texts));
    }
    table.add(rt, "fixed", texts.len(), fixed);
    table.add(rt, "seeded", texts.len(), seeded);
    table.add(rt, "others", texts.len(), seeded_others);
    table.add(rt, "keyed", texts.len(), keyed);
    Ok(())
}

// Fills a new interner with the texts.
fn time_filling<S: BuildHasher + Drop, R: AllocGlobal + Clock>(
    rt: &R,
    hasher: S,
    texts: &[String],
) -> Tenths {
    let start = started(rt);
    let sum = intern_hashed(rt.alloc(), hasher, texts);
    let elapsed = elapsed_since(rt, start);
    tenths_of_positions(sum.ok(), elapsed, texts.len())
}

// Interns the texts in a new interner, and gives the sum of their positions.
fn intern_hashed<S: BuildHasher + Drop>(
    alloc: Global,
    hasher: S,
    texts: &[String],
) -> LassoResult<usize> {
    let mut rodeo: Rodeo<Spur, S, Global> = Rodeo::with_hasher(alloc, hasher)?;
    let mut sum: usize = 0;
    for text in texts.iter() {
        let key = rodeo.try_get_or_intern(text.as_str())?;
        sum = sum.wrapping_add(key.into_usize());
    }
    Ok(sum)
}

// An interner that is cleared and filled with the same texts round after round, compared with a new one for each round.

/// Times filling an interner with the texts `rounds` times, with a clear before each time, and a new interner as many times: the
/// least of them, by a text. Returns the bytes that the buckets of the kept one take after the last but one round and after the last. It is
/// a fault if these differ, and out of memory is one.
pub fn time_refilling<R: AllocGlobal + Clock + Print>(
    rt: &R,
    table: &mut Table,
    texts: &[String],
    rounds: u32,
) -> [usize; 2] {
    let Ok(mut kept) = SpurRodeo::new(rt.alloc()) else {
        table.fail(NO_MEMORY);
        return [0; 2];
    };
    let mut usages = [0; 2];
    let mut refilled = Ok(u64::MAX);
    let mut anew = Ok(u64::MAX);
    for _ in 0..rounds {
        refilled = least(refilled, time_refill(rt, &mut kept, texts));
        anew = least(anew, time_anew(rt, texts));
        usages = [usages[1], kept.current_memory_usage()];
    }
    let is_kept = usages[0] == usages[1];
    table.add(
        rt,
        "refilled",
        texts.len(),
        if_so(is_kept, "a round took more memory", refilled),
    );
    table.add(rt, "anew", texts.len(), anew);
    usages
}

// Clears the interner and fills it.
fn time_refill<R: Clock>(rt: &R, kept: &mut SpurRodeo, texts: &[String]) -> Tenths {
    let start = started(rt);
    kept.clear();
    let sum = intern_all(kept, texts);
    let elapsed = elapsed_since(rt, start);
    tenths_of_positions(sum, elapsed, texts.len())
}

// Makes an interner, fills it and lets it go.
fn time_anew<R: AllocGlobal + Clock>(rt: &R, texts: &[String]) -> Tenths {
    let start = started(rt);
    let sum = intern_all_anew(rt.alloc(), texts);
    let elapsed = elapsed_since(rt, start);
    tenths_of_positions(sum, elapsed, texts.len())
}

// Interns the texts in an interner of its own, and returns the sum of their positions; `None` if one is refused.
fn intern_all_anew(alloc: Global, texts: &[String]) -> Option<usize> {
    let Ok(mut rodeo) = SpurRodeo::new(alloc) else {
        return None;
    };
    intern_all(&mut rodeo, texts)
}
