//! Counts texts in parts. A thread counts each part with its own interner.
ghost use Rattle.std.specs.Prelude.{◌≡◌, ◌+◌, ◌-◌, ◌^◌, ◌<◌, ◌≤◌, ◌++◌, Ok, IfErr, IfSome, All};
ghost use Rattle.std.specs.Prelude.{length, map, replicate, sum, vec_len, vec_capacity};
ghost use Rattle.lasso_single.specs.Filling.{extend};
ghost use Rattle.lasso_single.specs.Coding.{spur_at};
ghost use Rattle.lasso_columns.specs.Counts.{AreCounts};
ghost use Rattle.lasso_columns.specs.Adding.{AddsAmountsAt, AddsCounts, IsRefusedAmong, RefusesNewAmong, counted_of};

use crate::counts::counting::count_texts;
use crate::counts::error::CountError;
use crate::interners::SpurRodeoReader;
use crate::merge;
use lasso_parts::keys::Spur;
use lasso_single::rodeo::Rodeo;
use std::alloc::{Allocator, Global};
use std::hash::BuildHasher;
use std::thread::{Threads, map_chunks};

/// Does what `count_texts` does, with up to `workers` threads. The list and the counts are the same for each
/// number of threads. Each thread counts a part of the texts with its own interner. Then the caller interns
/// the distinct texts of each part, in the order of the parts, and adds their counts.
///
/// It pays if most texts repeat within their part. The caller counts a part for which there is no memory or
/// no thread. With at most one worker it is `count_texts`.
///
/// There must be one count for each text of the interner. Their sum plus the number of texts must be below
/// 2^64.
///
/// # Errors
/// The first text that is refused, as for `count_texts`: the texts before it are interned and counted.
///
/// ```rust
/// let mut rodeo: SpurRodeo = Rodeo::default(rt.alloc())?;
/// let mut counts = Vec::new(rt.alloc());
/// assert!(rt; count_in_parts(&rt, &mut rodeo, &["red", "green", "red"], &mut counts, 2).is_ok());
/// assert!(rt; counts.as_slice() == [2, 1].as_slice());
/// ```
pub fn count_in_parts<R: AllocGlobal + Threads + Sync, S: BuildHasher, A: Allocator + Clone>(
    rt: &R,
    rodeo: &mut Rodeo<Spur, S, A>,
    texts: &[&str],
    counts: &mut Vec<u64>,
    workers: usize,
) -> Result<(), CountError>
    requires lengths { vec_len counts.old ≡ length rodeo.old.texts }
    requires fits { sum counts.old.items + length texts.now < 2 ^ 64 }
    ensures list { extend spur_at rodeo.old (counted_of result (map (λ t. t.now) texts.now)) (Ok tt) rodeo.new }
    ensures counts { AddsCounts (counted_of result (map (λ t. t.now) texts.now)) rodeo.old.texts counts.old.items rodeo.new.texts counts.new.items }
    ensures refused { IfErr result (λ error. IsRefusedAmong rodeo.new (map (λ t. t.now) texts.now) error) }
    ensures memory { IfErr result (λ error. RefusesNewAmong rodeo.new counts.new (map (λ t. t.now) texts.now) error) }
    ensures room { vec_capacity counts.old ≤ vec_capacity counts.new }
{
    if workers < 2 {
        return count_texts(rodeo, texts, counts);
    }
    let size = texts.len().div_ceil(workers).max(1);
    let work = move |_: usize, part: &[&str]| -> Option<Part>
        ensures { IfSome result (λ counted. AreCounts (map (λ t. t.now) part.entry.now) counted.list counted.counts.items) }
    { count_part(rt.alloc(), part) };
    let Ok(parts) = map_chunks(rt, rt.alloc(), texts, size, &work) else {
        return count_texts(rodeo, texts, counts);
    };
    let mut start = 0;
    for part in 0..parts.len() {
        let count = size.min(texts.len() - start);
        let here = &texts[start..start + count];
        if let Err(error) = put_part(rt.alloc(), rodeo, here, &parts[part], counts) {
            return Err(error.after(start));
        }
        start += count;
    }
    Ok(())
}

// The distinct texts of a part, and their counts.
#[derive(Drop)]
struct Part {
    list: SpurRodeoReader,
    counts: Vec<u64>,
}

// Counts the texts with a new interner. `None` if it runs out of memory.
fn count_part(alloc: Global, texts: &[&str]) -> Option<Part>
    ensures { IfSome result (λ counted. AreCounts (map (λ t. t.now) texts.now) counted.list counted.counts.items) }
{
    let Ok(mut rodeo) = Rodeo::default(alloc) else {
        return None;
    };
    let mut counts = Vec::new(alloc);
    if count_texts(&mut rodeo, texts, &mut counts).is_err() {
        return None;
    }
    Some(Part {
        list: rodeo.into_reader(),
        counts,
    })
}

// Does what `count_texts` does, and uses the counts of the part if there is one. `texts` are the texts of the
// part.
fn put_part<S: BuildHasher, A: Allocator + Clone>(
    alloc: Global,
    rodeo: &mut Rodeo<Spur, S, A>,
    texts: &[&str],
    part: &Option<Part>,
    counts: &mut Vec<u64>,
) -> Result<(), CountError>
    requires lengths { vec_len counts.old ≡ length rodeo.old.texts }
    requires fits { sum counts.old.items + length texts.now < 2 ^ 64 }
    requires counted { IfSome part.now (λ counted. AreCounts (map (λ t. t.now) texts.now) counted.list counted.counts.items) }
    ensures list { extend spur_at rodeo.old (counted_of result (map (λ t. t.now) texts.now)) (Ok tt) rodeo.new }
    ensures counts { AddsCounts (counted_of result (map (λ t. t.now) texts.now)) rodeo.old.texts counts.old.items rodeo.new.texts counts.new.items }
    ensures refused { IfErr result (λ error. IsRefusedAmong rodeo.new (map (λ t. t.now) texts.now) error) }
    ensures memory { IfErr result (λ error. RefusesNewAmong rodeo.new counts.new (map (λ t. t.now) texts.now) error) }
    ensures room { vec_capacity counts.old ≤ vec_capacity counts.new }
{
    let Some(part) = part else {
        return count_texts(rodeo, texts, counts);
    };
    // Reserves room for the counts before a text of the part is interned.
    let Ok(()) = counts.reserve(part.list.len()) else {
        return count_texts(rodeo, texts, counts);
    };
    let merged = merge(alloc, rodeo, &part.list);
    pad(counts, rodeo.len());
    match merged {
        Ok(places) => {
            add_counts(counts, &places, &part.counts);
            Ok(())
        }
        // The first texts are interned by now, and have no counts yet.
        Err(_) => count_texts(rodeo, texts, counts),
    }
}

// Appends zeros until there are `len` counts.
fn pad(counts: &mut Vec<u64>, len: usize)
    requires room { len ≤ vec_capacity counts.old }
    ensures items { counts.new.items ≡ counts.old.items ++ replicate (len - vec_len counts.old) 0 }
    ensures capacity { vec_capacity counts.new ≡ vec_capacity counts.old }
{
    for _ in counts.len()..len {
        counts.push_reserved(0);
    }
}

// Adds each amount to the count at its place.
fn add_counts(counts: &mut Vec<u64>, places: &[u32], amounts: &[u64])
    requires inside { All (λ place. place < vec_len counts.old) places.now }
    requires each { length places.now ≡ length amounts.now }
    requires fits { sum counts.old.items + sum amounts.now < 2 ^ 64 }
    ensures capacity { vec_capacity counts.new ≡ vec_capacity counts.old }
    ensures added { AddsAmountsAt places.now amounts.now counts.old.items counts.new.items }
{
    for position in 0..places.len() {
        counts[places[position] as usize] += amounts[position];
    }
}
