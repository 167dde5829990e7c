//! Encodes texts to codes in parts, each by a thread with an interner of its own.
ghost use Rattle.std.specs.Prelude.{◌≡◌, ℕ, ◌+◌, ◌<◌, ◌≤◌, Ok, OnOk, IfErr, IfSome, All};
ghost use Rattle.std.specs.Prelude.{length, map, slice_index, vec_len, vec_capacity};
ghost use Rattle.lasso_single.specs.Filling.{extend};
ghost use Rattle.lasso_single.specs.Codes.{AddsCodes};
ghost use Rattle.lasso_single.specs.Coding.{spur_at, encoded_texts, IsNextRefused, MayLackMemoryNext};
ghost use Rattle.lasso_columns.specs.Parts.{IsEncoded, AddsRewritten};

use crate::interners::SpurRodeoReader;
use crate::merge;
use lasso_parts::keys::Spur;
use lasso_parts::util::LassoResult;
use lasso_single::coding::encode;
use lasso_single::rodeo::Rodeo;
use std::alloc::{Allocator, Global};
use std::hash::BuildHasher;
use std::thread::{Threads, for_each_mut, map_chunks};

// The most texts of a part that are encoded before it may give up.
const LONGEST_SAMPLE: usize = 65_536;

// How many codes are worth a thread: rewriting them takes about as long as starting one.
const CODES_A_THREAD: usize = 65_536;

/// Does what `encode` does, with up to `workers` threads, and returns what `encode` returns: the same codes
/// and the same list, whatever the number of threads. Each thread encodes a part of the texts with its
/// own interner. Then the caller interns the distinct texts of each part, in the order of the parts,
/// and the codes are rewritten.
///
/// It pays when most texts repeat within their part. A part whose first texts are mostly new gives up, and
/// the caller encodes it as `encode` does; so does a part that runs out of memory. With one worker, or none,
/// it is `encode`. Until it returns, it keeps a dictionary of each part and a code of 4 bytes for each text.
/// For an interner that other threads use meanwhile, there is `encode_shared`.
///
/// Stops at the first text that is refused, as `encode` does: the texts before it are interned and have
/// their codes. Out of memory (`FailedAllocation`) occurs only if it may occur in `encode`.
///
/// ```rust
/// let mut rodeo: SpurRodeo = Rodeo::default(rt.alloc())?;
/// let mut codes = Vec::new(rt.alloc());
/// encode_in_parts(&rt, &mut rodeo, &["red", "green", "red"], &mut codes, 2)?;
/// assert!(rt; codes.as_slice() == [0, 1, 0].as_slice());
/// ```
pub fn encode_in_parts<R: AllocGlobal + Threads + Sync, S: BuildHasher, A: Allocator + Clone>(
    rt: &R,
    rodeo: &mut Rodeo<Spur, S, A>,
    texts: &[&str],
    codes: &mut Vec<u32>,
    workers: usize,
) -> LassoResult<()>
    // Either way the first texts are interned, one for each added code, and a text's code is its position in the interner.
    ensures list { extend spur_at rodeo.old (encoded_texts codes.old.items codes.new.items (map (λ t. t.now) texts.now)) (Ok tt) rodeo.new }
    ensures codes { AddsCodes rodeo.new.texts (encoded_texts codes.old.items codes.new.items (map (λ t. t.now) texts.now)) codes.old.items codes.new.items }

    // On success these are all texts.
    ensures whole { OnOk result (vec_len codes.new ≡ vec_len codes.old + length texts.now) }

    // On failure the text after them was refused: no key left comes before the limit, and the limit before memory, unless `codes` is full.
    ensures refused { IfErr result (IsNextRefused rodeo.new codes.old.items codes.new.items (map (λ t. t.now) texts.now)) }
    ensures memory { IfErr result (MayLackMemoryNext rodeo.new codes.old.items codes.new (map (λ t. t.now) texts.now)) }
{
    if workers < 2 {
        return encode(rodeo, texts, codes);
    }
    // If there is no memory for all codes at once, each part asks for its own.
    let _ = codes.reserve(texts.len());
    let size = texts.len().div_ceil(workers).max(1);
    let work = move |_: usize, part: &[&str]| -> Option<Part>
        ensures { IfSome result (λ encoded. IsEncoded (map (λ t. t.now) part.entry.now) encoded.list encoded.codes.items) }
    { encode_part(rt.alloc(), part) };
    let Ok(parts) = map_chunks(rt, rt.alloc(), texts, size, &work) else {
        return encode(rodeo, texts, codes);
    };
    let mut start = 0;
    for part in 0..parts.len() {
        let count = size.min(texts.len() - start);
        let here = &texts[start..start + count];
        put_part(rt, rodeo, here, &parts[part], codes, workers)?;
        start += count;
    }
    Ok(())
}

// The distinct texts of a part, and the codes of all its texts in this list.
#[derive(Drop)]
struct Part {
    list: SpurRodeoReader,
    codes: Vec<u32>,
}

// Encodes the texts with a new interner. Returns `None` if memory runs out, or if more than half of the
// first texts are new: the caller would then intern most texts again.
fn encode_part(alloc: Global, texts: &[&str]) -> Option<Part>
    ensures { IfSome result (λ encoded. IsEncoded (map (λ t. t.now) texts.now) encoded.list encoded.codes.items) }
{
    let Ok(mut rodeo) = Rodeo::default(alloc) else {
        return None;
    };
    let mut codes = Vec::new(alloc);
    let sample = LONGEST_SAMPLE.min(texts.len() / 8);
    if encode(&mut rodeo, &texts[..sample], &mut codes).is_err() || rodeo.len() > sample / 2 {
        return None;
    }
    if encode(&mut rodeo, &texts[sample..], &mut codes).is_err() {
        return None;
    }
    Some(Part {
        list: rodeo.into_reader(),
        codes,
    })
}

// Does what `encode` does with the texts. `part` is what `encode_part` returned for them.
fn put_part<R: AllocGlobal + Threads + Sync, S: BuildHasher, A: Allocator + Clone>(
    rt: &R,
    rodeo: &mut Rodeo<Spur, S, A>,
    texts: &[&str],
    part: &Option<Part>,
    codes: &mut Vec<u32>,
    workers: usize,
) -> LassoResult<()>
    requires workers { 0 < workers }
    requires encoded { IfSome part.now (λ encoded. IsEncoded (map (λ t. t.now) texts.now) encoded.list encoded.codes.items) }
    ensures list { extend spur_at rodeo.old (encoded_texts codes.old.items codes.new.items (map (λ t. t.now) texts.now)) (Ok tt) rodeo.new }
    ensures codes { AddsCodes rodeo.new.texts (encoded_texts codes.old.items codes.new.items (map (λ t. t.now) texts.now)) codes.old.items codes.new.items }
    ensures whole { OnOk result (vec_len codes.new ≡ vec_len codes.old + length texts.now) }
    ensures refused { IfErr result (IsNextRefused rodeo.new codes.old.items codes.new.items (map (λ t. t.now) texts.now)) }
    ensures memory { IfErr result (MayLackMemoryNext rodeo.new codes.old.items codes.new (map (λ t. t.now) texts.now)) }
{
    let Some(part) = part else {
        return encode(rodeo, texts, codes);
    };
    // Reserves room for all codes before a text of the part is interned.
    if codes.reserve(part.codes.len()).is_err() {
        return encode(rodeo, texts, codes);
    }
    match merge(rt.alloc(), rodeo, &part.list) {
        Ok(table) => {
            append_rewritten(rt, codes, &part.codes, &table, workers);
            Ok(())
        }
        // The first texts are interned by now, and have no codes yet.
        Err(_) => encode(rodeo, texts, codes),
    }
}

// Appends the codes, rewritten by the table. `codes` must have room for all. Up to `workers` threads rewrite.
fn append_rewritten<R: Threads + Sync>(
    rt: &R,
    codes: &mut Vec<u32>,
    part: &[u32],
    table: &[u32],
    workers: usize,
)
    requires workers { 0 < workers }
    requires inside { All (λ code. code < length table.now) part.now }
    requires room { vec_len codes.old + length part.now ≤ vec_capacity codes.old }
    ensures { AddsRewritten table.now part.now codes.old.items codes.new.items }
{
    let before = codes.len();
    let Ok(()) = codes.extend_from_slice(part) else {
        unreachable!();
    };
    let threads = workers.min(part.len() / CODES_A_THREAD + 1);
    rewrite(rt, codes.slice_mut(before..), table, threads);
}

// Replaces each code by the new code that the table has for it.
fn rewrite<R: Threads + Sync>(rt: &R, codes: &mut [u32], table: &[u32], threads: usize)
    requires threads { 0 < threads }
    requires inside { All (λ code. code < length table.now) codes.old }
    ensures { (k : ℕ) → k < length codes.old → slice_index codes.new k ≡ slice_index table.now (slice_index codes.old k) }
{
    for_each_mut(rt, codes, threads, &|_, code| *code = table[*code as usize]);
}
