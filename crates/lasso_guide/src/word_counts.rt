//! Counts the words of a text by four threads. Each interns its share of the words with its own pass. When
//! two threads have ended, a pass learns what both have seen, and so does the caller's pass at the end.
ghost use Rattle.std.specs.Prelude.{◌≡◌, ℕ, ◌<◌, ◌==◌, All, IfOk, IfErr, get_or, length, map, sum};
ghost use Rattle.std.specs.List.{count_by};
ghost use Rattle.lasso.specs.Views.{PassView, InternerId, IsSamePass, list_of, seen};
ghost use Rattle.lasso_guide.specs.WordKeys.{AreKeysOf, IsRefusalOf, IsShareOf, JoinsKeys, JoinsShares, Resolve};

use lasso::{FixedState, Key, LassoResult, Pass, Snapshot, ThreadedRodeo};
use std::alloc::{AllocError, Global};
use std::sync::Wait;
use std::thread::{Threads, join};

/// The words of a text, counted.
#[derive(Drop)]
pub struct WordCount<K: Key + Drop> {
    /// The key of each word, in the order of the words.
    pub keys: Vec<K>,
    /// The count of each key among them, at the key's position.
    pub counts: Vec<usize>,
}

/// Interns the words by up to four threads, and counts each. If a thread can't be started, the caller does
/// its work. It adds no event to the pass itself, which has afterwards seen what the threads did.
///
/// Fails if a word is refused: no key left, over the memory limit, or out of memory. Each word before that one
/// then has a key in the list that the pass has seen, and the words that were interned stay. It also fails
/// when out of memory for the keys or the counts.
pub fn count_words<R: AllocGlobal + Threads + Wait + Sync, K: Key + Send + Sync + Drop>(
    rt: &R,
    rodeo: &ThreadedRodeo<K, FixedState>,
    pass: &mut Pass<K>,
    words: &[&str],
) -> LassoResult<WordCount<K>>
    requires { pass.old.of ≡ rodeo.now }
    ensures same { IsSamePass pass.new pass.old }
    ensures keys { IfOk result (λ counted. Resolve K.number (list_of rodeo.now pass.new.notes) counted.keys.items (map (λ word. word.now) words.now)) }
    ensures counts { IfOk result (λ counted. (n : ℕ) → get_or counted.counts.items n 0 ≡ count_by (λ key. K.number key == n) counted.keys.items) }
    ensures whole { IfOk result (λ counted. sum counted.counts.items ≡ length words.now) }
    ensures refused { IfErr result (λ error. IsRefusalOf K.number K.key_at rodeo.now.opening (seen pass.new) (map (λ word. word.now) words.now) error) }
{
    let share = intern_by_four(rt, rodeo, words);
    pass.learn(&share.known);
    let keys = share.keys?;
    let texts = rodeo.len_as(pass);
    let counts = tally(rt.alloc(), &keys, texts)?;
    Ok(WordCount { keys, counts })
}

// A share of the words: what the pass that interned them has seen, and their keys, or why one was refused.
#[derive(Drop)]
struct Share<K: Key + Drop> {
    known: Snapshot<K>,
    keys: LassoResult<Vec<K>>,
}

// Each half of the words is interned by two threads.
fn intern_by_four<R: AllocGlobal + Threads + Wait + Sync, K: Key + Send + Sync + Drop>(
    rt: &R,
    rodeo: &ThreadedRodeo<K, FixedState>,
    words: &[&str],
) -> Share<K>
    ensures { IsShareOf K.number K.key_at rodeo.now (map (λ word. word.now) words.now) result.known result.keys }
{
    let (front, back) = words.split_at(words.len() / 2);
    let here = move || -> Share<K>
        ensures { IsShareOf K.number K.key_at rodeo.entry.now (map (λ word. word.now) front.entry.now) result.known result.keys }
    { intern_by_two(rt, rodeo, front) };
    let there = move || -> Share<K>
        ensures { IsShareOf K.number K.key_at rodeo.entry.now (map (λ word. word.now) back.entry.now) result.known result.keys }
    { intern_by_two(rt, rodeo, back) };
    let (first, second) = join(rt, here, there);
    both(rodeo, first, second)
}

// Each half of the words is interned by a thread.
fn intern_by_two<R: AllocGlobal + Threads + Wait + Sync, K: Key + Send + Sync + Drop>(
    rt: &R,
    rodeo: &ThreadedRodeo<K, FixedState>,
    words: &[&str],
) -> Share<K>
    ensures { IsShareOf K.number K.key_at rodeo.now (map (λ word. word.now) words.now) result.known result.keys }
{
    let (front, back) = words.split_at(words.len() / 2);
    let here = move || -> Share<K>
        ensures { IsShareOf K.number K.key_at rodeo.entry.now (map (λ word. word.now) front.entry.now) result.known result.keys }
    { intern_share(rt, rodeo, front) };
    let there = move || -> Share<K>
        ensures { IsShareOf K.number K.key_at rodeo.entry.now (map (λ word. word.now) back.entry.now) result.known result.keys }
    { intern_share(rt, rodeo, back) };
    let (first, second) = join(rt, here, there);
    both(rodeo, first, second)
}

// The share of two shares, by a pass that learns what theirs have seen.
fn both<K: Key + Drop>(
    rodeo: &ThreadedRodeo<K, FixedState>,
    first: Share<K>,
    second: Share<K>,
) -> Share<K>
    requires { (first.known.of ≡ rodeo.now) × (second.known.of ≡ rodeo.now) }
    ensures { JoinsShares K.number K.key_at rodeo.now first.known first.keys second.known second.keys result.known result.keys }
{
    let mut pass = rodeo.pass();
    pass.learn(&first.known);
    pass.learn(&second.known);
    Share {
        known: pass.snapshot(),
        keys: joined(first.keys, second.keys),
    }
}

// The first keys and then the second ones, or the first error.
fn joined<K: Key + Drop>(
    first: LassoResult<Vec<K>>,
    second: LassoResult<Vec<K>>,
) -> LassoResult<Vec<K>>
    ensures { JoinsKeys K.number K.key_at first second result }
{
    let mut keys = first?;
    let more = second?;
    keys.extend_from_slice(&more)?;
    Ok(keys)
}

// Interns a share of the words by a new pass.
fn intern_share<R: AllocGlobal + Wait, K: Key + Drop>(
    rt: &R,
    rodeo: &ThreadedRodeo<K, FixedState>,
    words: &[&str],
) -> Share<K>
    ensures { IsShareOf K.number K.key_at rodeo.now (map (λ word. word.now) words.now) result.known result.keys }
{
    let mut pass = rodeo.pass();
    let keys = intern_all(rt, rodeo, &mut pass, words);
    Share {
        known: pass.snapshot(),
        keys,
    }
}

// Interns the words in order.
fn intern_all<R: AllocGlobal + Wait, K: Key + Drop>(
    rt: &R,
    rodeo: &ThreadedRodeo<K, FixedState>,
    pass: &mut Pass<K>,
    words: &[&str],
) -> LassoResult<Vec<K>>
    requires { pass.old.of ≡ rodeo.now }
    ensures of { pass.new.of ≡ rodeo.now }
    ensures keys { AreKeysOf K.number K.key_at rodeo.now.opening (seen pass.new) (map (λ word. word.now) words.now) result }
{
    let mut keys = Vec::new(rt.alloc());
    for word in words {
        let key = rodeo.try_get_or_intern_as(rt, pass, word)?;
        keys.push(key)?;
    }
    Ok(keys)
}

// The count of each key, at its position. Each position is below `texts`.
fn tally<K: Key + Drop>(alloc: Global, keys: &[K], texts: usize) -> Result<Vec<usize>, AllocError>
    requires { All (λ key. K.number key < texts) keys.now }
    ensures counts { IfOk result (λ counts. (n : ℕ) → get_or counts.items n 0 ≡ count_by (λ key. K.number key == n) keys.now) }
    ensures whole { IfOk result (λ counts. sum counts.items ≡ length keys.now) }
{
    let mut counts = vec![in alloc; 0; texts]?;
    for key in keys {
        counts[key.into_usize()] += 1;
    }
    Ok(counts)
}
