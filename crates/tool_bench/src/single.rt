//! Single calls of the interner and of its frozen forms: each loop sums up what its calls answer, and the sum is
//! compared with what it has to be.
ghost use Rattle.std.specs.Prelude.{◌<◌, ◌≡◌, ◌↔◌, ℕ, All, IfOk, IfSome, IsTrue, List, Some, length, slice_get};

use crate::texts::{Form, Sample, random_positions};
use crate::timing::{
    NO_MEMORY, REFUSED, ROUNDS, Table, Tenths, elapsed_since, if_so, last_byte, least, started,
    sum_of_last_bytes, tenths_if, tenths_of_positions,
};
use lasso::{Key, Spur, SpurRodeo, SpurRodeoReader, SpurRodeoResolver};
use std::alloc::{AllocError, Global};
use std::rt::Clock;

/// Times one round of single calls over `count` texts, of the interner and then of its frozen forms. Out of memory is a fault.
pub fn time_calls<R: AllocGlobal + Clock + Print>(rt: &R, table: &mut Table, count: u32)
    requires { 0 < count }
{
    let Ok(sample) = Sample::new(rt.alloc(), Form::Named, count) else {
        return table.fail(NO_MEMORY);
    };
    time_single(rt, table, &sample);
    time_frozen(rt, table, &sample.texts, count);
}

// Times each call once over all texts, in an interner of its own.
fn time_single<R: AllocGlobal + Clock + Print>(rt: &R, table: &mut Table, sample: &Sample) {
    let Ok(mut rodeo) = SpurRodeo::new(rt.alloc()) else {
        return table.fail(NO_MEMORY);
    };
    let [new, present, absent, resolved] = round(rt, &mut rodeo, sample);
    let count = sample.texts.len();
    table.add(rt, "new", count, new);
    table.add(rt, "present", count, present);
    table.add(rt, "absent", count, absent);
    table.add(rt, "try_resolve", count, resolved);
}

/// What each call takes over all texts, in an empty interner: to intern new texts and present ones, to ask for absent ones, and to
/// resolve keys.
pub fn round<R: AllocGlobal + Clock>(
    rt: &R,
    rodeo: &mut SpurRodeo,
    sample: &Sample,
) -> [Tenths; 4] {
    let new = time_interns(rt, rodeo, &sample.texts);
    let present = time_interns(rt, rodeo, &sample.again);
    let absent = time_misses(rt, rodeo, &sample.missing);
    [
        new,
        present,
        absent,
        time_resolves(rt, rodeo, &sample.again),
    ]
}

// Interns the texts, which have the first positions.
fn time_interns<R: Clock>(rt: &R, rodeo: &mut SpurRodeo, texts: &[String]) -> Tenths {
    let start = started(rt);
    let sum = intern_all(rodeo, texts);
    let elapsed = elapsed_since(rt, start);
    tenths_of_positions(sum, elapsed, texts.len())
}

// Asks for the texts, which are absent.
fn time_misses<R: Clock>(rt: &R, rodeo: &SpurRodeo, texts: &[String]) -> Tenths {
    let start = started(rt);
    let missing = count_missing(rodeo, texts);
    let elapsed = elapsed_since(rt, start);
    let are_missing = missing == texts.len();
    tenths_if(
        are_missing,
        "a text is there that should not be",
        elapsed,
        texts.len(),
    )
}

// Resolves the keys of the texts, which are present.
fn time_resolves<R: AllocGlobal + Clock>(rt: &R, rodeo: &SpurRodeo, texts: &[String]) -> Tenths {
    let Ok(keys) = keys_of(rt.alloc(), rodeo, texts) else {
        return Err(NO_MEMORY);
    };
    let start = started(rt);
    let sum = resolve_all(rodeo, &keys);
    let elapsed = elapsed_since(rt, start);
    let are_texts = sum == sum_of_last_bytes(texts);
    tenths_if(are_texts, "a text is wrong", elapsed, keys.len())
}

/// An interner with these texts; `None` if one is refused.
pub fn filled(alloc: Global, texts: &[String]) -> Option<SpurRodeo> {
    let Ok(mut rodeo) = SpurRodeo::new(alloc) else {
        return None;
    };
    intern_all(&mut rodeo, texts)?;
    Some(rodeo)
}

/// Interns the texts, and returns the sum of their positions; `None` if one is refused.
pub fn intern_all(rodeo: &mut SpurRodeo, texts: &[String]) -> Option<usize> {
    let mut sum = 0usize;
    for text in texts {
        let Ok(key) = rodeo.try_get_or_intern(text.as_str()) else {
            return None;
        };
        sum = sum.wrapping_add(key.into_usize());
    }
    Some(sum)
}

// Asks for the texts, and returns how many are absent.
fn count_missing(rodeo: &SpurRodeo, texts: &[String]) -> usize {
    let mut missing = 0usize;
    for text in texts {
        if rodeo.get(text.as_str()).is_none() {
            missing = missing.wrapping_add(1);
        }
    }
    missing
}

/// The keys of the present texts.
pub fn keys_of(
    alloc: Global,
    rodeo: &SpurRodeo,
    texts: &[String],
) -> Result<Vec<Spur>, AllocError> {
    let mut keys = Vec::new(alloc);
    for text in texts {
        if let Some(key) = rodeo.get(text.as_str()) {
            keys.push(key)?;
        }
    }
    Ok(keys)
}

// Resolves the keys, and returns the sum of their texts' last bytes.
fn resolve_all(rodeo: &SpurRodeo, keys: &[Spur]) -> usize {
    let mut sum = 0usize;
    for key in keys {
        if let Some(text) = rodeo.try_resolve(*key) {
            sum = sum.wrapping_add(last_byte(text));
        }
    }
    sum
}

// Frozen interners: how long it takes to read a key's text from one.

/// Texts that no longer change, read by keys that each stand for one of them.
pub trait FrozenTexts: Drop {
    // the texts in the order of their keys
    ghost texts: { Self → List (List ℕ) };

    /// Whether the key stands for a text.
    fn contains_key(&self, key: Spur) -> bool
        ensures { IsTrue result ↔ (⟦<Spur as Key>⟧.number key < length (texts self.now)) };

    /// The key's text. The key must stand for one.
    fn resolve(&self, key: Spur) -> &str
        requires { ⟦<Spur as Key>⟧.number key < length (texts self.now) }
        ensures { slice_get (texts self.now) (⟦<Spur as Key>⟧.number key) ≡ Some result.now };
}

impl FrozenTexts for SpurRodeoReader {
    ghost texts = { λ reader. reader };

    fn contains_key(&self, key: Spur) -> bool {
        self.contains_key(key)
    }

    fn resolve(&self, key: Spur) -> &str {
        self.resolve(key)
    }
}

impl FrozenTexts for SpurRodeoResolver {
    ghost texts = { λ resolver. resolver };

    fn contains_key(&self, key: Spur) -> bool {
        self.contains_key(key)
    }

    fn resolve(&self, key: Spur) -> &str {
        self.resolve(key)
    }
}

/// Times reading keys' texts from an interner of these `count` texts, frozen to a reader and then to a resolver. Out of memory is
/// a fault.
pub fn time_frozen<R: AllocGlobal + Clock + Print>(
    rt: &R,
    table: &mut Table,
    texts: &[String],
    count: u32,
)
    requires { 0 < count }
{
    let Ok(positions) = random_positions(rt.alloc(), count, count) else {
        return table.fail(NO_MEMORY);
    };
    let Some(rodeo) = filled(rt.alloc(), texts) else {
        return table.fail(REFUSED);
    };
    let [reader, resolver] = frozen_round(rt, rodeo.into_reader(), texts, &positions);
    table.add(rt, "reader", positions.len(), reader);
    table.add(rt, "resolver", positions.len(), resolver);
}

// What a call took of a reader of these texts, and of the resolver that it is frozen to.
fn frozen_round<R: AllocGlobal + Clock>(
    rt: &R,
    reader: SpurRodeoReader,
    texts: &[String],
    positions: &[u32],
) -> [Tenths; 2] {
    let last_bytes = sum_of_last_bytes_at(texts, positions);
    let by_reader = best_resolve(rt, &reader, positions, last_bytes);
    let resolver = reader.into_resolver();
    [
        by_reader,
        best_resolve(rt, &resolver, positions, last_bytes),
    ]
}

// The sum of the last bytes of the texts at these positions.
fn sum_of_last_bytes_at(texts: &[String], positions: &[u32]) -> usize {
    let mut sum = 0usize;
    for position in positions {
        if let Some(text) = texts.get(*position as usize) {
            sum = sum.wrapping_add(last_byte(text.as_str()));
        }
    }
    sum
}

// The least that a call took in several passes over the positions, whose texts have this sum of their last bytes.
fn best_resolve<T: FrozenTexts, R: AllocGlobal + Clock>(
    rt: &R,
    texts: &T,
    positions: &[u32],
    last_bytes: usize,
) -> Tenths {
    let Ok(keys) = keys_at(rt.alloc(), texts, positions) else {
        return Err(NO_MEMORY);
    };
    let mut best = Ok(u64::MAX);
    for _ in 0..ROUNDS {
        best = least(best, time_resolve(rt, texts, &keys, last_bytes));
    }
    if_so(keys.len() == positions.len(), "a key is missing", best)
}

// What a call took in one pass over the keys, whose texts have this sum of their last bytes.
fn time_resolve<T: FrozenTexts, R: Clock>(
    rt: &R,
    texts: &T,
    keys: &[Spur],
    last_bytes: usize,
) -> Tenths
    requires { All (λ key. ⟦<Spur as Key>⟧.number key < length (T.texts texts.now)) keys.now }
{
    let start = started(rt);
    let sum = resolve_frozen(texts, keys);
    let elapsed = elapsed_since(rt, start);
    tenths_if(sum == last_bytes, "a text is wrong", elapsed, keys.len())
}

/// The keys of the texts at these positions; a position with no text has none.
pub fn keys_at<T: FrozenTexts>(
    alloc: Global,
    texts: &T,
    positions: &[u32],
) -> Result<Vec<Spur>, AllocError>
    ensures { IfOk result (λ keys. All (λ key. ⟦<Spur as Key>⟧.number key < length (T.texts texts.now)) keys.items) }
{
    let mut keys = Vec::new(alloc);
    for position in positions {
        if let Some(key) = key_at(texts, *position) {
            keys.push(key)?;
        }
    }
    Ok(keys)
}

// The key of the text at this position, if there is one.
fn key_at<T: FrozenTexts>(texts: &T, position: u32) -> Option<Spur>
    ensures { IfSome result (λ key. ⟦<Spur as Key>⟧.number key < length (T.texts texts.now)) }
{
    let key = Spur::try_from_usize(position as usize)?;
    if texts.contains_key(key) {
        return Some(key);
    }
    None
}

/// Resolves the keys, which all stand for texts, and returns the sum of their texts' last bytes.
pub fn resolve_frozen<T: FrozenTexts>(texts: &T, keys: &[Spur]) -> usize
    requires { All (λ key. ⟦<Spur as Key>⟧.number key < length (T.texts texts.now)) keys.now }
{
    let mut sum = 0usize;
    for key in keys {
        sum = sum.wrapping_add(last_byte(texts.resolve(*key)));
    }
    sum
}
