//! Reads the texts of a layout into an interner.
ghost use Rattle.std.specs.Prelude.{◌≡◌, ℕ, ◌+◌, ◌<◌, ◌++◌, None, Some, Ok, Err, OnOk, IfOk, IfErr, IsSome, map, take};
ghost use Rattle.std.specs.List.{slice_range};
ghost use Rattle.lasso_parts.specs.declared.util.LassoErrorKind.TheVariants.{FailedAllocation, KeySpaceExhaustion, MemoryLimitReached};
ghost use Rattle.lasso_single.specs.Copies.{bytes_of};
ghost use Rattle.lasso_single.specs.Filling.{InternsEach, account_with_all, added_texts};
ghost use Rattle.lasso_single.specs.Intern.{IsAbsent, IsPresent, account_with, next_key};
ghost use Rattle.lasso_single.specs.Interner.{KeepsOrigin};
ghost use Rattle.lasso_columns.specs.Dictionaries.{AppendsNew, AppendsUnless, InternsAppended, IsFaultAfter, IsGoodAnd, IsOfLayout, IsRefusedReading};
ghost use Rattle.lasso_columns.specs.Dictionaries.{appended, fault_position, first_bucket, made_to_read};
ghost use Rattle.lasso_columns.specs.declared.faults.ReadError.TheVariants.{Doubled, Refused};
ghost use Rattle.lasso_parts.specs.Layout.{layout_texts};
ghost use Rattle.lasso_columns.specs.Layout.{layout_fault, text_fault};

use crate::faults::ReadError;
use crate::layout::{check_start, text_between};
use lasso_parts::keys::Key;
use lasso_parts::offsets::Offset;
use lasso_parts::util::{Capacity, LassoErrorKind, MemoryLimits};
use lasso_single::rodeo::Rodeo;
use std::alloc::Allocator;
use std::hash::BuildHasher;

/// Returns a new interner with the texts of the layout, in order. Text n has the key of number n, so what
/// was written from position 0 has its codes again. The first bucket has `bytes.len()` bytes (4096 if
/// `bytes` is empty), but no more than the limit, and at least one.
///
/// Fails at the first text whose offsets are wrong, that is not UTF-8, that came before, or that the
/// interner refuses. Out of memory for the interner is `Refused` at position 0. After an error nothing is
/// kept.
///
/// ```rust
/// let limits = MemoryLimits::default();
/// let hasher = FixedState::new();
/// let read = read_dictionary(rt.alloc(), limits, hasher, b"redblue", &[0u32, 3, 3, 7])?;
/// let rodeo: SpurRodeo = read;
/// assert!(rt; rodeo.len() == 3);
/// let blue = rodeo.get("blue").ok_or("not there")?;
/// assert!(rt; blue.into_usize() == 2);
/// ```
pub fn read_dictionary<K: Key, S: BuildHasher + Drop, A: Allocator + Clone, O: Offset>(
    alloc: A,
    limits: MemoryLimits,
    hasher: S,
    bytes: &[u8],
    offsets: &[O],
) -> Result<Rodeo<K, S, A>, ReadError>
    // On success it has just the texts of the layout, which is good. They are all copied, under the limit.
    ensures texts { IfOk result (λ rodeo. rodeo.texts ≡ layout_texts bytes.now (map O.number offsets.now)) }
    ensures good { OnOk result (layout_fault O.GREATEST bytes.now (map O.number offsets.now) ≡ None) }
    ensures account { IfOk result (λ rodeo. account_with_all (made_to_read limits bytes.now) rodeo.texts ≡ Some rodeo.account) }
    ensures copied { IfOk result (λ rodeo. rodeo.copied ≡ bytes_of rodeo.texts) }
    ensures origin { IfOk result (λ rodeo. KeepsOrigin (made_to_read limits bytes.now) rodeo) }

    // On failure there was no memory for an interner, or the text after those that it had ended the reading, as of `append_dictionary`.
    ensures fault { IfErr result (IsRefusedReading K.key_at O.GREATEST bytes.now (map O.number offsets.now) (made_to_read limits bytes.now)) }

    // The same facts as a relation
    ensures list { IfOk result (λ rodeo. InternsEach K.key_at (made_to_read limits bytes.now) (layout_texts bytes.now (map O.number offsets.now)) rodeo) }
{
    read_texts(alloc, limits, hasher, bytes, offsets)
}

// The call with its contract in relations.
fn read_texts<K: Key, S: BuildHasher + Drop, A: Allocator + Clone, O: Offset>(
    alloc: A,
    limits: MemoryLimits,
    hasher: S,
    bytes: &[u8],
    offsets: &[O],
) -> Result<Rodeo<K, S, A>, ReadError>
    ensures list { IfOk result (λ rodeo. InternsEach K.key_at (made_to_read limits bytes.now) (layout_texts bytes.now (map O.number offsets.now)) rodeo) }
    ensures texts { IfOk result (λ rodeo. rodeo.texts ≡ layout_texts bytes.now (map O.number offsets.now)) }
    ensures good { OnOk result (layout_fault O.GREATEST bytes.now (map O.number offsets.now) ≡ None) }
    ensures fault { IfErr result (IsRefusedReading K.key_at O.GREATEST bytes.now (map O.number offsets.now) (made_to_read limits bytes.now)) }
{
    let capacity = Capacity::new(offsets.len(), first_bucket(bytes, limits));
    let Ok(mut rodeo) = Rodeo::with_capacity_memory_limits_and_hasher(
        alloc, capacity, limits, hasher,
    ) else {
        return Err(ReadError::Refused(0, LassoErrorKind::FailedAllocation));
    };
    match append_texts(&mut rodeo, bytes, offsets) {
        Ok(()) => Ok(rodeo),
        Err(error) => Err(error),
    }
}

// How many bytes the first bucket of an interner for these bytes has.
fn first_bucket(bytes: &[u8], limits: MemoryLimits) -> usize
    ensures value { result ≡ first_bucket limits bytes.now }
    ensures some { 0 < result }
{
    let wanted = if bytes.is_empty() { 4096 } else { bytes.len() };
    wanted.min(limits.max_memory_usage()).max(1)
}

/// Appends the texts of the layout to the interner's list, in order. The interner may have none of them yet.
/// So what was written from position n has its codes again in an interner with the first n texts.
///
/// Stops at the first text whose offsets are wrong, that is not UTF-8, that the interner already has, or
/// that it refuses. The texts before it stay in the list, and nothing else changes.
///
/// ```rust
/// let mut rodeo = SpurRodeo::from_iter(rt.alloc(), ["red"])?;
/// append_dictionary(&mut rodeo, b"blue", &[0u32, 0, 4])?;
/// assert!(rt; rodeo.len() == 3);
/// let doubled = append_dictionary(&mut rodeo, b"greenred", &[0u32, 5, 8]);
/// assert!(rt; doubled == Err(ReadError::Doubled(1)));
/// assert!(rt; rodeo.contains("green"));
/// ```
pub fn append_dictionary<K: Key, S: BuildHasher, A: Allocator + Clone, O: Offset>(
    rodeo: &mut Rodeo<K, S, A>,
    bytes: &[u8],
    offsets: &[O],
) -> Result<(), ReadError>
    // Either way the first texts of the layout are appended and copied; none of them was present.
    ensures texts { rodeo.new.texts ≡ rodeo.old.texts ++ take (appended rodeo.old.texts rodeo.new.texts) (layout_texts bytes.now (map O.number offsets.now)) }
    ensures account { account_with_all rodeo.old (added_texts rodeo.old rodeo.new) ≡ Some rodeo.new.account }
    ensures copied { rodeo.new.copied ≡ rodeo.old.copied + bytes_of (added_texts rodeo.old rodeo.new) }

    // What stays in each case: the first bucket's size, and the record of clears
    ensures origin { KeepsOrigin rodeo.old rodeo.new }

    // On success these are all texts, and the layout has no fault.
    ensures whole { OnOk result (rodeo.new.texts ≡ rodeo.old.texts ++ layout_texts bytes.now (map O.number offsets.now)) }
    ensures good { OnOk result (layout_fault O.GREATEST bytes.now (map O.number offsets.now) ≡ None) }

    // On failure the error has the position of the text after them: it has the layout's first fault; or up to its end the layout is good, and
    // it is present, or refused: no key left comes before the limit, and the limit before memory.
    ensures position { IfErr result (λ error. fault_position error ≡ appended rodeo.old.texts rodeo.new.texts) }
    ensures layout { IfErr result (λ error. IsOfLayout error → layout_fault O.GREATEST bytes.now (map O.number offsets.now) ≡ Some error) }
    ensures doubled { (at : ℕ) → result ≡ Err (Doubled at) → IsGoodAnd O.GREATEST bytes.now (map O.number offsets.now) at (λ text. IsPresent rodeo.new text) }
    ensures no_key { (at : ℕ) → result ≡ Err (Refused at KeySpaceExhaustion) → IsGoodAnd O.GREATEST bytes.now (map O.number offsets.now) at
        (λ text. IsAbsent rodeo.new text × (next_key K.key_at rodeo.new ≡ None)) }
    ensures limit { (at : ℕ) → result ≡ Err (Refused at MemoryLimitReached) → IsGoodAnd O.GREATEST bytes.now (map O.number offsets.now) at
        (λ text. IsAbsent rodeo.new text × IsSome (next_key K.key_at rodeo.new) × (account_with rodeo.new text ≡ None)) }
    ensures memory { (at : ℕ) → result ≡ Err (Refused at FailedAllocation) → IsGoodAnd O.GREATEST bytes.now (map O.number offsets.now) at
        (λ text. IsAbsent rodeo.new text × IsSome (next_key K.key_at rodeo.new) × IsSome (account_with rodeo.new text)) }

    // The same facts as relations
    ensures list { InternsAppended K.key_at rodeo.old (layout_texts bytes.now (map O.number offsets.now)) rodeo.new }
    ensures fault { IfErr result (IsFaultAfter K.key_at O.GREATEST bytes.now (map O.number offsets.now) (appended rodeo.old.texts rodeo.new.texts) rodeo.new) }
{
    append_texts(rodeo, bytes, offsets)
}

// The call with its contract in relations.
fn append_texts<K: Key, S: BuildHasher, A: Allocator + Clone, O: Offset>(
    rodeo: &mut Rodeo<K, S, A>,
    bytes: &[u8],
    offsets: &[O],
) -> Result<(), ReadError>
    ensures list { InternsAppended K.key_at rodeo.old (layout_texts bytes.now (map O.number offsets.now)) rodeo.new }
    ensures texts { rodeo.new.texts ≡ rodeo.old.texts ++ take (appended rodeo.old.texts rodeo.new.texts) (layout_texts bytes.now (map O.number offsets.now)) }
    ensures whole { OnOk result (rodeo.new.texts ≡ rodeo.old.texts ++ layout_texts bytes.now (map O.number offsets.now)) }
    ensures good { OnOk result (layout_fault O.GREATEST bytes.now (map O.number offsets.now) ≡ None) }
    ensures fault { IfErr result (IsFaultAfter K.key_at O.GREATEST bytes.now (map O.number offsets.now) (appended rodeo.old.texts rodeo.new.texts) rodeo.new) }
{
    let Some((first, rest)) = offsets.split_first() else {
        return Ok(());
    };
    let mut from = first.into_usize();
    check_start(bytes, from, O::GREATEST)?;
    for at in 0..rest.len() {
        let to = rest[at].into_usize();
        append_text(rodeo, bytes, at, from, to, O::GREATEST)?;
        from = to;
    }
    Ok(())
}

// Appends the text of number `at`, which is the bytes `from..to`. An error changes nothing.
fn append_text<K: Key, S: BuildHasher, A: Allocator + Clone>(
    rodeo: &mut Rodeo<K, S, A>,
    bytes: &[u8],
    at: usize,
    from: usize,
    to: usize,
    most: usize,
) -> Result<(), ReadError>
    ensures { AppendsUnless (text_fault most bytes.now at from to) K.key_at at rodeo.old (slice_range bytes.now from to) result rodeo.new }
{
    let text = match text_between(bytes, at, from, to, most) {
        Ok(text) => text,
        Err(error) => return Err(error),
    };
    append_new(rodeo, text, at)
}

// Appends the text, which has number `at`. An error changes nothing.
fn append_new<K: Key, S: BuildHasher, A: Allocator + Clone>(
    rodeo: &mut Rodeo<K, S, A>,
    text: &str,
    at: usize,
) -> Result<(), ReadError>
    ensures { AppendsNew K.key_at at rodeo.old text.now result rodeo.new }
{
    let count = rodeo.len();
    match rodeo.try_get_or_intern(text) {
        Ok(key) if key.into_usize() < count => Err(ReadError::Doubled(at)),
        Ok(_) => Ok(()),
        Err(error) => Err(ReadError::Refused(at, error.kind())),
    }
}
