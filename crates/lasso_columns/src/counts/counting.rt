//! Interns texts and counts them.
ghost use Rattle.std.specs.Prelude.{◌≡◌, ◌+◌, ◌-◌, ◌^◌, ◌<◌, ◌≤◌, ℕ, Ok, OnOk, OnErr, IfErr};
ghost use Rattle.std.specs.Prelude.{length, map, sum, vec_len, vec_capacity};
ghost use Rattle.lasso_parts.specs.Texts.{position_of};
ghost use Rattle.lasso_single.specs.Intern.{InternsIn};
ghost use Rattle.lasso_single.specs.Coding.{spur_at, IsRefused};
ghost use Rattle.lasso_single.specs.Filling.{extend};
ghost use Rattle.lasso_columns.specs.Counts.{CountsOneMore, counted, added};
ghost use Rattle.lasso_columns.specs.Adding.{AddsCounts, CountsText, IsRefusedAmong, KeepsRoom, RefusesNew, RefusesNewAmong, counted_of};

use crate::counts::error::CountError;
use lasso_parts::keys::{Key, Spur};
use lasso_parts::util::LassoResult;
use lasso_single::batch::{Batch, intern_next, look_ahead};
use lasso_single::rodeo::Rodeo;
use std::alloc::Allocator;
use std::hash::BuildHasher;

/// Interns the text and adds one to its count. A new text gets the count 1, after the others.
///
/// There must be one count for each text of the interner, and their sum must be below `u64::MAX`.
///
/// # Errors
/// The text is refused: no key is left, the memory limit leaves no room, or out of memory. The interner and
/// the counts are as they were. A present text is never refused. A text that the keys or the limit refuse is
/// out of memory only if `counts` is full and can't grow. `counts` grows only for a new text.
///
/// ```rust
/// let mut rodeo: SpurRodeo = Rodeo::default(rt.alloc())?;
/// let mut counts = Vec::new(rt.alloc());
/// count_text(&mut rodeo, "red", &mut counts)?;
/// count_text(&mut rodeo, "red", &mut counts)?;
/// assert!(rt; counts.as_slice() == [2].as_slice());
/// ```
pub fn count_text<S: BuildHasher, A: Allocator + Clone>(
    rodeo: &mut Rodeo<Spur, S, A>,
    text: &str,
    counts: &mut Vec<u64>,
) -> LassoResult<()>
    requires lengths { vec_len counts.old ≡ length rodeo.old.texts }
    requires fits { sum counts.old.items < 2 ^ 64 - 1 }
    ensures interns { OnOk result ((key : ℕ) × InternsIn {K = ℕ} spur_at rodeo.old text.now (Ok key) rodeo.new) }
    ensures step { OnOk result (counts.new.items ≡ counted counts.old.items (position_of rodeo.old.texts text.now)) }
    ensures lengths { vec_len counts.new ≡ length rodeo.new.texts }
    ensures counts { OnOk result (CountsOneMore text.now rodeo.old.texts counts.old.items rodeo.new.texts counts.new.items) }
    ensures total { OnOk result (sum counts.new.items ≡ sum counts.old.items + 1) }
    ensures kept { OnErr result (rodeo.new ≡ rodeo.old) }
    ensures kept_counts { OnErr result (counts.new.items ≡ counts.old.items) }
    ensures refused { IfErr result (IsRefused rodeo.old text.now) }
    ensures memory { IfErr result (RefusesNew rodeo.old counts.new text.now) }
    ensures room { KeepsRoom rodeo.old counts.old text.now counts.new }
{
    count_next(rodeo, text, &mut Batch::new(), counts)
}

/// `count_text` for the next text of a batch: the texts are those of a walk, and the caller keeps the batch
/// from one to the next (`lasso_single::batch`).
#[inline(always)]
pub fn count_next<S: BuildHasher, A: Allocator + Clone>(
    rodeo: &mut Rodeo<Spur, S, A>,
    text: &str,
    batch: &mut Batch,
    counts: &mut Vec<u64>,
) -> LassoResult<()>
    requires lengths { vec_len counts.old ≡ length rodeo.old.texts }
    requires fits { sum counts.old.items < 2 ^ 64 - 1 }
    ensures interns { OnOk result ((key : ℕ) × InternsIn {K = ℕ} spur_at rodeo.old text.now (Ok key) rodeo.new) }
    ensures step { OnOk result (counts.new.items ≡ counted counts.old.items (position_of rodeo.old.texts text.now)) }
    ensures lengths { vec_len counts.new ≡ length rodeo.new.texts }
    ensures counts { OnOk result (CountsOneMore text.now rodeo.old.texts counts.old.items rodeo.new.texts counts.new.items) }
    ensures total { OnOk result (sum counts.new.items ≡ sum counts.old.items + 1) }
    ensures kept { OnErr result (rodeo.new ≡ rodeo.old) }
    ensures kept_counts { OnErr result (counts.new.items ≡ counts.old.items) }
    ensures refused { IfErr result (IsRefused rodeo.old text.now) }
    ensures memory { IfErr result (RefusesNew rodeo.old counts.new text.now) }
    ensures room { KeepsRoom rodeo.old counts.old text.now counts.new }
{
    add_text(rodeo, text, batch, counts)?;
    Ok(())
}

// Interns and counts the next text of the batch. Only a new text needs room for a count.
#[inline(always)]
fn add_text<S: BuildHasher, A: Allocator + Clone>(
    rodeo: &mut Rodeo<Spur, S, A>,
    text: &str,
    batch: &mut Batch,
    counts: &mut Vec<u64>,
) -> LassoResult<()>
    requires lengths { vec_len counts.old ≡ length rodeo.old.texts }
    requires fits { sum counts.old.items < 2 ^ 64 - 1 }
    ensures counted { CountsText rodeo.old counts.old text.now result rodeo.new counts.new }
    ensures room { KeepsRoom rodeo.old counts.old text.now counts.new }
{
    if counts.len() < counts.capacity() {
        return add_in_room(rodeo, text, batch, counts);
    }
    let Some(key) = rodeo.get(text) else {
        counts.reserve(1)?;
        return add_in_room(rodeo, text, batch, counts);
    };
    batch.skip();
    counts[key.into_usize()] += 1;
    Ok(())
}

// Interns and counts the next text of the batch. There must be room for a count.
#[inline(always)]
fn add_in_room<S: BuildHasher, A: Allocator + Clone>(
    rodeo: &mut Rodeo<Spur, S, A>,
    text: &str,
    batch: &mut Batch,
    counts: &mut Vec<u64>,
) -> LassoResult<()>
    requires lengths { vec_len counts.old ≡ length rodeo.old.texts }
    requires fits { sum counts.old.items < 2 ^ 64 - 1 }
    requires room { vec_len counts.old < vec_capacity counts.old }
    ensures counted { CountsText rodeo.old counts.old text.now result rodeo.new counts.new }
    ensures room { KeepsRoom rodeo.old counts.old text.now counts.new }
{
    let key = intern_next(rodeo, text, batch)?;
    add_one(counts, key.into_usize());
    Ok(())
}

/// Interns and counts the texts in order, each as `count_text` does.
///
/// There must be one count for each text of the interner. Their sum plus the number of texts must be below
/// 2^64.
///
/// # Errors
/// The first text that is refused, as `count_text` says. The texts before it are interned and counted, and
/// those after it are not.
///
/// ```rust
/// let mut rodeo: SpurRodeo = Rodeo::default(rt.alloc())?;
/// let mut counts = Vec::new(rt.alloc());
/// assert!(rt; count_texts(&mut rodeo, &["red", "green", "red"], &mut counts).is_ok());
/// assert!(rt; counts.as_slice() == [2, 1].as_slice());
/// ```
pub fn count_texts<S: BuildHasher, A: Allocator + Clone>(
    rodeo: &mut Rodeo<Spur, S, A>,
    texts: &[&str],
    counts: &mut Vec<u64>,
) -> Result<(), CountError>
    requires lengths { vec_len counts.old ≡ length rodeo.old.texts }
    requires fits { sum counts.old.items + length texts.now < 2 ^ 64 }
    ensures list { extend spur_at rodeo.old (counted_of result (map (λ t. t.now) texts.now)) (Ok tt) rodeo.new }
    ensures counts { AddsCounts (counted_of result (map (λ t. t.now) texts.now)) rodeo.old.texts counts.old.items rodeo.new.texts counts.new.items }
    ensures refused { IfErr result (λ error. IsRefusedAmong rodeo.new (map (λ t. t.now) texts.now) error) }
    ensures memory { IfErr result (λ error. RefusesNewAmong rodeo.new counts.new (map (λ t. t.now) texts.now) error) }
    ensures room { vec_capacity counts.old ≤ vec_capacity counts.new }
{
    let mut batch = Batch::new();
    for position in 0..texts.len() {
        if batch.is_due() {
            look_ahead(rodeo, &texts[position..], &mut batch);
        }
        if let Err(error) = count_next(rodeo, texts[position], &mut batch, counts) {
            return Err(CountError { position, error });
        }
    }
    Ok(())
}

// Adds one to the count at the position. At the position after the last count it appends the count 1.
fn add_one(counts: &mut Vec<u64>, position: usize)
    requires fits { sum counts.old.items < 2 ^ 64 - 1 }
    requires room { vec_len counts.old < vec_capacity counts.old }
    ensures items { counts.new.items ≡ added counts.old.items position }
    ensures capacity { vec_capacity counts.new ≡ vec_capacity counts.old }
{
    if position < counts.len() {
        counts[position] += 1;
    } else {
        counts.push_reserved(1);
    }
}
