//! Texts as codes: interns a text, and returns its position in the interner's list in 32 bits. The calls hash with
//! their interner's hasher, which may be any.
ghost use Rattle.std.specs.Prelude.{◌≡◌, ℕ, ◌+◌, ◌<◌, ◌≤◌, ◌⊎◌, ◌↔◌, ◌∷◌, ◌++◌, [], Some, None, Err, OnOk, OnErr, IfOk, IfErr};
ghost use Rattle.std.specs.Prelude.{IsOk, IsSome, length, map, vec_len, vec_capacity};
ghost use Rattle.lasso_parts.specs.Texts.{position_of};
ghost use Rattle.lasso_parts.specs.declared.util.LassoErrorKind.TheVariants.{FailedAllocation, KeySpaceExhaustion, MemoryLimitReached};
ghost use Rattle.lasso_single.specs.Copies.{bytes_of};
ghost use Rattle.lasso_single.specs.Filling.{InternsEach, account_with_all, added_texts, with_all_new};
ghost use Rattle.lasso_single.specs.Intern.{IsAbsent, IsPresent, account_with, next_key};
ghost use Rattle.lasso_single.specs.Interner.{KeepsOrigin};
ghost use Rattle.lasso_single.specs.KeyLists.{NextIs};
ghost use Rattle.lasso_single.specs.Codes.{AddsCodes};
ghost use Rattle.lasso_single.specs.Coding.{spur_at, encoded_texts, EncodesText, InternsCode, IsNextRefused, MayLackMemoryNext};

use crate::batch::{Batch, intern_next, look_ahead};
use crate::rodeo::Rodeo;
use lasso_parts::keys::Spur;
use lasso_parts::util::LassoResult;
use std::alloc::Allocator;
use std::hash::BuildHasher;

/// Interns the texts in order, and appends their codes: the positions that they then have in the interner's
/// list, and keep.
///
/// The first text that is refused ends it. The limit and the keys refuse a text as `Rodeo::try_get_or_intern`
/// says. Out of memory (`FailedAllocation`) comes only if `codes` is full and can't grow, or for an absent
/// text that neither the keys nor the limit refuse. So a present text is refused only if `codes` is full.
/// The texts before the refused one are interned and have their codes, and no text after it is taken; so the
/// number of codes says which text it is.
///
/// ```rust
/// let mut rodeo: SpurRodeo = Rodeo::default(rt.alloc())?;
/// let mut codes = Vec::new(rt.alloc());
/// encode(&mut rodeo, &["red", "green", "red"], &mut codes)?;
/// assert!(rt; codes.as_slice() == [0, 1, 0].as_slice());
/// ```
pub fn encode<S: BuildHasher, A: Allocator + Clone>(
    rodeo: &mut Rodeo<Spur, S, A>,
    texts: &[&str],
    codes: &mut Vec<u32>,
) -> LassoResult<()>
    // Either way the first texts are interned, one for each added code, and a text's code is its position in the interner.
    ensures codes { AddsCodes rodeo.new.texts (encoded_texts codes.old.items codes.new.items (map (λ t. t.now) texts.now)) codes.old.items codes.new.items }
    ensures texts { rodeo.new.texts ≡ with_all_new rodeo.old.texts (encoded_texts codes.old.items codes.new.items (map (λ t. t.now) texts.now)) }
    ensures account { account_with_all rodeo.old (added_texts rodeo.old rodeo.new) ≡ Some rodeo.new.account }
    ensures copied { rodeo.new.copied ≡ rodeo.old.copied + bytes_of (added_texts rodeo.old rodeo.new) }

    // What stays in each case: the first bucket's size, the record of clears, and the room of `codes`
    ensures origin { KeepsOrigin rodeo.old rodeo.new }
    ensures room { vec_capacity codes.old ≤ vec_capacity codes.new }

    // On success these are all texts.
    ensures whole { OnOk result (vec_len codes.new ≡ vec_len codes.old + length texts.now) }

    // On failure the text after them was refused: no key left comes before the limit, and the limit before memory, unless `codes` is full.
    ensures no_key { result ≡ Err KeySpaceExhaustion → NextIs codes.old.items codes.new.items (map (λ t. t.now) texts.now)
        (λ text. IsAbsent rodeo.new text × (next_key spur_at rodeo.new ≡ None)) }
    ensures limit { result ≡ Err MemoryLimitReached → NextIs codes.old.items codes.new.items (map (λ t. t.now) texts.now)
        (λ text. IsAbsent rodeo.new text × IsSome (next_key spur_at rodeo.new) × (account_with rodeo.new text ≡ None)) }
    ensures memory { result ≡ Err FailedAllocation → NextIs codes.old.items codes.new.items (map (λ t. t.now) texts.now)
        (λ text. (vec_capacity codes.new ≤ vec_len codes.new)
        ⊎ (IsAbsent rodeo.new text × IsSome (next_key spur_at rodeo.new) × IsSome (account_with rodeo.new text))) }

    // The same facts as relations: `refused` of each error, `lacking` of out of memory
    ensures list { InternsEach spur_at rodeo.old (encoded_texts codes.old.items codes.new.items (map (λ t. t.now) texts.now)) rodeo.new }
    ensures refused { IfErr result (IsNextRefused rodeo.new codes.old.items codes.new.items (map (λ t. t.now) texts.now)) }
    ensures lacking { IfErr result (MayLackMemoryNext rodeo.new codes.old.items codes.new (map (λ t. t.now) texts.now)) }
{
    encode_each(rodeo, texts, codes)
}

// The call with its contract in relations.
#[inline(always)]
fn encode_each<S: BuildHasher, A: Allocator + Clone>(
    rodeo: &mut Rodeo<Spur, S, A>,
    texts: &[&str],
    codes: &mut Vec<u32>,
) -> LassoResult<()>
    ensures list { InternsEach spur_at rodeo.old (encoded_texts codes.old.items codes.new.items (map (λ t. t.now) texts.now)) rodeo.new }
    ensures codes { AddsCodes rodeo.new.texts (encoded_texts codes.old.items codes.new.items (map (λ t. t.now) texts.now)) codes.old.items codes.new.items }
    ensures room { vec_capacity codes.old ≤ vec_capacity codes.new }
    ensures whole { OnOk result (vec_len codes.new ≡ vec_len codes.old + length texts.now) }
    ensures refused { IfErr result (IsNextRefused rodeo.new codes.old.items codes.new.items (map (λ t. t.now) texts.now)) }
    ensures memory { IfErr result (MayLackMemoryNext rodeo.new codes.old.items codes.new (map (λ t. t.now) texts.now)) }
{
    // Where there is no memory for the codes of all texts, each asks for its own.
    let _ = codes.reserve(texts.len());
    let mut batch = Batch::new();
    for i in 0..texts.len() {
        if batch.is_due() {
            look_ahead(rodeo, &texts[i..], &mut batch);
        }
        encode_next(rodeo, texts[i], &mut batch, codes)?;
    }
    Ok(())
}

/// Interns the text, and appends its code.
///
/// A refusal is as `encode` says of its first refused text, and leaves the interner and the codes as they were.
/// There is room for the code before the text is interned, and the codes lose no room.
///
/// ```rust
/// let mut rodeo: SpurRodeo = Rodeo::default(rt.alloc())?;
/// let mut codes = Vec::new(rt.alloc());
/// encode_text(&mut rodeo, "red", &mut codes)?;
/// encode_text(&mut rodeo, "green", &mut codes)?;
/// assert!(rt; codes.as_slice() == [0, 1].as_slice());
/// ```
pub fn encode_text<S: BuildHasher, A: Allocator + Clone>(
    rodeo: &mut Rodeo<Spur, S, A>,
    text: &str,
    codes: &mut Vec<u32>,
) -> LassoResult<()>
    // On success the text's code goes last: its position in the interner. An absent text is copied to the end there; a present one changes nothing.
    ensures code { OnOk result ((code : ℕ) × (position_of rodeo.new.texts text.now ≡ Some code) × (codes.new.items ≡ codes.old.items ++ code ∷ [])) }
    ensures present { IsPresent rodeo.old text.now → rodeo.new ≡ rodeo.old }
    ensures appended { IsAbsent rodeo.old text.now → OnOk result (rodeo.new.texts ≡ rodeo.old.texts ++ text.now ∷ []) }
    ensures account { IsAbsent rodeo.old text.now → OnOk result (account_with rodeo.old text.now ≡ Some rodeo.new.account) }
    ensures copied { IsAbsent rodeo.old text.now → OnOk result (rodeo.new.copied ≡ rodeo.old.copied + length text.now) }

    // What stays in each case: the first bucket's size, the record of clears, and the room of `codes`
    ensures origin { KeepsOrigin rodeo.old rodeo.new }
    ensures room { vec_capacity codes.old ≤ vec_capacity codes.new }

    // On failure nothing changes. No key left comes before the limit, and the limit before memory, unless `codes` is full.
    ensures unchanged { OnErr result (rodeo.new ≡ rodeo.old) }
    ensures codes_kept { OnErr result (codes.new.items ≡ codes.old.items) }
    ensures no_key { result ≡ Err KeySpaceExhaustion → IsAbsent rodeo.old text.now × (next_key spur_at rodeo.old ≡ None) }
    ensures limit { result ≡ Err MemoryLimitReached
        → IsAbsent rodeo.old text.now × IsSome (next_key spur_at rodeo.old) × (account_with rodeo.old text.now ≡ None) }
    ensures memory { result ≡ Err FailedAllocation → (vec_capacity codes.new ≤ vec_len codes.new)
        ⊎ (IsAbsent rodeo.old text.now × IsSome (next_key spur_at rodeo.old) × IsSome (account_with rodeo.old text.now)) }

    // The same facts as one relation
    ensures all { EncodesText rodeo.old text.now codes.old result rodeo.new codes.new }
{
    encode_next(rodeo, text, &mut Batch::new(), codes)
}

/// Interns the text, and returns its code: its position in the interner's list, which it keeps. 4294967295 is
/// never a code.
///
/// A text is refused as `Rodeo::try_get_or_intern` says, and nothing changes then.
///
/// ```rust
/// let mut rodeo: SpurRodeo = Rodeo::default(rt.alloc())?;
/// assert!(rt; intern_code(&mut rodeo, "red")? == 0);
/// assert!(rt; intern_code(&mut rodeo, "green")? == 1);
/// assert!(rt; intern_code(&mut rodeo, "red")? == 0);
/// ```
pub fn intern_code<S: BuildHasher, A: Allocator + Clone>(
    rodeo: &mut Rodeo<Spur, S, A>,
    text: &str,
) -> LassoResult<u32>
    // On success the code is the text's position. An absent text goes last and is copied; a present one changes nothing.
    ensures code { IfOk result (λ code. position_of rodeo.new.texts text.now ≡ Some code) }
    ensures range { IfOk result (λ code. code < 4294967295) }
    ensures present { IsPresent rodeo.old text.now → IsOk result × (rodeo.new ≡ rodeo.old) }
    ensures appended { IsAbsent rodeo.old text.now → OnOk result (rodeo.new.texts ≡ rodeo.old.texts ++ text.now ∷ []) }
    ensures account { IsAbsent rodeo.old text.now → OnOk result (account_with rodeo.old text.now ≡ Some rodeo.new.account) }
    ensures copied { IsAbsent rodeo.old text.now → OnOk result (rodeo.new.copied ≡ rodeo.old.copied + length text.now) }

    // What stays in each case: the first bucket's size, and the record of clears
    ensures origin { KeepsOrigin rodeo.old rodeo.new }

    // On failure nothing changes. No key left comes before the limit, and the limit before memory, which runs out only for an absent text.
    ensures unchanged { OnErr result (rodeo.new ≡ rodeo.old) }
    ensures no_key { (result ≡ Err KeySpaceExhaustion) ↔ (IsAbsent rodeo.old text.now × (next_key spur_at rodeo.old ≡ None)) }
    ensures limit { (result ≡ Err MemoryLimitReached)
        ↔ (IsAbsent rodeo.old text.now × IsSome (next_key spur_at rodeo.old) × (account_with rodeo.old text.now ≡ None)) }
    ensures memory { result ≡ Err FailedAllocation
        → IsAbsent rodeo.old text.now × IsSome (next_key spur_at rodeo.old) × IsSome (account_with rodeo.old text.now) }

    // The same facts as one relation
    ensures interns { InternsCode rodeo.old text.now result rodeo.new }
{
    intern_code_next(rodeo, text, &mut Batch::new())
}

/// `encode_text` for the next text of a batch: the texts are those of a walk, and the caller keeps the
/// batch from one to the next (`lasso_single::batch`).
#[inline(always)]
pub fn encode_next<S: BuildHasher, A: Allocator + Clone>(
    rodeo: &mut Rodeo<Spur, S, A>,
    text: &str,
    batch: &mut Batch,
    codes: &mut Vec<u32>,
) -> LassoResult<()>
    ensures { EncodesText rodeo.old text.now codes.old result rodeo.new codes.new }
{
    codes.reserve(1)?;
    let code = intern_code_next(rodeo, text, batch)?;
    codes.push(code)?;
    Ok(())
}

/// `intern_code` for the next text of a batch, as `encode_next` has it.
#[inline(always)]
pub fn intern_code_next<S: BuildHasher, A: Allocator + Clone>(
    rodeo: &mut Rodeo<Spur, S, A>,
    text: &str,
    batch: &mut Batch,
) -> LassoResult<u32>
    ensures interns { InternsCode rodeo.old text.now result rodeo.new }
    ensures code { IfOk result (λ code. position_of rodeo.new.texts text.now ≡ Some code) }
    ensures range { IfOk result (λ code. code < 4294967295) }
{
    let key = intern_next(rodeo, text, batch)?;
    Ok(key.into_position())
}
