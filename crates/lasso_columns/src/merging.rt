//! Merges the texts of one interner into another.
ghost use Rattle.std.specs.Prelude.{◌≡◌, ◌≤◌, ◌+◌, ◌⊎◌, [], None, Some, Err, OnOk, IfOk, IfErr, IsSome, IsSomeAnd, slice_get, take, length, vec_capacity};
ghost use Rattle.lasso_parts.specs.declared.util.LassoErrorKind.TheVariants.{FailedAllocation, KeySpaceExhaustion, MemoryLimitReached};
ghost use Rattle.lasso_single.specs.Copies.{bytes_of};
ghost use Rattle.lasso_single.specs.Filling.{InternsEach, account_with_all, added_texts, with_all_new};
ghost use Rattle.lasso_single.specs.Intern.{IsAbsent, account_with, next_key};
ghost use Rattle.lasso_single.specs.Interner.{KeepsOrigin};
ghost use Rattle.lasso_single.specs.Codes.{AreCodes, StandFor};
ghost use Rattle.lasso_single.specs.Coding.{spur_at, IsRefused};
ghost use Rattle.lasso_columns.specs.Merging.{MayLackMemoryWithRoom, MayLackMemoryMerging, MergesUpTo, StopsMerging};

use lasso_parts::index::Texts;
use lasso_parts::keys::Spur;
use lasso_parts::util::LassoResult;
use lasso_single::batch::{Batch, TOGETHER, look_ahead};
use lasso_single::coding::encode_next;
use lasso_single::reader::RodeoReader;
use lasso_single::rodeo::Rodeo;
use std::alloc::{Allocator, Global};
use std::hash::BuildHasher;

/// Interns the texts of `from` in `into`, in order, and returns their codes there: the number at position
/// n is the new code of the text with code n in `from`. So rewriting codes is enough to join columns of
/// both.
///
/// Stops at the first text that is refused, as `encode` does, and returns the error. The texts before it
/// stay in `into`. Out of memory (`FailedAllocation`) occurs in two cases only: before the first text,
/// when there is no memory for the codes, with `into` unchanged; or for an absent text that neither the
/// keys nor the limit refuse.
///
/// ```rust
/// let mut into: SpurRodeo = Rodeo::default(rt.alloc())?;
/// into.extend(["red", "green"])?;
/// let mut from: SpurRodeo = Rodeo::default(rt.alloc())?;
/// from.extend(["blue", "green"])?;
/// let merged = merge(rt.alloc(), &mut into, &from.into_reader())?;
/// assert!(rt; merged.as_slice() == [2, 1].as_slice());
/// ```
pub fn merge<S: BuildHasher, A: Allocator + Clone, T: BuildHasher, B: Allocator>(
    alloc: Global,
    into: &mut Rodeo<Spur, S, A>,
    from: &RodeoReader<Spur, T, B>,
) -> LassoResult<Vec<u32>>
    // On success `into` has each text of `from`: the number at position n is the code there of the text with code n in `from`.
    ensures codes { IfOk result (λ codes. AreCodes into.new.texts from.now codes.items) }
    ensures resolved { IfOk result (λ codes. StandFor into.new.texts codes.items from.now) }
    ensures texts { OnOk result (into.new.texts ≡ with_all_new into.old.texts from.now) }

    // In each case texts are only added, and they alone take bytes. The first bucket's size and the record of clears stay.
    ensures account { account_with_all into.old (added_texts into.old into.new) ≡ Some into.new.account }
    ensures copied { into.new.copied ≡ into.old.copied + bytes_of (added_texts into.old into.new) }
    ensures origin { KeepsOrigin into.old into.new }

    // On failure the texts of `from` before the refused one are in `into`: no key left comes before the limit, and the limit before
    // memory. Or there was no memory for the codes, and nothing changed.
    ensures no_key { result ≡ Err KeySpaceExhaustion → MergesUpTo into.old into.new from.now
        (λ text. IsAbsent into.new text × (next_key spur_at into.new ≡ None)) }
    ensures limit { result ≡ Err MemoryLimitReached → MergesUpTo into.old into.new from.now
        (λ text. IsAbsent into.new text × IsSome (next_key spur_at into.new) × (account_with into.new text ≡ None)) }
    ensures memory { result ≡ Err FailedAllocation → (into.new ≡ into.old) ⊎ MergesUpTo into.old into.new from.now
        (λ text. IsAbsent into.new text × IsSome (next_key spur_at into.new) × IsSome (account_with into.new text)) }

    // The same facts as relations: `refused` of each error, `lacking` of out of memory
    ensures list { OnOk result (InternsEach spur_at into.old from.now into.new) }
    ensures refused { IfErr result (λ error. StopsMerging into.old into.new from.now error) }
    ensures lacking { IfErr result (MayLackMemoryMerging into.old into.new from.now) }
{
    merge_texts(alloc, into, from)
}

// The call with its contract in relations.
#[inline(always)]
fn merge_texts<S: BuildHasher, A: Allocator + Clone, T: BuildHasher, B: Allocator>(
    alloc: Global,
    into: &mut Rodeo<Spur, S, A>,
    from: &RodeoReader<Spur, T, B>,
) -> LassoResult<Vec<u32>>
    ensures list { OnOk result (InternsEach spur_at into.old from.now into.new) }
    ensures codes { IfOk result (λ codes. AreCodes into.new.texts from.now codes.items) }
    ensures texts { IfOk result (λ codes. StandFor into.new.texts codes.items from.now) }
    ensures refused { IfErr result (λ error. StopsMerging into.old into.new from.now error) }
    ensures memory { IfErr result (MayLackMemoryMerging into.old into.new from.now) }
{
    let mut codes = Vec::new(alloc);
    codes.reserve(from.len())?;
    encode_list(into, from, &mut codes)?;
    Ok(codes)
}

// Interns the texts of the reader in order, and appends the codes that they then have to `codes`, which must
// be empty and have room for all of them.
pub(crate) fn encode_list<S: BuildHasher, A: Allocator + Clone, T: BuildHasher, B: Allocator>(
    into: &mut Rodeo<Spur, S, A>,
    from: &RodeoReader<Spur, T, B>,
    codes: &mut Vec<u32>,
) -> LassoResult<()>
    requires empty { codes.old.items ≡ [] }
    requires room { length from.now ≤ vec_capacity codes.old }
    ensures list { InternsEach spur_at into.old (take (length codes.new.items) from.now) into.new }
    ensures codes { AreCodes into.new.texts (take (length codes.new.items) from.now) codes.new.items }
    ensures whole { OnOk result (length codes.new.items ≡ length from.now) }
    ensures refused { IfErr result (λ error. IsSomeAnd (slice_get from.now (length codes.new.items)) (λ text. IsRefused into.new text error)) }
    ensures memory { IfErr result (MayLackMemoryWithRoom into.new codes.new.items from.now) }
{
    let count = from.len();
    let mut batch = Batch::new();
    for position in 0..count {
        if batch.is_due() {
            look_ahead_from(from, position, into, &mut batch);
        }
        encode_next(into, from.text_at(position), &mut batch, codes)?;
    }
    Ok(())
}

// Looks ahead at the texts of the reader from the position on.
#[inline(never)]
fn look_ahead_from<S: BuildHasher, A: Allocator, T: BuildHasher, B: Allocator>(
    from: &RodeoReader<Spur, T, B>,
    position: usize,
    into: &Rodeo<Spur, S, A>,
    batch: &mut Batch,
)
    requires { position ≤ length from.now }
{
    let mut texts = [""; TOGETHER];
    let count = TOGETHER.min(from.len() - position);
    for i in 0..count {
        texts[i] = from.text_at(position + i);
    }
    look_ahead(into, &texts[..count], batch);
}
