//! Decodes codes to texts.
ghost use Rattle.std.specs.Prelude.{◌≡◌, ℕ, ◌+◌, ◌-◌, ◌<◌, None, Some, Err, OnOk, IfErr, IsSomeAnd, length, slice_get, take, vec_len};
ghost use Rattle.lasso_single.specs.Codes.{AddsTexts};
ghost use Rattle.lasso_columns.specs.Faults.{IsFaultAt};
ghost use Rattle.lasso_columns.specs.declared.faults.DecodeError.TheVariants.{NoMemory, NoText};

use crate::faults::DecodeError;
use lasso_parts::index::Texts;
use lasso_parts::keys::Spur;
use lasso_single::reader::RodeoReader;
use std::alloc::Allocator;
use std::hash::BuildHasher;

/// Appends the texts of the codes to `out`. The texts are borrowed from the reader.
///
/// Stops at the first code without a text, or when out of memory for one more text. The texts of the codes
/// before it are appended, and no later code is read. So the number of appended texts is the position where
/// it stopped.
///
/// ```rust
/// let mut rodeo: SpurRodeo = Rodeo::default(rt.alloc())?;
/// rodeo.extend(["red", "green"])?;
/// let reader = rodeo.into_reader();
/// let mut texts = Vec::new(rt.alloc());
/// decode(&reader, &[1, 0, 1], &mut texts)?;
/// assert!(rt; texts.as_slice() == ["green", "red", "green"].as_slice());
/// ```
pub fn decode<'r, S: BuildHasher, A: Allocator>(
    reader: &'r RodeoReader<Spur, S, A>,
    codes: &[u32],
    out: &mut Vec<&'r str>,
) -> Result<(), DecodeError>
    // Either way the texts of the first codes are appended: one for each text that was added.
    ensures texts { AddsTexts reader.now (take (vec_len out.new - vec_len out.old) codes.now) out.old.items out.new.items }

    // On success these are all codes.
    ensures whole { OnOk result (vec_len out.new ≡ vec_len out.old + length codes.now) }

    // On failure the next code has no text; or it has one, and memory ran out.
    ensures no_text { (position code : ℕ) → result ≡ Err (NoText position code)
        → (position ≡ vec_len out.new - vec_len out.old) × (slice_get codes.now position ≡ Some code) × (slice_get reader.now code ≡ None) }
    ensures memory { result ≡ Err NoMemory → IsSomeAnd (slice_get codes.now (vec_len out.new - vec_len out.old)) (λ code. code < length reader.now) }

    // The same facts as one relation
    ensures fault { IfErr result (IsFaultAt reader.now codes.now (vec_len out.new - vec_len out.old)) }
{
    decode_each(reader, codes, out)
}

// The call with its contract in relations.
#[inline(always)]
fn decode_each<'r, S: BuildHasher, A: Allocator>(
    reader: &'r RodeoReader<Spur, S, A>,
    codes: &[u32],
    out: &mut Vec<&'r str>,
) -> Result<(), DecodeError>
    ensures texts { AddsTexts reader.now (take (vec_len out.new - vec_len out.old) codes.now) out.old.items out.new.items }
    ensures whole { OnOk result (vec_len out.new ≡ vec_len out.old + length codes.now) }
    ensures fault { IfErr result (IsFaultAt reader.now codes.now (vec_len out.new - vec_len out.old)) }
{
    // If there is no memory for all texts at once, each push asks for its own.
    let _ = out.reserve(codes.len());
    let count = reader.len();
    for position in 0..codes.len() {
        let code = codes[position];
        if code as usize >= count {
            return Err(DecodeError::NoText { position, code });
        }
        if out.push(reader.text_at(code as usize)).is_err() {
            return Err(DecodeError::NoMemory);
        }
    }
    Ok(())
}
