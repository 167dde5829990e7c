//! Encodes lines to codes.
ghost use Rattle.std.specs.Prelude.{◌≡◌, ℕ, ◌+◌, ◌-◌, ◌≤◌, ◌⊎◌, ◌∷◌, ◌++◌, [], None, Some, Ok, Err, OnOk, IfErr, IsSome, MatchResult, All, IsUtf8};
ghost use Rattle.std.specs.Prelude.{length, vec_capacity, vec_len};
ghost use Rattle.lasso_parts.specs.Texts.{position_of};
ghost use Rattle.lasso_parts.specs.declared.util.LassoErrorKind.TheVariants.{FailedAllocation, KeySpaceExhaustion, MemoryLimitReached};
ghost use Rattle.lasso_single.specs.Copies.{bytes_of};
ghost use Rattle.lasso_single.specs.Filling.{InternsEach, account_with_all, added_texts, with_all_new};
ghost use Rattle.lasso_single.specs.Intern.{InternsIn, IsAbsent, account_with, next_key};
ghost use Rattle.lasso_single.specs.Interner.{KeepsOrigin};
ghost use Rattle.lasso_single.specs.KeyLists.{NextIs};
ghost use Rattle.lasso_single.specs.Codes.{AddsCodes};
ghost use Rattle.lasso_single.specs.Coding.{spur_at, encoded_texts};
ghost use Rattle.lasso_columns.specs.Faults.{IsFaultOf, IsNextFault, LineMayLackMemory, NextLineMayLackMemory, fault_line};
ghost use Rattle.lasso_columns.specs.declared.faults.LineError.TheVariants.{NotText, Refused};
ghost use Rattle.lasso_input.specs.Lines.{lines_of};

use crate::faults::LineError;
use lasso_input::{Line, Stretch};
use lasso_parts::keys::Spur;
use lasso_single::batch::Batch;
use lasso_single::coding::encode_next;
use lasso_single::rodeo::Rodeo;
use std::alloc::Allocator;
use std::hash::BuildHasher;

/// Encodes the lines of the bytes, as `encode` does texts. Each line feed ends a line and is no part of it.
/// Bytes after the last line feed are a line too.
///
/// Stops at the first line that is refused or is not UTF-8. The error has the line's number, counted from 1.
/// The lines before it are interned and have their codes, and no later line is read. Out of memory
/// (`FailedAllocation`) occurs only if it may occur in `encode`.
///
/// ```rust
/// let mut rodeo: SpurRodeo = Rodeo::default(rt.alloc())?;
/// let mut codes = Vec::new(rt.alloc());
/// encode_lines(&mut rodeo, b"to be\nor not\nto be\n", &mut codes)?;
/// assert!(rt; codes.as_slice() == [0, 1, 0].as_slice());
/// ```
pub fn encode_lines<S: BuildHasher, A: Allocator + Clone>(
    rodeo: &mut Rodeo<Spur, S, A>,
    bytes: &[u8],
    codes: &mut Vec<u32>,
) -> Result<(), LineError>
    // Either way the first lines are interned, one for each added code, and a line's code is its position in the interner.
    ensures codes { AddsCodes rodeo.new.texts (encoded_texts codes.old.items codes.new.items (lines_of bytes.now)) codes.old.items codes.new.items }
    ensures utf8 { All IsUtf8 (encoded_texts codes.old.items codes.new.items (lines_of bytes.now)) }
    ensures texts { rodeo.new.texts ≡ with_all_new rodeo.old.texts (encoded_texts codes.old.items codes.new.items (lines_of bytes.now)) }
    ensures account { account_with_all rodeo.old (added_texts rodeo.old rodeo.new) ≡ Some rodeo.new.account }
    ensures copied { rodeo.new.copied ≡ rodeo.old.copied + bytes_of (added_texts rodeo.old rodeo.new) }

    // What stays in each case: the first bucket's size, and the record of clears
    ensures origin { KeepsOrigin rodeo.old rodeo.new }

    // On success these are all lines.
    ensures whole { OnOk result (vec_len codes.new ≡ vec_len codes.old + length (lines_of bytes.now)) }

    // On failure the error has the number of the line after them, counted from 1: it is not UTF-8, or was refused as a text.
    ensures number { IfErr result (λ fault. fault_line fault ≡ length codes.new.items - length codes.old.items + 1) }
    ensures not_text { (line : ℕ) → result ≡ Err (NotText line) → NextIs codes.old.items codes.new.items (lines_of bytes.now) (λ text. ¬ (IsUtf8 text)) }
    ensures no_key { (line : ℕ) → result ≡ Err (Refused line KeySpaceExhaustion) → NextIs codes.old.items codes.new.items (lines_of bytes.now)
        (λ text. IsAbsent rodeo.new text × (next_key spur_at rodeo.new ≡ None)) }
    ensures limit { (line : ℕ) → result ≡ Err (Refused line MemoryLimitReached) → NextIs codes.old.items codes.new.items (lines_of bytes.now)
        (λ text. IsAbsent rodeo.new text × IsSome (next_key spur_at rodeo.new) × (account_with rodeo.new text ≡ None)) }
    ensures memory { (line : ℕ) → result ≡ Err (Refused line FailedAllocation) → NextIs codes.old.items codes.new.items (lines_of bytes.now)
        (λ text. (vec_capacity codes.new ≤ vec_len codes.new)
        ⊎ (IsAbsent rodeo.new text × IsSome (next_key spur_at rodeo.new) × IsSome (account_with rodeo.new text))) }

    // The same facts as relations: `fault` of each error, `lacking` of out of memory
    ensures list { InternsEach spur_at rodeo.old (encoded_texts codes.old.items codes.new.items (lines_of bytes.now)) rodeo.new }
    ensures fault { IfErr result (IsNextFault rodeo.new codes.old.items codes.new.items (lines_of bytes.now)) }
    ensures lacking { IfErr result (NextLineMayLackMemory rodeo.new codes.old.items codes.new (lines_of bytes.now)) }
{
    encode_each_line(rodeo, bytes, codes)
}

// The call with its contract in relations.
#[inline(always)]
fn encode_each_line<S: BuildHasher, A: Allocator + Clone>(
    rodeo: &mut Rodeo<Spur, S, A>,
    bytes: &[u8],
    codes: &mut Vec<u32>,
) -> Result<(), LineError>
    ensures list { InternsEach spur_at rodeo.old (encoded_texts codes.old.items codes.new.items (lines_of bytes.now)) rodeo.new }
    ensures codes { AddsCodes rodeo.new.texts (encoded_texts codes.old.items codes.new.items (lines_of bytes.now)) codes.old.items codes.new.items }
    ensures texts { All IsUtf8 (encoded_texts codes.old.items codes.new.items (lines_of bytes.now)) }
    ensures whole { OnOk result (vec_len codes.new ≡ vec_len codes.old + length (lines_of bytes.now)) }
    ensures fault { IfErr result (IsNextFault rodeo.new codes.old.items codes.new.items (lines_of bytes.now)) }
    ensures memory { IfErr result (NextLineMayLackMemory rodeo.new codes.old.items codes.new (lines_of bytes.now)) }
{
    let mut batch = Batch::new();
    let mut lines = Stretch::new(bytes);
    let mut number = 0;
    lines.look_ahead(rodeo, &mut batch);
    while let Some(line) = lines.next_line() {
        number += 1;
        encode_line(rodeo, &line, &mut batch, number, codes)?;
        lines.look_ahead(rodeo, &mut batch);
    }
    Ok(())
}

// Interns the line of this number, the next text of `batch`, and appends its code. An error changes nothing
// else.
fn encode_line<S: BuildHasher, A: Allocator + Clone>(
    rodeo: &mut Rodeo<Spur, S, A>,
    line: &Line<'_>,
    batch: &mut Batch,
    number: usize,
    codes: &mut Vec<u32>,
) -> Result<(), LineError>
    ensures { MatchResult result
        (λ _. IsUtf8 line.now × ((key : ℕ) × InternsIn {K = ℕ} spur_at rodeo.old line.now (Ok key) rodeo.new)
        × ((code : ℕ) × (position_of rodeo.new.texts line.now ≡ Some code) × (codes.new.items ≡ codes.old.items ++ code ∷ [])))
        (λ error. (rodeo.new ≡ rodeo.old) × (codes.new.items ≡ codes.old.items)
        × IsFaultOf rodeo.old line.now number error × LineMayLackMemory rodeo.old codes.new line.now error) }
{
    let Ok(text) = line.text() else {
        return Err(LineError::NotText(number));
    };
    match encode_next(rodeo, text, batch, codes) {
        Ok(()) => Ok(()),
        Err(error) => Err(LineError::Refused(number, error)),
    }
}
