//! Encoding: from texts to a dictionary of the distinct ones and a code for each.
ghost use Rattle.std.specs.Prelude.{◌≡◌, ◌⊎◌, ◌<◌, ◌≤◌, None, Some, Ok, Err, OnOk, IfOk};
ghost use Rattle.std.specs.Prelude.{IfErr, length, slice_get, is_ok, if◌then◌else◌};
ghost use Rattle.std.specs.List.{concat};
ghost use Rattle.lasso_single.specs.Filling.{extend};
ghost use Rattle.lasso_c.specs.Interning.{key_of_code, new_dictionary};
ghost use Rattle.lasso_parts.specs.Layout.{greatest_offset, layout_texts, offsets_from};
ghost use Rattle.lasso_c.specs.Layout.{column_rows, column_texts, over, present_texts};
ghost use Rattle.lasso_c.specs.Encoding.{codes_of, column_encoding_into, column_refusal, dictionary_of, encoding_into, of_column, row_codes, sizes_of};
ghost use Rattle.lasso_c.specs.declared.error.CallError.TheVariants.{NoMemory};

use crate::batches::intern_column;
use crate::error::{CallError, Sizes};
use crate::layout::put_text;
use crate::seed::Seed;
use lasso_parts::index::Texts;
use lasso_parts::keys::Spur;
use lasso_single::rodeo::Rodeo;
use std::alloc::Global;

// An interner whose texts are those of a dictionary, and whose keys are codes.
pub(crate) type Dictionary = Rodeo<Spur, Seed, Global>;

// A dictionary, and a code for each text that was interned.
#[derive(Drop)]
struct Interned {
    dictionary: Dictionary,
    codes: Vec<u32>,
}

// Writes the codes of the texts, and their dictionary; or nothing.
pub(crate) fn encode(
    alloc: Global,
    bytes: &[u8],
    offsets: &[u32],
    codes: &mut [u32],
    dictionary_bytes: &mut [u8],
    dictionary_offsets: &mut [u32],
) -> Result<Sizes, CallError>
    ensures outcome { (result ≡ encoding_into bytes.now offsets.now codes.old dictionary_offsets.old dictionary_bytes.old) ⊎ (result ≡ Err NoMemory) }
    ensures codes { let texts = layout_texts bytes.now offsets.now in
        codes.new ≡ (if is_ok result then over (codes_of (dictionary_of texts) texts) codes.old else codes.old) }
    ensures dictionary_bytes { let dictionary = dictionary_of (layout_texts bytes.now offsets.now) in
        dictionary_bytes.new ≡ (if is_ok result then over (concat dictionary) dictionary_bytes.old else dictionary_bytes.old) }
    ensures dictionary_offsets { let dictionary = dictionary_of (layout_texts bytes.now offsets.now) in
        dictionary_offsets.new ≡ (if is_ok result then over (offsets_from 0 dictionary) dictionary_offsets.old else dictionary_offsets.old) }
{
    encode_rows(
        alloc,
        bytes,
        offsets,
        &[],
        0,
        codes,
        dictionary_bytes,
        dictionary_offsets,
    )
}

// Writes the codes of the rows, and the dictionary of their texts; or nothing. A null has the given code.
pub(crate) fn encode_rows(
    alloc: Global,
    bytes: &[u8],
    offsets: &[u32],
    bits: &[u8],
    null: u32,
    codes: &mut [u32],
    dictionary_bytes: &mut [u8],
    dictionary_offsets: &mut [u32],
) -> Result<Sizes, CallError>
    ensures outcome { (result ≡ column_encoding_into bits.now bytes.now offsets.now codes.old dictionary_offsets.old dictionary_bytes.old)
        ⊎ (result ≡ Err NoMemory) }
    ensures codes { let rows = column_rows bits.now bytes.now offsets.now in
        codes.new ≡ (if is_ok result then over (row_codes null (dictionary_of (present_texts rows)) rows) codes.old else codes.old) }
    ensures dictionary_bytes { let dictionary = dictionary_of (column_texts bits.now bytes.now offsets.now) in
        dictionary_bytes.new ≡ (if is_ok result then over (concat dictionary) dictionary_bytes.old else dictionary_bytes.old) }
    ensures dictionary_offsets { let dictionary = dictionary_of (column_texts bits.now bytes.now offsets.now) in
        dictionary_offsets.new ≡ (if is_ok result then over (offsets_from 0 dictionary) dictionary_offsets.old else dictionary_offsets.old) }
{
    let interned = intern_rows(alloc, bytes, offsets, bits, null)?;
    let found = interned.codes.as_slice();
    let sizes = sizes_of(&interned.dictionary);
    if codes.len() < found.len() {
        return Err(CallError::CodesTooShort(sizes));
    }
    if sizes.texts >= dictionary_offsets.len() {
        return Err(CallError::OffsetsTooShort(sizes));
    }
    if dictionary_bytes.len() < sizes.bytes {
        return Err(CallError::BytesTooShort(sizes));
    }
    codes[..found.len()].copy_from_slice(found);
    write_dictionary(&interned.dictionary, dictionary_bytes, dictionary_offsets);
    Ok(sizes)
}

// Interns the rows of the column into a new dictionary without a limit, unless something is wrong with one.
fn intern_rows(
    alloc: Global,
    bytes: &[u8],
    offsets: &[u32],
    bits: &[u8],
    null: u32,
) -> Result<Interned, CallError>
    ensures refused { IfErr result (λ refusal. (column_refusal bits.now bytes.now offsets.now ≡ Some refusal) ⊎ (refusal ≡ NoMemory)) }
    ensures layout { OnOk result (column_refusal bits.now bytes.now offsets.now ≡ None) }
    ensures dictionary { IfOk result (λ interned. interned.dictionary.texts ≡ dictionary_of (column_texts bits.now bytes.now offsets.now)) }
    ensures codes { let rows = column_rows bits.now bytes.now offsets.now in
        IfOk result (λ interned. interned.codes.items ≡ row_codes null (dictionary_of (present_texts rows)) rows) }
    ensures small { IfOk result (λ interned. length (concat interned.dictionary.texts) ≤ greatest_offset) }
    ensures unlimited { IfOk result (λ interned. extend key_of_code new_dictionary (column_texts bits.now bytes.now offsets.now) (Ok tt) interned.dictionary) }
{
    let mut dictionary = Rodeo::with_hasher(alloc, Seed::fixed())?;
    let mut codes = vec![in alloc; 0u32; offsets.len().saturating_sub(1)]?;
    let progress = intern_column(&mut dictionary, bytes, offsets, bits, null, &mut codes);
    match progress.outcome {
        Ok(()) => Ok(Interned { dictionary, codes }),
        Err(refusal) => Err(of_column(refusal)),
    }
}

// The refusal, and out of memory for one by the dictionary: this has no limit below the greatest number, and a code for each text
// that offsets can reach.
fn of_column(refusal: CallError) -> CallError
    ensures { result ≡ of_column refusal }
{
    match refusal {
        CallError::LimitReached(_) | CallError::NoCodeLeft(_) => CallError::NoMemory,
        _ => refusal,
    }
}

// How many texts and bytes the dictionary has.
fn sizes_of(dictionary: &Dictionary) -> Sizes
    requires { length (concat dictionary.now.texts) ≤ greatest_offset }
    ensures { result ≡ sizes_of dictionary.now.texts }
{
    let mut bytes = 0;
    for text in dictionary.strings() {
        bytes += text.len();
    }
    Sizes {
        texts: dictionary.len(),
        bytes,
    }
}

// Writes the dictionary's texts. There must be room.
fn write_dictionary(dictionary: &Dictionary, bytes: &mut [u8], offsets: &mut [u32])
    requires small { length (concat dictionary.now.texts) ≤ greatest_offset }
    requires bytes { length (concat dictionary.now.texts) ≤ length bytes.old }
    requires offsets { length dictionary.now.texts < length offsets.old }
    ensures bytes { bytes.new ≡ over (concat dictionary.now.texts) bytes.old }
    ensures offsets { offsets.new ≡ over (offsets_from 0 dictionary.now.texts) offsets.old }
{
    let mut start = 0;
    for at in 0..dictionary.len() {
        let text = text_at_code(dictionary, at).as_bytes();
        start = put_text(text, at, start, offsets, bytes);
    }
    offsets[dictionary.len()] = start as u32;
}

// The text of a code of the dictionary.
pub(crate) fn text_at_code(dictionary: &Dictionary, code: usize) -> &str
    requires { code < length dictionary.now.texts }
    ensures { slice_get dictionary.now.texts code ≡ Some result.now }
{
    dictionary.text_at(code)
}
