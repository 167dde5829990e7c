//! Rows of a column interned into a dictionary that has some already, and the texts of a dictionary from a code on.
ghost use Rattle.std.specs.Prelude.{◌≡◌, ◌<◌, ◌≤◌, ◌+◌, ◌^◌, [], None, Some, OnOk, IfSome};
ghost use Rattle.std.specs.Prelude.{IsSome, IsTrue, length, slice_get, drop, unwrap_or};
ghost use Rattle.std.specs.List.{concat};
ghost use Rattle.std.specs.Result.{result_err};
ghost use Rattle.lasso_parts.specs.Texts.{position_of};
ghost use Rattle.lasso_c.specs.Bitmap.{bits_fit};
ghost use Rattle.lasso_parts.specs.Layout.{layout_texts, offsets_from};
ghost use Rattle.lasso_c.specs.Layout.{CopiesFront, first_rows, first_texts, layout_fault, over, over_if_done, present_texts};
ghost use Rattle.lasso_c.specs.Encoding.{with_all_new, codes_of, codes_or, row_codes, sizes_of};
ghost use Rattle.lasso_c.specs.Handles.{code_lookup_in, part_lookup_outcome, part_outcome};
ghost use Rattle.lasso_c.specs.Interning.{InternsCode, InternsInto, InternsNext, InternsStaticCode, batch_report, batch_start_fault, refusal_at};
ghost use Rattle.lasso_c.specs.Status.{outcome_status};

use crate::ahead::look_ahead_from;
use crate::encoding::{Dictionary, text_at_code};
use crate::error::{CallError, LassoReport, Sizes, status_of};
use crate::layout::{check_layout, first_start, put_text, text_between};
use crate::nulls::{check_null, fit, is_present};
use crate::offsets::{count, number, put};
use crate::status::{DONE, NO_SUCH_CODE};
use lasso_parts::keys::Key;
use lasso_parts::offsets::Offset;
use lasso_parts::util::LassoErrorKind;
use lasso_single::batch::{Batch, get_next};
use lasso_single::coding::intern_code_next;

// How many rows of a batch were done, and why no more.
#[derive(Clone, Copy)]
pub(crate) struct Progress {
    pub(crate) done: usize,
    pub(crate) outcome: Result<(), CallError>,
}

// Fills the report of a batch, and returns its status.
pub(crate) fn tell_batch(progress: Progress, report: &mut LassoReport) -> u32
    ensures status { result ≡ outcome_status progress.outcome }
    ensures report { report.new ≡ batch_report progress.done progress.outcome }
{
    let texts = progress.done;
    let (status, at) = match progress.outcome {
        Ok(()) => (DONE, 0),
        Err(refusal) => (status_of(&refusal), texts),
    };
    *report = LassoReport {
        texts,
        bytes: 0,
        at,
    };
    status
}

// Interns the rows of the column up to the first that is refused, and writes their codes. A null has the given one.
#[tactic(auto, using(crate::proofs::BatchSteps::layout_count, crate::proofs::BatchSteps::none_done))]
pub(crate) fn intern_column<O: Offset>(
    dictionary: &mut Dictionary,
    bytes: &[u8],
    offsets: &[O],
    bits: &[u8],
    null: u32,
    codes: &mut [u32],
) -> Progress
    ensures interned { InternsInto O.GREATEST codes.old bits.now bytes.now (O.numbers offsets.now) result.done dictionary.old result.outcome dictionary.new }
    ensures texts { dictionary.new.texts ≡ with_all_new dictionary.old.texts
        (present_texts (first_rows result.done bits.now bytes.now (O.numbers offsets.now))) }
    ensures codes { codes.new ≡ over (row_codes null dictionary.new.texts (first_rows result.done bits.now bytes.now (O.numbers offsets.now))) codes.old }
    ensures whole { OnOk result.outcome (result.done ≡ length (layout_texts bytes.now (O.numbers offsets.now))) }
    ensures within { result.done ≤ length (layout_texts bytes.now (O.numbers offsets.now)) }
{
    let count = count(offsets);
    if count == 0 {
        return Progress {
            done: 0,
            outcome: Ok(()),
        };
    }
    let rows = count - 1;
    let first = number(offsets, 0);
    if let Err(refusal) = first_fault::<O>(bytes, first, rows, bits, codes.len()) {
        return Progress {
            done: 0,
            outcome: Err(refusal),
        };
    }
    let mut batch = Batch::new();
    for at in 0..rows {
        look_ahead_from(dictionary, bytes, offsets, at, &mut batch);
        match code_at(dictionary, bytes, offsets, bits, null, at, &mut batch) {
            Ok(code) => codes[at] = code,
            Err(refusal) => return Progress {
                done: at,
                outcome: Err(refusal),
            },
        }
    }
    Progress {
        done: rows,
        outcome: Ok(()),
    }
}

// Interns the texts of the layout up to the first that is refused, and writes their codes.
pub(crate) fn intern_layout<O: Offset>(
    dictionary: &mut Dictionary,
    bytes: &[u8],
    offsets: &[O],
    codes: &mut [u32],
) -> Progress
    ensures interned { InternsInto O.GREATEST codes.old [] bytes.now (O.numbers offsets.now) result.done dictionary.old result.outcome dictionary.new }
    ensures texts { dictionary.new.texts ≡ with_all_new dictionary.old.texts (first_texts result.done bytes.now (O.numbers offsets.now)) }
    ensures codes { codes.new ≡ over (codes_of dictionary.new.texts (first_texts result.done bytes.now (O.numbers offsets.now))) codes.old }
    ensures whole { OnOk result.outcome (result.done ≡ length (layout_texts bytes.now (O.numbers offsets.now))) }
    ensures within { result.done ≤ length (layout_texts bytes.now (O.numbers offsets.now)) }
{
    intern_column(dictionary, bytes, offsets, &[], 0, codes)
}

// Why a batch with this first offset and `rows` rows is refused before its first row, if it is.
pub(crate) fn first_fault<O: Offset>(
    bytes: &[u8],
    first: usize,
    rows: usize,
    bits: &[u8],
    room: usize,
) -> Result<(), CallError>
    ensures { result_err result ≡ batch_start_fault O.GREATEST bits.now bytes.now first rows room }
{
    if room < rows {
        return Err(CallError::CodesTooShort(Sizes { texts: 0, bytes: 0 }));
    }
    if !fit(bits, rows) {
        return Err(CallError::BitmapTooShort(8 * bits.len()));
    }
    first_start::<O>(bytes, first)?;
    Ok(())
}

// Interns the row of this number of the column, the next text of `batch`, and returns its code. If it is refused, nothing
// has changed.
fn code_at<O: Offset>(
    dictionary: &mut Dictionary,
    bytes: &[u8],
    offsets: &[O],
    bits: &[u8],
    null: u32,
    at: usize,
    batch: &mut Batch,
) -> Result<u32, CallError>
    requires within { at + 1 < length (O.numbers offsets.now) }
    requires counted { at + 1 < 2 ^ 64 }
    requires bit { IsTrue (bits_fit bits.now (at + 1)) }
    ensures { InternsNext O.GREATEST bits.now null bytes.now (O.numbers offsets.now) at dictionary.old result dictionary.new }
{
    let (from, to) = (number(offsets, at), number(offsets, at + 1));
    if !is_present(bits, at) {
        check_null::<O>(bytes, at, from, to)?;
        batch.skip();
        return Ok(null);
    }
    let text = text_between::<O>(bytes, at, from, to)?;
    code_next(dictionary, text, at, batch)
}

// The code of the text, which goes last in the dictionary if it is new. `at` is its number in a batch. Where the text is
// refused nothing has changed.
pub(crate) fn code_in(dictionary: &mut Dictionary, text: &str, at: usize) -> Result<u32, CallError>
    ensures { InternsCode at dictionary.old text.now result dictionary.new }
{
    code_next(dictionary, text, at, &mut Batch::new())
}

// The code of a text that stays where it is, which goes last in the dictionary if it is new, without a copy. Where the text is
// refused nothing has changed.
pub(crate) fn static_code_in(
    dictionary: &mut Dictionary,
    text: &'static str,
) -> Result<u32, CallError>
    ensures { InternsStaticCode dictionary.old text.now result dictionary.new }
{
    match dictionary.try_get_or_intern_static(text) {
        Ok(key) => Ok(key.into_position()),
        Err(error) => Err(refusal_of(error.kind(), 0)),
    }
}

// `code_in` for the next text of a batch. In line, so that a single text has no batch.
#[inline(always)]
fn code_next(
    dictionary: &mut Dictionary,
    text: &str,
    at: usize,
    batch: &mut Batch,
) -> Result<u32, CallError>
    ensures { InternsCode at dictionary.old text.now result dictionary.new }
{
    match intern_code_next(dictionary, text, batch) {
        Ok(code) => Ok(code),
        Err(error) => Err(refusal_of(error.kind(), at)),
    }
}

// The refusal of the text of this number in a batch, of which the interner tells the kind.
pub(crate) fn refusal_of(kind: LassoErrorKind, at: usize) -> CallError
    ensures { result ≡ refusal_at at kind }
{
    match kind {
        LassoErrorKind::MemoryLimitReached => CallError::LimitReached(at),
        LassoErrorKind::KeySpaceExhaustion => CallError::NoCodeLeft(at),
        LassoErrorKind::FailedAllocation => CallError::NoMemory,
    }
}

// Writes the code of each text of the layout, and the given one for an absent text; or nothing.
#[tactic(auto, using(crate::proofs::BatchSteps::layout_count))]
pub(crate) fn find_layout<O: Offset>(
    dictionary: &Dictionary,
    bytes: &[u8],
    offsets: &[O],
    absent: u32,
    codes: &mut [u32],
) -> Result<Sizes, CallError>
    ensures outcome { result ≡ part_lookup_outcome O.GREATEST bytes.now (O.numbers offsets.now) (length codes.old) }
    ensures codes { codes.new ≡ over_if_done result (codes_or absent dictionary.now.texts (layout_texts bytes.now (O.numbers offsets.now))) codes.old }
{
    let count = count(offsets).saturating_sub(1);
    let needed = Sizes {
        texts: count,
        bytes: 0,
    };
    if codes.len() < count {
        return Err(CallError::CodesTooShort(needed));
    }
    check_layout(bytes, offsets)?;
    put_codes(dictionary, bytes, offsets, absent, codes);
    Ok(needed)
}

// Writes the code of each text of the layout, and the given one for an absent text. There must be room, and nothing wrong.
fn put_codes<O: Offset>(
    dictionary: &Dictionary,
    bytes: &[u8],
    offsets: &[O],
    absent: u32,
    codes: &mut [u32],
)
    requires layout { layout_fault O.GREATEST bytes.now (O.numbers offsets.now) ≡ None }
    requires room { length (layout_texts bytes.now (O.numbers offsets.now)) ≤ length codes.old }
    ensures { codes.new ≡ over (codes_or absent dictionary.now.texts (layout_texts bytes.now (O.numbers offsets.now))) codes.old }
{
    let mut batch = Batch::new();
    for at in 0..count(offsets).saturating_sub(1) {
        look_ahead_from(dictionary, bytes, offsets, at, &mut batch);
        let (from, to) = (number(offsets, at), number(offsets, at + 1));
        let text = text_between::<O>(bytes, at, from, to).unwrap();
        codes[at] = code_or(dictionary, text, &mut batch, absent);
    }
}

// The code of the text, the next one of `batch`, and the given one for an absent text.
#[tactic(auto, using(lasso_parts::proofs::TextLemmas::key_of_present))]
fn code_or(dictionary: &Dictionary, text: &str, batch: &mut Batch, absent: u32) -> u32
    ensures { result ≡ unwrap_or (position_of dictionary.now.texts text.now) absent }
{
    // By the clause `fits` of this call each present text has a key.
    let _count = dictionary.len();
    match get_next(dictionary, text, batch) {
        Some(key) => key.into_position(),
        None => absent,
    }
}

// Writes the texts from the code on, or nothing.
pub(crate) fn write_from<O: Offset>(
    dictionary: &Dictionary,
    from: usize,
    bytes: &mut [u8],
    offsets: &mut [O],
) -> Result<Sizes, CallError>
    ensures outcome { result ≡ part_outcome O.GREATEST (drop from dictionary.now.texts) (length (O.numbers offsets.old)) (length bytes.old) }
    ensures bytes { bytes.new ≡ over_if_done result (concat (drop from dictionary.now.texts)) bytes.old }
    ensures offsets { O.numbers offsets.new ≡ over_if_done result (offsets_from 0 (drop from dictionary.now.texts)) (O.numbers offsets.old) }
{
    let Some(sizes) = sizes_from::<O>(dictionary, from) else {
        return Err(CallError::TooManyBytes(0));
    };
    if sizes.texts >= count(offsets) {
        return Err(CallError::OffsetsTooShort(sizes));
    }
    if bytes.len() < sizes.bytes {
        return Err(CallError::BytesTooShort(sizes));
    }
    put_from(dictionary, from, bytes, offsets);
    Ok(sizes)
}

// How many texts there are from the code on, and their bytes, unless these are more than offsets can tell.
fn sizes_from<O: Offset>(dictionary: &Dictionary, from: usize) -> Option<Sizes>
    ensures sizes { IfSome result (λ sizes. sizes ≡ sizes_of (drop from dictionary.now.texts)) }
    ensures small { IfSome result (λ sizes. sizes.bytes ≤ O.GREATEST) }
    ensures large { result ≡ None → O.GREATEST < length (concat (drop from dictionary.now.texts)) }
{
    let mut bytes = 0;
    let count = dictionary.len().saturating_sub(from);
    for at in 0..count {
        let text = text_at_code(dictionary, from + at);
        if text.len() > O::GREATEST - bytes {
            return None;
        }
        bytes += text.len();
    }
    Some(Sizes {
        texts: count,
        bytes,
    })
}

// Writes the texts from the code on. There must be room.
fn put_from<O: Offset>(dictionary: &Dictionary, from: usize, bytes: &mut [u8], offsets: &mut [O])
    requires small { length (concat (drop from dictionary.now.texts)) ≤ O.GREATEST }
    requires bytes { length (concat (drop from dictionary.now.texts)) ≤ length bytes.old }
    requires offsets { length (drop from dictionary.now.texts) < length (O.numbers offsets.old) }
    ensures bytes { bytes.new ≡ over (concat (drop from dictionary.now.texts)) bytes.old }
    ensures offsets { O.numbers offsets.new ≡ over (offsets_from 0 (drop from dictionary.now.texts)) (O.numbers offsets.old) }
{
    let mut start = 0;
    let count = dictionary.len().saturating_sub(from);
    for at in 0..count {
        let text = text_at_code(dictionary, from + at).as_bytes();
        start = put_text(text, at, start, offsets, bytes);
    }
    put(offsets, count, start);
}

// Writes the text of the code as far as there is room, and how many bytes it has.
pub(crate) fn copy_text(
    dictionary: &Dictionary,
    code: u32,
    text: &mut [u8],
    whole: &mut usize,
) -> u32
    ensures status { result ≡ outcome_status (code_lookup_in dictionary.now.texts code) }
    ensures found { result ≡ DONE → IfSome (slice_get dictionary.now.texts code) (λ t. CopiesFront t whole.new text.old text.new) }
    ensures present { result ≡ DONE → IsSome (slice_get dictionary.now.texts code) }
    ensures kept { ¬ (result ≡ DONE) → (whole.new ≡ whole.old) × (text.new ≡ text.old) }
{
    let code = code as usize;
    if code >= dictionary.len() {
        return NO_SUCH_CODE;
    }
    let found = text_at_code(dictionary, code).as_bytes();
    let room = found.len().min(text.len());
    text[..room].copy_from_slice(&found[..room]);
    *whole = found.len();
    DONE
}
