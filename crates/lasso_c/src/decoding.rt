//! Decoding: from codes and a dictionary to the texts that the codes name.
ghost use Rattle.std.specs.Prelude.{◌≡◌, ◌+◌, ◌^◌, ◌<◌, ◌≤◌, None, Some, IfOk, IsOkAnd, length, is_ok, if◌then◌else◌};
ghost use Rattle.std.specs.List.{concat};
ghost use Rattle.std.specs.Option.{option_copied};
ghost use Rattle.lasso_parts.specs.Layout.{greatest_offset, layout_texts, offsets_from};
ghost use Rattle.lasso_c.specs.Layout.{layout_fault, over};
ghost use Rattle.lasso_c.specs.Bitmap.{bitmap_of, code_bits};
ghost use Rattle.lasso_c.specs.Decoding.{measured, nothing, nulls_decoding_into, rows_decoding_outcome, rows_named, text_of_code, with_next};

use crate::error::{CallError, Sizes};
use crate::layout::{check_layout, put_text, text_at};
use crate::nulls::put_bits;
use lasso_parts::offsets::Offset;

// Writes the texts that the codes name, or nothing. The code of nulls, if there is one, names an empty text.
pub(crate) fn decode(
    dictionary_bytes: &[u8],
    dictionary_offsets: &[u32],
    codes: &[u32],
    null: Option<u32>,
    bytes: &mut [u8],
    offsets: &mut [u32],
) -> Result<Sizes, CallError>
    ensures outcome { result ≡ rows_decoding_outcome null dictionary_bytes.now dictionary_offsets.now codes.now (length offsets.old) (length bytes.old) }
    ensures bytes { let texts = rows_named null (layout_texts dictionary_bytes.now dictionary_offsets.now) codes.now in
        bytes.new ≡ (if is_ok result then over (concat texts) bytes.old else bytes.old) }
    ensures offsets { let texts = rows_named null (layout_texts dictionary_bytes.now dictionary_offsets.now) codes.now in
        offsets.new ≡ (if is_ok result then over (offsets_from 0 texts) offsets.old else offsets.old) }
{
    check_layout(dictionary_bytes, dictionary_offsets)?;
    let sizes = measure(dictionary_bytes, dictionary_offsets, codes, null)?;
    if sizes.texts >= offsets.len() {
        return Err(CallError::OffsetsTooShort(sizes));
    }
    if bytes.len() < sizes.bytes {
        return Err(CallError::BytesTooShort(sizes));
    }
    write_named(
        dictionary_bytes,
        dictionary_offsets,
        codes,
        null,
        bytes,
        offsets,
    );
    Ok(sizes)
}

// Writes the texts that the codes name, and a bitmap in which a code of nulls has 0; or nothing.
pub(crate) fn decode_nulls(
    dictionary_bytes: &[u8],
    dictionary_offsets: &[u32],
    codes: &[u32],
    null: u32,
    bytes: &mut [u8],
    offsets: &mut [u32],
    present: &mut [u8],
) -> Result<Sizes, CallError>
    ensures outcome { result ≡ nulls_decoding_into null dictionary_bytes.now dictionary_offsets.now codes.now offsets.old bytes.old present.old }
    ensures bytes { let texts = rows_named (Some null) (layout_texts dictionary_bytes.now dictionary_offsets.now) codes.now in
        bytes.new ≡ (if is_ok result then over (concat texts) bytes.old else bytes.old) }
    ensures offsets { let texts = rows_named (Some null) (layout_texts dictionary_bytes.now dictionary_offsets.now) codes.now in
        offsets.new ≡ (if is_ok result then over (offsets_from 0 texts) offsets.old else offsets.old) }
    ensures present { present.new ≡ (if is_ok result then over (bitmap_of (code_bits null codes.now)) present.old else present.old) }
{
    if codes.len().div_ceil(8) > present.len() {
        return Err(CallError::BitmapTooShort(8 * present.len()));
    }
    let sizes = decode(
        dictionary_bytes,
        dictionary_offsets,
        codes,
        Some(null),
        bytes,
        offsets,
    )?;
    put_bits(codes, null, present);
    Ok(sizes)
}

// The sizes of the texts that the codes name.
fn measure(
    dictionary_bytes: &[u8],
    dictionary_offsets: &[u32],
    codes: &[u32],
    null: Option<u32>,
) -> Result<Sizes, CallError>
    requires { layout_fault greatest_offset dictionary_bytes.now dictionary_offsets.now ≡ None }
    ensures { result ≡ measured null (layout_texts dictionary_bytes.now dictionary_offsets.now) nothing codes.now }
{
    let mut sizes = Sizes { texts: 0, bytes: 0 };
    for code in codes {
        let text = text_of(dictionary_bytes, dictionary_offsets, *code, null);
        sizes = with_next(sizes, text)?;
    }
    Ok(sizes)
}

// The bytes of the text that the code names, if there is one. Nothing may be wrong with the layout.
fn text_of<'a>(bytes: &'a [u8], offsets: &[u32], code: u32, null: Option<u32>) -> Option<&'a [u8]>
    requires { layout_fault greatest_offset bytes.now offsets.now ≡ None }
    ensures { option_copied result ≡ text_of_code null (layout_texts bytes.now offsets.now) code }
{
    if let Some(null) = null {
        if code == null {
            return Some(&bytes[..0]);
        }
    }
    text_at(bytes, offsets, code)
}

// The sizes with one text more, which may lack.
fn with_next(sizes: Sizes, text: Option<&[u8]>) -> Result<Sizes, CallError>
    requires counted { sizes.texts + 1 < 2 ^ 64 }
    requires small { sizes.bytes ≤ greatest_offset }
    ensures next { result ≡ with_next sizes (option_copied text.entry) }
    ensures small { IfOk result (λ more. more.bytes ≤ greatest_offset) }
{
    let Some(text) = text else {
        return Err(CallError::NoSuchCode(sizes.texts));
    };
    if text.len() > <u32 as Offset>::GREATEST - sizes.bytes {
        return Err(CallError::TooManyBytes(sizes.texts));
    }
    Ok(Sizes {
        texts: sizes.texts + 1,
        bytes: sizes.bytes + text.len(),
    })
}

// Writes the texts that the codes name. There must be room.
fn write_named(
    dictionary_bytes: &[u8],
    dictionary_offsets: &[u32],
    codes: &[u32],
    null: Option<u32>,
    bytes: &mut [u8],
    offsets: &mut [u32],
)
    requires layout { layout_fault greatest_offset dictionary_bytes.now dictionary_offsets.now ≡ None }
    requires room { IsOkAnd (measured null (layout_texts dictionary_bytes.now dictionary_offsets.now) nothing codes.now)
        (λ sizes. (sizes.texts < length offsets.old) × (sizes.bytes ≤ length bytes.old)) }
    ensures bytes { bytes.new ≡ over (concat (rows_named null (layout_texts dictionary_bytes.now dictionary_offsets.now) codes.now)) bytes.old }
    ensures offsets { offsets.new ≡ over (offsets_from 0 (rows_named null (layout_texts dictionary_bytes.now dictionary_offsets.now) codes.now)) offsets.old }
{
    let mut start = 0;
    for (at, code) in codes.iter().enumerate() {
        let text = text_of(dictionary_bytes, dictionary_offsets, *code, null).unwrap();
        start = put_text(text, at, start, offsets, bytes);
    }
    offsets[codes.len()] = start as u32;
}
