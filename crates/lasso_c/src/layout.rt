//! Texts in one buffer of bytes, beside a buffer of offsets: where they lie, what is wrong with them, and how one more is written.
ghost use Rattle.std.specs.Prelude.{◌≡◌, ◌+◌, ◌<◌, ◌≤◌, None, Some, MatchResult, length, slice_get, slice_set};
ghost use Rattle.std.specs.Option.{option_copied};
ghost use Rattle.std.specs.Result.{result_err};
ghost use Rattle.lasso_parts.specs.Layout.{greatest_offset, reach, layout_texts};
ghost use Rattle.lasso_c.specs.Layout.{IsTextBetween, start_fault, text_fault, layout_fault, over_from};

use crate::error::CallError;
use crate::offsets::{count, number, put};
use crate::utf8::text_of;
use lasso_parts::offsets::Offset;

// How far offsets may reach into the bytes.
pub(crate) fn reach<O: Offset>(bytes: &[u8]) -> usize
    ensures { result ≡ reach O.GREATEST bytes.now }
{
    bytes.len().min(O::GREATEST)
}

// Where the first text begins, where its offset is good.
pub(crate) fn first_start<O: Offset>(bytes: &[u8], from: usize) -> Result<usize, CallError>
    ensures { MatchResult result (λ start. (start ≡ from) × (start_fault O.GREATEST bytes.now from ≡ None))
        (λ refusal. start_fault O.GREATEST bytes.now from ≡ Some refusal) }
{
    if from > reach::<O>(bytes) {
        return Err(CallError::OffsetPastBytes(0));
    }
    Ok(from)
}

// The text of this number, between two offsets.
pub(crate) fn text_between<O: Offset>(
    bytes: &[u8],
    at: usize,
    from: usize,
    to: usize,
) -> Result<&str, CallError>
    ensures { MatchResult result (λ text. IsTextBetween O.GREATEST bytes.now at from to text.now)
        (λ refusal. text_fault O.GREATEST bytes.now at from to ≡ Some refusal) }
{
    if to < from {
        return Err(CallError::OffsetsFall(at));
    }
    if to > reach::<O>(bytes) {
        return Err(CallError::OffsetPastBytes(at));
    }
    match text_of(&bytes[from..to]) {
        Some(text) => Ok(text),
        None => Err(CallError::NotUtf8(at)),
    }
}

// Finds what is first wrong with the layout.
pub(crate) fn check_layout<O: Offset>(bytes: &[u8], offsets: &[O]) -> Result<(), CallError>
    ensures { result_err result ≡ layout_fault O.GREATEST bytes.now (O.numbers offsets.now) }
{
    let count = count(offsets);
    if count == 0 {
        return Ok(());
    }
    let mut from = first_start::<O>(bytes, number(offsets, 0))?;
    for at in 0..count - 1 {
        let to = number(offsets, at + 1);
        text_between::<O>(bytes, at, from, to)?;
        from = to;
    }
    Ok(())
}

// The bytes of the text of this number, where there is one. Nothing may be wrong with the layout.
pub(crate) fn text_at<'a>(bytes: &'a [u8], offsets: &[u32], number: u32) -> Option<&'a [u8]>
    requires { layout_fault greatest_offset bytes.now offsets.now ≡ None }
    ensures { option_copied result ≡ slice_get (layout_texts bytes.now offsets.now) number }
{
    let number = number as usize;
    if number + 1 >= offsets.len() {
        return None;
    }
    Some(&bytes[offsets[number] as usize..offsets[number + 1] as usize])
}

// Writes where the text of this number begins, and its bytes. It returns where they end.
pub(crate) fn put_text<O: Offset>(
    text: &[u8],
    at: usize,
    start: usize,
    offsets: &mut [O],
    bytes: &mut [u8],
) -> usize
    requires offsets { at < length (O.numbers offsets.old) }
    requires bytes { start + length text.now ≤ length bytes.old }
    requires small { start ≤ O.GREATEST }
    ensures end { result ≡ start + length text.now }
    ensures offsets { O.numbers offsets.new ≡ slice_set (O.numbers offsets.old) at start }
    ensures bytes { bytes.new ≡ over_from start text.now bytes.old }
{
    let end = start + text.len();
    put(offsets, at, start);
    bytes[start..end].copy_from_slice(text);
    end
}
