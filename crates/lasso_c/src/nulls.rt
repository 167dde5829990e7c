//! Columns with nulls: which rows are present, by a bitmap as Arrow has it, and what is wrong with a null.
ghost use Rattle.std.specs.Prelude.{◌≡◌, ◌+◌, ◌<◌, ◌≤◌, ◌*◌, IsTrue, None, length};
ghost use Rattle.std.specs.Result.{result_err};
ghost use Rattle.lasso_c.specs.Bitmap.{bitmap_of, bits_fit, byte_of, code_bits, present_at};
ghost use Rattle.lasso_c.specs.Layout.{null_fault, over};

use crate::error::CallError;
use crate::layout::reach;
use lasso_parts::offsets::Offset;

// Whether the bitmap has a bit for each of `rows` rows, or is empty.
pub(crate) fn fit(bits: &[u8], rows: usize) -> bool
    ensures { result ≡ bits_fit bits.now rows }
{
    bits.is_empty() || rows.div_ceil(8) <= bits.len()
}

// Whether the row of this number is present.
pub(crate) fn is_present(bits: &[u8], at: usize) -> bool
    requires { IsTrue (bits_fit bits.now (at + 1)) }
    ensures { result ≡ present_at bits.now at }
{
    bits.is_empty() || (bits[at / 8] >> (at % 8)) & 1 == 1
}

// Finds what is wrong with the null of this number between two offsets.
pub(crate) fn check_null<O: Offset>(
    bytes: &[u8],
    at: usize,
    from: usize,
    to: usize,
) -> Result<(), CallError>
    ensures { result_err result ≡ null_fault O.GREATEST bytes.now at from to }
{
    if to < from {
        return Err(CallError::OffsetsFall(at));
    }
    if to > reach::<O>(bytes) {
        return Err(CallError::OffsetPastBytes(at));
    }
    Ok(())
}

// Writes a bit for each code, which is 0 for the code of nulls. There must be room.
pub(crate) fn put_bits(codes: &[u32], null: u32, bits: &mut [u8])
    requires { length codes.now ≤ 8 * length bits.old }
    ensures { bits.new ≡ over (bitmap_of (code_bits null codes.now)) bits.old }
{
    for at in 0..codes.len().div_ceil(8) {
        let first = 8 * at;
        let last = (first + 8).min(codes.len());
        bits[at] = byte_of(&codes[first..last], null);
    }
}

// The byte of at most eight codes; the first code has the lowest bit.
fn byte_of(codes: &[u32], null: u32) -> u8
    requires { length codes.now ≤ 8 }
    ensures { result ≡ byte_of (code_bits null codes.now) }
{
    let mut byte = 0;
    for at in 0..codes.len() {
        let code = codes[codes.len() - 1 - at];
        byte = 2 * byte + u8::from(code != null);
    }
    byte
}
