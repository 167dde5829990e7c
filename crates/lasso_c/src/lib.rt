//! Interning for C, and for the languages that call C. `include/lasso.h` says what a caller owes and gets.
//!
//! Texts cross in the layout of Arrow's arrays of strings: one buffer of bytes, and a buffer of offsets, one
//! more than there are texts. No call keeps a pointer but to a static text, and each writes
//! into its caller's memory alone.
#![tactic(auto)]

ghost use Rattle.std.specs.Prelude.{◌≡◌, ◌⊎◌, Err, length, take};
ghost use Rattle.lasso_parts.specs.Layout.{layout_texts};
ghost use Rattle.lasso_c.specs.Layout.{bytes_over, column_rows, column_texts, offsets_over, over, present_texts};
ghost use Rattle.lasso_c.specs.Encoding.{codes_of, column_encoding_into, dictionary_of, encoding_into, row_codes};
ghost use Rattle.lasso_c.specs.Bitmap.{bitmap_of, code_bits};
ghost use Rattle.lasso_c.specs.Decoding.{decoding_into, nulls_decoding_into, rows_decoded, texts_decoded};
ghost use Rattle.lasso_c.specs.Status.{Reports, status_text};
ghost use Rattle.lasso_c.specs.declared.error.CallError.TheVariants.{NoMemory};

mod ahead;
mod batches;
mod decoding;
mod encoding;
pub mod error;
pub mod handle;
pub mod interner;
#[cfg(test)]
mod interner_tests;
pub mod large;
pub mod laws;
mod layout;
pub mod lending;
#[cfg(test)]
mod long_tests;
pub mod making;
#[cfg(test)]
mod making_tests;
mod nulls;
mod offsets;
pub mod seat;
mod seed;
pub mod seeded;
pub mod shared;
#[cfg(test)]
mod shared_limits_tests;
#[cfg(test)]
mod shared_making_tests;
#[cfg(test)]
mod shared_tests;
pub mod status;
#[cfg(test)]
mod tests;
mod utf8;
mod widths;

use error::LassoReport;
use status::DONE;
use std::alloc::Global;

// The version in the file VERSION: a million for each of its first number, 1000 for each of its second, and its
// third.
const VERSION: u32 = 1000;

/// Writes a code for each text of a layout, and a dictionary in the same layout: each distinct text once, in
/// order of first occurrence. A code is the position of its text in the dictionary. It returns a status, and
/// if that is not `DONE` it writes nothing but the report.
#[unsafe(no_mangle)]
pub extern "C" fn lasso_encode(
    alloc: Global,
    bytes: &[u8],
    offsets: &[u32],
    codes: &mut [u32],
    dictionary_bytes: &mut [u8],
    dictionary_offsets: &mut [u32],
    report: &mut LassoReport,
) -> u32
    // Which status
    ensures outcome { Reports (encoding_into bytes.now offsets.now codes.old dictionary_offsets.old dictionary_bytes.old) result report.new
        ⊎ Reports (Err NoMemory) result report.new }

    // On success
    ensures codes { result ≡ DONE → (let texts = layout_texts bytes.now offsets.now in
        codes.new ≡ over (codes_of (dictionary_of texts) texts) codes.old) }
    ensures dictionary_bytes { result ≡ DONE →
        dictionary_bytes.new ≡ bytes_over (dictionary_of (layout_texts bytes.now offsets.now)) dictionary_bytes.old }
    ensures dictionary_offsets { result ≡ DONE →
        dictionary_offsets.new ≡ offsets_over (dictionary_of (layout_texts bytes.now offsets.now)) dictionary_offsets.old }

    // On failure
    ensures codes_kept { ¬ (result ≡ DONE) → codes.new ≡ codes.old }
    ensures dictionary_bytes_kept { ¬ (result ≡ DONE) → dictionary_bytes.new ≡ dictionary_bytes.old }
    ensures dictionary_offsets_kept { ¬ (result ≡ DONE) → dictionary_offsets.new ≡ dictionary_offsets.old }
{
    let outcome = encoding::encode(
        alloc,
        bytes,
        offsets,
        codes,
        dictionary_bytes,
        dictionary_offsets,
    );
    error::tell(&outcome, report)
}

/// Encodes a layout as `lasso_encode` does, with nulls: bit i of byte i / 8 of `present`, counted from the least, is 1 if row i is
/// present; if `present` is empty, each row is present. A null has the code `null`, and its bytes are in no dictionary.
#[unsafe(no_mangle)]
pub extern "C" fn lasso_encode_nulls(
    alloc: Global,
    bytes: &[u8],
    offsets: &[u32],
    present: &[u8],
    null: u32,
    codes: &mut [u32],
    dictionary_bytes: &mut [u8],
    dictionary_offsets: &mut [u32],
    report: &mut LassoReport,
) -> u32
    // Which status
    ensures outcome { Reports (column_encoding_into present.now bytes.now offsets.now codes.old dictionary_offsets.old dictionary_bytes.old) result report.new
        ⊎ Reports (Err NoMemory) result report.new }

    // On success
    ensures codes { result ≡ DONE → (let rows = column_rows present.now bytes.now offsets.now in
        codes.new ≡ over (row_codes null (dictionary_of (present_texts rows)) rows) codes.old) }
    ensures dictionary_bytes { result ≡ DONE →
        dictionary_bytes.new ≡ bytes_over (dictionary_of (column_texts present.now bytes.now offsets.now)) dictionary_bytes.old }
    ensures dictionary_offsets { result ≡ DONE →
        dictionary_offsets.new ≡ offsets_over (dictionary_of (column_texts present.now bytes.now offsets.now)) dictionary_offsets.old }

    // On failure
    ensures codes_kept { ¬ (result ≡ DONE) → codes.new ≡ codes.old }
    ensures dictionary_bytes_kept { ¬ (result ≡ DONE) → dictionary_bytes.new ≡ dictionary_bytes.old }
    ensures dictionary_offsets_kept { ¬ (result ≡ DONE) → dictionary_offsets.new ≡ dictionary_offsets.old }
{
    let outcome = encoding::encode_rows(
        alloc,
        bytes,
        offsets,
        present,
        null,
        codes,
        dictionary_bytes,
        dictionary_offsets,
    );
    error::tell(&outcome, report)
}

/// Writes the texts that codes name, in the layout of the dictionary. It returns a status, and if that is not `DONE` it
/// writes nothing but the report.
#[unsafe(no_mangle)]
pub extern "C" fn lasso_decode(
    dictionary_bytes: &[u8],
    dictionary_offsets: &[u32],
    codes: &[u32],
    bytes: &mut [u8],
    offsets: &mut [u32],
    report: &mut LassoReport,
) -> u32
    // Which status
    ensures outcome { Reports (decoding_into dictionary_bytes.now dictionary_offsets.now codes.now offsets.old bytes.old) result report.new }

    // On success
    ensures bytes { result ≡ DONE → bytes.new ≡ bytes_over (texts_decoded dictionary_bytes.now dictionary_offsets.now codes.now) bytes.old }
    ensures offsets { result ≡ DONE → offsets.new ≡ offsets_over (texts_decoded dictionary_bytes.now dictionary_offsets.now codes.now) offsets.old }

    // On failure
    ensures bytes_kept { ¬ (result ≡ DONE) → bytes.new ≡ bytes.old }
    ensures offsets_kept { ¬ (result ≡ DONE) → offsets.new ≡ offsets.old }
{
    let outcome = decoding::decode(
        dictionary_bytes,
        dictionary_offsets,
        codes,
        None,
        bytes,
        offsets,
    );
    error::tell(&outcome, report)
}

/// Decodes codes as `lasso_decode` does, with nulls: the code `null` gives an empty row, whose bit in `present` is 0; each other row has
/// 1, and the bits of the last byte after the rows are 0. It returns `BITMAP_TOO_SHORT` if `present` has too few bits.
#[unsafe(no_mangle)]
pub extern "C" fn lasso_decode_nulls(
    dictionary_bytes: &[u8],
    dictionary_offsets: &[u32],
    codes: &[u32],
    null: u32,
    bytes: &mut [u8],
    offsets: &mut [u32],
    present: &mut [u8],
    report: &mut LassoReport,
) -> u32
    // Which status
    ensures outcome { Reports (nulls_decoding_into null dictionary_bytes.now dictionary_offsets.now codes.now offsets.old bytes.old present.old)
        result report.new }

    // On success
    ensures bytes { result ≡ DONE → bytes.new ≡ bytes_over (rows_decoded null dictionary_bytes.now dictionary_offsets.now codes.now) bytes.old }
    ensures offsets { result ≡ DONE → offsets.new ≡ offsets_over (rows_decoded null dictionary_bytes.now dictionary_offsets.now codes.now) offsets.old }
    ensures present { result ≡ DONE → present.new ≡ over (bitmap_of (code_bits null codes.now)) present.old }

    // On failure
    ensures bytes_kept { ¬ (result ≡ DONE) → bytes.new ≡ bytes.old }
    ensures offsets_kept { ¬ (result ≡ DONE) → offsets.new ≡ offsets.old }
    ensures present_kept { ¬ (result ≡ DONE) → present.new ≡ present.old }
{
    let outcome = decoding::decode_nulls(
        dictionary_bytes,
        dictionary_offsets,
        codes,
        null,
        bytes,
        offsets,
        present,
    );
    error::tell(&outcome, report)
}

/// Writes what a status means, as far as there is room. It returns how many bytes the whole text has.
#[unsafe(no_mangle)]
pub extern "C" fn lasso_status_text(status: u32, text: &mut [u8]) -> usize
    ensures len { result ≡ length (status_text status) }
    ensures text { text.new ≡ over (take (length text.old) (status_text status)) text.old }
{
    let whole = error::message_of(status).as_bytes();
    let room = whole.len().min(text.len());
    text[..room].copy_from_slice(&whole[..room]);
    whole.len()
}

/// Returns the version of the library, 0.1.0, as a number: a million for each of its first number, 1000 for each
/// of its second, and its third.
#[unsafe(no_mangle)]
pub extern "C" fn lasso_version() -> u32
    ensures value { result ≡ 1000 }
{
    VERSION
}
