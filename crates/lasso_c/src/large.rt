//! Calls over layouts with offsets of 64 bits, as Arrow's arrays of large strings have them. Each does what the call without
//! `_large` does, and has the same statuses.
ghost use Rattle.std.specs.Prelude.{◌≡◌, ◌≤◌, [], length, drop};
ghost use Rattle.lasso_parts.specs.Layout.{greatest_large_offset, layout_texts};
ghost use Rattle.lasso_c.specs.Layout.{bytes_over, first_rows, first_texts, offsets_over, over, present_texts};
ghost use Rattle.lasso_c.specs.Encoding.{codes_or};
ghost use Rattle.lasso_c.specs.Handles.{codes_in, dictionary_outcome, lookup_outcome, PutsNew, row_codes_in, seed_in, texts_in};
ghost use Rattle.lasso_c.specs.Interning.{ColumnEnds};
ghost use Rattle.lasso_c.specs.Status.{Reports};

use crate::error::LassoReport;
use crate::handle::Lasso;
use crate::status::DONE;
use crate::widths;

/// `lasso_intern_batch` with offsets of 64 bits.
#[unsafe(no_mangle)]
pub extern "C" fn lasso_intern_batch_large(
    lasso: &mut Lasso,
    bytes: &[u8],
    offsets: &[u64],
    codes: &mut [u32],
    report: &mut LassoReport,
) -> u32
    // Either way the first texts are interned, as many as the report says, and have their codes.
    ensures texts { PutsNew lasso.old.seat.value lasso.new.seat.value (first_texts report.new.texts bytes.now offsets.now) }
    ensures codes { codes.new ≡ over (codes_in lasso.new.seat.value (first_texts report.new.texts bytes.now offsets.now)) codes.old }
    ensures within { report.new.texts ≤ length (layout_texts bytes.now offsets.now) }

    // On success these are all texts. On failure the text after them was refused, and the report has its number.
    ensures whole { result ≡ DONE → report.new.texts ≡ length (layout_texts bytes.now offsets.now) }
    ensures at { ¬ (result ≡ DONE) → report.new.at ≡ report.new.texts }

    // What stays
    ensures seed { seed_in lasso.new.seat.value ≡ seed_in lasso.old.seat.value }

    // Which status, and the same facts as one relation
    ensures outcome { ColumnEnds greatest_large_offset lasso.old.seat.value [] bytes.now offsets.now codes.old result report.new lasso.new.seat.value }
{
    widths::intern_batch(lasso, bytes, offsets, codes, report)
}

/// `lasso_intern_batch_nulls` with offsets of 64 bits.
#[unsafe(no_mangle)]
pub extern "C" fn lasso_intern_batch_nulls_large(
    lasso: &mut Lasso,
    bytes: &[u8],
    offsets: &[u64],
    present: &[u8],
    null: u32,
    codes: &mut [u32],
    report: &mut LassoReport,
) -> u32
    // Either way the first rows are interned, as many as the report says, and have their codes.
    ensures texts { PutsNew lasso.old.seat.value lasso.new.seat.value (present_texts (first_rows report.new.texts present.now bytes.now offsets.now)) }
    ensures codes { codes.new ≡ over (row_codes_in null lasso.new.seat.value (first_rows report.new.texts present.now bytes.now offsets.now)) codes.old }
    ensures within { report.new.texts ≤ length (layout_texts bytes.now offsets.now) }

    // On success these are all rows. On failure the row after them was refused, and the report has its number.
    ensures whole { result ≡ DONE → report.new.texts ≡ length (layout_texts bytes.now offsets.now) }
    ensures at { ¬ (result ≡ DONE) → report.new.at ≡ report.new.texts }

    // What stays
    ensures seed { seed_in lasso.new.seat.value ≡ seed_in lasso.old.seat.value }

    // Which status, and the same facts as one relation
    ensures outcome { ColumnEnds greatest_large_offset lasso.old.seat.value present.now bytes.now offsets.now codes.old result report.new lasso.new.seat.value }
{
    widths::intern_batch_nulls(lasso, bytes, offsets, present, null, codes, report)
}

/// `lasso_get_batch` with offsets of 64 bits.
#[unsafe(no_mangle)]
pub extern "C" fn lasso_get_batch_large(
    lasso: &mut Lasso,
    bytes: &[u8],
    offsets: &[u64],
    absent: u32,
    codes: &mut [u32],
    report: &mut LassoReport,
) -> u32
    // Which status
    ensures outcome { Reports (lookup_outcome greatest_large_offset lasso.old.seat.value bytes.now offsets.now (length codes.old)) result report.new }

    // On success
    ensures codes { result ≡ DONE → codes.new ≡ over (codes_or absent (texts_in lasso.old.seat.value) (layout_texts bytes.now offsets.now)) codes.old }

    // What stays
    ensures kept { lasso.new.seat.value ≡ lasso.old.seat.value }

    // On failure
    ensures codes_kept { ¬ (result ≡ DONE) → codes.new ≡ codes.old }
{
    widths::get_batch(lasso, bytes, offsets, absent, codes, report)
}

/// `lasso_dictionary` with offsets of 64 bits. It returns `TOO_MANY_BYTES` if the texts have more than 2^63 - 1.
#[unsafe(no_mangle)]
pub extern "C" fn lasso_dictionary_large(
    lasso: &mut Lasso,
    from: usize,
    bytes: &mut [u8],
    offsets: &mut [u64],
    report: &mut LassoReport,
) -> u32
    // Which status
    ensures outcome { Reports (dictionary_outcome greatest_large_offset lasso.old.seat.value from (length offsets.old) (length bytes.old)) result report.new }

    // On success
    ensures bytes { result ≡ DONE → bytes.new ≡ bytes_over (drop from (texts_in lasso.old.seat.value)) bytes.old }
    ensures offsets { result ≡ DONE → offsets.new ≡ offsets_over (drop from (texts_in lasso.old.seat.value)) offsets.old }

    // What stays
    ensures kept { lasso.new.seat.value ≡ lasso.old.seat.value }

    // On failure
    ensures bytes_kept { ¬ (result ≡ DONE) → bytes.new ≡ bytes.old }
    ensures offsets_kept { ¬ (result ≡ DONE) → offsets.new ≡ offsets.old }
{
    widths::dictionary(lasso, from, bytes, offsets, report)
}
