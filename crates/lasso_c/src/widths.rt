//! The calls on a handle that read or write offsets, at either width of these.
ghost use Rattle.std.specs.Prelude.{◌≡◌, ◌≤◌, [], length, drop};
ghost use Rattle.lasso_parts.specs.Layout.{layout_texts};
ghost use Rattle.lasso_c.specs.Layout.{bytes_over, first_rows, first_texts, offsets_over, over, present_texts};
ghost use Rattle.lasso_c.specs.Encoding.{codes_or};
ghost use Rattle.lasso_c.specs.Handles.{codes_in, dictionary_outcome, lookup_outcome, PutsNew, row_codes_in, seed_in, texts_in};
ghost use Rattle.lasso_c.specs.Interning.{ColumnEnds};
ghost use Rattle.lasso_c.specs.Status.{Reports};

use crate::batches::{find_layout, intern_column, intern_layout, tell_batch, write_from};
use crate::error::{CallError, LassoReport, tell};
use crate::handle::Lasso;
use crate::status::DONE;
use lasso_parts::offsets::Offset;

// Interns the texts of a layout, as `lasso_intern_batch` says.
pub(crate) fn intern_batch<O: Offset>(
    lasso: &mut Lasso,
    bytes: &[u8],
    offsets: &[O],
    codes: &mut [u32],
    report: &mut LassoReport,
) -> u32
    ensures outcome { ColumnEnds O.GREATEST lasso.old.seat.value [] bytes.now (O.numbers offsets.now) codes.old result report.new lasso.new.seat.value }
    ensures texts { PutsNew lasso.old.seat.value lasso.new.seat.value (first_texts report.new.texts bytes.now (O.numbers offsets.now)) }
    ensures codes { codes.new ≡ over (codes_in lasso.new.seat.value (first_texts report.new.texts bytes.now (O.numbers offsets.now))) codes.old }
    ensures seed { seed_in lasso.new.seat.value ≡ seed_in lasso.old.seat.value }
    ensures whole { result ≡ DONE → report.new.texts ≡ length (layout_texts bytes.now (O.numbers offsets.now)) }
    ensures within { report.new.texts ≤ length (layout_texts bytes.now (O.numbers offsets.now)) }
{
    let Some(interner) = lasso.interner() else {
        return tell(&Err(CallError::NoInterner), report);
    };
    let progress = intern_layout(&mut interner.rodeo, bytes, offsets, codes);
    tell_batch(progress, report)
}

// Interns the rows of a column, as `lasso_intern_batch_nulls` says.
pub(crate) fn intern_batch_nulls<O: Offset>(
    lasso: &mut Lasso,
    bytes: &[u8],
    offsets: &[O],
    present: &[u8],
    null: u32,
    codes: &mut [u32],
    report: &mut LassoReport,
) -> u32
    ensures outcome { ColumnEnds O.GREATEST lasso.old.seat.value present.now bytes.now (O.numbers offsets.now) codes.old
        result report.new lasso.new.seat.value }
    ensures texts { PutsNew lasso.old.seat.value lasso.new.seat.value
        (present_texts (first_rows report.new.texts present.now bytes.now (O.numbers offsets.now))) }
    ensures codes { codes.new ≡
        over (row_codes_in null lasso.new.seat.value (first_rows report.new.texts present.now bytes.now (O.numbers offsets.now))) codes.old }
    ensures seed { seed_in lasso.new.seat.value ≡ seed_in lasso.old.seat.value }
    ensures whole { result ≡ DONE → report.new.texts ≡ length (layout_texts bytes.now (O.numbers offsets.now)) }
    ensures within { report.new.texts ≤ length (layout_texts bytes.now (O.numbers offsets.now)) }
{
    let Some(interner) = lasso.interner() else {
        return tell(&Err(CallError::NoInterner), report);
    };
    let progress = intern_column(&mut interner.rodeo, bytes, offsets, present, null, codes);
    tell_batch(progress, report)
}

// Looks the texts of a layout up, as `lasso_get_batch` says.
pub(crate) fn get_batch<O: Offset>(
    lasso: &mut Lasso,
    bytes: &[u8],
    offsets: &[O],
    absent: u32,
    codes: &mut [u32],
    report: &mut LassoReport,
) -> u32
    ensures outcome { Reports (lookup_outcome O.GREATEST lasso.old.seat.value bytes.now (O.numbers offsets.now) (length codes.old)) result report.new }
    ensures codes { result ≡ DONE →
        codes.new ≡ over (codes_or absent (texts_in lasso.old.seat.value) (layout_texts bytes.now (O.numbers offsets.now))) codes.old }
    ensures codes_kept { ¬ (result ≡ DONE) → codes.new ≡ codes.old }
    ensures kept { lasso.new.seat.value ≡ lasso.old.seat.value }
{
    let Some(interner) = lasso.interner() else {
        return tell(&Err(CallError::NoInterner), report);
    };
    let outcome = find_layout(&interner.rodeo, bytes, offsets, absent, codes);
    tell(&outcome, report)
}

// Writes the layout of the texts from a code on, as `lasso_dictionary` says.
pub(crate) fn dictionary<O: Offset>(
    lasso: &mut Lasso,
    from: usize,
    bytes: &mut [u8],
    offsets: &mut [O],
    report: &mut LassoReport,
) -> u32
    ensures outcome { Reports (dictionary_outcome O.GREATEST lasso.old.seat.value from (length (O.numbers offsets.old)) (length bytes.old)) result report.new }
    ensures bytes { result ≡ DONE → bytes.new ≡ bytes_over (drop from (texts_in lasso.old.seat.value)) bytes.old }
    ensures offsets { result ≡ DONE → O.numbers offsets.new ≡ offsets_over (drop from (texts_in lasso.old.seat.value)) (O.numbers offsets.old) }
    ensures bytes_kept { ¬ (result ≡ DONE) → bytes.new ≡ bytes.old }
    ensures offsets_kept { ¬ (result ≡ DONE) → O.numbers offsets.new ≡ O.numbers offsets.old }
    ensures kept { lasso.new.seat.value ≡ lasso.old.seat.value }
{
    let Some(interner) = lasso.interner() else {
        return tell(&Err(CallError::NoInterner), report);
    };
    let outcome = write_from(&interner.rodeo, from, bytes, offsets);
    tell(&outcome, report)
}
