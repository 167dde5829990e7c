//! Interners that C holds from call to call. `include/lasso.h` says the same of each call in C's words.
//!
//! A call borrows the interner from its handle for as long as it works on it.
ghost use denote.RawPtr.{null_ptr};
ghost use Rattle.std.specs.Prelude.{◌≡◌, ◌≢◌, ◌≤◌, ◌↔◌, [], None, Some, false, length, slice_get, drop, IfSome, IsSome, IsSomeAnd, IsTrue};
ghost use Rattle.std.specs.Str.{is_utf8};
ghost use Rattle.lasso_parts.specs.Account.{clear, fresh, with_limit};
ghost use Rattle.lasso_parts.specs.Texts.{position_of};
ghost use Rattle.lasso_parts.specs.Layout.{greatest_offset, layout_texts};
ghost use Rattle.lasso_single.specs.Intern.{IsAbsent, IsPresent, account_with, next_key};
ghost use Rattle.lasso_c.specs.Layout.{bytes_over, CopiesFront, first_rows, first_texts, offsets_over, over, present_texts};
ghost use Rattle.lasso_c.specs.Encoding.{codes_or, with_new};
ghost use Rattle.lasso_c.specs.Handles.{account_in, code_lookup, codes_in, dictionary_outcome, first_in, lookup_outcome};
ghost use Rattle.lasso_c.specs.Handles.{PutsNew, row_codes_in, seed_in, text_lookup, texts_in};
ghost use Rattle.lasso_c.specs.Interning.{ColumnEnds, StaticEnds, TextEnds, key_of_code};
ghost use Rattle.lasso_c.specs.Seeds.{IsFixed};
ghost use Rattle.lasso_c.specs.Status.{Reports, outcome_status};
ghost use Rattle.lasso_c.specs.declared.status.TheConstants.{LIMIT_REACHED, NO_CODE_LEFT};

use crate::batches::{code_in, copy_text, static_code_in};
use crate::error::{CallError, LassoReport, status_of};
use crate::handle::Lasso;
use crate::making::make;
use crate::seed::Seed;
use crate::status::{DONE, NO_INTERNER, NO_MEMORY, NOT_UTF8};
use crate::utf8::text_of;
use crate::widths;
use lasso_parts::keys::Key;
use lasso_parts::util::{Capacity, MemoryLimits};
use std::alloc::Global;

/// Makes an interner whose buckets take at most `limit` bytes. Once it is made, one that the handle held is let go. It returns
/// `NO_MEMORY` out of memory, and the handle is as it was then.
#[unsafe(no_mangle)]
pub extern "C" fn lasso_new(alloc: Global, lasso: &mut Lasso, limit: usize) -> u32
    // On success
    ensures made { result ≡ DONE → IsSome lasso.new.seat.value }
    ensures texts { result ≡ DONE → texts_in lasso.new.seat.value ≡ [] }
    ensures account { result ≡ DONE → account_in lasso.new.seat.value ≡ Some (fresh 4096 limit) }
    ensures first { result ≡ DONE → first_in lasso.new.seat.value ≡ Some 4096 }
    ensures seed { result ≡ DONE → IfSome (seed_in lasso.new.seat.value) IsFixed }

    // On failure
    ensures refused { ¬ (result ≡ DONE) → result ≡ NO_MEMORY }
    ensures kept { ¬ (result ≡ DONE) → lasso.new.seat.value ≡ lasso.old.seat.value }
{
    make(alloc, lasso, Capacity::default(), limit, Seed::fixed())
}

/// Interns a text, and writes its code. It returns the first that applies: `NOT_UTF8`; `NO_INTERNER`; for an absent text
/// `NO_CODE_LEFT`, `LIMIT_REACHED`, `NO_MEMORY`; else `DONE`. If it is not `DONE`, the texts, their bytes and `code` are as before.
#[unsafe(no_mangle)]
pub extern "C" fn lasso_intern(lasso: &mut Lasso, text: &[u8], code: &mut u32) -> u32
    // On success the interner has the text, and `code` is its position there. An absent text goes last, and its bytes are stored.
    ensures texts { result ≡ DONE → texts_in lasso.new.seat.value ≡ with_new (texts_in lasso.old.seat.value) text.now }
    ensures code { result ≡ DONE → position_of (texts_in lasso.new.seat.value) text.now ≡ Some code.new }
    ensures account { result ≡ DONE → IsSomeAnd lasso.old.seat.value
        (λ i. IsAbsent i.rodeo text.now → account_in lasso.new.seat.value ≡ account_with i.rodeo text.now) }

    // A present text changes nothing, and is never refused.
    ensures present { IsTrue (is_utf8 text.now) → IsSomeAnd lasso.old.seat.value (λ i. IsPresent i.rodeo text.now)
        → (result ≡ DONE) × (account_in lasso.new.seat.value ≡ account_in lasso.old.seat.value) }

    // Which failure: bytes that are not UTF-8 come first, then no interner, no code left, the limit, and memory, which runs out only for an absent text.
    ensures not_utf8 { (result ≡ NOT_UTF8) ↔ (is_utf8 text.now ≡ false) }
    ensures no_interner { (result ≡ NO_INTERNER) ↔ (IsTrue (is_utf8 text.now) × (lasso.old.seat.value ≡ None)) }
    ensures no_code { (result ≡ NO_CODE_LEFT) ↔ (IsTrue (is_utf8 text.now)
        × IsSomeAnd lasso.old.seat.value (λ i. IsAbsent i.rodeo text.now × (next_key key_of_code i.rodeo ≡ None))) }
    ensures limit { (result ≡ LIMIT_REACHED) ↔ (IsTrue (is_utf8 text.now) × IsSomeAnd lasso.old.seat.value
        (λ i. IsAbsent i.rodeo text.now × IsSome (next_key key_of_code i.rodeo) × (account_with i.rodeo text.now ≡ None))) }
    ensures memory { result ≡ NO_MEMORY → IsTrue (is_utf8 text.now) × IsSomeAnd lasso.old.seat.value
        (λ i. IsAbsent i.rodeo text.now × IsSome (next_key key_of_code i.rodeo) × IsSome (account_with i.rodeo text.now)) }

    // What stays: how it hashes; on failure the interner and `code`
    ensures seed { seed_in lasso.new.seat.value ≡ seed_in lasso.old.seat.value }
    ensures kept { ¬ (result ≡ DONE) → lasso.new.seat.value ≡ lasso.old.seat.value }
    ensures code_kept { ¬ (result ≡ DONE) → code.new ≡ code.old }

    // The same facts as one relation
    ensures outcome { TextEnds (is_utf8 text.now) lasso.old.seat.value text.now result lasso.new.seat.value }
{
    intern_text(lasso, text, code)
}

// The call with its contract in a relation.
#[inline(always)]
fn intern_text(lasso: &mut Lasso, text: &[u8], code: &mut u32) -> u32
    ensures outcome { TextEnds (is_utf8 text.now) lasso.old.seat.value text.now result lasso.new.seat.value }
    ensures texts { result ≡ DONE → texts_in lasso.new.seat.value ≡ with_new (texts_in lasso.old.seat.value) text.now }
    ensures code { result ≡ DONE → position_of (texts_in lasso.new.seat.value) text.now ≡ Some code.new }
    ensures seed { seed_in lasso.new.seat.value ≡ seed_in lasso.old.seat.value }
    ensures kept { ¬ (result ≡ DONE) → lasso.new.seat.value ≡ lasso.old.seat.value }
    ensures code_kept { ¬ (result ≡ DONE) → code.new ≡ code.old }
{
    let Some(text) = text_of(text) else {
        return NOT_UTF8;
    };
    let Some(interner) = lasso.interner() else {
        return NO_INTERNER;
    };
    match code_in(&mut interner.rodeo, text, 0) {
        Ok(found) => {
            *code = found;
            DONE
        }
        Err(refusal) => status_of(&refusal),
    }
}

/// Interns a text that stays where it is, and writes its code. An absent text is kept without a copy: the limit is not asked, and
/// the account stays. It returns the first that applies: `NOT_UTF8`; `NO_INTERNER`; for an absent text `NO_CODE_LEFT`, `NO_MEMORY`;
/// else `DONE`. If it is not `DONE`, the texts and `code` are as before.
#[unsafe(no_mangle)]
pub extern "C" fn lasso_intern_static(lasso: &mut Lasso, text: &'static [u8], code: &mut u32) -> u32
    // On success the interner has the text, and `code` is its position there. An absent text goes last.
    ensures texts { result ≡ DONE → texts_in lasso.new.seat.value ≡ with_new (texts_in lasso.old.seat.value) text.now }
    ensures code { result ≡ DONE → position_of (texts_in lasso.new.seat.value) text.now ≡ Some code.new }

    // A present text is never refused.
    ensures present { IsTrue (is_utf8 text.now) → IsSomeAnd lasso.old.seat.value (λ i. IsPresent i.rodeo text.now) → result ≡ DONE }

    // Which failure: bytes that are not UTF-8 come first, then no interner, no code left, and memory, which may run out at any time. The
    // limit refuses none.
    ensures not_utf8 { (result ≡ NOT_UTF8) ↔ (is_utf8 text.now ≡ false) }
    ensures no_interner { (result ≡ NO_INTERNER) ↔ (IsTrue (is_utf8 text.now) × (lasso.old.seat.value ≡ None)) }
    ensures no_code { (result ≡ NO_CODE_LEFT) ↔ (IsTrue (is_utf8 text.now)
        × IsSomeAnd lasso.old.seat.value (λ i. IsAbsent i.rodeo text.now × (next_key key_of_code i.rodeo ≡ None))) }
    ensures no_limit { result ≢ LIMIT_REACHED }
    ensures memory { result ≡ NO_MEMORY → IsTrue (is_utf8 text.now) × IsSomeAnd lasso.old.seat.value
        (λ i. IsAbsent i.rodeo text.now × IsSome (next_key key_of_code i.rodeo)) }

    // What stays: the account, for no byte is copied, and how it hashes; on failure the interner and `code`
    ensures account { account_in lasso.new.seat.value ≡ account_in lasso.old.seat.value }
    ensures seed { seed_in lasso.new.seat.value ≡ seed_in lasso.old.seat.value }
    ensures kept { ¬ (result ≡ DONE) → lasso.new.seat.value ≡ lasso.old.seat.value }
    ensures code_kept { ¬ (result ≡ DONE) → code.new ≡ code.old }

    // The same facts as one relation
    ensures outcome { StaticEnds (is_utf8 text.now) lasso.old.seat.value text.now result lasso.new.seat.value }
{
    intern_static_text(lasso, text, code)
}

// The call with its contract in a relation.
#[inline(always)]
fn intern_static_text(lasso: &mut Lasso, text: &'static [u8], code: &mut u32) -> u32
    ensures outcome { StaticEnds (is_utf8 text.now) lasso.old.seat.value text.now result lasso.new.seat.value }
    ensures texts { result ≡ DONE → texts_in lasso.new.seat.value ≡ with_new (texts_in lasso.old.seat.value) text.now }
    ensures code { result ≡ DONE → position_of (texts_in lasso.new.seat.value) text.now ≡ Some code.new }
    ensures seed { seed_in lasso.new.seat.value ≡ seed_in lasso.old.seat.value }
    ensures kept { ¬ (result ≡ DONE) → lasso.new.seat.value ≡ lasso.old.seat.value }
    ensures code_kept { ¬ (result ≡ DONE) → code.new ≡ code.old }
{
    let Some(text) = text_of(text) else {
        return NOT_UTF8;
    };
    let Some(interner) = lasso.interner() else {
        return NO_INTERNER;
    };
    match static_code_in(&mut interner.rodeo, text) {
        Ok(found) => {
            *code = found;
            DONE
        }
        Err(refusal) => status_of(&refusal),
    }
}

/// Interns the texts of a layout in their order, up to the first that is refused, and writes the codes of those before it. The
/// report says how many these are, and also where the refused one is. It returns the first that applies: `NO_INTERNER` without an
/// interner; `CODES_TOO_SHORT` if `codes` has fewer places than there are texts, or `OFFSET_PAST_BYTES` if the first offset is past
/// the bytes, and interns none then; else what the refused text gives: `OFFSETS_FALL`, `OFFSET_PAST_BYTES` or `NOT_UTF8` for its
/// layout, or a refusal of `lasso_intern`.
#[unsafe(no_mangle)]
pub extern "C" fn lasso_intern_batch(
    lasso: &mut Lasso,
    bytes: &[u8],
    offsets: &[u32],
    codes: &mut [u32],
    report: &mut LassoReport,
) -> u32
    // Either way the first texts are interned, as many as the report says, and have their codes.
    ensures texts { PutsNew lasso.old.seat.value lasso.new.seat.value (first_texts report.new.texts bytes.now offsets.now) }
    ensures codes { codes.new ≡ over (codes_in lasso.new.seat.value (first_texts report.new.texts bytes.now offsets.now)) codes.old }
    ensures within { report.new.texts ≤ length (layout_texts bytes.now offsets.now) }

    // On success these are all texts. On failure the text after them was refused, and the report has its number.
    ensures whole { result ≡ DONE → report.new.texts ≡ length (layout_texts bytes.now offsets.now) }
    ensures at { ¬ (result ≡ DONE) → report.new.at ≡ report.new.texts }

    // What stays
    ensures seed { seed_in lasso.new.seat.value ≡ seed_in lasso.old.seat.value }

    // Which status, and the same facts as one relation
    ensures outcome { ColumnEnds greatest_offset lasso.old.seat.value [] bytes.now offsets.now codes.old result report.new lasso.new.seat.value }
{
    widths::intern_batch(lasso, bytes, offsets, codes, report)
}

/// Interns a layout as `lasso_intern_batch` does, with nulls: bit i of byte i / 8 of `present`, counted from the least, is 1 if row i is
/// present; if `present` is empty, each row is present. A null has the code `null`, and no text is interned for it. After
/// `CODES_TOO_SHORT` comes `BITMAP_TOO_SHORT`, if `present` has too few bits: it interns none then.
#[unsafe(no_mangle)]
pub extern "C" fn lasso_intern_batch_nulls(
    lasso: &mut Lasso,
    bytes: &[u8],
    offsets: &[u32],
    present: &[u8],
    null: u32,
    codes: &mut [u32],
    report: &mut LassoReport,
) -> u32
    // Either way the first rows are interned, as many as the report says, and have their codes.
    ensures texts { PutsNew lasso.old.seat.value lasso.new.seat.value (present_texts (first_rows report.new.texts present.now bytes.now offsets.now)) }
    ensures codes { codes.new ≡ over (row_codes_in null lasso.new.seat.value (first_rows report.new.texts present.now bytes.now offsets.now)) codes.old }
    ensures within { report.new.texts ≤ length (layout_texts bytes.now offsets.now) }

    // On success these are all rows. On failure the row after them was refused, and the report has its number.
    ensures whole { result ≡ DONE → report.new.texts ≡ length (layout_texts bytes.now offsets.now) }
    ensures at { ¬ (result ≡ DONE) → report.new.at ≡ report.new.texts }

    // What stays
    ensures seed { seed_in lasso.new.seat.value ≡ seed_in lasso.old.seat.value }

    // Which status, and the same facts as one relation
    ensures outcome { ColumnEnds greatest_offset lasso.old.seat.value present.now bytes.now offsets.now codes.old result report.new lasso.new.seat.value }
{
    widths::intern_batch_nulls(lasso, bytes, offsets, present, null, codes, report)
}

/// Writes the code of a text. It returns `NOT_UTF8` if the text is not UTF-8, `NO_INTERNER` without an interner,
/// `NO_SUCH_TEXT` if the text is absent, and writes nothing then.
#[unsafe(no_mangle)]
pub extern "C" fn lasso_get(lasso: &mut Lasso, text: &[u8], code: &mut u32) -> u32
    // Which status
    ensures status { result ≡ outcome_status (text_lookup (is_utf8 text.now) lasso.old.seat.value text.now) }

    // On success
    ensures found { result ≡ DONE → position_of (texts_in lasso.old.seat.value) text.now ≡ Some code.new }

    // What stays
    ensures kept { lasso.new.seat.value ≡ lasso.old.seat.value }

    // On failure
    ensures code_kept { ¬ (result ≡ DONE) → code.new ≡ code.old }
{
    match find_code(lasso, text) {
        Ok(found) => {
            *code = found;
            DONE
        }
        Err(refusal) => status_of(&refusal),
    }
}

// The code of the text, or why there is none.
fn find_code(lasso: &mut Lasso, text: &[u8]) -> Result<u32, CallError>
    ensures found { result ≡ text_lookup (is_utf8 text.now) lasso.old.seat.value text.now }
    ensures kept { lasso.new.seat.value ≡ lasso.old.seat.value }
{
    let Some(text) = text_of(text) else {
        return Err(CallError::NotUtf8(0));
    };
    let Some(interner) = lasso.interner() else {
        return Err(CallError::NoInterner);
    };
    match interner.rodeo.get(text) {
        Some(key) => Ok(key.into_position()),
        None => Err(CallError::NoSuchText),
    }
}

/// Writes the code of each text of a layout, and `absent` for a text that the interner does not have. The report has their
/// number. It returns the first that applies: `NO_INTERNER` without an interner; `CODES_TOO_SHORT` if `codes` has fewer places than
/// there are texts; `OFFSETS_FALL`, `OFFSET_PAST_BYTES` or `NOT_UTF8` for what is first wrong with the layout; else `DONE`. What
/// is refused writes nothing but its report.
#[unsafe(no_mangle)]
pub extern "C" fn lasso_get_batch(
    lasso: &mut Lasso,
    bytes: &[u8],
    offsets: &[u32],
    absent: u32,
    codes: &mut [u32],
    report: &mut LassoReport,
) -> u32
    // Which status
    ensures outcome { Reports (lookup_outcome greatest_offset lasso.old.seat.value bytes.now offsets.now (length codes.old)) result report.new }

    // On success
    ensures codes { result ≡ DONE → codes.new ≡ over (codes_or absent (texts_in lasso.old.seat.value) (layout_texts bytes.now offsets.now)) codes.old }

    // What stays
    ensures kept { lasso.new.seat.value ≡ lasso.old.seat.value }

    // On failure
    ensures codes_kept { ¬ (result ≡ DONE) → codes.new ≡ codes.old }
{
    widths::get_batch(lasso, bytes, offsets, absent, codes, report)
}

/// Writes the text of a code as far as there is room, and how many bytes the whole text has. It returns `NO_INTERNER` without an
/// interner, `NO_SUCH_CODE` if the code has no text, and writes nothing then.
#[unsafe(no_mangle)]
pub extern "C" fn lasso_resolve(
    lasso: &mut Lasso,
    code: u32,
    text: &mut [u8],
    whole: &mut usize,
) -> u32
    // Which status
    ensures status { result ≡ outcome_status (code_lookup lasso.old.seat.value code) }

    // On success
    ensures found { result ≡ DONE → IfSome (slice_get (texts_in lasso.old.seat.value) code) (λ t. CopiesFront t whole.new text.old text.new) }
    ensures present { result ≡ DONE → IsSome (slice_get (texts_in lasso.old.seat.value) code) }

    // What stays
    ensures kept { lasso.new.seat.value ≡ lasso.old.seat.value }

    // On failure
    ensures text_kept { ¬ (result ≡ DONE) → text.new ≡ text.old }
    ensures whole_kept { ¬ (result ≡ DONE) → whole.new ≡ whole.old }
{
    match lasso.interner() {
        Some(interner) => copy_text(&interner.rodeo, code, text, whole),
        None => NO_INTERNER,
    }
}

/// Writes the layout of the texts from a code on: what a reader lacks that has those before. The report has their sizes, which
/// are those that are needed if it returns `OFFSETS_TOO_SHORT` or `BYTES_TOO_SHORT`. It returns the first that applies:
/// `NO_INTERNER` without an interner; `TOO_MANY_BYTES` if the texts have more bytes than the greatest offset;
/// `OFFSETS_TOO_SHORT`; `BYTES_TOO_SHORT`; else `DONE`. What is refused writes nothing but its report.
#[unsafe(no_mangle)]
pub extern "C" fn lasso_dictionary(
    lasso: &mut Lasso,
    from: usize,
    bytes: &mut [u8],
    offsets: &mut [u32],
    report: &mut LassoReport,
) -> u32
    // Which status
    ensures outcome { Reports (dictionary_outcome greatest_offset lasso.old.seat.value from (length offsets.old) (length bytes.old)) result report.new }

    // On success
    ensures bytes { result ≡ DONE → bytes.new ≡ bytes_over (drop from (texts_in lasso.old.seat.value)) bytes.old }
    ensures offsets { result ≡ DONE → offsets.new ≡ offsets_over (drop from (texts_in lasso.old.seat.value)) offsets.old }

    // What stays
    ensures kept { lasso.new.seat.value ≡ lasso.old.seat.value }

    // On failure
    ensures bytes_kept { ¬ (result ≡ DONE) → bytes.new ≡ bytes.old }
    ensures offsets_kept { ¬ (result ≡ DONE) → offsets.new ≡ offsets.old }
{
    widths::dictionary(lasso, from, bytes, offsets, report)
}

/// How many texts the interner has; 0 without an interner.
#[unsafe(no_mangle)]
pub extern "C" fn lasso_len(lasso: &mut Lasso) -> usize
    ensures value { result ≡ length (texts_in lasso.old.seat.value) }
    ensures kept { lasso.new.seat.value ≡ lasso.old.seat.value }
{
    let Some(interner) = lasso.interner() else {
        return 0;
    };
    interner.rodeo.len()
}

/// How many texts fit before the interner's list of texts grows, at least as many as it has; 0 without an interner.
#[unsafe(no_mangle)]
pub extern "C" fn lasso_capacity(lasso: &mut Lasso) -> usize
    ensures bound { length (texts_in lasso.old.seat.value) ≤ result }
    ensures none { lasso.old.seat.value ≡ None → result ≡ 0 }
    ensures kept { lasso.new.seat.value ≡ lasso.old.seat.value }
{
    let Some(interner) = lasso.interner() else {
        return 0;
    };
    interner.rodeo.capacity()
}

/// How many bytes the interner's buckets take; 0 without an interner.
#[unsafe(no_mangle)]
pub extern "C" fn lasso_memory(lasso: &mut Lasso) -> usize
    ensures value { IfSome (account_in lasso.old.seat.value) (λ account. result ≡ account.usage) }
    ensures none { lasso.old.seat.value ≡ None → result ≡ 0 }
    ensures kept { lasso.new.seat.value ≡ lasso.old.seat.value }
{
    let Some(interner) = lasso.interner() else {
        return 0;
    };
    interner.rodeo.current_memory_usage()
}

/// How many bytes the interner's buckets may take; 0 without an interner.
#[unsafe(no_mangle)]
pub extern "C" fn lasso_limit(lasso: &mut Lasso) -> usize
    ensures value { IfSome (account_in lasso.old.seat.value) (λ account. result ≡ account.limit) }
    ensures none { lasso.old.seat.value ≡ None → result ≡ 0 }
    ensures kept { lasso.new.seat.value ≡ lasso.old.seat.value }
{
    let Some(interner) = lasso.interner() else {
        return 0;
    };
    interner.rodeo.max_memory_usage()
}

/// Sets how many bytes the interner's buckets may take. It may be less than they take: then no bucket comes. It returns
/// `NO_INTERNER` without an interner.
#[unsafe(no_mangle)]
pub extern "C" fn lasso_set_limit(lasso: &mut Lasso, limit: usize) -> u32
    // On success
    ensures done { IsSome lasso.old.seat.value → result ≡ DONE }
    ensures account { IfSome (account_in lasso.old.seat.value) (λ account. account_in lasso.new.seat.value ≡ Some (with_limit account limit)) }

    // What stays
    ensures texts { texts_in lasso.new.seat.value ≡ texts_in lasso.old.seat.value }
    ensures first { first_in lasso.new.seat.value ≡ first_in lasso.old.seat.value }
    ensures seed { seed_in lasso.new.seat.value ≡ seed_in lasso.old.seat.value }

    // On failure
    ensures none { lasso.old.seat.value ≡ None → (result ≡ NO_INTERNER) × (lasso.new.seat.value ≡ None) }
{
    let Some(interner) = lasso.interner() else {
        return NO_INTERNER;
    };
    interner.rodeo.set_memory_limits(MemoryLimits::new(limit));
    DONE
}

/// Forgets every text. The limit stays, and so do the buckets that are filled again. It returns `NO_INTERNER` without an interner.
#[unsafe(no_mangle)]
pub extern "C" fn lasso_clear(lasso: &mut Lasso) -> u32
    // On success
    ensures done { IsSome lasso.old.seat.value → result ≡ DONE }
    ensures texts { texts_in lasso.new.seat.value ≡ [] }
    ensures account { IfSome lasso.old.seat.value (λ interner. account_in lasso.new.seat.value ≡ Some (clear interner.rodeo.first interner.rodeo.account)) }

    // What stays
    ensures first { first_in lasso.new.seat.value ≡ first_in lasso.old.seat.value }
    ensures seed { seed_in lasso.new.seat.value ≡ seed_in lasso.old.seat.value }

    // On failure
    ensures none { lasso.old.seat.value ≡ None → (result ≡ NO_INTERNER) × (lasso.new.seat.value ≡ None) }
{
    let Some(interner) = lasso.interner() else {
        return NO_INTERNER;
    };
    interner.rodeo.clear();
    DONE
}

/// Lets the interner go, if there is one. The handle holds none then, and is all zero.
#[unsafe(no_mangle)]
pub extern "C" fn lasso_free(alloc: Global, lasso: &mut Lasso)
    ensures none { lasso.new.seat.value ≡ None }
    ensures null { lasso.new.seat.at ≡ null_ptr }
{
    *lasso = Lasso::none(alloc);
}
