//! Texts that C borrows from an interner, with no copy.
ghost use Rattle.std.specs.Prelude.{◌≡◌, ◌-◌, Some, drop, length, map, min, slice_get, take};
ghost use Rattle.std.specs.Borrow.{sem};
ghost use Rattle.lasso_c.specs.Handles.{code_lookup, texts_in};
ghost use Rattle.lasso_c.specs.Lending.{KeepsHeld};
ghost use Rattle.lasso_c.specs.Status.{outcome_status};

use crate::encoding::{Dictionary, text_at_code};
use crate::handle::Lasso;
use crate::seed::Seed;
use crate::seeded::Interner;
use crate::status::{DONE, NO_INTERNER, NO_SUCH_CODE};

/// A borrowed text: where its bytes are, and their number.
#[repr(C)]
#[derive(Clone, Copy)]
pub struct LassoText<'a> {
    pub bytes: &'a [u8],
}

// How a call that lends ends: its status, how many texts it lends, and the interner that they are of.
#[derive(Clone, Copy)]
struct Lent<'a> {
    status: u32,
    count: usize,
    from: Option<&'a Interner<Seed>>,
}

/// Lends the text of a code, for as long as the handle is not used again. It returns `NO_INTERNER` without an interner,
/// `NO_SUCH_CODE` if the code has no text, and writes nothing then.
#[unsafe(no_mangle)]
pub extern "C" fn lasso_text<'a>(lasso: &'a mut Lasso, code: u32, text: &mut LassoText<'a>) -> u32
    ensures* kept { sem 𝓛 (KeepsHeld lasso.entry) }
    // Which status
    ensures status { result ≡ outcome_status (code_lookup lasso.old.seat.value code) }

    // On success
    ensures text { result ≡ DONE → slice_get (texts_in lasso.old.seat.value) code ≡ Some text.new.bytes.now }

    // On failure
    ensures text_kept { ¬ (result ≡ DONE) → text.new ≡ text.old }
{
    status_of(lend_text(lasso, code, text))
}

// Lends the text of a code.
#[inline(always)]
fn lend_text<'a>(lasso: &'a mut Lasso, code: u32, text: &mut LassoText<'a>) -> Lent<'a>
    ensures* kept { sem 𝓛 (KeepsHeld lasso.entry) }
    ensures status { result.status ≡ outcome_status (code_lookup lasso.old.seat.value code) }
    ensures text { result.status ≡ DONE → slice_get (texts_in lasso.old.seat.value) code ≡ Some text.new.bytes.now }
    ensures text_kept { ¬ (result.status ≡ DONE) → text.new ≡ text.old }
{
    let Some(interner) = lasso.interner() else {
        return nothing_lent(NO_INTERNER);
    };
    let code = code as usize;
    if code >= interner.rodeo.len() {
        return nothing_lent(NO_SUCH_CODE);
    }
    let interner = &*interner;
    let bytes = text_at_code(&interner.rodeo, code).as_bytes();
    *text = LassoText { bytes };
    Lent {
        status: DONE,
        count: 1,
        from: Some(interner),
    }
}

/// Lends the texts from a code on, as many as there is room for, for as long as the handle is not used again. It returns how many
/// these are; 0 without an interner.
#[unsafe(no_mangle)]
pub extern "C" fn lasso_texts<'a>(
    lasso: &'a mut Lasso,
    from: usize,
    texts: &mut [LassoText<'a>],
) -> usize
    ensures* kept { sem 𝓛 (KeepsHeld lasso.entry) }
    ensures count { result ≡ min (length texts.old) (length (texts_in lasso.old.seat.value) - from) }
    ensures texts { take result (map (λ t. t.bytes.now) texts.new) ≡ take result (drop from (texts_in lasso.old.seat.value)) }
    ensures rest { drop result texts.new ≡ drop result texts.old }
{
    count_of(lend_from(lasso, from, texts))
}

// Lends the texts from a code on, as many as there is room for.
fn lend_from<'a>(lasso: &'a mut Lasso, from: usize, texts: &mut [LassoText<'a>]) -> Lent<'a>
    ensures* kept { sem 𝓛 (KeepsHeld lasso.entry) }
    ensures count { result.count ≡ min (length texts.old) (length (texts_in lasso.old.seat.value) - from) }
    ensures texts { take result.count (map (λ t. t.bytes.now) texts.new) ≡ take result.count (drop from (texts_in lasso.old.seat.value)) }
    ensures rest { drop result.count texts.new ≡ drop result.count texts.old }
{
    let Some(interner) = lasso.interner() else {
        return nothing_lent(NO_INTERNER);
    };
    let lender = &*interner;
    let count = lend_texts(&lender.rodeo, from, texts);
    Lent {
        status: DONE,
        count,
        from: Some(lender),
    }
}

// Lends the texts from a code on, as many as there is room for, and returns how many these are.
fn lend_texts<'a>(dictionary: &'a Dictionary, from: usize, texts: &mut [LassoText<'a>]) -> usize
    ensures count { result ≡ min (length texts.old) (length dictionary.now.texts - from) }
    ensures texts { take result (map (λ t. t.bytes.now) texts.new) ≡ take result (drop from dictionary.now.texts) }
    ensures rest { drop result texts.new ≡ drop result texts.old }
{
    let count = texts.len().min(dictionary.len().saturating_sub(from));
    for at in 0..count {
        let bytes = text_at_code(dictionary, from + at).as_bytes();
        texts[at] = LassoText { bytes };
    }
    count
}

// No text is lent, for the reason of this status.
#[inline(always)]
fn nothing_lent<'a>(status: u32) -> Lent<'a>
    ensures status { result.status ≡ status }
    ensures count { result.count ≡ 0 }
{
    Lent {
        status,
        count: 0,
        from: None,
    }
}

// How the call ends.
#[inline(always)]
fn status_of(lent: Lent<'_>) -> u32
    ensures { result ≡ lent.entry.status }
{
    lent.status
}

// How many texts it lends.
#[inline(always)]
fn count_of(lent: Lent<'_>) -> usize
    ensures { result ≡ lent.entry.count }
{
    lent.count
}
