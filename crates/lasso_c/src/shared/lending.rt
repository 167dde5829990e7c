//! Texts that C borrows from a shared interner, with no copy.
ghost use Rattle.std.specs.Prelude.{◌≡◌, ◌<◌, ◌-◌, Some, drop, length, map, min, slice_get, take};
ghost use Rattle.std.specs.Borrow.{sem};
ghost use Rattle.lasso_c.specs.Members.{seen_lookup, texts_seen};
ghost use Rattle.lasso_c.specs.Passes.{texts_of};
ghost use Rattle.lasso_c.specs.SharedLending.{KeepsHeld};
ghost use Rattle.lasso_c.specs.Status.{outcome_status};

use crate::lending::LassoText;
use crate::shared::handle::LassoShared;
use crate::shared::member::Member;
use crate::status::{DONE, NO_INTERNER, NO_SUCH_CODE};

// How a call that lends ends: its status, how many texts it lends, and the member whose interner's texts they are.
#[derive(Clone, Copy)]
struct Lent<'a> {
    status: u32,
    count: usize,
    from: Option<&'a Member>,
}

/// Lends the text of a code, of the list that `lasso_shared_see` saw last. It returns `NO_INTERNER` without an interner,
/// `NO_SUCH_CODE` if that list has no text for the code, and writes nothing then. The text stays until the last handle of the
/// interner is let go.
#[unsafe(no_mangle)]
pub extern "C" fn lasso_shared_text<'a>(
    shared: &'a mut LassoShared,
    code: u32,
    text: &mut LassoText<'a>,
) -> u32
    ensures* kept { sem 𝓛 (KeepsHeld shared.entry) }
    ensures status { result ≡ outcome_status (seen_lookup shared.old.seat.value code) }
    ensures text { result ≡ DONE → slice_get (texts_seen shared.old.seat.value) code ≡ Some text.new.bytes.now }
    ensures text_kept { ¬ (result ≡ DONE) → text.new ≡ text.old }
{
    status_of(lend_text(shared, code, text))
}

// Lends the text of a code.
#[inline(always)]
fn lend_text<'a>(shared: &'a mut LassoShared, code: u32, text: &mut LassoText<'a>) -> Lent<'a>
    ensures* kept { sem 𝓛 (KeepsHeld shared.entry) }
    ensures status { result.status ≡ outcome_status (seen_lookup shared.old.seat.value code) }
    ensures text { result.status ≡ DONE → slice_get (texts_seen shared.old.seat.value) code ≡ Some text.new.bytes.now }
    ensures text_kept { ¬ (result.status ≡ DONE) → text.new ≡ text.old }
{
    let Some(member) = shared.member() else {
        return nothing_lent(NO_INTERNER);
    };
    let member = &*member;
    let Some(found) = member.text_seen(code as usize) else {
        return nothing_lent(NO_SUCH_CODE);
    };
    let bytes = found.as_bytes();
    *text = LassoText { bytes };
    Lent {
        status: DONE,
        count: 1,
        from: Some(member),
    }
}

/// Lends the texts from a code on, of the list that `lasso_shared_see` saw last, as many as there is room for. It returns how many
/// these are; 0 without an interner. They stay until the last handle of the interner is let go.
#[unsafe(no_mangle)]
pub extern "C" fn lasso_shared_texts<'a>(
    shared: &'a mut LassoShared,
    from: usize,
    texts: &mut [LassoText<'a>],
) -> usize
    ensures* kept { sem 𝓛 (KeepsHeld shared.entry) }
    ensures count { result ≡ min (length texts.old) (length (texts_seen shared.old.seat.value) - from) }
    ensures texts { take result (map (λ t. t.bytes.now) texts.new) ≡ take result (drop from (texts_seen shared.old.seat.value)) }
    ensures rest { drop result texts.new ≡ drop result texts.old }
{
    count_of(lend_from(shared, from, texts))
}

// Lends the texts from a code on, as many as there is room for.
fn lend_from<'a>(shared: &'a mut LassoShared, from: usize, texts: &mut [LassoText<'a>]) -> Lent<'a>
    ensures* kept { sem 𝓛 (KeepsHeld shared.entry) }
    ensures count { result.count ≡ min (length texts.old) (length (texts_seen shared.old.seat.value) - from) }
    ensures texts { take result.count (map (λ t. t.bytes.now) texts.new) ≡ take result.count (drop from (texts_seen shared.old.seat.value)) }
    ensures rest { drop result.count texts.new ≡ drop result.count texts.old }
{
    let Some(member) = shared.member() else {
        return nothing_lent(NO_INTERNER);
    };
    let member = &*member;
    let count = lend_texts(member, from, texts);
    Lent {
        status: DONE,
        count,
        from: Some(member),
    }
}

// Lends the texts from a code on, as many as there is room for, and returns how many these are.
fn lend_texts<'a>(member: &'a Member, from: usize, texts: &mut [LassoText<'a>]) -> usize
    ensures count { result ≡ min (length texts.old) (length (texts_of member.now.list) - from) }
    ensures texts { take result (map (λ t. t.bytes.now) texts.new) ≡ take result (drop from (texts_of member.now.list)) }
    ensures rest { drop result texts.new ≡ drop result texts.old }
{
    let count = texts.len().min(member.count_seen().saturating_sub(from));
    for at in 0..count {
        let bytes = text_at(member, from + at).as_bytes();
        texts[at] = LassoText { bytes };
    }
    count
}

// The text of a code that the list has.
fn text_at(member: &Member, code: usize) -> &str
    requires { code < length (texts_of member.now.list) }
    ensures { slice_get (texts_of member.now.list) code ≡ Some result.now }
{
    member.text_seen(code).unwrap()
}

// No text is lent, for the reason of this status.
#[inline(always)]
fn nothing_lent<'a>(status: u32) -> Lent<'a>
    ensures status { result.status ≡ status }
    ensures count { result.count ≡ 0 }
{
    Lent {
        status,
        count: 0,
        from: None,
    }
}

// How the call ends.
#[inline(always)]
fn status_of(lent: Lent<'_>) -> u32
    ensures { result ≡ lent.entry.status }
{
    lent.status
}

// How many texts it lends.
#[inline(always)]
fn count_of(lent: Lent<'_>) -> usize
    ensures { result ≡ lent.entry.count }
{
    lent.count
}
