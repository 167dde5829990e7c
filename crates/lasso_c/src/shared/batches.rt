//! Texts of a layout interned into a shared interner, one after another.
ghost use Rattle.std.specs.Prelude.{◌≡◌, ◌<◌, ◌+◌, ◌^◌, MatchResult, Ok, get_or, length};
ghost use Rattle.lasso_parts.specs.Layout.{greatest_offset};
ghost use Rattle.lasso_log.specs.Replies.{Copied, Intern, Interned};
ghost use Rattle.lasso_c.specs.Members.{is_frozen, shared_seed, texts_seen};
ghost use Rattle.lasso_c.specs.Passes.{IsCallOf};
ghost use Rattle.lasso_c.specs.SharedBatches.{InternsAt, InternsBatch, IsRefused, RefusesAt, SharedBatchEnds, shared_report};

use crate::batches::{first_fault, refusal_of};
use crate::error::{LassoReport, status_of};
use crate::layout::text_between;
use crate::offsets::{count, number};
use crate::shared::handle::LassoShared;
use crate::shared::member::Member;
use crate::status::{BUSY, DONE, FROZEN, NO_INTERNER};
use lasso_parts::keys::Key;
use lasso_parts::offsets::Offset;

// How many texts of a batch were interned, and the status that it ended with.
#[derive(Clone, Copy)]
struct Ending {
    done: usize,
    status: u32,
}

/// Interns the texts of a layout in order, up to the first that is refused, and writes the codes of those before it. The report says
/// how many these are, and also where the refused one is. It returns `NO_INTERNER`; `FROZEN`; `CODES_TOO_SHORT` and interns none if a
/// code of each text has no room; `BUSY` if another thread is inside a step: the texts before that one stay; and else what the refused
/// text gives: `OFFSETS_FALL`, `OFFSET_PAST_BYTES` or `NOT_UTF8` for its layout, or a refusal of `lasso_shared_intern`.
#[unsafe(no_mangle)]
pub extern "C" fn lasso_shared_intern_batch(
    shared: &mut LassoShared,
    bytes: &[u8],
    offsets: &[u32],
    codes: &mut [u32],
    report: &mut LassoReport,
) -> u32
    ensures outcome { SharedBatchEnds greatest_offset bytes.now offsets.now codes.old codes.new result report.new shared.old.seat.value shared.new.seat.value }
    ensures seen { texts_seen shared.new.seat.value ≡ texts_seen shared.old.seat.value }
    ensures seed { shared_seed shared.new.seat.value ≡ shared_seed shared.old.seat.value }
    ensures frozen { is_frozen shared.new.seat.value ≡ is_frozen shared.old.seat.value }
{
    let Some(member) = shared.member() else {
        return tell(
            Ending {
                done: 0,
                status: NO_INTERNER,
            },
            report,
        );
    };
    if member.is_frozen() {
        return tell(
            Ending {
                done: 0,
                status: FROZEN,
            },
            report,
        );
    }
    tell(intern_layout(member, bytes, offsets, codes), report)
}

// Fills the report of a batch, and returns its status.
fn tell(ending: Ending, report: &mut LassoReport) -> u32
    ensures status { result ≡ ending.status }
    ensures report { report.new ≡ shared_report ending.done ending.status }
{
    let Ending { done, status } = ending;
    let at = if status == DONE { 0 } else { done };
    *report = LassoReport {
        texts: done,
        bytes: 0,
        at,
    };
    status
}

// Interns the texts of the layout up to the first that is refused, and writes their codes.
fn intern_layout<O: Offset>(
    member: &mut Member,
    bytes: &[u8],
    offsets: &[O],
    codes: &mut [u32],
) -> Ending
    ensures batch { InternsBatch O.GREATEST bytes.now (O.numbers offsets.now) result.done result.status codes.old codes.new member.old.pass member.new.pass }
    ensures list { member.new.list ≡ member.old.list }
    ensures seed { member.new.shared.seed ≡ member.old.shared.seed }
    ensures frozen { member.new.shared.is_frozen ≡ member.old.shared.is_frozen }
{
    let rows = count(offsets).saturating_sub(1);
    if let Err(refusal) = first_fault::<O>(bytes, first_offset(offsets), rows, &[], codes.len()) {
        return Ending {
            done: 0,
            status: status_of(&refusal),
        };
    }
    for at in 0..rows {
        match code_at(member, bytes, offsets, at) {
            Ok(code) => codes[at] = code,
            Err(status) => return Ending { done: at, status },
        }
    }
    Ending {
        done: rows,
        status: DONE,
    }
}

// The first offset, or 0 if there is none.
fn first_offset<O: Offset>(offsets: &[O]) -> usize
    ensures { result ≡ get_or (O.numbers offsets.now) 0 0 }
{
    if count(offsets) == 0 {
        return 0;
    }
    number(offsets, 0)
}

// Interns the text of this number of the layout, and returns its code, or the status of its refusal.
fn code_at<O: Offset>(
    member: &mut Member,
    bytes: &[u8],
    offsets: &[O],
    at: usize,
) -> Result<u32, u32>
    requires within { at + 1 < length (O.numbers offsets.now) }
    requires counted { at + 1 < 2 ^ 64 }
    ensures reply { MatchResult result
        (λ code. InternsAt O.GREATEST bytes.now (O.numbers offsets.now) at member.old.pass code member.new.pass)
        (λ status. RefusesAt O.GREATEST bytes.now (O.numbers offsets.now) at status member.old.pass member.new.pass) }
    ensures list { member.new.list ≡ member.old.list }
    ensures seed { member.new.shared.seed ≡ member.old.shared.seed }
    ensures frozen { member.new.shared.is_frozen ≡ member.old.shared.is_frozen }
{
    let (from, to) = (number(offsets, at), number(offsets, at + 1));
    let text = match text_between::<O>(bytes, at, from, to) {
        Ok(text) => text,
        Err(refusal) => return Err(status_of(&refusal)),
    };
    intern_text(member, text, at)
}

// Interns the text, the one of this number in a batch, and returns its code, or the status of its refusal.
fn intern_text(member: &mut Member, text: &str, at: usize) -> Result<u32, u32>
    ensures reply { MatchResult result
        (λ code. IsCallOf member.old.pass member.new.pass (Intern Copied text.now) (Interned (Ok (code + 1))))
        (λ status. IsRefused text.now at status member.old.pass member.new.pass) }
    ensures list { member.new.list ≡ member.old.list }
    ensures seed { member.new.shared.seed ≡ member.old.shared.seed }
    ensures frozen { member.new.shared.is_frozen ≡ member.old.shared.is_frozen }
{
    match member.intern(text) {
        None => Err(BUSY),
        Some(Ok(key)) => Ok(key.into_position()),
        Some(Err(error)) => Err(status_of(&refusal_of(error.kind(), at))),
    }
}
