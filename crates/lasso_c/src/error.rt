//! How a call ends: the sizes of what it wrote, or why it was refused. What C sees of either is a status and a report.
ghost use Rattle.std.specs.Prelude.{◌≡◌};
ghost use Rattle.lasso_c.specs.Status.{Reports, error_status, status_text};
ghost use Rattle.lasso_c.specs.declared.error.CallError.TheVariants.{NoMemory};

use crate::status::*;
use lasso_parts::util::LassoError;
use std::alloc::{AllocError, AllocFailed};

/// How many texts there are, and how many bytes they have in all.
#[derive(Clone, Copy)]
pub struct Sizes {
    pub texts: usize,
    pub bytes: usize,
}

/// Why a call was refused. A number is that of the text or code at which it was, counted from 0; sizes are those that
/// the outputs need.
#[derive(Clone, Copy)]
pub enum CallError {
    /// The text's end is before its beginning.
    OffsetsFall(usize),
    /// The text's end, or the first text's beginning, is past the bytes or past the greatest offset.
    OffsetPastBytes(usize),
    /// The text's bytes are not UTF-8.
    NotUtf8(usize),
    /// The dictionary has no text for the code.
    NoSuchCode(usize),
    /// The texts up to the code's have more bytes than the greatest offset.
    TooManyBytes(usize),
    /// There is no room for a code of each text.
    CodesTooShort(Sizes),
    /// There is no room for an offset of each text and one more.
    OffsetsTooShort(Sizes),
    /// There is no room for the texts' bytes.
    BytesTooShort(Sizes),
    /// The allocator gave no memory.
    NoMemory,
    /// The limit of the interner leaves no room for the text.
    LimitReached(usize),
    /// The interner has as many texts as there are codes.
    NoCodeLeft(usize),
    /// The handle holds no interner.
    NoInterner,
    /// The interner does not have the text.
    NoSuchText,
    /// The bitmap has no bit for the row.
    BitmapTooShort(usize),
}

impl From<AllocError> for CallError {
    ghost from_gives = { λ _ refusal. refusal ≡ NoMemory };

    fn from(_: AllocError) -> Self {
        CallError::NoMemory
    }
}

impl<T: Drop> From<AllocFailed<T>> for CallError {
    ghost from_gives = { λ _ refusal. refusal ≡ NoMemory };

    fn from(_: AllocFailed<T>) -> Self {
        CallError::NoMemory
    }
}

impl From<LassoError> for CallError {
    ghost from_gives = { λ _ refusal. refusal ≡ NoMemory };

    // The interners here have no limit below the greatest number and a key for each text that offsets can reach.
    fn from(_: LassoError) -> Self {
        CallError::NoMemory
    }
}

/// What a call reports besides its status.
#[repr(C)]
#[derive(Clone, Copy)]
pub struct LassoReport {
    /// How many texts were written, or have to fit if an output is too short; else 0. Of a call that interns a batch: how many
    /// of its rows were done, also if the next one is refused.
    pub texts: usize,
    /// How many bytes these texts have; 0 of a batch.
    pub bytes: usize,
    /// At which text or code, counted from 0, the call was refused; else 0. Of a batch: its first row that was not done, if it was refused.
    pub at: usize,
}

// The status of how a call ended. It writes the report.
pub(crate) fn tell(outcome: &Result<Sizes, CallError>, report: &mut LassoReport) -> u32
    ensures { Reports outcome.now result report.new }
{
    let (status, texts, bytes, at) = match outcome {
        Ok(sizes) => (DONE, sizes.texts, sizes.bytes, 0),
        Err(CallError::OffsetsFall(at)) => (OFFSETS_FALL, 0, 0, *at),
        Err(CallError::OffsetPastBytes(at)) => (OFFSET_PAST_BYTES, 0, 0, *at),
        Err(CallError::NotUtf8(at)) => (NOT_UTF8, 0, 0, *at),
        Err(CallError::NoSuchCode(at)) => (NO_SUCH_CODE, 0, 0, *at),
        Err(CallError::TooManyBytes(at)) => (TOO_MANY_BYTES, 0, 0, *at),
        Err(CallError::CodesTooShort(sizes)) => (CODES_TOO_SHORT, sizes.texts, sizes.bytes, 0),
        Err(CallError::OffsetsTooShort(sizes)) => (OFFSETS_TOO_SHORT, sizes.texts, sizes.bytes, 0),
        Err(CallError::BytesTooShort(sizes)) => (BYTES_TOO_SHORT, sizes.texts, sizes.bytes, 0),
        Err(CallError::NoMemory) => (NO_MEMORY, 0, 0, 0),
        Err(CallError::LimitReached(at)) => (LIMIT_REACHED, 0, 0, *at),
        Err(CallError::NoCodeLeft(at)) => (NO_CODE_LEFT, 0, 0, *at),
        Err(CallError::NoInterner) => (NO_INTERNER, 0, 0, 0),
        Err(CallError::NoSuchText) => (NO_SUCH_TEXT, 0, 0, 0),
        Err(CallError::BitmapTooShort(at)) => (BITMAP_TOO_SHORT, 0, 0, *at),
    };
    *report = LassoReport { texts, bytes, at };
    status
}

// The status of a refusal.
pub(crate) fn status_of(refusal: &CallError) -> u32
    ensures { result ≡ error_status refusal.now }
{
    match refusal {
        CallError::OffsetsFall(_) => OFFSETS_FALL,
        CallError::OffsetPastBytes(_) => OFFSET_PAST_BYTES,
        CallError::NotUtf8(_) => NOT_UTF8,
        CallError::NoSuchCode(_) => NO_SUCH_CODE,
        CallError::TooManyBytes(_) => TOO_MANY_BYTES,
        CallError::CodesTooShort(_) => CODES_TOO_SHORT,
        CallError::OffsetsTooShort(_) => OFFSETS_TOO_SHORT,
        CallError::BytesTooShort(_) => BYTES_TOO_SHORT,
        CallError::NoMemory => NO_MEMORY,
        CallError::LimitReached(_) => LIMIT_REACHED,
        CallError::NoCodeLeft(_) => NO_CODE_LEFT,
        CallError::NoInterner => NO_INTERNER,
        CallError::NoSuchText => NO_SUCH_TEXT,
        CallError::BitmapTooShort(_) => BITMAP_TOO_SHORT,
    }
}

// What a status means.
pub(crate) fn message_of(status: u32) -> &'static str
    ensures { result.now ≡ status_text status }
{
    match status {
        DONE => "done",
        OFFSETS_FALL => "an offset is below the one before it",
        OFFSET_PAST_BYTES => "an offset lies past the bytes",
        NOT_UTF8 => "a text is not UTF-8",
        NO_SUCH_CODE => "the dictionary has no text for a code",
        TOO_MANY_BYTES => "the texts have more bytes than offsets can tell",
        CODES_TOO_SHORT => "there is no room for the codes",
        OFFSETS_TOO_SHORT => "there is no room for the offsets",
        BYTES_TOO_SHORT => "there is no room for the bytes",
        NO_MEMORY => "there is no memory",
        LIMIT_REACHED => "the limit leaves no room for a text",
        NO_CODE_LEFT => "there is a text for each code",
        NO_INTERNER => "there is no interner",
        NO_SUCH_TEXT => "the interner does not have the text",
        BITMAP_TOO_SHORT => "a bitmap has no bit for a row",
        BUSY => "another thread is in the way",
        OTHER_HANDLES => "the interner has other handles",
        FROZEN => "the interner is frozen",
        _ => "not a status",
    }
}
