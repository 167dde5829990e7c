//! Random calls of a thread by its pass, and what they answer.
ghost use Rattle.std.specs.Prelude.{◌≡◌};

use crate::rounds::answer_batch;
use crate::texts::{Texts, fixed_count, fixed_text};
use lasso::log::Pass;
use lasso::{FixedState, Key, LassoErrorKind, LassoResult, MemoryLimits, ThreadedRodeo};
use std::alloc::AllocError;
use std::sync::Wait;
use test_common::texts::Draws;

// A limit that is set a little above a usage is less than this number of bytes above it.
const LITTLE: usize = 64;

// One of this number of calls is about many texts.
const BATCHES: usize = 64;

/// A call, and what it answered. A text goes by its number among the texts, a key by its position.
#[derive(Clone, Copy, Debug)]
pub enum Answer {
    /// The text got this key.
    Interned {
        text: usize,
        position: usize,
    },
    /// The text got no key. It would have been copied, or kept as it is.
    Refused {
        text: usize,
        copied: bool,
        kind: LassoErrorKind,
    },
    /// The look-up of the text.
    Found {
        text: usize,
        position: Option<usize>,
    },
    /// The look-up of the key: whether there was a text, and its number where it is one of the texts.
    Resolved {
        position: usize,
        there: bool,
        text: Option<usize>,
    },
    /// How many texts there are.
    Counted {
        texts: usize,
    },
    /// The usage, in bytes.
    Used {
        bytes: usize,
    },
    /// The limit was set, in bytes.
    Limited {
        bytes: usize,
    },
    /// The limit in force, in bytes.
    Allowed {
        bytes: usize,
    },
    /// A walk over this number of texts, with their sum.
    Walked {
        texts: usize,
        sum: u64,
    },
}

impl Answer {
    /// Whether a text got no key since it would have taken the usage past the limit.
    pub fn is_past_limit(&self) -> bool {
        match *self {
            Answer::Refused { kind, .. } => kind == LassoErrorKind::MemoryLimitReached,
            _ => false,
        }
    }

    /// Whether the usage was read.
    pub fn is_usage(&self) -> bool {
        match *self {
            Answer::Used { .. } => true,
            _ => false,
        }
    }
}

/// The limits that are set at random, in bytes: the least, and how many from there on.
#[derive(Clone, Copy, Debug)]
pub struct Limits {
    /// The least.
    pub least: usize,
    /// How many there are.
    pub count: usize,
    /// Whether the thread sets limits. Else it reads the limit in force.
    pub set: bool,
}

/// The sum with a text at its end, by which walks are told apart. A sum begins with 0.
pub fn sum_with(sum: u64, text: &str) -> u64 {
    let mut sum = sum.wrapping_mul(31).wrapping_add(257);
    for byte in text.bytes() {
        sum = sum
            .wrapping_mul(0x100_0000_01b3)
            .wrapping_add(u64::from(byte));
    }
    sum
}

/// Makes `calls` random calls with the pass, and returns what each answered, a call about many texts once for each. The only error is
/// out of memory.
///
/// After a refusal for the limit come the usage and the limit, read at once. After a usage comes, every other
/// time, a limit a little above it, if the thread sets limits: so texts often just pass it, or just do not.
pub fn answers<K: Key, R: AllocGlobal + Wait>(
    rt: &R,
    rodeo: &ThreadedRodeo<K, FixedState>,
    pass: &mut Pass<K>,
    texts: &Texts,
    limits: Limits,
    seed: u64,
    calls: u32,
) -> Result<Vec<Answer>, AllocError>
    requires { pass.old.of ≡ rodeo.now }
    ensures { pass.new.of ≡ pass.old.of }
{
    let mut draws = Draws::new(seed);
    let mut answers = Vec::new(rt.alloc());
    for _ in 0..calls {
        if draws.below(BATCHES) == 0 {
            answer_batch(rt, rodeo, pass, texts, &mut draws, &mut answers)?;
        } else {
            let answer = random_answer(rt, rodeo, pass, texts, limits, &mut draws);
            answers.push(answer)?;
        }
        let last = answers.last().copied();
        if last.is_some_and(|answer| answer.is_past_limit()) {
            answers.push(used(rt, rodeo, pass))?;
            answers.push(allowed(rt, rodeo, pass))?;
        }
        if let Some(limit) = limit_after(last, &mut draws) {
            answers.push(limited(rt, rodeo, pass, limits.set, limit))?;
        }
    }
    Ok(answers)
}

// A limit a little above the usage, every other time when that was the last answer.
fn limit_after(last: Option<Answer>, draws: &mut Draws) -> Option<usize> {
    let Some(Answer::Used { bytes }) = last else {
        return None;
    };
    if draws.below(2) != 0 {
        return None;
    }
    Some(bytes.saturating_add(draws.below(LITTLE)))
}

/// How many texts there are, the usage and the limit in force.
pub fn readings<K: Key, R: Wait>(
    rt: &R,
    rodeo: &ThreadedRodeo<K, FixedState>,
    pass: &mut Pass<K>,
) -> [Answer; 3]
    requires { pass.old.of ≡ rodeo.now }
    ensures { pass.new.of ≡ pass.old.of }
{
    let texts = counted(rodeo, pass);
    let usage = used(rt, rodeo, pass);
    [texts, usage, allowed(rt, rodeo, pass)]
}

// Makes one random call.
fn random_answer<K: Key, R: Wait>(
    rt: &R,
    rodeo: &ThreadedRodeo<K, FixedState>,
    pass: &mut Pass<K>,
    texts: &Texts,
    limits: Limits,
    draws: &mut Draws,
) -> Answer
    requires { pass.old.of ≡ rodeo.now }
    ensures { pass.new.of ≡ pass.old.of }
{
    let text = draws.below(texts.count());
    match draws.below(512) {
        0..=199 => copied(rt, rodeo, pass, texts, text),
        200..=249 => fixed(rt, rodeo, pass, draws.below(fixed_count())),
        250..=369 => found(rt, rodeo, pass, texts, text),
        370..=469 => resolved(rodeo, pass, texts, text),
        470..=489 => counted(rodeo, pass),
        490..=499 => used(rt, rodeo, pass),
        500..=504 => allowed(rt, rodeo, pass),
        505..=509 => {
            let bytes = limits.least.saturating_add(draws.below(limits.count));
            limited(rt, rodeo, pass, limits.set, bytes)
        }
        _ => walked(rodeo, pass),
    }
}

// Interns a copy of the text.
fn copied<K: Key, R: Wait>(
    rt: &R,
    rodeo: &ThreadedRodeo<K, FixedState>,
    pass: &mut Pass<K>,
    texts: &Texts,
    text: usize,
) -> Answer
    requires { pass.old.of ≡ rodeo.now }
    ensures { pass.new.of ≡ pass.old.of }
{
    let reply = rodeo.try_get_or_intern_as(rt, pass, texts.text(text));
    replied(reply, text, true)
}

// Interns the static text.
fn fixed<K: Key, R: Wait>(
    rt: &R,
    rodeo: &ThreadedRodeo<K, FixedState>,
    pass: &mut Pass<K>,
    text: usize,
) -> Answer
    requires { pass.old.of ≡ rodeo.now }
    ensures { pass.new.of ≡ pass.old.of }
{
    let kept = fixed_text(text).unwrap_or("");
    let reply = rodeo.try_get_or_intern_static_as(rt, pass, kept);
    replied(reply, text, false)
}

// What an intern of the text replied.
fn replied<K: Key>(reply: LassoResult<K>, text: usize, copied: bool) -> Answer {
    match reply {
        Ok(key) => Answer::Interned {
            text,
            position: key.into_usize(),
        },
        Err(error) => Answer::Refused {
            text,
            copied,
            kind: error.kind(),
        },
    }
}

// Looks the text up.
fn found<K: Key, R: Wait>(
    rt: &R,
    rodeo: &ThreadedRodeo<K, FixedState>,
    pass: &mut Pass<K>,
    texts: &Texts,
    text: usize,
) -> Answer
    requires { pass.old.of ≡ rodeo.now }
    ensures { pass.new.of ≡ pass.old.of }
{
    let position = match rodeo.get_as(rt, pass, texts.text(text)) {
        Some(key) => Some(key.into_usize()),
        None => None,
    };
    Answer::Found { text, position }
}

// Looks the key of the position up; where it has none, counts the texts.
fn resolved<K: Key>(
    rodeo: &ThreadedRodeo<K, FixedState>,
    pass: &mut Pass<K>,
    texts: &Texts,
    position: usize,
) -> Answer
    requires { pass.old.of ≡ rodeo.now }
    ensures { pass.new.of ≡ pass.old.of }
{
    let Some(key) = K::try_from_usize(position) else {
        return counted(rodeo, pass);
    };
    match rodeo.try_resolve_as(pass, key) {
        Some(text) => Answer::Resolved {
            position,
            there: true,
            text: texts.number_of(text),
        },
        None => Answer::Resolved {
            position,
            there: false,
            text: None,
        },
    }
}

// Counts the texts.
fn counted<K: Key>(rodeo: &ThreadedRodeo<K, FixedState>, pass: &mut Pass<K>) -> Answer
    requires { pass.old.of ≡ rodeo.now }
    ensures { pass.new.of ≡ pass.old.of }
{
    Answer::Counted {
        texts: rodeo.len_as(pass),
    }
}

// Reads the usage.
fn used<K: Key, R: Wait>(rt: &R, rodeo: &ThreadedRodeo<K, FixedState>, pass: &mut Pass<K>) -> Answer
    requires { pass.old.of ≡ rodeo.now }
    ensures { pass.new.of ≡ pass.old.of }
{
    Answer::Used {
        bytes: rodeo.current_memory_usage_as(rt, pass),
    }
}

// Reads the limit.
fn allowed<K: Key, R: Wait>(
    rt: &R,
    rodeo: &ThreadedRodeo<K, FixedState>,
    pass: &mut Pass<K>,
) -> Answer
    requires { pass.old.of ≡ rodeo.now }
    ensures { pass.new.of ≡ pass.old.of }
{
    Answer::Allowed {
        bytes: rodeo.max_memory_usage_as(rt, pass),
    }
}

// Sets the limit, or else reads it.
fn limited<K: Key, R: Wait>(
    rt: &R,
    rodeo: &ThreadedRodeo<K, FixedState>,
    pass: &mut Pass<K>,
    set: bool,
    bytes: usize,
) -> Answer
    requires { pass.old.of ≡ rodeo.now }
    ensures { pass.new.of ≡ pass.old.of }
{
    if !set {
        return allowed(rt, rodeo, pass);
    }
    rodeo.set_memory_limits_as(rt, pass, MemoryLimits::new(bytes));
    Answer::Limited { bytes }
}

// Walks over the texts.
fn walked<K: Key>(rodeo: &ThreadedRodeo<K, FixedState>, pass: &mut Pass<K>) -> Answer
    requires { pass.old.of ≡ rodeo.now }
    ensures { pass.new.of ≡ pass.old.of }
{
    let mut texts = 0usize;
    let mut sum = 0u64;
    for text in rodeo.strings_as(pass) {
        texts = texts.wrapping_add(1);
        sum = sum_with(sum, text);
    }
    Answer::Walked { texts, sum }
}
