//! Whether each answer of each pass is explained by the frozen list.
//!
//! The answers of a pass are gone through from the first to the last. What earlier ones show is the least that a later one may be about,
//! and what later ones show is the most. The limits that can have been in force are those of all threads, as far as their times may meet.
use crate::answers::Answer;
use crate::bounds::{
    Bound, Reign, Setter, ended, least_after, most_bounds, most_texts, note_reigns,
};
use crate::texts::{Frozen, Texts};
use anyhow::{Error, Result, anyhow};
use lasso::{Key, LassoErrorKind};
use std::alloc::{AllocError, Global};

/// A round: what it began with, in bytes, the list that it ended with, and the thread that alone set limits, where one did.
#[derive(Clone, Copy)]
pub struct Round<'a> {
    pub texts: &'a Texts,
    pub frozen: &'a Frozen,
    pub usage: usize,
    pub limit: usize,
    pub alone: Option<usize>,
}

// What is known of a pass: the limits that it counts, and what each of its answers is about at most, that of the last one first.
#[derive(Drop)]
struct Snapshot {
    setter: Setter,
    mosts: Vec<Bound>,
}

impl Round<'_> {
    // What a pass is about at least before its first answer.
    fn first(&self) -> Bound {
        Bound {
            texts: 0,
            usage: self.usage,
            limits: 0,
        }
    }

    // What is known of the pass of a thread.
    fn known(&self, alloc: Global, found: &[Vec<Answer>], thread: usize) -> Result<Snapshot> {
        let own = self.alone.unwrap_or(thread);
        let limits = answers_of(found, own);
        let setter = Setter::new(alloc, own, self.alone.is_some(), self.limit, limits)?;
        let mosts = most_bounds(alloc, self.frozen, &setter, answers_of(found, thread))?;
        Ok(Snapshot { setter, mosts })
    }

    // What is known of the pass of each thread.
    fn known_of_all(&self, alloc: Global, found: &[Vec<Answer>]) -> Result<Vec<Snapshot>> {
        let mut all = Vec::new(alloc);
        for thread in 0..found.len() {
            all.push(self.known(alloc, found, thread)?)?;
        }
        Ok(all)
    }
}

// The answers of the thread.
fn answers_of(found: &[Vec<Answer>], thread: usize) -> &[Answer] {
    match found.get(thread) {
        Some(answers) => answers.as_slice(),
        None => &[],
    }
}

/// Fails with a message if the list does not explain an answer of a thread as one that comes after the
/// earlier answers of the same pass and before the later ones.
pub fn check<K: Key>(alloc: Global, round: &Round<'_>, found: &[Vec<Answer>]) -> Result<()> {
    let all = round.known_of_all(alloc, found)?;
    let reigns = reigns_of(alloc, round, &all, found)?;
    for (known, answers) in all.iter().zip(found) {
        check_pass::<K>(round, &reigns, known, answers.as_slice())?;
    }
    Ok(())
}

// The limits of the round: the first, and those that its threads set.
fn reigns_of(
    alloc: Global,
    round: &Round<'_>,
    all: &[Snapshot],
    found: &[Vec<Answer>],
) -> Result<Vec<Reign>, AllocError> {
    let mut reigns = Vec::new(alloc);
    let first = round.first();
    reigns.push(Reign::first(round.limit, first))?;
    for (known, answers) in all.iter().zip(found) {
        note_reigns(
            &mut reigns,
            &known.setter,
            answers.as_slice(),
            first,
            known.mosts.as_slice(),
        )?;
    }
    ended(alloc, &reigns)
}

// Fails with a message where an answer of a pass is not explained.
fn check_pass<K: Key>(
    round: &Round<'_>,
    reigns: &[Reign],
    known: &Snapshot,
    answers: &[Answer],
) -> Result<()> {
    let setter = &known.setter;
    let mut least = round.first();
    let mut since = least;
    for (answer, most) in answers.iter().zip(known.mosts.iter().rev()) {
        let most = *most;
        let times = Times { since, least, most };
        if let Some(rule) = broken::<K>(round, reigns, setter, answer, times) {
            return Err(times.error().context(format_args!("{rule}: {answer:?}")));
        }
        least = least_after(setter, answer, least);
        if answer.is_usage() {
            since = least;
        }
    }
    Ok(())
}

// The rule that the answer breaks, where it breaks one.
fn broken<K: Key>(
    round: &Round<'_>,
    reigns: &[Reign],
    setter: &Setter,
    answer: &Answer,
    times: Times,
) -> Option<&'static str> {
    if !is_true(round.frozen, answer) {
        return Some("not so in the list");
    }
    if !is_late(round.frozen, answer, times.least) {
        return Some("too late");
    }
    if !is_refused_rightly::<K>(round.texts, reigns, setter, answer, times) {
        return Some("no refusal");
    }
    if !is_within_limits(reigns, setter, answer, times) {
        return Some("no limit allows it");
    }
    None
}

// What an answer is about at least and at most, and what the last reading of the usage before it was about at least.
#[derive(Clone, Copy, Debug)]
struct Times {
    since: Bound,
    least: Bound,
    most: Bound,
}

impl Times {
    // An error that says them.
    fn error(&self) -> Error {
        let Times { since, least, most } = *self;
        anyhow!(
            "texts {}..{}, usage {}..{}, limits {}..{} since {}",
            least.texts,
            most.texts,
            least.usage,
            most.usage,
            least.limits,
            most.limits,
            since.limits
        )
    }
}

// Whether the answer is that of some beginning of the list.
fn is_true(frozen: &Frozen, answer: &Answer) -> bool {
    match *answer {
        Answer::Interned { text, position } => frozen.number(position) == Some(text),
        Answer::Found {
            text,
            position: Some(position),
        } => frozen.number(position) == Some(text),
        Answer::Resolved {
            position,
            there: true,
            text,
        } => { text.is_some() && frozen.number(position) == text }
        Answer::Walked { texts, sum } => frozen.sum(texts) == Some(sum),
        Answer::Refused { kind, .. } => kind != LassoErrorKind::FailedAllocation,
        _ => true,
    }
}

// Whether the answer may come where the list and the usage are at least these.
fn is_late(frozen: &Frozen, answer: &Answer, least: Bound) -> bool {
    match *answer {
        Answer::Used { bytes } => least.usage <= bytes,
        _ => least.texts <= most_texts(frozen, answer),
    }
}

// Whether a refusal has its reason. The usage only grows: so a refusal for the limit has none if the least
// usage read after it, with the text's bytes, is within each limit that can have been in force. Keys are
// asked for at the list's end: so a refusal for lack of keys has none if the longest list that it may be
// about has a next key.
fn is_refused_rightly<K: Key>(
    texts: &Texts,
    reigns: &[Reign],
    setter: &Setter,
    answer: &Answer,
    times: Times,
) -> bool {
    let Answer::Refused { text, copied, kind } = *answer else {
        return true;
    };
    match kind {
        LassoErrorKind::KeySpaceExhaustion => K::try_from_usize(times.most.texts).is_none(),
        LassoErrorKind::MemoryLimitReached => {
            let bytes = texts.text(text).len();
            let past = times.most.usage.saturating_add(bytes);
            copied && bytes > 0 && may_be_below(reigns, setter, past, times)
        }
        LassoErrorKind::FailedAllocation => false,
    }
}

// Whether a limit of fewer bytes than these can have been in force.
fn may_be_below(reigns: &[Reign], setter: &Setter, bytes: usize, times: Times) -> bool {
    for reign in reigns {
        if reign.bytes < bytes && reign.may_be_at(setter, times.least, times.most) {
            return true;
        }
    }
    false
}

// Whether a limit that was read can have been in force, and whether a usage that was read can have been reached. A step that raises the usage
// ends within the limit in force: so a usage that rose since the last reading is within one that can have been in force since then. It may lie
// above a limit that fell, and then it stays.
fn is_within_limits(reigns: &[Reign], setter: &Setter, answer: &Answer, times: Times) -> bool {
    match *answer {
        Answer::Used { bytes } => {
            bytes == times.least.usage || may_hold(reigns, setter, bytes, times)
        }
        Answer::Allowed { bytes } => may_be(reigns, setter, bytes, times),
        _ => true,
    }
}

// Whether a limit of these bytes or more can have been in force since the last reading of the usage.
fn may_hold(reigns: &[Reign], setter: &Setter, bytes: usize, times: Times) -> bool {
    for reign in reigns {
        if bytes <= reign.bytes && reign.may_be_at(setter, times.since, times.most) {
            return true;
        }
    }
    false
}

// Whether the limit of these bytes can have been in force.
fn may_be(reigns: &[Reign], setter: &Setter, bytes: usize, times: Times) -> bool {
    for reign in reigns {
        if reign.bytes == bytes && reign.may_be_at(setter, times.least, times.most) {
            return true;
        }
    }
    false
}
