//! What the answers of a pass show of the steps that they are about: how long the list is, how great the usage and how many limits were
//! set, at least and at most.
//!
//! The steps of a pass go on, the list and the usage only grow, and limits are only added. So what an answer shows at least holds of all
//! later ones, and what it shows at most of all earlier ones.
use crate::answers::Answer;
use crate::texts::Frozen;
use std::alloc::{AllocError, Global};

/// How long the list is, how great the usage and how many limits were set, at least or at most.
#[derive(Clone, Copy, Debug)]
pub struct Bound {
    pub texts: usize,
    pub usage: usize,
    pub limits: usize,
}

impl Bound {
    /// No bound, where it is one of what there is at most.
    pub fn none() -> Self {
        Bound {
            texts: usize::MAX,
            usage: usize::MAX,
            limits: usize::MAX,
        }
    }

    /// The least of both, number by number.
    pub fn min(self, other: Bound) -> Self {
        Bound {
            texts: self.texts.min(other.texts),
            usage: self.usage.min(other.usage),
            limits: self.limits.min(other.limits),
        }
    }
}

/// The limits that the setter set in turn, in bytes, after that of the beginning. A pass counts those of the
/// setter alone: that is its own thread, or else the one thread that sets limits.
#[derive(Drop)]
pub struct Setter {
    /// The number of the thread.
    pub thread: usize,
    /// Whether no other thread sets limits.
    pub alone: bool,
    limits: Vec<usize>,
}

impl Setter {
    /// The thread of this number and with these answers, in a round that began with this limit, in bytes. The
    /// only error is out of memory.
    pub fn new(
        alloc: Global,
        thread: usize,
        alone: bool,
        limit: usize,
        answers: &[Answer],
    ) -> Result<Self, AllocError> {
        let mut limits = Vec::new(alloc);
        limits.push(limit)?;
        for answer in answers {
            if let Answer::Limited { bytes } = *answer {
                limits.push(bytes)?;
            }
        }
        Ok(Setter {
            thread,
            alone,
            limits,
        })
    }

    /// How many limits it set.
    pub fn count(&self) -> usize {
        self.limits.len().saturating_sub(1)
    }

    // How many limits were set at least, given that `least` were set at least before and that a limit of
    // `read` bytes was read. The limit says nothing if others set limits too.
    fn least(&self, least: usize, read: usize) -> usize {
        if self.alone {
            for (number, bytes) in self.limits.iter().enumerate() {
                if least <= number && *bytes == read {
                    return number;
                }
            }
        }
        least
    }

    // How many limits were set at most, likewise.
    fn most(&self, most: usize, read: usize) -> usize {
        let mut found = most;
        if self.alone {
            for (number, bytes) in self.limits.iter().enumerate() {
                if number <= most && *bytes == read {
                    found = number;
                }
            }
        }
        found
    }
}

// How many texts the answer shows at least.
fn least_texts(answer: &Answer) -> usize {
    match *answer {
        Answer::Interned { position, .. } => position.saturating_add(1),
        Answer::Found {
            position: Some(position),
            ..
        } => position.saturating_add(1),
        Answer::Resolved {
            position,
            there: true,
            ..
        } => position.saturating_add(1),
        Answer::Counted { texts } => texts,
        Answer::Walked { texts, .. } => texts,
        _ => 0,
    }
}

/// How many texts the answer shows at most; the greatest number, where it shows nothing of them.
pub fn most_texts(frozen: &Frozen, answer: &Answer) -> usize {
    match *answer {
        Answer::Refused { text, .. } => frozen.position(text),
        Answer::Found {
            text,
            position: None,
        } => frozen.position(text),
        Answer::Resolved {
            position,
            there: false,
            ..
        } => position,
        Answer::Counted { texts } => texts,
        Answer::Walked { texts, .. } => texts,
        _ => usize::MAX,
    }
}

/// What later answers are about at least.
pub fn least_after(setter: &Setter, answer: &Answer, least: Bound) -> Bound {
    let Bound {
        texts,
        usage,
        limits,
    } = least;
    match *answer {
        Answer::Used { bytes } => Bound {
            usage: usage.max(bytes),
            ..least
        },
        Answer::Allowed { bytes } => Bound {
            limits: setter.least(limits, bytes),
            ..least
        },
        Answer::Limited { .. } => Bound {
            limits: limits.saturating_add(1),
            ..least
        },
        _ => Bound {
            texts: texts.max(least_texts(answer)),
            ..least
        },
    }
}

// What the answer and earlier ones are about at most.
fn most_before(frozen: &Frozen, setter: &Setter, answer: &Answer, most: Bound) -> Bound {
    let Bound {
        texts,
        usage,
        limits,
    } = most;
    match *answer {
        Answer::Used { bytes } => Bound {
            usage: usage.min(bytes),
            ..most
        },
        Answer::Allowed { bytes } => Bound {
            limits: setter.most(limits, bytes),
            ..most
        },
        Answer::Limited { .. } => Bound {
            limits: limits.saturating_sub(1),
            ..most
        },
        _ => Bound {
            texts: texts.min(most_texts(frozen, answer)),
            ..most
        },
    }
}

/// What each of the answers is about at most, that of the last one first. The only error is out of memory.
pub fn most_bounds(
    alloc: Global,
    frozen: &Frozen,
    setter: &Setter,
    answers: &[Answer],
) -> Result<Vec<Bound>, AllocError> {
    let mut bounds = Vec::new(alloc);
    let mut most = Bound::none();
    most.limits = setter.count();
    for answer in answers.iter().rev() {
        most = most_before(frozen, setter, answer, most);
        bounds.push(most)?;
    }
    Ok(bounds)
}

// The limits of a round, and what answers show of when each was in force.

/// A limit while it was in force.
#[derive(Clone, Copy, Debug)]
pub struct Reign {
    /// The limit, in bytes.
    pub bytes: usize,
    // the thread that set it, but for that of the beginning, and how many limits that thread had set then
    thread: Option<usize>,
    number: usize,
    // the list and the usage when it was set, at least and at most, and when another took its place, at most
    from: Bound,
    by: Bound,
    until: Bound,
}

impl Reign {
    /// The limit that is in force from the beginning on, at these.
    pub fn first(bytes: usize, at: Bound) -> Self {
        Reign {
            bytes,
            thread: None,
            number: 0,
            from: at,
            by: at,
            until: Bound::none(),
        }
    }

    /// Whether the limit can have been in force at a step that is about at least and at most these, by a pass that counts the limits of
    /// the setter. The list and the usage only grow: so it was not where the step's are less than when it was set, or more than when
    /// another took its place.
    pub fn may_be_at(&self, setter: &Setter, least: Bound, most: Bound) -> bool {
        let counted = self.thread.is_none_or(|thread| thread == setter.thread);
        if counted && (self.number < least.limits || most.limits < self.number) {
            return false;
        }
        self.from.texts <= most.texts
            && self.from.usage <= most.usage
            && least.texts <= self.until.texts
            && least.usage <= self.until.usage
    }

    // Whether it was surely set after the other: that was there from the beginning, or was set before by the same thread, or when the list was
    // shorter or the usage less.
    fn is_after(&self, other: &Reign) -> bool {
        let Some(thread) = other.thread else {
            return self.thread.is_some();
        };
        (self.thread == Some(thread) && other.number < self.number)
            || other.by.texts < self.from.texts
            || other.by.usage < self.from.usage
    }
}

/// Adds the limits that a thread set, which is the setter that it counts. Its answers are about at least
/// `first`, and at most about those of `mosts`, that of the last one first. The only error is out of memory.
pub fn note_reigns(
    reigns: &mut Vec<Reign>,
    setter: &Setter,
    answers: &[Answer],
    first: Bound,
    mosts: &[Bound],
) -> Result<(), AllocError> {
    let mut least = first;
    for (answer, most) in answers.iter().zip(mosts.iter().rev()) {
        let after = least_after(setter, answer, least);
        if let Answer::Limited { bytes } = *answer {
            reigns.push(Reign {
                bytes,
                thread: Some(setter.thread),
                number: after.limits,
                from: least,
                by: *most,
                until: Bound::none(),
            })?;
        }
        least = after;
    }
    Ok(())
}

/// The limits, each until the first of those that were surely set after it. The only error is out of memory.
pub fn ended(alloc: Global, reigns: &[Reign]) -> Result<Vec<Reign>, AllocError> {
    let mut all = Vec::new(alloc);
    for reign in reigns {
        let mut until = reign.until;
        for later in reigns {
            if later.is_after(reign) {
                until = until.min(later.by);
            }
        }
        all.push(Reign { until, ..*reign })?;
    }
    Ok(all)
}
