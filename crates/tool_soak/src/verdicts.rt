//! Right and wrong answers about a list of three texts, and which of them it explains.
//!
//! The list is `5`, the empty text and `1`. The round began with 16 bytes and a limit of 1000, and ended with 48 bytes.
use crate::answers::{Answer, sum_with};
use crate::checker::{Round, check};
use crate::texts::{Frozen, Texts};
use anyhow::Result;
use lasso::{LassoErrorKind, Spur};

const FIRST: Answer = Answer::Interned {
    text: 5,
    position: 0,
};

const LAST: Answer = Answer::Interned {
    text: 1,
    position: 2,
};

const LAST_IS_FOUND: Answer = Answer::Found {
    text: 1,
    position: Some(2),
};

const LAST_IS_MISSING: Answer = Answer::Found {
    text: 1,
    position: None,
};

const LAST_IS_RESOLVED: Answer = Answer::Resolved {
    position: 2,
    there: true,
    text: Some(1),
};

const NOTHING_AT_ONE: Answer = Answer::Resolved {
    position: 1,
    there: false,
    text: None,
};

// What is tried: its name, and the answers of a thread.
type Row<'a> = (&'a str, &'a [Answer]);

// Texts were counted.
const fn counted(texts: usize) -> Answer {
    Answer::Counted { texts }
}

// The usage was read.
const fn used(bytes: usize) -> Answer {
    Answer::Used { bytes }
}

// The limit was set.
const fn limited(bytes: usize) -> Answer {
    Answer::Limited { bytes }
}

// The limit was read.
const fn allowed(bytes: usize) -> Answer {
    Answer::Allowed { bytes }
}

// A text that was to be copied was refused.
const fn refused(text: usize, kind: LassoErrorKind) -> Answer {
    Answer::Refused {
        text,
        copied: true,
        kind,
    }
}

// The text `9` was refused for the limit.
const PAST_LIMIT: Answer = Answer::Refused {
    text: 9,
    copied: true,
    kind: LassoErrorKind::MemoryLimitReached,
};

// A walk over the first texts of the list.
fn walked(texts: &[&str]) -> Answer {
    let mut sum = 0u64;
    for text in texts {
        sum = sum_with(sum, text);
    }
    Answer::Walked {
        texts: texts.len(),
        sum,
    }
}

/// Prints whether answers are explained by a list of three texts: for each rule such as are, and such as are not by that rule alone.
pub fn print_verdicts<R: AllocGlobal + Print>(rt: &R) -> Result<()> {
    print_texts(rt)?;
    print_fewer(rt)?;
    print_more(rt)?;
    print_reasons(rt)?;
    print_refusals(rt)?;
    print_usages(rt)?;
    print_limits(rt)?;
    print_turns(rt)?;
    print_windows(rt)
}

// Prints of answers that are so in the list, or not.
fn print_texts<R: AllocGlobal + Print>(rt: &R) -> Result<()> {
    let other_key = Answer::Interned {
        text: 1,
        position: 0,
    };
    let other_position = Answer::Found {
        text: 1,
        position: Some(0),
    };
    let [other_text, unknown] = [Some(1), None].map(|text| Answer::Resolved {
        position: 0,
        there: true,
        text,
    });
    let rows: [Row<'_>; 8] = [
        (
            "what a shorter list answers",
            &[FIRST, counted(1), NOTHING_AT_ONE, LAST_IS_MISSING],
        ),
        ("another key", &[other_key]),
        ("another position", &[other_position]),
        ("another text", &[other_text]),
        ("a text of nobody", &[unknown]),
        ("a walk", &[walked(&["5", ""])]),
        ("another walk", &[walked(&["5", "1"])]),
        ("more than there are in the end", &[counted(4)]),
    ];
    print_rows(rt, &rows)
}

// Prints of two texts, after an answer that shows two or more.
fn print_fewer<R: AllocGlobal + Print>(rt: &R) -> Result<()> {
    let two = counted(2);
    let walk = walked(&["5", "", "1"]);
    let rows: [Row<'_>; 6] = [
        ("two behind two", &[two, two]),
        ("two behind three", &[counted(3), two]),
        ("two behind a walk", &[walk, two]),
        ("two behind a new text", &[LAST, two]),
        ("two behind a found text", &[LAST_IS_FOUND, two]),
        ("two behind a resolved key", &[LAST_IS_RESOLVED, two]),
    ];
    print_rows(rt, &rows)
}

// Prints of answers that show fewer than three texts, after two or three.
fn print_more<R: AllocGlobal + Print>(rt: &R) -> Result<()> {
    let (two, three) = (counted(2), counted(3));
    let last = refused(1, LassoErrorKind::MemoryLimitReached);
    let (used, low) = (used(48), limited(20));
    let rows: [Row<'_>; 6] = [
        ("a text that is not there yet", &[two, LAST_IS_MISSING]),
        ("a text is gone", &[three, LAST_IS_MISSING]),
        ("a key is gone", &[three, NOTHING_AT_ONE]),
        ("a walk is shorter", &[three, walked(&["5"])]),
        ("a new text is refused", &[used, low, two, last]),
        ("a text that was is refused", &[used, low, three, last]),
    ];
    print_rows(rt, &rows)
}

// Prints of refusals with other reasons than a limit, or of other texts than such as take memory.
fn print_reasons<R: AllocGlobal + Print>(rt: &R) -> Result<()> {
    let no_key = refused(9, LassoErrorKind::KeySpaceExhaustion);
    let no_memory = refused(9, LassoErrorKind::FailedAllocation);
    let (used, low) = (used(48), limited(20));
    let kept = Answer::Refused {
        text: 9,
        copied: false,
        kind: LassoErrorKind::MemoryLimitReached,
    };
    let empty = refused(0, LassoErrorKind::MemoryLimitReached);
    let rows: [Row<'_>; 5] = [
        ("no key where there are keys", &[no_key]),
        ("no memory", &[no_memory]),
        ("a copy is refused", &[used, low, PAST_LIMIT]),
        ("a static text is refused", &[used, low, kept]),
        ("an empty text is refused", &[used, low, empty]),
    ];
    print_rows(rt, &rows)
}

// Prints of refusals for the limit.
fn print_refusals<R: AllocGlobal + Print>(rt: &R) -> Result<()> {
    let (low, all, more) = (limited(20), limited(48), limited(49));
    let rows: [Row<'_>; 6] = [
        ("a refusal under the first limit", &[PAST_LIMIT]),
        ("a byte past the limit", &[all, PAST_LIMIT, used(48)]),
        ("the limit's last byte", &[more, PAST_LIMIT, used(48)]),
        ("room behind it", &[all, PAST_LIMIT, used(47)]),
        ("a limit that is over", &[low, limited(900), PAST_LIMIT]),
        ("a limit to come", &[PAST_LIMIT, low]),
    ];
    print_rows(rt, &rows)
}

// Prints of usages.
fn print_usages<R: AllocGlobal + Print>(rt: &R) -> Result<()> {
    let (first, last) = (used(16), used(48));
    let (low, less, all) = (limited(20), limited(47), limited(48));
    let rows: [Row<'_>; 8] = [
        ("a usage that falls", &[last, first]),
        ("a usage below the first", &[used(15)]),
        ("a usage past the end's", &[used(49)]),
        ("a usage at the limit", &[all, first, last]),
        ("a usage past the limit", &[less, first, last]),
        ("a usage past two limits", &[less, first, low, last]),
        ("a limit falls below the usage", &[last, low, last]),
        ("a usage that rose before", &[low, last]),
    ];
    print_rows(rt, &rows)
}

// Prints of limits that were read.
fn print_limits<R: AllocGlobal + Print>(rt: &R) -> Result<()> {
    let (first, set) = (allowed(1000), limited(100));
    let rows: [Row<'_>; 5] = [
        ("the first limit", &[first]),
        ("no limit of these", &[allowed(999)]),
        ("the limit that was set", &[set, allowed(100)]),
        ("the limit before", &[set, first]),
        ("the limit behind", &[allowed(100), set]),
    ];
    print_rows(rt, &rows)
}

// Prints of limits that another thread alone set: first 20, then 900.
fn print_turns<R: AllocGlobal + Print>(rt: &R) -> Result<()> {
    let sets = Sets {
        alone: true,
        answers: &[limited(20), limited(900)],
    };
    let (first, low, high) = (allowed(1000), allowed(20), allowed(900));
    let rows: [Row<'_>; 7] = [
        ("20, then 900", &[low, high]),
        ("900, then 20", &[high, low]),
        ("refused before 900", &[PAST_LIMIT, high]),
        ("refused behind 900", &[high, PAST_LIMIT]),
        ("refused before 20", &[PAST_LIMIT, first]),
        ("risen behind 20", &[low, used(16), used(48)]),
        ("risen under 20", &[low, used(16), used(48), low]),
    ];
    sets.print_rows(rt, &rows)
}

// Prints of limits that another thread set, in a list or with a usage of its time.
fn print_windows<R: AllocGlobal + Print>(rt: &R) -> Result<()> {
    print_lists(rt)?;
    print_times(rt)?;
    print_later(rt)
}

// Prints of limits that another thread set when there were one or two texts.
fn print_lists<R: AllocGlobal + Print>(rt: &R) -> Result<()> {
    let (one, two) = (counted(1), counted(2));
    let late: [Row<'_>; 2] = [
        ("20 came in time", &[PAST_LIMIT, two]),
        ("20 came too late", &[PAST_LIMIT, one]),
    ];
    Sets::some(&[two, limited(20)]).print_rows(rt, &late)?;
    let early: [Row<'_>; 2] = [
        ("20 may be there still", &[one, PAST_LIMIT]),
        ("20 is over", &[two, PAST_LIMIT]),
    ];
    Sets::some(&[limited(20), limited(900), one]).print_rows(rt, &early)
}

// Prints of limits that another thread set at a usage.
fn print_times<R: AllocGlobal + Print>(rt: &R) -> Result<()> {
    let late: [Row<'_>; 2] = [
        ("20 at a usage of 48", &[allowed(20), used(48)]),
        ("20 at a usage of 47", &[allowed(20), used(47)]),
    ];
    Sets::some(&[used(48), limited(20)]).print_rows(rt, &late)?;
    let early: [Row<'_>; 2] = [
        ("1000 at a usage of 47", &[used(47), allowed(1000)]),
        ("1000 at a usage of 48", &[used(48), allowed(1000)]),
    ];
    Sets::some(&[limited(900), used(47)]).print_rows(rt, &early)
}

// Prints of limits of two threads.
fn print_later<R: AllocGlobal + Print>(rt: &R) -> Result<()> {
    let (one, low) = (counted(1), limited(20));
    let rows: [Row<'_>; 2] = [
        ("900 may be to come", &[low, counted(0), one, PAST_LIMIT]),
        (
            "900 took its place",
            &[low, counted(0), counted(2), PAST_LIMIT],
        ),
    ];
    Sets::some(&[one, limited(900), one]).print_rows(rt, &rows)
}

// What a thread answers that sets limits, alone or as one of several.
#[derive(Clone, Copy)]
struct Sets<'a> {
    alone: bool,
    answers: &'a [Answer],
}

impl<'a> Sets<'a> {
    // The answers of one of several threads that set limits.
    fn some(answers: &'a [Answer]) -> Self {
        Sets {
            alone: false,
            answers,
        }
    }

    // Prints of each row whether these answers and those of a second thread are explained.
    fn print_rows<R: AllocGlobal + Print>(&self, rt: &R, rows: &[Row<'_>]) -> Result<()> {
        let alone = if self.alone { Some(0) } else { None };
        for (name, answers) in rows {
            let first = with_ends(rt, self.answers)?;
            let second = with_ends(rt, answers)?;
            print_verdict(rt, name, alone, &[first, second])?;
        }
        Ok(())
    }
}

// Prints of each row whether the answers of a thread are explained, where there is no other.
fn print_rows<R: AllocGlobal + Print>(rt: &R, rows: &[Row<'_>]) -> Result<()> {
    for (name, answers) in rows {
        let answers = with_ends(rt, answers)?;
        print_verdict(rt, name, None, &[answers])?;
    }
    Ok(())
}

// The answers, and after them the number of texts and the usage in the end.
fn with_ends<R: AllocGlobal>(rt: &R, answers: &[Answer]) -> Result<Vec<Answer>> {
    let mut all = Vec::new(rt.alloc());
    all.extend_from_slice(answers)?;
    all.push(counted(3))?;
    all.push(used(48))?;
    Ok(all)
}

// Prints whether the answers of threads are explained. One thread may be the only one that sets limits.
fn print_verdict<R: AllocGlobal + Print>(
    rt: &R,
    name: &str,
    alone: Option<usize>,
    found: &[Vec<Answer>],
) -> Result<()> {
    let texts = Texts::new(rt.alloc(), 10)?;
    let frozen = frozen_list(rt, &texts)?;
    let round = Round {
        texts: &texts,
        frozen: &frozen,
        usage: 16,
        limit: 1000,
        alone,
    };
    print_line(rt, name, check::<Spur>(rt.alloc(), &round, found).is_ok())
}

// The list of `5`, the empty text and `1`.
fn frozen_list<R: AllocGlobal>(rt: &R, texts: &Texts) -> Result<Frozen> {
    let mut frozen = Frozen::new(rt.alloc(), texts)?;
    for text in ["5", "", "1"] {
        frozen.push(texts, text)?;
    }
    Ok(frozen)
}

// Prints whether what has this name is explained.
fn print_line(rt: &impl Print, name: &str, is_explained: bool) -> Result<()> {
    let verdict = if is_explained {
        "is explained"
    } else {
        "is not explained"
    };
    println!(rt; "{name}: {verdict}")?;
    Ok(())
}
