//! Columns of 20,000 texts, also by threads over an interner that has texts already. The expected codes are computed
//! from the numbers that the texts print.
use crate::calls::{
    CALLS, Call, Host, Shared, are_codes, distinct_of, has_from, interner, is_so, is_so_at,
    limited_shared, stand_for,
};
use lasso::{MemoryLimits, SpurThreadedRodeo, ThreadedRodeo};
use lasso_columns::{decode, encode, encode_in_parts, encode_lines, merge};
use std::alloc::Global;
use std::test::Fail;

// How a column is encoded: as texts or as lines by one thread, or in parts by this number of workers.
#[derive(Clone, Copy)]
pub(super) enum Way {
    Texts,
    Lines,
    Parts(usize),
}

// The texts have these codes over an interner of the opening's texts, which resolve to them, and it then has no other
// text than theirs and those that it had. They are decoded from the codes.
pub(super) fn are_encoded(
    rt: &impl Host,
    opening: &[&str],
    texts: &[&str],
    wanted: &[u32],
    way: Way,
) -> Result<(), Fail> {
    let mut rodeo = interner(rt.alloc(), opening)?;
    let mut codes = Vec::new(rt.alloc());
    match way {
        Way::Texts => encode(&mut rodeo, texts, &mut codes)?,
        Way::Lines => {
            let mut lines: Vec<u8> = Vec::new(rt.alloc());
            for text in texts {
                lines.extend_from_slice(text.as_bytes())?;
                lines.push(b'\n')?;
            }
            encode_lines(&mut rodeo, &lines, &mut codes)?;
        }
        Way::Parts(workers) => encode_in_parts(rt, &mut rodeo, texts, &mut codes, workers)?,
    }
    is_so(rt, codes.as_slice() == wanted, "the codes");
    let count = opening.len().max(distinct_of(wanted));
    is_so(rt, rodeo.len() == count, "the number of texts");
    let holds = stand_for(&rodeo, wanted, texts);
    is_so(rt, holds, "the texts of the codes");
    let reader = rodeo.into_reader();
    let mut decoded = Vec::new(rt.alloc());
    decode(&reader, wanted, &mut decoded)?;
    let holds = decoded.as_slice() == texts;
    is_so(rt, holds, "the texts that are decoded");
    Ok(())
}

// A long column is encoded in each way over an interner without texts, and decoded.
pub(super) fn encodes_long(rt: &impl Host, numbers: Numbers, ways: &[Way]) -> Result<(), Fail> {
    let column = make_column(rt.alloc(), numbers, COUNT)?;
    let texts = slices(rt.alloc(), &column.texts)?;
    for way in ways {
        are_encoded(rt, &[], &texts, &column.codes, *way)?;
    }
    Ok(())
}

#[test]
fn long_columns_are_encoded_and_decoded(rt: HostRuntime) -> Result<(), Fail> {
    static WAYS: [Way; 2] = [Way::Texts, Way::Lines];
    encodes_long(&rt, Numbers::Repeated, &WAYS)?;
    encodes_long(&rt, Numbers::Distinct, &WAYS)?;
    encodes_long(&rt, Numbers::Mixed, &WAYS)
}

// Merging an interner of the texts into one of the opening gives these codes. The latter then has `count` texts.
pub(super) fn merges(
    rt: &impl Host,
    opening: &[&str],
    texts: &[&str],
    codes: &[u32],
    count: usize,
) -> Result<(), Fail> {
    let from = interner(rt.alloc(), texts)?.into_reader();
    let mut into = interner(rt.alloc(), opening)?;
    let merged = merge(rt.alloc(), &mut into, &from)?;
    is_so(rt, merged.as_slice() == codes, "the codes");
    is_so(rt, into.len() == count, "the number of texts");
    Ok(())
}

// The second dictionary has 20,000 texts, each of which comes once, and some of which the first has too.
#[test]
fn dictionaries_of_many_texts_are_merged(rt: HostRuntime) -> Result<(), Fail> {
    let mut numbers = first_of(rt.alloc(), Numbers::Repeated, COUNT)?;
    let first = printed(rt.alloc(), &numbers)?;
    let others = first_of(rt.alloc(), Numbers::Distinct, COUNT)?;
    let second = printed(rt.alloc(), &others)?;
    numbers.extend_from_slice(&others)?;
    let codes = codes_of(rt.alloc(), &numbers)?;
    let added = codes.get(first.len()..).ok_or("too few codes")?;
    let (first, second) = (slices(rt.alloc(), &first)?, slices(rt.alloc(), &second)?);
    merges(&rt, &first, &second, added, distinct_of(&codes))
}

// The order of the list may differ from run to run.
#[test]
fn threads_encode_many_texts(rt: HostRuntime) -> Result<(), Fail> {
    let column = make_column(rt.alloc(), Numbers::Mixed, COUNT)?;
    let texts = slices(rt.alloc(), &column.texts)?;
    for workers in [1, 4, 7] {
        let rodeo: SpurThreadedRodeo = ThreadedRodeo::default(rt.alloc())?;
        let codes = Shared::new(&rt, &rodeo, Call::Plain, workers).encoded(&texts)?;
        is_so_at(&rt, rodeo.len() == distinct_of(&column.codes), workers);
        is_so_at(&rt, are_codes(&rodeo, &codes, &texts), workers);
    }
    Ok(())
}

// Columns of texts that print numbers. The expected codes are computed from the numbers.

/// How many texts a long column has.
pub(super) const COUNT: u32 = 20_000;

// The least number that is printed with five digits.
const LEAST: u32 = 10_000;

/// The numbers that a long column prints.
#[derive(Clone, Copy)]
pub(super) enum Numbers {
    /// They mostly repeat, also within the part of any one worker. New ones come up to the end.
    Repeated,
    /// They are all different: 7919 and 20,000 have no common factor.
    Distinct,
    /// The first half of `Repeated`, and then the second half of `Distinct`.
    Mixed,
}

fn repeated_at(place: u32) -> u32 {
    (place.wrapping_mul(place) % 97).wrapping_add(place / 200)
}

fn distinct_at(place: u32) -> u32 {
    place.wrapping_mul(7919) % COUNT
}

fn number_at(numbers: Numbers, place: u32) -> u32 {
    match numbers {
        Numbers::Repeated => repeated_at(place),
        Numbers::Distinct => distinct_at(place),
        Numbers::Mixed if place < 10_000 => repeated_at(place),
        Numbers::Mixed => distinct_at(place),
    }
}

/// The first `count` of the numbers.
pub(super) fn first_of(alloc: Global, numbers: Numbers, count: u32) -> Result<Vec<u32>, Fail> {
    let mut found = Vec::new(alloc);
    for place in 0..count {
        found.push(number_at(numbers, place))?;
    }
    Ok(found)
}

/// Prints each number plus 10,000, which has five digits.
pub(super) fn printed(alloc: Global, numbers: &[u32]) -> Result<Vec<String>, Fail> {
    let mut texts = Vec::new(alloc);
    for number in numbers {
        texts.push(format!(in alloc; "{}", number.wrapping_add(LEAST))?)?;
    }
    Ok(texts)
}

/// The code of each number: how many different numbers come before its first occurrence.
pub(super) fn codes_of(alloc: Global, numbers: &[u32]) -> Result<Vec<u32>, Fail> {
    let mut found = vec![in alloc; u32::MAX; COUNT as usize]?;
    let mut count = 0u32;
    let mut codes = Vec::new(alloc);
    for number in numbers {
        let code = found.get_mut(*number as usize).ok_or("too great a number")?;
        if *code == u32::MAX {
            *code = count;
            count = count.wrapping_add(1);
        }
        codes.push(*code)?;
    }
    Ok(codes)
}

/// A column's texts, and the codes that one thread gives them.
#[derive(Drop)]
pub(super) struct Column {
    pub texts: Vec<String>,
    pub codes: Vec<u32>,
}

/// The column of the first `count` of the numbers, encoded over an interner without texts.
pub(super) fn make_column(alloc: Global, numbers: Numbers, count: u32) -> Result<Column, Fail> {
    let numbers = first_of(alloc, numbers, count)?;
    let (texts, codes) = (printed(alloc, &numbers)?, codes_of(alloc, &numbers)?);
    Ok(Column { texts, codes })
}

/// The texts, borrowed.
pub(super) fn slices(alloc: Global, printed: &[String]) -> Result<Vec<&str>, Fail> {
    let mut texts = Vec::new(alloc);
    for text in printed {
        texts.push(text.as_str())?;
    }
    Ok(texts)
}

// Columns that threads encode over an interner that has texts already, under a limit that none of them meets and under
// one that all of them meet. Each text has five bytes, so that which buckets there are afterwards is the same whatever
// the order of the texts.

static WORKERS: [usize; 2] = [1, 4];

// Far above the bytes of all texts.
const LIMIT: usize = 1_234_567;

// Below the bytes of each column's texts.
const LOW_LIMIT: usize = 40_000;

// How many texts the interner has before a column is encoded.
const OPENING: usize = 500;

// A column, and the opening before it. An interner of both has `count` texts.
#[derive(Clone, Copy)]
struct Case<'a> {
    opening: &'a [&'a str],
    texts: &'a [&'a str],
    // by one worker
    codes: &'a [u32],
    count: usize,
}

// The interner has to have the texts of the opening first, and `count` texts in all; and this usage under the limit.
fn holds<R: Host>(shared: &Shared<'_, R>, opening: &[&str], count: usize, usage: usize) {
    let (rt, rodeo) = (shared.rt, shared.rodeo);
    is_so(rt, shared.is_kept(count, LIMIT), "the number of texts");
    is_so(rt, rodeo.current_memory_usage(rt) == usage, "the usage");
    is_so(rt, has_from(rodeo, 0, opening), "the opening");
}

// Interns the opening, which fits in the first bucket, of these bytes, and encodes the column, and then its first
// thousand texts once more, none of which is new. After both the usage has to be this.
fn follows<R: Host>(
    shared: &Shared<'_, R>,
    case: Case<'_>,
    bytes: usize,
    usage: usize,
) -> Result<(), Fail> {
    let (rt, rodeo) = (shared.rt, shared.rodeo);
    rodeo.extend(rt, case.opening.iter().copied())?;
    holds(shared, case.opening, OPENING, bytes);
    let codes = shared.encoded(case.texts)?;
    holds(shared, case.opening, case.count, usage);
    is_so(rt, are_codes(rodeo, &codes, case.texts), "the texts");
    let are_in_order = shared.workers > 1 || codes.as_slice() == case.codes;
    is_so(rt, are_in_order, "the codes");
    let again = shared.encoded(case.texts.get(..1000).ok_or("too few texts")?)?;
    is_so(rt, Some(again.as_slice()) == codes.get(..1000), "again");
    holds(shared, case.opening, case.count, usage);
    Ok(())
}

// Encodes the column of these numbers after the opening, by each call and each number of workers. Then there are `count`
// texts, and `usage` bytes in the buckets if the first bucket has the bytes of the opening alone, or just the first
// bucket if that has room for all texts.
fn numbers_follow(
    rt: &impl Host,
    numbers: Numbers,
    count: usize,
    usage: usize,
) -> Result<(), Fail> {
    // every fortieth number below 20,000
    let mut all = Vec::new(rt.alloc());
    for number in 0..500u32 {
        all.push(number.wrapping_mul(40))?;
    }
    let opening = printed(rt.alloc(), &all)?;
    let numbers = first_of(rt.alloc(), numbers, COUNT)?;
    let texts = printed(rt.alloc(), &numbers)?;
    all.extend_from_slice(&numbers)?;
    let codes = codes_of(rt.alloc(), &all)?;
    let (opening, texts) = (slices(rt.alloc(), &opening)?, slices(rt.alloc(), &texts)?);
    let case = Case {
        opening: &opening,
        texts: &texts,
        codes: codes.get(OPENING..).ok_or("too few codes")?,
        count,
    };
    let whole = count.saturating_mul(5).max(1);
    for call in CALLS.iter() {
        for workers in WORKERS.iter() {
            for (bytes, usage) in [(2500, usage), (whole, whole)] {
                let rodeo = limited_shared(rt.alloc(), bytes, LIMIT)?;
                follows(
                    &Shared::new(rt, &rodeo, *call, *workers),
                    case,
                    bytes,
                    usage,
                )?;
            }
        }
    }
    Ok(())
}

// The column has 9820 texts that the opening lacks, which have 49,100 bytes. The first bucket of 2500 bytes is
// full, and those of 5000, 10,000, 20,000 and 40,000 bytes come after it.
#[test]
fn a_long_column_of_some_new_texts_follows_others(rt: HostRuntime) -> Result<(), Fail> {
    numbers_follow(&rt, Numbers::Mixed, 10_320, 77_500)
}

// The column has 19,500 texts that the opening lacks, which have 97,500 bytes: a bucket of 80,000 bytes comes
// too.
#[test]
fn a_long_column_of_new_texts_follows_others(rt: HostRuntime) -> Result<(), Fail> {
    numbers_follow(&rt, Numbers::Distinct, 20_000, 157_500)
}

// The distinct texts of the first column have more than 49,100 bytes, those of the second 100,000. The interner has no
// room for them under the lower limit.
#[test]
fn long_columns_are_refused_past_the_limit(rt: HostRuntime) -> Result<(), Fail> {
    for numbers in [Numbers::Mixed, Numbers::Distinct] {
        let printed = printed(rt.alloc(), &first_of(rt.alloc(), numbers, COUNT)?)?;
        let texts = slices(rt.alloc(), &printed)?;
        for call in CALLS.iter() {
            for workers in WORKERS.iter() {
                let rodeo = limited_shared(rt.alloc(), 2500, LIMIT)?;
                rodeo.set_memory_limits(&rt, MemoryLimits::new(LOW_LIMIT));
                let shared = Shared::new(&rt, &rodeo, *call, *workers);
                let is_refused = shared.refuses(&texts, &mut Vec::new(rt.alloc()))?;
                is_so(&rt, is_refused, "the refusal");
                is_so(&rt, rodeo.max_memory_usage(&rt) == LOW_LIMIT, "the limit");
                let holds = rodeo.current_memory_usage(&rt) <= LOW_LIMIT;
                is_so(&rt, holds, "the usage");
            }
        }
    }
    Ok(())
}
