//! Dictionaries that are written as bytes and offsets, read again, and merged; a code that has no text; thousands of
//! texts that are counted and ranked. The expected values are worked out by hand, or computed from numbers.
use crate::calls::{Host, has_texts, interner, is_by_the_limit, is_so, is_so_at, limited};
use crate::long_columns::{COUNT, Numbers, first_of, printed, slices};
use crate::parts::{Script, with_each_refused};
use lasso::{Capacity, FixedState, LassoErrorKind, LassoResult, MemoryLimits, Rodeo, SpurRodeo};
use lasso_columns::counts::{by_frequency_in_parts, count_in_parts};
use lasso_columns::{
    DecodeError, Dictionary, Layout, Offset, ReadError, WriteError, append_dictionary, decode,
    merge, read_dictionary, write_dictionary,
};
use std::alloc::Global;
use std::test::Fail;

// `é` is the bytes c3 a9.
const TEXTS: [&str; 5] = ["red", "", "blé", "a\n", "\0"];

static FIVE_TEXTS: [&str; 5] = TEXTS;

const BYTES: &[u8] = b"redbl\xc3\xa9a\n\0";

const OFFSETS: [u32; 6] = [0, 3, 3, 7, 9, 10];

const LIMIT: LassoErrorKind = LassoErrorKind::MemoryLimitReached;

const KEYS: LassoErrorKind = LassoErrorKind::KeySpaceExhaustion;

// A position, and the bytes and the offsets that are written from there on.
type Written = (usize, &'static [u8], &'static [usize]);

// What is written of the five texts from position 0, from 2, and from their end and past it.
static FIVE: [Written; 5] = [
    (0, BYTES, &[0, 3, 3, 7, 9, 10]),
    (2, b"bl\xc3\xa9a\n\0", &[0, 4, 6, 7]),
    (5, b"", &[0]),
    (6, b"", &[0]),
    (usize::MAX, b"", &[0]),
];

// The row's bytes and offsets have to be written.
fn writes<O: Offset, D: Dictionary>(
    rt: &impl Host,
    dictionary: &D,
    row: Written,
) -> Result<(), WriteError> {
    let layout: Layout<O> = write_dictionary(rt.alloc(), dictionary, row.0)?;
    is_so_at(rt, layout.bytes.as_slice() == row.1, row.0);
    is_so_at(rt, layout.offsets.len() == row.2.len(), row.0);
    for (offset, number) in layout.offsets.iter().zip(row.2) {
        is_so_at(rt, offset.into_usize() == *number, row.0);
    }
    Ok(())
}

// Writes the five texts with offsets of both widths.
fn writes_five<D: Dictionary>(rt: &impl Host, dictionary: &D) -> Result<(), WriteError> {
    for row in FIVE {
        writes::<u32, D>(rt, dictionary, row)?;
        writes::<u64, D>(rt, dictionary, row)?;
    }
    Ok(())
}

#[test]
fn an_interner_and_its_frozen_forms_are_written(rt: HostRuntime) -> Result<(), Fail> {
    let rodeo = interner(rt.alloc(), &FIVE_TEXTS)?;
    writes_five(&rt, &rodeo)?;
    let reader = rodeo.into_reader();
    writes_five(&rt, &reader)?;
    writes_five(&rt, &reader.into_resolver())?;
    Ok(())
}

// The bytes and the offsets of a layout, the fault at which reading it ends, and the texts that the interner then
// has.
type Row = (
    &'static [u8],
    &'static [u32],
    Option<ReadError>,
    &'static [&'static str],
);

// The limit, the usage of the interner that is read, and the layout.
type Reading = (usize, usize, Row);

// Whether the interner that was read, or the fault, is as the row says. Out of memory is an error.
fn is_read(read: Result<SpurRodeo, ReadError>, reading: Reading) -> Result<bool, Fail> {
    let (limit, usage, row) = reading;
    match read {
        Ok(rodeo) => Ok(
            row.2.is_none()
                && has_texts(&rodeo, row.3)
                && rodeo.max_memory_usage() == limit
                && rodeo.current_memory_usage() == usage,
        ),
        Err(ReadError::Refused(at, LassoErrorKind::FailedAllocation)) => {
            Err(Fail::from(ReadError::Refused(at, LassoErrorKind::FailedAllocation)))
        }
        Err(error) => Ok(Some(error) == row.2),
    }
}

// Reads each layout with offsets of both widths.
fn reads(rt: &impl Host, readings: &[Reading]) -> Result<(), Fail> {
    for (number, reading) in readings.iter().enumerate() {
        let (limits, row) = (MemoryLimits::new(reading.0), reading.2);
        let found = read_dictionary(rt.alloc(), limits, FixedState::new(), row.0, row.1);
        is_so_at(rt, is_read(found, *reading)?, number);
        let mut wide = Vec::new(rt.alloc());
        for offset in row.1 {
            wide.push(u64::from(*offset))?;
        }
        let found = read_dictionary(rt.alloc(), limits, FixedState::new(), row.0, &wide);
        is_so_at(rt, is_read(found, *reading)?, number);
    }
    Ok(())
}

#[test]
fn what_was_written_is_read(rt: HostRuntime) -> Result<(), Fail> {
    static WHOLE: [Reading; 1] = [(usize::MAX, 10, (BYTES, &OFFSETS, None, &TEXTS))];
    reads(&rt, &WHOLE)
}

#[test]
fn a_dictionary_may_have_no_texts(rt: HostRuntime) -> Result<(), Fail> {
    static READINGS: [Reading; 2] = [
        (usize::MAX, 4096, (b"", &[0], None, &[])),
        (usize::MAX, 5, (b"bytes", &[], None, &[])),
    ];
    let none: SpurRodeo = interner(rt.alloc(), &[])?;
    writes::<u32, SpurRodeo>(&rt, &none, (0, b"", &[0]))?;
    reads(&rt, &READINGS)
}

// The first bucket has one byte, whatever the limit.
#[test]
fn a_limit_of_zero_leaves_room_for_a_byte(rt: HostRuntime) -> Result<(), Fail> {
    static READINGS: [Reading; 3] = [
        (0, 1, (b"", &[0, 0], None, &[""])),
        (0, 1, (b"a", &[0, 1], None, &["a"])),
        (
            0,
            0,
            (b"ab", &[0, 2], Some(ReadError::Refused(0, LIMIT)), &[]),
        ),
    ];
    reads(&rt, &READINGS)
}

// The first `count` texts of a column without doubles.
fn distinct_texts(alloc: Global, count: u32) -> Result<Vec<String>, Fail> {
    let numbers = first_of(alloc, Numbers::Distinct, count)?;
    printed(alloc, &numbers)
}

// 20,000 texts of five bytes are written from 0 and read, and written from 12,345 and appended to the texts before that
// position.
#[test]
fn many_texts_are_written_and_read(rt: HostRuntime) -> Result<(), Fail> {
    let printed = distinct_texts(rt.alloc(), COUNT)?;
    let texts = slices(rt.alloc(), &printed)?;
    let rodeo = interner(rt.alloc(), &texts)?;
    let wide: Layout<u64> = write_dictionary(rt.alloc(), &rodeo, 0)?;
    is_so(&rt, wide.bytes.len() == 100_000, "the bytes");
    is_so(&rt, wide.offsets.len() == 20_001, "the number of offsets");
    for (place, offset) in wide.offsets.iter().enumerate() {
        is_so_at(&rt, *offset == (place as u64).wrapping_mul(5), place);
    }
    let (limits, hasher) = (MemoryLimits::new(100_000), FixedState::new());
    let read: SpurRodeo = read_dictionary(rt.alloc(), limits, hasher, &wide.bytes, &wide.offsets)?;
    is_so(&rt, has_texts(&read, &texts), "the texts that are read");
    let mut first = interner(rt.alloc(), texts.get(..12_345).ok_or("too few")?)?;
    let rest: Layout<u32> = write_dictionary(rt.alloc(), &rodeo, 12_345)?;
    append_dictionary(&mut first, &rest.bytes, &rest.offsets)?;
    let holds = has_texts(&first, &texts);
    is_so(&rt, holds, "the texts that are appended");
    Ok(())
}

// Each memory request of the interner is refused once. The texts before the refused one are in its list,
// and a second call appends the others.
#[test]
fn a_refused_request_leaves_the_first_texts(rt: HostRuntime) -> Result<(), Fail> {
    let printed = distinct_texts(rt.alloc(), 500)?;
    let texts = slices(rt.alloc(), &printed)?;
    let rodeo = interner(rt.alloc(), &texts)?;
    let layout: Layout<u32> = write_dictionary(rt.alloc(), &rodeo, 0)?;
    with_each_refused(&rt, Script::Appends(&layout, &texts))
}

// Each memory request of `read_dictionary` is refused once. A refused call gives its memory back.
#[test]
fn a_refused_request_ends_a_reading(rt: HostRuntime) -> Result<(), Fail> {
    static OFFSETS_OF_FIVE: [u32; 6] = OFFSETS;
    with_each_refused(&rt, Script::Reads(BYTES, &OFFSETS_OF_FIVE, &FIVE_TEXTS))
}

#[test]
fn faults_are_printed(rt: HostRuntime) -> Result<(), Fail> {
    static READING: [(ReadError, &str); 5] = [
        (ReadError::OffsetsFall(1), "text 1 ends before it begins"),
        (
            ReadError::OffsetPastBytes(20),
            "text 20 has an offset past the bytes",
        ),
        (ReadError::NotText(0), "text 0 is not UTF-8"),
        (ReadError::Doubled(3), "text 3 is there already"),
        (
            ReadError::Refused(4, KEYS),
            "text 4: The key space was exhausted",
        ),
    ];
    for (error, words) in READING.iter() {
        let printed = format!(in rt.alloc(); "{error}")?;
        is_so(&rt, printed.as_str() == *words, *words);
    }
    let many = format!(in rt.alloc(); "{}", WriteError::TooManyBytes(7))?;
    let words = "text 7 ends past the greatest offset";
    is_so(&rt, many.as_str() == words, words);
    let memory = format!(in rt.alloc(); "{}", WriteError::NoMemory)?;
    let holds = memory.as_str() == "Failed to allocate memory";
    is_so(&rt, holds, "no memory");
    Ok(())
}

// A code that has no text, and interners that are merged.

// The third of the codes has no text.
#[test]
fn a_code_without_a_text_is_told(rt: HostRuntime) -> Result<(), Fail> {
    let reader = interner(rt.alloc(), &["red", "green"])?.into_reader();
    let mut texts = Vec::new(rt.alloc());
    let fault = decode(&reader, &[1, 0, 2, 1], &mut texts).err();
    let (position, code) = (2, 2);
    let wanted = Some(DecodeError::NoText { position, code });
    is_so(&rt, fault == wanted, "the code");
    let holds = texts.as_slice() == ["green", "red"].as_slice();
    is_so(&rt, holds, "the texts");
    let (position, code) = (0, 4294967295);
    let printed = format!(in rt.alloc(); "{}", DecodeError::NoText { position, code })?;
    assert!(rt; printed.as_str() == "code 4294967295 at position 0 has no text");
    Ok(())
}

// The texts of an interner that is merged into another; their codes there, or none if the memory limit refuses
// one of them; and the texts that the other then has.
type Merging = (
    &'static [&'static str],
    Option<&'static [u32]>,
    &'static [&'static str],
);

// Merges into the interner that was just made. Fails unless each merging is as its row says.
fn merges(rt: &impl Host, made: LassoResult<SpurRodeo>, mergings: &[Merging]) -> Result<(), Fail> {
    let mut into = made?;
    for (row, (texts, codes, after)) in mergings.iter().enumerate() {
        let from = interner(rt.alloc(), *texts)?.into_reader();
        let is_merged = match (merge(rt.alloc(), &mut into, &from), *codes) {
            (Ok(found), Some(wanted)) => found.as_slice() == wanted,
            (Ok(_codes), None) => false,
            (Err(error), None) => is_by_the_limit(error)?,
            (Err(error), Some(_)) => return Err(Fail::from(error)),
        };
        is_so_at(rt, is_merged && has_texts(&into, *after), row);
    }
    Ok(())
}

#[test]
fn two_dictionaries_are_merged(rt: HostRuntime) -> Result<(), Fail> {
    static WHOLE: [Merging; 1] = [(
        &["blue", "green", "white"],
        Some(&[2, 1, 3]),
        &["red", "green", "blue", "white"],
    )];
    static REFUSED: [Merging; 1] = [(&["first", "other", "third"], None, &["first", "other"])];
    merges(&rt, interner(rt.alloc(), &["red", "green"]), &WHOLE)?;
    merges(&rt, limited(rt.alloc()), &REFUSED)
}

// The refused merges add no text: each is refused at the first text that `into` lacks.
#[test]
fn a_first_new_text_is_refused_by_the_limit(rt: HostRuntime) -> Result<(), Fail> {
    static MERGINGS: [Merging; 3] = [
        (&["first", "other"], Some(&[0, 1]), &["first", "other"]),
        (&["third"], None, &["first", "other"]),
        (&["first", "third"], None, &["first", "other"]),
    ];
    merges(&rt, limited(rt.alloc()), &MERGINGS)
}

// Thousands of distinct texts: no call runs out of memory on the way, and a refusal names its text.

const DISTINCT: usize = 9000;

// Each text has this number of bytes.
const TEXT_BYTES: usize = 23;

static WORKERS: [usize; 4] = [0, 1, 3, 64];

fn is_so_with(rt: &impl Host, holds: bool, workers: usize) {
    assert!(rt; holds, "{workers} workers");
}

// Each of the texts has to come twice, and the ranks have to be in the order of their bytes.
fn are_counted(rt: &impl Host, texts: &[&str], workers: usize) -> Result<(), Fail> {
    let mut rodeo: SpurRodeo = Rodeo::default(rt.alloc())?;
    let mut counts = Vec::new(rt.alloc());
    if let Err(refused) = count_in_parts(rt, &mut rodeo, texts, &mut counts, workers) {
        return Err(Fail::from(refused.error));
    }
    let ranked = by_frequency_in_parts(rt, rt.alloc(), &rodeo, &counts, workers)?;
    let holds = counts.len() == DISTINCT && ranked.len() == DISTINCT;
    is_so_with(rt, holds, workers);
    for count in counts.iter() {
        is_so_with(rt, *count == 2, workers);
    }
    for at in 1..ranked.len() {
        is_so_with(rt, ranked[at - 1].1 < ranked[at].1, workers);
    }
    Ok(())
}

// The text after those that the limit has room for has to be the one that is refused.
fn names_the_refused(rt: &impl Host, texts: &[&str], workers: usize) -> Result<(), Fail> {
    let capacity = Capacity::for_bytes(1000 * TEXT_BYTES);
    let mut rodeo: SpurRodeo = Rodeo::with_capacity(rt.alloc(), capacity)?;
    rodeo.set_memory_limits(MemoryLimits::new(1000 * TEXT_BYTES));
    let mut counts = Vec::new(rt.alloc());
    let is_named = match count_in_parts(rt, &mut rodeo, texts, &mut counts, workers) {
        Err(refused) if refused.error.kind() == LassoErrorKind::MemoryLimitReached => {
            refused.position == 1000 && counts.len() == 1000 && rodeo.len() == 1000
        }
        Err(refused) => return Err(Fail::from(refused.error)),
        Ok(()) => false,
    };
    is_so_with(rt, is_named, workers);
    Ok(())
}

// 9,000 distinct texts, enough for threads to share a sort of them, each twice.
#[test]
fn thousands_of_texts_are_counted(rt: HostRuntime) -> Result<(), Fail> {
    let mut names = Vec::new(rt.alloc());
    for number in 1000..10000u32 {
        names.push(format!(in rt.alloc(); "{number} is a text of bytes")?)?;
    }
    let mut texts = Vec::new(rt.alloc());
    for _ in 0..2u32 {
        for name in names.iter() {
            texts.push(name.as_str())?;
        }
    }
    for workers in &WORKERS {
        are_counted(&rt, &texts, *workers)?;
        names_the_refused(&rt, &texts, *workers)?;
    }
    Ok(())
}
