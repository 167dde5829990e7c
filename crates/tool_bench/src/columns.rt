//! A column at a time: how long it takes to encode the lines of an input, to decode their codes, and to merge two dictionaries.
ghost use Rattle.std.specs.Prelude.{◌<◌};

use crate::timing::{
    NO_MEMORY, REFUSED, Table, Tenths, elapsed_since, if_so, started, tenths_if, tenths_if_all,
};
use anyhow::{Result, ensure};
use lasso::{Key, Spur, SpurRodeo, SpurRodeoReader, SpurThreadedRodeo};
use lasso_columns::{decode, encode, encode_in_parts, encode_lines, merge};
use lasso_input::first_line;
use lasso_shared_columns::encode_shared;
use std::alloc::Global;
use std::rt::Clock;
use std::str::from_utf8;
use std::sync::Wait;
use std::thread::{Threads, map_chunks};

// The greatest number of threads that encode together.
const MOST_THREADS: usize = 4;

// How many workers encode in parts.
const WORKERS: [usize; 3] = [1, 2, 4];

/// Times each call once over the lines of the bytes. It fails if a line is no text or there is none, and when out of memory.
pub fn time_columns<R: AllocGlobal + Clock + Print + Threads + Wait + Sync>(
    rt: &R,
    table: &mut Table,
    bytes: &[u8],
) -> Result<()> {
    let lines = lines_of(rt.alloc(), bytes)?;
    ensure!(!lines.is_empty(), "no line");
    time_lines_of(rt, table, bytes, &lines);
    Ok(())
}

// Times each call over the bytes, which have these lines.
fn time_lines_of<R: AllocGlobal + Clock + Print + Threads + Wait + Sync>(
    rt: &R,
    table: &mut Table,
    bytes: &[u8],
    lines: &[&str],
) {
    let Some(mut column) = Column::new(rt.alloc()) else {
        return table.fail(NO_MEMORY);
    };
    table.add(
        rt,
        "encode",
        1,
        timed_encode(rt, Way::Texts, &mut column, lines),
    );
    let Column { rodeo, codes } = column;
    table.add(
        rt,
        "encode_lines",
        1,
        time_encoding(rt, Way::LinesOf(bytes), lines, &codes),
    );
    let reader = rodeo.into_reader();
    time_dictionaries(rt, table, &reader, lines, &codes);
    time_quarters(rt, table, lines);
    time_with_threads(rt, table, lines, &codes);
}

// Times decoding, merging, and encoding once more when the memory of earlier calls was freed.
fn time_dictionaries<R: AllocGlobal + Clock + Print + Threads + Sync>(
    rt: &R,
    table: &mut Table,
    reader: &SpurRodeoReader,
    lines: &[&str],
    codes: &[u32],
) {
    table.add(rt, "decode", 1, time_decoding(rt, reader, lines, codes));
    table.add(rt, "merge", 1, time_merging(rt, reader, lines));
    table.add(
        rt,
        "encode_again",
        1,
        time_encoding(rt, Way::Texts, lines, codes),
    );
}

// Times encoding each quarter of the lines into an interner of its own, by one thread and by four.
fn time_quarters<R: AllocGlobal + Clock + Print + Threads + Sync>(
    rt: &R,
    table: &mut Table,
    lines: &[&str],
) {
    table.add(rt, "private", 1, time_quarters_alone(rt, lines));
    table.add(
        rt,
        "private",
        MOST_THREADS,
        time_quarters_together(rt, lines),
    );
}

// Times encoding in parts with each number of workers, and into one interner with each number of threads.
fn time_with_threads<R: AllocGlobal + Clock + Print + Threads + Wait + Sync>(
    rt: &R,
    table: &mut Table,
    lines: &[&str],
    codes: &[u32],
) {
    for workers in WORKERS {
        let tenths = time_encoding(rt, Way::InParts(workers), lines, codes);
        table.add(rt, "encode_in_parts", workers, tenths);
    }
    for before in 0..MOST_THREADS {
        table.add(
            rt,
            "encode_shared",
            before + 1,
            time_shared(rt, lines, before + 1),
        );
    }
}

// The lines of the bytes.
fn lines_of(alloc: Global, bytes: &[u8]) -> Result<Vec<&str>> {
    let mut lines = Vec::new(alloc);
    let mut rest = bytes;
    while let Some((line, behind)) = first_line(rest) {
        lines.push(from_utf8(line)?)?;
        rest = behind;
    }
    Ok(lines)
}

// How lines are encoded.
#[derive(Clone, Copy)]
enum Way<'a> {
    // as texts that were cut before
    Texts,
    // as the lines of these bytes
    LinesOf(&'a [u8]),
    // as texts that were cut before, in parts, by so many workers
    InParts(usize),
}

// A column of texts: an interner and the texts' codes.
#[derive(Drop)]
struct Column {
    rodeo: SpurRodeo,
    codes: Vec<u32>,
}

impl Column {
    // A column without texts; `None` if there is no memory.
    fn new(alloc: Global) -> Option<Column> {
        let Ok(rodeo) = SpurRodeo::default(alloc) else {
            return None;
        };
        let codes = Vec::new(alloc);
        Some(Column { rodeo, codes })
    }

    // Encodes the lines, and tells whether that was possible.
    fn encode<R: AllocGlobal + Threads + Sync>(
        &mut self,
        rt: &R,
        way: Way,
        lines: &[&str],
    ) -> bool {
        match way {
            Way::Texts => encode(&mut self.rodeo, lines, &mut self.codes).is_ok(),
            Way::LinesOf(bytes) => encode_lines(&mut self.rodeo, bytes, &mut self.codes).is_ok(),
            Way::InParts(workers) => {
                encode_in_parts(rt, &mut self.rodeo, lines, &mut self.codes, workers).is_ok()
            }
        }
    }
}

// Encodes the lines into the column.
fn timed_encode<R: AllocGlobal + Clock + Threads + Sync>(
    rt: &R,
    way: Way,
    column: &mut Column,
    lines: &[&str],
) -> Tenths {
    let start = started(rt);
    let is_encoded = column.encode(rt, way, lines);
    let elapsed = elapsed_since(rt, start);
    tenths_if(is_encoded, REFUSED, elapsed, lines.len())
}

// Encodes the lines, which have these codes, into a column of their own.
fn time_encoding<R: AllocGlobal + Clock + Threads + Sync>(
    rt: &R,
    way: Way,
    lines: &[&str],
    codes: &[u32],
) -> Tenths {
    let Some(mut column) = Column::new(rt.alloc()) else {
        return Err(NO_MEMORY);
    };
    let tenths = timed_encode(rt, way, &mut column, lines);
    if_so(
        column.codes.as_slice() == codes,
        "a line has another code",
        tenths,
    )
}

// Decodes the codes of these lines.
fn time_decoding<R: AllocGlobal + Clock>(
    rt: &R,
    reader: &SpurRodeoReader,
    lines: &[&str],
    codes: &[u32],
) -> Tenths {
    let mut texts = Vec::new(rt.alloc());
    let start = started(rt);
    let decoded = decode(reader, codes, &mut texts);
    let elapsed = elapsed_since(rt, start);
    let are_texts = decoded.is_ok() && texts.as_slice() == lines;
    tenths_if(are_texts, "a code has another text", elapsed, codes.len())
}

// Merges the dictionary of all lines into one of the first half of them: the time is that of a text of the first.
fn time_merging<R: AllocGlobal + Clock>(rt: &R, all: &SpurRodeoReader, lines: &[&str]) -> Tenths {
    let Some(half) = encoded(rt.alloc(), &lines[..lines.len() / 2]) else {
        return Err(REFUSED);
    };
    time_merge(rt, half, all)
}

// An interner with these texts; `None` if one is refused.
fn encoded(alloc: Global, texts: &[&str]) -> Option<SpurRodeo> {
    let Ok(mut rodeo) = SpurRodeo::default(alloc) else {
        return None;
    };
    let mut codes = Vec::new(alloc);
    let Ok(()) = encode(&mut rodeo, texts, &mut codes) else {
        return None;
    };
    Some(rodeo)
}

// Merges the other dictionary into the interner.
fn time_merge<R: AllocGlobal + Clock>(rt: &R, rodeo: SpurRodeo, other: &SpurRodeoReader) -> Tenths {
    let mut rodeo = rodeo;
    let start = started(rt);
    let merged = merge(rt.alloc(), &mut rodeo, other);
    let elapsed = elapsed_since(rt, start);
    let Ok(codes) = merged else {
        return Err(REFUSED);
    };
    let have_texts = have_strings(rt.alloc(), &rodeo.into_reader(), &codes, other);
    tenths_if(
        have_texts,
        "a code of the other dictionary has another text",
        elapsed,
        codes.len(),
    )
}

// Whether the codes have the texts of the other dictionary, one after another.
fn have_strings(
    alloc: Global,
    reader: &SpurRodeoReader,
    codes: &[u32],
    other: &SpurRodeoReader,
) -> bool {
    let texts: Result<Vec<&str>, _> = other.strings().collect(alloc);
    let Ok(texts) = texts else {
        return false;
    };
    have_texts(reader, codes, &texts)
}

// Whether the codes have these texts, one after another.
fn have_texts(reader: &SpurRodeoReader, codes: &[u32], texts: &[&str]) -> bool {
    for (code, text) in codes.iter().zip(texts) {
        let Some(key) = Spur::try_from_usize(*code as usize) else {
            return false;
        };
        if reader.try_resolve(key) != Some(*text) {
            return false;
        }
    }
    codes.len() == texts.len()
}

// Encodes the lines with `threads` threads.
fn time_shared<R: AllocGlobal + Clock + Threads + Wait + Sync>(
    rt: &R,
    lines: &[&str],
    threads: usize,
) -> Tenths {
    let Ok(rodeo) = SpurThreadedRodeo::default(rt.alloc()) else {
        return Err(NO_MEMORY);
    };
    let mut codes = Vec::new(rt.alloc());
    let start = started(rt);
    let encoded = encode_shared(rt, &rodeo, lines, &mut codes, threads);
    let elapsed = elapsed_since(rt, start);
    let tenths = tenths_if(encoded.is_ok(), REFUSED, elapsed, codes.len());
    if_so(
        have_shared(rt, rodeo, &codes, lines),
        "a code has another text",
        tenths,
    )
}

// Whether the codes, which the interner has, have these texts, one after another.
fn have_shared<R: Wait>(rt: &R, rodeo: SpurThreadedRodeo, codes: &[u32], texts: &[&str]) -> bool {
    let Ok(reader) = rodeo.into_reader(rt) else {
        return false;
    };
    have_texts(&reader, codes, texts)
}

// Encodes each quarter of the lines into an interner of its own, one after another.
fn time_quarters_alone<R: AllocGlobal + Clock>(rt: &R, lines: &[&str]) -> Tenths {
    let mut are_encoded = true;
    let start = started(rt);
    for quarter in lines.chunks(quarter_of(lines)) {
        are_encoded &= is_encoded(rt.alloc(), quarter);
    }
    let elapsed = elapsed_since(rt, start);
    tenths_if(are_encoded, REFUSED, elapsed, lines.len())
}

// Has a thread for each quarter of the lines encode it into an interner of its own.
fn time_quarters_together<R: AllocGlobal + Clock + Threads + Sync>(
    rt: &R,
    lines: &[&str],
) -> Tenths {
    let start = started(rt);
    let encoded = map_chunks(
        rt,
        rt.alloc(),
        lines,
        quarter_of(lines),
        &|_, quarter| is_encoded(rt.alloc(), quarter),
    );
    let elapsed = elapsed_since(rt, start);
    tenths_if_all(encoded, &true, REFUSED, elapsed, lines.len())
}

// How many lines a quarter has.
fn quarter_of(lines: &[&str]) -> usize
    ensures { 0 < result }
{
    lines.len().div_ceil(MOST_THREADS).max(1)
}

// Whether the texts could be encoded into an interner of their own.
fn is_encoded(alloc: Global, texts: &[&str]) -> bool {
    let Ok(mut rodeo) = SpurRodeo::default(alloc) else {
        return false;
    };
    let mut codes = Vec::new(alloc);
    encode(&mut rodeo, texts, &mut codes).is_ok()
}
