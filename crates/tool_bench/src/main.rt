//! Times the interner, by what the word names: with `round` one round of its calls and of those of its frozen forms, with
//! `sizes` one round of calls that take one text and of calls that take all, over texts of given sizes, with `refill` an interner that
//! is cleared and filled again, with `collide` filling one with texts that collide, with `shared` the log of a shared interner; over the
//! lines of standard input, with `interners` one round of the interner that threads share, with `walks` walks over it and freezing it,
//! with `columns` encoding and decoding. A line of the output is the call, the number of threads or of texts, and the nanoseconds of a
//! call; with `sizes` the bytes of a text come first. With `fill` it interns these lines as they come and prints how many texts there
//! are; with `small` it does all of this over a few texts and prints what the calls answered; and without words nothing.
#![tactic(auto)]

ghost use Rattle.std.specs.Prelude.{◌<◌};

mod calls;
mod columns;
mod interners;
mod shared;
mod single;
mod sized;
mod small;
mod texts;
mod timing;

use anyhow::{Result, bail};
use calls::{fill, time_walks};
use columns::time_columns;
use interners::time_interners;
use shared::{CALLS, Walk, open_log, time_copying, time_log};
use single::time_calls;
use sized::{time_collisions, time_refilling, time_sizes};
use small::print_small;
use std::env;
use std::io::{BufReader, Read};
use std::rt::Clock;
use std::sync::Wait;
use std::thread::Threads;
use texts::{Form, Lines, Sample};
use timing::Table;

const TEXTS: u32 = 100_000;

// How many texts a round of refilling has, and how many rounds there are.
const REFILLED_TEXTS: u32 = 10_000;

const REFILLS: u32 = 1000;

fn main(rt: HostRuntime) -> Result<()> {
    let mut words = env::args(&rt)?;
    let _program = words.next();
    let words: Vec<String> = words.collect(rt.alloc())?;
    match words.as_slice() {
        [] => Ok(()),
        [word] => print_named(&rt, word.as_str()),
        _ => fail_with_usage(),
    }
}

// Prints what the word names.
fn print_named<R: AllocGlobal + Clock + Input + Print + Threads + Wait + Sync>(
    rt: &R,
    word: &str,
) -> Result<()> {
    if word == "fill" {
        return print_fill(rt);
    }
    let mut table = if word == "small" {
        Table::checked()
    } else {
        Table::printed()
    };
    time_named(rt, &mut table, word)?;
    table.end()
}

// Times what the word names.
fn time_named<R: AllocGlobal + Clock + Input + Print + Threads + Wait + Sync>(
    rt: &R,
    table: &mut Table,
    word: &str,
) -> Result<()> {
    match word {
        "round" => time_rounds(rt, table),
        "refill" => time_refills(rt, table),
        "collide" => time_all_collisions(rt, table),
        "shared" => time_shared(rt, table),
        "sizes" => {
            time_sizes(rt, table);
            Ok(())
        }
        "small" => print_small(rt, table),
        _ => time_lines_named(rt, table, word),
    }
}

// Times what the word names over the lines of standard input.
fn time_lines_named<R: AllocGlobal + Clock + Input + Print + Threads + Wait + Sync>(
    rt: &R,
    table: &mut Table,
    word: &str,
) -> Result<()> {
    match word {
        "interners" => {
            time_interners(rt, table, &read_lines(rt)?);
            Ok(())
        }
        "walks" => {
            time_walks(rt, table, &read_lines(rt)?);
            Ok(())
        }
        "columns" => time_codes(rt, table),
        _ => fail_with_usage(),
    }
}

fn fail_with_usage() -> Result<()> {
    bail!(
        "usage: tool_bench [round|sizes|refill|collide|shared|interners|walks|columns|fill|small]"
    )
}

// Times one round of single calls for each count of texts.
fn time_rounds<R: AllocGlobal + Clock + Print>(rt: &R, table: &mut Table) -> Result<()> {
    time_calls(rt, table, 10_000);
    time_calls(rt, table, 90_000);
    time_calls(rt, table, TEXTS);
    time_calls(rt, table, 1_000_000);
    Ok(())
}

// Times an interner that is cleared and filled again, and a new one for each round.
fn time_refills<R: AllocGlobal + Clock + Print>(rt: &R, table: &mut Table) -> Result<()> {
    let sample = Sample::new(rt.alloc(), Form::Named, REFILLED_TEXTS)?;
    time_refilling(rt, table, &sample.texts, REFILLS);
    Ok(())
}

// Times interners that are filled with texts which collide under the fixed seed, for each count of texts.
fn time_all_collisions<R: AllocGlobal + Clock + Print>(rt: &R, table: &mut Table) -> Result<()> {
    for count in [2500, 5000, 10_000] {
        time_collisions(rt, table, count)?;
    }
    Ok(())
}

// Times the log that threads share, and texts that are copied into a bucket which they share.
fn time_shared<R: AllocGlobal + Clock + Print + Threads + Wait + Sync>(
    rt: &R,
    table: &mut Table,
) -> Result<()> {
    let log = open_log(rt, TEXTS)?;
    let walk = Walk::new(rt.alloc(), TEXTS, CALLS)?;
    time_log(rt, table, &log, &walk);
    time_copying(rt, table)
}

// The lines of standard input.
fn read_lines<R: AllocGlobal + Input>(rt: &R) -> Result<Lines> {
    Lines::read(rt.alloc(), BufReader::new(rt.alloc(), rt.reader())?)
}

// Times encoding the lines of standard input as a column of codes, decoding it and merging dictionaries.
fn time_codes<R: AllocGlobal + Clock + Input + Print + Threads + Wait + Sync>(
    rt: &R,
    table: &mut Table,
) -> Result<()> {
    let mut bytes = Vec::new(rt.alloc());
    rt.reader().read_to_end(&mut bytes)?;
    time_columns(rt, table, &bytes)
}

// Interns the lines of standard input in an interner that threads share, and prints how many texts there are.
fn print_fill<R: AllocGlobal + Input + Print + Wait>(rt: &R) -> Result<()> {
    let count = fill(rt, BufReader::new(rt.alloc(), rt.reader())?)?;
    println!(rt; "{count}")?;
    Ok(())
}
