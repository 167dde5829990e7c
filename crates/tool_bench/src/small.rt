//! Everything that is timed, once over a few texts: what some calls answer is printed, so that a stored run can be compared with
//! it. Each timing has a fault on its own if an answer is wrong.
use crate::calls::{
    Calls, Plain, WithHints, WithPass, fill, filled, resolve_keys, resolve_keys_plainly,
    time_walks, walk_entries, walk_texts,
};
use crate::columns::time_columns;
use crate::interners::{Batches, time_interners};
use crate::shared::{Walk, open_log, read_all, time_copying, time_log};
use crate::single::{FrozenTexts, keys_at, resolve_frozen};
use crate::sized::{time_collisions, time_refilling};
use crate::texts::{Form, Lines, Sample, jumped, random_positions};
use crate::timing::Table;
use crate::{single, sized};
use anyhow::{Context, Result, ensure};
use std::rt::Clock;
use std::sync::Wait;
use std::thread::Threads;

// How many texts there are if more than a few are wanted.
const COUNT: u32 = 1000;

const LINES: &str = "b\nab\nb\n\nabc\nab\nb";

/// Runs each of the timings over a few texts, and prints what their calls answer, but no time. It fails if an answer is wrong.
pub fn print_small<R: AllocGlobal + Clock + Print + Threads + Wait + Sync>(
    rt: &R,
    table: &mut Table,
) -> Result<()> {
    print_orders(rt)?;
    single::time_calls(rt, table, COUNT);
    sized::time_size(rt, table, COUNT, 35);
    print_refilled(rt, table)?;
    print_frozen(rt)?;
    print_shared(rt, table)?;
    time_columns(rt, table, LINES.as_bytes())?;
    time_collisions(rt, table, 100)
}

// Prints a line with what was answered.
fn print_answers(rt: &impl Print, name: &str, answers: &[usize]) -> Result<()> {
    println!(rt; "{name}: {answers:?}")?;
    Ok(())
}

// Prints positions in the orders in which texts are asked for.
fn print_orders<R: AllocGlobal + Print>(rt: &R) -> Result<()> {
    let jumps = [jumped(1, 100_000) as usize, jumped(13, 100_000) as usize];
    print_answers(rt, "jumped", &jumps)?;
    let positions = random_positions(rt.alloc(), COUNT, 5)?;
    println!(rt; "random: {:?}", positions.as_slice())?;
    Ok(())
}

// Times an interner that is cleared and filled again, and prints the bytes that it takes.
fn print_refilled<R: AllocGlobal + Clock + Print>(rt: &R, table: &mut Table) -> Result<()> {
    let sample = Sample::new(rt.alloc(), Form::Named, COUNT)?;
    let usages = time_refilling(rt, table, &sample.texts, 5);
    print_answers(rt, "refilled, in bytes", &usages)
}

// Prints what frozen interners of two texts answer.
fn print_frozen<R: AllocGlobal + Print>(rt: &R) -> Result<()> {
    let lines = Lines::read(rt.alloc(), "a\nab".as_bytes())?;
    let rodeo = single::filled(rt.alloc(), &lines.distinct).context("a text was refused")?;
    let reader = rodeo.into_reader();
    print_resolved(rt, "RodeoReader", &reader)?;
    print_resolved(rt, "RodeoResolver", &reader.into_resolver())
}

// Prints how many of these positions have texts, and the sum of the texts' last bytes.
fn print_resolved<T: FrozenTexts, R: AllocGlobal + Print>(
    rt: &R,
    name: &str,
    texts: &T,
) -> Result<()> {
    let keys = keys_at(rt.alloc(), texts, &[1, 2, 0, 1])?;
    print_answers(rt, name, &[keys.len(), resolve_frozen(texts, &keys)])
}

// Times what threads share over a few lines, and prints what is known of these and what calls answer.
fn print_shared<R: AllocGlobal + Clock + Print + Threads + Wait + Sync>(
    rt: &R,
    table: &mut Table,
) -> Result<()> {
    let lines = Lines::read(rt.alloc(), LINES.as_bytes())?;
    print_lines(rt, &lines)?;
    print_log(rt, table)?;
    time_copying(rt, table)?;
    time_interners(rt, table, &lines);
    print_answers(rt, "filled", &[fill(rt, LINES.as_bytes())?])?;
    print_calls::<WithPass, R>(rt, "with a pass")?;
    print_calls::<WithHints, R>(rt, "with hints")?;
    print_calls::<Plain, R>(rt, "plain")?;
    print_calls::<Batches<64>, R>(rt, "in batches of 64")?;
    print_calls::<Batches<1024>, R>(rt, "in batches of 1024")?;
    print_resolved_keys(rt)?;
    print_walks(rt, table)
}

// Prints what is known of the lines. No line is an error.
fn print_lines<R: AllocGlobal + Print>(rt: &R, lines: &Lines) -> Result<()> {
    print_texts(rt, "distinct", &lines.distinct)?;
    print_texts(rt, "again", &lines.again)?;
    print_answers(
        rt,
        "positions and lengths",
        &[lines.positions, lines.lengths],
    )?;
    let is_error = Lines::read(rt.alloc(), "".as_bytes()).is_err();
    ensure!(is_error, "no line is no error");
    Ok(())
}

// Prints the texts, which have this name.
fn print_texts(rt: &impl Print, name: &str, texts: &Vec<String>) -> Result<()> {
    println!(rt; "{name}: {texts:?}")?;
    Ok(())
}

// Times a log, and prints what it answers of a few positions.
fn print_log<R: AllocGlobal + Clock + Print + Threads + Wait + Sync>(
    rt: &R,
    table: &mut Table,
) -> Result<()> {
    let log = open_log(rt, COUNT)?;
    let walk = Walk::new(rt.alloc(), COUNT, 5000)?;
    time_log(rt, table, &log, &walk);
    print_answers(rt, "Log", &[read_all(&log, &[7, 999, 10, 1000])])
}

// Prints the sums of the positions that three lines are interned at, and found at.
fn print_calls<C: Calls, R: AllocGlobal + Print + Wait>(rt: &R, name: &str) -> Result<()> {
    let lines = Lines::read(rt.alloc(), "b\nabc\nb\nabc\nc\n".as_bytes())?;
    let rodeo = filled(rt, &lines.distinct).context("a text was refused")?;
    let interned = C::intern_all(rt, &rodeo, &lines.texts).context("a text was refused")?;
    let found = C::get_all(rt, &rodeo, &lines.texts).context("a text is absent")?;
    print_answers(rt, name, &[interned, found])
}

// Prints the sums of the lengths that a key is resolved to twice, with a pass and plainly.
fn print_resolved_keys<R: AllocGlobal + Print + Wait>(rt: &R) -> Result<()> {
    let lines = Lines::read(rt.alloc(), "b\nabc\n".as_bytes())?;
    let rodeo = filled(rt, &lines.distinct).context("a text was refused")?;
    let key = rodeo.get(rt, "abc").context("abc is missing")?;
    let lengths = [
        resolve_keys(rt.alloc(), &rodeo, &[key, key]),
        resolve_keys_plainly(&rodeo, &[key, key]),
    ];
    print_answers(rt, "resolved", &lengths)
}

// Times walks, and prints what they give of three texts.
fn print_walks<R: AllocGlobal + Clock + Print + Wait>(rt: &R, table: &mut Table) -> Result<()> {
    let lines = Lines::read(rt.alloc(), "b\na\nb\nc\n".as_bytes())?;
    time_walks(rt, table, &lines);
    let rodeo = filled(rt, &lines.distinct).context("a text was refused")?;
    let (positions, last_bytes) = walk_entries(&rodeo);
    print_answers(rt, "walks", &[positions, last_bytes, walk_texts(&rodeo)])
}
