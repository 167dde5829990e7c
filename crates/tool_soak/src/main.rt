//! Has threads make random calls of one interner at once, in rounds, and looks for a list that explains all answers. With a number of
//! seconds it makes rounds until they are over; with `small` it says of right and wrong answers which are explained, and makes three rounds.
#![tactic(auto)]

mod answers;
mod bounds;
mod checker;
mod rounds;
mod texts;
mod verdicts;

use anyhow::{Result, bail, ensure};
use rounds::{THREADS, calls_in_round, rounds_in};
use std::env;
use std::rt::Clock;
use std::sync::Wait;
use std::thread::Threads;
use verdicts::print_verdicts;

// How many calls a thread makes in a round.
const CALLS: u32 = 10_000;

fn main(rt: HostRuntime) -> Result<()> {
    let mut words = env::args(&rt)?;
    let _program = words.next();
    let words: Vec<String> = words.collect(rt.alloc())?;
    match words.as_slice() {
        [word] if word.as_str() == "small" => print_small(&rt),
        [seconds] => print_soak(&rt, seconds.as_str()),
        _ => bail!("usage: tool_soak SECONDS|small"),
    }
}

// Makes rounds until `seconds` seconds are over, and prints how many rounds and calls it were.
fn print_soak<R: AllocGlobal + Clock + Print + Threads + Wait + Sync>(
    rt: &R,
    seconds: &str,
) -> Result<()> {
    let Ok(seconds) = seconds.parse::<u64>() else {
        bail!("not a number of seconds: {seconds}");
    };
    let rounds = rounds_in(rt, seconds, CALLS)?;
    let calls = rounds
        .saturating_mul(THREADS as u64)
        .saturating_mul(u64::from(CALLS));
    println!(rt; "{rounds} rounds, {calls} calls")?;
    Ok(())
}

// Prints which answers are explained, and makes three rounds, one of them with few keys and one in which a thread sets limits alone.
fn print_small<R: AllocGlobal + Print + Threads + Wait + Sync>(rt: &R) -> Result<()> {
    print_verdicts(rt)?;
    for seed in [0u64, 1, 2] {
        let len = calls_in_round(rt, seed, CALLS)?;
        ensure!(len > 200, "round {seed} has {len} texts alone");
        println!(rt; "round {seed}: one list explains all answers")?;
    }
    Ok(())
}
