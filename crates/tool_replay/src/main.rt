//! Replays scripts of commands on interners, and reads interners and keys from JSON values.
//!
//! Both come from standard input. Each reply is a line on standard output. The whole input is read and
//! checked before the first reply: a bad line ends the program with `line <k>: <reason>` on standard error,
//! status 3 and no output.
#![tactic(auto)]

mod frozen;
mod lines;
mod parts;
mod replay;
mod replies;
mod scripts;

use lines::InputError;
use parts::{Part, parse_parts};
use std::alloc::Global;
use std::io;
use std::io::{BufReader, BufWriter, Read, Write};
use std::process::ExitCode;
use std::sync::Wait;

// The status of a bad input.
const BAD_INPUT: u8 = 3;

fn main(rt: HostRuntime) -> io::Result<ExitCode> {
    let alloc = rt.alloc();
    let mut input = Vec::new(alloc);
    BufReader::new(alloc, rt.reader())?.read_to_end(&mut input)?;
    match parse_parts(alloc, input.as_slice())? {
        Err(InputError { line, reason }) => {
            eprintln!(rt; "line {line}: {reason}")?;
            Ok(ExitCode::from(BAD_INPUT))
        }
        Ok(parts) => replay_all(&rt, &parts),
    }
}

// Replays the parts, and writes their replies.
fn replay_all<R: AllocGlobal + Print + Wait>(rt: &R, parts: &[Part]) -> io::Result<ExitCode> {
    let mut out = BufWriter::new(rt.alloc(), io::writer(rt))?;
    for part in parts {
        part.replay(rt, rt.alloc(), &mut out)?;
    }
    out.flush()?;
    Ok(ExitCode::SUCCESS)
}
