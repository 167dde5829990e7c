//! Writes each line of standard input after the position of its text, and at the end the number of texts
//! and of bytes. With `--workers N`, N threads intern the lines, and the program writes the distinct lines
//! in the order of their bytes.
#![tactic(auto)]

mod answers;
pub mod arguments;
mod cutting;
pub mod engine;
mod expected;
pub mod fault;
pub mod help;
mod in_turn;
mod ordered;
pub mod program;
mod shares;
mod sorting;
pub mod standard;
pub mod stream;
mod stretches;
pub mod workers;

use fault::RunFault;
use help::page_of;
use lasso_parts::hasher::TextState;
use program::{run_words, show};
use standard::{StandardReader, StandardWriter};
use std::alloc::AllocError;
use std::io::ErrorKind;
use std::process::ExitCode;
use std::rt::Env;
use std::sync::Wait;
use std::thread::Threads;
use std::{env, io};

fn main(rt: HostRuntime) -> ExitCode {
    let Ok(hasher) = TextState::random(&rt) else {
        let _ = eprintln!(rt; "no random seed: read failed");
        return ExitCode::from(RunFault::ReadFailed.status());
    };
    match report_lines(&rt, hasher) {
        Ok(()) => ExitCode::SUCCESS,
        Err(fault) => {
            let _ = eprintln!(rt; "{fault}");
            ExitCode::from(fault.status())
        }
    }
}

// Shows the help text or the version if the arguments ask for it. Else runs from standard input to standard
// output. Texts are hashed with a random seed: the lines may be a stranger's.
fn report_lines<R>(rt: &R, hasher: TextState) -> Result<(), RunFault>
where
    R: AllocGlobal + Env + Input + Print + Threads + Wait + Sync,
{
    let words = argument_words(rt)?;
    let input = StandardReader::new(rt.alloc(), rt.reader());
    let mut reader = input.map_err(no_memory)?;
    let output = StandardWriter::new(rt.alloc(), io::writer(rt));
    let mut writer = output.map_err(no_memory)?;
    match page_of(&words) {
        Some(page) => show(&mut writer, page.text()),
        None => run_words(rt, &words, &mut reader, &mut writer, hasher),
    }
}

// The arguments after the program's name. Returns `Usage` if one is not UTF-8.
fn argument_words<R: AllocGlobal + Env>(rt: &R) -> Result<Vec<String>, RunFault> {
    let mut all = match env::args(rt) {
        Ok(all) => all,
        Err(error) if error.kind() == ErrorKind::OutOfMemory => return Err(no_memory(AllocError)),
        Err(_) => return Err(RunFault::Usage),
    };
    let _program = all.next();
    all.collect(rt.alloc()).map_err(no_memory)
}

// Out of memory at no line.
fn no_memory(_: AllocError) -> RunFault {
    RunFault::no_memory(0)
}
