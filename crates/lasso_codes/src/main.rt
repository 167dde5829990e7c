//! A filter over the lines of standard input. It lists the distinct lines, counts them, or encodes all lines
//! as a column; and it decodes and merges columns.
#![tactic(auto)]

ghost use Rattle.std.specs.Prelude.{◌≡◌, ℕ, List, Option, Ok, Err, map, string_bytes};
ghost use Rattle.lasso_parts.specs.Texts.{Text};
ghost use Rattle.lasso_codes.specs.Arguments.{command_of};
ghost use Rattle.lasso_codes.specs.Endings.{IsRefusal, IsRunOf};
ghost use Rattle.lasso_codes.specs.declared.arguments.Command.{Command};

pub mod arguments;
pub mod cause;
pub mod columns;
pub mod counts;
pub mod decode;
pub mod distinct;
pub mod encode;
pub mod ending;
pub mod entries;
pub mod entry_parts;
pub mod error;
pub mod fused;
pub mod help;
pub mod input;
pub mod interner;
pub mod laws;
pub mod line_table;
pub mod lines;
pub mod merge;
pub mod nearest;
pub mod numbers;
pub mod options;
pub mod output;
pub mod program;
pub mod progress;
pub mod ranking;
pub mod reading;
pub mod recode;
pub mod shown;
pub mod streams;

use arguments::{ArgumentError, Request, Verb, command_of};
use ending::{Ending, end};
use error::RunError;
use fused::Fused;
use lasso_parts::hasher::TextState;
use nearest::nearest_verb;
use program::{BUFFER_SIZE, Ran, run};
use progress::{Terminals, Watched, shows_progress};
use std::alloc::{AllocError, Global};
use std::io::{BufReader, BufWriter, ErrorKind, IsTerminal};
use std::process::ExitCode;
use std::rt::{Clock, Env};
use std::thread::Threads;
use std::{env, io};

fn main(rt: HostRuntime) -> ExitCode {
    let Ok(hasher) = TextState::random(&rt) else {
        let _ = eprintln!(rt; "no random seed: read failed");
        return ExitCode::from(RunError::ReadFailed.status());
    };
    match argument_words(&rt) {
        Ok(words) => end(&rt, &run_words(&rt, &words, terminals(&rt), hasher)),
        Err(ending) => end(&rt, &ending),
    }
}

// Which of the standard streams are terminals.
fn terminals(rt: &HostRuntime) -> Terminals {
    Terminals {
        input: rt.stdin().is_terminal(),
        output: rt.stdout().is_terminal(),
        error: rt.stderr().is_terminal(),
    }
}

// Runs what the words ask for, unless they are refused.
fn run_words<'a, R: AllocGlobal + Input + Print + Eprint + Clock + Threads + Sync>(
    rt: &R,
    words: &'a [String],
    terminals: Terminals,
    hasher: TextState,
) -> Ending<'a>
    ensures refused { (text : List ℕ) → command_of (map string_bytes words.now) ≡ Err text → IsRefusal text result }
    ensures run { (asked : Command × Option Text) → command_of (map string_bytes words.now) ≡ Ok asked → IsRunOf asked result }
{
    match command_of(words) {
        Ok(request) => Ending::Ran(run_program(rt, &request, terminals, hasher)),
        Err(error) => Ending::Refused(error, hint(rt.alloc(), error)),
    }
}

// The verb that may have been meant, if the word of a verb is wrong.
fn hint(alloc: Global, error: ArgumentError<'_>) -> Option<Verb> {
    match error {
        ArgumentError::NotVerb(word) => nearest_verb(alloc, word),
        _ => None,
    }
}

// Runs the request over standard input and output. A progress line that it shows is wiped before it returns.
fn run_program<'a, R: AllocGlobal + Input + Print + Eprint + Clock + Threads + Sync>(
    rt: &R,
    request: &Request<'a>,
    terminals: Terminals,
    hasher: TextState,
) -> Ran<'a>
    ensures { result.request ≡ request.now }
{
    let is_shown = shows_progress(request.command, terminals);
    let watched = Fused::new(Watched::new(rt.reader(), rt, is_shown));
    let Ok(reader) = BufReader::with_capacity(rt.alloc(), BUFFER_SIZE, watched) else {
        return Ran::no_memory(request);
    };
    let Ok(writer) = BufWriter::with_capacity(rt.alloc(), BUFFER_SIZE, io::writer(rt)) else {
        return Ran::no_memory(request);
    };
    let mut input = streams::Input::new(reader);
    let mut output = streams::Output::new(writer);
    let ran = run(rt, request, &mut input, &mut output, hasher);
    input.into_inner().into_inner().wipe();
    // Dropping the writer would write what a failed write left in the buffer. Nothing is tried again.
    let (_writer, _left) = output.into_parts();
    ran
}

// The words after the program's name, or how the program ends if one is not UTF-8 or out of memory.
fn argument_words<R: AllocGlobal + Env>(rt: &R) -> Result<Vec<String>, Ending<'static>> {
    let mut all = match env::args(rt) {
        Ok(all) => all,
        Err(error) if error.kind() == ErrorKind::OutOfMemory => return Err(no_memory(AllocError)),
        Err(_) => return Err(Ending::Refused(ArgumentError::NotText, None)),
    };
    let _program = all.next();
    all.collect(rt.alloc()).map_err(no_memory)
}

// Out of memory for the arguments.
fn no_memory(_: AllocError) -> Ending<'static> {
    Ending::NoMemory
}
