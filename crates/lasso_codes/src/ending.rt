//! How the program ends: its exit status, and what it prints of the reason.
ghost use Rattle.std.specs.Prelude.{◌≡◌, Some};
ghost use Rattle.std.specs.Process.{exit_status};
ghost use Rattle.lasso_codes.specs.Endings.{ending_status, ending_text, is_told};

use crate::arguments::{ArgumentError, Verb};
use crate::error::RunError;
use crate::program::Ran;
use std::fmt;
use std::process::ExitCode;

/// How the program ends.
#[derive(Drop)]
pub enum Ending<'a> {
    /// Out of memory for the arguments.
    NoMemory,
    /// The arguments are refused. The verb may be the one that was meant.
    Refused(ArgumentError<'a>, Option<Verb>),
    /// A request was run.
    Ran(Ran<'a>),
}

impl Ending<'_> {
    /// Whether a reason is printed: there is none if all went well, or if the reader of the output is gone.
    pub fn is_told(&self) -> bool
        ensures { result ≡ is_told self.now }
    {
        match self {
            Ending::NoMemory | Ending::Refused(_, _) => true,
            Ending::Ran(ran) => match ran.ended() {
                Ok(()) | Err(RunError::ReaderGone) => false,
                Err(_) => true,
            },
        }
    }

    /// The program's exit status: 3 for bad arguments, and else that of the error, or 0.
    pub fn status(&self) -> u8
        ensures { result ≡ ending_status self.now }
    {
        match self {
            Ending::NoMemory => 1,
            Ending::Refused(_, _) => 3,
            Ending::Ran(ran) => match ran.ended() {
                Ok(()) => 0,
                Err(error) => error.status(),
            },
        }
    }
}

impl fmt::Display for Ending<'_> {
    ghost output = { λ ending. Some (ending_text ending) };

    fn fmt<W: fmt::Write>(&self, f: &mut fmt::Formatter<W>) -> fmt::Result {
        match self {
            Ending::NoMemory => write!(f, "out of memory"),
            Ending::Refused(error, None) => write!(f, "{error}"),
            Ending::Refused(error, Some(verb)) => write!(
                f,
                "{error}; did you mean {}?",
                verb.name()
            ),
            Ending::Ran(ran) => match ran.ended() {
                Ok(()) => write!(f, "done"),
                Err(error) => write!(f, "{error}{}", ran.cause()),
            },
        }
    }
}

/// Prints the reason, if there is one, and returns the exit status. If it can't be printed, the status is the same.
pub fn end<R: Eprint>(rt: &R, ending: &Ending<'_>) -> ExitCode
    ensures { exit_status result ≡ ending_status ending.now }
{
    if ending.is_told() {
        let _ = eprintln!(rt; "{ending}");
    }
    ExitCode::from(ending.status())
}
