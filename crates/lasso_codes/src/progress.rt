//! A line on a terminal that shows how much of the input was read.
ghost use Rattle.std.specs.Prelude.{◌≡◌, ◌+◌, ◌-◌, ◌^◌, true, false, Some, min};
ghost use Rattle.lasso_codes.specs.declared.arguments.Settings.{Settings};
ghost use Rattle.lasso_codes.specs.declared.arguments.Command.TheVariants.{Run};
ghost use Rattle.lasso_codes.specs.Progress.{shows_progress, tally_text, writes_while_reading};

use crate::arguments::{Command, Verb};
use std::io::{ErrorKind, Read};
use std::rt::Clock;
use std::time::Instant;
use std::{fmt, io};

// Returns to the start of the line on a terminal, and erases it.
const WIPE: &str = "\r\x1b[K";

/// Which of the standard streams are terminals.
#[derive(Clone, Copy, Debug, PartialEq, Eq)]
pub struct Terminals {
    /// Standard input is a terminal.
    pub input: bool,
    /// Standard output is a terminal.
    pub output: bool,
    /// Standard error is a terminal.
    pub error: bool,
}

/// Whether the command shows a progress line. It must run a verb without `--quiet`, and standard error must
/// be a terminal. There is none if the input comes from a terminal, or if the verb writes to a terminal while
/// it reads.
pub fn shows_progress(command: Command, terminals: Terminals) -> bool
    ensures decided { result ≡ shows_progress command terminals }
    ensures quiet { (verb : Verb) (settings : Settings) → command ≡ Run verb settings → settings.quiet ≡ true → result ≡ false }
    ensures terminal { terminals.error ≡ false → result ≡ false }
{
    match command {
        Command::Help | Command::VerbHelp(_) | Command::Version => false,
        Command::Run(verb, settings) => {
            let is_mixed = terminals.output && writes_while_reading(verb);
            terminals.error && !terminals.input && !settings.quiet && !is_mixed
        }
    }
}

// Whether the verb writes before it has read all of the input.
fn writes_while_reading(verb: Verb) -> bool
    ensures { result ≡ writes_while_reading verb }
{
    matches!(verb, Verb::Decode | Verb::Distinct)
}

/// The number of bytes that were read, and of whole seconds since the start. Its text is a progress line.
#[derive(Clone, Copy, Debug, PartialEq, Eq)]
pub struct Tally {
    /// The bytes, at most 2^64 - 1.
    pub bytes: u64,
    /// The seconds.
    pub seconds: u64,
}

impl fmt::Display for Tally {
    ghost output = { λ tally. Some (tally_text tally) };

    fn fmt<W: fmt::Write>(&self, f: &mut fmt::Formatter<W>) -> fmt::Result {
        let megabytes = self.bytes / 1_000_000;
        let seconds = self.seconds;
        write!(f, "lasso_codes: {megabytes} MB read in {seconds} s")
    }
}

// A progress line, and the clock that tells when to write it again.
#[derive(Drop)]
struct Progress<'a, H> {
    rt: &'a H,
    start: Instant,
    // What was read so far. Its seconds are those of the last line that was written, or 0 if there was none.
    tally: Tally,
}

impl<'a, H: Clock + Eprint> Progress<'a, H> {
    // Starts the clock. `None` if the clock fails.
    fn start(rt: &'a H) -> Option<Self> {
        let start = Instant::now(rt).ok()?;
        let tally = Tally {
            bytes: 0,
            seconds: 0,
        };
        Some(Progress { rt, start, tally })
    }

    // Counts `count` more bytes. Writes the line at most once in each second, and not in the first one.
    fn advance(&mut self, count: usize)
        ensures { self.new.tally.bytes ≡ min (self.old.tally.bytes + count) (2 ^ 64 - 1) }
    {
        self.tally.bytes = self.tally.bytes.saturating_add(count as u64);
        let Ok(elapsed) = self.start.elapsed(self.rt) else {
            return;
        };
        if elapsed.as_secs() > self.tally.seconds {
            self.tally.seconds = elapsed.as_secs();
            let tally = self.tally;
            let _ = eprint!(self.rt; "\r{tally}");
        }
    }

    // Wipes the line, if one was written.
    fn wipe(&mut self) {
        if self.tally.seconds > 0 {
            self.tally.seconds = 0;
            let _ = eprint!(self.rt; "{WIPE}");
        }
    }
}

/// A reader that may show a progress line. It reads what the inner reader reads. If the line can't be
/// written, nothing else changes.
#[derive(Drop)]
pub struct Watched<'a, R, H> {
    inner: R,
    progress: Option<Progress<'a, H>>,
}

impl<'a, R: Read + Drop, H: Clock + Eprint> Watched<'a, R, H> {
    /// Wraps the reader. Without `is_shown`, no line is ever written.
    pub fn new(inner: R, rt: &'a H, is_shown: bool) -> Self
        ensures { result.inner ≡ inner }
    {
        let progress = if is_shown { Progress::start(rt) } else { None };
        Watched { inner, progress }
    }

    /// Wipes the progress line, if there is one.
    pub fn wipe(&mut self)
        ensures { self.new.inner ≡ self.old.inner }
    {
        if let Some(progress) = &mut self.progress {
            progress.wipe();
        }
    }
}

impl<R: Read, H: Clock + Eprint> Read for Watched<'_, R, H> {
    ghost remaining = { λ watched. R.remaining watched.inner };

    fn read(&mut self, buf: &mut [u8]) -> io::Result<usize> {
        let ended = self.inner.read(buf);
        handed_on(&mut self.progress, ended)
    }
}

// Shows how a read of the inner reader ended, and returns that.
fn handed_on<H: Clock + Eprint>(
    progress: &mut Option<Progress<'_, H>>,
    ended: io::Result<usize>,
) -> io::Result<usize>
    ensures { result ≡ ended }
{
    if let Some(progress) = progress {
        match &ended {
            Ok(0) => progress.wipe(),
            Ok(count) => progress.advance(*count),
            Err(error) if error.kind() == ErrorKind::Interrupted => {}
            Err(_) => progress.wipe(),
        }
    }
    ended
}
