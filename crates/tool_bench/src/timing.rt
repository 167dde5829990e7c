//! How long work takes: readings of the clock, the time of a call, and a table of times that is printed line by line.
ghost use Rattle.std.specs.Prelude.{◌≡◌, ◌<◌, ◌*◌, ◌/◌, ◌-◌, ◌^◌, min};
ghost use Rattle.std.specs.Duration.{as_nanos};

use anyhow::{Result, bail};
use std::alloc::AllocError;
use std::rt::Clock;
use std::time::{Duration, Instant};

/// How often each operation is timed.
pub const ROUNDS: u32 = 8;

/// The fault of a timing that is refused memory.
pub const NO_MEMORY: &str = "out of memory";

/// The fault of a timing whose text is refused.
pub const REFUSED: &str = "a text was refused";

/// How long a call takes, in tenths of a nanosecond, or what was wrong.
pub type Tenths = Result<u64, &'static str>;

/// Reads the clock before work; `None` if the clock fails.
pub fn started(rt: &impl Clock) -> Option<Instant> {
    Instant::now(rt).ok()
}

/// How long the work took that was started then; `None` if the clock failed before or fails now.
pub fn elapsed_since(rt: &impl Clock, start: Option<Instant>) -> Option<Duration> {
    start?.elapsed(rt).ok()
}

/// The time of a call if `calls` calls took `elapsed`. It fails if the clock failed.
pub fn tenths_of(elapsed: Option<Duration>, calls: usize) -> Tenths {
    match elapsed {
        Some(elapsed) => Ok(tenths_a_call(elapsed, calls)),
        None => Err("the clock failed"),
    }
}

/// The same. It fails with `fault` unless the answers are right, and if the clock failed.
pub fn tenths_if(
    are_right: bool,
    fault: &'static str,
    elapsed: Option<Duration>,
    calls: usize,
) -> Tenths {
    if !are_right {
        return Err(fault);
    }
    tenths_of(elapsed, calls)
}

/// The same of `texts` texts that were interned one after another at the first positions, whose sum this is; `None` if one was refused.
pub fn tenths_of_positions(sum: Option<usize>, elapsed: Option<Duration>, texts: usize) -> Tenths {
    let are_keys = sum == Some(sum_of_positions(texts));
    tenths_if(
        are_keys,
        "a text was refused, or a key is wrong",
        elapsed,
        texts,
    )
}

/// The same if each thread had to answer `wanted`. It fails too if there was no memory for the answers.
pub fn tenths_if_all<T: PartialEq + Drop>(
    answers: Result<Vec<T>, AllocError>,
    wanted: &T,
    fault: &'static str,
    elapsed: Option<Duration>,
    calls: usize,
) -> Tenths {
    let Ok(answers) = answers else {
        return Err(NO_MEMORY);
    };
    tenths_if(are_all(&answers, wanted), fault, elapsed, calls)
}

// Whether each answer is the wanted one.
fn are_all<T: PartialEq>(answers: &[T], wanted: &T) -> bool {
    for answer in answers {
        if *answer != *wanted {
            return false;
        }
    }
    true
}

/// The time, or the first fault; `fault` if there is a time and the answers are not right.
pub fn if_so(are_right: bool, fault: &'static str, tenths: Tenths) -> Tenths {
    if tenths.is_ok() && !are_right {
        return Err(fault);
    }
    tenths
}

/// The less of both; a fault if one of them is.
pub fn least(one: Tenths, other: Tenths) -> Tenths {
    Ok(one?.min(other?))
}

/// The time of a call, in tenths of a nanosecond, if `calls` calls took `elapsed`; 0 if there were none.
pub fn tenths_a_call(elapsed: Duration, calls: usize) -> u64
    ensures { 0 < calls → result ≡ min ((as_nanos elapsed * 10) / calls) (2 ^ 64 - 1) }
{
    if calls == 0 {
        return 0;
    }
    let tenths = elapsed.as_nanos() * 10 / calls as u128;
    tenths.min(u64::MAX as u128) as u64
}

/// The sum of the texts' last bytes.
pub fn sum_of_last_bytes(texts: &[String]) -> usize {
    let mut sum = 0usize;
    for text in texts {
        sum = sum.wrapping_add(last_byte(text.as_str()));
    }
    sum
}

/// The text's last byte, or 0 if it has none.
pub fn last_byte(text: &str) -> usize {
    text.as_bytes().last().map_or(0, |byte| usize::from(*byte))
}

/// The sum of the positions of `count` texts.
pub fn sum_of_positions(count: usize) -> usize {
    let mut sum = 0usize;
    for position in 0..count {
        sum = sum.wrapping_add(position);
    }
    sum
}

// A table of times, which is printed line by line.

/// The lines of a table so far. The first fault ends it: no line is printed after that.
#[derive(Drop)]
pub struct Table {
    is_printed: bool,
    fault: Option<&'static str>,
}

impl Table {
    /// A table whose lines are printed.
    pub fn printed() -> Table {
        Table {
            is_printed: true,
            fault: None,
        }
    }

    /// A table that prints no line, and keeps the first fault alone.
    pub fn checked() -> Table {
        Table {
            is_printed: false,
            fault: None,
        }
    }

    /// Prints a line: the call, the number of threads or of texts, and the time. If there is no time, what was
    /// wrong is the table's fault.
    pub fn add(&mut self, rt: &impl Print, call: &str, number: usize, tenths: Tenths) {
        if self.fault.is_some() {
            return;
        }
        match tenths {
            Ok(tenths) => self.print(rt, call, number, tenths),
            Err(fault) => self.fail(fault),
        }
    }

    /// Ends the table with this fault, unless it has ended.
    pub fn fail(&mut self, fault: &'static str) {
        if self.fault.is_none() {
            self.fault = Some(fault);
        }
    }

    /// Fails with the fault, if there is one.
    pub fn end(&self) -> Result<()> {
        match self.fault {
            Some(fault) => bail!("{fault}"),
            None => Ok(()),
        }
    }

    // Prints a line with the time, in tenths of a nanosecond, unless the table prints none.
    fn print(&mut self, rt: &impl Print, call: &str, number: usize, tenths: u64) {
        if self.is_printed && !is_written(rt, call, number, tenths) {
            self.fail("standard output failed");
        }
    }
}

// Writes a line to standard output, and tells whether that was possible.
fn is_written(rt: &impl Print, call: &str, number: usize, tenths: u64) -> bool {
    let whole = tenths / 10;
    let tenth = tenths % 10;
    println!(rt; "{call} {number} {whole}.{tenth}").is_ok()
}
