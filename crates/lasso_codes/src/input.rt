//! Reads lines.
ghost use Rattle.std.specs.Prelude.{◌≡◌, ◌+◌, ℕ, List, [], ◌∷◌, ◌++◌, IfOk, IfErr, OnErr};
ghost use Rattle.lasso_input.specs.Lines.{NoFeed};
ghost use Rattle.lasso_codes.specs.Streams.{CutsLine, LosesLine, LosesPart, TakesLine};
ghost use Rattle.lasso_codes.specs.Errors.{failed_reads, IsReadError};

use crate::error::RunError;
use crate::streams::Input;
use std::io::Read;

/// Reads the next line into `line`, without its line feed. Returns whether there was a line. Bytes after the
/// last line feed are a line.
///
/// # Errors
/// The reader failed, or out of memory at the line with this number.
pub fn next_line<R: Read + Drop>(
    input: &mut Input<R>,
    line: &mut Vec<u8>,
    number: usize,
) -> Result<bool, RunError>
    ensures taken { IfOk result (λ is_line. TakesLine input.old.left input.new.left is_line line.new.items) }
    ensures lost { OnErr result (LosesPart input.old.left input.new.left) }
    ensures errors { IfErr result (IsReadError number) }
    ensures reads { input.new.failures ≡ input.old.failures + failed_reads result }
{
    line.clear();
    match input.read_until(line, number) {
        Ok(0) => Ok(false),
        Ok(_) => {
            strip_feed(line);
            Ok(true)
        }
        Err(error) => Err(error),
    }
}

/// How a read up to a line feed ended.
#[derive(Clone, Copy, Debug, PartialEq, Eq)]
pub enum Cut {
    /// A line that ends with a line feed.
    Whole,
    /// The last bytes, which don't end with a line feed.
    Part,
    /// There were no bytes left.
    End,
}

/// Reads the next line into `line`, without its line feed.
///
/// # Errors
/// The reader failed, or out of memory.
pub fn next_whole_line<R: Read + Drop>(
    input: &mut Input<R>,
    line: &mut Vec<u8>,
) -> Result<Cut, RunError>
    ensures taken { IfOk result (λ cut. CutsLine input.old.left input.new.left cut line.new.items) }
    ensures lost { OnErr result (LosesLine input.old.left input.new.left) }
    ensures errors { IfErr result (IsReadError 0) }
    ensures reads { input.new.failures ≡ input.old.failures + failed_reads result }
{
    line.clear();
    match input.read_until(line, 0) {
        Ok(0) => Ok(Cut::End),
        Ok(_) => {
            let count = line.len();
            strip_feed(line);
            if line.len() < count {
                Ok(Cut::Whole)
            } else {
                Ok(Cut::Part)
            }
        }
        Err(error) => Err(error),
    }
}

// Removes a line feed at the end of the line.
fn strip_feed(line: &mut Vec<u8>)
    ensures ended { (front : List ℕ) → line.old.items ≡ front ++ 10 ∷ [] → line.new.items ≡ front }
    ensures unended { NoFeed line.old.items → line.new.items ≡ line.old.items }
{
    let count = line.len();
    if count > 0 && line[count - 1] == b'\n' {
        line.truncate(count - 1);
    }
}
