//! The errors of encoding lines, decoding codes, and writing and reading dictionaries.
ghost use Rattle.std.specs.Prelude.{◌≡◌, Some};
ghost use Rattle.lasso_columns.specs.Blocks.{numbered};
ghost use Rattle.lasso_columns.specs.Faults.{line_error_text, decode_error_text, write_error_text, read_error_text};
ghost use Rattle.lasso_columns.specs.declared.faults.WriteError.TheVariants.{NoMemory};

use lasso_parts::util::{LassoError, LassoErrorKind};
use std::alloc::{AllocError, AllocFailed};
use std::error::Error;
use std::fmt;

/// Why a line was not encoded. Lines are numbered from 1.
#[derive(Clone, Debug, PartialEq, Eq, Drop)]
pub enum LineError {
    /// The line of this number was refused: by the limit, for lack of a key, or out of memory.
    Refused(usize, LassoError),
    /// The line of this number is not UTF-8.
    NotText(usize),
}

impl LineError {
    /// This error, of the line with this number.
    pub fn at_line(self, number: usize) -> Self
        ensures { result ≡ numbered self number }
    {
        match self {
            LineError::Refused(_, error) => LineError::Refused(number, error),
            LineError::NotText(_) => LineError::NotText(number),
        }
    }
}

impl fmt::Display for LineError {
    ghost output = { λ error. Some (line_error_text error) };

    fn fmt<W: fmt::Write>(&self, f: &mut fmt::Formatter<W>) -> fmt::Result {
        match self {
            LineError::Refused(line, error) if *line == 0 => write!(f, "{error}"),
            LineError::Refused(line, error) => write!(f, "line {line}: {error}"),
            LineError::NotText(line) => write!(f, "line {line}: not UTF-8"),
        }
    }
}

impl Error for LineError {}

/// Why codes were not decoded. Positions are counted from 0.
#[derive(Clone, Copy, Debug, PartialEq, Eq, Hash)]
pub enum DecodeError {
    /// The code at this position has no text.
    NoText {
        /// The position among the codes.
        position: usize,
        /// The code at that position.
        code: u32,
    },
    /// Out of memory for one more text.
    NoMemory,
}

impl fmt::Display for DecodeError {
    ghost output = { λ error. Some (decode_error_text error) };

    fn fmt<W: fmt::Write>(&self, f: &mut fmt::Formatter<W>) -> fmt::Result {
        match self {
            DecodeError::NoText { position, code } => {
                write!(f, "code {code} at position {position} has no text")
            }
            DecodeError::NoMemory => f.write_str("Failed to allocate memory"),
        }
    }
}

impl Error for DecodeError {}

/// Why a dictionary was not written. Positions are those of the interner's list, counted from 0.
#[derive(Clone, Copy, Debug, PartialEq, Eq, Hash)]
pub enum WriteError {
    /// The text at this position is the first that ends past the greatest offset.
    TooManyBytes(usize),
    /// Out of memory for the bytes or the offsets.
    NoMemory,
}

impl fmt::Display for WriteError {
    ghost output = { λ error. Some (write_error_text error) };

    fn fmt<W: fmt::Write>(&self, f: &mut fmt::Formatter<W>) -> fmt::Result {
        match self {
            WriteError::TooManyBytes(at) => { write!(f, "text {at} ends past the greatest offset") }
            WriteError::NoMemory => f.write_str("Failed to allocate memory"),
        }
    }
}

impl Error for WriteError {}

impl From<AllocError> for WriteError {
    ghost from_gives = { λ _ error. error ≡ NoMemory };

    fn from(_: AllocError) -> Self {
        WriteError::NoMemory
    }
}

impl<T: Drop> From<AllocFailed<T>> for WriteError {
    ghost from_gives = { λ _ error. error ≡ NoMemory };

    fn from(_: AllocFailed<T>) -> Self {
        WriteError::NoMemory
    }
}

/// Why a dictionary was not read. Positions are those of the dictionary's texts, counted from 0.
#[derive(Clone, Copy, Debug, PartialEq, Eq, Hash)]
pub enum ReadError {
    /// The text at this position ends before it begins.
    OffsetsFall(usize),
    /// The text at this position ends past the bytes or past the greatest offset. At position 0, the offset
    /// past them may also be the first one.
    OffsetPastBytes(usize),
    /// The text at this position is not UTF-8.
    NotText(usize),
    /// The interner already has the text at this position: from earlier in the dictionary, or from before
    /// the call.
    Doubled(usize),
    /// The interner refused the text at this position: by its limit, for lack of a key, or out of memory. At
    /// position 0 it may also be out of memory for a new interner.
    Refused(usize, LassoErrorKind),
}

impl fmt::Display for ReadError {
    ghost output = { λ error. Some (read_error_text error) };

    fn fmt<W: fmt::Write>(&self, f: &mut fmt::Formatter<W>) -> fmt::Result {
        match self {
            ReadError::OffsetsFall(at) => write!(f, "text {at} ends before it begins"),
            ReadError::OffsetPastBytes(at) => write!(f, "text {at} has an offset past the bytes"),
            ReadError::NotText(at) => write!(f, "text {at} is not UTF-8"),
            ReadError::Doubled(at) => write!(f, "text {at} is there already"),
            ReadError::Refused(at, kind) => write!(f, "text {at}: {kind}"),
        }
    }
}

impl Error for ReadError {}
