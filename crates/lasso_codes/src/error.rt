//! Errors: why a run ends before all is written.
ghost use Rattle.std.specs.Prelude.{◌≡◌, Some};
ghost use Rattle.std.specs.IoError.{error_kind};
ghost use Rattle.lasso_codes.specs.Errors.{column_fault_text, column_status, status_of, run_error_text, IsWriteError};
ghost use Rattle.lasso_columns.specs.declared.faults.LineError.TheVariants.{Refused};
ghost use Rattle.lasso_parts.specs.declared.util.LassoErrorKind.TheVariants.{FailedAllocation};

use lasso_columns::LineError;
use lasso_parts::util::{LassoError, LassoErrorKind};
use std::io::ErrorKind;
use std::{fmt, io};

/// Why a run ended before all was written. Lines are numbered from 1.
#[derive(Debug, Drop, PartialEq, Eq)]
pub enum RunError {
    /// A line was refused or is not UTF-8. Line 0: out of memory before the first line, or after the last
    /// one.
    Line(LineError),
    /// There are 2^64 - 2 lines or more, or as many columns.
    TooManyLines,
    /// The reader failed.
    ReadFailed,
    /// The writer failed.
    WriteFailed,
    /// The reader of the output is gone.
    ReaderGone,
    /// The column with this number is damaged, or one of its texts was refused. Columns are numbered from 1.
    Column(usize, ColumnError),
}

/// What is wrong with a column. Texts and entries are numbered from 1.
#[derive(Debug, Drop, PartialEq, Eq)]
pub enum ColumnError {
    /// It does not begin with a header line.
    NoHeader,
    /// The input ends before this text does.
    NoText(usize),
    /// The text is not UTF-8.
    NotUtf8(usize),
    /// The text comes twice.
    Doubled(usize),
    /// The text was refused.
    TextRefused(usize, LassoError),
    /// The input ends before this entry does.
    NoEntry(usize),
    /// The entry is neither a code nor a null.
    NotEntry(usize),
    /// The entry's code is past the texts.
    PastTexts(usize),
    /// The entry is a null, and `--null` is not given.
    IsNull(usize),
    /// One of the texts was refused by the merged dictionary.
    NotMerged(LassoError),
    /// It has entries, and a dictionary has none.
    HasEntries,
    /// The text is not in the dictionary.
    Absent(usize),
}

impl ColumnError {
    // The program's exit status.
    fn status(&self) -> u8
        ensures { result ≡ column_status self.now }
    {
        match self {
            ColumnError::TextRefused(_, _) | ColumnError::NotMerged(_) => 1,
            _ => 2,
        }
    }
}

impl fmt::Display for ColumnError {
    ghost output = { λ error. Some (column_fault_text error) };

    fn fmt<W: fmt::Write>(&self, f: &mut fmt::Formatter<W>) -> fmt::Result {
        match self {
            ColumnError::NoHeader => write!(f, "no header"),
            ColumnError::NoText(number) => write!(f, "text {number} is missing"),
            ColumnError::NotUtf8(number) => write!(f, "text {number} is not UTF-8"),
            ColumnError::Doubled(number) => write!(f, "text {number} comes twice"),
            ColumnError::TextRefused(number, error) => write!(f, "text {number}: {error}"),
            ColumnError::NoEntry(number) => write!(f, "entry {number} is missing"),
            ColumnError::NotEntry(number) => write!(f, "entry {number} is not a code"),
            ColumnError::PastTexts(number) => write!(f, "entry {number} is past the texts"),
            ColumnError::IsNull(number) => write!(
                f,
                "entry {number} is a null, and --null is missing"
            ),
            ColumnError::NotMerged(error) => write!(f, "{error}"),
            ColumnError::HasEntries => write!(f, "a dictionary has no entries"),
            ColumnError::Absent(number) => write!(f, "text {number} is not in the dictionary"),
        }
    }
}

impl RunError {
    /// Out of memory at the line with this number.
    pub fn no_memory(number: usize) -> Self
        ensures { result ≡ RunError.Line (Refused number FailedAllocation) }
    {
        let error = LassoError::new(LassoErrorKind::FailedAllocation);
        RunError::Line(LineError::Refused(number, error))
    }

    /// The error of a failed write: `ReaderGone` for a broken pipe, else `WriteFailed`.
    pub fn of_write(error: &io::Error) -> Self
        ensures is_write { IsWriteError result }
        ensures gone { error_kind error.now ≡ ErrorKind.BrokenPipe → result ≡ RunError.ReaderGone }
        ensures failed { ¬ (error_kind error.now ≡ ErrorKind.BrokenPipe) → result ≡ RunError.WriteFailed }
    {
        if error.kind() == ErrorKind::BrokenPipe {
            RunError::ReaderGone
        } else {
            RunError::WriteFailed
        }
    }

    /// The program's exit status: 1 for a refused line or text, 2 for a line that is not UTF-8 and for a
    /// damaged column, 4 for a failed read or write, 0 if the reader of the output is gone.
    pub fn status(&self) -> u8
        ensures { result ≡ status_of self.now }
    {
        match self {
            RunError::Line(LineError::Refused(_, _)) | RunError::TooManyLines => 1,
            RunError::Line(LineError::NotText(_)) => 2,
            RunError::ReadFailed | RunError::WriteFailed => 4,
            RunError::ReaderGone => 0,
            RunError::Column(_, error) => error.status(),
        }
    }
}

impl fmt::Display for RunError {
    ghost output = { λ error. Some (run_error_text error) };

    fn fmt<W: fmt::Write>(&self, f: &mut fmt::Formatter<W>) -> fmt::Result {
        match self {
            RunError::Line(error) => write!(f, "{error}"),
            RunError::TooManyLines => write!(f, "too many lines"),
            RunError::ReadFailed => write!(f, "read failed"),
            RunError::WriteFailed => write!(f, "write failed"),
            RunError::ReaderGone => write!(f, "the output's reader is gone"),
            RunError::Column(column, error) => write!(f, "column {column}: {error}"),
        }
    }
}
