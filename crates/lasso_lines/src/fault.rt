//! Why a run ends early.
ghost use Rattle.std.specs.Prelude.{◌≡◌, ◌↔◌, IsTrue, Some};
ghost use Rattle.lasso_lines.specs.Fault.{IsNoMemory, status_of, fault_text};
ghost use Rattle.lasso_parts.specs.declared.util.LassoErrorKind.TheVariants.{FailedAllocation};

use lasso_parts::util::{LassoError, LassoErrorKind};
use std::fmt;

/// Why a run ended before its report was complete. Lines are numbered from 1.
#[derive(Debug, Drop, PartialEq, Eq)]
pub enum RunFault {
    /// The line was refused, and why. Number 0 means out of memory at no line.
    Refused(u64, LassoError),
    /// The line is not UTF-8.
    NotText(u64),
    /// The program's arguments are wrong.
    Usage,
    /// A read failed.
    ReadFailed,
    /// A write or a flush failed.
    WriteFailed,
}

impl RunFault {
    /// Out of memory at the line of this number, or at no line if it is 0.
    pub fn no_memory(number: u64) -> Self
        ensures { result ≡ RunFault.Refused number FailedAllocation }
    {
        RunFault::Refused(number, LassoError::new(LassoErrorKind::FailedAllocation))
    }

    /// Whether memory ran out, at a line or at none.
    pub fn is_no_memory(&self) -> bool
        ensures { IsTrue result ↔ IsNoMemory self.now }
    {
        match self {
            RunFault::Refused(_, error) => error.kind().is_failed_alloc(),
            _ => false,
        }
    }

    /// The program's exit status: 1 for a refused line, 2 for a line that is not UTF-8, 3 for wrong
    /// arguments, 4 for a failed read or write.
    pub fn status(&self) -> u8
        ensures { result ≡ status_of self.now }
    {
        match self {
            RunFault::Refused(_, _) => 1,
            RunFault::NotText(_) => 2,
            RunFault::Usage => 3,
            RunFault::ReadFailed | RunFault::WriteFailed => 4,
        }
    }
}

impl fmt::Display for RunFault {
    ghost output = { λ fault. Some (fault_text fault) };

    fn fmt<W: fmt::Write>(&self, f: &mut fmt::Formatter<W>) -> fmt::Result {
        match self {
            RunFault::Refused(line, error) => write!(f, "line {line}: {error}"),
            RunFault::NotText(line) => write!(f, "line {line}: not UTF-8"),
            RunFault::Usage => write!(f, "usage: lasso_lines [--limit N] [--workers N]"),
            RunFault::ReadFailed => write!(f, "read failed"),
            RunFault::WriteFailed => write!(f, "write failed"),
        }
    }
}
