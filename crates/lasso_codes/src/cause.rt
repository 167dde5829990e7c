//! Why a read or a write failed, in words.
ghost use Rattle.std.specs.Prelude.{◌≡◌, Some};
ghost use Rattle.std.specs.Fmt.{WritesOnOk};
ghost use Rattle.lasso_codes.specs.Causes.{cause_text, code_text, kind_text};

use std::io::ErrorKind;
use std::{fmt, io};

// The system's numbers of a failed device and of a closed stream, which have no kind of their own.
const EIO: u32 = 5;

const EBADF: u32 = 9;

/// The error of a failed call, which prints as a colon and its kind; without an error, as nothing.
#[derive(Clone, Copy)]
pub struct Cause(pub Option<io::Error>);

impl fmt::Display for Cause {
    ghost output = { λ cause. Some (cause_text cause.0) };

    fn fmt<W: fmt::Write>(&self, f: &mut fmt::Formatter<W>) -> fmt::Result {
        let Some(error) = self.0 else {
            return Ok(());
        };
        let kind = kind_text(error.kind());
        if !kind.is_empty() {
            return write!(f, ": {kind}");
        }
        match error.raw_os_error() {
            Some(code) => fmt_code(code.unsigned_abs(), f),
            None => write!(f, ": unknown error"),
        }
    }
}

// Writes the number of an error without a kind, in words if it is one of the two above.
fn fmt_code<W: fmt::Write>(code: u32, f: &mut fmt::Formatter<W>) -> fmt::Result
    ensures { WritesOnOk W.write_str_gives f.old result (code_text code) f.new }
{
    if code == EIO {
        write!(f, ": Input/output error")
    } else if code == EBADF {
        write!(f, ": Bad file descriptor")
    } else {
        write!(f, ": os error {code}")
    }
}

// The kind in words, or no words for a kind that no read or write has.
#[tactic(auto, unfolding(crate::specs::Causes::kind_text))]
fn kind_text(kind: ErrorKind) -> &'static str
    ensures { result.now ≡ kind_text kind }
{
    match kind {
        ErrorKind::PermissionDenied => "Permission denied",
        ErrorKind::ConnectionRefused => "Connection refused",
        ErrorKind::ConnectionReset => "Connection reset",
        ErrorKind::HostUnreachable => "Host unreachable",
        ErrorKind::NetworkUnreachable => "Network unreachable",
        ErrorKind::ConnectionAborted => "Connection aborted",
        ErrorKind::NotConnected => "Not connected",
        ErrorKind::NetworkDown => "Network down",
        ErrorKind::BrokenPipe => "Broken pipe",
        ErrorKind::WouldBlock => "Operation would block",
        ErrorKind::IsADirectory => "Is a directory",
        ErrorKind::ReadOnlyFilesystem => "Read-only filesystem",
        ErrorKind::StaleNetworkFileHandle => "Stale network file handle",
        ErrorKind::InvalidInput => "Invalid input",
        ErrorKind::TimedOut => "Timed out",
        ErrorKind::WriteZero => "Write zero",
        ErrorKind::StorageFull => "No storage space",
        ErrorKind::NotSeekable => "Seek on unseekable file",
        ErrorKind::QuotaExceeded => "Quota exceeded",
        ErrorKind::FileTooLarge => "File too large",
        ErrorKind::ResourceBusy => "Resource busy",
        ErrorKind::Deadlock => "Deadlock",
        ErrorKind::Interrupted => "Operation interrupted",
        ErrorKind::Unsupported => "Unsupported",
        ErrorKind::OutOfMemory => "Out of memory",
        ErrorKind::NotFound
        | ErrorKind::AddrInUse
        | ErrorKind::AddrNotAvailable
        | ErrorKind::AlreadyExists
        | ErrorKind::NotADirectory
        | ErrorKind::DirectoryNotEmpty
        | ErrorKind::FilesystemLoop
        | ErrorKind::InvalidData
        | ErrorKind::ExecutableFileBusy
        | ErrorKind::CrossesDevices
        | ErrorKind::TooManyLinks
        | ErrorKind::InvalidFilename
        | ErrorKind::ArgumentListTooLong
        | ErrorKind::UnexpectedEof
        | ErrorKind::InProgress
        | ErrorKind::Other
        | ErrorKind::Uncategorized => "",
    }
}
