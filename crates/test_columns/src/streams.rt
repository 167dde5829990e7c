//! Streams that are encoded by rounds, with blocks of every size from one byte on and with any number of
//! workers. The entries were worked out by hand, or are what `encode_rows` leaves of all bytes.
use crate::calls::{Host, is_by_the_limit, is_so, is_so_at};
use lasso::{Capacity, MemoryLimits, Rodeo, SpurRodeo};
use lasso_columns::{LineError, NULL, Rounds, StreamError, encode_stream};
use lasso_parts::hasher::TextState;
use std::alloc::Global;
use std::io;
use std::io::{BufReader, ErrorKind, Read};
use std::test::Fail;

// How a stream ends. Lines are numbered from 1.
#[derive(Clone, Copy)]
enum Ended {
    Well,
    // the line of this number is not UTF-8
    NotText(usize),
    // the memory limit refuses the line of this number
    Refused(usize),
    // a read failed
    Broken,
}

// The interner and the entries that a stream leaves, and how it ends. An interner takes three bytes of texts.
type Left = (SpurRodeo, Vec<u32>, Result<(), StreamError>);

// Encodes the input, which is read by this number of bytes at a time.
fn encoded<I: Read + Drop>(
    rt: &impl Host,
    input: I,
    bytes: usize,
    rounds: Rounds,
) -> Result<Left, Fail> {
    let (capacity, limits) = (Capacity::for_bytes(3), MemoryLimits::new(3));
    let mut rodeo: SpurRodeo = Rodeo::with_capacity_and_memory_limits(
        rt.alloc(),
        capacity,
        limits,
    )?;
    let mut entries = Vec::new(rt.alloc());
    let mut input = BufReader::with_capacity(rt.alloc(), bytes, input)?;
    let ended = encode_stream(rt, &mut input, &mut rodeo, Some(b"-"), &mut entries, rounds);
    Ok((rodeo, entries, ended))
}

// Whether a stream ended so. Out of memory is an error.
fn ends(ended: Result<(), StreamError>, wanted: Ended) -> Result<bool, Fail> {
    match ended {
        Ok(()) => Ok(matches!(wanted, Ended::Well)),
        Err(StreamError::Line(error)) => line_ends(error, wanted),
        Err(StreamError::Read(error)) if error.kind() == ErrorKind::OutOfMemory => {
            Err(Fail::from("out of memory"))
        }
        Err(StreamError::Read(_)) => Ok(matches!(wanted, Ended::Broken)),
    }
}

fn line_ends(error: LineError, wanted: Ended) -> Result<bool, Fail> {
    match (error, wanted) {
        (LineError::NotText(line), Ended::NotText(number)) => Ok(line == number),
        (LineError::Refused(line, error), Ended::Refused(number)) => {
            Ok(is_by_the_limit(error)? && line == number)
        }
        (LineError::Refused(_, error), _) => {
            let _ = is_by_the_limit(error)?;
            Ok(false)
        }
        _ => Ok(false),
    }
}

// Bytes of lines, the distinct texts in their order, the entries, and how it ends. An interner takes three
// bytes of texts, and `-` is a null.
struct Row {
    bytes: &'static [u8],
    texts: &'static [&'static str],
    entries: &'static [u32],
    ended: Ended,
}

static ROWS: [Row; 12] = [
    Row {
        bytes: b"",
        texts: &[],
        entries: &[],
        ended: Ended::Well,
    },
    Row {
        bytes: b"\n",
        texts: &[""],
        entries: &[0],
        ended: Ended::Well,
    },
    Row {
        bytes: b"a",
        texts: &["a"],
        entries: &[0],
        ended: Ended::Well,
    },
    Row {
        bytes: b"a\n\na",
        texts: &["a", ""],
        entries: &[0, 1, 0],
        ended: Ended::Well,
    },
    Row {
        bytes: b"abc\nabc\nabc\n-\nabc\nabc\n-\n-\nabc",
        texts: &["abc"],
        entries: &[0, 0, 0, NULL, 0, 0, NULL, NULL, 0],
        ended: Ended::Well,
    },
    Row {
        bytes: b"a\na\na\na\nb\na\na\na\nb\na\na\na\na\nc\na\nb\nc\na\n",
        texts: &["a", "b", "c"],
        entries: &[0, 0, 0, 0, 1, 0, 0, 0, 1, 0, 0, 0, 0, 2, 0, 1, 2, 0],
        ended: Ended::Well,
    },
    Row {
        bytes: b"a\na\na\n\xff\na\na\n",
        texts: &["a"],
        entries: &[0, 0, 0],
        ended: Ended::NotText(4),
    },
    Row {
        bytes: b"\xc3\n\xa4",
        texts: &[],
        entries: &[],
        ended: Ended::NotText(1),
    },
    Row {
        bytes: b"a\na\na\n\xe2\x82",
        texts: &["a"],
        entries: &[0, 0, 0],
        ended: Ended::NotText(4),
    },
    Row {
        bytes: b"a\na\na\nb\na\na\na\nc\na\na\na\na\nd\na\na\n\xff\n",
        texts: &["a", "b", "c"],
        entries: &[0, 0, 0, 1, 0, 0, 0, 2, 0, 0, 0, 0],
        ended: Ended::Refused(13),
    },
    Row {
        bytes: b"a\na\na\na\n-\na\nlong\n-\na",
        texts: &["a"],
        entries: &[0, 0, 0, 0, NULL, 0],
        ended: Ended::Refused(7),
    },
    Row {
        bytes: b"a\na\n-\na\n--\na\n \xff\na\nd\na\n",
        texts: &["a", "--"],
        entries: &[0, 0, NULL, 0, 1, 0],
        ended: Ended::NotText(7),
    },
];

static SIZES: [usize; 9] = [0, 1, 2, 3, 4, 5, 7, 11, 100];

static WORKERS: [usize; 7] = [0, 1, 2, 3, 4, 7, 64];

fn rounds_of(workers: usize, size: usize) -> Rounds {
    Rounds {
        workers,
        first_lines: 0,
        alone: size,
        smallest: size,
        largest: size.saturating_mul(2),
        hasher: TextState::with_seed(5, 6),
    }
}

// Each row has to come out so with this number of workers and blocks of these sizes.
fn are_right(rt: &impl Host, workers: usize, sizes: &[usize]) -> Result<(), Fail> {
    for (number, row) in ROWS.iter().enumerate() {
        for size in sizes {
            let (rodeo, entries, ended) = encoded(rt, row.bytes, 3, rounds_of(workers, *size))?;
            is_so_at(rt, ends(ended, row.ended)?, number);
            is_so_at(rt, entries.as_slice() == row.entries, number);
            is_so_at(rt, rodeo.len() == row.texts.len(), number);
            for (text, wanted) in rodeo.strings().zip(row.texts) {
                is_so_at(rt, text == *wanted, number);
            }
        }
    }
    Ok(())
}

#[test]
fn blocks_of_every_size(rt: HostRuntime) -> Result<(), Fail> {
    for workers in &WORKERS {
        are_right(&rt, *workers, &SIZES)?;
    }
    Ok(())
}

#[test]
fn any_number_of_workers(rt: HostRuntime) -> Result<(), Fail> {
    for workers in 1..65 {
        are_right(&rt, workers, &[1, 6])?;
    }
    Ok(())
}

// A reader that fails after its bytes, by an error of this kind.
#[derive(Drop)]
struct Broken<'a> {
    rest: &'a [u8],
    kind: ErrorKind,
}

impl Read for Broken<'_> {
    fn read(&mut self, buf: &mut [u8]) -> io::Result<usize> {
        if self.rest.is_empty() {
            return Err(io::Error::from(self.kind));
        }
        self.rest.read(buf)
    }
}

// How many lines of the bytes a line feed ends.
fn ended_lines(bytes: &[u8]) -> usize {
    let mut count = 0usize;
    for byte in bytes {
        if *byte == b'\n' {
            count = count.saturating_add(1);
        }
    }
    count
}

// How the row ends if only this number of lines can be read as a whole.
fn ended_after(row: &Row, lines: usize) -> Ended {
    match row.ended {
        Ended::NotText(line) if line <= lines => row.ended,
        Ended::Refused(line) if line <= lines => row.ended,
        _ => Ended::Broken,
    }
}

// The lines before a read that fails come out so. A bad line before it decides.
#[test]
fn reads_that_fail_at_each_byte(rt: HostRuntime) -> Result<(), Fail> {
    for (workers, size) in [(1, 1), (3, 1), (1, 4), (3, 4), (1, 9), (3, 9)] {
        for (number, row) in ROWS.iter().enumerate() {
            for cut in 0..row.bytes.len() + 1 {
                let rest = &row.bytes[..cut];
                let kind = ErrorKind::BrokenPipe;
                let (_rodeo, entries, ended) = encoded(
                    &rt,
                    Broken { rest, kind },
                    2,
                    rounds_of(workers, size),
                )?;
                let lines = ended_lines(rest);
                is_so_at(&rt, ends(ended, ended_after(row, lines))?, number);
                let wanted = &row.entries[..lines.min(row.entries.len())];
                is_so_at(&rt, entries.as_slice() == wanted, number);
            }
        }
    }
    Ok(())
}

// All kinds but `Interrupted`, after which a read is made again.
static KINDS: [ErrorKind; 41] = [
    ErrorKind::NotFound,
    ErrorKind::PermissionDenied,
    ErrorKind::ConnectionRefused,
    ErrorKind::ConnectionReset,
    ErrorKind::HostUnreachable,
    ErrorKind::NetworkUnreachable,
    ErrorKind::ConnectionAborted,
    ErrorKind::NotConnected,
    ErrorKind::AddrInUse,
    ErrorKind::AddrNotAvailable,
    ErrorKind::NetworkDown,
    ErrorKind::BrokenPipe,
    ErrorKind::AlreadyExists,
    ErrorKind::WouldBlock,
    ErrorKind::NotADirectory,
    ErrorKind::IsADirectory,
    ErrorKind::DirectoryNotEmpty,
    ErrorKind::ReadOnlyFilesystem,
    ErrorKind::FilesystemLoop,
    ErrorKind::StaleNetworkFileHandle,
    ErrorKind::InvalidInput,
    ErrorKind::InvalidData,
    ErrorKind::TimedOut,
    ErrorKind::WriteZero,
    ErrorKind::StorageFull,
    ErrorKind::NotSeekable,
    ErrorKind::QuotaExceeded,
    ErrorKind::FileTooLarge,
    ErrorKind::ResourceBusy,
    ErrorKind::ExecutableFileBusy,
    ErrorKind::Deadlock,
    ErrorKind::CrossesDevices,
    ErrorKind::TooManyLinks,
    ErrorKind::InvalidFilename,
    ErrorKind::ArgumentListTooLong,
    ErrorKind::Unsupported,
    ErrorKind::UnexpectedEof,
    ErrorKind::OutOfMemory,
    ErrorKind::InProgress,
    ErrorKind::Other,
    ErrorKind::Uncategorized,
];

// A stream whose read fails by an error of a kind, after some lines, ends by that kind.
#[test]
fn kinds_of_failed_reads(rt: HostRuntime) -> Result<(), Fail> {
    for (workers, size) in [(1, 1), (3, 1), (1, 4), (3, 4), (1, 100), (3, 100)] {
        for (number, kind) in KINDS.iter().enumerate() {
            let broken = Broken {
                rest: b"a\na\na\na\na\na\na\na\n".as_slice(),
                kind: *kind,
            };
            let (_rodeo, entries, ended) = encoded(&rt, broken, 2, rounds_of(workers, size))?;
            let is_kept = match ended {
                Err(StreamError::Read(error)) => error.kind() == *kind,
                _ => false,
            };
            is_so_at(&rt, is_kept && entries.len() == 8, number);
        }
    }
    Ok(())
}

// An odd line among many that are alike.
#[derive(Clone, Copy)]
enum Odd {
    Text,
    Null,
    NotText,
    Refused,
}

static ODD: [Odd; 4] = [Odd::Text, Odd::Null, Odd::NotText, Odd::Refused];

const LINES: usize = 40;

fn odd_line(odd: Odd) -> &'static [u8] {
    match odd {
        Odd::Text => b"b\n",
        Odd::Null => b"-\n",
        Odd::NotText => b"\xff\n",
        Odd::Refused => b"long\n",
    }
}

// Lines that are alike, with the odd one at this place.
fn lines_with(alloc: Global, odd: Odd, place: usize) -> Result<Vec<u8>, Fail> {
    let mut bytes = Vec::new(alloc);
    for line in 0..LINES {
        bytes.extend_from_slice(if line == place { odd_line(odd) } else { b"a\n" })?;
    }
    Ok(bytes)
}

fn ended_with(odd: Odd, place: usize) -> Ended {
    match odd {
        Odd::Text | Odd::Null => Ended::Well,
        Odd::NotText => Ended::NotText(place.saturating_add(1)),
        Odd::Refused => Ended::Refused(place.saturating_add(1)),
    }
}

// The entry of a line. A new text before all others has the code 0.
fn entry_at(odd: Odd, place: usize, line: usize) -> u32 {
    match odd {
        Odd::Null if line == place => NULL,
        Odd::Text if (line == place) == (place > 0) => 1,
        _ => 0,
    }
}

// Most lines are alike, so the blocks are encoded in rounds. The entries go up to the odd line if that ends them.
#[test]
fn an_odd_line_in_each_block(rt: HostRuntime) -> Result<(), Fail> {
    for odd in &ODD {
        for (workers, size) in [(2, 3), (5, 1), (5, 10)] {
            for place in 0..LINES {
                let bytes = lines_with(rt.alloc(), *odd, place)?;
                let (_rodeo, entries, ended) = encoded(
                    &rt,
                    bytes.as_slice(),
                    5,
                    rounds_of(workers, size),
                )?;
                is_so_at(&rt, ends(ended, ended_with(*odd, place))?, place);
                let count = match odd {
                    Odd::Text | Odd::Null => LINES,
                    Odd::NotText | Odd::Refused => place,
                };
                is_so_at(&rt, entries.len() == count, place);
                for (line, entry) in entries.iter().enumerate() {
                    is_so_at(&rt, *entry == entry_at(*odd, place, line), place);
                }
            }
        }
    }
    Ok(())
}

// Streams that take thousands of rounds, and blocks that take thousands of reads.

// Whether all of this number of empty lines are encoded, by reads of a byte.
fn are_encoded(rt: &impl Host, lines: usize, rounds: Rounds) -> Result<bool, Fail> {
    let mut bytes = Vec::new(rt.alloc());
    bytes.resize(lines, b'\n')?;
    let (_rodeo, entries, ended) = encoded(rt, bytes.as_slice(), 1, rounds)?;
    Ok(ended.is_ok() && entries.len() == lines)
}

// Blocks of two lines: that of the byte, and one more.
fn blocks_of_two(workers: usize, alone: usize) -> Rounds {
    Rounds {
        workers,
        first_lines: 0,
        alone,
        smallest: 1,
        largest: 1,
        hasher: TextState::with_seed(5, 6),
    }
}

#[test]
fn thousands_of_rounds(rt: HostRuntime) -> Result<(), Fail> {
    let alone = are_encoded(&rt, 4000, blocks_of_two(1, 1))?;
    is_so(&rt, alone, "one thread");
    let shared = are_encoded(&rt, 400, blocks_of_two(2, 1))?;
    is_so(&rt, shared, "two threads");
    Ok(())
}

#[test]
fn a_block_of_thousands_of_reads(rt: HostRuntime) -> Result<(), Fail> {
    let alone = are_encoded(&rt, 15_000, blocks_of_two(1, 12_000))?;
    is_so(&rt, alone, "one block");
    Ok(())
}
