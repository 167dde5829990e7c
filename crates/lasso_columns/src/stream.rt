//! Encodes the lines of a stream by rounds over blocks of it.
ghost use Rattle.std.specs.Prelude.{◌≡◌, ◌<◌, ℕ, List, [], Some, OnErr, OnOk, IfErr, IfOk};
ghost use Rattle.lasso_columns.specs.Rows.{word_of, EncodesRows};
ghost use Rattle.lasso_columns.specs.Steps.{AreLeft, AreLeftAfter, EncodesFirst, stream_error_at};
ghost use Rattle.lasso_columns.specs.Streams.{AreBytesBy, StopsInStream, StopsInStreamBy};
ghost use Rattle.lasso_columns.specs.Texts.{texts_by};
ghost use Rattle.lasso_input.specs.Lines.{lines_of};
ghost use Rattle.lasso_parts.specs.TextHash.{seeded};

use crate::ahead::Ahead;
use crate::faults::LineError;
use crate::interners::SpurRodeo;
use crate::line_texts::LineTexts;
use lasso_parts::hasher::TextState;
use std::alloc::Global;
use std::error::Error;
use std::io::BufRead;
use std::marker::Model;
use std::thread::Threads;
use std::{fmt, io};

// How many lines the caller's thread encodes alone by default: for fewer lines other threads cost more than they
// save.
const FIRST_LINES: usize = 1_000_000;

/// How a stream is split into blocks for several threads. The sizes are in bytes; 0 counts as 1. A block has its
/// size or up to 64 KiB more, and goes on to the end of a line. The last block of a round is smaller by a sixth
/// for each worker.
#[derive(Clone, Copy, Debug, PartialEq, Eq)]
pub struct Rounds {
    /// How many threads encode in a round, each a block; the caller's thread is one of them. With 0 or 1 it
    /// encodes all.
    pub workers: usize,
    /// How many lines the caller's thread encodes before another thread starts. It also encodes the rest of their
    /// block, and the next block.
    pub first_lines: usize,
    /// The bytes of a block that the caller's thread encodes.
    pub alone: usize,
    /// The bytes of a block of the first round. Each round doubles them.
    pub smallest: usize,
    /// The bytes of a block of a later round at most.
    pub largest: usize,
    /// The seed by which the threads' interners hash.
    pub hasher: TextState,
}

impl Rounds {
    /// Blocks of 64 KiB to 2 MiB or up to 64 KiB more, for this number of workers, which start after 1,000,000 lines and
    /// hash with the fixed seed.
    pub fn new(workers: usize) -> Self
        ensures workers { result.workers ≡ workers }
        ensures first_lines { result.first_lines ≡ 1000000 }
        ensures alone { result.alone ≡ 262144 }
        ensures smallest { result.smallest ≡ 65536 }
        ensures largest { result.largest ≡ 2097152 }
        ensures hasher { result.hasher ≡ seeded 0 0 }
    {
        Rounds {
            workers,
            first_lines: FIRST_LINES,
            alone: 262_144,
            smallest: 65_536,
            largest: 2_097_152,
            hasher: TextState::new(),
        }
    }
}

/// Why the lines of a stream were not all encoded.
#[derive(Debug, Drop)]
pub enum StreamError {
    /// A line was refused or is not UTF-8.
    Line(LineError),
    /// A read failed, or there was no memory for what is read.
    Read(io::Error),
}

impl StreamError {
    /// This error; if it is that of a line, of the line with this number.
    pub fn at_line(self, number: usize) -> Self
        ensures { result ≡ stream_error_at self number }
    {
        match self {
            StreamError::Line(error) => StreamError::Line(error.at_line(number)),
            StreamError::Read(error) => StreamError::Read(error),
        }
    }
}

impl fmt::Display for StreamError {
    fn fmt<W: fmt::Write>(&self, f: &mut fmt::Formatter<W>) -> fmt::Result {
        match self {
            StreamError::Line(error) => write!(f, "{error}"),
            StreamError::Read(error) => write!(f, "{error}"),
        }
    }
}

impl Error for StreamError {}

/// Encodes the lines of a stream round by round, so that the entries of a round can be used before the next one.
/// `encode_stream_by` is a loop of its rounds.
///
/// It has read the lines of the next round ahead. So between rounds nothing else may read from the input.
///
/// ```rust
/// let mut rodeo: SpurRodeo = Rodeo::default(rt.alloc())?;
/// let mut input = BufReader::new(rt.alloc(), b"to\nbe\nto\n".as_slice())?;
/// let (rounds, by) = (Rounds::new(4), LineTexts::Own);
/// let mut encoder = StreamEncoder::new(rt.alloc(), &mut input, rounds, by)?;
/// let (mut entries, mut counts) = (Vec::new(rt.alloc()), Vec::new(rt.alloc()));
/// let mut goes_on = true;
/// while goes_on {
///     goes_on = encoder.encode_round(&rt, &mut input, &mut rodeo, None, &mut entries)?;
///     counts.resize(rodeo.len(), 0)?;
///     count_codes(&entries, &mut counts);
///     entries.clear();
/// }
/// assert!(rt; counts.as_slice() == [2, 1].as_slice());
/// ```
#[derive(Drop)]
pub struct StreamEncoder {
    ahead: Ahead,
    // how many rounds may follow
    rounds_left: u64,
}

impl Model for StreamEncoder {
    ghost use Rattle.std.specs.Prelude.{◌<◌, vec_len};
    ghost use Rattle.lasso_columns.specs.Steps.{EncoderView};
    ghost use Rattle.lasso_columns.specs.Streams.{lines_in};

    ghost Value = { EncoderView };

    ghost view = { λ e. record { by = e.ahead.by; ahead = lines_in e.ahead.read.blocks.items; more = e.ahead.read.more; rounds_left = e.rounds_left } };

    ghost invariant = { λ e. 0 < vec_len e.ahead.chunk };
}

impl StreamEncoder {
    /// Reads the first block of the input.
    ///
    /// # Errors
    /// Out of memory. Nothing was read.
    pub fn new<I: BufRead>(
        alloc: Global,
        input: &mut I,
        rounds: Rounds,
        by: LineTexts,
    ) -> io::Result<Self>
        ensures by { IfOk result (λ encoder. encoder.by ≡ by) }
        ensures left { IfOk result (λ encoder. (bytes : List ℕ) → I.remaining input.old ≡ Some bytes → AreLeft encoder (I.remaining input.new) (lines_of bytes)) }
        ensures kept { OnErr result (I.remaining input.new ≡ I.remaining input.old) }
    {
        let ahead = Ahead::new(alloc, input, rounds, by)?;
        Ok(StreamEncoder {
            ahead,
            rounds_left: u64::MAX,
        })
    }

    /// Encodes the lines of one round, as `encode_rows` does, and reads ahead those of the next. Returns whether more
    /// lines follow: if not, nothing is left in the input.
    ///
    /// # Errors
    /// Those of `encode_stream_by`, at which the lines before have their entries. But the number of a line is
    /// counted from the first line of this round.
    pub fn encode_round<R: AllocGlobal + Threads + Sync, I: BufRead>(
        &mut self,
        rt: &R,
        input: &mut I,
        rodeo: &mut SpurRodeo,
        null: Option<&[u8]>,
        entries: &mut Vec<u32>,
    ) -> Result<bool, StreamError>
        ensures by { self.new.by ≡ self.old.by }
        ensures rows { IfOk result (λ goes_on. (lines : List (List ℕ)) → AreLeft self.old (I.remaining input.old) lines →
            EncodesFirst self.old.by (word_of null.entry) rodeo.old lines entries.old.items rodeo.new entries.new.items
            (AreLeftAfter goes_on self.new (I.remaining input.new))) }
        ensures stops { IfErr result (λ error. (lines : List (List ℕ)) → AreLeft self.old (I.remaining input.old) lines →
            StopsInStreamBy self.old.by (word_of null.entry) rodeo.old lines entries.old.items rodeo.new entries.new (I.remaining input.new) error) }
        ensures rounds { OnOk result (self.new.rounds_left < self.old.rounds_left) }
    {
        if self.rounds_left == 0 {
            return Err(self.ahead.encode_last(rt.alloc(), rodeo, null, entries));
        }
        self.rounds_left -= 1;
        self.ahead.encode_round(rt, input, rodeo, null, entries)
    }
}

/// Encodes the lines that are left in the input, as `encode_rows` does, with up to `rounds.workers` threads. The
/// entries, the list and the error are the same, whatever their number.
///
/// The caller's thread encodes the first `rounds.first_lines` lines, the rest of their block, and the next block.
/// Then rounds follow: each worker encodes a block beside the interner, with a small interner for the texts that
/// it lacks. This thread is one of them: it reads the next blocks first, and its own block is smaller. It then
/// interns those texts in the order of the blocks, and appends the entries. It encodes the blocks after a round
/// or a block with mostly new texts, and a block whose worker ran out of memory.
///
/// After success nothing is left in the input. It stops at the first line that is refused or is not UTF-8
/// (`StreamError::Line`, with the line's number in this call, counted from 1), or at a read that
/// failed or had no memory (`StreamError::Read`). The lines before it are interned and have their entries: at
/// `Read`, all lines that were read as a whole. A bad line is reported even if a read after it failed. What was
/// read after the last encoded line is lost.
///
/// ```rust
/// let mut rodeo: SpurRodeo = Rodeo::default(rt.alloc())?;
/// let mut entries = Vec::new(rt.alloc());
/// let mut input = BufReader::new(rt.alloc(), b"to\n-\nbe\nto\n".as_slice())?;
/// encode_stream(&rt, &mut input, &mut rodeo, Some(b"-"), &mut entries, Rounds::new(4))?;
/// assert!(rt; entries.as_slice() == [0, NULL, 1, 0].as_slice());
/// ```
pub fn encode_stream<R: AllocGlobal + Threads + Sync, I: BufRead>(
    rt: &R,
    input: &mut I,
    rodeo: &mut SpurRodeo,
    null: Option<&[u8]>,
    entries: &mut Vec<u32>,
    rounds: Rounds,
) -> Result<(), StreamError>
    ensures rows { OnOk result ((bytes : List ℕ) → I.remaining input.old ≡ Some bytes →
        EncodesRows (word_of null.entry) rodeo.old (lines_of bytes) [] entries.old.items rodeo.new entries.new.items) }
    ensures end { OnOk result ((bytes : List ℕ) → I.remaining input.old ≡ Some bytes → I.remaining input.new ≡ Some []) }
    ensures stops { IfErr result (λ error. (bytes : List ℕ) → I.remaining input.old ≡ Some bytes →
        StopsInStream (word_of null.entry) rodeo.old (lines_of bytes) entries.old.items rodeo.new entries.new (I.remaining input.new) error) }
{
    encode_stream_by(rt, input, rodeo, null, entries, rounds, LineTexts::Own)
}

/// Encodes the lines that are left in the input, as `encode_stream` does, by the texts that `by` gives them. `null`
/// is the text of a null.
///
/// If lines are not their own texts and memory runs out for their texts, it stops with `StreamError::Read` of the
/// kind `OutOfMemory`: the lines before some line are interned and have their entries. If a read fails with an error
/// of another kind, these are all lines that were read as a whole.
///
/// ```rust
/// let mut rodeo: SpurRodeo = Rodeo::default(rt.alloc())?;
/// let mut entries = Vec::new(rt.alloc());
/// let mut input = BufReader::new(rt.alloc(), b"caf\xE9\n".as_slice())?;
/// let by = LineTexts::OfBytes(false);
/// encode_stream_by(&rt, &mut input, &mut rodeo, None, &mut entries, Rounds::new(4), by)?;
/// assert!(rt; rodeo.text_at(0) == "\u{10FFFF}636166e9");
/// ```
pub fn encode_stream_by<R: AllocGlobal + Threads + Sync, I: BufRead>(
    rt: &R,
    input: &mut I,
    rodeo: &mut SpurRodeo,
    null: Option<&[u8]>,
    entries: &mut Vec<u32>,
    rounds: Rounds,
    by: LineTexts,
) -> Result<(), StreamError>
    ensures rows { OnOk result ((bytes : List ℕ) → I.remaining input.old ≡ Some bytes →
        EncodesRows (word_of null.entry) rodeo.old (texts_by by (lines_of bytes)) [] entries.old.items rodeo.new entries.new.items) }
    ensures bytes { OnOk result ((bytes : List ℕ) → I.remaining input.old ≡ Some bytes → AreBytesBy by (lines_of bytes)) }
    ensures end { OnOk result ((bytes : List ℕ) → I.remaining input.old ≡ Some bytes → I.remaining input.new ≡ Some []) }
    ensures stops { IfErr result (λ error. (bytes : List ℕ) → I.remaining input.old ≡ Some bytes →
        StopsInStreamBy by (word_of null.entry) rodeo.old (lines_of bytes) entries.old.items rodeo.new entries.new (I.remaining input.new) error) }
{
    let start = entries.len();
    let mut encoder = match StreamEncoder::new(rt.alloc(), input, rounds, by) {
        Ok(encoder) => encoder,
        Err(error) => return Err(StreamError::Read(error)),
    };
    let mut goes_on = true;
    while goes_on {
        goes_on = match encoder.encode_round(rt, input, rodeo, null, entries) {
            Ok(goes_on) => goes_on,
            Err(error) => return Err(error.at_line(entries.len().saturating_sub(start) + 1)),
        };
    }
    Ok(())
}
