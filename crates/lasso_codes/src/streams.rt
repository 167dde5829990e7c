//! A buffered reader and a buffered writer that count their failed calls, and keep the error of the last one.
//!
//! No contract can say that a call of the inner reader or writer returned an error. So each of the two types
//! counts the errors that it gets, in one method, `failed`, and only the methods of this file can call it: the
//! others see the counts and the error by their contracts, and can't change them.
ghost use Rattle.std.specs.Prelude.{◌≡◌, ◌+◌, ◌<◌, ◌≤◌, ℕ, All, List, ◌++◌, None, Some, IfOk, Err, IfErr, IfSome, OnOk, OnErr, [], drop, length, vec_len};
ghost use Rattle.std.specs.Io.{WritesAtMost};
ghost use Rattle.std.specs.Io.BufRead.{DropsThrough, take_through};
ghost use Rattle.std.specs.Io.Buffered.{reader_buffer, reader_remaining, writer_buffer, writer_contents};
ghost use Rattle.std.specs.Io.KnownBytes.{IsAtEnd, Keeps, WriteAppends, append_known, prepend_known};
ghost use Rattle.std.specs.IoError.{error_kind};
ghost use Rattle.hex.specs.Hex.{IsBytes};
ghost use Rattle.lasso_input.specs.Lines.{lines_of};
ghost use Rattle.lasso_columns.specs.Rows.{word_of, EncodesRows};
ghost use Rattle.lasso_columns.specs.Steps.{AreLeft, AreLeftAfter, EncodesFirst};
ghost use Rattle.lasso_columns.specs.Texts.{texts_by};
ghost use Rattle.lasso_columns.specs.declared.line_texts.LineTexts.TheVariants.{OfBytes};
ghost use Rattle.lasso_codes.specs.Counts.{StopsRound};
ghost use Rattle.lasso_codes.specs.Encode.{StopsEncoding};
ghost use Rattle.lasso_codes.specs.Errors.{failed_reads, failed_writes, gone_readers, IsInputError, IsReadError, IsWriteError};
ghost use Rattle.lasso_codes.specs.Streams.{IfKnown, LosesPart, TakesByte};
ghost use Rattle.lasso_columns.specs.declared.faults.LineError.TheVariants.{Refused};
ghost use Rattle.lasso_parts.specs.declared.util.LassoErrorKind.TheVariants.{FailedAllocation};

use crate::error::RunError;
use crate::lines::TextRule;
use lasso_columns::{LineTexts, Rounds, SpurRodeo, StreamEncoder, StreamError, encode_stream_by};
use lasso_input::failures::Failures;
use std::io;
use std::io::{BufRead, BufReader, BufWriter, ErrorKind, Read, Write};
use std::marker::Model;
use std::thread::Threads;

/// A reader with a buffer, which counts its failed reads.
///
/// A read fails if the inner reader returns an error. Two errors are no failed read: `Interrupted`, after
/// which the read is tried again, and out of memory, which may be that of the line that is read into.
#[derive(Drop)]
pub struct Input<R: Read + Drop> {
    inner: BufReader<R>,
    failures: Failures,
    // The error of the last failed read.
    cause: Option<io::Error>,
}

impl<R: Read + Drop> Model for Input<R> {
    ghost use Rattle.std.specs.Io.Buffered.{reader_buffer, reader_remaining};
    ghost use Rattle.lasso_codes.specs.Views.{InputView};

    ghost Value = { InputView };

    ghost view = { λ r. record {
      at_hand = reader_buffer r.inner;
      left = reader_remaining R.remaining r.inner;
      failures = r.failures.count;
      cause = r.cause;
    } };
}

impl<R: Read + Drop> Input<R> {
    /// A reader with no failed read.
    pub fn new(inner: BufReader<R>) -> Self
        ensures at_hand { result.at_hand ≡ reader_buffer inner }
        ensures left { result.left ≡ reader_remaining R.remaining inner }
        ensures failures { result.failures ≡ 0 }
        ensures cause { result.cause ≡ None }
    {
        Input {
            inner,
            failures: Failures::none(),
            cause: None,
        }
    }

    /// The error of the last failed read, if one failed.
    pub fn cause(&self) -> Option<io::Error>
        ensures { result ≡ self.now.cause }
    {
        self.cause
    }

    /// Returns the inner reader. The bytes in the buffer are lost.
    pub fn into_inner(self) -> R
        ensures { (bytes : List ℕ) → self.left ≡ Some bytes → prepend_known self.at_hand (R.remaining result) ≡ Some bytes }
    {
        let Input {
            inner,
            failures: _,
            cause: _,
        } = self;
        inner.into_inner()
    }

    /// The bytes in the buffer: the next bytes of the input, without reading.
    #[inline]
    pub fn buffered(&self) -> &[u8]
        ensures value { result.now ≡ self.now.at_hand }
        ensures first { (bytes : List ℕ) → self.now.left ≡ Some bytes → (later : List ℕ) × (bytes ≡ result.now ++ later) }
    {
        self.inner.buffer()
    }

    /// Removes the first `count` bytes from the buffer.
    pub fn consume(&mut self, count: usize)
        requires { count ≤ length self.old.at_hand }
        ensures left { (later : List ℕ) → self.old.left ≡ Some (self.old.at_hand ++ later) →
            self.new.left ≡ Some (drop count self.old.at_hand ++ later) }
        ensures reads { self.new.failures ≡ self.old.failures }
    {
        self.inner.consume(count);
    }

    /// Reads the bytes up to the next line feed, and the line feed, into `line`. Returns their number, which is
    /// 0 only at the end of the input.
    ///
    /// # Errors
    /// The reader failed, or out of memory at the line with this number.
    pub fn read_until(&mut self, line: &mut Vec<u8>, number: usize) -> Result<usize, RunError>
        ensures ok { IfOk result (λ n. vec_len line.new ≡ vec_len line.old + n) }
        ensures bytes { OnOk result (IfSome self.old.left (λ xs. line.new.items ≡ line.old.items ++ take_through 10 xs)) }
        ensures rest { OnOk result (DropsThrough self.old.left self.new.left 10) }
        ensures end { IfOk result (λ n. n ≡ 0 → IsAtEnd self.old.left) }
        ensures lost { OnErr result (LosesPart self.old.left self.new.left) }
        ensures errors { IfErr result (IsReadError number) }
        ensures reads { self.new.failures ≡ self.old.failures + failed_reads result }
    {
        match self.inner.read_until(b'\n', line) {
            Ok(count) => Ok(count),
            Err(error) => Err(self.failed_unless_full(&error, number)),
        }
    }

    /// Encodes the lines that are left by up to `workers` threads, as `lasso_columns::encode_stream_by` says.
    /// Appends an entry for each: its code, or `NULL`. `null` is the text of a null.
    ///
    /// # Errors
    /// A line that is refused or not let in; else the reader failed, or out of memory at the line after those
    /// that have entries.
    pub fn encode_stream<H: AllocGlobal + Threads + Sync>(
        &mut self,
        rt: &H,
        rule: TextRule,
        rodeo: &mut SpurRodeo,
        entries: &mut Vec<u32>,
        null: Option<&[u8]>,
        workers: usize,
    ) -> Result<(), RunError>
        ensures rows { OnOk result (IfKnown self.old.left (λ bytes.
            EncodesRows (word_of null.entry) rodeo.old (texts_by (OfBytes rule.only_utf8) (lines_of bytes)) [] entries.old.items rodeo.new entries.new.items)) }
        ensures bytes { OnOk result (IfKnown self.old.left (λ bytes. All IsBytes (lines_of bytes))) }
        ensures stops { IfErr result (λ error. IfKnown self.old.left (λ bytes.
            StopsEncoding rule.only_utf8 (word_of null.entry) rodeo.old (lines_of bytes) entries.old.items rodeo.new entries.new self.new.left error)) }
        ensures faults { IfErr result IsInputError }
        ensures reads { self.new.failures ≡ self.old.failures + failed_reads result }
    {
        let rounds = rounds_of(rule, workers);
        let by = LineTexts::OfBytes(rule.only_utf8);
        let outcome = encode_stream_by(rt, &mut self.inner, rodeo, null, entries, rounds, by);
        let Err(error) = outcome else {
            return Ok(());
        };
        match error {
            StreamError::Line(error) => Err(RunError::Line(error)),
            StreamError::Read(error) => Err(self.failed_unless_full(&error, entries.len() + 1)),
        }
    }

    /// Reads the first lines that are left, for rounds with up to `workers` threads.
    ///
    /// # Errors
    /// Out of memory. Nothing was read.
    pub fn stream_encoder(
        &mut self,
        rule: TextRule,
        workers: usize,
    ) -> Result<StreamEncoder, RunError>
        ensures by { IfOk result (λ encoder. encoder.by ≡ OfBytes rule.only_utf8) }
        ensures left { IfOk result (λ encoder. IfKnown self.old.left (λ bytes. AreLeft encoder self.new.left (lines_of bytes))) }
        ensures kept { OnErr result (self.new.left ≡ self.old.left) }
        ensures errors { IfErr result (IsReadError 1) }
        ensures reads { self.new.failures ≡ self.old.failures + failed_reads result }
    {
        let by = LineTexts::OfBytes(rule.only_utf8);
        match StreamEncoder::new(rule.alloc, &mut self.inner, rounds_of(rule, workers), by) {
            Ok(encoder) => Ok(encoder),
            Err(error) => Err(self.failed_unless_full(&error, 1)),
        }
    }

    /// Encodes the lines of the encoder's next round. `codes` has theirs afterwards, and no others. Returns whether
    /// more lines follow. `before` is the number of lines in earlier rounds.
    ///
    /// # Errors
    /// Those of `encode_stream`. Or there are more lines than `usize` can number.
    pub fn encode_round<H: AllocGlobal + Threads + Sync>(
        &mut self,
        rt: &H,
        encoder: &mut StreamEncoder,
        rodeo: &mut SpurRodeo,
        codes: &mut Vec<u32>,
        before: usize,
    ) -> Result<bool, RunError>
        ensures by { encoder.new.by ≡ encoder.old.by }
        ensures rows { IfOk result (λ goes_on. (lines : List (List ℕ)) → AreLeft encoder.old self.old.left lines →
            EncodesFirst encoder.old.by None rodeo.old lines [] rodeo.new codes.new.items (AreLeftAfter goes_on encoder.new self.new.left)) }
        ensures stops { IfErr result (λ error. (only : _) (lines : List (List ℕ)) → encoder.old.by ≡ OfBytes only → AreLeft encoder.old self.old.left lines →
            StopsRound before only rodeo.old lines rodeo.new codes.new self.new.left error) }
        ensures rounds { OnOk result (encoder.new.rounds_left < encoder.old.rounds_left) }
        ensures faults { IfErr result IsInputError }
        ensures reads { self.new.failures ≡ self.old.failures + failed_reads result }
    {
        codes.clear();
        let error = match encoder.encode_round(rt, &mut self.inner, rodeo, None, codes) {
            Ok(goes_on) => return Ok(goes_on),
            Err(error) => error,
        };
        let Some(number) = before.checked_add(codes.len() + 1) else {
            return Err(RunError::TooManyLines);
        };
        match error {
            StreamError::Line(error) => Err(RunError::Line(error.at_line(number))),
            StreamError::Read(error) => Err(self.failed_unless_full(&error, number)),
        }
    }

    /// Reads the next byte. `None` at the end of the input.
    ///
    /// # Errors
    /// The reader failed.
    pub fn next_byte(&mut self) -> Result<Option<u8>, RunError>
        ensures taken { IfOk result (TakesByte self.old.left self.new.left) }
        ensures kept { OnErr result (Keeps self.old.left self.new.left) }
        ensures errors { IfErr result (λ error. error ≡ RunError.ReadFailed) }
        ensures reads { self.new.failures ≡ self.old.failures + failed_reads result }
    {
        match read_byte(&mut self.inner) {
            Ok(byte) => Ok(byte),
            Err(error) => Err(self.failed(&error)),
        }
    }

    // The error of a read that failed with this error. Out of memory is an error of the line with this number,
    // and is not counted.
    fn failed_unless_full(&mut self, error: &io::Error, number: usize) -> RunError
        ensures errors { IsReadError number result }
        ensures read { ¬ (error_kind error.now ≡ ErrorKind.OutOfMemory) → result ≡ RunError.ReadFailed }
        ensures memory { error_kind error.now ≡ ErrorKind.OutOfMemory → result ≡ RunError.Line (Refused number FailedAllocation) }
        ensures reads { self.new.failures ≡ self.old.failures + failed_reads {X = ℕ} (Err result) }
        ensures cause { result ≡ RunError.ReadFailed → self.new.cause ≡ Some error.now }
        ensures left { self.new.left ≡ self.old.left }
    {
        if error.kind() == ErrorKind::OutOfMemory {
            return RunError::no_memory(number);
        }
        self.failed(error)
    }

    // Counts a read that failed with this error, keeps the error, and returns that of the run.
    fn failed(&mut self, error: &io::Error) -> RunError
        ensures error { result ≡ RunError.ReadFailed }
        ensures counted { self.new.failures ≡ self.old.failures + 1 }
        ensures cause { self.new.cause ≡ Some error.now }
        ensures left { self.new.left ≡ self.old.left }
    {
        self.failures = self.failures.and_one();
        self.cause = Some(*error);
        RunError::ReadFailed
    }
}

// Reads the next byte. A read that was interrupted is tried again, 2^64 - 1 times at most.
fn read_byte<R: Read + Drop>(inner: &mut BufReader<R>) -> io::Result<Option<u8>>
    ensures taken { IfOk result (TakesByte (reader_remaining R.remaining inner.old) (reader_remaining R.remaining inner.new)) }
    ensures kept { OnErr result (Keeps (reader_remaining R.remaining inner.old) (reader_remaining R.remaining inner.new)) }
    ensures retried { IfErr result (λ error. ¬ (error_kind error ≡ ErrorKind.Interrupted)) }
{
    let mut byte = [0];
    for _ in 0..u64::MAX {
        match inner.read(&mut byte) {
            Ok(0) => return Ok(None),
            Ok(_) => return Ok(Some(byte[0])),
            Err(error) if error.kind() == ErrorKind::Interrupted => {}
            Err(error) => return Err(error),
        }
    }
    Err(io::Error::from(ErrorKind::TimedOut))
}

/// A writer with a buffer, which counts its failed writes and flushes, and those of them that found the reader
/// of the output gone.
///
/// A call fails if the inner writer returns an error, or takes no byte. Its reader is gone if the error is a
/// broken pipe.
#[derive(Drop)]
pub struct Output<W: Write + Drop> {
    inner: BufWriter<W>,
    failures: Failures,
    gone: Failures,
    // The error of the last failed call.
    cause: Option<io::Error>,
}

impl<W: Write + Drop> Model for Output<W> {
    ghost use Rattle.std.specs.Io.Buffered.{writer_buffer, writer_contents};
    ghost use Rattle.lasso_codes.specs.Views.{OutputView};

    ghost Value = { OutputView };

    ghost view = { λ w. record {
      written = writer_contents W.contents w.inner;
      pending = writer_buffer w.inner;
      failures = w.failures.count;
      gone = w.gone.count;
      cause = w.cause;
    } };
}

impl<W: Write + Drop> Output<W> {
    /// A writer with no failed call.
    pub fn new(inner: BufWriter<W>) -> Self
        ensures written { result.written ≡ writer_contents W.contents inner }
        ensures pending { result.pending ≡ writer_buffer inner }
        ensures failures { result.failures ≡ 0 }
        ensures gone { result.gone ≡ 0 }
        ensures cause { result.cause ≡ None }
    {
        Output {
            inner,
            failures: Failures::none(),
            gone: Failures::none(),
            cause: None,
        }
    }

    /// The error of the last failed call, if one failed.
    pub fn cause(&self) -> Option<io::Error>
        ensures { result ≡ self.now.cause }
    {
        self.cause
    }

    /// Returns the inner writer, and the bytes in the buffer. Nothing is written.
    pub fn into_parts(self) -> (W, Vec<u8>)
        ensures written { append_known (W.contents result.0) result.1.items ≡ self.written }
        ensures pending { result.1.items ≡ self.pending }
    {
        let Output {
            inner,
            failures: _,
            gone: _,
            cause: _,
        } = self;
        inner.into_parts()
    }

    /// Writes some of the bytes, which must not be empty, and at least one. Returns their number. A write that
    /// was interrupted is tried again.
    ///
    /// # Errors
    /// The writer failed, or its reader is gone. None of the bytes was written.
    #[inline(always)]
    pub fn write(&mut self, bytes: &[u8]) -> Result<usize, RunError>
        requires { 0 < length bytes.now }
        ensures bytes { WriteAppends self.old.written self.new.written result bytes.now }
        ensures count { IfOk result (λ n. n ≤ length bytes.now) }
        ensures progress { IfOk result (λ n. 0 < n) }
        ensures errors { IfErr result IsWriteError }
        ensures writes { self.new.failures ≡ self.old.failures + failed_writes result }
        ensures gone { self.new.gone ≡ self.old.gone + gone_readers result }
    {
        match write_some(&mut self.inner, bytes) {
            Ok(0) => Err(self.failed(&io::Error::from(ErrorKind::WriteZero))),
            Ok(count) => Ok(count),
            Err(error) => Err(self.failed(&error)),
        }
    }

    /// Writes the buffered bytes to the inner writer, and flushes that.
    ///
    /// # Errors
    /// The writer failed, or its reader is gone. Bytes that were not written stay in the buffer.
    pub fn flush(&mut self) -> Result<(), RunError>
        ensures kept { Keeps self.old.written self.new.written }
        ensures all { OnOk result (self.new.pending ≡ []) }
        ensures errors { IfErr result IsWriteError }
        ensures writes { self.new.failures ≡ self.old.failures + failed_writes result }
        ensures gone { self.new.gone ≡ self.old.gone + gone_readers result }
    {
        match self.inner.flush() {
            Ok(()) => Ok(()),
            Err(error) => Err(self.failed(&error)),
        }
    }

    // Counts a write or a flush that failed with this error, keeps the error, and returns that of the run.
    fn failed(&mut self, error: &io::Error) -> RunError
        ensures errors { IsWriteError result }
        ensures pipe { error_kind error.now ≡ ErrorKind.BrokenPipe → result ≡ RunError.ReaderGone }
        ensures other { ¬ (error_kind error.now ≡ ErrorKind.BrokenPipe) → result ≡ RunError.WriteFailed }
        ensures writes { self.new.failures ≡ self.old.failures + 1 }
        ensures gone { self.new.gone ≡ self.old.gone + gone_readers {X = ℕ} (Err result) }
        ensures cause { self.new.cause ≡ Some error.now }
        ensures written { self.new.written ≡ self.old.written }
        ensures pending { self.new.pending ≡ self.old.pending }
    {
        self.failures = self.failures.and_one();
        self.cause = Some(*error);
        if error.kind() == ErrorKind::BrokenPipe {
            self.gone = self.gone.and_one();
        }
        RunError::of_write(error)
    }
}

// Writes some of the bytes. A write that was interrupted is tried again, 2^64 - 1 times at most.
#[inline(always)]
fn write_some<W: Write + Drop>(inner: &mut BufWriter<W>, bytes: &[u8]) -> io::Result<usize>
    ensures bound { WritesAtMost result bytes.now }
    ensures bytes { WriteAppends (writer_contents W.contents inner.old) (writer_contents W.contents inner.new) result bytes.now }
    ensures retried { IfErr result (λ error. ¬ (error_kind error ≡ ErrorKind.Interrupted)) }
{
    for _ in 0..u64::MAX {
        match inner.write(bytes) {
            Ok(count) => return Ok(count),
            Err(error) if error.kind() == ErrorKind::Interrupted => {}
            Err(error) => return Err(error),
        }
    }
    Err(io::Error::from(ErrorKind::TimedOut))
}

// The usual rounds of this number of workers, which hash by the seed of the run.
fn rounds_of(rule: TextRule, workers: usize) -> Rounds {
    let mut rounds = Rounds::new(workers);
    rounds.hasher = rule.hasher;
    rounds
}
