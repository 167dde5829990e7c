//! Readers and writers of std, each with a large buffer.
ghost use Rattle.std.specs.Prelude.{◌≡◌, ℕ, ◌+◌, ◌-◌, ◌<◌, ◌≤◌, ◌↔◌, ◌++◌, ◌∷◌, [], false};
ghost use Rattle.std.specs.Prelude.{IsTrue, Some, IfOk, OnOk, drop, length, vec_capacity};
ghost use Rattle.lasso_lines.specs.Stream.{Grows, Stays, OnlyGrows, Takes, taken};

use crate::stream::{ByteReader, ByteWriter, StreamError, push_line};
use lasso_input::failures::Failures;
use std::alloc::{AllocError, Global};
use std::io::{BufRead, BufReader, Read, Write};
use std::marker::Model;

/// The size of a buffer in bytes.
pub const BUFFER: usize = 65536;

/// A reader of std with a buffer of 64 KiB.
#[derive(Drop)]
pub struct StandardReader<R: Read + Drop> {
    inner: BufReader<R>,
    failures: Failures,
}

impl<R: Read + Drop> Model for StandardReader<R> {
    ghost use Rattle.std.specs.Io.Buffered.{reader_buffer, reader_remaining};
    ghost use Rattle.lasso_lines.specs.Stream.{ReaderView};

    ghost Value = { ReaderView };

    ghost view = { λ r. record {
      at_hand = reader_buffer r.inner;
      left = reader_remaining R.remaining r.inner;
      failures = r.failures.count;
    } };
}

impl<R: Read + Drop> StandardReader<R> {
    /// A reader of `inner` with an empty buffer and no failed call. The only error is out of memory.
    pub fn new(alloc: Global, inner: R) -> Result<Self, AllocError>
        ensures at_hand { IfOk result (λ r. r.at_hand ≡ []) }
        ensures left { IfOk result (λ r. r.left ≡ R.remaining inner) }
        ensures failures { IfOk result (λ r. r.failures ≡ 0) }
    {
        let Ok(inner) = BufReader::with_capacity(alloc, BUFFER, inner) else {
            return Err(AllocError);
        };
        Ok(StandardReader {
            inner,
            failures: Failures::none(),
        })
    }
}

impl<R: Read + Drop> ByteReader for StandardReader<R> {
    ghost at_hand = { λ r. r.at_hand };

    ghost left = { λ r. r.left };

    ghost failures = { λ r. r.failures };

    fn buffer(&self) -> &[u8] {
        self.inner.buffer()
    }

    fn fill_buf(&mut self) -> Result<(), StreamError> {
        match self.inner.fill_buf() {
            Ok(_) => Ok(()),
            Err(_) => {
                self.failures = self.failures.and_one();
                Err(StreamError)
            }
        }
    }

    fn consume(&mut self, count: usize) {
        self.inner.consume(count);
    }
}

/// A writer of std with a buffer of 64 KiB.
#[derive(Drop)]
pub struct StandardWriter<W: Write + Drop> {
    outgoing: Outgoing<W>,
    failures: Failures,
}

impl<W: Write + Drop> Model for StandardWriter<W> {
    ghost use Rattle.std.specs.Prelude.{◌-◌, Some, drop, length};
    ghost use Rattle.lasso_lines.specs.Stream.{WriterView};

    ghost Value = { WriterView };

    ghost view = { λ w. record {
      delivered = W.contents w.outgoing.inner;
      pending = Some (drop w.outgoing.sent w.outgoing.buffer.items);
      failures = w.failures.count;
      room = 65536 - length w.outgoing.buffer.items;
    } };
}

impl<W: Write + Drop> StandardWriter<W> {
    /// A writer to `inner` with an empty buffer and no failed call. The only error is out of memory.
    pub fn new(alloc: Global, inner: W) -> Result<Self, AllocError>
        ensures delivered { IfOk result (λ w. w.delivered ≡ W.contents inner) }
        ensures pending { IfOk result (λ w. w.pending ≡ Some []) }
        ensures failures { IfOk result (λ w. w.failures ≡ 0) }
        ensures room { IfOk result (λ w. w.room ≡ 65536) }
    {
        let buffer = Vec::with_capacity(alloc, BUFFER)?;
        Ok(StandardWriter {
            outgoing: Outgoing {
                inner,
                buffer,
                sent: 0,
            },
            failures: Failures::none(),
        })
    }
}

impl<W: Write + Drop> ByteWriter for StandardWriter<W> {
    ghost delivered = { λ w. w.delivered };

    ghost pending = { λ w. w.pending };

    ghost failures = { λ w. w.failures };

    ghost room = { λ w. w.room };

    #[inline]
    fn take_line(&mut self, front: &[u8], line: &[u8]) -> bool {
        self.outgoing.take_line(front, line)
    }

    fn write(&mut self, bytes: &[u8]) -> Result<usize, StreamError> {
        let taken = self.outgoing.take(bytes);
        if taken.is_err() {
            self.failures = self.failures.and_one();
        }
        taken
    }

    fn flush(&mut self) -> Result<(), StreamError> {
        let flushed = self.outgoing.flush();
        if flushed.is_err() {
            self.failures = self.failures.and_one();
        }
        flushed
    }
}

// An inner writer and the buffer in front of it. The first `sent` bytes of the buffer are sent already.
#[derive(Drop)]
struct Outgoing<W: Write + Drop> {
    inner: W,
    buffer: Vec<u8>,
    sent: usize,
    ghost in_range: { sent ≤ length buffer.items },
    ghost fits: { length buffer.items ≤ 65536 },
    ghost capacity: { 65536 ≤ vec_capacity buffer },
}

impl<W: Write + Drop> Outgoing<W> {
    // Appends the front, the line and a line feed if the buffer has room for all of them, and returns
    // whether it had. If not, nothing changes.
    #[inline]
    fn take_line(&mut self, front: &[u8], line: &[u8]) -> bool
        ensures room { IsTrue result ↔ (length front.now + length line.now < 65536 - length self.old.buffer.items) }
        ensures inner { self.new.inner ≡ self.old.inner }
        ensures sent { self.new.sent ≡ self.old.sent }
        ensures taken { IsTrue result → self.new.buffer.items ≡ self.old.buffer.items ++ (front.now ++ (line.now ++ 10 ∷ [])) }
        ensures refused { result ≡ false → self.new ≡ self.old }
    {
        let fits = front.len() + line.len() < BUFFER - self.buffer.len();
        if fits {
            push_line(&mut self.buffer, front, line);
        }
        fits
    }

    // Appends the first of the bytes, those that fit, and returns how many. Sends a full buffer first.
    fn take(&mut self, bytes: &[u8]) -> Result<usize, StreamError>
        ensures delivered { OnlyGrows (W.contents self.old.inner) (W.contents self.new.inner) }
        ensures written { Grows (taken W.contents self.old.inner self.old.sent self.old.buffer)
            (taken W.contents self.new.inner self.new.sent self.new.buffer) (Takes bytes.now result) }
        ensures count { IfOk result (λ n. n ≤ length bytes.now) }
        ensures progress { IfOk result (λ n. 0 < length bytes.now → 0 < n) }
    {
        self.make_room()?;
        let count = bytes.len().min(BUFFER - self.buffer.len());
        match self.buffer.extend_from_slice(&bytes[..count]) {
            Ok(()) => Ok(count),
            Err(_) => Err(StreamError),
        }
    }

    // Sends the whole buffer, and flushes the inner writer.
    fn flush(&mut self) -> Result<(), StreamError>
        ensures delivered { OnlyGrows (W.contents self.old.inner) (W.contents self.new.inner) }
        ensures written { Stays (taken W.contents self.old.inner self.old.sent self.old.buffer)
            (taken W.contents self.new.inner self.new.sent self.new.buffer) }
        ensures all { OnOk result (drop self.new.sent self.new.buffer.items ≡ []) }
    {
        self.send()?;
        match self.inner.flush() {
            Ok(()) => Ok(()),
            Err(_) => Err(StreamError),
        }
    }

    // Sends the buffer if it is full.
    fn make_room(&mut self) -> Result<(), StreamError>
        ensures delivered { OnlyGrows (W.contents self.old.inner) (W.contents self.new.inner) }
        ensures written { Stays (taken W.contents self.old.inner self.old.sent self.old.buffer)
            (taken W.contents self.new.inner self.new.sent self.new.buffer) }
        ensures room { OnOk result (length self.new.buffer.items < 65536) }
    {
        if self.buffer.len() < BUFFER {
            return Ok(());
        }
        self.send()
    }

    // Writes the whole buffer to the inner writer. A write that takes no byte counts as failed. After a
    // failed write, the bytes that were not sent stay in the buffer.
    fn send(&mut self) -> Result<(), StreamError>
        ensures delivered { OnlyGrows (W.contents self.old.inner) (W.contents self.new.inner) }
        ensures written { Stays (taken W.contents self.old.inner self.old.sent self.old.buffer)
            (taken W.contents self.new.inner self.new.sent self.new.buffer) }
        ensures all { OnOk result (self.new.buffer.items ≡ []) }
    {
        while self.sent < self.buffer.len() {
            match self.inner.write(&self.buffer[self.sent..]) {
                Ok(0) | Err(_) => return Err(StreamError),
                Ok(count) => self.sent += count,
            }
        }
        self.sent = 0;
        self.buffer.clear();
        Ok(())
    }
}
