//! Readers and writers of bytes. Their contracts say what happens to the bytes, if these are known, and
//! count the failed calls.
ghost use Rattle.std.specs.Prelude.{◌≡◌, ℕ, ◌+◌, ◌<◌, ◌≤◌, ◌↔◌, ◌++◌, ◌∷◌, List, [], false, IsTrue};
ghost use Rattle.std.specs.Prelude.{Option, Some, length, drop, IfOk, OnOk, vec_capacity};
ghost use Rattle.lasso_lines.specs.Stream.{OnlyGrows, Stays, Loses, ComeFirst, Ended, Keeps, Takes, Writes, failed_calls};

/// A call failed. The reader or writer has counted it.
#[derive(Clone, Copy, Debug, PartialEq, Eq)]
pub struct StreamError;

/// A reader with a buffer.
pub trait ByteReader {
    // the bytes in the buffer
    ghost at_hand: { Self → List ℕ };

    // all bytes that are left to read, those in the buffer first, where they are known
    ghost left: { Self → Option (List ℕ) };

    // the number of failed calls
    ghost failures: { Self → ℕ };

    /// The bytes in the buffer. They are the first of those left to read.
    fn buffer(&self) -> &[u8]
        ensures value { result.now ≡ at_hand self.now }
        ensures first { ComeFirst result.now (left self.now) };

    /// Reads more bytes into the buffer if it is empty. If it is still empty then, the input has ended. A
    /// failed call takes no byte from the input.
    fn fill_buf(&mut self) -> Result<(), StreamError>
        ensures failures { failures self.new ≡ failures self.old + failed_calls result }
        ensures left { Stays (left self.old) (left self.new) }
        ensures end { OnOk result (at_hand self.new ≡ [] → Ended (left self.old) (left self.new)) };

    /// Removes the first `count` bytes from the buffer, which must have them.
    fn consume(&mut self, count: usize)
        requires { count ≤ length (at_hand self.old) }
        ensures at_hand { at_hand self.new ≡ drop count (at_hand self.old) }
        ensures left { Loses count (left self.old) (left self.new) }
        ensures failures { failures self.new ≡ failures self.old };
}

/// A writer that may keep bytes pending before it delivers them.
pub trait ByteWriter {
    // the delivered bytes, where they are known
    ghost delivered: { Self → Option (List ℕ) };

    // the bytes that were taken and are not delivered yet, where they are known
    ghost pending: { Self → Option (List ℕ) };

    // the number of failed calls
    ghost failures: { Self → ℕ };

    // how many bytes `take_line` has room for
    ghost room: { Self → ℕ };

    /// Takes the front, the line and a line feed if there is room for all of them, and returns whether
    /// there was. If not, nothing changes. It never fails.
    fn take_line(&mut self, front: &[u8], line: &[u8]) -> bool
        ensures room { IsTrue result ↔ (length front.now + length line.now < room self.old) }
        ensures failures { failures self.new ≡ failures self.old }
        ensures delivered { OnlyGrows (delivered self.old) (delivered self.new) }
        ensures taken { IsTrue result → Writes delivered pending self.old self.new (λ part. part ≡ front.now ++ (line.now ++ 10 ∷ [])) }
        ensures refused { result ≡ false → self.new ≡ self.old };

    /// Takes some bytes from the front, at least one unless there are none, and returns how many. It may
    /// deliver bytes. A failed call may have taken some of the bytes, and loses no pending byte.
    fn write(&mut self, bytes: &[u8]) -> Result<usize, StreamError>
        ensures failures { failures self.new ≡ failures self.old + failed_calls result }
        ensures delivered { OnlyGrows (delivered self.old) (delivered self.new) }
        ensures written { Writes delivered pending self.old self.new (Takes bytes.now result) }
        ensures count { IfOk result (λ n. n ≤ length bytes.now) }
        ensures progress { IfOk result (λ n. 0 < length bytes.now → 0 < n) };

    /// Delivers all pending bytes. A failed call may have delivered some of them; the rest stay pending.
    fn flush(&mut self) -> Result<(), StreamError>
        ensures failures { failures self.new ≡ failures self.old + failed_calls result }
        ensures delivered { OnlyGrows (delivered self.old) (delivered self.new) }
        ensures written { Keeps delivered pending self.old self.new }
        ensures all { OnOk result (pending self.new ≡ Some []) };
}

// Appends the front, the line and a line feed to a buffer with room for them, for `take_line`.
#[inline]
pub(crate) fn push_line(buffer: &mut Vec<u8>, front: &[u8], line: &[u8])
    requires { length buffer.old.items + (length front.now + length line.now) < vec_capacity buffer.old }
    ensures items { buffer.new.items ≡ buffer.old.items ++ (front.now ++ (line.now ++ 10 ∷ [])) }
    ensures capacity { vec_capacity buffer.old ≤ vec_capacity buffer.new }
{
    let _front = buffer.extend_from_slice(front);
    let _line = buffer.extend_from_slice(line);
    buffer.push_reserved(b'\n');
}
