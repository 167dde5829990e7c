//! A reader that is not read again after its end.
ghost use Rattle.std.specs.Prelude.{◌≡◌, ◌<◌, [], length, IsTrue, Ok, false};
ghost use Rattle.std.specs.Option.{ForSome};
ghost use Rattle.std.specs.Io.{ReadsAtMost};
ghost use Rattle.std.specs.Io.KnownBytes.{ReadConsumes};

use std::io;
use std::io::Read;

/// Reads what the inner reader reads, until a read finds the end. After that the inner reader is not called
/// again: each read returns 0 bytes at once.
///
/// On a terminal, and in a file that grows, a read after the end may return more bytes. A user who ended the
/// input would be asked for another line.
#[derive(Drop)]
pub struct Fused<R: Read + Drop> {
    inner: R,
    has_ended: bool,
    ghost at_end: { IsTrue has_ended → ForSome (R.remaining inner) (λ bytes. bytes ≡ []) },
}

impl<R: Read + Drop> Fused<R> {
    /// A reader that has not found the end yet.
    pub fn new(inner: R) -> Self
        ensures inner { result.inner ≡ inner }
        ensures fresh { result.has_ended ≡ false }
    {
        Fused {
            inner,
            has_ended: false,
        }
    }

    /// Returns the inner reader.
    pub fn into_inner(self) -> R
        ensures { result ≡ self.inner }
    {
        let Fused {
            inner,
            has_ended: _,
        } = self;
        inner
    }
}

impl<R: Read + Drop> Read for Fused<R> {
    ghost remaining = { λ fused. R.remaining fused.inner };

    /// Reads some bytes. After a read of 0 bytes, nothing is read and nothing changes.
    ///
    /// # Errors
    /// Those of the inner reader. The end is not found then.
    #[tactic(auto, using(crate::proofs::AtEnd::end_by_cases, crate::proofs::AtEnd::end_by_equation))]
    fn read(&mut self, buf: &mut [u8]) -> io::Result<usize>
        ensures bound { ReadsAtMost result buf.new }
        ensures bytes { ReadConsumes (R.remaining self.old.inner) (R.remaining self.new.inner) result buf.new }
        ensures ended { IsTrue self.old.has_ended → (result ≡ Ok 0) × (self.new ≡ self.old) }
        ensures end { result ≡ Ok 0 → 0 < length buf.new → IsTrue self.new.has_ended }
    {
        if self.has_ended {
            return Ok(0);
        }
        let count = self.inner.read(buf)?;
        if count == 0 && !buf.is_empty() {
            self.has_ended = true;
        }
        Ok(count)
    }
}
