//! Writes bytes, lines and numbers.
ghost use Rattle.std.specs.Prelude.{◌≡◌, ◌+◌, ◌≤◌, ◌⊎◌, ◌++◌, ◌∷◌, [], Ok, Err, IfErr, decimal};
ghost use Rattle.std.specs.Io.KnownBytes.{Keeps};
ghost use Rattle.lasso_codes.specs.Streams.{Writes, WritesAll};
ghost use Rattle.lasso_codes.specs.Errors.{failed_writes, gone_readers, IsWriteError, IsWriteEnd};

use crate::error::RunError;
use crate::streams::Output;
use itoa::Buffer;
use std::io::Write;

/// Writes all of the bytes.
///
/// # Errors
/// The writer failed, or its reader is gone. A beginning of the bytes was written.
#[inline(always)]
pub fn write_bytes<W: Write + Drop>(output: &mut Output<W>, bytes: &[u8]) -> Result<(), RunError>
    ensures written { Writes output.old.written output.new.written (WritesAll bytes.now result) }
    ensures writes { output.new.failures ≡ output.old.failures + failed_writes result }
    ensures gone { output.new.gone ≡ output.old.gone + gone_readers result }
{
    let mut rest = bytes;
    while !rest.is_empty() {
        match output.write(rest) {
            Ok(count) => rest = &rest[count..],
            Err(error) => return Err(error),
        }
    }
    Ok(())
}

/// Writes the line and a line feed.
///
/// # Errors
/// As `write_bytes`.
pub fn write_line<W: Write + Drop>(output: &mut Output<W>, line: &[u8]) -> Result<(), RunError>
    ensures written { Writes output.old.written output.new.written (WritesAll (line.now ++ 10 ∷ []) result) }
    ensures writes { output.new.failures ≡ output.old.failures + failed_writes result }
    ensures gone { output.new.gone ≡ output.old.gone + gone_readers result }
{
    write_bytes(output, line)?;
    write_bytes(output, b"\n")
}

/// Writes the number's digits.
///
/// # Errors
/// As `write_bytes`.
pub fn write_number<W: Write + Drop>(output: &mut Output<W>, number: u64) -> Result<(), RunError>
    ensures written { Writes output.old.written output.new.written (WritesAll (decimal number) result) }
    ensures writes { output.new.failures ≡ output.old.failures + failed_writes result }
    ensures gone { output.new.gone ≡ output.old.gone + gone_readers result }
{
    let mut digits = Buffer::new();
    write_bytes(output, digits.format(number).as_bytes())
}

/// Ends a run: flushes the output, unless the run ended because a write failed. Returns how the run ended, or
/// the error of the flush. After another error, a reader that is gone is a failed write: `ReaderGone` is
/// returned only if nothing else failed.
pub fn end_flushed<W: Write + Drop>(
    output: &mut Output<W>,
    ended: Result<(), RunError>,
) -> Result<(), RunError>
    ensures kept { Keeps output.old.written output.new.written }
    ensures ends { (result ≡ ended) ⊎ IsWriteEnd result }
    ensures kept_error { IfErr ended (λ error. (result ≡ Err error) ⊎ (result ≡ Err RunError.WriteFailed)) }
    ensures no_flush { IsWriteEnd ended → (result ≡ ended) × (output.new ≡ output.old) }
    ensures writes { ¬ (IsWriteEnd ended) → output.new.failures ≡ output.old.failures + failed_writes result }
    ensures gone { ¬ (IsWriteEnd ended) → ¬ (result ≡ Err RunError.WriteFailed) → output.new.gone ≡ output.old.gone + gone_readers result }
    ensures gone_alone { ended ≡ Ok tt → output.new.gone ≡ output.old.gone + gone_readers result }
    ensures gone_most { output.new.gone ≤ output.old.gone + 1 }
    ensures flushed { ¬ (IsWriteEnd result) → output.new.pending ≡ [] }
{
    match ended {
        Ok(()) => output.flush(),
        Err(RunError::WriteFailed | RunError::ReaderGone) => ended,
        Err(_) => match output.flush() {
            Ok(()) => ended,
            Err(_) => Err(RunError::WriteFailed),
        },
    }
}
