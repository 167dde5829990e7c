//! Writes the report: an answer to each line, and the counts at the end.
ghost use Rattle.std.specs.Prelude.{◌≡◌, ℕ, ◌+◌, ◌++◌, ◌∷◌, [], IfErr, decimal};
ghost use Rattle.lasso_lines.specs.Stream.{OnlyGrows, Writes};
ghost use Rattle.lasso_lines.specs.Report.{held_by, first_bytes, last_report};
ghost use Rattle.lasso_lines.specs.Answer.{AnswersLine, WritesAll, IsAnswerFault, failed_writes};
ghost use Rattle.lasso_lines.specs.declared.fault.RunFault.TheVariants.{WriteFailed};

use crate::fault::RunFault;
use crate::stream::ByteWriter;
use itoa::{Buffer, write_digits};
use lasso_input::Line;
use lasso_parts::keys::{Key, Spur};
use lasso_parts::util::FixedState;
use lasso_single::batch::{Batch, intern_next};
use lasso_single::rodeo::Rodeo;
use std::alloc::Global;

pub(crate) type LineRodeo = Rodeo<Spur, FixedState, Global>;

// Interns the line and writes its answer: the position of its text, a space, the line and a line feed. It is
// the next text of `batch`. `number` is the line's, for the fault. The interner's first bucket must have 4096
// bytes.
#[inline(always)]
pub(crate) fn answer_line<O: ByteWriter>(
    rodeo: &mut LineRodeo,
    line: &Line<'_>,
    batch: &mut Batch,
    number: u64,
    writer: &mut O,
) -> Result<(), RunFault>
    requires first { rodeo.old.first ≡ first_bytes }
    ensures first { rodeo.new.first ≡ first_bytes }
    ensures failures { O.failures writer.new ≡ O.failures writer.old + failed_writes result }
    ensures delivered { OnlyGrows (O.delivered writer.old) (O.delivered writer.new) }
    ensures answers { Writes O.delivered O.pending writer.old writer.new
        (λ part. AnswersLine (held_by rodeo.old) number line.now result (held_by rodeo.new) part) }
    ensures faults { IfErr result IsAnswerFault }
{
    let Ok(text) = line.text() else {
        return Err(RunFault::NotText(number));
    };
    match intern_next(rodeo, text, batch) {
        Ok(key) => write_answer(writer, key.into_usize(), line.bytes()),
        Err(error) => Err(RunFault::Refused(number, error)),
    }
}

// Writes the position, a space, the line and a line feed.
#[inline(always)]
fn write_answer<O: ByteWriter>(writer: &mut O, position: usize, line: &[u8]) -> Result<(), RunFault>
    ensures failures { O.failures writer.new ≡ O.failures writer.old + failed_writes result }
    ensures delivered { OnlyGrows (O.delivered writer.old) (O.delivered writer.new) }
    ensures bytes { Writes O.delivered O.pending writer.old writer.new (WritesAll (decimal position ++ (32 ∷ (line.now ++ 10 ∷ []))) result) }
    ensures faults { IfErr result (λ fault. fault ≡ WriteFailed) }
{
    // 20 bytes for the digits of the greatest position, and a space.
    let mut front = [b' '; 21];
    let start = write_digits(position as u64, &mut front, 20);
    write_line(writer, &front[start..], line)
}

// Writes the front, the line and a line feed, by `take_line` if the writer has room for all of them.
#[inline(always)]
pub(crate) fn write_line<O: ByteWriter>(
    writer: &mut O,
    front: &[u8],
    line: &[u8],
) -> Result<(), RunFault>
    ensures failures { O.failures writer.new ≡ O.failures writer.old + failed_writes result }
    ensures delivered { OnlyGrows (O.delivered writer.old) (O.delivered writer.new) }
    ensures bytes { Writes O.delivered O.pending writer.old writer.new (WritesAll (front.now ++ (line.now ++ 10 ∷ [])) result) }
    ensures faults { IfErr result (λ fault. fault ≡ WriteFailed) }
{
    if writer.take_line(front, line) {
        return Ok(());
    }
    write_parts(writer, front, line)
}

// Writes the front, the line and a line feed one after another.
#[cold]
fn write_parts<O: ByteWriter>(writer: &mut O, front: &[u8], line: &[u8]) -> Result<(), RunFault>
    ensures failures { O.failures writer.new ≡ O.failures writer.old + failed_writes result }
    ensures delivered { OnlyGrows (O.delivered writer.old) (O.delivered writer.new) }
    ensures bytes { Writes O.delivered O.pending writer.old writer.new (WritesAll (front.now ++ (line.now ++ 10 ∷ [])) result) }
    ensures faults { IfErr result (λ fault. fault ≡ WriteFailed) }
{
    write_all(writer, front)?;
    write_all(writer, line)?;
    write_all(writer, b"\n")
}

// Writes the counts: the number of texts, and the bytes of their buckets.
pub(crate) fn answer_counts<O: ByteWriter>(
    rodeo: &LineRodeo,
    writer: &mut O,
) -> Result<(), RunFault>
    ensures failures { O.failures writer.new ≡ O.failures writer.old + failed_writes result }
    ensures delivered { OnlyGrows (O.delivered writer.old) (O.delivered writer.new) }
    ensures bytes { Writes O.delivered O.pending writer.old writer.new (WritesAll (last_report (held_by rodeo.now)) result) }
    ensures faults { IfErr result (λ fault. fault ≡ WriteFailed) }
{
    write_number(writer, rodeo.len())?;
    write_all(writer, b" texts, ")?;
    write_number(writer, rodeo.current_memory_usage())?;
    write_all(writer, b" bytes\n")
}

// Writes the number in decimal.
fn write_number<O: ByteWriter>(writer: &mut O, number: usize) -> Result<(), RunFault>
    ensures failures { O.failures writer.new ≡ O.failures writer.old + failed_writes result }
    ensures delivered { OnlyGrows (O.delivered writer.old) (O.delivered writer.new) }
    ensures bytes { Writes O.delivered O.pending writer.old writer.new (WritesAll (decimal number) result) }
    ensures faults { IfErr result (λ fault. fault ≡ WriteFailed) }
{
    let mut digits = Buffer::new();
    write_all(writer, digits.format(number).as_bytes())
}

// Writes all of the bytes, by several calls if needed. Stops at the first failed call.
pub(crate) fn write_all<O: ByteWriter>(writer: &mut O, bytes: &[u8]) -> Result<(), RunFault>
    ensures failures { O.failures writer.new ≡ O.failures writer.old + failed_writes result }
    ensures delivered { OnlyGrows (O.delivered writer.old) (O.delivered writer.new) }
    ensures bytes { Writes O.delivered O.pending writer.old writer.new (WritesAll bytes.now result) }
    ensures faults { IfErr result (λ fault. fault ≡ WriteFailed) }
{
    let mut rest = bytes;
    while !rest.is_empty() {
        match writer.write(rest) {
            Ok(count) => rest = &rest[count..],
            Err(_) => return Err(RunFault::WriteFailed),
        }
    }
    Ok(())
}
