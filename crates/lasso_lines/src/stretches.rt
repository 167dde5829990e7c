//! Writes the answers to the lines of a stretch: the bytes in a reader's buffer at one time.
ghost use Rattle.std.specs.Prelude.{◌≡◌, ℕ, ◌+◌, ◌<◌, ◌≤◌, ◌++◌, OnOk, IfOk, IfErr, length};
ghost use Rattle.lasso_lines.specs.Stream.{OnlyGrows, Writes};
ghost use Rattle.lasso_lines.specs.Report.{first_bytes};
ghost use Rattle.lasso_lines.specs.Answer.{IsAnswerFault, failed_writes};
ghost use Rattle.lasso_input.specs.Lines.{NoFeed};
ghost use Rattle.lasso_lines.specs.Stretch.{AnswersLines, AnswersStretch, last_of};
ghost use Rattle.lasso_lines.specs.declared.fault.RunFault.TheVariants.{Refused};
ghost use Rattle.lasso_parts.specs.declared.util.LassoErrorKind.TheVariants.{FailedAllocation};

use crate::answers::{LineRodeo, answer_line};
use crate::fault::RunFault;
use crate::stream::ByteWriter;
use lasso_input::{Line, Stretch};
use lasso_single::batch::Batch;
use std::sync::Wait;

// Writes the answers to the lines that end in the buffer. The first one has the number `number` and begins
// with the bytes in `begun`. Leaves in `begun` the bytes after the last line feed, and returns the number
// of the line that they begin.
pub(crate) fn answer_stretch<R: Wait, O: ByteWriter>(
    rt: &R,
    rodeo: &mut LineRodeo,
    batch: &mut Batch,
    begun: &mut Vec<u8>,
    buffer: &[u8],
    number: u64,
    writer: &mut O,
) -> Result<u64, RunFault>
    requires no_feed { NoFeed begun.old.items }
    requires counted { 0 < number }
    requires first { rodeo.old.first ≡ first_bytes }
    ensures first { rodeo.new.first ≡ first_bytes }
    ensures failures { O.failures writer.new ≡ O.failures writer.old + failed_writes result }
    ensures delivered { OnlyGrows (O.delivered writer.old) (O.delivered writer.new) }
    ensures answers { Writes O.delivered O.pending writer.old writer.new
        (AnswersStretch rodeo.old number begun.old.items buffer.now rodeo.new begun.new.items result) }
    ensures held { OnOk result (NoFeed begun.new.items) }
    ensures counted { IfOk result (λ next. 0 < next) }
    ensures faults { IfErr result IsAnswerFault }
{
    let mut lines = Stretch::new(buffer);
    let Some(end) = lines.next_ended() else {
        hold(begun, buffer, number)?;
        return Ok(number);
    };
    hold(begun, end.bytes(), number)?;
    let rest = lines.rest();
    let (next, left) = answer_lines(rt, rodeo, batch, begun, lines, number, writer)?;
    begun.clear();
    hold(begun, &rest[rest.len() - left..], next)?;
    Ok(next)
}

// Writes the answers to the first line, which has this number, and to the lines that end in the stretch. Returns
// the number of the line after them, and how many bytes the stretch has of it. Every line of a run is answered by
// this loop, so that all that an answer takes is inlined into it.
pub(crate) fn answer_lines<'a, R: Wait, O: ByteWriter>(
    rt: &R,
    rodeo: &mut LineRodeo,
    batch: &mut Batch,
    first: &'a [u8],
    stretch: Stretch<'a>,
    number: u64,
    writer: &mut O,
) -> Result<(u64, usize), RunFault>
    requires line { NoFeed first.now }
    requires counted { 0 < number }
    requires first { rodeo.old.first ≡ first_bytes }
    ensures first { rodeo.new.first ≡ first_bytes }
    ensures failures { O.failures writer.new ≡ O.failures writer.old + failed_writes result }
    ensures delivered { OnlyGrows (O.delivered writer.old) (O.delivered writer.new) }
    ensures answers { Writes O.delivered O.pending writer.old writer.new
        (AnswersLines rodeo.old number first.now stretch.entry rodeo.new result) }
    ensures no_feed { IfOk result (λ r. NoFeed (last_of stretch.entry r.1)) }
    ensures left { IfOk result (λ r. r.1 ≤ length stretch.entry) }
    ensures counted { IfOk result (λ r. 0 < r.0) }
    ensures faults { IfErr result IsAnswerFault }
{
    let mut line = Line::untested(first);
    let mut lines = stretch;
    let mut number = number;
    'lines: loop {
        answer_line(rodeo, &line, batch, number, writer)?;
        number = next_number(rt, number);
        lines.look_ahead(rodeo, batch);
        let Some(next) = lines.next_ended() else {
            return Ok((number, lines.rest().len()));
        };
        line = next;
    }
}

// The number of the next line. Loops forever at the greatest number, which no run reaches.
#[inline]
pub(crate) fn next_number<R: Wait>(rt: &R, number: u64) -> u64
    ensures { result ≡ number + 1 }
{
    later_number(rt, number, 1)
}

// The number of the line that comes `lines` lines later. Waits forever past the greatest number, as `next_number` does.
#[inline]
pub(crate) fn later_number<R: Wait>(rt: &R, number: u64, lines: usize) -> u64
    ensures { result ≡ number + lines }
{
    if let Some(later) = number.checked_add(lines as u64) {
        return later;
    }
    for _ in rt.forever() {}
    unreachable!()
}

// Appends `bytes` to the unfinished line `number`. The only error is out of memory at that line.
pub(crate) fn hold(begun: &mut Vec<u8>, bytes: &[u8], number: u64) -> Result<(), RunFault>
    ensures held { OnOk result (begun.new.items ≡ begun.old.items ++ bytes.now) }
    ensures lacks { IfErr result (λ fault. (fault ≡ Refused number FailedAllocation) × (0 < length bytes.now)) }
{
    if begun.extend_from_slice(bytes).is_err() {
        return Err(RunFault::no_memory(number));
    }
    Ok(())
}
