//! The engine: reads bytes and writes the report of their lines.
ghost use Rattle.std.specs.Prelude.{◌≡◌, ℕ, ◌+◌, ◌<◌, List, [], Some, Err, OnOk, IfErr};
ghost use Rattle.lasso_lines.specs.Stream.{OnlyGrows, Stays, Ended, Keeps, Writes};
ghost use Rattle.lasso_lines.specs.Report.{Ends, EndsFrom, held_by, first_bytes};
ghost use Rattle.lasso_lines.specs.Answer.{IsStreamFault, IsAnswerFault, last_lines, failed_reads, failed_writes};
ghost use Rattle.lasso_input.specs.Lines.{NoFeed};
ghost use Rattle.lasso_lines.specs.declared.fault.RunFault.TheVariants.{Usage, ReadFailed, WriteFailed};

use crate::answers::{LineRodeo, answer_counts};
use crate::fault::RunFault;
use crate::stream::{ByteReader, ByteWriter};
use crate::stretches::{answer_lines, answer_stretch};
use lasso_input::Stretch;
use lasso_parts::hasher::TextState;
use lasso_parts::util::{Capacity, MemoryLimits};
use lasso_single::batch::Batch;
use lasso_single::rodeo::Rodeo;
use std::sync::Wait;

/// Reads lines to the end of the input and writes their report: for each line the position of its text and
/// the line, and at the end the number of texts and of bytes. Writes the answers to all lines that end in
/// the reader's buffer, and only then consumes the buffer. Flushes before each read and before it returns,
/// unless a write failed. Never retries a failed read or write.
///
/// A line that is refused or is not UTF-8 ends the run after the answers to the lines before it. So does
/// out of memory at a line. Out of memory before the first line is reported as line 0, and nothing is
/// written. After a failed read or write, what was written is a prefix of the report. Hashes have the fixed seed.
pub fn run<R: AllocGlobal + Wait, I: ByteReader, O: ByteWriter>(
    rt: &R,
    reader: &mut I,
    writer: &mut O,
    limits: MemoryLimits,
) -> Result<(), RunFault>
    ensures report { (input : List ℕ) → I.left reader.old ≡ Some input →
        Writes O.delivered O.pending writer.old writer.new (λ part. Ends input limits part result) }
    ensures whole { OnOk result (Ended (I.left reader.old) (I.left reader.new)) }
    ensures reads { I.failures reader.new ≡ I.failures reader.old + failed_reads result }
    ensures writes { O.failures writer.new ≡ O.failures writer.old + failed_writes result }
    ensures nothing_pending { ¬ (result ≡ Err WriteFailed) → O.pending writer.new ≡ Some [] }
    ensures delivered { OnlyGrows (O.delivered writer.old) (O.delivered writer.new) }
    ensures no_usage { ¬ (result ≡ Err Usage) }
{
    run_with_hasher(rt, reader, writer, limits, TextState::new())
}

/// `run` with an interner that hashes by this seed: the report does not depend on it.
pub fn run_with_hasher<R: AllocGlobal + Wait, I: ByteReader, O: ByteWriter>(
    rt: &R,
    reader: &mut I,
    writer: &mut O,
    limits: MemoryLimits,
    hasher: TextState,
) -> Result<(), RunFault>
    ensures report { (input : List ℕ) → I.left reader.old ≡ Some input →
        Writes O.delivered O.pending writer.old writer.new (λ part. Ends input limits part result) }
    ensures whole { OnOk result (Ended (I.left reader.old) (I.left reader.new)) }
    ensures reads { I.failures reader.new ≡ I.failures reader.old + failed_reads result }
    ensures writes { O.failures writer.new ≡ O.failures writer.old + failed_writes result }
    ensures nothing_pending { ¬ (result ≡ Err WriteFailed) → O.pending writer.new ≡ Some [] }
    ensures delivered { OnlyGrows (O.delivered writer.old) (O.delivered writer.new) }
    ensures no_usage { ¬ (result ≡ Err Usage) }
{
    let result = answer_input(rt, reader, writer, limits, hasher);
    if let Err(RunFault::ReadFailed | RunFault::WriteFailed) = result {
        return result;
    }
    flush_all(writer)?;
    result
}

// Writes the answers and then the counts. Flushes before each read; the caller flushes at the end.
fn answer_input<R: AllocGlobal + Wait, I: ByteReader, O: ByteWriter>(
    rt: &R,
    reader: &mut I,
    writer: &mut O,
    limits: MemoryLimits,
    hasher: TextState,
) -> Result<(), RunFault>
    ensures report { (input : List ℕ) → I.left reader.old ≡ Some input →
        Writes O.delivered O.pending writer.old writer.new (λ part. Ends input limits part result) }
    ensures whole { OnOk result (Ended (I.left reader.old) (I.left reader.new)) }
    ensures reads { I.failures reader.new ≡ I.failures reader.old + failed_reads result }
    ensures writes { O.failures writer.new ≡ O.failures writer.old + failed_writes result }
    ensures flushed { result ≡ Err ReadFailed → O.pending writer.new ≡ Some [] }
    ensures delivered { OnlyGrows (O.delivered writer.old) (O.delivered writer.new) }
    ensures no_usage { ¬ (result ≡ Err Usage) }
{
    let made = Rodeo::with_capacity_memory_limits_and_hasher(
        rt.alloc(),
        Capacity::default(),
        limits,
        hasher,
    );
    let mut rodeo = match made {
        Ok(rodeo) => rodeo,
        Err(error) => return Err(RunFault::Refused(0, error)),
    };
    let mut begun = Vec::new(rt.alloc());
    let mut batch = Batch::new();
    let mut number = 1u64;
    'stretches: for _ in rt.forever() {
        let buffer = reader.buffer();
        number = answer_stretch(
            rt, &mut rodeo, &mut batch, &mut begun, buffer, number, writer,
        )?;
        let count = buffer.len();
        reader.consume(count);
        ask_for_more(reader, writer)?;
        if reader.buffer().is_empty() {
            return answer_end(rt, &mut rodeo, &mut batch, &begun, number, writer);
        }
    }
    unreachable!()
}

// Flushes the writer, and then fills the reader's buffer if it is empty.
fn ask_for_more<I: ByteReader, O: ByteWriter>(
    reader: &mut I,
    writer: &mut O,
) -> Result<(), RunFault>
    ensures reads { I.failures reader.new ≡ I.failures reader.old + failed_reads result }
    ensures writes { O.failures writer.new ≡ O.failures writer.old + failed_writes result }
    ensures left { Stays (I.left reader.old) (I.left reader.new) }
    ensures end { OnOk result (I.at_hand reader.new ≡ [] → Ended (I.left reader.old) (I.left reader.new)) }
    ensures written { Keeps O.delivered O.pending writer.old writer.new }
    ensures delivered { OnlyGrows (O.delivered writer.old) (O.delivered writer.new) }
    ensures flushed { ¬ (result ≡ Err WriteFailed) → O.pending writer.new ≡ Some [] }
    ensures faults { IfErr result IsStreamFault }
{
    flush_all(writer)?;
    match reader.fill_buf() {
        Ok(()) => Ok(()),
        Err(_) => Err(RunFault::ReadFailed),
    }
}

// Writes the answer to the bytes after the last line feed, if there are any, and then the counts.
fn answer_end<R: Wait, O: ByteWriter>(
    rt: &R,
    rodeo: &mut LineRodeo,
    batch: &mut Batch,
    line: &[u8],
    number: u64,
    writer: &mut O,
) -> Result<(), RunFault>
    requires no_feed { NoFeed line.now }
    requires counted { 0 < number }
    requires first { rodeo.old.first ≡ first_bytes }
    ensures failures { O.failures writer.new ≡ O.failures writer.old + failed_writes result }
    ensures delivered { OnlyGrows (O.delivered writer.old) (O.delivered writer.new) }
    ensures answers { Writes O.delivered O.pending writer.old writer.new (λ part. EndsFrom (held_by rodeo.old) number (last_lines line.now) part result) }
    ensures faults { IfErr result IsAnswerFault }
{
    if line.is_empty() {
        return answer_counts(rodeo, writer);
    }
    answer_lines(rt, rodeo, batch, line, Stretch::new(&[]), number, writer)?;
    answer_counts(rodeo, writer)
}

// Flushes the writer: delivers every byte that it has taken.
pub(crate) fn flush_all<O: ByteWriter>(writer: &mut O) -> Result<(), RunFault>
    ensures failures { O.failures writer.new ≡ O.failures writer.old + failed_writes result }
    ensures delivered { OnlyGrows (O.delivered writer.old) (O.delivered writer.new) }
    ensures written { Keeps O.delivered O.pending writer.old writer.new }
    ensures all { OnOk result (O.pending writer.new ≡ Some []) }
    ensures faults { IfErr result (λ fault. fault ≡ WriteFailed) }
{
    match writer.flush() {
        Ok(()) => Ok(()),
        Err(_) => Err(RunFault::WriteFailed),
    }
}
