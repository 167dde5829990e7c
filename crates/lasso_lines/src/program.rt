//! The program, given its arguments, a reader and a writer.
ghost use Rattle.std.specs.Prelude.{◌≡◌, ℕ, ◌+◌, [], Option, Some, None, Err, OnOk, IfErr, map, string_bytes};
ghost use Rattle.lasso_lines.specs.Stream.{OnlyGrows, Ended, Keeps, Writes};
ghost use Rattle.lasso_lines.specs.Report.{Ends};
ghost use Rattle.lasso_lines.specs.Answer.{OnWriteFailed, WritesAll, failed_reads, failed_writes};
ghost use Rattle.lasso_lines.specs.Arguments.{SetWorkers, WithWorkers, WithoutWorkers, settings_of};
ghost use Rattle.lasso_lines.specs.LineFaults.{AreTexts, IsFaultOf};
ghost use Rattle.lasso_lines.specs.Explained.{IsExplainedBy};
ghost use Rattle.lasso_lines.specs.Ordered.{WritesOrdered, BeginsOrdered};
ghost use Rattle.lasso_lines.specs.declared.fault.RunFault.TheVariants.{Usage, WriteFailed};

use crate::answers::write_all;
use crate::arguments::{Settings, arguments};
use crate::engine::{flush_all, run_with_hasher};
use crate::fault::RunFault;
use crate::stream::{ByteReader, ByteWriter};
use crate::workers::{OpenGate, run_workers_with_hasher};
use lasso_parts::hasher::TextState;
use lasso_parts::util::MemoryLimits;
use std::sync::Wait;
use std::thread::Threads;

/// Parses the arguments, and runs over the reader's lines: `run_workers_with_hasher` if they set a number of workers,
/// else `run_with_hasher`. Returns `Usage` for wrong arguments; nothing is read or written then.
pub fn run_words<R: AllocGlobal + Threads + Wait + Sync, I: ByteReader, O: ByteWriter>(
    rt: &R,
    words: &[String],
    reader: &mut I,
    writer: &mut O,
    hasher: TextState,
) -> Result<(), RunFault>
    ensures usage { settings_of (map string_bytes words.now) ≡ None → (result ≡ Err Usage) × (reader.new ≡ reader.old) × (writer.new ≡ writer.old) }
    ensures report { WithoutWorkers words.now (I.left reader.old)
        (λ limit input. Writes O.delivered O.pending writer.old writer.new (λ part. Ends input limit part result)) }
    ensures nothing_written { (limit workers : ℕ) → SetWorkers words.now limit workers →
        IfErr result (λ fault. ¬ (fault ≡ WriteFailed) → Keeps O.delivered O.pending writer.old writer.new) }
    ensures fault { WithWorkers words.now (I.left reader.old) (λ _ lines. IfErr result (IsFaultOf lines)) }
    ensures refused { WithWorkers words.now (I.left reader.old) (λ limit lines. IfErr result (IsExplainedBy limit lines)) }
    ensures texts { WithWorkers words.now (I.left reader.old) (λ _ lines. OnOk result (AreTexts lines)) }
    ensures lines { WithWorkers words.now (I.left reader.old)
        (λ _ lines. OnOk result (Writes O.delivered O.pending writer.old writer.new (WritesOrdered lines))) }
    ensures begins { WithWorkers words.now (I.left reader.old)
        (λ _ lines. OnWriteFailed result (Writes O.delivered O.pending writer.old writer.new (BeginsOrdered lines))) }
    ensures whole { OnOk result (Ended (I.left reader.old) (I.left reader.new)) }
    ensures reads { I.failures reader.new ≡ I.failures reader.old + failed_reads result }
    ensures writes { O.failures writer.new ≡ O.failures writer.old + failed_writes result }
    ensures delivered { OnlyGrows (O.delivered writer.old) (O.delivered writer.new) }
    ensures no_usage { (settings : ℕ × Option ℕ) → settings_of (map string_bytes words.now) ≡ Some settings → ¬ (result ≡ Err Usage) }
    ensures nothing_pending { (settings : ℕ × Option ℕ) → settings_of (map string_bytes words.now) ≡ Some settings
        → ¬ (result ≡ Err WriteFailed) → O.pending writer.new ≡ Some [] }
{
    match arguments(words) {
        Ok(
            Settings {
                limit,
                workers: None,
            },
        ) => run_with_hasher(rt, reader, writer, MemoryLimits::new(limit), hasher),
        Ok(
            Settings {
                limit,
                workers: Some(workers),
            },
        ) => run_workers_with_hasher(
            rt,
            reader,
            writer,
            MemoryLimits::new(limit),
            workers,
            &OpenGate,
            hasher,
        ),
        Err(fault) => Err(fault),
    }
}

/// Writes a help text, and flushes it. Returns `WriteFailed` if that fails; a prefix of the text was written then.
pub fn show<O: ByteWriter>(writer: &mut O, text: &str) -> Result<(), RunFault>
    ensures text { Writes O.delivered O.pending writer.old writer.new (WritesAll text.now result) }
    ensures writes { O.failures writer.new ≡ O.failures writer.old + failed_writes result }
    ensures nothing_pending { OnOk result (O.pending writer.new ≡ Some []) }
    ensures faults { IfErr result (λ fault. fault ≡ WriteFailed) }
{
    write_all(writer, text.as_bytes())?;
    flush_all(writer)
}
