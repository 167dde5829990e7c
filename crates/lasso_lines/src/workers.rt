//! A run in which several threads intern the lines, and which writes the distinct lines in order.
ghost use Rattle.std.specs.Prelude.{◌≡◌, ℕ, ◌+◌, ◌<◌, List, [], Some, Err, OnOk, IfOk, IfErr};
ghost use Rattle.lasso_single.specs.Coding.{spur_at};
ghost use Rattle.lasso_input.specs.Lines.{lines_of};
ghost use Rattle.lasso_log.specs.History.{IsLegal};
ghost use Rattle.lasso_log.specs.Views.{PassView, InternerId, IsSamePass, list_of, seen};
ghost use Rattle.lasso_lines.specs.Stream.{OnlyGrows, Ended, Keeps, Writes};
ghost use Rattle.lasso_lines.specs.Answer.{IsLineFault, OnWriteFailed, failed_reads, failed_writes};
ghost use Rattle.lasso_lines.specs.Ordered.{WritesOrdered, BeginsOrdered};
ghost use Rattle.lasso_lines.specs.LineFaults.{AreTexts, IsFaultOf};
ghost use Rattle.lasso_lines.specs.Explained.{begun, IsExplainedIn, IsExplainedBy};
ghost use Rattle.lasso_lines.specs.Shares.{AreCodesOf};
ghost use Rattle.lasso_lines.specs.declared.fault.RunFault.TheVariants.{Usage, WriteFailed, Refused};
ghost use Rattle.lasso_parts.specs.declared.util.LassoErrorKind.TheVariants.{FailedAllocation};

use crate::cutting::{read_all, test_lines};
use crate::engine::flush_all;
use crate::expected::expected_texts;
use crate::fault::RunFault;
use crate::ordered::write_in_order;
use crate::shares::share_out;
use crate::stream::{ByteReader, ByteWriter};
use lasso_input::Stretch;
use lasso_log::log::Pass;
use lasso_parts::hasher::TextState;
use lasso_parts::keys::Spur;
use lasso_parts::util::{Capacity, MemoryLimits};
use lasso_shared::threaded::{SpurThreadedRodeo, ThreadedRodeo};
use std::alloc::Global;
use std::sync::Wait;
use std::thread::Threads;

/// What each worker calls before it interns a line.
pub trait Gate: Sync {
    /// Returns when the worker of this number may go on. Workers are numbered from 0.
    fn enter(&self, worker: usize);

    /// Whether `enter` returns at once for each worker at any time. If so, a worker may call it while it keeps
    /// others from interning, in its turn.
    fn is_open(&self) -> bool {
        false
    }
}

/// A gate that returns at once.
#[derive(Clone, Copy, Debug)]
pub struct OpenGate;

impl Gate for OpenGate {
    fn enter(&self, _worker: usize) {}

    fn is_open(&self) -> bool {
        true
    }
}

/// Reads the whole input, interns its lines with `workers` threads in one interner, and writes the distinct
/// lines in the order of their bytes, each followed by a line feed. Line i, from 0, goes to worker i modulo
/// `workers`; 0 workers count as one. One of the threads is the caller's. If a thread can't be started, the
/// thread that would have started it does its work. If memory runs out in one, the caller's thread interns all
/// lines once more, as worker 0 of 1, when the others have ended. Each worker calls the gate before each line.
/// All are joined before the lines are written.
///
/// The first line that is not UTF-8 ends the run before a worker starts. Each worker stops at its first
/// refused line, and the fault names the lowest of them. Out of memory at no line is reported as line 0. In
/// these cases, and after a failed read, nothing is written. After a failed write, what was written is a
/// beginning of the output. Never retries a failed read or write. Hashes have the fixed seed.
pub fn run_workers<R: AllocGlobal + Threads + Wait + Sync, I: ByteReader, O: ByteWriter, G: Gate>(
    rt: &R,
    reader: &mut I,
    writer: &mut O,
    limits: MemoryLimits,
    workers: usize,
    gate: &G,
) -> Result<(), RunFault>
    ensures whole { OnOk result (Ended (I.left reader.old) (I.left reader.new)) }
    ensures reads { I.failures reader.new ≡ I.failures reader.old + failed_reads result }
    ensures writes { O.failures writer.new ≡ O.failures writer.old + failed_writes result }
    ensures nothing_pending { ¬ (result ≡ Err WriteFailed) → O.pending writer.new ≡ Some [] }
    ensures delivered { OnlyGrows (O.delivered writer.old) (O.delivered writer.new) }
    ensures nothing_written { IfErr result (λ fault. ¬ (fault ≡ WriteFailed) → Keeps O.delivered O.pending writer.old writer.new) }
    ensures no_usage { ¬ (result ≡ Err Usage) }
    ensures fault { (input : List ℕ) → I.left reader.old ≡ Some input → IfErr result (IsFaultOf (lines_of input)) }
    ensures refused { (input : List ℕ) → I.left reader.old ≡ Some input → IfErr result (IsExplainedBy limits (lines_of input)) }
    ensures texts { (input : List ℕ) → I.left reader.old ≡ Some input → OnOk result (AreTexts (lines_of input)) }
    ensures lines { (input : List ℕ) → I.left reader.old ≡ Some input →
        OnOk result (Writes O.delivered O.pending writer.old writer.new (WritesOrdered (lines_of input))) }
    ensures begins { (input : List ℕ) → I.left reader.old ≡ Some input →
        OnWriteFailed result (Writes O.delivered O.pending writer.old writer.new (BeginsOrdered (lines_of input))) }
{
    let hasher = TextState::new();
    run_workers_with_hasher(rt, reader, writer, limits, workers, gate, hasher)
}

/// `run_workers` with an interner that hashes by this seed, which the workers share: what is written does not depend on it.
pub fn run_workers_with_hasher<
    R: AllocGlobal + Threads + Wait + Sync,
    I: ByteReader,
    O: ByteWriter,
    G: Gate,
>(
    rt: &R,
    reader: &mut I,
    writer: &mut O,
    limits: MemoryLimits,
    workers: usize,
    gate: &G,
    hasher: TextState,
) -> Result<(), RunFault>
    ensures whole { OnOk result (Ended (I.left reader.old) (I.left reader.new)) }
    ensures reads { I.failures reader.new ≡ I.failures reader.old + failed_reads result }
    ensures writes { O.failures writer.new ≡ O.failures writer.old + failed_writes result }
    ensures nothing_pending { ¬ (result ≡ Err WriteFailed) → O.pending writer.new ≡ Some [] }
    ensures delivered { OnlyGrows (O.delivered writer.old) (O.delivered writer.new) }
    ensures nothing_written { IfErr result (λ fault. ¬ (fault ≡ WriteFailed) → Keeps O.delivered O.pending writer.old writer.new) }
    ensures no_usage { ¬ (result ≡ Err Usage) }
    ensures fault { (input : List ℕ) → I.left reader.old ≡ Some input → IfErr result (IsFaultOf (lines_of input)) }
    ensures refused { (input : List ℕ) → I.left reader.old ≡ Some input → IfErr result (IsExplainedBy limits (lines_of input)) }
    ensures texts { (input : List ℕ) → I.left reader.old ≡ Some input → OnOk result (AreTexts (lines_of input)) }
    ensures lines { (input : List ℕ) → I.left reader.old ≡ Some input →
        OnOk result (Writes O.delivered O.pending writer.old writer.new (WritesOrdered (lines_of input))) }
    ensures begins { (input : List ℕ) → I.left reader.old ≡ Some input →
        OnWriteFailed result (Writes O.delivered O.pending writer.old writer.new (BeginsOrdered (lines_of input))) }
{
    let workers = workers.max(1);
    flush_all(writer)?;
    let mut input = Vec::new(rt.alloc());
    read_all(rt, reader, &mut input)?;
    let rodeo = new_interner(rt.alloc(), limits, &input, workers, hasher)?;
    let mut pass = rodeo.pass();
    let codes = intern_lines(rt, &rodeo, &mut pass, &input, workers, gate)?;
    drop(input);
    write_in_order(rt, &rodeo, &mut pass, &codes, workers, writer)
}

// An interner with this limit, whose first bucket is that of default capacity, and which has room for about as many
// texts as the input has, if there is memory for that. The only error is out of memory, reported as line 0.
fn new_interner(
    alloc: Global,
    limits: MemoryLimits,
    input: &[u8],
    workers: usize,
    hasher: TextState,
) -> Result<SpurThreadedRodeo, RunFault>
    ensures opening { IfOk result (λ rodeo. rodeo.opening ≡ begun limits) }
    ensures fault { IfErr result (λ fault. fault ≡ Refused 0 FailedAllocation) }
{
    let texts = expected_texts(alloc, input, workers, hasher);
    let room = Capacity::for_strings(texts.max(Capacity::default().strings()));
    if let Ok(rodeo) = ThreadedRodeo::with_capacity_memory_limits_and_hasher(
        alloc, room, limits, hasher,
    ) {
        return Ok(rodeo);
    }
    let usual = Capacity::default();
    match ThreadedRodeo::with_capacity_memory_limits_and_hasher(alloc, usual, limits, hasher) {
        Ok(rodeo) => Ok(rodeo),
        Err(error) => Err(RunFault::Refused(0, error)),
    }
}

// Tests the lines of the input, and interns them with the workers. Returns the positions of the lines' texts,
// worker by worker, in the list that the pass has seen at the end.
fn intern_lines<R: AllocGlobal + Threads + Wait + Sync, G: Gate>(
    rt: &R,
    rodeo: &SpurThreadedRodeo,
    pass: &mut Pass<Spur>,
    input: &[u8],
    workers: usize,
    gate: &G,
) -> Result<Vec<u32>, RunFault>
    requires some { 0 < workers }
    requires of { pass.old.of ≡ rodeo.now }
    ensures same { IsSamePass pass.new pass.old }
    ensures faults { IfErr result IsLineFault }
    ensures told { IfErr result (IsFaultOf (lines_of input.now)) }
    ensures texts { OnOk result (AreTexts (lines_of input.now)) }
    ensures refused { IfErr result (IsExplainedIn rodeo.now.opening (seen pass.new) (lines_of input.now)) }
    ensures legal { IsLegal spur_at rodeo.now.opening (seen pass.new) }
    ensures codes { IfOk result (λ codes. AreCodesOf (list_of rodeo.now pass.new.notes) (lines_of input.now) codes.items) }
{
    pass.prove_legal();
    let lines = Stretch::new(input);
    test_lines(rt, &lines)?;
    share_out(rt, rodeo, pass, &lines, workers, gate)
}
