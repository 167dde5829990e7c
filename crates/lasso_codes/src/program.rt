//! The program without its streams: runs a request over a reader and a writer.
ghost use Rattle.std.specs.Prelude.{◌≡◌, ◌+◌, [], None, Err, IfErr};
ghost use Rattle.lasso_columns.specs.Rows.{word_of};
ghost use Rattle.lasso_codes.specs.Causes.{cause_of};
ghost use Rattle.lasso_codes.specs.Errors.{failed_reads, failed_writes, gone_readers, IsWriteEnd, IsWriteError};
ghost use Rattle.lasso_codes.specs.Requests.{RequestEnds, VerbEnds};
ghost use Rattle.lasso_codes.specs.Streams.{Reports, ReportsFailure, Writes, WritesAll};
ghost use Rattle.lasso_columns.specs.declared.faults.LineError.TheVariants.{Refused};
ghost use Rattle.lasso_parts.specs.declared.util.LassoErrorKind.TheVariants.{FailedAllocation};
ghost use Rattle.lasso_codes.specs.declared.arguments.Settings.{Settings};
ghost use Rattle.lasso_codes.specs.declared.arguments.Command.TheVariants.{Help, VerbHelp, Version, Run};
ghost use Rattle.lasso_codes.specs.declared.arguments.Verb.{Verb};

use crate::arguments::{Command, Request, Settings, Verb};
use crate::cause::Cause;
use crate::counts::write_counts;
use crate::decode::write_decoded;
use crate::distinct::write_distinct;
use crate::encode::write_encoded;
use crate::error::RunError;
use crate::help::{HELP, VERSION, verb_help};
use crate::lines::TextRule;
use crate::merge::write_merged;
use crate::output::{end_flushed, write_bytes};
use crate::recode::write_recoded;
use crate::streams::{Input, Output};
use lasso_parts::hasher::TextState;
use lasso_parts::util::MemoryLimits;
use std::io;
use std::io::{Read, Write};
use std::thread::Threads;

/// The size of the reader's buffer and of the writer's buffer, in bytes.
pub const BUFFER_SIZE: usize = 65536;

/// A request that was run, and how that ended. Only this module makes one, so that none is made without a run.
#[derive(Drop)]
pub struct Ran<'a> {
    request: Request<'a>,
    ended: Result<(), RunError>,
    // The error of the read or write at which it ended.
    cause: Option<io::Error>,
}

impl<'a> Ran<'a> {
    /// Out of memory for the buffers of the streams.
    pub fn no_memory(request: &Request<'a>) -> Self
        ensures request { result.request ≡ request.now }
        ensures ended { result.ended ≡ Err (RunError.Line (Refused 0 FailedAllocation)) }
        ensures cause { result.cause ≡ None }
    {
        Ran {
            request: *request,
            ended: Err(RunError::no_memory(0)),
            cause: None,
        }
    }

    /// How the run ended.
    pub fn ended(&self) -> &Result<(), RunError>
        ensures { result.now ≡ self.now.ended }
    {
        &self.ended
    }

    /// The error of the read or write at which the run ended, if it ended so.
    pub fn cause(&self) -> Cause
        ensures { result.0 ≡ self.now.cause }
    {
        Cause(self.cause)
    }
}

/// Runs the verb, or writes a help text and reads nothing; and keeps the error of the call at which it ended.
/// Interners hash by this seed, which what is written does not depend on. The output is flushed, unless a write failed.
pub fn run<'a, H: AllocGlobal + Threads + Sync, R: Read + Drop, W: Write + Drop>(
    rt: &H,
    request: &Request<'a>,
    input: &mut Input<R>,
    output: &mut Output<W>,
    hasher: TextState,
) -> Ran<'a>
    ensures request { result.request ≡ request.now }
    ensures report { (verb : Verb) (settings : Settings) → request.now.command ≡ Run verb settings →
        Reports input.old output.old output.new (VerbEnds verb settings (word_of request.now.null) input.new.left result.ended) }
    ensures help { request.now.command ≡ Help → input.new ≡ input.old }
    ensures verb_help { (verb : Verb) → request.now.command ≡ VerbHelp verb → input.new ≡ input.old }
    ensures version { request.now.command ≡ Version → input.new ≡ input.old }
    ensures flushed { ¬ (IsWriteEnd result.ended) → output.new.pending ≡ [] }
    ensures reads { ¬ (result.ended ≡ Err RunError.WriteFailed) → input.new.failures ≡ input.old.failures + failed_reads result.ended }
    ensures writes { output.new.failures ≡ output.old.failures + failed_writes result.ended }
    ensures gone { ¬ (result.ended ≡ Err RunError.WriteFailed) → output.new.gone ≡ output.old.gone + gone_readers result.ended }
    ensures write_failed { ReportsFailure result.ended input.old input.new output.old output.new
        (RequestEnds request.now.command (word_of request.now.null) input.new.left) }
    ensures cause { result.cause ≡ cause_of result.ended input.new output.new }
{
    let ended = run_request(rt, request, input, output, hasher);
    let cause = cause_of(&ended, input, output);
    Ran {
        request: *request,
        ended,
        cause,
    }
}

// The error of the call at which a run ended: the last failed one of the reader or of the writer.
fn cause_of<R: Read + Drop, W: Write + Drop>(
    ended: &Result<(), RunError>,
    input: &Input<R>,
    output: &Output<W>,
) -> Option<io::Error>
    ensures { result ≡ cause_of ended.now input.now output.now }
{
    match ended {
        Err(RunError::ReadFailed) => input.cause(),
        Err(RunError::WriteFailed) => output.cause(),
        _ => None,
    }
}

// Runs the verb, or writes a help text and reads nothing. Flushes the output, unless a write failed: after another
// error, a reader of the output that is gone is a failed write.
fn run_request<H: AllocGlobal + Threads + Sync, R: Read + Drop, W: Write + Drop>(
    rt: &H,
    request: &Request<'_>,
    input: &mut Input<R>,
    output: &mut Output<W>,
    hasher: TextState,
) -> Result<(), RunError>
    ensures report { (verb : Verb) (settings : Settings) → request.now.command ≡ Run verb settings →
        Reports input.old output.old output.new (VerbEnds verb settings (word_of request.now.null) input.new.left result) }
    ensures help { request.now.command ≡ Help → input.new ≡ input.old }
    ensures verb_help { (verb : Verb) → request.now.command ≡ VerbHelp verb → input.new ≡ input.old }
    ensures version { request.now.command ≡ Version → input.new ≡ input.old }
    ensures flushed { ¬ (IsWriteEnd result) → output.new.pending ≡ [] }
    ensures reads { ¬ (result ≡ Err RunError.WriteFailed) → input.new.failures ≡ input.old.failures + failed_reads result }
    ensures writes { output.new.failures ≡ output.old.failures + failed_writes result }
    ensures gone { ¬ (result ≡ Err RunError.WriteFailed) → output.new.gone ≡ output.old.gone + gone_readers result }
    ensures write_failed { ReportsFailure result input.old input.new output.old output.new
        (RequestEnds request.now.command (word_of request.now.null) input.new.left) }
{
    match request.command {
        Command::Help => show(output, HELP),
        Command::VerbHelp(verb) => show(output, verb_help(verb)),
        Command::Version => show(output, VERSION),
        Command::Run(verb, settings) => {
            let ended = run_verb(rt, verb, settings, request.null, input, output, hasher);
            end_flushed(output, ended)
        }
    }
}

// Runs the verb. The last bytes stay in the buffer.
fn run_verb<H: AllocGlobal + Threads + Sync, R: Read + Drop, W: Write + Drop>(
    rt: &H,
    verb: Verb,
    settings: Settings,
    null: Option<&[u8]>,
    input: &mut Input<R>,
    output: &mut Output<W>,
    hasher: TextState,
) -> Result<(), RunError>
    ensures report { Reports input.old output.old output.new (VerbEnds verb settings (word_of null.entry) input.new.left result) }
    ensures reads { input.new.failures ≡ input.old.failures + failed_reads result }
    ensures writes { output.new.failures ≡ output.old.failures + failed_writes result }
    ensures gone { output.new.gone ≡ output.old.gone + gone_readers result }
{
    let limits = MemoryLimits::new(settings.limit);
    let binary = settings.binary;
    let rule = TextRule {
        alloc: rt.alloc(),
        only_utf8: settings.only_utf8,
        hasher,
    };
    match verb {
        Verb::Counts => write_counts(rt, input, output, settings, hasher),
        Verb::Decode => write_decoded(rule, input, output, limits, null),
        Verb::Dictionary => write_merged(rule, input, output, limits, binary, false),
        Verb::Distinct => write_distinct(rule, input, output, limits),
        Verb::Encode => write_encoded(rt, input, output, settings, null, hasher),
        Verb::Join => write_recoded(rule, input, output, limits, binary, true),
        Verb::Merge => write_merged(rule, input, output, limits, binary, true),
        Verb::Recode => write_recoded(rule, input, output, limits, binary, false),
    }
}

// Writes the text, and flushes it.
fn show<W: Write + Drop>(output: &mut Output<W>, text: &str) -> Result<(), RunError>
    ensures written { Writes output.old.written output.new.written (WritesAll text.now result) }
    ensures flushed { ¬ (IsWriteEnd result) → output.new.pending ≡ [] }
    ensures errors { IfErr result IsWriteError }
    ensures writes { output.new.failures ≡ output.old.failures + failed_writes result }
    ensures gone { output.new.gone ≡ output.old.gone + gone_readers result }
{
    write_bytes(output, text.as_bytes())?;
    output.flush()
}
