//! Gives each worker its lines, and joins what the workers return.
ghost use Rattle.std.specs.Prelude.{◌≡◌, ◌<◌, ◌+◌, ◌++◌, ◌∷◌, [], OnOk, IfOk, IfErr, IsSomeAnd, MatchResult, None, vec_len};
ghost use mathlib.Core.List.{IsPrefix};
ghost use Rattle.lasso_input.specs.Lines.{lines_of};
ghost use Rattle.lasso_single.specs.Coding.{spur_at};
ghost use Rattle.lasso_log.specs.History.{IsLegal};
ghost use Rattle.lasso_log.specs.Views.{PassView, InternerId, IsSamePass, list_of, seen};
ghost use Rattle.lasso_lines.specs.LineFaults.{AreTexts};
ghost use Rattle.lasso_lines.specs.Shares.{AddsCode, AreCodesOf, HasCodes, IsLower, IsRefusalIn, IsRefusalOf, IsRefusedBy, IsShareOf};
ghost use Rattle.lasso_lines.specs.declared.fault.RunFault.TheVariants.{Refused};
ghost use Rattle.lasso_parts.specs.declared.util.LassoErrorKind.TheVariants.{FailedAllocation};

use crate::fault::RunFault;
use crate::in_turn::Turns;
use crate::stretches::{later_number, next_number};
use crate::workers::Gate;
use lasso_input::Stretch;
use lasso_log::log::{Pass, Snapshot};
use lasso_parts::keys::Spur;
use lasso_parts::util::{LassoError, LassoErrorKind};
use lasso_shared::threaded::SpurThreadedRodeo;
use std::sync::{Mutex, Wait};
use std::thread::{Threads, map_indices};

// A refused line: its number, counted from 1, and the error.
type NumberedError = (u64, LassoError);

// What a worker returns: what its pass has seen of the interner, and the positions of its lines' texts in
// order, or the first of its lines that was refused.
#[derive(Drop)]
struct Share {
    known: Snapshot<Spur>,
    codes: Result<Vec<u32>, NumberedError>,
}

// Interns the lines with the workers, and returns the positions of the lines' texts in the list that the pass
// has seen at the end. If memory ran out, the caller's thread interns all lines once more, alone: the others
// have ended, and their memory is free. If lines were refused, returns the error of the lowest one; all lines
// before it are in that list. Out of memory at no line is reported as line 0.
pub(crate) fn share_out<R: AllocGlobal + Threads + Wait + Sync, G: Gate>(
    rt: &R,
    rodeo: &SpurThreadedRodeo,
    pass: &mut Pass<Spur>,
    lines: &Stretch<'_>,
    workers: usize,
    gate: &G,
) -> Result<Vec<u32>, RunFault>
    requires some { 0 < workers }
    requires texts { AreTexts (lines_of lines.now) }
    requires of { pass.old.of ≡ rodeo.now }
    ensures same { IsSamePass pass.new pass.old }
    ensures codes { IfOk result (λ codes. AreCodesOf (list_of rodeo.now pass.new.notes) (lines_of lines.now) codes.items) }
    ensures refused { IfErr result (IsRefusalOf rodeo.now.opening (seen pass.new) (lines_of lines.now)) }
    ensures legal { IsLegal spur_at rodeo.now.opening (seen pass.new) }
{
    let outcome = share_once(rt, rodeo, pass, lines, workers, gate);
    if is_no_memory(&outcome) {
        share_once(rt, rodeo, pass, lines, 1, gate)
    } else {
        outcome
    }
}

// Whether memory ran out.
fn is_no_memory(outcome: &Result<Vec<u32>, RunFault>) -> bool {
    match outcome {
        Ok(_) => false,
        Err(fault) => fault.is_no_memory(),
    }
}

// Interns the lines with the workers, each line once. Returns the positions of the lines' texts, worker by
// worker; otherwise as `share_out`.
fn share_once<R: AllocGlobal + Threads + Wait + Sync, G: Gate>(
    rt: &R,
    rodeo: &SpurThreadedRodeo,
    pass: &mut Pass<Spur>,
    lines: &Stretch<'_>,
    workers: usize,
    gate: &G,
) -> Result<Vec<u32>, RunFault>
    requires some { 0 < workers }
    requires texts { AreTexts (lines_of lines.now) }
    requires of { pass.old.of ≡ rodeo.now }
    ensures same { IsSamePass pass.new pass.old }
    ensures codes { IfOk result (λ codes. AreCodesOf (list_of rodeo.now pass.new.notes) (lines_of lines.now) codes.items) }
    ensures refused { IfErr result (IsRefusalOf rodeo.now.opening (seen pass.new) (lines_of lines.now)) }
    ensures legal { IsLegal spur_at rodeo.now.opening (seen pass.new) }
{
    pass.prove_legal();
    let turn = Mutex::new(());
    let turn = &turn;
    let work = move |worker: usize| -> Share
        requires some { 0 < workers }
        requires texts { AreTexts (lines_of lines.now) }
        ensures { IsShareOf rodeo.entry.now (lines_of lines.entry.now) worker workers result.known result.codes }
    { intern_share(rt, rodeo, lines, worker, workers, gate, turn) };
    let Ok(shares) = map_indices(rt, rt.alloc(), workers, &work) else {
        return Err(RunFault::no_memory(0));
    };
    let mut codes = Vec::new(rt.alloc());
    let mut lowest = None;
    for share in 0..shares.len() {
        let done = &shares[share];
        pass.learn(&done.known);
        lowest = add_codes(&mut codes, lowest, &done.codes)?;
    }
    match lowest {
        Some((number, error)) => Err(RunFault::Refused(number, error)),
        None => Ok(codes),
    }
}

// Appends the positions that a worker returned, if none of its lines was refused. Returns the lowest
// refused line so far.
fn add_codes(
    codes: &mut Vec<u32>,
    lowest: Option<NumberedError>,
    outcome: &Result<Vec<u32>, NumberedError>,
) -> Result<Option<NumberedError>, RunFault>
    ensures fault { IfErr result (λ fault. fault ≡ Refused 0 FailedAllocation) }
    ensures lowest { IfOk result (λ next. MatchResult outcome.now (λ _. next ≡ lowest) (λ refusal. IsSomeAnd next (IsLower lowest refusal))) }
    ensures added { IfOk result (λ next. next ≡ None → (lowest ≡ None)
        × MatchResult outcome.now (λ more. codes.new.items ≡ codes.old.items ++ more.items) (λ _. ⊥)) }
{
    match outcome {
        Ok(more) => {
            if codes.extend_from_slice(more).is_err() {
                return Err(RunFault::no_memory(0));
            }
            Ok(lowest)
        }
        Err(refusal) => Ok(Some(lower(lowest, refusal))),
    }
}

// The refused line with the lower number, and its error.
fn lower(lowest: Option<NumberedError>, other: &NumberedError) -> NumberedError
    ensures { IsLower lowest other.now result }
{
    match lowest {
        Some((number, error)) if number <= other.0 => (number, error),
        _ => (other.0, LassoError::new(other.1.kind())),
    }
}

// Interns the worker's lines with a new pass, which keeps hints. `turn` is for the turns of all workers.
fn intern_share<R: AllocGlobal + Wait, G: Gate>(
    rt: &R,
    rodeo: &SpurThreadedRodeo,
    lines: &Stretch<'_>,
    worker: usize,
    workers: usize,
    gate: &G,
    turn: &Mutex<()>,
) -> Share
    requires some { 0 < workers }
    requires texts { AreTexts (lines_of lines.now) }
    ensures { IsShareOf rodeo.now (lines_of lines.now) worker workers result.known result.codes }
{
    let mut pass = rodeo.pass_with_hints(rt.alloc());
    let codes = intern_by(rt, rodeo, &mut pass, lines, worker, workers, gate, turn);
    Share {
        known: pass.snapshot(),
        codes,
    }
}

// Interns the worker's lines: those at the positions `worker`, `worker + workers`, `worker + 2 * workers` and so
// on. It skips the lines between them in the input, so no list of lines is kept. Returns the positions of their
// texts. Stops at the first refused line and returns its error.
fn intern_by<R: AllocGlobal + Wait, G: Gate>(
    rt: &R,
    rodeo: &SpurThreadedRodeo,
    pass: &mut Pass<Spur>,
    lines: &Stretch<'_>,
    worker: usize,
    workers: usize,
    gate: &G,
    turn: &Mutex<()>,
) -> Result<Vec<u32>, NumberedError>
    requires some { 0 < workers }
    requires texts { AreTexts (lines_of lines.now) }
    requires of { pass.old.of ≡ rodeo.now }
    ensures of { pass.new.of ≡ rodeo.now }
    ensures refused { IfErr result (IsRefusedBy rodeo.now.opening (seen pass.new) (lines_of lines.now) worker workers) }
    ensures codes { IfOk result (λ codes. HasCodes (list_of rodeo.now pass.new.notes) (lines_of lines.now) worker workers codes.items) }
{
    let mut codes = Vec::new(rt.alloc());
    let mut turns = Turns::new(turn, gate.is_open());
    let mut rest = lines.copy();
    let mut next = 1u64;
    // The number of other workers' lines before this worker's next one.
    let mut others = worker;
    while let Some(line) = rest.next_line() {
        let number = next;
        next = next_number(rt, number);
        if others > 0 {
            others -= 1;
            continue;
        }
        let Ok(text) = line.text() else {
            unreachable!();
        };
        gate.enter(worker);
        intern_line(rt, rodeo, pass, text, number, &mut codes, &mut turns)?;
        others = workers - 1;
        let skipped = rest.skip(others);
        others -= skipped;
        next = later_number(rt, next, skipped);
    }
    Ok(codes)
}

// Interns the line of this number, and appends its text's position.
fn intern_line<R: Wait>(
    rt: &R,
    rodeo: &SpurThreadedRodeo,
    pass: &mut Pass<Spur>,
    line: &str,
    number: u64,
    codes: &mut Vec<u32>,
    turns: &mut Turns<'_>,
) -> Result<(), NumberedError>
    requires { pass.old.of ≡ rodeo.now }
    ensures of { pass.new.of ≡ rodeo.now }
    ensures number { IfErr result (λ refusal. refusal.0 ≡ number) }
    ensures reason { IfErr result (λ refusal. IsRefusalIn rodeo.now.opening (seen pass.new) (line.now ∷ []) refusal.1) }
    ensures grows { IsPrefix (list_of rodeo.now pass.old.notes) (list_of rodeo.now pass.new.notes) }
    ensures one { OnOk result (vec_len codes.new ≡ vec_len codes.old + 1) }
    ensures coded { OnOk result (AddsCode (list_of rodeo.now pass.old.notes) codes.old.items (list_of rodeo.now pass.new.notes) codes.new.items line.now) }
{
    let key = match rodeo.try_get_or_intern_as(rt, pass, line) {
        Ok(key) => key,
        Err(error) => return Err((number, error)),
    };
    let position = key.into_position();
    turns.count_line(rt, position);
    match codes.push(position) {
        Ok(()) => Ok(()),
        Err(_) => Err((number, LassoError::new(LassoErrorKind::FailedAllocation))),
    }
}
