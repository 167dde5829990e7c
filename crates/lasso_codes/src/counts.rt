//! Counts the lines.
ghost use Rattle.std.specs.Prelude.{◌≡◌, ◌+◌, ◌-◌, ◌^◌, ◌<◌, ◌≤◌, [], Err, OnOk, IfOk, IfErr, length, map, sum, flat_map, vec_len};
ghost use Rattle.lasso_input.specs.Lines.{lines_of};
ghost use Rattle.lasso_input.specs.Texts.{text_of};
ghost use Rattle.lasso_columns.specs.Adding.{CountsCodes};
ghost use Rattle.lasso_columns.specs.Counts.{CountsOneMore};
ghost use Rattle.lasso_codes.specs.Counts.{CountsEnds, CountingError, CountsLines, RefusesNewLine, StopsCountingRound, count_line, grown_to, pair_by};
ghost use Rattle.lasso_codes.specs.Limits.{IfNew, InternsLine, InternsLines, IsLineFault};
ghost use Rattle.lasso_codes.specs.Stages.{CountsOn, StopsCounting};
ghost use Rattle.lasso_codes.specs.Streams.{IfKnown, Reports, Writes, WritesAll};
ghost use Rattle.lasso_codes.specs.Errors.{failed_reads, failed_writes, gone_readers, IsDataError, IsInputError};

use crate::arguments::Settings;
use crate::error::RunError;
use crate::input::next_line;
use crate::interner::new_rodeo;
use crate::line_table::LineTable;
use crate::lines::{TextRule, Walk, taken, text_in};
use crate::output::{write_bytes, write_line, write_number};
use crate::ranking::lines_by_frequency;
use crate::streams::{Input, Output};
use lasso_columns::counts::{by_frequency_in_parts, count_codes, count_next};
use lasso_columns::{LineError, SpurRodeo};
use lasso_input::{Line, Stretch};
use lasso_parts::hasher::TextState;
use lasso_parts::util::MemoryLimits;
use std::alloc::Global;
use std::cmp::Reverse;
use std::convert::AsSlice;
use std::io::{Read, Write};
use std::thread::Threads;

// Counts the lines, and writes each distinct line after its count, the most frequent first. Lines with equal
// counts are in the order of their bytes. At most `top` lines are written. Several workers encode blocks of the
// input, as `encode_stream` says, and the codes of each round are counted after it. The last bytes stay in the buffer.
//
// A line that is refused or not let in, a failed read, or out of memory: nothing is written. After a failed write,
// a prefix of the list was written.
pub(crate) fn write_counts<H: AllocGlobal + Threads + Sync, R: Read + Drop, W: Write + Drop>(
    rt: &H,
    input: &mut Input<R>,
    output: &mut Output<W>,
    settings: Settings,
    hasher: TextState,
) -> Result<(), RunError>
    ensures report { Reports input.old output.old output.new (CountsEnds settings input.new.left result) }
    ensures reads { input.new.failures ≡ input.old.failures + failed_reads result }
    ensures writes { output.new.failures ≡ output.old.failures + failed_writes result }
    ensures gone { output.new.gone ≡ output.old.gone + gone_readers result }
{
    let mut rodeo = new_rodeo(rt.alloc(), MemoryLimits::new(settings.limit), hasher)?;
    let mut counts = Vec::new(rt.alloc());
    count_all(rt, input, &mut rodeo, &mut counts, settings, hasher)?;
    let table = LineTable::new(rt.alloc(), &rodeo)?;
    let Some(own) = table.own() else {
        let Ok(lines) = lines_by_frequency(rt, rt.alloc(), &table, &counts, settings.workers) else {
            return Err(RunError::no_memory(0));
        };
        let count = lines.len().min(settings.top);
        return write_ranked(output, &lines[..count]);
    };
    // Texts are compared faster than bytes.
    let Ok(ranked) = by_frequency_in_parts(rt, rt.alloc(), own, &counts, settings.workers) else {
        return Err(RunError::no_memory(0));
    };
    let most = ranked.len().min(settings.top);
    write_ranked(output, &ranked[..most])
}

// Counts all lines, with one worker or several.
fn count_all<H: AllocGlobal + Threads + Sync, R: Read + Drop>(
    rt: &H,
    input: &mut Input<R>,
    rodeo: &mut SpurRodeo,
    counts: &mut Vec<u64>,
    settings: Settings,
    hasher: TextState,
) -> Result<(), RunError>
    requires no_texts { rodeo.old.texts ≡ [] }
    requires no_counts { counts.old.items ≡ [] }
    ensures counted { OnOk result (IfKnown input.old.left (λ bytes. CountsLines settings.only_utf8 (lines_of bytes) rodeo.new.texts counts.new.items)) }
    ensures interned { OnOk result (IfKnown input.old.left (λ bytes. InternsLines rodeo.old (lines_of bytes) rodeo.new)) }
    ensures lengths { OnOk result (vec_len counts.new ≡ length rodeo.new.texts) }
    ensures error { IfErr result (λ error. IfKnown input.old.left (λ bytes. IfNew rodeo.old (λ limit.
        CountingError settings.only_utf8 limit (lines_of bytes) input.new.left error))) }
    ensures faults { IfErr result IsInputError }
    ensures reads { input.new.failures ≡ input.old.failures + failed_reads result }
{
    let rule = TextRule {
        alloc: rt.alloc(),
        only_utf8: settings.only_utf8,
        hasher,
    };
    if settings.workers < 2 {
        return count_lines(rule, input, rodeo, counts);
    }
    count_stream(rt, rule, input, rodeo, counts, settings.workers)
}

// Counts all lines, one after another.
fn count_lines<R: Read + Drop>(
    rule: TextRule,
    input: &mut Input<R>,
    rodeo: &mut SpurRodeo,
    counts: &mut Vec<u64>,
) -> Result<(), RunError>
    requires no_texts { rodeo.old.texts ≡ [] }
    requires no_counts { counts.old.items ≡ [] }
    ensures counted { OnOk result (IfKnown input.old.left (λ bytes. CountsLines rule.only_utf8 (lines_of bytes) rodeo.new.texts counts.new.items)) }
    ensures interned { OnOk result (IfKnown input.old.left (λ bytes. InternsLines rodeo.old (lines_of bytes) rodeo.new)) }
    ensures lengths { vec_len counts.new ≡ length rodeo.new.texts }
    ensures error { IfErr result (λ error. IfKnown input.old.left (λ bytes. IfNew rodeo.old (λ limit.
        CountingError rule.only_utf8 limit (lines_of bytes) input.new.left error))) }
    ensures faults { IfErr result IsInputError }
    ensures reads { input.new.failures ≡ input.old.failures + failed_reads result }
{
    let mut walk = Walk::new(rule.alloc);
    let mut line = Vec::new(rule.alloc);
    let mut number = 1;
    while number < usize::MAX {
        let shown = input.buffered();
        let (next, used) = count_stretch(rule, rodeo, &mut walk, counts, shown, number)?;
        input.consume(used);
        if !next_line(input, &mut line, next)? {
            return Ok(());
        }
        let whole = Line::untested(&line);
        if let Err(error) = count_line(rule, rodeo, &mut walk, counts, &whole, next) {
            return Err(RunError::Line(error));
        }
        number = next + 1;
    }
    Err(RunError::TooManyLines)
}

// Counts the lines that end in the stretch; `first` is the number of the first one. Returns the number of the
// line after them, and the position where it begins.
fn count_stretch(
    rule: TextRule,
    rodeo: &mut SpurRodeo,
    walk: &mut Walk,
    counts: &mut Vec<u64>,
    stretch: &[u8],
    first: usize,
) -> Result<(usize, usize), RunError>
    requires lengths { vec_len counts.old ≡ length rodeo.old.texts }
    requires total { sum counts.old.items + 1 ≡ first }
    ensures counted { IfOk result (λ at. CountsOn rule.only_utf8 stretch.now first rodeo.old counts.old.items at rodeo.new counts.new.items) }
    ensures lengths { vec_len counts.new ≡ length rodeo.new.texts }
    ensures total { IfOk result (λ at. sum counts.new.items + 1 ≡ at.0) }
    ensures more { IfOk result (λ at. first ≤ at.0) }
    ensures number { IfOk result (λ at. at.0 < 2 ^ 64 - 1) }
    ensures within { IfOk result (λ at. at.1 ≤ length stretch.now) }
    ensures error { IfErr result (StopsCounting rule.only_utf8 stretch.now first rodeo.old counts.old.items) }
    ensures faults { IfErr result IsDataError }
{
    let mut lines = Stretch::new(stretch);
    for number in first..usize::MAX {
        lines.look_ahead(rodeo, &mut walk.batch);
        let Some(line) = lines.next_ended() else {
            return Ok((number, taken(stretch, &lines)));
        };
        if let Err(error) = count_line(rule, rodeo, walk, counts, &line, number) {
            return Err(RunError::Line(error));
        }
    }
    Err(RunError::TooManyLines)
}

// Counts the line with this number, the next one of the walk.
fn count_line(
    rule: TextRule,
    rodeo: &mut SpurRodeo,
    walk: &mut Walk,
    counts: &mut Vec<u64>,
    line: &Line<'_>,
    number: usize,
) -> Result<(), LineError>
    requires lengths { vec_len counts.old ≡ length rodeo.old.texts }
    requires fits { sum counts.old.items < 2 ^ 64 - 1 }
    ensures interned { OnOk result (InternsLine rule.only_utf8 rodeo.old line.now rodeo.new) }
    ensures counted { OnOk result (CountsOneMore (text_of line.now) rodeo.old.texts counts.old.items rodeo.new.texts counts.new.items) }
    ensures total { OnOk result (sum counts.new.items ≡ sum counts.old.items + 1) }
    ensures lengths { vec_len counts.new ≡ length rodeo.new.texts }
    ensures error { IfErr result (IsLineFault rule.only_utf8 rodeo.old line.now number) }
    ensures memory { IfErr result (RefusesNewLine rodeo.old counts.new line.now) }
{
    let text = text_in(rule, &mut walk.text, line, number)?;
    match count_next(rodeo, text, &mut walk.batch, counts) {
        Ok(()) => Ok(()),
        Err(error) => Err(LineError::Refused(number, error)),
    }
}

// Encodes all lines with several workers round by round, and counts the codes of each round.
fn count_stream<H: AllocGlobal + Threads + Sync, R: Read + Drop>(
    rt: &H,
    rule: TextRule,
    input: &mut Input<R>,
    rodeo: &mut SpurRodeo,
    counts: &mut Vec<u64>,
    workers: usize,
) -> Result<(), RunError>
    requires no_texts { rodeo.old.texts ≡ [] }
    requires no_counts { counts.old.items ≡ [] }
    ensures counted { OnOk result (IfKnown input.old.left (λ bytes. CountsLines rule.only_utf8 (lines_of bytes) rodeo.new.texts counts.new.items)) }
    ensures interned { OnOk result (IfKnown input.old.left (λ bytes. InternsLines rodeo.old (lines_of bytes) rodeo.new)) }
    ensures lengths { OnOk result (vec_len counts.new ≡ length rodeo.new.texts) }
    ensures error { IfErr result (λ error. IfKnown input.old.left (λ bytes. IfNew rodeo.old (λ limit.
        CountingError rule.only_utf8 limit (lines_of bytes) input.new.left error))) }
    ensures faults { IfErr result IsInputError }
    ensures reads { input.new.failures ≡ input.old.failures + failed_reads result }
{
    let mut encoder = input.stream_encoder(rule, workers)?;
    let mut codes = Vec::new(rule.alloc);
    let mut number = 0;
    let mut goes_on = true;
    while goes_on {
        goes_on = input.encode_round(rt, &mut encoder, rodeo, &mut codes, number)?;
        number = count_round(&codes, rodeo.len(), counts, number)?;
    }
    Ok(())
}

// Counts the codes of a round, in which there are this number of texts. `before` is the number of codes in earlier
// rounds. Returns the number with those of this round.
fn count_round(
    codes: &[u32],
    texts: usize,
    counts: &mut Vec<u64>,
    before: usize,
) -> Result<usize, RunError>
    requires { sum counts.old.items ≤ before }
    ensures counted { OnOk result (CountsCodes codes.now (grown_to texts counts.old.items) counts.new.items) }
    ensures lengths { OnOk result (vec_len counts.new ≡ texts) }
    ensures total { IfOk result (λ number. sum counts.new.items ≤ number) }
    ensures number { IfOk result (λ number. number ≡ before + length codes.now) }
    ensures error { IfErr result (StopsCountingRound (before + length codes.now)) }
{
    let Some(number) = before.checked_add(codes.len()) else {
        return Err(RunError::TooManyLines);
    };
    let Ok(()) = counts.resize(texts, 0) else {
        return Err(RunError::no_memory(0));
    };
    count_codes(codes, counts);
    Ok(number)
}

// Writes each count and its line.
fn write_ranked<W: Write + Drop, T: AsSlice<u8>>(
    output: &mut Output<W>,
    ranked: &[(Reverse<u64>, T)],
) -> Result<(), RunError>
    ensures written { Writes output.old.written output.new.written (WritesAll (flat_map count_line (map (pair_by T.items) ranked.now)) result) }
    ensures writes { output.new.failures ≡ output.old.failures + failed_writes result }
    ensures gone { output.new.gone ≡ output.old.gone + gone_readers result }
{
    for one in ranked {
        write_count(output, one)?;
    }
    Ok(())
}

// Writes the count, a space, the line and a line feed.
fn write_count<W: Write + Drop, T: AsSlice<u8>>(
    output: &mut Output<W>,
    ranked: &(Reverse<u64>, T),
) -> Result<(), RunError>
    ensures written { Writes output.old.written output.new.written (WritesAll (count_line (pair_by T.items ranked.now)) result) }
    ensures writes { output.new.failures ≡ output.old.failures + failed_writes result }
    ensures gone { output.new.gone ≡ output.old.gone + gone_readers result }
{
    let line = ranked.1.as_slice();
    let Reverse(count) = ranked.0;
    write_number(output, count)?;
    write_bytes(output, b" ")?;
    write_line(output, line)
}
