//! Encodes lines as a column.
ghost use Rattle.std.specs.Prelude.{◌≡◌, ◌+◌, ◌-◌, ◌^◌, ◌<◌, ◌≤◌, [], Err, OnOk, IfOk, IfErr, IfSome, MatchResult, length, option_map};
ghost use Rattle.hex.specs.Hex.{IsBytes};
ghost use Rattle.std.specs.Cow.{cow_str_bytes};
ghost use Rattle.lasso_input.specs.Lines.{lines_of};
ghost use Rattle.lasso_input.specs.Texts.{text_of};
ghost use Rattle.lasso_parts.specs.declared.util.LassoErrorKind.TheVariants.{FailedAllocation};
ghost use Rattle.lasso_columns.specs.declared.faults.LineError.TheVariants.{Refused};
ghost use Rattle.lasso_columns.specs.Rows.{texts_of, word_of};
ghost use Rattle.lasso_codes.specs.Encode.{AddsNumber, EncodeEnds, EncodingError, EntryMayLackMemory, IsEntryFault, IsNoNull, IsNumbered, NumbersLines};
ghost use Rattle.lasso_codes.specs.Errors.{failed_reads, failed_writes, gone_readers, IsDataError, IsInputError};
ghost use Rattle.lasso_codes.specs.Limits.{IfNew, InternsLines, IsLetIn, IsLineFault};
ghost use Rattle.lasso_codes.specs.Stages.{EncodesOn, StopsNumbering};
ghost use Rattle.lasso_codes.specs.Streams.{IfKnown, Reports};

use crate::arguments::Settings;
use crate::columns::append;
use crate::entry_parts::write_column_in_parts;
use crate::error::RunError;
use crate::input::next_line;
use crate::interner::new_rodeo;
use crate::line_table::LineTable;
use crate::lines::{TextRule, Walk, known_bytes, taken, text_in};
use crate::streams::{Input, Output};
use lasso_columns::{LineError, NULL, SpurRodeo, is_null};
use lasso_input::{Line, Stretch, text_of};
use lasso_parts::hasher::TextState;
use lasso_parts::util::MemoryLimits;
use lasso_single::coding::intern_code_next;
use std::alloc::Global;
use std::borrow::CowStr;
use std::io::{Read, Write};
use std::thread::Threads;

// Encodes the lines, and writes their column. A line that equals `null` is a null. Several workers encode blocks of
// the input, as `encode_stream` says. The last bytes stay in the buffer.
//
// A line that is refused or not let in, a failed read, or out of memory: nothing is written. After a failed write,
// a prefix of the column was written.
pub(crate) fn write_encoded<H: AllocGlobal + Threads + Sync, R: Read + Drop, W: Write + Drop>(
    rt: &H,
    input: &mut Input<R>,
    output: &mut Output<W>,
    settings: Settings,
    null: Option<&[u8]>,
    hasher: TextState,
) -> Result<(), RunError>
    ensures report { Reports input.old output.old output.new (EncodeEnds settings (word_of null.entry) input.new.left result) }
    ensures reads { input.new.failures ≡ input.old.failures + failed_reads result }
    ensures writes { output.new.failures ≡ output.old.failures + failed_writes result }
    ensures gone { output.new.gone ≡ output.old.gone + gone_readers result }
{
    let mut rodeo = new_rodeo(rt.alloc(), MemoryLimits::new(settings.limit), hasher)?;
    let mut numbers = Vec::new(rt.alloc());
    number_lines(rt, input, &mut rodeo, &mut numbers, null, settings, hasher)?;
    let table = LineTable::new(rt.alloc(), &rodeo)?;
    write_column_in_parts(
        rt,
        output,
        &table,
        &numbers,
        settings.binary,
        settings.workers,
    )
}

// Encodes all lines, with one worker or several.
fn number_lines<H: AllocGlobal + Threads + Sync, R: Read + Drop>(
    rt: &H,
    input: &mut Input<R>,
    rodeo: &mut SpurRodeo,
    numbers: &mut Vec<u32>,
    null: Option<&[u8]>,
    settings: Settings,
    hasher: TextState,
) -> Result<(), RunError>
    requires no_texts { rodeo.old.texts ≡ [] }
    requires no_numbers { numbers.old.items ≡ [] }
    ensures numbered { OnOk result (IfKnown input.old.left (λ bytes.
        NumbersLines settings.only_utf8 (word_of null.entry) (lines_of bytes) rodeo.new.texts numbers.new.items)) }
    ensures interned { OnOk result (IfKnown input.old.left (λ bytes. InternsLines rodeo.old (texts_of (word_of null.entry) (lines_of bytes)) rodeo.new)) }
    ensures error { IfErr result (λ error. IfKnown input.old.left (λ bytes. IfNew rodeo.old (λ limit.
        EncodingError settings.only_utf8 limit (word_of null.entry) (lines_of bytes) input.new.left error))) }
    ensures faults { IfErr result IsInputError }
    ensures reads { input.new.failures ≡ input.old.failures + failed_reads result }
{
    let rule = TextRule {
        alloc: rt.alloc(),
        only_utf8: settings.only_utf8,
        hasher,
    };
    if settings.workers < 2 {
        return encode_lines(rule, input, rodeo, numbers, null);
    }
    let text = null_text(rule, null)?;
    let word = text_bytes(&text);
    input.encode_stream(rt, rule, rodeo, numbers, word, settings.workers)
}

// The text of a null.
fn null_text(rule: TextRule, null: Option<&[u8]>) -> Result<Option<CowStr<'_, Global>>, RunError>
    ensures bytes { IfOk result (λ _. IfSome (word_of null.entry) IsBytes) }
    ensures text { IfOk result (λ text. option_map cow_str_bytes text ≡ option_map text_of (word_of null.entry)) }
    ensures error { IfErr result (λ error. error ≡ RunError.Line (Refused 0 FailedAllocation)) }
{
    let Some(word) = null else {
        return Ok(None);
    };
    known_bytes(word);
    match text_of(rule.alloc, &Line::untested(word)) {
        Ok(text) => Ok(Some(text)),
        Err(_) => Err(RunError::no_memory(0)),
    }
}

// The bytes of the text.
fn text_bytes<'a>(text: &'a Option<CowStr<'_, Global>>) -> Option<&'a [u8]>
    ensures { word_of result ≡ option_map cow_str_bytes text.now }
{
    match text {
        Some(text) => Some(text.as_str().as_bytes()),
        None => None,
    }
}

// Encodes all lines, one after another.
fn encode_lines<R: Read + Drop>(
    rule: TextRule,
    input: &mut Input<R>,
    rodeo: &mut SpurRodeo,
    numbers: &mut Vec<u32>,
    null: Option<&[u8]>,
) -> Result<(), RunError>
    requires no_texts { rodeo.old.texts ≡ [] }
    requires no_numbers { numbers.old.items ≡ [] }
    ensures numbered { OnOk result (IfKnown input.old.left (λ bytes.
        NumbersLines rule.only_utf8 (word_of null.entry) (lines_of bytes) rodeo.new.texts numbers.new.items)) }
    ensures interned { OnOk result (IfKnown input.old.left (λ bytes. InternsLines rodeo.old (texts_of (word_of null.entry) (lines_of bytes)) rodeo.new)) }
    ensures error { IfErr result (λ error. IfKnown input.old.left (λ bytes. IfNew rodeo.old (λ limit.
        EncodingError rule.only_utf8 limit (word_of null.entry) (lines_of bytes) input.new.left error))) }
    ensures faults { IfErr result IsInputError }
    ensures reads { input.new.failures ≡ input.old.failures + failed_reads result }
{
    let mut walk = Walk::new(rule.alloc);
    let mut line = Vec::new(rule.alloc);
    let mut number = 1;
    while number < usize::MAX {
        let shown = input.buffered();
        let (next, used) = encode_stretch(rule, rodeo, &mut walk, numbers, null, shown, number)?;
        input.consume(used);
        if !next_line(input, &mut line, next)? {
            return Ok(());
        }
        let whole = Line::untested(&line);
        if let Err(error) = encode_line(rule, rodeo, &mut walk, numbers, null, &whole, next) {
            return Err(RunError::Line(error));
        }
        number = next + 1;
    }
    Err(RunError::TooManyLines)
}

// Encodes the lines that end in the stretch; `first` is the number of the first one. Returns the number of
// the line after them, and the position where it begins.
fn encode_stretch(
    rule: TextRule,
    rodeo: &mut SpurRodeo,
    walk: &mut Walk,
    numbers: &mut Vec<u32>,
    null: Option<&[u8]>,
    stretch: &[u8],
    first: usize,
) -> Result<(usize, usize), RunError>
    ensures numbered { IfOk result (λ at.
        EncodesOn rule.only_utf8 (word_of null.entry) stretch.now first rodeo.old numbers.old.items at rodeo.new numbers.new.items) }
    ensures more { IfOk result (λ at. first ≤ at.0) }
    ensures number { IfOk result (λ at. at.0 < 2 ^ 64 - 1) }
    ensures within { IfOk result (λ at. at.1 ≤ length stretch.now) }
    ensures error { IfErr result (StopsNumbering rule.only_utf8 (word_of null.entry) stretch.now first rodeo.old numbers.old.items) }
    ensures faults { IfErr result IsDataError }
{
    let mut lines = Stretch::new(stretch);
    for number in first..usize::MAX {
        lines.look_ahead(rodeo, &mut walk.batch);
        let Some(line) = lines.next_ended() else {
            return Ok((number, taken(stretch, &lines)));
        };
        if let Err(error) = encode_line(rule, rodeo, walk, numbers, null, &line, number) {
            return Err(RunError::Line(error));
        }
    }
    Err(RunError::TooManyLines)
}

// Appends the entry of the line with this number, the next one of the walk.
fn encode_line(
    rule: TextRule,
    rodeo: &mut SpurRodeo,
    walk: &mut Walk,
    numbers: &mut Vec<u32>,
    null: Option<&[u8]>,
    line: &Line<'_>,
    number: usize,
) -> Result<(), LineError>
    ensures numbered { OnOk result (AddsNumber rule.only_utf8 (word_of null.entry) rodeo.old line.now rodeo.new numbers.old.items numbers.new.items) }
    ensures error { IfErr result (IsLineFault rule.only_utf8 rodeo.old line.now number) }
    ensures memory { IfErr result (EntryMayLackMemory rodeo.old numbers.old line.now) }
    ensures null { IfErr result (IsNoNull (word_of null.entry) line.now) }
{
    let entry = entry_of(rule, rodeo, walk, null, line, number)?;
    append(numbers, entry, number)?;
    Ok(())
}

// The entry of the line with this number. Interns the line, unless it is a null.
fn entry_of(
    rule: TextRule,
    rodeo: &mut SpurRodeo,
    walk: &mut Walk,
    null: Option<&[u8]>,
    line: &Line<'_>,
    number: usize,
) -> Result<u32, LineError>
    ensures { MatchResult result
        (λ entry. IsLetIn rule.only_utf8 line.now × IsNumbered (word_of null.entry) rodeo.old line.now rodeo.new entry)
        (IsEntryFault rule.only_utf8 (word_of null.entry) rodeo.old line.now number) }
{
    let text = text_in(rule, &mut walk.text, line, number)?;
    if is_null(null, line.bytes()) {
        walk.batch.skip();
        return Ok(NULL);
    }
    match intern_code_next(rodeo, text, &mut walk.batch) {
        Ok(entry) => Ok(entry),
        Err(error) => Err(LineError::Refused(number, error)),
    }
}
