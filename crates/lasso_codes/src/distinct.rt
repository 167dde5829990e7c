//! Lists the distinct lines.
ghost use Rattle.std.specs.Prelude.{◌≡◌, ◌+◌, ◌<◌, ◌≤◌, ◌-◌, ◌^◌, Err, IfOk, IfErr, length};
ghost use Rattle.lasso_codes.specs.Stages.{PassesOn, StopsPassing};
ghost use Rattle.lasso_codes.specs.Streams.{Reports, Writes};
ghost use Rattle.lasso_codes.specs.Distinct.{DistinctEnds, PassesLine};
ghost use Rattle.lasso_codes.specs.Errors.{failed_reads, failed_writes, gone_readers, IsOutputError};

use crate::error::RunError;
use crate::input::next_line;
use crate::interner::new_rodeo;
use crate::lines::{TextRule, Walk, intern_line, taken};
use crate::output::write_line;
use crate::streams::{Input, Output};
use lasso_columns::SpurRodeo;
use lasso_input::{Line, Stretch};
use lasso_parts::util::MemoryLimits;
use std::io::{Read, Write};

// Writes each distinct line once, where it first occurs, with a line feed. The output is flushed before a read that
// may wait; the last bytes may stay in the buffer.
//
// The first line that is refused or not let in, a failed read, or out of memory: the distinct lines before it were
// written. After a failed write, a prefix of the distinct lines was written.
pub(crate) fn write_distinct<R: Read + Drop, W: Write + Drop>(
    rule: TextRule,
    input: &mut Input<R>,
    output: &mut Output<W>,
    limits: MemoryLimits,
) -> Result<(), RunError>
    ensures report { Reports input.old output.old output.new (DistinctEnds rule.only_utf8 limits input.new.left result) }
    ensures reads { input.new.failures ≡ input.old.failures + failed_reads result }
    ensures writes { output.new.failures ≡ output.old.failures + failed_writes result }
    ensures gone { output.new.gone ≡ output.old.gone + gone_readers result }
{
    let mut rodeo = new_rodeo(rule.alloc, limits, rule.hasher)?;
    let mut walk = Walk::new(rule.alloc);
    let mut line = Vec::new(rule.alloc);
    let mut number = 1;
    while number < usize::MAX {
        let shown = input.buffered();
        let (next, used) = pass_stretch(rule, &mut rodeo, &mut walk, shown, number, output)?;
        input.consume(used);
        // The next line is not in the buffer as a whole, so reading it may wait.
        output.flush()?;
        if !next_line(input, &mut line, next)? {
            return Ok(());
        }
        let whole = Line::untested(&line);
        pass_line(rule, &mut rodeo, &mut walk, &whole, next, output)?;
        number = next + 1;
    }
    Err(RunError::TooManyLines)
}

// Interns the lines that end in the stretch, and writes the new ones; `first` is the number of the first
// line. Returns the number of the line after them, and the position where it begins.
fn pass_stretch<W: Write + Drop>(
    rule: TextRule,
    rodeo: &mut SpurRodeo,
    walk: &mut Walk,
    stretch: &[u8],
    first: usize,
    output: &mut Output<W>,
) -> Result<(usize, usize), RunError>
    ensures passed { IfOk result (λ at. PassesOn rule.only_utf8 stretch.now first rodeo.old output.old.written at rodeo.new output.new.written) }
    ensures more { IfOk result (λ at. first ≤ at.0) }
    ensures number { IfOk result (λ at. at.0 < 2 ^ 64 - 1) }
    ensures within { IfOk result (λ at. at.1 ≤ length stretch.now) }
    ensures error { IfErr result (StopsPassing rule.only_utf8 stretch.now first rodeo.old output.old.written output.new.written) }
    ensures faults { IfErr result IsOutputError }
    ensures writes { output.new.failures ≡ output.old.failures + failed_writes result }
    ensures gone { output.new.gone ≡ output.old.gone + gone_readers result }
{
    let mut lines = Stretch::new(stretch);
    for number in first..usize::MAX {
        lines.look_ahead(rodeo, &mut walk.batch);
        let Some(line) = lines.next_ended() else {
            return Ok((number, taken(stretch, &lines)));
        };
        pass_line(rule, rodeo, walk, &line, number, output)?;
    }
    Err(RunError::TooManyLines)
}

// Interns the line with this number, the next one of the walk, and writes it if it is new.
fn pass_line<W: Write + Drop>(
    rule: TextRule,
    rodeo: &mut SpurRodeo,
    walk: &mut Walk,
    line: &Line<'_>,
    number: usize,
    output: &mut Output<W>,
) -> Result<(), RunError>
    ensures written { Writes output.old.written output.new.written (λ part. PassesLine rule.only_utf8 rodeo.old line.now number part rodeo.new result) }
    ensures faults { IfErr result IsOutputError }
    ensures writes { output.new.failures ≡ output.old.failures + failed_writes result }
    ensures gone { output.new.gone ≡ output.old.gone + gone_readers result }
{
    match intern_line(rule, rodeo, walk, line, number) {
        Ok(true) => write_line(output, line.bytes()),
        Ok(false) => Ok(()),
        Err(error) => Err(RunError::Line(error)),
    }
}
