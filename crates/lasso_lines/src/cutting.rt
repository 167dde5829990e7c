//! Reads a whole input, and tests its lines.
ghost use Rattle.std.specs.Prelude.{◌≡◌, ◌+◌, ◌++◌, ℕ, List, [], Some, OnOk, IfErr};
ghost use Rattle.lasso_input.specs.Lines.{lines_of};
ghost use Rattle.lasso_lines.specs.Stream.{Stays, Ended};
ghost use Rattle.lasso_lines.specs.Answer.{IsInputFault, IsTextFault, failed_reads};
ghost use Rattle.lasso_lines.specs.LineFaults.{AreTexts, IsFaultOf};

use crate::fault::RunFault;
use crate::stream::ByteReader;
use crate::stretches::{hold, next_number};
use lasso_input::Stretch;
use std::sync::Wait;

// Reads to the end of the input and appends its bytes to `input`. Out of memory is reported as line 0.
pub(crate) fn read_all<R: Wait, I: ByteReader>(
    rt: &R,
    reader: &mut I,
    input: &mut Vec<u8>,
) -> Result<(), RunFault>
    ensures whole { OnOk result (Ended (I.left reader.old) (I.left reader.new)) }
    ensures reads { I.failures reader.new ≡ I.failures reader.old + failed_reads result }
    ensures faults { IfErr result IsInputFault }
    ensures bytes { (left : List ℕ) → I.left reader.old ≡ Some left → OnOk result (input.new.items ≡ input.old.items ++ left) }
{
    'parts: for _ in rt.forever() {
        let buffer = reader.buffer();
        hold(input, buffer, 0)?;
        let count = buffer.len();
        reader.consume(count);
        fill_again(reader)?;
        if reader.buffer().is_empty() {
            return Ok(());
        }
    }
    unreachable!()
}

// Fills the reader's buffer if it is empty. It stays empty only at the end of the input.
fn fill_again<I: ByteReader>(reader: &mut I) -> Result<(), RunFault>
    ensures reads { I.failures reader.new ≡ I.failures reader.old + failed_reads result }
    ensures left { Stays (I.left reader.old) (I.left reader.new) }
    ensures end { OnOk result (I.at_hand reader.new ≡ [] → Ended (I.left reader.old) (I.left reader.new)) }
    ensures faults { IfErr result IsInputFault }
{
    match reader.fill_buf() {
        Ok(()) => Ok(()),
        Err(_) => Err(RunFault::ReadFailed),
    }
}

// Tests the lines of the input. Returns `NotText` with the number of the first line that is not UTF-8, counted
// from 1.
pub(crate) fn test_lines<R: Wait>(rt: &R, input: &Stretch<'_>) -> Result<(), RunFault>
    ensures faults { IfErr result IsTextFault }
    ensures told { IfErr result (IsFaultOf (lines_of input.now)) }
    ensures texts { OnOk result (AreTexts (lines_of input.now)) }
{
    if input.is_text() {
        return Ok(());
    }
    let mut lines = input.copy();
    let mut number = 1u64;
    while let Some(line) = lines.next_line() {
        let Ok(_) = line.text() else {
            return Err(RunFault::NotText(number));
        };
        number = next_number(rt, number);
    }
    Ok(())
}
