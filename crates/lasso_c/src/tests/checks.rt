//! What the tests share: a check, what a call reports, and what it has to write. Outputs are filled with 9s.
use crate::error::LassoReport;
use std::process::Abort;
use std::test::Fail;

// A report that no call has written.
pub const UNSET: LassoReport = LassoReport {
    texts: 77,
    bytes: 77,
    at: 77,
};

// The three numbers of a report: texts, bytes, and the position.
pub type Numbers = (usize, usize, usize);

// A call's status, and the numbers of its report.
pub type Told = (u32, Numbers);

// What came of a call: its status, and whether all is as it has to be.
pub type Seen = (u32, bool);

pub fn told(status: u32, report: &LassoReport) -> Told {
    (status, (report.texts, report.bytes, report.at))
}

// Asserts that this holds. `what` names what was looked at.
pub fn is_so(rt: &impl Abort, holds: bool, what: &str) {
    assert!(rt; holds, "{what}");
}

// Asserts that this holds of a row of a table.
pub fn is_so_at(rt: &impl Abort, holds: bool, row: usize) {
    assert!(rt; holds, "row {row}");
}

// Checks what came of the call of a row, and ends the test out of memory.
pub fn is_as_told(rt: &impl Abort, (status, holds): Seen, row: usize) -> Result<(), Fail> {
    if status == 9 && !holds {
        return Err(Fail::from("out of memory"));
    }
    is_so_at(rt, holds, row);
    Ok(())
}

// Whether the bytes were written to the front of the output, and nothing after them.
pub fn has_bytes(output: &[u8], bytes: &[u8]) -> bool {
    for at in bytes.len()..output.len() {
        if output[at] != 9 {
            return false;
        }
    }
    output.starts_with(bytes)
}

// Whether the numbers were written to the front of the output, and nothing after them.
pub fn has_numbers(output: &[u32], numbers: &[u32]) -> bool {
    for at in numbers.len()..output.len() {
        if output[at] != 9 {
            return false;
        }
    }
    output.starts_with(numbers)
}
