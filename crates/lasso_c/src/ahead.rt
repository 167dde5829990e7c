//! Looks ahead at the rows of a column, so that the processor waits for the memory of several look-ups together.

use crate::encoding::Dictionary;
use crate::layout::text_between;
use crate::offsets::{count, number};
use lasso_parts::offsets::Offset;
use lasso_single::batch::{Batch, TOGETHER, look_ahead};

// Looks ahead at the rows from `at` on, if that is due and pays.
#[inline(always)]
pub(crate) fn look_ahead_from<O: Offset>(
    dictionary: &Dictionary,
    bytes: &[u8],
    offsets: &[O],
    at: usize,
    batch: &mut Batch,
) {
    if batch.is_due() {
        look_ahead_at_rows(dictionary, bytes, offsets, at, batch);
    }
}

// Looks ahead at the rows from `at` on, as many as a batch has, up to the first with a fault.
#[inline(never)]
fn look_ahead_at_rows<O: Offset>(
    dictionary: &Dictionary,
    bytes: &[u8],
    offsets: &[O],
    at: usize,
    batch: &mut Batch,
) {
    let rows = count(offsets).saturating_sub(1);
    let mut texts = [""; TOGETHER];
    let mut count = 0;
    for row in at..rows {
        if count >= TOGETHER {
            break;
        }
        let (from, to) = (number(offsets, row), number(offsets, row + 1));
        let Ok(text) = text_between::<O>(bytes, row, from, to) else {
            break;
        };
        texts[count] = text;
        count += 1;
    }
    look_ahead(dictionary, &texts[..count.min(TOGETHER)], batch);
}
