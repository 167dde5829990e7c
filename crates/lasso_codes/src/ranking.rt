//! Ranks lines by their counts, where some are not texts. Texts are ranked by `lasso_columns::counts`.
ghost use Rattle.std.specs.Prelude.{◌≡◌, List, IfOk, IsPermutation, IsSorted, length, map, sum, sum_by, zip};
ghost use Rattle.lasso_columns.specs.Counts.{ranked_cmp, pair_of};

use crate::line_table::LineTable;
use lasso_columns::counts::sort_in_parts;
use std::alloc::{AllocError, Global};
use std::cmp::Reverse;
use std::thread::Threads;

/// A count and its line. Their order is that of `lines_by_frequency`.
pub type RankedLine<'r> = (Reverse<u64>, &'r [u8]);

/// The lines of the table with their counts, the most frequent first. Lines with equal counts are in the order
/// of their bytes.
///
/// There must be one count for each line.
///
/// # Errors
/// Out of memory.
pub fn lines_by_frequency<'r, H: Threads + Sync>(
    rt: &H,
    alloc: Global,
    table: &'r LineTable<'_>,
    counts: &[u64],
    workers: usize,
) -> Result<Vec<RankedLine<'r>>, AllocError>
    requires { length counts.now ≡ length table.now }
    ensures pairs { IfOk result (λ ranked. IsPermutation (zip counts.now table.now) (map pair_of ranked.items)) }
    ensures total { IfOk result (λ ranked. sum_by (λ pair. pair.0) (map pair_of ranked.items) ≡ sum counts.now) }
    ensures order { IfOk result (λ ranked. IsSorted ranked_cmp (map pair_of ranked.items)) }
{
    let mut ranked = paired(alloc, table, counts)?;
    sort_in_parts(rt, &mut ranked, workers);
    Ok(ranked)
}

// The lines with their counts, in the order of their positions.
fn paired<'r>(
    alloc: Global,
    table: &'r LineTable<'_>,
    counts: &[u64],
) -> Result<Vec<RankedLine<'r>>, AllocError>
    requires { length counts.now ≡ length table.now }
    ensures { IfOk result (λ ranked. map pair_of ranked.items ≡ zip counts.now table.now) }
{
    let mut ranked = Vec::with_capacity(alloc, counts.len())?;
    for position in 0..counts.len() {
        ranked.push((Reverse(counts[position]), table.at(position)))?;
    }
    Ok(ranked)
}
