//! Ranks texts by their counts.
ghost use Rattle.std.specs.Prelude.{◌≡◌, IfOk, IsPermutation, IsSorted, length, map, sum, sum_by, zip};
ghost use Rattle.lasso_columns.specs.Counts.{AreCountedTexts, ranked_cmp, pair_of};

use lasso_parts::index::Texts;
use lasso_parts::keys::Spur;
use lasso_single::rodeo::Rodeo;
use rayon::current_num_threads;
use rayon::slice::par_sort_unstable;
use std::alloc::{AllocError, Allocator, Global};
use std::cmp::Reverse;
use std::hash::BuildHasher;
use std::thread::Threads;

/// A count and its text. Their order is that of `by_frequency`.
pub type Ranked<'r> = (Reverse<u64>, &'r str);

/// The texts of the interner with their counts, the most frequent first. Texts with equal counts are in the
/// order of their bytes.
///
/// There must be one count for each text.
///
/// # Errors
/// Out of memory.
///
/// ```rust
/// let mut rodeo: SpurRodeo = Rodeo::default(rt.alloc())?;
/// rodeo.extend(["red", "green", "blue"])?;
/// let ranked = by_frequency(rt.alloc(), &rodeo, &[1, 4, 1])?;
/// assert!(rt; ranked[0] == (Reverse(4), "green"));
/// assert!(rt; ranked[1] == (Reverse(1), "blue"));
/// assert!(rt; ranked[2] == (Reverse(1), "red"));
/// ```
pub fn by_frequency<'r, S: BuildHasher, A: Allocator + Clone>(
    alloc: Global,
    rodeo: &'r Rodeo<Spur, S, A>,
    counts: &[u64],
) -> Result<Vec<Ranked<'r>>, AllocError>
    requires { length counts.now ≡ length rodeo.now.texts }
    ensures pairs { IfOk result (λ ranked. IsPermutation (zip counts.now rodeo.now.texts) (map pair_of ranked.items)) }
    ensures counted { IfOk result (λ ranked. AreCountedTexts rodeo.now.texts counts.now (map pair_of ranked.items)) }
    ensures total { IfOk result (λ ranked. sum_by (λ pair. pair.0) (map pair_of ranked.items) ≡ sum counts.now) }
    ensures order { IfOk result (λ ranked. IsSorted ranked_cmp (map pair_of ranked.items)) }
{
    let mut ranked = paired(alloc, rodeo, counts)?;
    ranked.sort_unstable();
    Ok(ranked)
}

/// The list of `by_frequency`, which `sort_in_parts` sorts with this number of workers.
///
/// There must be one count for each text.
///
/// # Errors
/// Out of memory.
pub fn by_frequency_in_parts<'r, H: Threads + Sync, S: BuildHasher, A: Allocator + Clone>(
    rt: &H,
    alloc: Global,
    rodeo: &'r Rodeo<Spur, S, A>,
    counts: &[u64],
    workers: usize,
) -> Result<Vec<Ranked<'r>>, AllocError>
    requires { length counts.now ≡ length rodeo.now.texts }
    ensures pairs { IfOk result (λ ranked. IsPermutation (zip counts.now rodeo.now.texts) (map pair_of ranked.items)) }
    ensures counted { IfOk result (λ ranked. AreCountedTexts rodeo.now.texts counts.now (map pair_of ranked.items)) }
    ensures total { IfOk result (λ ranked. sum_by (λ pair. pair.0) (map pair_of ranked.items) ≡ sum counts.now) }
    ensures order { IfOk result (λ ranked. IsSorted ranked_cmp (map pair_of ranked.items)) }
{
    let mut ranked = paired(alloc, rodeo, counts)?;
    sort_in_parts(rt, &mut ranked, workers);
    Ok(ranked)
}

/// Sorts the elements: equal ones may change places. Several threads share the work if there are at least as many
/// workers as processors, and more than one worker.
pub fn sort_in_parts<H: Threads + Sync, T: Ord + Send>(
    rt: &H,
    elements: &mut Vec<T>,
    workers: usize,
)
    ensures permutation { IsPermutation elements.old.items elements.new.items }
    ensures sorted { IsSorted T.cmp elements.new.items }
{
    if workers > 1 && current_num_threads(rt) <= workers {
        par_sort_unstable(rt, elements.as_mut_slice());
    } else {
        elements.sort_unstable();
    }
}

// The texts with their counts, in the order of their positions.
fn paired<'r, S: BuildHasher, A: Allocator + Clone>(
    alloc: Global,
    rodeo: &'r Rodeo<Spur, S, A>,
    counts: &[u64],
) -> Result<Vec<Ranked<'r>>, AllocError>
    requires { length counts.now ≡ length rodeo.now.texts }
    ensures { IfOk result (λ ranked. map pair_of ranked.items ≡ zip counts.now rodeo.now.texts) }
{
    let mut ranked = Vec::with_capacity(alloc, counts.len())?;
    for position in 0..counts.len() {
        ranked.push((Reverse(counts[position]), rodeo.text_at(position)))?;
    }
    Ok(ranked)
}
