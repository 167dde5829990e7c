//! The verb that a wrong word may have been meant for.
ghost use Rattle.std.specs.Prelude.{◌≤◌, IfSome, All};
ghost use Rattle.lasso_codes.specs.Nearest.{edits, verbs};

use crate::arguments::{VERBS, Verb};
use std::alloc::Global;
use strsim::levenshtein;

// The most edits between a word and the verb that was meant: letters that are put in, left out or changed.
const MOST_EDITS: usize = 2;

// A longer word is no verb with that number of edits.
const MOST_BYTES: usize = 32;

/// The verb whose name is nearest to the word, the first of several; `None` if all are more than two edits away,
/// or out of memory.
pub fn nearest_verb(alloc: Global, word: &str) -> Option<Verb>
    ensures near { IfSome result (λ verb. edits word.now verb ≤ MOST_EDITS) }
    ensures nearest { IfSome result (λ verb. All (λ other. edits word.now verb ≤ edits word.now other) verbs) }
{
    if word.len() > MOST_BYTES {
        return None;
    }
    let mut nearest = None;
    let mut least = MOST_EDITS + 1;
    for verb in &VERBS {
        let Ok(count) = levenshtein(alloc, word, verb.name()) else {
            return None;
        };
        if count < least {
            least = count;
            nearest = Some(*verb);
        }
    }
    nearest
}
