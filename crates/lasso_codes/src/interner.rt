//! Makes interners for lines.
ghost use Rattle.std.specs.Prelude.{◌≡◌, IfOk, IfErr};
ghost use Rattle.lasso_single.specs.Interner.{made_with};
ghost use Rattle.lasso_columns.specs.declared.faults.LineError.TheVariants.{Refused};
ghost use Rattle.lasso_parts.specs.declared.util.LassoErrorKind.TheVariants.{FailedAllocation};

use crate::error::RunError;
use lasso_columns::SpurRodeo;
use lasso_parts::hasher::TextState;
use lasso_parts::util::{Capacity, MemoryLimits};
use lasso_single::rodeo::Rodeo;
use std::alloc::Global;

/// A new interner for lines, which hashes by this seed.
///
/// # Errors
/// Out of memory, with the line number 0.
pub fn new_rodeo(
    alloc: Global,
    limits: MemoryLimits,
    hasher: TextState,
) -> Result<SpurRodeo, RunError>
    ensures made { IfOk result (λ rodeo. rodeo ≡ made_with 4096 limits) }
    ensures refused { IfErr result (λ error. error ≡ RunError.Line (Refused 0 FailedAllocation)) }
{
    let capacity = Capacity::default();
    match Rodeo::with_capacity_memory_limits_and_hasher(alloc, capacity, limits, hasher) {
        Ok(rodeo) => Ok(rodeo),
        Err(_) => Err(RunError::no_memory(0)),
    }
}
