//! Tests of `lasso_lock` and `lasso_log`: latches and locks, chunks of cells, the log of an interner that threads
//! share, and the memory of its texts. Tests of that interner and of its shards, through their public calls only: over
//! many lengths of texts and many limits, to the byte, and by several threads at once.
#![tactic(auto)]

#[cfg(test)]
mod batches;
#[cfg(test)]
mod callers;
#[cfg(test)]
mod checks;
#[cfg(test)]
mod comparing;
#[cfg(test)]
mod crowd;
#[cfg(test)]
mod every_call;
#[cfg(test)]
mod filling;
#[cfg(test)]
mod freezing;
#[cfg(test)]
mod hints;
#[cfg(test)]
mod json;
#[cfg(test)]
mod lengths;
#[cfg(test)]
mod limits;
#[cfg(test)]
mod locks;
#[cfg(test)]
mod many;
#[cfg(test)]
mod setters;
#[cfg(test)]
mod shards;
#[cfg(test)]
mod shared_memory;
#[cfg(test)]
mod showing;
#[cfg(test)]
mod threaded;
