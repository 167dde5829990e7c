//! Tests of `lasso` by its public calls: the examples of the front page, each copied as it is into a test; those in
//! the documents of the calls, as tests that make the same calls; tests and laws of the interfaces; and tests of the
//! examples in `lasso_guide`, with values worked out by hand. The tests in `refused` are of calls that may run out of
//! memory.
#![tactic(auto)]

#[cfg(test)]
mod counting;
#[cfg(test)]
mod interfaces;
pub mod laws;
#[cfg(test)]
mod owning;
#[cfg(test)]
mod refused;
#[cfg(test)]
mod shared_interfaces;
#[cfg(test)]
mod steps;
