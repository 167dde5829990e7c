//! Tests of `lasso_parts` through its public calls: keys, errors, capacities and limits, the memory of texts, the
//! index, and texts and keys as JSON. Tests of the interner for one thread and of its frozen forms.
#![tactic(auto)]

#[cfg(test)]
mod arena;
#[cfg(test)]
mod commands;
#[cfg(test)]
mod hashing;
#[cfg(test)]
mod index;
#[cfg(test)]
mod interners;
#[cfg(test)]
mod refusals;
#[cfg(test)]
mod rodeo;
#[cfg(test)]
mod values;
