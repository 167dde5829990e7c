//! The parts that every interner is built of: errors, capacities, limits, keys, the memory of texts, the
//! index from a text to its position, texts and keys as JSON, and types of offsets. The examples in the docs
//! are what a caller of the crate `lasso` writes, with `rt` the runtime: each is in a test there.
#![tactic(auto)]

pub mod arena;
pub mod bucket;
mod chunks;
pub mod entries;
pub mod guessing;
pub mod hasher;
pub mod index;
pub mod iter;
pub mod json;
pub mod keys;
pub mod laws;
pub mod memory;
pub mod offsets;
pub mod same;
pub mod util;
