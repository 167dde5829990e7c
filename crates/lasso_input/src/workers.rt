//! How many threads may share the work on an input.

/// The greatest number of workers. A program that is told how many threads share its work takes 1 to this number.
pub const MAX_WORKERS: usize = 64;
