//! The log of an interner that threads share: the list of its texts, the memory that they are in, and the words by which
//! threads change them without a lock, under one rule.
#![tactic(auto)]

pub mod chunks;
pub mod log;
pub mod shared_memory;
