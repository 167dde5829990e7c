//! The interner that threads share: its shards over one log, its calls, and the laws of its history.
#![tactic(auto)]

pub mod laws;
pub mod machine;
pub mod shards;
pub mod threaded;
