//! Locks that know what they guard: a lock for one thread at a time, a lock for many readers or one writer, and the
//! latch that each keeps its value in.
#![tactic(auto)]

pub mod latch;
pub mod locks;
