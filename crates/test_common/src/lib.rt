//! What the tests of several crates share: key types that lack numbers, hashers that choose a text's shard
//! and slot or count texts, an allocator that refuses a request, lists of texts, texts that collide, and
//! pseudorandom numbers.
#![tactic(auto)]

pub mod hashers;
pub mod keys;
pub mod refusing;
pub mod texts;
