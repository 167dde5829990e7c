//! Callers of an interner, with contracts that your own crate can take as a model. docs/CALLING.md explains
//! them.
#![tactic(auto)]

pub mod any;
pub mod closures;
pub mod compiler;
pub mod errors;
pub mod lexer;
pub mod own_key;
pub mod pairs;
pub mod passes;
pub mod saving;
pub mod scopes;
pub mod spurs;
pub mod symbols;
pub mod text_set;
pub mod word_counts;
