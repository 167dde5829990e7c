//! Encodes a column of texts by several threads over one shared interner.
//!
//! `lasso_columns` has the calls over interners of one thread. These are apart from it, so that whoever needs no
//! shared interner does without that one and its locks.
#![tactic(auto)]

mod sharing;

pub use sharing::{encode_shared, encode_shared_as};
