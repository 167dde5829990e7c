//! The lines of an input. Each line feed ends a line and is no part of it, and bytes after the last one are a
//! line too.
//!
//! A `Stretch` is what of the input is in memory at one time. It gives one `Line` after another, and looks ahead
//! at them for the interner that they go into. `find_newline`, `after_newline` and `first_line` cut bytes by hand.
//!
//! `text_of` gives each line a text, whatever its bytes are, and `line_of` gives the line back.
//!
//! `MAX_WORKERS` is how many threads may share the work on an input.
#![tactic(auto)]

mod digits;
mod escaping;
pub mod failures;
pub mod laws;
mod line;
mod newlines;
mod numbers;
mod skipping;
mod stretch;
#[cfg(test)]
mod tests;
mod workers;

pub use escaping::{
    MARK, append_escaped, append_line, escape_in, is_let_in, is_marked, line_of, own_text, text_of,
};
pub use line::Line;
pub use newlines::{after_newline, find_newline, first_line};
pub use numbers::parse_digits;
pub use stretch::Stretch;
pub use workers::MAX_WORKERS;
