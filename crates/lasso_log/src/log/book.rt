//! The book that a log is written in: its notes, the rule that it keeps, what a step asks to add, and looks that take no step.
pub(super) mod looks;
pub mod note;
pub(super) mod proposals;
pub mod rule;
