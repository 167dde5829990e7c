//! Counts texts next to an interner: a list has the count of each text, at the position of its key.
//!
//! ```rust
//! let mut rodeo: SpurRodeo = Rodeo::default(rt.alloc())?;
//! let mut counts = Vec::new(rt.alloc());
//! for text in ["red", "green", "red"] {
//!     count_text(&mut rodeo, text, &mut counts)?;
//! }
//! assert!(rt; counts.as_slice() == [2, 1].as_slice());
//! ```
mod codes;
mod counting;
mod error;
mod parts;
mod ranking;

pub use codes::count_codes;
pub use counting::{count_next, count_text, count_texts};
pub use error::CountError;
pub use parts::count_in_parts;
pub use ranking::{Ranked, by_frequency, by_frequency_in_parts, sort_in_parts};
