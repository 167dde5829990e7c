//! Turns columns of texts into columns of codes, and back.
//!
//! `encode` and `encode_lines` hash with their interner's hasher, which may be any. The threads of
//! `encode_in_parts` hash with a fixed seed. Whoever chooses the texts can make them collide, and a search then
//! takes time linear in their number.
#![tactic(auto)]

mod ahead;
mod blocks;
pub mod counts;
mod decoding;
mod encoding;
mod faults;
mod finding;
mod interners;
pub mod laws;
mod layout;
mod line_texts;
mod merging;
mod parts;
mod reading;
mod reading_blocks;
mod rounds;
mod rows;
mod stream;
mod writing;

pub use blocks::{Block, encode_block, encode_blocks};
pub use decoding::decode;
pub use encoding::encode_lines;
pub use faults::{DecodeError, LineError, ReadError, WriteError};
pub use finding::{FindError, find_codes, own_codes};
pub use interners::{SpurRodeo, SpurRodeoReader};
pub use lasso_parts::offsets::Offset;
pub use lasso_single::coding::encode;
pub use layout::Layout;
pub use line_texts::LineTexts;
pub use merging::merge;
pub use parts::encode_in_parts;
pub use reading::{append_dictionary, read_dictionary};
pub use rounds::{put_block, put_blocks};
pub use rows::{NULL, encode_rows, is_null};
pub use stream::{Rounds, StreamEncoder, StreamError, encode_stream, encode_stream_by};
pub use writing::{Dictionary, write_dictionary};
