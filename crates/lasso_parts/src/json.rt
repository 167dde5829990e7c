//! Texts and keys as JSON values: what they are written as, how they are read, and what is wrong with a
//! value that can't be read.
mod arrays;
mod error;
mod keys;
mod laws;
mod objects;

pub use arrays::{read_array, write_array};
pub use error::JsonError;
pub use keys::JsonKey;
pub use laws::{
    json_faults_exactly, json_object_faults_exactly, json_object_reads_back,
    json_object_reads_exactly, json_reads_back, json_reads_exactly,
};
pub use objects::{read_map, write_map};
