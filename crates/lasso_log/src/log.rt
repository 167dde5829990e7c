//! The history that the passes of a shared interner see: a log that only grows, with the words of the
//! interner and the list of its texts under one rule.
//!
//! - `shared_log` has the log and its steps, `opening` how it begins, `reading` what is read off it.
//! - `book` is what it is written in: notes, and the rule that they keep.
//! - `pass` is what a thread has seen of it. `snapshot` is a history that was seen, with its list.
//! - `spine` is what a thread holds to append. `cells` and `memory` have the texts, `buckets` their bytes.
pub mod book;
pub mod buckets;
pub mod cells;
mod memory;
pub mod opening;
pub mod pass;
pub mod reading;
pub mod shared_log;
pub mod snapshot;
pub mod spine;

pub use buckets::SharedBucket;
pub use buckets::list::BucketList;
pub use cells::ahead::CellsAhead;
pub use cells::kept::KeptCell;
pub use opening::{NewLog, Opened, OpeningTexts};
pub use pass::Pass;
pub use shared_log::Log;
pub use snapshot::Snapshot;
pub use snapshot::known_list::KnownList;
pub use snapshot::seen_list::SeenList;
pub use spine::Spine;
