//! Memory that threads share: bytes that they fill at disjoint places of shared buckets, and read as long as the
//! interner lasts.
pub mod era;
pub mod holding;
pub mod new_bucket;
pub mod piece;
pub mod rights;
