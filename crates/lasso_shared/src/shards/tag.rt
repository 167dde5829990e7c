//! What distinguishes the locks of interners, and the shard that a text is of.
ghost use Rattle.std.specs.Prelude.{◌≡◌, ◌<◌};
ghost use Rattle.lasso_shared.specs.Shards.{shard_of};

use lasso_log::log::Log;
use lasso_parts::keys::Key;
use std::hash::BuildHasher;

/// How many shards there are.
pub const SHARDS: usize = 16;

/// What a shard's lock knows: the log, the hasher, and the number of the shard. A constructor has the first two
/// in here while it makes the locks; what the locks keep of them exists in proofs alone.
#[derive(Drop)]
pub struct ShardTag<K: Key, S: BuildHasher + Drop> {
    pub log: Log<K>,
    pub hasher: S,
    pub number: usize,
}

/// The number of the shard of a hash: its four highest bits.
pub fn number_of(hash: u64) -> usize
    ensures { (result ≡ shard_of hash) × (result < 16) }
{
    (hash >> 60) as usize
}
