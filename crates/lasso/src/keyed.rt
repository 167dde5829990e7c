//! A hasher whose keys the caller gives: SipHash-1-3, for texts that someone else chooses.
//!
//! The hasher of the makers that name none has a fixed seed. Whoever knows it can choose texts that collide, and a search
//! then compares with each of them. SipHash with keys that nobody else knows leaves no way to choose such texts.
ghost use Rattle.lasso.specs.Keyed.{HasKeys, keyed_hasher_of};

use core::hash::keyed_hasher;
use std::hash::{BuildHasher, DefaultHasher};

/// Makes hashers of SipHash-1-3 with two keys of 64 bits. `keyed_by` takes them from 16 bytes.
#[derive(Clone, Copy)]
pub struct KeyedState {
    key0: u64,
    key1: u64,
}

impl BuildHasher for KeyedState {
    type Hasher = DefaultHasher;

    ghost build_hasher = { keyed_hasher_of };

    fn build_hasher(&self) -> DefaultHasher {
        keyed_hasher(self.key0, self.key1)
    }
}

/// The state that has these keys: the first eight bytes are one key, the last eight the other, each with its
/// lowest byte first. Equal keys give equal hashes in every run. If the keys need not be known,
/// `RandomState::new(&rt)` of std takes them from the system.
///
/// ```rust
/// let hasher = keyed_by(*b"sixteen of bytes");
/// let mut rodeo: Rodeo<Spur, KeyedState, Global> = Rodeo::with_hasher(rt.alloc(), hasher)?;
/// let key = rodeo.try_get_or_intern("chosen by a stranger")?;
/// assert!(rt; rodeo.get("chosen by a stranger") == Some(key));
/// ```
pub fn keyed_by(keys: [u8; 16]) -> KeyedState
    ensures { HasKeys result keys }
{
    let keys = u128::from_le_bytes(keys);
    KeyedState {
        key0: (keys & 0xFFFF_FFFF_FFFF_FFFF) as u64,
        key1: (keys >> 64) as u64,
    }
}
