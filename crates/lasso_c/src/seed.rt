//! How an interner that C holds hashes its texts: fast, with a fixed seed or one of the caller's, or by SipHash with keys of the caller's.
ghost use Rattle.std.specs.Prelude.{◌≡◌, fold};
ghost use Rattle.core.specs.Hash.DefaultHasher.{finish, write};
ghost use Rattle.lasso_c.specs.Seeds.{IsFixed, finished, keyed_seed, started, text_seed, written};

use core::hash::keyed_hasher;
use lasso_parts::hasher::{TextHasher, TextState};
use std::hash::{BuildHasher, DefaultHasher, Hash, Hasher};

/// What an interner's hashers begin with.
#[derive(Clone, Copy)]
pub enum Seed {
    /// The fast hash with a seed of two numbers.
    Text(TextState),
    /// SipHash-1-3 with two keys.
    Keyed(DefaultHasher),
}

/// A hasher at work, of either kind.
#[derive(Clone, Copy)]
pub enum SeededHasher {
    Text(TextHasher),
    Keyed(DefaultHasher),
}

impl Seed {
    // The fixed seed.
    pub(crate) fn fixed() -> Seed
        ensures { IsFixed result }
    {
        Seed::Text(TextState::new())
    }

    // The seed of two numbers, for the fast hash.
    pub(crate) fn text(seed0: u64, seed1: u64) -> Seed
        ensures { result ≡ text_seed seed0 seed1 }
    {
        Seed::Text(TextState::with_seed(seed0, seed1))
    }

    // The seed of two keys.
    pub(crate) fn keyed(key0: u64, key1: u64) -> Seed
        ensures { result ≡ keyed_seed key0 key1 }
    {
        Seed::Keyed(keyed_hasher(key0, key1))
    }
}

impl BuildHasher for Seed {
    type Hasher = SeededHasher;

    ghost build_hasher = { started };

    fn build_hasher(&self) -> SeededHasher {
        match self {
            Seed::Text(state) => SeededHasher::Text(state.build_hasher()),
            Seed::Keyed(hasher) => SeededHasher::Keyed(*hasher),
        }
    }

    // One test of the kind for each text, and not one for each of its writes.
    #[inline(always)]
    fn hash_one<T: Hash + Drop>(&self, x: T) -> u64 {
        match self {
            Seed::Text(state) => state.hash_one(x),
            Seed::Keyed(hasher) => hash_from(*hasher, x),
        }
    }
}

// The hash that the hasher gives the value. Out of line, so that the other kind's hash stays in line.
#[inline(never)]
fn hash_from<T: Hash + Drop>(mut hasher: DefaultHasher, x: T) -> u64
    ensures { result ≡ finish (fold write hasher (T.hash_input x)) }
{
    x.hash(&mut hasher);
    hasher.finish()
}

impl Hasher for SeededHasher {
    ghost write = { written };

    ghost finish = { finished };

    fn finish(&self) -> u64 {
        match self {
            SeededHasher::Text(hasher) => hasher.finish(),
            SeededHasher::Keyed(hasher) => hasher.finish(),
        }
    }

    fn write(&mut self, bytes: &[u8]) {
        match self {
            SeededHasher::Text(hasher) => hasher.write(bytes),
            SeededHasher::Keyed(hasher) => hasher.write(bytes),
        }
    }
}
