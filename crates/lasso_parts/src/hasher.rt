//! A fast hasher of texts that starts from a seed of 128 bits.
//!
//! Whoever doesn't know the seed can't choose texts that collide, as far as is known: each multiplication has a part of the seed in both of
//! its factors, so that no text makes a product 0 but by a guess of 64 bits. That is no proof, as there is one for no fast hash;
//! SipHash has more years of study.
ghost use Rattle.std.specs.Prelude.{◌≡◌, ◌+◌, ◌≤◌, ◌<◌, length};
ghost use Rattle.lasso_parts.specs.TextHash as text_hash;
ghost use Rattle.lasso_parts.specs.TextHash.{seeded};

use crate::chunks::first;
use std::hash::{BuildHasher, Hasher};
use std::random::RandomSource;
use std::{fmt, io};

// How many bytes one multiplication takes.
const LANE: usize = 16;

const LOW_HALF: u128 = 0xffff_ffff_ffff_ffff;

/// What hashers of texts start from: a seed of 128 bits. It is a `BuildHasher` for interners and maps.
///
/// ```rust
/// let hasher = TextState::with_seed(7, 9);
/// let mut rodeo: Rodeo<Spur, TextState, Global> = Rodeo::with_hasher(rt.alloc(), hasher)?;
/// let key = rodeo.try_get_or_intern("sky")?;
/// assert!(rt; rodeo.get("sky") == Some(key));
/// ```
#[derive(Clone, Copy, PartialEq, Eq)]
pub struct TextState {
    state: u64,
    factor: u64,
}

/// A hasher of texts at work.
#[derive(Clone, Copy)]
pub struct TextHasher {
    state: u64,
    factor: u64,
}

impl TextState {
    /// The fixed seed, which is public: the same texts have the same hashes in every run, and whoever chooses the texts can
    /// make them collide. It is the seed 0, 0.
    pub const fn new() -> Self
        ensures { result ≡ seeded 0 0 }
    {
        TextState::with_seed(0, 0)
    }

    /// The seed of these two numbers.
    pub const fn with_seed(seed0: u64, seed1: u64) -> Self
        ensures { result ≡ seeded seed0 seed1 }
    {
        TextState {
            state: seed0 ^ 0x243f_6a88_85a3_08d3,
            factor: seed1 ^ 0x1319_8a2e_0370_7344,
        }
    }

    /// A seed of 16 random bytes of the source, as std's `RandomState` takes them. It fails if the source does.
    pub fn random(source: &impl RandomSource) -> io::Result<Self> {
        let mut bytes = [0; 16];
        source.fill_bytes(&mut bytes)?;
        let seeds = u128::from_le_bytes(bytes);
        Ok(TextState::with_seed((seeds & LOW_HALF) as u64, (seeds >> 64) as u64))
    }
}

impl Default for TextState {
    ghost is_default = { λ hasher. hasher ≡ seeded 0 0 };

    fn default() -> Self {
        TextState::new()
    }
}

// The seed is not shown.
impl fmt::Debug for TextState {
    fn fmt<W: fmt::Write>(&self, f: &mut fmt::Formatter<W>) -> fmt::Result {
        f.debug_struct("TextState").finish_non_exhaustive()
    }
}

impl BuildHasher for TextState {
    type Hasher = TextHasher;

    ghost build_hasher = { text_hash.started };

    #[inline(always)]
    fn build_hasher(&self) -> TextHasher {
        TextHasher {
            state: self.state,
            factor: self.factor,
        }
    }
}

impl Hasher for TextHasher {
    ghost write = { text_hash.written };

    ghost finish = { text_hash.finished };

    #[inline(always)]
    fn finish(&self) -> u64 {
        self.state
    }

    #[inline(always)]
    fn write(&mut self, bytes: &[u8]) {
        self.state = hash_bytes(self.state, self.factor, bytes);
    }
}

// The state after the bytes.
#[tactic(auto, unfolding(crate::specs::TextHash::after))]
#[inline(always)]
fn hash_bytes(state: u64, factor: u64, bytes: &[u8]) -> u64
    ensures { result ≡ text_hash.after state factor bytes.now }
{
    if bytes.len() <= LANE {
        hash_short(state, factor, bytes)
    } else {
        hash_long(state, factor, bytes)
    }
}

// The state after at most sixteen bytes.
#[tactic(auto, unfolding(crate::specs::TextHash::after_short))]
#[inline(always)]
fn hash_short(state: u64, factor: u64, bytes: &[u8]) -> u64
    requires { length bytes.now ≤ LANE }
    ensures { result ≡ text_hash.after_short state factor bytes.now }
{
    let last = factor.rotate_left((bytes.len() % 64) as u32);
    let (head, tail) = ends(bytes);
    folded(head ^ state, tail ^ last)
}

// The state after more bytes than sixteen.
#[inline]
fn hash_long(state: u64, factor: u64, bytes: &[u8]) -> u64
    requires { LANE < length bytes.now }
    ensures { result ≡ text_hash.after_long state factor bytes.now }
{
    let len = bytes.len();
    let last = factor.rotate_left((len % 64) as u32);
    let mut now = state;
    let mut at = 0;
    while len - at > LANE {
        now = folded(word(bytes, at) ^ now, word(bytes, at + 8) ^ factor);
        at += LANE;
    }
    folded(word(bytes, len - 16) ^ now, word(bytes, len - 8) ^ last)
}

// The two halves of the product, joined by xor.
#[tactic(auto, unfolding(crate::specs::TextHash::folded))]
#[inline(always)]
fn folded(a: u64, b: u64) -> u64
    ensures { result ≡ text_hash.folded a b }
{
    let product = a as u128 * b as u128;
    (product & LOW_HALF) as u64 ^ (product >> 64) as u64
}

// The eight bytes from the index on.
#[tactic(auto, unfolding(crate::specs::TextHash::word))]
#[inline(always)]
fn word(bytes: &[u8], at: usize) -> u64
    requires { at + 8 ≤ length bytes.now }
    ensures { result ≡ text_hash.word bytes.now at }
{
    u64::from_le_bytes(*first::<8>(&bytes[at..]))
}

// The four bytes from the index on.
#[tactic(auto, unfolding(crate::specs::TextHash::half_word))]
#[inline(always)]
fn half_word(bytes: &[u8], at: usize) -> u64
    requires { at + 4 ≤ length bytes.now }
    ensures { result ≡ text_hash.half_word bytes.now at }
{
    u32::from_le_bytes(*first::<4>(&bytes[at..])) as u64
}

// One to three bytes.
#[tactic(auto, unfolding(crate::specs::TextHash::few))]
#[inline(always)]
fn few(bytes: &[u8]) -> u64
    requires { 0 < length bytes.now }
    ensures { result ≡ text_hash.few bytes.now }
{
    let len = bytes.len();
    bytes[0] as u64 + 256 * bytes[len / 2] as u64 + 65536 * bytes[len - 1] as u64
}

// The first bytes and the last of at most sixteen.
#[tactic(auto, unfolding(crate::specs::TextHash::head, crate::specs::TextHash::tail))]
#[inline(always)]
fn ends(bytes: &[u8]) -> (u64, u64)
    ensures head { result.0 ≡ text_hash.head bytes.now }
    ensures tail { result.1 ≡ text_hash.tail bytes.now }
{
    let len = bytes.len();
    if len >= 8 {
        (word(bytes, 0), word(bytes, len - 8))
    } else if len >= 4 {
        (half_word(bytes, 0), half_word(bytes, len - 4))
    } else if len > 0 {
        (few(bytes), 0)
    } else {
        (0, 0)
    }
}

/// The hash of the text under the seed, as an interner computes it.
///
/// ```rust
/// assert!(rt; hash_with_seed(7, 9, "sky") == hash_with_seed(7, 9, "sky"));
/// ```
pub fn hash_with_seed(seed0: u64, seed1: u64, text: &str) -> u64
    ensures { result ≡ text_hash.text_hash seed0 seed1 text.now }
{
    crate::index::hash_text(&TextState::with_seed(seed0, seed1), text)
}
