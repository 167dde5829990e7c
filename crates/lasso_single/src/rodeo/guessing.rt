//! Guesses at the positions of several texts at a time.
ghost use Rattle.std.specs.Prelude.{◌≡◌, ◌≤◌, Some, IsTrue, IsSome, length, map, slice_get};
ghost use Rattle.lasso_parts.specs.Hashing.{hash_by};
ghost use Rattle.lasso_parts.specs.Index.{IsIndexOf};
ghost use Rattle.lasso_parts.specs.Texts.{key_of, position_of};
ghost use Rattle.lasso_single.specs.Hashes.{AreHashes};

use super::Rodeo;
use crate::batch::TOGETHER;
use crate::text_list::TextList;
use lasso_parts::guessing::guess_position;
use lasso_parts::index::{Index, hash_text};
use lasso_parts::keys::Key;
use lasso_parts::same::{is_alike, is_same};
use std::alloc::Allocator;
use std::hash::BuildHasher;

impl<K: Key, S: BuildHasher, A: Allocator> Rodeo<K, S, A> {
    /// Guesses where the first texts are, `TOGETHER` of them at most, and `usize::MAX` if it has no
    /// guess. Each step is taken for all of them before the next, so that the processor waits for their
    /// memory together.
    #[inline(never)]
    pub(crate) fn guess_all(&self, texts: &[&str], guesses: &mut [usize; TOGETHER]) {
        let batch = &texts[..texts.len().min(TOGETHER)];
        let hashes = hash_all(&self.hasher, batch);
        guess_by(&self.index, &self.list, batch, &hashes, guesses);
    }

    /// Whether the text is at the position.
    #[inline(always)]
    pub(crate) fn is_at(&self, position: usize, text: &str) -> bool
        ensures position { IsTrue result → position_of self.now.texts text.now ≡ Some position }
        ensures key { IsTrue result → IsSome (K.key_at position) }
    {
        has_at(&self.list, position, text)
    }
}

// Whether the list has the text at the position.
#[inline(always)]
fn has_at<A: Allocator>(list: &TextList<A>, position: usize, text: &str) -> bool
    ensures { IsTrue result → slice_get list.now.texts position ≡ Some text.now }
{
    match list.get(position) {
        Some(here) => is_same(here, text),
        None => false,
    }
}

/// The hashes of the texts, of which there are `TOGETHER` at most. After them come zeros.
#[inline(always)]
pub(crate) fn hash_all<S: BuildHasher>(hasher: &S, texts: &[&str]) -> [u64; TOGETHER]
    requires few { length texts.now ≤ 32 }
    ensures all { length result ≡ 32 }
    ensures hashes { AreHashes (hash_by S.BuildHasher S.Hasher.Hasher hasher.now) texts.now (length texts.now) result }
{
    let mut hashes = [0; TOGETHER];
    for i in 0..texts.len() {
        hashes[i] = hash_text(hasher, texts[i]);
    }
    hashes
}

/// Guesses where the texts with these hashes are, as `guess_all` does.
#[inline(always)]
pub(crate) fn guess_by<K: Key, A: Allocator>(
    index: &Index<K, A>,
    list: &TextList<A>,
    texts: &[&str],
    hashes: &[u64; TOGETHER],
    guesses: &mut [usize; TOGETHER],
) {
    let count = texts.len().min(TOGETHER);
    for i in 0..count {
        guesses[i] = guess_position(index, hashes[i]).unwrap_or(usize::MAX);
    }
    let mut seen = [""; TOGETHER];
    for i in 0..count {
        seen[i] = list.get(guesses[i]).unwrap_or("");
    }
    for i in 0..count {
        if !is_alike(seen[i], texts[i]) {
            guesses[i] = usize::MAX;
        }
    }
}

/// The key of the text with that hash, or `None` if it is absent. The guess at its position is looked at first.
#[inline(always)]
pub(crate) fn get_guessed<K: Key, S: BuildHasher, A: Allocator>(
    index: &Index<K, A>,
    list: &TextList<A>,
    hasher: &S,
    text: &str,
    hash: u64,
    guess: usize,
) -> Option<K>
    requires hashed { hash ≡ hash_by S.BuildHasher S.Hasher.Hasher hasher.now text.now }
    requires whole { IsIndexOf (hash_by S.BuildHasher S.Hasher.Hasher hasher.now) list.now.texts index.now }
    ensures { result ≡ key_of K.key_at list.now.texts text.now }
{
    if has_at(list, guess, text) {
        return K::try_from_usize(guess);
    }
    get_hashed(index, list, hasher, text, hash)
}

/// The key of the text with that hash, or `None` if it is absent. It is `get` in line: a loop over many texts
/// saves two calls for each.
#[inline(always)]
pub(crate) fn get_hashed<K: Key, S: BuildHasher, A: Allocator>(
    index: &Index<K, A>,
    list: &TextList<A>,
    hasher: &S,
    text: &str,
    hash: u64,
) -> Option<K>
    requires hashed { hash ≡ hash_by S.BuildHasher S.Hasher.Hasher hasher.now text.now }
    requires whole { IsIndexOf (hash_by S.BuildHasher S.Hasher.Hasher hasher.now) list.now.texts index.now }
    ensures { result ≡ key_of K.key_at list.now.texts text.now }
{
    match index.locate(list, hasher, hash, text) {
        Ok(position) => K::try_from_usize(position),
        Err(_) => None,
    }
}
