//! The hashes of texts whose keys go from a table into a new one.
//!
//! The texts of slots that are side by side are far apart, and the processor waits for memory twice for each:
//! for what says where the text is, and for its bytes. So each of these steps is taken for many slots before
//! the next one, and the processor waits for all of them at once.
ghost use Rattle.std.specs.Prelude.{◌≡◌, ◌+◌, ◌<◌, ◌≤◌, ℕ, Some, length, map, slice_get};
ghost use Rattle.lasso_parts.specs.Hashing.{hash_by};
ghost use Rattle.lasso_parts.specs.Index.{slot};
ghost use Rattle.lasso_parts.specs.IndexTable.{AllInList, AreTextsFrom, IsHashAt, KnowsHashes};

use crate::index::hashing::hash_text;
use crate::index::key_slots::KeySlots;
use crate::index::lists::Texts;
use crate::keys::Key;
use std::alloc::Allocator;
use std::hash::BuildHasher;

// How many slots are looked at together.
const TOGETHER: usize = 32;

/// The hashes of the texts of `size` slots, from the first one on.
#[derive(Drop)]
pub struct HashesAhead {
    first: usize,
    size: usize,
    each: [u64; TOGETHER],
}

impl HashesAhead {
    /// No hashes.
    pub fn new() -> Self
        ensures { (result.size ≡ 0) × (length result.each ≡ 32) }
    {
        HashesAhead {
            first: 0,
            size: 0,
            each: [0; TOGETHER],
        }
    }

    /// The hash of the text of slot j, which is not empty. If it is not known yet, those of the slots from j on
    /// are found.
    #[inline]
    pub fn hash_at<K: Key, A: Allocator, T: Texts, S: BuildHasher>(
        &mut self,
        old: &KeySlots<K, A>,
        j: usize,
        texts: &T,
        hasher: &S,
    ) -> u64
        requires in_list { AllInList (T.list texts.now) old.now.slots }
        requires inside { j < length old.now.slots }
        requires known { KnowsHashes (hash_by S.BuildHasher S.Hasher.Hasher hasher.now) (T.list texts.now) old.now.slots self.old.first self.old.size self.old.each }
        ensures known { KnowsHashes (hash_by S.BuildHasher S.Hasher.Hasher hasher.now) (T.list texts.now) old.now.slots self.new.first self.new.size self.new.each }
        ensures hash { IsHashAt (hash_by S.BuildHasher S.Hasher.Hasher hasher.now) (T.list texts.now) old.now.slots j result }
    {
        if j >= self.first && j - self.first < self.size {
            return self.each[j - self.first];
        }
        self.look_from(old, j, texts, hasher);
        self.each[0]
    }

    // Finds the hashes of the texts of the slots from the first one on.
    #[inline(never)]
    fn look_from<K: Key, A: Allocator, T: Texts, S: BuildHasher>(
        &mut self,
        old: &KeySlots<K, A>,
        first: usize,
        texts: &T,
        hasher: &S,
    )
        requires in_list { AllInList (T.list texts.now) old.now.slots }
        requires inside { first < length old.now.slots }
        requires all { length self.old.each ≡ 32 }
        ensures from { (self.new.first ≡ first) × (0 < self.new.size) }
        ensures known { KnowsHashes (hash_by S.BuildHasher S.Hasher.Hasher hasher.now) (T.list texts.now) old.now.slots self.new.first self.new.size self.new.each }
    {
        let size = (old.len() - first).min(TOGETHER);
        let there = texts_from(old, first, size, texts);
        for place in 0..size {
            self.each[place] = hash_text(hasher, there[place]);
        }
        self.first = first;
        self.size = size;
    }
}

// The texts of `size` slots from the first one on. For an empty slot it has the empty text.
fn texts_from<'a, K: Key, A: Allocator, T: Texts>(
    old: &KeySlots<K, A>,
    first: usize,
    size: usize,
    texts: &'a T,
) -> [&'a str; TOGETHER]
    requires in_list { AllInList (T.list texts.now) old.now.slots }
    requires inside { first + size ≤ length old.now.slots }
    requires few { size ≤ 32 }
    ensures all { length result ≡ 32 }
    ensures texts { AreTextsFrom (T.list texts.now) old.now.slots first size (map (λ t. t.now) result) }
{
    // The count of slots fits in 64 bits, so no sum overflows.
    let _count = old.len();
    let mut found = [""; TOGETHER];
    for place in 0..size {
        found[place] = text_of(old, first + place, texts);
    }
    found
}

// The text of slot j, or the empty text if the slot is empty.
#[inline(always)]
fn text_of<'a, K: Key, A: Allocator, T: Texts>(
    old: &KeySlots<K, A>,
    j: usize,
    texts: &'a T,
) -> &'a str
    requires in_list { AllInList (T.list texts.now) old.now.slots }
    requires inside { j < length old.now.slots }
    ensures { (n : ℕ) → slot old.now.slots j ≡ Some n → slice_get (T.list texts.now) n ≡ Some result.now }
{
    match old.get(j) {
        Some(key) => texts.text_at(key.into_usize()),
        None => "",
    }
}
