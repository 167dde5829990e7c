//! Tables of slots: how many there are, and how a new one gets the keys of another.
ghost use Rattle.std.specs.Prelude.{◌≡◌, ◌<◌, ◌≤◌, ◌^◌, length, replicate, None, IfSome, IfNone, IfOk};
ghost use Rattle.lasso_parts.specs.Hashing.{hash_by};
ghost use Rattle.lasso_parts.specs.Index.{used, load_limit, grown_count, IsFewest, IsVacant, StaysFiled};
ghost use Rattle.lasso_parts.specs.IndexTable.{AllInList, HoldsAgain, HoldsFirst, IsEntered, IsSlotCount, KeepsFiled};
ghost use Rattle.lasso_parts.specs.Texts.{Fits};

use crate::index::hashes_ahead::HashesAhead;
use crate::index::hashing::hash_text;
use crate::index::key_slots::KeySlots;
use crate::index::lists::Texts;
use crate::index::probe::{fingerprint_of, free_slot};
use crate::keys::Key;
use std::alloc::{AllocError, Allocator};
use std::hash::BuildHasher;

// The fewest slots of a table that has any.
const FIRST_SLOTS: usize = 8;

// The least count of slots in which `capacity` keys fit, or none if a `usize` can't hold it.
pub fn slot_count(capacity: usize) -> Option<usize>
    ensures count { IfSome result IsSlotCount }
    ensures enough { IfSome result (λ n. capacity ≤ load_limit n) }
    ensures fewest { IfSome result (IsFewest capacity) }
    ensures missing { IfNone result (load_limit (2 ^ 63) < capacity) }
{
    if capacity == 0 {
        return Some(0);
    }
    let mut count = FIRST_SLOTS;
    while count / 4 * 3 < capacity {
        if count > usize::MAX / 2 {
            return None;
        }
        count *= 2;
    }
    Some(count)
}

// The count of slots after a growth, or none if a `usize` can't hold it.
pub fn grown_slots(count: usize) -> Option<usize>
    ensures value { IfSome result (λ n. n ≡ grown_count count) }
    ensures missing { IfNone result (2 ^ 64 ≤ grown_count count) }
{
    if count == 0 {
        return Some(FIRST_SLOTS);
    }
    count.checked_mul(2)
}

// Enters the key under the hash of its text, in the empty slot where the search for the hash ends.
#[inline]
pub fn enter<K: Key, A: Allocator>(slots: &mut KeySlots<K, A>, hash: u64, key: K)
    requires { used slots.old.slots < length slots.old.slots }
    ensures entered { IsEntered (K.number key) slots.old slots.new }
    ensures filed { StaysFiled hash (K.number key) slots.old slots.new }
    ensures small { length slots.old.slots < 2 ^ 64 }
{
    let at = free_slot(slots, hash);
    enter_at(slots, at, hash, key);
}

// Enters the key under the hash of its text in a slot where the search for the hash ends.
#[inline]
pub fn enter_at<K: Key, A: Allocator>(slots: &mut KeySlots<K, A>, at: usize, hash: u64, key: K)
    requires { IsVacant hash at slots.old.slots }
    ensures entered { IsEntered (K.number key) slots.old slots.new }
    ensures filed { StaysFiled hash (K.number key) slots.old slots.new }
    ensures small { length slots.old.slots < 2 ^ 64 }
{
    slots.put(at, fingerprint_of(hash), key);
}

// Enters a key of the list, whose text is hashed anew.
fn enter_again<K: Key, A: Allocator, T: Texts, S: BuildHasher>(
    slots: &mut KeySlots<K, A>,
    key: K,
    texts: &T,
    hasher: &S,
)
    requires in_list { K.number key < length (T.list texts.now) }
    requires free { used slots.old.slots < length slots.old.slots }
    ensures entered { IsEntered (K.number key) slots.old slots.new }
    ensures filed { KeepsFiled (hash_by S.BuildHasher S.Hasher.Hasher hasher.now) (T.list texts.now) slots.old slots.new }
{
    let text = texts.text_at(key.into_usize());
    enter(slots, hash_text(hasher, text), key);
}

// Enters the keys of the old slots into the new ones, which are empty.
fn refill<K: Key, A: Allocator, T: Texts, S: BuildHasher>(
    slots: &mut KeySlots<K, A>,
    old: &KeySlots<K, A>,
    texts: &T,
    hasher: &S,
)
    requires in_list { AllInList (T.list texts.now) old.now.slots }
    requires empty { slots.old.slots ≡ replicate (length slots.old.slots) None }
    requires load { used old.now.slots < length slots.old.slots }
    ensures len { length slots.new.slots ≡ length slots.old.slots }
    ensures refilled { HoldsAgain (hash_by S.BuildHasher S.Hasher.Hasher hasher.now) (T.list texts.now) old.now.slots slots.new }
{
    let mut ahead = HashesAhead::new();
    for j in 0..old.len() {
        if let Some(key) = old.get(j) {
            let hash = ahead.hash_at(old, j, texts, hasher);
            enter(slots, hash, key);
        }
    }
}

// Enters the keys of the first positions of the list into slots that are empty, one position after another.
fn refill_in_order<K: Key, A: Allocator, T: Texts, S: BuildHasher>(
    slots: &mut KeySlots<K, A>,
    len: usize,
    texts: &T,
    hasher: &S,
)
    requires in_list { len ≤ length (T.list texts.now) }
    requires fits { Fits K.key_at len }
    requires empty { slots.old.slots ≡ replicate (length slots.old.slots) None }
    requires load { len < length slots.old.slots }
    ensures len { length slots.new.slots ≡ length slots.old.slots }
    ensures refilled { HoldsFirst (hash_by S.BuildHasher S.Hasher.Hasher hasher.now) (T.list texts.now) len slots.new }
{
    for position in 0..len {
        let Some(key) = K::try_from_usize(position) else {
            unreachable!();
        };
        enter_again(slots, key, texts, hasher);
    }
}

// Enters the keys of a table into a new one of `count` slots.
pub fn rebuilt<K: Key, A: Allocator + Clone, T: Texts, S: BuildHasher>(
    alloc: A,
    count: usize,
    old: &KeySlots<K, A>,
    texts: &T,
    hasher: &S,
) -> Result<KeySlots<K, A>, AllocError>
    requires in_list { AllInList (T.list texts.now) old.now.slots }
    requires load { used old.now.slots < count }
    ensures len { IfOk result (λ table. length table.slots ≡ count) }
    ensures refilled { IfOk result (λ table. HoldsAgain (hash_by S.BuildHasher S.Hasher.Hasher hasher.now) (T.list texts.now) old.now.slots table) }
{
    let mut slots = KeySlots::empty(alloc, count)?;
    refill(&mut slots, old, texts, hasher);
    Ok(slots)
}

// The keys of the first `len` positions of the list in a new table of `count` slots.
#[inline(never)]
pub fn rebuilt_in_order<K: Key, A: Allocator + Clone, T: Texts, S: BuildHasher>(
    alloc: A,
    count: usize,
    len: usize,
    texts: &T,
    hasher: &S,
) -> Result<KeySlots<K, A>, AllocError>
    requires in_list { len ≤ length (T.list texts.now) }
    requires fits { Fits K.key_at len }
    requires load { len < count }
    ensures len { IfOk result (λ table. length table.slots ≡ count) }
    ensures refilled { IfOk result (λ table. HoldsFirst (hash_by S.BuildHasher S.Hasher.Hasher hasher.now) (T.list texts.now) len table) }
{
    let mut slots = KeySlots::empty(alloc, count)?;
    refill_in_order(&mut slots, len, texts, hasher);
    Ok(slots)
}
