//! The slots of a table, each empty or with a key: a list of the slots' fingerprints, a byte each, and a list of
//! keys.
ghost use Rattle.std.specs.Prelude.{◌≡◌, ◌≢◌, ℕ, ◌<◌, ◌≤◌, ◌^◌, ◌⊎◌, [], None, Some};
ghost use Rattle.std.specs.Prelude.{length, replicate, slice_set, slice_index_or, option_map, IfOk};
ghost use Rattle.std.specs.Vec.{vec_capacity};
ghost use Rattle.lasso_parts.specs.Index.{slot, SetsFingerprint};

use crate::keys::Key;
use crate::memory::list_bytes;
use std::alloc::{AllocError, Allocator};
use std::marker::Model;
use std::mem::size_of_val;

/// The slots of a table. Slot j is empty if its fingerprint is 0, and then the key at its position means nothing.
/// There are keys if there is memory for a slot. Before the first key is put there is no key to fill them
/// with, so they are made then, in memory allocated earlier. Contracts see the position that each slot's key
/// stands for, and the fingerprints.
#[derive(Drop)]
pub struct KeySlots<K: Key, A: Allocator> {
    fingerprints: Vec<u8, A>,
    keys: Option<Vec<K, A>>,
}

impl<K: Key, A: Allocator> Model for KeySlots<K, A> {
    ghost use Rattle.lasso_parts.specs.Index.{Table};
    ghost use Rattle.lasso_parts.specs.KeySlots.{keys_of, key_room, table_of, IsLaidOut};

    ghost Value = { Table };

    ghost view = { λ s. table_of K.number s.fingerprints.items (keys_of s.keys) };

    ghost invariant = { λ s. IsLaidOut s.fingerprints.items (keys_of s.keys) (key_room s.keys) };
}

impl<K: Key, A: Allocator> KeySlots<K, A> {
    /// No slots, which take no memory.
    pub(crate) fn new(alloc: A) -> Self
        ensures { result.slots ≡ [] }
    {
        KeySlots {
            fingerprints: Vec::new(alloc),
            keys: None,
        }
    }

    /// `count` empty slots, with all the memory that they will take.
    pub fn empty(alloc: A, count: usize) -> Result<Self, AllocError>
    where
        A: Clone,
        ensures { IfOk result (λ table. table.slots ≡ replicate count None) }
    {
        let fingerprints = zero_fingerprints(alloc.clone()?, count)?;
        let keys = Vec::with_capacity(alloc, count)?;
        Ok(KeySlots {
            fingerprints,
            keys: Some(keys),
        })
    }

    /// How many slots there are.
    #[inline]
    pub fn len(&self) -> usize
        ensures { result ≡ length self.now.slots }
    {
        self.fingerprints.len()
    }

    /// How many bytes the allocator gave: for the keys, and one byte for the fingerprint of each. If the key type has no key
    /// at all, only the fingerprints are counted.
    pub(crate) fn allocated_bytes(&self) -> usize {
        let fingerprints = list_bytes(&self.fingerprints, 1);
        match &self.keys {
            Some(keys) => fingerprints.saturating_add(list_bytes(keys, key_bytes::<K>())),
            None => fingerprints,
        }
    }
    /// The allocator of their memory.
    pub(crate) fn allocator(&self) -> &A {
        self.fingerprints.allocator()
    }

    /// The fingerprints of the slots. That of an empty slot is 0.
    #[inline]
    pub(crate) fn fingerprints(&self) -> &[u8]
        ensures value { result.now ≡ self.now.fingerprints }
        ensures len { length result.now ≡ length self.now.slots }
        ensures empty { (j : ℕ) → j < length self.now.slots → slice_index_or self.now.fingerprints j 0 ≡ 0 → slot self.now.slots j ≡ None }
        ensures filled { (j : ℕ) → j < length self.now.slots → slice_index_or self.now.fingerprints j 0 ≢ 0 → slot self.now.slots j ≢ None }
    {
        self.fingerprints.as_slice()
    }

    /// The key of a slot that is not empty.
    #[inline]
    pub(crate) fn key(&self, j: usize) -> K
        requires { slot self.now.slots j ≢ None }
        ensures { slot self.now.slots j ≡ Some (K.number result) }
    {
        let Some(keys) = &self.keys else {
            unreachable!();
        };
        keys[j]
    }

    /// Reads the slot's key before it is known whether the slot is empty, so that the processor waits for its memory and for
    /// that of the fingerprints at once. Returns whether there is one; it may mean nothing.
    #[inline(always)]
    pub(crate) fn has_read_key(&self, j: usize) -> bool {
        match &self.keys {
            Some(keys) => match keys.get(j) {
                Some(key) => key.into_usize() != usize::MAX,
                None => false,
            },
            None => false,
        }
    }

    /// The key of the slot, or `None` if it is empty.
    pub fn get(&self, j: usize) -> Option<K>
        requires { j < length self.now.slots }
        ensures { option_map K.number result ≡ slot self.now.slots j }
    {
        if self.fingerprints()[j] == 0 {
            return None;
        }
        Some(self.key(j))
    }

    /// Puts the key in the slot, with a fingerprint that is not 0.
    #[inline]
    pub fn put(&mut self, j: usize, fingerprint: u8, key: K)
        requires inside { j < length self.old.slots }
        requires filled { 0 < fingerprint }
        ensures slots { self.new.slots ≡ slice_set self.old.slots j (Some (K.number key)) }
        ensures fingerprints { SetsFingerprint self.old self.new j fingerprint }
        ensures small { length self.old.slots < 2 ^ 64 }
    {
        let Some(keys) = &mut self.keys else {
            unreachable!();
        };
        make_keys(keys, self.fingerprints.len(), key);
        keys[j] = key;
        self.fingerprints[j] = fingerprint;
    }

    /// Empties each slot. The memory stays.
    pub fn clear(&mut self)
        ensures { self.new.slots ≡ replicate (length self.old.slots) None }
    {
        self.fingerprints.fill(0);
    }
}

// `count` fingerprints. Each is 0.
fn zero_fingerprints<A: Allocator>(alloc: A, count: usize) -> Result<Vec<u8, A>, AllocError>
    ensures { IfOk result (λ fingerprints. fingerprints.items ≡ replicate count 0) }
{
    let mut fingerprints = Vec::with_capacity(alloc, count)?;
    fingerprints.resize(count, 0)?;
    Ok(fingerprints)
}

// Makes the keys, unless they are made already.
#[inline]
fn make_keys<K: Key, A: Allocator>(keys: &mut Vec<K, A>, count: usize, key: K)
    requires made { (keys.old.items ≡ []) ⊎ (length keys.old.items ≡ count) }
    requires room { count ≤ vec_capacity keys.old }
    ensures len { length keys.new.items ≡ count }
    ensures same { (keys.old.items ≡ []) ⊎ (keys.new.items ≡ keys.old.items) }
    ensures room { vec_capacity keys.old ≤ vec_capacity keys.new }
{
    if keys.is_empty() {
        fill(keys, count, key);
    }
}

// Makes `count` keys where there are none, each a copy of `key`.
#[cold]
fn fill<K: Key, A: Allocator>(keys: &mut Vec<K, A>, count: usize, key: K)
    requires none { keys.old.items ≡ [] }
    requires room { count ≤ vec_capacity keys.old }
    ensures len { length keys.new.items ≡ count }
    ensures room { vec_capacity keys.old ≤ vec_capacity keys.new }
{
    match keys.resize(count, key) {
        Ok(()) => {}
        Err(_) => unreachable!(),
    }
}

// How many bytes a key has, if the type has one.
fn key_bytes<K: Key>() -> usize {
    match K::try_from_usize(0) {
        Some(key) => size_of_val(&key),
        None => 0,
    }
}
