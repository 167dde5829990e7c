//! The search through the slots of a table: from the slot that a hash names to the last one, and then
//! from the first.
ghost use Rattle.std.specs.Prelude.{◌≡◌, ◌≢◌, ℕ, ◌<◌, ◌≤◌, ◌^◌, length, Some, None, IfSome, IfNone, bytes_eq, slice_get};
ghost use Rattle.lasso_parts.specs.Index.{slot, used, home, fingerprint_of, Holds, IsFull, Reaches};
ghost use Rattle.lasso_parts.specs.IndexTable.{AllInList, HaveFingerprint};
ghost use Rattle.lasso_parts.specs.Scan.{Tells};

use crate::index::groups::{first_in_group, passed_over};
use crate::index::key_slots::KeySlots;
use crate::index::lists::Texts;
use crate::keys::Key;
use crate::same::is_same;
use std::alloc::Allocator;

// How many bits of a hash are below those of the fingerprint.
const FINGERPRINT_SHIFT: u32 = 53;

// How many fingerprints a text may have.
const FINGERPRINT_COUNT: u64 = 128;

// What a walk over a range of slots tells.
#[derive(Drop)]
pub enum Scan {
    // The position of a key of the text.
    Found(usize),
    // This empty slot ended it.
    Ended(usize),
    // It saw each slot of the range.
    Passed,
}

// The slot where the search for the hash begins: the count is a power of two, so that the lowest bits
// of the hash name a slot.
#[inline]
pub fn home_slot(hash: u64, count: usize) -> usize
    requires { 0 < count }
    ensures value { result ≡ home count hash }
    ensures bound { result < count }
{
    hash as usize & (count - 1)
}

// The fingerprint of a text with that hash, which is not 0: the seven bits below its four highest, and one more. The
// lowest bits name the home slot, and the four highest are left to whoever parts texts among several indexes.
#[inline]
pub fn fingerprint_of(hash: u64) -> u8
    ensures value { result ≡ fingerprint_of hash }
    ensures filled { 0 < result }
{
    ((hash >> FINGERPRINT_SHIFT) % FINGERPRINT_COUNT) as u8 + 1
}

// Looks for the text in the slots `from..to`. A slot with another fingerprint than the text's is skipped: neither
// its key nor that key's text is read. In the first slot
// only the text is looked for, since a present text is mostly there. Empty slots are looked for in groups of
// sixteen, the first slot included, so that no branch of a search for an absent text depends on how full the
// table is. It is inlined, as `locate` is: a search mostly ends after a few slots, and a call would cost
// about as much.
#[inline(always)]
pub fn scan_slots<K: Key, A: Allocator, T: Texts>(
    slots: &KeySlots<K, A>,
    texts: &T,
    text: &str,
    fingerprint: u8,
    from: usize,
    to: usize,
) -> Scan
    requires in_list { AllInList (T.list texts.now) slots.now.slots }
    requires fitting { HaveFingerprint (T.list texts.now) text.now fingerprint slots.now }
    requires filled { 0 < fingerprint }
    requires range { to ≤ length slots.now.slots }
    requires ordered { from ≤ to }
    ensures { Tells (T.list texts.now) text.now slots.now.slots from to result }
{
    let fingerprints = slots.fingerprints();
    if from < to {
        if let Some(position) = found_at(slots, texts, text, fingerprint, from) {
            return Scan::Found(position);
        }
    }
    let j = passed_over(fingerprints, from, to, fingerprint);
    if j >= to {
        return Scan::Passed;
    }
    if fingerprints[j] == 0 {
        return Scan::Ended(j);
    }
    if let Some(position) = found_at(slots, texts, text, fingerprint, j) {
        return Scan::Found(position);
    }
    scan_further(slots, texts, text, fingerprint, j + 1, to)
}

// What the sixteen slots from the home slot on tell, or `None` if they leave it open. The first slot that is empty or has the
// fingerprint decides. It is found with no branch, so that a processor guesses right whatever slot a text is in, and goes on to
// the next search meanwhile.
#[inline(always)]
pub fn scan_group<K: Key, A: Allocator, T: Texts>(
    slots: &KeySlots<K, A>,
    texts: &T,
    text: &str,
    fingerprint: u8,
    home: usize,
) -> Option<Scan>
    requires in_list { AllInList (T.list texts.now) slots.now.slots }
    requires fitting { HaveFingerprint (T.list texts.now) text.now fingerprint slots.now }
    requires filled { 0 < fingerprint }
    requires inside { home < length slots.now.slots }
    ensures { IfSome result (Tells (T.list texts.now) text.now slots.now.slots home (length slots.now.slots)) }
{
    let fingerprints = slots.fingerprints();
    let j = first_in_group(fingerprints, home, fingerprint);
    if j >= slots.len() {
        return None;
    }
    if let Some(position) = found_at(slots, texts, text, fingerprint, j) {
        return Some(Scan::Found(position));
    }
    if fingerprints[j] == 0 {
        return Some(Scan::Ended(j));
    }
    None
}

// What `scan_slots` tells, from a later slot on, out of line: few searches come so far.
#[inline(never)]
fn scan_further<K: Key, A: Allocator, T: Texts>(
    slots: &KeySlots<K, A>,
    texts: &T,
    text: &str,
    fingerprint: u8,
    from: usize,
    to: usize,
) -> Scan
    requires in_list { AllInList (T.list texts.now) slots.now.slots }
    requires fitting { HaveFingerprint (T.list texts.now) text.now fingerprint slots.now }
    requires filled { 0 < fingerprint }
    requires range { to ≤ length slots.now.slots }
    requires ordered { from ≤ to }
    ensures { Tells (T.list texts.now) text.now slots.now.slots from to result }
{
    let fingerprints = slots.fingerprints();
    let mut j = passed_over(fingerprints, from, to, fingerprint);
    while j < to {
        if fingerprints[j] == 0 {
            return Scan::Ended(j);
        }
        if let Some(position) = found_at(slots, texts, text, fingerprint, j) {
            return Scan::Found(position);
        }
        j = passed_over(fingerprints, j + 1, to, fingerprint);
    }
    Scan::Passed
}

// The position of the slot's key, where the slot has the fingerprint and its key the text that is looked for.
#[inline(always)]
fn found_at<K: Key, A: Allocator, T: Texts>(
    slots: &KeySlots<K, A>,
    texts: &T,
    text: &str,
    fingerprint: u8,
    j: usize,
) -> Option<usize>
    requires in_list { AllInList (T.list texts.now) slots.now.slots }
    requires fitting { HaveFingerprint (T.list texts.now) text.now fingerprint slots.now }
    requires filled { 0 < fingerprint }
    requires inside { j < length slots.now.slots }
    ensures found { IfSome result (λ n. Holds slots.now.slots n × (slice_get (T.list texts.now) n ≡ Some text.now)) }
    ensures missing { IfNone result ((n : ℕ) → slot slots.now.slots j ≡ Some n → slice_get (T.list texts.now) n ≢ Some text.now) }
{
    if slots.fingerprints()[j] != fingerprint {
        return None;
    }
    let position = slots.key(j).into_usize();
    if is_same(texts.text_at(position), text) {
        return Some(position);
    }
    None
}

// The position of the first key with the fingerprint of that hash among the sixteen slots from the home slot on,
// unless an empty slot comes before it. No text is read.
#[inline(always)]
pub fn first_fitting<K: Key, A: Allocator>(slots: &KeySlots<K, A>, hash: u64) -> Option<usize>
    ensures { IfSome result (λ n. Holds slots.now.slots n) }
{
    let fingerprints = slots.fingerprints();
    let count = slots.len();
    if count == 0 {
        return None;
    }
    let fingerprint = fingerprint_of(hash);
    let j = first_in_group(fingerprints, home_slot(hash, count), fingerprint);
    if j < count && fingerprints[j] == fingerprint {
        return Some(slots.key(j).into_usize());
    }
    None
}

// The first empty slot in `from..to`.
#[inline]
fn first_empty<K: Key, A: Allocator>(
    slots: &KeySlots<K, A>,
    from: usize,
    to: usize,
) -> Option<usize>
    requires { to ≤ length slots.now.slots }
    ensures found { IfSome result (λ j. (from ≤ j) × (j < to) × (slot slots.now.slots j ≡ None) × IsFull slots.now.slots from j) }
    ensures full { IfNone result (IsFull slots.now.slots from to) }
{
    let fingerprints = slots.fingerprints();
    for j in from..to {
        if fingerprints[j] == 0 {
            return Some(j);
        }
    }
    None
}

// The empty slot where the search for the hash ends.
#[inline]
pub fn free_slot<K: Key, A: Allocator>(slots: &KeySlots<K, A>, hash: u64) -> usize
    requires { used slots.now.slots < length slots.now.slots }
    ensures bound { result < length slots.now.slots }
    ensures small { length slots.now.slots < 2 ^ 64 }
    ensures free { slot slots.now.slots result ≡ None }
    ensures reached { Reaches slots.now.slots (home (length slots.now.slots) hash) result }
{
    let home = home_slot(hash, slots.len());
    if let Some(above) = first_empty(slots, home, slots.len()) {
        return above;
    }
    match first_empty(slots, 0, home) {
        Some(below) => below,
        None => unreachable!(),
    }
}
