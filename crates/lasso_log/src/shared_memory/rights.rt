//! Rights to bytes that are lent for an era. None of them takes any bytes. Used by the ranges, pieces and
//! buckets of the shared arena, and by the chunks' rule, which keeps the rights to bytes that nobody has taken.
//!
//! A bucket's room is lent to the era byte by byte. `Free` is the exclusive right to fill places that nobody
//! has taken, `Owed` the right to take them back once the era is over, and `Lent` says that bytes are
//! somewhere until the era ends: it is lasting, so it may have any number of copies.
ghost use Rattle.std.specs.Prelude.{◌≡◌, ℕ, ◌≤◌, ◌<◌, ◌^◌, List, [], length};
ghost use denote.RawPtr.{Ptr, block_ptr};
ghost use Rattle.core.specs.Mem.Slots.{slots_items, slots_ptr, slots_len, SamePlaces, IsFull};
ghost use base.Stored.{coded_list, coded_ℕ};
ghost use base.Fml.{Incl};
ghost use Rattle.lasso_log.specs.Eras.{life};
ghost use Rattle.lasso_parts.specs.Block.{LeadsToBlock};

use crate::shared_memory::era::{Ended, Era};
use core::slots::Slots;
use std::marker::{Model, PhantomData, Send, Sync};
use std::slice;

/// The one right to fill `len` places of a block from `start` on. If it is let go, they stay empty for good.
#[derive(Drop)]
pub struct Free {
    pub marker: PhantomData<()>,
    pub ghost era: { ℕ },
    pub ghost block: { ℕ },
    pub ghost start: { ℕ },
    pub ghost len: { ℕ },
}

impl Model for Free {
    ghost use Rattle.lasso_log.specs.Eras.{free};

    ghost also_owns = { λ r. free r.era r.block r.start r.len };
}

unsafe impl Send for Free {}

/// The right to take the places back once the era is over.
pub struct Owed {
    marker: PhantomData<()>,
    pub ghost era: { ℕ },
    pub ghost block: { ℕ },
    pub ghost start: { ℕ },
    pub ghost len: { ℕ },
}

impl Model for Owed {
    ghost use base.Fml.{ftrue};
    ghost use Rattle.lasso_log.specs.Eras.{owed};

    ghost also_owns = { λ r. owed r.era r.block r.start r.len };

    ghost also_shares = { λ _ _ _. ftrue };
}

unsafe impl Send for Owed {}

unsafe impl Sync for Owed {}

/// These bytes are there until the end of a lifetime: that of an era, or one without end.
pub struct Lent {
    marker: PhantomData<()>,
    pub ghost until: { List ℕ } by { coded_list coded_ℕ },
    pub ghost at: { Ptr },
    pub ghost bytes: { List ℕ } by { coded_list coded_ℕ },
}

impl Model for Lent {
    ghost use denote.Sharing.{held};
    ghost use Rattle.lasso_log.specs.Eras.{lies};

    ghost also_owns = { λ l. lies l.bytes l.at l.until };

    ghost also_shares = { λ l _ κ. held l.until (lies l.bytes l.at) κ };
}

unsafe impl Send for Lent {}

unsafe impl Sync for Lent {}

impl Free {
    ghost use Rattle.lasso_log.specs.LentBuckets.{LeavesRest};

    /// The right to the first `n` places, which leaves the others.
    pub fn take(&mut self, n: usize) -> Free
        requires { n ≤ self.old.len }
        ensures first { (result.era ≡ self.old.era) × (result.block ≡ self.old.block) × (result.start ≡ self.old.start) × (result.len ≡ n) }
        ensures rest { LeavesRest self.old self.new n }
    {
        Free {
            marker: PhantomData,
        }
    }

    /// Fills the places with these bytes, which are there until the era ends.
    pub fn fill(self, era: &Era, ptr: *mut u8, bytes: &[u8]) -> Lent
        requires era { self.era ≡ era.now.id }
        requires address { ptr ≡ block_ptr self.block self.start }
        requires count { length bytes.now ≡ self.len }
        ensures until { result.until ≡ life self.era }
        ensures at { result.at ≡ ptr }
        ensures bytes { result.bytes ≡ bytes.now }
    {
        let Self { marker: _ } = self;
        let slots = unsafe { Slots::from_raw_parts(ptr, bytes.len()) };
        let slots = filled(slots, bytes);
        let (_, _) = unsafe { slots.into_raw_parts() };
        Lent {
            marker: PhantomData,
        }
    }
}

// Fills the places with these bytes.
fn filled(slots: Slots<u8>, bytes: &[u8]) -> Slots<u8>
    requires { length bytes.now ≡ slots_len slots }
    ensures places { SamePlaces slots result }
    ensures items { slots_items result ≡ bytes.now }
    ensures full { IsFull result }
{
    let mut slots = slots;
    slots.copy_in(0, bytes);
    slots
}

/// Lends places for an era, with the right to take them back.
pub fn lend(era: &Era, slots: Slots<u8>) -> (Free, Owed)
    ensures free { (result.0.era ≡ era.now.id) × (block_ptr result.0.block result.0.start ≡ slots_ptr slots) × (result.0.len ≡ slots_len slots) }
    ensures owed { (result.1.era ≡ era.now.id) × (block_ptr result.1.block result.1.start ≡ slots_ptr slots) × (result.1.len ≡ slots_len slots) }
{
    let (_, _) = unsafe { slots.into_raw_parts() };
    (
        Free {
            marker: PhantomData,
        },
        Owed {
            marker: PhantomData,
        },
    )
}

impl Owed {
    /// The places, once the era is over.
    pub fn take_back(self, ended: &Ended, ptr: *mut u8, len: usize) -> Slots<u8>
        requires era { self.era ≡ ended.now.id }
        requires address { ptr ≡ block_ptr self.block self.start }
        requires count { (self.len ≡ len) × (len < 2 ^ 63) }
        ensures { (slots_ptr result ≡ ptr) × (slots_len result ≡ len) }
    {
        let Self { marker: _ } = self;
        unsafe { Slots::from_raw_parts(ptr, len) }
    }
}

impl Lent {
    /// These bytes, which are there for ever, and where.
    pub fn for_ever(bytes: &'static [u8]) -> (*const u8, Lent)
        ensures until { result.1.until ≡ [] }
        ensures at { (result.1.at ≡ result.0) × LeadsToBlock result.0 }
        ensures bytes { result.1.bytes ≡ bytes.now }
    {
        (
            bytes.as_ptr(),
            Lent {
                marker: PhantomData,
            },
        )
    }

    /// The bytes, in place, lent as long as the era.
    pub fn read<'a>(&self, era: &'a Era, ptr: *const u8, len: usize) -> &'a [u8]
        requires until { Incl (life era.now.id) self.now.until }
        requires at { (ptr ≡ self.now.at) × LeadsToBlock ptr }
        requires count { (len ≡ length self.now.bytes) × (len < 2 ^ 63) }
        ensures { result.now ≡ self.now.bytes }
    {
        unsafe { slice::from_raw_parts(ptr, len) }
    }
}

impl Drop for Lent {
    fn drop(self) {
        let Self { marker: _ } = self;
    }
}
