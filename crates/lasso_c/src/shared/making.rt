//! Makers of shared interners: of given capacity, with a seed or keys.
ghost use Rattle.std.specs.Prelude.{◌≡◌, ◌-◌, ◌^◌, IsSome, Some, max};
ghost use Rattle.lasso_c.specs.Members.{Begins};
ghost use Rattle.lasso_c.specs.Seeds.{keyed_seed, text_seed};

use crate::seed::Seed;
use crate::shared::handle::LassoShared;
use crate::shared::member::Member;
use crate::status::{DONE, NO_MEMORY};
use lasso_parts::util::Capacity;
use std::alloc::Global;

/// Makes an interner without texts, and its first handle. What the handle held is let go once it is made. It returns `NO_MEMORY`
/// out of memory, and the handle is as it was then.
#[unsafe(no_mangle)]
pub extern "C" fn lasso_shared_new(alloc: Global, shared: &mut LassoShared) -> u32
    // On success
    ensures made { result ≡ DONE → Begins 4096 (2 ^ 64 - 1) (text_seed 0 0) shared.new.seat.value }

    // On failure
    ensures refused { ¬ (result ≡ DONE) → result ≡ NO_MEMORY }
    ensures kept { ¬ (result ≡ DONE) → shared.new.seat.value ≡ shared.old.seat.value }
{
    let usual = Capacity::default();
    make(alloc, shared, usual, usize::MAX, Seed::fixed())
}

/// `lasso_shared_new` with room for `texts` texts before the list of texts grows, and a first bucket of `bytes` bytes, at least one. The
/// buckets take at most `limit` bytes, but the first one is there whatever the limit. It returns `NO_MEMORY` out of memory, and the
/// handle is as it was then.
#[unsafe(no_mangle)]
pub extern "C" fn lasso_shared_new_sized(
    alloc: Global,
    shared: &mut LassoShared,
    texts: usize,
    bytes: usize,
    limit: usize,
) -> u32
    // On success
    ensures made { result ≡ DONE → Begins (max bytes 1) limit (text_seed 0 0) shared.new.seat.value }

    // On failure
    ensures refused { ¬ (result ≡ DONE) → result ≡ NO_MEMORY }
    ensures kept { ¬ (result ≡ DONE) → shared.new.seat.value ≡ shared.old.seat.value }
{
    let capacity = Capacity::new(texts, bytes.max(1));
    make(alloc, shared, capacity, limit, Seed::fixed())
}

/// `lasso_shared_new` for texts that strangers choose: it hashes them with this seed, which nobody else may know. It returns
/// `NO_MEMORY` out of memory, and the handle is as it was then.
#[unsafe(no_mangle)]
pub extern "C" fn lasso_shared_new_seeded(
    alloc: Global,
    shared: &mut LassoShared,
    seed0: u64,
    seed1: u64,
) -> u32
    // On success
    ensures made { result ≡ DONE → Begins 4096 (2 ^ 64 - 1) (text_seed seed0 seed1) shared.new.seat.value }

    // On failure
    ensures refused { ¬ (result ≡ DONE) → result ≡ NO_MEMORY }
    ensures kept { ¬ (result ≡ DONE) → shared.new.seat.value ≡ shared.old.seat.value }
{
    let usual = Capacity::default();
    make(alloc, shared, usual, usize::MAX, Seed::text(seed0, seed1))
}

/// `lasso_shared_new_seeded` of the capacity that `lasso_shared_new_sized` has.
#[unsafe(no_mangle)]
pub extern "C" fn lasso_shared_new_sized_seeded(
    alloc: Global,
    shared: &mut LassoShared,
    texts: usize,
    bytes: usize,
    limit: usize,
    seed0: u64,
    seed1: u64,
) -> u32
    // On success
    ensures made { result ≡ DONE → Begins (max bytes 1) limit (text_seed seed0 seed1) shared.new.seat.value }

    // On failure
    ensures refused { ¬ (result ≡ DONE) → result ≡ NO_MEMORY }
    ensures kept { ¬ (result ≡ DONE) → shared.new.seat.value ≡ shared.old.seat.value }
{
    let room = Capacity::new(texts, bytes.max(1));
    make(alloc, shared, room, limit, Seed::text(seed0, seed1))
}

/// `lasso_shared_new` for texts that strangers choose: it hashes them with two keys, by SipHash-1-3. It returns `NO_MEMORY` out of
/// memory, and the handle is as it was then.
#[unsafe(no_mangle)]
pub extern "C" fn lasso_shared_new_keyed(
    alloc: Global,
    shared: &mut LassoShared,
    key0: u64,
    key1: u64,
) -> u32
    // On success
    ensures made { result ≡ DONE → Begins 4096 (2 ^ 64 - 1) (keyed_seed key0 key1) shared.new.seat.value }

    // On failure
    ensures refused { ¬ (result ≡ DONE) → result ≡ NO_MEMORY }
    ensures kept { ¬ (result ≡ DONE) → shared.new.seat.value ≡ shared.old.seat.value }
{
    let keys = Seed::keyed(key0, key1);
    make(alloc, shared, Capacity::default(), usize::MAX, keys)
}

/// `lasso_shared_new_keyed` of the capacity that `lasso_shared_new_sized` has.
#[unsafe(no_mangle)]
pub extern "C" fn lasso_shared_new_sized_keyed(
    alloc: Global,
    shared: &mut LassoShared,
    texts: usize,
    bytes: usize,
    limit: usize,
    key0: u64,
    key1: u64,
) -> u32
    // On success
    ensures made { result ≡ DONE → Begins (max bytes 1) limit (keyed_seed key0 key1) shared.new.seat.value }

    // On failure
    ensures refused { ¬ (result ≡ DONE) → result ≡ NO_MEMORY }
    ensures kept { ¬ (result ≡ DONE) → shared.new.seat.value ≡ shared.old.seat.value }
{
    let sized = Capacity::new(texts, bytes.max(1));
    make(alloc, shared, sized, limit, Seed::keyed(key0, key1))
}

// Makes an interner with room for `capacity`, whose buckets take at most `limit` bytes, and its first handle. The handle is as it was
// out of memory.
fn make(
    alloc: Global,
    shared: &mut LassoShared,
    capacity: Capacity,
    limit: usize,
    seed: Seed,
) -> u32
    ensures made { result ≡ DONE → Begins capacity.bytes limit seed shared.new.seat.value }
    ensures refused { ¬ (result ≡ DONE) → result ≡ NO_MEMORY }
    ensures kept { ¬ (result ≡ DONE) → shared.new.seat.value ≡ shared.old.seat.value }
{
    match Member::new(alloc, capacity, limit, seed) {
        Some(member) => hold(alloc, shared, member),
        None => NO_MEMORY,
    }
}

// Holds the member, and lets go of one that was held. The handle is as it was out of memory.
pub(crate) fn hold(alloc: Global, shared: &mut LassoShared, member: Member) -> u32
    ensures held { result ≡ DONE → shared.new.seat.value ≡ Some member }
    ensures made { result ≡ DONE → IsSome shared.new.seat.value }
    ensures refused { ¬ (result ≡ DONE) → result ≡ NO_MEMORY }
    ensures kept { ¬ (result ≡ DONE) → shared.new.seat.value ≡ shared.old.seat.value }
{
    let Ok(boxed) = Box::new(alloc, member) else {
        return NO_MEMORY;
    };
    shared.put(alloc, boxed);
    DONE
}
