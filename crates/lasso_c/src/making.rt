//! Makers of interners that C holds: of given capacity, with a seed or keys, and as a clone of another.
ghost use Rattle.std.specs.Prelude.{◌≡◌, [], None, Some, IfSome, IsSome, max};
ghost use Rattle.lasso_parts.specs.Account.{fresh};
ghost use Rattle.lasso_single.specs.Copies.{clone_size};
ghost use Rattle.lasso_c.specs.Handles.{account_in, clone_account, first_in, seed_in, texts_in};
ghost use Rattle.lasso_c.specs.Seeds.{IsFixed, keyed_seed, text_seed};

use crate::handle::Lasso;
use crate::seed::Seed;
use crate::seeded::Interner;
use crate::status::{DONE, NO_INTERNER, NO_MEMORY};
use lasso_parts::util::Capacity;
use std::alloc::Global;

/// `lasso_new` with room for `texts` texts before the list of texts grows, and a first bucket of `bytes` bytes, at least one. The
/// first bucket is there whatever the limit. It returns `NO_MEMORY` out of memory, and the handle is as it was then.
#[unsafe(no_mangle)]
pub extern "C" fn lasso_new_sized(
    alloc: Global,
    lasso: &mut Lasso,
    texts: usize,
    bytes: usize,
    limit: usize,
) -> u32
    // On success
    ensures made { result ≡ DONE → IsSome lasso.new.seat.value }
    ensures texts { result ≡ DONE → texts_in lasso.new.seat.value ≡ [] }
    ensures account { result ≡ DONE → account_in lasso.new.seat.value ≡ Some (fresh (max bytes 1) limit) }
    ensures first { result ≡ DONE → first_in lasso.new.seat.value ≡ Some (max bytes 1) }
    ensures seed { result ≡ DONE → IfSome (seed_in lasso.new.seat.value) IsFixed }

    // On failure
    ensures refused { ¬ (result ≡ DONE) → result ≡ NO_MEMORY }
    ensures kept { ¬ (result ≡ DONE) → lasso.new.seat.value ≡ lasso.old.seat.value }
{
    let capacity = Capacity::new(texts, bytes.max(1));
    make(alloc, lasso, capacity, limit, Seed::fixed())
}

/// `lasso_new` for texts that strangers choose: it hashes them with this seed, which nobody else may know. It returns `NO_MEMORY` out of
/// memory, and the handle is as it was then.
#[unsafe(no_mangle)]
pub extern "C" fn lasso_new_seeded(
    alloc: Global,
    lasso: &mut Lasso,
    limit: usize,
    seed0: u64,
    seed1: u64,
) -> u32
    // On success
    ensures made { result ≡ DONE → IsSome lasso.new.seat.value }
    ensures texts { result ≡ DONE → texts_in lasso.new.seat.value ≡ [] }
    ensures account { result ≡ DONE → account_in lasso.new.seat.value ≡ Some (fresh 4096 limit) }
    ensures first { result ≡ DONE → first_in lasso.new.seat.value ≡ Some 4096 }
    ensures seed { result ≡ DONE → seed_in lasso.new.seat.value ≡ Some (text_seed seed0 seed1) }

    // On failure
    ensures refused { ¬ (result ≡ DONE) → result ≡ NO_MEMORY }
    ensures kept { ¬ (result ≡ DONE) → lasso.new.seat.value ≡ lasso.old.seat.value }
{
    let usual = Capacity::default();
    make(alloc, lasso, usual, limit, Seed::text(seed0, seed1))
}

/// `lasso_new_seeded` of the capacity that `lasso_new_sized` has.
#[unsafe(no_mangle)]
pub extern "C" fn lasso_new_sized_seeded(
    alloc: Global,
    lasso: &mut Lasso,
    texts: usize,
    bytes: usize,
    limit: usize,
    seed0: u64,
    seed1: u64,
) -> u32
    // On success
    ensures made { result ≡ DONE → IsSome lasso.new.seat.value }
    ensures texts { result ≡ DONE → texts_in lasso.new.seat.value ≡ [] }
    ensures account { result ≡ DONE → account_in lasso.new.seat.value ≡ Some (fresh (max bytes 1) limit) }
    ensures first { result ≡ DONE → first_in lasso.new.seat.value ≡ Some (max bytes 1) }
    ensures seed { result ≡ DONE → seed_in lasso.new.seat.value ≡ Some (text_seed seed0 seed1) }

    // On failure
    ensures refused { ¬ (result ≡ DONE) → result ≡ NO_MEMORY }
    ensures kept { ¬ (result ≡ DONE) → lasso.new.seat.value ≡ lasso.old.seat.value }
{
    let room = Capacity::new(texts, bytes.max(1));
    make(alloc, lasso, room, limit, Seed::text(seed0, seed1))
}

/// `lasso_new` for texts that strangers choose: it hashes them with two keys, by SipHash-1-3. It returns `NO_MEMORY` out of memory,
/// and the handle is as it was then.
#[unsafe(no_mangle)]
pub extern "C" fn lasso_new_keyed(
    alloc: Global,
    lasso: &mut Lasso,
    limit: usize,
    key0: u64,
    key1: u64,
) -> u32
    // On success
    ensures made { result ≡ DONE → IsSome lasso.new.seat.value }
    ensures texts { result ≡ DONE → texts_in lasso.new.seat.value ≡ [] }
    ensures account { result ≡ DONE → account_in lasso.new.seat.value ≡ Some (fresh 4096 limit) }
    ensures first { result ≡ DONE → first_in lasso.new.seat.value ≡ Some 4096 }
    ensures seed { result ≡ DONE → seed_in lasso.new.seat.value ≡ Some (keyed_seed key0 key1) }

    // On failure
    ensures refused { ¬ (result ≡ DONE) → result ≡ NO_MEMORY }
    ensures kept { ¬ (result ≡ DONE) → lasso.new.seat.value ≡ lasso.old.seat.value }
{
    make(
        alloc,
        lasso,
        Capacity::default(),
        limit,
        Seed::keyed(key0, key1),
    )
}

/// `lasso_new_keyed` of the capacity that `lasso_new_sized` has.
#[unsafe(no_mangle)]
pub extern "C" fn lasso_new_sized_keyed(
    alloc: Global,
    lasso: &mut Lasso,
    texts: usize,
    bytes: usize,
    limit: usize,
    key0: u64,
    key1: u64,
) -> u32
    // On success
    ensures made { result ≡ DONE → IsSome lasso.new.seat.value }
    ensures texts { result ≡ DONE → texts_in lasso.new.seat.value ≡ [] }
    ensures account { result ≡ DONE → account_in lasso.new.seat.value ≡ Some (fresh (max bytes 1) limit) }
    ensures first { result ≡ DONE → first_in lasso.new.seat.value ≡ Some (max bytes 1) }
    ensures seed { result ≡ DONE → seed_in lasso.new.seat.value ≡ Some (keyed_seed key0 key1) }

    // On failure
    ensures refused { ¬ (result ≡ DONE) → result ≡ NO_MEMORY }
    ensures kept { ¬ (result ≡ DONE) → lasso.new.seat.value ≡ lasso.old.seat.value }
{
    let sized = Capacity::new(texts, bytes.max(1));
    make(alloc, lasso, sized, limit, Seed::keyed(key0, key1))
}

/// Makes an interner with the same texts under the same codes in another handle. Their bytes are in one bucket of just their size, or
/// of 4096 bytes if they have none, and its limit is the same, or that size if it is greater. It hashes with the same seed. It
/// returns `NO_INTERNER` without an interner to clone, `NO_MEMORY` out of memory, and `clone` is as it was then.
#[unsafe(no_mangle)]
pub extern "C" fn lasso_clone(alloc: Global, lasso: &mut Lasso, clone: &mut Lasso) -> u32
    // On success
    ensures made { result ≡ DONE → IsSome clone.new.seat.value }
    ensures texts { result ≡ DONE → texts_in clone.new.seat.value ≡ texts_in lasso.old.seat.value }
    ensures account { result ≡ DONE → IfSome lasso.old.seat.value (λ interner. account_in clone.new.seat.value ≡ clone_account interner) }
    ensures first { result ≡ DONE → first_in clone.new.seat.value ≡ Some (clone_size (texts_in lasso.old.seat.value)) }
    ensures seed { result ≡ DONE → seed_in clone.new.seat.value ≡ seed_in lasso.old.seat.value }

    // On failure
    ensures none { lasso.old.seat.value ≡ None → result ≡ NO_INTERNER }
    ensures refused { IsSome lasso.old.seat.value → ¬ (result ≡ DONE) → result ≡ NO_MEMORY }
    ensures clone_kept { ¬ (result ≡ DONE) → clone.new.seat.value ≡ clone.old.seat.value }

    // What stays: the interner that is cloned
    ensures kept { lasso.new.seat.value ≡ lasso.old.seat.value }
{
    let Some(interner) = lasso.interner() else {
        return NO_INTERNER;
    };
    match interner.try_clone() {
        Ok(made) => hold(alloc, clone, made),
        Err(_) => NO_MEMORY,
    }
}

// Makes an interner with room for `capacity`, whose buckets take at most `limit` bytes. The handle is as it was out of memory.
pub(crate) fn make(
    alloc: Global,
    lasso: &mut Lasso,
    capacity: Capacity,
    limit: usize,
    seed: Seed,
) -> u32
    ensures made { result ≡ DONE → IsSome lasso.new.seat.value }
    ensures texts { result ≡ DONE → texts_in lasso.new.seat.value ≡ [] }
    ensures account { result ≡ DONE → account_in lasso.new.seat.value ≡ Some (fresh capacity.bytes limit) }
    ensures first { result ≡ DONE → first_in lasso.new.seat.value ≡ Some capacity.bytes }
    ensures seed { result ≡ DONE → seed_in lasso.new.seat.value ≡ Some seed }
    ensures refused { ¬ (result ≡ DONE) → result ≡ NO_MEMORY }
    ensures kept { ¬ (result ≡ DONE) → lasso.new.seat.value ≡ lasso.old.seat.value }
{
    match Interner::new(alloc, capacity, limit, seed) {
        Ok(interner) => hold(alloc, lasso, interner),
        Err(_) => NO_MEMORY,
    }
}

// Holds the interner, and lets go of one that was held. The handle is as it was out of memory.
pub(crate) fn hold(alloc: Global, lasso: &mut Lasso, interner: Interner<Seed>) -> u32
    ensures held { result ≡ DONE → lasso.new.seat.value ≡ Some interner }
    ensures made { result ≡ DONE → IsSome lasso.new.seat.value }
    ensures refused { ¬ (result ≡ DONE) → result ≡ NO_MEMORY }
    ensures kept { ¬ (result ≡ DONE) → lasso.new.seat.value ≡ lasso.old.seat.value }
{
    let Ok(boxed) = Box::new(alloc, interner) else {
        return NO_MEMORY;
    };
    lasso.put(alloc, boxed);
    DONE
}
