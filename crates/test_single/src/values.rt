//! Key types, capacities, limits and errors: ranges, order, hash, printed forms, and a user's own key type.
use crate::interners::{Host, is_so};
use lasso_parts::arena::Arena;
use lasso_parts::keys::{Key, LargeSpur, MicroSpur, MiniSpur, Spur};
use lasso_parts::util::{Capacity, LassoError, LassoErrorKind, MemoryLimits};
use std::alloc::Global;
use std::cmp::{Ord, Ordering};
use std::hash::{DefaultHasher, Hash, Hasher};
use std::test::Fail;
use test_common::keys::Below;

// A user's own key type. It keeps the position in 32 bits, and leaves the 16777216 highest values free.
type NicheKey = Below<4278190080>;

fn number_of<K: Key>(position: usize) -> Option<usize> {
    let key = K::try_from_usize(position)?;
    Some(key.into_usize())
}

// Whether the last key is of this number, and the next number has none.
fn ends_at<K: Key>(last: usize, next: usize) -> bool {
    number_of::<K>(last) == Some(last) && number_of::<K>(next) == None
}

#[test]
fn ranges_of_the_key_types(rt: HostRuntime) {
    let large = ends_at::<LargeSpur>(usize::MAX - 1, usize::MAX);
    is_so(&rt, number_of::<Spur>(0) == Some(0), "0");
    is_so(&rt, ends_at::<Spur>(4294967294, 4294967295), "32 bits");
    is_so(&rt, ends_at::<MiniSpur>(65534, 65535), "16 bits");
    is_so(&rt, ends_at::<MicroSpur>(254, 255), "8 bits");
    is_so(&rt, large, "64 bits");
    let own = ends_at::<NicheKey>(4278190079, 4278190080);
    let holds = number_of::<NicheKey>(0) == Some(0);
    is_so(&rt, holds, "0 of a user's own");
    is_so(&rt, own, "a user's own");
    let past = number_of::<NicheKey>(4294967295);
    is_so(&rt, past.is_none(), "past a user's own");
}

#[test]
fn defaults_are_number_0(rt: HostRuntime) {
    let (spur, mini) = (Spur::default(), MiniSpur::default());
    let (micro, large) = (MicroSpur::default(), LargeSpur::default());
    let holds = spur.into_usize() == 0 && spur.into_inner() == 1;
    is_so(&rt, holds, "32 bits");
    let holds = mini.into_usize() == 0 && mini.into_inner() == 1;
    is_so(&rt, holds, "16 bits");
    let holds = micro.into_usize() == 0 && micro.into_inner() == 1;
    is_so(&rt, holds, "8 bits");
    let holds = large.into_usize() == 0 && large.into_inner() == 1;
    is_so(&rt, holds, "64 bits");
}

#[test]
fn debug_shows_the_kept_number(rt: HostRuntime) -> Result<(), Fail> {
    let last = MicroSpur::try_from_usize(254).ok_or("no key")?;
    let (spur, mini, large) = (Spur::default(), MiniSpur::default(), LargeSpur::default());
    let printed = format!(in rt.alloc(); "{spur:?} {mini:?} {last:?} {large:?}")?;
    assert!(rt; printed.as_str() == "Spur(1) MiniSpur(1) MicroSpur(255) LargeSpur(1)");
    Ok(())
}

// Order, hash and debug output of keys, capacities, limits and errors.

// The hash of the value.
fn hash_of<T: Hash>(value: &T) -> u64 {
    let mut hasher = DefaultHasher::new();
    value.hash(&mut hasher);
    hasher.finish()
}

// Whether the lesser comes first, by each call that compares.
fn is_less<T: Ord + Copy>(lesser: T, greater: T) -> bool {
    lesser.cmp(&greater) == Ordering::Less
        && greater.cmp(&lesser) == Ordering::Greater
        && lesser.cmp(&lesser) == Ordering::Equal
        && lesser.partial_cmp(&greater) == Some(Ordering::Less)
        && lesser != greater
}

// Whether a value's hash is always the same, and the other's differs.
fn has_own_hash<T: Hash>(value: &T, other: &T) -> bool {
    hash_of(value) == hash_of(value) && hash_of(value) != hash_of(other)
}

// Checks that the lesser comes first, that its hash is always the same, and that the other hash differs.
fn are_apart<T: Ord + Hash + Copy>(rt: &impl Host, lesser: T, greater: T, what: &str) {
    is_so(rt, is_less(lesser, greater), what);
    is_so(rt, has_own_hash(&lesser, &greater), what);
}

// The keys of 7 and of the last number are apart.
fn keys_are_apart<K: Key + Ord + Hash + Copy>(
    rt: &impl Host,
    last: usize,
    what: &str,
) -> Result<(), Fail> {
    let lesser = K::try_from_usize(7).ok_or("no key")?;
    let greater = K::try_from_usize(last).ok_or("no key")?;
    are_apart(rt, lesser, greater, what);
    Ok(())
}

#[test]
fn keys_by_position(rt: HostRuntime) -> Result<(), Fail> {
    keys_are_apart::<Spur>(&rt, 4294967294, "32 bits")?;
    keys_are_apart::<MiniSpur>(&rt, 65534, "16 bits")?;
    keys_are_apart::<MicroSpur>(&rt, 254, "8 bits")?;
    keys_are_apart::<LargeSpur>(&rt, usize::MAX - 1, "64 bits")
}

#[test]
fn capacities_and_limits_by_bytes(rt: HostRuntime) {
    let low = Capacity::new(1, 9);
    are_apart(&rt, low, Capacity::new(2, 1), "more texts");
    are_apart(&rt, Capacity::new(1, 1), low, "more bytes");
    let limit = MemoryLimits::new(12);
    are_apart(&rt, limit, MemoryLimits::new(13), "a higher limit");
}

#[test]
fn debug_text_of_values(rt: HostRuntime) -> Result<(), Fail> {
    let (capacity, limits) = (Capacity::new(3, 9), MemoryLimits::new(12));
    let error = LassoError::new(LassoErrorKind::KeySpaceExhaustion);
    let printed = format!(in rt.alloc(); "{capacity:?} {limits:?} {error:?}")?;
    assert!(rt;
        printed.as_str()
            == "Capacity { strings: 3, bytes: 9 } MemoryLimits { max_memory_usage: 12 } LassoError { kind: KeySpaceExhaustion }"
    );
    Ok(())
}

// Whether the arena prints as the text.
fn is_printed(alloc: Global, arena: &Arena<Global>, text: &str) -> Result<bool, Fail> {
    Ok(format!(in alloc; "{arena:?}")?.as_str() == text)
}

#[test]
fn debug_text_of_an_arena(rt: HostRuntime) -> Result<(), Fail> {
    let mut arena = Arena::new(rt.alloc(), 8, 100)?;
    let one =
        "Arena { buckets: ... 1 bucket, bucket_capacity: 8, memory_usage: 8, max_memory_usage: 100 }";
    is_so(&rt, is_printed(rt.alloc(), &arena, one)?, "one bucket");
    let _first = arena.store_str("eight by")?;
    let _second = arena.store_str("more")?;
    let two =
        "Arena { buckets: ... 2 buckets, bucket_capacity: 16, memory_usage: 24, max_memory_usage: 100 }";
    is_so(&rt, is_printed(rt.alloc(), &arena, two)?, "two buckets");
    Ok(())
}

// Printed errors, and the values of capacities and limits.

// Whether an error of the kind prints as the text.
fn prints_kind(alloc: Global, kind: LassoErrorKind, text: &str) -> Result<bool, Fail> {
    Ok(LassoError::new(kind).to_string(alloc)?.as_str() == text)
}

// Whether an error of the kind, and its clone, say that they are of it and of no other.
fn is_of_kind(kind: LassoErrorKind) -> Result<bool, Fail> {
    let error = LassoError::new(kind);
    Ok(
        error.kind() == kind
            && error == error.clone()?
            && kind.is_memory_limit() == (kind == LassoErrorKind::MemoryLimitReached)
            && kind.is_keyspace_exhaustion() == (kind == LassoErrorKind::KeySpaceExhaustion)
            && kind.is_failed_alloc() == (kind == LassoErrorKind::FailedAllocation),
    )
}

#[test]
fn errors_print_their_kind(rt: HostRuntime) -> Result<(), Fail> {
    let rows = [
        (
            LassoErrorKind::MemoryLimitReached,
            "Lasso encountered an error: The configured memory limit was reached",
        ),
        (
            LassoErrorKind::KeySpaceExhaustion,
            "Lasso encountered an error: The key space was exhausted",
        ),
        (
            LassoErrorKind::FailedAllocation,
            "Lasso encountered an error: Failed to allocate memory",
        ),
    ];
    for (kind, text) in rows {
        assert!(rt; prints_kind(rt.alloc(), kind, text)?, "{text}");
        assert!(rt; is_of_kind(kind)?, "{text}");
    }
    Ok(())
}

// Whether the capacity has room for `strings` texts and `bytes` bytes.
fn has_room(capacity: Capacity, strings: usize, bytes: usize) -> bool {
    capacity.strings() == strings && capacity.bytes() == bytes
}

#[test]
fn capacities_and_limits(rt: HostRuntime) {
    let rows = [
        (Capacity::default(), 50, 4096),
        (Capacity::minimal(), 0, 1),
        (Capacity::for_strings(10), 10, 4096),
        (Capacity::for_bytes(7), 50, 7),
        (Capacity::new(3, 9), 3, 9),
    ];
    for (capacity, strings, bytes) in rows {
        assert!(rt; has_room(capacity, strings, bytes), "{capacity:?}");
    }
    let holds = MemoryLimits::default().max_memory_usage() == usize::MAX;
    is_so(&rt, holds, "default");
    is_so(&rt, MemoryLimits::new(12).max_memory_usage() == 12, "new");
    let limits = MemoryLimits::for_memory_usage(13);
    is_so(&rt, limits.max_memory_usage() == 13, "for_memory_usage");
}
