//! Makers of interners, and interners filled from items, by calls that a script of `tool_replay` can't make.
//! After a refusal an iterator that is lent stands right after the refused item. Readers and resolvers in two threads.
mod batches;

use crate::interners::{
    Host, KEYS, LIMIT, MEMORY, Small, SpurReader, SpurResolver, has_count, interner, interns,
    is_so, is_so_at, key_at, number_of, of_texts, refusal_of,
};
use lasso_parts::keys::{Key, Spur};
use lasso_parts::util::{Capacity, FixedState, LassoResult, MemoryLimits};
use lasso_single::reader::RodeoReader;
use lasso_single::resolver::RodeoResolver;
use lasso_single::rodeo::Rodeo;
use std::alloc::{Allocator, Global};
use std::hash::BuildHasher;
use std::iter::repeat_n;
use std::slice::Iter;
use std::test::Fail;
use std::thread;
use test_common::keys::{BelowTwo, Gap};
use test_common::texts::{is_next, numbered};

#[test]
fn sizes_that_no_memory_has(rt: HostRuntime) {
    let (bytes, strings) = (
        Capacity::for_bytes(usize::MAX),
        Capacity::for_strings(usize::MAX),
    );
    let made = refusal_of(Small::with_capacity(rt.alloc(), bytes));
    is_so(&rt, made == Some(MEMORY), "bytes");
    let made = refusal_of(Small::with_capacity(rt.alloc(), strings));
    is_so(&rt, made == Some(MEMORY), "strings");
}

// Checks that the buckets of the new interner take this number of bytes, and still do after two texts of a byte.
fn has_first_bucket(rt: &impl Host, made: LassoResult<Small>, bytes: usize) -> Result<(), Fail> {
    let mut rodeo = made?;
    is_so_at(rt, rodeo.current_memory_usage() == bytes, bytes);
    for (number, text) in ["a", "b"].iter().enumerate() {
        is_so_at(rt, interns(&mut rodeo, *text, number), bytes);
        is_so_at(rt, rodeo.current_memory_usage() == bytes, bytes);
    }
    Ok(())
}

#[test]
fn makers_of_default_size(rt: HostRuntime) -> Result<(), Fail> {
    let limits = MemoryLimits::new(4096);
    has_first_bucket(&rt, Rodeo::with_memory_limits(rt.alloc(), limits), 4096)?;
    let (capacity, hasher) = (Capacity::for_bytes(7), FixedState::new());
    let sized = Rodeo::with_capacity_and_hasher(rt.alloc(), capacity, hasher);
    has_first_bucket(&rt, sized, 7)
}

// Makes an interner by the maker of this number. The first four have room for 1000 texts, the others for fifty, which
// is the default.
fn made_by(alloc: Global, maker: usize) -> LassoResult<Small> {
    let (room, limits) = (Capacity::new(1000, 4096), MemoryLimits::new(4096));
    let hasher = FixedState::new();
    match maker {
        0 => Rodeo::with_capacity(alloc, room),
        1 => Rodeo::with_capacity_and_memory_limits(alloc, room, limits),
        2 => Rodeo::with_capacity_and_hasher(alloc, room, hasher),
        3 => Rodeo::with_capacity_memory_limits_and_hasher(alloc, room, limits, hasher),
        4 => Rodeo::default(alloc),
        5 => Rodeo::new(alloc),
        6 => Rodeo::with_memory_limits(alloc, limits),
        _ => Rodeo::with_hasher(alloc, hasher),
    }
}

// Numbers of texts, and how many bytes an interner with room for them takes at least: 16 for each text in the list, 5 for
// each of the fewest slots of which three quarters are as many (2048 and 128), and the bucket.
const THOUSAND: (usize, usize) = (1000, 16_000 + 10_240 + 4096);

const FIFTY: (usize, usize) = (50, 800 + 640 + 4096);

// The texts fit in the new interner before its list and its index grow. For the list of buckets it takes less than 1000
// bytes more.
#[test]
fn makers_have_room_for_a_number_of_texts(rt: HostRuntime) -> Result<(), Fail> {
    for maker in 0..8usize {
        let (texts, bytes) = if maker < 4 { THOUSAND } else { FIFTY };
        let rodeo = made_by(rt.alloc(), maker)?;
        is_so_at(&rt, rodeo.capacity() >= texts, maker);
        let allocated = rodeo.allocated_bytes();
        is_so_at(&rt, bytes <= allocated && allocated < bytes + 1000, maker);
    }
    Ok(())
}

// Interners filled from items, where the limit or the keys refuse one.

type Keyless = Rodeo<Gap<0>, FixedState, Global>;

// The size hint is more than memory can hold. That is no error: the error is that of the first item, which
// the limit or the key type refuses.
#[test]
fn a_hint_past_all_memory(rt: HostRuntime) -> Result<(), Fail> {
    let mut rodeo = interner::<Spur>(rt.alloc(), 4, 4)?;
    let refusal = refusal_of(rodeo.extend(repeat_n("abcde", usize::MAX)));
    is_so(&rt, refusal == Some(LIMIT), "the limit");
    is_so(&rt, has_count(&rodeo, 0), "no text");
    let refusal = refusal_of(Keyless::from_iter(rt.alloc(), repeat_n("pp", usize::MAX)));
    is_so(&rt, refusal == Some(KEYS), "the key type");
    Ok(())
}

// Filling a `Rodeo` from an iterator that is lent: after a refusal it stands right after the refused item.

// How many items there are, each of five bytes.
const ITEMS: usize = 5_005;

// Which item the limit refuses, counted from 1.
const REFUSED: [usize; 3] = [1, 40, 5_000];

// An interner with room for the items before the refused one gets just these by the call, and the items go on after
// it.
fn stops_at_each<F: Fn(&mut Small, &mut Iter<'_, String>) -> LassoResult<()> + Drop>(
    rt: &impl Host,
    extends: F,
) -> Result<(), Fail> {
    let texts = numbered(rt.alloc(), ITEMS)?;
    for refused in REFUSED {
        let before = refused.saturating_sub(1);
        let bytes = before.saturating_mul(5).max(1);
        let mut rodeo = interner::<Spur>(rt.alloc(), bytes, bytes)?;
        let mut items = texts.iter();
        let refusal = refusal_of(extends(&mut rodeo, &mut items));
        is_so_at(rt, refusal == Some(LIMIT) && rodeo.len() == before, refused);
        is_so_at(rt, is_next(&mut items, &texts, refused), refused);
    }
    Ok(())
}

#[test]
fn extend_leaves_lent_items_after_the_refused_one(rt: HostRuntime) -> Result<(), Fail> {
    stops_at_each(&rt, |rodeo, items| rodeo.extend(items))
}

#[test]
fn extend_from_leaves_its_items_after_the_refused_one(rt: HostRuntime) -> Result<(), Fail> {
    stops_at_each(&rt, |rodeo, items| rodeo.extend_from(items))
}

// There are two keys, so the third item is refused.
#[test]
fn from_iter_leaves_lent_items_after_the_refused_one(rt: HostRuntime) -> Result<(), Fail> {
    let texts = numbered(rt.alloc(), ITEMS)?;
    let mut items = texts.iter();
    let two = Rodeo::<BelowTwo, FixedState, Global>::from_iter(rt.alloc(), items.by_ref());
    is_so(&rt, refusal_of(two) == Some(KEYS), "the third item");
    is_so(&rt, is_next(&mut items, &texts, 3), "the fourth");
    Ok(())
}

// Readers and resolvers in two threads.

// Whether "A" is there with key 0, and no other key stands for a text.
fn has_a_alone(reader: &SpurReader, near: Spur, far: Spur) -> bool {
    number_of(reader.get("A")) == Some(0)
        && reader.get("F").is_none()
        && reader.try_resolve(near) == Some("A")
        && reader.try_resolve(far).is_none()
}

fn is_shared<T: Send + Sync>(_value: &T) {}

// A reader and its iterators are `Send` and `Sync` if the keys, the hasher and the allocator are.
fn crosses<K: Key + Send + Sync, S: BuildHasher + Send + Sync, A: Allocator + Send + Sync>(
    reader: &RodeoReader<K, S, A>,
) {
    is_shared(reader);
    is_shared(&reader.iter());
    is_shared(&reader.strings());
}

// Fails unless this holds in two threads, and then in one.
fn in_two_threads<F: Fn() -> bool + Sync + Drop>(rt: &impl Host, holds: F) {
    let (here, there) = thread::join(rt, || holds(), || holds());
    is_so(rt, here && there, "two threads");
    is_so(rt, holds(), "one thread");
}

#[test]
fn two_threads_share_a_reader(rt: HostRuntime) -> Result<(), Fail> {
    let reader = of_texts(rt.alloc(), &["A"])?.into_reader();
    crosses(&reader);
    let (near, far) = (key_at(0)?, key_at(10)?);
    in_two_threads(&rt, || has_a_alone(&reader, near, far));
    Ok(())
}

// Whether the key `near` stands for "A", and the key `far` for no text.
fn resolves_a_alone(resolver: &SpurResolver, near: Spur, far: Spur) -> bool {
    resolver.try_resolve(near) == Some("A") && resolver.try_resolve(far).is_none()
}

// A resolver is `Send` and `Sync` if the keys and the allocator are.
fn resolver_crosses<K: Key + Send + Sync, A: Allocator + Send + Sync>(
    resolver: &RodeoResolver<K, A>,
) {
    is_shared(resolver);
}

#[test]
fn two_threads_share_a_resolver(rt: HostRuntime) -> Result<(), Fail> {
    let rodeo = of_texts(rt.alloc(), &["A"])?;
    let holds = number_of(rodeo.get("A")) == Some(0);
    is_so(&rt, holds, "the key of the text");
    let resolver = rodeo.into_resolver();
    resolver_crosses(&resolver);
    let (near, far) = (key_at(0)?, key_at(10)?);
    in_two_threads(&rt, || resolves_a_alone(&resolver, near, far));
    Ok(())
}
