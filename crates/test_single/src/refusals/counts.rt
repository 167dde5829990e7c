//! `allocated_bytes` of an interner and of its frozen forms is what the allocator gave out. They give it back, with the
//! memory of their hasher and of the items that they take. Which calls ask it for nothing.
ghost use Rattle.std.specs.Hash.FoldHasher as folding;

use crate::refusals::*;
use lasso_parts::keys::{LargeSpur, MicroSpur, MiniSpur};
use std::hash::{BuildHasher, FoldHasher};
use test_common::texts::numbered;

static TEXTS: [&str; 10] = [
    "a",
    "b",
    "",
    "a text of more bytes than an entry has",
    "c",
    "de",
    "fgh",
    "ijkl",
    "mnopq",
    "rstuvwxyz0123456789",
];

fn is_counted_so<K: Key>(rodeo: &Metered<'_, K>, memory: &Memory) -> bool {
    rodeo.allocated_bytes() == memory.bytes_out()
}

// A new interner, after each text, after a clear and a refill, also with a static text, and both frozen forms.
#[test]
fn allocated_bytes_are_those_given(rt: HostRuntime) -> Result<(), Fail> {
    let memory = Refusing::new(rt.alloc(), 0);
    let mut rodeo = Metered::<Spur>::with_capacity(&memory, Capacity::new(2, 4))?;
    is_so(&rt, is_counted_so(&rodeo, &memory), "a new interner");
    for text in TEXTS.iter() {
        rodeo.try_get_or_intern(*text)?;
        is_so(&rt, is_counted_so(&rodeo, &memory), *text);
    }
    rodeo.clear();
    is_so(&rt, is_counted_so(&rodeo, &memory), "after a clear");
    rodeo.extend(TEXTS.iter().copied())?;
    rodeo.try_get_or_intern_static("a static text of many bytes")?;
    is_so(&rt, is_counted_so(&rodeo, &memory), "filled again");
    let reader = rodeo.into_reader();
    let is_counted = reader.allocated_bytes() == memory.bytes_out();
    is_so(&rt, is_counted, "a reader");
    let resolver = reader.into_resolver();
    let is_counted = resolver.allocated_bytes() == memory.bytes_out();
    is_so(&rt, is_counted, "a resolver");
    drop(resolver);
    is_so(&rt, memory.bytes_out() == 0, "the bytes at the end");
    Ok(())
}

// Interns `count` texts, each at least `step` bytes longer than the one before it. Returns whether
// `allocated_bytes` is right before them and after each.
fn fills_counted<K: Key>(
    alloc: Global,
    memory: &Memory,
    rodeo: &mut Metered<'_, K>,
    count: usize,
    step: usize,
) -> Result<bool, Fail> {
    let mut all = is_counted_so(rodeo, memory);
    for number in 0..count {
        let rest = "-".repeat(alloc, number.saturating_mul(step))?;
        let rest = rest.as_str();
        let text = format!(in alloc; "{number}{rest}")?;
        rodeo.try_get_or_intern(text.as_str())?;
        all &= is_counted_so(rodeo, memory);
    }
    Ok(all)
}

// Whether `allocated_bytes` is right for an interner of `count` texts, for its clone, for the clone's resolver, while
// the interner is filled again after a clear, and for its reader.
fn is_counted<K: Key>(alloc: Global, count: usize, step: usize) -> Result<bool, Fail> {
    let memory = Refusing::new(alloc, 0);
    let mut rodeo = Metered::<K>::new(&memory)?;
    let is_first = fills_counted(alloc, &memory, &mut rodeo, count, step)?;
    let before = memory.bytes_out();
    let copy = rodeo.try_clone()?;
    let is_clone = copy.allocated_bytes() == memory.bytes_out().saturating_sub(before);
    let resolver = copy.into_resolver();
    let is_resolver = resolver.allocated_bytes() == memory.bytes_out().saturating_sub(before);
    drop(resolver);
    rodeo.clear();
    let is_second = fills_counted(alloc, &memory, &mut rodeo, count, step)?;
    let is_reader = rodeo.into_reader().allocated_bytes() == memory.bytes_out();
    Ok(is_first && is_clone && is_resolver && is_second && is_reader)
}

// By each type of key that has 255 keys.
#[test]
fn allocated_bytes_of_many_texts_are_those_given(rt: HostRuntime) -> Result<(), Fail> {
    let alloc = rt.alloc();
    for (count, step) in [(0, 0), (1, 5000), (51, 0), (60, 20), (255, 1)] {
        is_so_at(&rt, is_counted::<MicroSpur>(alloc, count, step)?, count);
        is_so_at(&rt, is_counted::<MiniSpur>(alloc, count, step)?, count);
        is_so_at(&rt, is_counted::<Spur>(alloc, count, step)?, count);
        is_so_at(&rt, is_counted::<LargeSpur>(alloc, count, step)?, count);
    }
    is_so(&rt, is_counted::<Spur>(alloc, 1000, 0)?, "1000 texts");
    Ok(())
}

// Calls that ask for no memory.

// Fails unless the form of the texts, with its first key, tells what it has by each call that takes no text.
macro_rules! is_read {
    ($rt:expr, $form:expr, $key:expr) => {{
        let (form, key) = ($form, $key);
        let mut texts = Vec::with_capacity($rt.alloc(), 40)?;
        form.resolve_all(&[key; 40], &mut texts)?;
        is_so($rt, form.contains_key(key) && form.contains_keys(&[key; 40]), "a key");
        is_so($rt, form.try_resolve(key) == Some("a"), "its text");
        is_so($rt, form.resolve(key) == form.resolve_unchecked(key), "a text");
        is_so($rt, form.len() == TEXTS.len() && !form.is_empty(), "the number");
        is_so($rt, form.allocated_bytes() > 0, "the bytes");
        let (mut walk, mut strings) = (form.iter().clone()?, form.strings().clone()?);
        is_so($rt, walk.next().is_some() && walk.next_back().is_some(), "a walk");
        is_so($rt, strings.next() == Some("a") && strings.next_back().is_some(), "texts");
    }};
}

// Fails unless the interner or its reader finds the first text, and lacks another one, by each call that looks texts up.
macro_rules! is_found {
    ($rt:expr, $form:expr) => {{
        let mut keys = Vec::with_capacity($rt.alloc(), 40)?;
        $form.get_all(&["a"; 40], &mut keys)?;
        is_so($rt, number_of($form.get("a")) == Some(0), "a text");
        is_so($rt, $form.get("absent").is_none() && !$form.contains("absent"), "no text");
    }};
}

// Interns the present text by each call.
fn interns_again(rodeo: &mut Metered<'_, Spur>, alloc: Global) -> LassoResult<()> {
    let mut keys = Vec::with_capacity(alloc, 40)?;
    rodeo.try_get_or_intern("a")?;
    rodeo.get_or_intern("a")?;
    rodeo.try_get_or_intern_static("a")?;
    rodeo.get_or_intern_static("a")?;
    rodeo.extend(["a"])?;
    rodeo.try_get_or_intern_all(&["a"; 40], &mut keys)
}

// The lists of keys and texts have memory of their own, with room for 40.
#[test]
fn calls_that_ask_for_no_memory(rt: HostRuntime) -> Result<(), Fail> {
    let memory = Refusing::new(rt.alloc(), 0);
    let mut rodeo = Metered::<Spur>::new(&memory)?;
    rodeo.extend(TEXTS.iter().copied())?;
    let (mut other, key) = (rodeo.try_clone()?, key_at(0)?);
    let (like, lent) = (
        rodeo.try_clone()?.into_reader(),
        rodeo.try_clone()?.into_resolver(),
    );
    let before = memory.requests();
    is_so(&rt, before > 0, "the requests that are counted");
    interns_again(&mut rodeo, rt.alloc())?;
    is_so(&rt, memory.requests() == before, "present texts");
    is_found!(&rt, rodeo);
    is_read!(&rt, &rodeo, key);
    is_so(
        &rt,
        rodeo == other && rodeo.capacity() >= TEXTS.len(),
        "the same",
    );
    is_so(&rt, (&rodeo).into_iter().len() == TEXTS.len(), "a walk");
    rodeo.set_memory_limits(MemoryLimits::new(7));
    is_so(&rt, rodeo.max_memory_usage() == 7, "the limit");
    is_so(&rt, rodeo.current_memory_usage() == 4096, "the usage");
    is_so(&rt, memory.requests() == before, "an interner");
    let reader = rodeo.into_reader();
    is_found!(&rt, reader);
    is_read!(&rt, &reader, key);
    is_so(
        &rt,
        other.eq_reader(&reader) && reader.eq_rodeo(&other),
        "a reader",
    );
    is_so(
        &rt,
        reader == like && reader.eq_resolver(&lent),
        "two readers",
    );
    is_so(&rt, (&reader).into_iter().len() == TEXTS.len(), "its walk");
    is_so(&rt, memory.requests() == before, "the requests of a reader");
    let resolver = reader.into_resolver();
    is_read!(&rt, &resolver, key);
    is_so(
        &rt,
        other.eq_resolver(&resolver) && resolver.eq_rodeo(&other),
        "a resolver",
    );
    is_so(
        &rt,
        resolver == lent && resolver.eq_reader(&like),
        "two resolvers",
    );
    is_so(
        &rt,
        (&resolver).into_iter().len() == TEXTS.len(),
        "its walk",
    );
    other.clear();
    is_so(&rt, other.is_empty(), "a clear");
    is_so(
        &rt,
        memory.requests() == before,
        "the requests of a resolver and a clear",
    );
    Ok(())
}

// Interns the number in decimal. Returns whether that changed `capacity()` only if it came past it, and then
// allocated. List and index have at least a byte for each text of the capacity.
fn has_room_for(
    alloc: Global,
    memory: &Memory,
    rodeo: &mut Metered<'_, Spur>,
    number: usize,
) -> Result<bool, Fail> {
    let bytes_beside_the_list: usize = 20_000;
    let (said, had) = (rodeo.capacity(), memory.bytes_out());
    let text = number.to_string(alloc)?;
    rodeo.try_get_or_intern(text.as_str())?;
    let is_past = rodeo.len() > said;
    let is_changed = rodeo.capacity() != said;
    let has_allocated = memory.bytes_out() != had;
    let is_large_enough = said <= had.saturating_sub(bytes_beside_the_list);
    Ok(is_changed == is_past && (!is_past || has_allocated) && is_large_enough)
}

// Interns more than twice `strings` texts. `capacity()` has to be right before each, and at first at least `strings`.
#[test]
fn capacity_is_the_room_that_there_is(rt: HostRuntime) -> Result<(), Fail> {
    for strings in [0, 1, 2, 3, 7, 8, 49, 50, 51, 100, 128, 1000usize] {
        let memory = Refusing::new(rt.alloc(), 0);
        let room = Capacity::new(strings, 20_000);
        let mut rodeo = Metered::<Spur>::with_capacity(&memory, room)?;
        is_so_at(&rt, rodeo.capacity() >= strings, strings);
        for number in 0..strings.saturating_mul(2).saturating_add(10) {
            let is_right = has_room_for(rt.alloc(), &memory, &mut rodeo, number)?;
            is_so_at(&rt, is_right, strings);
        }
    }
    Ok(())
}

// Interners filled from items that own memory, which go with the call that takes them.

// How many items there are.
const ITEMS: usize = 10;

// The interner has no room, so that interning an item allocates.
fn of_extended(memory: &Memory) -> LassoResult<usize> {
    let mut rodeo = Metered::<Spur>::with_capacity(memory, Capacity::minimal())?;
    rodeo.extend(numbered(memory, ITEMS)?)?;
    Ok(rodeo.len())
}

fn of_collected(memory: &Memory) -> LassoResult<usize> {
    Ok(Metered::<Spur>::from_iter(memory, numbered(memory, ITEMS)?)?.len())
}

// Whether all items were interned, or memory was refused.
fn are_all_or_refused(memory: &Memory, count: LassoResult<usize>) -> bool {
    match count {
        Ok(count) => count == ITEMS,
        Err(_refusal) => memory.has_refused_anew(),
    }
}

fn fills_from_owned(rt: &impl Host, memory: &Memory) -> Result<(), Fail> {
    let extended = of_extended(memory);
    is_so(rt, are_all_or_refused(memory, extended), "extended");
    is_so(rt, memory.bytes_out() == 0, "the bytes after that");
    let collected = of_collected(memory);
    is_so(rt, are_all_or_refused(memory, collected), "collected");
    Ok(())
}

#[test]
fn items_that_own_memory_are_freed(rt: HostRuntime) -> Result<(), Fail> {
    each_refused(&rt, fills_from_owned)
}

// Makes hashers of the fixed seed, and owns memory.
#[derive(Drop)]
struct OwningState<'m> {
    name: String<&'m Memory>,
}

impl BuildHasher for OwningState<'_> {
    type Hasher = FoldHasher;

    ghost build_hasher = { λ _. folding.initial };

    fn build_hasher(&self) -> FoldHasher {
        FoldHasher::default()
    }
}

// How many texts are interned. They have 25,000 bytes, more than the first bucket.
const MANY: usize = 5000;

// How many texts the form of this number has: an interner, its reader, its resolver, and its reader's resolver. Its
// hasher owns memory.
fn count_in(alloc: Global, memory: &Memory, form: usize) -> Result<usize, Fail> {
    let name = String::from_str(memory, "a hasher that owns memory")?;
    let mut rodeo: Rodeo<Spur, OwningState<'_>, &Memory> = Rodeo::with_hasher(
        memory,
        OwningState { name },
    )?;
    for text in numbered(alloc, MANY)?.iter() {
        rodeo.try_get_or_intern(text.as_str())?;
    }
    Ok(match form {
        0 => rodeo.len(),
        1 => rodeo.into_reader().len(),
        2 => rodeo.into_resolver().len(),
        _ => rodeo.into_reader().into_resolver().len(),
    })
}

#[test]
fn forms_of_many_texts_are_freed(rt: HostRuntime) -> Result<(), Fail> {
    let memory = Refusing::new(rt.alloc(), 0);
    for form in 0..4usize {
        is_so_at(&rt, count_in(rt.alloc(), &memory, form)? == MANY, form);
        is_so_at(&rt, memory.bytes_out() == 0, form);
    }
    Ok(())
}
