//! Lists of texts and of keys that are looked up by one call: how often each text is hashed, where texts are looked
//! ahead at, and thousands of texts and keys by each call.
//!
//! The first texts have 16,360 bytes each: a text of that length is far from position 64 on, since 64 times 16,384
//! bytes are 1,048,576. A batch of 32 that is interned or taken is looked ahead at if at least 8 texts of the one before
//! were present and far; one that `get_all` looks up, if the text before it was present, or if the index has
//! 4,194,304 bytes.
use crate::interners::{Host, Small, has_count, is_so, is_so_at, key_at, number_of, of_texts};
use lasso_parts::keys::{Key, Spur};
use lasso_parts::util::Capacity;
use lasso_single::batch::{Batch, get_next, look_ahead};
use lasso_single::rodeo::Rodeo;
use std::alloc::Global;
use std::cell::Cell;
use std::test::Fail;
use test_common::hashers::CountingState;
use test_common::texts::leaked;

type Counted<'a> = Rodeo<Spur, CountingState<'a>, Global>;

// 37 bytes.
static HEAD: &str = "of the texts of 16,360 bytes, number ";

// 64 bytes.
static FILL: &str = "the quick brown fox jumps over the lazy dog, and then back again";

// The texts of the numbers from 100 on, which have the indices 0 to 99. All of them have the same ends.
fn texts_of(alloc: Global) -> Result<Vec<&'static str>, Fail> {
    let mut texts = Vec::new(alloc);
    for number in 100..200 {
        let mut text = format!(in alloc; "{HEAD}{number}")?;
        for _ in 0..255 {
            text.push_str(FILL)?;
        }
        texts.push(leaked(text)?)?;
    }
    Ok(texts)
}

// The texts of these indices.
fn picked<'a>(alloc: Global, texts: &[&'a str], indices: &[usize]) -> Result<Vec<&'a str>, Fail> {
    let mut list = Vec::new(alloc);
    for index in indices {
        list.push(*texts.get(*index).ok_or("no text")?)?;
    }
    Ok(list)
}

// Whether the keys are those of their indices, and there is none for an index of `count` or more.
fn are_found(keys: &[Option<Spur>], indices: &[usize], count: usize) -> bool {
    let mut all = keys.len() == indices.len();
    for (key, index) in keys.iter().zip(indices) {
        let wanted = if *index < count { Some(*index) } else { None };
        all &= number_of(*key) == wanted;
    }
    all
}

// A call that looks texts up, or interns them.
#[derive(Clone, Copy)]
enum Call {
    // one call for all of them
    GetAll,
    // a call for each, which looks ahead
    GetNext,
    InternAll,
}

// Looks for the texts one after another.
fn found_next(
    rodeo: &Counted<'_>,
    list: &[&str],
    keys: &mut Vec<Option<Spur>>,
) -> Result<(), Fail> {
    let mut batch = Batch::new();
    for i in 0..list.len() {
        if batch.is_due() {
            look_ahead(rodeo, &list[i..], &mut batch);
        }
        keys.push(get_next(rodeo, list[i], &mut batch))?;
    }
    Ok(())
}

// Makes the call for the texts of these indices. Returns whether exactly those of an index below the number of texts
// are found, each with the key of its index.
fn finds_by(
    rodeo: &mut Counted<'_>,
    alloc: Global,
    call: Call,
    texts: &[&str],
    indices: &[usize],
) -> Result<bool, Fail> {
    let list = picked(alloc, texts, indices)?;
    let mut keys = Vec::new(alloc);
    match call {
        Call::GetAll => rodeo.get_all(list.as_slice(), &mut keys)?,
        Call::GetNext => found_next(rodeo, list.as_slice(), &mut keys)?,
        Call::InternAll => {
            let mut interned = Vec::new(alloc);
            rodeo.try_get_or_intern_all(list.as_slice(), &mut interned)?;
            for key in interned.iter() {
                keys.push(Some(*key))?;
            }
        }
    }
    Ok(are_found(keys.as_slice(), indices, rodeo.len()))
}

// An interner with room for this many texts, which has the first 96 and counts the texts that it hashes.
fn counted<'a>(
    alloc: Global,
    made: &'a Cell<u64>,
    strings: usize,
    texts: &[&str],
) -> Result<Counted<'a>, Fail> {
    let (room, state) = (Capacity::for_strings(strings), CountingState::new(made));
    let mut rodeo: Counted<'a> = Rodeo::with_capacity_and_hasher(alloc, room, state)?;
    for text in texts.iter().take(96) {
        rodeo.try_get_or_intern(*text)?;
    }
    Ok(rodeo)
}

// The index of a present text and how often it comes, those of another, and how many texts are then hashed,
// with an absent one last. That one is hashed twice if it is looked ahead at.
type Row = (usize, usize, usize, usize, u64);

static ROWS: [Row; 9] = [
    (0, 0, 63, 32, 33),
    (0, 0, 64, 32, 34),
    (63, 25, 64, 7, 33),
    (63, 24, 64, 8, 34),
    (64, 8, 63, 23, 32),
    // after 32 near texts 224 pass, and after 32 more 448
    (0, 32, 64, 255, 288),
    (0, 32, 64, 256, 290),
    (0, 288, 64, 479, 768),
    (0, 288, 64, 480, 770),
];

// The same, where each text is hashed once.
static ONCE: [Row; 6] = [
    (0, 0, 0, 0, 1),
    (0, 31, 0, 0, 32),
    (0, 32, 64, 32, 65),
    (64, 40, 98, 40, 81),
    (98, 40, 64, 40, 81),
    (98, 33, 97, 63, 97),
];

// Rows of texts to intern, where the absent one is another in each.
static INTERNING: [Row; 4] = [
    (0, 0, 63, 32, 33),
    (0, 0, 64, 32, 34),
    (63, 25, 64, 7, 33),
    (63, 24, 64, 8, 34),
];

// The indices that the row names, and this one of an absent text.
fn indices_of(alloc: Global, row: &Row, absent: usize) -> Result<Vec<usize>, Fail> {
    let mut indices = Vec::new(alloc);
    for _ in 0..row.1 {
        indices.push(row.0)?;
    }
    for _ in 0..row.3 {
        indices.push(row.2)?;
    }
    indices.push(absent)?;
    Ok(indices)
}

// Makes the call for the texts of each row on an interner with room for this many texts. Fails unless they are found,
// and as many are hashed as the row says.
fn hashes_with(rt: &impl Host, strings: usize, call: Call, rows: &[Row]) -> Result<(), Fail> {
    let made = Cell::new(0);
    let texts = texts_of(rt.alloc())?;
    let mut rodeo = counted(rt.alloc(), &made, strings, texts.as_slice())?;
    for (number, row) in rows.iter().enumerate() {
        let absent = match call {
            Call::InternAll => 96 + number % 4,
            _ => 99,
        };
        let indices = indices_of(rt.alloc(), row, absent)?;
        let before = made.get();
        let found = finds_by(&mut rodeo, rt.alloc(), call, &texts, indices.as_slice())?;
        is_so_at(rt, found, number);
        is_so_at(rt, made.get().wrapping_sub(before) == row.4, number);
    }
    Ok(())
}

#[test]
fn where_looking_ahead_begins(rt: HostRuntime) -> Result<(), Fail> {
    hashes_with(&rt, 50, Call::GetNext, &ROWS)
}

// A growing index would hash its texts again.
#[test]
fn where_looking_ahead_begins_to_intern(rt: HostRuntime) -> Result<(), Fail> {
    hashes_with(&rt, 1000, Call::InternAll, &INTERNING)
}

// 700,000 texts have 1,048,576 slots of 5 bytes.
#[test]
fn texts_of_a_list_are_hashed_once(rt: HostRuntime) -> Result<(), Fail> {
    hashes_with(&rt, 50, Call::GetAll, &ONCE)?;
    hashes_with(&rt, 700_000, Call::GetAll, &ONCE)
}

// Looks the texts up in a reader.
#[test]
fn texts_of_a_list_are_hashed_once_in_a_reader(rt: HostRuntime) -> Result<(), Fail> {
    let made = Cell::new(0);
    let texts = texts_of(rt.alloc())?;
    let reader = counted(rt.alloc(), &made, 50, texts.as_slice())?.into_reader();
    for (number, row) in ONCE.iter().enumerate() {
        let indices = indices_of(rt.alloc(), row, 99)?;
        let list = picked(rt.alloc(), &texts, indices.as_slice())?;
        let before = made.get();
        let mut keys = Vec::new(rt.alloc());
        reader.get_all(list.as_slice(), &mut keys)?;
        let found = are_found(keys.as_slice(), indices.as_slice(), reader.len());
        is_so_at(&rt, found, number);
        is_so_at(&rt, made.get().wrapping_sub(before) == row.4, number);
    }
    Ok(())
}

// Lists of thousands of texts and of keys, by each call that takes a list.

// How many texts a list has, and how many of them are distinct: the first ones, which come again in order.
const COUNT: usize = 6000;

const DISTINCT: usize = 2500;

// The distinct texts.
fn numbers(alloc: Global) -> Result<Vec<String>, Fail> {
    let mut texts = Vec::new(alloc);
    for number in 0..DISTINCT {
        texts.push(number.to_string(alloc)?)?;
    }
    Ok(texts)
}

fn list_of<'a>(alloc: Global, texts: &'a [String]) -> Result<Vec<&'a str>, Fail> {
    let mut list = Vec::new(alloc);
    for place in 0..COUNT {
        list.push(texts[place % DISTINCT].as_str())?;
    }
    Ok(list)
}

// The keys of the list.
fn keys_of(alloc: Global) -> Result<Vec<Spur>, Fail> {
    let mut keys = Vec::new(alloc);
    for place in 0..COUNT {
        keys.push(key_at(place % DISTINCT)?)?;
    }
    Ok(keys)
}

// Whether the keys are those of the list.
fn are_keys(keys: &[Option<Spur>]) -> bool {
    let mut all = keys.len() == COUNT;
    for (place, key) in keys.iter().enumerate() {
        all &= number_of(*key) == Some(place % DISTINCT);
    }
    all
}

#[test]
fn six_thousand_texts_are_interned(rt: HostRuntime) -> Result<(), Fail> {
    let texts = numbers(rt.alloc())?;
    let list = list_of(rt.alloc(), texts.as_slice())?;
    let mut rodeo = Small::default(rt.alloc())?;
    let mut keys = Vec::new(rt.alloc());
    rodeo.try_get_or_intern_all(list.as_slice(), &mut keys)?;
    let wanted = keys_of(rt.alloc())?;
    is_so(&rt, keys.as_slice() == wanted.as_slice(), "the keys");
    is_so(&rt, has_count(&rodeo, DISTINCT), "the number of texts");
    Ok(())
}

// Fails unless the interner or the frozen form finds the keys of the list.
macro_rules! finds {
    ($rt:expr, $form:expr, $list:expr) => {{
        let mut found = Vec::new($rt.alloc());
        $form.get_all($list, &mut found)?;
        is_so($rt, are_keys(found.as_slice()), "the keys");
    }};
}

#[test]
fn six_thousand_texts_are_found(rt: HostRuntime) -> Result<(), Fail> {
    let texts = numbers(rt.alloc())?;
    let list = list_of(rt.alloc(), texts.as_slice())?;
    let rodeo = of_texts(rt.alloc(), list.as_slice())?;
    finds!(&rt, rodeo, list.as_slice());
    let reader = rodeo.into_reader();
    finds!(&rt, reader, list.as_slice());
    Ok(())
}

// Fails unless the interner or the frozen form gives these texts for the keys.
macro_rules! gives_texts {
    ($rt:expr, $form:expr, $keys:expr, $list:expr) => {{
        let mut texts = Vec::new($rt.alloc());
        is_so($rt, $form.contains_keys($keys), "the keys");
        $form.resolve_all($keys, &mut texts)?;
        is_so($rt, texts.as_slice() == $list, "the texts");
    }};
}

#[test]
fn six_thousand_keys_are_resolved(rt: HostRuntime) -> Result<(), Fail> {
    let texts = numbers(rt.alloc())?;
    let list = list_of(rt.alloc(), texts.as_slice())?;
    let rodeo = of_texts(rt.alloc(), list.as_slice())?;
    let keys = keys_of(rt.alloc())?;
    gives_texts!(&rt, rodeo, keys.as_slice(), list.as_slice());
    let resolver = rodeo.try_clone()?.into_resolver();
    gives_texts!(&rt, resolver, keys.as_slice(), list.as_slice());
    let reader = rodeo.into_reader();
    gives_texts!(&rt, reader, keys.as_slice(), list.as_slice());
    Ok(())
}
