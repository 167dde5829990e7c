//! Names that are interned by a pass, an interner that two threads own, keys of one's own, and an interner that is
//! saved. Texts that collide under the fixed seed, in an interner with keys of its own; and the keyed hash against vectors
//! of its authors.
use crate::steps::{fresh, is_so};
use lasso::index::hash_text;
use lasso::interface::Interner;
use lasso::keyed::{KeyedState, keyed_by};
use lasso::{
    FixedState, JsonError, Key, LassoErrorKind, LassoResult, Rodeo, Spur, SpurRodeo,
    SpurThreadedRodeo, ThreadedRodeo,
};
use lasso_guide::own_key::SmallKey;
use lasso_guide::pairs::intern_pair;
use lasso_guide::passes::{declare, intern_names};
use lasso_guide::saving::{LoadError, load, reload, save};
use lasso_guide::spurs::SpurTable;
use serde_json::Value;
use std::alloc::{AllocError, Global};
use std::hash::BuildHasher;
use std::sync::{Arc, Wait};
use std::test::*;
use std::thread;
use test_common::texts::colliding;
use test_steps::Host;

#[test]
fn names_by_one_pass(rt: HostRuntime) -> Result<(), Fail> {
    let rodeo = fresh(rt.alloc())?;
    let mut pass = rodeo.pass();
    intern_names(&rt, &rodeo, &mut pass, &["width", "height", "width"])?;
    is_so(&rt, rodeo.len_as(&mut pass) == 2, "two names");
    Ok(())
}

#[test]
fn an_interner_that_two_threads_own(rt: HostRuntime) -> Result<(), Fail> {
    let made: SpurThreadedRodeo = ThreadedRodeo::default(rt.alloc())?;
    let rodeo = Arc::new(rt.alloc(), made)?;
    let theirs = Arc::try_clone(&rodeo)?;
    let child = thread::spawn(&rt, move || theirs.try_get_or_intern(&rt, "Hello, world!"))?;
    let here = rodeo.try_get_or_intern(&rt, "Hello, world!")?;
    let there = child.join(&rt)?;
    assert!(rt; here == there);
    assert!(rt; rodeo.resolve(there) == Some("Hello, world!"));
    Ok(())
}

#[test]
fn a_name_by_a_pass(rt: HostRuntime) -> Result<(), Fail> {
    let rodeo = fresh(rt.alloc())?;
    let mut pass = rodeo.pass();
    for (number, name) in ["width", "height", "width"].iter().enumerate() {
        let key = declare(&rt, &rodeo, &mut pass, *name)?;
        is_so(&rt, key.into_usize() == number % 2, "the key");
        let text = rodeo.try_resolve_as(&mut pass, key);
        is_so(&rt, text == Some(*name), "the name");
    }
    Ok(())
}

// Names that two threads intern.
#[test]
fn names_of_two_threads(rt: HostRuntime) -> Result<(), Fail> {
    let rodeo = fresh(rt.alloc())?;
    let mut pass = rodeo.pass();
    let (left, right) = intern_pair(&rt, &rodeo, &mut pass, "width", "height")?;
    let text = rodeo.try_resolve_as(&mut pass, left);
    is_so(&rt, text == Some("width"), "width");
    let text = rodeo.try_resolve_as(&mut pass, right);
    is_so(&rt, text == Some("height"), "height");
    let (same, again) = intern_pair(&rt, &rodeo, &mut pass, "width", "width")?;
    let holds = left != right && same == left && again == left;
    is_so(&rt, holds, "the keys");
    is_so(&rt, rodeo.len_as(&mut pass) == 2, "two names");
    Ok(())
}

// An interner of the key type.

type Small = Rodeo<SmallKey, FixedState, Global>;

// Each of 200 texts gets the next position, and then no key is left.
#[test]
fn a_key_type_of_ones_own(rt: HostRuntime) -> Result<(), Fail> {
    let mut rodeo: Small = Rodeo::new(rt.alloc())?;
    for number in 0..200usize {
        let text = format!(in rt.alloc(); "text {number}")?;
        let key = rodeo.try_get_or_intern(text.as_str())?;
        is_so(&rt, key.into_usize() == number, text.as_str());
    }
    let refusal = match rodeo.try_get_or_intern("one more") {
        Ok(_) => None,
        Err(refusal) => Some(refusal.kind()),
    };
    let no_key = Some(LassoErrorKind::KeySpaceExhaustion);
    is_so(&rt, refusal == no_key, "one more");
    let last = rodeo.get("text 199").ok_or("absent")?;
    is_so(&rt, rodeo.try_resolve(last) == Some("text 199"), "the last");
    Ok(())
}

// An interner that is saved and loaded. A list with a doubled text is refused, and a text that is not JSON.
#[test]
fn loaded_keys_stand_for_the_same_texts(rt: HostRuntime) -> Result<(), Fail> {
    let mut rodeo: SpurRodeo = Rodeo::new(rt.alloc())?;
    let quoted = rodeo.try_get_or_intern("a \"quoted\" text\n")?;
    let empty = rodeo.try_get_or_intern("")?;
    let text = save(&rodeo, rt.alloc())?;
    let holds = text.as_str() == r#"["a \"quoted\" text\n",""]"#;
    is_so(&rt, holds, "saved");
    let copy = reload(&rodeo, rt.alloc()).ok().ok_or("not loaded")?;
    is_so(&rt, copy.len() == 2, "two texts");
    let text = copy.try_resolve(quoted);
    is_so(&rt, text == Some("a \"quoted\" text\n"), "the quoted text");
    is_so(&rt, copy.try_resolve(empty) == Some(""), "the empty text");
    let fault = load::<Spur>(rt.alloc(), r#"["one", "one"]"#).err();
    let is_doubled = matches!(fault, Some(LoadError::List(JsonError::Doubled(1))));
    is_so(&rt, is_doubled, "a doubled text");
    let fault = load::<Spur>(rt.alloc(), "[").err();
    is_so(&rt, matches!(fault, Some(LoadError::Text(_))), "no JSON");
    Ok(())
}

// Symbols of names.
#[test]
fn symbols_of_names(rt: HostRuntime) -> Result<(), Fail> {
    let mut table = SpurTable::new(rt.alloc())?;
    let (x, y) = (table.declare("x")?, table.declare("y")?);
    is_so(&rt, table.declare("x")? == x, "x again");
    is_so(&rt, table.name_of(x) == Some("x"), "x");
    is_so(&rt, table.name_of(y) == Some("y"), "y");
    Ok(())
}

// The examples of the front page, of threads and of callers over any interner that documents of the repository name.
// The examples in the documents of the code are run from there (`.ci/tests test_examples`).

#[test]
fn one_interner(rt: HostRuntime) -> Result<(), Fail> {
    let mut rodeo = Rodeo::default(rt.alloc())?;
    let hello = rodeo.try_get_or_intern("Hello, world!")?;
    let again = rodeo.try_get_or_intern("Hello, world!")?;
    assert!(rt; hello == again);
    assert!(rt; hello.into_usize() == 0);
    assert!(rt; rodeo.try_resolve(hello) == Some("Hello, world!"));
    Ok(())
}

#[test]
fn sharing_a_reader_between_two_threads(rt: HostRuntime) -> Result<(), Fail> {
    let mut rodeo = Rodeo::default(rt.alloc())?;
    let hello = rodeo.try_get_or_intern("Hello, world!")?;
    let reader = rodeo.into_reader();
    let (here, there) = thread::join(
        &rt,
        || reader.try_resolve(hello) == Some("Hello, world!"),
        || reader.get("Hello, world!").is_some() && reader.get("Goodbye!").is_none(),
    );
    assert!(rt; here);
    assert!(rt; there);
    Ok(())
}

/// How many different words the line has.
fn count_words<K: Key, I: Interner<K>>(
    rt: &impl Host,
    interner: &mut I,
    line: &str,
) -> LassoResult<usize> {
    for word in line.split_whitespace() {
        interner.try_get_or_intern(rt, word)?;
    }
    Ok(interner.len())
}

#[test]
fn taking_any_interner(rt: HostRuntime) -> Result<(), Fail> {
    let mut rodeo: SpurRodeo = Rodeo::new(rt.alloc())?;
    assert!(rt; count_words::<Spur, _>(&rt, &mut rodeo, "to be or not to be")? == 4);
    let mut boxed = Box::new(rt.alloc(), rodeo)?;
    assert!(rt; count_words::<Spur, _>(&rt, &mut boxed, "that is the question")? == 8);
    Ok(())
}

#[test]
fn saved_and_loaded(rt: HostRuntime) -> Result<(), Fail> {
    let mut rodeo = SpurRodeo::default(rt.alloc())?;
    rodeo.extend(["red", "green", "blue"])?;
    let saved = rodeo.serialize(rt.alloc())?.to_string(rt.alloc())?;

    let value = Value::from_str(rt.alloc(), saved.as_str())?;
    let loaded = SpurRodeo::deserialize(rt.alloc(), &value)?;
    assert!(rt; loaded.get("green") == rodeo.get("green"));
    Ok(())
}

// Texts that collide under the fixed seed.

// How many texts collide.
const TEXTS: u32 = 10_000;

// The hashes of the texts, in increasing order.
fn hashes<S: BuildHasher>(
    alloc: Global,
    hasher: &S,
    texts: &[String],
) -> Result<Vec<u64>, AllocError> {
    let mut hashes = Vec::new(alloc);
    for text in texts.iter() {
        hashes.push(hash_text(hasher, text.as_str()))?;
    }
    hashes.sort()?;
    Ok(hashes)
}

// How many of the sorted hashes differ from the one before them.
fn distinct(hashes: &[u64]) -> usize {
    let mut count: usize = 0;
    for at in 0..hashes.len() {
        if at == 0 || hashes[at - 1] != hashes[at] {
            count = count.saturating_add(1);
        }
    }
    count
}

#[test]
fn texts_collide_under_the_fixed_seed_alone(rt: HostRuntime) -> Result<(), Fail> {
    let texts = colliding(rt.alloc(), TEXTS)?;
    let fixed = distinct(&hashes(rt.alloc(), &FixedState::new(), &texts)?);
    is_so(&rt, fixed == 1, "the fixed seed");
    for keys in [*b"sixteen of bytes", *b"another sixteen "] {
        let keyed = distinct(&hashes(rt.alloc(), &keyed_by(keys), &texts)?);
        is_so(&rt, keyed == texts.len(), "a keyed hasher");
    }
    Ok(())
}

// Each text gets the next position, and is found there.
#[test]
fn a_keyed_interner_has_texts_that_collide_under_the_fixed_seed(
    rt: HostRuntime,
) -> Result<(), Fail> {
    let texts = colliding(rt.alloc(), TEXTS)?;
    let mut rodeo: Rodeo<Spur, KeyedState, Global> = Rodeo::with_hasher(
        rt.alloc(),
        keyed_by(*b"sixteen of bytes"),
    )?;
    for (position, text) in texts.iter().enumerate() {
        let key = rodeo.try_get_or_intern(text.as_str())?;
        is_so(&rt, key.into_usize() == position, "the next position");
    }
    for (position, text) in texts.iter().enumerate() {
        let key = rodeo.get(text.as_str());
        is_so(&rt, key == Spur::try_from_usize(position), "the position");
    }
    Ok(())
}

#[test]
fn a_shared_interner_may_be_keyed(rt: HostRuntime) -> Result<(), Fail> {
    let texts = colliding(rt.alloc(), TEXTS)?;
    let shared: ThreadedRodeo<Spur, KeyedState> = ThreadedRodeo::with_hasher(
        rt.alloc(),
        keyed_by(*b"sixteen of bytes"),
    )?;
    for (position, text) in texts.iter().take(100).enumerate() {
        let key = shared.try_get_or_intern(&rt, text.as_str())?;
        is_so(&rt, key.into_usize() == position, "the next position");
    }
    is_so(&rt, shared.len() == 100, "the number of texts");
    Ok(())
}

// The hashes of a keyed hasher are those of SipHash-1-3 with its keys.
//
// The values of `PUBLISHED` begin those of the tests of Rust's standard library, for the bytes 0, 1, 2 and so on under
// the keys 0 to 15. The values of `PYTHON` are those of CPython 3.11 with PYTHONHASHSEED=0, which hashes bytes by
// SipHash-1-3 with keys of zeros there. A program in Python, written from the description of SipHash for this alone, gives
// both, and the vectors of SipHash-2-4 that its authors published.

const KEYS: [u8; 16] = [0, 1, 2, 3, 4, 5, 6, 7, 8, 9, 10, 11, 12, 13, 14, 15];

// How many bytes are hashed, and the hash.
const PUBLISHED: [(usize, u64); 7] = [
    (0, 0xabac_0158_050f_c4dc),
    (1, 0xc9f4_9bf3_7d57_ca93),
    (7, 0xd392_7d98_9bb1_1140),
    (8, 0x3690_9511_8d29_9a8e),
    (15, 0xd320_d86d_2a51_9956),
    (16, 0xcc4f_dd1a_7d90_8b66),
    (63, 0x9d19_9062_b7bb_b3a8),
];

const PYTHON: [(&str, u64); 3] = [
    ("a", 0x4074_48d2_b89b_1813),
    ("abcdefgh", 0x3f7b_849c_0b8e_35ea),
    ("hello, world", 0xd792_fbf8_1ec1_97f9),
];

// The characters of the numbers below `count`, of one byte each.
fn counted(alloc: Global, count: usize) -> Result<String, Fail> {
    let mut text = String::new(alloc);
    for number in 0..count.min(64) {
        text.push(char::from(number as u8))?;
    }
    Ok(text)
}

#[test]
fn keyed_hashes_are_published_ones(rt: HostRuntime) -> Result<(), Fail> {
    let hasher = keyed_by(KEYS);
    for (count, hash) in PUBLISHED {
        let text = counted(rt.alloc(), count)?;
        is_so(&rt, hash_text(&hasher, text.as_str()) == hash, "a hash");
    }
    Ok(())
}

#[test]
fn hashes_with_keys_of_zeros_are_those_of_python(rt: HostRuntime) {
    let hasher = keyed_by([0; 16]);
    for (text, hash) in PYTHON {
        is_so(&rt, hash_text(&hasher, text) == hash, "a hash");
    }
}
