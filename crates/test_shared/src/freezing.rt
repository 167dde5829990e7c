//! Frozen forms of an interner that threads share, and whether readers and resolvers have a list of texts; and copies of
//! its list.
use crate::checks::{Look, Origin, Shown, bytes_of, freezes_as, is_so, runs_in, shows_as};
use Look::{Copies, Does};
use Step::{Counts, Extends, Finds, Interns, IsLimited, Limits, Takes, Uses};
use lasso_parts::iter::Strings;
use lasso_parts::keys::{Key, LargeSpur, Spur};
use lasso_parts::util::{FixedState, LassoResult};
use lasso_shared::threaded::{Iter, Strings as SharedStrings, ThreadedRodeo};
use lasso_single::reader::RodeoReader;
use lasso_single::resolver::RodeoResolver;
use lasso_single::rodeo::Rodeo;
use std::alloc::Global;
use std::fmt::Debug;
use std::hash::BuildHasher;
use std::test::*;
use std::thread::join;
use test_common::hashers::FirstState;
use test_common::keys::WithoutTwo;
use test_steps::Host;
use test_steps::calls::{Shared, limited, made};
use test_steps::cases::{Maker, PLAIN, SIZE, sized};
use test_steps::steps::{FULL, NO_KEY, Step, Way};
use test_steps::texts::List::{Numbers, Texts};
use test_steps::texts::{LENGTHS, items_of};

#[test]
fn a_reader_of_texts_in_three_buckets(rt: HostRuntime) -> Result<(), Fail> {
    static LOOKS: [Look; 1] = [Does(&[
        Takes("abc", Ok(0)),
        Takes("defghijk", Ok(1)),
        Takes("x", Ok(2)),
        Limits(14),
        Takes("yz", Ok(3)),
    ])];
    let origin = Origin::Made(Maker::Sized(50, 4, 12));
    let frozen = (Texts(&["abc", "defghijk", "x", "yz"]), "abcd");
    freezes_as::<Spur, FixedState>(&rt, origin, &LOOKS, frozen, PLAIN)
}

// The key type and the limit refuse a text.
#[test]
fn refused_texts_are_not_in_a_frozen_form(rt: HostRuntime) -> Result<(), Fail> {
    static LOOKS: [Look; 1] = [Does(&[
        Takes("p", Ok(0)),
        Takes("q", Ok(1)),
        Takes("r", NO_KEY),
        Takes("r", NO_KEY),
        Takes("r", FULL),
        Takes("q", Ok(1)),
    ])];
    let (origin, frozen) = (Origin::Made(Maker::Full(4)), (Texts(&["p", "q"]), "r"));
    freezes_as::<WithoutTwo, FixedState>(&rt, origin, &LOOKS, frozen, PLAIN)
}

#[test]
fn an_interner_without_texts_is_frozen(rt: HostRuntime) -> Result<(), Fail> {
    let (origin, frozen) = (Origin::Made(Maker::Default), (Texts(&[]), ""));
    freezes_as::<Spur, FixedState>(&rt, origin, &[], frozen, PLAIN)
}

// An interner of `A` alone.
fn of_one(rt: &impl Host) -> Result<Shared, Fail> {
    let shared = made(rt.alloc())?;
    shared.try_get_or_intern(rt, "A")?;
    Ok(shared)
}

// Two threads find that the reader has `A` alone.
#[test]
fn two_threads_read_a_reader(rt: HostRuntime) -> Result<(), Fail> {
    let reader = of_one(&rt)?.into_reader(&rt)?;
    let (here, there) = join(
        &rt,
        || reads_just(&reader, &["A"], "F"),
        || reads_just(&reader, &["A"], "F"),
    );
    is_so(&rt, here && there, "two threads");
    Ok(())
}

// Two threads find that the resolver has `A` alone.
#[test]
fn two_threads_read_a_resolver(rt: HostRuntime) -> Result<(), Fail> {
    let resolver = of_one(&rt)?.into_resolver(&rt)?;
    let (here, there) = join(
        &rt,
        || resolves_just(&resolver, &["A"]),
        || resolves_just(&resolver, &["A"]),
    );
    is_so(&rt, here && there, "two threads");
    Ok(())
}

// A static text of the pass that freezes the interner, and two texts of other threads.
#[test]
fn static_texts_and_texts_of_other_passes_are_frozen(rt: HostRuntime) -> Result<(), Fail> {
    let shared = made(rt.alloc())?;
    let mut pass = shared.pass();
    let kept = shared.try_get_or_intern_static_as(&rt, &mut pass, "a static text")?;
    let (first, second) = join(
        &rt,
        || shared.try_get_or_intern(&rt, "red"),
        || shared.try_get_or_intern(&rt, ""),
    );
    let (first, second) = (first?.into_usize(), second?.into_usize());
    let reader = shared.into_reader_as(&rt, &mut pass)?;
    is_so(&rt, reader.len() == 3, "three texts");
    is_so(&rt, is_read(&reader, first, "red"), "red");
    is_so(&rt, is_read(&reader, second, ""), "the empty text");
    is_so(&rt, is_read(&reader, 0, "a static text"), "the static text");
    let holds = reader.try_resolve(kept) == Some("a static text");
    is_so(&rt, holds, "its key");
    Ok(())
}

// Whether readers and resolvers have a list of texts.

// Whether the walk yields exactly these texts, in order.
fn yields<K: Key>(mut strings: Strings<'_, K>, texts: &[&str]) -> bool {
    let mut all = true;
    for position in 0..texts.len() {
        all &= strings.next() == Some(texts[position]);
    }
    all && strings.next().is_none()
}

// Whether the text is in the reader, with this number.
fn is_read<K: Key, S: BuildHasher>(
    reader: &RodeoReader<K, S, Global>,
    number: usize,
    text: &str,
) -> bool {
    let is_key = match reader.get(text) {
        Some(key) => key.into_usize() == number && reader.try_resolve(key) == Some(text),
        None => false,
    };
    is_key && reader.contains(text)
}

// Whether the key with this number stands for no text in the reader.
fn reads_none<K: Key, S: BuildHasher>(reader: &RodeoReader<K, S, Global>, number: usize) -> bool {
    match K::try_from_usize(number) {
        Some(key) => reader.try_resolve(key).is_none() && !reader.contains_key(key),
        None => true,
    }
}

// Whether the reader has exactly these texts. `absent` is not one of them.
fn reads_just<K: Key, S: BuildHasher>(
    reader: &RodeoReader<K, S, Global>,
    texts: &[&str],
    absent: &str,
) -> bool {
    let mut all = reader.len() == texts.len() && reader.is_empty() == texts.is_empty();
    for position in 0..texts.len() {
        all &= is_read(reader, position, texts[position]);
    }
    let lacks = reader.get(absent).is_none() && !reader.contains(absent);
    let past = reads_none(reader, texts.len()) && reads_none(reader, texts.len().saturating_add(9));
    all && lacks && past && yields(reader.strings(), texts)
}

// Whether the resolver has the text at this number, or none.
fn is_resolved<K: Key>(
    resolver: &RodeoResolver<K, Global>,
    number: usize,
    text: Option<&str>,
) -> bool {
    match K::try_from_usize(number) {
        Some(key) => resolver.try_resolve(key) == text,
        None => text.is_none(),
    }
}

// Whether the resolver has exactly these texts.
fn resolves_just<K: Key>(resolver: &RodeoResolver<K, Global>, texts: &[&str]) -> bool {
    let mut all = resolver.len() == texts.len();
    for position in 0..texts.len() {
        all &= is_resolved(resolver, position, Some(texts[position]));
    }
    all && is_resolved(resolver, texts.len(), None)
        && is_resolved(resolver, texts.len().saturating_add(9), None)
        && yields(resolver.strings(), texts)
}

// Whether the debug text of the frozen form tells of one bucket of the bytes of the texts, or of 4096 if they have none, and
// of no limit.
fn has_one_bucket<T: Debug>(alloc: Global, form: &T, texts: &[&str]) -> LassoResult<bool> {
    let bytes = match bytes_of(texts) {
        0 => 4096,
        bytes => bytes,
    };
    let arena = format!(in alloc;
        "{{ buckets: ... 1 bucket, bucket_capacity: {bytes}, memory_usage: {bytes}, max_memory_usage: 18446744073709551615 }}"
    )?;
    Ok(
        format!(in alloc; "{form:?}")?
            .as_str()
            .contains(arena.as_str()),
    )
}

/// How an interner is frozen.
#[derive(Clone, Copy)]
pub(super) enum Frozen {
    Reader,
    ReaderByPass,
    Resolver,
}

/// Each of them.
pub(super) static FROZEN: [Frozen; 3] = [Frozen::Reader, Frozen::ReaderByPass, Frozen::Resolver];

/// Freezes the interner. Returns whether it then has exactly these texts, in one bucket. `absent` is not one of them.
pub(super) fn is_frozen<K: Key, S: BuildHasher + Drop>(
    rt: &impl Host,
    shared: ThreadedRodeo<K, S>,
    frozen: Frozen,
    texts: &[&str],
    absent: &str,
) -> LassoResult<bool> {
    let alloc = rt.alloc();
    match frozen {
        Frozen::Reader => {
            let reader = shared.into_reader(rt)?;
            Ok(reads_just(&reader, texts, absent) && has_one_bucket(alloc, &reader, texts)?)
        }
        Frozen::ReaderByPass => {
            let mut pass = shared.pass();
            let reader = shared.into_reader_as(rt, &mut pass)?;
            Ok(reads_just(&reader, texts, absent) && has_one_bucket(alloc, &reader, texts)?)
        }
        Frozen::Resolver => {
            let resolver = shared.into_resolver(rt)?;
            Ok(resolves_just(&resolver, texts) && has_one_bucket(alloc, &resolver, texts)?)
        }
    }
}

// Copies of the list of an interner that threads share.

impl<'a, K: Key, S: BuildHasher + Default + Drop, R: Host> Shown<'a, K, S, R> {
    /// Whether a copy of the list that a new pass sees is equal to the interner.
    pub(super) fn is_copied(&self) -> LassoResult<bool> {
        let list = self.shared.seen_list_as(&mut self.shared.pass());
        let copy: Rodeo<K, S, Global> = self
            .shared
            .copy_list(self.rt.alloc(), &list, S::default())?;
        Ok(self.shared.eq_rodeo(self.rt, &copy))
    }
}

// The only bucket has the bytes of two of the texts, which are the limit.
#[test]
fn a_copy_leaves_the_interner_as_it_is(rt: HostRuntime) -> Result<(), Fail> {
    static LOOKS: [Look; 5] = [
        Copies,
        Does(&[
            Counts(0),
            Interns(Way::TryCopied, "a-", Ok(0)),
            Interns(Way::TryStatic, "s", Ok(1)),
        ]),
        Copies,
        Copies,
        Does(&[
            Counts(2),
            IsLimited(2 * SIZE),
            Uses(2 * SIZE),
            Finds("a.", None),
            Interns(Way::TryCopied, "b-", Ok(2)),
            Interns(Way::TryCopied, "z", FULL),
        ]),
    ];
    for length in LENGTHS.iter() {
        let origin = Origin::Made(Maker::Full(2 * SIZE));
        shows_as::<Spur, FixedState>(&rt, origin, &LOOKS, sized(*length))?;
    }
    Ok(())
}

// The only bucket has the bytes of the texts and one more.
#[test]
fn a_copy_of_many_leaves_the_interner_as_it_is(rt: HostRuntime) -> Result<(), Fail> {
    static LOOKS: [Look; 3] = [
        Does(&[Extends(Numbers(0, 3000), None)]),
        Copies,
        Does(&[
            Counts(3000),
            IsLimited(15_001),
            Uses(15_001),
            Takes("z", Ok(3000)),
            Takes("y", FULL),
        ]),
    ];
    let origin = Origin::Made(Maker::Full(15_001));
    shows_as::<Spur, FixedState>(&rt, origin, &LOOKS, PLAIN)?;
    shows_as::<LargeSpur, FirstState>(&rt, origin, &LOOKS, PLAIN)
}

// Walks, the iterators of an interner that threads share.

// A walk over the texts and their keys, and one over the texts.
#[derive(Drop)]
struct Walks<'a> {
    walk: Iter<'a, Spur>,
    strings: SharedStrings<'a, Spur>,
}

impl<'a> Walks<'a> {
    // New walks.
    fn of(shared: &'a Shared) -> Self {
        Walks {
            walk: shared.iter(),
            strings: shared.strings(),
        }
    }

    // Whether both say, by `len` and `size_hint`, that they have `left` texts left.
    fn have_left(&self, left: usize) -> bool {
        let hint = (left, Some(left));
        self.walk.len() == left
            && self.strings.len() == left
            && self.walk.size_hint() == hint
            && self.strings.size_hint() == hint
    }

    // Whether both yield this text next, the one with the key of this number.
    fn give(&mut self, number: usize, text: &str) -> bool {
        match self.walk.next() {
            Some((key, found)) => {
                key.into_usize() == number && found == text && self.strings.next() == Some(text)
            }
            None => false,
        }
    }

    // Whether both are at their end, and stay there.
    fn are_at_end(&mut self) -> bool {
        let mut all = true;
        for _ in 0..3usize {
            all &= self.walk.next().is_none() && self.strings.next().is_none();
            all &= self.have_left(0);
        }
        all
    }
}

// New walks yield exactly the texts, and say before each how many are left.
#[test]
fn walks_give_the_texts_in_the_order_of_their_keys(rt: HostRuntime) -> Result<(), Fail> {
    static STEPS: [Step; 5] = [
        Takes("abc", Ok(0)),
        Takes("defghijk", Ok(1)),
        Takes("x", Ok(2)),
        Limits(14),
        Takes("yz", Ok(3)),
    ];
    let shared: Shared = limited(rt.alloc(), 4, 12)?;
    runs_in(&rt, &shared, &STEPS, PLAIN)?;
    let mut walks = Walks::of(&shared);
    for (number, text) in ["abc", "defghijk", "x", "yz"].iter().enumerate() {
        is_so(&rt, walks.have_left(4 - number), "how many are left");
        is_so(&rt, walks.give(number, *text), *text);
    }
    is_so(&rt, walks.are_at_end(), "the end");
    Ok(())
}

// Walks made before and after a text is interned yield the texts that were there, also if they skip some.
#[test]
fn a_walk_has_the_texts_of_its_making(rt: HostRuntime) -> Result<(), Fail> {
    let shared = made(rt.alloc())?;
    let p = shared.try_get_or_intern_static(&rt, "p")?;
    is_so(&rt, p.into_usize() == 0, "the number of p");
    let q = shared.try_get_or_intern(&rt, "q")?;
    is_so(&rt, q.into_usize() == 1, "the number of q");
    let mut pass = shared.pass();
    let walk = shared.iter_as(&mut pass);
    let strings = shared.strings_as(&mut pass);
    let mut walks = Walks { walk, strings };
    is_so(&rt, walks.give(0, "p"), "p");
    shared.try_get_or_intern_static_as(&rt, &mut pass, "r")?;
    is_so(&rt, walks.have_left(1) && walks.give(1, "q"), "q");
    is_so(&rt, walks.are_at_end(), "the end of the walks made before");
    is_so(&rt, shared.strings_as(&mut pass).nth(2) == Some("r"), "r");
    let third = match shared.iter_as(&mut pass).nth(2) {
        Some((key, text)) => key.into_usize() == 2 && text == "r",
        None => false,
    };
    is_so(&rt, third, "r and its key");
    is_so(&rt, Walks::of(&shared).have_left(3), "the walks made now");
    Ok(())
}

#[test]
fn walks_of_an_empty_interner_are_at_their_end(rt: HostRuntime) -> Result<(), Fail> {
    let shared = made(rt.alloc())?;
    let mut walks = Walks::of(&shared);
    is_so(&rt, walks.have_left(0), "no text");
    shared.try_get_or_intern_static(&rt, "p")?;
    is_so(&rt, walks.are_at_end(), "the end");
    Ok(())
}

// Interns copies of the texts.
fn copies(rt: &impl Host, shared: &Shared, texts: &[&str]) -> LassoResult<()> {
    for text in texts.iter() {
        shared.try_get_or_intern(rt, *text)?;
    }
    Ok(())
}

// Whether the walk yields a prefix of the texts.
fn begins(mut walk: SharedStrings<'_, Spur>, texts: &[&str]) -> bool {
    for text in texts.iter() {
        match walk.next() {
            Some(found) if found == *text => {}
            Some(_) => return false,
            None => return true,
        }
    }
    walk.next() == None
}

// Walks `times` times, and stops at a walk that yields no prefix of the texts or is shorter than an earlier
// one. Returns how many walks came before.
fn walks_before(shared: &Shared, texts: &[&str], times: usize) -> usize {
    let mut least = 0;
    for time in 0..times {
        let walk = shared.strings();
        let len = walk.len();
        if len < least || !begins(walk, texts) {
            return time;
        }
        least = len;
    }
    times
}

// Walks 1000 times over the texts while another thread interns them, and then over exactly these texts.
#[test]
fn a_walk_beside_a_writer_gives_a_beginning_of_the_list(rt: HostRuntime) -> Result<(), Fail> {
    let shared = made(rt.alloc())?;
    let texts = items_of(rt.alloc(), Numbers(0, 100))?;
    let (copied, walked) = join(
        &rt,
        || copies(&rt, &shared, &texts),
        || walks_before(&shared, &texts, 1000),
    );
    copied?;
    is_so(&rt, walked == 1000, "the walks beside it");
    is_so(&rt, shared.strings().len() == texts.len(), "all texts");
    is_so(&rt, begins(shared.strings(), &texts), "the walk at the end");
    Ok(())
}
