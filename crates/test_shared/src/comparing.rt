//! An interner that threads share, compared with others and with the forms for one thread.
use crate::checks::{Look, Origin, Shown, bytes_of, is_so_at, look_at, shows_as, shows_rows};
use Look::{Compares, ComparesAll, ComparesSingle, Does};
use Step::{Copies, Counts, EqualsItself, Extends, Interns, IsLimited, Limits, Uses};
use lasso_parts::keys::{Key, Spur};
use lasso_parts::util::{FixedState, LassoResult};
use lasso_shared::threaded::ThreadedRodeo;
use lasso_single::reader::RodeoReader;
use lasso_single::rodeo::Rodeo;
use std::alloc::{AllocError, Global};
use std::hash::BuildHasher;
use std::test::*;
use test_common::hashers::{FirstState, LowState, SameState};
use test_steps::Host;
use test_steps::calls::{Caller, Shared};
use test_steps::cases::{Maker, PLAIN, SIZE, make, of_items, sized};
use test_steps::steps::{FULL, Step, Way, is_reply};
use test_steps::texts::List::{Numbers, Texts};
use test_steps::texts::{LENGTHS, items_of};

#[test]
fn four_forms_of_one_list(rt: HostRuntime) -> Result<(), Fail> {
    static LOOKS: [Look; 4] = [
        // a list is not equal to a longer one that begins with it
        Compares(Texts(&["a", "b", "c"]), false),
        Does(&[Extends(Texts(&["b", "c"]), None)]),
        Compares(Texts(&["a", "b", "c"]), true),
        Compares(Texts(&["a", "c", "b"]), false),
    ];
    shows_rows(&rt, Origin::Items(Texts(&["a", "b"])), &LOOKS)
}

#[test]
fn an_empty_list_is_equal_to_an_empty_one_alone(rt: HostRuntime) -> Result<(), Fail> {
    static LOOKS: [Look; 3] = [
        Does(&[EqualsItself]),
        Compares(Texts(&["a", "b", "c"]), false),
        Compares(Texts(&[]), true),
    ];
    shows_rows(&rt, Origin::Made(Maker::Default), &LOOKS)
}

#[test]
fn a_longer_list_is_not_equal(rt: HostRuntime) -> Result<(), Fail> {
    static LOOKS: [Look; 3] = [
        Does(&[Extends(Texts(&["c", "d"]), None)]),
        Compares(Texts(&["a", "b", "c"]), false),
        Compares(Texts(&[]), false),
    ];
    shows_rows(&rt, Origin::Items(Texts(&["a", "b", "c"])), &LOOKS)
}

// Each is compared with lists of three hashers: its own, the default one, and one of first bytes.
#[test]
fn no_hasher_makes_lists_unequal(rt: HostRuntime) -> Result<(), Fail> {
    static LOOKS: [Look; 3] = [
        Does(&[Copies(Texts(&["a", "b", "c"]))]),
        ComparesAll(Texts(&["a", "b", "c"]), true),
        ComparesAll(Texts(&["a", "b", "d"]), false),
    ];
    let origin = Origin::Made(Maker::Default);
    shows_as::<Spur, FixedState>(&rt, origin, &LOOKS, PLAIN)?;
    shows_as::<Spur, SameState>(&rt, origin, &LOOKS, PLAIN)?;
    shows_as::<Spur, FirstState>(&rt, origin, &LOOKS, PLAIN)?;
    shows_as::<Spur, LowState>(&rt, origin, &LOOKS, PLAIN)
}

// The limit is neither 0 nor `usize::MAX`. That of each form is compared too.
#[test]
fn no_comparison_sets_a_limit(rt: HostRuntime) -> Result<(), Fail> {
    static LOOKS: [Look; 4] = [
        Does(&[Limits(5000)]),
        Compares(Texts(&["a", "b"]), true),
        ComparesSingle(Texts(&["a", "b", "a"]), true),
        Does(&[IsLimited(5000)]),
    ];
    shows_rows(&rt, Origin::Items(Texts(&["a", "b"])), &LOOKS)
}

// The interner has bytes for two texts, and each form it is compared with for its texts and one byte.
#[test]
fn no_comparison_takes_a_byte(rt: HostRuntime) -> Result<(), Fail> {
    static LOOKS: [Look; 5] = [
        Does(&[Interns(Way::TryCopied, "a-", Ok(0))]),
        Compares(Texts(&["a-"]), true),
        Compares(Texts(&["a."]), false),
        Compares(Texts(&[]), false),
        Does(&[
            Interns(Way::TryCopied, "b-", Ok(1)),
            Interns(Way::TryCopied, "z", FULL),
            IsLimited(2 * SIZE),
            Uses(2 * SIZE),
        ]),
    ];
    for length in LENGTHS.iter() {
        let origin = Origin::Made(Maker::Full(2 * SIZE));
        shows_as::<Spur, FixedState>(&rt, origin, &LOOKS, sized(*length))?;
    }
    Ok(())
}

#[test]
fn an_interner_is_equal_to_itself_and_to_its_frozen_form(rt: HostRuntime) -> Result<(), Fail> {
    static LOOKS: [Look; 4] = [
        ComparesAll(Texts(&[]), true),
        Does(&[Extends(Texts(&["a", ""]), None), EqualsItself]),
        ComparesAll(Texts(&[]), false),
        ComparesAll(Texts(&["a", ""]), true),
    ];
    shows_rows(&rt, Origin::Made(Maker::Default), &LOOKS)
}

// Other texts than numbers of five digits.
static OTHERS: [&str; 4] = ["..", "0000.", "00000.", "."];

// The texts with `other` at this position, or after them.
fn with_other(
    alloc: Global,
    texts: &[&'static str],
    position: usize,
    other: &'static str,
) -> Result<Vec<&'static str>, AllocError> {
    let mut items = Vec::new(alloc);
    for at in 0..texts.len().max(position.saturating_add(1)) {
        match texts.get(at) {
            Some(text) if at != position => items.push(*text)?,
            _ => items.push(other)?,
        }
    }
    Ok(items)
}

// An interner of the first numbers has to be equal to each form of its list, and to no form of one that differs in one
// text: the first, the middle or the last one, or one that is appended.
#[test]
fn one_other_text_of_many_makes_a_list_unequal(rt: HostRuntime) -> Result<(), Fail> {
    for count in [1, 2, 3, 4, 5, 10, 17, 40, 300, 3000usize] {
        let texts = items_of(rt.alloc(), Numbers(0, count))?;
        let shared: Shared = of_items(&rt, &texts)?;
        let shown = look_at(&rt, &shared);
        is_so_at(&rt, shown.compares(&texts, true)?, count);
        for position in [0, count / 2, count.saturating_sub(1), count] {
            for other in OTHERS.iter() {
                let items = with_other(rt.alloc(), &texts, position, *other)?;
                is_so_at(&rt, shown.compares(&items, false)?, position);
            }
        }
    }
    Ok(())
}

#[test]
fn one_other_byte_makes_a_list_unequal(rt: HostRuntime) -> Result<(), Fail> {
    static LOOKS: [Look; 3] = [
        Does(&[Counts(1)]),
        Compares(Texts(&["a-"]), true),
        Compares(Texts(&["a."]), false),
    ];
    for length in LENGTHS.iter() {
        let origin = Origin::Items(Texts(&["a-"]));
        shows_as::<Spur, FixedState>(&rt, origin, &LOOKS, sized(*length))?;
    }
    Ok(())
}

// An interner that threads share, compared with each form of a list of texts.

// An interner of these texts, with a hasher of its own. Its bucket has their bytes and one more, which are its limit.
fn full_of<K: Key, T: BuildHasher + Default + Drop>(
    rt: &impl Host,
    texts: &[&'static str],
) -> LassoResult<ThreadedRodeo<K, T>> {
    let shared = make(rt, Maker::Full(bytes_of(texts).saturating_add(1)))?;
    Caller::new(rt, &shared).extends(texts)?;
    Ok(shared)
}

// Whether limit and usage are the bytes of the texts and one more, and the interner takes exactly this byte.
fn has_room_for_one<K: Key, T: BuildHasher + Drop>(
    rt: &impl Host,
    shared: &ThreadedRodeo<K, T>,
    texts: &[&'static str],
) -> LassoResult<bool> {
    let caller = Caller::new(rt, shared);
    let bytes = bytes_of(texts).saturating_add(1);
    let sums = caller.limit() == bytes && caller.usage() == bytes;
    let fits = is_reply(caller.interned(Way::TryCopied, "\u{1}"), Ok(texts.len()))?;
    let full = is_reply(caller.interned(Way::TryCopied, "\u{2}"), FULL)?;
    Ok(sums && fits && full && caller.limit() == bytes)
}

impl<'a, K: Key, S: BuildHasher + Default + Drop, R: Host> Shown<'a, K, S, R> {
    // Whether the comparison of the interner with the reader, and with its resolver, gives this.
    fn compares_frozen<T: BuildHasher + Drop>(
        &self,
        reader: RodeoReader<K, T, Global>,
        wanted: bool,
    ) -> bool {
        let read = self.shared.eq_reader(self.rt, &reader) == wanted;
        self.shared.eq_resolver(self.rt, &reader.into_resolver()) == wanted && read
    }

    /// Whether the comparison of the interner with one for one thread of these texts, with its reader and with its
    /// resolver gives this.
    pub(super) fn compares_single(
        &self,
        texts: &[&'static str],
        wanted: bool,
    ) -> LassoResult<bool> {
        let rodeo: Rodeo<K, S, Global> = Rodeo::from_iter(self.rt.alloc(), texts.iter().copied())?;
        let same = self.shared.eq_rodeo(self.rt, &rodeo) == wanted;
        Ok(self.compares_frozen(rodeo.into_reader(), wanted) && same)
    }

    // Whether the comparisons of the interner and another one of these texts, each with the other, give this. The other
    // has room for one more byte, which no comparison may take.
    fn compares_both<T: BuildHasher + Default + Drop>(
        &self,
        texts: &[&'static str],
        wanted: bool,
    ) -> LassoResult<bool> {
        let other: ThreadedRodeo<K, T> = full_of(self.rt, texts)?;
        let here = self.shared.eq_threaded(self.rt, &other) == wanted;
        let there = other.eq_threaded(self.rt, self.shared) == wanted;
        Ok(has_room_for_one(self.rt, &other, texts)? && here && there)
    }

    // The same, and with the other's frozen forms.
    fn compares_shared<T: BuildHasher + Default + Drop>(
        &self,
        texts: &[&'static str],
        wanted: bool,
    ) -> LassoResult<bool> {
        let both = self.compares_both::<T>(texts, wanted)?;
        let frozen: ThreadedRodeo<K, T> = full_of(self.rt, texts)?;
        Ok(self.compares_frozen(frozen.into_reader(self.rt)?, wanted) && both)
    }

    /// Whether the comparison of the interner with each form of these texts gives this, and leaves the form as it is.
    pub(super) fn compares(&self, texts: &[&'static str], wanted: bool) -> LassoResult<bool> {
        Ok(self.compares_both::<S>(texts, wanted)? && self.compares_single(texts, wanted)?)
    }

    /// Whether the comparison with each form gives this, also with forms of two more hashers and with frozen forms
    /// of interners that threads share.
    pub(super) fn compares_all(&self, texts: &[&'static str], wanted: bool) -> LassoResult<bool> {
        Ok(
            self.compares(texts, wanted)?
                && self.compares_shared::<FixedState>(texts, wanted)?
                && self.compares_shared::<FirstState>(texts, wanted)?,
        )
    }
}
