//! The assertions of these tests. Each stands here once, and says what was checked. A test of how `.ci/try` compiles
//! tests.
use crate::freezing::{FROZEN, is_frozen};
use crate::showing::{array_of, object_of};
use lasso_parts::json::JsonError;
use lasso_parts::keys::{Key, Spur};
use lasso_parts::util::{FixedState, LassoError, LassoErrorKind, LassoResult};
use lasso_shared::threaded::ThreadedRodeo;
use lasso_single::rodeo::Rodeo;
use serde_json::Value;
use std::alloc::Global;
use std::hash::BuildHasher;
use std::test::*;
use test_steps::Host;
use test_steps::calls::{Caller, Shared};
use test_steps::cases::{
    Case, Maker, PLAIN, items_for, make, maker_for, of_items, of_way, sized, steps_of,
};
use test_steps::passes::{are_right_beside, first_wrong_of};
use test_steps::steps::{Step, Way};
use test_steps::texts::List;

// Fails unless this holds.
pub fn is_so(rt: &impl Host, holds: bool, what: &str) {
    assert!(rt; holds, "{what}");
}

// Fails unless this holds of the case with this number.
pub fn is_so_at(rt: &impl Host, holds: bool, number: usize) {
    assert!(rt; holds, "{number}");
}

// Makes the calls in order. Fails unless each returns what it has to.
pub fn runs_in<K: Key, S: BuildHasher + Drop>(
    rt: &impl Host,
    shared: &ThreadedRodeo<K, S>,
    steps: &[Step],
    case: Case,
) -> Result<(), Fail> {
    let right = first_wrong_of(rt, shared, steps, case)?;
    let size = case.size.unwrap_or(0);
    assert!(rt; right == steps.len(), "row {right} at {size}");
    Ok(())
}

// Makes the calls in order in a new interner.
pub fn runs_as<K: Key, S: BuildHasher + Default + Drop>(
    rt: &impl Host,
    maker: Maker,
    steps: &[Step],
    case: Case,
) -> Result<(), Fail> {
    let shared: ThreadedRodeo<K, S> = make(rt, maker)?;
    runs_in(rt, &shared, steps, case)
}

// Makes the calls in order in a new interner with the default keys and hasher.
pub fn runs(rt: &impl Host, maker: Maker, steps: &[Step]) -> Result<(), Fail> {
    runs_as::<Spur, FixedState>(rt, maker, steps, PLAIN)
}

// Makes the calls in order in a new interner for each of the sizes and each of the calls.
pub fn runs_each<K: Key>(
    rt: &impl Host,
    maker: Maker,
    steps: &[Step],
    sizes: &[usize],
    ways: &[Way],
) -> Result<(), Fail> {
    for size in sizes.iter() {
        let case = sized(*size);
        let rows = steps_of(rt.alloc(), case, steps)?;
        for way in ways.iter() {
            runs_as::<K, FixedState>(rt, maker_for(case, maker), &rows, of_way(*way))?;
        }
    }
    Ok(())
}

// Makes the calls for each of the sizes in one interner, and then the last ones.
pub fn runs_in_one(
    rt: &impl Host,
    maker: Maker,
    steps: &[Step],
    sizes: &[usize],
    last: &[Step],
) -> Result<(), Fail> {
    let shared: Shared = make(rt, maker)?;
    for size in sizes.iter() {
        runs_in(rt, &shared, steps, sized(*size))?;
    }
    runs_in(rt, &shared, last, PLAIN)
}

// Makes calls in a new interner, then others in two threads, and the last ones.
pub fn runs_in_two(
    rt: &impl Host,
    first: &[Step],
    steps: (&[Step], &[Step]),
    last: &[Step],
    case: Case,
) -> Result<(), Fail> {
    let shared: Shared = make(rt, Maker::Default)?;
    runs_in(rt, &shared, first, PLAIN)?;
    let are_right = are_right_beside(rt, &shared, steps, case)?;
    is_so(rt, are_right, "two threads");
    runs_in(rt, &shared, last, PLAIN)
}

// Rows: calls of an interner, and looks at all that it shows.

/// Calls, or a look at what the interner shows.
#[derive(Clone, Copy)]
pub(super) enum Look {
    /// Makes the calls.
    Does(&'static [Step]),
    /// Look-ups, keys and walks show exactly the texts of the list.
    Shows(List),
    /// It is written as the JSON object of these texts, which are in the order of their bytes, and printed as them.
    Writes(List),
    /// It is written as this JSON text.
    Json(&'static str),
    /// It is printed as this text.
    Prints(&'static str),
    /// The buckets take the bytes of these texts.
    UsesBytesOf(List),
    /// The text at this place of a walk is this one.
    Walks(usize, &'static str),
    /// A copy of its list is equal to it.
    Copies,
    /// Comparisons with each form of the list give this.
    Compares(List, bool),
    /// Comparisons with each form of the list give this, also with other hashers and with frozen forms of
    /// interners that threads share.
    ComparesAll(List, bool),
    /// Comparisons with each form of the list for one thread give this.
    ComparesSingle(List, bool),
}

/// An interner, with what looks at it need.
#[derive(Drop)]
pub(super) struct Shown<'a, K: Key, S: BuildHasher + Drop, R: Host> {
    pub(super) rt: &'a R,
    pub(super) shared: &'a ThreadedRodeo<K, S>,
}

/// Looks at the interner.
pub(super) fn look_at<'a, K: Key, S: BuildHasher + Drop, R: Host>(
    rt: &'a R,
    shared: &'a ThreadedRodeo<K, S>,
) -> Shown<'a, K, S, R> {
    Shown { rt, shared }
}

impl<'a, K: Key, S: BuildHasher + Default + Drop, R: Host> Shown<'a, K, S, R> {
    // Whether look-ups, keys and walks show exactly these texts.
    fn shows(&self, texts: &[&'static str]) -> bool {
        let caller = Caller::new(self.rt, self.shared);
        let mut all = caller.has_len(texts.len());
        for (position, text) in texts.iter().enumerate() {
            all &= caller.finds(*text, Some(position));
        }
        all && caller.lists(texts) && self.are_walked(texts)
    }

    // Makes the call, or looks at the interner. Returns whether it returns or shows what it has to.
    fn holds(&self, look: Look, case: Case) -> LassoResult<bool> {
        let alloc = self.rt.alloc();
        Ok(match look {
            Look::Does(steps) => {
                first_wrong_of(self.rt, self.shared, steps, case)? == steps.len()
            }
            Look::Json(json) => self.is_written_as(json),
            Look::Prints(text) => self.prints(text),
            Look::Copies => self.is_copied()?,
            Look::Walks(place, text) => self.shared.strings().nth(place) == Some(text),
            Look::Shows(list) => self.shows(&items_for(alloc, case, list)?),
            Look::Writes(list) => self.writes(&items_for(alloc, case, list)?)?,
            Look::UsesBytesOf(list) => {
                let bytes = bytes_of(&items_for(alloc, case, list)?);
                self.shared.current_memory_usage(self.rt) == bytes
            }
            Look::Compares(list, wanted) => {
                self.compares(&items_for(alloc, case, list)?, wanted)?
            }
            Look::ComparesAll(list, wanted) => {
                self.compares_all(&items_for(alloc, case, list)?, wanted)?
            }
            Look::ComparesSingle(list, wanted) => {
                self.compares_single(&items_for(alloc, case, list)?, wanted)?
            }
        })
    }

    /// Goes through the rows, up to the first that is wrong. Returns how many are right before it.
    pub(super) fn first_wrong(&self, looks: &[Look], case: Case) -> LassoResult<usize> {
        for index in 0..looks.len() {
            if !self.holds(looks[index], case)? {
                return Ok(index);
            }
        }
        Ok(looks.len())
    }
}

/// How many bytes the texts have.
pub(super) fn bytes_of(texts: &[&str]) -> usize {
    let mut bytes: usize = 0;
    for text in texts.iter() {
        bytes = bytes.saturating_add(text.len());
    }
    bytes
}

// Where the interner of a test comes from.

/// Where an interner comes from.
#[derive(Clone, Copy)]
pub(super) enum Origin {
    /// It is made without texts.
    Made(Maker),
    /// It is made of the items of the list.
    Items(List),
    /// It is read from this JSON text.
    Json(&'static str),
    /// It is read from the JSON object of the texts, which are in the order of their bytes.
    Object(List),
    /// It is read from the JSON array of the texts.
    Array(List),
    /// It is read from what an interner for one thread of the texts writes, which is an array.
    Written(List),
    /// It is read from what one that threads share writes then, which is an object.
    WrittenAgain(List),
}

// An interner that could not be read is reported as out of memory, which fails the test.
fn unread<T>() -> LassoResult<T> {
    Err(LassoError::new(LassoErrorKind::FailedAllocation))
}

/// The JSON text as a value.
pub(super) fn value_of(alloc: Global, json: &str) -> LassoResult<Value> {
    match Value::from_str(alloc, json) {
        Ok(value) => Ok(value),
        Err(_) => unread(),
    }
}

// The value that was written.
fn written(value: Result<Value, JsonError>) -> LassoResult<Value> {
    match value {
        Ok(value) => Ok(value),
        Err(_) => unread(),
    }
}

// The interner that is read from the value.
fn read<K: Key, S: BuildHasher + Default + Drop>(
    alloc: Global,
    value: &Value,
) -> LassoResult<ThreadedRodeo<K, S>> {
    match ThreadedRodeo::deserialize(alloc, value) {
        Ok(shared) => Ok(shared),
        Err(_) => unread(),
    }
}

// What an interner for one thread of these texts writes.
fn written_by_one(alloc: Global, texts: &[&'static str]) -> LassoResult<Value> {
    let rodeo: Rodeo<Spur, FixedState, Global> = Rodeo::from_iter(alloc, texts.iter().copied())?;
    written(rodeo.serialize(alloc))
}

/// Makes the interner.
pub(super) fn make_from<K: Key, S: BuildHasher + Default + Drop>(
    rt: &impl Host,
    origin: Origin,
    case: Case,
) -> LassoResult<ThreadedRodeo<K, S>> {
    let alloc = rt.alloc();
    let value = match origin {
        Origin::Made(maker) => return make(rt, maker_for(case, maker)),
        Origin::Items(list) => return of_items(rt, &items_for(alloc, case, list)?),
        Origin::Json(json) => value_of(alloc, json)?,
        Origin::Object(list) => {
            let json = object_of(alloc, &items_for(alloc, case, list)?)?;
            value_of(alloc, json.as_str())?
        }
        Origin::Array(list) => {
            let json = array_of(alloc, &items_for(alloc, case, list)?)?;
            value_of(alloc, json.as_str())?
        }
        Origin::Written(list) => written_by_one(alloc, &items_for(alloc, case, list)?)?,
        Origin::WrittenAgain(list) => {
            let value = written_by_one(alloc, &items_for(alloc, case, list)?)?;
            let shared: Shared = read(alloc, &value)?;
            written(shared.serialize(alloc))?
        }
    };
    read(alloc, &value)
}

/// Goes through the rows. Fails unless all are right.
pub(super) fn shows_in<K: Key, S: BuildHasher + Default + Drop>(
    rt: &impl Host,
    shared: &ThreadedRodeo<K, S>,
    looks: &[Look],
    case: Case,
) -> Result<(), Fail> {
    let right = look_at(rt, shared).first_wrong(looks, case)?;
    let (size, text) = (case.size.unwrap_or(0), case.pair.0);
    assert!(rt; right == looks.len(), "row {right} at {size} of {text}");
    Ok(())
}

/// Goes through the rows with a new interner.
pub(super) fn shows_as<K: Key, S: BuildHasher + Default + Drop>(
    rt: &impl Host,
    origin: Origin,
    looks: &[Look],
    case: Case,
) -> Result<(), Fail> {
    let shared: ThreadedRodeo<K, S> = make_from(rt, origin, case)?;
    shows_in(rt, &shared, looks, case)
}

/// Goes through the rows with a new interner of the default keys and hasher.
pub(super) fn shows_rows(rt: &impl Host, origin: Origin, looks: &[Look]) -> Result<(), Fail> {
    shows_as::<Spur, FixedState>(rt, origin, looks, PLAIN)
}

/// Goes through the rows with a new interner, and freezes it, in each way. Fails unless all rows are right, and
/// each frozen form has exactly the texts of the list and lacks the absent one.
pub(super) fn freezes_as<K: Key, S: BuildHasher + Default + Drop>(
    rt: &impl Host,
    origin: Origin,
    looks: &[Look],
    frozen: (List, &str),
    case: Case,
) -> Result<(), Fail> {
    let (list, absent) = frozen;
    for form in FROZEN.iter() {
        let shared: ThreadedRodeo<K, S> = make_from(rt, origin, case)?;
        shows_in(rt, &shared, looks, case)?;
        let texts = items_for(rt.alloc(), case, list)?;
        is_so(rt, is_frozen(rt, shared, *form, &texts, absent)?, absent);
    }
    Ok(())
}

// Numbers that are lent.
#[derive(Drop)]
struct Lent<'a> {
    numbers: &'a [usize; 3],
}

// Their sum.
fn sum(lent: &Lent) -> usize {
    let mut sum: usize = 0;
    for number in lent.numbers.iter() {
        sum = sum.wrapping_add(*number);
    }
    sum
}

// The same, out of a table of the numbers below 64.
fn looked_up(lent: &Lent) -> usize {
    let mut table = [0; 64];
    for number in 0..64 {
        table[number] = number;
    }
    let place = sum(lent);
    if place < 64 { table[place] } else { sum(lent) }
}

fn sum_of(numbers: &[usize; 3]) -> usize {
    let lent = Lent { numbers };
    looked_up(&lent)
}

// A local is first filled with zeros, and then gets the argument, which it has to keep.
#[test]
fn a_local_keeps_an_argument(rt: HostRuntime) -> Result<(), Fail> {
    assert!(&rt; sum_of(&[1, 2, 3]) == 6);
    assert!(&rt; sum_of(&[2, 3, 4]) == 9);
    Ok(())
}
