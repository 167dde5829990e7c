//! Interners that threads share, read from JSON and written as JSON. The lines that are made for `tool_replay` have
//! values of each kind in each role, also large ones, and those that are wrong.
use crate::checks::{
    Look, Origin, freezes_as, is_so, look_at, make_from, shows_as, shows_rows, value_of,
};
use Look::{Compares, Does, Json, Shows};
use Step::{ByOne, ByOther, Copies, Counts, Finds, Interns, IsLimited, Uses};
use lasso_parts::json::JsonError;
use lasso_parts::keys::{Key, Spur};
use lasso_parts::util::{FixedState, LassoResult};
use lasso_shared::threaded::ThreadedRodeo;
use std::hash::BuildHasher;
use std::test::*;
use std::thread::join;
use test_common::hashers::{FirstState, SameState};
use test_common::keys::{WithoutTwo, WithoutZero};
use test_steps::Host;
use test_steps::cases::{HINTED, PLAIN, sized};
use test_steps::steps::{Call, Step, Way};
use test_steps::texts::List::Texts;
use test_steps::texts::{KeyNumbers, List};

// Reading the JSON text has to end by this error, if any.
fn ends<K: Key>(rt: &impl Host, json: &str, wanted: Option<JsonError>) -> LassoResult<()> {
    let value = value_of(rt.alloc(), json)?;
    let fault = match ThreadedRodeo::<K, FixedState>::deserialize(rt.alloc(), &value) {
        Ok(_read) => None,
        Err(fault) => Some(fault),
    };
    is_so(rt, fault == wanted, json);
    Ok(())
}

#[test]
fn a_position_without_a_key(rt: HostRuntime) -> Result<(), Fail> {
    let (none, one) = (Some(JsonError::TooMany(0)), Some(JsonError::TooMany(2)));
    ends::<WithoutTwo>(&rt, r#"{"a":2,"b":1,"c":3}"#, one)?;
    ends::<WithoutTwo>(&rt, r#"["a","b","c"]"#, one)?;
    ends::<WithoutZero>(&rt, r#"{"pp":1}"#, none)?;
    ends::<WithoutZero>(&rt, r#"["pp"]"#, none)?;
    ends::<WithoutTwo>(&rt, r#"{"a":2,"b":1}"#, None)?;
    Ok(())
}

// The interner of two texts has a bucket of two bytes, which is full, so a new text takes one of four. It has to
// go last.
#[test]
fn a_new_text_goes_last(rt: HostRuntime) -> Result<(), Fail> {
    static LOOKS: [Look; 2] = [
        Does(&[Interns(Way::TryCopied, "c", Ok(2)), Uses(6)]),
        Json(r#"{"a":2,"b":1,"c":3}"#),
    ];
    shows_rows(&rt, Origin::Json(r#"{"a":2,"b":1}"#), &LOOKS)?;
    shows_rows(&rt, Origin::Json(r#"["b","a"]"#), &LOOKS)
}

#[test]
fn no_bytes_make_a_bucket_of_4096(rt: HostRuntime) -> Result<(), Fail> {
    // a text of 4096 bytes fits in the bucket
    static NONE: [Look; 1] = [Does(&[
        Counts(0),
        Finds("", None),
        Uses(4096),
        IsLimited(usize::MAX),
        Interns(Way::TryCopied, "a-", Ok(0)),
        Uses(4096),
    ])];
    static EMPTY: [Look; 1] = [Does(&[
        Counts(1),
        Finds("", Some(0)),
        Uses(4096),
        IsLimited(usize::MAX),
        Interns(Way::TryCopied, "a-", Ok(1)),
        Uses(4096),
    ])];
    for (json, looks) in [
        ("[]", &NONE),
        ("{}", &NONE),
        (r#"{"":1}"#, &EMPTY),
        (r#"[""]"#, &EMPTY),
    ] {
        shows_as::<Spur, FixedState>(&rt, Origin::Json(json), looks, sized(4096))?;
    }
    Ok(())
}

#[test]
fn what_one_thread_wrote(rt: HostRuntime) -> Result<(), Fail> {
    static LOOKS: [Look; 2] = [
        Shows(Texts(&["x", "y"])),
        Compares(Texts(&["x", "y"]), true),
    ];
    let (origin, frozen) = (
        Origin::Written(Texts(&["x", "y"])),
        (Texts(&["x", "y"]), "z"),
    );
    freezes_as::<Spur, FixedState>(&rt, origin, &LOOKS, frozen, PLAIN)
}

// Looks each text up and interns it, three times, by a pass with hints.
#[test]
fn hints_of_an_interner_from_json(rt: HostRuntime) -> Result<(), Fail> {
    static LOOKS: [Look; 1] = [Does(&[
        ByOne(Call::Finds("b", Some(0))),
        ByOne(Call::Copies("b", Ok(0))),
        ByOne(Call::Finds("a", Some(1))),
        ByOne(Call::Copies("a", Ok(1))),
        ByOne(Call::Finds("c", None)),
        ByOne(Call::Copies("c", Ok(2))),
        ByOne(Call::Finds("c", Some(2))),
        ByOne(Call::Takes(Texts(&["b", "a", "c"]), 0)),
        ByOne(Call::Finds("d", None)),
    ])];
    let (object, array) = (
        Origin::Json(r#"{"a":2,"b":1}"#),
        Origin::Json(r#"["b","a"]"#),
    );
    shows_as::<Spur, FixedState>(&rt, object, &LOOKS, HINTED)?;
    shows_as::<Spur, FixedState>(&rt, array, &LOOKS, HINTED)
}

// Makes the calls by passes without hints, and three times each by passes with hints.
#[test]
fn batches_of_an_interner_from_json(rt: HostRuntime) -> Result<(), Fail> {
    static LOOKS: [Look; 1] = [Does(&[
        ByOne(Call::FindsAll(&["a", "c", "b"], &[Some(1), None, Some(0)])),
        ByOther(Call::TakesAll(
            Texts(&["c", "b", "a", "c"]),
            KeyNumbers::Are(&[2, 0, 1, 2]),
            None,
        )),
        ByOne(Call::TakesAll(Texts(&["b", "a", "c", "d"]), KeyNumbers::From(0), None)),
        Counts(4),
    ])];
    let (object, array) = (
        Origin::Json(r#"{"a":2,"b":1}"#),
        Origin::Json(r#"["b","a"]"#),
    );
    shows_as::<Spur, FixedState>(&rt, object, &LOOKS, PLAIN)?;
    shows_as::<Spur, FixedState>(&rt, array, &LOOKS, HINTED)
}

const FORTY: [&str; 40] = [
    "a0",
    "p1",
    "Q2",
    "\u{e9}3",
    "04",
    "z5",
    "A6",
    "~7",
    "b8",
    "q9",
    "R10",
    "\u{f1}11",
    "112",
    "y13",
    "B14",
    "}15",
    "c16",
    "r17",
    "S18",
    "\u{1f600}19",
    "220",
    "x21",
    "C22",
    "|23",
    "d24",
    "s25",
    "T26",
    "\u{fc}27",
    "328",
    "w29",
    "D30",
    "{31",
    "e32",
    "t33",
    "U34",
    "\u{df}35",
    "436",
    "v37",
    "E38",
    "",
];

const TEXTS: List = Texts(&FORTY);

// What each thread has to find: the texts at their positions, interned again there, and no other text.
static FOUND: [Look; 3] = [
    Shows(TEXTS),
    Does(&[Copies(TEXTS), Counts(40), Finds("none", None)]),
    Shows(TEXTS),
];

// Two threads have to find exactly `TEXTS` in the interner.
fn both_find<S: BuildHasher + Default + Send + Sync + Drop>(
    rt: &impl Host,
    origin: Origin,
) -> Result<(), Fail>
where
    S::Hasher: Send,
{
    let shared: ThreadedRodeo<Spur, S> = make_from(rt, origin, PLAIN)?;
    let (here, there) = join(
        rt,
        || look_at(rt, &shared).first_wrong(FOUND.as_slice(), PLAIN),
        || look_at(rt, &shared).first_wrong(FOUND.as_slice(), PLAIN),
    );
    let holds = here? == FOUND.len() && there? == FOUND.len();
    is_so(rt, holds, "two threads");
    Ok(())
}

// The texts of the value have to be found in several shards, in one, and where each text's first byte chooses its
// shard.
#[test]
fn each_text_is_found_by_each_thread(rt: HostRuntime) -> Result<(), Fail> {
    for origin in [Origin::Written(TEXTS), Origin::WrittenAgain(TEXTS)] {
        both_find::<FixedState>(&rt, origin)?;
        both_find::<SameState>(&rt, origin)?;
        both_find::<FirstState>(&rt, origin)?;
    }
    Ok(())
}
