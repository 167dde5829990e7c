//! Columns that are encoded in parts: the expected codes are computed from the numbers, and are the same for each number
//! of workers. Calls on an interner whose allocator refuses each of its requests in turn. Columns of texts that are all
//! alike, or all different, over an interner that has one other text; and columns over interners with different hashers.
use crate::calls::{
    CALLS, Host, Shared, are_codes, distinct_of, has_from, has_texts, is_so, is_so_at,
    limit_refuses, stand_for,
};
use crate::long_columns::{
    COUNT, Numbers, Way, are_encoded, encodes_long, make_column, merges, printed, slices,
};
use crate::shared::TWENTY;
use lasso::index::hash_text;
use lasso::keyed::keyed_by;
use lasso::{
    Capacity, FixedState, LassoErrorKind, MemoryLimits, Rodeo, Spur, SpurRodeo, SpurThreadedRodeo,
    ThreadedRodeo,
};
use lasso_columns::{Layout, ReadError, append_dictionary, encode_in_parts, read_dictionary};
use lasso_shared_columns::encode_shared;
use std::alloc::Global;
use std::hash::BuildHasher;
use std::test::Fail;
use test_common::hashers::SameState;
use test_common::refusing::{Refusing, each_refused};
use test_common::texts::colliding;

static WORKERS: [usize; 5] = [1, 2, 3, 4, 7];

static WAYS: [Way; 5] = [
    Way::Parts(1),
    Way::Parts(2),
    Way::Parts(3),
    Way::Parts(4),
    Way::Parts(7),
];

// Each part keeps its list, or gives up after its first texts, or some of them do.
#[test]
fn parts_have_the_codes_of_one_thread(rt: HostRuntime) -> Result<(), Fail> {
    encodes_long(&rt, Numbers::Repeated, &WAYS)?;
    encodes_long(&rt, Numbers::Distinct, &WAYS)?;
    encodes_long(&rt, Numbers::Mixed, &WAYS)
}

// The limit refuses the first text whose code would be `most`, with each number of workers. The interner then has just
// the texts of the codes before it, which resolve to them.
fn limit_ends(rt: &impl Host, numbers: Numbers, most: usize) -> Result<(), Fail> {
    let column = make_column(rt.alloc(), numbers, COUNT)?;
    let texts = slices(rt.alloc(), &column.texts)?;
    let end = column.codes.iter().position(|code| *code as usize == most);
    let wanted = &column.codes[..end.ok_or("no such code")?];
    for workers in WORKERS {
        // room for this number of texts of five bytes, and no more
        let (capacity, limits) = (Capacity::for_bytes(most * 5), MemoryLimits::new(most * 5));
        let mut rodeo: SpurRodeo = Rodeo::with_capacity_and_memory_limits(
            rt.alloc(),
            capacity,
            limits,
        )?;
        let mut codes = Vec::new(rt.alloc());
        let refusal = encode_in_parts(rt, &mut rodeo, &texts, &mut codes, workers).err();
        is_so_at(rt, limit_refuses(refusal)?, workers);
        is_so_at(rt, codes.as_slice() == wanted, workers);
        is_so_at(rt, rodeo.len() == distinct_of(wanted), workers);
        is_so_at(rt, stand_for(&rodeo, wanted, &texts), workers);
    }
    Ok(())
}

// In the second column the parts gave up before.
#[test]
fn the_limit_ends_a_column_of_parts(rt: HostRuntime) -> Result<(), Fail> {
    limit_ends(&rt, Numbers::Repeated, 40)?;
    limit_ends(&rt, Numbers::Repeated, 180)?;
    limit_ends(&rt, Numbers::Mixed, 120)?;
    limit_ends(&rt, Numbers::Mixed, 900)
}

#[test]
fn an_empty_column_has_no_codes(rt: HostRuntime) -> Result<(), Fail> {
    are_encoded(&rt, &[], &[], &[], Way::Parts(4))
}

// Parts long enough that two threads rewrite the codes of each. The texts repeat three words, and the interner has one
// other text.
#[test]
fn long_parts_are_rewritten(rt: HostRuntime) -> Result<(), Fail> {
    let (mut texts, mut codes) = (Vec::new(rt.alloc()), Vec::new(rt.alloc()));
    for place in 0..150_000usize {
        texts.push(["one", "two", "three"][place % 3])?;
        codes.push((place % 3) as u32 + 1)?;
    }
    are_encoded(&rt, &["zero"], &texts, &codes, Way::Parts(2))
}

// Each memory request of the caller's interner is refused once. The texts before the refused one then have
// their codes, and a second call encodes the rest.
#[test]
fn a_refused_request_leaves_a_beginning(rt: HostRuntime) -> Result<(), Fail> {
    let column = make_column(rt.alloc(), Numbers::Repeated, 2000)?;
    let texts = slices(rt.alloc(), &column.texts)?;
    with_each_refused(&rt, Script::Parts(&texts, &column.codes))
}

// Calls on an interner whose allocator refuses each of its requests in turn. A call that runs out of memory
// leaves what its documentation says, and a second one does the rest.

// What is run with each request refused in turn.
#[derive(Clone, Copy)]
pub(super) enum Script<'a> {
    // encodes the texts in parts; these are their codes
    Parts(&'a [&'a str], &'a [u32]),
    // appends the layout, which has these texts
    Appends(&'a Layout<u32>, &'a [&'a str]),
    // reads the bytes at these offsets, which are these texts
    Reads(&'a [u8], &'a [u32], &'a [&'a str]),
}

// An interner of this memory.
type Metered<'m> = Rodeo<Spur, FixedState, &'m Refusing<Global>>;

// Encodes the texts, and after a refused request the rest of them.
fn encodes(
    rt: &impl Host,
    rodeo: &mut Metered<'_>,
    texts: &[&str],
    wanted: &[u32],
) -> Result<(), Fail> {
    let mut codes = Vec::new(rt.alloc());
    if let Err(error) = encode_in_parts(rt, rodeo, texts, &mut codes, 4) {
        is_so(rt, error.kind().is_failed_alloc(), "the refusal");
        let holds = rodeo.len() == distinct_of(&codes);
        is_so(rt, holds, "the texts before it");
        is_so(rt, stand_for(rodeo, &codes, texts), "their codes");
        let rest = texts.get(codes.len()..).unwrap_or(&[]);
        encode_in_parts(rt, rodeo, rest, &mut codes, 4)?;
    }
    is_so(rt, codes.as_slice() == wanted, "the codes");
    let holds = rodeo.len() == distinct_of(wanted);
    is_so(rt, holds, "the number of texts");
    is_so(rt, stand_for(rodeo, wanted, texts), "the texts");
    Ok(())
}

// Appends the texts, and after a refused request the rest. The texts before the refused one are in the list.
fn appends(
    rt: &impl Host,
    rodeo: &mut Metered<'_>,
    layout: &Layout<u32>,
    texts: &[&str],
) -> Result<(), Fail> {
    if let Err(error) = append_dictionary(rodeo, &layout.bytes, &layout.offsets) {
        let done = rodeo.len();
        let wanted = ReadError::Refused(done, LassoErrorKind::FailedAllocation);
        is_so(rt, error == wanted, "the refusal");
        let before = texts.get(..done).ok_or("too many")?;
        is_so(rt, has_texts(rodeo, before), "the texts before it");
        let rest = layout.offsets.get(done..).ok_or("too many")?;
        append_dictionary(rodeo, &layout.bytes, rest)?;
    }
    is_so(rt, has_texts(rodeo, texts), "the texts");
    Ok(())
}

// Runs the script on an interner of this memory, unless there is none for the interner.
fn holds(rt: &impl Host, memory: &Refusing<Global>, script: Script<'_>) -> Result<(), Fail> {
    if let Script::Reads(bytes, offsets, texts) = script {
        let limits = MemoryLimits::default();
        let is_right = match read_dictionary(memory, limits, FixedState::new(), bytes, offsets) {
            Ok(rodeo) => has_texts::<&Refusing<Global>>(&rodeo, texts),
            Err(error) => error == ReadError::Refused(0, LassoErrorKind::FailedAllocation),
        };
        is_so(rt, is_right, "the texts that are read");
        return Ok(());
    }
    let Ok(mut rodeo) = Metered::with_hasher(memory, FixedState::new()) else {
        return Ok(());
    };
    match script {
        Script::Parts(texts, codes) => encodes(rt, &mut rodeo, texts, codes),
        Script::Appends(layout, texts) => appends(rt, &mut rodeo, layout, texts),
        Script::Reads(..) => Ok(()),
    }
}

// Runs the script with each request refused in turn. Fails unless each run is right.
pub(super) fn with_each_refused<R: Host>(rt: &R, script: Script<'_>) -> Result<(), Fail> {
    each_refused(
        rt,
        |rt: &R, memory: &Refusing<Global>| holds(rt, memory, script),
    )
}

// Columns of texts that are all alike, or all different.

// How many texts the columns have.
static COUNTS: [u32; 6] = [2, 10, 21, 25, 64, 300];

static MANY_WORKERS: [usize; 4] = [1, 3, 10, 64];

static EVERY_WAY: [Way; 6] = [
    Way::Texts,
    Way::Lines,
    Way::Parts(1),
    Way::Parts(3),
    Way::Parts(10),
    Way::Parts(64),
];

// The text that the interner has before each column, and that no column has.
const OTHER: &str = "red";

// Encodes columns of each number of texts, in each way, over an interner of the other text; merges an interner of the
// texts into one of the other text; and has threads encode them by each call and each number of workers, each time over a
// new interner, which keeps its limit and its one bucket. A column prints one number again and again, or different ones,
// since 7919 and 10,000 have no common factor.
fn columns_are_encoded(rt: &impl Host, are_alike: bool) -> Result<(), Fail> {
    for count in COUNTS.iter() {
        let (mut numbers, mut codes) = (Vec::new(rt.alloc()), Vec::new(rt.alloc()));
        for place in 0..*count {
            let turn = if are_alike { 17 } else { place };
            numbers.push(turn.wrapping_mul(7919) % 10_000)?;
            codes.push(if are_alike { 1 } else { place.wrapping_add(1) })?;
        }
        let printed = printed(rt.alloc(), &numbers)?;
        let texts = slices(rt.alloc(), &printed)?;
        for way in EVERY_WAY.iter() {
            are_encoded(rt, &[OTHER], &texts, &codes, *way)?;
        }
        let count = distinct_of(&codes);
        let new = codes.get(..count.saturating_sub(1)).ok_or("too few codes")?;
        merges(rt, &[OTHER], &texts, new, count)?;
        are_shared(rt, &texts, &codes)?;
    }
    Ok(())
}

// Threads encode the texts over an interner that has the other text. With one worker they have these codes.
fn are_shared(rt: &impl Host, texts: &[&str], wanted: &[u32]) -> Result<(), Fail> {
    for call in CALLS.iter() {
        for workers in MANY_WORKERS.iter() {
            let rodeo: SpurThreadedRodeo = ThreadedRodeo::default(rt.alloc())?;
            rodeo.set_memory_limits(rt, MemoryLimits::new(5000));
            rodeo.try_get_or_intern(rt, OTHER)?;
            let shared = Shared::new(rt, &rodeo, *call, *workers);
            let codes = shared.encoded(texts)?;
            is_so_at(rt, are_codes(&rodeo, &codes, texts), *workers);
            is_so_at(rt, *workers > 1 || codes.as_slice() == wanted, *workers);
            is_so_at(rt, shared.is_kept(distinct_of(wanted), 5000), *workers);
            is_so_at(rt, rodeo.current_memory_usage(rt) == 4096, *workers);
            is_so_at(rt, has_from(&rodeo, 0, &[OTHER]), *workers);
        }
    }
    Ok(())
}

#[test]
fn texts_that_are_all_alike(rt: HostRuntime) -> Result<(), Fail> {
    columns_are_encoded(&rt, true)
}

// 300 texts of five bytes and the other one fit in the first bucket.
#[test]
fn texts_that_are_all_different(rt: HostRuntime) -> Result<(), Fail> {
    columns_are_encoded(&rt, false)
}

// Columns that threads encode over interners with different hashers: keyed ones, the one with a fixed
// seed, and one that gives all texts the same hash.

// How many texts collide.
const TEXTS: u32 = 10_000;

// The codes of the twenty texts with one worker: each new text gets the next code.
static CODES: [u32; 20] = [0, 1, 0, 2, 1, 3, 0, 4, 3, 0, 1, 5, 0, 2, 6, 0, 0, 4, 1, 3];

// Encodes the texts over a new interner with this hasher. Each code has to resolve to its text, and there have to be
// `count` texts. Returns the codes.
fn encodes_by<S: BuildHasher + Send + Sync + Drop>(
    rt: &impl Host,
    hasher: S,
    texts: &[&str],
    workers: usize,
    count: usize,
) -> Result<Vec<u32>, Fail>
where
    S::Hasher: Send,
{
    let rodeo: ThreadedRodeo<Spur, S> = ThreadedRodeo::with_hasher(rt.alloc(), hasher)?;
    let mut codes = Vec::new(rt.alloc());
    encode_shared(rt, &rodeo, texts, &mut codes, workers)?;
    is_so_at(rt, rodeo.len() == count, workers);
    is_so_at(rt, are_codes(&rodeo, &codes, texts), workers);
    Ok(codes)
}

// Under the fixed seed these texts have one hash, so a search would compare with each of them. The keyed
// hasher spreads them.
#[test]
fn threads_encode_texts_that_collide_under_the_fixed_seed(rt: HostRuntime) -> Result<(), Fail> {
    let chosen = colliding(rt.alloc(), TEXTS)?;
    let texts = slices(rt.alloc(), &chosen)?;
    let fixed = FixedState::new();
    for text in texts.iter() {
        let has_hash = hash_text(&fixed, *text) == hash_text(&fixed, texts[0]);
        is_so(&rt, has_hash, "the hash");
    }
    for workers in [1, 4, 7] {
        let keyed = keyed_by(*b"sixteen of bytes");
        encodes_by(&rt, keyed, &texts, workers, 10_000)?;
    }
    Ok(())
}

// Equal texts have equal codes, and different texts different ones. With one worker the codes follow the order of the
// texts; with four they depend on the workers' turns.
fn tell_texts(rt: &impl Host, codes: &[u32], workers: usize) {
    is_so_at(rt, workers > 1 || codes == CODES.as_slice(), workers);
    for (code, text) in codes.iter().zip(&TWENTY) {
        for (other, another) in codes.iter().zip(&TWENTY) {
            is_so_at(rt, (code == other) == (text == another), workers);
        }
    }
}

#[test]
fn equal_texts_have_equal_codes_whichever_hasher(rt: HostRuntime) -> Result<(), Fail> {
    for workers in [1, 4] {
        for keys in [*b"sixteen of bytes", *b"another sixteen "] {
            let codes = encodes_by(&rt, keyed_by(keys), &TWENTY, workers, 7)?;
            tell_texts(&rt, &codes, workers);
        }
        let codes = encodes_by(&rt, FixedState::new(), &TWENTY, workers, 7)?;
        tell_texts(&rt, &codes, workers);
        let codes = encodes_by(&rt, SameState::new(), &TWENTY, workers, 7)?;
        tell_texts(&rt, &codes, workers);
    }
    Ok(())
}
