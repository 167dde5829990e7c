//! Columns that threads encode over an interner that already has texts. The new texts of a column are
//! appended to that interner's list, and its own calls resolve the codes.
use crate::calls::{CALLS, Call, Host, Shared, are_codes, has_from, is_so, limit_refuses};
use crate::long_columns::{COUNT, Numbers, first_of, printed, slices};
use crate::shared::{Step, TWENTY, runs};
use lasso::{Key, LassoResult, MemoryLimits, Spur, SpurThreadedRodeo, ThreadedRodeo};
use std::alloc::Global;
use std::str::from_utf8;
use std::sync::atomic::{AtomicBool, Ordering};
use std::test::Fail;
use std::thread::join;

const FIRST: [&str; 8] = [
    "red", "green", "red", "blue", "green", "white", "red", "blue",
];

const SECOND: [&str; 8] = [
    "blue", "black", "red", "grey", "black", "pink", "white", "grey",
];

const THIRD: [&str; 9] = [
    "pink", "gold", "gold", "brown", "red", "black", "teal", "gold", "cyan",
];

static COLUMNS: [&[&str]; 3] = [&FIRST, &SECOND, &THIRD];

// The different texts of the three columns, in the order of their first occurrences.
const TEXTS: [&str; 11] = [
    "red", "green", "blue", "white", "black", "grey", "pink", "gold", "brown", "teal", "cyan",
];

// Those of them that have come up to the end of each column.
static COME: [&[&str]; 3] = [
    &["red", "green", "blue", "white"],
    &["red", "green", "blue", "white", "black", "grey", "pink"],
    &TEXTS,
];

// More than the bytes of the first bucket, and fewer than those of a long text.
const LIMIT: usize = 5000;

// The numbers of workers: one, four, and about one for each text.
static WORKERS: [usize; 4] = [1, 4, 8, 9];

// The texts of the interner, in the order of its list.
fn texts_of(alloc: Global, rodeo: &SpurThreadedRodeo) -> Result<Vec<&str>, Fail> {
    let mut texts = Vec::new(alloc);
    for number in 0..rodeo.len() {
        let key = Spur::try_from_usize(number).ok_or("no key")?;
        texts.push(rodeo.try_resolve(key).ok_or("no text")?)?;
    }
    Ok(texts)
}

// The limit refuses a text of 6000 letters, whether interned or encoded. The number of texts and the limit stay.
fn limit_holds<R: Host>(shared: &Shared<'_, R>) -> Result<(), Fail> {
    static BYTES: [u8; 6000] = [b'x'; 6000];
    let long = from_utf8(&BYTES).ok().ok_or("no text")?;
    let (rt, count) = (shared.rt, shared.rodeo.len());
    is_so(rt, shared.is_kept(count, LIMIT), "the limit before");
    let refusal = shared.rodeo.try_get_or_intern(rt, long).err();
    is_so(rt, limit_refuses(refusal)?, "interned");
    let is_refused = shared.refuses(&["red", long], &mut Vec::new(rt.alloc()))?;
    is_so(rt, is_refused, "encoded");
    is_so(rt, shared.is_kept(count, LIMIT), "the limit after");
    Ok(())
}

// Encodes the three columns one after another over an interner of the texts of `opening`, which no column
// has. Its list then begins with the texts that it had. With one worker the texts have to be in the order in which
// they came.
fn encodes_three<R: Host>(shared: &Shared<'_, R>, opening: &[&str]) -> Result<(), Fail> {
    let (rt, rodeo) = (shared.rt, shared.rodeo);
    rodeo.set_memory_limits(rt, MemoryLimits::new(LIMIT));
    is_so(rt, has_from(rodeo, 0, opening), "the opening");
    for (column, come) in COLUMNS.iter().zip(&COME) {
        let had = texts_of(rt.alloc(), rodeo)?;
        let codes = shared.encoded(*column)?;
        is_so(rt, are_codes(rodeo, &codes, *column), "the codes");
        let count = opening.len().saturating_add(come.len());
        is_so(rt, rodeo.len() == count, "the number of texts");
        is_so(rt, has_from(rodeo, 0, &had), "the earlier texts");
        for text in come.iter() {
            is_so(rt, rodeo.contains(rt, *text), *text);
        }
        limit_holds(shared)?;
    }
    is_so(rt, has_from(rodeo, 0, opening), "the opening");
    let in_order = shared.workers > 1 || has_from(rodeo, opening.len(), COME[2]);
    is_so(rt, in_order, "the order of the texts");
    Ok(())
}

// How an interner gets its first texts.
#[derive(Clone, Copy)]
enum Opening {
    None,
    Iterator,
    Words,
    Interned,
}

fn made(rt: &impl Host, opening: Opening) -> LassoResult<SpurThreadedRodeo> {
    let alloc = rt.alloc();
    match opening {
        Opening::None => ThreadedRodeo::default(alloc),
        Opening::Iterator => ThreadedRodeo::from_iter(alloc, rt, ["sun", "moon", "sun", ""]),
        Opening::Words => ThreadedRodeo::from_static(alloc, &["moon", "", "sun"]),
        Opening::Interned => {
            let rodeo: SpurThreadedRodeo = ThreadedRodeo::default(alloc)?;
            rodeo.try_get_or_intern(rt, "moon")?;
            rodeo.try_get_or_intern_static(rt, "sun")?;
            rodeo.try_get_or_intern(rt, "moon")?;
            Ok(rodeo)
        }
    }
}

// Encodes the columns over new interners with this opening, which has these texts, by each call and each
// number of workers.
fn columns_follow(rt: &impl Host, opening: Opening, texts: &[&str]) -> Result<(), Fail> {
    for call in CALLS.iter() {
        for workers in WORKERS.iter() {
            let rodeo = made(rt, opening)?;
            encodes_three(&Shared::new(rt, &rodeo, *call, *workers), texts)?;
        }
    }
    Ok(())
}

#[test]
fn two_columns_share_an_interner(rt: HostRuntime) -> Result<(), Fail> {
    static STEPS: [Step; 9] = [
        Step::Encodes(&FIRST, 1),
        Step::Encodes(&SECOND, 1),
        Step::Codes(&[0, 1, 0, 2, 1, 3, 0, 2, 2, 4, 0, 5, 4, 6, 3, 5]),
        Step::Counts(7),
        Step::Begins(&["red", "green", "blue", "white", "black", "grey", "pink"]),
        Step::Encodes(&THIRD, 1),
        Step::Codes(&[
            0, 1, 0, 2, 1, 3, 0, 2, 2, 4, 0, 5, 4, 6, 3, 5, 6, 7, 7, 8, 0, 4, 9, 7, 10,
        ]),
        Step::Counts(11),
        Step::Begins(&TEXTS),
    ];
    runs(&rt, ThreadedRodeo::default(rt.alloc()), Call::Plain, &STEPS)?;
    runs(
        &rt,
        ThreadedRodeo::default(rt.alloc()),
        Call::ByPass,
        &STEPS,
    )
}

#[test]
fn three_columns_share_an_empty_interner(rt: HostRuntime) -> Result<(), Fail> {
    columns_follow(&rt, Opening::None, &[])
}

#[test]
fn columns_follow_the_texts_of_an_iterator(rt: HostRuntime) -> Result<(), Fail> {
    columns_follow(&rt, Opening::Iterator, &["sun", "moon", ""])
}

#[test]
fn columns_follow_the_words_of_an_opening(rt: HostRuntime) -> Result<(), Fail> {
    columns_follow(&rt, Opening::Words, &["moon", "", "sun"])
}

#[test]
fn columns_follow_interned_texts(rt: HostRuntime) -> Result<(), Fail> {
    columns_follow(&rt, Opening::Interned, &["moon", "sun"])
}

// Two users of one interner: two columns that are encoded at the same time, and a column beside a thread that
// sets limits.

fn texts_of_numbers(alloc: Global, numbers: Numbers) -> Result<Vec<String>, Fail> {
    printed(alloc, &first_of(alloc, numbers, COUNT)?)
}

// The first column has each of 20,000 texts once, the other about half of them. They are encoded at the same time, by
// each call, and by one worker and two each.
#[test]
fn two_columns_are_encoded_at_once(rt: HostRuntime) -> Result<(), Fail> {
    let one = texts_of_numbers(rt.alloc(), Numbers::Distinct)?;
    let other = texts_of_numbers(rt.alloc(), Numbers::Mixed)?;
    let (one, other) = (slices(rt.alloc(), &one)?, slices(rt.alloc(), &other)?);
    for call in CALLS.iter() {
        for workers in [1, 2] {
            let rodeo: SpurThreadedRodeo = ThreadedRodeo::default(rt.alloc())?;
            let shared = Shared::new(&rt, &rodeo, *call, workers);
            let (first, second) = join(&rt, || shared.encoded(&one), || shared.encoded(&other));
            is_so(&rt, are_codes(&rodeo, &first?, &one), "one column");
            is_so(&rt, are_codes(&rodeo, &second?, &other), "the other");
            is_so(&rt, rodeo.len() == 20_000, "the number of texts");
        }
    }
    Ok(())
}

// How many limits are set at most, in case the other thread never ends.
const MOST: usize = 1_000_000;

// Sets one limit after another until the other thread is done. Returns whether each is read as it was set.
fn reads_what_it_sets(rt: &impl Host, rodeo: &SpurThreadedRodeo, done: &AtomicBool) -> bool {
    let mut all = true;
    for turn in 0..MOST {
        if done.load(Ordering::SeqCst) {
            break;
        }
        let limit = turn.wrapping_add(5000);
        rodeo.set_memory_limits(rt, MemoryLimits::new(limit));
        all &= rodeo.max_memory_usage(rt) == limit;
    }
    all
}

// Encodes the twenty texts a hundred times by each call, and says when it is done. Returns whether they always have the
// same codes.
fn encodes_often(
    rt: &impl Host,
    rodeo: &SpurThreadedRodeo,
    workers: usize,
    done: &AtomicBool,
) -> LassoResult<bool> {
    let first = Shared::new(rt, rodeo, Call::Plain, workers).encoded(&TWENTY);
    let mut all = true;
    for turn in 0..200usize {
        let again = Shared::new(rt, rodeo, CALLS[turn % 2], workers).encoded(&TWENTY);
        all &= again == first;
    }
    done.store(true, Ordering::SeqCst);
    first?;
    Ok(all)
}

// Encodes while another thread sets limits, over a new interner whose first bucket has room for all texts.
#[test]
fn no_column_sets_a_limit(rt: HostRuntime) -> Result<(), Fail> {
    for workers in [1, 2] {
        let rodeo: SpurThreadedRodeo = ThreadedRodeo::default(rt.alloc())?;
        let done = AtomicBool::new(false);
        let (set, encoded) = join(
            &rt,
            || reads_what_it_sets(&rt, &rodeo, &done),
            || encodes_often(&rt, &rodeo, workers, &done),
        );
        is_so(&rt, encoded?, "the codes");
        is_so(&rt, set, "the limits");
        is_so(&rt, rodeo.len() == 7, "the number of texts");
    }
    Ok(())
}
