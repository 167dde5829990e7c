//! Columns that several threads encode. Their turns may differ from run to run; the tests check what is
//! the same in each run.
use crate::calls::{
    CALLS, Call, Host, Shared, are_codes, has_from, is_so, is_so_at, limited_shared,
};
use lasso::{LassoResult, MemoryLimits, SpurThreadedRodeo, ThreadedRodeo};
use std::test::Fail;

// Five texts for each of four workers. The different ones are a, b, c, d, e, f and g.
pub(super) static TWENTY: [&str; 20] = LETTERS;

const LETTERS: [&str; 20] = [
    "a", "b", "a", "c", "b", "d", "a", "e", "d", "a", "b", "f", "a", "c", "g", "a", "a", "e", "b",
    "d",
];

// A call on an interner and the codes of a column, and what has to come of it; or what then has to hold.
#[derive(Clone, Copy)]
pub(super) enum Step {
    // each of the texts, encoded by this number of workers, gets a code after the others, which resolves to it
    Encodes(&'static [&'static str], usize),
    // by a pass the texts get the same codes again, and these are left out
    Again(&'static [&'static str], usize),
    // the limit refuses one of the texts, and no code is added
    Refuses(&'static [&'static str], usize),
    // this code is put after the others
    Pushes(u32),
    // these are the codes
    Codes(&'static [u32]),
    // the texts stand first in the interner's list, in this order
    Begins(&'static [&'static str]),
    // there is this number of texts
    Counts(usize),
    // the limit becomes this number of bytes
    Limits(usize),
    // the limit is this number of bytes
    IsLimited(usize),
}

impl<'a, R: Host> Shared<'a, R> {
    // The same call by this number of workers.
    fn by(&self, workers: usize) -> Self {
        Shared::new(self.rt, self.rodeo, self.call, workers)
    }

    // Takes the step. Returns whether all is as it says.
    fn takes(&self, codes: &mut Vec<u32>, step: Step) -> Result<bool, Fail> {
        Ok(match step {
            Step::Encodes(texts, workers) => {
                let first = codes.len();
                self.by(workers).encode(texts, codes)?;
                are_codes(self.rodeo, codes.get(first..).unwrap_or(&[]), texts)
            }
            Step::Again(texts, workers) => {
                let by_pass = Shared::new(self.rt, self.rodeo, Call::ByPass, workers);
                by_pass.encoded(texts)?.as_slice() == codes.as_slice()
            }
            Step::Refuses(texts, workers) => self.by(workers).refuses(texts, codes)?,
            Step::Pushes(code) => {
                codes.push(code)?;
                true
            }
            Step::Codes(wanted) => codes.as_slice() == wanted,
            Step::Begins(texts) => has_from(self.rodeo, 0, texts),
            Step::Counts(count) => self.rodeo.len() == count,
            Step::Limits(bytes) => {
                let limits = MemoryLimits::new(bytes);
                self.rodeo.set_memory_limits(self.rt, limits);
                self.rodeo.max_memory_usage(self.rt) == bytes
            }
            Step::IsLimited(bytes) => self.rodeo.max_memory_usage(self.rt) == bytes,
        })
    }
}

// Takes the steps in turn on the interner that was just made. Fails unless each is right.
pub(super) fn runs(
    rt: &impl Host,
    made: LassoResult<SpurThreadedRodeo>,
    call: Call,
    steps: &[Step],
) -> Result<(), Fail> {
    let rodeo = made?;
    let shared = Shared::new(rt, &rodeo, call, 1);
    let mut codes = Vec::new(rt.alloc());
    for (row, step) in steps.iter().enumerate() {
        is_so_at(rt, shared.takes(&mut codes, *step)?, row);
    }
    Ok(())
}

#[test]
fn threads_give_equal_texts_equal_codes(rt: HostRuntime) -> Result<(), Fail> {
    const TEXTS: [&str; 9] = ["a", "b", "a", "c", "b", "a", "d", "c", "a"];
    static STEPS: [[Step; 2]; 4] = [
        [Step::Encodes(&TEXTS, 0), Step::Counts(4)],
        [Step::Encodes(&TEXTS, 1), Step::Counts(4)],
        [Step::Encodes(&TEXTS, 4), Step::Counts(4)],
        [Step::Encodes(&TEXTS, 20), Step::Counts(4)],
    ];
    for steps in STEPS.iter() {
        runs(&rt, ThreadedRodeo::default(rt.alloc()), Call::Plain, steps)?;
    }
    Ok(())
}

#[test]
fn twenty_texts_are_all_that_is_interned(rt: HostRuntime) -> Result<(), Fail> {
    static STEPS: [Step; 3] = [
        Step::Encodes(&LETTERS, 4),
        Step::Counts(7),
        Step::IsLimited(5000),
    ];
    let made = ThreadedRodeo::with_memory_limits(rt.alloc(), MemoryLimits::new(5000));
    runs(&rt, made, Call::Plain, &STEPS)
}

// An empty text, texts that are not ASCII, and one of 5000 bytes, under a limit with room for them.
#[test]
fn odd_texts_have_codes_of_their_own(rt: HostRuntime) -> Result<(), Fail> {
    static LONG: [u8; 5000] = [b'x'; 5000];
    let long = std::str::from_utf8(&LONG).ok().ok_or("no text")?;
    let texts = ["", "é", "", long, "é", "😀"];
    for call in CALLS.iter() {
        for workers in [1, 4] {
            let limits = MemoryLimits::new(20_000);
            let rodeo: SpurThreadedRodeo = ThreadedRodeo::with_memory_limits(rt.alloc(), limits)?;
            let shared = Shared::new(&rt, &rodeo, *call, workers);
            let codes = shared.encoded(&texts)?;
            is_so(&rt, are_codes(&rodeo, &codes, &texts), "the codes");
            is_so(&rt, shared.is_kept(4, 20_000), "four texts");
        }
    }
    Ok(())
}

#[test]
fn codes_go_behind_those_from_before(rt: HostRuntime) -> Result<(), Fail> {
    static STEPS: [Step; 4] = [
        Step::Pushes(7),
        Step::Encodes(&["a", "a"], 2),
        Step::Encodes(&[], 3),
        Step::Codes(&[7, 0, 0]),
    ];
    runs(&rt, ThreadedRodeo::default(rt.alloc()), Call::Plain, &STEPS)
}

#[test]
fn a_refused_worker_adds_no_code(rt: HostRuntime) -> Result<(), Fail> {
    static STEPS: [Step; 3] = [
        Step::Refuses(&["first", "other", "third", "first"], 2),
        Step::Codes(&[]),
        Step::Counts(2),
    ];
    runs(
        &rt,
        limited_shared(rt.alloc(), 10, 10),
        Call::ByPass,
        &STEPS,
    )
}

// The last of four workers meets the limit at its third text, after the two texts that fill the bucket.
#[test]
fn a_limit_in_mid_column_stays_what_it_was(rt: HostRuntime) -> Result<(), Fail> {
    const TEXTS: [&str; 20] = [
        "first", "first", "first", "other", "first", "first", "first", "first", "first", "other",
        "first", "first", "first", "first", "first", "first", "other", "third", "first", "first",
    ];
    static STEPS: [Step; 4] = [
        Step::Refuses(&TEXTS, 4),
        Step::Codes(&[]),
        Step::Counts(2),
        Step::IsLimited(10),
    ];
    runs(&rt, limited_shared(rt.alloc(), 10, 10), Call::Plain, &STEPS)
}

// The first worker is refused. The second interns its text whatever the first does meanwhile, since the
// bucket always has room for it. One worker alone would stop at the first text.
#[test]
fn each_worker_interns_its_part(rt: HostRuntime) -> Result<(), Fail> {
    static STEPS: [Step; 3] = [
        Step::Refuses(&["longer than ten bytes", "short"], 2),
        Step::Codes(&[]),
        Step::Counts(1),
    ];
    runs(&rt, limited_shared(rt.alloc(), 10, 10), Call::Plain, &STEPS)
}

#[test]
fn a_worker_ends_at_its_first_refused_text(rt: HostRuntime) -> Result<(), Fail> {
    static STEPS: [Step; 2] = [
        Step::Refuses(&["longer than ten bytes", "short"], 1),
        Step::Counts(0),
    ];
    runs(&rt, limited_shared(rt.alloc(), 10, 10), Call::Plain, &STEPS)
}

// After the limit was raised, an earlier refusal has no effect.
#[test]
fn a_raised_limit_is_the_one_in_force(rt: HostRuntime) -> Result<(), Fail> {
    static STEPS: [Step; 3] = [
        Step::Refuses(&["first", "other", "third", "first"], 2),
        Step::Limits(5000),
        Step::Encodes(&["first", "other", "third", "first"], 2),
    ];
    runs(
        &rt,
        limited_shared(rt.alloc(), 10, 10),
        Call::ByPass,
        &STEPS,
    )
}

#[test]
fn threads_encode_a_long_column(rt: HostRuntime) -> Result<(), Fail> {
    const TEXTS: [&str; 1000] = ["first"; 1000];
    const ZEROS: [u32; 1000] = [0; 1000];
    static STEPS: [Step; 2] = [Step::Encodes(&TEXTS, 4), Step::Codes(&ZEROS)];
    runs(&rt, ThreadedRodeo::default(rt.alloc()), Call::Plain, &STEPS)
}

// The limit is far below the usage, but the first bucket has room for both texts.
#[test]
fn a_limit_below_the_usage_refuses_no_text_with_room(rt: HostRuntime) -> Result<(), Fail> {
    const TEXTS: [&str; 3] = ["a", "b", "a"];
    static ONE: [Step; 5] = [
        Step::Limits(0),
        Step::Encodes(&TEXTS, 1),
        Step::Again(&TEXTS, 1),
        Step::Counts(2),
        Step::IsLimited(0),
    ];
    static TWO: [Step; 5] = [
        Step::Limits(0),
        Step::Encodes(&TEXTS, 2),
        Step::Again(&TEXTS, 2),
        Step::Counts(2),
        Step::IsLimited(0),
    ];
    runs(&rt, ThreadedRodeo::default(rt.alloc()), Call::Plain, &ONE)?;
    runs(&rt, ThreadedRodeo::default(rt.alloc()), Call::Plain, &TWO)
}
