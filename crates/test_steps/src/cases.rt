//! Cases: what the rows of a run leave open, which are a call, a size and two texts. Interners that a row describes, and
//! a thread that sets limits while another one calls the interner.
//!
//! In a case with a size, a text of a row that ends in `-` stands for a text of that many bytes: its letter, and
//! `-` up to the end. One that ends in `.` stands for the same with `.` as its last byte, and `#` for the size as a
//! number of five digits. Numbers of a row are in terms of `SIZE`. In each case `@` and `%` stand for its two
//! texts.
use crate::Host;
use crate::calls::{Caller, Shared, refusal_of};
use crate::steps::{Call, Reply, Step, Way};
use crate::texts::{KeyNumbers, List, ended_lasting, items_of, lasting, numeral};
use lasso_parts::keys::Key;
use lasso_parts::util::{Capacity, LassoErrorKind, LassoResult, MemoryLimits};
use lasso_shared::threaded::ThreadedRodeo;
use std::alloc::Global;
use std::hash::BuildHasher;
use std::sync::atomic::{AtomicBool, Ordering};

/// What the rows of a run leave open.
#[derive(Clone, Copy)]
pub struct Case {
    /// The length of texts, or a number.
    pub size: Option<usize>,
    /// What `Way::Given` stands for.
    pub way: Way,
    /// What `@` and `%` stand for.
    pub pair: (&'static str, &'static str),
    /// How often each call is made.
    pub times: usize,
    /// Whether the passes keep hints.
    pub is_hinted: bool,
}

/// A case that leaves nothing open. Each call is made once, and passes keep no hints.
pub static PLAIN: Case = Case {
    size: None,
    way: Way::TryCopied,
    pair: ("@", "%"),
    times: 1,
    is_hinted: false,
};

/// Passes keep hints, and each call is made three times: the second one of a present text keeps a hint, and the
/// third one asks it.
pub static HINTED: Case = Case {
    size: None,
    way: Way::TryCopied,
    pair: ("@", "%"),
    times: 3,
    is_hinted: true,
};

/// The case of this size, which leaves the call open.
pub fn sized(size: usize) -> Case {
    Case {
        size: Some(size),
        ..of_way(Way::Given)
    }
}

/// The case of this call.
pub fn of_way(way: Way) -> Case {
    Case { way, ..PLAIN }
}

/// The case of this call and these texts.
pub fn paired(way: Way, pair: (&'static str, &'static str)) -> Case {
    Case { way, pair, ..PLAIN }
}

/// A number of a row: `n * SIZE + m` stands for `n` times the size of the case, and `m` more. The greatest number
/// stands for itself.
pub const SIZE: usize = 1 << 40;

/// What the number of a row stands for.
pub fn number_for(case: Case, number: usize) -> usize {
    match case.size {
        Some(size) if number != usize::MAX => {
            size.saturating_mul(number / SIZE)
                .saturating_add(number % SIZE)
        }
        _ => number,
    }
}

// What a text of a row stands for in a case of this size.
fn sized_text(alloc: Global, size: usize, text: &'static str) -> LassoResult<&'static str> {
    if text == "#" {
        return numeral(alloc, size);
    }
    if let Some(letter) = text.strip_suffix("-") {
        return lasting(alloc, letter, size);
    }
    match text.strip_suffix(".") {
        Some(letter) => ended_lasting(alloc, letter, size),
        None => Ok(text),
    }
}

// What the numbers of a list stand for.
fn list_for(case: Case, list: List) -> List {
    match list {
        List::Numbers(first, end) => List::Numbers(number_for(case, first), number_for(case, end)),
        _ => list,
    }
}

/// The texts that those of the list stand for.
pub fn items_for(alloc: Global, case: Case, list: List) -> LassoResult<Vec<&'static str>> {
    let items = items_of(alloc, list_for(case, list))?;
    let mut forms = Forms::new(alloc, case);
    let mut texts = Vec::new(alloc);
    for text in items.iter() {
        texts.push(forms.text(*text)?)?;
    }
    Ok(texts)
}

/// What the rows of a run stand for in a case, with the texts that were formed for it.
#[derive(Drop)]
pub struct Forms {
    alloc: Global,
    case: Case,
    // texts that were formed, each after the one in the row that stands for it
    formed: Vec<(&'static str, &'static str)>,
}

impl Forms {
    /// Without texts.
    pub fn new(alloc: Global, case: Case) -> Self {
        Forms {
            alloc,
            case,
            formed: Vec::new(alloc),
        }
    }

    // What the text of a row stands for. It is formed once.
    fn text(&mut self, text: &'static str) -> LassoResult<&'static str> {
        if text == "@" {
            return Ok(self.case.pair.0);
        }
        if text == "%" {
            return Ok(self.case.pair.1);
        }
        let Some(size) = self.case.size else {
            return Ok(text);
        };
        for (row, made) in self.formed.iter() {
            if *row == text {
                return Ok(*made);
            }
        }
        let made = sized_text(self.alloc, size, text)?;
        self.formed.push((text, made))?;
        Ok(made)
    }

    // What the text of a row stands for, if it has one.
    fn some_text(&mut self, text: Option<&'static str>) -> LassoResult<Option<&'static str>> {
        match text {
            Some(text) => Ok(Some(self.text(text)?)),
            None => Ok(None),
        }
    }

    // The texts that these stand for. The list of them is never freed.
    fn texts(&mut self, texts: &[&'static str]) -> LassoResult<&'static [&'static str]> {
        let mut all = Vec::new(self.alloc);
        for text in texts.iter() {
            all.push(self.text(*text)?)?;
        }
        Ok(all.leak())
    }

    // What the number of a row stands for.
    fn number(&self, number: usize) -> usize {
        number_for(self.case, number)
    }

    // What the number of a row stands for, if it has one.
    fn some_number(&self, number: Option<usize>) -> Option<usize> {
        match number {
            Some(number) => Some(self.number(number)),
            None => None,
        }
    }

    // What the reply of a row stands for.
    fn reply(&self, reply: Reply) -> Reply {
        match reply {
            Ok(number) => Ok(self.number(number)),
            Err(kind) => Err(kind),
        }
    }

    // The call of the row, or of the case.
    fn way(&self, way: Way) -> Way {
        match way {
            Way::Given => self.case.way,
            _ => way,
        }
    }

    // The numbers of keys that these stand for.
    fn numbers(&self, numbers: KeyNumbers) -> KeyNumbers {
        match numbers {
            KeyNumbers::From(first) => KeyNumbers::From(self.number(first)),
            _ => numbers,
        }
    }

    // The call by a pass that the row stands for.
    fn call(&mut self, call: Call) -> LassoResult<Call> {
        Ok(match call {
            Call::Copies(text, reply) => Call::Copies(self.text(text)?, self.reply(reply)),
            Call::Keeps(text, reply) => Call::Keeps(self.text(text)?, self.reply(reply)),
            Call::Finds(text, number) => Call::Finds(self.text(text)?, self.some_number(number)),
            Call::Reads(number, text) => Call::Reads(self.number(number), self.some_text(text)?),
            Call::Counts(count) => Call::Counts(self.number(count)),
            Call::Sums(limit, usage) => Call::Sums(self.number(limit), self.number(usage)),
            Call::Uses(bytes) => Call::Uses(self.number(bytes)),
            Call::Limits(bytes) => Call::Limits(self.number(bytes)),
            Call::TakesAll(list, numbers, refusal) => {
                let list = match list {
                    List::Texts(texts) => List::Texts(self.texts(texts)?),
                    _ => list_for(self.case, list),
                };
                Call::TakesAll(list, self.numbers(numbers), refusal)
            }
            Call::FindsAll(texts, numbers) => Call::FindsAll(self.texts(texts)?, numbers),
            _ => call,
        })
    }

    /// The row that this row stands for.
    pub fn step(&mut self, step: Step) -> LassoResult<Step> {
        Ok(match step {
            Step::Interns(way, text, reply) => {
                Step::Interns(self.way(way), self.text(text)?, self.reply(reply))
            }
            Step::Takes(text, reply) => Step::Takes(self.text(text)?, self.reply(reply)),
            Step::Finds(text, number) => Step::Finds(self.text(text)?, self.some_number(number)),
            Step::Reads(number, text) => Step::Reads(self.number(number), self.some_text(text)?),
            Step::EachInterns(text, reply) => {
                Step::EachInterns(self.text(text)?, self.reply(reply))
            }
            Step::EachCopies(text, reply) => Step::EachCopies(self.text(text)?, self.reply(reply)),
            Step::Resolves(way, text) => Step::Resolves(self.way(way), self.text(text)?),
            Step::New(way, text) => Step::New(self.way(way), self.text(text)?),
            Step::Counts(count) => Step::Counts(self.number(count)),
            Step::Uses(bytes) => Step::Uses(self.number(bytes)),
            Step::Limits(bytes) => Step::Limits(self.number(bytes)),
            Step::IsLimited(bytes) => Step::IsLimited(self.number(bytes)),
            Step::AllocatesOver(bytes) => Step::AllocatesOver(self.number(bytes)),
            Step::ByNew(call) => Step::ByNew(self.call(call)?),
            Step::ByOne(call) => Step::ByOne(self.call(call)?),
            Step::ByOther(call) => Step::ByOther(self.call(call)?),
            _ => step,
        })
    }
}

/// The rows that these rows stand for.
pub fn steps_of(alloc: Global, case: Case, steps: &[Step]) -> LassoResult<Vec<Step>> {
    let mut forms = Forms::new(alloc, case);
    let mut all = Vec::new(alloc);
    for step in steps.iter() {
        all.push(forms.step(*step)?)?;
    }
    Ok(all)
}

// Interners that a row describes.

/// How an interner is made.
#[derive(Clone, Copy)]
pub enum Maker {
    /// With the default capacity and without a limit.
    Default,
    /// With room for this number of texts, a first bucket of this number of bytes, at least one, and this limit.
    Sized(usize, usize, usize),
    /// With a first bucket of this number of bytes, which is also its limit.
    Full(usize),
    /// Of the items of the list.
    Items(List),
}

/// An interner of the items.
pub fn of_items<K: Key, S: BuildHasher + Default + Drop>(
    rt: &impl Host,
    items: &[&'static str],
) -> LassoResult<ThreadedRodeo<K, S>> {
    ThreadedRodeo::from_iter(rt.alloc(), rt, items.iter().copied())
}

/// The maker that this one stands for in the case.
pub fn maker_for(case: Case, maker: Maker) -> Maker {
    match maker {
        Maker::Sized(texts, bytes, limit) => {
            Maker::Sized(texts, number_for(case, bytes), number_for(case, limit))
        }
        Maker::Full(bytes) => Maker::Full(number_for(case, bytes)),
        _ => maker,
    }
}

/// Makes the interner.
pub fn make<K: Key, S: BuildHasher + Default + Drop>(
    rt: &impl Host,
    maker: Maker,
) -> LassoResult<ThreadedRodeo<K, S>> {
    let (texts, bytes, limit) = match maker {
        Maker::Default => return ThreadedRodeo::with_hasher(rt.alloc(), S::default()),
        Maker::Items(list) => return of_items(rt, &items_of(rt.alloc(), list)?),
        Maker::Full(bytes) => (50, bytes, bytes),
        Maker::Sized(texts, bytes, limit) => (texts, bytes, limit),
    };
    let (room, limits) = (Capacity::new(texts, bytes.max(1)), MemoryLimits::new(limit));
    ThreadedRodeo::with_capacity_memory_limits_and_hasher(rt.alloc(), room, limits, S::default())
}

/// Whether no interner is made of the items, for this reason.
pub fn refuses_items<K: Key, S: BuildHasher + Default + Drop>(
    rt: &impl Host,
    items: &[&'static str],
    wanted: LassoErrorKind,
) -> LassoResult<bool> {
    Ok(refusal_of(of_items::<K, S>(rt, items))? == Some(wanted))
}

// A thread that sets limits while another one calls the interner.

// How many limits are set at most, in case the other thread never ends.
const MOST: usize = 1_000_000;

/// Sets the `count` limits from `least` on, again and again until the other thread is done, in turn without a
/// pass, by one, and by one without waiting. Returns whether each is read as it was set.
pub fn reads_what_it_sets(
    rt: &impl Host,
    shared: &Shared,
    done: &AtomicBool,
    least: usize,
    count: usize,
) -> bool {
    let mut all = true;
    for turn in 0..MOST {
        if done.load(Ordering::SeqCst) {
            break;
        }
        let bytes = least.saturating_add(turn % count.max(1));
        let mut caller = Caller::new(rt, shared);
        match turn / 2 % 3 {
            0 => caller.set_limit_plainly(bytes),
            1 => caller.set_limit(bytes),
            _ => caller.set_limit_now(bytes),
        }
        all &= caller.limit() == bytes;
    }
    all
}
