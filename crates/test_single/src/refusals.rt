//! Scripts that are run with each of their requests for memory refused in turn. A call that runs out of
//! memory changes only what its documentation says. The same call made again returns what the first would
//! have. Each run frees all its memory.
mod copies;
mod counts;
mod values;

use crate::interners::{
    Answer, Host, KEYS, LIMIT, MEMORY, holds, is_so, is_so_at, key_at, number_of, refusal_of, told,
};
use crate::refusals::copies::Name;
use lasso_parts::keys::{Key, Spur};
use lasso_parts::util::{Capacity, FixedState, LassoErrorKind, LassoResult, MemoryLimits};
use lasso_single::rodeo::Rodeo;
use std::alloc::Global;
use std::test::Fail;
use test_common::keys::Gap;
use test_common::refusing::{Refusing, each_refused};

type Memory = Refusing<Global>;

// An interner of this memory.
type Metered<'m, K> = Rodeo<K, FixedState, &'m Memory>;

// In each run `Refusing` refuses at most one request, and the allocator below it at most one more
// (`rt try --test --fail-alloc N`).
const REFUSALS: u8 = 2;

// Checks the error of a call that ran out of memory: it is `FailedAllocation`, and a request was refused
// since the last such check.
fn is_out_of_memory(rt: &impl Host, memory: &Memory, kind: LassoErrorKind) {
    is_so(rt, memory.has_refused_anew(), "a refused request");
    is_so(rt, kind == MEMORY, "why a call was refused");
}

// A call that is made again while a request of it is refused.
#[derive(Clone, Copy)]
enum Call {
    Intern(&'static str),
    InternStatic(&'static str),
}

use Call::{Intern, InternStatic};

// The texts of an interner, in order, and the bytes that its buckets take.
type State = (&'static [&'static str], usize);

// A call, what it has to return, and the interner's state after it.
type Row = (Call, Answer, State);

// An interner, and the memory that refuses a request of its calls.
#[derive(Drop)]
struct Tried<'m, K: Key, R: Host> {
    rt: &'m R,
    memory: &'m Memory,
    rodeo: Metered<'m, K>,
}

impl<'m, K: Key, R: Host> Tried<'m, K, R> {
    // The interner that was made. `None` if its maker ran out of memory.
    fn of(rt: &'m R, memory: &'m Memory, outcome: LassoResult<Metered<'m, K>>) -> Option<Self> {
        match outcome {
            Ok(rodeo) => Some(Tried { rt, memory, rodeo }),
            Err(refusal) => {
                is_out_of_memory(rt, memory, refusal.kind());
                None
            }
        }
    }

    // An interner whose list and index have no room, so that interning a text allocates in both.
    fn new(rt: &'m R, memory: &'m Memory, bytes: usize, limit: usize) -> Option<Self> {
        let (room, limits) = (Capacity::new(0, bytes), MemoryLimits::new(limit));
        Self::of(
            rt,
            memory,
            Rodeo::with_capacity_and_memory_limits(memory, room, limits),
        )
    }

    fn is_in(&self, state: State) {
        holds(self.rt, &self.rodeo, state.0, state.1);
    }

    fn called(&mut self, call: Call) -> Answer {
        match call {
            Intern(text) => told(self.rodeo.try_get_or_intern(text)),
            InternStatic(text) => told(self.rodeo.try_get_or_intern_static(text)),
        }
    }

    // Makes the call, again while a request of it is refused. Each refused call has to return
    // `FailedAllocation` and keep the interner's state, and the text is not there.
    fn gives(&mut self, kept: State, row: Row) {
        let text = match row.0 {
            Intern(text) | InternStatic(text) => text,
        };
        let mut found = self.called(row.0);
        for _refusal in 0..REFUSALS {
            if !self.memory.has_refused_anew() {
                break;
            }
            is_so(self.rt, found == Err(MEMORY), "a call out of memory");
            self.is_in(kept);
            let is_absent = !self.rodeo.contains(text);
            is_so(self.rt, is_absent, "the text of a refused call");
            found = self.called(row.0);
        }
        is_so(self.rt, found == row.1, "a call");
        self.is_in(row.2);
    }

    // Makes the call of each row, as `gives` does, on an interner in this state.
    fn gives_each(&mut self, state: State, rows: &[Row]) {
        let mut kept = state;
        for row in rows {
            self.gives(kept, *row);
            kept = row.2;
        }
    }
}

fn hello_twice<R: Host>(rt: &R, memory: &Memory) {
    static ROWS: [Row; 2] = [
        (Intern("Hello, world!"), Ok(0), (&["Hello, world!"], 4096)),
        (Intern("Hello, world!"), Ok(0), (&["Hello, world!"], 4096)),
    ];
    if let Some(mut tried) = Tried::<Spur, R>::of(rt, memory, Rodeo::default(memory)) {
        tried.gives_each((&[], 4096), &ROWS);
    }
}

// The long text gets a bucket of its own, of 9 bytes. The last text gets one of 8 bytes.
fn past_the_first_bucket<R: Host>(rt: &R, memory: &Memory) {
    static ROWS: [Row; 3] = [
        (Intern("qqqqqqqqq"), Ok(0), (&["qqqqqqqqq"], 13)),
        (Intern("wxyz"), Ok(1), (&["qqqqqqqqq", "wxyz"], 13)),
        (Intern("n"), Ok(2), (&["qqqqqqqqq", "wxyz", "n"], 21)),
    ];
    if let Some(mut tried) = Tried::<Spur, R>::new(rt, memory, 4, usize::MAX) {
        tried.gives_each((&[], 4), &ROWS);
    }
}

// A text without a key takes no bytes, so the limit never refuses it.
fn past_the_keys<R: Host>(rt: &R, memory: &Memory) {
    static ROWS: [Row; 6] = [
        (Intern("p"), Ok(0), (&["p"], 4)),
        (Intern("q"), Ok(1), (&["p", "q"], 4)),
        (Intern("r"), Err(KEYS), (&["p", "q"], 4)),
        (Intern("r"), Err(KEYS), (&["p", "q"], 4)),
        (Intern("r"), Err(KEYS), (&["p", "q"], 4)),
        (Intern("q"), Ok(1), (&["p", "q"], 4)),
    ];
    if let Some(mut tried) = Tried::<Gap<2>, R>::new(rt, memory, 4, 4) {
        tried.gives_each((&[], 4), &ROWS);
        let Tried {
            rodeo,
            rt,
            memory: _,
        } = tried;
        let reader = rodeo.into_reader();
        is_so(rt, reader.len() == 2, "the texts of a reader");
        let resolver = reader.into_resolver();
        is_so(rt, resolver.len() == 2, "the texts of a resolver");
    }
}

fn interns_texts<R: Host>(rt: &R, memory: &Memory) -> Result<(), Fail> {
    hello_twice(rt, memory);
    past_the_first_bucket(rt, memory);
    past_the_keys(rt, memory);
    Ok(())
}

#[test]
fn interned_texts(rt: HostRuntime) -> Result<(), Fail> {
    each_refused(&rt, interns_texts)
}

// Each maker of an empty interner, and copies of the interners.

const ONE: &[&str] = &["a"];

// Makes an interner by the maker of this number.
fn by_maker(memory: &Memory, maker: usize) -> LassoResult<Metered<'_, Spur>> {
    let (room, limits) = (Capacity::new(3, 10), MemoryLimits::new(20));
    let hasher = FixedState::new();
    match maker {
        0 => Rodeo::default(memory),
        1 => Rodeo::new(memory),
        2 => Rodeo::with_capacity(memory, room),
        3 => Rodeo::with_memory_limits(memory, limits),
        4 => Rodeo::with_capacity_and_memory_limits(memory, room, limits),
        5 => Rodeo::with_hasher(memory, hasher),
        6 => Rodeo::with_capacity_and_hasher(memory, room, hasher),
        _ => Rodeo::with_capacity_memory_limits_and_hasher(memory, room, limits, hasher),
    }
}

// The bytes that an interner by each maker takes.
static USAGES: [usize; 8] = [4096, 4096, 10, 4096, 10, 4096, 10, 10];

// The interner takes its bytes, and the copies of its only text, of one byte, take one byte.
fn each_maker<R: Host>(rt: &R, memory: &Memory) -> Result<(), Fail> {
    for (maker, usage) in USAGES.iter().enumerate() {
        if let Some(mut tried) = Tried::of(rt, memory, by_maker(memory, maker)) {
            tried.is_in((&[], *usage));
            tried.gives((&[], *usage), (Intern("a"), Ok(0), (ONE, *usage)));
            let mut copy = tried.cloned(Name::Plain, (ONE, *usage))?;
            let refusal = copy.copies(&tried, Name::Plain, 1);
            is_so(rt, refusal.is_none(), "a copy");
            copy.is_in((ONE, 1));
            tried.is_in((ONE, *usage));
        }
        is_so_at(rt, memory.bytes_out() == 0, maker);
    }
    Ok(())
}

#[test]
fn made_interners(rt: HostRuntime) -> Result<(), Fail> {
    each_refused(&rt, each_maker)
}

// Interners filled from items. If the room for the iterator's size hint is refused, the calls return the
// same as without a refusal.

// Why a call was refused, and the item after the refused one.
type Filled = (Option<LassoErrorKind>, Option<&'static str>);

// Extends the interner. Returns why that was refused, and the item after the refused one.
fn fill(rodeo: &mut Metered<'_, Spur>) -> Filled {
    let mut items = ["ab", "cd", "e", "f"].into_iter();
    let refusal = refusal_of(rodeo.extend(items.by_ref()));
    (refusal, items.next())
}

// "ab" and "cd" use up the limit of 4 bytes, in one bucket of 4 bytes or in two of 2. If one of them runs out
// of memory, the next item is the one after it, the items before it stay, and the items are added again.
fn extends_to_the_limit<R: Host>(rt: &R, memory: &Memory, bytes: usize) {
    let Some(mut tried) = Tried::<Spur, R>::new(rt, memory, bytes, 4) else {
        return;
    };
    let mut filled = fill(&mut tried.rodeo);
    for _refusal in 0..REFUSALS {
        if !memory.has_refused_anew() || filled.0 == Some(LIMIT) {
            break;
        }
        if filled == (Some(MEMORY), Some("cd")) {
            tried.is_in((&[], bytes));
        } else {
            is_so(rt, filled == (Some(MEMORY), Some("e")), "the second item");
            tried.is_in((&["ab"], bytes));
        }
        filled = fill(&mut tried.rodeo);
    }
    let holds = filled == (Some(LIMIT), Some("f"));
    is_so(rt, holds, "the item past the limit");
    tried.is_in((&["ab", "cd"], 4));
}

const STRINGS: [&str; 4] = ["one string", "two string", "red string", "blue string"];

fn fills_interners<R: Host>(rt: &R, memory: &Memory) -> Result<(), Fail> {
    extends_to_the_limit(rt, memory, 4);
    extends_to_the_limit(rt, memory, 2);
    if let Some(tried) = Tried::<Spur, R>::of(rt, memory, Rodeo::from_iter(memory, STRINGS)) {
        tried.is_in((&STRINGS, 4096));
    }
    Ok(())
}

#[test]
fn interners_filled_from_items(rt: HostRuntime) -> Result<(), Fail> {
    each_refused(&rt, fills_interners)
}
