//! Each maker of an interner that threads share, and what it shows after each text of a list that is interned in order.
use crate::refused::{Run, retried};
use lasso::{
    Capacity, FixedState, Key, LassoErrorKind, LassoResult, MemoryLimits, Spur, ThreadedRodeo,
};
use std::alloc::Global;
use std::test::Fail;
use test_steps::Host;
use test_steps::calls::{answered, number_of, numbered};

// The makers, by what they take.
#[derive(Clone, Copy)]
enum Maker {
    Default,
    New,
    Capacity,
    Limits,
    CapacityAndLimits,
    Hasher,
    CapacityAndHasher,
    All,
}

// Each maker, its name, and the bytes of the first bucket.
static MAKERS: [(Maker, &str, usize); 8] = [
    (Maker::Default, "default", 4096),
    (Maker::New, "new", 4096),
    (Maker::Capacity, "with_capacity", 4),
    (Maker::Limits, "with_memory_limits", 4096),
    (
        Maker::CapacityAndLimits,
        "with_capacity_and_memory_limits",
        4,
    ),
    (Maker::Hasher, "with_hasher", 4096),
    (Maker::CapacityAndHasher, "with_capacity_and_hasher", 4),
    (Maker::All, "with_capacity_memory_limits_and_hasher", 4),
];

// A text is interned in an empty interner whose first bucket has these bytes.
#[test]
fn a_text_is_interned_after_each_maker(rt: HostRuntime) -> Result<(), Fail> {
    let mut run = Run::new(&rt);
    for (maker, name, usage) in MAKERS.iter() {
        let interner: Result<Interner<Spur>, Fail> = retried!(run, *name, make(rt.alloc(), *maker));
        let after = State {
            texts: 1,
            usage: *usage,
        };
        let scenario = Scenario {
            bytes: *usage,
            limit: usize::MAX,
            way: Way::Copied,
            list: &["a"],
            steps: &[("a", Ok(0), after)],
        };
        let before = State {
            texts: 0,
            usage: *usage,
        };
        run.intern_steps(scenario, &interner?, before);
    }
    run.end()
}

const TWO: State = State {
    texts: 2,
    usage: 4096,
};

const THREE: State = State {
    texts: 3,
    usage: 4096,
};

static AFTER_WORDS: Scenario<'static> = Scenario {
    bytes: 4096,
    limit: usize::MAX,
    way: Way::Copied,
    list: &["if", "else", "a"],
    steps: &[("else", Ok(1), TWO), ("a", Ok(2), THREE)],
};

#[test]
fn two_words_take_no_bytes(rt: HostRuntime) -> Result<(), Fail> {
    let mut run = Run::new(&rt);
    let interner: Result<Interner<Spur>, Fail> = retried!(
        run,
        "from_static",
        ThreadedRodeo::from_static(rt.alloc(), &["if", "else"])
    );
    run.intern_steps(AFTER_WORDS, &interner?, TWO);
    run.end()
}

fn make(alloc: Global, maker: Maker) -> LassoResult<Interner<Spur>> {
    let capacity = Capacity::for_bytes(4);
    let limits = MemoryLimits::new(4);
    let hasher = FixedState::new();
    match maker {
        Maker::Default => ThreadedRodeo::default(alloc),
        Maker::New => ThreadedRodeo::new(alloc),
        Maker::Capacity => ThreadedRodeo::with_capacity(alloc, capacity),
        Maker::Limits => ThreadedRodeo::with_memory_limits(alloc, limits),
        Maker::CapacityAndLimits => {
            ThreadedRodeo::with_capacity_and_memory_limits(alloc, capacity, limits)
        }
        Maker::Hasher => ThreadedRodeo::with_hasher(alloc, hasher),
        Maker::CapacityAndHasher => {
            ThreadedRodeo::with_capacity_and_hasher(alloc, capacity, hasher)
        }
        Maker::All => ThreadedRodeo::with_capacity_memory_limits_and_hasher(
            alloc, capacity, limits, hasher,
        ),
    }
}

// Texts that are interned in order in an interner that threads share, and what it shows after each.

/// An interner that threads share, with the hasher of fixed seed.
pub type Interner<K> = ThreadedRodeo<K, FixedState>;

/// What an interner shows: how many texts of the scenario's list it has, and the bytes of its buckets.
#[derive(Clone, Copy)]
pub struct State {
    pub texts: usize,
    pub usage: usize,
}

/// The number of the key that an intern returns, or why it is refused.
pub type Reply = Result<usize, LassoErrorKind>;

/// A text, the reply when it is interned, and what the interner shows then.
pub type Step = (&'static str, Reply, State);

/// How a text is interned.
#[derive(Clone, Copy)]
pub enum Way {
    Copied,
    Static,
}

/// An interner, and the texts that are interned in it.
#[derive(Clone, Copy)]
pub struct Scenario<'a> {
    pub bytes: usize,
    pub limit: usize,
    pub way: Way,
    /// The texts that are present at the end, in order, and after them those that never are.
    pub list: &'a [&'static str],
    pub steps: &'a [Step],
}

impl<'a, R: Host> Run<'a, R> {
    /// An interner in which the texts were interned.
    pub fn build<K: Key>(&mut self, scenario: Scenario<'_>) -> Result<Interner<K>, Fail> {
        let alloc = self.rt.alloc();
        let capacity = Capacity::new(1, scenario.bytes.max(1));
        let limits = MemoryLimits::new(scenario.limit);
        let made: Result<Interner<K>, Fail> = retried!(
            self,
            "with_capacity_and_memory_limits",
            ThreadedRodeo::with_capacity_and_memory_limits(alloc, capacity, limits)
        );
        let interner = made?;
        let start = State {
            texts: 0,
            usage: scenario.bytes,
        };
        self.intern_steps(scenario, &interner, start);
        Ok(interner)
    }

    /// Interns the texts in an interner that shows `start`. If a call runs out of memory, the interner has to
    /// show the same as before, and the text is interned again.
    pub fn intern_steps<K: Key>(
        &mut self,
        scenario: Scenario<'_>,
        interner: &Interner<K>,
        start: State,
    ) {
        let mut before = start;
        for (text, wanted, after) in scenario.steps {
            let mut reply = scenario.way.intern(self.rt, interner, *text);
            if reply == Err(LassoErrorKind::FailedAllocation) {
                self.note(*text);
                self.is_so(shows(self.rt, interner, scenario.list, before), *text);
                reply = scenario.way.intern(self.rt, interner, *text);
            }
            self.is_so(reply == *wanted, *text);
            self.is_so(shows(self.rt, interner, scenario.list, *after), *text);
            before = *after;
        }
    }
}

impl Way {
    fn intern<K: Key>(self, rt: &impl Host, interner: &Interner<K>, text: &'static str) -> Reply {
        answered(numbered(match self {
            Way::Copied => interner.try_get_or_intern(rt, text),
            Way::Static => interner.try_get_or_intern_static(rt, text),
        }))
    }
}

/// Whether the interner has exactly the first `state.texts` texts of the list, each with the key of its
/// position, and its buckets take `state.usage` bytes.
pub fn shows<K: Key>(
    rt: &impl Host,
    interner: &Interner<K>,
    list: &[&'static str],
    state: State,
) -> bool {
    let mut all = interner.len() == state.texts
        && interner.strings().len() == state.texts
        && interner.current_memory_usage(rt) == state.usage;
    for (position, text) in list.iter().enumerate() {
        let number = position_of(rt, interner, *text);
        all &= number.is_some() == (position < state.texts);
        all &= number.is_none() || number == Some(position);
    }
    for (key, text) in interner.iter() {
        all &= list.get(key.into_usize()) == Some(&text);
    }
    all
}

/// The number of the text's key, if the text is present.
pub fn position_of<K: Key>(rt: &impl Host, interner: &Interner<K>, text: &str) -> Option<usize> {
    number_of(interner.get(rt, text))
}
