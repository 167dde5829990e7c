//! An interner that threads share: interning texts, freezing, and filling from an iterator; whole lists of it: walked,
//! written, frozen, and compared with other forms.
use crate::refused::makers::{Interner, Reply, Scenario, State, Step, Way, position_of, shows};
use crate::refused::{Run, retried};
use lasso::{
    FixedState, Key, LassoErrorKind, MemoryLimits, RodeoReader, RodeoResolver, Spur, ThreadedRodeo,
};
use std::alloc::Global;
use std::test::Fail;
use test_common::keys::WithoutTwo;
use test_steps::Host;

const KEYS: Reply = Err(LassoErrorKind::KeySpaceExhaustion);

const LIMIT: Reply = Err(LassoErrorKind::MemoryLimitReached);

const GREETED: State = State {
    texts: 1,
    usage: 4096,
};

const GREETING: [Step; 2] = [
    ("Hello, world!", Ok(0), GREETED),
    ("Hello, world!", Ok(0), GREETED),
];

// Static texts take no bytes.
const STATIC: [Step; 3] = [
    ("abc", Ok(0), State { texts: 1, usage: 4 }),
    ("defghijk", Ok(1), State { texts: 2, usage: 4 }),
    ("abc", Ok(0), State { texts: 2, usage: 4 }),
];

// The second text takes a bucket of eight bytes, and the third the last byte of the first bucket.
const BUCKETS: [Step; 3] = [
    ("abc", Ok(0), State { texts: 1, usage: 4 }),
    (
        "defghijk",
        Ok(1),
        State {
            texts: 2,
            usage: 12,
        },
    ),
    (
        "x",
        Ok(2),
        State {
            texts: 3,
            usage: 12,
        },
    ),
];

// A text that has no key takes its bytes each time, until none are left.
const GAP: [Step; 6] = [
    ("p", Ok(0), State { texts: 1, usage: 4 }),
    ("q", Ok(1), State { texts: 2, usage: 4 }),
    ("r", KEYS, State { texts: 2, usage: 4 }),
    ("r", KEYS, State { texts: 2, usage: 4 }),
    ("r", LIMIT, State { texts: 2, usage: 4 }),
    ("q", Ok(1), State { texts: 2, usage: 4 }),
];

static STRINGS: [&str; 4] = ["one string", "two string", "red string", "blue string"];

const FOUR_STRINGS: State = State {
    texts: 4,
    usage: 4096,
};

static GREETED_TWICE: Scenario<'static> = Scenario {
    bytes: 4096,
    limit: usize::MAX,
    way: Way::Copied,
    list: &["Hello, world!"],
    steps: &GREETING,
};

static STATIC_TEXTS: Scenario<'static> = Scenario {
    bytes: 4,
    limit: 4,
    way: Way::Static,
    list: &["abc", "defghijk"],
    steps: &STATIC,
};

static TWO_BUCKETS: Scenario<'static> = Scenario {
    bytes: 4,
    limit: usize::MAX,
    way: Way::Copied,
    list: &["abc", "defghijk", "x"],
    steps: &BUCKETS,
};

static MISSING_KEY: Scenario<'static> = Scenario {
    bytes: 4,
    limit: 4,
    way: Way::Copied,
    list: &["p", "q", "r"],
    steps: &GAP,
};

#[test]
fn a_copied_text_is_interned_twice(rt: HostRuntime) -> Result<(), Fail> {
    let mut run = Run::new(&rt);
    run.build::<Spur>(GREETED_TWICE)?;
    run.end()
}

#[test]
fn static_texts_take_no_bytes(rt: HostRuntime) -> Result<(), Fail> {
    let mut run = Run::new(&rt);
    run.build::<Spur>(STATIC_TEXTS)?;
    run.end()
}

// Builds the scenario's interner, freezes it to each form, and checks that this has exactly the first `texts`
// texts, each with the key of its position. A call that runs out of memory drops the interner, so the retry freezes a
// new one.
fn freezes<K: Key>(rt: &impl Host, scenario: Scenario<'_>, texts: usize) -> Result<(), Fail> {
    let mut run = Run::new(rt);
    let reader: Result<RodeoReader<K, FixedState, Global>, Fail> = retried!(
        run,
        "into_reader",
        run.build::<K>(scenario)?.into_reader(rt)
    );
    let reader = reader?;
    let resolver: Result<RodeoResolver<K, Global>, Fail> = retried!(
        run,
        "into_resolver",
        run.build::<K>(scenario)?.into_resolver(rt)
    );
    let resolver = resolver?;
    for (position, text) in scenario.list.iter().enumerate() {
        let found = match reader.get(*text) {
            Some(key) => key.into_usize() == position && reader.try_resolve(key) == Some(*text),
            None => false,
        };
        run.is_so(found == (position < texts), "a text of the reader");
        let wanted = if position < texts { Some(*text) } else { None };
        let found = match K::try_from_usize(position) {
            Some(key) => resolver.try_resolve(key),
            None => None,
        };
        run.is_so(found == wanted, "a text of the resolver");
    }
    run.is_so(reader.len() == texts, "the reader");
    run.is_so(resolver.len() == texts, "the resolver");
    run.end()
}

#[test]
fn texts_in_two_buckets_are_frozen(rt: HostRuntime) -> Result<(), Fail> {
    freezes::<Spur>(&rt, TWO_BUCKETS, 3)
}

#[test]
fn texts_before_a_missing_key_are_frozen(rt: HostRuntime) -> Result<(), Fail> {
    freezes::<WithoutTwo>(&rt, MISSING_KEY, 2)
}

// A call that runs out of memory leaves no interner.
#[test]
fn an_interner_of_an_iterator(rt: HostRuntime) -> Result<(), Fail> {
    let mut run = Run::new(&rt);
    let made = run.threaded_of(&STRINGS)?;
    run.is_so(shows(&rt, &made, &STRINGS, FOUR_STRINGS), "four texts");
    run.end()
}

// Whether the interner has the first of the texts, and lacks the last.
fn has_first_strings(rt: &impl Host, interner: &Interner<Spur>) -> bool {
    let first = State {
        texts: interner.len(),
        usage: 4096,
    };
    first.texts < 4 && shows(rt, interner, &STRINGS, first)
}

// A call that runs out of memory leaves the texts before the refused one.
#[test]
fn an_interner_filled_by_an_iterator(rt: HostRuntime) -> Result<(), Fail> {
    let mut run = Run::new(&rt);
    let made: Result<Interner<Spur>, Fail> = retried!(run, "new", ThreadedRodeo::new(rt.alloc()));
    let filled = made?;
    let ended: Result<(), Fail> = retried!(
        run,
        "extend",
        filled.extend(&rt, STRINGS.iter().copied()),
        has_first_strings(&rt, &filled)
    );
    ended?;
    run.is_so(shows(&rt, &filled, &STRINGS, FOUR_STRINGS), "four texts");
    run.end()
}

// Whole lists.

// The texts as an object, each with its position plus one.
const OBJECT: &str = r#"{"abc":1,"defghijk":2,"x":3,"yz":4}"#;

const THREE: State = State {
    texts: 3,
    usage: 12,
};

// The limit is 12 bytes. The first two texts take buckets of 4 and 8 bytes, and leave one byte of the first.
// The third text takes that byte, and the limit refuses a bucket for the last text.
const UP_TO_LIMIT: [Step; 4] = [
    ("abc", Ok(0), State { texts: 1, usage: 4 }),
    (
        "defghijk",
        Ok(1),
        State {
            texts: 2,
            usage: 12,
        },
    ),
    ("x", Ok(2), THREE),
    ("yz", Err(LassoErrorKind::MemoryLimitReached), THREE),
];

// A limit of 14 bytes leaves 2 bytes for another bucket.
const FOUR: State = State {
    texts: 4,
    usage: 14,
};

static LIMITED: Scenario<'static> = Scenario {
    bytes: 4,
    limit: 12,
    way: Way::Copied,
    list: &["abc", "defghijk", "x", "yz"],
    steps: &UP_TO_LIMIT,
};

static RAISED: Scenario<'static> = Scenario {
    bytes: 4,
    limit: 14,
    way: Way::Copied,
    list: &["abc", "defghijk", "x", "yz"],
    steps: &[("yz", Ok(3), FOUR)],
};

impl<'a, R: Host> Run<'a, R> {
    // Checks that the last text and its key are both present, or both absent.
    fn check_last(&self, interner: &Interner<Spur>, is_present: bool) -> Result<(), Fail> {
        let fourth = Spur::try_from_usize(3).ok_or("no key 3")?;
        let has_text = interner.contains(self.rt, "yz");
        self.is_so(has_text == is_present, "the last text");
        let has_key = interner.contains_key(fourth);
        self.is_so(has_key == is_present, "the last key");
        self.is_so(!interner.is_empty(), "the first texts");
        Ok(())
    }

    // An interner of four texts. The last is interned after the limit is raised.
    fn four_texts(&mut self) -> Result<Interner<Spur>, Fail> {
        let interner = self.build::<Spur>(LIMITED)?;
        self.check_last(&interner, false)?;
        interner.set_memory_limits(self.rt, MemoryLimits::new(14));
        self.intern_steps(RAISED, &interner, THREE);
        Ok(interner)
    }
}

#[test]
fn four_texts_are_seen(rt: HostRuntime) -> Result<(), Fail> {
    let mut run = Run::new(&rt);
    let interner = run.four_texts()?;
    let holds = position_of(&rt, &interner, "yz") == Some(3);
    run.is_so(holds, "the last text");
    let (mut walk, mut strings) = (interner.iter(), interner.strings());
    for (position, wanted) in LIMITED.list.iter().enumerate() {
        let (key, text) = walk.next().ok_or("too few texts")?;
        let holds = key.into_usize() == position && text == *wanted;
        run.is_so(holds, "a key and text");
        run.is_so(strings.next() == Some(*wanted), "a text");
    }
    run.is_so(walk.next().is_none(), "the end of the keys and texts");
    run.is_so(strings.next().is_none(), "the end of the texts");
    run.check_last(&interner, true)?;
    run.is_so(interner.max_memory_usage(&rt) == 14, "the limit");
    run.end()
}

#[test]
fn four_texts_are_written(rt: HostRuntime) -> Result<(), Fail> {
    let mut run = Run::new(&rt);
    let interner = run.four_texts()?;
    run.write(&interner, LIMITED.list, FOUR, OBJECT)?;
    run.end()
}

// A call that runs out of memory drops the interner, so the retry freezes a new one.
#[test]
fn four_texts_are_frozen(rt: HostRuntime) -> Result<(), Fail> {
    let mut run = Run::new(&rt);
    let reader: Result<RodeoReader<Spur, FixedState, Global>, Fail> = retried!(
        run,
        "into_reader",
        run.four_texts()?.into_reader(&rt)
    );
    let reader = reader?;
    run.is_so(reader.len() == 4, "four texts");
    run.is_so(reader.get("yz") == Spur::try_from_usize(3), "the last text");
    run.end()
}

static ABC: [&str; 3] = ["a", "b", "c"];

const FIRST_TWO: State = State {
    texts: 2,
    usage: 4096,
};

const ALL_THREE: State = State {
    texts: 3,
    usage: 4096,
};

// An interner made of two texts, which is then filled with one of them and a new one. If memory runs out for the new
// text, the first two are present.
#[test]
fn three_texts_are_compared(rt: HostRuntime) -> Result<(), Fail> {
    let mut run = Run::new(&rt);
    let interner = run.threaded_of(&["a", "b"])?;
    let filled: Result<(), Fail> = retried!(
        run,
        "extend",
        interner.extend(&rt, ["b", "c"]),
        shows(&rt, &interner, &ABC, FIRST_TWO)
    );
    filled?;
    run.is_so(position_of(&rt, &interner, "c") == Some(2), "the last text");
    run.is_so(shows(&rt, &interner, &ABC, ALL_THREE), "three texts");
    for (list, is_equal) in [(ABC, true), (["a", "c", "b"], false)] {
        let other = run.threaded_of(&list)?;
        let found = interner.eq_threaded(&rt, &other);
        run.is_so(found == is_equal, "a ThreadedRodeo");
        let rodeo = run.single_of("from_iter of a Rodeo", &list)?;
        run.is_so(interner.eq_rodeo(&rt, &rodeo) == is_equal, "a Rodeo");
        let reader = rodeo.into_reader();
        let found = interner.eq_reader(&rt, &reader);
        run.is_so(found == is_equal, "a RodeoReader");
        let found = interner.eq_resolver(&rt, &reader.into_resolver());
        run.is_so(found == is_equal, "a RodeoResolver");
    }
    run.end()
}
