//! Tests of calls that may run out of memory. If one does, the test checks that all is as it was before the
//! call, and makes the call again. All replies have to be those that were worked out by hand.
//! `trials/refused-tests` runs each test with its requests for memory refused in turn. If nothing is refused,
//! each call has to return its value at once.
mod makers;
mod shared;
mod single;

use crate::refused::makers::{Interner, Scenario, State, Way, shows};
use crate::steps::is_so;
use lasso::{
    FixedState, JsonError, LassoError, LassoErrorKind, Rodeo, Spur, SpurRodeo, ThreadedRodeo,
};
use serde_json::Value;
use std::alloc::{AllocError, Global};
use std::fmt::Debug;
use std::test::Fail;
use test_steps::Host;
use test_steps::calls::{Caller, numbered};

/// An error of a call that may run out of memory.
pub trait CallError {
    /// Whether the call ran out of memory.
    fn is_out_of_memory(&self) -> bool;
}

impl CallError for LassoError {
    fn is_out_of_memory(&self) -> bool {
        self.kind() == LassoErrorKind::FailedAllocation
    }
}

impl CallError for JsonError {
    fn is_out_of_memory(&self) -> bool {
        *self == JsonError::Lasso(LassoErrorKind::FailedAllocation)
    }
}

impl CallError for serde_json::Error {
    fn is_out_of_memory(&self) -> bool {
        self.is_memory()
    }
}

impl CallError for AllocError {
    fn is_out_of_memory(&self) -> bool {
        true
    }
}

/// A test, and which of its calls ran out of memory, if any. At most one does, as one request of a run is refused.
#[derive(Drop)]
pub struct Run<'a, R: Host> {
    pub rt: &'a R,
    refused: Option<&'static str>,
}

impl<'a, R: Host> Run<'a, R> {
    /// No call has run out of memory.
    pub fn new(rt: &'a R) -> Self {
        Run { rt, refused: None }
    }

    /// Ends the test if this does not hold.
    pub fn is_so(&self, holds: bool, what: &str) {
        is_so(self.rt, holds, what);
    }

    /// Notes that this call ran out of memory. It has to be the first one of the test.
    pub fn note(&mut self, call: &'static str) {
        self.is_so(self.refused.is_none(), call);
        self.refused = Some(call);
    }

    /// The value of a call. If there is none, the call has to have run out of memory, which is noted.
    pub fn value<T, E: CallError + Drop>(
        &mut self,
        call: &'static str,
        reply: Result<T, E>,
    ) -> Option<T> {
        match reply {
            Ok(value) => Some(value),
            Err(error) => {
                self.is_so(error.is_out_of_memory(), call);
                self.note(call);
                None
            }
        }
    }

    /// The value of a call that is made again, which has to succeed.
    pub fn second_value<T, E: Debug + Drop>(
        &self,
        call: &'static str,
        reply: Result<T, E>,
    ) -> Result<T, Fail> {
        self.is_so(reply.is_ok(), call);
        match reply {
            Ok(value) => Ok(value),
            Err(error) => Err(Fail::from(error)),
        }
    }

    /// Ends a test whose checks all hold. If a call ran out of memory, it returns an error that names the
    /// call.
    pub fn end(&self) -> Result<(), Fail> {
        match self.refused {
            Some(call) => Err(Fail::new(format_args!("out of memory at {call}"))),
            None => Ok(()),
        }
    }
}

/// The value of a call. If it runs out of memory, the condition has to hold, and the call is made again.
macro_rules! retried {
    ($run:expr, $name:expr, $call:expr, $unchanged:expr) => {{
        let name = $name;
        let first = $call;
        match $run.value(name, first) {
            Some(value) => Ok(value),
            None => {
                let is_unchanged = $unchanged;
                $run.is_so(is_unchanged, name);
                let second = $call;
                $run.second_value(name, second)
            }
        }
    }};
    ($run:expr, $name:expr, $call:expr) => {
        retried!($run, $name, $call, true)
    };
}

pub(crate) use retried;

impl<'a, R: Host> Run<'a, R> {
    /// An interner of these texts that threads share.
    pub fn threaded_of(&mut self, texts: &[&'static str]) -> Result<Interner<Spur>, Fail> {
        let rt = self.rt;
        retried!(
            self,
            "from_iter",
            ThreadedRodeo::from_iter(rt.alloc(), rt, texts.iter().copied())
        )
    }

    /// An interner of these texts for one thread. The call is told by this name.
    pub fn single_of(
        &mut self,
        name: &'static str,
        texts: &[&'static str],
    ) -> Result<SpurRodeo, Fail> {
        let alloc = self.rt.alloc();
        retried!(self, name, Rodeo::from_iter(alloc, texts.iter().copied()))
    }

    // The interner that the JSON text describes.
    fn read(&mut self, text: &str) -> Result<Interner<Spur>, Fail> {
        let alloc = self.rt.alloc();
        let value: Result<Value, Fail> = retried!(self, "from_str", Value::from_str(alloc, text));
        let value = value?;
        retried!(
            self,
            "deserialize",
            ThreadedRodeo::deserialize(alloc, &value)
        )
    }

    /// Writes the interner as this JSON text. If memory runs out, the interner has to show this state of the list.
    pub fn write(
        &mut self,
        interner: &Interner<Spur>,
        list: &[&'static str],
        state: State,
        wanted: &str,
    ) -> Result<(), Fail> {
        let rt = self.rt;
        let written = retried!(
            self,
            "serialize",
            interner.serialize(rt.alloc()),
            shows(rt, interner, list, state)
        );
        self.is_so(shows(rt, interner, list, state), "what was written");
        self.check_written(&written?, wanted)
    }

    /// Checks that this is the value's JSON text.
    pub fn check_written(&mut self, value: &Value, wanted: &str) -> Result<(), Fail> {
        let alloc = self.rt.alloc();
        let text: Result<String, Fail> = retried!(self, "to_string", value.to_string(alloc));
        self.is_so(text?.as_str() == wanted, wanted);
        Ok(())
    }
}

// Interners that threads share, read from JSON and written as JSON.

const FIRST_TWO: State = State { texts: 2, usage: 2 };

// The bucket of two bytes is full, so the new text takes one of four.
const THREE: State = State { texts: 3, usage: 6 };

// A third text in an interner that was read.
static ADDED: Scenario<'static> = Scenario {
    bytes: 2,
    limit: usize::MAX,
    way: Way::Copied,
    list: &["b", "a", "c"],
    steps: &[("c", Ok(2), THREE)],
};

// Reads an interner from the JSON, interns a new text, and writes the interner as an object.
#[test]
fn an_object_and_an_array_are_read(rt: HostRuntime) -> Result<(), Fail> {
    let mut run = Run::new(&rt);
    for text in [r#"{"a":2,"b":1}"#, r#"["b","a"]"#] {
        let interner = run.read(text)?;
        run.intern_steps(ADDED, &interner, FIRST_TWO);
        run.write(&interner, ADDED.list, THREE, r#"{"a":2,"b":1,"c":3}"#)?;
    }
    run.end()
}

// An interner of the empty text, which takes no bytes.
#[test]
fn the_empty_text_is_read(rt: HostRuntime) -> Result<(), Fail> {
    let mut run = Run::new(&rt);
    let interner = run.read(r#"{"":1}"#)?;
    let one = State {
        texts: 1,
        usage: 4096,
    };
    run.is_so(shows(&rt, &interner, &[""], one), "the empty text");
    run.end()
}

// A pass with hints. Out of memory it keeps none, and a refused text is not met.

static TEXTS: [&str; 3] = ["red", "green", "blue"];

// How often each text is looked up and interned again: the first time a hint is kept, and then it is asked.
const TIMES: u32 = 3;

type Hinted<'a, R> = Caller<'a, Spur, FixedState, R>;

// Whether the first `count` texts are present, and no other one, by the pass and by the interner.
fn has_first<R: Host>(caller: &mut Hinted<'_, R>, count: usize) -> bool {
    let state = State {
        texts: count,
        usage: 4096,
    };
    let mut all = shows(caller.rt, caller.shared, &TEXTS, state);
    for (position, text) in TEXTS.iter().enumerate() {
        let number = caller.found(*text);
        all &= number.is_some() == (position < count);
        all &= number.is_none() || number == Some(position);
    }
    all
}

// Interns three texts by a pass with hints, each again if memory runs out, and meets each again. A present text is never
// refused.
#[test]
fn a_pass_with_hints(rt: HostRuntime) -> Result<(), Fail> {
    let mut run = Run::new(&rt);
    let made: Result<Interner<Spur>, Fail> = retried!(run, "new", ThreadedRodeo::new(rt.alloc()));
    let interner = made?;
    let mut caller = Caller::hinted(&rt, &interner);
    if !caller.has_hints() {
        run.note("pass_with_hints");
    }
    for (number, text) in TEXTS.iter().enumerate() {
        let taken: Result<usize, Fail> = retried!(
            run,
            *text,
            numbered(caller.copied(*text)),
            has_first(&mut caller, number)
        );
        run.is_so(taken? == number, *text);
        for _ in 0..TIMES {
            run.is_so(caller.found(*text) == Some(number), *text);
            let again = run.second_value(*text, numbered(caller.copied(*text)))?;
            run.is_so(again == number, *text);
        }
    }
    run.is_so(has_first(&mut caller, 3), "three texts");
    run.end()
}
