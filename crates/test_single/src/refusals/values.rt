//! Interners read from JSON, and written with the global allocator.
use crate::commands::{PAST_THE_LIMIT, Wanted, are_wanted, past_the_limit};
use crate::refusals::*;
use lasso_parts::json::{JsonError, JsonKey};
use lasso_single::commands::run_commands;
use lasso_single::reader::RodeoReader;
use lasso_single::resolver::RodeoResolver;
use serde_json::Value;

type Reader<'m> = RodeoReader<Spur, FixedState, &'m Memory>;

type Resolver<'m> = RodeoResolver<Spur, &'m Memory>;

const WANTING: JsonError = JsonError::Lasso(LassoErrorKind::FailedAllocation);

// How many texts a form reads, or its error.
type Read = Result<usize, JsonError>;

// What a form reads from the value. 0 is an interner, 1 a reader, and 2 a resolver.
fn read(memory: &Memory, value: &Value, form: usize) -> Read {
    match form {
        0 => Ok(Metered::<Spur>::deserialize(memory, value)?.len()),
        1 => Ok(Reader::deserialize(memory, value)?.len()),
        _ => Ok(Resolver::deserialize(memory, value)?.len()),
    }
}

// Checks that a form reads so from the value of the text. A call that runs out of memory leaves nothing
// allocated, and the same call made again returns what the first would have.
fn reads(
    rt: &impl Host,
    memory: &Memory,
    text: &str,
    form: usize,
    wanted: Read,
) -> Result<(), Fail> {
    let value = Value::from_str(rt.alloc(), text)?;
    let mut found = read(memory, &value, form);
    for _refusal in 0..REFUSALS {
        if !memory.has_refused_anew() {
            break;
        }
        is_so(rt, found == Err(WANTING), text);
        is_so(rt, memory.bytes_out() == 0, text);
        found = read(memory, &value, form);
    }
    is_so(rt, found == wanted, text);
    is_so(rt, memory.bytes_out() == 0, text);
    Ok(())
}

const DOUBLED: Read = Err(JsonError::Doubled(2));

const NO_TEXT: Read = Err(JsonError::NotText(1));

// What an interner, a reader and a resolver read from the text.
static FORMS: [(&str, [Read; 3]); 4] = [
    (r#"["a","b","a"]"#, [DOUBLED, DOUBLED, Ok(3)]),
    (r#"["a",1]"#, [NO_TEXT, NO_TEXT, NO_TEXT]),
    ("[]", [Ok(0), Ok(0), Ok(0)]),
    (r#"["a","bc"]"#, [Ok(2), Ok(2), Ok(2)]),
];

fn each_form(rt: &impl Host, memory: &Memory) -> Result<(), Fail> {
    for (text, wanted) in FORMS.iter() {
        for (form, wanted) in wanted.iter().enumerate() {
            reads(rt, memory, *text, form, *wanted)?;
        }
    }
    Ok(())
}

#[test]
fn values_that_are_read(rt: HostRuntime) -> Result<(), Fail> {
    each_refused(&rt, each_form)
}

// The value that was read. `None` if the call ran out of memory.
fn was_read<T>(rt: &impl Host, memory: &Memory, outcome: Result<T, JsonError>) -> Option<T> {
    match outcome {
        Ok(made) => Some(made),
        Err(fault) => {
            is_so(rt, memory.has_refused_anew(), "a refused request");
            is_so(rt, fault == WANTING, "why nothing was read");
            None
        }
    }
}

// Reads an interner from the value of the JSON text, and checks its state.
fn reads_interner(rt: &impl Host, memory: &Memory, text: &str, state: State) -> Result<(), Fail> {
    let value = Value::from_str(rt.alloc(), text)?;
    if let Some(rodeo) = was_read(rt, memory, Metered::<Spur>::deserialize(memory, &value)) {
        holds(rt, &rodeo, state.0, state.1);
    }
    Ok(())
}

// Two texts of three bytes get a bucket of three bytes. Without texts the bucket has the usual 4096.
fn reads_texts(rt: &impl Host, memory: &Memory) -> Result<(), Fail> {
    let value = Value::from_str(rt.alloc(), r#"["a","b","a"]"#)?;
    if let Some(resolver) = was_read(rt, memory, Resolver::deserialize(memory, &value)) {
        let mut walk = resolver.strings();
        for text in ["a", "b", "a"] {
            is_so(rt, walk.next() == Some(text), text);
        }
        is_so(rt, walk.next().is_none(), "the end");
    }
    reads_interner(rt, memory, r#"["a","bc"]"#, (&["a", "bc"], 3))?;
    reads_interner(rt, memory, "[]", (&[], 4096))
}

#[test]
fn what_was_read(rt: HostRuntime) -> Result<(), Fail> {
    each_refused(&rt, reads_texts)
}

// The value of the interner, written again if the first call runs out of memory.
fn value_of(rt: &impl Host, rodeo: &Metered<'_, Spur>) -> Result<Value, Fail> {
    match rodeo.serialize(rt.alloc()) {
        Ok(value) => Ok(value),
        Err(fault) => {
            is_so(rt, fault == WANTING, "why nothing was written");
            holds(rt, rodeo, &["b", "a"], 4096);
            Ok(rodeo.serialize(rt.alloc())?)
        }
    }
}

// If writing runs out of memory (`rt try --test --fail-alloc N`), the interner is unchanged, and the same
// call made again writes the value. The key of "b" is 1 in JSON, and still stands for the text.
#[test]
fn what_is_written_changes_nothing(rt: HostRuntime) -> Result<(), Fail> {
    let memory = Refusing::new(rt.alloc(), 0);
    let rodeo = Metered::<Spur>::from_iter(&memory, ["b", "a"])?;
    let text = value_of(&rt, &rodeo)?.to_string(rt.alloc())?;
    is_so(&rt, text.as_str() == r#"["b","a"]"#, "the value");
    holds(&rt, &rodeo, &["b", "a"], 4096);
    let first = rodeo.get("b").ok_or("no key")?;
    let number = first.key_to_json(rt.alloc())?.as_u64();
    is_so(&rt, number == Some(1), "the first key");
    is_so(&rt, rodeo.try_resolve(first) == Some("b"), "its text");
    Ok(())
}

// Runs of commands, interners made from static keywords, and lists of texts interned by one call. A command that runs
// out of memory gets that as its reply, and the run goes on.

// The replies if the first command runs out of memory, so that the second text becomes the first one. No other
// command asks this memory: the limit refuses the second one first, and the clear keeps the room that the first one
// made.
static WITHOUT_THE_FIRST: [Wanted; 7] = [
    Wanted::Memory,
    Wanted::Key(0),
    Wanted::Done,
    Wanted::Key(0),
    Wanted::Text("e"),
    Wanted::Number(1),
    Wanted::Number(4),
];

// The replies and the copy of the text use the global allocator, so `memory` refuses none of their requests.
fn small_run<R: Host>(rt: &R, memory: &Memory) -> Result<(), Fail> {
    if let Some(mut tried) = Tried::<Spur, R>::new(rt, memory, 4, 4) {
        let commands = past_the_limit(Spur::default());
        let replies = run_commands(rt.alloc(), &mut tried.rodeo, commands.as_slice())?;
        let wanted = if memory.has_refused_anew() {
            &WITHOUT_THE_FIRST
        } else {
            &PAST_THE_LIMIT
        };
        are_wanted(rt, replies.as_slice(), wanted);
        tried.is_in((&["e"], 4));
    }
    Ok(())
}

#[test]
fn runs_of_commands(rt: HostRuntime) -> Result<(), Fail> {
    each_refused(&rt, small_run)
}

// Interners made from static keywords, and lists of texts interned by one call.

const LONG: &str = "a keyword of more bytes than an entry has";

const WORDS: [&str; 3] = ["if", "else", LONG];

const WITH_WIDTH: [&str; 4] = ["if", "else", LONG, "width"];

// A present keyword keeps its key, and a new text gets the key after the keywords.
fn opened_with_keywords<R: Host>(rt: &R, memory: &Memory) {
    static ROWS: [Row; 2] = [
        (Intern("else"), Ok(1), (&WORDS, 4096)),
        (Intern("width"), Ok(3), (&WITH_WIDTH, 4096)),
    ];
    match Tried::<Spur, R>::of(rt, memory, Rodeo::from_static(memory, &WORDS)) {
        Some(mut tried) => {
            tried.is_in((&WORDS, 4096));
            tried.gives_each((&WORDS, 4096), &ROWS);
        }
        None => is_so(rt, memory.bytes_out() == 0, "the bytes that are out"),
    }
}

static LIST: [&str; 4] = ["ab", "cd", "ab", "e"];

type Keys<'m> = Vec<Spur, &'m Memory>;

impl<'m, R: Host> Tried<'m, Spur, R> {
    // Interns the list from the text after the last key on, again while a request is refused, until the limit
    // refuses "e".
    fn lists(&mut self, keys: &mut Keys<'m>) {
        for _refusal in 0..REFUSALS {
            let rest = LIST.get(keys.len()..).unwrap_or(&[]);
            let refusal = refusal_of(self.rodeo.try_get_or_intern_all(rest, keys));
            if !self.memory.has_refused_anew() {
                is_so(self.rt, refusal == Some(LIMIT), "the text past the limit");
                break;
            }
            is_so(self.rt, refusal == Some(MEMORY), "a text out of memory");
            let has_keys = self.rodeo.len() <= keys.len();
            is_so(self.rt, has_keys, "the texts without a key");
        }
    }

    // Looks for the list's keys, again while a request is refused. A refused call adds none. "ab", "cd", "ab" have
    // the keys of these numbers, and "e" has none.
    fn finds_keys(&self) {
        let mut keys: Vec<Option<Spur>, &Memory> = Vec::new(self.memory);
        for _call in 0..REFUSALS.saturating_add(1) {
            let refusal = refusal_of(self.rodeo.get_all(&LIST, &mut keys));
            if !self.memory.has_refused_anew() {
                is_so(self.rt, refusal.is_none(), "the keys of a list");
                break;
            }
            is_so(self.rt, refusal == Some(MEMORY), "keys out of memory");
            is_so(self.rt, keys.is_empty(), "the keys of a refused call");
        }
        is_so(self.rt, keys.len() == LIST.len(), "the number of keys");
        for (key, number) in keys.iter().zip([Some(0), Some(1), Some(0), None]) {
            is_so(self.rt, number_of(*key) == number, "the keys");
        }
    }

    // Looks for the texts of the list's keys in the same way.
    fn finds_texts(&self, keys: &[Spur]) {
        let mut texts: Vec<&str, &Memory> = Vec::new(self.memory);
        is_so(self.rt, self.rodeo.contains_keys(keys), "the texts' keys");
        for _call in 0..REFUSALS.saturating_add(1) {
            let refusal = refusal_of(self.rodeo.resolve_all(keys, &mut texts));
            if !self.memory.has_refused_anew() {
                is_so(self.rt, refusal.is_none(), "the texts of a list");
                break;
            }
            is_so(self.rt, refusal == Some(MEMORY), "texts out of memory");
            is_so(self.rt, texts.is_empty(), "the texts of a refused call");
        }
        let holds = texts.as_slice() == ["ab", "cd", "ab"].as_slice();
        is_so(self.rt, holds, "the texts");
    }
}

// "ab" and "cd" use up the limit of 4 bytes. The list of keys allocates too, and that may be refused as well.
fn listed<R: Host>(rt: &R, memory: &Memory) {
    if let Some(mut tried) = Tried::<Spur, R>::new(rt, memory, 2, 4) {
        let mut keys: Keys<'_> = Vec::new(memory);
        tried.lists(&mut keys);
        tried.finds_keys();
        tried.finds_texts(keys.as_slice());
        let more = ["ab", "cd", "e"];
        let refusal = refusal_of(tried.rodeo.try_get_or_intern_all(&more, &mut keys));
        let wanted = if memory.has_refused_anew() {
            MEMORY
        } else {
            LIMIT
        };
        is_so(rt, refusal == Some(wanted), "the last list");
    }
}

fn interns_keywords_and_lists<R: Host>(rt: &R, memory: &Memory) -> Result<(), Fail> {
    opened_with_keywords(rt, memory);
    listed(rt, memory);
    Ok(())
}

#[test]
fn keywords_and_lists(rt: HostRuntime) -> Result<(), Fail> {
    each_refused(&rt, interns_keywords_and_lists)
}
