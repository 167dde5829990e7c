//! Walks, JSON, debug output and frozen forms of texts of many lengths, ASCII and not, with two key types and two
//! hashers.
use crate::checks::{Look, Origin, Shown, freezes_as, is_so, make_from, shows_as, shows_in};
use Look::{Does, Prints, Shows, UsesBytesOf, Writes};
use Step::{Interns, IsLimited, Uses};
use lasso_parts::hasher::TextState;
use lasso_parts::json::JsonError;
use lasso_parts::keys::{Key, LargeSpur, Spur};
use lasso_parts::util::{FixedState, LassoResult};
use lasso_shared::threaded::{Iter, Strings, ThreadedRodeo};
use serde_json::Value;
use std::alloc::{AllocError, Global};
use std::fmt::Debug;
use std::hash::BuildHasher;
use std::test::*;
use test_common::hashers::SameState;
use test_steps::Host;
use test_steps::calls::Shared;
use test_steps::cases::{Case, Maker, PLAIN, SIZE, paired};
use test_steps::steps::{Step, Way};
use test_steps::texts::List::Texts;
use test_steps::texts::{LENGTHS, lasting};

// A copied text and a static one. The bucket is the bytes of the copied text, and the limit is one byte more: a call
// that interned a text of one byte would change the usage and the texts.
static MADE: [Look; 1] = [Does(&[
    Interns(Way::TryCopied, "@", Ok(0)),
    Interns(Way::TryStatic, "%", Ok(1)),
])];

static SHOWN: [Look; 3] = [
    Shows(Texts(&["@", "%"])),
    Writes(Texts(&["@", "%"])),
    Does(&[IsLimited(SIZE + 1), Uses(SIZE)]),
];

// What is read from JSON of the texts has one bucket of their size, and no limit.
static READ: [Look; 3] = [
    Shows(Texts(&["@", "%"])),
    UsesBytesOf(Texts(&["@", "%"])),
    Does(&[IsLimited(usize::MAX)]),
];

// Two texts, in the order of their bytes. The size is that of the first.
fn case_of(alloc: Global, letters: (&str, &str), length: usize) -> LassoResult<Case> {
    let first = lasting(alloc, letters.0, length)?;
    let mut case = paired(Way::Given, (first, lasting(alloc, letters.1, length)?));
    case.size = Some(first.len());
    Ok(case)
}

// The rows have to be right for the two texts, and the frozen forms and JSON to have just these.
fn shows<K: Key, S: BuildHasher + Default + Drop>(rt: &impl Host, case: Case) -> Result<(), Fail> {
    let (origin, list) = (
        Origin::Made(Maker::Sized(50, SIZE, SIZE + 1)),
        Texts(&["@", "%"]),
    );
    let shared: ThreadedRodeo<K, S> = make_from(rt, origin, case)?;
    shows_in(rt, &shared, &MADE, case)?;
    shows_in(rt, &shared, &SHOWN, case)?;
    freezes_as::<K, S>(rt, origin, &MADE, (list, "absent"), case)?;
    shows_as::<K, S>(rt, Origin::Object(list), &READ, case)?;
    shows_as::<K, S>(rt, Origin::Array(list), &READ, case)
}

// The first characters of the texts have 1 byte each, or 2 and 4.
#[test]
fn texts_of_each_length_are_shown(rt: HostRuntime) -> Result<(), Fail> {
    for length in LENGTHS.iter() {
        let ascii = case_of(rt.alloc(), ("a", "b"), *length)?;
        shows::<Spur, FixedState>(&rt, ascii)?;
        let other = case_of(rt.alloc(), ("é", "😀"), *length)?;
        shows::<LargeSpur, SameState>(&rt, other)?;
    }
    Ok(())
}

// Whether walks over an interner that threads share yield a list of texts.

// Whether the walk yields exactly these texts with their numbers, in order.
fn yields<K: Key>(mut walk: Iter<'_, K>, texts: &[&str]) -> bool {
    let mut all = walk.len() == texts.len();
    for position in 0..texts.len() {
        match walk.next() {
            Some((key, text)) => all &= key.into_usize() == position && text == texts[position],
            None => return false,
        }
    }
    all && walk.len() == 0 && walk.next().is_none()
}

// Whether the walk yields exactly these texts, in order.
fn yields_texts<K: Key>(mut strings: Strings<'_, K>, texts: &[&str]) -> bool {
    let mut all = strings.len() == texts.len();
    for position in 0..texts.len() {
        all &= strings.next() == Some(texts[position]);
    }
    all && strings.len() == 0 && strings.next().is_none()
}

impl<'a, K: Key, S: BuildHasher + Default + Drop, R: Host> Shown<'a, K, S, R> {
    /// Whether walks yield exactly these texts, without a pass and with one.
    pub(super) fn are_walked(&self, texts: &[&str]) -> bool {
        let mut pass = self.shared.pass();
        yields(self.shared.iter(), texts)
            && yields_texts(self.shared.strings(), texts)
            && yields(self.shared.iter_as(&mut pass), texts)
            && yields_texts(self.shared.strings_as(&mut pass), texts)
    }

    /// Whether the interner is written as this JSON text, without a pass and with one.
    pub(super) fn is_written_as(&self, json: &str) -> bool {
        let alloc = self.rt.alloc();
        let mut pass = self.shared.pass();
        is_value(alloc, self.shared.serialize_as(alloc, &mut pass), json)
            && is_value(alloc, self.shared.serialize(alloc), json)
    }

    /// Whether this is the debug text of the interner.
    pub(super) fn prints(&self, wanted: &str) -> bool {
        prints(self.rt.alloc(), self.shared, wanted)
    }

    /// Whether the interner is written and printed as these texts.
    pub(super) fn writes(&self, texts: &[&str]) -> LassoResult<bool> {
        let alloc = self.rt.alloc();
        let is_written = self.is_written_as(object_of(alloc, texts)?.as_str());
        Ok(self.prints(debug_of(alloc, texts)?.as_str()) && is_written)
    }
}

// Whether an interner that threads share is written as a list of texts: as JSON, and as debug text.

// The texts in quotation marks, with the separator between them, each with its position plus one after it, if that is
// to be written, and others before and after all. The texts may need no escape.
fn joined(
    alloc: Global,
    texts: &[&str],
    around: (&str, &str, &str),
    has_numbers: bool,
) -> Result<String, AllocError> {
    let (before, separator, after) = around;
    let mut list = String::from_str(alloc, before)?;
    for (position, text) in texts.iter().enumerate() {
        let number = position.saturating_add(1);
        let separator = if position > 0 { separator } else { "" };
        let member = if has_numbers {
            format!(in alloc; "{separator}\"{text}\":{number}")?
        } else {
            format!(in alloc; "{separator}\"{text}\"")?
        };
        list.push_str(member.as_str())?;
    }
    list.push_str(after)?;
    Ok(list)
}

/// The JSON object of the texts, each with its position plus one. The texts must be in the order of their
/// bytes, and none may need an escape.
pub(super) fn object_of(alloc: Global, texts: &[&str]) -> Result<String, AllocError> {
    joined(alloc, texts, ("{", ",", "}"), true)
}

/// The JSON array of the texts. None may need an escape.
pub(super) fn array_of(alloc: Global, texts: &[&str]) -> Result<String, AllocError> {
    joined(alloc, texts, ("[", ",", "]"), false)
}

// The debug text of an interner of these texts. None may need an escape.
fn debug_of(alloc: Global, texts: &[&str]) -> Result<String, AllocError> {
    joined(
        alloc,
        texts,
        ("ThreadedRodeo { strings: [", ", ", "], .. }"),
        false,
    )
}

// Whether the value was written, and is this JSON text.
fn is_value(alloc: Global, written: Result<Value, JsonError>, json: &str) -> bool {
    match written {
        Ok(value) => match value.to_string(alloc) {
            Ok(text) => text.as_str() == json,
            Err(_) => false,
        },
        Err(_) => false,
    }
}

// Whether this is the debug text of the value.
fn prints<T: Debug>(alloc: Global, value: &T, wanted: &str) -> bool {
    match format!(in alloc; "{value:?}") {
        Ok(printed) => printed.as_str() == wanted,
        Err(_) => false,
    }
}

// Debug output of an interner that threads share, and of its iterators.

// The debug text of both walks of the interner of two texts has to be right after one text, and after both.
fn print_walks(rt: &impl Host, shared: &Shared) {
    static ROWS: [(&str, &str); 2] = [
        (r#"["a\"b"]"#, r#"Iter { strings: ["a\"b"], .. }"#),
        ("[]", "Iter { strings: [], .. }"),
    ];
    let (mut strings, mut walk) = (shared.strings(), shared.iter());
    for (of_strings, of_walk) in ROWS.iter() {
        let has_both = strings.next().is_some() && walk.next().is_some();
        is_so(rt, has_both, "a next text");
        is_so(rt, prints(rt.alloc(), &strings, *of_strings), *of_strings);
        is_so(rt, prints(rt.alloc(), &walk, *of_walk), *of_walk);
    }
}

// What `{:#?}` prints of the interner. Nothing of its hasher's seed is in it.
const ON_LINES: &str = r#"ThreadedRodeo {
    strings: [
        "red",
        "a\"b",
    ],
    ..
}"#;

#[test]
fn debug_text_of_texts(rt: HostRuntime) -> Result<(), Fail> {
    static LOOKS: [Look; 3] = [
        Prints("ThreadedRodeo { strings: [], .. }"),
        Does(&[
            Interns(Way::TryCopied, "red", Ok(0)),
            Interns(Way::TryStatic, "a\"b", Ok(1)),
        ]),
        Prints(r#"ThreadedRodeo { strings: ["red", "a\"b"], .. }"#),
    ];
    let hasher = TextState::with_seed(1_234_567, 7_654_321);
    let shared = ThreadedRodeo::with_hasher(rt.alloc(), hasher)?;
    shows_in(&rt, &shared, &LOOKS, PLAIN)?;
    print_walks(&rt, &shared);
    let printed = format!(in rt.alloc(); "{shared:#?}")?;
    is_so(&rt, printed.as_str() == ON_LINES, "on lines");
    Ok(())
}
