//! Runs of commands, with replies worked out by hand.
use crate::interners::{
    Host, LIMIT, MEMORY, Small, SpurReader, SpurResolver, holds, interner, is_so, is_so_at, key_at,
    number_of, of_texts,
};
use lasso_parts::hasher::TextState;
use lasso_parts::json::{JsonError, JsonKey, read_map, write_array, write_map};
use lasso_parts::keys::{Key, LargeSpur, MicroSpur, MiniSpur, Spur};
use lasso_parts::util::{Capacity, FixedState, LassoErrorKind, MemoryLimits};
use lasso_single::commands::{Command, Reply, run_commands};
use serde_json::Value;
use std::alloc::{Allocator, Global};
use std::fmt::Debug;
use std::test::Fail;

type Call<'a> = Command<'a, Spur, FixedState, Global>;

// A reply as worked out by hand.
#[derive(Clone, Copy)]
pub enum Wanted {
    Key(usize),
    Limit,
    Memory,
    Found(usize),
    Absent,
    Flag(bool),
    Text(&'static str),
    Number(usize),
    Done,
}

fn is_wanted(reply: &Reply<Spur>, wanted: Wanted) -> bool {
    match (reply, wanted) {
        (Reply::Key(key), Wanted::Key(number)) => key.into_usize() == number,
        (Reply::Refused(error), Wanted::Limit) => error.kind() == LIMIT,
        (Reply::Refused(error), Wanted::Memory) => error.kind() == MEMORY,
        (Reply::Found(key), Wanted::Found(number)) => number_of(*key) == Some(number),
        (Reply::Found(key), Wanted::Absent) => key.is_none(),
        (Reply::Flag(flag), Wanted::Flag(wanted)) => *flag == wanted,
        (Reply::Text(Some(text)), Wanted::Text(wanted)) => text.as_str() == wanted,
        (Reply::Number(number), Wanted::Number(wanted)) => *number == wanted,
        (Reply::Done, Wanted::Done) => true,
        _ => false,
    }
}

// Checks that there is one reply for each wanted one, and it is as wanted.
pub fn are_wanted(rt: &impl Host, replies: &[Reply<Spur>], wanted: &[Wanted]) {
    let holds = replies.len() == wanted.len();
    is_so(rt, holds, "one reply for each command");
    for (row, (reply, wanted)) in replies.iter().zip(wanted).enumerate() {
        is_so_at(rt, is_wanted(reply, *wanted), row);
    }
}

// Runs the commands, and checks the replies.
fn runs(
    rt: &impl Host,
    rodeo: &mut Small,
    commands: &[Call<'_>],
    wanted: &[Wanted],
) -> Result<(), Fail> {
    let replies = run_commands(rt.alloc(), rodeo, commands)?;
    are_wanted(rt, replies.as_slice(), wanted);
    Ok(())
}

// Under a limit of 4 bytes the second text does not fit after the first. After the clear it does.
pub fn past_the_limit<'a, A: Allocator + 'a>(first: Spur) -> [Command<'a, Spur, FixedState, A>; 7] {
    [
        Command::Intern("abcd"),
        Command::Intern("e"),
        Command::Clear,
        Command::Intern("e"),
        Command::TryResolve(first),
        Command::Len,
        Command::Usage,
    ]
}

pub static PAST_THE_LIMIT: [Wanted; 7] = [
    Wanted::Key(0),
    Wanted::Limit,
    Wanted::Done,
    Wanted::Key(0),
    Wanted::Text("e"),
    Wanted::Number(1),
    Wanted::Number(4),
];

#[test]
fn a_refusal_does_not_end_the_run(rt: HostRuntime) -> Result<(), Fail> {
    let mut rodeo = interner(rt.alloc(), 4, 4)?;
    let commands = past_the_limit(key_at(0)?);
    runs(&rt, &mut rodeo, commands.as_slice(), &PAST_THE_LIMIT)
}

fn each_command<'a>(source: &'a Small, second: Spur) -> [Call<'a>; 15] {
    [
        Command::SetLimit(MemoryLimits::new(20)),
        Command::MaxUsage,
        Command::Intern("abc"),
        Command::InternStatic("a static text"),
        Command::Get("a static text"),
        Command::Contains("defgh"),
        Command::ContainsKey(second),
        Command::TryResolve(second),
        Command::Len,
        Command::Intern("defgh"),
        Command::Usage,
        Command::Clear,
        Command::CloneFrom(source),
        Command::Extend(&["two", "three"]),
        Command::InternStatic("four"),
    ]
}

static OF_EACH_COMMAND: [Wanted; 15] = [
    Wanted::Done,
    Wanted::Number(20),
    Wanted::Key(0),
    Wanted::Key(1),
    Wanted::Found(1),
    Wanted::Flag(false),
    Wanted::Flag(true),
    Wanted::Text("a static text"),
    Wanted::Number(2),
    Wanted::Key(2),
    Wanted::Number(12),
    Wanted::Done,
    Wanted::Done,
    Wanted::Done,
    Wanted::Key(3),
];

// The first bucket has 4 bytes, and the limit is 20. "abc" leaves room for 1 byte, so "defgh" takes a second
// bucket, of 8 bytes, and the usage is 12. The clear keeps both buckets. The copy puts "one" into the first
// and "two" into the second, where "three" then fits exactly.
#[test]
fn each_command_in_one_run(rt: HostRuntime) -> Result<(), Fail> {
    let source = of_texts(rt.alloc(), &["one", "two"])?;
    let mut rodeo = interner(rt.alloc(), 4, usize::MAX)?;
    let commands = each_command(&source, key_at(1)?);
    runs(&rt, &mut rodeo, commands.as_slice(), &OF_EACH_COMMAND)?;
    holds(&rt, &rodeo, &["one", "two", "three", "four"], 12);
    is_so(&rt, rodeo.max_memory_usage() == 20, "the limit");
    Ok(())
}

static OF_COPIES_PAST_THE_LIMIT: [Wanted; 7] = [
    Wanted::Key(0),
    Wanted::Limit,
    Wanted::Number(0),
    Wanted::Limit,
    Wanted::Number(1),
    Wanted::Key(1),
    Wanted::Absent,
];

// The first bucket has 4 bytes, which are the limit. The copy stops at its second text and leaves none. The
// extend keeps "two" and stops at "three". A static text takes no bytes.
#[test]
fn each_command_past_the_limit(rt: HostRuntime) -> Result<(), Fail> {
    let source = of_texts(rt.alloc(), &["one", "two"])?;
    let mut rodeo = interner(rt.alloc(), 4, 4)?;
    let commands = [
        Command::Intern("abc"),
        Command::CloneFrom(&source),
        Command::Len,
        Command::Extend(&["two", "three", "a"]),
        Command::Len,
        Command::InternStatic("three"),
        Command::Get("a"),
    ];
    runs(&rt, &mut rodeo, &commands, &OF_COPIES_PAST_THE_LIMIT)
}

// Lists and keys as JSON, the printed errors of values that can't be read, and debug output of iterators. Values are
// read in scripts of `tool_replay`.

#[test]
fn written_texts(rt: HostRuntime) -> Result<(), Fail> {
    let value = write_array(rt.alloc(), &["b", "a"].as_slice(), 2)?;
    let text = value.to_string(rt.alloc())?;
    let holds = text.as_str() == r#"["b","a"]"#;
    is_so(&rt, holds, "an array of two texts");
    Ok(())
}

#[test]
fn written_objects(rt: HostRuntime) -> Result<(), Fail> {
    static ROWS: [(&[&str], &str); 5] = [
        (&[], "{}"),
        (&[""], r#"{"":1}"#),
        (&["b", "a"], r#"{"a":2,"b":1}"#),
        (&["b", "a", "c"], r#"{"a":2,"b":1,"c":3}"#),
        (
            &["abc", "defghijk", "x", "yz"],
            r#"{"abc":1,"defghijk":2,"x":3,"yz":4}"#,
        ),
    ];
    for (texts, wanted) in ROWS.iter() {
        let value = write_map(rt.alloc(), texts, texts.len())?;
        let holds = value.to_string(rt.alloc())?.as_str() == *wanted;
        is_so(&rt, holds, *wanted);
    }
    Ok(())
}

// An interner that threads share reads an array as a list, so no script can show this.
#[test]
fn arrays_are_no_objects(rt: HostRuntime) -> Result<(), Fail> {
    for text in ["[]", r#"["b", "a"]"#] {
        let value = Value::from_str(rt.alloc(), text)?;
        let fault = read_map::<Spur, Global>(rt.alloc(), &value).err();
        is_so(&rt, fault == Some(JsonError::NotAnObject), text);
    }
    Ok(())
}

// The number that key 0 of this type is written as.
fn first_written<K: JsonKey>(alloc: Global) -> Result<u64, Fail> {
    let key = K::try_from_usize(0).ok_or("no key")?;
    let value = key.key_to_json(alloc)?;
    Ok(value.as_u64().ok_or("no number")?)
}

#[test]
fn number_0_is_written_1(rt: HostRuntime) -> Result<(), Fail> {
    is_so(&rt, first_written::<Spur>(rt.alloc())? == 1, "32 bits");
    is_so(&rt, first_written::<MiniSpur>(rt.alloc())? == 1, "16 bits");
    is_so(&rt, first_written::<MicroSpur>(rt.alloc())? == 1, "8 bits");
    is_so(&rt, first_written::<LargeSpur>(rt.alloc())? == 1, "64 bits");
    Ok(())
}

static FAULTS: [(JsonError, &str); 9] = [
    (JsonError::NotAnArray, "The value is not an array"),
    (JsonError::NotText(0), "item 0 is not a text"),
    (
        JsonError::Doubled(2),
        "item 2 is the text of an earlier item",
    ),
    (
        JsonError::TooMany(255),
        "item 255 has a position without a key",
    ),
    (JsonError::NotAnObject, "The value is not an object"),
    (JsonError::NotAPosition(1), "item 1 is not a position"),
    (
        JsonError::Taken(10),
        "item 10 is the position of an earlier item",
    ),
    (
        JsonError::Lasso(LassoErrorKind::FailedAllocation),
        "Lasso encountered an error: Failed to allocate memory",
    ),
    (JsonError::NotAKey, "The value is not a key"),
];

#[test]
fn faults_print(rt: HostRuntime) -> Result<(), Fail> {
    for (fault, wanted) in &FAULTS {
        let printed = format!(in rt.alloc(); "{fault}")?;
        is_so(&rt, printed.as_str() == *wanted, *wanted);
    }
    let shown = format!(in rt.alloc(); "{:?}", JsonError::Doubled(2))?;
    is_so(&rt, shown.as_str() == "Doubled(2)", "a fault's debug text");
    Ok(())
}

// Debug output of the iterators of an interner.

static OF_WALKS: [&str; 3] = [
    r#"["red", "a\"b"] {Spur(1): "red", Spur(2): "a\"b"}"#,
    r#"["a\"b"] {Spur(2): "a\"b"}"#,
    "[] {}",
];

// The debug output of both iterators before the first text, after it and after the second.
#[test]
fn debug_text_of_walks(rt: HostRuntime) -> Result<(), Fail> {
    let rodeo = of_texts(rt.alloc(), &["red", "a\"b"])?;
    let (mut strings, mut walk) = (rodeo.strings(), rodeo.iter());
    for wanted in OF_WALKS.iter() {
        let printed = format!(in rt.alloc(); "{strings:?} {walk:?}")?;
        is_so(&rt, printed.as_str() == *wanted, *wanted);
        let _items = (strings.next(), walk.next());
    }
    Ok(())
}

// What `{:#?}` prints of an interner of two texts, between its name and its end.
const PARTS: &str = r#"{
    strings: [
        "red",
        "a\"b",
    ],
    arena: Arena {
        buckets: ... 1 bucket,
        bucket_capacity: 4096,
        memory_usage: 4096,
        max_memory_usage: 5000,
    },
"#;

// Whether `{:#?}` prints this of the value, with the end.
fn is_pretty<T: Debug>(alloc: Global, value: &T, name: &str, end: &str) -> Result<bool, Fail> {
    let printed = format!(in alloc; "{value:#?}")?;
    let wanted = format!(in alloc; "{name} {PARTS}{end}")?;
    Ok(printed.as_str() == wanted.as_str())
}

// A resolver has no more parts. What an interner and a reader leave out is the index and the hasher, with its seed.
#[test]
fn debug_text_on_lines_has_no_seed(rt: HostRuntime) -> Result<(), Fail> {
    let (alloc, limits) = (rt.alloc(), MemoryLimits::new(5000));
    let mut rodeo = Small::with_capacity_memory_limits_and_hasher(
        alloc,
        Capacity::default(),
        limits,
        TextState::with_seed(1_234_567, 7_654_321),
    )?;
    rodeo.extend(["red", "a\"b"])?;
    is_so(
        &rt,
        is_pretty(alloc, &rodeo, "Rodeo", "    ..\n}")?,
        "an interner",
    );
    let reader = rodeo.into_reader();
    is_so(
        &rt,
        is_pretty(alloc, &reader, "RodeoReader", "    ..\n}")?,
        "a reader",
    );
    let resolver = reader.into_resolver();
    is_so(
        &rt,
        is_pretty(alloc, &resolver, "RodeoResolver", "}")?,
        "a resolver",
    );
    Ok(())
}

// JSON arrays, the texts that are read from each, and how many bytes they have, or 4096 without texts.
static READ: [(&str, &str, usize); 2] = [
    ("[]", "[]", 4096),
    (r#"["red","blue"]"#, r#"["red", "blue"]"#, 7),
];

// A frozen form that is read has one bucket of just the bytes of its texts, and no limit.
#[test]
fn debug_text_of_frozen_forms_that_are_read(rt: HostRuntime) -> Result<(), Fail> {
    for (json, texts, bytes) in &READ {
        let value = Value::from_str(rt.alloc(), json)?;
        let parts = format!(in rt.alloc();
            "strings: {texts}, arena: Arena {{ buckets: ... 1 bucket, bucket_capacity: {bytes}, memory_usage: {bytes}, max_memory_usage: 18446744073709551615 }}"
        )?;
        let parts = parts.as_str();
        let reader = SpurReader::deserialize(rt.alloc(), &value)?;
        let wanted = format!(in rt.alloc(); "RodeoReader {{ {parts}, .. }}")?;
        let printed = format!(in rt.alloc(); "{reader:?}")?;
        is_so(&rt, printed.as_str() == wanted.as_str(), "a reader");
        let resolver = SpurResolver::deserialize(rt.alloc(), &value)?;
        let wanted = format!(in rt.alloc(); "RodeoResolver {{ {parts} }}")?;
        let printed = format!(in rt.alloc(); "{resolver:?}")?;
        is_so(&rt, printed.as_str() == wanted.as_str(), "a resolver");
    }
    Ok(())
}
