//! An interner for one thread: a run of commands, texts that are cloned and written, and items of an iterator
//! with a size hint.
use crate::refused::{Run, retried};
use lasso::{
    Capacity, Command, FixedState, JsonKey, Key, LassoErrorKind, MemoryLimits, Reply, Rodeo, Spur,
    SpurRodeo, run_commands,
};
use serde_json::Value;
use std::alloc::Global;
use std::iter::repeat_n;
use std::test::Fail;

// The reply that a command has to give.
#[derive(Clone, Copy)]
enum Wanted {
    Key(usize),
    Refused(LassoErrorKind),
    Text(&'static str),
    Number(usize),
    Done,
}

const LIMIT: Wanted = Wanted::Refused(LassoErrorKind::MemoryLimitReached);

const MEMORY: Wanted = Wanted::Refused(LassoErrorKind::FailedAllocation);

// The replies if no command runs out of memory; if the first does, so that the second text becomes the first
// one; and if the copy of the resolved text does.
static USUAL: [Wanted; 7] = [
    Wanted::Key(0),
    LIMIT,
    Wanted::Done,
    Wanted::Key(0),
    Wanted::Text("e"),
    Wanted::Number(1),
    Wanted::Number(4),
];

static WITHOUT_THE_FIRST: [Wanted; 7] = [
    MEMORY,
    Wanted::Key(0),
    Wanted::Done,
    Wanted::Key(0),
    Wanted::Text("e"),
    Wanted::Number(1),
    Wanted::Number(4),
];

static WITHOUT_THE_COPY: [Wanted; 7] = [
    Wanted::Key(0),
    LIMIT,
    Wanted::Done,
    Wanted::Key(0),
    MEMORY,
    Wanted::Number(1),
    Wanted::Number(4),
];

static STRINGS: [&str; 4] = ["one string", "two string", "red string", "blue string"];

const ARRAY: &str = r#"["one string","two string","red string","blue string"]"#;

// Twenty times the texts that an interner of default capacity has room for.
const ITEMS: usize = 1000;

// A run of commands in an interner of four bytes. If the room for the replies is refused, no command is run.
// Otherwise a command that runs out of memory gets that as its reply, and the run goes on.
#[test]
fn a_run_goes_on_after_a_refused_command(rt: HostRuntime) -> Result<(), Fail> {
    let mut run = Run::new(&rt);
    let (capacity, limits) = (Capacity::new(0, 4), MemoryLimits::new(4));
    let made: Result<SpurRodeo, Fail> = retried!(
        run,
        "with_capacity_and_memory_limits",
        Rodeo::with_capacity_and_memory_limits(rt.alloc(), capacity, limits)
    );
    let mut rodeo = made?;
    let first = Spur::try_from_usize(0).ok_or("no key 0")?;
    let commands = commands_on(first);
    let replies: Result<Vec<Reply<Spur>>, Fail> = retried!(
        run,
        "run_commands",
        run_commands(rt.alloc(), &mut rodeo, commands.as_slice()),
        rodeo.is_empty() && !rodeo.contains("abcd") && rodeo.current_memory_usage() == 4
    );
    let replies = replies?;
    if !are_replies(&replies, &USUAL) {
        let is_explained = are_replies(&replies, &WITHOUT_THE_FIRST)
            || are_replies(&replies, &WITHOUT_THE_COPY);
        run.is_so(is_explained, "the replies");
        run.note("a command of the run");
    }
    run.is_so(rodeo.len() == 1, "one text");
    run.is_so(rodeo.try_resolve(first) == Some("e"), "the text");
    run.is_so(rodeo.current_memory_usage() == 4, "the usage");
    run.end()
}

// The commands of the run. `first` is the key of number 0.
fn commands_on(first: Spur) -> [Command<'static, Spur, FixedState, Global>; 7] {
    [
        Command::Intern("abcd"),
        Command::Intern("e"),
        Command::Clear,
        Command::Intern("e"),
        Command::TryResolve(first),
        Command::Len,
        Command::Usage,
    ]
}

fn are_replies(replies: &[Reply<Spur>], wanted: &[Wanted]) -> bool {
    let mut all = replies.len() == wanted.len();
    for (reply, row) in replies.iter().zip(wanted) {
        all &= is_reply(reply, *row);
    }
    all
}

fn is_reply(reply: &Reply<Spur>, wanted: Wanted) -> bool {
    match (reply, wanted) {
        (Reply::Key(key), Wanted::Key(number)) => key.into_usize() == number,
        (Reply::Refused(error), Wanted::Refused(kind)) => error.kind() == kind,
        (Reply::Text(Some(text)), Wanted::Text(wanted)) => text.as_str() == wanted,
        (Reply::Number(number), Wanted::Number(wanted)) => *number == wanted,
        (Reply::Done, Wanted::Done) => true,
        _ => false,
    }
}

// The key of the first text is written as 1. That is never refused.
#[test]
fn a_clone_is_equal(rt: HostRuntime) -> Result<(), Fail> {
    let mut run = Run::new(&rt);
    let rodeo = run.single_of("from_iter", &STRINGS)?;
    let copy: Result<SpurRodeo, Fail> = retried!(run, "try_clone", rodeo.try_clone());
    run.is_so(rodeo == copy?, "the copy");
    let key = rodeo.get("one string").ok_or("no key")?;
    let number = key.key_to_json(rt.alloc())?.as_u64();
    run.is_so(number == Some(1), "the first key");
    run.end()
}

// Writes an interner, and then the forms to which that is frozen.
#[test]
fn each_form_is_written(rt: HostRuntime) -> Result<(), Fail> {
    let mut run = Run::new(&rt);
    let copy = run.single_of("from_iter", &STRINGS)?;
    let rodeo: Result<SpurRodeo, Fail> = retried!(run, "try_clone", copy.try_clone());
    let rodeo = rodeo?;
    let value: Result<Value, Fail> = retried!(
        run,
        "serialize of a Rodeo",
        rodeo.serialize(rt.alloc()),
        rodeo == copy
    );
    run.check_written(&value?, ARRAY)?;
    let reader = rodeo.into_reader();
    let value: Result<Value, Fail> = retried!(
        run,
        "serialize of a RodeoReader",
        reader.serialize(rt.alloc()),
        reader.eq_rodeo(&copy)
    );
    run.check_written(&value?, ARRAY)?;
    let resolver = reader.into_resolver();
    let value: Result<Value, Fail> = retried!(
        run,
        "serialize of a RodeoResolver",
        resolver.serialize(rt.alloc()),
        resolver.eq_rodeo(&copy)
    );
    run.check_written(&value?, ARRAY)?;
    run.end()
}

// An interner of 1000 equal items, with their number as the size hint. If that room is refused, the interner
// has less room, but the same text, alone, in its first bucket.
#[test]
fn room_for_items_is_refused(rt: HostRuntime) -> Result<(), Fail> {
    let mut run = Run::new(&rt);
    let made: Result<SpurRodeo, Fail> = retried!(
        run,
        "from_iter",
        Rodeo::from_iter(rt.alloc(), repeat_n("a", ITEMS))
    );
    let rodeo = made?;
    if rodeo.capacity() < ITEMS {
        run.note("the room for all items");
    }
    run.is_so(rodeo.get("a") == Spur::try_from_usize(0), "the item");
    run.is_so(rodeo.len() == 1, "one item");
    run.is_so(rodeo.current_memory_usage() == 4096, "the first bucket");
    run.end()
}
