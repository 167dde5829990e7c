//! Replays a script on a `Rodeo`, and after `freeze` on its frozen forms, or on a `ThreadedRodeo` by one thread.
use crate::frozen::{compare_rodeo, replay_reader, take_walk};
use crate::lines::{Call, Change, Look, Question, RodeoCommand, Way};
use crate::replies::{
    write_debug, write_flag, write_found, write_interned, write_json_error, write_no_call,
    write_number, write_outcome, write_pairs, write_resolved, write_saved, write_text,
};
use lasso::{FixedState, Key, LassoResult, MemoryLimits, Resolver, Rodeo, ThreadedRodeo};
use lasso_single::keyword_lists::are_distinct;
use serde_json::Value;
use std::alloc::{AllocError, Global};
use std::hash::BuildHasher;
use std::io;
use std::io::Write;
use std::mem::replace;
use std::sync::Wait;

/// An interner of a script.
pub type Interner<K, S> = Rodeo<K, S, Global>;

/// The commands before the first `freeze`, and those after it, if there is one.
pub fn split_at_freeze(commands: &[RodeoCommand]) -> (&[RodeoCommand], Option<&[RodeoCommand]>) {
    for at in 0..commands.len() {
        if matches!(commands[at], RodeoCommand::Freeze) {
            return (&commands[..at], Some(&commands[at + 1..]));
        }
    }
    (commands, None)
}

/// Runs the commands, and writes their replies.
pub fn replay_rodeo<K: Key, S: BuildHasher + Clone + Default + Drop, W: Write>(
    alloc: Global,
    mut rodeo: Interner<K, S>,
    commands: &[RodeoCommand],
    out: &mut W,
) -> io::Result<()> {
    let (before, after) = split_at_freeze(commands);
    let mut other = None;
    for command in before {
        replay_command(alloc, &mut rodeo, &mut other, command, out)?;
    }
    match after {
        Some(after) => replay_reader(alloc, rodeo.into_reader(), after, out),
        None => Ok(()),
    }
}

// Runs one command, and writes its reply.
fn replay_command<K: Key, S: BuildHasher + Clone + Default + Drop, W: Write>(
    alloc: Global,
    rodeo: &mut Interner<K, S>,
    other: &mut Option<Interner<K, S>>,
    command: &RodeoCommand,
    out: &mut W,
) -> io::Result<()> {
    match command {
        RodeoCommand::Call(call) => replay_call(rodeo, call, out),
        RodeoCommand::Intern(way) => write_interned(out, intern_by(rodeo, way)),
        RodeoCommand::Clear => {
            rodeo.clear();
            write_outcome(out, Ok(()))
        }
        RodeoCommand::Change(change) => write_outcome(out, changed(alloc, rodeo, other, change)),
        RodeoCommand::Load(value) => load(alloc, rodeo, value, out),
        RodeoCommand::Room(strings) => write_flag(out, rodeo.capacity() >= *strings),
        RodeoCommand::Look(look) => look_at(alloc, rodeo, look, out),
        RodeoCommand::Freeze => write_no_call(out),
    }
}

// Makes one call, and writes its reply.
fn replay_call<K: Key, S: BuildHasher, W: Write>(
    rodeo: &mut Interner<K, S>,
    call: &Call,
    out: &mut W,
) -> io::Result<()> {
    match call {
        Call::Ask(question) => answer(rodeo, question, out),
        Call::Intern(text) => write_interned(out, rodeo.try_get_or_intern(text.as_str())),
        Call::Limit(bytes) => {
            rodeo.set_memory_limits(MemoryLimits::new(*bytes));
            write_outcome(out, Ok(()))
        }
        Call::Extend(texts) => write_outcome(out, intern_all(rodeo, texts)),
    }
}

// Writes the reply to a question.
fn answer<K: Key, S: BuildHasher, W: Write>(
    rodeo: &Interner<K, S>,
    question: &Question,
    out: &mut W,
) -> io::Result<()> {
    match question {
        Question::Get(text) => write_found(out, rodeo.get(text.as_str())),
        Question::Contains(text) => write_flag(out, rodeo.contains(text.as_str())),
        Question::Usage => write_number(out, rodeo.current_memory_usage()),
        Question::Max => write_number(out, rodeo.max_memory_usage()),
        _ => ask_of_keys(rodeo, question, out),
    }
}

/// Writes the reply to a question that each form of an interner has, about a key or how many texts there are.
pub fn ask_of_keys<K: Key, T: Resolver<K>, W: Write>(
    texts: &T,
    question: &Question,
    out: &mut W,
) -> io::Result<()> {
    match question {
        Question::Has(number) => write_flag(out, has_key(texts, *number)),
        Question::Resolve(number) => write_text(out, text_of(texts, *number)),
        Question::Len => write_number(out, texts.len()),
        _ => write_no_call(out),
    }
}

// Whether the number has a key, and the key a text.
fn has_key<K: Key, T: Resolver<K>>(texts: &T, number: usize) -> bool {
    match K::try_from_usize(number) {
        Some(key) => texts.contains_key(key),
        None => false,
    }
}

// The text of the key with this number.
fn text_of<K: Key, T: Resolver<K>>(texts: &T, number: usize) -> Option<&str> {
    let key = K::try_from_usize(number)?;
    texts.try_resolve(key)
}

// The text of the key with this number by both calls that need one.
fn texts_of<K: Key, S: BuildHasher>(rodeo: &Interner<K, S>, number: usize) -> Option<(&str, &str)> {
    let key = K::try_from_usize(number)?;
    if rodeo.contains_key(key) {
        Some((rodeo.resolve(key), rodeo.resolve_unchecked(key)))
    } else {
        None
    }
}

// Interns a text.
fn intern_by<K: Key, S: BuildHasher>(rodeo: &mut Interner<K, S>, way: &Way) -> LassoResult<K> {
    match way {
        Way::Plain(text) => rodeo.get_or_intern(text.as_str()),
        Way::TryStatic(text) => rodeo.try_get_or_intern_static(*text),
        Way::Static(text) => rodeo.get_or_intern_static(*text),
    }
}

// Interns the texts in order, up to the first that is refused.
fn intern_all<K: Key, S: BuildHasher>(
    rodeo: &mut Interner<K, S>,
    texts: &Vec<String>,
) -> LassoResult<()> {
    for text in texts {
        rodeo.try_get_or_intern(text.as_str())?;
    }
    Ok(())
}

/// An interner of these texts.
pub fn of_texts<K: Key, S: BuildHasher + Default + Drop>(
    alloc: Global,
    texts: &Vec<String>,
) -> LassoResult<Interner<K, S>> {
    let mut source = Rodeo::with_hasher(alloc, S::default())?;
    intern_all(&mut source, texts)?;
    Ok(source)
}

// The texts, borrowed.
fn slices(alloc: Global, texts: &Vec<String>) -> Result<Vec<&str>, AllocError> {
    let mut slices = Vec::new(alloc);
    for text in texts {
        slices.push(text.as_str())?;
    }
    Ok(slices)
}

// Makes the change. If one of the texts of a copy's source is refused, the interner stays as it was.
fn changed<K: Key, S: BuildHasher + Clone + Default + Drop>(
    alloc: Global,
    rodeo: &mut Interner<K, S>,
    other: &mut Option<Interner<K, S>>,
    change: &Change,
) -> LassoResult<()> {
    match change {
        Change::CloneFrom(texts) => rodeo.clone_from(&of_texts(alloc, texts)?),
        Change::TryCloneFrom(texts) => rodeo.try_clone_from(&of_texts(alloc, texts)?),
        Change::Fill(texts) => rodeo.extend(slices(alloc, texts)?),
        Change::Collect(texts) => become_new(rodeo, Rodeo::from_iter(alloc, slices(alloc, texts)?)),
        Change::Words(words) => become_new(rodeo, of_keywords(alloc, words)),
        Change::Clone => set_aside(rodeo.clone(), rodeo, other),
        Change::TryClone => set_aside(rodeo.try_clone(), rodeo, other),
        Change::Swap => {
            swap(rodeo, other);
            Ok(())
        }
    }
}

// An interner of the words, or one without a text if a word comes twice.
fn of_keywords<K: Key, S: BuildHasher + Default + Drop>(
    alloc: Global,
    words: &[&'static str],
) -> LassoResult<Interner<K, S>> {
    if are_distinct(words) {
        Rodeo::from_static(alloc, words)
    } else {
        Rodeo::with_hasher(alloc, S::default())
    }
}

// The interner becomes the one that was made.
fn become_new<K: Key, S: BuildHasher + Drop>(
    rodeo: &mut Interner<K, S>,
    made: LassoResult<Interner<K, S>>,
) -> LassoResult<()> {
    let _old = replace(rodeo, made?);
    Ok(())
}

// The interner becomes the one that was made, and is set aside.
fn set_aside<K: Key, S: BuildHasher + Drop>(
    made: LassoResult<Interner<K, S>>,
    rodeo: &mut Interner<K, S>,
    other: &mut Option<Interner<K, S>>,
) -> LassoResult<()> {
    let _older = replace(other, Some(replace(rodeo, made?)));
    Ok(())
}

// The interner and the one that was set aside change places, if there is one.
fn swap<K: Key, S: BuildHasher + Drop>(
    rodeo: &mut Interner<K, S>,
    other: &mut Option<Interner<K, S>>,
) {
    if let Some(aside) = other {
        std::mem::swap(rodeo, aside);
    }
}

// Reads an interner from the value. The script's interner becomes that, or stays if nothing is read.
fn load<K: Key, S: BuildHasher + Default + Drop, W: Write>(
    alloc: Global,
    rodeo: &mut Interner<K, S>,
    value: &Value,
    out: &mut W,
) -> io::Result<()> {
    match Rodeo::deserialize(alloc, value) {
        Ok(read) => write_outcome(out, become_new(rodeo, Ok(read))),
        Err(error) => write_json_error(out, error),
    }
}

// Writes the reply to a call that only reads.
fn look_at<K: Key, S: BuildHasher + Default + Drop, W: Write>(
    alloc: Global,
    rodeo: &Interner<K, S>,
    look: &Look,
    out: &mut W,
) -> io::Result<()> {
    match look {
        Look::Stands(number) => write_resolved(out, texts_of(rodeo, *number)),
        Look::Empty => write_flag(out, rodeo.is_empty()),
        Look::Loop => write_pairs(out, rodeo.into_iter()),
        Look::Walk(moves) => take_walk(out, rodeo.iter(), moves),
        Look::Strings(moves) => take_walk(out, rodeo.strings(), moves),
        Look::Saved => write_saved(alloc, out, rodeo.serialize(alloc)),
        Look::Debug => write_debug(alloc, out, rodeo),
        Look::Compare(texts) => compare_rodeo(alloc, rodeo, texts, out),
    }
}

// Replays a script on a `ThreadedRodeo`, by one thread.

type SharedInterner<K> = ThreadedRodeo<K, FixedState>;

/// Makes one call, and writes its reply.
pub fn replay_shared_call<R: Wait, K: Key, W: Write>(
    rt: &R,
    interner: &SharedInterner<K>,
    call: &Call,
    out: &mut W,
) -> io::Result<()> {
    match call {
        Call::Ask(question) => answer_shared(rt, interner, question, out),
        Call::Intern(text) => write_interned(out, interner.try_get_or_intern(rt, text.as_str())),
        Call::Limit(bytes) => {
            interner.set_memory_limits(rt, MemoryLimits::new(*bytes));
            write_outcome(out, Ok(()))
        }
        Call::Extend(texts) => write_outcome(out, intern_all_shared(rt, interner, texts)),
    }
}

// Writes the reply to a question.
fn answer_shared<R: Wait, K: Key, W: Write>(
    rt: &R,
    interner: &SharedInterner<K>,
    question: &Question,
    out: &mut W,
) -> io::Result<()> {
    match question {
        Question::Get(text) => write_found(out, interner.get(rt, text.as_str())),
        Question::Contains(text) => write_flag(out, interner.contains(rt, text.as_str())),
        Question::Usage => write_number(out, interner.current_memory_usage(rt)),
        Question::Max => write_number(out, interner.max_memory_usage(rt)),
        _ => ask_of_keys(interner, question, out),
    }
}

// Interns the texts in order, up to the first that is refused.
fn intern_all_shared<R: Wait, K: Key>(
    rt: &R,
    interner: &SharedInterner<K>,
    texts: &Vec<String>,
) -> LassoResult<()> {
    for text in texts {
        interner.try_get_or_intern(rt, text.as_str())?;
    }
    Ok(())
}
