//! Scripts: a header, and a command in each line after it.
use crate::lines::{
    Call, Reason, RodeoCommand, parse_call, parse_command, parse_limit, parse_number,
};
use crate::parts::{KeyType, Replayed, parse_key_type};
use crate::replay::{replay_rodeo, replay_shared_call};
use lasso::{Capacity, FixedState, Key, LassoResult, MemoryLimits, Rodeo, ThreadedRodeo};
use std::alloc::{AllocError, Global};
use std::hash::BuildHasher;
use std::io;
use std::io::Write;
use std::sync::Wait;
use test_common::hashers::SameState;

/// The commands of a script, in order, by its kind of interner.
#[derive(Drop)]
enum Commands {
    OneThread(Vec<RodeoCommand>),
    /// Of a `Rodeo` whose hasher gives all texts one hash.
    OneHash(Vec<RodeoCommand>),
    Shared(Vec<Call>),
}

/// A script: how its interner is made, and its commands.
#[derive(Drop)]
pub struct Script {
    name: String,
    key_type: KeyType,
    capacity: Capacity,
    limits: MemoryLimits,
    commands: Commands,
}

/// Parses the words after `script`. The inner error says why they are bad.
pub fn parse_header(alloc: Global, words: &[&str]) -> Result<Result<Script, Reason>, AllocError> {
    let [name, kind, key_type, strings, bytes, limit] = words else {
        return Ok(Err(Reason::BadHeader));
    };
    let Some(commands) = no_commands(alloc, kind) else {
        return Ok(Err(Reason::UnknownKind));
    };
    let Some(key_type) = parse_key_type(key_type) else {
        return Ok(Err(Reason::UnknownKeyType));
    };
    let (capacity, limits) = match parse_sizes(strings, bytes, limit) {
        Ok(sizes) => sizes,
        Err(reason) => return Ok(Err(reason)),
    };
    let name = String::from_str(alloc, name)?;
    Ok(Ok(Script {
        name,
        key_type,
        capacity,
        limits,
        commands,
    }))
}

// No commands for the kind of interner with this name.
fn no_commands(alloc: Global, kind: &str) -> Option<Commands> {
    match kind {
        "rodeo" => Some(Commands::OneThread(Vec::new(alloc))),
        "onehash" => Some(Commands::OneHash(Vec::new(alloc))),
        "threaded" => Some(Commands::Shared(Vec::new(alloc))),
        _ => None,
    }
}

// Parses the capacity and the limit of an interner.
fn parse_sizes(
    strings: &str,
    bytes: &str,
    limit: &str,
) -> Result<(Capacity, MemoryLimits), Reason> {
    let strings = parse_number(strings).ok_or(Reason::BadHeader)?;
    let bytes = parse_number(bytes).ok_or(Reason::BadHeader)?;
    let limit = parse_limit(limit).ok_or(Reason::BadHeader)?;
    if bytes == 0 {
        return Err(Reason::NoBytes);
    }
    Ok((Capacity::new(strings, bytes), MemoryLimits::new(limit)))
}

// Parses the words of a line as a command for a `Rodeo`, and adds it. Returns whether they are one.
fn add_script_command(
    alloc: Global,
    commands: &mut Vec<RodeoCommand>,
    words: &[&str],
) -> Result<bool, AllocError> {
    let Some(command) = parse_command(alloc, words)? else {
        return Ok(false);
    };
    commands.push(command)?;
    Ok(true)
}

// Parses the words of a line as a call, and adds it. Returns whether they are one.
fn add_call(alloc: Global, calls: &mut Vec<Call>, words: &[&str]) -> Result<bool, AllocError> {
    let Some(call) = parse_call(alloc, words)? else {
        return Ok(false);
    };
    calls.push(call)?;
    Ok(true)
}

impl Script {
    /// Parses the words of a line as a command, and adds it. Returns why they are bad, if they are.
    pub fn add_command(
        &mut self,
        alloc: Global,
        words: &[&str],
    ) -> Result<Option<Reason>, AllocError> {
        let is_known = match &mut self.commands {
            Commands::OneThread(commands) | Commands::OneHash(commands) => {
                add_script_command(alloc, commands, words)?
            }
            Commands::Shared(calls) => add_call(alloc, calls, words)?,
        };
        Ok(if is_known {
            None
        } else {
            Some(Reason::BadCommand)
        })
    }

    /// Makes the script's interner, runs the commands, and writes their replies.
    ///
    /// # Errors
    /// Out of memory for the interner, or the writer failed.
    pub fn replay<R: Wait, W: Write>(&self, rt: &R, alloc: Global, out: &mut W) -> io::Result<()> {
        self.key_type.replay(self, rt, alloc, out)
    }

    fn make_rodeo<K: Key, S: BuildHasher + Default + Drop>(
        &self,
        alloc: Global,
    ) -> io::Result<Rodeo<K, S, Global>> {
        let made: LassoResult<Rodeo<K, S, Global>> = Rodeo::with_capacity_memory_limits_and_hasher(
            alloc,
            self.capacity,
            self.limits,
            S::default(),
        );
        made.map_err(|_| io::Error::from(AllocError))
    }

    fn make_threaded<K: Key>(&self, alloc: Global) -> io::Result<ThreadedRodeo<K, FixedState>> {
        let made: LassoResult<ThreadedRodeo<K, FixedState>> =
            ThreadedRodeo::with_capacity_and_memory_limits(alloc, self.capacity, self.limits);
        made.map_err(|_| io::Error::from(AllocError))
    }
}

impl Replayed for Script {
    fn replay_with<R: Wait, K: Key, W: Write>(
        &self,
        rt: &R,
        alloc: Global,
        out: &mut W,
    ) -> io::Result<()> {
        let name = self.name.as_str();
        writeln!(out, "script {name}")?;
        match &self.commands {
            Commands::OneThread(commands) => {
                replay_rodeo(
                    alloc,
                    self.make_rodeo::<K, FixedState>(alloc)?,
                    commands,
                    out,
                )
            }
            Commands::OneHash(commands) => {
                replay_rodeo(
                    alloc,
                    self.make_rodeo::<K, SameState>(alloc)?,
                    commands,
                    out,
                )
            }
            Commands::Shared(calls) => {
                replay_calls(rt, &self.make_threaded::<K>(alloc)?, calls, out)
            }
        }
    }
}

// Makes the calls, and writes their replies.
fn replay_calls<R: Wait, K: Key, W: Write>(
    rt: &R,
    interner: &ThreadedRodeo<K, FixedState>,
    calls: &[Call],
    out: &mut W,
) -> io::Result<()> {
    for call in calls {
        replay_shared_call(rt, interner, call, out)?;
    }
    Ok(())
}
