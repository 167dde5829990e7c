//! Replays commands on the frozen forms of a script's interner, walks over texts, and compares an interner and its
//! frozen forms with those of another list.
use crate::lines::{Call, Look, Move, Question, RodeoCommand};
use crate::replay::{Interner, ask_of_keys, of_texts, split_at_freeze};
use crate::replies::{
    write_debug, write_flag, write_flags, write_found, write_left, write_no_call, write_pair,
    write_pairs, write_refusal, write_resolved, write_saved, write_text,
};
use lasso::{Iter, Key, LassoResult, RodeoReader, RodeoResolver, Strings};
use std::alloc::{AllocError, Global};
use std::hash::BuildHasher;
use std::io;
use std::io::Write;

type Reader<K, S> = RodeoReader<K, S, Global>;

type Resolver<K> = RodeoResolver<K, Global>;

/// Runs the commands up to the next `freeze` on the reader, those after it on its resolver, and writes their
/// replies.
pub fn replay_reader<K: Key, S: BuildHasher + Default + Drop, W: Write>(
    alloc: Global,
    reader: Reader<K, S>,
    commands: &[RodeoCommand],
    out: &mut W,
) -> io::Result<()> {
    let (before, after) = split_at_freeze(commands);
    for command in before {
        match command {
            RodeoCommand::Call(Call::Ask(question)) => ask_reader(&reader, question, out)?,
            RodeoCommand::Look(look) => look_at_reader(alloc, &reader, look, out)?,
            _ => write_no_call(out)?,
        }
    }
    match after {
        Some(after) => replay_resolver::<K, S, W>(alloc, &reader.into_resolver(), after, out),
        None => Ok(()),
    }
}

// Runs the commands on the resolver, and writes their replies.
fn replay_resolver<K: Key, S: BuildHasher + Default + Drop, W: Write>(
    alloc: Global,
    resolver: &Resolver<K>,
    commands: &[RodeoCommand],
    out: &mut W,
) -> io::Result<()> {
    for command in commands {
        match command {
            RodeoCommand::Call(Call::Ask(question)) => ask_of_keys(resolver, question, out)?,
            RodeoCommand::Look(look) => look_at_resolver::<K, S, W>(alloc, resolver, look, out)?,
            _ => write_no_call(out)?,
        }
    }
    Ok(())
}

fn ask_reader<K: Key, S: BuildHasher, W: Write>(
    reader: &Reader<K, S>,
    question: &Question,
    out: &mut W,
) -> io::Result<()> {
    match question {
        Question::Get(text) => write_found(out, reader.get(text.as_str())),
        Question::Contains(text) => write_flag(out, reader.contains(text.as_str())),
        _ => ask_of_keys(reader, question, out),
    }
}

// The text of the key with this number by both calls that need one.
fn texts_of_reader<K: Key, S: BuildHasher>(
    reader: &Reader<K, S>,
    number: usize,
) -> Option<(&str, &str)> {
    let key = K::try_from_usize(number)?;
    if reader.contains_key(key) {
        Some((reader.resolve(key), reader.resolve_unchecked(key)))
    } else {
        None
    }
}

fn texts_of_resolver<K: Key>(resolver: &Resolver<K>, number: usize) -> Option<(&str, &str)> {
    let key = K::try_from_usize(number)?;
    if resolver.contains_key(key) {
        Some((resolver.resolve(key), resolver.resolve_unchecked(key)))
    } else {
        None
    }
}

fn look_at_reader<K: Key, S: BuildHasher + Default + Drop, W: Write>(
    alloc: Global,
    reader: &Reader<K, S>,
    look: &Look,
    out: &mut W,
) -> io::Result<()> {
    match look {
        Look::Stands(number) => write_resolved(out, texts_of_reader(reader, *number)),
        Look::Empty => write_flag(out, reader.is_empty()),
        Look::Loop => write_pairs(out, reader.into_iter()),
        Look::Walk(moves) => take_walk(out, reader.iter(), moves),
        Look::Strings(moves) => take_walk(out, reader.strings(), moves),
        Look::Saved => write_saved(alloc, out, reader.serialize(alloc)),
        Look::Debug => write_debug(alloc, out, reader),
        Look::Compare(texts) => compare_reader(alloc, reader, texts, out),
    }
}

fn look_at_resolver<K: Key, S: BuildHasher + Default + Drop, W: Write>(
    alloc: Global,
    resolver: &Resolver<K>,
    look: &Look,
    out: &mut W,
) -> io::Result<()> {
    match look {
        Look::Stands(number) => write_resolved(out, texts_of_resolver(resolver, *number)),
        Look::Empty => write_flag(out, resolver.is_empty()),
        Look::Loop => write_pairs(out, resolver.into_iter()),
        Look::Walk(moves) => take_walk(out, resolver.iter(), moves),
        Look::Strings(moves) => take_walk(out, resolver.strings(), moves),
        Look::Saved => write_saved(alloc, out, resolver.serialize(alloc)),
        Look::Debug => write_debug(alloc, out, resolver),
        Look::Compare(texts) => compare_resolver::<K, S, W>(alloc, resolver, texts, out),
    }
}

// Makes the calls of walks over an interner's texts.

// The moves before the first copy, and those after it, if there is one.
fn split_at_copy(moves: &[Move]) -> (&[Move], Option<&[Move]>) {
    for at in 0..moves.len() {
        if matches!(moves[at], Move::Copy) {
            return (&moves[..at], Some(&moves[at + 1..]));
        }
    }
    (moves, None)
}

/// A walk over the texts of an interner.
pub trait Walk: Drop {
    /// Makes the call, and writes its reply.
    fn step<W: Write>(&mut self, out: &mut W, step: Move) -> io::Result<()>;

    /// A copy of the walk, from where it is.
    fn again(&self) -> Result<Self, AllocError>;
}

/// Makes the calls of a walk, and writes the reply to each.
pub fn take_walk<T: Walk, W: Write>(out: &mut W, mut walk: T, moves: &[Move]) -> io::Result<()> {
    let (before, after) = split_at_copy(moves);
    take_steps(out, &mut walk, before)?;
    if let Some(after) = after {
        let mut copy = walk.again()?;
        take_steps(out, &mut walk, after)?;
        take_steps(out, &mut copy, after)?;
    }
    Ok(())
}

fn take_steps<T: Walk, W: Write>(out: &mut W, walk: &mut T, moves: &[Move]) -> io::Result<()> {
    for step in moves {
        walk.step(out, *step)?;
    }
    Ok(())
}

impl<K: Key> Walk for Iter<'_, K> {
    fn step<W: Write>(&mut self, out: &mut W, step: Move) -> io::Result<()> {
        match step {
            Move::Next => write_pair(out, self.next()),
            Move::Back => write_pair(out, self.next_back()),
            Move::Nth(number) => write_pair(out, self.nth(number)),
            Move::NthBack(number) => write_pair(out, self.nth_back(number)),
            Move::Left => write_left(out, self.len(), self.size_hint()),
            Move::Copy => Ok(()),
        }
    }

    fn again(&self) -> Result<Self, AllocError> {
        self.clone()
    }
}

impl<K: Key> Walk for Strings<'_, K> {
    fn step<W: Write>(&mut self, out: &mut W, step: Move) -> io::Result<()> {
        match step {
            Move::Next => write_text(out, self.next()),
            Move::Back => write_text(out, self.next_back()),
            Move::Nth(number) => write_text(out, self.nth(number)),
            Move::NthBack(number) => write_text(out, self.nth_back(number)),
            Move::Left => write_left(out, self.len(), self.size_hint()),
            Move::Copy => Ok(()),
        }
    }

    fn again(&self) -> Result<Self, AllocError> {
        self.clone()
    }
}

// Compares an interner and its frozen forms with those of another list of texts.

/// Whether a form equals another interner, its reader and its resolver, and differs from the one of its kind.
type Flags = (bool, bool, bool, bool);

fn write_compared<W: Write>(out: &mut W, flags: LassoResult<Flags>) -> io::Result<()> {
    match flags {
        Ok(flags) => write_flags(out, flags),
        Err(error) => write_refusal(out, error.kind()),
    }
}

/// Compares the interner, and writes the flags.
pub fn compare_rodeo<K: Key, S: BuildHasher + Default + Drop, W: Write>(
    alloc: Global,
    rodeo: &Interner<K, S>,
    texts: &Vec<String>,
    out: &mut W,
) -> io::Result<()> {
    write_compared(out, rodeo_flags(rodeo, of_texts(alloc, texts)))
}

fn rodeo_flags<K: Key, S: BuildHasher + Default + Drop>(
    rodeo: &Interner<K, S>,
    other: LassoResult<Interner<K, S>>,
) -> LassoResult<Flags> {
    let other = other?;
    let (is_equal, differs) = (*rodeo == other, *rodeo != other);
    let reader = other.into_reader();
    let is_reader = rodeo.eq_reader(&reader);
    let is_resolver = rodeo.eq_resolver(&reader.into_resolver());
    Ok((is_equal, is_reader, is_resolver, differs))
}

/// Compares the reader, and writes the flags.
pub fn compare_reader<K: Key, S: BuildHasher + Default + Drop, W: Write>(
    alloc: Global,
    reader: &RodeoReader<K, S, Global>,
    texts: &Vec<String>,
    out: &mut W,
) -> io::Result<()> {
    write_compared(out, reader_flags(reader, of_texts(alloc, texts)))
}

fn reader_flags<K: Key, S: BuildHasher + Default + Drop>(
    reader: &RodeoReader<K, S, Global>,
    other: LassoResult<Interner<K, S>>,
) -> LassoResult<Flags> {
    let other = other?;
    let is_rodeo = reader.eq_rodeo(&other);
    let other = other.into_reader();
    let (is_equal, differs) = (*reader == other, *reader != other);
    let is_resolver = reader.eq_resolver(&other.into_resolver());
    Ok((is_rodeo, is_equal, is_resolver, differs))
}

/// Compares the resolver, and writes the flags.
pub fn compare_resolver<K: Key, S: BuildHasher + Default + Drop, W: Write>(
    alloc: Global,
    resolver: &RodeoResolver<K, Global>,
    texts: &Vec<String>,
    out: &mut W,
) -> io::Result<()> {
    write_compared(
        out,
        resolver_flags::<K, S>(resolver, of_texts(alloc, texts)),
    )
}

fn resolver_flags<K: Key, S: BuildHasher + Default + Drop>(
    resolver: &RodeoResolver<K, Global>,
    other: LassoResult<Interner<K, S>>,
) -> LassoResult<Flags> {
    let other = other?;
    let is_rodeo = resolver.eq_rodeo(&other);
    let other = other.into_reader();
    let is_reader = resolver.eq_reader(&other);
    let other = other.into_resolver();
    let (is_equal, differs) = (*resolver == other, *resolver != other);
    Ok((is_rodeo, is_reader, is_equal, differs))
}
