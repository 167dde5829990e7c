//! The parts of an input, in order: scripts, and lines with JSON values, each an interner or a key to read. Key types by
//! their names, and replaying with keys of a type that is known at run time.
use crate::lines::{InputError, Reason, parse_text};
use crate::replies::{write_json_error, write_key, write_list, write_refusal};
use crate::scripts::{Script, parse_header};
use lasso::{
    FixedState, JsonKey, Key, LargeSpur, MicroSpur, MiniSpur, Rodeo, RodeoReader, RodeoResolver,
    Spur, ThreadedRodeo,
};
use serde_json::Value;
use std::alloc::{AllocError, Global};
use std::io;
use std::io::Write;
use std::sync::Wait;
use test_common::keys::{BelowTwo, WithoutTwo, WithoutZero};

/// A script, or a line with a JSON value.
#[derive(Drop)]
pub enum Part {
    /// A script.
    Script(Script),
    /// A line with an interner.
    Interner(InternerLine),
    /// A line with a key.
    Key(KeyLine),
}

impl Part {
    /// Replays the part, and writes its replies.
    pub fn replay<R: Wait, W: Write>(&self, rt: &R, alloc: Global, out: &mut W) -> io::Result<()> {
        match self {
            Part::Script(script) => script.replay(rt, alloc, out),
            Part::Interner(line) => line.replay(rt, alloc, out),
            Part::Key(line) => line.replay(out),
        }
    }
}

/// Parses an input into its parts. The inner error is the first bad line.
pub fn parse_parts(
    alloc: Global,
    input: &[u8],
) -> Result<Result<Vec<Part>, InputError>, AllocError> {
    match str::from_utf8(input) {
        Ok(text) => parse_lines(alloc, text),
        Err(error) => {
            let line = line_after(&input[..error.valid_up_to()]);
            Ok(Err(InputError {
                line,
                reason: Reason::NotUtf8,
            }))
        }
    }
}

// The number of the line that comes after these bytes.
fn line_after(bytes: &[u8]) -> usize {
    let feeds = bytes.iter().filter(|byte| **byte == b'\n').count();
    feeds.saturating_add(1)
}

// Parses a text into its parts. The inner error is the first bad line.
fn parse_lines(alloc: Global, text: &str) -> Result<Result<Vec<Part>, InputError>, AllocError> {
    let mut parts: Vec<Part> = Vec::new(alloc);
    let mut number: usize = 0;
    for line in text.lines() {
        number = number.saturating_add(1);
        if let Some(reason) = add_line(alloc, &mut parts, line)? {
            return Ok(Err(InputError {
                line: number,
                reason,
            }));
        }
    }
    Ok(Ok(parts))
}

// Adds the line as a part, or as a command of the last part if that is a script. Returns why the line is bad,
// if it is.
fn add_line(
    alloc: Global,
    parts: &mut Vec<Part>,
    line: &str,
) -> Result<Option<Reason>, AllocError> {
    let words: Vec<&str> = line.split(' ').collect(alloc)?;
    match parse_part(alloc, &words)? {
        Some(Ok(part)) => {
            parts.push(part)?;
            Ok(None)
        }
        Some(Err(reason)) => Ok(Some(reason)),
        None => add_command(alloc, parts, &words),
    }
}

// Parses the words of a line as a part. `None` if their first word begins no part. The inner error says why
// they are bad.
fn parse_part(alloc: Global, words: &[&str]) -> Result<Option<Result<Part, Reason>>, AllocError> {
    match words {
        ["script", others @ ..] => Ok(Some(parse_header(alloc, others)?.map(Part::Script))),
        ["json", others @ ..] => Ok(Some(parse_interner_line(alloc, others)?.map(Part::Interner))),
        ["key", others @ ..] => Ok(Some(parse_key_line(alloc, others)?.map(Part::Key))),
        _ => Ok(None),
    }
}

// Adds the words of a line as a command of the last part if that is a script. Returns why they are bad, if
// they are.
fn add_command(
    alloc: Global,
    parts: &mut Vec<Part>,
    words: &[&str],
) -> Result<Option<Reason>, AllocError> {
    match parts.last_mut() {
        Some(Part::Script(script)) => script.add_command(alloc, words),
        _ => Ok(Some(Reason::NoScript)),
    }
}

// Key types by their names, and replaying with keys of a type that is known at run time.

/// The key type of an interner.
#[derive(Clone, Copy)]
pub enum KeyType {
    Spur,
    MiniSpur,
    MicroSpur,
    LargeSpur,
    BelowTwo,
    WithoutTwo,
    WithoutZero,
}

/// What can be replayed with keys of any type.
pub trait Replayed {
    /// Makes the interner, carries out the commands, and writes the replies.
    ///
    /// # Errors
    /// Out of memory for the interner, or the writer failed.
    fn replay_with<R: Wait, K: Key, W: Write>(
        &self,
        rt: &R,
        alloc: Global,
        out: &mut W,
    ) -> io::Result<()>;
}

impl KeyType {
    /// Replays with keys of this type.
    pub fn replay<T: Replayed, R: Wait, W: Write>(
        self,
        replayed: &T,
        rt: &R,
        alloc: Global,
        out: &mut W,
    ) -> io::Result<()> {
        match self {
            KeyType::Spur => replayed.replay_with::<R, Spur, W>(rt, alloc, out),
            KeyType::MiniSpur => replayed.replay_with::<R, MiniSpur, W>(rt, alloc, out),
            KeyType::MicroSpur => replayed.replay_with::<R, MicroSpur, W>(rt, alloc, out),
            KeyType::LargeSpur => replayed.replay_with::<R, LargeSpur, W>(rt, alloc, out),
            KeyType::BelowTwo => replayed.replay_with::<R, BelowTwo, W>(rt, alloc, out),
            KeyType::WithoutTwo => replayed.replay_with::<R, WithoutTwo, W>(rt, alloc, out),
            KeyType::WithoutZero => replayed.replay_with::<R, WithoutZero, W>(rt, alloc, out),
        }
    }
}

/// The key types that can be read from JSON.
#[derive(Clone, Copy)]
pub enum SpurType {
    Spur,
    MiniSpur,
    MicroSpur,
    LargeSpur,
}

/// The key type of this name.
pub fn parse_key_type(word: &str) -> Option<KeyType> {
    match word {
        "spur" => Some(KeyType::Spur),
        "mini" => Some(KeyType::MiniSpur),
        "micro" => Some(KeyType::MicroSpur),
        "large" => Some(KeyType::LargeSpur),
        "below2" => Some(KeyType::BelowTwo),
        "hole2" => Some(KeyType::WithoutTwo),
        "hole0" => Some(KeyType::WithoutZero),
        _ => None,
    }
}

/// The key type of this name, if keys of that type can be read from JSON.
pub fn parse_spur_type(word: &str) -> Option<SpurType> {
    match word {
        "spur" => Some(SpurType::Spur),
        "mini" => Some(SpurType::MiniSpur),
        "micro" => Some(SpurType::MicroSpur),
        "large" => Some(SpurType::LargeSpur),
        _ => None,
    }
}

// Lines with JSON values: an interner or a key to read from each, and a reply for each.

/// The forms of interners that are read from JSON.
#[derive(Clone, Copy)]
pub enum Form {
    /// A `Rodeo`.
    Rodeo,
    /// A `RodeoReader`.
    Reader,
    /// A `RodeoResolver`.
    Resolver,
    /// A `ThreadedRodeo`.
    Threaded,
}

/// A JSON value to read as an interner of this form and key type.
#[derive(Drop)]
pub struct InternerLine {
    /// The form of the interner.
    pub form: Form,
    /// The type of its keys.
    pub key_type: KeyType,
    /// The JSON value.
    pub value: Value,
}

/// A JSON value to read as a key of this type.
#[derive(Drop)]
pub struct KeyLine {
    /// The type of the key.
    pub key_type: SpurType,
    /// The JSON value.
    pub value: Value,
}

/// Parses the words after `json`. The inner error says why they are bad.
pub fn parse_interner_line(
    alloc: Global,
    words: &[&str],
) -> Result<Result<InternerLine, Reason>, AllocError> {
    let [form, key_type, value] = words else {
        return Ok(Err(Reason::BadJsonLine));
    };
    let Some(form) = parse_form(form) else {
        return Ok(Err(Reason::UnknownForm));
    };
    let Some(key_type) = parse_key_type(key_type) else {
        return Ok(Err(Reason::UnknownKeyType));
    };
    match parse_value(alloc, value)? {
        Ok(value) => Ok(Ok(InternerLine {
            form,
            key_type,
            value,
        })),
        Err(reason) => Ok(Err(reason)),
    }
}

/// Parses the words after `key`. The inner error says why they are bad.
pub fn parse_key_line(
    alloc: Global,
    words: &[&str],
) -> Result<Result<KeyLine, Reason>, AllocError> {
    let [key_type, value] = words else {
        return Ok(Err(Reason::BadJsonLine));
    };
    let Some(key_type) = parse_spur_type(key_type) else {
        return Ok(Err(Reason::UnknownKeyType));
    };
    match parse_value(alloc, value)? {
        Ok(value) => Ok(Ok(KeyLine { key_type, value })),
        Err(reason) => Ok(Err(reason)),
    }
}

fn parse_form(word: &str) -> Option<Form> {
    match word {
        "rodeo" => Some(Form::Rodeo),
        "reader" => Some(Form::Reader),
        "resolver" => Some(Form::Resolver),
        "threaded" => Some(Form::Threaded),
        _ => None,
    }
}

/// Parses a JSON text that is written in hexadecimal digits. The inner error says why it is bad.
pub fn parse_value(alloc: Global, word: &str) -> Result<Result<Value, Reason>, AllocError> {
    let Some(text) = parse_text(alloc, word)? else {
        return Ok(Err(Reason::NotHexadecimal));
    };
    match Value::from_str(alloc, text.as_str()) {
        Ok(value) => Ok(Ok(value)),
        Err(error) => {
            if error.is_memory() {
                Err(AllocError)
            } else {
                Ok(Err(Reason::NotJson))
            }
        }
    }
}

// Reads interners and keys from JSON values, and writes a reply for each.

impl InternerLine {
    /// Reads the interner, and writes its texts in the order of their keys, or the error.
    pub fn replay<R: Wait, W: Write>(&self, rt: &R, alloc: Global, out: &mut W) -> io::Result<()> {
        self.key_type.replay(self, rt, alloc, out)
    }
}

impl Replayed for InternerLine {
    fn replay_with<R: Wait, K: Key, W: Write>(
        &self,
        rt: &R,
        alloc: Global,
        out: &mut W,
    ) -> io::Result<()> {
        match self.form {
            Form::Rodeo => read_rodeo::<K, W>(alloc, &self.value, out),
            Form::Reader => read_reader::<K, W>(alloc, &self.value, out),
            Form::Resolver => read_resolver::<K, W>(alloc, &self.value, out),
            Form::Threaded => read_threaded::<R, K, W>(rt, alloc, &self.value, out),
        }
    }
}

impl KeyLine {
    /// Reads the key, and writes its number, or the error.
    pub fn replay<W: Write>(&self, out: &mut W) -> io::Result<()> {
        match self.key_type {
            SpurType::Spur => read_key::<Spur, W>(&self.value, out),
            SpurType::MiniSpur => read_key::<MiniSpur, W>(&self.value, out),
            SpurType::MicroSpur => read_key::<MicroSpur, W>(&self.value, out),
            SpurType::LargeSpur => read_key::<LargeSpur, W>(&self.value, out),
        }
    }
}

fn read_rodeo<K: Key, W: Write>(alloc: Global, value: &Value, out: &mut W) -> io::Result<()> {
    match Rodeo::<K, FixedState, Global>::deserialize(alloc, value) {
        Ok(rodeo) => write_list(out, rodeo.strings()),
        Err(error) => write_json_error(out, error),
    }
}

fn read_reader<K: Key, W: Write>(alloc: Global, value: &Value, out: &mut W) -> io::Result<()> {
    match RodeoReader::<K, FixedState, Global>::deserialize(alloc, value) {
        Ok(reader) => write_list(out, reader.strings()),
        Err(error) => write_json_error(out, error),
    }
}

fn read_resolver<K: Key, W: Write>(alloc: Global, value: &Value, out: &mut W) -> io::Result<()> {
    match RodeoResolver::<K, Global>::deserialize(alloc, value) {
        Ok(resolver) => write_list(out, resolver.strings()),
        Err(error) => write_json_error(out, error),
    }
}

// Turns the interner into a resolver, and writes the texts of that.
fn read_threaded<R: Wait, K: Key, W: Write>(
    rt: &R,
    alloc: Global,
    value: &Value,
    out: &mut W,
) -> io::Result<()> {
    match ThreadedRodeo::<K, FixedState>::deserialize(alloc, value) {
        Ok(interner) => match interner.into_resolver(rt) {
            Ok(resolver) => write_list(out, resolver.strings()),
            Err(error) => write_refusal(out, error.kind()),
        },
        Err(error) => write_json_error(out, error),
    }
}

fn read_key<K: JsonKey, W: Write>(value: &Value, out: &mut W) -> io::Result<()> {
    match K::key_from_json(value) {
        Ok(key) => write_key(out, key),
        Err(error) => write_json_error(out, error),
    }
}
