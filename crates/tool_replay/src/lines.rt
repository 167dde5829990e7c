//! One line of a script: a command with its arguments, also of one of a `Rodeo`; and a bad line, and why it is bad.
ghost use Rattle.std.specs.Prelude.{◌<◌, IfSome};

use crate::parts::parse_value;
use serde_json::Value;
use std::alloc::{AllocError, Global};
use std::fmt;

/// A call that only reads, and that each kind of interner has, with its arguments.
#[derive(Drop)]
pub enum Question {
    /// `get` of a text.
    Get(String),
    /// `contains` of a text.
    Contains(String),
    /// `contains_key` of the key with this number.
    Has(usize),
    /// `try_resolve` of the key with this number.
    Resolve(usize),
    /// `len`.
    Len,
    /// `current_memory_usage`.
    Usage,
    /// `max_memory_usage`.
    Max,
}

/// A call that each kind of interner has, with its arguments.
#[derive(Drop)]
pub enum Call {
    /// A call that only reads.
    Ask(Question),
    /// `try_get_or_intern` of a text.
    Intern(String),
    /// `set_memory_limits` to a number of bytes.
    Limit(usize),
    /// `try_get_or_intern` of each of the texts.
    Extend(Vec<String>),
}

// Parses the words of a line as a question of a text. `None` if they are none.
fn parse_text_question(alloc: Global, words: &[&str]) -> Result<Option<Question>, AllocError> {
    match words {
        ["get", text] => Ok(parse_text(alloc, text)?.map(Question::Get)),
        ["contains", text] => Ok(parse_text(alloc, text)?.map(Question::Contains)),
        _ => Ok(None),
    }
}

// Parses the words of a line as a question of a key. `None` if they are none.
fn parse_key_question(words: &[&str]) -> Option<Question> {
    match words {
        ["has", number] => parse_number(number).map(Question::Has),
        ["resolve", number] => parse_number(number).map(Question::Resolve),
        _ => None,
    }
}

// Parses the words of a line as a question without arguments. `None` if they are none.
fn parse_plain_question(words: &[&str]) -> Option<Question> {
    match words {
        ["len"] => Some(Question::Len),
        ["usage"] => Some(Question::Usage),
        ["max"] => Some(Question::Max),
        _ => None,
    }
}

// Parses the words of a line as a question. `None` if they are none.
fn parse_question(alloc: Global, words: &[&str]) -> Result<Option<Question>, AllocError> {
    if let Some(question) = parse_plain_question(words) {
        return Ok(Some(question));
    }
    if let Some(question) = parse_key_question(words) {
        return Ok(Some(question));
    }
    parse_text_question(alloc, words)
}

/// Parses the words of a line as a call. `None` if they are not a call.
pub fn parse_call(alloc: Global, words: &[&str]) -> Result<Option<Call>, AllocError> {
    match words {
        ["intern", text] => Ok(parse_text(alloc, text)?.map(Call::Intern)),
        ["limit", bytes] => Ok(parse_limit(bytes).map(Call::Limit)),
        ["extend", texts @ ..] => Ok(parse_texts(alloc, texts)?.map(Call::Extend)),
        _ => Ok(parse_question(alloc, words)?.map(Call::Ask)),
    }
}

/// Parses a number of bytes; `max` is the greatest.
pub fn parse_limit(word: &str) -> Option<usize> {
    if word == "max" {
        Some(usize::MAX)
    } else {
        parse_number(word)
    }
}

/// Parses a number in decimal digits.
pub fn parse_number(word: &str) -> Option<usize> {
    if word.bytes().all(|byte| byte.is_ascii_digit()) {
        word.parse::<usize>().ok()
    } else {
        None
    }
}

/// Parses texts. `None` if one of the words is none.
pub fn parse_texts(alloc: Global, words: &[&str]) -> Result<Option<Vec<String>>, AllocError> {
    let mut texts = Vec::with_capacity(alloc, words.len())?;
    for word in words {
        let Some(text) = parse_text(alloc, word)? else {
            return Ok(None);
        };
        texts.push(text)?;
    }
    Ok(Some(texts))
}

/// Parses a text in hexadecimal digits, two for each byte; `-` is the empty text.
pub fn parse_text(alloc: Global, word: &str) -> Result<Option<String>, AllocError> {
    let bytes = if word == "-" {
        Some(Vec::new(alloc))
    } else {
        parse_bytes(alloc, word.as_bytes())?
    };
    Ok(bytes.and_then(|bytes| String::from_utf8(bytes).ok()))
}

// Parses bytes, at least one, in hexadecimal digits, two for each.
fn parse_bytes(alloc: Global, digits: &[u8]) -> Result<Option<Vec<u8>>, AllocError> {
    if digits.is_empty() || digits.len() % 2 != 0 {
        return Ok(None);
    }
    let mut bytes = Vec::new(alloc);
    for pair in digits.chunks_exact(2) {
        let Some(byte) = parse_pair(pair) else {
            return Ok(None);
        };
        bytes.push(byte)?;
    }
    Ok(Some(bytes))
}

// The byte of two hexadecimal digits.
fn parse_pair(pair: &[u8]) -> Option<u8> {
    let [high, low] = pair else {
        return None;
    };
    let high = parse_digit(*high)?;
    let low = parse_digit(*low)?;
    Some(high * 16 + low)
}

// The value of a hexadecimal digit.
fn parse_digit(digit: u8) -> Option<u8>
    ensures { IfSome result (λ value. value < 16) }
{
    match digit {
        b'0'..=b'9' => Some(digit - b'0'),
        b'a'..=b'f' => Some(digit - b'a' + 10),
        _ => None,
    }
}

// Errors of an input: a bad line, and why it is bad.

/// Why a line is bad.
#[derive(Clone, Copy, Debug, Drop)]
pub enum Reason {
    /// It is not UTF-8.
    NotUtf8,
    /// It is a command, and no script came before it.
    NoScript,
    /// It is a bad header of a script.
    BadHeader,
    /// A header with an unknown kind of interner.
    UnknownKind,
    /// An unknown key type.
    UnknownKeyType,
    /// A header with a capacity of 0 bytes.
    NoBytes,
    /// It is not a command of the script's kind of interner.
    BadCommand,
    /// It is a bad line with a JSON value.
    BadJsonLine,
    /// An unknown form of interner.
    UnknownForm,
    /// The value is not UTF-8 in hexadecimal digits.
    NotHexadecimal,
    /// The value is not JSON.
    NotJson,
}

impl fmt::Display for Reason {
    fn fmt<W: fmt::Write>(&self, f: &mut fmt::Formatter<W>) -> fmt::Result {
        let words = match self {
            Reason::NotUtf8 => "not UTF-8",
            Reason::NoScript => "a command outside a script",
            Reason::BadHeader => "not `script NAME KIND KEY STRINGS BYTES LIMIT`",
            Reason::UnknownKind => "a kind of interner that is not there",
            Reason::UnknownKeyType => "a key type that is not there",
            Reason::NoBytes => "a first capacity of no bytes",
            Reason::BadCommand => "not a command",
            Reason::BadJsonLine => "not `json FORM KEY VALUE` or `key KEY VALUE`",
            Reason::UnknownForm => "a form of interner that is not there",
            Reason::NotHexadecimal => "a value that is no text in hexadecimal",
            Reason::NotJson => "a value that is not JSON",
        };
        f.write_str(words)
    }
}

/// A bad line of the input.
#[derive(Debug, Drop)]
pub struct InputError {
    /// The number of the line, from 1.
    pub line: usize,
    /// Why it is bad.
    pub reason: Reason,
}

// The lines of a script of a `Rodeo`.

/// A command for a `Rodeo` or, after `Freeze`, for a frozen form.
#[derive(Drop)]
pub enum RodeoCommand {
    /// A call that each kind of interner has.
    Call(Call),
    /// Interns a text by another call than `try_get_or_intern`.
    Intern(Way),
    /// `clear`.
    Clear,
    /// A call that changes the interner as a whole.
    Change(Change),
    /// `deserialize` of the value.
    Load(Value),
    /// Whether `capacity` is at least this number.
    Room(usize),
    /// A call that only reads.
    Look(Look),
    /// Freezes an interner to a reader, and a reader to a resolver.
    Freeze,
}

/// A call that interns a text.
#[derive(Drop)]
pub enum Way {
    /// `get_or_intern`.
    Plain(String),
    /// `try_get_or_intern_static`.
    TryStatic(&'static str),
    /// `get_or_intern_static`.
    Static(&'static str),
}

/// A call that changes an interner as a whole.
#[derive(Drop)]
pub enum Change {
    /// `clone_from` an interner with these texts.
    CloneFrom(Vec<String>),
    /// `try_clone_from` an interner with these texts.
    TryCloneFrom(Vec<String>),
    /// `extend` by these texts.
    Fill(Vec<String>),
    /// The interner becomes one made by `from_iter` of these texts.
    Collect(Vec<String>),
    /// The interner becomes one made by `from_static` of these words.
    Words(&'static [&'static str]),
    /// The interner becomes its `clone`, and is set aside.
    Clone,
    /// The interner becomes its `try_clone`, and is set aside.
    TryClone,
    /// The interner and the one that was set aside change places.
    Swap,
}

/// A call that only reads, and that an interner and its frozen forms have.
#[derive(Drop)]
pub enum Look {
    /// `resolve` and `resolve_unchecked` of the key with this number, if it stands for a text.
    Stands(usize),
    /// `is_empty`.
    Empty,
    /// A loop over the keys and texts.
    Loop,
    /// Calls of a walk over the keys and texts.
    Walk(Vec<Move>),
    /// Calls of a walk over the texts.
    Strings(Vec<Move>),
    /// `serialize`.
    Saved,
    /// The debug output.
    Debug,
    /// Comparisons with an interner of these texts, and with its frozen forms.
    Compare(Vec<String>),
}

/// A call of a walk.
#[derive(Clone, Copy)]
pub enum Move {
    /// `next`.
    Next,
    /// `next_back`.
    Back,
    /// `nth`.
    Nth(usize),
    /// `nth_back`.
    NthBack(usize),
    /// `len` and `size_hint`.
    Left,
    /// `clone`, once: the walk makes the moves that follow, and then its clone makes them.
    Copy,
}

/// Parses the words of a line as a command. `None` if they are not a command.
pub fn parse_command(alloc: Global, words: &[&str]) -> Result<Option<RodeoCommand>, AllocError> {
    match words {
        ["clear"] => Ok(Some(RodeoCommand::Clear)),
        ["freeze"] => Ok(Some(RodeoCommand::Freeze)),
        ["room", strings] => Ok(parse_number(strings).map(RodeoCommand::Room)),
        ["load", value] => Ok(parse_value(alloc, value)?.ok().map(RodeoCommand::Load)),
        [first, others @ ..] => parse_other(alloc, words, first, others),
        [] => Ok(None),
    }
}

fn parse_other(
    alloc: Global,
    words: &[&str],
    first: &str,
    others: &[&str],
) -> Result<Option<RodeoCommand>, AllocError> {
    if let Some(way) = parse_way(alloc, first, others)? {
        return Ok(Some(RodeoCommand::Intern(way)));
    }
    if let Some(change) = parse_change(alloc, first, others)? {
        return Ok(Some(RodeoCommand::Change(change)));
    }
    if let Some(look) = parse_look(alloc, first, others)? {
        return Ok(Some(RodeoCommand::Look(look)));
    }
    Ok(parse_call(alloc, words)?.map(RodeoCommand::Call))
}

fn parse_way(alloc: Global, first: &str, others: &[&str]) -> Result<Option<Way>, AllocError> {
    let [word] = others else {
        return Ok(None);
    };
    match first {
        "plain" => Ok(parse_text(alloc, word)?.map(Way::Plain)),
        "keep" => Ok(parse_static(alloc, word)?.map(Way::TryStatic)),
        "keepplain" => Ok(parse_static(alloc, word)?.map(Way::Static)),
        _ => Ok(None),
    }
}

// The static texts of scripts.
static STATIC_TEXTS: [&str; 6] = [
    "",
    "x",
    "gdfg",
    "0123456789",
    "Hello, world!",
    "a static text",
];

// Parses one of the static texts.
fn parse_static(alloc: Global, word: &str) -> Result<Option<&'static str>, AllocError> {
    let Some(text) = parse_text(alloc, word)? else {
        return Ok(None);
    };
    for known in STATIC_TEXTS.iter() {
        if *known == text.as_str() {
            return Ok(Some(*known));
        }
    }
    Ok(None)
}

// The words that an interner is made from, by their name.
fn parse_words(name: &str) -> Option<&'static [&'static str]> {
    match name {
        "none" => Some(&[]),
        "two" => Some(&["p", "q"]),
        "four" => Some(&[
            "if",
            "else",
            "while",
            "a word of more bytes than an entry has",
        ]),
        _ => None,
    }
}

fn parse_change(alloc: Global, first: &str, others: &[&str]) -> Result<Option<Change>, AllocError> {
    match (first, others) {
        ("clone", []) => Ok(Some(Change::Clone)),
        ("tryclone", []) => Ok(Some(Change::TryClone)),
        ("swap", []) => Ok(Some(Change::Swap)),
        ("words", [name]) => Ok(parse_words(name).map(Change::Words)),
        ("clonefrom", texts) => Ok(parse_texts(alloc, texts)?.map(Change::CloneFrom)),
        ("tryclonefrom", texts) => Ok(parse_texts(alloc, texts)?.map(Change::TryCloneFrom)),
        ("fill", texts) => Ok(parse_texts(alloc, texts)?.map(Change::Fill)),
        ("collect", texts) => Ok(parse_texts(alloc, texts)?.map(Change::Collect)),
        _ => Ok(None),
    }
}

fn parse_look(alloc: Global, first: &str, others: &[&str]) -> Result<Option<Look>, AllocError> {
    match (first, others) {
        ("stands", [number]) => Ok(parse_number(number).map(Look::Stands)),
        ("empty", []) => Ok(Some(Look::Empty)),
        ("loop", []) => Ok(Some(Look::Loop)),
        ("saved", []) => Ok(Some(Look::Saved)),
        ("debug", []) => Ok(Some(Look::Debug)),
        ("walk", moves) => Ok(parse_moves(alloc, moves)?.map(Look::Walk)),
        ("strings", moves) => Ok(parse_moves(alloc, moves)?.map(Look::Strings)),
        ("compare", texts) => Ok(parse_texts(alloc, texts)?.map(Look::Compare)),
        _ => Ok(None),
    }
}

fn parse_moves(alloc: Global, words: &[&str]) -> Result<Option<Vec<Move>>, AllocError> {
    let mut moves = Vec::new(alloc);
    for word in words {
        let Some(step) = parse_move(word) else {
            return Ok(None);
        };
        moves.push(step)?;
    }
    Ok(Some(moves))
}

fn parse_move(word: &str) -> Option<Move> {
    match word {
        "next" => Some(Move::Next),
        "back" => Some(Move::Back),
        "nth0" => Some(Move::Nth(0)),
        "nth1" => Some(Move::Nth(1)),
        "nthback0" => Some(Move::NthBack(0)),
        "nthback1" => Some(Move::NthBack(1)),
        "nthback2" => Some(Move::NthBack(2)),
        "left" => Some(Move::Left),
        "copy" => Some(Move::Copy),
        _ => None,
    }
}
