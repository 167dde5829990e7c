//! Writes replies, each as a line.
use lasso::{Iter, JsonError, Key, LassoErrorKind, LassoResult, Strings};
use serde_json::Value;
use std::alloc::Global;
use std::io::Write;
use std::{fmt, io};

/// `key N`, or the refusal.
pub fn write_interned<K: Key, W: Write>(out: &mut W, outcome: LassoResult<K>) -> io::Result<()> {
    match outcome {
        Ok(key) => write_key(out, key),
        Err(error) => write_refusal(out, error.kind()),
    }
}

/// `key N`.
pub fn write_key<K: Key, W: Write>(out: &mut W, key: K) -> io::Result<()> {
    let number = key.into_usize();
    writeln!(out, "key {number}")
}

/// `found N`, or `found none`.
pub fn write_found<K: Key, W: Write>(out: &mut W, found: Option<K>) -> io::Result<()> {
    match found {
        Some(key) => {
            let number = key.into_usize();
            writeln!(out, "found {number}")
        }
        None => writeln!(out, "found none"),
    }
}

/// `flag true`, or `flag false`.
pub fn write_flag<W: Write>(out: &mut W, flag: bool) -> io::Result<()> {
    writeln!(out, "flag {flag}")
}

/// `number N`.
pub fn write_number<W: Write>(out: &mut W, number: usize) -> io::Result<()> {
    writeln!(out, "number {number}")
}

/// `done`, or the refusal.
pub fn write_outcome<W: Write>(out: &mut W, outcome: LassoResult<()>) -> io::Result<()> {
    match outcome {
        Ok(()) => writeln!(out, "done"),
        Err(error) => write_refusal(out, error.kind()),
    }
}

/// `refused`, and the kind of the error.
pub fn write_refusal<W: Write>(out: &mut W, kind: LassoErrorKind) -> io::Result<()> {
    let kind = match kind {
        LassoErrorKind::MemoryLimitReached => "MemoryLimitReached",
        LassoErrorKind::KeySpaceExhaustion => "KeySpaceExhaustion",
        LassoErrorKind::FailedAllocation => "FailedAllocation",
    };
    writeln!(out, "refused {kind}")
}

/// `text` and the text in hexadecimal digits, or `text none`.
pub fn write_text<W: Write>(out: &mut W, text: Option<&str>) -> io::Result<()> {
    let Some(text) = text else {
        return writeln!(out, "text none");
    };
    write!(out, "text ")?;
    write_digits(out, text)?;
    writeln!(out)
}

/// The text by each of two calls, or `text none`.
pub fn write_resolved<W: Write>(out: &mut W, texts: Option<(&str, &str)>) -> io::Result<()> {
    match texts {
        Some((first, second)) => {
            write_text(out, Some(first))?;
            write_text(out, Some(second))
        }
        None => write_text(out, None),
    }
}

/// `pair`, the key's number and the text in hexadecimal digits, or `pair none`.
pub fn write_pair<K: Key, W: Write>(out: &mut W, pair: Option<(K, &str)>) -> io::Result<()> {
    let Some((key, text)) = pair else {
        return writeln!(out, "pair none");
    };
    let number = key.into_usize();
    write!(out, "pair {number}")?;
    write_item(out, text)?;
    writeln!(out)
}

/// The pairs of a loop, each as a line.
pub fn write_pairs<K: Key, W: Write>(out: &mut W, pairs: Iter<'_, K>) -> io::Result<()> {
    for (key, text) in pairs {
        write_pair(out, Some((key, text)))?;
    }
    Ok(())
}

/// `left`, the length of a walk, and its size hint.
pub fn write_left<W: Write>(
    out: &mut W,
    len: usize,
    hint: (usize, Option<usize>),
) -> io::Result<()> {
    match hint {
        (low, Some(high)) => writeln!(out, "left {len} {low} {high}"),
        (low, None) => writeln!(out, "left {len} {low} none"),
    }
}

/// `flags`, and each flag.
pub fn write_flags<W: Write>(out: &mut W, flags: (bool, bool, bool, bool)) -> io::Result<()> {
    let (first, second, third, fourth) = flags;
    writeln!(out, "flags {first} {second} {third} {fourth}")
}

/// `no call`: this form of interner has no such call.
pub fn write_no_call<W: Write>(out: &mut W) -> io::Result<()> {
    writeln!(out, "no call")
}

/// The debug output, as a text.
pub fn write_debug<T: fmt::Debug, W: Write>(
    alloc: Global,
    out: &mut W,
    form: &T,
) -> io::Result<()> {
    let printed = format!(in alloc; "{form:?}")?;
    write_text(out, Some(printed.as_str()))
}

/// The JSON text of the value, as a text, or the error.
pub fn write_saved<W: Write>(
    alloc: Global,
    out: &mut W,
    value: Result<Value, JsonError>,
) -> io::Result<()> {
    match value {
        Ok(value) => write_text(out, Some(value.to_string(alloc)?.as_str())),
        Err(error) => write_json_error(out, error),
    }
}

/// `list`, and each text in hexadecimal digits after a space.
pub fn write_list<K: Key, W: Write>(out: &mut W, texts: Strings<'_, K>) -> io::Result<()> {
    write!(out, "list")?;
    for text in texts {
        write_item(out, text)?;
    }
    writeln!(out)
}

// The text in hexadecimal digits after a space.
fn write_item<W: Write>(out: &mut W, text: &str) -> io::Result<()> {
    write!(out, " ")?;
    write_digits(out, text)
}

/// `fault`, the kind of the error, and the position of the item that it is about. Out of memory is written as
/// a refusal.
pub fn write_json_error<W: Write>(out: &mut W, error: JsonError) -> io::Result<()> {
    let (name, item) = match error {
        JsonError::NotAnArray => ("NotAnArray", None),
        JsonError::NotText(at) => ("NotText", Some(at)),
        JsonError::Doubled(at) => ("Doubled", Some(at)),
        JsonError::TooMany(at) => ("TooMany", Some(at)),
        JsonError::NotAnObject => ("NotAnObject", None),
        JsonError::NotAPosition(at) => ("NotAPosition", Some(at)),
        JsonError::Taken(at) => ("Taken", Some(at)),
        JsonError::Lasso(kind) => return write_refusal(out, kind),
        JsonError::NotAKey => ("NotAKey", None),
    };
    write_fault(out, name, item)
}

// `fault`, the kind of the error, and the position of the item that it is about, if it is about one.
fn write_fault<W: Write>(out: &mut W, name: &str, item: Option<usize>) -> io::Result<()> {
    match item {
        Some(at) => writeln!(out, "fault {name} {at}"),
        None => writeln!(out, "fault {name}"),
    }
}

// Writes the text in hexadecimal digits, two for each byte; `-` is the empty text.
fn write_digits<W: Write>(out: &mut W, text: &str) -> io::Result<()> {
    if text.is_empty() {
        return write!(out, "-");
    }
    for byte in text.as_bytes() {
        write!(out, "{byte:02x}")?;
    }
    Ok(())
}
