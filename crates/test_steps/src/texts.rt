//! Texts of many lengths, and lists of texts.
use lasso_parts::util::{LassoError, LassoErrorKind, LassoResult};
use std::alloc::{AllocError, Global};

/// Lengths of texts in bytes: small ones, ones next to powers of two, and a few large ones.
pub static LENGTHS: [usize; 41] = [
    1, 2, 3, 4, 5, 7, 8, 9, 12, 15, 16, 17, 24, 31, 32, 33, 40, 41, 63, 64, 65, 100, 127, 128, 129,
    255, 256, 257, 511, 513, 1000, 1024, 1025, 2049, 4095, 4096, 4097, 10_001, 65_535, 65_537,
    70_001,
];

// 64 bytes `-`.
const DASHES: &str = "----------------------------------------------------------------";

// So many bytes `-`. Most are put in by 64.
fn dashes(alloc: Global, count: usize) -> Result<String, AllocError> {
    let mut text = DASHES.repeat(alloc, count / 64)?;
    let rest = "-".repeat(alloc, count % 64)?;
    text.push_str(rest.as_str())?;
    Ok(text)
}

/// The letter and then `length - 1` bytes `-`: `length` bytes, at least one, if the letter has one byte.
pub fn lettered(alloc: Global, letter: &str, length: usize) -> Result<String, AllocError> {
    let rest = dashes(alloc, length.saturating_sub(1))?;
    let rest = rest.as_str();
    format!(in alloc; "{letter}{rest}")
}

/// The text of `lettered`, but with `.` as its last byte.
pub fn ended(alloc: Global, letter: &str, length: usize) -> Result<String, AllocError> {
    if length < 2 {
        return format!(in alloc; ".");
    }
    let front = lettered(alloc, letter, length.saturating_sub(1))?;
    let front = front.as_str();
    format!(in alloc; "{front}.")
}

/// The text as a static one. It is never freed.
fn leaked(text: String) -> LassoResult<&'static str> {
    let bytes: &'static [u8] = text.into_bytes().leak();
    match std::str::from_utf8(bytes) {
        Ok(text) => Ok(text),
        Err(_) => Err(LassoError::new(LassoErrorKind::FailedAllocation)),
    }
}

/// The text of `lettered` as a static text. It is never freed.
pub fn lasting(alloc: Global, letter: &str, length: usize) -> LassoResult<&'static str> {
    leaked(lettered(alloc, letter, length)?)
}

/// The text of `ended` as a static text. It is never freed.
pub fn ended_lasting(alloc: Global, letter: &str, length: usize) -> LassoResult<&'static str> {
    leaked(ended(alloc, letter, length)?)
}

/// The text of the letters and the number, as a static text. It is never freed.
pub fn counted(alloc: Global, letters: &str, number: usize) -> LassoResult<&'static str> {
    leaked(format!(in alloc; "{letters}{number}")?)
}

/// The number in five digits, as a static text. It is never freed.
pub fn numeral(alloc: Global, number: usize) -> LassoResult<&'static str> {
    leaked(format!(in alloc; "{number:05}")?)
}

/// The number in five digits and `-` after it, of `length` bytes, as a static text. It is never freed.
pub fn numeral_of(alloc: Global, number: usize, length: usize) -> LassoResult<&'static str> {
    let rest = dashes(alloc, length.saturating_sub(5))?;
    let rest = rest.as_str();
    leaked(format!(in alloc; "{number:05}{rest}")?)
}

/// A list of texts.
#[derive(Clone, Copy)]
pub enum List {
    /// These texts.
    Texts(&'static [&'static str]),
    /// Numbers in five digits, from the first one on and below the second one.
    Numbers(usize, usize),
    /// The numbers below the first one in five digits, but this text at the position, or after them if the list
    /// ends before it.
    But(usize, usize, &'static str),
}

// The numbers from `first` on and below `end` in five digits.
fn numerals(alloc: Global, first: usize, end: usize) -> LassoResult<Vec<&'static str>> {
    let mut items = Vec::new(alloc);
    for number in first..end {
        items.push(numeral(alloc, number)?)?;
    }
    Ok(items)
}

// The numbers below `count`, but the text at this position, or after them.
fn numerals_but(
    alloc: Global,
    count: usize,
    position: usize,
    text: &'static str,
) -> LassoResult<Vec<&'static str>> {
    let mut items = numerals(alloc, 0, position.min(count))?;
    items.push(text)?;
    for number in position.saturating_add(1)..count {
        items.push(numeral(alloc, number)?)?;
    }
    Ok(items)
}

// These texts.
fn copied_of(alloc: Global, texts: &[&'static str]) -> LassoResult<Vec<&'static str>> {
    let mut items = Vec::new(alloc);
    for text in texts.iter() {
        items.push(*text)?;
    }
    Ok(items)
}

/// The texts of the list. Numbers are never freed.
pub fn items_of(alloc: Global, list: List) -> LassoResult<Vec<&'static str>> {
    match list {
        List::Texts(texts) => copied_of(alloc, texts),
        List::Numbers(first, end) => numerals(alloc, first, end),
        List::But(count, position, text) => numerals_but(alloc, count, position, text),
    }
}

/// The numbers of the keys of a list of texts.
#[derive(Clone, Copy)]
pub enum KeyNumbers {
    /// From this one on, each the next.
    From(usize),
    /// These, which are of the first texts.
    Are(&'static [usize]),
    /// Any.
    Any,
}

/// How many keys there are of `count` texts.
pub fn count_of(numbers: KeyNumbers, count: usize) -> usize {
    match numbers {
        KeyNumbers::Are(list) => list.len(),
        _ => count,
    }
}

/// Whether the key of the text at this place may have the number.
pub fn may_have(numbers: KeyNumbers, place: usize, number: usize) -> bool {
    match numbers {
        KeyNumbers::From(first) => number == first.saturating_add(place),
        KeyNumbers::Are(list) => list.get(place) == Some(&number),
        KeyNumbers::Any => true,
    }
}
