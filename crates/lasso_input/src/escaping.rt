//! Texts for lines of any bytes: a line that can't be its own text is escaped.
//!
//! A line that is UTF-8 and doesn't begin with the mark is its own text. The text of any other line is the mark
//! and then the line's bytes as digits. So an interner of texts can hold lines of any bytes.
ghost use Rattle.std.specs.Prelude.{◌≡◌, ◌*◌, ◌+◌, ◌≤◌, ◌++◌, true, false, IfOk, OnOk, IsOkAnd, MatchOption, length};
ghost use Rattle.std.specs.Cow.{cow_slice_items, cow_str_bytes, IsBorrowedSlice, IsBorrowedStr};
ghost use Rattle.std.specs.String.{string_bytes};
ghost use Rattle.lasso_input.specs.Texts.{escaped, is_let_in, is_marked, is_own_text, line_of, text_of};

use crate::digits::{append_read, put_digits};
use crate::line::Line;
use std::alloc::{AllocError, Allocator};
use std::borrow::{CowSlice, CowStr};
use std::str::from_utf8_unchecked;

/// The mark: the first character of a text that is not its own line. Unicode assigns it to no use.
pub const MARK: char = '\u{10FFFF}';

// The mark in UTF-8.
const MARK_BYTES: [u8; 4] = [FIRST_OF_MARK, 0x8F, 0xBF, 0xBF];

// The first byte of the mark in UTF-8.
pub(crate) const FIRST_OF_MARK: u8 = 0xF4;

/// The text of the line. A line that is its own text is borrowed. Any other line's text is the mark and then
/// the line's bytes as lower-case hexadecimal digits, two a byte.
///
/// # Errors
/// Out of memory, but never for a line that is its own text.
#[inline(always)]
pub fn text_of<'a, A: Allocator>(alloc: A, line: &Line<'a>) -> Result<CowStr<'a, A>, AllocError>
    ensures text { IfOk result (λ text. cow_str_bytes text ≡ text_of line.now) }
    ensures own { is_own_text line.now ≡ true → IsOkAnd result IsBorrowedStr }
{
    match own_text(line) {
        Some(text) => Ok(CowStr::Borrowed(text)),
        None => Ok(CowStr::Owned(escape(alloc, line.bytes())?)),
    }
}

/// The line as a text, if it is its own text.
#[inline(always)]
pub fn own_text<'a>(line: &Line<'a>) -> Option<&'a str>
    ensures { MatchOption result (is_own_text line.now ≡ false) (λ text. (text.now ≡ line.now) × (is_own_text line.now ≡ true)) }
{
    let Ok(text) = line.text() else {
        return None;
    };
    if begins_with_mark(line) {
        return None;
    }
    Some(text)
}

// Whether the line begins with the mark. A plain line doesn't.
#[inline(always)]
fn begins_with_mark(line: &Line<'_>) -> bool
    ensures { result ≡ is_marked line.now }
{
    if line.is_plain() {
        return false;
    }
    is_marked(line.bytes())
}

/// Whether the line is let in: any line, or only one that is UTF-8.
#[inline(always)]
pub fn is_let_in(line: &Line<'_>, only_utf8: bool) -> bool
    ensures { result ≡ is_let_in only_utf8 line.now }
{
    if !only_utf8 {
        return true;
    }
    match line.text() {
        Ok(_) => true,
        Err(_) => false,
    }
}

/// The line that has this text. After the mark, digits of both cases are read. A text that begins with the mark,
/// but doesn't go on with two digits for each byte, is the text of no line, and is returned as it is.
///
/// # Errors
/// Out of memory, but never for a text that doesn't begin with the mark.
pub fn line_of<A: Allocator>(alloc: A, text: &str) -> Result<CowSlice<'_, u8, A>, AllocError>
    ensures line { IfOk result (λ line. cow_slice_items line ≡ line_of text.now) }
    ensures own { is_marked text.now ≡ false → IsOkAnd result IsBorrowedSlice }
{
    let bytes = text.as_bytes();
    if !is_marked(bytes) {
        return Ok(CowSlice::Borrowed(bytes));
    }
    let mut line = Vec::new(alloc);
    append_line(&mut line, text)?;
    Ok(CowSlice::Owned(line))
}

/// Appends the line that has this text, as `line_of` returns it.
///
/// # Errors
/// Out of memory.
pub fn append_line<A: Allocator>(lines: &mut Vec<u8, A>, text: &str) -> Result<(), AllocError>
    ensures { OnOk result (lines.new.items ≡ lines.old.items ++ line_of text.now) }
{
    let bytes = text.as_bytes();
    if !is_marked(bytes) {
        return lines.extend_from_slice(bytes);
    }
    let is_read = append_read(lines, &bytes[MARK_BYTES.len()..])?;
    if is_read {
        Ok(())
    } else {
        lines.extend_from_slice(bytes)
    }
}

/// Whether the bytes begin with the mark. A text that doesn't is its own line.
#[inline(always)]
pub fn is_marked(bytes: &[u8]) -> bool
    ensures value { result ≡ is_marked bytes.now }
    ensures room { result ≡ true → 4 ≤ length bytes.now }
{
    bytes.starts_with(&MARK_BYTES)
}

/// The text of a line that is not its own text, made in the buffer, whose bytes are lost.
///
/// # Errors
/// Out of memory.
#[inline]
pub fn escape_in<'a, A: Allocator>(
    buffer: &'a mut Vec<u8, A>,
    bytes: &[u8],
) -> Result<&'a str, AllocError>
    ensures { IfOk result (λ text. text.now ≡ escaped bytes.now) }
{
    buffer.clear();
    append_escaped(buffer, bytes)?;
    Ok(unsafe { from_utf8_unchecked(buffer.as_slice()) })
}

/// Appends the text of a line that is not its own text: the mark, and then the digits of its bytes. Asks for the
/// memory of just these bytes if there is none.
///
/// # Errors
/// Out of memory.
#[inline]
pub fn append_escaped<A: Allocator>(texts: &mut Vec<u8, A>, bytes: &[u8]) -> Result<(), AllocError>
    ensures { OnOk result (texts.new.items ≡ texts.old.items ++ escaped bytes.now) }
{
    let Some(digits) = bytes.len().checked_mul(2) else {
        return Err(AllocError);
    };
    let Some(len) = digits.checked_add(MARK_BYTES.len()) else {
        return Err(AllocError);
    };
    let start = texts.len();
    let Some(end) = start.checked_add(len) else {
        return Err(AllocError);
    };
    texts.reserve(len)?;
    texts.resize(end, 0)?;
    put_escaped(bytes, texts.slice_mut(start..));
    Ok(())
}

// Fills `text` with the mark and then the digits of the bytes.
#[inline(always)]
fn put_escaped(bytes: &[u8], text: &mut [u8])
    requires { length text.old ≡ 4 + 2 * length bytes.now }
    ensures { text.new ≡ escaped bytes.now }
{
    let (mark, digits) = text.split_at_mut(MARK_BYTES.len());
    mark.copy_from_slice(&MARK_BYTES);
    put_digits(bytes, digits);
}

// The mark, and then the digits of the bytes.
#[cold]
#[inline(never)]
fn escape<A: Allocator>(alloc: A, bytes: &[u8]) -> Result<String<A>, AllocError>
    ensures { IfOk result (λ text. string_bytes text ≡ escaped bytes.now) }
{
    let mut text = Vec::new(alloc);
    append_escaped(&mut text, bytes)?;
    Ok(unsafe { String::from_utf8_unchecked(text) })
}
