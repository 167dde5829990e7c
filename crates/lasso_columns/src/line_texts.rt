//! Turns the lines of blocks into their texts.
ghost use Rattle.std.specs.Prelude.{◌≡◌, ◌++◌, true, false, IfOk, OnOk, map};
ghost use Rattle.hex.specs.Hex.{IsBytes};
ghost use Rattle.lasso_columns.specs.Streams.{BecomeTexts, lines_in};
ghost use Rattle.lasso_columns.specs.Texts.{text_by, texts_by};
ghost use Rattle.lasso_input.specs.Lines.{lines_of};
ghost use Rattle.lasso_input.specs.Texts.{escaped};

use crate::reading_blocks::Blocks;
use lasso_input::{Line, Stretch, append_escaped, is_let_in, own_text};
use std::alloc::{AllocError, Global};
use std::io;
use std::io::ErrorKind;

/// How lines get texts.
#[derive(Clone, Copy, Debug, PartialEq, Eq)]
pub enum LineTexts {
    /// Each line is its own text. One that is not UTF-8 is refused.
    Own,
    /// Lines have the texts of `lasso_input::text_of`. `OfBytes(true)` refuses a line that is not UTF-8.
    OfBytes(bool),
}

// Puts the texts of their lines into the blocks. If memory runs out, the blocks from there on are lost.
pub(crate) fn with_texts(alloc: Global, read: Blocks, by: LineTexts) -> Blocks
    ensures { BecomeTexts by read.blocks.items read.more result.blocks.items result.more }
{
    let LineTexts::OfBytes(only_utf8) = by else {
        return read;
    };
    let Blocks { mut blocks, more } = read;
    for i in 0..blocks.len() {
        if are_own_texts(&blocks[i]) {
            continue;
        }
        let Ok(texts) = text_block(alloc, &blocks[i], only_utf8) else {
            blocks.truncate(i);
            return Blocks {
                blocks,
                more: Err(io::Error::from(ErrorKind::OutOfMemory)),
            };
        };
        blocks[i] = texts;
    }
    Blocks { blocks, more }
}

// Whether each line of the bytes is its own text. Tests for ASCII first, which is faster. Contracts see too that
// the bytes are bytes: numbers below 256.
fn are_own_texts(bytes: &[u8]) -> bool
    ensures bytes { IsBytes bytes.now }
    ensures own { (only : _) → result ≡ true → map (text_by only) (lines_of bytes.now) ≡ lines_of bytes.now }
{
    if bytes.is_ascii() {
        return true;
    }
    let mut lines = Stretch::new(bytes);
    while let Some(line) = lines.next_line() {
        let Some(_) = own_text(&line) else {
            return false;
        };
    }
    true
}

// The texts of the lines of the bytes, each with a line feed.
fn text_block(alloc: Global, bytes: &[u8], only_utf8: bool) -> Result<Vec<u8>, AllocError>
    ensures { IfOk result (λ texts. lines_of texts.items ≡ map (text_by only_utf8) (lines_of bytes.now)) }
{
    let mut texts = Vec::new(alloc);
    let mut lines = Stretch::new(bytes);
    while let Some(line) = lines.next_line() {
        append_text(&mut texts, &line, only_utf8)?;
        texts.push(b'\n')?;
    }
    Ok(texts)
}

// Appends the text of the line. If only UTF-8 is let in, a line that is not UTF-8 is appended as it is, and refused
// later.
fn append_text(texts: &mut Vec<u8>, line: &Line<'_>, only_utf8: bool) -> Result<(), AllocError>
    ensures { OnOk result (texts.new.items ≡ texts.old.items ++ text_by only_utf8 line.now) }
{
    if stays(line, only_utf8) {
        return texts.extend_from_slice(line.bytes());
    }
    append_escaped(texts, line.bytes())
}

// Whether the line stays as it is: it is its own text, or is refused.
fn stays(line: &Line<'_>, only_utf8: bool) -> bool
    ensures line { result ≡ true → text_by only_utf8 line.now ≡ line.now }
    ensures text { result ≡ false → text_by only_utf8 line.now ≡ escaped line.now }
{
    match own_text(line) {
        Some(_) => true,
        None => !is_let_in(line, only_utf8),
    }
}
