//! The lines of a stretch of the input: bytes that are in memory at one time.
//!
//! A stretch is tested once, for all its lines: for UTF-8, and for the first byte of the mark. A line feed is
//! ASCII, so a line that ends in the tested bytes is UTF-8 without the mark, and so are the tested bytes after it.
ghost use Rattle.std.specs.Prelude.{◌≡◌, ◌-◌, ◌<◌, ◌≤◌, ◌++◌, ◌∷◌, [], MatchOption, IfSome, IsTrue, IsUtf8, length, take};
ghost use Rattle.lasso_input.specs.Lines.{NoFeed, lines_of};
ghost use Rattle.lasso_input.specs.Skipping.{AreSkipped};
ghost use Rattle.lasso_input.specs.Texts.{IsPlain};

use crate::escaping::FIRST_OF_MARK;
use crate::line::Line;
use crate::newlines::{after_newline, find_newline};
use crate::skipping::skip_lines;
use lasso_parts::keys::Key;
use lasso_single::batch::{Batch, TOGETHER, look_ahead};
use lasso_single::rodeo::Rodeo;
use memchr::memchr;
use std::alloc::Allocator;
use std::hash::BuildHasher;
use std::marker::Model;
use std::str::from_utf8;

/// The rest of a stretch, which starts at a line. Contracts see these bytes.
#[derive(Drop)]
pub struct Stretch<'a> {
    rest: &'a [u8],
    // how many bytes at the end are not known to be plain: UTF-8 without the first byte of the mark
    untested: usize,
}

impl<'a> Model for Stretch<'a> {
    ghost use Rattle.std.specs.Prelude.{ℕ, ◌-◌, List, length, take};
    ghost use Rattle.lasso_input.specs.Texts.{IsPlain};

    ghost Value = { List ℕ };

    ghost view = { λ s. s.rest.now };

    ghost invariant = { λ s. IsPlain (take (length s.rest.now - s.untested) s.rest.now) };
}

impl<'a> Stretch<'a> {
    /// All bytes, of which none is taken yet.
    #[inline]
    pub fn new(bytes: &'a [u8]) -> Self
        ensures { result ≡ bytes.now }
    {
        Stretch {
            rest: bytes,
            untested: untested_len(bytes),
        }
    }

    /// The bytes that are left.
    #[inline(always)]
    pub fn rest(&self) -> &'a [u8]
        ensures { result.now ≡ self.now }
    {
        self.rest
    }

    /// Takes the next line that a line feed ends, with the line feed. `None` if no line feed is left: nothing
    /// is taken.
    #[inline(always)]
    pub fn next_ended(&mut self) -> Option<Line<'a>>
        ensures line { MatchOption result (NoFeed self.old × (self.new ≡ self.old)) (λ line. NoFeed line × (self.old ≡ line ++ 10 ∷ self.new)) }
        ensures less { IfSome result (λ _. length self.new < length self.old) }
    {
        let rest = self.rest;
        let untested = self.untested;
        let Some(at) = find_newline(rest) else {
            return None;
        };
        self.rest = after_newline(rest, at);
        Some(Line::tested(&rest[..at], untested < rest.len() - at))
    }

    /// Takes the next line. Bytes after the last line feed are a line too. `None` if no byte is left.
    #[inline(always)]
    pub fn next_line(&mut self) -> Option<Line<'a>>
        ensures lines { MatchOption result (self.old ≡ []) (λ line. lines_of self.old ≡ line ∷ lines_of self.new) }
        ensures less { IfSome result (λ _. length self.new < length self.old) }
    {
        if let Some(line) = self.next_ended() {
            return Some(line);
        }
        let last = self.rest;
        if last.is_empty() {
            return None;
        }
        self.rest = &[];
        Some(Line::tested(last, self.untested == 0))
    }

    /// Skips the next lines that a line feed ends, at most `most` of them, and returns how many it skipped. It may
    /// skip fewer though more are left: a caller goes on with `next_line`.
    #[inline(always)]
    pub fn skip(&mut self, most: usize) -> usize
        ensures most { result ≤ most }
        ensures skipped { AreSkipped self.old result self.new }
        ensures less { length self.new ≤ length self.old }
    {
        let rest = self.rest;
        let (count, end) = skip_lines(rest, most);
        if count > 0 {
            self.rest = after_newline(rest, end - 1);
        }
        count
    }

    /// Looks ahead at the next lines, if that is due and pays: up to the first that is not UTF-8.
    /// The caller then interns or looks for them with `batch`, line by line.
    #[inline(always)]
    pub fn look_ahead<K: Key, S: BuildHasher, A: Allocator>(
        &self,
        rodeo: &Rodeo<K, S, A>,
        batch: &mut Batch,
    ) {
        if batch.is_due() {
            look_ahead_at(self.copy(), rodeo, batch);
        }
    }

    /// Whether all bytes that are left are known to be UTF-8. They are if the stretch is UTF-8 and has no character
    /// from U+100000 on.
    #[inline(always)]
    pub fn is_text(&self) -> bool
        ensures { IsTrue result → IsUtf8 self.now }
    {
        self.untested == 0
    }

    /// Copies the reference to the bytes. They are not tested again.
    #[inline(always)]
    pub fn copy(&self) -> Stretch<'a>
        ensures { result ≡ self.now }
    {
        Stretch {
            rest: self.rest,
            untested: self.untested,
        }
    }
}

// Looks ahead at the first lines that a line feed ends. By value, so that the caller's stretch may stay in
// registers.
#[inline(never)]
fn look_ahead_at<K: Key, S: BuildHasher, A: Allocator>(
    lines: Stretch<'_>,
    rodeo: &Rodeo<K, S, A>,
    batch: &mut Batch,
) {
    let mut lines = lines;
    let mut texts = [""; TOGETHER];
    let mut count = 0;
    while count < TOGETHER {
        let Some(line) = lines.next_ended() else {
            break;
        };
        let Ok(text) = line.text() else {
            break;
        };
        texts[count] = text;
        count += 1;
    }
    look_ahead(rodeo, &texts[..count], batch);
}

// How many bytes at the end are not known to be plain. The bytes before them are. Tests for ASCII first, which
// is faster.
fn untested_len(bytes: &[u8]) -> usize
    ensures { IsPlain (take (length bytes.now - result) bytes.now) }
{
    if bytes.is_ascii() {
        return 0;
    }
    let len = utf8_len(bytes);
    match memchr(FIRST_OF_MARK, &bytes[..len]) {
        Some(_) => bytes.len(),
        None => bytes.len() - len,
    }
}

// How many bytes at the begin are UTF-8.
fn utf8_len(bytes: &[u8]) -> usize
    ensures within { result ≤ length bytes.now }
    ensures text { IsUtf8 (take result bytes.now) }
{
    match from_utf8(bytes) {
        Ok(_) => bytes.len(),
        Err(error) => error.valid_up_to(),
    }
}
