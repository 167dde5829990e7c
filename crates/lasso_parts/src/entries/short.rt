//! Short texts, each in an array.
ghost use Rattle.std.specs.Prelude.{◌≡◌, ◌≤◌, ◌<◌, ◌*◌, [], length, take, IfSome, IfNone};

use crate::chunks::{first, last};
use std::marker::Model;
use std::str::from_utf8_unchecked;

/// The most bytes of a short text.
pub const SHORT: usize = 14;

/// A text of at most 14 bytes, at the front of an array. Contracts see the text.
#[derive(Drop)]
pub struct ShortText {
    len: u8,
    bytes: [u8; SHORT],
}

impl Model for ShortText {
    ghost use Rattle.lasso_parts.specs.Short.{front, IsShort};
    ghost use Rattle.lasso_parts.specs.Texts.{Text};

    ghost Value = { Text };

    ghost view = { λ s. front s.len s.bytes };

    ghost invariant = { λ s. IsShort s.len s.bytes };
}

impl ShortText {
    /// The empty text.
    #[inline]
    pub fn empty() -> Self
        ensures { result ≡ [] }
    {
        ShortText {
            len: 0,
            bytes: [0; SHORT],
        }
    }

    /// The text, if it is short.
    #[inline]
    pub fn of(text: &str) -> Option<Self>
        ensures short { IfSome result (λ s. s ≡ text.now) }
        ensures longer { IfNone result (SHORT < length text.now) }
    {
        if text.len() > SHORT {
            return None;
        }
        let mut short = ShortText::empty();
        short.put(text);
        Some(short)
    }

    /// Puts a text of at most 14 bytes in place of this one.
    #[inline(always)]
    pub(crate) fn put(&mut self, text: &str)
        requires { length text.now ≤ SHORT }
        ensures { self.new ≡ text.now }
    {
        let text = text.as_bytes();
        let len = text.len();
        if len >= 8 {
            put_ends::<8>(&mut self.bytes, text);
        } else if len >= 4 {
            put_ends::<4>(&mut self.bytes, text);
        } else if len >= 2 {
            put_ends::<2>(&mut self.bytes, text);
        } else if len == 1 {
            put_ends::<1>(&mut self.bytes, text);
        }
        self.len = len as u8;
    }

    /// The text.
    #[inline]
    pub fn as_str(&self) -> &str
        ensures { result.now ≡ self.now }
    {
        unsafe { from_utf8_unchecked(&self.bytes[..self.len as usize]) }
    }
}

// Puts a text at the front of an array. Its first N bytes and its last N are all of it, and each is one move. Both are
// read first, so that neither move is tested for whether they overlap.
#[inline(always)]
fn put_ends<const N: usize>(bytes: &mut [u8; SHORT], text: &[u8])
    requires ends { N ≤ length text.now }
    requires all { length text.now ≤ 2 * N }
    requires short { length text.now ≤ SHORT }
    ensures { take (length text.now) bytes.new ≡ text.now }
{
    let rest = text.len() - N;
    let (head, tail) = (*first::<N>(text), *last::<N>(text));
    bytes[..N].copy_from_slice(&head);
    bytes[rest..text.len()].copy_from_slice(&tail);
}
