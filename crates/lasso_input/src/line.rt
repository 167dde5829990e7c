//! A line of an input.
ghost use Rattle.std.specs.Prelude.{◌≡◌, true, IfSome, MatchResult, IsTrue, IsUtf8};
ghost use Rattle.lasso_input.specs.Texts.{is_own_text, IsPlain};

use std::marker::Model;
use std::str::{Utf8Error, from_utf8, from_utf8_unchecked};

/// A line, without the line feed that ends it, and whether it is known to be plain: UTF-8 without the mark in
/// front. Contracts see its bytes.
#[derive(Drop)]
pub struct Line<'a> {
    bytes: &'a [u8],
    is_plain: bool,
}

impl<'a> Model for Line<'a> {
    ghost use Rattle.std.specs.Prelude.{ℕ, List, IsTrue};
    ghost use Rattle.lasso_input.specs.Texts.{IsPlain};

    ghost Value = { List ℕ };

    ghost view = { λ l. l.bytes.now };

    ghost invariant = { λ l. IsTrue l.is_plain → IsPlain l.bytes.now };
}

impl<'a> Line<'a> {
    /// A line of any bytes. `text` tests them.
    #[inline(always)]
    pub fn untested(bytes: &'a [u8]) -> Self
        ensures { result ≡ bytes.now }
    {
        Line {
            bytes,
            is_plain: false,
        }
    }

    // A line of these bytes. `is_plain`: they were tested, and are UTF-8 without the mark in front.
    #[inline(always)]
    pub(crate) fn tested(bytes: &'a [u8], is_plain: bool) -> Self
        requires { IsTrue is_plain → IsPlain bytes.now }
        ensures { result ≡ bytes.now }
    {
        Line { bytes, is_plain }
    }

    // Whether the line is known to be plain.
    #[inline(always)]
    pub(crate) fn is_plain(&self) -> bool
        ensures { IsTrue result → IsPlain self.now }
    {
        self.is_plain
    }

    /// The bytes of the line.
    #[inline(always)]
    pub fn bytes(&self) -> &'a [u8]
        ensures { result.now ≡ self.now }
    {
        self.bytes
    }

    /// The line as a `str`, if it is known to be plain, and so its own text: nothing is tested.
    #[inline(always)]
    pub fn plain_text(&self) -> Option<&'a str>
        ensures { IfSome result (λ text. (text.now ≡ self.now) × (is_own_text self.now ≡ true)) }
    {
        if self.is_plain {
            return Some(unsafe { from_utf8_unchecked(self.bytes) });
        }
        None
    }

    /// The line as a `str`.
    ///
    /// # Errors
    /// The line is not UTF-8.
    #[inline(always)]
    pub fn text(&self) -> Result<&'a str, Utf8Error>
        ensures { MatchResult result (λ text. (text.now ≡ self.now) × IsUtf8 self.now) (λ _. ¬ (IsUtf8 self.now)) }
    {
        if self.is_plain {
            return Ok(unsafe { from_utf8_unchecked(self.bytes) });
        }
        from_utf8(self.bytes)
    }
}
