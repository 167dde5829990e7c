//! The right to read the bytes of an entry's text; the entry's two words say where they are and how many they
//! are.
//!
//! An arena's bytes are read by a `&` to its regions, so the loan of such a text owns nothing: it is the
//! span, in proofs alone. A `&'static str` is two words, and a `&` to each of its bytes that never ends. A
//! loan keeps that without the words, so that it names no lifetime. A `&'static str` in its place would give
//! a lifetime to each type that holds a list of entries, and a value of such a type can't be boxed as a trait
//! object.
ghost use Rattle.std.specs.Prelude.{◌≡◌, length, IsUtf8};
ghost use Rattle.lasso_parts.specs.Loans.{lent_for_ever};
ghost use Rattle.lasso_parts.specs.Entries.{LentText, AreWordsOf, IsLent, lent_bytes, Copied, Static};

use crate::bucket::region::Region;
use std::marker::{Model, Send, Sync};
use std::slice;

/// The right to read an entry's text. It takes no space.
#[derive(Drop)]
pub(super) struct Loan {
    ghost text: { LentText },
}

impl Model for Loan {
    ghost also_owns = { λ l. lent_for_ever l.text.source l.text.at };

    ghost also_shares = { λ l _ _. lent_for_ever l.text.source l.text.at };
}

unsafe impl Send for Loan {}

unsafe impl Sync for Loan {}

impl Loan {
    // The right to read these bytes, and where they lie.
    pub(super) fn for_ever(bytes: &'static [u8]) -> (*const u8, Loan)
        requires { IsUtf8 bytes.now }
        ensures { (result.1.text ≡ record { at = result.0; source = Static bytes.now }) × AreWordsOf result.1.text result.0 (length bytes.now) }
    {
        (bytes.as_ptr(), Loan {})
    }

    // The right to read the bytes of a span, of which the first lies there.
    pub(super) fn among_regions(_ptr: *const u8, _region: usize, _start: usize, _len: usize) -> Loan
        ensures { result.text ≡ record { at = _ptr; source = Copied (record { region = _region; start = _start; len = _len }) } }
    {
        Loan {}
    }

    // The bytes, where they lie.
    #[inline]
    pub(super) fn read<'a>(&'a self, regions: &'a [Region], ptr: *const u8, len: usize) -> &'a [u8]
        requires { IsLent regions.now self.now.text × AreWordsOf self.now.text ptr len }
        ensures { result.now ≡ lent_bytes regions.now self.now.text }
    {
        unsafe { slice::from_raw_parts(ptr, len) }
    }
}
