//! Texts outside the entries.
ghost use Rattle.std.specs.Prelude.{◌≡◌, ◌≤◌, ◌^◌, ◌↔◌, IsTrue, List};
ghost use Rattle.lasso_parts.specs.Arena.{IsStored, address_of, text_at};
ghost use Rattle.lasso_parts.specs.Bucket.{Extent};
ghost use Rattle.lasso_parts.specs.Entries.{Copied, Static, lent_bytes, source_len, IsLent};

use super::loan::Loan;
use crate::arena::Span;
use crate::bucket::region::Region;
use std::marker::{Model, Send, Sync};
use std::str::from_utf8_unchecked;

// The fewest bytes of a text whose length is too great for an entry.
const VAST: usize = 1 << 32;

/// A text outside the entries: where it is and how many bytes it has. Contracts see the address and the source:
/// the span that an arena copied the text to, or the text that the program keeps for as long as it runs.
#[derive(Drop)]
pub struct LongText {
    pub(super) ptr: *const u8,
    pub(super) len: usize,
    pub(super) loan: Loan,
}

impl Model for LongText {
    ghost use Rattle.lasso_parts.specs.Entries.{LentText, AreWordsOf};

    ghost Value = { LentText };

    ghost view = { λ t. t.loan.text };

    ghost invariant = { λ t. AreWordsOf t.loan.text t.ptr t.len };
}

unsafe impl Send for LongText {}

unsafe impl Sync for LongText {}

/// Whether a text of `len` bytes is too long for an entry.
#[inline]
pub fn is_vast(len: usize) -> bool
    ensures { IsTrue result ↔ (2 ^ 32 ≤ len) }
{
    VAST <= len
}

impl LongText {
    /// A text that an arena copied to this span.
    #[inline]
    pub fn copied(regions: &[Region], span: Span) -> Self
        requires { IsStored regions.now span }
        ensures text { result ≡ record { at = address_of regions.now span; source = Copied span } }
        ensures bytes { lent_bytes regions.now result ≡ text_at regions.now span }
        ensures lent { IsLent regions.now result }
    {
        let ptr = regions[span.region].address(span.start);
        let loan = Loan::among_regions(ptr, span.region, span.start, span.len);
        LongText {
            ptr,
            len: span.len,
            loan,
        }
    }

    /// A text that lives as long as the program. It is kept where it is.
    pub fn from_static(text: &'static str) -> Self
        ensures source { result.source ≡ Static text.now }
        ensures bytes { (regions : List Extent) → lent_bytes regions result ≡ text.now }
        ensures lent { (regions : List Extent) → IsLent regions result }
    {
        let bytes = text.as_bytes();
        let (ptr, loan) = Loan::for_ever(bytes);
        LongText {
            ptr,
            len: bytes.len(),
            loan,
        }
    }

    /// The text, lent by the regions. Nothing is copied, and nothing tested.
    #[inline]
    pub(crate) fn text<'a>(&'a self, regions: &'a [Region]) -> &'a str
        requires { IsLent regions.now self.now }
        ensures { result.now ≡ lent_bytes regions.now self.now }
    {
        unsafe { from_utf8_unchecked(self.loan.read(regions, self.ptr, self.len)) }
    }
}
