//! Ranges of buckets, which are filled once, and the texts in them, which never change. Used by the shared arena and
//! by the log.
ghost use Rattle.std.specs.Prelude.{◌≡◌, ◌+◌, [], length};
ghost use base.Fml.{Incl};
ghost use denote.RawPtr.{block_ptr, count_of, ◌+ₚ◌};
ghost use Rattle.lasso_log.specs.Eras.{life};
ghost use Rattle.lasso_parts.specs.Block.{LeadsToBlock};
ghost use Rattle.lasso_log.specs.Pieces.{PieceView, RangeView};

use crate::shared_memory::era::Era;
use crate::shared_memory::rights::{Free, Lent};
use std::marker::{Model, Send, Sync};
use std::str::from_utf8_unchecked;

/// The one right to fill some bytes of a bucket. It must be spent, by `fill`. A contract sees which bytes they are.
pub struct Range {
    pub(crate) ptr: *mut u8,
    pub(crate) len: usize,
    pub(crate) right: Free,
}

impl Model for Range {
    ghost use Rattle.lasso_log.specs.Pieces.{RangeView, IsRange};

    ghost Value = { RangeView };

    ghost view = { λ r. record { era = r.right.era; block = r.right.block; start = r.right.start; len = r.right.len } };

    ghost invariant = { λ r. IsRange r.right r.ptr r.len };
}

unsafe impl Send for Range {}

/// A text in memory, as 16 bytes: where, and how long it is. It is a lasting right to read. Contracts see
/// the text, and the lifetime up to whose end it is there: an era's, or one without end.
#[derive(Drop)]
pub struct Piece {
    ptr: *const u8,
    len: usize,
    lent: Lent,
}

impl Model for Piece {
    ghost use Rattle.lasso_log.specs.Pieces.{PieceView, IsPiece};

    ghost Value = { PieceView };

    ghost view = { λ p. record { until = p.lent.until; text = p.lent.bytes } };

    ghost invariant = { λ p. IsPiece p.lent p.ptr p.len };
}

unsafe impl Send for Piece {}

unsafe impl Sync for Piece {}

// The address of the place at offset `start`.
fn address_at(first: *mut u8, start: usize) -> *mut u8
    requires { LeadsToBlock first }
    ensures { result ≡ first +ₚ start }
{
    unsafe { first.add(start) }
}

impl Range {
    /// The right to the `len` places from `start` on of a bucket, whose first place the pointer leads to.
    pub fn new(first: *mut u8, start: usize, len: usize, right: Free) -> Range
        requires address { (first ≡ block_ptr right.block (count_of first)) × (right.start ≡ count_of first + start) }
        requires count { len ≡ right.len }
        ensures { (result.era ≡ right.era) × (result.block ≡ right.block) × (result.start ≡ right.start) × (result.len ≡ right.len) }
    {
        Range {
            ptr: address_at(first, start),
            len,
            right,
        }
    }

    /// Copies the text in, which is there until the era ends. The text is as long as the range. It takes no memory and
    /// does not wait.
    pub fn fill(self, era: &Era, text: &str) -> Piece
        requires era { self.era ≡ era.now.id }
        requires count { length text.now ≡ self.len }
        ensures until { result.until ≡ life self.era }
        ensures text { result.text ≡ text.now }
    {
        let Range { ptr, len: _, right } = self;
        let bytes = text.as_bytes();
        let lent = right.fill(era, ptr, bytes);
        Piece {
            ptr,
            len: bytes.len(),
            lent,
        }
    }

    // Lets the right go, so that nobody ever fills the bytes: those of a new bucket that comes into no history.
    pub(crate) fn let_go(self) {
        let Range {
            ptr: _,
            len: _,
            right: _,
        } = self;
    }
}

impl Piece {
    /// A text that lives as long as the program. It is kept where it is.
    pub fn from_static(text: &'static str) -> Piece
        ensures until { result.until ≡ [] }
        ensures text { result.text ≡ text.now }
    {
        let bytes = text.as_bytes();
        let (ptr, lent) = Lent::for_ever(bytes);
        Piece {
            ptr,
            len: bytes.len(),
            lent,
        }
    }

    /// The text, lent as long as the era, also if the piece itself is let go. Nothing is copied, and nothing tested.
    #[inline]
    pub fn text<'a>(&self, era: &'a Era) -> &'a str
        requires { Incl (life era.now.id) self.now.until }
        ensures { result.now ≡ self.now.text }
    {
        unsafe { from_utf8_unchecked(self.lent.read(era, self.ptr, self.len)) }
    }
}
