//! The entries of a list of texts.
ghost use Rattle.std.specs.Prelude.{◌≡◌, ◌<◌, ◌≤◌, ◌^◌, [], length};
ghost use Rattle.lasso_parts.specs.Entries.{entry_text, source_len, IsThere, Inside, Outside, Listed};

mod loan;
pub mod long;
pub mod short;

use crate::bucket::region::Region;
use loan::Loan;
use long::LongText;
use short::{SHORT, ShortText};
use std::marker::{Model, Send, Sync};
use std::str::from_utf8_unchecked;

/// An entry of a list of texts, of 16 bytes. It has a short text itself, or the address and the length of
/// another. A text of 2^32 bytes or more, whose length has no room in it, is in a second list, and the entry
/// has its index there. Contracts see which of the three it is.
#[derive(Drop)]
pub struct Entry {
    place: Place,
}

// Where an entry has its text.
#[derive(Drop)]
enum Place {
    Here(ShortText),
    There {
        len: u32,
        ptr: *const u8,
        loan: Loan,
    },
    Vast {
        index: usize,
    },
}

impl Model for Entry {
    ghost use Rattle.lasso_parts.specs.Entries.{EntryView};
    ghost use Rattle.lasso_parts.specs.Places.{place_view, IsPlaced};

    ghost Value = { EntryView };

    ghost view = { λ s. place_view s.place };

    ghost invariant = { λ s. IsPlaced s.place };
}

unsafe impl Send for Place {}

unsafe impl Sync for Place {}

unsafe impl Send for Entry {}

unsafe impl Sync for Entry {}

impl Entry {
    /// The entry that has a short text itself.
    #[inline]
    pub fn inside(text: ShortText) -> Self
        ensures { result ≡ Inside text }
    {
        Entry {
            place: Place::Here(text),
        }
    }

    /// The entry that leads to a text outside it. The text must have fewer than 2^32 bytes.
    #[inline]
    pub fn outside(text: LongText) -> Self
        requires { source_len text.source < 2 ^ 32 }
        ensures { result ≡ Outside text }
    {
        let LongText { ptr, len, loan } = text;
        Entry {
            place: Place::There {
                len: len as u32,
                ptr,
                loan,
            },
        }
    }

    /// The entry of a text at that index of the second list, that of the texts of 2^32 bytes or more.
    pub fn listed(index: usize) -> Self
        ensures { result ≡ Listed index }
    {
        Entry {
            place: Place::Vast { index },
        }
    }

    /// Puts a text of at most 14 bytes in the entry, which must have the empty text itself.
    #[inline(always)]
    pub fn put(&mut self, text: &str)
        requires short { length text.now ≤ SHORT }
        requires empty { self.old ≡ Inside [] }
        ensures { self.new ≡ Inside text.now }
    {
        match &mut self.place {
            Place::Here(short) => short.put(text),
            _ => unreachable!(),
        }
    }
}

/// The text of an entry, lent by the entry or the regions. Nothing is copied, and nothing tested. The texts
/// of 2^32 bytes or more are in the list `vast`.
#[inline]
pub fn text_of<'a>(regions: &'a [Region], vast: &'a [LongText], entry: &'a Entry) -> &'a str
    requires { IsThere regions.now vast.now entry.now }
    ensures { result.now ≡ entry_text regions.now vast.now entry.now }
{
    match &entry.place {
        Place::Here(text) => text.as_str(),
        Place::There { len, ptr, loan } => unsafe {
            from_utf8_unchecked(loan.read(regions, *ptr, *len as usize))
        },
        Place::Vast { index } => listed_text(regions, vast, *index),
    }
}

// The text at an index of the list of texts of 2^32 bytes or more. Almost no list has one.
#[cold]
#[inline(never)]
fn listed_text<'a>(regions: &'a [Region], vast: &'a [LongText], index: usize) -> &'a str
    requires { IsThere regions.now vast.now (Listed index) }
    ensures { result.now ≡ entry_text regions.now vast.now (Listed index) }
{
    vast[index].text(regions)
}
