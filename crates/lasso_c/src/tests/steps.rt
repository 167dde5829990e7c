//! Calls on a handle, which are made in turn, each with what it has to give.
use super::checks::{Numbers, Seen, Told, UNSET, has_bytes, has_numbers, is_as_told, told};
use crate::error::LassoReport;
use crate::handle::Lasso;
use crate::interner::{
    lasso_capacity, lasso_clear, lasso_dictionary, lasso_free, lasso_get, lasso_get_batch,
    lasso_intern, lasso_intern_batch, lasso_intern_batch_nulls, lasso_intern_static, lasso_len,
    lasso_limit, lasso_memory, lasso_new, lasso_resolve, lasso_set_limit,
};
use crate::large::{
    lasso_dictionary_large, lasso_get_batch_large, lasso_intern_batch_large,
    lasso_intern_batch_nulls_large,
};
use crate::lending::{LassoText, lasso_text, lasso_texts};
use crate::making::{
    lasso_clone, lasso_new_keyed, lasso_new_seeded, lasso_new_sized, lasso_new_sized_keyed,
    lasso_new_sized_seeded,
};
use std::alloc::Global;
use std::process::Abort;
use std::test::Fail;

// Texts by their bytes, and offsets of 32 or of 64 bits.
#[derive(Clone, Copy)]
pub enum Layout<'a> {
    Small(&'a [u8], &'a [u32]),
    Large(&'a [u8], &'a [u64]),
}

// Where a dictionary begins, and the room for its bytes and for its offsets.
pub type Part = (usize, (usize, usize));

// The status, the numbers of the report, and the codes that are written.
pub type Codes = (u32, Numbers, &'static [u32]);

#[derive(Clone, Copy)]
pub enum Step {
    // an interner of this limit is made
    Makes(usize),
    // one with room for this number of texts and of bytes, and of this limit, is made
    MakesSized(usize, usize, usize),
    // one with room for this number of texts is too large for memory
    IsTooLarge(usize),
    // one of this limit is made, which hashes with two keys
    MakesKeyed(usize),
    // the same with room for this number of texts and of bytes
    MakesSizedKeyed(usize, usize, usize),
    // one of this limit is made, which hashes with a seed
    MakesSeeded(usize),
    // the same with room for this number of texts and of bytes
    MakesSizedSeeded(usize, usize, usize),
    // interning the text has this status and writes this code, 77 if none
    Interns(&'static [u8], (u32, u32)),
    // the same for a text of this number of letters `a`
    InternsLong(usize, (u32, u32)),
    // the same for a text that is kept where it is
    InternsStatic(&'static [u8], (u32, u32)),
    // interning the texts, with room for this number of codes, ends so
    Batch(Layout<'static>, usize, Codes),
    // the same for a column with this bitmap, whose nulls have the code 7
    Nulls(Layout<'static>, &'static [u8], usize, Codes),
    // looking the text up has this status and writes this code, 77 if none
    Finds(&'static [u8], (u32, u32)),
    // looking the texts up, with room for this number of codes, ends so; an absent text has the code 8
    Lookup(Layout<'static>, usize, Codes),
    // the text of the code has this status, begins so, and has this number of bytes, 77 if there is none
    Resolves(u32, (u32, &'static [u8], usize)),
    // lending the text of the code has this status and lends this text, "none" if there is none
    Lends(u32, (u32, &'static [u8])),
    // the texts from the code on, of which this number has room, are lent: these, and "none" after them
    LendsAll(usize, usize, &'static [&'static [u8]]),
    // the dictionary from the code on, with room for these numbers of bytes and offsets, ends so, and these bytes and
    // offsets are written
    Dictionary(Part, Told, (&'static [u8], &'static [u32])),
    // the same with offsets of 64 bits, of which there are four, 9 where none is written
    Large(Part, Told, (&'static [u8], [u64; 4])),
    // the number of texts
    Counts(usize),
    // how many texts fit: at least the first number, and at most the second
    Fits(usize, usize),
    // the bytes that the buckets take, and may take
    Takes(usize, usize),
    // setting the limit has this status
    Limits(usize, u32),
    // a clear has this status
    Clears(u32),
    // the interner is let go
    Frees,
}

fn makes(alloc: Global, lasso: &mut Lasso, limit: usize) -> Seen {
    let status = lasso_new(alloc, lasso, limit);
    (status, status == 0)
}

fn makes_sized(alloc: Global, lasso: &mut Lasso, texts: usize, bytes: usize, limit: usize) -> Seen {
    let status = lasso_new_sized(alloc, lasso, texts, bytes, limit);
    (status, status == 0)
}

fn is_too_large(alloc: Global, lasso: &mut Lasso, texts: usize) -> Seen {
    let status = lasso_new_sized(alloc, lasso, texts, 4096, usize::MAX);
    (0, status == 9)
}

// The keys, or the seed, of the makers that take two numbers.
const KEYS: (u64, u64) = (0x0706_0504_0302_0100, u64::MAX);

fn makes_keyed(alloc: Global, lasso: &mut Lasso, limit: usize) -> Seen {
    let status = lasso_new_keyed(alloc, lasso, limit, KEYS.0, KEYS.1);
    (status, status == 0)
}

fn makes_sized_keyed(
    alloc: Global,
    lasso: &mut Lasso,
    texts: usize,
    bytes: usize,
    limit: usize,
) -> Seen {
    let status = lasso_new_sized_keyed(alloc, lasso, texts, bytes, limit, KEYS.0, KEYS.1);
    (status, status == 0)
}

fn makes_seeded(alloc: Global, lasso: &mut Lasso, limit: usize) -> Seen {
    let status = lasso_new_seeded(alloc, lasso, limit, KEYS.0, KEYS.1);
    (status, status == 0)
}

fn makes_sized_seeded(
    alloc: Global,
    lasso: &mut Lasso,
    texts: usize,
    bytes: usize,
    limit: usize,
) -> Seen {
    let status = lasso_new_sized_seeded(alloc, lasso, texts, bytes, limit, KEYS.0, KEYS.1);
    (status, status == 0)
}

// Clones the interner of the first handle into the second, which has this status.
pub fn clones(alloc: Global, lasso: &mut Lasso, clone: &mut Lasso, want: u32) -> Seen {
    let status = lasso_clone(alloc, lasso, clone);
    (status, status == want)
}

fn interns(lasso: &mut Lasso, text: &[u8], want: (u32, u32)) -> Seen {
    let mut code = 77;
    let status = lasso_intern(lasso, text, &mut code);
    (status, (status, code) == want)
}

fn interns_long(alloc: Global, lasso: &mut Lasso, count: usize, want: (u32, u32)) -> Seen {
    match vec![in alloc; b'a'; count] {
        Ok(text) => interns(lasso, &text, want),
        Err(_) => (9, false),
    }
}

fn interns_static(lasso: &mut Lasso, text: &'static [u8], want: (u32, u32)) -> Seen {
    let mut code = 77;
    let status = lasso_intern_static(lasso, text, &mut code);
    (status, (status, code) == want)
}

fn finds(lasso: &mut Lasso, text: &[u8], want: (u32, u32)) -> Seen {
    let mut code = 77;
    let status = lasso_get(lasso, text, &mut code);
    (status, (status, code) == want)
}

// Whether these codes were written, and the call ended so.
pub fn has_codes(status: u32, report: &LassoReport, codes: &[u32], want: Codes) -> Seen {
    let is_told = told(status, report) == (want.0, want.1);
    (status, is_told && has_numbers(codes, want.2))
}

// Interns the texts of the layout.
pub fn batch(lasso: &mut Lasso, layout: Layout<'_>, room: usize, want: Codes) -> Seen {
    let (mut codes, mut report) = ([9; 9], UNSET);
    let output = &mut codes[..room.min(9)];
    let status = match layout {
        Layout::Small(bytes, offsets) => {
            lasso_intern_batch(lasso, bytes, offsets, output, &mut report)
        }
        Layout::Large(bytes, offsets) => {
            lasso_intern_batch_large(lasso, bytes, offsets, output, &mut report)
        }
    };
    has_codes(status, &report, &codes, want)
}

// Interns the rows of a column with nulls.
fn nulls(
    lasso: &mut Lasso,
    (layout, present): (Layout<'_>, &[u8]),
    room: usize,
    want: Codes,
) -> Seen {
    let (mut codes, mut report) = ([9; 9], UNSET);
    let output = &mut codes[..room.min(9)];
    let status = match layout {
        Layout::Small(bytes, offsets) => {
            lasso_intern_batch_nulls(lasso, bytes, offsets, present, 7, output, &mut report)
        }
        Layout::Large(bytes, offsets) => {
            lasso_intern_batch_nulls_large(lasso, bytes, offsets, present, 7, output, &mut report)
        }
    };
    has_codes(status, &report, &codes, want)
}

// Looks the texts of the layout up.
fn lookup(lasso: &mut Lasso, layout: Layout<'_>, room: usize, want: Codes) -> Seen {
    let (mut codes, mut report) = ([9; 9], UNSET);
    let output = &mut codes[..room.min(9)];
    let status = match layout {
        Layout::Small(bytes, offsets) => {
            lasso_get_batch(lasso, bytes, offsets, 8, output, &mut report)
        }
        Layout::Large(bytes, offsets) => {
            lasso_get_batch_large(lasso, bytes, offsets, 8, output, &mut report)
        }
    };
    has_codes(status, &report, &codes, want)
}

fn resolves(lasso: &mut Lasso, code: u32, want: (u32, &[u8], usize)) -> Seen {
    let (mut text, mut whole) = ([9; 4], 77);
    let status = lasso_resolve(lasso, code, &mut text, &mut whole);
    let is_told = (status, whole) == (want.0, want.2);
    (status, is_told && has_bytes(&text, want.1))
}

// What a struct for a text has before a call.
const NO_TEXT: LassoText<'static> = LassoText { bytes: b"none" };

fn lends(lasso: &mut Lasso, code: u32, want: (u32, &[u8])) -> Seen {
    let mut text = NO_TEXT;
    let status = lasso_text(lasso, code, &mut text);
    (status, status == want.0 && text.bytes == want.1)
}

// Lends the texts from a code on, of which at most four have room.
fn lends_all(lasso: &mut Lasso, from: usize, room: usize, want: &[&[u8]]) -> Seen {
    let mut texts = [NO_TEXT; 4];
    let count = lasso_texts(lasso, from, &mut texts[..room.min(4)]);
    (0, count == want.len() && are_lent(&texts, want))
}

// Whether these are the first texts, and no other is one.
pub fn are_lent(texts: &[LassoText<'_>], want: &[&[u8]]) -> bool {
    for at in 0..texts.len() {
        let bytes = if at < want.len() {
            want[at]
        } else {
            NO_TEXT.bytes
        };
        if texts[at].bytes != bytes {
            return false;
        }
    }
    true
}

fn dictionary(
    lasso: &mut Lasso,
    (from, rooms): Part,
    want: Told,
    (texts, ends): (&[u8], &[u32]),
) -> Seen {
    let (mut bytes, mut offsets, mut report) = ([9; 8], [9; 4], UNSET);
    let status = lasso_dictionary(
        lasso,
        from,
        &mut bytes[..rooms.0.min(8)],
        &mut offsets[..rooms.1.min(4)],
        &mut report,
    );
    let is_written = has_bytes(&bytes, texts) && has_numbers(&offsets, ends);
    (status, is_written && told(status, &report) == want)
}

fn large_dictionary(
    lasso: &mut Lasso,
    (from, rooms): Part,
    want: Told,
    (texts, ends): (&[u8], [u64; 4]),
) -> Seen {
    let (mut bytes, mut offsets, mut report) = ([9; 8], [9; 4], UNSET);
    let status = lasso_dictionary_large(
        lasso,
        from,
        &mut bytes[..rooms.0.min(8)],
        &mut offsets[..rooms.1.min(4)],
        &mut report,
    );
    let is_written = has_bytes(&bytes, texts) && offsets == ends;
    (status, is_written && told(status, &report) == want)
}

fn counts(lasso: &mut Lasso, count: usize) -> Seen {
    (0, lasso_len(lasso) == count)
}

fn fits(lasso: &mut Lasso, least: usize, most: usize) -> Seen {
    let capacity = lasso_capacity(lasso);
    (0, least <= capacity && capacity <= most)
}

fn takes(lasso: &mut Lasso, memory: usize, limit: usize) -> Seen {
    let taken = (lasso_memory(lasso), lasso_limit(lasso));
    (0, taken == (memory, limit))
}

fn limits(lasso: &mut Lasso, limit: usize, want: u32) -> Seen {
    let status = lasso_set_limit(lasso, limit);
    (status, status == want)
}

fn clears(lasso: &mut Lasso, want: u32) -> Seen {
    let status = lasso_clear(lasso);
    (status, status == want)
}

fn frees(alloc: Global, lasso: &mut Lasso) -> Seen {
    lasso_free(alloc, lasso);
    (0, true)
}

// Takes the step.
fn take(alloc: Global, lasso: &mut Lasso, step: &Step) -> Seen {
    match *step {
        Step::Makes(limit) => makes(alloc, lasso, limit),
        Step::MakesSized(texts, bytes, limit) => makes_sized(alloc, lasso, texts, bytes, limit),
        Step::IsTooLarge(texts) => is_too_large(alloc, lasso, texts),
        Step::MakesKeyed(limit) => makes_keyed(alloc, lasso, limit),
        Step::MakesSizedKeyed(texts, bytes, limit) => {
            makes_sized_keyed(alloc, lasso, texts, bytes, limit)
        }
        Step::MakesSeeded(limit) => makes_seeded(alloc, lasso, limit),
        Step::MakesSizedSeeded(texts, bytes, limit) => {
            makes_sized_seeded(alloc, lasso, texts, bytes, limit)
        }
        Step::Interns(text, want) => interns(lasso, text, want),
        Step::InternsLong(count, want) => interns_long(alloc, lasso, count, want),
        Step::InternsStatic(text, want) => interns_static(lasso, text, want),
        Step::Batch(layout, room, want) => batch(lasso, layout, room, want),
        Step::Nulls(layout, bits, room, want) => nulls(lasso, (layout, bits), room, want),
        Step::Finds(text, want) => finds(lasso, text, want),
        Step::Lookup(layout, room, want) => lookup(lasso, layout, room, want),
        Step::Resolves(code, want) => resolves(lasso, code, want),
        Step::Lends(code, want) => lends(lasso, code, want),
        Step::LendsAll(from, room, want) => lends_all(lasso, from, room, want),
        Step::Dictionary(part, want, written) => dictionary(lasso, part, want, written),
        Step::Large(part, want, written) => large_dictionary(lasso, part, want, written),
        Step::Counts(count) => counts(lasso, count),
        Step::Fits(least, most) => fits(lasso, least, most),
        Step::Takes(memory, limit) => takes(lasso, memory, limit),
        Step::Limits(limit, want) => limits(lasso, limit, want),
        Step::Clears(want) => clears(lasso, want),
        Step::Frees => frees(alloc, lasso),
    }
}

// Takes the steps in turn on the handle, and checks each.
pub fn walk_on<R: Abort + AllocGlobal>(
    rt: &R,
    lasso: &mut Lasso,
    steps: &[Step],
) -> Result<(), Fail> {
    let mut row = 0usize;
    for step in steps {
        row = row.saturating_add(1);
        is_as_told(rt, take(rt.alloc(), lasso, step), row)?;
    }
    Ok(())
}

// Takes the steps in turn on a handle that holds no interner at first, and checks each.
pub fn walk<R: Abort + AllocGlobal>(rt: &R, steps: &[Step]) -> Result<(), Fail> {
    let mut lasso = Lasso::none(rt.alloc());
    walk_on(rt, &mut lasso, steps)
}
