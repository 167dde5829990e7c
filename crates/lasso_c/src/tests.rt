//! Calls as C makes them, on inputs that were worked by hand.
pub mod checks;
pub mod columns;
pub mod steps;

use crate::batches::refusal_of;
use crate::error::{status_of, tell};
use crate::handle::Lasso;
use crate::seed::Seed;
use crate::seeded::Interner;
use crate::{lasso_status_text, lasso_version};
use checks::{Told, UNSET, has_bytes, is_as_told, is_so, is_so_at, told};
use columns::{DECODING, Decoding, ENCODING, Encoding, decodes, encodes};
use lasso_parts::util::LassoErrorKind;
use std::hash::BuildHasher;
use std::process::Abort;
use std::test::Fail;

// Encodes the columns, and checks what comes of each.
fn encode_all<R: Abort + AllocGlobal>(rt: &R, rows: &[Encoding]) -> Result<(), Fail> {
    let mut number = 0usize;
    for row in rows {
        number = number.saturating_add(1);
        is_as_told(rt, encodes(rt.alloc(), row), number)?;
    }
    Ok(())
}

// Decodes the codes, and checks what comes of each.
fn decode_all(rt: &impl Abort, rows: &[Decoding]) {
    let mut number = 0usize;
    for row in rows {
        number = number.saturating_add(1);
        is_so_at(rt, decodes(row), number);
    }
}

// "red", "blue", "" and "red": the first three are new, and have 7 bytes.
const FOUR_TEXTS: Encoding = Encoding {
    bytes: b"redbluered",
    offsets: &[0, 3, 7, 7, 10],
    ..ENCODING
};

static EACH_ONCE: [Encoding; 2] = [
    Encoding {
        rooms: (5, 5, 5),
        want: (8, (3, 7, 0)),
        ..FOUR_TEXTS
    },
    Encoding {
        rooms: (5, 5, 8),
        want: (0, (3, 7, 0)),
        codes: &[0, 1, 2, 0],
        texts: b"redblue",
        ends: &[0, 3, 7, 7],
        ..FOUR_TEXTS
    },
];

#[test]
fn encodes_each_distinct_text_once(rt: HostRuntime) -> Result<(), Fail> {
    encode_all(&rt, &EACH_ONCE)
}

static NAMED: [Decoding; 1] = [Decoding {
    texts: b"redblue",
    ends: &[0, 3, 7, 7],
    codes: &[1, 2, 0, 0],
    rooms: (5, 11, 0),
    want: (0, (4, 10, 0)),
    bytes: b"blueredred",
    offsets: &[0, 4, 4, 7, 10],
    ..DECODING
}];

#[test]
fn decodes_the_texts_that_codes_name(rt: HostRuntime) {
    decode_all(&rt, &NAMED);
}

// Columns with nulls. The code of a null is 7.

// "red", "blue", bytes that are no text, and "red".
const BYTES: &[u8] = b"redblue\xc3red";

// The offsets of "red", "blue", a null of bytes that are no text, "" and "red".
const OFFSETS: &[u32] = &[0, 3, 7, 8, 8, 11];

const COLUMN: Encoding = Encoding {
    bytes: BYTES,
    offsets: OFFSETS,
    present: Some(&[0b11011]),
    rooms: (6, 5, 8),
    ..ENCODING
};

// The column from its second row on, as Arrow cuts one: "blue", a null, "" and "red". The bitmap begins at its first row.
const SLICE: Encoding = Encoding {
    offsets: &[3, 7, 8, 8, 11],
    present: Some(&[0b1101]),
    want: (0, (3, 7, 0)),
    codes: &[0, 7, 1, 2],
    texts: b"bluered",
    ends: &[0, 4, 4, 7],
    ..COLUMN
};

static SLICES: [Encoding; 3] = [
    SLICE,
    Encoding {
        offsets: &[7, 8],
        present: Some(&[0]),
        want: (0, (0, 0, 0)),
        codes: &[7],
        texts: b"",
        ends: &[0],
        ..COLUMN
    },
    Encoding {
        offsets: &[8, 11, 11],
        present: Some(&[0b11]),
        want: (0, (2, 3, 0)),
        codes: &[0, 1],
        texts: b"red",
        ends: &[0, 3, 3],
        ..COLUMN
    },
];

#[test]
fn encodes_a_slice_with_nulls(rt: HostRuntime) -> Result<(), Fail> {
    encode_all(&rt, &SLICES)
}

// Bitmaps of more bytes than the rows need, and bits after the rows, of which none is read.
static LONG_BITMAPS: [Encoding; 3] = [
    Encoding {
        present: Some(&[0b11111101, 0xff]),
        ..SLICE
    },
    Encoding {
        present: Some(&[0b1101, 0, 0, 0, 0, 0, 0, 0, 0]),
        ..SLICE
    },
    Encoding {
        want: (0, (3, 7, 0)),
        present: Some(&[0b11011, 0xff, 0]),
        codes: &[0, 1, 7, 2, 0],
        texts: b"redblue",
        ends: &[0, 3, 7, 7],
        ..COLUMN
    },
];

#[test]
fn reads_no_bit_after_the_rows(rt: HostRuntime) -> Result<(), Fail> {
    encode_all(&rt, &LONG_BITMAPS)
}

// Eight letters, of which the last has the code 7, as a null has.
static CODE_OF_A_TEXT: [Encoding; 1] = [Encoding {
    bytes: b"abcdefgh",
    offsets: &[0, 1, 2, 3, 4, 5, 6, 7, 8, 8],
    present: Some(&[0xff, 0]),
    want: (0, (8, 8, 0)),
    codes: &[0, 1, 2, 3, 4, 5, 6, 7, 7],
    texts: b"abcdefgh",
    ends: &[0, 1, 2, 3, 4, 5, 6, 7, 8],
    ..ENCODING
}];

#[test]
fn a_null_may_have_the_code_of_a_text(rt: HostRuntime) -> Result<(), Fail> {
    encode_all(&rt, &CODE_OF_A_TEXT)
}

// The dictionary is "red" and "blue".
const RED_AND_BLUE: Decoding = Decoding {
    texts: b"redblue",
    ends: &[0, 3, 7],
    codes: &[1, 7, 0, 7, 7, 0, 1, 1, 7, 1],
    null: Some(7),
    ..DECODING
};

// Rows 0, 2, 5, 6, 7 and 9 are texts.
static GIVEN_BACK: [Decoding; 1] = [Decoding {
    want: (0, (10, 22, 0)),
    bytes: b"blueredredblueblueblue",
    offsets: &[0, 4, 4, 7, 7, 7, 10, 14, 18, 18, 22],
    present: &[1 + 4 + 32 + 64 + 128, 2],
    ..RED_AND_BLUE
}];

#[test]
fn gives_nulls_back(rt: HostRuntime) {
    decode_all(&rt, &GIVEN_BACK);
}

// Why an interner refuses a text, and what that comes to for the text with the number 3 of a batch. No test has
// the 2^32 - 1 texts that leave no code.
static REFUSALS: [(LassoErrorKind, Told); 3] = [
    (LassoErrorKind::MemoryLimitReached, (10, (0, 0, 3))),
    (LassoErrorKind::KeySpaceExhaustion, (11, (0, 0, 3))),
    (LassoErrorKind::FailedAllocation, (9, (0, 0, 0))),
];

#[test]
fn tells_why_an_interner_refuses_a_text(rt: HostRuntime) {
    for (kind, want) in &REFUSALS {
        let refusal = refusal_of(*kind, 3);
        let mut report = UNSET;
        let status = tell(&Err(refusal), &mut report);
        is_so(&rt, told(status, &report) == *want, "a report");
        is_so(&rt, status_of(&refusal) == want.0, "a status");
    }
}

// What each status means.
static MEANINGS: [(u32, &[u8]); 20] = [
    (0, b"done"),
    (1, b"an offset is below the one before it"),
    (2, b"an offset lies past the bytes"),
    (3, b"a text is not UTF-8"),
    (4, b"the dictionary has no text for a code"),
    (5, b"the texts have more bytes than offsets can tell"),
    (6, b"there is no room for the codes"),
    (7, b"there is no room for the offsets"),
    (8, b"there is no room for the bytes"),
    (9, b"there is no memory"),
    (10, b"the limit leaves no room for a text"),
    (11, b"there is a text for each code"),
    (12, b"there is no interner"),
    (13, b"the interner does not have the text"),
    (14, b"a bitmap has no bit for a row"),
    (15, b"another thread is in the way"),
    (16, b"the interner has other handles"),
    (17, b"the interner is frozen"),
    (18, b"not a status"),
    (u32::MAX, b"not a status"),
];

// Whether the meaning of the status is written, as far as there is room.
fn is_meaning(status: u32, room: usize, meaning: &[u8]) -> bool {
    let mut text = [9; 60];
    let whole = lasso_status_text(status, &mut text[..room.min(60)]);
    whole == meaning.len() && has_bytes(&text, &meaning[..whole.min(room).min(meaning.len())])
}

#[test]
fn tells_what_a_status_means(rt: HostRuntime) {
    for (status, meaning) in &MEANINGS {
        is_so(&rt, is_meaning(*status, 60, meaning), "a meaning");
        is_so(
            &rt,
            is_meaning(*status, 10, meaning),
            "ten letters of a meaning",
        );
    }
}

#[test]
fn tells_its_version(rt: HostRuntime) {
    is_so(&rt, lasso_version() == 1000, "0.1.0");
}

// A handle may be passed from thread to thread: it may, since an interner may.
fn is_send<T: Send>() {}

#[test]
fn handles_cross_threads() {
    is_send::<Interner<Seed>>();
    is_send::<Lasso>();
}

// Hashes with keys, against SipHash-1-3 as another program computes it: a text is hashed as its bytes and 255 after them.

const KEY0: u64 = 0x0706_0504_0302_0100;

const KEY1: u64 = 0x0f0e_0d0c_0b0a_0908;

// The hash of a text of three bytes, and of one of more than eight.
fn has_hashes(seed: &Seed, short: u64, long: u64) -> bool {
    seed.hash_one("red") == short && seed.hash_one("a text of more bytes than an entry") == long
}

#[test]
fn hashes_texts_with_keys(rt: HostRuntime) {
    let without = Seed::keyed(0, 0);
    is_so(
        &rt,
        has_hashes(&without, 0x1457_6403_ef48_4498, 0x4ade_82fc_5cda_05fe),
        "with keys of 0",
    );
    let keyed = Seed::keyed(KEY0, KEY1);
    is_so(
        &rt,
        has_hashes(&keyed, 0x9f09_f5f4_b9ac_5231, 0xf75e_3416_f418_b25e),
        "with two keys",
    );
}
