//! Calls on interners that C holds, on inputs that were worked by hand.
use crate::tests::steps::{Layout, Step, walk};
use std::test::Fail;

// "red", "blue" and "red", and bytes that are no text.
const BYTES: &[u8] = b"redbluered\xc3";

static FROM_CALL_TO_CALL: [Step; 13] = [
    Step::Makes(usize::MAX),
    Step::Interns(b"red", (0, 0)),
    Step::Interns(b"", (0, 1)),
    Step::Interns(b"red", (0, 0)),
    Step::Interns(b"\xc3", (3, 77)),
    Step::Batch(
        Layout::Small(BYTES, &[3, 7, 10]),
        4,
        (0, (2, 0, 0), &[2, 0]),
    ),
    Step::Counts(3),
    Step::Finds(b"blue", (0, 2)),
    Step::Finds(b"grue", (13, 77)),
    Step::Lookup(
        Layout::Small(BYTES, &[0, 3, 4, 7]),
        4,
        (0, (3, 0, 0), &[0, 8, 8]),
    ),
    Step::Resolves(2, (0, b"blue", 4)),
    Step::Frees,
    Step::Counts(0),
];

#[test]
fn numbers_texts_from_call_to_call(rt: HostRuntime) -> Result<(), Fail> {
    walk(&rt, &FROM_CALL_TO_CALL)
}

// "red" has the code 0, and "blue" the code 1.
static FROM_A_CODE_ON: [Step; 4] = [
    Step::Makes(usize::MAX),
    Step::Batch(
        Layout::Small(BYTES, &[0, 3, 7, 10]),
        4,
        (0, (3, 0, 0), &[0, 1, 0]),
    ),
    Step::Dictionary((1, (4, 2)), (0, (1, 4, 0)), (b"blue", &[0, 4])),
    Step::Large((1, (8, 2)), (0, (1, 4, 0)), (b"blue", [0, 4, 9, 9])),
];

#[test]
fn writes_a_dictionary_from_a_code_on(rt: HostRuntime) -> Result<(), Fail> {
    walk(&rt, &FROM_A_CODE_ON)
}

// A text of more bytes than an entry has.
const LONG: &[u8] = b"a text of more bytes than an entry";

// The first text fills the first bucket.
static UNDER_A_LIMIT: [Step; 13] = [
    Step::Makes(4096),
    Step::Takes(4096, 4096),
    Step::InternsLong(4096, (0, 0)),
    Step::Takes(4096, 4096),
    Step::Interns(LONG, (10, 77)),
    Step::Nulls(
        Layout::Small(LONG, &[0, 0, 34]),
        &[2],
        4,
        (10, (1, 0, 1), &[7]),
    ),
    Step::Batch(Layout::Large(LONG, &[0, 34]), 4, (10, (0, 0, 0), &[])),
    Step::Nulls(
        Layout::Large(LONG, &[0, 0, 34]),
        &[2],
        4,
        (10, (1, 0, 1), &[7]),
    ),
    Step::Limits(usize::MAX, 0),
    Step::Interns(LONG, (0, 1)),
    Step::Clears(0),
    Step::Counts(0),
    Step::Interns(b"red", (0, 0)),
];

#[test]
fn holds_a_limit(rt: HostRuntime) -> Result<(), Fail> {
    walk(&rt, &UNDER_A_LIMIT)
}

// The first text fills the first bucket, which is all that the limit leaves, so no other text is copied.
static WITHOUT_A_COPY: [Step; 19] = [
    Step::InternsStatic(b"red", (12, 77)),
    Step::InternsStatic(b"\xc3", (3, 77)),
    Step::Makes(4096),
    Step::InternsLong(4096, (0, 0)),
    Step::Interns(LONG, (10, 77)),
    Step::InternsStatic(LONG, (0, 1)),
    Step::InternsStatic(LONG, (0, 1)),
    Step::Interns(LONG, (0, 1)),
    Step::Finds(LONG, (0, 1)),
    Step::InternsStatic(b"\xc3", (3, 77)),
    Step::InternsStatic(b"", (0, 2)),
    Step::Limits(0, 0),
    Step::InternsStatic(b"blue", (0, 3)),
    Step::Takes(4096, 0),
    Step::LendsAll(1, 4, &[LONG, b"", b"blue"]),
    Step::Dictionary((2, (4, 3)), (0, (2, 4, 0)), (b"blue", &[0, 0, 4])),
    Step::Clears(0),
    Step::Finds(LONG, (13, 77)),
    Step::InternsStatic(b"red", (0, 0)),
];

#[test]
fn keeps_a_static_text_without_a_copy(rt: HostRuntime) -> Result<(), Fail> {
    walk(&rt, &WITHOUT_A_COPY)
}

// An offset of 2^32 + 3 would be 3 in 32 bits. The second column is "red", a null, and "red".
static BY_OFFSETS_OF_64_BITS: [Step; 5] = [
    Step::Makes(usize::MAX),
    Step::Batch(
        Layout::Large(BYTES, &[0, 3, 7, 10]),
        4,
        (0, (3, 0, 0), &[0, 1, 0]),
    ),
    Step::Batch(
        Layout::Large(BYTES, &[0, 4_294_967_299]),
        4,
        (2, (0, 0, 0), &[]),
    ),
    Step::Nulls(
        Layout::Large(BYTES, &[0, 3, 7, 10]),
        &[0b101],
        4,
        (0, (3, 0, 0), &[0, 7, 0]),
    ),
    Step::Lookup(Layout::Large(BYTES, &[0, 3, 7]), 4, (0, (2, 0, 0), &[0, 1])),
];

#[test]
fn numbers_texts_by_offsets_of_64_bits(rt: HostRuntime) -> Result<(), Fail> {
    walk(&rt, &BY_OFFSETS_OF_64_BITS)
}

// "red", "blue" and the text above.
const LENT: &[u8] = b"redbluea text of more bytes than an entry";

static BY_CODE: [Step; 17] = [
    Step::Lends(0, (12, b"none")),
    Step::LendsAll(0, 4, &[]),
    Step::Makes(5000),
    Step::Lends(0, (4, b"none")),
    Step::LendsAll(0, 4, &[]),
    Step::Batch(
        Layout::Small(LENT, &[0, 3, 7, 41]),
        4,
        (0, (3, 0, 0), &[0, 1, 2]),
    ),
    Step::Lends(0, (0, b"red")),
    Step::Lends(1, (0, b"blue")),
    Step::Lends(2, (0, LONG)),
    Step::Lends(3, (4, b"none")),
    Step::Lends(u32::MAX, (4, b"none")),
    Step::Takes(4096, 5000),
    Step::Counts(3),
    Step::Finds(b"blue", (0, 1)),
    Step::Finds(b"green", (13, 77)),
    Step::Interns(b"green", (0, 3)),
    Step::Lends(3, (0, b"green")),
];

#[test]
fn lends_the_text_of_a_code(rt: HostRuntime) -> Result<(), Fail> {
    walk(&rt, &BY_CODE)
}

static LENT_FROM_A_CODE_ON: [Step; 15] = [
    Step::Makes(5000),
    Step::Interns(b"", (0, 0)),
    Step::Interns(b"red", (0, 1)),
    Step::Interns(LONG, (0, 2)),
    Step::LendsAll(0, 4, &[b"", b"red", LONG]),
    Step::LendsAll(0, 3, &[b"", b"red", LONG]),
    Step::LendsAll(0, 2, &[b"", b"red"]),
    Step::LendsAll(0, 0, &[]),
    Step::LendsAll(2, 4, &[LONG]),
    Step::LendsAll(3, 4, &[]),
    Step::LendsAll(usize::MAX, 4, &[]),
    Step::Takes(4096, 5000),
    Step::Finds(LONG, (0, 2)),
    Step::Interns(b"green", (0, 3)),
    Step::LendsAll(0, 4, &[b"", b"red", LONG, b"green"]),
];

#[test]
fn lends_the_texts_from_a_code_on(rt: HostRuntime) -> Result<(), Fail> {
    walk(&rt, &LENT_FROM_A_CODE_ON)
}
