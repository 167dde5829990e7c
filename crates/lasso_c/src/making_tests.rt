//! Interners of given capacity, with keys, and cloned, on inputs that were worked by hand.
use crate::handle::Lasso;
use crate::interner::{lasso_capacity, lasso_intern, lasso_len, lasso_memory, lasso_set_limit};
use crate::making::{lasso_new_keyed, lasso_new_sized, lasso_new_sized_keyed};
use crate::tests::checks::{Seen, is_as_told, is_so_at};
use crate::tests::steps::{Layout, Step, clones, walk, walk_on};
use std::alloc::Global;
use std::process::Abort;
use std::test::Fail;

// A text of more bytes than an entry of the list has.
const LONG: &[u8] = b"a text of more bytes than an entry";

// A first bucket of no bytes has one byte, and the limit then leaves no room for another.
static OF_A_SIZE: [Step; 16] = [
    Step::Fits(0, 0),
    Step::MakesSized(1000, 34, 34),
    Step::Fits(1000, usize::MAX),
    Step::Takes(34, 34),
    Step::Interns(LONG, (0, 0)),
    Step::Takes(34, 34),
    Step::Interns(b"another of as many bytes as that one", (10, 77)),
    Step::Counts(1),
    Step::MakesSized(0, 0, 1),
    Step::Counts(0),
    Step::Takes(1, 1),
    Step::Fits(0, 999),
    Step::Interns(b"a", (0, 0)),
    Step::Interns(b"bc", (10, 77)),
    Step::Fits(1, usize::MAX),
    Step::Counts(1),
];

#[test]
fn makes_an_interner_of_a_size(rt: HostRuntime) -> Result<(), Fail> {
    walk(&rt, &OF_A_SIZE)
}

// The capacity that the header names.
static OF_THE_USUAL_SIZE: [Step; 6] = [
    Step::Makes(usize::MAX),
    Step::Fits(50, usize::MAX),
    Step::MakesKeyed(usize::MAX),
    Step::Fits(50, usize::MAX),
    Step::MakesSeeded(usize::MAX),
    Step::Fits(50, usize::MAX),
];

#[test]
fn makes_an_interner_of_the_usual_size(rt: HostRuntime) -> Result<(), Fail> {
    walk(&rt, &OF_THE_USUAL_SIZE)
}

// Interns a text that prints the number. Returns whether the capacity changed, and whether there are then more
// texts than it was.
fn grows(alloc: Global, lasso: &mut Lasso, number: usize) -> Result<(bool, bool), Fail> {
    let room = lasso_capacity(lasso);
    let text = number.to_string(alloc)?;
    if lasso_intern(lasso, text.as_bytes(), &mut 77) == 9 {
        return Err(Fail::from("out of memory"));
    }
    Ok((lasso_capacity(lasso) != room, lasso_len(lasso) > room))
}

// The list of texts grows for a text past the capacity, and for no other.
#[test]
fn tells_how_many_texts_fit(rt: HostRuntime) -> Result<(), Fail> {
    for room in [0, 1, 50, 1000, 5000] {
        let mut lasso = Lasso::none(rt.alloc());
        walk_on(&rt, &mut lasso, &[Step::MakesSized(room, 9, usize::MAX)])?;
        for number in 0..10_100usize {
            let (is_changed, is_past) = grows(rt.alloc(), &mut lasso, number)?;
            is_so_at(&rt, is_changed == is_past, number);
        }
    }
    Ok(())
}

static TEXTS: [usize; 8] = [0, 1, 49, 50, 51, 1000, 5000, 100_000];

static BYTES: [usize; 7] = [0, 1, 4095, 4096, 70_000, 1 << 20, 1 << 24];

// Keys that are equal or not, and have bits at either end.
static KEYS: [(u64, u64); 7] = [
    (0, 0),
    (0, 1),
    (1, 0),
    (7, u64::MAX),
    (u64::MAX, u64::MAX),
    (1 << 63, 1 << 31),
    (0x0123_4567_89ab_cdef, 0xfedc_ba98_7654_3210),
];

// Whether the interner was made, with at least this room.
fn has_room(status: u32, lasso: &mut Lasso, texts: usize, bytes: usize) -> Seen {
    let has_bytes = lasso_memory(lasso) == bytes.max(1);
    (
        status,
        status == 0 && lasso_capacity(lasso) >= texts && has_bytes,
    )
}

// Makes interners of this size, without keys and with keys.
fn makes_sizes(
    alloc: Global,
    lasso: &mut Lasso,
    (texts, bytes): (usize, usize),
    keys: (u64, u64),
) -> (Seen, Seen) {
    let status = lasso_new_sized(alloc, lasso, texts, bytes, usize::MAX);
    let sized = has_room(status, lasso, texts, bytes);
    let status = lasso_new_sized_keyed(alloc, lasso, texts, bytes, usize::MAX, keys.0, keys.1);
    (sized, has_room(status, lasso, texts, bytes))
}

// Sizes of which one is near a power of two: up to 2^17 + 1 texts, and 2^22 + 1 bytes.
fn sizes_near(bit: u32) -> [(usize, usize); 3] {
    let (texts, bytes) = (1usize.wrapping_shl(bit.min(17)), 1usize.wrapping_shl(bit));
    [
        (texts.saturating_sub(1), bytes.saturating_sub(1)),
        (texts, bytes),
        (texts.saturating_add(1), bytes.saturating_add(1)),
    ]
}

#[test]
fn makes_interners_of_sizes_near_powers_of_two(rt: HostRuntime) -> Result<(), Fail> {
    let mut lasso = Lasso::none(rt.alloc());
    for bit in 0..23u32 {
        for size in &sizes_near(bit) {
            let keys = (1u64.wrapping_shl(bit), 7);
            let (sized, keyed) = makes_sizes(rt.alloc(), &mut lasso, *size, keys);
            is_as_told(&rt, sized, size.1)?;
            is_as_told(&rt, keyed, size.1)?;
        }
    }
    Ok(())
}

#[test]
fn makes_interners_of_any_size(rt: HostRuntime) -> Result<(), Fail> {
    let mut lasso = Lasso::none(rt.alloc());
    for texts in &TEXTS {
        for bytes in &BYTES {
            let size = (*texts, *bytes);
            let (sized, keyed) = makes_sizes(rt.alloc(), &mut lasso, size, (7, u64::MAX));
            is_as_told(&rt, sized, *bytes)?;
            is_as_told(&rt, keyed, *bytes)?;
        }
    }
    Ok(())
}

// Makes interners with the keys, without a size and with one.
fn makes_keyed(alloc: Global, lasso: &mut Lasso, (key0, key1): (u64, u64)) -> (Seen, Seen) {
    let status = lasso_new_keyed(alloc, lasso, usize::MAX, key0, key1);
    let keyed = has_room(status, lasso, 50, 4096);
    let status = lasso_new_sized_keyed(alloc, lasso, 9, 70, usize::MAX, key0, key1);
    (keyed, has_room(status, lasso, 9, 70))
}

#[test]
fn makes_interners_of_any_keys(rt: HostRuntime) -> Result<(), Fail> {
    let mut lasso = Lasso::none(rt.alloc());
    for keys in &KEYS {
        let (keyed, sized) = makes_keyed(rt.alloc(), &mut lasso, *keys);
        is_as_told(&rt, keyed, 1)?;
        is_as_told(&rt, sized, 2)?;
    }
    for bit in 0..64u32 {
        let key = 1u64.wrapping_shl(bit);
        let (keyed, sized) = makes_keyed(rt.alloc(), &mut lasso, (key, key.wrapping_sub(1)));
        is_as_told(&rt, keyed, 3)?;
        is_as_told(&rt, sized, 4)?;
    }
    Ok(())
}

// More texts than memory can have: the interner stays.
static TOO_LARGE: [Step; 4] = [
    Step::Makes(usize::MAX),
    Step::Interns(b"red", (0, 0)),
    Step::IsTooLarge(usize::MAX),
    Step::Finds(b"red", (0, 0)),
];

#[test]
fn keeps_its_interner_where_there_is_no_memory_for_another(rt: HostRuntime) -> Result<(), Fail> {
    walk(&rt, &TOO_LARGE)
}

// Each maker over an interner with texts, of either kind of hasher. The new interner has none of them.
static OVER_TEXTS: [Step; 26] = [
    Step::Makes(usize::MAX),
    Step::Interns(LONG, (0, 0)),
    Step::MakesKeyed(5000),
    Step::Takes(4096, 5000),
    Step::Finds(LONG, (13, 77)),
    Step::Interns(LONG, (0, 0)),
    Step::MakesSizedKeyed(9, 70, 6000),
    Step::Takes(70, 6000),
    Step::Finds(LONG, (13, 77)),
    Step::Interns(b"red", (0, 0)),
    Step::Interns(LONG, (0, 1)),
    Step::MakesSized(9, 80, 7000),
    Step::Takes(80, 7000),
    Step::Finds(b"red", (13, 77)),
    Step::Interns(b"blue", (0, 0)),
    Step::MakesSizedKeyed(9, 90, 8000),
    Step::Finds(b"blue", (13, 77)),
    Step::Interns(b"blue", (0, 0)),
    Step::MakesSeeded(8500),
    Step::Finds(b"blue", (13, 77)),
    Step::Interns(LONG, (0, 0)),
    Step::MakesSizedSeeded(9, 90, 8600),
    Step::Finds(LONG, (13, 77)),
    Step::Interns(LONG, (0, 0)),
    Step::Makes(9000),
    Step::Counts(0),
];

#[test]
fn makes_an_interner_over_one_with_texts(rt: HostRuntime) -> Result<(), Fail> {
    walk(&rt, &OVER_TEXTS)
}

// Limits up to the greatest number: none of them keeps an interner from being made.
static LIMITS: [usize; 13] = [
    0,
    1,
    4095,
    4096,
    4097,
    5000,
    65_536,
    1 << 20,
    1 << 31,
    1 << 32,
    1 << 48,
    usize::MAX - 1,
    usize::MAX,
];

// Whether this number of texts fits under each limit, used up or not.
fn fits_under_each_limit(lasso: &mut Lasso, count: usize) -> bool {
    for limit in &LIMITS {
        if lasso_set_limit(lasso, *limit) != 0 || lasso_capacity(lasso) != count {
            return false;
        }
    }
    true
}

static THREE_TEXTS: [Step; 3] = [
    Step::Interns(b"red", (0, 0)),
    Step::Interns(b"", (0, 1)),
    Step::Interns(LONG, (0, 2)),
];

// A limit on bytes says nothing of how many texts fit.
#[test]
fn tells_how_many_texts_fit_under_any_limit(rt: HostRuntime) -> Result<(), Fail> {
    let mut lasso = Lasso::none(rt.alloc());
    walk_on(&rt, &mut lasso, &OF_THE_USUAL_SIZE)?;
    let count = lasso_capacity(&mut lasso);
    is_so_at(&rt, fits_under_each_limit(&mut lasso, count), 1);
    walk_on(&rt, &mut lasso, &THREE_TEXTS)?;
    is_so_at(&rt, fits_under_each_limit(&mut lasso, count), 2);
    Ok(())
}

// Makes interners of this limit by each maker.
fn makes_by_each_maker<R: Abort + AllocGlobal>(rt: &R, limit: usize) -> Result<(), Fail> {
    let steps = [
        Step::Makes(limit),
        Step::Takes(4096, limit),
        Step::MakesSized(9, 70, limit),
        Step::Takes(70, limit),
        Step::MakesKeyed(limit),
        Step::Takes(4096, limit),
        Step::MakesSizedKeyed(9, 5000, limit),
        Step::Takes(5000, limit),
        Step::MakesSeeded(limit),
        Step::Takes(4096, limit),
        Step::MakesSizedSeeded(9, 6000, limit),
        Step::Takes(6000, limit),
    ];
    walk(rt, &steps)
}

#[test]
fn makes_interners_of_any_limit(rt: HostRuntime) -> Result<(), Fail> {
    for limit in &LIMITS {
        makes_by_each_maker(&rt, *limit)?;
    }
    for bit in 0..64u32 {
        let power = 1usize.wrapping_shl(bit);
        makes_by_each_maker(&rt, power.wrapping_sub(1))?;
        makes_by_each_maker(&rt, power)?;
        makes_by_each_maker(&rt, power.wrapping_add(1))?;
    }
    Ok(())
}

static WITH_KEYS_OF_A_SIZE: [Step; 8] = [
    Step::MakesSizedKeyed(1000, 34, 34),
    Step::Fits(1000, usize::MAX),
    Step::Takes(34, 34),
    Step::Interns(LONG, (0, 0)),
    Step::Interns(b"another of as many bytes as that one", (10, 77)),
    Step::Finds(LONG, (0, 0)),
    Step::MakesSizedKeyed(0, 0, 1),
    Step::Takes(1, 1),
];

#[test]
fn makes_an_interner_of_a_size_with_keys(rt: HostRuntime) -> Result<(), Fail> {
    walk(&rt, &WITH_KEYS_OF_A_SIZE)
}

static WITH_KEYS: [Step; 12] = [
    Step::MakesKeyed(5000),
    Step::Takes(4096, 5000),
    Step::Interns(b"red", (0, 0)),
    Step::Interns(LONG, (0, 1)),
    Step::Interns(b"red", (0, 0)),
    Step::Interns(b"\xc3", (3, 77)),
    Step::Batch(
        Layout::Small(b"redblue", &[0, 3, 7, 7]),
        4,
        (0, (3, 0, 0), &[0, 2, 3]),
    ),
    Step::Finds(b"blue", (0, 2)),
    Step::Finds(b"green", (13, 77)),
    Step::Resolves(2, (0, b"blue", 4)),
    Step::Clears(0),
    Step::Finds(b"blue", (13, 77)),
];

#[test]
fn numbers_texts_that_are_hashed_with_keys(rt: HostRuntime) -> Result<(), Fail> {
    walk(&rt, &WITH_KEYS)
}

static TO_CLONE: [Step; 4] = [
    Step::Makes(5000),
    Step::Interns(b"red", (0, 0)),
    Step::Interns(b"", (0, 1)),
    Step::Interns(LONG, (0, 2)),
];

// The bytes of the texts are 3 and 34.
static CLONED: [Step; 6] = [
    Step::LendsAll(0, 4, &[b"red", b"", LONG]),
    Step::Takes(37, 5000),
    Step::Finds(LONG, (0, 2)),
    Step::Finds(b"blue", (13, 77)),
    Step::Interns(b"blue", (0, 3)),
    Step::Frees,
];

static AFTER_ITS_CLONE: [Step; 4] = [
    Step::LendsAll(0, 4, &[b"red", b"", LONG]),
    Step::Takes(4096, 5000),
    Step::Finds(b"blue", (13, 77)),
    Step::Interns(b"green", (0, 3)),
];

#[test]
fn clones_an_interner(rt: HostRuntime) -> Result<(), Fail> {
    let (mut lasso, mut clone) = (Lasso::none(rt.alloc()), Lasso::none(rt.alloc()));
    walk_on(&rt, &mut lasso, &TO_CLONE)?;
    is_as_told(&rt, clones(rt.alloc(), &mut lasso, &mut clone, 0), 1)?;
    walk_on(&rt, &mut clone, &CLONED)?;
    walk_on(&rt, &mut lasso, &AFTER_ITS_CLONE)
}

static NO_TEXT: [Step; 1] = [Step::Makes(9)];

// The limit is no less than the one bucket.
static CLONED_EMPTY: [Step; 3] = [
    Step::Counts(0),
    Step::Takes(4096, 4096),
    Step::Interns(b"red", (0, 0)),
];

static KEPT: [Step; 1] = [Step::Finds(b"red", (0, 0))];

// Cloning an empty interner replaces the one that the handle had; cloning no interner leaves it.
#[test]
fn clones_an_interner_without_texts_and_none(rt: HostRuntime) -> Result<(), Fail> {
    let (mut lasso, mut clone) = (Lasso::none(rt.alloc()), Lasso::none(rt.alloc()));
    walk_on(&rt, &mut clone, &TO_CLONE)?;
    walk_on(&rt, &mut lasso, &NO_TEXT)?;
    is_as_told(&rt, clones(rt.alloc(), &mut lasso, &mut clone, 0), 1)?;
    walk_on(&rt, &mut clone, &CLONED_EMPTY)?;
    let mut none = Lasso::none(rt.alloc());
    is_as_told(&rt, clones(rt.alloc(), &mut none, &mut clone, 12), 2)?;
    walk_on(&rt, &mut clone, &KEPT)
}

// Each maker, with the same limit.
static MAKERS: [Step; 6] = [
    Step::Makes(5000),
    Step::MakesSized(9, 70, 5000),
    Step::MakesKeyed(5000),
    Step::MakesSizedKeyed(9, 70, 5000),
    Step::MakesSeeded(5000),
    Step::MakesSizedSeeded(9, 70, 5000),
];

static STILL_THERE: [Step; 3] = [
    Step::LendsAll(0, 4, &[b"red", b"", LONG]),
    Step::Finds(b"blue", (13, 77)),
    Step::Interns(b"green", (0, 3)),
];

// Makes an interner by the maker, and clones it once it has three texts.
fn clones_one_of<R: Abort + AllocGlobal>(
    rt: &R,
    maker: Step,
    clone: &mut Lasso,
) -> Result<(), Fail> {
    let mut lasso = Lasso::none(rt.alloc());
    walk_on(rt, &mut lasso, &[maker])?;
    walk_on(rt, &mut lasso, &THREE_TEXTS)?;
    is_as_told(rt, clones(rt.alloc(), &mut lasso, clone, 0), 1)?;
    walk_on(rt, clone, &CLONED)?;
    walk_on(rt, &mut lasso, &STILL_THERE)
}

#[test]
fn clones_an_interner_of_each_maker(rt: HostRuntime) -> Result<(), Fail> {
    let mut clone = Lasso::none(rt.alloc());
    for maker in &MAKERS {
        clones_one_of(&rt, *maker, &mut clone)?;
    }
    Ok(())
}

// A handle with texts holds the clone, and none of its texts, whatever either hashes with.
#[test]
fn clones_an_interner_over_one_with_texts(rt: HostRuntime) -> Result<(), Fail> {
    let mut clone = Lasso::none(rt.alloc());
    for maker in &MAKERS {
        for other in &MAKERS {
            walk_on(&rt, &mut clone, &[*other])?;
            walk_on(&rt, &mut clone, &OTHER_TEXTS)?;
            clones_one_of(&rt, *maker, &mut clone)?;
        }
    }
    Ok(())
}

static OTHER_TEXTS: [Step; 2] = [
    Step::Interns(b"blue", (0, 0)),
    Step::Interns(b"another of as many bytes as that one", (0, 1)),
];

// The buckets take more than the limit.
static LOWERED: [Step; 2] = [Step::Limits(10, 0), Step::Takes(4096, 10)];

// The limit is the size of the one bucket, which is full.
static CLONED_LOWERED: [Step; 4] = [
    Step::LendsAll(0, 4, &[b"red", b"", LONG]),
    Step::Takes(37, 37),
    Step::Finds(LONG, (0, 2)),
    Step::Interns(b"another of as many bytes as that one", (10, 77)),
];

#[test]
fn clones_an_interner_over_its_limit(rt: HostRuntime) -> Result<(), Fail> {
    let (mut lasso, mut clone) = (Lasso::none(rt.alloc()), Lasso::none(rt.alloc()));
    walk_on(&rt, &mut lasso, &TO_CLONE)?;
    walk_on(&rt, &mut lasso, &LOWERED)?;
    is_as_told(&rt, clones(rt.alloc(), &mut lasso, &mut clone, 0), 1)?;
    walk_on(&rt, &mut clone, &CLONED_LOWERED)?;
    walk_on(&rt, &mut lasso, &STILL_THERE)
}
