//! Calls on few and on many texts: what each plain call returns, the numbers of new texts, look-ups of absent ones,
//! limits, fillings, frozen forms and comparisons.
use crate::checks::{
    Look, Origin, freezes_as, is_so, make_from, runs_in, shows_as, shows_in, shows_rows,
};
use crate::freezing::{FROZEN, is_frozen};
use Look::{Compares, Does, Shows, Walks, Writes};
use Step::{
    ByNew, Copies, Counts, Extends, Finds, Grows, Holds, Interns, IsLimited, Limits, Lists,
    NonePast, Reads, Uses,
};
use lasso_parts::keys::Spur;
use lasso_parts::util::FixedState;
use std::test::*;
use test_steps::Host;
use test_steps::calls::Shared;
use test_steps::cases::{Maker, PLAIN, SIZE, make, of_items, sized};
use test_steps::steps::{Call, FULL, Step, Way};
use test_steps::texts::List::{But, Numbers};
use test_steps::texts::items_of;

// 60 bytes.
const LONG: &str = "000000000000000000000000000000000000000000000000000000000000";

// Absent texts are found by no call.
static ABSENT: [Step; 12] = [
    Finds("000000", None),
    ByNew(Call::Finds("000000", None)),
    Finds("0000", None),
    ByNew(Call::Finds("0000", None)),
    Finds("00000.", None),
    ByNew(Call::Finds("00000.", None)),
    Finds(".", None),
    ByNew(Call::Finds(".", None)),
    Finds("", None),
    ByNew(Call::Finds("", None)),
    Finds(LONG, None),
    ByNew(Call::Finds(LONG, None)),
];

// Fails unless limits that leave no byte, some, and one too few are read as they were set, and met: both calls refuse a
// copy of a text of as many bytes as are used, which no bucket has room for and which adds none, and limit and usage stay.
// No limit is set before and after.
fn keeps_limits(rt: &impl Host, shared: &Shared, used: usize) -> Result<(), Fail> {
    static REFUSED: [Step; 3] = [
        Interns(Way::TryCopied, "x-", FULL),
        Interns(Way::Copied, "x-", FULL),
        Finds("x-", None),
    ];
    static UNLIMITED: [Step; 1] = [IsLimited(usize::MAX)];
    runs_in(rt, shared, &UNLIMITED, PLAIN)?;
    let count = shared.len();
    for more in [0, 3000, used.saturating_sub(1)] {
        let bytes = used.saturating_add(more);
        runs_in(rt, shared, &[Limits(bytes), IsLimited(bytes)], PLAIN)?;
        runs_in(rt, shared, &REFUSED, sized(used))?;
        runs_in(
            rt,
            shared,
            &[IsLimited(bytes), Uses(used), Counts(count)],
            PLAIN,
        )?;
    }
    runs_in(
        rt,
        shared,
        &[Limits(usize::MAX), IsLimited(usize::MAX)],
        PLAIN,
    )
}

// Fails unless absent texts are found by no call, which leaves `count` texts, and limits are kept next to this usage.
fn lacks_others(rt: &impl Host, shared: &Shared, count: usize, used: usize) -> Result<(), Fail> {
    runs_in(rt, shared, &ABSENT, PLAIN)?;
    is_so(rt, shared.len() == count, "count");
    keeps_limits(rt, shared, used)
}

// Numbers of texts, and the usage then. Every other text is copied: 506, 1500, 10,001, 32,769 and 35,001. Copies of
// five bytes fill buckets of 4096 bytes, and of twice those of the last one: 819, 1638, 3276, 6553, 13,107 and 26,214
// texts.
static MARKS: [(usize, usize); 5] = [
    (1011, 4096),
    (3000, 12_288),
    (20_001, 61_440),
    (65_537, 258_048),
    (70_001, 258_048),
];

#[test]
fn new_texts_have_the_next_numbers_after_many(rt: HostRuntime) -> Result<(), Fail> {
    let shared: Shared = make(&rt, Maker::Sized(50, 4096, usize::MAX))?;
    let mut first = 0;
    for (count, used) in MARKS.iter() {
        let steps = [
            Grows(first, *count),
            Counts(*count),
            NonePast(*count),
            Uses(*used),
        ];
        runs_in(&rt, &shared, &steps, PLAIN)?;
        lacks_others(&rt, &shared, *count, *used)?;
        first = *count;
    }
    Ok(())
}

// How many texts there are at first, and then, and the usages. Each text is copied, into the same buckets.
static FILLINGS: [(usize, usize, (usize, usize)); 3] = [
    (1011, 4011, (12_288, 28_672)),
    (3000, 6000, (28_672, 61_440)),
    (67_001, 70_001, (520_192, 520_192)),
];

// An interner is made of the first texts, and filled with the rest. None of all is new then, and a new one is the last.
#[test]
fn a_filling_goes_on_after_many(rt: HostRuntime) -> Result<(), Fail> {
    for (from, count, used) in FILLINGS.iter() {
        let shared: Shared = make(&rt, Maker::Items(Numbers(0, *from)))?;
        is_so(&rt, shared.len() == *from, "count before");
        keeps_limits(&rt, &shared, used.0)?;
        let steps = [
            Extends(Numbers(*from, *count), None),
            Counts(*count),
            Lists(Numbers(0, *count)),
            Extends(Numbers(0, *count), None),
            Counts(*count),
            Interns(Way::TryCopied, "new", Ok(*count)),
        ];
        runs_in(&rt, &shared, &steps, PLAIN)?;
        lacks_others(&rt, &shared, count.saturating_add(1), used.1)?;
    }
    Ok(())
}

#[test]
fn frozen_forms_of_many_have_just_these(rt: HostRuntime) -> Result<(), Fail> {
    for count in [3000, 70_001usize] {
        let texts = items_of(rt.alloc(), Numbers(0, count))?;
        for form in FROZEN.iter() {
            let shared: Shared = of_items(&rt, &texts)?;
            let is_right = is_frozen(&rt, shared, *form, &texts, "000000")?;
            is_so(&rt, is_right, "frozen forms");
        }
    }
    Ok(())
}

#[test]
fn many_texts_are_equal_to_these_alone(rt: HostRuntime) -> Result<(), Fail> {
    static LOOKS: [Look; 3] = [
        Does(&[Counts(70_001)]),
        Compares(Numbers(0, 70_001), true),
        Compares(But(70_001, 70_000, "7000."), false),
    ];
    shows_rows(&rt, Origin::Items(Numbers(0, 70_001)), &LOOKS)
}

// What each plain call returns for few texts and for many.

// Numbers of texts, and of the cells that there are then. Each text needs the cells of sixteen positions, its own and
// the next ones. Cells come in chunks of 32, 32, 64, 128 and so on, each as large as all earlier ones.
static COUNTS: [(usize, usize); 18] = [
    (0, 0),
    (1, 32),
    (2, 32),
    (16, 32),
    (17, 32),
    (18, 64),
    (49, 64),
    (50, 128),
    (64, 128),
    (113, 128),
    (114, 256),
    (241, 256),
    (242, 512),
    (300, 512),
    (1000, 1024),
    (1009, 1024),
    (1010, 2048),
    (3000, 4096),
];

// The absent text begins and ends like a present one.
#[test]
fn each_call_tells_of_each_count(rt: HostRuntime) -> Result<(), Fail> {
    let shared: Shared = make(&rt, Maker::Sized(0, 10, usize::MAX))?;
    for (count, cells) in COUNTS.iter() {
        let list = Numbers(0, *count);
        let steps = [Copies(list), Holds(*cells), Finds("000000", None)];
        runs_in(&rt, &shared, &steps, PLAIN)?;
        shows_in(&rt, &shared, &[Shows(list)], PLAIN)?;
    }
    Ok(())
}

#[test]
fn a_frozen_form_has_each_count_of_texts(rt: HostRuntime) -> Result<(), Fail> {
    for (count, _cells) in COUNTS.iter() {
        let (origin, frozen) = (
            Origin::Items(Numbers(0, *count)),
            (Numbers(0, *count), "000000"),
        );
        freezes_as::<Spur, FixedState>(&rt, origin, &[], frozen, PLAIN)?;
    }
    Ok(())
}

// Numbers of texts to write: of the last chunk of a list only the first few, as writing takes long.
static WRITTEN: [usize; 18] = [
    0, 1, 2, 16, 17, 18, 49, 50, 64, 113, 114, 241, 242, 300, 1000, 1009, 1010, 1100,
];

#[test]
fn each_count_of_texts_is_written(rt: HostRuntime) -> Result<(), Fail> {
    static LOOKS: [Look; 1] = [Writes(Numbers(0, SIZE))];
    for count in WRITTEN.iter() {
        let origin = Origin::Items(Numbers(0, SIZE));
        shows_as::<Spur, FixedState>(&rt, origin, &LOOKS, sized(*count))?;
    }
    Ok(())
}

// Numbers next to those that fill 8, 15 and 16 bits, and the last one.
static NUMBERS: [usize; 11] = [
    0, 1, 255, 256, 32_767, 32_768, 65_534, 65_535, 65_536, 65_537, 65_999,
];

#[test]
fn more_texts_than_16_bits_count(rt: HostRuntime) -> Result<(), Fail> {
    static STEPS: [Step; 4] = [
        Finds("#", Some(SIZE)),
        Reads(SIZE, Some("#")),
        Interns(Way::TryCopied, "#", Ok(SIZE)),
        Interns(Way::Copied, "#", Ok(SIZE)),
    ];
    static LAST: [Look; 3] = [
        Does(&[Counts(66_000), Holds(131_072)]),
        Shows(Numbers(0, 66_000)),
        Walks(65_999, "65999"),
    ];
    let shared: Shared = make_from(&rt, Origin::Items(Numbers(0, 66_000)), PLAIN)?;
    for number in NUMBERS.iter() {
        shows_in(&rt, &shared, &[Does(&STEPS)], sized(*number))?;
    }
    shows_in(&rt, &shared, &LAST, PLAIN)
}
