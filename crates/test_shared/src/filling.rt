//! An interner that threads share, filled from items. After a refusal an iterator that is lent stands right after the
//! refused item.
use crate::checks::{is_so, is_so_at, runs, runs_as, runs_in, runs_in_two};
use Step::{
    Counts, Extends, Finds, Holds, Interns, IsLimited, Keeps, Lists, Reads, Resolves, Uses,
};
use lasso_parts::keys::{Key, MicroSpur, Spur};
use lasso_parts::util::{Capacity, FixedState, LassoErrorKind, LassoResult, MemoryLimits};
use lasso_shared::threaded::ThreadedRodeo;
use std::alloc::Global;
use std::test::*;
use test_common::keys::BelowTwo;
use test_common::refusing::Refusing;
use test_common::texts::{is_next, numbered};
use test_steps::Host;
use test_steps::calls::{Caller, Shared, answered, limited, made, numbered as number_of};
use test_steps::cases::{Maker, PLAIN, of_items, refuses_items};
use test_steps::steps::{Step, Way};
use test_steps::texts::List::{Numbers, Texts};
use test_steps::texts::numeral_of;

#[test]
fn no_item_of_many_is_dropped(rt: HostRuntime) -> Result<(), Fail> {
    static EXTENDED: [Step; 3] = [
        Extends(Numbers(0, 5000), None),
        Counts(5000),
        Lists(Numbers(0, 5000)),
    ];
    static MADE: [Step; 2] = [Counts(5000), Lists(Numbers(0, 5000))];
    runs(&rt, Maker::Default, &EXTENDED)?;
    runs(&rt, Maker::Items(Numbers(0, 5000)), &MADE)
}

#[test]
fn items_are_interned_in_order(rt: HostRuntime) -> Result<(), Fail> {
    static STEPS: [Step; 7] = [
        Counts(2),
        Uses(4096),
        IsLimited(usize::MAX),
        Extends(Texts(&["b", "c"]), None),
        Counts(3),
        Finds("c", Some(2)),
        Reads(2, Some("c")),
    ];
    runs(&rt, Maker::Items(Texts(&["a", "b"])), &STEPS)
}

// The only bucket has four bytes.
#[test]
fn a_refused_item_ends_the_filling(rt: HostRuntime) -> Result<(), Fail> {
    static STEPS: [Step; 9] = [
        Extends(
            Texts(&["ab", "cd", "e", ""]),
            Some(LassoErrorKind::MemoryLimitReached),
        ),
        // the empty text takes no bytes, but it comes after the refused item
        Counts(2),
        Finds("cd", Some(1)),
        Finds("", None),
        Uses(4),
        IsLimited(4),
        Extends(Texts(&["cd", ""]), None),
        Counts(3),
        IsLimited(4),
    ];
    runs(&rt, Maker::Full(4), &STEPS)
}

#[test]
fn items_fill_a_new_interner(rt: HostRuntime) -> Result<(), Fail> {
    static STEPS: [Step; 1] = [Counts(2)];
    let maker = Maker::Items(Texts(&["p", "q", "p"]));
    runs_as::<BelowTwo, FixedState>(&rt, maker, &STEPS, PLAIN)
}

#[test]
fn a_refused_item_leaves_no_new_interner(rt: HostRuntime) -> Result<(), Fail> {
    static ITEMS: [&str; 4] = ["p", "q", "r", "p"];
    let no_key = LassoErrorKind::KeySpaceExhaustion;
    let refused = refuses_items::<BelowTwo, FixedState>(&rt, &ITEMS, no_key)?;
    is_so(&rt, refused, "the refusal");
    Ok(())
}

#[test]
fn two_threads_fill_one_interner(rt: HostRuntime) -> Result<(), Fail> {
    static HERE: [Step; 1] = [Extends(Texts(&["x", "a", "y"]), None)];
    static THERE: [Step; 1] = [Extends(Texts(&["x", "b", "y"]), None)];
    static LAST: [Step; 6] = [
        Counts(4),
        // each text is there: none is added
        Resolves(Way::TryCopied, "x"),
        Resolves(Way::TryCopied, "a"),
        Resolves(Way::TryCopied, "b"),
        Resolves(Way::TryCopied, "y"),
        Counts(4),
    ];
    runs_in_two(&rt, &[], (&HERE, &THERE), &LAST, PLAIN)
}

// Numbers of texts, and of the bytes of each. Together they have 4096 bytes, as the first bucket has.
static FULL: [(usize, usize); 5] = [(512, 8), (64, 64), (16, 256), (2, 2048), (1, 4096)];

// Whether the interner has this many texts, one bucket of 4096 bytes and no limit.
fn has_one_bucket(rt: &impl Host, shared: &Shared, count: usize) -> bool {
    sums(rt, shared).0 == 4096 && sums(rt, shared).1 == usize::MAX && shared.len() == count
}

// An interner is made of all texts but the last. It has one bucket and no limit, also after its texts are interned again
// and then all, one by one: the last text fits in that bucket, and one more byte takes a bucket of 8192 bytes.
#[test]
fn a_new_interner_takes_the_bytes_of_its_items_alone(rt: HostRuntime) -> Result<(), Fail> {
    for (count, length) in FULL.iter() {
        let mut items = Vec::new(rt.alloc());
        for number in 0..*count {
            items.push(numeral_of(rt.alloc(), number, *length)?)?;
        }
        let first = items.get(..count.saturating_sub(1)).ok_or("no items")?;
        let shared: Shared = of_items(&rt, first)?;
        let caller = Caller::new(&rt, &shared);
        is_so_at(&rt, has_one_bucket(&rt, &shared, first.len()), *length);
        is_so_at(&rt, caller.extends(first)?.is_none(), *length);
        let each = caller.takes_in_turn((Way::Item, Way::Item), &items)?;
        is_so_at(&rt, each, *length);
        is_so_at(&rt, has_one_bucket(&rt, &shared, *count), *length);
        is_so_at(&rt, caller.extends(&["z"])?.is_none(), *length);
        is_so_at(&rt, caller.usage() == 12_288, *length);
    }
    Ok(())
}

// Fills an interner from ten items that own memory, by the call of this number. Returns how many texts it has.
fn of_owned(rt: &impl Host, memory: &Refusing<Global>, call: usize) -> Result<usize, Fail> {
    let items = numbered(memory, 10)?;
    let shared: Shared = ThreadedRodeo::new(rt.alloc())?;
    if call == 0 {
        shared.extend(rt, items)?;
        return Ok(shared.len());
    }
    if call == 1 {
        let mut pass = shared.pass();
        shared.extend_as(rt, &mut pass, &mut items.into_iter())?;
        return Ok(shared.len());
    }
    let made: Shared = ThreadedRodeo::from_iter(rt.alloc(), rt, items)?;
    Ok(made.len())
}

// Fills an interner by the same call, where the limit or the keys refuse the third item.
fn of_owned_but_refused(
    rt: &impl Host,
    memory: &Refusing<Global>,
    call: usize,
) -> Result<LassoErrorKind, Fail> {
    let items = numbered(memory, 10)?;
    let shared: Shared = limited(rt.alloc(), 10, 10)?;
    let ended = match call {
        0 => shared.extend(rt, items),
        1 => shared.extend_as(rt, &mut shared.pass(), &mut items.into_iter()),
        _ => {
            let made: LassoResult<ThreadedRodeo<BelowTwo, FixedState>> = ThreadedRodeo::from_iter(
                rt.alloc(),
                rt,
                items,
            );
            made.map(drop)
        }
    };
    Ok(answered(ended).err().ok_or("not refused")?)
}

#[test]
fn items_from_a_refused_one_on_are_freed(rt: HostRuntime) -> Result<(), Fail> {
    let memory = Refusing::new(rt.alloc(), 0);
    let limit = LassoErrorKind::MemoryLimitReached;
    let refusals = [limit, limit, LassoErrorKind::KeySpaceExhaustion];
    for (call, wanted) in refusals.iter().enumerate() {
        let refusal = of_owned_but_refused(&rt, &memory, call)?;
        is_so_at(&rt, refusal == *wanted, call);
        is_so_at(&rt, memory.bytes_out() == 0, call);
    }
    Ok(())
}

#[test]
fn items_that_own_memory_are_freed(rt: HostRuntime) -> Result<(), Fail> {
    let memory = Refusing::new(rt.alloc(), 0);
    for call in 0..3usize {
        is_so_at(&rt, of_owned(&rt, &memory, call)? == 10, call);
        is_so_at(&rt, memory.bytes_out() == 0, call);
    }
    Ok(())
}

// Filling an interner that threads share from an iterator that is lent: after a refusal it stands right after the
// refused item.

// How many items there are, each of five bytes.
const ITEMS: usize = 5_005;

// Which item the limit refuses, counted from 1.
const REFUSED: [usize; 3] = [1, 40, 5_000];

// Extends an interner with room for the items before the refused one by the call, with or without a pass. It has just
// these then, and the items go on after the refused one.
fn stops_at_each(rt: &impl Host, has_pass: bool) -> Result<(), Fail> {
    let texts = numbered(rt.alloc(), ITEMS)?;
    for refused in REFUSED {
        let before = refused.saturating_sub(1);
        let bytes = before.saturating_mul(5);
        let shared: Shared = limited(rt.alloc(), bytes.max(1), bytes)?;
        let mut items = texts.iter();
        let outcome = if has_pass {
            shared.extend_as(rt, &mut shared.pass(), &mut items)
        } else {
            shared.extend(rt, items.by_ref())
        };
        let is_full = answered(outcome) == Err(LassoErrorKind::MemoryLimitReached);
        is_so_at(rt, is_full && shared.len() == before, refused);
        is_so_at(rt, is_next(&mut items, &texts, refused), refused);
    }
    Ok(())
}

#[test]
fn extend_leaves_lent_items_after_the_refused_one(rt: HostRuntime) -> Result<(), Fail> {
    stops_at_each(&rt, false)
}

#[test]
fn extend_as_leaves_its_items_after_the_refused_one(rt: HostRuntime) -> Result<(), Fail> {
    stops_at_each(&rt, true)
}

// There are two keys, so the third item is refused.
#[test]
fn from_iter_leaves_lent_items_after_the_refused_one(rt: HostRuntime) -> Result<(), Fail> {
    let texts = numbered(rt.alloc(), ITEMS)?;
    let mut items = texts.iter();
    let made: LassoResult<ThreadedRodeo<BelowTwo, FixedState>> = ThreadedRodeo::from_iter(
        rt.alloc(),
        &rt,
        items.by_ref(),
    );
    let refusal = match made {
        Ok(_made) => None,
        Err(refusal) => Some(refusal.kind()),
    };
    let no_key = Some(LassoErrorKind::KeySpaceExhaustion);
    is_so(&rt, refusal == no_key, "the third item");
    is_so(&rt, is_next(&mut items, &texts, 3), "the fourth");
    Ok(())
}

// What each maker makes: the usage, the limit and the number of cells; and interners made from static keywords.

// A call that makes an interner.
#[derive(Clone, Copy)]
enum By {
    New,
    Capacity,
    Limits,
    CapacityAndLimits,
    Hasher,
    CapacityAndHasher,
    All,
}

// Makes an interner by the call.
fn made_by<K: Key>(
    alloc: Global,
    by: By,
    room: Capacity,
    limits: MemoryLimits,
) -> LassoResult<ThreadedRodeo<K, FixedState>> {
    let hasher = FixedState::new();
    match by {
        By::New => ThreadedRodeo::new(alloc),
        By::Capacity => ThreadedRodeo::with_capacity(alloc, room),
        By::Limits => ThreadedRodeo::with_memory_limits(alloc, limits),
        By::CapacityAndLimits => {
            ThreadedRodeo::with_capacity_and_memory_limits(alloc, room, limits)
        }
        By::Hasher => ThreadedRodeo::with_hasher(alloc, hasher),
        By::CapacityAndHasher => ThreadedRodeo::with_capacity_and_hasher(alloc, room, hasher),
        By::All => {
            ThreadedRodeo::with_capacity_memory_limits_and_hasher(alloc, room, limits, hasher)
        }
    }
}

// How many bytes all buckets take, the limit, and the number of cells, which is the capacity.
fn sums<K: Key>(rt: &impl Host, shared: &ThreadedRodeo<K, FixedState>) -> (usize, usize, usize) {
    (
        shared.current_memory_usage(rt),
        shared.max_memory_usage(rt),
        shared.capacity(),
    )
}

// Whether a text of all bytes of the first bucket fits in it, and is the next one. Usage and limit have to stay.
fn fits_in_all<K: Key>(rt: &impl Host, shared: &ThreadedRodeo<K, FixedState>) -> LassoResult<bool> {
    let (usage, limit, count) = (sums(rt, shared).0, sums(rt, shared).1, shared.len());
    let text = "-".repeat(rt.alloc(), usage)?;
    let number = number_of(shared.try_get_or_intern(rt, text.as_str()))?;
    let is_kept = sums(rt, shared).0 == usage && sums(rt, shared).1 == limit;
    Ok(number == count && is_kept && shared.len() == count.saturating_add(1))
}

// What a call makes of a capacity and a limit: usage, limit and number of cells.
type Row = (By, Capacity, usize, (usize, usize, usize));

// Fails unless the call makes that, without a text and with no byte taken.
fn makes<K: Key>(rt: &impl Host, row: Row) -> LassoResult<()> {
    let (by, room, limit, wanted) = row;
    let shared: ThreadedRodeo<K, FixedState> = made_by(
        rt.alloc(),
        by,
        room,
        MemoryLimits::new(limit),
    )?;
    is_so_at(rt, sums(rt, &shared) == wanted, wanted.0);
    is_so_at(rt, shared.is_empty(), wanted.0);
    is_so_at(rt, fits_in_all(rt, &shared)?, wanted.0);
    Ok(())
}

#[test]
fn makers_open_with_defaults(rt: HostRuntime) -> Result<(), Fail> {
    // chunks of 32 and 32 cells for 50 texts
    let wanted = (4096, usize::MAX, 64);
    let shared = made(rt.alloc())?;
    is_so(&rt, sums(&rt, &shared) == wanted, "default");
    is_so(&rt, fits_in_all(&rt, &shared)?, "the bytes of the default");
    makes::<MicroSpur>(&rt, (By::New, Capacity::minimal(), 0, wanted))?;
    Ok(())
}

#[test]
fn makers_open_with_capacity_and_limit(rt: HostRuntime) -> Result<(), Fail> {
    let room = Capacity::new(1000, 65536);
    let sums = (65536, usize::MAX, 1024);
    makes::<Spur>(&rt, (By::Capacity, room, 10000, sums))?;
    makes::<Spur>(&rt, (By::Limits, room, 10000, (4096, 10000, 64)))?;
    // chunks of 32, 32 and 64 cells
    let room = Capacity::new(70, 4);
    makes::<Spur>(&rt, (By::CapacityAndLimits, room, 12, (4, 12, 128)))?;
    Ok(())
}

// Numbers of texts, of bytes, and of the cells that are made for the texts. There are no cells for no texts,
// and otherwise a power of two, at least 32.
static ROOMS: [(usize, usize, usize); 16] = [
    (0, 1, 0),
    (1, 2, 32),
    (31, 3, 32),
    (32, 255, 32),
    (33, 256, 64),
    (64, 257, 64),
    (65, 1000, 128),
    (128, 4095, 128),
    (129, 4097, 256),
    (1000, 65_535, 1024),
    (1024, 65_537, 1024),
    (1025, 100_003, 2048),
    (5000, 1_000_003, 8192),
    (65_536, 1_048_577, 65_536),
    (65_537, 3_000_001, 131_072),
    (100_000, 16_777_217, 131_072),
];

// Fails unless interners with room for these texts and bytes have it, without a limit and with this one.
fn have_room(rt: &impl Host, room: (usize, usize, usize), limit: usize) -> LassoResult<()> {
    let (texts, bytes, cells) = room;
    let room = Capacity::new(texts, bytes.max(1));
    makes::<Spur>(rt, (By::Capacity, room, limit, (bytes, usize::MAX, cells)))?;
    makes::<Spur>(
        rt,
        (By::CapacityAndLimits, room, limit, (bytes, limit, cells)),
    )
}

#[test]
fn makers_open_with_each_size(rt: HostRuntime) -> Result<(), Fail> {
    for room in ROOMS.iter() {
        have_room(&rt, *room, room.1)?;
        have_room(&rt, *room, room.1.saturating_mul(3))?;
        have_room(&rt, *room, 0x0123_4567_89ab_cdef)?;
    }
    Ok(())
}

#[test]
fn makers_take_a_hasher(rt: HostRuntime) -> Result<(), Fail> {
    let (room, limits) = (Capacity::for_bytes(7), 5);
    makes::<Spur>(&rt, (By::Hasher, room, limits, (4096, usize::MAX, 64)))?;
    makes::<Spur>(
        &rt,
        (By::CapacityAndHasher, room, limits, (7, usize::MAX, 64)),
    )?;
    // the first bucket is larger than the limit, and is made anyway
    let room = Capacity::new(0, 10);
    makes::<Spur>(&rt, (By::All, room, limits, (10, 5, 0)))?;
    Ok(())
}

#[test]
fn capacity_is_room_for_texts(rt: HostRuntime) -> Result<(), Fail> {
    static ROOM_FOR_70: [Step; 3] = [Keeps(Numbers(0, 100)), Uses(4096), Holds(128)];
    static LEAST_ROOM: [Step; 3] = [Keeps(Numbers(0, 1)), Uses(1), Holds(32)];
    let shared: Shared = ThreadedRodeo::with_capacity(rt.alloc(), Capacity::for_strings(70))?;
    runs_in(&rt, &shared, &ROOM_FOR_70, PLAIN)?;
    let shared: Shared = ThreadedRodeo::with_capacity(rt.alloc(), Capacity::minimal())?;
    runs_in(&rt, &shared, &LEAST_ROOM, PLAIN)
}

#[test]
fn sizes_that_no_memory_has(rt: HostRuntime) {
    for room in [
        Capacity::for_bytes(usize::MAX),
        Capacity::for_strings(usize::MAX),
    ] {
        let made: LassoResult<Shared> = ThreadedRodeo::with_capacity(rt.alloc(), room);
        let holds = made.is_err_and(|error| error.kind().is_failed_alloc());
        is_so(&rt, holds, "no memory");
    }
}

// An interner that threads share, made from static keywords.

const KEYWORDS: [&str; 3] = ["if", "else", "a keyword of more bytes than an entry has"];

#[test]
fn keywords_have_the_lowest_keys(rt: HostRuntime) -> Result<(), Fail> {
    static STEPS: [Step; 10] = [
        Counts(3),
        Finds("if", Some(0)),
        Finds("else", Some(1)),
        Finds("a keyword of more bytes than an entry has", Some(2)),
        Reads(0, Some("if")),
        Reads(1, Some("else")),
        Reads(2, Some("a keyword of more bytes than an entry has")),
        Uses(4096),
        IsLimited(usize::MAX),
        Interns(Way::TryCopied, "width", Ok(3)),
    ];
    let shared: Shared = ThreadedRodeo::from_static(rt.alloc(), &KEYWORDS)?;
    runs_in(&rt, &shared, &STEPS, PLAIN)?;
    let shared: Shared = ThreadedRodeo::from_static(rt.alloc(), &KEYWORDS)?;
    is_so(&rt, fits_in_all(&rt, &shared)?, "the first bucket");
    Ok(())
}
