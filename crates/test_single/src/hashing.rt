//! The hash of texts under a seed, against vectors that another program computed; how many times an interner hashes a
//! text, and how its index and its list grow.
use crate::interners::{Host, has_count, interns_numbers, is_so, is_so_at};
use lasso_parts::hasher::{TextState, hash_with_seed};
use lasso_parts::index::hash_text;
use lasso_parts::keys::Spur;
use lasso_parts::util::{Capacity, FixedState, LassoResult};
use lasso_single::coding::{encode, encode_text, intern_code};
use lasso_single::commands::{Command, run_commands};
use lasso_single::rodeo::Rodeo;
use std::alloc::Global;
use std::cell::Cell;
use std::hash::{BuildHasher, Hasher};
use std::io;
use std::random::RandomSource;
use std::test::Fail;
use test_common::hashers::CountingState;

// The seeds of the table's columns.
static SEEDS: [(u64, u64); 3] = [
    (0, 0),
    (0x0706_0504_0302_0100, 0x0f0e_0d0c_0b0a_0908),
    (0xffff_ffff_ffff_ffff, 1),
];

// Texts of lengths at and about each bound, with their hashes under the seeds, in digits of base 16. `python3
// bench/text_hash.py` printed them: a program that was written from the definitions in `specs/TextHash.antt` alone.
static VECTORS: [(&str, &str); 19] = [
    ("", "bc13060e2d1aac79 27345d07a1f33e47 199a8126a3b78713"),
    ("b", "5e715b582c58178a bbaf140b4298bc98 16fe7781159dd30b"),
    ("cj", "7499cba80504bcd2 f450feaebcfe536e e5c7722bf8b3a86c"),
    ("dks", "252bf9968d3af138 f040135a8259ab88 9787519a7aa7a70e"),
    ("eltc", "9e0e75b32cfffe6d 999215b37c85c06f dbf61c2c3d75b2ef"),
    (
        "howfoyj",
        "6f17a0e9f86fdd91 6f6df95e761fe373 ae5aed640b1bf22b",
    ),
    (
        "ipxgpzkv",
        "37beb5e2fac1aedb 7ed968526007d912 6c2f392fdf50894a",
    ),
    (
        "jqyhqalwi",
        "6775c97e083b8e09 d32a82003ead3a50 b9919c032036fa13",
    ),
    (
        "pwenwgrcobocrgw",
        "f8ac12b977298eb4 daf12802d50d41d3 7dcd1115287a5049",
    ),
    (
        "qxfoxhsdpcpdshxo",
        "dcd7a3ad11ce2485 ffafddbe926e820c 99d62e6950ae8401",
    ),
    (
        "rygpyiteqdqetiypg",
        "869597ffa477643e c537e7cc193ba0ac 34cbbc2a6c28b9cf",
    ),
    (
        "fmudmwhsereshwmdumfysniebywvuuv",
        "b96412110f368eca bcbff700696cb340 c92debb9aef87af1",
    ),
    (
        "gnvenxitfsftixnevngztojfczxwvvwx",
        "46d2e132c26359e6 e12661b6b5ce7076 a384d2d95884f798",
    ),
    (
        "howfoyjugtgujyofwohaupkgdayxwwxya",
        "e813d969a803b4af 026189e5e194853c 05bb2c0d7e823c91",
    ),
    (
        "wdludnyjvivjynduldwpjezvspnmllmnpsvzejpwdludnyjv",
        "a5da689e597d0f9c 2eda7f2fa0ec2b70 304a45cf86cf1209",
    ),
    (
        "lsajscnykxkyncsjasleytokhecbaabcehkotyelsajscnykxkyncsjasleytok",
        "102f3b94dcff8f42 d2ae9e2bf8706b09 67b5846a12ef6752",
    ),
    (
        "mtbktdozlylzodtkbtmfzuplifdcbbcdfilpuzfmtbktdozlylzodtkbtmfzupli",
        "15c585a6f035a300 3fef88753b476990 03386e4ccbc586b2",
    ),
    (
        "nucluepamzmapeulcungavqmjgedccdegjmqvagnucluepamzmapeulcungavqmjg",
        "95c0e66530d30050 5234695cfd657b58 c570bbc5e094826f",
    ),
    (
        "cjrajtepbobpetjarjcvpkfbyvtsrrstvybfkpvcjrajtepbobpetjarjcvpkfbyvtsrrstvybfkpvcj",
        "756e9b39c41576a2 d9a9c2d29f64ea7a d8d901d54e74d672",
    ),
];

// The hash of the text under the seed of this column.
fn hash_at(text: &str, column: usize) -> u64 {
    let (first, second) = SEEDS[column % 3];
    hash_with_seed(first, second, text)
}

#[test]
fn hashes_are_those_of_the_table(rt: HostRuntime) -> Result<(), Fail> {
    for (text, hashes) in &VECTORS {
        let (one, two, three) = (hash_at(text, 0), hash_at(text, 1), hash_at(text, 2));
        let printed = format!(in rt.alloc(); "{one:016x} {two:016x} {three:016x}")?;
        assert!(rt; printed.as_str() == *hashes, "{text}");
    }
    Ok(())
}

// The hash after two writes.
fn hash_of_two(first: &str, second: &str) -> u64 {
    let mut hasher = TextState::with_seed(7, 9).build_hasher();
    hasher.write(first.as_bytes());
    hasher.write(second.as_bytes());
    hasher.finish()
}

#[test]
fn the_fixed_seed_is_zero(rt: HostRuntime) {
    let fixed = FixedState::new();
    assert!(rt; hash_text(&fixed, "sky") == hash_with_seed(0, 0, "sky"));
    assert!(rt; hash_text(&FixedState::default(), "sky") == hash_with_seed(0, 0, "sky"));
    assert!(rt; fixed == TextState::with_seed(0, 0));
    assert!(rt; fixed != TextState::with_seed(0, 1));
    assert!(rt; hash_of_two("ab", "c") != hash_of_two("a", "bc"));
}

// A source of the bytes 0, 1, 2 and so on, or one that fails.
struct Counting {
    fails: bool,
}

impl RandomSource for Counting {
    fn fill_bytes(&self, bytes: &mut [u8]) -> io::Result<()> {
        if self.fails {
            return Err(io::Error::from(io::ErrorKind::TimedOut));
        }
        for (place, number) in bytes.iter_mut().zip(0..) {
            *place = number;
        }
        Ok(())
    }
}

#[test]
fn a_random_seed_is_the_bytes_of_the_source(rt: HostRuntime) {
    let made = TextState::random(&Counting { fails: false });
    assert!(rt; made.is_ok_and(|hasher| hasher == TextState::with_seed(SEEDS[1].0, SEEDS[1].1)));
    let failed = TextState::random(&Counting { fails: true });
    assert!(rt; failed.is_err_and(|error| error.kind() == io::ErrorKind::TimedOut));
}

#[test]
fn debug_text_shows_no_seed(rt: HostRuntime) -> Result<(), Fail> {
    let printed = format!(in rt.alloc(); "{:?}", TextState::with_seed(7, 9))?;
    assert!(rt; printed.as_str() == "TextState { .. }");
    Ok(())
}

#[test]
fn the_system_gives_seeds_that_differ(rt: HostRuntime) -> Result<(), Fail> {
    let (first, second) = (TextState::random(&rt)?, TextState::random(&rt)?);
    assert!(rt; first != second);
    assert!(rt; hash_text(&first, "sky") != hash_text(&second, "sky"));
    Ok(())
}

// How many times an interner hashes a text.

type Counted<'a> = Rodeo<Spur, CountingState<'a>, Global>;

// An interner that adds to the number in the cell for each text that it hashes.
fn counted<'a>(alloc: Global, made: &'a Cell<u64>) -> Result<Counted<'a>, Fail> {
    Ok(Rodeo::with_hasher(alloc, CountingState::new(made))?)
}

// A call about one text.
#[derive(Clone, Copy)]
enum Call {
    TryCopied,
    Copied,
    TryStatic,
    Static,
    Item,
    ItemFrom,
    Keys,
    Command,
    Code,
    Encoded,
    Column,
    Get,
    Contains,
}

// How many of the calls intern the text.
const INTERNING: usize = 11;

// Each call, with a text of its own.
static CALLS: [(Call, &str); 13] = [
    (Call::TryCopied, "a"),
    (Call::Copied, "b"),
    (Call::TryStatic, "c"),
    (Call::Static, "a static text of many bytes"),
    (Call::Item, ""),
    (Call::ItemFrom, "f"),
    (Call::Keys, "i"),
    (Call::Command, "j"),
    (Call::Code, "k"),
    (Call::Encoded, "l"),
    (Call::Column, "m"),
    (Call::Get, "g"),
    (Call::Contains, "h"),
];

// Makes the call.
fn make(alloc: Global, rodeo: &mut Counted<'_>, call: Call, text: &'static str) -> LassoResult<()> {
    let (mut keys, mut codes) = (Vec::new(alloc), Vec::new(alloc));
    match call {
        Call::TryCopied => drop(rodeo.try_get_or_intern(text)?),
        Call::Copied => drop(rodeo.get_or_intern(text)?),
        Call::TryStatic => drop(rodeo.try_get_or_intern_static(text)?),
        Call::Static => drop(rodeo.get_or_intern_static(text)?),
        Call::Item => rodeo.extend([text])?,
        Call::ItemFrom => rodeo.extend_from(&mut [text].into_iter())?,
        Call::Keys => rodeo.try_get_or_intern_all(&[text], &mut keys)?,
        Call::Command => drop(run_commands(alloc, rodeo, &[Command::Intern(text)])?),
        Call::Code => drop(intern_code(rodeo, text)?),
        Call::Encoded => encode_text(rodeo, text, &mut codes)?,
        Call::Column => encode(rodeo, &[text], &mut codes)?,
        Call::Get => drop(rodeo.get(text)),
        Call::Contains => drop(rodeo.contains(text)),
    }
    Ok(())
}

// Each call is made for an absent text, and again. A text that was interned is looked up in the reader then.
#[test]
fn each_call_hashes_its_text_once(rt: HostRuntime) -> Result<(), Fail> {
    let made = Cell::new(0);
    let mut rodeo = counted(rt.alloc(), &made)?;
    is_so(&rt, made.get() == 0, "a new interner");
    for (call, text) in &CALLS {
        let before = made.get();
        make(rt.alloc(), &mut rodeo, *call, text)?;
        is_so(&rt, made.get().wrapping_sub(before) == 1, *text);
        make(rt.alloc(), &mut rodeo, *call, text)?;
        is_so(&rt, made.get().wrapping_sub(before) == 2, *text);
    }
    is_so(
        &rt,
        has_count(&rodeo, INTERNING),
        "the texts that were interned",
    );
    let reader = rodeo.into_reader();
    for (number, (_, text)) in CALLS.iter().enumerate() {
        let before = made.get();
        is_so(
            &rt,
            reader.get(*text).is_some() == (number < INTERNING),
            *text,
        );
        is_so(&rt, made.get().wrapping_sub(before) == 1, *text);
        is_so(&rt, reader.contains(*text) == (number < INTERNING), *text);
        is_so(&rt, made.get().wrapping_sub(before) == 2, *text);
    }
    Ok(())
}

// Numbers of texts, and how many an index that began without slots has hashed again by then. It gets 8 slots, and twice
// as many when three quarters are filled: before the 7th text, the 13th, the 25th and so on. Then it hashes the 6 texts that it
// has, 12, 24 and so on.
static HASHED_AGAIN: [(usize, u64); 11] = [
    (6, 0),
    (7, 6),
    (12, 6),
    (13, 18),
    (1536, 1530),
    (1537, 3066),
    (3072, 3066),
    (3073, 6138),
    (24_577, 49_146),
    (49_152, 49_146),
    (49_153, 98_298),
];

// How often the list of that many texts grows at most: from 0 to 1, 2, 4 and so on up to 65,536.
const GROWTHS: u32 = 17;

#[test]
fn list_and_index_double(rt: HostRuntime) -> Result<(), Fail> {
    let (made, alloc) = (Cell::new(0), rt.alloc());
    let state = CountingState::new(&made);
    let mut rodeo = Counted::with_capacity_and_hasher(alloc, Capacity::minimal(), state)?;
    let (mut room, mut growths) = (rodeo.capacity(), 0u32);
    for (count, again) in &HASHED_AGAIN {
        for number in rodeo.len()..*count {
            let text = number.to_string(alloc)?;
            rodeo.try_get_or_intern(text.as_str())?;
            if rodeo.capacity() != room {
                room = rodeo.capacity();
                growths = growths.saturating_add(1);
            }
        }
        let hashed = made.get().saturating_sub(*count as u64);
        is_so_at(&rt, hashed == *again, *count);
    }
    is_so(&rt, growths <= GROWTHS, "the growths of the list");
    Ok(())
}

// A growing index would hash its texts again, and a growing list would change `capacity()`.
#[test]
fn texts_given_room_first_go_in_without_a_growth(rt: HostRuntime) -> Result<(), Fail> {
    let (made, capacity) = (Cell::new(0), Capacity::for_strings(1000));
    let state = CountingState::new(&made);
    let mut rodeo = Counted::with_capacity_and_hasher(rt.alloc(), capacity, state)?;
    let room = rodeo.capacity();
    is_so(&rt, room >= 1000, "the room");
    let are_in = interns_numbers(rt.alloc(), &mut rodeo, 1000, 4096)?;
    is_so(&rt, are_in, "the texts");
    is_so(&rt, made.get() == 1000, "the texts that were hashed");
    is_so(&rt, rodeo.capacity() == room, "the room after them");
    Ok(())
}

// How many texts are cloned. A list that grows by doubling has room for 2048 then.
const CLONED: usize = 1030;

// How many bytes a clone may take: 16 for each text in the list, 5 for each of the fewest slots of which three quarters
// are as many, 2048, the 3010 of the numbers below 1030 in decimal, and less than 1000 for the list of one bucket.
const MOST_OF_A_CLONE: usize = 16_480 + 10_240 + 3010 + 1000;

// Each text is hashed once for the clone. A growing index in it would hash its texts again, and a growing list would
// take more room.
#[test]
fn a_clone_has_room_for_its_texts(rt: HostRuntime) -> Result<(), Fail> {
    let made = Cell::new(0);
    let mut rodeo = counted(rt.alloc(), &made)?;
    let are_in = interns_numbers(rt.alloc(), &mut rodeo, CLONED, 4096)?;
    is_so(&rt, are_in, "the texts");
    for is_plain in [false, true] {
        let before = made.get();
        let copy = if is_plain {
            rodeo.clone()?
        } else {
            rodeo.try_clone()?
        };
        let hashed = made.get().saturating_sub(before);
        is_so(&rt, hashed == CLONED as u64, "the texts that were hashed");
        is_so(&rt, has_count(&copy, CLONED), "the texts of the clone");
        is_so(&rt, copy.allocated_bytes() < MOST_OF_A_CLONE, "the room");
    }
    Ok(())
}

// Copies an interner of two texts over another by the call of this number. The copy hashes each text once, with the
// source's hasher, and the target uses that hasher from then on.
fn copies_with_its_hasher(rt: &impl Host, call: usize) -> Result<(), Fail> {
    let (of_source, of_target) = (Cell::new(0), Cell::new(0));
    let mut source = counted(rt.alloc(), &of_source)?;
    source.extend(["a", "b"])?;
    let mut target = counted(rt.alloc(), &of_target)?;
    is_so_at(rt, of_source.get() == 2, call);
    match call {
        0 => target.try_clone_from(&source)?,
        1 => target.clone_from(&source)?,
        _ => drop(run_commands(rt.alloc(), &mut target, &[Command::CloneFrom(&source)])?),
    }
    is_so_at(rt, of_source.get() == 4, call);
    is_so_at(rt, target.contains("b"), call);
    is_so_at(rt, of_source.get() == 5, call);
    is_so_at(rt, of_target.get() == 0, call);
    Ok(())
}

#[test]
fn a_copy_asks_the_hasher_of_its_source(rt: HostRuntime) -> Result<(), Fail> {
    for call in 0..3usize {
        copies_with_its_hasher(&rt, call)?;
    }
    Ok(())
}
