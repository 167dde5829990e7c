//! Hints of a pass: which calls keep and follow them, how many a table keeps, and that no other call loses one.
use crate::checks::{is_so, is_so_at};
use lasso_log::log::{Log, Opened, Pass, Spine};
use lasso_log::shared_memory::piece::Piece;
use lasso_parts::index::hash_text;
use lasso_parts::keys::Spur;
use lasso_parts::util::{FixedState, LassoErrorKind, LassoResult};
use std::test::*;
use test_steps::Host;
use test_steps::calls::{Shared, limited, made, numbered, refusal_of, until_free};
use test_steps::texts::List::Numbers;
use test_steps::texts::items_of;

// A call by a pass that is given a text.
#[derive(Clone, Copy)]
enum Call {
    Copied,
    CopiedNow,
    Static,
    Item,
    CopiedAll,
    Get,
    GetNow,
    GetAll,
}

static CALLS: [Call; 8] = [
    Call::Copied,
    Call::CopiedNow,
    Call::Static,
    Call::Item,
    Call::CopiedAll,
    Call::Get,
    Call::GetNow,
    Call::GetAll,
];

// How many of the calls intern the text.
const INTERNING: usize = 5;

// More texts than a round of hints has.
const ROUND: usize = 70_000;

// Makes the call.
fn make(
    rt: &impl Host,
    shared: &Shared,
    pass: &mut Pass<Spur>,
    call: Call,
    text: &'static str,
) -> LassoResult<()> {
    match call {
        Call::Copied => drop(shared.try_get_or_intern_as(rt, pass, text)?),
        Call::CopiedNow => drop(until_free(rt, || shared.intern_now_as(pass, text))?),
        Call::Static => drop(shared.try_get_or_intern_static_as(rt, pass, text)?),
        Call::Item => shared.extend_as(rt, pass, &mut [text].into_iter())?,
        Call::CopiedAll => {
            let mut keys = Vec::new(rt.alloc());
            shared.try_get_or_intern_all_as(rt, pass, &[text], &mut keys)?;
        }
        Call::Get => drop(shared.get_as(rt, pass, text)),
        Call::GetNow => drop(until_free(rt, || shared.get_now_as(pass, text))),
        Call::GetAll => {
            let mut keys = Vec::new(rt.alloc());
            shared.get_all_as(rt, pass, &[text], &mut keys)?;
        }
    }
    Ok(())
}

// The position that a hint of the pass has for the text.
fn hinted(pass: &mut Pass<Spur>, text: &str) -> Option<u64> {
    pass.ask_hint(hash_text(&FixedState::new(), text))
}

// `red` is added by another pass: each call keeps a hint of it. A call that adds `blue` keeps none, and the next one does.
// None that adds a text loses the hint of `red`: a copy of `blue` goes into the first bucket, one of `green` into a new one.
#[test]
fn a_call_that_finds_a_text_keeps_a_hint(rt: HostRuntime) -> Result<(), Fail> {
    for (number, call) in CALLS.iter().enumerate() {
        let shared: Shared = limited(rt.alloc(), 7, usize::MAX)?;
        let mut pass = shared.pass_with_hints(rt.alloc());
        is_so_at(&rt, pass.has_hints(), number);
        shared.try_get_or_intern(&rt, "red")?;
        is_so_at(&rt, hinted(&mut pass, "red").is_none(), number);
        make(&rt, &shared, &mut pass, *call, "red")?;
        is_so_at(&rt, hinted(&mut pass, "red") == Some(0), number);
        make(&rt, &shared, &mut pass, *call, "blue")?;
        is_so_at(&rt, hinted(&mut pass, "blue").is_none(), number);
        make(&rt, &shared, &mut pass, *call, "blue")?;
        let wanted = if number < INTERNING { Some(1) } else { None };
        is_so_at(&rt, hinted(&mut pass, "blue") == wanted, number);
        is_so_at(&rt, hinted(&mut pass, "red") == Some(0), number);
        make(&rt, &shared, &mut pass, *call, "green")?;
        is_so_at(&rt, hinted(&mut pass, "red") == Some(0), number);
    }
    Ok(())
}

// Hints serve only if they found most texts of a round.
#[test]
fn each_call_follows_hints(rt: HostRuntime) -> Result<(), Fail> {
    for (number, call) in CALLS.iter().enumerate() {
        let shared = made(rt.alloc())?;
        shared.try_get_or_intern(&rt, "red")?;
        let mut pass = shared.pass_with_hints(rt.alloc());
        is_so_at(&rt, !pass.hints_serve(), number);
        for _ in 0..ROUND {
            make(&rt, &shared, &mut pass, *call, "red")?;
        }
        is_so_at(&rt, pass.hints_serve(), number);
    }
    Ok(())
}

// Fails unless each call that reads tells of `red` alone, if there is one text, and of four bytes.
fn reads_by(rt: &impl Host, shared: &Shared, pass: &mut Pass<Spur>, count: usize) {
    let red = if count == 1 { Some("red") } else { None };
    let key = Spur::default();
    let has_key = shared.contains_key_as(pass, key) == red.is_some();
    is_so(rt, has_key && shared.len_as(pass) == count, "the texts");
    let resolves = shared.try_resolve_as(pass, key) == red;
    let list = shared.seen_list_as(pass);
    is_so(rt, resolves && shared.text_at(&list, 0) == red, "the key");
    let walks = shared.strings_as(pass).next() == red;
    is_so(rt, walks && shared.iter_as(pass).len() == count, "walks");
    let is_written = shared.serialize_as(rt.alloc(), pass).is_ok();
    is_so(rt, is_written, "JSON");
    let limit = until_free(rt, || shared.max_memory_usage_now_as(pass));
    let is_limit = limit == 4 && shared.max_memory_usage_as(rt, pass) == 4;
    is_so(rt, is_limit, "the limit");
    let usage = until_free(rt, || shared.current_memory_usage_now_as(pass));
    let is_usage = usage == 4 && shared.current_memory_usage_as(rt, pass) == 4;
    is_so(rt, is_usage, "the usage");
}

// Fails unless the interner has `count` texts, and `bytes` of its four bytes left.
fn has_left(rt: &impl Host, shared: &Shared, count: usize, bytes: usize) -> LassoResult<()> {
    let rest = "-".repeat(rt.alloc(), bytes)?;
    let number = numbered(shared.try_get_or_intern(rt, rest.as_str()))?;
    is_so_at(rt, number == count, bytes);
    let refusal = refusal_of(shared.try_get_or_intern(rt, "z"))?;
    let is_full = refusal == Some(LassoErrorKind::MemoryLimitReached);
    is_so_at(rt, is_full, bytes);
    is_so_at(rt, shared.max_memory_usage(rt) == 4, bytes);
    Ok(())
}

// Whatever pass would do it: no call by a pass with hints takes another byte, interns another text or sets a limit, nor does
// one that reads lose a hint. The only bucket has four bytes, of which `red` takes three if it is copied.
#[test]
fn calls_by_a_pass_with_hints_do_no_more(rt: HostRuntime) -> Result<(), Fail> {
    static BYTES: [usize; 8] = [3, 3, 0, 3, 3, 0, 0, 0];
    for (number, call) in CALLS.iter().enumerate() {
        let shared: Shared = limited(rt.alloc(), 4, 4)?;
        let mut pass = shared.pass_with_hints(rt.alloc());
        // the first call interns the text or finds none, the second keeps a hint, and the third follows it
        for _ in 0..3u32 {
            make(&rt, &shared, &mut pass, *call, "red")?;
        }
        let count = usize::from(number < INTERNING);
        reads_by(&rt, &shared, &mut pass, count);
        let wanted = if count == 1 { Some(0) } else { None };
        is_so_at(&rt, hinted(&mut pass, "red") == wanted, number);
        has_left(&rt, &shared, count, 4 - BYTES[number])?;
    }
    Ok(())
}

// Hints of a log.

// A log of the first numbers in five digits, `count` of them.
fn log_of(rt: &impl Host, count: usize) -> Result<(Log<Spur>, Spine<Spur>), Fail> {
    let opened = Opened {
        size: 4096,
        limit: u64::MAX,
    };
    let (log, mut spine) = Log::open(rt.alloc(), opened)?;
    let mut pass = log.pass();
    for text in items_of(rt.alloc(), Numbers(0, count))?.iter() {
        let cell = log.reserve_next(rt.alloc(), &mut spine)?;
        let is_last = log.append_now(&mut spine, &mut pass, cell, Piece::from_static(*text));
        is_so(rt, is_last, *text);
    }
    Ok((log, spine))
}

// How many hints a table keeps, in sets of four.
const HINTS: u64 = 32_768;

// A hash for the text at the position. Each set has four positions, whose hashes differ in bits that no position has.
fn hash_at(position: u64) -> u64 {
    (position / 4).wrapping_add((position % 4).wrapping_add(1) << 48)
}

// Whether a hint leads to the position.
fn leads_to(pass: &mut Pass<Spur>, position: u64) -> bool {
    pass.ask_hint(hash_at(position)) == Some(position)
}

// A new hint goes to the third place of its set, and moves up when it is asked for: here the first one twice, and the
// second one once. Each is asked for then. That is less often than in a round.
#[test]
fn a_table_keeps_32_768_hints(rt: HostRuntime) -> Result<(), Fail> {
    let (log, _spine) = log_of(&rt, HINTS as usize)?;
    let mut pass = log.pass();
    is_so(&rt, log.len(&mut pass) == HINTS, "the texts");
    pass.make_hints(rt.alloc());
    for position in 0..HINTS {
        pass.keep_hint(hash_at(position), position);
        for _ in position % 4..2 {
            is_so_at(&rt, leads_to(&mut pass, position), position as usize);
        }
    }
    for position in 0..HINTS {
        is_so_at(&rt, leads_to(&mut pass, position), position as usize);
    }
    Ok(())
}

// The sets are chosen by 13 bits of a hash: three hashes that differ in later bits have one set. A hint that is not asked for
// goes when two come after it.
#[test]
fn a_table_keeps_no_more_hints(rt: HostRuntime) -> Result<(), Fail> {
    static HASHES: [u64; 3] = [7 | 1 << 48, 7 | 1 << 13 | 2 << 48, 7 | 1 << 31 | 3 << 48];
    let (log, _spine) = log_of(&rt, 3)?;
    let mut pass = log.pass();
    is_so(&rt, log.len(&mut pass) == 3, "the texts");
    pass.make_hints(rt.alloc());
    for (position, hash) in HASHES.iter().enumerate() {
        pass.keep_hint(*hash, position as u64);
    }
    for (position, hash) in HASHES.iter().enumerate() {
        let wanted = if position == 0 {
            None
        } else {
            Some(position as u64)
        };
        is_so_at(&rt, pass.ask_hint(*hash) == wanted, position);
    }
    Ok(())
}

// How many of the first 65,536 texts are hits, whether hints rest then, and whether they serve.
static ROUNDS: [(u32, bool, bool); 6] = [
    (0, true, false),
    (8191, true, false),
    (8192, false, false),
    (49_151, false, false),
    (49_152, false, true),
    (65_536, false, true),
];

// A pass with a hint of position 0, which is asked for in a whole round, each time with success. So many of these count as
// hits.
fn after_a_round(rt: &impl Host, log: &Log<Spur>, hits: u32) -> Result<Pass<Spur>, Fail> {
    let mut pass = log.pass();
    is_so(rt, log.len(&mut pass) == 2, "the texts");
    pass.make_hints(rt.alloc());
    pass.keep_hint(hash_at(0), 0);
    for asked in 0..65_536u32 {
        is_so(rt, leads_to(&mut pass, 0), "a hint in the first round");
        if asked < hits {
            pass.count_hint();
        }
    }
    Ok(pass)
}

#[test]
fn hints_rest_and_serve_by_their_hits(rt: HostRuntime) -> Result<(), Fail> {
    let (log, _spine) = log_of(&rt, 2)?;
    for (row, (hits, rest, serve)) in ROUNDS.iter().enumerate() {
        let mut pass = after_a_round(&rt, &log, *hits)?;
        is_so_at(&rt, leads_to(&mut pass, 0) != *rest, row);
        is_so_at(&rt, pass.hints_serve() == *serve, row);
    }
    Ok(())
}

// Hints rest for 983,040 texts, or for one more: that with which the rest begins. None is kept meanwhile.
#[test]
fn hints_rest_for_fifteen_rounds(rt: HostRuntime) -> Result<(), Fail> {
    let (log, _spine) = log_of(&rt, 2)?;
    let mut pass = after_a_round(&rt, &log, 0)?;
    let mut rested = 0u32;
    while rested < 2_000_000 && !leads_to(&mut pass, 0) {
        rested = rested.saturating_add(1);
        pass.keep_hint(hash_at(1), 1);
    }
    is_so(&rt, rested == 983_040 || rested == 983_041, "the rest");
    is_so(&rt, !leads_to(&mut pass, 1), "a hint that came in the rest");
    Ok(())
}

// A call with a pass that asks for no text.
#[derive(Clone, Copy)]
enum Act {
    MakesHints,
    Meets,
    MeetsIfSame,
    Differs,
    Learns,
    Counts,
    Reads,
    Lists,
    Appends,
    Limits,
}

static ACTS: [Act; 10] = [
    Act::MakesHints,
    Act::Meets,
    Act::MeetsIfSame,
    Act::Differs,
    Act::Learns,
    Act::Counts,
    Act::Reads,
    Act::Lists,
    Act::Appends,
    Act::Limits,
];

// Makes the call, beside another pass that has seen more.
fn act(
    rt: &impl Host,
    log: &Log<Spur>,
    spine: &mut Spine<Spur>,
    pass: &mut Pass<Spur>,
    act: Act,
) -> LassoResult<()> {
    let mut other = log.pass();
    let _len = log.len(&mut other);
    match act {
        Act::MakesHints => pass.make_hints(rt.alloc()),
        Act::Meets => pass.meet(&other),
        Act::MeetsIfSame => pass.meet_if_same(&other),
        Act::Differs => pass.prove_differs(&mut other),
        Act::Learns => pass.learn(&other.snapshot()),
        Act::Counts => drop(log.len(pass)),
        Act::Reads => drop(log.read(1, pass)),
        Act::Lists => drop(log.seen_list(pass)),
        Act::Appends => {
            let cell = log.reserve_next(rt.alloc(), spine)?;
            let is_last = log.append_now(spine, pass, cell, Piece::from_static("new"));
            is_so(rt, is_last, "new");
        }
        Act::Limits => log.set_limit(rt, spine, pass, 5000),
    }
    Ok(())
}

#[test]
fn no_other_call_loses_a_hint(rt: HostRuntime) -> Result<(), Fail> {
    let (log, mut spine) = log_of(&rt, 3)?;
    let mut pass = log.pass();
    is_so(&rt, log.len(&mut pass) == 3, "the texts");
    pass.make_hints(rt.alloc());
    pass.keep_hint(hash_at(2), 2);
    for (number, call) in ACTS.iter().enumerate() {
        act(&rt, &log, &mut spine, &mut pass, *call)?;
        is_so_at(&rt, pass.has_hints(), number);
        let found = log.find_hinted(&mut pass, hash_at(2), "00002");
        is_so_at(&rt, found == Some(2), number);
    }
    Ok(())
}
