//! A text that a hint tells is found while another thread writes in its shard, and a present text of a list while
//! another thread reads there.
use crate::checks::{is_so, is_so_at};
use crate::shards::{is_seen, opened};
use lasso_log::log::{Log, Opened, Pass};
use lasso_log::shared_memory::piece::Piece;
use lasso_parts::keys::Spur;
use lasso_parts::util::{LassoError, LassoErrorKind, LassoResult};
use lasso_shared::shards::Shards;
use lasso_shared::shards::new_text::NewText;
use std::alloc::Global;
use std::sync::atomic::{AtomicU64, Ordering};
use std::test::*;
use std::thread::join;
use test_common::hashers::FirstState;
use test_steps::Host;

// More texts than a round of hints has, after which hints that found few of them rest.
const ROUND: usize = 70_000;

// Where two threads meet: the first one says that it knows the text, the second one that it holds the shard, and
// then the first one that it found the text.
#[derive(Drop)]
struct Meeting {
    kept: AtomicU64,
    held: AtomicU64,
    found: AtomicU64,
}

impl Meeting {
    fn new() -> Meeting {
        Meeting {
            kept: AtomicU64::new(0),
            held: AtomicU64::new(0),
            found: AtomicU64::new(0),
        }
    }
}

fn set(flag: &AtomicU64) {
    flag.store(1, Ordering::SeqCst);
}

// Makes the pass keep hints.
fn hint(alloc: Global, pass: &mut Pass<Spur>) -> LassoResult<()> {
    pass.make_hints(alloc);
    if pass.has_hints() {
        Ok(())
    } else {
        Err(LassoError::new(LassoErrorKind::FailedAllocation))
    }
}

// Whether the pass finds the text, and interns it as a static and as a copied one, and then finds and interns 70 of it by
// calls for all of them.
fn finds(
    rt: &impl Host,
    shards: &Shards<Spur, FirstState>,
    pass: &mut Pass<Spur>,
    text: &'static str,
) -> LassoResult<bool> {
    let is_found = shards.get(rt, pass, text).is_some();
    let is_kept = shards.intern(rt, pass, NewText::Static(text)).is_ok();
    let is_copied = shards.intern(rt, pass, NewText::Copied(text)).is_ok();
    let texts = [text; 70];
    let (mut found, mut keys) = (Vec::new(rt.alloc()), Vec::new(rt.alloc()));
    shards.get_all(rt, pass, &texts, &mut found)?;
    shards.intern_all(rt, pass, &texts, &mut keys)?;
    let are_found = found.len() == 70 && found.last().copied() == Some(keys.first().copied());
    Ok(is_found && is_kept && is_copied && are_found)
}

// How a pass comes to know the text.
#[derive(Clone, Copy)]
enum Way {
    // By calls that take one text, which keep a hint.
    One,
    // By calls that take a list, which keep a hint.
    Lists,
    // Another pass interned it, so there is no hint.
    Other,
}

// Lets the pass come to know the text.
fn know(
    rt: &impl Host,
    shards: &Shards<Spur, FirstState>,
    pass: &mut Pass<Spur>,
    way: Way,
    text: &'static str,
) -> LassoResult<()> {
    let (mut found, mut keys) = (Vec::new(rt.alloc()), Vec::new(rt.alloc()));
    match way {
        Way::One => {
            hint(rt.alloc(), pass)?;
            shards.intern(rt, pass, NewText::Static(text))?;
            let _found = shards.get(rt, pass, text);
        }
        // the second list meets the text, which is then looked up as often as it takes for hints that find nothing
        // to rest
        Way::Lists => {
            hint(rt.alloc(), pass)?;
            shards.intern_all(rt, pass, &[text], &mut keys)?;
            shards.intern_all(rt, pass, &[text], &mut keys)?;
            shards.get_all(rt, pass, &vec![in rt.alloc(); text; ROUND]?, &mut found)?;
        }
        Way::Other => {
            shards.intern(rt, &mut shards.log.pass(), NewText::Static(text))?;
        }
    }
    Ok(())
}

// Comes to know the text, and finds it once its shard is held.
fn know_and_find(
    rt: &impl Host,
    shards: &Shards<Spur, FirstState>,
    way: Way,
    text: &'static str,
    meeting: &Meeting,
) -> LassoResult<()> {
    let mut pass = shards.log.pass();
    let known = know(rt, shards, &mut pass, way, text);
    set(&meeting.kept);
    known?;
    if is_seen(&meeting.held) && finds(rt, shards, &mut pass, text)? {
        set(&meeting.found);
    }
    Ok(())
}

// Says that the shard is held. Returns whether the text is found meanwhile. It does not wait for ever.
fn is_found_meanwhile(meeting: &Meeting) -> bool {
    set(&meeting.held);
    is_seen(&meeting.found)
}

// Locks the shard of this number, for reading if the text has no hint, and else for writing, once the text is
// known. Returns whether it is found meanwhile.
fn hold(
    rt: &impl Host,
    shards: &Shards<Spur, FirstState>,
    way: Way,
    number: usize,
    meeting: &Meeting,
) -> bool {
    if !is_seen(&meeting.kept) {
        return false;
    }
    match way {
        Way::Other => {
            let guard = shards.lock(number).read(rt);
            let is_found = is_found_meanwhile(meeting);
            guard.unlock();
            is_found
        }
        _ => {
            let (guard, shard) = shards.lock(number).write(rt);
            let is_found = is_found_meanwhile(meeting);
            guard.unlock(rt, shard);
            is_found
        }
    }
}

// A text has to be found while its shard is held.
fn finds_while_held(rt: &impl Host, way: Way) -> Result<(), Fail> {
    let (shards, meeting) = (opened(rt.alloc())?, Meeting::new());
    // `0` is a text of shard 3
    let (is_found, known) = join(
        rt,
        || hold(rt, &shards, way, 3, &meeting),
        || know_and_find(rt, &shards, way, "0", &meeting),
    );
    known?;
    is_so(rt, is_found, "the text");
    Ok(())
}

#[test]
fn a_hinted_text_is_found_beside_a_writer(rt: HostRuntime) -> Result<(), Fail> {
    finds_while_held(&rt, Way::One)
}

#[test]
fn a_text_that_lists_met_is_found_beside_a_writer(rt: HostRuntime) -> Result<(), Fail> {
    finds_while_held(&rt, Way::Lists)
}

#[test]
fn a_present_text_of_a_list_is_found_beside_a_reader(rt: HostRuntime) -> Result<(), Fail> {
    finds_while_held(&rt, Way::Other)
}

// Hints of a pass: which positions they tell, and when they rest.

// The texts of the list, one of them empty.
static TEXTS: [&str; 5] = ["bc", "", "a", "p", "q"];

// A hash for each text. All choose the same set, and differ in bits that no position here has.
static HASHES: [u64; 5] = [1 << 48, 2 << 48, 3 << 48, 4 << 48, 5 << 48];

// How many absent texts are asked for at once.
const MISSES: u32 = 1000;

// How often a test asks before it gives up.
const TURNS: u32 = 10_000;

// More texts than two rounds have.
const HITS: u32 = 200_000;

// A log with a pass of it.
#[derive(Drop)]
struct Asked<'a> {
    log: &'a Log<Spur>,
    pass: Pass<Spur>,
}

impl Asked<'_> {
    // Keeps the position of the text at it. Returns whether the list has the position.
    fn keeps(&mut self, position: usize) -> bool {
        let has_position = (position as u64) < self.log.len(&mut self.pass);
        if has_position {
            self.pass.keep_hint(HASHES[position], position as u64);
        }
        has_position
    }

    // Whether a hint tells the text, if it is asked with that hash.
    fn is_told(&mut self, hash: u64, text: &str) -> bool {
        self.log.find_hinted(&mut self.pass, hash, text).is_some()
    }

    // Whether a hint tells the text of the position.
    fn tells(&mut self, position: usize) -> bool {
        let (hash, text) = (HASHES[position], TEXTS[position]);
        self.log.find_hinted(&mut self.pass, hash, text) == Some(position as u64)
    }

    // Asks for absent texts until the last text is told, or until it is not told any more. Returns whether it came
    // to that.
    fn comes_to(&mut self, is_told: bool) -> bool {
        for _ in 0..TURNS {
            if self.tells(4) == is_told {
                return true;
            }
            for _ in 0..MISSES {
                let _found = self.is_told(7, "none");
            }
        }
        false
    }
}

// The hints of five texts, which are asked for, and for absent texts.
fn tell(rt: &impl Host, asked: &mut Asked<'_>) {
    // the hint of `a` tells it, and no other text
    is_so(rt, !asked.tells(2), "an absent hint");
    is_so(rt, asked.keeps(2) && asked.tells(2), "one text");
    is_so(rt, !asked.is_told(HASHES[2], "b"), "another text");
    is_so(rt, !asked.is_told(HASHES[3], "a"), "the hash of another");
    is_so(rt, !asked.is_told(7, "a"), "another hash");
    // the hints of five texts are of one set of four: each is told at first, each time, and that of the first text,
    // which is asked for between the others, to the end
    for position in 0..5usize {
        is_so_at(rt, asked.keeps(position), position);
        for _ in 0..3u32 {
            is_so_at(rt, asked.tells(position), position);
        }
        is_so_at(rt, asked.tells(0), position);
    }
    // each hit is told, however many there are
    for _ in 0..HITS {
        is_so(rt, asked.tells(4), "no rest");
    }
    is_so(rt, asked.comes_to(false), "a rest");
    is_so(rt, asked.comes_to(true), "the end of the rest");
}

#[test]
fn hints_tell_the_texts_that_they_were_kept_of(rt: HostRuntime) -> Result<(), Fail> {
    let opened = Opened {
        size: 4096,
        limit: u64::MAX,
    };
    let (log, mut spine) = Log::open(rt.alloc(), opened)?;
    let mut pass = log.pass();
    for text in TEXTS.iter() {
        let cell = log.reserve_next(rt.alloc(), &mut spine)?;
        let is_last = log.append_now(&mut spine, &mut pass, cell, Piece::from_static(*text));
        is_so(&rt, is_last, text);
    }
    let mut asked = Asked { log: &log, pass };
    // without a table nothing is kept
    let is_asked = asked.keeps(2);
    is_so(&rt, is_asked && !asked.pass.has_hints(), "no hints");
    is_so(&rt, !asked.tells(2), "nothing is told");
    hint(rt.alloc(), &mut asked.pass)?;
    tell(&rt, &mut asked);
    Ok(())
}
