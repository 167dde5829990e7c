//! Writers of two shards, which do not wait for each other, and readings, which wait for no writer. A hasher that waits
//! for another writer while an index grows.
ghost use Rattle.std.specs.Prelude.{◌≡◌, ◌+◌, ◌%◌, ◌^◌, length};

use crate::checks::is_so;
use crate::shards::is_seen;
use lasso_parts::keys::{Key, Spur};
use lasso_parts::util::LassoResult;
use lasso_shared::threaded::ThreadedRodeo;
use std::alloc::Global;
use std::hash::{BuildHasher, Hasher};
use std::sync::atomic::{AtomicU64, Ordering};
use std::test::*;
use std::thread::join;
use test_common::texts::leaked;
use test_steps::Host;
use test_steps::calls::Caller;
use test_steps::steps::Way;

type Armed<'a> = ThreadedRodeo<Spur, ArmedState<'a>>;

// The texts `0000` to `0999`. They are never freed.
fn four_digits(alloc: Global) -> Result<Vec<&'static str>, Fail> {
    let mut texts = Vec::with_capacity(alloc, 1000)?;
    for number in 0..1000u32 {
        texts.push(leaked(format!(in alloc; "{number:04}")?)?)?;
    }
    Ok(texts)
}

// Interns `00`, arms the gate, and interns the texts.
fn fills(
    rt: &impl Host,
    shared: &Armed<'_>,
    gate: &Gate,
    way: Way,
    texts: &[&'static str],
) -> LassoResult<()> {
    let caller = Caller::new(rt, shared);
    caller.interned(way, "00")?;
    gate.arm();
    for text in texts.iter() {
        caller.interned(way, *text)?;
    }
    Ok(())
}

// Waits for the other writer at the gate, interns `a`, and lets that writer go on. Returns whether it came.
fn passes(rt: &impl Host, shared: &Armed<'_>, gate: &Gate, way: Way) -> LassoResult<bool> {
    let there = gate.is_first_there();
    Caller::new(rt, shared).interned(way, "a")?;
    gate.pass();
    Ok(there)
}

// Two threads intern a thousand texts of one shard and two of another by this call. One comes to the gate, the other is
// done while it waits there, and each text is there once.
fn are_apart(rt: &impl Host, way: Way) -> Result<(), Fail> {
    let (texts, gate) = (four_digits(rt.alloc())?, Gate::new());
    let shared: Armed<'_> = ThreadedRodeo::with_hasher(rt.alloc(), ArmedState::new(&gate))?;
    let (filled, there) = join(
        rt,
        || fills(rt, &shared, &gate, way, &texts),
        || passes(rt, &shared, &gate, way),
    );
    filled?;
    is_so(rt, there? && gate.is_met(), "the gate");
    is_so(rt, shared.len() == 1002, "the texts");
    Ok(())
}

#[test]
fn writers_of_copies_apart(rt: HostRuntime) -> Result<(), Fail> {
    are_apart(&rt, Way::TryCopied)
}

#[test]
fn writers_apart(rt: HostRuntime) -> Result<(), Fail> {
    are_apart(&rt, Way::TryStatic)
}

// Waits for the writer at the gate, reads the first text, and lets the writer go on. Returns whether it came, and each
// reading found the text.
fn reads_beside(shared: &Armed<'_>, gate: &Gate) -> bool {
    let there = gate.is_first_there();
    let read = match Spur::try_from_usize(0) {
        Some(key) => shared.try_resolve(key) == Some("00") && shared.contains_key(key),
        None => false,
    };
    let is_counted = shared.len() > 0 && !shared.is_empty();
    gate.pass();
    there && read && is_counted
}

// A thread interns a thousand texts of one shard, and another one reads while the first holds its shard.
#[test]
fn readings_beside_a_writer(rt: HostRuntime) -> Result<(), Fail> {
    let (texts, gate) = (four_digits(rt.alloc())?, Gate::new());
    let shared: Armed<'_> = ThreadedRodeo::with_hasher(rt.alloc(), ArmedState::new(&gate))?;
    let (filled, read) = join(
        &rt,
        || fills(&rt, &shared, &gate, Way::TryStatic, &texts),
        || reads_beside(&shared, &gate),
    );
    filled?;
    is_so(&rt, read && gate.is_met(), "the readings");
    Ok(())
}

// A hasher that waits for another writer while an index grows.

// Where two writers meet. An armed gate stops the first writer once: that writer sets its flag, and waits for
// the flag of the second.
#[derive(Drop)]
pub struct Gate {
    armed: AtomicU64,
    first: AtomicU64,
    second: AtomicU64,
    met: AtomicU64,
}

impl Gate {
    pub fn new() -> Gate {
        Gate {
            armed: AtomicU64::new(0),
            first: AtomicU64::new(0),
            second: AtomicU64::new(0),
            met: AtomicU64::new(0),
        }
    }

    // Makes the first writer stop when it comes to the gate next.
    pub fn arm(&self) {
        self.armed.store(1, Ordering::SeqCst);
    }

    // Stops the first writer, if the gate is armed. It goes on when the second writer is done, or when it has
    // waited too long.
    fn stop(&self) {
        if self.armed.swap(0, Ordering::SeqCst) == 0 {
            return;
        }
        self.first.store(1, Ordering::SeqCst);
        if is_seen(&self.second) {
            self.met.store(1, Ordering::SeqCst);
        }
    }

    // Waits for the first writer to come to the gate, but not for ever. Returns whether it came.
    pub fn is_first_there(&self) -> bool {
        is_seen(&self.first)
    }

    // Says that the second writer is done.
    pub fn pass(&self) {
        self.second.store(1, Ordering::SeqCst);
    }

    // Whether the second writer was done while the first waited.
    pub fn is_met(&self) -> bool {
        self.met.load(Ordering::SeqCst) == 1
    }
}

// Makes hashers that return a text's first byte times 2^56. A text of two bytes stops at the gate first.
#[derive(Clone, Copy)]
pub struct ArmedState<'a> {
    gate: &'a Gate,
}

impl<'a> ArmedState<'a> {
    pub fn new(gate: &'a Gate) -> Self {
        ArmedState { gate }
    }
}

impl<'a> BuildHasher for ArmedState<'a> {
    type Hasher = ArmedHasher<'a>;

    ghost use Rattle.std.specs.Prelude.{false};

    ghost build_hasher = { λ state. record { gate = state.gate; begun = false; first = 0; given = 0 } };

    fn build_hasher(&self) -> ArmedHasher<'a> {
        ArmedHasher {
            gate: self.gate,
            begun: false,
            first: 0,
            given: 0,
        }
    }
}

// Keeps the first byte, and counts the bytes written, which are those of the text.
#[derive(Clone, Copy)]
pub struct ArmedHasher<'a> {
    gate: &'a Gate,
    begun: bool,
    first: u8,
    given: u64,
}

impl Hasher for ArmedHasher<'_> {
    ghost use Rattle.std.specs.Prelude.{◌*◌, true, slice_index, if◌then◌else◌};

    ghost write = { λ hasher bytes. record hasher { begun = true; first = if hasher.begun then hasher.first else slice_index bytes 0; given = (hasher.given + length bytes) % 2 ^ 64 } };

    ghost finish = { λ hasher. hasher.first * 2 ^ 56 };

    fn finish(&self) -> u64 {
        if self.given == 2 {
            self.gate.stop();
        }
        u64::from(self.first) * 0x100_0000_0000_0000
    }

    fn write(&mut self, bytes: &[u8]) {
        if !self.begun {
            self.begun = true;
            self.first = if bytes.is_empty() { 0 } else { bytes[0] };
        }
        self.given = self.given.wrapping_add(bytes.len() as u64);
    }
}
