//! A table of hints: positions of texts, found by the texts' hashes. Used by the hints of a pass.
ghost use Rattle.std.specs.Prelude.{◌<◌, IfSome};

use std::alloc::Global;

// How many hints a set has.
const WAYS: usize = 4;

// How many sets a table has: its hints take 131,072 bytes.
const SETS: usize = 8192;

// The first bit of a hash that is mixed into a hint. The bits below it choose the set.
const MIXED_FROM: u32 = 32;

// How many texts a round of asking has.
const ROUND: u32 = 65_536;

// How many texts a round of resting has.
const REST: u32 = 15 * ROUND;

// Asking pays if a hint finds at least one of this number of texts.
const HIT_SHARE: u32 = 8;

// Hints serve if they miss at most one of this number of texts.
const MISS_SHARE: u32 = 4;

/// A position, mixed with bits of its text's hash: read with the hash of another text, it is mostly past the
/// end of the list.
#[derive(Clone, Copy)]
struct Hint {
    mixed: u32,
}

impl Hint {
    #[inline(always)]
    fn new(hash: u64, position: u32) -> Hint {
        Hint {
            mixed: position ^ mixed_bits(hash),
        }
    }

    #[inline(always)]
    fn position(self, hash: u64) -> u32 {
        self.mixed ^ mixed_bits(hash)
    }
}

// The bits of a hash that are mixed into a hint.
#[inline(always)]
fn mixed_bits(hash: u64) -> u32 {
    (hash >> MIXED_FROM) as u32
}

// The number of the set for the texts of a hash.
#[inline(always)]
fn set_of(hash: u64) -> usize {
    hash as usize % SETS
}

/// A table of positions below 2^32, in sets of four. A text's hash chooses the set, so a set is asked in one
/// read of memory. A new hint takes the third place of its set, and the last hint of the set goes. A hint that
/// is followed moves up by one place: so those that are followed often stay.
///
/// Asking costs time, which hits have to save. So texts are counted in rounds. If less than one text in eight
/// of a round was a hit, hints rest for the next round, which is longer: they are neither asked nor kept. If at
/// least three in four were, hints serve in the next round.
#[derive(Drop)]
pub(super) struct HintTable {
    sets: Vec<[Hint; WAYS]>,
    // How many texts of the round are left.
    left: u32,
    // How many texts of the round were hits.
    hits: u32,
    rests: bool,
    serves: bool,
}

impl HintTable {
    /// An empty table, or `None` out of memory.
    #[inline(never)]
    pub(super) fn new(alloc: Global) -> Option<HintTable> {
        let none = Hint { mixed: 0 };
        let sets = vec![in alloc; [none; WAYS]; SETS].ok()?;
        Some(HintTable {
            sets,
            left: ROUND,
            hits: 0,
            rests: false,
            serves: false,
        })
    }

    /// The position below `len` of a text with that hash, if a hint has one. It may be wrong.
    #[inline(always)]
    pub(super) fn find(&mut self, hash: u64, len: u64) -> Option<u64>
        ensures { IfSome result (λ n. n < len) }
    {
        if !self.is_asked() {
            return None;
        }
        let set = self.sets.get_mut(set_of(hash))?;
        for way in 0..WAYS {
            let position = u64::from(set[way].position(hash));
            if position < len {
                move_up(set, way);
                return Some(position);
            }
        }
        None
    }

    // Whether hints are asked of the next text.
    #[inline(always)]
    fn is_asked(&mut self) -> bool {
        if self.left == 0 {
            return self.begin_round();
        }
        self.left -= 1;
        !self.rests
    }

    // Begins the next round, and returns whether hints are asked in it.
    #[inline(never)]
    fn begin_round(&mut self) -> bool {
        let pays = self.hits >= ROUND / HIT_SHARE;
        self.rests = !pays && !self.rests;
        self.serves = self.hits >= ROUND - ROUND / MISS_SHARE;
        self.left = if self.rests { REST } else { ROUND };
        self.hits = 0;
        !self.rests
    }

    /// Whether hints found most texts of the last round.
    #[inline(always)]
    pub(super) fn serves(&self) -> bool {
        self.serves
    }

    /// Counts a position that `find` returned, and that was right.
    #[inline(always)]
    pub(super) fn count_hit(&mut self) {
        self.hits = self.hits.wrapping_add(1);
    }

    /// Keeps the position of a text with that hash.
    #[inline(always)]
    pub(super) fn keep(&mut self, hash: u64, position: u32) {
        if self.rests {
            return;
        }
        if let Some(set) = self.sets.get_mut(set_of(hash)) {
            let [first, second, third, _] = *set;
            *set = [first, second, Hint::new(hash, position), third];
        }
    }
}

// Moves a hint of the set up by one place.
#[inline(always)]
fn move_up(set: &mut [Hint; WAYS], way: usize) {
    if way > 0 && way < WAYS {
        set.swap(way - 1, way);
    }
}
