//! Guesses at the positions of texts that come next, made for many of them at a time.
//!
//! A look-up waits for memory up to four times, each time at a place that the last one named: a hint or a slot
//! of an index, a cell of the list, and the text. Here each step is taken for many texts before the next, so
//! that the processor waits for all of them at once. A guess may be wrong: the call that takes a text compares
//! it with the text at its guess.
ghost use Rattle.std.specs.Prelude.{◌≡◌, ◌<◌, length};
ghost use Rattle.lasso_log.specs.Views.{PassView, list_of};

use crate::shards::tag::{SHARDS, number_of};
use lasso_log::log::Pass;
use lasso_parts::guessing::guess_position;
use lasso_parts::index::{Index, hash_text};
use lasso_parts::keys::Key;
use std::alloc::Global;
use std::hash::BuildHasher;

/// How many texts are guessed at together: each has a bit in a set of them.
pub(super) const TOGETHER: usize = 64;

// From this number of texts on that were found nowhere, new ones are appended together.
const MANY: usize = 8;

/// A guess at the position of a text with this hash, or none.
#[derive(Clone, Copy)]
pub(super) struct Guess {
    hash: u64,
    pub(super) position: Option<u64>,
    /// Whether the text at the position looks the same.
    pub(super) is_alike: bool,
    // Whether the position came from a hint of the pass.
    is_hint: bool,
}

impl Guess {
    // A text with that hash, whose position is not guessed yet.
    #[inline(always)]
    fn none(hash: u64) -> Self {
        Guess {
            hash,
            position: None,
            is_alike: false,
            is_hint: false,
        }
    }

    /// The position, if the text there looks the same.
    #[inline(always)]
    pub(super) fn likely_position(self) -> Option<u64> {
        if self.is_alike { self.position } else { None }
    }

    /// Has the pass keep a hint of the text's position, or counts the hint that gave it.
    #[inline(always)]
    pub(super) fn keep_in<K: Key>(self, pass: &mut Pass<K>, position: u64)
        requires { position < length (list_of pass.old.of pass.old.notes) }
        ensures { pass.new ≡ pass.old }
    {
        if self.is_hint {
            pass.count_hint();
        } else {
            pass.keep_hint(self.hash, position);
        }
    }
}

/// The guesses at the texts that come next, and how many of them were taken.
#[derive(Drop)]
pub(super) struct Guesses {
    pub(super) each: [Guess; TOGETHER],
    size: usize,
    taken: usize,
    // Whether prefetching is skipped for this batch.
    are_left_out: bool,
    // How many texts were found nowhere.
    missing: usize,
}

impl Guesses {
    /// No guesses.
    #[inline(always)]
    pub(super) fn new() -> Self {
        Guesses {
            each: [Guess::none(0); TOGETHER],
            size: 0,
            taken: 0,
            are_left_out: false,
            missing: 0,
        }
    }

    /// Whether all were taken.
    #[inline(always)]
    pub(super) fn are_taken(&self) -> bool {
        self.taken >= self.size
    }

    /// Skips prefetching for the next batch, which has `TOGETHER` texts.
    #[inline(always)]
    pub(super) fn leave_out(&mut self) {
        self.size = TOGETHER;
        self.taken = 0;
        self.are_left_out = true;
    }

    /// Whether prefetching is skipped for the next text. If so, it counts as taken.
    #[inline(always)]
    pub(super) fn leaves_out_next(&mut self) -> bool {
        if self.are_left_out {
            self.taken = self.taken.wrapping_add(1);
        }
        self.are_left_out
    }

    /// The guess at the next text, if the texts that were looked ahead at have one more.
    #[inline(always)]
    pub(super) fn next(&self) -> Option<Guess> {
        if self.are_left_out || self.are_taken() {
            return None;
        }
        Some(self.each[self.taken % TOGETHER])
    }

    /// Counts the next text as taken.
    #[inline(always)]
    pub(super) fn pass_over(&mut self) {
        self.taken = self.taken.wrapping_add(1);
    }

    /// Whether the next text was found nowhere, as enough others of the batch.
    #[inline(always)]
    pub(super) fn are_new(&self) -> bool {
        match self.next() {
            Some(guess) => guess.position.is_none() && self.missing >= MANY,
            None => false,
        }
    }

    /// Takes the guess at the next text.
    #[inline(always)]
    pub(super) fn take(&mut self) -> Guess {
        let place = self.taken % TOGETHER;
        self.taken = self.taken.wrapping_add(1);
        self.each[place]
    }

    /// Begins with the first texts, `TOGETHER` of them at most: it has their hashes then, and no guess.
    pub(super) fn begin<S: BuildHasher>(&mut self, hasher: &S, texts: &[&str]) {
        let size = texts.len().min(TOGETHER);
        for place in 0..size {
            self.each[place] = Guess::none(hash_text(hasher, texts[place]));
        }
        self.size = size;
        self.taken = 0;
        self.are_left_out = false;
        self.missing = 0;
    }

    /// Asks the hints of the pass.
    pub(super) fn ask_hints<K: Key>(&mut self, pass: &mut Pass<K>)
        ensures { pass.new ≡ pass.old }
    {
        for place in 0..self.size.min(TOGETHER) {
            let guess = &mut self.each[place];
            guess.position = pass.ask_hint(guess.hash);
            guess.is_hint = guess.position.is_some();
        }
    }

    /// Counts the texts without a guess.
    pub(super) fn count_missing(&mut self) {
        let mut missing = 0usize;
        for place in 0..self.size.min(TOGETHER) {
            if self.each[place].position.is_none() {
                missing = missing.wrapping_add(1);
            }
        }
        self.missing = missing;
    }

    /// The places of the texts without a guess, by the number of their shard: a bit for each place.
    pub(super) fn places_left(&self) -> [u64; SHARDS] {
        let mut places = [0u64; SHARDS];
        for place in 0..self.size.min(TOGETHER) {
            let guess = self.each[place];
            if guess.position.is_none() {
                places[number_of(guess.hash)] |= 1u64.wrapping_shl(place as u32);
            }
        }
        places
    }

    /// Guesses at the texts of these places by the index of their shard. It reads no text.
    pub(super) fn guess_in<K: Key>(&mut self, index: &Index<K, Global>, places: u64) {
        let mut left = places;
        for _ in 0..places.count_ones() {
            let place = left.trailing_zeros() as usize % TOGETHER;
            left &= left.wrapping_sub(1);
            let guess = &mut self.each[place];
            guess.position = match guess_position(index, guess.hash) {
                Some(position) => Some(position as u64),
                None => None,
            };
        }
    }
}
