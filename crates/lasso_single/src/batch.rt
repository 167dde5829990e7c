//! Texts that are looked up one after another, and are looked ahead at in batches.
//!
//! A look-up waits for memory up to four times, each time at a place that the last one named: a fingerprint and
//! a key of the index, an entry of the list, and the text. A look ahead takes each step for a whole batch of
//! texts, so that the processor waits for all of them at once. It gives a guess at the position of each.
//! The call that then takes a text compares it with the text at its guess: what it returns depends on no
//! guess. The crate `lasso` leaves this module out.
ghost use Rattle.std.specs.Prelude.{◌≡◌, ℕ, Some, IfSome};
ghost use Rattle.lasso_parts.specs.Texts.{key_of, position_of};
ghost use Rattle.lasso_single.specs.Intern.{InternsIn};

use crate::rodeo::Rodeo;
use lasso_parts::entries::short::SHORT;
use lasso_parts::keys::Key;
use lasso_parts::util::LassoResult;
use std::alloc::Allocator;
use std::hash::BuildHasher;

/// How many texts a batch has at most.
pub const TOGETHER: usize = 32;

// How many texts pass after a batch with few far ones: at first, and at most.
const FIRST_REST: usize = 224;

const LONGEST_REST: usize = 3584;

// How many bytes the nearer caches of a core hold: an estimate.
const NEAR_BYTES: usize = 1_048_576;

// How many bytes an interner has for a text besides its bytes: 16 in the list, and about 8 in the index.
const LONG_BYTES: usize = 24;

// The bytes that an interner is taken to have for a short text, which is in the list itself. It counts a third:
// its look-up waits once less, and the processor overlaps more of them on its own.
const SHORT_BYTES: usize = 8;

// Looking ahead pays if at least one of this number of texts is far.
const FAR_SHARE: usize = 4;

/// What is kept between texts that are looked up one after another: guesses at the positions of a batch of
/// them, and how many texts of the batch were far.
///
/// Prefetching costs about a quarter of a look-up, and saves most of one if its memory is out of the
/// nearer caches. So it is done if at least a quarter of the texts of the last batch were present and far.
/// A text is far if all texts up to it take more than `NEAR_BYTES`, were they as long as it is. A text that
/// comes often was mostly interned early, so it has a low position, and stays in the caches however large
/// the interner is. A new text is never far: no guess can find it. The first batch is counted. If few of its
/// texts are far, the next ones pass: they are looked up with nothing else done, since counting takes time
/// too. A batch is counted again after 224 texts that pass, and after twice as many each time that few are
/// far again, but 3,584 at most.
#[derive(Drop)]
pub struct Batch {
    // how many texts still pass
    passing: usize,
    // how many texts passed the last time, or 0 if looking ahead paid since
    rest: usize,
    // whether the next text is one of a batch: it may have a guess, and is counted
    counts: bool,
    // a position for each text, or `usize::MAX` for no guess
    guesses: [usize; TOGETHER],
    size: usize,
    taken: usize,
    far: usize,
}

impl Batch {
    /// A batch that is used up.
    #[inline(always)]
    pub fn new() -> Self {
        Batch {
            passing: 0,
            rest: 0,
            counts: false,
            guesses: [usize::MAX; TOGETHER],
            size: 0,
            taken: 0,
            far: 0,
        }
    }

    /// Begins the next batch if this one is used up, and returns whether it did and looking ahead pays. The
    /// caller then calls `look_ahead` with the texts to come.
    #[inline(always)]
    pub fn is_due(&mut self) -> bool {
        !self.passes() && self.is_used_up() && self.begin()
    }

    fn is_used_up(&self) -> bool {
        self.taken >= self.size
    }

    // Begins the next batch, or lets texts pass before it. Returns whether looking ahead pays.
    #[inline(never)]
    fn begin(&mut self) -> bool {
        let pays = self.far > 0 && self.far >= self.taken / FAR_SHARE;
        let rests = !pays && self.taken > 0;
        if pays {
            self.rest = 0;
        }
        if rests {
            self.rest = longer(self.rest);
            self.passing = self.rest;
        }
        self.counts = !rests;
        self.size = if rests { 0 } else { TOGETHER };
        self.guesses = [usize::MAX; TOGETHER];
        self.taken = 0;
        self.far = 0;
        pays
    }

    /// Passes over the next text, which is not looked up.
    #[inline(always)]
    pub fn skip(&mut self) {
        if self.passes() {
            self.pass();
        } else {
            self.taken = self.taken.wrapping_add(1);
        }
    }

    // Whether the next text passes.
    #[inline(always)]
    fn passes(&self) -> bool {
        self.passing > 0
    }

    // Lets a text pass.
    #[inline(always)]
    fn pass(&mut self) {
        self.passing = self.passing.wrapping_sub(1);
    }

    // The guess at the next text, or `usize::MAX` for none.
    fn next(&mut self) -> usize {
        let place = self.taken % TOGETHER;
        self.taken = self.taken.wrapping_add(1);
        self.guesses[place]
    }

    // Counts a present text of `len` bytes at that position.
    fn count(&mut self, position: usize, len: usize) {
        if position.saturating_mul(bytes_of(len)) >= NEAR_BYTES {
            self.far = self.far.wrapping_add(1);
        }
    }
}

// How many texts pass next if `rest` passed before and few are far again.
fn longer(rest: usize) -> usize {
    rest.saturating_mul(2).max(FIRST_REST).min(LONGEST_REST)
}

// How many bytes a text of `len` bytes counts.
#[inline(always)]
fn bytes_of(len: usize) -> usize {
    if len > SHORT {
        len.saturating_add(LONG_BYTES)
    } else {
        SHORT_BYTES
    }
}

/// Looks ahead at the next texts, at most as many as a batch has. They are the next batch.
#[inline(always)]
pub fn look_ahead<K: Key, S: BuildHasher, A: Allocator>(
    rodeo: &Rodeo<K, S, A>,
    texts: &[&str],
    batch: &mut Batch,
) {
    batch.passing = 0;
    batch.counts = true;
    batch.size = texts.len().min(TOGETHER);
    rodeo.guess_all(texts, &mut batch.guesses);
}

/// `Rodeo::get` for the next text of the batch. It may be another text than was prefetched.
#[inline(always)]
pub fn get_next<K: Key, S: BuildHasher, A: Allocator>(
    rodeo: &Rodeo<K, S, A>,
    text: &str,
    batch: &mut Batch,
) -> Option<K>
    ensures { result ≡ key_of K.key_at rodeo.now.texts text.now }
{
    if batch.counts {
        if let Some(key) = guessed_key(rodeo, text, batch) {
            return Some(key);
        }
    }
    let key = rodeo.get(text);
    if batch.passes() {
        batch.pass();
    } else if batch.counts {
        count_found(key, text, batch);
    }
    key
}

/// `Rodeo::try_get_or_intern` for the next text of the batch. It may be another text than was prefetched.
/// A new text is appended in line, so that a program with one call of it has all of it in one function.
#[inline(always)]
pub fn intern_next<K: Key, S: BuildHasher, A: Allocator + Clone>(
    rodeo: &mut Rodeo<K, S, A>,
    text: &str,
    batch: &mut Batch,
) -> LassoResult<K>
    ensures { InternsIn K.key_at rodeo.old text.now result rodeo.new }
{
    if batch.counts {
        if let Some(key) = guessed_key(rodeo, text, batch) {
            return Ok(key);
        }
    }
    let key = rodeo.intern_in_line(text)?;
    if batch.passes() {
        batch.pass();
    } else if batch.counts {
        count_interned(rodeo, key, text, batch);
    }
    Ok(key)
}

// The key of the next text, if the guess at it is right.
#[inline(never)]
fn guessed_key<K: Key, S: BuildHasher, A: Allocator>(
    rodeo: &Rodeo<K, S, A>,
    text: &str,
    batch: &mut Batch,
) -> Option<K>
    ensures { IfSome result (λ key. (n : ℕ) × (position_of rodeo.now.texts text.now ≡ Some n) × (K.key_at n ≡ Some key)) }
{
    let guess = batch.next();
    if !rodeo.is_at(guess, text) {
        return None;
    }
    batch.count(guess, text.len());
    K::try_from_usize(guess)
}

// Counts a text that was looked for, and its key if it is present.
#[inline(never)]
fn count_found<K: Key>(key: Option<K>, text: &str, batch: &mut Batch) {
    if let Some(key) = key {
        batch.count(key.into_usize(), text.len());
    }
}

// Counts a text that is interned and has this key. The last one of the interner is taken for new.
#[inline(never)]
fn count_interned<K: Key, S: BuildHasher, A: Allocator>(
    rodeo: &Rodeo<K, S, A>,
    key: K,
    text: &str,
    batch: &mut Batch,
) {
    let position = key.into_usize();
    if position.saturating_add(1) < rodeo.len() {
        batch.count(position, text.len());
    }
}
