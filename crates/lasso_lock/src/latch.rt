//! A latch: one value in place, beside a word that says who may use it.
//!
//! A thread claims the whole latch, and then may exchange the value, or claims it shared with other readers, and then may read it.
//! A claim changes the word in one locked step, and is given back in one. The latch keeps a fact about its value, `Fits`, by a tag that is
//! fixed when the latch is made. Nobody waits here: a claim is refused if somebody else is in the way.
//!
//! The word counts the readers in its low 32 bits. `MARKED` keeps further readers out while somebody waits for the whole latch, and `TAKEN`
//! says that somebody has it.
ghost use Rattle.std.specs.Prelude.{◌≡◌, ℕ, Option, Some, IfSome};
ghost use Rattle.std.specs.Coded.{coded_option};
ghost use Rattle.lasso_lock.specs.LatchWords.{IsTurn, IsWeight, Gains, Outcome, shared, whole};
ghost use Rattle.lasso_lock.specs.Latches.{owned_latch, shared_latch, claimed, lent_claim};

use atomic_table::exchange;
use std::marker::{Brand, Model, Move, Owns, PhantomData};
use std::sync::atomic::Ordering::SeqCst;
use std::sync::atomic::raw;

// Nobody has a claim, and nobody waits.
const FREE: u64 = 0;

const ONE_READER: u64 = 1;

const MOST_READERS: u64 = 0xffff_ffff;

const MARKED: u64 = 0x1_0000_0000;

const TAKEN: u64 = 0x2_0000_0000;

/// A fact about each value of a latch, by the tag that the latch was made with.
pub trait Fits {
    type Tag;

    ghost fits: { Self.Tag → Self → Type 0 };
}

impl<X: Fits> Fits for Option<X> {
    type Tag = X::Tag;

    ghost fits = { λ tag x. IfSome x (X.fits tag) };
}

/// A value and its word. A contract sees the latch's tag.
pub struct Latch<X: Fits> {
    state: u64,
    content: X,
}

impl<X: Fits> Owns for Latch<X> {
    ghost Value = { X.Tag };

    ghost coded = { X.Tag.code };

    ghost shr_at = { λ tag. shared_latch X.row (X.fits tag) };
}

impl<X: Fits> Move for Latch<X> {
    ghost own_val = { λ tag vs. owned_latch X.row (X.fits tag) (λ w x. Fields.own_val (record { state = w; content = x }) vs) };
}

/// What a thread may do with a latch: `right` is `whole`, `shared`, or 0 for nothing. A claim can't be dropped: only `unlock` and `unlock_read` end it.
pub struct Claim<'a, X: Fits> {
    place: *const Latch<X>,
    borrow: PhantomData<&'a X>,
    pub ghost right: { ℕ },
    pub ghost tag: { X.Tag } by { X.Tag.code },
    pub ghost value: { Option X } by { coded_option X.code },
}

impl<'a, X: Fits> Model for Claim<'a, X> {
    ghost also_owns = { λ c. claimed X.row (X.fits c.tag) 'a c.place c.right c.value };

    ghost also_shares = { λ c _. lent_claim X.row (X.fits c.tag) 'a c.place c.right c.value };
}

impl<X: Fits> Latch<X> {
    /// A latch with this value, which nobody has claimed.
    pub fn new(value: X, tag: &X::Tag) -> Latch<X>
        requires { X.fits tag.now value }
        ensures { result ≡ tag.now }
    {
        // The latch's tag is known to proofs alone.
        let _ = tag;
        Latch {
            state: FREE,
            content: value,
        }
    }

    /// The value of a latch that nobody shares any more.
    pub fn into_inner(self) -> X
        ensures { X.fits self result }
    {
        let Latch { state: _, content } = self;
        content
    }

    /// Claims the whole latch if nobody has a claim and nobody waits. It doesn't look first, so it takes one step.
    pub fn try_free(&self) -> Option<Claim<'_, X>>
        ensures { IfSome result (λ c. (c.right ≡ whole) × (c.tag ≡ self.now)) }
    {
        self.change(FREE, TAKEN)
    }

    /// Claims the whole latch if nobody has a claim. It looks first, and changes nothing if somebody has one.
    pub fn try_lock(&self) -> Option<Claim<'_, X>>
        ensures { IfSome result (λ c. (c.right ≡ whole) × (c.tag ≡ self.now)) }
    {
        let word = self.look();
        if word == FREE || word == MARKED {
            self.change(word, TAKEN)
        } else {
            None
        }
    }

    /// Claims the latch beside other readers, if nobody has it whole or waits for that.
    pub fn try_read(&self) -> Option<Claim<'_, X>>
        ensures { IfSome result (λ c. (c.right ≡ shared) × (c.tag ≡ self.now)) }
    {
        let word = self.look();
        if word < MOST_READERS {
            self.change(word, word + ONE_READER)
        } else {
            None
        }
    }

    /// Marks a latch that others read, so that no further reader comes until somebody has had it whole.
    pub fn keep_readers_out(&self) {
        let word = self.look();
        if word < MARKED {
            let (claim, _found) = self.attempt(word, word + MARKED);
            claim.done();
        }
    }

    // The claim that a change of the word from `old` to `new` gains, if the word is `old`.
    fn change(&self, old: u64, new: u64) -> Option<Claim<'_, X>>
        requires { IsTurn old new }
        ensures { IfSome result (λ c. Gains old new c.right × (c.tag ≡ self.now)) }
    {
        let (claim, found) = self.attempt(old, new);
        if found == old {
            Some(claim)
        } else {
            claim.done();
            None
        }
    }

    // The word, which other threads may change at any time.
    fn look(&self) -> u64 {
        unsafe { raw::load::<Brand>(&raw const self.state, SeqCst) }
    }

    // Changes the word from `old` to `new` in one step. Returns the claim that it gained, with the word that it found.
    fn attempt(&self, old: u64, new: u64) -> (Claim<'_, X>, u64)
        requires { IsTurn old new }
        ensures { Outcome old new result.1 result.0.right × (result.0.tag ≡ self.now) }
    {
        let found = unsafe { exchange::<Brand>(&raw const self.state, old, new) };
        let claim = Claim {
            place: self,
            borrow: PhantomData,
        };
        (claim, found)
    }
}

impl<'a, X: Fits> Claim<'a, X> {
    /// The value, which no thread changes while somebody shares it.
    pub fn get(&self) -> &X
        requires { self.now.right ≡ shared }
        ensures { (Some result.now ≡ self.now.value) × X.fits self.now.tag result.now }
    {
        unsafe { &(*self.place).content }
    }

    /// Puts `value` into the latch, and returns the value that was there.
    pub fn swap(self, value: X) -> (Claim<'a, X>, X)
        requires { (self.right ≡ whole) × X.fits self.tag value }
        ensures { (result.0.right ≡ whole) × (result.0.tag ≡ self.entry.tag) × X.fits self.entry.tag result.1 }
    {
        let Claim { place, borrow: _ } = self;
        let old = unsafe {
            let content = &raw const (*place).content as *mut X;
            let old = content.read();
            content.write(value);
            old
        };
        let claim = Claim {
            place,
            borrow: PhantomData,
        };
        (claim, old)
    }

    /// Ends a claim of the whole latch.
    pub fn unlock(self)
        requires { self.right ≡ whole }
    {
        self.lower(TAKEN);
    }

    /// Ends a reader's claim.
    pub fn unlock_read(self)
        requires { self.right ≡ shared }
    {
        self.lower(ONE_READER);
    }

    // Ends a claim with nothing.
    fn done(self)
        requires { self.right ≡ 0 }
    {
        let Claim {
            place: _,
            borrow: _,
        } = self;
    }

    // Takes what the claim added to the word off it again, in one step.
    fn lower(self, by: u64)
        requires { IsWeight self.right by }
    {
        let Claim { place, borrow: _ } = self;
        unsafe { raw::fetch_sub::<Brand>(&raw const (*place).state, by, SeqCst) };
    }
}

impl<X: Fits + Drop> Drop for Latch<X> {
    fn drop(self) {
        drop(self.into_inner());
    }
}

unsafe impl<X: Fits + Send> Send for Latch<X> {}

unsafe impl<X: Fits + Send + Sync> Sync for Latch<X> {}
