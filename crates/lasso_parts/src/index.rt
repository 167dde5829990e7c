//! `Index`, from a text to its position in a list that another owns.
ghost use Rattle.std.specs.Prelude.{◌≡◌, ◌≢◌, ℕ, ◌+◌, ◌<◌, ◌≤◌, ◌⊎◌, ◌↔◌, length, slice_get, Some};
ghost use Rattle.std.specs.Prelude.{IfSome, IfNone, OnOk, OnErr, IsTrue, IfOk, IfErr, IsOk};
ghost use Rattle.lasso_parts.specs.declared.util.LassoErrorKind.TheVariants.{FailedAllocation};
ghost use Rattle.lasso_parts.specs.Hashing.{hash_by};
ghost use Rattle.lasso_parts.specs.Index.{Holds, HoldsNone, IsFiled, IsFiledAnywhere, IsVacancy, StaysFiled, IsIndexOf};
ghost use Rattle.lasso_parts.specs.Index.{FindsPosition, LocatesPosition, IsFewest, used, room, grown_count};
ghost use Rattle.lasso_parts.specs.Texts.{Fits};

mod groups;
mod hashes_ahead;
mod hashing;
pub mod key_slots;
mod lists;
mod probe;
mod table;
mod vacancy;

use crate::keys::Key;
use crate::util::{LassoError, LassoErrorKind, LassoResult};
pub use hashing::hash_text;
use key_slots::KeySlots;
pub use lists::Texts;
use probe::{Scan, fingerprint_of, first_fitting, free_slot, home_slot, scan_group, scan_slots};
use std::alloc::Allocator;
use std::hash::BuildHasher;
use std::marker::Model;
use table::{enter, enter_at, grown_slots, rebuilt, rebuilt_in_order, slot_count};
pub use vacancy::Vacancy;

/// An index from a text to its position: an open-addressed table of keys alone. It has no slots, or a
/// power of two of them, and at most three quarters are filled. A key's text is read from the list that
/// the caller shows; the index must be filed under that list and the hasher shown. Contracts see it as
/// the list of its slots, each empty or a position, and a fingerprint for each.
#[derive(Drop)]
pub struct Index<K: Key, A: Allocator> {
    slots: KeySlots<K, A>,
    used: usize,
}

impl<K: Key, A: Allocator> Model for Index<K, A> {
    ghost use Rattle.lasso_parts.specs.Index.{Table};
    ghost use Rattle.lasso_parts.specs.IndexTable.{IsTable};

    ghost Value = { Table };

    ghost view = { λ s. s.slots };

    ghost invariant = { λ s. IsTable s.slots.slots s.used };
}

impl<K: Key, A: Allocator> Index<K, A> {
    /// An index that holds nothing. It has no slots and takes no memory.
    pub fn new(alloc: A) -> Self
        ensures slots { length result.slots ≡ 0 }
        ensures empty { HoldsNone result.slots }
        ensures filed { IsFiledAnywhere result }
    {
        Index {
            slots: KeySlots::new(alloc),
            used: 0,
        }
    }

    /// An index that holds nothing, with room for `capacity` keys: they fit without a growth. It has the
    /// fewest slots that they need. The only error is `FailedAllocation`, also when a `usize` can't count the
    /// slots.
    pub fn with_capacity(alloc: A, capacity: usize) -> LassoResult<Self>
    where
        A: Clone,
        ensures room { IfOk result (λ index. capacity ≤ room index.slots) }
        ensures slots { IfOk result (λ index. IsFewest capacity (length index.slots)) }
        ensures empty { IfOk result (λ index. HoldsNone index.slots) }
        ensures filed { IfOk result IsFiledAnywhere }
        ensures refused { IfErr result (λ error. error ≡ FailedAllocation) }
    {
        let Some(count) = slot_count(capacity) else {
            return Err(LassoError::new(LassoErrorKind::FailedAllocation));
        };
        let slots = KeySlots::empty(alloc, count)?;
        Ok(Index { slots, used: 0 })
    }

    /// The position of the text among the positions held, or `None` if none of them has it. It is exact for
    /// every hasher, and takes no memory.
    #[inline]
    pub fn find<T: Texts, S: BuildHasher>(&self, texts: &T, hasher: &S, text: &str) -> Option<usize>
        requires { IsFiled (hash_by S.BuildHasher S.Hasher.Hasher hasher.now) (T.list texts.now) self.now }
        ensures found { IfSome result (λ n. Holds self.now.slots n × (slice_get (T.list texts.now) n ≡ Some text.now)) }
        ensures missing { IfNone result ((n : ℕ) → Holds self.now.slots n → slice_get (T.list texts.now) n ≢ Some text.now) }
        ensures whole { FindsPosition (hash_by S.BuildHasher S.Hasher.Hasher hasher.now) (T.list texts.now) self.now text.now result }
    {
        self.locate_once(texts, hasher, hash_text(hasher, text), text)
            .ok()
    }

    /// `find` for a caller that has the text's hash already: it must be what `hash_text` gives for this
    /// hasher and this text.
    #[inline]
    pub fn find_hashed<T: Texts, S: BuildHasher>(
        &self,
        texts: &T,
        hasher: &S,
        hash: u64,
        text: &str,
    ) -> Option<usize>
        requires hashed { hash ≡ hash_by S.BuildHasher S.Hasher.Hasher hasher.now text.now }
        requires filed { IsFiled (hash_by S.BuildHasher S.Hasher.Hasher hasher.now) (T.list texts.now) self.now }
        ensures found { IfSome result (λ n. Holds self.now.slots n × (slice_get (T.list texts.now) n ≡ Some text.now)) }
        ensures missing { IfNone result ((n : ℕ) → Holds self.now.slots n → slice_get (T.list texts.now) n ≢ Some text.now) }
        ensures whole { FindsPosition (hash_by S.BuildHasher S.Hasher.Hasher hasher.now) (T.list texts.now) self.now text.now result }
    {
        match self.locate(texts, hasher, hash, text) {
            Ok(position) => Some(position),
            Err(_) => None,
        }
    }

    /// The position of the text, as `find_hashed` returns it, or the vacancy where its key would go, which
    /// `insert_at` takes.
    #[inline(always)]
    pub fn locate<T: Texts, S: BuildHasher>(
        &self,
        texts: &T,
        hasher: &S,
        hash: u64,
        text: &str,
    ) -> Result<usize, Vacancy>
        requires hashed { hash ≡ hash_by S.BuildHasher S.Hasher.Hasher hasher.now text.now }
        requires filed { IsFiled (hash_by S.BuildHasher S.Hasher.Hasher hasher.now) (T.list texts.now) self.now }
        ensures found { IfOk result (λ n. Holds self.now.slots n × (slice_get (T.list texts.now) n ≡ Some text.now)) }
        ensures missing { IfErr result (λ _. (n : ℕ) → Holds self.now.slots n → slice_get (T.list texts.now) n ≢ Some text.now) }
        ensures vacant { IfErr result (λ vacancy. IsVacancy hash vacancy self.now.slots) }
        ensures whole { LocatesPosition (hash_by S.BuildHasher S.Hasher.Hasher hasher.now) (T.list texts.now) self.now text.now result }
    {
        self.search(texts, hasher, hash, text)
    }

    /// `locate` for a single call. It looks at a group of slots at once, with no branch on which of them the text is in.
    /// `locate` begins with the home slot, which is faster in line in a loop over texts of which few come often.
    #[inline(always)]
    pub fn locate_once<T: Texts, S: BuildHasher>(
        &self,
        texts: &T,
        hasher: &S,
        hash: u64,
        text: &str,
    ) -> Result<usize, Vacancy>
        requires hashed { hash ≡ hash_by S.BuildHasher S.Hasher.Hasher hasher.now text.now }
        requires filed { IsFiled (hash_by S.BuildHasher S.Hasher.Hasher hasher.now) (T.list texts.now) self.now }
        ensures found { IfOk result (λ n. Holds self.now.slots n × (slice_get (T.list texts.now) n ≡ Some text.now)) }
        ensures missing { IfErr result (λ _. (n : ℕ) → Holds self.now.slots n → slice_get (T.list texts.now) n ≢ Some text.now) }
        ensures vacant { IfErr result (λ vacancy. IsVacancy hash vacancy self.now.slots) }
        ensures whole { LocatesPosition (hash_by S.BuildHasher S.Hasher.Hasher hasher.now) (T.list texts.now) self.now text.now result }
    {
        self.search_group(texts, hasher, hash, text)
    }

    /// `locate_once` for a caller that inserts the text's key if it is absent. The key at the home slot is read first: its
    /// memory is wanted in any case.
    #[inline(always)]
    pub fn locate_or_insert<T: Texts, S: BuildHasher>(
        &self,
        texts: &T,
        hasher: &S,
        hash: u64,
        text: &str,
    ) -> Result<usize, Vacancy>
        requires hashed { hash ≡ hash_by S.BuildHasher S.Hasher.Hasher hasher.now text.now }
        requires filed { IsFiled (hash_by S.BuildHasher S.Hasher.Hasher hasher.now) (T.list texts.now) self.now }
        ensures found { IfOk result (λ n. Holds self.now.slots n × (slice_get (T.list texts.now) n ≡ Some text.now)) }
        ensures missing { IfErr result (λ _. (n : ℕ) → Holds self.now.slots n → slice_get (T.list texts.now) n ≢ Some text.now) }
        ensures vacant { IfErr result (λ vacancy. IsVacancy hash vacancy self.now.slots) }
        ensures whole { LocatesPosition (hash_by S.BuildHasher S.Hasher.Hasher hasher.now) (T.list texts.now) self.now text.now result }
    {
        if self.has_read_home(hash) {
            return self.locate_once(texts, hasher, hash, text);
        }
        self.locate_far(texts, hasher, hash, text)
    }

    /// Makes room for one more key. If there is none, the table gets twice the slots, or 8 if it had none,
    /// and each key is entered again, once, by the hash of its text. The only error is `FailedAllocation`,
    /// and the index is unchanged then.
    pub fn reserve_one<T: Texts, S: BuildHasher>(
        &mut self,
        texts: &T,
        hasher: &S,
    ) -> LassoResult<()>
    where
        A: Clone,
        requires { IsFiled (hash_by S.BuildHasher S.Hasher.Hasher hasher.now) (T.list texts.now) self.old }
        ensures room { OnOk result (0 < room self.new.slots) }
        ensures same { (n : ℕ) → Holds self.new.slots n ↔ Holds self.old.slots n }
        ensures used { used self.new.slots ≡ used self.old.slots }
        ensures filed { IsFiled (hash_by S.BuildHasher S.Hasher.Hasher hasher.now) (T.list texts.now) self.new }
        ensures enough { 0 < room self.old.slots → IsOk result × (self.new ≡ self.old) }
        ensures grown { room self.old.slots ≡ 0 → OnOk result (length self.new.slots ≡ grown_count (length self.old.slots)) }
        ensures refused { IfErr result (λ error. error ≡ FailedAllocation) }
        ensures unchanged { OnErr result (self.new ≡ self.old) }
    {
        if self.has_room() {
            return Ok(());
        }
        let Some(count) = grown_slots(self.slots.len()) else {
            return Err(LassoError::new(LassoErrorKind::FailedAllocation));
        };
        let alloc = self.slots.allocator().clone()?;
        let slots = rebuilt(alloc, count, &self.slots, texts, hasher)?;
        self.slots = slots;
        Ok(())
    }

    /// Makes room for one more key in the index of a whole list, which holds the positions 0, 1, 2 and so on.
    /// If the table grows, they are entered again in that order, so that texts which are side by side are
    /// read one after another. It takes where a text of that hash would go, and returns where it goes now.
    /// Errors are those of `reserve_one`.
    pub fn reserve_in_order<T: Texts, S: BuildHasher>(
        &mut self,
        texts: &T,
        hasher: &S,
        hash: u64,
        vacancy: Vacancy,
    ) -> LassoResult<Vacancy>
    where
        A: Clone,
        requires whole { IsIndexOf (hash_by S.BuildHasher S.Hasher.Hasher hasher.now) (T.list texts.now) self.old }
        requires fits { Fits K.key_at (length (T.list texts.now)) }
        requires vacant { IsVacancy hash vacancy self.old.slots }
        ensures vacant { IfOk result (λ at. IsVacancy hash at self.new.slots) }
        ensures room { OnOk result (0 < room self.new.slots) }
        ensures whole { IsIndexOf (hash_by S.BuildHasher S.Hasher.Hasher hasher.now) (T.list texts.now) self.new }
        ensures enough { 0 < room self.old.slots → IsOk result × (self.new ≡ self.old) }
        ensures grown { room self.old.slots ≡ 0 → OnOk result (length self.new.slots ≡ grown_count (length self.old.slots)) }
        ensures refused { IfErr result (λ error. error ≡ FailedAllocation) }
        ensures unchanged { OnErr result (self.new ≡ self.old) }
    {
        if self.has_room() {
            return Ok(vacancy);
        }
        let Some(count) = grown_slots(self.slots.len()) else {
            return Err(LassoError::new(LassoErrorKind::FailedAllocation));
        };
        let alloc = self.slots.allocator().clone()?;
        let slots = rebuilt_in_order(alloc, count, self.used, texts, hasher)?;
        self.slots = slots;
        Ok(Vacancy::at(free_slot(&self.slots, hash)))
    }

    /// Enters the key under the hash of its text. There must be room, which `reserve_one` and
    /// `reserve_in_order` make; so it can't fail.
    #[inline]
    pub fn insert_reserved(&mut self, hash: u64, key: K)
        requires { 0 < room self.old.slots }
        ensures holds { (n : ℕ) → Holds self.new.slots n ↔ (Holds self.old.slots n ⊎ (n ≡ K.number key)) }
        ensures used { used self.new.slots ≡ used self.old.slots + 1 }
        ensures room { room self.new.slots + 1 ≡ room self.old.slots }
        ensures slots { length self.new.slots ≡ length self.old.slots }
        ensures filed { StaysFiled hash (K.number key) self.old self.new }
    {
        enter(&mut self.slots, hash, key);
        self.used += 1;
    }

    /// Inserts the key at a vacancy found by `locate`, without a second search.
    #[inline]
    pub fn insert_at(&mut self, vacancy: Vacancy, hash: u64, key: K)
        requires room { 0 < room self.old.slots }
        requires vacant { IsVacancy hash vacancy self.old.slots }
        ensures holds { (n : ℕ) → Holds self.new.slots n ↔ (Holds self.old.slots n ⊎ (n ≡ K.number key)) }
        ensures used { used self.new.slots ≡ used self.old.slots + 1 }
        ensures room { room self.new.slots + 1 ≡ room self.old.slots }
        ensures slots { length self.new.slots ≡ length self.old.slots }
        ensures filed { StaysFiled hash (K.number key) self.old self.new }
    {
        enter_at(&mut self.slots, vacancy.slot(), hash, key);
        self.used += 1;
    }

    /// Empties the slots and keeps them: the index then holds nothing.
    pub fn clear(&mut self)
        ensures empty { HoldsNone self.new.slots }
        ensures slots { length self.new.slots ≡ length self.old.slots }
        ensures room { room self.old.slots ≤ room self.new.slots }
        ensures filed { IsFiledAnywhere self.new }
    {
        self.slots.clear();
        self.used = 0;
    }

    /// How many bytes the allocator gave for the slots: for the keys, and one byte for the fingerprint of each.
    pub fn allocated_bytes(&self) -> usize {
        self.slots.allocated_bytes()
    }
    /// Whether there is room for one more key.
    #[inline]
    pub fn has_room(&self) -> bool
        ensures { IsTrue result ↔ (0 < room self.now.slots) }
    {
        self.used < self.slots.len() / 4 * 3
    }

    // What `guess_position` returns.
    #[inline(always)]
    pub(crate) fn guess(&self, hash: u64) -> Option<usize>
        ensures { IfSome result (λ n. Holds self.now.slots n) }
    {
        first_fitting(&self.slots, hash)
    }

    // What `locate` returns: the search from the home slot up, then below it.
    #[inline(always)]
    fn search<T: Texts, S: BuildHasher>(
        &self,
        texts: &T,
        hasher: &S,
        hash: u64,
        text: &str,
    ) -> Result<usize, Vacancy>
        requires hashed { hash ≡ hash_by S.BuildHasher S.Hasher.Hasher hasher.now text.now }
        requires filed { IsFiled (hash_by S.BuildHasher S.Hasher.Hasher hasher.now) (T.list texts.now) self.now }
        ensures found { IfOk result (λ n. Holds self.now.slots n × (slice_get (T.list texts.now) n ≡ Some text.now)) }
        ensures missing { IfErr result (λ _. (n : ℕ) → Holds self.now.slots n → slice_get (T.list texts.now) n ≢ Some text.now) }
        ensures vacant { IfErr result (λ vacancy. IsVacancy hash vacancy self.now.slots) }
    {
        let count = self.slots.len();
        if count == 0 {
            return Err(Vacancy::at(0));
        }
        let home = home_slot(hash, count);
        let fingerprint = fingerprint_of(hash);
        match scan_slots(&self.slots, texts, text, fingerprint, home, count) {
            Scan::Found(position) => return Ok(position),
            Scan::Ended(slot) => return Err(Vacancy::at(slot)),
            Scan::Passed => {}
        }
        match scan_slots(&self.slots, texts, text, fingerprint, 0, home) {
            Scan::Found(position) => Ok(position),
            Scan::Ended(slot) => Err(Vacancy::at(slot)),
            Scan::Passed => unreachable!(),
        }
    }

    // What `locate_once` returns: that of the group at the home slot, or else of the whole search.
    #[inline(always)]
    fn search_group<T: Texts, S: BuildHasher>(
        &self,
        texts: &T,
        hasher: &S,
        hash: u64,
        text: &str,
    ) -> Result<usize, Vacancy>
        requires hashed { hash ≡ hash_by S.BuildHasher S.Hasher.Hasher hasher.now text.now }
        requires filed { IsFiled (hash_by S.BuildHasher S.Hasher.Hasher hasher.now) (T.list texts.now) self.now }
        ensures found { IfOk result (λ n. Holds self.now.slots n × (slice_get (T.list texts.now) n ≡ Some text.now)) }
        ensures missing { IfErr result (λ _. (n : ℕ) → Holds self.now.slots n → slice_get (T.list texts.now) n ≢ Some text.now) }
        ensures vacant { IfErr result (λ vacancy. IsVacancy hash vacancy self.now.slots) }
    {
        let count = self.slots.len();
        if count == 0 {
            return Err(Vacancy::at(0));
        }
        let home = home_slot(hash, count);
        match scan_group(&self.slots, texts, text, fingerprint_of(hash), home) {
            Some(Scan::Found(position)) => Ok(position),
            Some(Scan::Ended(slot)) => Err(Vacancy::at(slot)),
            _ => self.locate_far(texts, hasher, hash, text),
        }
    }

    // `locate`, out of line: few searches by groups need it.
    #[inline(never)]
    fn locate_far<T: Texts, S: BuildHasher>(
        &self,
        texts: &T,
        hasher: &S,
        hash: u64,
        text: &str,
    ) -> Result<usize, Vacancy>
        requires hashed { hash ≡ hash_by S.BuildHasher S.Hasher.Hasher hasher.now text.now }
        requires filed { IsFiled (hash_by S.BuildHasher S.Hasher.Hasher hasher.now) (T.list texts.now) self.now }
        ensures found { IfOk result (λ n. Holds self.now.slots n × (slice_get (T.list texts.now) n ≡ Some text.now)) }
        ensures missing { IfErr result (λ _. (n : ℕ) → Holds self.now.slots n → slice_get (T.list texts.now) n ≢ Some text.now) }
        ensures vacant { IfErr result (λ vacancy. IsVacancy hash vacancy self.now.slots) }
        ensures whole { LocatesPosition (hash_by S.BuildHasher S.Hasher.Hasher hasher.now) (T.list texts.now) self.now text.now result }
    {
        self.locate(texts, hasher, hash, text)
    }

    // Reads the key at the home slot of the hash, which may mean nothing. Whether there is one.
    #[inline(always)]
    fn has_read_home(&self, hash: u64) -> bool {
        let count = self.slots.len();
        count != 0 && self.slots.has_read_key(home_slot(hash, count))
    }
}
