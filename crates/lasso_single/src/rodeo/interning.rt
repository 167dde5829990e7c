//! The calls of a `Rodeo` that intern a text.
ghost use Rattle.std.specs.Prelude.{◌≡◌, ◌≢◌, ◌+◌, ◌++◌, ◌∷◌, ◌⊎◌, ◌↔◌, [], ℕ, Some, None, Err, false, length};
ghost use Rattle.std.specs.Prelude.{IsOk, IsSome, IsTrue, IfOk, OnErr, OnOk};
ghost use Rattle.lasso_parts.specs.Account.{store};
ghost use Rattle.lasso_parts.specs.Hashing.{hash_by};
ghost use Rattle.lasso_parts.specs.Index.{Holds, IsIndexOf, IsVacancy, StaysFiled, used};
ghost use Rattle.lasso_parts.specs.Texts.{Fits, key_of, position_of};
ghost use Rattle.lasso_parts.specs.declared.util.LassoErrorKind.TheVariants.{FailedAllocation, KeySpaceExhaustion, MemoryLimitReached};
ghost use Rattle.lasso_single.specs.Intern.{InternsIn, InternsStaticIn, IsAbsent, IsPresent, account_with, next_key};
ghost use Rattle.lasso_single.specs.Interner.{KeepsOrigin};

use super::Rodeo;
use crate::text_list::TextList;
use lasso_parts::index::{Index, Vacancy, hash_text};
use lasso_parts::keys::Key;
use lasso_parts::util::{LassoError, LassoErrorKind, LassoResult};
use std::alloc::Allocator;
use std::hash::BuildHasher;

impl<K: Key, S: BuildHasher, A: Allocator + Clone> Rodeo<K, S, A> {
    /// Returns the text's key, and appends the text first if it is new. Interning a present text never fails.
    /// A new text fails when the key type has no key for its position (`KeySpaceExhaustion`), else when no
    /// bucket has room for it and its bytes would take the buckets past the memory limit
    /// (`MemoryLimitReached`), else when out of memory (`FailedAllocation`). Then the texts and the counts of
    /// their bytes are as before; no contract says so of `capacity` and `allocated_bytes`.
    ///
    /// ```rust
    /// let mut rodeo = Rodeo::default(rt.alloc())?;
    /// let hello = rodeo.try_get_or_intern("Hello, world!")?;
    /// assert!(rt; hello.into_usize() == 0);
    /// let again = rodeo.try_get_or_intern("Hello, world!")?;
    /// assert!(rt; again == hello);
    /// ```
    pub fn try_get_or_intern(&mut self, text: &str) -> LassoResult<K>
        // On success the key is the text's. An absent text goes last and is copied; a present one changes nothing.
        ensures key { IfOk result (λ key. key_of K.key_at self.new.texts text.now ≡ Some key) }
        ensures present { IsPresent self.old text.now → IsOk result × (self.new ≡ self.old) }
        ensures appended { IsAbsent self.old text.now → OnOk result (self.new.texts ≡ self.old.texts ++ text.now ∷ []) }
        ensures account { IsAbsent self.old text.now → OnOk result (account_with self.old text.now ≡ Some self.new.account) }
        ensures copied { IsAbsent self.old text.now → OnOk result (self.new.copied ≡ self.old.copied + length text.now) }

        // What stays in each case: the first bucket's size, and the record of clears
        ensures origin { KeepsOrigin self.old self.new }

        // On failure nothing changes. No key left comes before the limit, and the limit before memory, which runs out only for an absent text.
        ensures unchanged { OnErr result (self.new ≡ self.old) }
        ensures no_key { (result ≡ Err KeySpaceExhaustion) ↔ (IsAbsent self.old text.now × (next_key K.key_at self.old ≡ None)) }
        ensures limit { (result ≡ Err MemoryLimitReached)
            ↔ (IsAbsent self.old text.now × IsSome (next_key K.key_at self.old) × (account_with self.old text.now ≡ None)) }
        ensures memory { result ≡ Err FailedAllocation
            → IsAbsent self.old text.now × IsSome (next_key K.key_at self.old) × IsSome (account_with self.old text.now) }

        // The same facts as one relation
        ensures all { InternsIn K.key_at self.old text.now result self.new }
    {
        self.intern(text)
    }

    // The call with its contract in one clause.
    #[inline(always)]
    fn intern(&mut self, text: &str) -> LassoResult<K>
        ensures { InternsIn K.key_at self.old text.now result self.new }
    {
        let hash = hash_text(&self.hasher, text);
        let found = self
            .index
            .locate_or_insert(&self.list, &self.hasher, hash, text);
        match found {
            Ok(position) => Ok(K::try_from_usize(position).unwrap()),
            Err(vacancy) => append_apart(
                &mut self.list,
                &mut self.index,
                &self.hasher,
                text,
                hash,
                vacancy,
            ),
        }
    }

    // Interns a text in a loop over many: all of it in line, and by the search that gains if few texts come often.
    #[inline(always)]
    pub(crate) fn intern_in_line(&mut self, text: &str) -> LassoResult<K>
        ensures { InternsIn K.key_at self.old text.now result self.new }
    {
        let hash = hash_text(&self.hasher, text);
        let found = self.index.locate(&self.list, &self.hasher, hash, text);
        match found {
            Ok(position) => Ok(K::try_from_usize(position).unwrap()),
            Err(vacancy) => append(
                &mut self.list,
                &mut self.index,
                &self.hasher,
                text,
                hash,
                vacancy,
            ),
        }
    }

    /// Returns the text's key, and appends the text first if it is new: the same call as `try_get_or_intern`,
    /// with the same refusals.
    ///
    /// ```rust
    /// let mut rodeo = Rodeo::default(rt.alloc())?;
    /// let hello = rodeo.try_get_or_intern("Hello, world!")?;
    /// let same = rodeo.get_or_intern("Hello, world!")?;
    /// assert!(rt; same == hello);
    /// let other = rodeo.get_or_intern("Goodbye!")?;
    /// assert!(rt; other != hello);
    /// ```
    pub fn get_or_intern(&mut self, text: &str) -> LassoResult<K>
        // On success the key is the text's. An absent text goes last and is copied; a present one changes nothing.
        ensures key { IfOk result (λ key. key_of K.key_at self.new.texts text.now ≡ Some key) }
        ensures present { IsPresent self.old text.now → IsOk result × (self.new ≡ self.old) }
        ensures appended { IsAbsent self.old text.now → OnOk result (self.new.texts ≡ self.old.texts ++ text.now ∷ []) }
        ensures account { IsAbsent self.old text.now → OnOk result (account_with self.old text.now ≡ Some self.new.account) }
        ensures copied { IsAbsent self.old text.now → OnOk result (self.new.copied ≡ self.old.copied + length text.now) }

        // What stays in each case: the first bucket's size, and the record of clears
        ensures origin { KeepsOrigin self.old self.new }

        // On failure nothing changes. No key left comes before the limit, and the limit before memory, which runs out only for an absent text.
        ensures unchanged { OnErr result (self.new ≡ self.old) }
        ensures no_key { (result ≡ Err KeySpaceExhaustion) ↔ (IsAbsent self.old text.now × (next_key K.key_at self.old ≡ None)) }
        ensures limit { (result ≡ Err MemoryLimitReached)
            ↔ (IsAbsent self.old text.now × IsSome (next_key K.key_at self.old) × (account_with self.old text.now ≡ None)) }
        ensures memory { result ≡ Err FailedAllocation
            → IsAbsent self.old text.now × IsSome (next_key K.key_at self.old) × IsSome (account_with self.old text.now) }

        // The same facts as one relation
        ensures all { InternsIn K.key_at self.old text.now result self.new }
    {
        self.try_get_or_intern(text)
    }

    /// Returns the text's key, and appends the text first if it is new. The text is kept as it is, with no
    /// copy, so the memory limit never refuses it. Interning a present text never fails. A new text fails
    /// when the key type has no key for its position (`KeySpaceExhaustion`), else when out of memory
    /// (`FailedAllocation`). Then the texts and the counts of their bytes are as before; no contract says so
    /// of `capacity` and `allocated_bytes`.
    ///
    /// ```rust
    /// let mut rodeo: SpurRodeo = Rodeo::with_capacity(rt.alloc(), Capacity::for_bytes(4))?;
    /// rodeo.set_memory_limits(MemoryLimits::new(0));
    /// let lasting = rodeo.try_get_or_intern_static("a static text")?;
    /// assert!(rt; rodeo.try_resolve(lasting) == Some("a static text"));
    /// assert!(rt; rodeo.current_memory_usage() == 4);
    /// ```
    pub fn try_get_or_intern_static(&mut self, text: &'static str) -> LassoResult<K>
        // On success the key is the text's. An absent text goes last; a present one changes nothing.
        ensures key { IfOk result (λ key. key_of K.key_at self.new.texts text.now ≡ Some key) }
        ensures present { IsPresent self.old text.now → IsOk result × (self.new ≡ self.old) }
        ensures appended { IsAbsent self.old text.now → OnOk result (self.new.texts ≡ self.old.texts ++ text.now ∷ []) }

        // What stays in each case: the account, since no byte is copied; the first bucket's size, and the record of clears
        ensures account { self.new.account ≡ self.old.account }
        ensures copied { self.new.copied ≡ self.old.copied }
        ensures origin { KeepsOrigin self.old self.new }

        // On failure nothing changes. No key left comes before memory, which runs out only for an absent text; the limit is never the error.
        ensures unchanged { OnErr result (self.new ≡ self.old) }
        ensures no_key { (result ≡ Err KeySpaceExhaustion) ↔ (IsAbsent self.old text.now × (next_key K.key_at self.old ≡ None)) }
        ensures no_limit { result ≢ Err MemoryLimitReached }
        ensures memory { result ≡ Err FailedAllocation → IsAbsent self.old text.now × IsSome (next_key K.key_at self.old) }

        // The same facts as one relation
        ensures all { InternsStaticIn K.key_at self.old text.now result self.new }
    {
        self.intern_static(text)
    }

    // The call with its contract in one clause.
    #[inline(always)]
    fn intern_static(&mut self, text: &'static str) -> LassoResult<K>
        ensures { InternsStaticIn K.key_at self.old text.now result self.new }
    {
        let hash = hash_text(&self.hasher, text);
        let vacancy = match self.index.locate(&self.list, &self.hasher, hash, text) {
            Ok(position) => return Ok(K::try_from_usize(position).unwrap()),
            Err(vacancy) => vacancy,
        };
        let Some(key) = K::try_from_usize(self.list.len()) else {
            return Err(LassoError::new(LassoErrorKind::KeySpaceExhaustion));
        };
        let vacancy = self
            .index
            .reserve_in_order(&self.list, &self.hasher, hash, vacancy)?;
        self.list.push_static(text)?;
        self.index.insert_at(vacancy, hash, key);
        Ok(key)
    }

    /// Returns the text's key, and appends the text first if it is new: the same call as
    /// `try_get_or_intern_static`, with the same refusals.
    ///
    /// ```rust
    /// let mut rodeo = Rodeo::default(rt.alloc())?;
    /// let hello = rodeo.get_or_intern_static("Hello, world!")?;
    /// let same = rodeo.get_or_intern("Hello, world!")?;
    /// assert!(rt; same == hello);
    /// ```
    pub fn get_or_intern_static(&mut self, text: &'static str) -> LassoResult<K>
        // On success the key is the text's. An absent text goes last; a present one changes nothing.
        ensures key { IfOk result (λ key. key_of K.key_at self.new.texts text.now ≡ Some key) }
        ensures present { IsPresent self.old text.now → IsOk result × (self.new ≡ self.old) }
        ensures appended { IsAbsent self.old text.now → OnOk result (self.new.texts ≡ self.old.texts ++ text.now ∷ []) }

        // What stays in each case: the account, since no byte is copied; the first bucket's size, and the record of clears
        ensures account { self.new.account ≡ self.old.account }
        ensures copied { self.new.copied ≡ self.old.copied }
        ensures origin { KeepsOrigin self.old self.new }

        // On failure nothing changes. No key left comes before memory, which runs out only for an absent text; the limit is never the error.
        ensures unchanged { OnErr result (self.new ≡ self.old) }
        ensures no_key { (result ≡ Err KeySpaceExhaustion) ↔ (IsAbsent self.old text.now × (next_key K.key_at self.old ≡ None)) }
        ensures no_limit { result ≢ Err MemoryLimitReached }
        ensures memory { result ≡ Err FailedAllocation → IsAbsent self.old text.now × IsSome (next_key K.key_at self.old) }

        // The same facts as one relation
        ensures all { InternsStaticIn K.key_at self.old text.now result self.new }
    {
        self.try_get_or_intern_static(text)
    }
}

// Appends a text that is absent, and puts its key in the index at the vacancy where the text was not found. If it is refused,
// nothing changes.
#[inline(always)]
fn append<K: Key, S: BuildHasher, A: Allocator + Clone>(
    list: &mut TextList<A>,
    index: &mut Index<K, A>,
    hasher: &S,
    text: &str,
    hash: u64,
    vacancy: Vacancy,
) -> LassoResult<K>
    requires whole { IsIndexOf (hash_by S.BuildHasher S.Hasher.Hasher hasher.now) list.old.texts index.old × Fits K.key_at (length list.old.texts) }
    requires hashed { hash ≡ hash_by S.BuildHasher S.Hasher.Hasher hasher.now text.now }
    requires absent { position_of list.old.texts text.now ≡ None }
    requires vacant { IsVacancy hash vacancy index.old.slots }
    ensures interned { InternsIn K.key_at list.old text.now result list.new }
    ensures whole { IsIndexOf (hash_by S.BuildHasher S.Hasher.Hasher hasher.now) list.new.texts index.new × Fits K.key_at (length list.new.texts) }
{
    let Some(key) = K::try_from_usize(list.len()) else {
        return Err(LassoError::new(LassoErrorKind::KeySpaceExhaustion));
    };
    if push_in_room(list, index, text, hash, vacancy, key) {
        return Ok(key);
    }
    if !list.admits(text.len()) {
        return Err(LassoError::new(LassoErrorKind::MemoryLimitReached));
    }
    let place = index.reserve_in_order(list, hasher, hash, vacancy)?;
    list.push_growing(text)?;
    index.insert_at(place, hash, key);
    Ok(key)
}

// Appends an absent text out of line, so that a call which finds its text is short.
#[inline(never)]
fn append_apart<K: Key, S: BuildHasher, A: Allocator + Clone>(
    list: &mut TextList<A>,
    index: &mut Index<K, A>,
    hasher: &S,
    text: &str,
    hash: u64,
    vacancy: Vacancy,
) -> LassoResult<K>
    requires whole { IsIndexOf (hash_by S.BuildHasher S.Hasher.Hasher hasher.now) list.old.texts index.old × Fits K.key_at (length list.old.texts) }
    requires hashed { hash ≡ hash_by S.BuildHasher S.Hasher.Hasher hasher.now text.now }
    requires absent { position_of list.old.texts text.now ≡ None }
    requires vacant { IsVacancy hash vacancy index.old.slots }
    ensures interned { InternsIn K.key_at list.old text.now result list.new }
    ensures whole { IsIndexOf (hash_by S.BuildHasher S.Hasher.Hasher hasher.now) list.new.texts index.new × Fits K.key_at (length list.new.texts) }
{
    append(list, index, hasher, text, hash, vacancy)
}

// Copies the text to the end of the list and puts its key in the index, where the list, its bucket and the index need not
// grow for it, and returns whether it did. Else nothing changes. It takes no memory.
#[inline(always)]
fn push_in_room<K: Key, A: Allocator>(
    list: &mut TextList<A>,
    index: &mut Index<K, A>,
    text: &str,
    hash: u64,
    vacancy: Vacancy,
    key: K,
) -> bool
    requires vacant { IsVacancy hash vacancy index.old.slots }
    ensures texts { IsTrue result → list.new.texts ≡ list.old.texts ++ text.now ∷ [] }
    ensures account { IsTrue result → store list.old.first list.old.account (length text.now) ≡ Some list.new.account }
    ensures copied { IsTrue result → list.new.copied ≡ list.old.copied + length text.now }
    ensures origin { KeepsOrigin list.old list.new }
    ensures holds { IsTrue result → (n : ℕ) → Holds index.new.slots n ↔ (Holds index.old.slots n ⊎ (n ≡ K.number key)) }
    ensures used { IsTrue result → used index.new.slots ≡ used index.old.slots + 1 }
    ensures filed { IsTrue result → StaysFiled hash (K.number key) index.old index.new }
    ensures same_list { result ≡ false → list.new ≡ list.old }
    ensures same_index { result ≡ false → index.new ≡ index.old }
{
    if !index.has_room() || !list.push_in_room(text) {
        return false;
    }
    index.insert_at(vacancy, hash, key);
    true
}
