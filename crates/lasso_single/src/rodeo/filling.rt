//! Filling a `Rodeo`: from the items of an iterator, and from a list of texts, with their keys.
ghost use Rattle.std.specs.Prelude.{◌≡◌, ◌+◌, ◌<◌, ◌⊎◌, ℕ, List, map};
ghost use Rattle.std.specs.Prelude.{None, Some, Err, IfOk, IfErr, OnOk, IsSome, length, vec_len};
ghost use Rattle.std.specs.Iterator.{IsFinite, Yields, YieldsThen};
ghost use Rattle.std.specs.Vec.{vec_capacity};
ghost use Rattle.lasso_parts.specs.declared.util.LassoErrorKind.TheVariants.{FailedAllocation, KeySpaceExhaustion, MemoryLimitReached};
ghost use Rattle.lasso_single.specs.Copies.{bytes_of};
ghost use Rattle.lasso_single.specs.Filling.{AddsItems, AddsUpToItem, FillsUpTo, InternsEach, InternsItems, StopsAtItem, StopsAtRefusal};
ghost use Rattle.lasso_single.specs.Filling.{account_with_all, added_texts, with_all_new};
ghost use Rattle.lasso_single.specs.Intern.{IsAbsent, account_with, next_key};
ghost use Rattle.lasso_single.specs.Interner.{InternerView, KeepsOrigin, made_by_default};
ghost use Rattle.lasso_single.specs.KeyLists.{AddsKeysOfFirst, IsNextRefused, NextIs, keyed_texts};

use super::Rodeo;
use crate::batch::{Batch, intern_next, look_ahead};
use lasso_parts::keys::Key;
use lasso_parts::util::LassoResult;
use std::alloc::Allocator;
use std::convert::AsStr;
use std::hash::BuildHasher;

impl<K: Key, S: BuildHasher, A: Allocator + Clone> Rodeo<K, S, A> {
    /// Interns the items in order, each of them a `&str` or another that lends a text. Stops at the first
    /// error and returns it: the items before the refused one stay, that one changes nothing, and no item
    /// after it is taken. It returns if the items end. To go on with a lent iterator after an error, use
    /// `extend_from`, whose contract says where it stands.
    ///
    /// ```rust
    /// let mut rodeo = Rodeo::default(rt.alloc())?;
    /// rodeo.extend(["red", "green", "red"])?;
    /// assert!(rt; rodeo.len() == 2);
    /// assert!(rt; rodeo.contains("green"));
    /// assert!(rt; !rodeo.contains("blue"));
    /// ```
    pub fn extend<T: AsStr + Drop, I: IntoIterator<Item = T>>(
        &mut self,
        items: I,
    ) -> LassoResult<()>
        requires { (it : I.IntoIter) → I.into_iter_gives items it → I.IntoIter.can_next it × IsFinite (I.IntoIter.remaining it) }
        // On success the items ended, and each was interned in order.
        ensures texts { OnOk result ((it : I.IntoIter) × I.into_iter_gives items it × AddsItems I.IntoIter.next_gives T.text it self.old self.new) }

        // In each case texts are only added, and they alone take bytes. The first bucket's size and the record of clears stay.
        ensures account { account_with_all self.old (added_texts self.old self.new) ≡ Some self.new.account }
        ensures copied { self.new.copied ≡ self.old.copied + bytes_of (added_texts self.old self.new) }
        ensures origin { KeepsOrigin self.old self.new }

        // On failure the items before the refused one are interned, that one changed nothing, and no later item is interned. The error is
        // that of `try_get_or_intern` for it: no key left comes before the limit, and the limit before memory.
        ensures no_key { result ≡ Err KeySpaceExhaustion → (it : I.IntoIter) × I.into_iter_gives items it
            × AddsUpToItem I.IntoIter.next_gives T.text it self.old self.new
            (λ text. IsAbsent self.new text × (next_key K.key_at self.new ≡ None)) }
        ensures limit { result ≡ Err MemoryLimitReached → (it : I.IntoIter) × I.into_iter_gives items it
            × AddsUpToItem I.IntoIter.next_gives T.text it self.old self.new
            (λ text. IsAbsent self.new text × IsSome (next_key K.key_at self.new) × (account_with self.new text ≡ None)) }
        ensures memory { result ≡ Err FailedAllocation → (it : I.IntoIter) × I.into_iter_gives items it
            × AddsUpToItem I.IntoIter.next_gives T.text it self.old self.new
            (λ text. IsAbsent self.new text × IsSome (next_key K.key_at self.new) × IsSome (account_with self.new text)) }

        // The same facts as relations
        ensures filled { OnOk result ((it : I.IntoIter) × I.into_iter_gives items it
            × InternsItems I.IntoIter.next_gives T.text K.key_at it self.old self.new) }
        ensures refused { IfErr result (λ error. (it : I.IntoIter) × I.into_iter_gives items it
            × StopsAtItem I.IntoIter.next_gives T.text K.key_at it self.old error self.new) }
    {
        let mut items = items.into_iter();
        self.extend_from(&mut items)
    }

    /// Interns the items of a lent iterator in order, as `extend` does. After an error the iterator stands
    /// right after the refused item: that one was taken, and the next call of `next` gives the item after it.
    ///
    /// ```rust
    /// let mut rodeo = Rodeo::default(rt.alloc())?;
    /// let colours = ["red", "green", "red"];
    /// let mut items = colours.iter();
    /// rodeo.extend_from(&mut items)?;
    /// assert!(rt; rodeo.len() == 2);
    /// assert!(rt; items.next().is_none());
    /// ```
    pub fn extend_from<T: AsStr + Drop, I: Iterator<Item = T>>(
        &mut self,
        items: &mut I,
    ) -> LassoResult<()>
        requires can { I.can_next items.old }
        requires ends { IsFinite (I.remaining items.old) }
        // On success the items ended, and each was interned in order.
        ensures texts { OnOk result ((xs : List T) × YieldsThen I.next_gives items.old xs None items.new
            × (self.new.texts ≡ with_all_new self.old.texts (map T.text xs))) }

        // In each case texts are only added, and they alone take bytes. The first bucket's size and the record of clears stay.
        ensures account { account_with_all self.old (added_texts self.old self.new) ≡ Some self.new.account }
        ensures copied { self.new.copied ≡ self.old.copied + bytes_of (added_texts self.old self.new) }
        ensures origin { KeepsOrigin self.old self.new }

        // On failure the items before the refused one are interned, that one changed nothing, and the iterator stands right after it. The
        // error is that of `try_get_or_intern` for it: no key left comes before the limit, and the limit before memory.
        ensures no_key { result ≡ Err KeySpaceExhaustion → (xs : List T) × Yields I.next_gives items.old xs items.new
            × FillsUpTo self.old self.new (map T.text xs)
            (λ text. IsAbsent self.new text × (next_key K.key_at self.new ≡ None)) }
        ensures limit { result ≡ Err MemoryLimitReached → (xs : List T) × Yields I.next_gives items.old xs items.new
            × FillsUpTo self.old self.new (map T.text xs)
            (λ text. IsAbsent self.new text × IsSome (next_key K.key_at self.new) × (account_with self.new text ≡ None)) }
        ensures memory { result ≡ Err FailedAllocation → (xs : List T) × Yields I.next_gives items.old xs items.new
            × FillsUpTo self.old self.new (map T.text xs)
            (λ text. IsAbsent self.new text × IsSome (next_key K.key_at self.new) × IsSome (account_with self.new text)) }

        // The same facts as relations
        ensures filled { OnOk result ((xs : List T) × YieldsThen I.next_gives items.old xs None items.new
            × InternsEach K.key_at self.old (map T.text xs) self.new) }
        ensures refused { IfErr result (λ error. (xs : List T) × Yields I.next_gives items.old xs items.new
            × StopsAtRefusal K.key_at self.old (map T.text xs) error self.new) }
    {
        self.intern_items(items)
    }

    // The call with its contract in relations.
    #[inline(always)]
    fn intern_items<T: AsStr + Drop, I: Iterator<Item = T>>(
        &mut self,
        items: &mut I,
    ) -> LassoResult<()>
        requires can { I.can_next items.old }
        requires ends { IsFinite (I.remaining items.old) }
        ensures filled { OnOk result ((xs : List T) × YieldsThen I.next_gives items.old xs None items.new
            × InternsEach K.key_at self.old (map T.text xs) self.new) }
        ensures refused { IfErr result (λ error. (xs : List T) × Yields I.next_gives items.old xs items.new
            × StopsAtRefusal K.key_at self.old (map T.text xs) error self.new) }
    {
        // Where there is no memory for the items that the hint tells of, each asks for its own.
        let _ = self.list.reserve(items.size_hint().0);
        while let Some(text) = items.next() {
            self.try_get_or_intern(text.as_str())?;
        }
        Ok(())
    }

    /// Interns the texts in order, and appends the key of each to `keys`.
    ///
    /// Room for all keys is reserved first; if that fails, nothing changes. Then it stops at the first text that
    /// `try_get_or_intern` refuses, and returns that error. The texts before it are interned, and their keys are
    /// appended: the number of new keys is the refused text's position.
    ///
    /// ```rust
    /// let mut rodeo = Rodeo::default(rt.alloc())?;
    /// let mut keys = Vec::new(rt.alloc());
    /// rodeo.try_get_or_intern_all(&["red", "green", "red"], &mut keys)?;
    /// assert!(rt; keys.len() == 3);
    /// assert!(rt; keys[0] == keys[2]);
    /// assert!(rt; rodeo.try_resolve(keys[1]) == Some("green"));
    /// ```
    pub fn try_get_or_intern_all<B: Allocator>(
        &mut self,
        texts: &[&str],
        keys: &mut Vec<K, B>,
    ) -> LassoResult<()>
        // Either way the first texts are interned, one for each added key, which is the text's.
        ensures keys { AddsKeysOfFirst K.key_at self.new.texts (map (λ t. t.now) texts.now) keys.old.items keys.new.items }
        ensures texts { self.new.texts ≡ with_all_new self.old.texts (keyed_texts keys.old.items keys.new.items (map (λ t. t.now) texts.now)) }
        ensures account { account_with_all self.old (added_texts self.old self.new) ≡ Some self.new.account }
        ensures copied { self.new.copied ≡ self.old.copied + bytes_of (added_texts self.old self.new) }

        // What stays in each case: the first bucket's size, and the record of clears
        ensures origin { KeepsOrigin self.old self.new }

        // On success these are all texts.
        ensures whole { OnOk result (vec_len keys.new ≡ vec_len keys.old + length texts.now) }

        // On failure the text after them was refused: no key left comes before the limit, and the limit before memory. Or there was no
        // memory for the keys, and nothing changed.
        ensures no_key { result ≡ Err KeySpaceExhaustion → NextIs keys.old.items keys.new.items (map (λ t. t.now) texts.now)
            (λ text. IsAbsent self.new text × (next_key K.key_at self.new ≡ None)) }
        ensures limit { result ≡ Err MemoryLimitReached → NextIs keys.old.items keys.new.items (map (λ t. t.now) texts.now)
            (λ text. IsAbsent self.new text × IsSome (next_key K.key_at self.new) × (account_with self.new text ≡ None)) }
        ensures memory { result ≡ Err FailedAllocation
            → ((self.new ≡ self.old) × (keys.new.items ≡ keys.old.items) × (vec_capacity keys.old < vec_len keys.old + length texts.now))
            ⊎ NextIs keys.old.items keys.new.items (map (λ t. t.now) texts.now)
            (λ text. IsAbsent self.new text × IsSome (next_key K.key_at self.new) × IsSome (account_with self.new text)) }

        // The same facts as relations
        ensures list { InternsEach K.key_at self.old (keyed_texts keys.old.items keys.new.items (map (λ t. t.now) texts.now)) self.new }
        ensures refused { IfErr result (λ error.
            ((error ≡ FailedAllocation) × (self.new ≡ self.old) × (keys.new.items ≡ keys.old.items) × (vec_capacity keys.old < vec_len keys.old + length texts.now))
            ⊎ IsNextRefused K.key_at self.new keys.old.items keys.new.items (map (λ t. t.now) texts.now) error) }
    {
        self.intern_list(texts, keys)
    }

    // The call with its contract in relations.
    #[inline(always)]
    fn intern_list<B: Allocator>(&mut self, texts: &[&str], keys: &mut Vec<K, B>) -> LassoResult<()>
        ensures list { InternsEach K.key_at self.old (keyed_texts keys.old.items keys.new.items (map (λ t. t.now) texts.now)) self.new }
        ensures keys { AddsKeysOfFirst K.key_at self.new.texts (map (λ t. t.now) texts.now) keys.old.items keys.new.items }
        ensures whole { OnOk result (vec_len keys.new ≡ vec_len keys.old + length texts.now) }
        ensures refused { IfErr result (λ error.
            ((error ≡ FailedAllocation) × (self.new ≡ self.old) × (keys.new.items ≡ keys.old.items) × (vec_capacity keys.old < vec_len keys.old + length texts.now))
            ⊎ IsNextRefused K.key_at self.new keys.old.items keys.new.items (map (λ t. t.now) texts.now) error) }
    {
        keys.reserve(texts.len())?;
        let mut batch = Batch::new();
        for i in 0..texts.len() {
            if batch.is_due() {
                look_ahead(self, &texts[i..], &mut batch);
            }
            let key = intern_next(self, texts[i], &mut batch)?;
            keys.push_reserved(key);
        }
        Ok(())
    }
}

impl<K: Key, S: BuildHasher + Default + Drop, A: Allocator + Clone> Rodeo<K, S, A> {
    /// An interner of default capacity and limit (50 texts, 4096 bytes), with the items interned in order.
    /// Stops at the first error and returns it in place of the interner. It returns if the items end.
    ///
    /// ```rust
    /// let colours = ["red", "green", "red", "blue"];
    /// let rodeo: SpurRodeo = Rodeo::from_iter(rt.alloc(), colours)?;
    /// assert!(rt; rodeo.len() == 3);
    /// assert!(rt; rodeo.contains("blue"));
    /// ```
    pub fn from_iter<T: AsStr + Drop, I: IntoIterator<Item = T> + Drop>(
        alloc: A,
        items: I,
    ) -> LassoResult<Self>
        requires { (it : I.IntoIter) → I.into_iter_gives items it → I.IntoIter.can_next it × IsFinite (I.IntoIter.remaining it) }
        // On success the items ended, and each was interned in order into a new interner: of 4096 bytes in its first bucket, without a limit.
        ensures texts { IfOk result (λ r. (it : I.IntoIter) × I.into_iter_gives items it × AddsItems I.IntoIter.next_gives T.text it made_by_default r) }
        ensures account { IfOk result (λ r. account_with_all made_by_default r.texts ≡ Some r.account) }
        ensures copied { IfOk result (λ r. r.copied ≡ bytes_of r.texts) }
        ensures origin { IfOk result (λ r. KeepsOrigin made_by_default r) }

        // On failure memory ran out for the new interner, or an item was refused as by `extend`, after those before it were interned. The
        // interner that is left then is dropped. There is no limit but what a `usize` can count.
        ensures no_key { result ≡ Err KeySpaceExhaustion → (it : I.IntoIter) × I.into_iter_gives items it
            × ((left : InternerView) × AddsUpToItem I.IntoIter.next_gives T.text it made_by_default left
            (λ text. IsAbsent left text × (next_key K.key_at left ≡ None))) }
        ensures limit { result ≡ Err MemoryLimitReached → (it : I.IntoIter) × I.into_iter_gives items it
            × ((left : InternerView) × AddsUpToItem I.IntoIter.next_gives T.text it made_by_default left
            (λ text. IsAbsent left text × IsSome (next_key K.key_at left) × (account_with left text ≡ None))) }

        // The same facts as relations
        ensures filled { IfOk result (λ r. (it : I.IntoIter) × I.into_iter_gives items it
            × InternsItems I.IntoIter.next_gives T.text K.key_at it made_by_default r) }
        ensures refused { IfErr result (λ error. (error ≡ FailedAllocation) ⊎ ((it : I.IntoIter) × I.into_iter_gives items it
            × ((left : InternerView) × StopsAtItem I.IntoIter.next_gives T.text K.key_at it made_by_default error left))) }
    {
        let mut rodeo = Rodeo::with_hasher(alloc, S::default())?;
        rodeo.extend(items)?;
        Ok(rodeo)
    }
}
