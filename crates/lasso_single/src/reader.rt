//! `RodeoReader`, a frozen interner that still finds the keys of texts.
ghost use Rattle.std.specs.Prelude.{◌≡◌, ◌==◌, ◌+◌, ◌<◌, ◌↔◌, length, map, Some, is_some};
ghost use Rattle.std.specs.Prelude.{IsTrue, IfErr, OnErr, OnOk, slice_get, option_map, vec_len};
ghost use Rattle.std.specs.Vec.{vec_capacity};
ghost use Rattle.lasso_parts.specs.declared.util.LassoErrorKind.TheVariants.{FailedAllocation};
ghost use Rattle.lasso_parts.specs.Texts.{position_of, key_of, IsDistinct, Fits};
ghost use Rattle.std.specs.Cmp.{partial_equiv_from_equiv};
ghost use Rattle.std.specs.List.{enumerate_from};
ghost use Rattle.lasso_single.specs.Equality.{texts_eq, texts_equivalence};
ghost use Rattle.lasso_single.specs.Interner.{HaveEntriesOf};
ghost use Rattle.lasso_single.specs.KeyLists.{AddsFound, AddsTexts, HaveTexts};

use crate::resolver::RodeoResolver;
use crate::rodeo::Rodeo;
use lasso_parts::index::Texts;
use lasso_parts::iter::{Iter, Strings};
use lasso_parts::keys::Key;
use lasso_parts::util::LassoResult;
use std::alloc::Allocator;
use std::fmt;
use std::hash::BuildHasher;
use std::marker::Model;

/// A list of distinct texts that does not change any more, and from which keys of texts are found as well
/// as texts of keys. It is what a `Rodeo` freezes to. Contracts see it as the list of its texts:
/// the text at position n has the key of number n. Threads may share it if they may share its
/// allocator and its hasher; no call of it takes a lock.
pub struct RodeoReader<K: Key, S: BuildHasher, A: Allocator> {
    rodeo: Rodeo<K, S, A>,
}

impl<K: Key, S: BuildHasher, A: Allocator> Model for RodeoReader<K, S, A> {
    ghost use Rattle.std.specs.Prelude.{List};
    ghost use Rattle.lasso_parts.specs.Texts.{Text};

    ghost Value = { List Text };

    ghost view = { λ r. r.rodeo.texts };
}

// One call, so that proofs of callers see nothing of the field where a reader is dropped.
impl<K: Key, S: BuildHasher + Drop, A: Allocator> Drop for RodeoReader<K, S, A> {
    fn drop(self) {
        let RodeoReader { rodeo: _ } = self;
    }
}

impl<K: Key, S: BuildHasher, A: Allocator> Texts for RodeoReader<K, S, A> {
    ghost list = { λ r. r };

    fn text_at(&self, position: usize) -> &str {
        self.rodeo.text_at(position)
    }
}

impl<K: Key, S: BuildHasher, A: Allocator> RodeoReader<K, S, A> {
    /// The frozen form of an interner.
    pub(crate) fn new(rodeo: Rodeo<K, S, A>) -> Self
        ensures { result ≡ rodeo.texts }
    {
        RodeoReader { rodeo }
    }

    /// The interner that was frozen.
    pub(crate) fn rodeo(&self) -> &Rodeo<K, S, A>
        ensures { result.now.texts ≡ self.now }
    {
        &self.rodeo
    }

    /// The key of the text, or `None` if it is absent.
    ///
    /// ```rust
    /// let reader = SpurRodeo::from_iter(rt.alloc(), ["red", "green"])?.into_reader();
    /// let green = reader.get("green").ok_or("not there")?;
    /// assert!(rt; green.into_usize() == 1);
    /// assert!(rt; reader.get("blue").is_none());
    /// ```
    pub fn get(&self, text: &str) -> Option<K>
        ensures value { result ≡ key_of K.key_at self.now text.now }
        ensures present { is_some result ≡ is_some (position_of self.now text.now) }
    {
        self.rodeo.get(text)
    }

    /// Appends to `keys` the key of each text in order, or `None` for an absent one: what `get` returns.
    /// Texts are looked up in batches, which is faster than one after another if they are out of the
    /// caches.
    ///
    /// The only error is `FailedAllocation`, if `keys` has no room for all of them and can't grow. It keeps its
    /// items then.
    pub fn get_all<B: Allocator>(
        &self,
        texts: &[&str],
        keys: &mut Vec<Option<K>, B>,
    ) -> LassoResult<()>
        ensures keys { OnOk result (AddsFound K.key_at self.now (map (λ t. t.now) texts.now) keys.old.items keys.new.items) }
        ensures unchanged { OnErr result (keys.new.items ≡ keys.old.items) }
        ensures refused { IfErr result (λ error. (error ≡ FailedAllocation) × (vec_capacity keys.old < vec_len keys.old + length texts.now)) }
    {
        self.rodeo.get_all(texts, keys)
    }

    /// Whether the text is present.
    ///
    /// ```rust
    /// let reader = SpurRodeo::from_iter(rt.alloc(), ["red", "green"])?.into_reader();
    /// assert!(rt; reader.contains("green"));
    /// assert!(rt; !reader.contains("blue"));
    /// ```
    pub fn contains(&self, text: &str) -> bool
        ensures { result ≡ is_some (position_of self.now text.now) }
    {
        self.rodeo.contains(text)
    }

    /// Whether the key stands for a text of this reader.
    ///
    /// ```rust
    /// let reader = SpurRodeo::from_iter(rt.alloc(), ["red", "green"])?.into_reader();
    /// let red = reader.get("red").ok_or("not there")?;
    /// assert!(rt; reader.contains_key(red));
    /// let past = Spur::try_from_usize(2).ok_or("no key")?;
    /// assert!(rt; !reader.contains_key(past));
    /// ```
    pub fn contains_key(&self, key: K) -> bool
        ensures { IsTrue result ↔ (K.number key < length self.now) }
    {
        self.rodeo.contains_key(key)
    }

    /// The key's text, or `None` if the key stands for no text of this reader.
    ///
    /// ```rust
    /// let reader = SpurRodeo::from_iter(rt.alloc(), ["red", "green"])?.into_reader();
    /// let red = reader.get("red").ok_or("not there")?;
    /// assert!(rt; reader.try_resolve(red) == Some("red"));
    /// let past = Spur::try_from_usize(2).ok_or("no key")?;
    /// assert!(rt; reader.try_resolve(past) == None);
    /// ```
    pub fn try_resolve(&self, key: K) -> Option<&str>
        ensures { option_map (λ t. t.now) result ≡ slice_get self.now (K.number key) }
    {
        self.rodeo.try_resolve(key)
    }

    /// The key's text. The key must stand for a text of this reader: `contains_key` is the test.
    ///
    /// ```rust
    /// let reader = SpurRodeo::from_iter(rt.alloc(), ["red", "green"])?.into_reader();
    /// let red = reader.get("red").ok_or("not there")?;
    /// assert!(rt; reader.contains_key(red));
    /// assert!(rt; reader.resolve(red) == "red");
    /// ```
    pub fn resolve(&self, key: K) -> &str
        requires { K.number key < length self.now }
        ensures { slice_get self.now (K.number key) ≡ Some result.now }
    {
        self.rodeo.resolve(key)
    }

    /// The key's text: the same call as `resolve`, with the same condition.
    ///
    /// ```rust
    /// let reader = SpurRodeo::from_iter(rt.alloc(), ["red", "green"])?.into_reader();
    /// let red = reader.get("red").ok_or("not there")?;
    /// assert!(rt; reader.contains_key(red));
    /// assert!(rt; reader.resolve_unchecked(red) == "red");
    /// ```
    pub fn resolve_unchecked(&self, key: K) -> &str
        requires { K.number key < length self.now }
        ensures { slice_get self.now (K.number key) ≡ Some result.now }
    {
        self.resolve(key)
    }

    /// Whether each key stands for a text of this reader.
    pub fn contains_keys(&self, keys: &[K]) -> bool
        ensures { IsTrue result ↔ HaveTexts K.number self.now keys.now }
    {
        self.rodeo.contains_keys(keys)
    }

    /// Appends to `texts` the text of each key in order: what `resolve` returns. Each key must stand for a
    /// text of this reader: `contains_keys` is the test.
    ///
    /// The only error is `FailedAllocation`, if `texts` has no room for all of them and can't grow. It keeps its
    /// items then.
    pub fn resolve_all<'a, B: Allocator>(
        &'a self,
        keys: &[K],
        texts: &mut Vec<&'a str, B>,
    ) -> LassoResult<()>
        requires { HaveTexts K.number self.now keys.now }
        ensures texts { OnOk result (AddsTexts K.number self.now keys.now texts.old.items texts.new.items) }
        ensures unchanged { OnErr result (texts.new.items ≡ texts.old.items) }
        ensures refused { IfErr result (λ error. (error ≡ FailedAllocation) × (vec_capacity texts.old < vec_len texts.old + length keys.now)) }
    {
        self.rodeo.resolve_all(keys, texts)
    }

    /// The number of texts.
    ///
    /// ```rust
    /// let reader = SpurRodeo::from_iter(rt.alloc(), ["red", "green"])?.into_reader();
    /// assert!(rt; reader.len() == 2);
    /// ```
    pub fn len(&self) -> usize
        ensures value { result ≡ length self.now }
        ensures distinct { IsDistinct self.now }
        ensures fits { Fits K.key_at (length self.now) }
    {
        self.rodeo.len()
    }

    /// Whether there is no text.
    ///
    /// ```rust
    /// let reader = SpurRodeo::default(rt.alloc())?.into_reader();
    /// assert!(rt; reader.is_empty());
    /// ```
    pub fn is_empty(&self) -> bool
        ensures { result ≡ (length self.now == 0) }
    {
        self.rodeo.is_empty()
    }

    /// A walk over the texts and their keys, in the order of the keys.
    pub fn iter(&self) -> Iter<'_, K>
        ensures { result ≡ enumerate_from 0 self.now }
    {
        self.rodeo.iter()
    }

    /// A walk over the texts, in the order of their keys.
    pub fn strings(&self) -> Strings<'_, K>
        ensures { result ≡ self.now }
    {
        self.rodeo.strings()
    }

    /// How many bytes the allocator gave for the list of texts, the index and the buckets.
    ///
    /// ```rust
    /// let reader = SpurRodeo::from_iter(rt.alloc(), ["red", "green"])?.into_reader();
    /// assert!(rt; reader.allocated_bytes() > 4096);
    /// ```
    pub fn allocated_bytes(&self) -> usize
        ensures { HaveEntriesOf self.now result }
    {
        self.rodeo.allocated_bytes()
    }

    /// Returns a resolver with the same texts under the same keys, which finds no keys of texts. It takes no
    /// memory, copies nothing and can't fail; the index is dropped.
    ///
    /// ```rust
    /// let reader = SpurRodeo::from_iter(rt.alloc(), ["red", "green"])?.into_reader();
    /// let red = reader.get("red").ok_or("not there")?;
    /// let resolver = reader.into_resolver();
    /// assert!(rt; resolver.try_resolve(red) == Some("red"));
    /// ```
    pub fn into_resolver(self) -> RodeoResolver<K, A>
    where
        S: Drop,
        ensures { result ≡ self }
    {
        let RodeoReader { rodeo } = self;
        rodeo.into_resolver()
    }

    /// Whether the interner has the same texts under the same keys.
    pub fn eq_rodeo<T: BuildHasher, B: Allocator>(&self, other: &Rodeo<K, T, B>) -> bool
        ensures { IsTrue result ↔ (self.now ≡ other.now.texts) }
    {
        other.eq_reader(self)
    }

    /// Whether the resolver has the same texts under the same keys.
    pub fn eq_resolver<B: Allocator>(&self, other: &RodeoResolver<K, B>) -> bool
        ensures { IsTrue result ↔ (self.now ≡ other.now) }
    {
        self.rodeo.eq_resolver(other)
    }
}

impl<K: Key, S: BuildHasher, A: Allocator> PartialEq for RodeoReader<K, S, A> {
    ghost eq = { texts_eq };

    ghost laws = { partial_equiv_from_equiv texts_equivalence };

    fn eq(&self, other: &Self) -> bool
        ensures value { result ≡ texts_eq self.now other.now }
        ensures same { IsTrue result ↔ (self.now ≡ other.now) }
    {
        self.rodeo == other.rodeo
    }
}

impl<K: Key, S: BuildHasher, A: Allocator> Eq for RodeoReader<K, S, A> {
    ghost laws = { texts_equivalence };
}

impl<'a, K: Key, S: BuildHasher, A: Allocator> IntoIterator for &'a RodeoReader<K, S, A> {
    type Item = (K, &'a str);

    type IntoIter = Iter<'a, K>;

    ghost into_iter_gives = { λ reader walk. walk ≡ enumerate_from 0 reader.now };

    fn into_iter(self) -> Iter<'a, K> {
        self.iter()
    }
}

impl<K: Key, S: BuildHasher, A: Allocator> fmt::Debug for RodeoReader<K, S, A> {
    fn fmt<W: fmt::Write>(&self, f: &mut fmt::Formatter<W>) -> fmt::Result {
        self.rodeo.debug_as("RodeoReader", f)
    }
}
