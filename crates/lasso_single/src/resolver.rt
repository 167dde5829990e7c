//! `RodeoResolver`, a frozen interner that gives the texts of keys alone.
ghost use Rattle.std.specs.Prelude.{◌≡◌, ◌==◌, ◌+◌, ◌<◌, length, Some, IsTrue, IfErr, OnErr, OnOk, ◌↔◌, slice_get, option_map, vec_len};
ghost use Rattle.std.specs.Vec.{vec_capacity};
ghost use Rattle.lasso_parts.specs.declared.util.LassoErrorKind.TheVariants.{FailedAllocation};
ghost use Rattle.lasso_parts.specs.Texts.{Fits};
ghost use Rattle.std.specs.Cmp.{partial_equiv_from_equiv};
ghost use Rattle.std.specs.List.{enumerate_from};
ghost use Rattle.lasso_single.specs.Equality.{texts_eq, texts_equivalence};
ghost use Rattle.lasso_single.specs.Interner.{HaveEntriesOf};
ghost use Rattle.lasso_single.specs.KeyLists.{AddsTexts, HaveTexts};

use crate::reader::RodeoReader;
use crate::rodeo::Rodeo;
use crate::text_list::TextList;
use lasso_parts::index::Texts;
use lasso_parts::iter::{Iter, Strings};
use lasso_parts::keys::Key;
use lasso_parts::util::LassoResult;
use std::alloc::Allocator;
use std::fmt;
use std::hash::BuildHasher;
use std::marker::{Model, PhantomData};

/// A list of texts that does not change any more, and from which texts of keys are found. It is what a
/// `Rodeo` or a `RodeoReader` freezes to if no text is looked up any more: it has no index and no hasher.
/// Contracts see it as the list of its texts: the text at position n has the key of number n.
/// Threads may share it if they may share its allocator; no call of it takes a lock.
pub struct RodeoResolver<K: Key, A: Allocator> {
    list: TextList<A>,
    keys: PhantomData<K>,
}

impl<K: Key, A: Allocator> Model for RodeoResolver<K, A> {
    ghost use Rattle.std.specs.Prelude.{List, length};
    ghost use Rattle.lasso_parts.specs.Texts.{Text, Fits};

    ghost Value = { List Text };

    ghost view = { λ r. r.list.texts };

    ghost invariant = { λ r. Fits K.key_at (length r.list.texts) };
}

// One call, so that proofs of callers see nothing of the fields where a resolver is dropped.
impl<K: Key, A: Allocator> Drop for RodeoResolver<K, A> {
    fn drop(self) {
        let RodeoResolver { list: _, keys: _ } = self;
    }
}

impl<K: Key, A: Allocator> Texts for RodeoResolver<K, A> {
    ghost list = { λ r. r };

    fn text_at(&self, position: usize) -> &str {
        self.list.text_at(position)
    }
}

impl<K: Key, A: Allocator> RodeoResolver<K, A> {
    /// The frozen form of a list, whose positions must each have a key.
    pub(crate) fn new(list: TextList<A>) -> Self
        requires { Fits K.key_at (length list.texts) }
        ensures { result ≡ list.texts }
    {
        RodeoResolver {
            list,
            keys: PhantomData,
        }
    }

    /// The list that was frozen.
    pub(crate) fn list(&self) -> &TextList<A>
        ensures { result.now.texts ≡ self.now }
    {
        &self.list
    }

    /// Whether the key stands for a text of this resolver.
    ///
    /// ```rust
    /// let mut rodeo = Rodeo::default(rt.alloc())?;
    /// let red = rodeo.try_get_or_intern("red")?;
    /// let resolver = rodeo.into_resolver();
    /// assert!(rt; resolver.contains_key(red));
    /// let next = Spur::try_from_usize(1).ok_or("no key")?;
    /// assert!(rt; !resolver.contains_key(next));
    /// ```
    pub fn contains_key(&self, key: K) -> bool
        ensures { IsTrue result ↔ (K.number key < length self.now) }
    {
        key.into_usize() < self.list.len()
    }

    /// The key's text, or `None` if the key stands for no text of this resolver.
    ///
    /// ```rust
    /// let mut rodeo = Rodeo::default(rt.alloc())?;
    /// let red = rodeo.try_get_or_intern("red")?;
    /// let resolver = rodeo.into_resolver();
    /// assert!(rt; resolver.try_resolve(red) == Some("red"));
    /// let next = Spur::try_from_usize(1).ok_or("no key")?;
    /// assert!(rt; resolver.try_resolve(next) == None);
    /// ```
    pub fn try_resolve(&self, key: K) -> Option<&str>
        ensures { option_map (λ t. t.now) result ≡ slice_get self.now (K.number key) }
    {
        self.list.get(key.into_usize())
    }

    /// The key's text. The key must stand for a text of this resolver: `contains_key` is the test.
    ///
    /// ```rust
    /// let mut rodeo = Rodeo::default(rt.alloc())?;
    /// let red = rodeo.try_get_or_intern("red")?;
    /// let resolver = rodeo.into_resolver();
    /// assert!(rt; resolver.contains_key(red));
    /// assert!(rt; resolver.resolve(red) == "red");
    /// ```
    pub fn resolve(&self, key: K) -> &str
        requires { K.number key < length self.now }
        ensures { slice_get self.now (K.number key) ≡ Some result.now }
    {
        self.list.text_at(key.into_usize())
    }

    /// The key's text: the same call as `resolve`, with the same condition.
    ///
    /// ```rust
    /// let mut rodeo = Rodeo::default(rt.alloc())?;
    /// let red = rodeo.try_get_or_intern("red")?;
    /// let resolver = rodeo.into_resolver();
    /// assert!(rt; resolver.contains_key(red));
    /// assert!(rt; resolver.resolve_unchecked(red) == "red");
    /// ```
    pub fn resolve_unchecked(&self, key: K) -> &str
        requires { K.number key < length self.now }
        ensures { slice_get self.now (K.number key) ≡ Some result.now }
    {
        self.resolve(key)
    }

    /// Whether each key stands for a text of this resolver.
    pub fn contains_keys(&self, keys: &[K]) -> bool
        ensures { IsTrue result ↔ HaveTexts K.number self.now keys.now }
    {
        self.list.contains_keys(keys)
    }

    /// Appends to `texts` the text of each key in order: what `resolve` returns. Each key must stand for a
    /// text of this resolver: `contains_keys` is the test.
    ///
    /// The only error is `FailedAllocation`, if `texts` has no room for all of them and can't grow. It keeps its
    /// items then.
    pub fn resolve_all<'a, B: Allocator>(
        &'a self,
        keys: &[K],
        texts: &mut Vec<&'a str, B>,
    ) -> LassoResult<()>
        requires { HaveTexts K.number self.now keys.now }
        ensures texts { OnOk result (AddsTexts K.number self.now keys.now texts.old.items texts.new.items) }
        ensures unchanged { OnErr result (texts.new.items ≡ texts.old.items) }
        ensures refused { IfErr result (λ error. (error ≡ FailedAllocation) × (vec_capacity texts.old < vec_len texts.old + length keys.now)) }
    {
        self.list.resolve_all(keys, texts)
    }

    /// The number of texts.
    ///
    /// ```rust
    /// let resolver = SpurRodeo::from_iter(rt.alloc(), ["red", "green"])?.into_resolver();
    /// assert!(rt; resolver.len() == 2);
    /// ```
    pub fn len(&self) -> usize
        ensures value { result ≡ length self.now }
        ensures fits { Fits K.key_at (length self.now) }
    {
        self.list.len()
    }

    /// Whether there is no text.
    ///
    /// ```rust
    /// let resolver = SpurRodeo::default(rt.alloc())?.into_resolver();
    /// assert!(rt; resolver.is_empty());
    /// ```
    pub fn is_empty(&self) -> bool
        ensures { result ≡ (length self.now == 0) }
    {
        self.len() == 0
    }

    /// A walk over the texts and their keys, in the order of the keys.
    pub fn iter(&self) -> Iter<'_, K>
        ensures { result ≡ enumerate_from 0 self.now }
    {
        self.list.iter()
    }

    /// A walk over the texts, in the order of their keys.
    pub fn strings(&self) -> Strings<'_, K>
        ensures { result ≡ self.now }
    {
        self.list.strings()
    }

    /// How many bytes the allocator gave for the list of texts and the buckets.
    ///
    /// ```rust
    /// let resolver = SpurRodeo::from_iter(rt.alloc(), ["red", "green"])?.into_resolver();
    /// assert!(rt; resolver.allocated_bytes() > 4096);
    /// ```
    pub fn allocated_bytes(&self) -> usize
        ensures { HaveEntriesOf self.now result }
    {
        self.list.allocated_bytes()
    }

    /// Whether the interner has the same texts under the same keys.
    pub fn eq_rodeo<S: BuildHasher, B: Allocator>(&self, other: &Rodeo<K, S, B>) -> bool
        ensures { IsTrue result ↔ (self.now ≡ other.now.texts) }
    {
        other.eq_resolver(self)
    }

    /// Whether the reader has the same texts under the same keys.
    pub fn eq_reader<S: BuildHasher, B: Allocator>(&self, other: &RodeoReader<K, S, B>) -> bool
        ensures { IsTrue result ↔ (self.now ≡ other.now) }
    {
        other.rodeo().eq_resolver(self)
    }
}

impl<K: Key, A: Allocator> PartialEq for RodeoResolver<K, A> {
    ghost eq = { texts_eq };

    ghost laws = { partial_equiv_from_equiv texts_equivalence };

    fn eq(&self, other: &Self) -> bool
        ensures value { result ≡ texts_eq self.now other.now }
        ensures same { IsTrue result ↔ (self.now ≡ other.now) }
    {
        self.list.has_texts_of(&other.list)
    }
}

impl<K: Key, A: Allocator> Eq for RodeoResolver<K, A> {
    ghost laws = { texts_equivalence };
}

impl<'a, K: Key, A: Allocator> IntoIterator for &'a RodeoResolver<K, A> {
    type Item = (K, &'a str);

    type IntoIter = Iter<'a, K>;

    ghost into_iter_gives = { λ resolver walk. walk ≡ enumerate_from 0 resolver.now };

    fn into_iter(self) -> Iter<'a, K> {
        self.iter()
    }
}

impl<K: Key, A: Allocator> fmt::Debug for RodeoResolver<K, A> {
    fn fmt<W: fmt::Write>(&self, f: &mut fmt::Formatter<W>) -> fmt::Result {
        f.debug_struct("RodeoResolver")
            .field("strings", &self.strings())
            .field("arena", self.list.arena())
            .finish()
    }
}
