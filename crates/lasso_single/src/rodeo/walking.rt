//! Walks over a `Rodeo`, and comparisons of it with another interner or a frozen form.
ghost use Rattle.std.specs.Prelude.{◌≡◌, ◌↔◌, IsTrue};
ghost use Rattle.std.specs.Cmp.{partial_equiv_from_equiv, on_per, on_equiv};
ghost use Rattle.std.specs.List.{enumerate_from};
ghost use Rattle.lasso_single.specs.Equality.{texts_eq, texts_equivalence};

use super::Rodeo;
use crate::reader::RodeoReader;
use crate::resolver::RodeoResolver;
use lasso_parts::iter::{Iter, Strings};
use lasso_parts::keys::Key;
use std::alloc::Allocator;
use std::hash::BuildHasher;

impl<K: Key, S: BuildHasher, A: Allocator> Rodeo<K, S, A> {
    /// A walk over the texts and their keys, in the order of the keys.
    ///
    /// ```rust
    /// let rodeo: SpurRodeo = Rodeo::from_iter(rt.alloc(), ["red", "green", "blue"])?;
    /// let red = rodeo.get("red").ok_or("not there")?;
    /// let mut walk = rodeo.iter();
    /// assert!(rt; walk.next() == Some((red, "red")));
    /// assert!(rt; walk.len() == 2);
    /// ```
    pub fn iter(&self) -> Iter<'_, K>
        ensures { result ≡ enumerate_from 0 self.now.texts }
    {
        self.list.iter()
    }

    /// A walk over the texts, in the order of their keys.
    ///
    /// ```rust
    /// let rodeo: SpurRodeo = Rodeo::from_iter(rt.alloc(), ["red", "green", "blue"])?;
    /// let mut strings = rodeo.strings();
    /// assert!(rt; strings.next_back() == Some("blue"));
    /// assert!(rt; strings.next() == Some("red"));
    /// assert!(rt; strings.len() == 1);
    /// ```
    pub fn strings(&self) -> Strings<'_, K>
        ensures { result ≡ self.now.texts }
    {
        self.list.strings()
    }

    /// Whether the reader has the same texts under the same keys.
    ///
    /// ```rust
    /// let rodeo: SpurRodeo = Rodeo::from_iter(rt.alloc(), ["red", "green"])?;
    /// let reader = rodeo.try_clone()?.into_reader();
    /// assert!(rt; rodeo.eq_reader(&reader));
    /// ```
    pub fn eq_reader<T: BuildHasher, B: Allocator>(&self, other: &RodeoReader<K, T, B>) -> bool
        ensures { IsTrue result ↔ (self.now.texts ≡ other.now) }
    {
        self.list.has_texts_of(&other.rodeo().list)
    }

    /// Whether the resolver has the same texts under the same keys.
    ///
    /// ```rust
    /// let rodeo: SpurRodeo = Rodeo::from_iter(rt.alloc(), ["red", "green"])?;
    /// let reader = rodeo.try_clone()?.into_reader();
    /// let resolver = reader.into_resolver();
    /// assert!(rt; rodeo.eq_resolver(&resolver));
    /// ```
    pub fn eq_resolver<B: Allocator>(&self, other: &RodeoResolver<K, B>) -> bool
        ensures { IsTrue result ↔ (self.now.texts ≡ other.now) }
    {
        self.list.has_texts_of(other.list())
    }
}

impl<K: Key, S: BuildHasher, A: Allocator> PartialEq for Rodeo<K, S, A> {
    ghost eq = { λ rodeo other. texts_eq rodeo.texts other.texts };

    ghost laws = { on_per (λ rodeo. rodeo.texts) (partial_equiv_from_equiv texts_equivalence) };

    fn eq(&self, other: &Self) -> bool
        ensures value { result ≡ texts_eq self.now.texts other.now.texts }
        ensures same { IsTrue result ↔ (self.now.texts ≡ other.now.texts) }
    {
        self.list.has_texts_of(&other.list)
    }
}

impl<K: Key, S: BuildHasher, A: Allocator> Eq for Rodeo<K, S, A> {
    ghost laws = { on_equiv (λ rodeo. rodeo.texts) texts_equivalence };
}

impl<'a, K: Key, S: BuildHasher, A: Allocator> IntoIterator for &'a Rodeo<K, S, A> {
    type Item = (K, &'a str);

    type IntoIter = Iter<'a, K>;

    ghost into_iter_gives = { λ rodeo walk. walk ≡ enumerate_from 0 rodeo.now.texts };

    fn into_iter(self) -> Iter<'a, K> {
        self.iter()
    }
}
