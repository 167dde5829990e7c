//! Walks over the texts of a list, from both ends. A walk borrows the list's entries and the regions that
//! they name, so its type names no allocator, and no step of it takes memory.
ghost use Rattle.std.specs.Prelude.{◌≡◌, ◌+◌, ◌-◌, ◌<◌, ◌≤◌, length, take, drop, None, Some, IsSome, IfSome, option_map, slice_get};
ghost use Rattle.std.specs.Iterator.{YieldsFirstBy, YieldsLastBy, item_count, at_most, UpTo};
ghost use Rattle.std.specs.Iterator.SizeHint.{IsWithinCount};
ghost use Rattle.std.specs.List.{enumerate_from};
ghost use Rattle.lasso_parts.specs.Entries.{AllThere, texts_of};
ghost use Rattle.lasso_parts.specs.Texts.{Fits};

use crate::bucket::region::Region;
use crate::entries::long::LongText;
use crate::entries::{Entry, text_of};
use crate::keys::Key;
use std::alloc::AllocError;
use std::fmt;
use std::iter::FusedIterator;
use std::marker::{Model, PhantomData};

/// A walk over texts in the order of their keys. Contracts see it as the list of the texts that are left.
#[derive(Drop)]
pub struct Strings<'a, K: Key> {
    entries: &'a [Entry],
    regions: &'a [Region],
    vast: &'a [LongText],
    keys: PhantomData<K>,
}

impl<'a, K: Key> Model for Strings<'a, K> {
    ghost use Rattle.std.specs.Prelude.{List};
    ghost use Rattle.lasso_parts.specs.Entries.{AllThere, texts_of};
    ghost use Rattle.lasso_parts.specs.Texts.{Text};

    ghost Value = { List Text };

    ghost view = { λ s. texts_of s.regions.now s.vast.now s.entries.now };

    ghost invariant = { λ s. AllThere s.regions.now s.vast.now s.entries.now };
}

impl<'a, K: Key> Strings<'a, K> {
    /// A walk over the texts of all the entries. Each must be there among the regions.
    pub fn new(entries: &'a [Entry], regions: &'a [Region], vast: &'a [LongText]) -> Self
        requires { AllThere regions.now vast.now entries.now }
        ensures { result ≡ texts_of regions.now vast.now entries.now }
    {
        Strings {
            entries,
            regions,
            vast,
            keys: PhantomData,
        }
    }

    /// Passes over `n` texts from the front and gives the next. If no more than `n` are left, it gives
    /// `None`, and none is left then.
    ///
    /// ```rust
    /// let rodeo: SpurRodeo = Rodeo::from_iter(rt.alloc(), ["red", "green", "blue"])?;
    /// let mut ahead = rodeo.strings();
    /// assert!(rt; ahead.nth(1) == Some("green"));
    /// assert!(rt; ahead.next() == Some("blue"));
    /// ```
    pub fn nth(&mut self, n: usize) -> Option<&'a str>
        ensures rest { self.new ≡ drop (n + 1) self.old }
        ensures text { option_map (λ t. t.now) result ≡ slice_get self.old n }
    {
        let entries = self.entries;
        if n < entries.len() {
            let text = text_of(self.regions, self.vast, &entries[n]);
            let (_, rest) = entries.split_at(n + 1);
            self.entries = rest;
            Some(text)
        } else {
            self.entries = &[];
            None
        }
    }

    /// Passes over `n` texts from the back and gives the next. If no more than `n` are left, it gives
    /// `None`, and none is left then.
    ///
    /// ```rust
    /// let rodeo: SpurRodeo = Rodeo::from_iter(rt.alloc(), ["red", "green", "blue"])?;
    /// let mut behind = rodeo.strings();
    /// assert!(rt; behind.nth_back(1) == Some("green"));
    /// assert!(rt; behind.next_back() == Some("red"));
    /// ```
    pub fn nth_back(&mut self, n: usize) -> Option<&'a str>
        ensures rest { self.new ≡ take (length self.old - (n + 1)) self.old }
        ensures text { n < length self.old → option_map (λ t. t.now) result ≡ slice_get self.old (length self.old - (n + 1)) }
        ensures ended { length self.old ≤ n → result ≡ None }
    {
        let entries = self.entries;
        if n < entries.len() {
            let at = entries.len() - 1 - n;
            self.entries = &entries[..at];
            Some(text_of(self.regions, self.vast, &entries[at]))
        } else {
            self.entries = &[];
            None
        }
    }
}

impl<'a, K: Key> Iterator for Strings<'a, K> {
    type Item = &'a str;

    ghost next_gives = { YieldsFirstBy (λ t. t.now) (λ texts. texts) };

    ghost remaining = { item_count (λ texts. texts) };

    fn next(&mut self) -> Option<&'a str> {
        let entries = self.entries;
        if entries.is_empty() {
            return None;
        }
        self.entries = &entries[1..];
        Some(text_of(self.regions, self.vast, &entries[0]))
    }

    fn size_hint(&self) -> (usize, Option<usize>)
        ensures lower { IsWithinCount result.0 (at_most (length self.now)) }
        ensures upper { IfSome result.1 (UpTo (at_most (length self.now))) }
        ensures least { result.0 ≡ length self.now }
        ensures most { result.1 ≡ Some (length self.now) }
    {
        (self.entries.len(), Some(self.entries.len()))
    }
}

impl<'a, K: Key> DoubleEndedIterator for Strings<'a, K> {
    ghost next_back_gives = { YieldsLastBy (λ t. t.now) (λ texts. texts) };

    fn next_back(&mut self) -> Option<&'a str> {
        let entries = self.entries;
        if entries.is_empty() {
            return None;
        }
        let last = entries.len() - 1;
        self.entries = &entries[..last];
        Some(text_of(self.regions, self.vast, &entries[last]))
    }
}

impl<'a, K: Key> ExactSizeIterator for Strings<'a, K> {
    fn len(&self) -> usize {
        self.entries.len()
    }
}

impl<'a, K: Key> FusedIterator for Strings<'a, K> {}

impl<'a, K: Key> Clone for Strings<'a, K> {
    ghost is_clone = { λ walk copy. copy ≡ walk };

    ghost is_infallible = { λ _. Unit {0} };

    fn clone(&self) -> Result<Self, AllocError> {
        Ok(Strings {
            entries: self.entries,
            regions: self.regions,
            vast: self.vast,
            keys: PhantomData,
        })
    }
}

impl<'a, K: Key> fmt::Debug for Strings<'a, K> {
    fn fmt<W: fmt::Write>(&self, f: &mut fmt::Formatter<W>) -> fmt::Result {
        f.debug_list().entries(self.clone().unwrap()).finish()
    }
}

/// A walk over texts and their keys, in the order of the keys. Contracts see it as the list of the texts that
/// are left, each after its key's number.
///
/// ```rust
/// let rodeo: SpurRodeo = Rodeo::from_iter(rt.alloc(), ["red", "green", "blue"])?;
/// for (key, text) in &rodeo {
///     assert!(rt; rodeo.try_resolve(key) == Some(text));
/// }
/// ```
#[derive(Drop)]
pub struct Iter<'a, K: Key> {
    strings: Strings<'a, K>,
    first: usize,
}

impl<'a, K: Key> Model for Iter<'a, K> {
    ghost use Rattle.std.specs.Prelude.{ℕ, ◌+◌, ◌<◌, ◌^◌, List, length};
    ghost use Rattle.std.specs.List.{enumerate_from};
    ghost use Rattle.lasso_parts.specs.Texts.{Text, Fits};

    ghost Value = { List (ℕ × Text) };

    ghost view = { λ s. enumerate_from s.first s.strings };

    ghost invariant = { λ s. (s.first + length s.strings < 2 ^ 64) × Fits K.key_at (s.first + length s.strings) };
}

#[tactic(auto, using(crate::proofs::Walks::walk_steps))]
impl<'a, K: Key> Iter<'a, K> {
    /// A walk over the texts of all the entries, numbered from 0. Each entry must be there among the
    /// regions, and each of the numbers must have a key.
    pub fn new(entries: &'a [Entry], regions: &'a [Region], vast: &'a [LongText]) -> Self
        requires there { AllThere regions.now vast.now entries.now }
        requires fits { Fits K.key_at (length entries.now) }
        ensures { result ≡ enumerate_from 0 (texts_of regions.now vast.now entries.now) }
    {
        Iter {
            strings: Strings::new(entries, regions, vast),
            first: 0,
        }
    }

    /// Passes over `n` texts from the front and gives the next and its key. If no more than `n` are
    /// left, it gives `None`, and none is left then.
    ///
    /// ```rust
    /// let rodeo: SpurRodeo = Rodeo::from_iter(rt.alloc(), ["red", "green", "blue"])?;
    /// let green = rodeo.get("green").ok_or("not there")?;
    /// let mut ahead = rodeo.iter();
    /// assert!(rt; ahead.nth(1) == Some((green, "green")));
    /// assert!(rt; ahead.nth(1) == None);
    /// ```
    pub fn nth(&mut self, n: usize) -> Option<(K, &'a str)>
        ensures rest { self.new ≡ drop (n + 1) self.old }
        ensures item { option_map (λ x. (K.number x.0, x.1.now)) result ≡ slice_get self.old n }
    {
        let text = self.strings.nth(n)?;
        let number = self.first + n;
        self.first = number + 1;
        Some((key_of(number), text))
    }

    /// Passes over `n` texts from the back and gives the next and its key. If no more than `n` are
    /// left, it gives `None`, and none is left then.
    pub fn nth_back(&mut self, n: usize) -> Option<(K, &'a str)>
        ensures rest { self.new ≡ take (length self.old - (n + 1)) self.old }
        ensures item { n < length self.old → option_map (λ x. (K.number x.0, x.1.now)) result ≡ slice_get self.old (length self.old - (n + 1)) }
        ensures ended { length self.old ≤ n → result ≡ None }
    {
        let text = self.strings.nth_back(n)?;
        Some((key_of(self.first + self.strings.len()), text))
    }
}

#[tactic(auto, using(crate::proofs::Walks::walk_steps))]
impl<'a, K: Key> Iterator for Iter<'a, K> {
    type Item = (K, &'a str);

    ghost next_gives = { YieldsFirstBy (λ x. (K.number x.0, x.1.now)) (λ items. items) };

    ghost remaining = { item_count (λ items. items) };

    fn next(&mut self) -> Option<(K, &'a str)> {
        let text = self.strings.next()?;
        let number = self.first;
        self.first = number + 1;
        Some((key_of(number), text))
    }

    fn size_hint(&self) -> (usize, Option<usize>)
        ensures lower { IsWithinCount result.0 (at_most (length self.now)) }
        ensures upper { IfSome result.1 (UpTo (at_most (length self.now))) }
        ensures least { result.0 ≡ length self.now }
        ensures most { result.1 ≡ Some (length self.now) }
    {
        self.strings.size_hint()
    }
}

#[tactic(auto, using(crate::proofs::Walks::walk_steps))]
impl<'a, K: Key> DoubleEndedIterator for Iter<'a, K> {
    ghost next_back_gives = { YieldsLastBy (λ x. (K.number x.0, x.1.now)) (λ items. items) };

    fn next_back(&mut self) -> Option<(K, &'a str)> {
        let text = self.strings.next_back()?;
        Some((key_of(self.first + self.strings.len()), text))
    }
}

#[tactic(auto, using(crate::proofs::Walks::walk_steps))]
impl<'a, K: Key> ExactSizeIterator for Iter<'a, K> {
    fn len(&self) -> usize {
        self.strings.len()
    }
}

impl<'a, K: Key> FusedIterator for Iter<'a, K> {}

impl<'a, K: Key> Clone for Iter<'a, K> {
    ghost is_clone = { λ walk copy. copy ≡ walk };

    ghost is_infallible = { λ _. Unit {0} };

    fn clone(&self) -> Result<Self, AllocError> {
        Ok(Iter {
            strings: self.strings.clone()?,
            first: self.first,
        })
    }
}

impl<'a, K: Key + fmt::Debug> fmt::Debug for Iter<'a, K> {
    fn fmt<W: fmt::Write>(&self, f: &mut fmt::Formatter<W>) -> fmt::Result {
        f.debug_map().entries(self.clone().unwrap()).finish()
    }
}

// The key of a number that has one.
fn key_of<K: Key>(number: usize) -> K
    requires { IsSome (K.key_at number) }
    ensures { K.number result ≡ number }
{
    K::try_from_usize(number).unwrap()
}
