//! `Rodeo`, the interner for one thread.
ghost use Rattle.std.specs.Prelude.{◌≡◌, ◌==◌, ◌+◌, ◌*◌, ◌<◌, ◌≤◌, ◌↔◌, false, length, Some};
ghost use Rattle.std.specs.Prelude.{is_some, IsTrue, slice_get, option_map};
ghost use Rattle.lasso_parts.specs.Texts.{position_of, key_of, IsDistinct, Fits};
ghost use Rattle.lasso_single.specs.Interner.{HaveEntriesOf, most_copied};

mod batches;
mod changes;
mod clones;
mod copying;
mod filling;
mod freezing;
mod from_static;
mod guessing;
mod interning;
mod json;
mod makers;
mod walking;

use crate::text_list::TextList;
use lasso_parts::index::{Index, Texts};
use lasso_parts::keys::Key;
use std::alloc::Allocator;
use std::fmt;
use std::hash::BuildHasher;
use std::marker::Model;

/// An interner for one thread: a list of distinct texts, in which a text at position n has the key of number
/// n, and an account of the memory that the texts take. Contracts see the texts, the account, the bytes of
/// the first bucket, the bytes copied in since the last clear, the most that were copied in between two
/// clears so far, and whether there was a clear.
pub struct Rodeo<K: Key, S: BuildHasher, A: Allocator> {
    list: TextList<A>,
    index: Index<K, A>,
    hasher: S,
}

impl<K: Key, S: BuildHasher, A: Allocator> Model for Rodeo<K, S, A> {
    ghost use Rattle.std.specs.Prelude.{length};
    ghost use Rattle.lasso_parts.specs.Hashing.{hash_by};
    ghost use Rattle.lasso_parts.specs.Index.{IsIndexOf};
    ghost use Rattle.lasso_parts.specs.Texts.{Fits};
    ghost use Rattle.lasso_single.specs.Interner.{InternerView};

    ghost Value = { InternerView };

    ghost view = { λ r. r.list };

    ghost invariant = { λ r. IsIndexOf (hash_by S.BuildHasher S.Hasher.Hasher r.hasher) r.list.texts r.index × Fits K.key_at (length r.list.texts) };
}

// One call, so that proofs of callers see nothing of the fields where an interner is dropped.
impl<K: Key, S: BuildHasher + Drop, A: Allocator> Drop for Rodeo<K, S, A> {
    fn drop(self) {
        let Rodeo {
            list: _,
            index: _,
            hasher: _,
        } = self;
    }
}

impl<K: Key, S: BuildHasher, A: Allocator> Rodeo<K, S, A> {
    /// The key of the text, or `None` if it is absent.
    ///
    /// ```rust
    /// let mut rodeo = Rodeo::default(rt.alloc())?;
    /// let hello = rodeo.try_get_or_intern("Hello, world!")?;
    /// assert!(rt; rodeo.get("Hello, world!") == Some(hello));
    /// assert!(rt; rodeo.get("Hello").is_none());
    /// ```
    #[tactic(auto, using(lasso_parts::proofs::TextLemmas::key_of_present))]
    pub fn get(&self, text: &str) -> Option<K>
        ensures value { result ≡ key_of K.key_at self.now.texts text.now }
        ensures present { is_some result ≡ is_some (position_of self.now.texts text.now) }
    {
        let position = self.index.find(&self.list, &self.hasher, text)?;
        K::try_from_usize(position)
    }

    /// Whether the text is present.
    ///
    /// ```rust
    /// let mut rodeo = Rodeo::default(rt.alloc())?;
    /// rodeo.extend(["red", "green", "red"])?;
    /// assert!(rt; rodeo.contains("green"));
    /// assert!(rt; !rodeo.contains("blue"));
    /// ```
    pub fn contains(&self, text: &str) -> bool
        ensures { result ≡ is_some (position_of self.now.texts text.now) }
    {
        self.get(text).is_some()
    }

    /// Whether the key stands for a text of this interner.
    ///
    /// ```rust
    /// let mut rodeo = Rodeo::default(rt.alloc())?;
    /// let hello = rodeo.try_get_or_intern("Hello, world!")?;
    /// assert!(rt; rodeo.contains_key(hello));
    /// let next = Spur::try_from_usize(1).ok_or("no key")?;
    /// assert!(rt; !rodeo.contains_key(next));
    /// ```
    pub fn contains_key(&self, key: K) -> bool
        ensures { IsTrue result ↔ (K.number key < length self.now.texts) }
    {
        key.into_usize() < self.list.len()
    }

    /// The key's text, or `None` if the key stands for no text of this interner.
    ///
    /// ```rust
    /// let mut rodeo = Rodeo::default(rt.alloc())?;
    /// let hello = rodeo.try_get_or_intern("Hello, world!")?;
    /// assert!(rt; rodeo.try_resolve(hello) == Some("Hello, world!"));
    /// let next = Spur::try_from_usize(1).ok_or("no key")?;
    /// assert!(rt; rodeo.try_resolve(next) == None);
    /// ```
    pub fn try_resolve(&self, key: K) -> Option<&str>
        ensures { option_map (λ t. t.now) result ≡ slice_get self.now.texts (K.number key) }
    {
        self.list.get(key.into_usize())
    }

    /// The key's text. The key must stand for a text of this interner: `contains_key` is the test.
    ///
    /// ```rust
    /// let mut rodeo = Rodeo::default(rt.alloc())?;
    /// let hello = rodeo.try_get_or_intern("Hello, world!")?;
    /// assert!(rt; rodeo.contains_key(hello));
    /// assert!(rt; rodeo.resolve(hello) == "Hello, world!");
    /// ```
    pub fn resolve(&self, key: K) -> &str
        requires { K.number key < length self.now.texts }
        ensures { slice_get self.now.texts (K.number key) ≡ Some result.now }
    {
        self.list.text_at(key.into_usize())
    }

    /// The key's text: the same call as `resolve`, with the same condition.
    ///
    /// ```rust
    /// let mut rodeo = Rodeo::default(rt.alloc())?;
    /// let hello = rodeo.try_get_or_intern("Hello, world!")?;
    /// assert!(rt; rodeo.contains_key(hello));
    /// assert!(rt; rodeo.resolve_unchecked(hello) == "Hello, world!");
    /// ```
    pub fn resolve_unchecked(&self, key: K) -> &str
        requires { K.number key < length self.now.texts }
        ensures { slice_get self.now.texts (K.number key) ≡ Some result.now }
    {
        self.resolve(key)
    }

    /// The number of texts.
    ///
    /// ```rust
    /// let mut rodeo = Rodeo::default(rt.alloc())?;
    /// rodeo.extend(["red", "green", "red"])?;
    /// assert!(rt; rodeo.len() == 2);
    /// ```
    pub fn len(&self) -> usize
        ensures value { result ≡ length self.now.texts }
        ensures distinct { IsDistinct self.now.texts }
        ensures fits { Fits K.key_at (length self.now.texts) }
    {
        self.list.len()
    }

    /// Whether there is no text.
    ///
    /// ```rust
    /// let mut rodeo = Rodeo::default(rt.alloc())?;
    /// assert!(rt; rodeo.is_empty());
    /// rodeo.extend(["red", "green", "red"])?;
    /// assert!(rt; !rodeo.is_empty());
    /// ```
    pub fn is_empty(&self) -> bool
        ensures { result ≡ (length self.now.texts == 0) }
    {
        self.list.len() == 0
    }

    /// How many texts fit before the list grows; at least `len()`.
    ///
    /// ```rust
    /// let colours = ["red", "green", "red", "blue"];
    /// let rodeo: SpurRodeo = Rodeo::from_iter(rt.alloc(), colours)?;
    /// assert!(rt; rodeo.capacity() >= 3);
    /// ```
    pub fn capacity(&self) -> usize
        ensures { length self.now.texts ≤ result }
    {
        self.list.capacity()
    }

    /// The most bytes that all buckets may take.
    ///
    /// ```rust
    /// let rodeo = Rodeo::default(rt.alloc())?;
    /// assert!(rt; rodeo.max_memory_usage() == usize::MAX);
    /// ```
    pub fn max_memory_usage(&self) -> usize
        ensures { result ≡ self.now.account.limit }
    {
        self.list.max_memory_usage()
    }

    /// The bytes that all buckets take. They are at most the first bucket and eight times the most bytes
    /// that were copied in between two clears, whatever limits were set; the time before the first clear and
    /// that after the last count too, and a copy over this interner counts as a clear. If it was never
    /// cleared, they are at most the first bucket and four times the bytes copied in.
    ///
    /// ```rust
    /// let mut rodeo: SpurRodeo = Rodeo::with_capacity(rt.alloc(), Capacity::for_bytes(10))?;
    /// rodeo.try_get_or_intern("0123456789")?;
    /// assert!(rt; rodeo.current_memory_usage() == 10);
    /// rodeo.try_get_or_intern("more")?;
    /// assert!(rt; rodeo.current_memory_usage() == 30);
    /// ```
    pub fn current_memory_usage(&self) -> usize
        ensures usage { result ≡ self.now.account.usage }
        ensures bound { result ≤ self.now.first + 8 * most_copied self.now }
        ensures waste { self.now.is_cleared ≡ false → result ≤ self.now.first + 4 * self.now.copied }
    {
        self.list.memory_usage()
    }
    /// How many bytes the allocator gave for the list of texts, the index and the buckets. Those of
    /// `current_memory_usage` are among them.
    ///
    /// ```rust
    /// let rodeo = Rodeo::default(rt.alloc())?;
    /// assert!(rt; rodeo.allocated_bytes() > rodeo.current_memory_usage());
    /// ```
    pub fn allocated_bytes(&self) -> usize
        ensures usage { self.now.account.usage ≤ result }
        ensures entries { HaveEntriesOf self.now.texts result }
    {
        self.list
            .allocated_bytes()
            .saturating_add(self.index.allocated_bytes())
    }

    /// Writes the texts and the numbers of the arena as debug text of a struct with that name. The index and
    /// the hasher are left out.
    pub(crate) fn debug_as<W: fmt::Write>(
        &self,
        name: &str,
        f: &mut fmt::Formatter<W>,
    ) -> fmt::Result {
        f.debug_struct(name)
            .field("strings", &self.strings())
            .field("arena", self.list.arena())
            .finish_non_exhaustive()
    }
}

impl<K: Key, S: BuildHasher, A: Allocator> fmt::Debug for Rodeo<K, S, A> {
    fn fmt<W: fmt::Write>(&self, f: &mut fmt::Formatter<W>) -> fmt::Result {
        self.debug_as("Rodeo", f)
    }
}
