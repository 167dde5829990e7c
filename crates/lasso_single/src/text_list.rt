//! `TextList`: the texts of an interner in order, over the memory that holds them.
ghost use Rattle.std.specs.Prelude.{◌≡◌, ◌+◌, ◌*◌, ◌^◌, ◌<◌, ◌≤◌, ◌↔◌, ◌++◌, [], ◌∷◌, true, false, length};
ghost use Rattle.std.specs.Prelude.{IsTrue, IsSome, Some, Err, IfOk, IfErr, OnOk, OnErr, slice_get, option_map, map};
ghost use Rattle.std.specs.List.{enumerate_from};
ghost use Rattle.std.specs.Vec.{vec_len, vec_capacity};
ghost use Rattle.lasso_parts.specs.Entries.{Inside};
ghost use Rattle.lasso_parts.specs.Account.{fresh, store, clear, with_limit};
ghost use Rattle.lasso_parts.specs.Texts.{Fits};
ghost use Rattle.lasso_single.specs.Copies.{bytes_of, clone_size, read_of};
ghost use Rattle.lasso_single.specs.Equality.{texts_eq};
ghost use Rattle.lasso_single.specs.Interner.{IsMadeWith, KeepsOrigin, most_copied};
ghost use Rattle.lasso_single.specs.KeyLists.{AddsTexts, HaveTexts};
ghost use Rattle.lasso_parts.specs.declared.util.LassoErrorKind.TheVariants.{FailedAllocation};

mod memory;

use crate::list_copies::{CopyTarget, copy_all};
use crate::room::one_bucket;
use lasso_parts::arena::Arena;
use lasso_parts::entries::long::{LongText, is_vast};
use lasso_parts::entries::short::{SHORT, ShortText};
use lasso_parts::entries::{Entry, text_of};
use lasso_parts::index::Texts;
use lasso_parts::iter::{Iter, Strings};
use lasso_parts::keys::Key;
use lasso_parts::util::{Capacity, LassoError, LassoErrorKind, LassoResult, MemoryLimits};
use std::alloc::Allocator;
use std::marker::Model;

/// A list of texts that grows at its end, and the arena that holds the copied ones. Contracts see the
/// texts, the account of the memory, the first bucket's bytes, the bytes copied in since the last clear,
/// the most before it in between two clears, and whether there was one. If there was none, at most the
/// first bucket and four times the bytes copied in are taken; always at most the first bucket and eight
/// times the most bytes copied in between two clears.
#[derive(Drop)]
pub(crate) struct TextList<A: Allocator> {
    entries: Vec<Entry, A>,
    vast: Vec<LongText, A>,
    arena: Arena<A>,
    is_cleared: bool,
}

impl<A: Allocator> Model for TextList<A> {
    ghost use Rattle.lasso_parts.specs.Entries.{texts_of, AllThere};
    ghost use Rattle.lasso_single.specs.Interner.{InternerView, interner_over, IsThriftyUnlessCleared};

    ghost Value = { InternerView };

    ghost view = { λ l. interner_over (texts_of l.arena.all l.vast.items l.entries.items) l.arena l.is_cleared };

    ghost invariant = { λ l. AllThere l.arena.all l.vast.items l.entries.items × IsThriftyUnlessCleared l.is_cleared l.arena };
}

impl<A: Allocator> Texts for TextList<A> {
    ghost list = { λ l. l.texts };

    #[inline]
    fn text_at(&self, position: usize) -> &str {
        let regions = self.arena.regions();
        text_of(regions, self.vast.as_slice(), &self.entries[position])
    }
}

impl<A: Allocator + Clone> CopyTarget for TextList<A> {
    ghost use Rattle.std.specs.Prelude.{⊤};

    ghost holds = { λ l. l };

    // equal texts too
    ghost takes = { λ _ _. ⊤ };

    fn copy_text(&mut self, text: &str) -> LassoResult<()> {
        if !self.admits(text.len()) {
            return Err(LassoError::new(LassoErrorKind::MemoryLimitReached));
        }
        self.push_copied(text)
    }
}

impl<A: Allocator + Clone> TextList<A> {
    /// An empty list. The only error is `FailedAllocation`.
    pub(crate) fn new(alloc: A, capacity: Capacity, limits: MemoryLimits) -> LassoResult<Self>
        ensures texts { IfOk result (λ l. l.texts ≡ []) }
        ensures account { IfOk result (λ l. l.account ≡ fresh capacity.bytes limits) }
        ensures made { IfOk result (IsMadeWith capacity.bytes 0) }
        ensures refused { IfErr result (λ error. error ≡ FailedAllocation) }
    {
        let entries = Vec::with_capacity(alloc.clone()?, capacity.strings())?;
        let vast = Vec::new(alloc.clone()?);
        let arena = Arena::new(alloc, capacity.bytes(), limits.max_memory_usage())?;
        Ok(TextList {
            entries,
            vast,
            arena,
            is_cleared: false,
        })
    }

    /// A list of the texts, in order, all copied into one bucket of just their bytes (4096 if they have
    /// none), with the limit `usize::MAX`. The only error is `FailedAllocation`, also when a `usize` can't
    /// count the texts' bytes.
    pub(crate) fn copy_of(alloc: A, texts: &[&str]) -> LassoResult<Self>
        ensures texts { IfOk result (λ l. l.texts ≡ map (λ t. t.now) texts.now) }
        ensures account { IfOk result (λ l. read_of (map (λ t. t.now) texts.now) ≡ Some l.account) }
        ensures made { let list = map (λ t. t.now) texts.now in IfOk result (IsMadeWith (clone_size list) (bytes_of list)) }
        ensures refused { IfErr result (λ error. error ≡ FailedAllocation) }
        ensures overflow { 2 ^ 64 ≤ bytes_of (map (λ t. t.now) texts.now) → result ≡ Err FailedAllocation }
    {
        let capacity = one_bucket(&texts, texts.len())?;
        let mut list = TextList::new(alloc, capacity, MemoryLimits::default())?;
        match copy_all(&mut list, &texts, texts.len()) {
            Ok(()) => Ok(list),
            Err(error) => Err(error),
        }
    }

    /// Copies a text to the end of the list. The limit must admit it. The only error is `FailedAllocation`,
    /// and nothing changes then.
    #[inline(always)]
    pub(crate) fn push_copied(&mut self, text: &str) -> LassoResult<()>
        requires { IsSome (store self.old.first self.old.account (length text.now)) }
        ensures texts { OnOk result (self.new.texts ≡ self.old.texts ++ text.now ∷ []) }
        ensures account { OnOk result (store self.old.first self.old.account (length text.now) ≡ Some self.new.account) }
        ensures copied { OnOk result (self.new.copied ≡ self.old.copied + length text.now) }
        ensures origin { KeepsOrigin self.old self.new }
        ensures refused { IfErr result (λ error. error ≡ FailedAllocation) }
        ensures same_texts { OnErr result (self.new.texts ≡ self.old.texts) }
        ensures same_account { OnErr result (self.new.account ≡ self.old.account) }
        ensures same_copied { OnErr result (self.new.copied ≡ self.old.copied) }
    {
        if self.push_in_room(text) {
            return Ok(());
        }
        self.push_growing(text)
    }

    /// Copies a text to the end of the list, out of line, if the list or a bucket may have to grow for it.
    #[inline(never)]
    pub(crate) fn push_growing(&mut self, text: &str) -> LassoResult<()>
        requires { IsSome (store self.old.first self.old.account (length text.now)) }
        ensures texts { OnOk result (self.new.texts ≡ self.old.texts ++ text.now ∷ []) }
        ensures account { OnOk result (store self.old.first self.old.account (length text.now) ≡ Some self.new.account) }
        ensures copied { OnOk result (self.new.copied ≡ self.old.copied + length text.now) }
        ensures origin { KeepsOrigin self.old self.new }
        ensures refused { IfErr result (λ error. error ≡ FailedAllocation) }
        ensures same_texts { OnErr result (self.new.texts ≡ self.old.texts) }
        ensures same_account { OnErr result (self.new.account ≡ self.old.account) }
        ensures same_copied { OnErr result (self.new.copied ≡ self.old.copied) }
    {
        if let Some(short) = ShortText::of(text) {
            self.entries.reserve(1)?;
            self.arena.store_str(text)?;
            self.entries.push_reserved(Entry::inside(short));
            return Ok(());
        }
        self.push_long(text)
    }

    // Copies a text that is not short to the end of the list.
    #[inline(never)]
    fn push_long(&mut self, text: &str) -> LassoResult<()>
        requires { IsSome (store self.old.first self.old.account (length text.now)) }
        ensures texts { OnOk result (self.new.texts ≡ self.old.texts ++ text.now ∷ []) }
        ensures account { OnOk result (store self.old.first self.old.account (length text.now) ≡ Some self.new.account) }
        ensures copied { OnOk result (self.new.copied ≡ self.old.copied + length text.now) }
        ensures origin { KeepsOrigin self.old self.new }
        ensures refused { IfErr result (λ error. error ≡ FailedAllocation) }
        ensures same_texts { OnErr result (self.new.texts ≡ self.old.texts) }
        ensures same_account { OnErr result (self.new.account ≡ self.old.account) }
        ensures same_copied { OnErr result (self.new.copied ≡ self.old.copied) }
    {
        self.entries.reserve(1)?;
        if is_vast(text.len()) {
            self.vast.reserve(1)?;
            let span = self.arena.store_str(text)?;
            let long = LongText::copied(self.arena.regions(), span);
            let index = self.vast.len();
            self.vast.push_reserved(long);
            self.entries.push_reserved(Entry::listed(index));
            return Ok(());
        }
        let span = self.arena.store_str(text)?;
        let long = LongText::copied(self.arena.regions(), span);
        self.entries.push_reserved(Entry::outside(long));
        Ok(())
    }
}

impl<A: Allocator> TextList<A> {
    /// Copies a text to the end of the list if neither the list nor a bucket grows for it, and returns whether it
    /// did. Else nothing changes. It takes no memory.
    #[inline(always)]
    pub(crate) fn push_in_room(&mut self, text: &str) -> bool
        ensures texts { IsTrue result → self.new.texts ≡ self.old.texts ++ text.now ∷ [] }
        ensures account { IsTrue result → store self.old.first self.old.account (length text.now) ≡ Some self.new.account }
        ensures copied { IsTrue result → self.new.copied ≡ self.old.copied + length text.now }
        ensures origin { KeepsOrigin self.old self.new }
        ensures same { result ≡ false → self.new ≡ self.old }
    {
        if self.entries.len() == self.entries.capacity() {
            return false;
        }
        if text.len() > SHORT {
            return self.push_long_in_room(text);
        }
        let Some(_span) = self.arena.store_in_room(text) else {
            return false;
        };
        push_short(&mut self.entries, text);
        true
    }

    // Copies a text that is not short to the end of the list if neither the list nor a bucket grows for it, and
    // returns whether it did.
    #[inline(always)]
    fn push_long_in_room(&mut self, text: &str) -> bool
        ensures texts { IsTrue result → self.new.texts ≡ self.old.texts ++ text.now ∷ [] }
        ensures account { IsTrue result → store self.old.first self.old.account (length text.now) ≡ Some self.new.account }
        ensures copied { IsTrue result → self.new.copied ≡ self.old.copied + length text.now }
        ensures origin { KeepsOrigin self.old self.new }
        ensures same { result ≡ false → self.new ≡ self.old }
    {
        if self.entries.len() == self.entries.capacity() || is_vast(text.len()) {
            return false;
        }
        let Some(span) = self.arena.store_in_room(text) else {
            return false;
        };
        let long = LongText::copied(self.arena.regions(), span);
        self.entries.push_reserved(Entry::outside(long));
        true
    }

    /// The number of texts.
    pub(crate) fn len(&self) -> usize
        ensures { result ≡ length self.now.texts }
    {
        self.entries.len()
    }

    /// The text at the position, or `None` past the end.
    pub(crate) fn get(&self, position: usize) -> Option<&str>
        ensures { option_map (λ t. t.now) result ≡ slice_get self.now.texts position }
    {
        if position < self.entries.len() {
            Some(self.text_at(position))
        } else {
            None
        }
    }

    /// Whether each key stands for a text of the list.
    pub(crate) fn contains_keys<K: Key>(&self, keys: &[K]) -> bool
        ensures { IsTrue result ↔ HaveTexts K.number self.now.texts keys.now }
    {
        for i in 0..keys.len() {
            if keys[i].into_usize() >= self.len() {
                return false;
            }
        }
        true
    }

    /// Appends to `texts` the text of each key in order. The only error is `FailedAllocation`, and `texts`
    /// has the same items then.
    pub(crate) fn resolve_all<'a, K: Key, B: Allocator>(
        &'a self,
        keys: &[K],
        texts: &mut Vec<&'a str, B>,
    ) -> LassoResult<()>
        requires { HaveTexts K.number self.now.texts keys.now }
        ensures texts { OnOk result (AddsTexts K.number self.now.texts keys.now texts.old.items texts.new.items) }
        ensures unchanged { OnErr result (texts.new.items ≡ texts.old.items) }
        ensures refused { IfErr result (λ error. (error ≡ FailedAllocation) × (vec_capacity texts.old < vec_len texts.old + length keys.now)) }
    {
        texts.reserve(keys.len())?;
        for i in 0..keys.len() {
            texts.push_reserved(self.text_at(keys[i].into_usize()));
        }
        Ok(())
    }

    /// Whether the limit admits a text of `len` bytes. It takes no memory.
    pub(crate) fn admits(&self, len: usize) -> bool
        ensures { IsTrue result ↔ IsSome (store self.now.first self.now.account len) }
    {
        self.arena.admits(len)
    }

    /// The bytes that all buckets take.
    pub(crate) fn memory_usage(&self) -> usize
        ensures usage { result ≡ self.now.account.usage }
        ensures waste { self.now.is_cleared ≡ false → result ≤ self.now.first + 4 * self.now.copied }
        ensures bound { result ≤ self.now.first + 8 * most_copied self.now }
    {
        self.arena.memory_usage()
    }

    /// The most bytes that all buckets may take.
    pub(crate) fn max_memory_usage(&self) -> usize
        ensures { result ≡ self.now.account.limit }
    {
        self.arena.max_memory_usage()
    }

    /// For how many texts there is room without another growth of the list, those there included.
    pub(crate) fn capacity(&self) -> usize
        ensures { length self.now.texts ≤ result }
    {
        self.entries.capacity()
    }

    /// A walk over the texts and their keys. Each position must have a key.
    pub(crate) fn iter<K: Key>(&self) -> Iter<'_, K>
        requires { Fits K.key_at (length self.now.texts) }
        ensures { result ≡ enumerate_from 0 self.now.texts }
    {
        let regions = self.arena.regions();
        Iter::new(self.entries.as_slice(), regions, self.vast.as_slice())
    }

    /// A walk over the texts.
    pub(crate) fn strings<K: Key>(&self) -> Strings<'_, K>
        ensures { result ≡ self.now.texts }
    {
        let regions = self.arena.regions();
        Strings::new(self.entries.as_slice(), regions, self.vast.as_slice())
    }

    /// Whether another list has the same texts in the same order.
    pub(crate) fn has_texts_of<B: Allocator>(&self, other: &TextList<B>) -> bool
        ensures value { result ≡ texts_eq self.now.texts other.now.texts }
        ensures same { IsTrue result ↔ (self.now.texts ≡ other.now.texts) }
    {
        let len = self.len();
        if len != other.len() {
            return false;
        }
        for position in 0..len {
            if self.text_at(position) != other.text_at(position) {
                return false;
            }
        }
        true
    }

    /// The allocator of the list.
    pub(crate) fn allocator(&self) -> &A {
        self.entries.allocator()
    }

    /// Makes room for `additional` more texts. The only error is `FailedAllocation`, and the list is the same
    /// then too.
    pub(crate) fn reserve(&mut self, additional: usize) -> LassoResult<()>
        ensures same { self.new ≡ self.old }
        ensures refused { IfErr result (λ error. error ≡ FailedAllocation) }
    {
        self.entries.reserve(additional)?;
        Ok(())
    }

    /// Puts a text at the end of the list as it is, with no copy. The only error is `FailedAllocation`, and
    /// nothing changes then.
    pub(crate) fn push_static(&mut self, text: &'static str) -> LassoResult<()>
        ensures texts { OnOk result (self.new.texts ≡ self.old.texts ++ text.now ∷ []) }
        ensures account { self.new.account ≡ self.old.account }
        ensures copied { self.new.copied ≡ self.old.copied }
        ensures origin { KeepsOrigin self.old self.new }
        ensures refused { IfErr result (λ error. error ≡ FailedAllocation) }
        ensures same_texts { OnErr result (self.new.texts ≡ self.old.texts) }
    {
        self.entries.reserve(1)?;
        if let Some(short) = ShortText::of(text) {
            self.entries.push_reserved(Entry::inside(short));
            return Ok(());
        }
        let long = LongText::from_static(text);
        if is_vast(text.len()) {
            self.vast.reserve(1)?;
            let index = self.vast.len();
            self.vast.push_reserved(long);
            self.entries.push_reserved(Entry::listed(index));
            return Ok(());
        }
        self.entries.push_reserved(Entry::outside(long));
        Ok(())
    }

    /// Sets the most bytes that all buckets may take. It may be below what they take already.
    pub(crate) fn set_limit(&mut self, limit: usize)
        ensures texts { self.new.texts ≡ self.old.texts }
        ensures account { self.new.account ≡ with_limit self.old.account limit }
        ensures copied { self.new.copied ≡ self.old.copied }
        ensures origin { KeepsOrigin self.old self.new }
    {
        self.arena.set_limit(limit);
    }

    /// Forgets every text. The first bucket and the doubled ones stay, and the others are given back.
    pub(crate) fn clear(&mut self)
        ensures texts { self.new.texts ≡ [] }
        ensures account { self.new.account ≡ clear self.old.first self.old.account }
        ensures copied { self.new.copied ≡ 0 }
        ensures most { self.new.most ≡ most_copied self.old }
        ensures first { self.new.first ≡ self.old.first }
        ensures mark { self.new.is_cleared ≡ true }
        ensures usage { self.new.account.usage ≤ self.old.account.usage }
    {
        self.is_cleared = true;
        self.entries.clear();
        self.vast.clear();
        self.arena.clear();
    }
}

// Puts a short text at the end of the entries, which have room for one more.
#[inline(always)]
fn push_short<A: Allocator>(entries: &mut Vec<Entry, A>, text: &str)
    requires room { vec_len entries.old < vec_capacity entries.old }
    requires short { length text.now ≤ SHORT }
    ensures { entries.new.items ≡ entries.old.items ++ Inside text.now ∷ [] }
{
    let last = entries.len();
    entries.push_reserved(Entry::inside(ShortText::empty()));
    entries[last].put(text);
}
