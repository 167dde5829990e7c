//! Clones of a `Rodeo`, and copies of one over another.
ghost use Rattle.std.specs.Prelude.{◌≡◌, ◌≤◌, ◌^◌, ◌⊎◌, [], None, Some, Err, true, IfOk, IfErr, OnOk, OnErr, IsSome, IsSomeAnd, length, slice_get};
ghost use Rattle.lasso_parts.specs.Account.{clear, store};
ghost use Rattle.lasso_parts.specs.declared.util.LassoErrorKind.TheVariants.{FailedAllocation, MemoryLimitReached};
ghost use Rattle.lasso_single.specs.Copies.{bytes_of, clone_of, clone_size, store_all, ClearsAgain, ClonesInto};
ghost use Rattle.lasso_single.specs.Interner.{IsMadeWith, most_copied};

use super::Rodeo;
use crate::list_copies::copy_all;
use crate::room::one_bucket;
use lasso_parts::index::Index;
use lasso_parts::keys::Key;
use lasso_parts::util::{LassoResult, MemoryLimits};
use std::alloc::Allocator;
use std::hash::BuildHasher;

impl<K: Key, S: BuildHasher + Clone, A: Allocator + Clone> Rodeo<K, S, A> {
    /// An interner with the same texts under the same keys, all copied, static ones too, into one bucket of
    /// just their bytes (4096 if they have none). Its limit is this one's, or that size if it is
    /// greater. Its index asks a clone of the hasher. No limit refuses it: the only error is
    /// `FailedAllocation`, also when a `usize` can't count the texts' bytes.
    ///
    /// ```rust
    /// let mut rodeo = Rodeo::default(rt.alloc())?;
    /// let hello = rodeo.try_get_or_intern("Hello, world!")?;
    /// let copy = rodeo.try_clone()?;
    /// assert!(rt; copy == rodeo);
    /// assert!(rt; copy.try_resolve(hello) == Some("Hello, world!"));
    /// assert!(rt; copy.current_memory_usage() == 13);
    /// ```
    pub fn try_clone(&self) -> LassoResult<Self>
        // On success the clone has the same texts in one bucket of their bytes. Its limit is this one's, or that size if it is greater.
        ensures texts { IfOk result (λ r. r.texts ≡ self.now.texts) }
        ensures account { IfOk result (λ r. clone_of self.now.texts self.now.account.limit ≡ Some r.account) }
        ensures made { IfOk result (IsMadeWith (clone_size self.now.texts) (bytes_of self.now.texts)) }

        // The error is always that memory ran out. It is certain if a `usize` can't count the texts' bytes.
        ensures refused { IfErr result (λ error. error ≡ FailedAllocation) }
        ensures overflow { 2 ^ 64 ≤ bytes_of self.now.texts → result ≡ Err FailedAllocation }
    {
        let len = self.len();
        let capacity = one_bucket(self, len)?;
        let limit = self.list.max_memory_usage().max(capacity.bytes());
        let limits = MemoryLimits::new(limit);
        let hasher = self.hasher.clone()?;
        let alloc = self.list.allocator().clone()?;
        let mut copy = Rodeo::with_capacity_memory_limits_and_hasher(
            alloc, capacity, limits, hasher,
        )?;
        match copy_all(&mut copy, self, len) {
            Ok(()) => Ok(copy),
            Err(error) => Err(error),
        }
    }

    /// An interner with the same texts under the same keys: the same call as `try_clone`, with the same
    /// refusals.
    ///
    /// ```rust
    /// let mut rodeo = Rodeo::default(rt.alloc())?;
    /// let hello = rodeo.try_get_or_intern("Hello, world!")?;
    /// let mut other = rodeo.clone()?;
    /// other.try_get_or_intern("Goodbye!")?;
    /// assert!(rt; other != rodeo);
    /// assert!(rt; other.try_resolve(hello) == Some("Hello, world!"));
    /// ```
    pub fn clone(&self) -> LassoResult<Self>
        // On success the clone has the same texts in one bucket of their bytes. Its limit is this one's, or that size if it is greater.
        ensures texts { IfOk result (λ r. r.texts ≡ self.now.texts) }
        ensures account { IfOk result (λ r. clone_of self.now.texts self.now.account.limit ≡ Some r.account) }
        ensures made { IfOk result (IsMadeWith (clone_size self.now.texts) (bytes_of self.now.texts)) }

        // The error is always that memory ran out. It is certain if a `usize` can't count the texts' bytes.
        ensures refused { IfErr result (λ error. error ≡ FailedAllocation) }
        ensures overflow { 2 ^ 64 ≤ bytes_of self.now.texts → result ≡ Err FailedAllocation }
    {
        self.try_clone()
    }

    /// Forgets every text, as `clear` does, and copies those of the source here under the same keys, static
    /// ones too, into this interner's own buckets and under its own limit. Its index then asks a clone of the
    /// source's hasher; after a refusal, that one or its own. If the limit has no room for a text, or it runs
    /// out of memory, it stops there and clears again: there is no text then. The bytes copied count as after
    /// a clear.
    ///
    /// ```rust
    /// let rodeo: SpurRodeo = Rodeo::from_iter(rt.alloc(), ["red", "green"])?;
    /// let mut copy: SpurRodeo = Rodeo::from_iter(rt.alloc(), ["blue"])?;
    /// copy.try_clone_from(&rodeo)?;
    /// assert!(rt; copy == rodeo);
    /// assert!(rt; !copy.contains("blue"));
    /// ```
    pub fn try_clone_from(&mut self, source: &Self) -> LassoResult<()>
        // On success it has just the source's texts, stored after a clear in its own buckets under its own limit. `most` is the record of
        // the most bytes copied in between two clears.
        ensures texts { OnOk result (self.new.texts ≡ source.now.texts) }
        ensures account { OnOk result (store_all self.old.first (clear self.old.first self.old.account) source.now.texts ≡ Some self.new.account) }
        ensures copied { OnOk result (self.new.copied ≡ bytes_of source.now.texts) }
        ensures most { OnOk result (self.new.most ≡ most_copied self.old) }

        // In each case the first bucket's size stays, and the interner counts as once cleared.
        ensures first { self.new.first ≡ self.old.first }
        ensures mark { self.new.is_cleared ≡ true }

        // On failure no text is left: those stored so far were cleared again. The account is what that leaves, and their bytes count in `most`.
        // Either the limit has no room for the next text; or memory ran out, before the first text or for one that the limit has room for.
        ensures reason { IfErr result (λ error. (error ≡ MemoryLimitReached) ⊎ (error ≡ FailedAllocation)) }
        ensures emptied { OnErr result (self.new.texts ≡ []) }
        ensures uncopied { OnErr result (self.new.copied ≡ 0) }
        ensures limit { result ≡ Err MemoryLimitReached → ClearsAgain self.old self.new source.now.texts
            (λ j account. IsSomeAnd (slice_get source.now.texts j) (λ text. store self.old.first account (length text) ≡ None)) }
        ensures memory { result ≡ Err FailedAllocation → ClearsAgain self.old self.new source.now.texts
            (λ j account. (j ≡ 0) ⊎ IsSomeAnd (slice_get source.now.texts j) (λ text. IsSome (store self.old.first account (length text)))) }

        // The same facts as one relation
        ensures all { ClonesInto self.old source.now.texts result self.new }
    {
        self.clone_over(source)
    }

    // The call with its contract in one clause.
    #[inline(always)]
    fn clone_over(&mut self, source: &Self) -> LassoResult<()>
        ensures { ClonesInto self.old source.now.texts result self.new }
    {
        self.clear();
        self.make_room_for(source)?;
        let len = source.len();
        if let Err(error) = copy_all(self, source, len) {
            self.clear();
            return Err(error);
        }
        Ok(())
    }

    /// Copies the texts of the source over those here: the same call as `try_clone_from`, with the same
    /// refusals.
    ///
    /// ```rust
    /// let rodeo: SpurRodeo = Rodeo::from_iter(rt.alloc(), ["red", "green"])?;
    /// let mut copy: SpurRodeo = Rodeo::from_iter(rt.alloc(), ["blue"])?;
    /// copy.clone_from(&rodeo)?;
    /// assert!(rt; copy == rodeo);
    /// ```
    pub fn clone_from(&mut self, source: &Self) -> LassoResult<()>
        // On success it has just the source's texts, stored after a clear in its own buckets under its own limit. `most` is the record of
        // the most bytes copied in between two clears.
        ensures texts { OnOk result (self.new.texts ≡ source.now.texts) }
        ensures account { OnOk result (store_all self.old.first (clear self.old.first self.old.account) source.now.texts ≡ Some self.new.account) }
        ensures copied { OnOk result (self.new.copied ≡ bytes_of source.now.texts) }
        ensures most { OnOk result (self.new.most ≡ most_copied self.old) }

        // In each case the first bucket's size stays, and the interner counts as once cleared.
        ensures first { self.new.first ≡ self.old.first }
        ensures mark { self.new.is_cleared ≡ true }

        // On failure no text is left: those stored so far were cleared again. The account is what that leaves, and their bytes count in `most`.
        // Either the limit has no room for the next text; or memory ran out, before the first text or for one that the limit has room for.
        ensures reason { IfErr result (λ error. (error ≡ MemoryLimitReached) ⊎ (error ≡ FailedAllocation)) }
        ensures emptied { OnErr result (self.new.texts ≡ []) }
        ensures uncopied { OnErr result (self.new.copied ≡ 0) }
        ensures limit { result ≡ Err MemoryLimitReached → ClearsAgain self.old self.new source.now.texts
            (λ j account. IsSomeAnd (slice_get source.now.texts j) (λ text. store self.old.first account (length text) ≡ None)) }
        ensures memory { result ≡ Err FailedAllocation → ClearsAgain self.old self.new source.now.texts
            (λ j account. (j ≡ 0) ⊎ IsSomeAnd (slice_get source.now.texts j) (λ text. IsSome (store self.old.first account (length text)))) }

        // The same facts as one relation
        ensures all { ClonesInto self.old source.now.texts result self.new }
    {
        self.try_clone_from(source)
    }

    // Takes a clone of the source's hasher, and room for its texts in the list and in a new index. There
    // must be no text.
    fn make_room_for(&mut self, source: &Self) -> LassoResult<()>
        requires { self.old.texts ≡ [] }
        ensures same { self.new ≡ self.old }
        ensures refused { IfErr result (λ error. error ≡ FailedAllocation) }
    {
        let hasher = source.hasher.clone()?;
        let alloc = self.list.allocator().clone()?;
        let index = Index::with_capacity(alloc, source.list.len())?;
        self.list.reserve(source.list.len())?;
        self.hasher = hasher;
        self.index = index;
        Ok(())
    }
}
