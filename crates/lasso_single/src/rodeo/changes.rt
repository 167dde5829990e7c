//! Changes of a `Rodeo` that add no text: another limit, and a clear.
ghost use Rattle.std.specs.Prelude.{◌≡◌, ◌+◌, ◌*◌, ◌≤◌, [], true, false};
ghost use Rattle.lasso_parts.specs.Account.{clear, with_limit};
ghost use Rattle.lasso_single.specs.Interner.{KeepsOrigin, most_copied};

use super::Rodeo;
use lasso_parts::keys::Key;
use lasso_parts::util::MemoryLimits;
use std::alloc::Allocator;
use std::hash::BuildHasher;

impl<K: Key, S: BuildHasher, A: Allocator> Rodeo<K, S, A> {
    /// Sets the most bytes that all buckets may take. It may be below what they take already: they stay,
    /// and texts that need another bucket are then refused. The texts stay.
    ///
    /// ```rust
    /// let mut rodeo: SpurRodeo = Rodeo::with_capacity(rt.alloc(), Capacity::for_bytes(4))?;
    /// rodeo.set_memory_limits(MemoryLimits::new(0));
    /// rodeo.try_get_or_intern("abc")?;
    /// let refusal = rodeo.try_get_or_intern("de").err().ok_or("not refused")?;
    /// assert!(rt; refusal.kind().is_memory_limit());
    /// ```
    pub fn set_memory_limits(&mut self, limits: MemoryLimits)
        // Only the limit changes.
        ensures texts { self.new.texts ≡ self.old.texts }
        ensures account { self.new.account ≡ with_limit self.old.account limits }
        ensures copied { self.new.copied ≡ self.old.copied }

        // What stays too: the first bucket's size, and the record of clears
        ensures origin { KeepsOrigin self.old self.new }
    {
        self.list.set_limit(limits.max_memory_usage());
    }

    /// Forgets every text. The first bucket and the doubled ones stay and are filled again, the first one
    /// first; those of exact size and those of what the limit left are given back. The limit and the size
    /// that the next growth doubles stay. A key from before has no text then, or a new one at its position.
    /// It takes no memory and can't fail. The buckets that stay take at most the first bucket and eight times
    /// the most bytes that were copied in between two clears; at the first clear, at most the first bucket
    /// and four times the bytes copied in before it.
    ///
    /// ```rust
    /// let mut rodeo: SpurRodeo = Rodeo::with_capacity(rt.alloc(), Capacity::for_bytes(10))?;
    /// let last = rodeo.try_get_or_intern("last")?;
    /// rodeo.clear();
    /// assert!(rt; rodeo.is_empty());
    /// assert!(rt; rodeo.try_resolve(last) == None);
    /// ```
    pub fn clear(&mut self)
        // No text is left. `most` is the record of the most bytes copied in between two clears.
        ensures texts { self.new.texts ≡ [] }
        ensures copied { self.new.copied ≡ 0 }
        ensures most { self.new.most ≡ most_copied self.old }
        ensures mark { self.new.is_cleared ≡ true }

        // What stays of the buckets, and its bounds
        ensures first { self.new.first ≡ self.old.first }
        ensures account { self.new.account ≡ clear self.old.first self.old.account }
        ensures bound { self.new.account.usage ≤ self.old.first + 8 * most_copied self.old }
        ensures waste { self.old.is_cleared ≡ false → self.new.account.usage ≤ self.old.first + 4 * self.old.copied }
    {
        // The interner's own bounds on waste hold of what is left too.
        let _usage = self.current_memory_usage();
        self.list.clear();
        self.index.clear();
    }
}
