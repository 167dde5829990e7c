//! Plain calls of an interner that threads share. Each is the call of some new pass, which is gone
//! afterwards. So a clause explains each reply by some legal history; what holds across calls is said
//! by the calls with a pass, and tested of these. A call that adds no event needs no pass at all: there is
//! always a number that no event of the history has.
ghost use Rattle.std.specs.Prelude.{◌≡◌, ◌≤◌, ℕ, Ok, option_map};
ghost use Rattle.lasso_log.specs.History.{IsOpening};
ghost use Rattle.lasso_log.specs.Replies.{Copied, Static, Intern, Get, Contains, ContainsKey, Resolve, Len, IsEmpty, Usage, MaxUsage, SetLimit};
ghost use Rattle.lasso_log.specs.Replies.{Interned, Found, Flag, Resolved, Number, Done};
ghost use Rattle.lasso_log.specs.Replies as replies;
ghost use Rattle.lasso_log.specs.Calls.{IsPlainCall};
ghost use Rattle.lasso_log.specs.Views.{InternerId};

use crate::shards::new_text::NewText;
use crate::threaded::{Iter, Strings, ThreadedRodeo};
use lasso_parts::keys::Key;
use lasso_parts::util::{LassoResult, MemoryLimits};
use std::hash::BuildHasher;
use std::sync::Wait;

impl<K: Key, S: BuildHasher + Drop> ThreadedRodeo<K, S> {
    // Does nothing. Contracts learn that its opening is one that an interner may begin with.
    fn prove_opening(&self)
        ensures { IsOpening K.key_at self.now.opening }
    {
        self.shards.log.snapshot().prove_legal();
    }

    /// Returns the text's key, and appends a copy of an absent text first. A new one may fail out of memory
    /// (`FailedAllocation`); else it fails if no bucket has room for its bytes and the memory limit leaves
    /// none (`MemoryLimitReached`); or else if the key type has no key for its position
    /// (`KeySpaceExhaustion`), and its bytes stay taken then. The first two errors add no event. It waits for
    /// those who write in the text's shard, and for the spine.
    ///
    /// ```rust
    /// let rodeo: SpurThreadedRodeo = ThreadedRodeo::default(rt.alloc())?;
    /// let key = rodeo.try_get_or_intern(&rt, "Hello, world!")?;
    /// assert!(rt; rodeo.try_get_or_intern_static(&rt, "Hello, world!")? == key);
    /// ```
    pub fn try_get_or_intern<R: Wait>(&self, rt: &R, text: &str) -> LassoResult<K>
        // Some legal list of all threads explains the reply at one of its moments: an error is of a text that is absent then. No key for its
        // position (`KeySpaceExhaustion`), no bucket with room and none under the limit (`MemoryLimitReached`), or out of memory: which of these
        // if several hold, no clause says. No text is appended then, and no event added, but that without a key its bytes stay taken.
        ensures call { IsPlainCall K.key_at self.now.opening (Intern Copied text.now) (Interned result) }
        ensures opening { IsOpening K.key_at self.now.opening }
    {
        self.prove_opening();
        self.shards.intern_once(rt, NewText::Copied(text))
    }

    /// Returns the text's key, and appends a copy of an absent text first: `try_get_or_intern` by another name.
    ///
    /// ```rust
    /// let rodeo: SpurThreadedRodeo = ThreadedRodeo::default(rt.alloc())?;
    /// let key = rodeo.get_or_intern(&rt, "Hello, world!")?;
    /// assert!(rt; rodeo.try_get_or_intern(&rt, "Hello, world!")? == key);
    /// ```
    pub fn get_or_intern<R: Wait>(&self, rt: &R, text: &str) -> LassoResult<K>
        // Some legal list of all threads explains the reply at one of its moments: an error is of a text that is absent then. No key for its
        // position (`KeySpaceExhaustion`), no bucket with room and none under the limit (`MemoryLimitReached`), or out of memory: which of these
        // if several hold, no clause says. No text is appended then, and no event added, but that without a key its bytes stay taken.
        ensures call { IsPlainCall K.key_at self.now.opening (Intern Copied text.now) (Interned result) }
        ensures opening { IsOpening K.key_at self.now.opening }
    {
        self.try_get_or_intern(rt, text)
    }

    /// Returns the text's key, and appends an absent text first. The text is kept as it is, with no copy, so
    /// the memory limit never refuses it. A new one may fail out of memory (`FailedAllocation`), and else
    /// fails if the key type has no key for its position (`KeySpaceExhaustion`); no event is added then.
    /// It waits for those who write in the text's shard, and for the spine.
    ///
    /// ```rust
    /// let capacity = Capacity::for_bytes(4);
    /// let limits = MemoryLimits::new(4);
    /// let made = ThreadedRodeo::with_capacity_and_memory_limits(rt.alloc(), capacity, limits);
    /// let rodeo: SpurThreadedRodeo = made?;
    /// let lasting = rodeo.try_get_or_intern_static(&rt, "a static text")?;
    /// assert!(rt; rodeo.try_resolve(lasting) == Some("a static text"));
    /// assert!(rt; rodeo.current_memory_usage(&rt) == 4);
    /// ```
    pub fn try_get_or_intern_static<R: Wait>(&self, rt: &R, text: &'static str) -> LassoResult<K>
        // Some legal list of all threads explains the reply at one of its moments: an error is of a text that is absent then. Its position has
        // no key (`KeySpaceExhaustion`), or memory ran out; the limit is never the error. No event is added then.
        ensures call { IsPlainCall K.key_at self.now.opening (Intern Static text.now) (Interned result) }
        ensures opening { IsOpening K.key_at self.now.opening }
    {
        self.prove_opening();
        self.shards.intern_once(rt, NewText::Static(text))
    }

    /// Returns the text's key, and appends an absent text first, without a copy: `try_get_or_intern_static` by
    /// another name.
    ///
    /// ```rust
    /// let rodeo: SpurThreadedRodeo = ThreadedRodeo::default(rt.alloc())?;
    /// let key = rodeo.get_or_intern_static(&rt, "Hello, world!")?;
    /// assert!(rt; rodeo.get_or_intern(&rt, "Hello, world!")? == key);
    /// ```
    pub fn get_or_intern_static<R: Wait>(&self, rt: &R, text: &'static str) -> LassoResult<K>
        // Some legal list of all threads explains the reply at one of its moments: an error is of a text that is absent then. Its position has
        // no key (`KeySpaceExhaustion`), or memory ran out; the limit is never the error. No event is added then.
        ensures call { IsPlainCall K.key_at self.now.opening (Intern Static text.now) (Interned result) }
        ensures opening { IsOpening K.key_at self.now.opening }
    {
        self.try_get_or_intern_static(rt, text)
    }

    /// The text's key, or `None` if it is not in the list. It takes no memory. It waits for those who write
    /// in the text's shard, and for the spine if the text is absent.
    ///
    /// ```rust
    /// let rodeo: SpurThreadedRodeo = ThreadedRodeo::default(rt.alloc())?;
    /// let key = rodeo.get_or_intern(&rt, "Hello, world!")?;
    /// assert!(rt; rodeo.get(&rt, "Hello, world!") == Some(key));
    /// assert!(rt; rodeo.contains(&rt, "Hello, world!") && rodeo.contains_key(key));
    /// assert!(rt; rodeo.resolve(key) == Some("Hello, world!"));
    /// assert!(rt; rodeo.len() == 1);
    /// ```
    pub fn get<R: Wait>(&self, rt: &R, text: &str) -> Option<K>
        // Some legal list of all threads explains the reply at one of its moments: `None` says that the text is absent then.
        ensures call { IsPlainCall K.key_at self.now.opening (Get text.now) (Found result) }
        ensures opening { IsOpening K.key_at self.now.opening }
    {
        self.prove_opening();
        self.shards.get_once(rt, text)
    }

    /// Whether the text is in the list. It takes no memory, and waits as `get` does.
    ///
    /// ```rust
    /// let rodeo: SpurThreadedRodeo = ThreadedRodeo::default(rt.alloc())?;
    /// rodeo.try_get_or_intern(&rt, "green")?;
    /// assert!(rt; rodeo.contains(&rt, "green"));
    /// assert!(rt; !rodeo.contains(&rt, "blue"));
    /// ```
    pub fn contains<R: Wait>(&self, rt: &R, text: &str) -> bool
        // Some legal list of all threads explains the reply at one of its moments.
        ensures call { IsPlainCall K.key_at self.now.opening (Contains text.now) (Flag result) }
        ensures opening { IsOpening K.key_at self.now.opening }
    {
        self.get(rt, text).is_some()
    }

    /// Whether the key has a text. It takes no memory and does not wait.
    ///
    /// ```rust
    /// let rodeo: SpurThreadedRodeo = ThreadedRodeo::default(rt.alloc())?;
    /// let key = rodeo.try_get_or_intern(&rt, "Hello, world!")?;
    /// assert!(rt; rodeo.contains_key(key));
    /// let next = Spur::try_from_usize(1).ok_or("no key")?;
    /// assert!(rt; !rodeo.contains_key(next));
    /// ```
    pub fn contains_key(&self, key: K) -> bool
        // Some legal list of all threads explains the reply at one of its moments.
        ensures call { IsPlainCall K.key_at self.now.opening (ContainsKey (K.number key)) (Flag result) }
        ensures opening { IsOpening K.key_at self.now.opening }
    {
        let mut known = self.shards.log.snapshot();
        let len = self.shards.log.snapshot_len(&mut known);
        known.prove_legal();
        (key.into_usize() as u64) < len
    }

    /// The key's text, or `None` if the key has no text yet. It is lent as long as the interner. It takes no
    /// memory and does not wait.
    ///
    /// ```rust
    /// let rodeo: SpurThreadedRodeo = ThreadedRodeo::default(rt.alloc())?;
    /// let key = rodeo.try_get_or_intern(&rt, "Hello, world!")?;
    /// assert!(rt; rodeo.try_resolve(key) == Some("Hello, world!"));
    /// let next = Spur::try_from_usize(1).ok_or("no key")?;
    /// assert!(rt; rodeo.try_resolve(next) == None);
    /// ```
    pub fn try_resolve(&self, key: K) -> Option<&str>
        // Some legal list of all threads explains the reply at one of its moments: `None` says that the key has no text then.
        ensures call { IsPlainCall K.key_at self.now.opening (Resolve (K.number key)) (Resolved (option_map (λ t. t.now) result)) }
        ensures opening { IsOpening K.key_at self.now.opening }
    {
        let mut known = self.shards.log.snapshot();
        let found = self
            .shards
            .log
            .read_snapshot(key.into_usize() as u64, &mut known);
        known.prove_legal();
        found
    }

    /// The key's text, or `None` if the key has no text yet: `try_resolve` by another name.
    ///
    /// ```rust
    /// let rodeo: SpurThreadedRodeo = ThreadedRodeo::default(rt.alloc())?;
    /// let key = rodeo.try_get_or_intern(&rt, "Hello, world!")?;
    /// assert!(rt; rodeo.resolve(key) == rodeo.try_resolve(key));
    /// ```
    pub fn resolve(&self, key: K) -> Option<&str>
        // Some legal list of all threads explains the reply at one of its moments: `None` says that the key has no text then.
        ensures call { IsPlainCall K.key_at self.now.opening (Resolve (K.number key)) (Resolved (option_map (λ t. t.now) result)) }
        ensures opening { IsOpening K.key_at self.now.opening }
    {
        self.try_resolve(key)
    }

    /// How many texts there are. It takes no memory and does not wait.
    ///
    /// ```rust
    /// let rodeo: SpurThreadedRodeo = ThreadedRodeo::default(rt.alloc())?;
    /// for text in ["red", "green", "red"] {
    ///     rodeo.try_get_or_intern(&rt, text)?;
    /// }
    /// assert!(rt; rodeo.len() == 2);
    /// ```
    pub fn len(&self) -> usize
        // Some legal list of all threads explains the reply at one of its moments.
        ensures call { IsPlainCall K.key_at self.now.opening Len (Number result) }
        ensures opening { IsOpening K.key_at self.now.opening }
    {
        let mut known = self.shards.log.snapshot();
        let len = self.shards.log.snapshot_len(&mut known);
        known.prove_legal();
        len as usize
    }

    /// Whether there is no text. It takes no memory and does not wait.
    ///
    /// ```rust
    /// let rodeo: SpurThreadedRodeo = ThreadedRodeo::default(rt.alloc())?;
    /// assert!(rt; rodeo.is_empty());
    /// rodeo.try_get_or_intern(&rt, "")?;
    /// assert!(rt; !rodeo.is_empty());
    /// ```
    pub fn is_empty(&self) -> bool
        // Some legal list of all threads explains the reply at one of its moments.
        ensures call { IsPlainCall K.key_at self.now.opening IsEmpty (Flag result) }
        ensures opening { IsOpening K.key_at self.now.opening }
    {
        self.len() == 0
    }

    /// The number of texts that the log has cells for; at least `len()`. Interning them may still run out of
    /// other memory. It takes no memory and does not wait.
    ///
    /// ```rust
    /// let rodeo: SpurThreadedRodeo = ThreadedRodeo::default(rt.alloc())?;
    /// assert!(rt; rodeo.capacity() >= 50);
    /// ```
    pub fn capacity(&self) -> usize
        ensures enough { (n : ℕ) × IsPlainCall K.key_at self.now.opening Len (Number n) × (n ≤ result) }
        ensures opening { IsOpening K.key_at self.now.opening }
    {
        let len = self.len();
        let cells = self.shards.log.cells() as usize;
        if cells < len { len } else { cells }
    }

    /// A walk over the texts and their keys, in the order of the keys: over those that there are at one step. It takes no memory and
    /// does not wait.
    ///
    /// ```rust
    /// let rodeo: SpurThreadedRodeo = ThreadedRodeo::default(rt.alloc())?;
    /// let red = rodeo.try_get_or_intern(&rt, "red")?;
    /// let mut walk = rodeo.iter();
    /// rodeo.try_get_or_intern(&rt, "green")?;
    /// assert!(rt; walk.len() == 1);
    /// assert!(rt; walk.next() == Some((red, "red")));
    /// assert!(rt; walk.next() == None);
    /// ```
    pub fn iter(&self) -> Iter<'_, K>
        // The walk is over some legal list of all threads.
        ensures call { IsPlainCall K.key_at self.now.opening replies.Iterate (replies.Pairs result) }
        ensures opening { IsOpening K.key_at self.now.opening }
    {
        let mut pass = self.pass();
        self.iter_as(&mut pass)
    }

    /// A walk over the texts, in the order of their keys: over those that there are at one step. It takes no memory and does not wait.
    ///
    /// ```rust
    /// let rodeo: SpurThreadedRodeo = ThreadedRodeo::default(rt.alloc())?;
    /// rodeo.try_get_or_intern(&rt, "red")?;
    /// rodeo.try_get_or_intern(&rt, "green")?;
    /// let mut strings = rodeo.strings();
    /// assert!(rt; strings.next() == Some("red"));
    /// assert!(rt; strings.next() == Some("green"));
    /// assert!(rt; strings.next() == None);
    /// ```
    pub fn strings(&self) -> Strings<'_, K>
        // The walk is over some legal list of all threads.
        ensures call { IsPlainCall K.key_at self.now.opening replies.Strings (replies.Listed (Ok result)) }
        ensures opening { IsOpening K.key_at self.now.opening }
    {
        let mut pass = self.pass();
        self.strings_as(&mut pass)
    }

    /// The bytes that all buckets take, also those that no text has taken. It takes no memory. It waits for the spine.
    ///
    /// ```rust
    /// let rodeo: SpurThreadedRodeo = ThreadedRodeo::default(rt.alloc())?;
    /// rodeo.try_get_or_intern(&rt, "Hello, world!")?;
    /// assert!(rt; rodeo.current_memory_usage(&rt) == 4096);
    /// ```
    pub fn current_memory_usage<R: Wait>(&self, rt: &R) -> usize
        // Some legal list of all threads explains the reply at one of its moments.
        ensures call { IsPlainCall K.key_at self.now.opening Usage (Number result) }
        ensures opening { IsOpening K.key_at self.now.opening }
    {
        let mut pass = self.pass();
        self.current_memory_usage_as(rt, &mut pass)
    }

    /// The most bytes that all buckets may take: what the interner was made with, or what was set last. It takes no memory. It
    /// waits for the spine.
    ///
    /// ```rust
    /// let rodeo: SpurThreadedRodeo = ThreadedRodeo::default(rt.alloc())?;
    /// assert!(rt; rodeo.max_memory_usage(&rt) == usize::MAX);
    /// ```
    pub fn max_memory_usage<R: Wait>(&self, rt: &R) -> usize
        // Some legal list of all threads explains the reply at one of its moments.
        ensures call { IsPlainCall K.key_at self.now.opening MaxUsage (Number result) }
        ensures opening { IsOpening K.key_at self.now.opening }
    {
        let mut pass = self.pass();
        self.max_memory_usage_as(rt, &mut pass)
    }

    /// Sets the most bytes that all buckets may take. It may be below what they take already: they stay, and
    /// copied texts that need another bucket are then refused. The texts stay. It takes no memory and never
    /// fails. It waits for the spine, and does not return if limits and buckets came 2^64 - 1 times
    /// before.
    ///
    /// ```rust
    /// let rodeo: SpurThreadedRodeo = ThreadedRodeo::default(rt.alloc())?;
    /// rodeo.set_memory_limits(&rt, MemoryLimits::new(0));
    /// rodeo.try_get_or_intern(&rt, "Hello, world!")?;
    /// assert!(rt; rodeo.max_memory_usage(&rt) == 0);
    /// assert!(rt; rodeo.current_memory_usage(&rt) == 4096);
    /// ```
    pub fn set_memory_limits<R: Wait>(&self, rt: &R, limits: MemoryLimits)
        // The call's only event in some legal list of all threads: the limit is replaced.
        ensures call { IsPlainCall K.key_at self.now.opening (SetLimit limits) Done }
        ensures opening { IsOpening K.key_at self.now.opening }
    {
        let mut pass = self.pass();
        self.set_memory_limits_as(rt, &mut pass, limits);
    }
}
