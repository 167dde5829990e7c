//! `ThreadedRodeo`, the interner that threads share.
//!
//! A call with a pass knows what the pass's holder has seen of the interner's history. The call's reply is explained at one step
//! between what the pass had seen and what it has seen after, and the events past that of the pass's number are exactly those of
//! the call. A plain call is that call of a new pass. What is stored is in a log that is read without a lock. A text is looked
//! up in its shard, which other texts of the shard share; a new text goes through its shard and then through the spine. A pass that
//! keeps hints finds a text that it met before without the shard.
ghost use Rattle.std.specs.Prelude.{◌≡◌, []};
ghost use Rattle.lasso_log.specs.Views.{PassView, InternerId};

mod batches;
mod comparing;
mod debug;
mod filling;
mod freezing;
mod from_static;
mod interning;
mod json;
mod limits;
mod makers;
mod memory;
mod plain;
mod reading;
mod walking;
mod without_waiting;

use crate::shards::Shards;
use lasso_log::log::Pass;
use lasso_parts::keys::{Key, Spur};
use lasso_parts::util::FixedState;
use std::alloc::Global;
use std::hash::BuildHasher;
use std::marker::Model;
pub use walking::{Iter, Strings};

/// An interner that threads share. A contract sees its book and what it opened with, which its constructor fixes;
/// what is known of its history is in the passes.
///
/// ```rust
/// let rodeo: SpurThreadedRodeo = ThreadedRodeo::default(rt.alloc())?;
/// let mut pass = rodeo.pass();
/// let key = rodeo.try_get_or_intern_static_as(&rt, &mut pass, "Hello, world!")?;
/// assert!(rt; rodeo.try_resolve_as(&mut pass, key) == Some("Hello, world!"));
/// ```
pub struct ThreadedRodeo<K: Key, S: BuildHasher + Drop> {
    shards: Shards<K, S>,
}

/// A `ThreadedRodeo` with `Spur` keys and the hasher of fixed seed.
pub type SpurThreadedRodeo = ThreadedRodeo<Spur, FixedState>;

impl<K: Key, S: BuildHasher + Drop> Model for ThreadedRodeo<K, S> {
    ghost use Rattle.lasso_log.specs.Views.{InternerId, interner_id_coded};

    ghost Value = { InternerId };

    ghost coded = { interner_id_coded };

    ghost view = { λ t. t.shards.log };
}

// One call, so that proofs of callers see nothing of the fields where an interner is let go.
impl<K: Key, S: BuildHasher + Drop> Drop for ThreadedRodeo<K, S> {
    fn drop(self) {
        let ThreadedRodeo { shards: _ } = self;
    }
}

impl<K: Key, S: BuildHasher + Drop> ThreadedRodeo<K, S> {
    /// A pass that has seen nothing yet. It takes no memory and does not wait.
    ///
    /// ```rust
    /// let rodeo: SpurThreadedRodeo = ThreadedRodeo::default(rt.alloc())?;
    /// let mut pass = rodeo.pass();
    /// let key = rodeo.try_get_or_intern_as(&rt, &mut pass, "Hello, world!")?;
    /// assert!(rt; rodeo.get_as(&rt, &mut pass, "Hello, world!") == Some(key));
    /// assert!(rt; rodeo.contains_key_as(&mut pass, key));
    /// assert!(rt; rodeo.len_as(&mut pass) == 1);
    /// ```
    pub fn pass(&self) -> Pass<K>
        ensures of { result.of ≡ self.now }
        ensures notes { result.notes ≡ [] }
    {
        self.shards.log.pass()
    }

    /// A pass that has seen nothing yet, and that keeps hints: it remembers where in the list it found texts,
    /// and mostly finds them there again without a lock. So it is for a thread that meets the same texts often.
    /// Its calls return what those of any pass do.
    ///
    /// A call that finds a text under its shard's lock keeps a hint of it. One that adds a text keeps none, so
    /// the second call with that text takes the lock too. There is room for 32,768 hints; new ones take the
    /// places of those that are seldom followed. If hints found less than one in eight of 65,536 texts, they
    /// rest: they are neither asked nor kept for the next 983,040 texts.
    ///
    /// The hints take 131,072 bytes, which no limit counts, and which are freed with the pass. Out of memory
    /// the pass keeps none; `Pass::has_hints` says so. It does not wait.
    ///
    /// ```rust
    /// let rodeo: SpurThreadedRodeo = ThreadedRodeo::default(rt.alloc())?;
    /// let mut pass = rodeo.pass_with_hints(rt.alloc());
    /// for text in ["red", "green", "red", "red"] {
    ///     let key = rodeo.try_get_or_intern_as(&rt, &mut pass, text)?;
    ///     assert!(rt; rodeo.try_resolve_as(&mut pass, key) == Some(text));
    /// }
    /// assert!(rt; rodeo.len_as(&mut pass) == 2);
    /// ```
    pub fn pass_with_hints(&self, alloc: Global) -> Pass<K>
        ensures of { result.of ≡ self.now }
        ensures notes { result.notes ≡ [] }
    {
        let mut pass = self.pass();
        pass.make_hints(alloc);
        pass
    }
}
