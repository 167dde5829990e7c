//! Usage and limit of an interner that threads share, with a pass.
ghost use Rattle.std.specs.Prelude.{◌≡◌};
ghost use Rattle.lasso_log.specs.History.{IsLegal, IsOpening};
ghost use Rattle.lasso_log.specs.Replies.{Usage, MaxUsage, SetLimit, Number, Done};
ghost use Rattle.lasso_log.specs.Views.{PassView, InternerId, IsSamePass, seen};
ghost use Rattle.lasso_shared.specs.PassCalls.{IsPassCall};

use crate::threaded::ThreadedRodeo;
use lasso_log::log::Pass;
use lasso_parts::keys::Key;
use lasso_parts::util::MemoryLimits;
use std::hash::BuildHasher;
use std::sync::Wait;

impl<K: Key, S: BuildHasher + Drop> ThreadedRodeo<K, S> {
    /// The bytes that all buckets take, also those that no text has taken. It takes no memory. It waits for the spine.
    ///
    /// ```rust
    /// let rodeo: SpurThreadedRodeo = ThreadedRodeo::default(rt.alloc())?;
    /// let mut pass = rodeo.pass();
    /// rodeo.set_memory_limits_as(&rt, &mut pass, MemoryLimits::new(10));
    /// assert!(rt; rodeo.max_memory_usage_as(&rt, &mut pass) == 10);
    /// assert!(rt; rodeo.current_memory_usage_as(&rt, &mut pass) == 4096);
    /// ```
    pub fn current_memory_usage_as<R: Wait>(&self, rt: &R, pass: &mut Pass<K>) -> usize
        requires { pass.old.of ≡ self.now }
        // The pass stays the same one.
        ensures same { IsSamePass pass.new pass.old }

        // One list of all threads explains the reply at a moment between what the pass had seen and what it then has seen. The call adds no
        // event.
        ensures call { IsPassCall K.key_at self.now pass.old pass.new Usage (Number result) }
        ensures opening { IsOpening K.key_at self.now.opening }
        ensures legal { IsLegal K.key_at self.now.opening (seen pass.new) }
    {
        let usage = self.shards.usage(rt, pass);
        pass.prove_legal();
        usage as usize
    }

    /// The most bytes that all buckets may take: what the interner was made with, or what was set last. It takes no memory. It
    /// waits for the spine.
    ///
    /// ```rust
    /// let rodeo: SpurThreadedRodeo = ThreadedRodeo::default(rt.alloc())?;
    /// let mut pass = rodeo.pass();
    /// rodeo.set_memory_limits_as(&rt, &mut pass, MemoryLimits::new(10));
    /// assert!(rt; rodeo.max_memory_usage_as(&rt, &mut pass) == 10);
    /// assert!(rt; rodeo.current_memory_usage_as(&rt, &mut pass) == 4096);
    /// ```
    pub fn max_memory_usage_as<R: Wait>(&self, rt: &R, pass: &mut Pass<K>) -> usize
        requires { pass.old.of ≡ self.now }
        // The pass stays the same one.
        ensures same { IsSamePass pass.new pass.old }

        // One list of all threads explains the reply at a moment between what the pass had seen and what it then has seen. The call adds no
        // event.
        ensures call { IsPassCall K.key_at self.now pass.old pass.new MaxUsage (Number result) }
        ensures opening { IsOpening K.key_at self.now.opening }
        ensures legal { IsLegal K.key_at self.now.opening (seen pass.new) }
    {
        let limit = self.shards.max_usage(rt, pass);
        pass.prove_legal();
        limit as usize
    }

    /// Sets the most bytes that all buckets may take. It may be below what they take already: they stay, and
    /// copied texts that need another bucket are then refused. The texts stay. It takes no memory and never
    /// fails. It waits for the spine, and does not return if limits and buckets came 2^64 - 1 times
    /// before.
    ///
    /// ```rust
    /// let rodeo: SpurThreadedRodeo = ThreadedRodeo::default(rt.alloc())?;
    /// let mut pass = rodeo.pass();
    /// rodeo.set_memory_limits_as(&rt, &mut pass, MemoryLimits::new(10));
    /// assert!(rt; rodeo.max_memory_usage_as(&rt, &mut pass) == 10);
    /// assert!(rt; rodeo.current_memory_usage_as(&rt, &mut pass) == 4096);
    /// ```
    pub fn set_memory_limits_as<R: Wait>(&self, rt: &R, pass: &mut Pass<K>, limits: MemoryLimits)
        requires { pass.old.of ≡ self.now }
        // The pass stays the same one.
        ensures same { IsSamePass pass.new pass.old }

        // One list of all threads has the call's only event: the limit is replaced.
        ensures call { IsPassCall K.key_at self.now pass.old pass.new (SetLimit limits) Done }
        ensures opening { IsOpening K.key_at self.now.opening }
        ensures legal { IsLegal K.key_at self.now.opening (seen pass.new) }
    {
        let limit = limits.max_memory_usage();
        self.shards.set_limit(rt, pass, limit as u64);
        pass.prove_legal();
    }
}
