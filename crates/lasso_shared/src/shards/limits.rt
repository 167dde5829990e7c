//! Usage and limit, by the spine.
ghost use Rattle.std.specs.Prelude.{◌≡◌, ◌∷◌, [], IfSome, IsFalse, IsTrue};
ghost use Rattle.lasso_log.specs.History.{Limit};
ghost use Rattle.lasso_log.specs.Notes.{Since, state};
ghost use Rattle.lasso_log.specs.Views.{PassView, InternerId, IsSamePass};

use crate::shards::Shards;
use lasso_log::log::Pass;
use lasso_parts::keys::Key;
use std::hash::BuildHasher;
use std::sync::Wait;

impl<K: Key, S: BuildHasher + Drop> Shards<K, S> {
    /// The bytes that all buckets take, in what the pass has then seen. It takes no memory. It waits for the spine.
    pub fn usage<R: Wait>(&self, rt: &R, pass: &mut Pass<K>) -> u64
        requires { pass.old.of ≡ self.now.log }
        ensures same { IsSamePass pass.new pass.old }
        ensures since { Since pass.old.number pass.old.notes pass.new.notes [] }
        ensures reply { result ≡ (state self.now.log.opening pass.new.notes).usage }
    {
        let (guard, held) = self.spine.lock(rt);
        let usage = self.log.usage(rt, &held.tally.spine, pass);
        guard.unlock(rt, held);
        usage
    }

    /// The most bytes that all buckets may take, in what the pass has then seen. It takes no memory. It waits
    /// for the spine.
    pub fn max_usage<R: Wait>(&self, rt: &R, pass: &mut Pass<K>) -> u64
        requires { pass.old.of ≡ self.now.log }
        ensures same { IsSamePass pass.new pass.old }
        ensures since { Since pass.old.number pass.old.notes pass.new.notes [] }
        ensures reply { result ≡ (state self.now.log.opening pass.new.notes).limit }
    {
        let (guard, held) = self.spine.lock(rt);
        let limit = self.log.max_usage(rt, &held.tally.spine, pass);
        guard.unlock(rt, held);
        limit
    }

    /// Replaces the most bytes that all buckets may take. It takes no memory. It waits for the spine, and does not return if the
    /// turn word is 2^64 - 1.
    pub fn set_limit<R: Wait>(&self, rt: &R, pass: &mut Pass<K>, limit: u64)
        requires { pass.old.of ≡ self.now.log }
        ensures same { IsSamePass pass.new pass.old }
        ensures event { Since pass.old.number pass.old.notes pass.new.notes (Limit limit ∷ []) }
    {
        let (guard, mut held) = self.spine.lock(rt);
        self.log.set_limit(rt, &mut held.tally.spine, pass, limit);
        guard.unlock(rt, held);
    }

    /// The bytes that all buckets take, as `usage` does. It returns `None` if others are in the way. It does not wait.
    #[tactic(auto, using(crate::proofs::Whole::since_self))]
    pub fn usage_now(&self, pass: &mut Pass<K>) -> Option<u64>
        requires { pass.old.of ≡ self.now.log }
        ensures same { IsSamePass pass.new pass.old }
        ensures since { Since pass.old.number pass.old.notes pass.new.notes [] }
        ensures reply { IfSome result (λ usage. usage ≡ (state self.now.log.opening pass.new.notes).usage) }
    {
        let (guard, held) = self.spine.lock_now()?;
        let usage = self.log.usage_now(&held.tally.spine, pass);
        guard.put_back(held);
        usage
    }

    /// The most bytes that all buckets may take, as `max_usage` does. It returns `None` if others are in the way. It does not
    /// wait.
    #[tactic(auto, using(crate::proofs::Whole::since_self))]
    pub fn max_usage_now(&self, pass: &mut Pass<K>) -> Option<u64>
        requires { pass.old.of ≡ self.now.log }
        ensures same { IsSamePass pass.new pass.old }
        ensures since { Since pass.old.number pass.old.notes pass.new.notes [] }
        ensures reply { IfSome result (λ limit. limit ≡ (state self.now.log.opening pass.new.notes).limit) }
    {
        let (guard, held) = self.spine.lock_now()?;
        let limit = self.log.max_usage_now(&held.tally.spine, pass);
        guard.put_back(held);
        limit
    }

    /// Replaces the most bytes that all buckets may take, as `set_limit` does, and returns whether it did. It does not if others
    /// are in the way, or if the turn word is 2^64 - 1; no event is added then. It does not wait.
    pub fn set_limit_now(&self, pass: &mut Pass<K>, limit: u64) -> bool
        requires { pass.old.of ≡ self.now.log }
        ensures same { IsSamePass pass.new pass.old }
        ensures event { IsTrue result → Since pass.old.number pass.old.notes pass.new.notes (Limit limit ∷ []) }
        ensures busy { IsFalse result → pass.new ≡ pass.old }
    {
        let Some((guard, mut held)) = self.spine.lock_now() else {
            return false;
        };
        let done = self.log.try_limit(&mut held.tally.spine, pass, limit);
        guard.put_back(held);
        done
    }
}
