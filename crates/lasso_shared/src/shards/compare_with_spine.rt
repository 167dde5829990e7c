//! Comparing a held shard with the spine: the shard's index is exact for a list that has no more texts of the shard.
ghost use Rattle.std.specs.Prelude.{◌≡◌, ◌<◌, [], true};
ghost use mathlib.Core.List.{IsPrefix};
ghost use Rattle.lasso_parts.specs.Hashing.{hash_by};
ghost use Rattle.lasso_log.specs.Notes.{Since};
ghost use Rattle.lasso_log.specs.Views.{PassView, InternerId, SnapshotView, IsSamePass, list_of};
ghost use Rattle.lasso_shared.specs.Locked.{IsLocked, IsWholeFor};
ghost use Rattle.lasso_shared.specs.Shards.{IsTally};

use crate::shards::Shards;
use crate::shards::shard::{BoxedTally, Shard, Tally};
use lasso_lock::locks::TaggedMutexGuard;
use lasso_log::log::Pass;
use lasso_parts::keys::Key;
use std::hash::BuildHasher;
use std::sync::Wait;

impl<K: Key, S: BuildHasher + Drop> Shards<K, S> {
    // Whether the shard's index is current: the pass then has seen the spine's list, and the shard has as many texts as the
    // spine counts for it.
    pub(super) fn is_current(
        &self,
        tally: &Tally<K, S>,
        shard: &Shard<K, S>,
        pass: &mut Pass<K>,
        number: usize,
    ) -> bool
        requires of { (pass.old.of ≡ self.now.log) × (number < 16) }
        requires held { IsLocked (hash_by S.BuildHasher S.Hasher.Hasher self.now.hasher) number self.now.log shard.now }
        requires tally { IsTally (hash_by S.BuildHasher S.Hasher.Hasher self.now.hasher) self.now.log tally.now.spine tally.now.counts }
        requires begins { IsPrefix shard.now.known.notes pass.old.notes }
        ensures same { IsSamePass pass.new pass.old }
        ensures since { Since pass.old.number pass.old.notes pass.new.notes [] }
        ensures begins { IsPrefix shard.now.known.notes pass.new.notes }
        ensures whole { result ≡ true → IsWholeFor (hash_by S.BuildHasher S.Hasher.Hasher self.now.hasher) number self.now.log shard.now pass.new }
        ensures list { result ≡ true → list_of self.now.log pass.new.notes ≡ list_of self.now.log tally.now.spine.notes }
    {
        if self.log.len(pass) != tally.spine.len() {
            return false;
        }
        tally.spine.prove_agrees(pass);
        tally.counts[number] == shard.count
    }

    // Retries until the locked shard has as many texts as the spine counts for it, and the length is the spine's, and returns
    // with the spine locked. The shard's index is then exact for what the pass has seen.
    pub(super) fn lock_spine_when_current<R: Wait>(
        &self,
        rt: &R,
        shard: &Shard<K, S>,
        pass: &mut Pass<K>,
        number: usize,
    ) -> (TaggedMutexGuard<'_, BoxedTally<K, S>>, BoxedTally<K, S>)
        requires of { (pass.old.of ≡ self.now.log) × (number < 16) }
        requires held { IsLocked (hash_by S.BuildHasher S.Hasher.Hasher self.now.hasher) number self.now.log shard.now }
        requires begins { IsPrefix shard.now.known.notes pass.old.notes }
        ensures same { IsSamePass pass.new pass.old }
        ensures since { Since pass.old.number pass.old.notes pass.new.notes [] }
        ensures whole { IsWholeFor (hash_by S.BuildHasher S.Hasher.Hasher self.now.hasher) number self.now.log shard.now pass.new }
        ensures spine { result.0 ≡ self.now.spine }
        ensures tally { IsTally (hash_by S.BuildHasher S.Hasher.Hasher self.now.hasher) self.now.log result.1.tally.value.spine result.1.tally.value.counts }
        ensures list { list_of self.now.log pass.new.notes ≡ list_of self.now.log result.1.tally.value.spine.notes }
    {
        for _ in rt.forever() {
            let (guard, held) = self.spine.lock(rt);
            if self.is_current(&held.tally, shard, pass, number) {
                return (guard, held);
            }
            guard.unlock(rt, held);
        }
        unreachable!()
    }

    // Does the same for a caller that needs no spine. It is not inlined, so that a look-up of a present text sets up
    // nothing for it.
    #[inline(never)]
    pub(super) fn wait_until_current<R: Wait>(
        &self,
        rt: &R,
        shard: &Shard<K, S>,
        pass: &mut Pass<K>,
        number: usize,
    )
        requires of { (pass.old.of ≡ self.now.log) × (number < 16) }
        requires held { IsLocked (hash_by S.BuildHasher S.Hasher.Hasher self.now.hasher) number self.now.log shard.now }
        requires begins { IsPrefix shard.now.known.notes pass.old.notes }
        ensures same { IsSamePass pass.new pass.old }
        ensures since { Since pass.old.number pass.old.notes pass.new.notes [] }
        ensures whole { IsWholeFor (hash_by S.BuildHasher S.Hasher.Hasher self.now.hasher) number self.now.log shard.now pass.new }
    {
        let (guard, held) = self.lock_spine_when_current(rt, shard, pass, number);
        guard.unlock(rt, held);
    }
}
