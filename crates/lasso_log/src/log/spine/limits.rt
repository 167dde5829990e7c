//! What a spine does about the memory limit of an interner: it replaces the limit, and reads it and the usage.
ghost use Rattle.std.specs.Prelude.{◌≡◌, ◌∷◌, [], IfSome};
ghost use Rattle.lasso_log.specs.Charges.{AreLast, TriesLimit};
ghost use Rattle.lasso_log.specs.History.{Limit, IsLegal};
ghost use Rattle.lasso_log.specs.Notes.{Since, state};
ghost use Rattle.lasso_log.specs.Views.{PassView, InternerId, SpineView, TurnsView, IsSamePass, IsSameSpine, KeepsUsage, seen};

use crate::log::pass::Pass;
use crate::log::shared_log::Log;
use crate::log::spine::Spine;
use lasso_parts::keys::Key;
use std::hint::spin_loop;
use std::sync::Wait;

impl<K: Key> Log<K> {
    /// Replaces the limit. It waits if the turns are not the spine's, and does not return if the turn word is 2^64 - 1.
    pub fn set_limit<R: Wait>(&self, rt: &R, spine: &mut Spine<K>, pass: &mut Pass<K>, limit: u64)
        requires { (pass.old.of ≡ self.now) × (spine.old.of ≡ self.now) }
        ensures same { IsSamePass pass.new pass.old × IsSameSpine spine.new spine.old × (spine.new.kept ≡ spine.old.kept) }
        ensures event { Since pass.old.number pass.old.notes pass.new.notes (Limit limit ∷ []) }
        ensures turns { (spine.new.turns.notes ≡ pass.new.notes) × (spine.new.turns.limit ≡ limit) }
        ensures stays { KeepsUsage spine.old.turns spine.new.turns }
        ensures legal { IsLegal K.key_at self.now.opening (seen pass.new) }
    {
        for _ in rt.forever() {
            if self.try_limit(spine, pass, limit) {
                pass.prove_legal();
                return;
            }
            spin_loop();
        }
        unreachable!()
    }

    /// Replaces the limit if no turn came after the spine's, and returns whether it did. Otherwise nothing changes. It does
    /// not wait.
    pub fn try_limit(&self, spine: &mut Spine<K>, pass: &mut Pass<K>, limit: u64) -> bool
        requires { (pass.old.of ≡ self.now) × (spine.old.of ≡ self.now) }
        ensures same { IsSamePass pass.new pass.old × IsSameSpine spine.new spine.old × (spine.new.kept ≡ spine.old.kept) }
        ensures done { TriesLimit limit result pass.old pass.new spine.old spine.new }
    {
        self.try_set_limit(&mut spine.turns, pass, limit)
    }

    /// The bytes that all buckets take, at one step. It takes no memory. It waits if the turns are not the spine's.
    pub fn usage<R: Wait>(&self, rt: &R, spine: &Spine<K>, pass: &mut Pass<K>) -> u64
        requires { (pass.old.of ≡ self.now) × (spine.now.of ≡ self.now) }
        ensures same { IsSamePass pass.new pass.old }
        ensures since { Since pass.old.number pass.old.notes pass.new.notes [] }
        ensures reply { result ≡ (state self.now.opening pass.new.notes).usage }
    {
        self.wait_for(rt, spine, pass);
        spine.turns.usage
    }

    /// The bytes that all buckets take, at one step. It takes no memory. It returns `None` if the turns are not the spine's,
    /// and does not wait.
    pub fn usage_now(&self, spine: &Spine<K>, pass: &mut Pass<K>) -> Option<u64>
        requires { (pass.old.of ≡ self.now) × (spine.now.of ≡ self.now) }
        ensures same { IsSamePass pass.new pass.old }
        ensures since { Since pass.old.number pass.old.notes pass.new.notes [] }
        ensures reply { IfSome result (λ usage. usage ≡ (state self.now.opening pass.new.notes).usage) }
    {
        if !self.is_at(&spine.turns, pass) {
            return None;
        }
        Some(spine.turns.usage)
    }

    /// The most bytes that all buckets may take, at one step, as `usage_now` returns what they take.
    pub fn max_usage_now(&self, spine: &Spine<K>, pass: &mut Pass<K>) -> Option<u64>
        requires { (pass.old.of ≡ self.now) × (spine.now.of ≡ self.now) }
        ensures same { IsSamePass pass.new pass.old }
        ensures since { Since pass.old.number pass.old.notes pass.new.notes [] }
        ensures reply { IfSome result (λ limit. limit ≡ (state self.now.opening pass.new.notes).limit) }
    {
        if !self.is_at(&spine.turns, pass) {
            return None;
        }
        Some(spine.turns.limit)
    }

    /// The most bytes that all buckets may take, at one step. It takes no memory. It waits if the turns are not the spine's.
    pub fn max_usage<R: Wait>(&self, rt: &R, spine: &Spine<K>, pass: &mut Pass<K>) -> u64
        requires { (pass.old.of ≡ self.now) × (spine.now.of ≡ self.now) }
        ensures same { IsSamePass pass.new pass.old }
        ensures since { Since pass.old.number pass.old.notes pass.new.notes [] }
        ensures reply { result ≡ (state self.now.opening pass.new.notes).limit }
    {
        self.wait_for(rt, spine, pass);
        spine.turns.limit
    }

    // Loads the turn word until it has the value of the spine's turns.
    #[tactic(auto, using(crate::proofs::Tickets::since_trans))]
    fn wait_for<R: Wait>(&self, rt: &R, spine: &Spine<K>, pass: &mut Pass<K>)
        requires { (pass.old.of ≡ self.now) × (spine.now.of ≡ self.now) }
        ensures same { IsSamePass pass.new pass.old }
        ensures since { Since pass.old.number pass.old.notes pass.new.notes [] }
        ensures at { AreLast K.key_at self.now.opening spine.now.turns pass.new.notes }
    {
        for _ in rt.forever() {
            if self.is_at(&spine.turns, pass) {
                return;
            }
            spin_loop();
        }
        unreachable!()
    }
}
