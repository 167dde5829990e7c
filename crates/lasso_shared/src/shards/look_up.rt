//! Looking a text up: by the hints of a pass, in a shard that the caller has locked, and under a shard's read lock.
//!
//! `key_..` may miss a present text; `get_..` returns `None` only if the list lacks the text. `.._in_shard` takes no lock: the caller has
//! locked the shard. `.._once` needs no pass.
ghost use Rattle.std.specs.Prelude.{◌≡◌, ◌<◌, [], length, Some, IfSome, IfNone};
ghost use mathlib.Core.List.{IsPrefix};
ghost use Rattle.lasso_parts.specs.Hashing.{hash_by};
ghost use Rattle.lasso_parts.specs.Texts.{key_of};
ghost use Rattle.lasso_log.specs.History.{Lacks};
ghost use Rattle.lasso_log.specs.Notes.{Since};
ghost use Rattle.lasso_log.specs.Replies.{Get, Found};
ghost use Rattle.lasso_log.specs.Calls.{IsPlainCall};
ghost use Rattle.lasso_log.specs.Views.{PassView, InternerId, SnapshotView, IsSamePass, list_of};
ghost use Rattle.lasso_shared.specs.Locked.{IsLocked};
ghost use Rattle.lasso_shared.specs.LookUps.{IsFoundAt, IsKeyAfter, IsKeyOnce};
ghost use Rattle.lasso_shared.specs.PassCalls.{IsPassCall};
ghost use Rattle.lasso_shared.specs.Shards.{shard_of};

use crate::shards::Shards;
use crate::shards::shard::Shard;
use crate::shards::tag::number_of;
use lasso_log::log::{Pass, Snapshot};
use lasso_parts::index::hash_text;
use lasso_parts::keys::Key;
use std::hash::BuildHasher;
use std::sync::Wait;

// The key of a text's position in the list of a history that was seen.
#[inline(always)]
pub(super) fn key_at<K: Key>(known: &Snapshot<K>, position: usize) -> K
    requires { position < length (list_of known.now.of known.now.notes) }
    ensures { K.key_at position ≡ Some result }
{
    known.prove_legal();
    K::try_from_usize(position).unwrap()
}

impl<K: Key, S: BuildHasher + Drop> Shards<K, S> {
    // The position of the text in a history that begins with the shard's own, if the shard's index has it.
    // Otherwise the list of the shard's own history lacks the text.
    #[inline(always)]
    fn position_in_shard(
        &self,
        shard: &Shard<K, S>,
        known: &Snapshot<K>,
        hash: u64,
        text: &str,
    ) -> Option<usize>
        requires of { known.now.of ≡ self.now.log }
        requires begins { IsPrefix shard.now.known.notes known.now.notes }
        requires hashed { hash ≡ hash_by S.BuildHasher S.Hasher.Hasher self.now.hasher text.now }
        requires held { IsLocked (hash_by S.BuildHasher S.Hasher.Hasher self.now.hasher) (shard_of hash) self.now.log shard.now }
        ensures found { IfSome result (λ n. IsFoundAt (list_of self.now.log known.now.notes) text.now n) }
        ensures missing { IfNone result (Lacks (list_of self.now.log shard.now.known.notes) text.now) }
    {
        known.prove_legal();
        let texts = self.log.snapshot_texts(known);
        shard.index.find_hashed(&texts, &self.hasher, hash, text)
    }

    // The key of the text, if the shard's index has it. Otherwise the list of the shard's own history, which is
    // legal, lacks the text.
    #[inline(always)]
    fn key_in_shard_once(&self, shard: &Shard<K, S>, hash: u64, text: &str) -> Option<K>
        requires hashed { hash ≡ hash_by S.BuildHasher S.Hasher.Hasher self.now.hasher text.now }
        requires held { IsLocked (hash_by S.BuildHasher S.Hasher.Hasher self.now.hasher) (shard_of hash) self.now.log shard.now }
        ensures found { IfSome result (λ k. IsKeyAfter K.key_at self.now.log shard.now.known.notes text.now k) }
        ensures missing { IfNone result (Lacks (list_of self.now.log shard.now.known.notes) text.now) }
    {
        shard.known.prove_legal();
        match self.position_in_shard(shard, &shard.known, hash, text) {
            Some(position) => Some(key_at(&shard.known, position)),
            None => None,
        }
    }

    // The key of the text, if the shard's index has it. The pass learns the shard's own history, and keeps a hint of a
    // present text.
    #[inline(always)]
    pub(super) fn key_in_shard(
        &self,
        shard: &Shard<K, S>,
        pass: &mut Pass<K>,
        hash: u64,
        text: &str,
    ) -> Option<K>
        requires of { pass.old.of ≡ self.now.log }
        requires hashed { hash ≡ hash_by S.BuildHasher S.Hasher.Hasher self.now.hasher text.now }
        requires held { IsLocked (hash_by S.BuildHasher S.Hasher.Hasher self.now.hasher) (shard_of hash) self.now.log shard.now }
        ensures same { IsSamePass pass.new pass.old }
        ensures since { Since pass.old.number pass.old.notes pass.new.notes [] }
        ensures begins { IsPrefix shard.now.known.notes pass.new.notes }
        ensures found { IfSome result (λ k. key_of K.key_at (list_of self.now.log pass.new.notes) text.now ≡ Some k) }
        ensures missing { IfNone result (Lacks (list_of self.now.log shard.now.known.notes) text.now) }
    {
        pass.learn(&shard.known);
        let known = pass.snapshot();
        match self.position_in_shard(shard, &known, hash, text) {
            Some(position) => {
                pass.keep_hint(hash, position as u64);
                Some(key_at(&known, position))
            }
            None => None,
        }
    }

    // The key of the text, if a hint of the pass tells its position. It takes no lock.
    #[inline(always)]
    pub(super) fn key_by_hint(&self, pass: &mut Pass<K>, hash: u64, text: &str) -> Option<K>
        requires { pass.old.of ≡ self.now.log }
        ensures same { IsSamePass pass.new pass.old }
        ensures since { Since pass.old.number pass.old.notes pass.new.notes [] }
        ensures found { IfSome result (λ k. key_of K.key_at (list_of self.now.log pass.new.notes) text.now ≡ Some k) }
    {
        let position = self.log.find_hinted(pass, hash, text)?;
        pass.prove_legal();
        let known = pass.snapshot();
        Some(key_at(&known, position as usize))
    }

    // The key of the text, if a hint of the pass tells it or the shard's index has it. Other readers may look up at
    // the same time.
    #[inline(always)]
    pub(super) fn key_by_hint_or_read_lock<R: Wait>(
        &self,
        rt: &R,
        pass: &mut Pass<K>,
        hash: u64,
        text: &str,
    ) -> Option<K>
        requires of { pass.old.of ≡ self.now.log }
        requires hashed { hash ≡ hash_by S.BuildHasher S.Hasher.Hasher self.now.hasher text.now }
        ensures same { IsSamePass pass.new pass.old }
        ensures since { Since pass.old.number pass.old.notes pass.new.notes [] }
        ensures found { IfSome result (λ k. key_of K.key_at (list_of self.now.log pass.new.notes) text.now ≡ Some k) }
    {
        if let Some(key) = self.key_by_hint(pass, hash, text) {
            return Some(key);
        }
        let guard = self.lock(number_of(hash)).read(rt);
        let found = self.key_in_shard(&guard.get().shard, pass, hash, text);
        guard.unlock();
        found
    }

    // The key of the text, if the shard's index has it, without a pass. Other readers may look up at the
    // same time.
    #[inline(always)]
    pub(super) fn key_under_read_lock_once<R: Wait>(
        &self,
        rt: &R,
        hash: u64,
        text: &str,
    ) -> Option<K>
        requires hashed { hash ≡ hash_by S.BuildHasher S.Hasher.Hasher self.now.hasher text.now }
        ensures told { IfSome result (λ k. IsKeyOnce K.key_at self.now.log text.now k) }
    {
        let guard = self.lock(number_of(hash)).read(rt);
        let found = self.key_in_shard_once(&guard.get().shard, hash, text);
        guard.unlock();
        found
    }

    // The key of the text in the list that the pass has then seen, or none if that list lacks it. The caller has locked the
    // shard.
    #[inline(always)]
    fn get_in_shard<R: Wait>(
        &self,
        rt: &R,
        shard: &Shard<K, S>,
        pass: &mut Pass<K>,
        hash: u64,
        text: &str,
    ) -> Option<K>
        requires of { pass.old.of ≡ self.now.log }
        requires hashed { hash ≡ hash_by S.BuildHasher S.Hasher.Hasher self.now.hasher text.now }
        requires held { IsLocked (hash_by S.BuildHasher S.Hasher.Hasher self.now.hasher) (shard_of hash) self.now.log shard.now }
        ensures same { IsSamePass pass.new pass.old }
        ensures since { Since pass.old.number pass.old.notes pass.new.notes [] }
        ensures found { result ≡ key_of K.key_at (list_of self.now.log pass.new.notes) text.now }
    {
        if let Some(key) = self.key_in_shard(shard, pass, hash, text) {
            return Some(key);
        }
        self.wait_until_current(rt, shard, pass, number_of(hash));
        None
    }

    // Does the same, and locks the shard for reading.
    #[inline(always)]
    pub(super) fn get_under_read_lock<R: Wait>(
        &self,
        rt: &R,
        pass: &mut Pass<K>,
        hash: u64,
        text: &str,
    ) -> Option<K>
        requires of { pass.old.of ≡ self.now.log }
        requires hashed { hash ≡ hash_by S.BuildHasher S.Hasher.Hasher self.now.hasher text.now }
        ensures same { IsSamePass pass.new pass.old }
        ensures since { Since pass.old.number pass.old.notes pass.new.notes [] }
        ensures found { result ≡ key_of K.key_at (list_of self.now.log pass.new.notes) text.now }
    {
        let guard = self.lock(number_of(hash)).read(rt);
        let found = self.get_in_shard(rt, &guard.get().shard, pass, hash, text);
        guard.unlock();
        found
    }

    /// The text's key, or `None` if it is absent, without a pass. A present text is found in the history that its
    /// shard has seen; for an absent one a pass is made.
    pub fn get_once<R: Wait>(&self, rt: &R, text: &str) -> Option<K>
        ensures call { IsPlainCall K.key_at self.now.log.opening (Get text.now) (Found result) }
    {
        let hash = hash_text(&self.hasher, text);
        let guard = self.lock(number_of(hash)).read(rt);
        let shard: &Shard<K, S> = &guard.get().shard;
        if let Some(key) = self.key_in_shard_once(shard, hash, text) {
            guard.unlock();
            return Some(key);
        }
        let mut pass = self.log.pass();
        pass.learn(&shard.known);
        self.wait_until_current(rt, shard, &mut pass, number_of(hash));
        guard.unlock();
        pass.prove_legal();
        None
    }

    /// The text's key, or `None` if it is not in the list. If no hint of the pass leads to it, no text of its
    /// shard is interned meanwhile. It takes no memory.
    pub fn get<R: Wait>(&self, rt: &R, pass: &mut Pass<K>, text: &str) -> Option<K>
        requires { pass.old.of ≡ self.now.log }
        ensures same { IsSamePass pass.new pass.old }
        ensures call { IsPassCall K.key_at self.now.log pass.old pass.new (Get text.now) (Found result) }
    {
        let hash = hash_text(&self.hasher, text);
        if let Some(key) = self.key_by_hint(pass, hash, text) {
            return Some(key);
        }
        self.get_under_read_lock(rt, pass, hash, text)
    }
}
