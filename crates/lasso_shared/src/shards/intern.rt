//! Interning a text, in phases.
//!
//! The text is looked up by the hints of the pass, and then under the shard's read lock. If it is absent the
//! shard is locked for writing, it is looked up again, and the shard is compared with the spine's number of it.
//! Then room is made, the bytes of a text that is copied are stored, and the text is put last. The shard is held
//! to the end: so what was looked up stays. A text that is static or empty has no bytes to be stored.
ghost use Rattle.std.specs.Prelude.{◌≡◌};
ghost use Rattle.lasso_parts.specs.Hashing.{hash_by};
ghost use Rattle.lasso_log.specs.Replies.{Interned};
ghost use Rattle.lasso_log.specs.Calls.{IsPlainCall};
ghost use Rattle.lasso_log.specs.Views.{PassView, InternerId, IsSamePass};
ghost use Rattle.lasso_shared.specs.NewTexts.{text_of, intern_of};
ghost use Rattle.lasso_shared.specs.Locked.{IsLocked};
ghost use Rattle.lasso_shared.specs.PassCalls.{IsPassCall};
ghost use Rattle.lasso_shared.specs.Shards.{shard_of};

use crate::shards::Shards;
use crate::shards::new_text::NewText;
use crate::shards::shard::Shard;
use crate::shards::tag::number_of;
use lasso_log::log::Pass;
use lasso_parts::index::hash_text;
use lasso_parts::keys::Key;
use lasso_parts::util::LassoResult;
use std::hash::BuildHasher;
use std::sync::Wait;

impl<K: Key, S: BuildHasher + Drop> Shards<K, S> {
    // Interns a text whose shard the caller has locked.
    fn intern_held<R: Wait>(
        &self,
        rt: &R,
        shard: &mut Shard<K, S>,
        pass: &mut Pass<K>,
        hash: u64,
        text: NewText<'_>,
    ) -> LassoResult<K>
        requires of { pass.old.of ≡ self.now.log }
        requires hashed { hash ≡ hash_by S.BuildHasher S.Hasher.Hasher self.now.hasher (text_of text) }
        requires held { IsLocked (hash_by S.BuildHasher S.Hasher.Hasher self.now.hasher) (shard_of hash) self.now.log shard.old }
        ensures same { IsSamePass pass.new pass.old }
        ensures call { IsPassCall K.key_at self.now.log pass.old pass.new (intern_of text.entry) (Interned result) }
        ensures held { IsLocked (hash_by S.BuildHasher S.Hasher.Hasher self.now.hasher) (shard_of hash) self.now.log shard.new }
    {
        if let Some(key) = self.key_in_shard(shard, pass, hash, text.as_str()) {
            return Ok(key);
        }
        let ahead = self.make_room(rt, shard, pass, number_of(hash))?;
        let piece = self.store(rt, shard, pass, hash, text)?;
        self.append_current(rt, shard, pass, ahead, hash, piece)
    }

    // Interns a text that the first look-up did not find. It is not inlined, so that a call with a present text sets up
    // nothing for it.
    #[inline(never)]
    pub(super) fn intern_new<R: Wait>(
        &self,
        rt: &R,
        pass: &mut Pass<K>,
        hash: u64,
        text: NewText<'_>,
    ) -> LassoResult<K>
        requires of { pass.old.of ≡ self.now.log }
        requires hashed { hash ≡ hash_by S.BuildHasher S.Hasher.Hasher self.now.hasher (text_of text) }
        ensures same { IsSamePass pass.new pass.old }
        ensures call { IsPassCall K.key_at self.now.log pass.old pass.new (intern_of text.entry) (Interned result) }
    {
        let (guard, mut shard) = self.lock(number_of(hash)).write(rt);
        let reply = self.intern_held(rt, &mut shard.shard, pass, hash, text);
        guard.unlock(rt, shard);
        reply
    }

    /// Returns the text's key, and appends an absent text first. A new text may fail out of memory (`FailedAllocation`); else a copied
    /// one fails if the memory limit leaves no room for its bytes (`MemoryLimitReached`), or either if the key type has no key for its
    /// position (`KeySpaceExhaustion`). In the last case the bytes of a copied one may stay taken; otherwise no event is added.
    pub fn intern<R: Wait>(&self, rt: &R, pass: &mut Pass<K>, text: NewText<'_>) -> LassoResult<K>
        requires { pass.old.of ≡ self.now.log }
        ensures same { IsSamePass pass.new pass.old }
        ensures call { IsPassCall K.key_at self.now.log pass.old pass.new (intern_of text.entry) (Interned result) }
    {
        let letters = text.as_str();
        let hash = hash_text(&self.hasher, letters);
        if let Some(key) = self.key_by_hint_or_read_lock(rt, pass, hash, letters) {
            return Ok(key);
        }
        self.intern_new(rt, pass, hash, text)
    }

    /// Interns a text without a pass. A present one is found in the history that its shard has seen; for an absent one a pass is
    /// made.
    pub fn intern_once<R: Wait>(&self, rt: &R, text: NewText<'_>) -> LassoResult<K>
        ensures call { IsPlainCall K.key_at self.now.log.opening (intern_of text.entry) (Interned result) }
    {
        let letters = text.as_str();
        let hash = hash_text(&self.hasher, letters);
        if let Some(key) = self.key_under_read_lock_once(rt, hash, letters) {
            return Ok(key);
        }
        let mut pass = self.log.pass();
        let reply = self.intern_new(rt, &mut pass, hash, text);
        pass.prove_legal();
        reply
    }
}
