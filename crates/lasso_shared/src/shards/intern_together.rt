//! Appending many new texts under one hold of the spine.
//!
//! A text that a look ahead found nowhere is mostly new, and so are others after it. For them the spine is locked
//! once. Then each is interned as if alone: its shard is locked, it is looked up, its bytes are stored, it is put last,
//! and its position goes into the index.
//!
//! Who waits for the spine may hold a shard, so one that holds the spine must not wait for a shard. It tries to lock it
//! a few times, and else ends the hold. So it does before an index grows or cells are made, which takes long. The next
//! text is then interned as if alone.
ghost use Rattle.std.specs.Prelude.{◌≡◌, ◌+◌, ◌-◌, ◌<◌, ◌≤◌, [], length, map, IfOk, IfErr, IfSome, IsNone, vec_len};
ghost use Rattle.std.specs.Vec.{vec_capacity};
ghost use Rattle.lasso_parts.specs.Hashing.{hash_by};
ghost use Rattle.lasso_parts.specs.Index.{room};
ghost use Rattle.lasso_log.specs.History.{Lacks};
ghost use Rattle.lasso_log.specs.Notes.{Since};
ghost use Rattle.lasso_log.specs.Replies.{Copied, Intern, Interned};
ghost use Rattle.lasso_log.specs.Views.{PassView, InternerId, SnapshotView, SpineView, IsSamePass, list_of};
ghost use Rattle.lasso_shared.specs.Locked.{IsLocked, IsWholeFor};
ghost use Rattle.lasso_shared.specs.PassCalls.{IsPassCall, InternsFurther, StopsFurther};
ghost use Rattle.lasso_shared.specs.Shards.{IsTally, shard_of};

use crate::shards::Shards;
use crate::shards::append::or_wait;
use crate::shards::look_ahead::Ahead;
use crate::shards::shard::{Shard, Tally};
use crate::shards::tag::number_of;
use lasso_log::log::Pass;
use lasso_parts::index::hash_text;
use lasso_parts::keys::Key;
use lasso_parts::util::LassoResult;
use std::alloc::Allocator;
use std::hash::BuildHasher;
use std::sync::Wait;

impl<K: Key, S: BuildHasher + Drop> Shards<K, S> {
    // Interns a text that the shard lacks. The shard is locked, and so is the spine, whose list is the pass's.
    fn intern_absent<R: Wait>(
        &self,
        rt: &R,
        tally: &mut Tally<K, S>,
        shard: &mut Shard<K, S>,
        pass: &mut Pass<K>,
        hash: u64,
        text: &str,
    ) -> LassoResult<K>
        requires of { pass.old.of ≡ self.now.log }
        requires hashed { hash ≡ hash_by S.BuildHasher S.Hasher.Hasher self.now.hasher text.now }
        requires held { IsLocked (hash_by S.BuildHasher S.Hasher.Hasher self.now.hasher) (shard_of hash) self.now.log shard.old }
        requires tally { IsTally (hash_by S.BuildHasher S.Hasher.Hasher self.now.hasher) self.now.log tally.old.spine tally.old.counts }
        requires whole { IsWholeFor (hash_by S.BuildHasher S.Hasher.Hasher self.now.hasher) (shard_of hash) self.now.log shard.old pass.old }
        requires list { list_of self.now.log pass.old.notes ≡ list_of self.now.log tally.old.spine.notes }
        requires lacks { Lacks (list_of self.now.log shard.old.known.notes) text.now }
        requires room { 0 < room shard.old.index.slots }
        ensures same { IsSamePass pass.new pass.old }
        ensures call { IsPassCall K.key_at self.now.log pass.old pass.new (Intern Copied text.now) (Interned result) }
        ensures held { IsLocked (hash_by S.BuildHasher S.Hasher.Hasher self.now.hasher) (shard_of hash) self.now.log shard.new }
        ensures tally { IsTally (hash_by S.BuildHasher S.Hasher.Hasher self.now.hasher) self.now.log tally.new.spine tally.new.counts }
    {
        let cell = match self.log.reserve_next(self.alloc, &mut tally.spine) {
            Ok(cell) => cell,
            Err(error) => return Err(error),
        };
        let piece = match self.store_with_spine(rt, tally, pass, text) {
            Ok(piece) => piece,
            Err(error) => {
                tally.spine.give_back(cell);
                return Err(error);
            }
        };
        or_wait(
            rt,
            self.append_current_now(tally, shard, pass, cell, hash, piece),
        )
    }

    // Interns a text whose shard the caller has locked. The spine is locked too. It returns `None`, with no event, if the
    // shard's index has to grow first, or if the cells ahead are not made: each text asks for them, so that no other one
    // waits for its cell for ever.
    fn intern_held_at_once<R: Wait>(
        &self,
        rt: &R,
        tally: &mut Tally<K, S>,
        shard: &mut Shard<K, S>,
        pass: &mut Pass<K>,
        hash: u64,
        text: &str,
    ) -> Option<LassoResult<K>>
        requires of { pass.old.of ≡ self.now.log }
        requires hashed { hash ≡ hash_by S.BuildHasher S.Hasher.Hasher self.now.hasher text.now }
        requires held { IsLocked (hash_by S.BuildHasher S.Hasher.Hasher self.now.hasher) (shard_of hash) self.now.log shard.old }
        requires tally { IsTally (hash_by S.BuildHasher S.Hasher.Hasher self.now.hasher) self.now.log tally.old.spine tally.old.counts }
        ensures same { IsSamePass pass.new pass.old }
        ensures call { IfSome result (λ r. IsPassCall K.key_at self.now.log pass.old pass.new (Intern Copied text.now) (Interned r)) }
        ensures none { IsNone result → Since pass.old.number pass.old.notes pass.new.notes [] }
        ensures held { IsLocked (hash_by S.BuildHasher S.Hasher.Hasher self.now.hasher) (shard_of hash) self.now.log shard.new }
        ensures tally { IsTally (hash_by S.BuildHasher S.Hasher.Hasher self.now.hasher) self.now.log tally.new.spine tally.new.counts }
    {
        if let Some(key) = self.key_in_shard(shard, pass, hash, text) {
            return Some(Ok(key));
        }
        if self.log.find_ahead(pass).is_none() {
            return None;
        }
        if !self.is_current(tally, shard, pass, number_of(hash)) {
            return None;
        }
        if !shard.index.has_room() {
            return None;
        }
        Some(self.intern_absent(rt, tally, shard, pass, hash, text))
    }

    // Interns a text whose shard may be locked at once. The spine is locked. It returns `None`, with no event, if the shard
    // is locked by another thread, or if its index has to grow first.
    #[tactic(auto, using(crate::proofs::Whole::since_self))]
    fn intern_at_once<R: Wait>(
        &self,
        rt: &R,
        tally: &mut Tally<K, S>,
        pass: &mut Pass<K>,
        hash: u64,
        text: &str,
    ) -> Option<LassoResult<K>>
        requires of { pass.old.of ≡ self.now.log }
        requires hashed { hash ≡ hash_by S.BuildHasher S.Hasher.Hasher self.now.hasher text.now }
        requires tally { IsTally (hash_by S.BuildHasher S.Hasher.Hasher self.now.hasher) self.now.log tally.old.spine tally.old.counts }
        ensures same { IsSamePass pass.new pass.old }
        ensures call { IfSome result (λ r. IsPassCall K.key_at self.now.log pass.old pass.new (Intern Copied text.now) (Interned r)) }
        ensures none { IsNone result → Since pass.old.number pass.old.notes pass.new.notes [] }
        ensures tally { IsTally (hash_by S.BuildHasher S.Hasher.Hasher self.now.hasher) self.now.log tally.new.spine tally.new.counts }
    {
        let Some((guard, mut shard)) = self.lock(number_of(hash)).write_now() else {
            return None;
        };
        let reply = self.intern_held_at_once(rt, tally, &mut shard.shard, pass, hash, text);
        guard.unlock(rt, shard);
        reply
    }

    // Interns the next text of those that were looked ahead at. The spine is locked. It returns `None`, with no event, if
    // there is none, or if it can't be interned at once.
    #[tactic(auto, using(crate::proofs::Whole::since_self))]
    fn intern_next_at_once<R: Wait>(
        &self,
        rt: &R,
        tally: &mut Tally<K, S>,
        pass: &mut Pass<K>,
        text: &str,
        ahead: &mut Ahead<K>,
    ) -> Option<LassoResult<K>>
        requires of { (pass.old.of ≡ self.now.log) × (ahead.old.list.of ≡ self.now.log) }
        requires tally { IsTally (hash_by S.BuildHasher S.Hasher.Hasher self.now.hasher) self.now.log tally.old.spine tally.old.counts }
        ensures of { ahead.new.list.of ≡ self.now.log }
        ensures same { IsSamePass pass.new pass.old }
        ensures call { IfSome result (λ r. IsPassCall K.key_at self.now.log pass.old pass.new (Intern Copied text.now) (Interned r)) }
        ensures none { IsNone result → Since pass.old.number pass.old.notes pass.new.notes [] }
        ensures tally { IsTally (hash_by S.BuildHasher S.Hasher.Hasher self.now.hasher) self.now.log tally.new.spine tally.new.counts }
    {
        let Some(guess) = ahead.guesses.next() else {
            return None;
        };
        if let Some(key) = self.key_by_guess(pass, &ahead.list, guess, text) {
            ahead.guesses.pass_over();
            return Some(Ok(key));
        }
        let hash = hash_text(&self.hasher, text);
        let Some(reply) = self.intern_at_once(rt, tally, pass, hash, text) else {
            return None;
        };
        ahead.guesses.pass_over();
        Some(reply)
    }

    // Interns the texts in order from position `from` on, up to one that can't be interned at once, whose position it
    // returns. The spine is locked. There is room for the keys.
    fn intern_many<R: Wait, B: Allocator>(
        &self,
        rt: &R,
        tally: &mut Tally<K, S>,
        pass: &mut Pass<K>,
        texts: &[&str],
        from: usize,
        ahead: &mut Ahead<K>,
        keys: &mut Vec<K, B>,
    ) -> LassoResult<usize>
        requires of { (pass.old.of ≡ self.now.log) × (ahead.old.list.of ≡ self.now.log) }
        requires tally { IsTally (hash_by S.BuildHasher S.Hasher.Hasher self.now.hasher) self.now.log tally.old.spine tally.old.counts }
        requires from { from ≤ length texts.now }
        requires room { vec_len keys.old + (length texts.now - from) ≤ vec_capacity keys.old }
        ensures of { ahead.new.list.of ≡ self.now.log }
        ensures same { IsSamePass pass.new pass.old }
        ensures tally { IsTally (hash_by S.BuildHasher S.Hasher.Hasher self.now.hasher) self.now.log tally.new.spine tally.new.counts }
        ensures done { IfOk result (λ done. (from ≤ done) × (done ≤ length texts.now)) }
        ensures room { IfOk result (λ done. vec_len keys.new + (length texts.now - done) ≤ vec_capacity keys.new) }
        ensures interned { IfOk result (λ done. InternsFurther K.key_at self.now.log pass.old pass.new (map (λ t. t.now) texts.now) from done keys.old.items keys.new.items) }
        ensures refused { IfErr result (λ error. StopsFurther K.key_at self.now.log pass.old pass.new (map (λ t. t.now) texts.now) from keys.old.items keys.new.items error) }
    {
        for i in from..texts.len() {
            let Some(reply) = self.intern_next_at_once(rt, tally, pass, texts[i], ahead) else {
                return Ok(i);
            };
            let key = match reply {
                Ok(key) => key,
                Err(error) => return Err(error),
            };
            keys.push_reserved(key);
        }
        Ok(texts.len())
    }

    // Interns texts from position `from` on under one hold of the spine, as far as that goes, and returns the position of the
    // next text. If too few texts are new, it interns none.
    fn intern_run<R: Wait, B: Allocator>(
        &self,
        rt: &R,
        pass: &mut Pass<K>,
        texts: &[&str],
        from: usize,
        ahead: &mut Ahead<K>,
        keys: &mut Vec<K, B>,
    ) -> LassoResult<usize>
        requires of { (pass.old.of ≡ self.now.log) × (ahead.old.list.of ≡ self.now.log) }
        requires from { from ≤ length texts.now }
        requires room { vec_len keys.old + (length texts.now - from) ≤ vec_capacity keys.old }
        ensures of { ahead.new.list.of ≡ self.now.log }
        ensures same { IsSamePass pass.new pass.old }
        ensures done { IfOk result (λ done. (from ≤ done) × (done ≤ length texts.now)) }
        ensures room { IfOk result (λ done. vec_len keys.new + (length texts.now - done) ≤ vec_capacity keys.new) }
        ensures interned { IfOk result (λ done. InternsFurther K.key_at self.now.log pass.old pass.new (map (λ t. t.now) texts.now) from done keys.old.items keys.new.items) }
        ensures refused { IfErr result (λ error. StopsFurther K.key_at self.now.log pass.old pass.new (map (λ t. t.now) texts.now) from keys.old.items keys.new.items error) }
    {
        if !ahead.guesses.are_new() {
            return Ok(from);
        }
        let (guard, mut held) = self.spine.lock(rt);
        let reply = self.intern_many(rt, &mut held.tally, pass, texts, from, ahead, keys);
        guard.unlock(rt, held);
        reply
    }

    // Interns one text at least from position `from` on, and returns the position of the next text.
    pub(super) fn intern_some<R: Wait, B: Allocator>(
        &self,
        rt: &R,
        pass: &mut Pass<K>,
        texts: &[&str],
        from: usize,
        ahead: &mut Ahead<K>,
        keys: &mut Vec<K, B>,
    ) -> LassoResult<usize>
        requires of { (pass.old.of ≡ self.now.log) × (ahead.old.list.of ≡ self.now.log) }
        requires from { from < length texts.now }
        requires room { vec_len keys.old + (length texts.now - from) ≤ vec_capacity keys.old }
        ensures of { ahead.new.list.of ≡ self.now.log }
        ensures same { IsSamePass pass.new pass.old }
        ensures done { IfOk result (λ done. (from < done) × (done ≤ length texts.now)) }
        ensures room { IfOk result (λ done. vec_len keys.new + (length texts.now - done) ≤ vec_capacity keys.new) }
        ensures interned { IfOk result (λ done. InternsFurther K.key_at self.now.log pass.old pass.new (map (λ t. t.now) texts.now) from done keys.old.items keys.new.items) }
        ensures refused { IfErr result (λ error. StopsFurther K.key_at self.now.log pass.old pass.new (map (λ t. t.now) texts.now) from keys.old.items keys.new.items error) }
    {
        let done = self.intern_run(rt, pass, texts, from, ahead, keys)?;
        if from < done {
            return Ok(done);
        }
        let key = self.intern_next(rt, pass, texts[from], ahead)?;
        keys.push_reserved(key);
        Ok(from + 1)
    }
}
