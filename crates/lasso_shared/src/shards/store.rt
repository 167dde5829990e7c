//! The bytes of a text that is copied: they are stored while the text's shard is held, before the key type is asked.
//!
//! The buckets are walked without the spine. If none has room the spine is locked, and the shard is compared
//! with the spine's number of it. Then the buckets are walked again, and one is added if none has room still.
//! So a refusal by the limit is one of a step at which the list lacks the text.
ghost use Rattle.std.specs.Prelude.{◌≡◌, ◌≢◌, [], List, Err, IfOk, IfErr, IfSome, IsNone, OnErr, OnOk};
ghost use mathlib.Core.List.{IsPrefix};
ghost use base.Fml.{Incl};
ghost use Rattle.lasso_parts.specs.Hashing.{hash_by};
ghost use Rattle.lasso_log.specs.Calls.{Stores, TakesBytes};
ghost use Rattle.lasso_log.specs.Charges.{IsRefusal};
ghost use Rattle.lasso_log.specs.Chunks.{era_named};
ghost use Rattle.lasso_log.specs.Eras.{life};
ghost use Rattle.lasso_log.specs.History.{Event, Lacks};
ghost use Rattle.lasso_log.specs.Notes.{Since};
ghost use Rattle.lasso_log.specs.Pieces.{PieceView, RangeView};
ghost use Rattle.lasso_log.specs.Replies.{Copied, Interned};
ghost use Rattle.lasso_shared.specs.NewTexts.{keeping_of, text_of, intern_of, IsUnstored, StoresText};
ghost use Rattle.lasso_shared.specs.Locked.{IsLocked};
ghost use Rattle.lasso_shared.specs.PassCalls.{IsPassCall};
ghost use Rattle.lasso_shared.specs.Shards.{shard_of};
ghost use Rattle.lasso_log.specs.Views.{PassView, InternerId, SpineView, IsSamePass, IsSameSpine, list_of};

use crate::shards::Shards;
use crate::shards::new_text::NewText;
use crate::shards::shard::{Shard, Tally};
use crate::shards::tag::number_of;
use lasso_log::log::Pass;
use lasso_log::shared_memory::piece::{Piece, Range};
use lasso_parts::keys::Key;
use lasso_parts::util::LassoResult;
use std::hash::BuildHasher;
use std::hint::spin_loop;
use std::sync::Wait;

impl<K: Key, S: BuildHasher + Drop> Shards<K, S> {
    // Takes `bytes` bytes, at least one, with the spine locked: in a bucket that has room for them, or else in
    // a new one. A refusal adds no event. If the limit refuses, it does so at a step at which the list is as
    // long as the spine's. It returns `None`, with no event, if others are in the way.
    fn reserve_or_charge_now(
        &self,
        tally: &mut Tally<K, S>,
        pass: &mut Pass<K>,
        bytes: u64,
    ) -> Option<LassoResult<Range>>
        requires of { (pass.old.of ≡ self.now.log) × (tally.old.spine.of ≡ self.now.log) }
        requires some { bytes ≢ 0 }
        ensures same { IsSamePass pass.new pass.old }
        ensures tally { IsSameSpine tally.new.spine tally.old.spine × (tally.new.counts ≡ tally.old.counts) }
        ensures event { IfSome result (λ r. OnOk r ((own : List Event) × TakesBytes bytes own × Since pass.old.number pass.old.notes pass.new.notes own)) }
        ensures range { IfSome result (λ r. IfOk r (λ range. (range.era ≡ era_named self.now.log.chunks) × (range.len ≡ bytes))) }
        ensures refused { IfSome result (λ r. IfErr r (IsRefusal self.now.log tally.old.spine.notes pass.old.notes pass.new.notes bytes)) }
        ensures err { IfSome result (λ r. OnErr r (Since pass.old.number pass.old.notes pass.new.notes [])) }
        ensures busy { IsNone result → Since pass.old.number pass.old.notes pass.new.notes [] }
    {
        if let Some(range) = self
            .log
            .reserve_now(&self.buckets, &tally.spine, pass, bytes)?
        {
            return Some(Ok(range));
        }
        self.log
            .charge_now(self.alloc, &self.buckets, &mut tally.spine, pass, bytes)
    }

    // Copies a text into a bucket of the history. The spine is locked. It is refused as `reserve_or_charge_now` refuses its bytes,
    // and returns `None` as that does. An empty text has no bytes.
    pub(super) fn store_with_spine_now(
        &self,
        tally: &mut Tally<K, S>,
        pass: &mut Pass<K>,
        text: &str,
    ) -> Option<LassoResult<Piece>>
        requires { (pass.old.of ≡ self.now.log) × (tally.old.spine.of ≡ self.now.log) }
        ensures same { IsSamePass pass.new pass.old }
        ensures tally { IsSameSpine tally.new.spine tally.old.spine × (tally.new.counts ≡ tally.old.counts) }
        ensures event { IfSome result (λ r. IfOk r (λ p. (own : List Event) × Stores Copied text.now own × Since pass.old.number pass.old.notes pass.new.notes own)) }
        ensures piece { IfSome result (λ r. IfOk r (λ p. (p.text ≡ text.now) × Incl (life (era_named self.now.log.chunks)) p.until)) }
        ensures lies { IfSome result (λ r. IfOk r (λ p. text.now ≢ [] → p.until ≡ life (era_named self.now.log.chunks))) }
        ensures refused { IfSome result (λ r. IfErr r (IsUnstored self.now.log tally.old.spine.notes pass.old.notes pass.new.notes text.now)) }
        ensures err { IfSome result (λ r. OnErr r (Since pass.old.number pass.old.notes pass.new.notes [])) }
        ensures busy { IsNone result → Since pass.old.number pass.old.notes pass.new.notes [] }
    {
        if text.is_empty() {
            return Some(Ok(Piece::from_static("")));
        }
        let reply = self.reserve_or_charge_now(tally, pass, text.len() as u64)?;
        let range = match reply {
            Ok(range) => range,
            Err(error) => return Some(Err(error)),
        };
        Some(Ok(range.fill(self.log.era(), text)))
    }

    // Does the same, and waits while others are in the way.
    pub(super) fn store_with_spine<R: Wait>(
        &self,
        rt: &R,
        tally: &mut Tally<K, S>,
        pass: &mut Pass<K>,
        text: &str,
    ) -> LassoResult<Piece>
        requires { (pass.old.of ≡ self.now.log) × (tally.old.spine.of ≡ self.now.log) }
        ensures same { IsSamePass pass.new pass.old }
        ensures tally { IsSameSpine tally.new.spine tally.old.spine × (tally.new.counts ≡ tally.old.counts) }
        ensures event { IfOk result (λ p. (own : List Event) × Stores Copied text.now own × Since pass.old.number pass.old.notes pass.new.notes own) }
        ensures piece { IfOk result (λ p. (p.text ≡ text.now) × Incl (life (era_named self.now.log.chunks)) p.until) }
        ensures lies { IfOk result (λ p. text.now ≢ [] → p.until ≡ life (era_named self.now.log.chunks)) }
        ensures refused { IfErr result (IsUnstored self.now.log tally.old.spine.notes pass.old.notes pass.new.notes text.now) }
        ensures err { OnErr result (Since pass.old.number pass.old.notes pass.new.notes []) }
    {
        for _ in rt.forever() {
            if let Some(reply) = self.store_with_spine_now(tally, pass, text) {
                return reply;
            }
            spin_loop();
        }
        unreachable!()
    }

    // Returns the text at its lasting place: a copy in a bucket, or the text itself if it is static or empty. The locked
    // shard must lack the text.
    pub(super) fn store<R: Wait>(
        &self,
        rt: &R,
        shard: &Shard<K, S>,
        pass: &mut Pass<K>,
        hash: u64,
        text: NewText<'_>,
    ) -> LassoResult<Piece>
        requires of { pass.old.of ≡ self.now.log }
        requires hashed { hash ≡ hash_by S.BuildHasher S.Hasher.Hasher self.now.hasher (text_of text) }
        requires held { IsLocked (hash_by S.BuildHasher S.Hasher.Hasher self.now.hasher) (shard_of hash) self.now.log shard.now }
        requires begins { IsPrefix shard.now.known.notes pass.old.notes }
        requires lacks { Lacks (list_of self.now.log shard.now.known.notes) (text_of text) }
        ensures same { IsSamePass pass.new pass.old }
        ensures event { IfOk result (λ p. StoresText text.entry pass.old pass.new) }
        ensures piece { IfOk result (λ p. (p.text ≡ text_of text.entry) × Incl (life (era_named self.now.log.chunks)) p.until) }
        ensures lies { IfOk result (λ p. keeping_of text.entry ≡ Copied → text_of text.entry ≢ [] → p.until ≡ life (era_named self.now.log.chunks)) }
        ensures refused { IfErr result (λ error. IsPassCall K.key_at self.now.log pass.old pass.new (intern_of text.entry) (Interned (Err error))) }
    {
        let text = match text {
            NewText::Static(text) => return Ok(Piece::from_static(text)),
            NewText::Copied(text) => text,
        };
        if text.is_empty() {
            return Ok(Piece::from_static(""));
        }
        let bytes = text.len() as u64;
        if let Some(range) = self.log.reserve_anywhere(rt, &self.buckets, pass, bytes) {
            return Ok(range.fill(self.log.era(), text));
        }
        let (guard, mut held) = self.lock_spine_when_current(rt, shard, pass, number_of(hash));
        let piece = self.store_with_spine(rt, &mut held.tally, pass, text);
        guard.unlock(rt, held);
        piece
    }
}
