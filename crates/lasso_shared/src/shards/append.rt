//! Appending a new text, while its shard is held.
//!
//! Memory is asked for first: room in the index, and cells of the log ahead of its length. Then the bytes of
//! a copied text are stored. Then, in one hold of the spine, one of those cells is kept, the key type
//! is asked, and the text is appended. Its position goes into the index. The shard is held throughout: so
//! what was looked up stays, what was stored is not stored again, and a retry compares numbers alone and asks
//! for no memory.
ghost use Rattle.std.specs.Prelude.{◌≡◌, ◌<◌, ◌-◌, [], Some, IfOk, IfErr, IfSome, IsNone, OnOk, OnErr};
ghost use base.Fml.{Incl};
ghost use mathlib.Core.List.{IsPrefix};
ghost use Rattle.lasso_parts.specs.declared.util.LassoErrorKind.TheVariants.{FailedAllocation};
ghost use Rattle.lasso_parts.specs.Hashing.{hash_by};
ghost use Rattle.lasso_parts.specs.Index.{room};
ghost use Rattle.lasso_log.specs.Chunks.{era_named};
ghost use Rattle.lasso_log.specs.Eras.{life};
ghost use Rattle.lasso_log.specs.History.{Lacks};
ghost use Rattle.lasso_log.specs.Notes.{Since};
ghost use Rattle.lasso_log.specs.Pieces.{PieceView};
ghost use Rattle.lasso_shared.specs.Locked.{IsLocked, IsWholeFor};
ghost use Rattle.lasso_shared.specs.Shards.{IsTally, PutsLast, shard_of};
ghost use Rattle.lasso_log.specs.Views.{PassView, InternerId, SnapshotView, IsSamePass, list_of};

use crate::shards::Shards;
use crate::shards::shard::{Shard, Tally};
use crate::shards::tag::number_of;
use lasso_log::log::{CellsAhead, KeptCell, Pass};
use lasso_log::shared_memory::piece::Piece;
use lasso_parts::keys::Key;
use lasso_parts::util::{LassoError, LassoErrorKind, LassoResult};
use std::hash::BuildHasher;
use std::hint::spin_loop;
use std::sync::Wait;

// The reply of a call that doesn't wait. If there is none it waits for ever, which can't be for a text whose cell is made and
// that is appended while the spine is held: nobody else is in the way then.
pub(super) fn or_wait<R: Wait, K: Key>(rt: &R, reply: Option<LassoResult<K>>) -> LassoResult<K>
    ensures { reply ≡ Some result }
{
    if let Some(reply) = reply {
        return reply;
    }
    for _ in rt.forever() {
        spin_loop();
    }
    unreachable!()
}

impl<K: Key, S: BuildHasher + Drop> Shards<K, S> {
    // Returns the cells of the log ahead of its length. If they are not made yet, the spine is locked, so that one
    // thread makes them.
    fn cells_ahead<R: Wait>(&self, rt: &R, pass: &mut Pass<K>) -> LassoResult<CellsAhead<K>>
        requires { pass.old.of ≡ self.now.log }
        ensures same { IsSamePass pass.new pass.old }
        ensures since { Since pass.old.number pass.old.notes pass.new.notes [] }
        ensures ahead { IfOk result (λ a. (a.of ≡ self.now.log) × (a.notes ≡ pass.new.notes)) }
        ensures refused { IfErr result (λ error. error ≡ FailedAllocation) }
    {
        if let Some(ahead) = self.log.find_ahead(pass) {
            return Ok(ahead);
        }
        let (guard, held) = self.spine.lock(rt);
        let made = self.log.make_ahead(rt, self.alloc, pass);
        guard.unlock(rt, held);
        made
    }

    // Makes room for one text in the shard's index. Out of memory, the shard keeps its texts.
    pub(super) fn grow_index(
        &self,
        shard: &mut Shard<K, S>,
        pass: &Pass<K>,
        number: usize,
    ) -> LassoResult<()>
        requires of { pass.now.of ≡ self.now.log }
        requires held { IsLocked (hash_by S.BuildHasher S.Hasher.Hasher self.now.hasher) number self.now.log shard.old }
        requires begins { IsPrefix shard.old.known.notes pass.now.notes }
        ensures held { IsLocked (hash_by S.BuildHasher S.Hasher.Hasher self.now.hasher) number self.now.log shard.new }
        ensures known { shard.new.known ≡ shard.old.known }
        ensures room { OnOk result (0 < room shard.new.index.slots) }
        ensures refused { IfErr result (λ error. error ≡ FailedAllocation) }
    {
        let seen_texts = self.log.seen_texts(pass);
        shard.index.reserve_one(&seen_texts, &self.hasher)?;
        Ok(())
    }

    // Makes room for one text in the shard's index, and cells in the log. Out of memory, the shard keeps its texts.
    fn grow<R: Wait>(
        &self,
        rt: &R,
        shard: &mut Shard<K, S>,
        pass: &mut Pass<K>,
        number: usize,
    ) -> LassoResult<CellsAhead<K>>
        requires of { pass.old.of ≡ self.now.log }
        requires held { IsLocked (hash_by S.BuildHasher S.Hasher.Hasher self.now.hasher) number self.now.log shard.old }
        requires begins { IsPrefix shard.old.known.notes pass.old.notes }
        ensures same { IsSamePass pass.new pass.old }
        ensures since { Since pass.old.number pass.old.notes pass.new.notes [] }
        ensures begins { IsPrefix shard.old.known.notes pass.new.notes }
        ensures held { IsLocked (hash_by S.BuildHasher S.Hasher.Hasher self.now.hasher) number self.now.log shard.new }
        ensures known { shard.new.known ≡ shard.old.known }
        ensures room { OnOk result (0 < room shard.new.index.slots) }
        ensures ahead { IfOk result (λ a. (a.of ≡ self.now.log) × (a.notes ≡ pass.new.notes)) }
        ensures refused { IfErr result (λ error. error ≡ FailedAllocation) }
    {
        self.grow_index(shard, pass, number)?;
        self.cells_ahead(rt, pass)
    }

    // Makes the same room. Out of memory, the shard is also whole for what the pass has then seen.
    pub(super) fn make_room<R: Wait>(
        &self,
        rt: &R,
        shard: &mut Shard<K, S>,
        pass: &mut Pass<K>,
        number: usize,
    ) -> LassoResult<CellsAhead<K>>
        requires of { (pass.old.of ≡ self.now.log) × (number < 16) }
        requires held { IsLocked (hash_by S.BuildHasher S.Hasher.Hasher self.now.hasher) number self.now.log shard.old }
        requires begins { IsPrefix shard.old.known.notes pass.old.notes }
        ensures same { IsSamePass pass.new pass.old }
        ensures since { Since pass.old.number pass.old.notes pass.new.notes [] }
        ensures begins { IsPrefix shard.old.known.notes pass.new.notes }
        ensures held { IsLocked (hash_by S.BuildHasher S.Hasher.Hasher self.now.hasher) number self.now.log shard.new }
        ensures known { shard.new.known ≡ shard.old.known }
        ensures whole { OnErr result (IsWholeFor (hash_by S.BuildHasher S.Hasher.Hasher self.now.hasher) number self.now.log shard.old pass.new) }
        ensures room { OnOk result (0 < room shard.new.index.slots) }
        ensures ahead { IfOk result (λ a. (a.of ≡ self.now.log) × (a.notes ≡ pass.new.notes)) }
        ensures refused { IfErr result (λ error. error ≡ FailedAllocation) }
    {
        match self.grow(rt, shard, pass, number) {
            Ok(ahead) => Ok(ahead),
            Err(error) => {
                self.wait_until_current(rt, shard, pass, number);
                Err(error)
            }
        }
    }

    // Appends the text. The shard must be whole for what the pass has seen, and the spine must have seen that list. If the key
    // type has no key for the position, the cell is given back. It returns `None`, and appends nothing, if the length is not the
    // spine's, or if the text's cell is not made or is filled.
    fn append_whole_now(
        &self,
        tally: &mut Tally<K, S>,
        shard: &mut Shard<K, S>,
        pass: &mut Pass<K>,
        cell: KeptCell<K>,
        hash: u64,
        text: Piece,
    ) -> Option<LassoResult<K>>
        requires of { (pass.old.of ≡ self.now.log) × (cell ≡ self.now.log) }
        requires lasts { Incl (life (era_named self.now.log.chunks)) text.until }
        requires hashed { hash ≡ hash_by S.BuildHasher S.Hasher.Hasher self.now.hasher text.text }
        requires held { IsLocked (hash_by S.BuildHasher S.Hasher.Hasher self.now.hasher) (shard_of hash) self.now.log shard.old }
        requires tally { IsTally (hash_by S.BuildHasher S.Hasher.Hasher self.now.hasher) self.now.log tally.old.spine tally.old.counts }
        requires whole { IsWholeFor (hash_by S.BuildHasher S.Hasher.Hasher self.now.hasher) (shard_of hash) self.now.log shard.old pass.old }
        requires list { list_of self.now.log pass.old.notes ≡ list_of self.now.log tally.old.spine.notes }
        requires lacks { Lacks (list_of self.now.log shard.old.known.notes) text.text }
        requires room { 0 < room shard.old.index.slots }
        ensures same { IsSamePass pass.new pass.old }
        ensures put { IfSome result (PutsLast K.key_at self.now.log pass.old.number pass.old.notes pass.new.notes text.text) }
        ensures busy { IsNone result → pass.new ≡ pass.old }
        ensures held { IsLocked (hash_by S.BuildHasher S.Hasher.Hasher self.now.hasher) (shard_of hash) self.now.log shard.new }
        ensures tally { IsTally (hash_by S.BuildHasher S.Hasher.Hasher self.now.hasher) self.now.log tally.new.spine tally.new.counts }
        ensures kept { tally.new.spine.kept ≡ tally.old.spine.kept - 1 }
    {
        pass.prove_legal();
        let Some(key) = K::try_from_usize(tally.spine.len() as usize) else {
            tally.spine.give_back(cell);
            return Some(Err(LassoError::new(LassoErrorKind::KeySpaceExhaustion)));
        };
        if !self.log.append_now(&mut tally.spine, pass, cell, text) {
            return None;
        }
        // The length of the longer list fits in 64 bits, so the shard's count, which is not above it, can't overflow.
        let _len = tally.spine.len();
        shard.index.insert_reserved(hash, key);
        shard.known = pass.snapshot();
        shard.count += 1;
        tally.counts[number_of(hash)] = shard.count;
        Some(Ok(key))
    }

    // Appends the text as `append_whole_now` does, once the shard is whole for what the pass has then seen. It also returns `None` if
    // it is not. The cell is given back then.
    pub(super) fn append_current_now(
        &self,
        tally: &mut Tally<K, S>,
        shard: &mut Shard<K, S>,
        pass: &mut Pass<K>,
        cell: KeptCell<K>,
        hash: u64,
        text: Piece,
    ) -> Option<LassoResult<K>>
        requires of { (pass.old.of ≡ self.now.log) × (cell ≡ self.now.log) }
        requires lasts { Incl (life (era_named self.now.log.chunks)) text.until }
        requires hashed { hash ≡ hash_by S.BuildHasher S.Hasher.Hasher self.now.hasher text.text }
        requires held { IsLocked (hash_by S.BuildHasher S.Hasher.Hasher self.now.hasher) (shard_of hash) self.now.log shard.old }
        requires tally { IsTally (hash_by S.BuildHasher S.Hasher.Hasher self.now.hasher) self.now.log tally.old.spine tally.old.counts }
        requires begins { IsPrefix shard.old.known.notes pass.old.notes }
        requires lacks { Lacks (list_of self.now.log shard.old.known.notes) text.text }
        requires room { 0 < room shard.old.index.slots }
        ensures same { IsSamePass pass.new pass.old }
        ensures put { IfSome result (PutsLast K.key_at self.now.log pass.old.number pass.old.notes pass.new.notes text.text) }
        ensures busy { IsNone result → Since pass.old.number pass.old.notes pass.new.notes [] }
        ensures held { IsLocked (hash_by S.BuildHasher S.Hasher.Hasher self.now.hasher) (shard_of hash) self.now.log shard.new }
        ensures tally { IsTally (hash_by S.BuildHasher S.Hasher.Hasher self.now.hasher) self.now.log tally.new.spine tally.new.counts }
    {
        if !self.is_current(tally, shard, pass, number_of(hash)) {
            tally.spine.give_back(cell);
            return None;
        }
        self.append_whole_now(tally, shard, pass, cell, hash, text)
    }

    // Appends the text, once the shard is whole for what the pass has then seen. The caller has made cells
    // ahead, so the loop asks for no memory. It tries again if the text's cell is not made, which can't
    // happen while each caller locks a shard and made its cells under that lock.
    pub(super) fn append_current<R: Wait>(
        &self,
        rt: &R,
        shard: &mut Shard<K, S>,
        pass: &mut Pass<K>,
        ahead: CellsAhead<K>,
        hash: u64,
        text: Piece,
    ) -> LassoResult<K>
        requires of { (pass.old.of ≡ self.now.log) × (ahead.of ≡ self.now.log) }
        requires lasts { Incl (life (era_named self.now.log.chunks)) text.until }
        requires hashed { hash ≡ hash_by S.BuildHasher S.Hasher.Hasher self.now.hasher text.text }
        requires held { IsLocked (hash_by S.BuildHasher S.Hasher.Hasher self.now.hasher) (shard_of hash) self.now.log shard.old }
        requires begins { IsPrefix shard.old.known.notes pass.old.notes }
        requires lacks { Lacks (list_of self.now.log shard.old.known.notes) text.text }
        requires room { 0 < room shard.old.index.slots }
        ensures same { IsSamePass pass.new pass.old }
        ensures put { PutsLast K.key_at self.now.log pass.old.number pass.old.notes pass.new.notes text.text result }
        ensures held { IsLocked (hash_by S.BuildHasher S.Hasher.Hasher self.now.hasher) (shard_of hash) self.now.log shard.new }
    {
        for _ in rt.forever() {
            let (guard, mut held) = self.lock_spine_when_current(rt, shard, pass, number_of(hash));
            let tally: &mut Tally<K, S> = &mut held.tally;
            if let Some(cell) = self.log.reserve_ahead(&mut tally.spine, &ahead) {
                let reply = or_wait(
                    rt,
                    self.append_whole_now(tally, shard, pass, cell, hash, text),
                );
                guard.unlock(rt, held);
                return reply;
            }
            guard.unlock(rt, held);
        }
        unreachable!()
    }
}
