//! Interning and looking up the texts of a list, one after another, with a look ahead at many of them at a time.
//! Many new texts are appended under one hold of the spine.
//!
//! If hints find most texts when the list comes, each is taken as a single call takes it.
ghost use Rattle.std.specs.Prelude.{◌≡◌, ◌+◌, ◌<◌, ◌≤◌, ◌⊎◌, length, map, OnOk, OnErr, IfErr, vec_len};
ghost use Rattle.std.specs.Vec.{vec_capacity};
ghost use Rattle.lasso_parts.specs.declared.util.LassoErrorKind.TheVariants.{FailedAllocation};
ghost use Rattle.lasso_log.specs.Views.{PassView, InternerId, IsSamePass};
ghost use Rattle.lasso_shared.specs.PassCalls.{PassInterns, PassGets, PassStopsAt};

use crate::shards::Shards;
use crate::shards::new_text::NewText;
use lasso_log::log::Pass;
use lasso_parts::keys::Key;
use lasso_parts::util::LassoResult;
use std::alloc::Allocator;
use std::hash::BuildHasher;
use std::sync::Wait;

impl<K: Key, S: BuildHasher + Drop> Shards<K, S> {
    /// Interns the texts in order, and appends their keys to `keys`. Room for all keys is reserved first; out
    /// of memory for it, nothing changes. Then it stops at the first text that is refused.
    pub fn intern_all<R: Wait, B: Allocator>(
        &self,
        rt: &R,
        pass: &mut Pass<K>,
        texts: &[&str],
        keys: &mut Vec<K, B>,
    ) -> LassoResult<()>
        requires { pass.old.of ≡ self.now.log }
        ensures same { IsSamePass pass.new pass.old }
        ensures interned { OnOk result (PassInterns K.key_at self.now.log pass.old pass.new (map (λ t. t.now) texts.now) keys.old.items keys.new.items) }
        ensures refused { IfErr result (λ error.
            ((error ≡ FailedAllocation) × (pass.new ≡ pass.old) × (keys.new.items ≡ keys.old.items) × (vec_capacity keys.old < vec_len keys.old + length texts.now))
            ⊎ PassStopsAt K.key_at self.now.log pass.old pass.new (map (λ t. t.now) texts.now) keys.old.items keys.new.items error) }
    {
        keys.reserve(texts.len())?;
        if pass.hints_serve() {
            return self.intern_each(rt, pass, texts, keys);
        }
        if texts.is_empty() {
            return Ok(());
        }
        let mut ahead = self.nothing_ahead();
        let mut done = 0;
        while done < texts.len() {
            self.look_ahead(rt, pass, &texts[done..], &mut ahead);
            let next = self.intern_some(rt, pass, texts, done, &mut ahead, keys)?;
            done = next;
        }
        Ok(())
    }

    /// Appends to `keys` the key of each text in order, or `None` for an absent one. Room for all is reserved
    /// first, and its lack is the only error: nothing changes then.
    pub fn get_all<R: Wait, B: Allocator>(
        &self,
        rt: &R,
        pass: &mut Pass<K>,
        texts: &[&str],
        keys: &mut Vec<Option<K>, B>,
    ) -> LassoResult<()>
        requires { pass.old.of ≡ self.now.log }
        ensures same { IsSamePass pass.new pass.old }
        ensures found { OnOk result (PassGets K.key_at self.now.log pass.old pass.new (map (λ t. t.now) texts.now) keys.old.items keys.new.items) }
        ensures unchanged { OnErr result ((pass.new ≡ pass.old) × (keys.new.items ≡ keys.old.items)) }
        ensures refused { IfErr result (λ error. (error ≡ FailedAllocation) × (vec_capacity keys.old < vec_len keys.old + length texts.now)) }
    {
        keys.reserve(texts.len())?;
        if pass.hints_serve() {
            self.get_each(rt, pass, texts, keys);
            return Ok(());
        }
        let mut ahead = self.nothing_ahead();
        for i in 0..texts.len() {
            self.look_ahead(rt, pass, &texts[i..], &mut ahead);
            let found = self.get_next(rt, pass, texts[i], &mut ahead);
            keys.push_reserved(found);
        }
        Ok(())
    }

    // Interns the texts in order with no look ahead. There is room for their keys. It stops at the first text
    // that is refused.
    fn intern_each<R: Wait, B: Allocator>(
        &self,
        rt: &R,
        pass: &mut Pass<K>,
        texts: &[&str],
        keys: &mut Vec<K, B>,
    ) -> LassoResult<()>
        requires of { pass.old.of ≡ self.now.log }
        requires room { vec_len keys.old + length texts.now ≤ vec_capacity keys.old }
        ensures same { IsSamePass pass.new pass.old }
        ensures interned { OnOk result (PassInterns K.key_at self.now.log pass.old pass.new (map (λ t. t.now) texts.now) keys.old.items keys.new.items) }
        ensures refused { IfErr result (λ error. PassStopsAt K.key_at self.now.log pass.old pass.new (map (λ t. t.now) texts.now) keys.old.items keys.new.items error) }
    {
        for i in 0..texts.len() {
            let key = self.intern(rt, pass, NewText::Copied(texts[i]))?;
            keys.push_reserved(key);
        }
        Ok(())
    }

    // Looks up the texts in order with no look ahead. There is room for what is found.
    fn get_each<R: Wait, B: Allocator>(
        &self,
        rt: &R,
        pass: &mut Pass<K>,
        texts: &[&str],
        keys: &mut Vec<Option<K>, B>,
    )
        requires of { pass.old.of ≡ self.now.log }
        requires room { vec_len keys.old + length texts.now ≤ vec_capacity keys.old }
        ensures same { IsSamePass pass.new pass.old }
        ensures found { PassGets K.key_at self.now.log pass.old pass.new (map (λ t. t.now) texts.now) keys.old.items keys.new.items }
    {
        for i in 0..texts.len() {
            let found = self.get(rt, pass, texts[i]);
            keys.push_reserved(found);
        }
    }
}
