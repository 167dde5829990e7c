//! Interning and looking up the texts of a list in an interner that threads share, with a pass.
ghost use mathlib.Core.List.{IsPrefix};
ghost use Rattle.std.specs.Prelude.{◌≡◌, ◌+◌, ◌<◌, ◌⊎◌, None, length, map, OnOk, OnErr, IfErr, vec_len};
ghost use Rattle.std.specs.Vec.{vec_capacity};
ghost use Rattle.lasso_parts.specs.Texts.{key_of};
ghost use Rattle.lasso_parts.specs.declared.util.LassoErrorKind.TheVariants.{FailedAllocation};
ghost use Rattle.lasso_log.specs.History.{IsLegal, IsOpening};
ghost use Rattle.lasso_log.specs.Views.{PassView, InternerId, IsSamePass, list_of, seen};
ghost use Rattle.lasso_single.specs.KeyLists.{AddsKeysOfFirst, NextIs};
ghost use Rattle.lasso_shared.specs.BatchKeys.{AddsFoundBetween};
ghost use Rattle.lasso_shared.specs.PassCalls.{PassInterns, PassGets, PassStopsAt};

use crate::threaded::ThreadedRodeo;
use lasso_log::log::Pass;
use lasso_parts::keys::Key;
use lasso_parts::util::LassoResult;
use std::alloc::Allocator;
use std::hash::BuildHasher;
use std::sync::Wait;

impl<K: Key, S: BuildHasher + Drop> ThreadedRodeo<K, S> {
    /// Interns the texts in order as `try_get_or_intern_as` does, and appends the key of each to `keys`. Other
    /// threads may intern texts between them.
    ///
    /// Room for all keys is reserved first; out of memory (`FailedAllocation`) for it, nothing changes. Then it
    /// stops at the first text that is refused, and returns that error. The texts before it are interned, and
    /// their keys are appended: the number of new keys is the refused text's position. It waits as
    /// `try_get_or_intern_as` does.
    ///
    /// ```rust
    /// let rodeo: SpurThreadedRodeo = ThreadedRodeo::default(rt.alloc())?;
    /// let mut pass = rodeo.pass();
    /// let mut keys = Vec::new(rt.alloc());
    /// rodeo.try_get_or_intern_all_as(&rt, &mut pass, &["red", "green", "red"], &mut keys)?;
    /// assert!(rt; keys.len() == 3);
    /// assert!(rt; keys[0] == keys[2]);
    /// assert!(rt; rodeo.try_resolve_as(&mut pass, keys[1]) == Some("green"));
    /// ```
    pub fn try_get_or_intern_all_as<R: Wait, B: Allocator>(
        &self,
        rt: &R,
        pass: &mut Pass<K>,
        texts: &[&str],
        keys: &mut Vec<K, B>,
    ) -> LassoResult<()>
        requires { pass.old.of ≡ self.now }
        // Either way the first texts have keys, one for each added key, which is the text's in what the pass has then seen.
        ensures keys { AddsKeysOfFirst K.key_at (list_of self.now pass.new.notes) (map (λ t. t.now) texts.now) keys.old.items keys.new.items }

        // On success these are all texts.
        ensures whole { OnOk result (vec_len keys.new ≡ vec_len keys.old + length texts.now) }

        // On failure the text after them was refused, which the pass had not seen. Or there was no memory for the keys, and nothing changed.
        ensures stopped { OnErr result (((pass.new ≡ pass.old) × (keys.new.items ≡ keys.old.items))
            ⊎ NextIs keys.old.items keys.new.items (map (λ t. t.now) texts.now) (λ text. key_of K.key_at (list_of self.now pass.old.notes) text ≡ None)) }

        // The pass stays the same one, and what it has seen only grows.
        ensures same { IsSamePass pass.new pass.old }
        ensures kept { IsPrefix (seen pass.old) (seen pass.new) }

        // One list of all threads explains the replies and the events of the calls, one call after another: those of all texts; or of
        // those before the refused one, and of that one. Without memory for the keys there was no call.
        ensures interned { OnOk result (PassInterns K.key_at self.now pass.old pass.new (map (λ t. t.now) texts.now) keys.old.items keys.new.items) }
        ensures refused { IfErr result (λ error.
            ((error ≡ FailedAllocation) × (pass.new ≡ pass.old) × (keys.new.items ≡ keys.old.items) × (vec_capacity keys.old < vec_len keys.old + length texts.now))
            ⊎ PassStopsAt K.key_at self.now pass.old pass.new (map (λ t. t.now) texts.now) keys.old.items keys.new.items error) }
        ensures opening { IsOpening K.key_at self.now.opening }
        ensures legal { IsLegal K.key_at self.now.opening (seen pass.new) }
    {
        let reply = self.shards.intern_all(rt, pass, texts, keys);
        pass.prove_legal();
        reply
    }

    /// Appends to `keys` the key of each text in order, or `None` for an absent one: what `get_as` returns.
    /// Other threads may intern texts between the look-ups.
    ///
    /// The only error is `FailedAllocation`, if `keys` has no room for all of them and can't grow; nothing
    /// changes then. It waits as `get_as` does.
    ///
    /// ```rust
    /// let rodeo: SpurThreadedRodeo = ThreadedRodeo::default(rt.alloc())?;
    /// let mut pass = rodeo.pass();
    /// let red = rodeo.try_get_or_intern_as(&rt, &mut pass, "red")?;
    /// let mut keys = Vec::new(rt.alloc());
    /// rodeo.get_all_as(&rt, &mut pass, &["red", "blue", "red"], &mut keys)?;
    /// assert!(rt; keys.len() == 3);
    /// assert!(rt; keys[0] == Some(red));
    /// assert!(rt; keys[1].is_none());
    /// ```
    pub fn get_all_as<R: Wait, B: Allocator>(
        &self,
        rt: &R,
        pass: &mut Pass<K>,
        texts: &[&str],
        keys: &mut Vec<Option<K>, B>,
    ) -> LassoResult<()>
        requires { pass.old.of ≡ self.now }
        // On success what is found of each text is appended: a key is the text's in what the pass has then seen, and a text that it had
        // seen has its key. One list of all threads explains the replies of the look-ups, one after another.
        ensures keys { OnOk result (AddsFoundBetween K.key_at (list_of self.now pass.old.notes) (list_of self.now pass.new.notes)
            (map (λ t. t.now) texts.now) keys.old.items keys.new.items) }
        ensures found { OnOk result (PassGets K.key_at self.now pass.old pass.new (map (λ t. t.now) texts.now) keys.old.items keys.new.items) }

        // On failure there was no memory for `keys`, and nothing changed. With room for all it can't fail.
        ensures unchanged { OnErr result ((pass.new ≡ pass.old) × (keys.new.items ≡ keys.old.items)) }
        ensures refused { IfErr result (λ error. (error ≡ FailedAllocation) × (vec_capacity keys.old < vec_len keys.old + length texts.now)) }

        // The pass stays the same one, and what it has seen only grows.
        ensures same { IsSamePass pass.new pass.old }
        ensures kept { IsPrefix (seen pass.old) (seen pass.new) }
        ensures opening { IsOpening K.key_at self.now.opening }
        ensures legal { IsLegal K.key_at self.now.opening (seen pass.new) }
    {
        let reply = self.shards.get_all(rt, pass, texts, keys);
        pass.prove_legal();
        reply
    }
}
