//! The calls of a `Rodeo` that take a list of texts or of keys and read.
ghost use Rattle.std.specs.Prelude.{◌≡◌, ◌+◌, ◌++◌, ◌<◌, ◌≤◌, ◌↔◌, length, map, IsTrue, OnOk, OnErr, IfErr, vec_len};
ghost use Rattle.std.specs.Vec.{vec_capacity};
ghost use Rattle.lasso_parts.specs.Texts.{key_of};
ghost use Rattle.lasso_parts.specs.declared.util.LassoErrorKind.TheVariants.{FailedAllocation};
ghost use Rattle.lasso_single.specs.KeyLists.{AddsFound, AddsTexts, HaveTexts};

use super::Rodeo;
use super::guessing::{get_guessed, get_hashed, guess_by, hash_all};
use crate::batch::TOGETHER;
use lasso_parts::index::hash_text;
use lasso_parts::keys::Key;
use lasso_parts::util::LassoResult;
use std::alloc::Allocator;
use std::hash::BuildHasher;

// From how many bytes on an index is out of the nearer caches of a core: an estimate. A search for an absent text
// reads a fifth of them, the fingerprints.
const FAR_BYTES: usize = 4_194_304;

impl<K: Key, S: BuildHasher, A: Allocator> Rodeo<K, S, A> {
    /// Appends to `keys` the key of each text in order, or `None` for an absent one: what `get` returns.
    /// Texts are looked up in batches, which is faster than one after another if they are out of the
    /// caches.
    ///
    /// The only error is `FailedAllocation`, if `keys` has no room for all of them and can't grow. It keeps its
    /// items then.
    ///
    /// ```rust
    /// let mut rodeo = Rodeo::default(rt.alloc())?;
    /// rodeo.extend(["red", "green"])?;
    /// let mut keys = Vec::new(rt.alloc());
    /// rodeo.get_all(&["green", "blue", "green"], &mut keys)?;
    /// assert!(rt; keys.len() == 3);
    /// assert!(rt; keys[0] == rodeo.get("green"));
    /// assert!(rt; keys[1].is_none());
    /// ```
    pub fn get_all<B: Allocator>(
        &self,
        texts: &[&str],
        keys: &mut Vec<Option<K>, B>,
    ) -> LassoResult<()>
        // On success `keys` has at its end each text's key in order, or `None` of an absent one.
        ensures keys { OnOk result (keys.new.items ≡ keys.old.items ++ map (key_of K.key_at self.now.texts) (map (λ t. t.now) texts.now)) }

        // On failure memory ran out for `keys`, which has the same items. With room for all it can't.
        ensures unchanged { OnErr result (keys.new.items ≡ keys.old.items) }
        ensures refused { IfErr result (λ error. (error ≡ FailedAllocation) × (vec_capacity keys.old < vec_len keys.old + length texts.now)) }
    {
        keys.reserve(texts.len())?;
        let mut from = 0;
        while from < texts.len() {
            let count = (texts.len() - from).min(TOGETHER);
            self.get_batch(&texts[from..from + count], keys);
            from += count;
        }
        Ok(())
    }

    /// Whether each key stands for a text of this interner.
    pub fn contains_keys(&self, keys: &[K]) -> bool
        ensures { IsTrue result ↔ HaveTexts K.number self.now.texts keys.now }
    {
        self.list.contains_keys(keys)
    }

    /// Appends to `texts` the text of each key in order: what `resolve` returns. Each key must stand for a
    /// text of this interner: `contains_keys` is the test.
    ///
    /// The only error is `FailedAllocation`, if `texts` has no room for all of them and can't grow. It keeps its
    /// items then.
    ///
    /// ```rust
    /// let mut rodeo = Rodeo::default(rt.alloc())?;
    /// let red = rodeo.try_get_or_intern("red")?;
    /// let green = rodeo.try_get_or_intern("green")?;
    /// let mut texts = Vec::new(rt.alloc());
    /// assert!(rt; rodeo.contains_keys(&[green, red, green]));
    /// rodeo.resolve_all(&[green, red, green], &mut texts)?;
    /// assert!(rt; texts.as_slice() == ["green", "red", "green"].as_slice());
    /// ```
    pub fn resolve_all<'a, B: Allocator>(
        &'a self,
        keys: &[K],
        texts: &mut Vec<&'a str, B>,
    ) -> LassoResult<()>
        requires { HaveTexts K.number self.now.texts keys.now }

        // On success `texts` has at its end each key's text in order.
        ensures texts { OnOk result (AddsTexts K.number self.now.texts keys.now texts.old.items texts.new.items) }

        // On failure memory ran out for `texts`, which has the same items. With room for all it can't.
        ensures unchanged { OnErr result (texts.new.items ≡ texts.old.items) }
        ensures refused { IfErr result (λ error. (error ≡ FailedAllocation) × (vec_capacity texts.old < vec_len texts.old + length keys.now)) }
    {
        self.list.resolve_all(keys, texts)
    }

    // Appends the keys of a batch. Looking ahead at absent texts pays if the index is out of the nearer caches,
    // and at present ones always, since no branch then depends on which slot a text is in. Whether texts are
    // present is told by the last one before the batch.
    fn get_batch<B: Allocator>(&self, texts: &[&str], keys: &mut Vec<Option<K>, B>)
        requires few { length texts.now ≤ 32 }
        requires room { vec_len keys.old + length texts.now ≤ vec_capacity keys.old }
        ensures keys { AddsFound K.key_at self.now.texts (map (λ t. t.now) texts.now) keys.old.items keys.new.items }
        ensures len { vec_len keys.new ≡ vec_len keys.old + length texts.now }
        ensures capacity { vec_capacity keys.new ≡ vec_capacity keys.old }
    {
        let is_far = self.index.allocated_bytes() >= FAR_BYTES;
        if is_far || ends_present(keys) {
            return self.get_ahead(texts, keys);
        }
        self.get_each(texts, keys)
    }

    // Appends the keys of the texts. Each is looked up before the next.
    #[inline(never)]
    fn get_each<B: Allocator>(&self, texts: &[&str], keys: &mut Vec<Option<K>, B>)
        requires room { vec_len keys.old + length texts.now ≤ vec_capacity keys.old }
        ensures keys { AddsFound K.key_at self.now.texts (map (λ t. t.now) texts.now) keys.old.items keys.new.items }
        ensures len { vec_len keys.new ≡ vec_len keys.old + length texts.now }
        ensures capacity { vec_capacity keys.new ≡ vec_capacity keys.old }
    {
        for i in 0..texts.len() {
            let hash = hash_text(&self.hasher, texts[i]);
            let key = get_hashed(&self.index, &self.list, &self.hasher, texts[i], hash);
            keys.push_reserved(key);
        }
    }

    // Appends the keys of the texts. Each step of the look-ups is taken for all of them before the next, so that
    // the processor waits for their memory together.
    #[inline(never)]
    fn get_ahead<B: Allocator>(&self, texts: &[&str], keys: &mut Vec<Option<K>, B>)
        requires few { length texts.now ≤ 32 }
        requires room { vec_len keys.old + length texts.now ≤ vec_capacity keys.old }
        ensures keys { AddsFound K.key_at self.now.texts (map (λ t. t.now) texts.now) keys.old.items keys.new.items }
        ensures len { vec_len keys.new ≡ vec_len keys.old + length texts.now }
        ensures capacity { vec_capacity keys.new ≡ vec_capacity keys.old }
    {
        let hashes = hash_all(&self.hasher, texts);
        let mut guesses = [usize::MAX; TOGETHER];
        guess_by(&self.index, &self.list, texts, &hashes, &mut guesses);
        for i in 0..texts.len() {
            let key = get_guessed(
                &self.index,
                &self.list,
                &self.hasher,
                texts[i],
                hashes[i],
                guesses[i],
            );
            keys.push_reserved(key);
        }
    }
}

// Whether the last text was present.
fn ends_present<K: Key>(keys: &[Option<K>]) -> bool {
    match keys.last() {
        Some(key) => key.is_some(),
        None => false,
    }
}
