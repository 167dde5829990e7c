//! Interning texts in an interner that threads share, with a pass.
ghost use mathlib.Core.List.{IsPrefix};
ghost use Rattle.std.specs.Prelude.{◌≡◌, ◌≢◌, ◌+◌, ◌<◌, ◌⊎◌, List, [], None, Ok, Err, IfOk, OnOk, OnErr, length};
ghost use Rattle.lasso_parts.specs.declared.util.LassoErrorKind.TheVariants.{FailedAllocation, KeySpaceExhaustion, MemoryLimitReached};
ghost use Rattle.lasso_log.specs.Buckets.{HasNoRoom};
ghost use Rattle.lasso_log.specs.Calls.{Stores, StoresAndAppends};
ghost use Rattle.lasso_log.specs.History.{Event, IsLegal, IsOpening, Lacks};
ghost use Rattle.lasso_log.specs.Replies.{Copied, Static, Intern, Interned};
ghost use Rattle.lasso_log.specs.Views.{PassView, InternerId, IsSamePass, seen};
ghost use Rattle.lasso_shared.specs.CallerLaws.{HasKey};
ghost use Rattle.lasso_shared.specs.PassCalls.{AddsEvents, AtMoment, IsPassCall};

use crate::shards::new_text::NewText;
use crate::threaded::ThreadedRodeo;
use lasso_log::log::Pass;
use lasso_parts::keys::Key;
use lasso_parts::util::LassoResult;
use std::hash::BuildHasher;
use std::sync::Wait;

impl<K: Key, S: BuildHasher + Drop> ThreadedRodeo<K, S> {
    /// Returns the text's key, and appends a copy of an absent text first. Interning a text that the pass had
    /// seen never fails. A new one may fail out of memory (`FailedAllocation`); else it fails if no bucket
    /// has room for its bytes and the memory limit leaves none (`MemoryLimitReached`); or else if the key
    /// type has no key for its position (`KeySpaceExhaustion`), and its bytes stay taken then. The first two
    /// errors add no event. It waits for those who write in the text's shard, and for the spine.
    ///
    /// ```rust
    /// let rodeo: SpurThreadedRodeo = ThreadedRodeo::default(rt.alloc())?;
    /// let mut pass = rodeo.pass();
    /// let key = rodeo.try_get_or_intern_as(&rt, &mut pass, "Hello, world!")?;
    /// assert!(rt; rodeo.try_resolve_as(&mut pass, key) == Some("Hello, world!"));
    /// ```
    pub fn try_get_or_intern_as<R: Wait>(
        &self,
        rt: &R,
        pass: &mut Pass<K>,
        text: &str,
    ) -> LassoResult<K>
        requires { pass.old.of ≡ self.now }
        // On success the key is the text's, in what the pass has then seen. A text that it had seen keeps its key, and never fails.
        ensures key { IfOk result (λ key. HasKey K.key_at self.now.opening (seen pass.new) text.now key) }
        ensures present { (key : K) → HasKey K.key_at self.now.opening (seen pass.old) text.now key → result ≡ Ok key }

        // The pass stays the same one, and what it has seen only grows.
        ensures same { IsSamePass pass.new pass.old }
        ensures kept { IsPrefix (seen pass.old) (seen pass.new) }

        // On failure the text is absent at a moment between what the pass had seen and what it then has seen: its position has no key then,
        // no bucket has room for it and the limit leaves none, or memory ran out. If several of these hold, no clause says which error it is.
        ensures no_key { result ≡ Err KeySpaceExhaustion
            → AtMoment self.now pass.old pass.new (λ s. Lacks s.texts text.now × (K.key_at (length s.texts) ≡ None)) }
        ensures limit { result ≡ Err MemoryLimitReached → AtMoment self.now pass.old pass.new (λ s. Lacks s.texts text.now
            × (text.now ≢ []) × HasNoRoom s.buckets (length text.now) × (s.limit < s.usage + length text.now)) }
        ensures memory { result ≡ Err FailedAllocation → AtMoment self.now pass.old pass.new (λ s. Lacks s.texts text.now) }

        // The events that it adds: on success none, or those that store the text's bytes and put it last. On failure none, but that without a
        // key its bytes stay taken. So a failed call appends no text.
        ensures added { OnOk result ((own : List Event) × ((own ≡ []) ⊎ StoresAndAppends Copied text.now own) × AddsEvents pass.old pass.new own) }
        ensures taken { result ≡ Err KeySpaceExhaustion → (own : List Event) × Stores Copied text.now own × AddsEvents pass.old pass.new own }
        ensures idle { result ≢ Err KeySpaceExhaustion → OnErr result (AddsEvents pass.old pass.new []) }

        // One list of all threads explains the reply and the events at such a moment.
        ensures call { IsPassCall K.key_at self.now pass.old pass.new (Intern Copied text.now) (Interned result) }
        ensures opening { IsOpening K.key_at self.now.opening }
        ensures legal { IsLegal K.key_at self.now.opening (seen pass.new) }
    {
        let reply = self.shards.intern(rt, pass, NewText::Copied(text));
        pass.prove_legal();
        reply
    }

    /// Returns the text's key, and appends an absent text first. The text is kept as it is, with no copy, so
    /// the memory limit never refuses it. Interning a text that the pass had seen never fails. A new one may
    /// fail out of memory (`FailedAllocation`), and else fails if the key type has no key for its position
    /// (`KeySpaceExhaustion`); no event is added then. It waits for those who write in the text's shard, and
    /// for the spine.
    ///
    /// ```rust
    /// let rodeo: SpurThreadedRodeo = ThreadedRodeo::default(rt.alloc())?;
    /// let mut pass = rodeo.pass();
    /// let key = rodeo.try_get_or_intern_static_as(&rt, &mut pass, "Hello, world!")?;
    /// assert!(rt; rodeo.try_resolve_as(&mut pass, key) == Some("Hello, world!"));
    /// ```
    pub fn try_get_or_intern_static_as<R: Wait>(
        &self,
        rt: &R,
        pass: &mut Pass<K>,
        text: &'static str,
    ) -> LassoResult<K>
        requires { pass.old.of ≡ self.now }
        // On success the key is the text's, in what the pass has then seen. A text that it had seen keeps its key, and never fails.
        ensures key { IfOk result (λ key. HasKey K.key_at self.now.opening (seen pass.new) text.now key) }
        ensures present { (key : K) → HasKey K.key_at self.now.opening (seen pass.old) text.now key → result ≡ Ok key }

        // The pass stays the same one, and what it has seen only grows.
        ensures same { IsSamePass pass.new pass.old }
        ensures kept { IsPrefix (seen pass.old) (seen pass.new) }

        // On failure the text is absent at a moment between what the pass had seen and what it then has seen: its position has no key then, or
        // memory ran out. The limit is never the error. If both hold, no clause says which error it is.
        ensures no_key { result ≡ Err KeySpaceExhaustion
            → AtMoment self.now pass.old pass.new (λ s. Lacks s.texts text.now × (K.key_at (length s.texts) ≡ None)) }
        ensures no_limit { result ≢ Err MemoryLimitReached }
        ensures memory { result ≡ Err FailedAllocation → AtMoment self.now pass.old pass.new (λ s. Lacks s.texts text.now) }

        // The events that it adds: on success none, or the one that puts the text last. On failure none.
        ensures added { OnOk result ((own : List Event) × ((own ≡ []) ⊎ StoresAndAppends Static text.now own) × AddsEvents pass.old pass.new own) }
        ensures idle { OnErr result (AddsEvents pass.old pass.new []) }

        // One list of all threads explains the reply and the events at such a moment.
        ensures call { IsPassCall K.key_at self.now pass.old pass.new (Intern Static text.now) (Interned result) }
        ensures opening { IsOpening K.key_at self.now.opening }
        ensures legal { IsLegal K.key_at self.now.opening (seen pass.new) }
    {
        let reply = self.shards.intern(rt, pass, NewText::Static(text));
        pass.prove_legal();
        reply
    }
}
