//! Reading an interner that threads share, with a pass.
ghost use mathlib.Core.List.{IsPrefix};
ghost use Rattle.std.specs.Prelude.{◌≡◌, ◌≤◌, [], None, Some, IfSome, IsFalse, IsTrue, length, option_map, slice_get};
ghost use Rattle.lasso_log.specs.History.{IsLegal, IsOpening, Lacks};
ghost use Rattle.lasso_log.specs.Replies.{Get, ContainsKey, Resolve, Len, Found, Flag, Resolved, Number};
ghost use Rattle.lasso_log.specs.Views.{PassView, InternerId, IsSamePass, seen};
ghost use Rattle.lasso_parts.specs.Texts.{Text};
ghost use Rattle.lasso_shared.specs.CallerLaws.{HasKey};
ghost use Rattle.lasso_shared.specs.PassCalls.{AddsEvents, AtMoment, IsPassCall};

use crate::threaded::ThreadedRodeo;
use lasso_log::log::Pass;
use lasso_parts::keys::Key;
use std::hash::BuildHasher;
use std::sync::Wait;

impl<K: Key, S: BuildHasher + Drop> ThreadedRodeo<K, S> {
    /// The text's key, or `None` if the list lacks it at a point between what the pass had seen and what it
    /// then has seen. A text that the pass had seen is found. The pass has to be one of this interner. It takes
    /// no memory. It waits for those who write in the text's shard, and for the spine if the text is absent.
    ///
    /// ```rust
    /// let rodeo: SpurThreadedRodeo = ThreadedRodeo::default(rt.alloc())?;
    /// let mut pass = rodeo.pass();
    /// let key = rodeo.try_get_or_intern_as(&rt, &mut pass, "Hello, world!")?;
    /// assert!(rt; rodeo.get_as(&rt, &mut pass, "Hello, world!") == Some(key));
    /// assert!(rt; rodeo.contains_key_as(&mut pass, key));
    /// assert!(rt; rodeo.len_as(&mut pass) == 1);
    /// ```
    pub fn get_as<R: Wait>(&self, rt: &R, pass: &mut Pass<K>, text: &str) -> Option<K>
        requires { pass.old.of ≡ self.now }
        // A key that is found is the text's, in what the pass has then seen. A text that it had seen is found.
        ensures key { IfSome result (λ key. HasKey K.key_at self.now.opening (seen pass.new) text.now key) }
        ensures present { (key : K) → HasKey K.key_at self.now.opening (seen pass.old) text.now key → result ≡ Some key }

        // The pass stays the same one, and what it has seen only grows.
        ensures same { IsSamePass pass.new pass.old }
        ensures kept { IsPrefix (seen pass.old) (seen pass.new) }

        // A text that is not found is absent at a moment between what the pass had seen and what it then has seen. The call adds no event.
        ensures absent { result ≡ None → AtMoment self.now pass.old pass.new (λ s. Lacks s.texts text.now) }
        ensures idle { AddsEvents pass.old pass.new [] }

        // One list of all threads explains the reply at such a moment.
        ensures call { IsPassCall K.key_at self.now pass.old pass.new (Get text.now) (Found result) }
        ensures opening { IsOpening K.key_at self.now.opening }
        ensures legal { IsLegal K.key_at self.now.opening (seen pass.new) }
    {
        let found = self.shards.get(rt, pass, text);
        pass.prove_legal();
        found
    }

    /// Whether the key has a text. It takes no memory and does not wait.
    ///
    /// ```rust
    /// let rodeo: SpurThreadedRodeo = ThreadedRodeo::default(rt.alloc())?;
    /// let mut pass = rodeo.pass();
    /// let key = rodeo.try_get_or_intern_as(&rt, &mut pass, "Hello, world!")?;
    /// assert!(rt; rodeo.get_as(&rt, &mut pass, "Hello, world!") == Some(key));
    /// assert!(rt; rodeo.contains_key_as(&mut pass, key));
    /// assert!(rt; rodeo.len_as(&mut pass) == 1);
    /// ```
    pub fn contains_key_as(&self, pass: &mut Pass<K>, key: K) -> bool
        requires { pass.old.of ≡ self.now }
        // The key of a text that the pass had seen is contained.
        ensures present { (text : Text) → HasKey K.key_at self.now.opening (seen pass.old) text key → IsTrue result }

        // The pass stays the same one, and what it has seen only grows.
        ensures same { IsSamePass pass.new pass.old }
        ensures kept { IsPrefix (seen pass.old) (seen pass.new) }

        // A key that is not contained has no text at a moment between what the pass had seen and what it then has seen. The call adds no event.
        ensures absent { IsFalse result → AtMoment self.now pass.old pass.new (λ s. length s.texts ≤ K.number key) }
        ensures idle { AddsEvents pass.old pass.new [] }

        // One list of all threads explains the reply at such a moment.
        ensures call { IsPassCall K.key_at self.now pass.old pass.new (ContainsKey (K.number key)) (Flag result) }
        ensures opening { IsOpening K.key_at self.now.opening }
        ensures legal { IsLegal K.key_at self.now.opening (seen pass.new) }
    {
        let len = self.shards.log.len(pass);
        pass.prove_legal();
        (key.into_usize() as u64) < len
    }

    /// The key's text, or `None` if the key has no text yet. It is lent as long as the interner. It takes no
    /// memory and does not wait.
    ///
    /// ```rust
    /// let rodeo: SpurThreadedRodeo = ThreadedRodeo::default(rt.alloc())?;
    /// let mut pass = rodeo.pass();
    /// let key = rodeo.try_get_or_intern_as(&rt, &mut pass, "Hello, world!")?;
    /// assert!(rt; rodeo.try_resolve_as(&mut pass, key) == Some("Hello, world!"));
    /// ```
    pub fn try_resolve_as(&self, pass: &mut Pass<K>, key: K) -> Option<&str>
        requires { pass.old.of ≡ self.now }
        // The key of a text that the pass had seen resolves to it.
        ensures present { (text : Text) → HasKey K.key_at self.now.opening (seen pass.old) text key → option_map (λ t. t.now) result ≡ Some text }

        // The pass stays the same one, and what it has seen only grows.
        ensures same { IsSamePass pass.new pass.old }
        ensures kept { IsPrefix (seen pass.old) (seen pass.new) }

        // A key that is not resolved has no text at a moment between what the pass had seen and what it then has seen. The call adds no event.
        ensures absent { result ≡ None → AtMoment self.now pass.old pass.new (λ s. slice_get s.texts (K.number key) ≡ None) }
        ensures idle { AddsEvents pass.old pass.new [] }

        // One list of all threads explains the reply at such a moment.
        ensures call { IsPassCall K.key_at self.now pass.old pass.new (Resolve (K.number key)) (Resolved (option_map (λ t. t.now) result)) }
        ensures opening { IsOpening K.key_at self.now.opening }
        ensures legal { IsLegal K.key_at self.now.opening (seen pass.new) }
    {
        let found = self.shards.log.read(key.into_usize() as u64, pass);
        pass.prove_legal();
        found
    }

    /// How many texts there are. It takes no memory and does not wait.
    ///
    /// ```rust
    /// let rodeo: SpurThreadedRodeo = ThreadedRodeo::default(rt.alloc())?;
    /// let mut pass = rodeo.pass();
    /// let key = rodeo.try_get_or_intern_as(&rt, &mut pass, "Hello, world!")?;
    /// assert!(rt; rodeo.get_as(&rt, &mut pass, "Hello, world!") == Some(key));
    /// assert!(rt; rodeo.contains_key_as(&mut pass, key));
    /// assert!(rt; rodeo.len_as(&mut pass) == 1);
    /// ```
    pub fn len_as(&self, pass: &mut Pass<K>) -> usize
        requires { pass.old.of ≡ self.now }
        // The pass stays the same one.
        ensures same { IsSamePass pass.new pass.old }

        // One list of all threads explains the reply at a moment between what the pass had seen and what it then has seen. The call adds no
        // event.
        ensures call { IsPassCall K.key_at self.now pass.old pass.new Len (Number result) }
        ensures opening { IsOpening K.key_at self.now.opening }
        ensures legal { IsLegal K.key_at self.now.opening (seen pass.new) }
    {
        let len = self.shards.log.len(pass);
        pass.prove_legal();
        len as usize
    }
}
