//! Interfaces of interners: code that is written once for each interner takes one of these traits.
//!
//! Their meaning is a list of texts, if a value has its own: an interner for one thread and a
//! frozen one have, one that other threads fill meanwhile has none. Each call says what it does to the list
//! if there is one. Calls for which an interner for many threads may have to wait take a handle for it;
//! the others never wait.
ghost use Rattle.std.specs.Prelude.{◌≡◌, ◌<◌, ◌↔◌, Option, List, length, is_some, IfSome, IfErr, IsTrue, slice_get, option_map};
ghost use Rattle.lasso_parts.specs.Texts.{Text, position_of, key_of};
ghost use Rattle.lasso_parts.specs.declared.util.LassoErrorKind.TheVariants.{FailedAllocation};
ghost use Rattle.lasso.specs.Interning.{FreezesTo, InternsAmong, InternsStaticAmong};

mod boxed;
mod exclusive;
mod frozen;
mod lent;
mod lent_mut;
pub mod meanings;
mod objects;
mod shared;

use lasso_parts::keys::Key;
use lasso_parts::util::LassoResult;
pub use objects::{SpurInterner, SpurReader, SpurResolver};
use std::sync::Wait;

/// Resolves keys to texts.
pub trait Resolver<K: Key> {
    // the texts in the order of their keys, where the value has a list of its own
    ghost meaning: { Self → Option (List Text) };

    /// The key's text, or `None` if the key stands for no text.
    fn try_resolve(&self, key: K) -> Option<&str>
        ensures { IfSome (meaning self.now) (λ texts. option_map (λ t. t.now) result ≡ slice_get texts (K.number key)) };

    /// Whether the key stands for a text.
    fn contains_key(&self, key: K) -> bool
        ensures { IfSome (meaning self.now) (λ texts. IsTrue result ↔ (K.number key < length texts)) };

    /// The number of texts.
    fn len(&self) -> usize
        ensures { IfSome (meaning self.now) (λ texts. result ≡ length texts) };

    /// The key's text, or `None` if the key stands for no text: the same call as `try_resolve`.
    fn resolve(&self, key: K) -> Option<&str>
        ensures { IfSome (meaning self.now) (λ texts. option_map (λ t. t.now) result ≡ slice_get texts (K.number key)) }
    {
        self.try_resolve(key)
    }

    /// The key's text, or `None` if the key stands for no text: the same call as `try_resolve`.
    fn resolve_unchecked(&self, key: K) -> Option<&str>
        ensures { IfSome (meaning self.now) (λ texts. option_map (λ t. t.now) result ≡ slice_get texts (K.number key)) }
    {
        self.resolve(key)
    }

    /// Whether there is no text.
    fn is_empty(&self) -> bool
        ensures { IfSome (meaning self.now) (λ texts. IsTrue result ↔ (length texts ≡ 0)) }
    {
        self.len() == 0
    }
}

/// Finds the keys of texts too.
pub trait Reader<K: Key>: Resolver<K> {
    /// The key of the text, or `None` if it is absent.
    fn get<R: Wait>(&self, rt: &R, text: &str) -> Option<K>
        ensures { IfSome (Self.meaning self.now) (λ texts. result ≡ key_of K.key_at texts text.now) };

    /// Whether the text is present.
    fn contains<R: Wait>(&self, rt: &R, text: &str) -> bool
        ensures { IfSome (Self.meaning self.now) (λ texts. result ≡ is_some (position_of texts text.now)) };
}

/// Interns texts too.
pub trait Interner<K: Key>: Reader<K> {
    /// Returns the text's key, and appends the text first if it is new. Interning a present text never fails.
    /// A new text fails when the key type has no key for its position (`KeySpaceExhaustion`), else when it
    /// would pass a memory limit (`MemoryLimitReached`), else when out of memory (`FailedAllocation`). No
    /// text is added then.
    fn try_get_or_intern<R: Wait>(&mut self, rt: &R, text: &str) -> LassoResult<K>
        ensures { IfSome (Self.meaning self.old) (λ texts. InternsAmong K.key_at texts text.now result (Self.meaning self.new)) };

    /// Returns the text's key, and appends the text first if it is new. The text is kept as it is, with no
    /// copy, so that no memory limit refuses it. All else is as for `try_get_or_intern`.
    fn try_get_or_intern_static<R: Wait>(&mut self, rt: &R, text: &'static str) -> LassoResult<K>
        ensures { IfSome (Self.meaning self.old) (λ texts. InternsStaticAmong K.key_at texts text.now result (Self.meaning self.new)) };

    /// Returns the text's key, and appends the text first if it is new: the same call as `try_get_or_intern`,
    /// with the same refusals.
    fn get_or_intern<R: Wait>(&mut self, rt: &R, text: &str) -> LassoResult<K>
        ensures { IfSome (Self.meaning self.old) (λ texts. InternsAmong K.key_at texts text.now result (Self.meaning self.new)) }
    {
        self.try_get_or_intern(rt, text)
    }

    /// Returns the text's key, and appends the text first if it is new: the same call as
    /// `try_get_or_intern_static`, with the same refusals.
    fn get_or_intern_static<R: Wait>(&mut self, rt: &R, text: &'static str) -> LassoResult<K>
        ensures { IfSome (Self.meaning self.old) (λ texts. InternsStaticAmong K.key_at texts text.now result (Self.meaning self.new)) }
    {
        self.try_get_or_intern_static(rt, text)
    }
}

/// Freezes to a reader.
pub trait IntoReader<K: Key>: Interner<K> + Sized {
    /// The frozen form.
    type Reader: Reader<K>;

    /// Freezes it: returns a reader with the same texts under the same keys. A value with its own list is
    /// never refused. For another the only error is `FailedAllocation`, and it is gone then.
    fn into_reader<R: Wait>(self, rt: &R) -> LassoResult<Self::Reader>
        ensures frozen { FreezesTo (Self.meaning self) ⟦<Self::Reader as Resolver<K>>⟧.meaning result }
        ensures refused { IfErr result (λ error. error ≡ FailedAllocation) };

    /// The frozen form of what the box holds: the same as `into_reader` of it. The box's memory is freed.
    fn into_reader_boxed<R: Wait>(of: Box<Self>, rt: &R) -> LassoResult<Self::Reader>
        ensures frozen { FreezesTo (Self.meaning of.value) ⟦<Self::Reader as Resolver<K>>⟧.meaning result }
        ensures refused { IfErr result (λ error. error ≡ FailedAllocation) };
}

/// Freezes to a resolver.
pub trait IntoResolver<K: Key>: Reader<K> + Sized {
    /// The frozen form.
    type Resolver: Resolver<K>;

    /// Freezes it: returns a resolver with the same texts under the same keys, which finds no keys of texts. A
    /// value with its own list is never refused. For another the only error is `FailedAllocation`, and it is
    /// gone then.
    fn into_resolver<R: Wait>(self, rt: &R) -> LassoResult<Self::Resolver>
        ensures frozen { FreezesTo (Self.meaning self) ⟦<Self::Resolver as Resolver<K>>⟧.meaning result }
        ensures refused { IfErr result (λ error. error ≡ FailedAllocation) };

    /// The frozen form of what the box holds: the same as `into_resolver` of it. The box's memory is freed.
    fn into_resolver_boxed<R: Wait>(of: Box<Self>, rt: &R) -> LassoResult<Self::Resolver>
        ensures frozen { FreezesTo (Self.meaning of.value) ⟦<Self::Resolver as Resolver<K>>⟧.meaning result }
        ensures refused { IfErr result (λ error. error ≡ FailedAllocation) };
}

/// Freezes to a reader or to a resolver.
pub trait IntoReaderAndResolver<K: Key>: IntoReader<K> + IntoResolver<K> {}
