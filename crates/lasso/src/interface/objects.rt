//! Interfaces without parameters, for `dyn` references to interners and frozen forms with `Spur` keys, and
//! for boxes. They are for what no other thread changes, so no call of theirs waits. A caller makes the
//! box, as `Box<dyn SpurInterner + Drop>`.
ghost use Rattle.std.specs.Prelude.{◌≡◌, ◌<◌, ◌↔◌, List, Some, length, is_some, IsTrue, slice_get, option_map};
ghost use Rattle.lasso_parts.specs.Texts.{Text, position_of, key_of};
ghost use Rattle.lasso.specs.Interning.{InternsAmong, InternsStaticAmong};
ghost use Rattle.lasso_single.specs.Intern.{InternsIn, InternsStaticIn};

use lasso_parts::keys::{Key, Spur};
use lasso_parts::util::LassoResult;
use lasso_single::reader::RodeoReader;
use lasso_single::resolver::RodeoResolver;
use lasso_single::rodeo::Rodeo;
use std::alloc::Allocator;
use std::hash::BuildHasher;

/// Resolves keys to texts.
pub trait SpurResolver {
    // the texts in the order of their keys
    ghost texts: { Self → List Text };

    /// The key's text, or `None` if the key stands for no text.
    fn try_resolve(&self, key: Spur) -> Option<&str>
        ensures { option_map (λ t. t.now) result ≡ slice_get (texts self.now) (⟦<Spur as Key>⟧.number key) };

    /// Whether the key stands for a text.
    fn contains_key(&self, key: Spur) -> bool
        ensures { IsTrue result ↔ (⟦<Spur as Key>⟧.number key < length (texts self.now)) };

    /// The number of texts.
    fn len(&self) -> usize
        ensures { result ≡ length (texts self.now) };
}

/// Finds the keys of texts too.
pub trait SpurReader: SpurResolver {
    /// The key of the text, or `None` if it is absent.
    fn get(&self, text: &str) -> Option<Spur>
        ensures { result ≡ key_of ⟦<Spur as Key>⟧.key_at (Self.texts self.now) text.now };

    /// Whether the text is present.
    fn contains(&self, text: &str) -> bool
        ensures { result ≡ is_some (position_of (Self.texts self.now) text.now) };
}

/// Interns texts too.
pub trait SpurInterner: SpurReader {
    /// Returns the text's key, and appends the text first if it is new. Interning a present text never fails.
    /// A new text fails when no key is left (`KeySpaceExhaustion`), else when it would pass a memory limit
    /// (`MemoryLimitReached`), else when out of memory (`FailedAllocation`). No text is added then.
    fn try_get_or_intern(&mut self, text: &str) -> LassoResult<Spur>
        ensures { InternsAmong ⟦<Spur as Key>⟧.key_at (Self.texts self.old) text.now result (Some (Self.texts self.new)) };

    /// Returns the text's key, and appends the text first if it is new. The text is kept as it is, with no
    /// copy, so that no memory limit refuses it. All else is as for `try_get_or_intern`.
    fn try_get_or_intern_static(&mut self, text: &'static str) -> LassoResult<Spur>
        ensures { InternsStaticAmong ⟦<Spur as Key>⟧.key_at (Self.texts self.old) text.now result (Some (Self.texts self.new)) };
}

impl<S: BuildHasher, A: Allocator> SpurResolver for Rodeo<Spur, S, A> {
    ghost texts = { λ rodeo. rodeo.texts };

    fn try_resolve(&self, key: Spur) -> Option<&str> {
        Rodeo::try_resolve(self, key)
    }

    fn contains_key(&self, key: Spur) -> bool {
        Rodeo::contains_key(self, key)
    }

    fn len(&self) -> usize {
        Rodeo::len(self)
    }
}

impl<S: BuildHasher, A: Allocator> SpurReader for Rodeo<Spur, S, A> {
    fn get(&self, text: &str) -> Option<Spur> {
        Rodeo::get(self, text)
    }

    fn contains(&self, text: &str) -> bool {
        Rodeo::contains(self, text)
    }
}

impl<S: BuildHasher, A: Allocator + Clone> SpurInterner for Rodeo<Spur, S, A> {
    fn try_get_or_intern(&mut self, text: &str) -> LassoResult<Spur>
        ensures { InternsIn ⟦<Spur as Key>⟧.key_at self.old text.now result self.new }
    {
        Rodeo::try_get_or_intern(self, text)
    }

    fn try_get_or_intern_static(&mut self, text: &'static str) -> LassoResult<Spur>
        ensures { InternsStaticIn ⟦<Spur as Key>⟧.key_at self.old text.now result self.new }
    {
        Rodeo::try_get_or_intern_static(self, text)
    }
}

impl<S: BuildHasher, A: Allocator> SpurResolver for RodeoReader<Spur, S, A> {
    ghost texts = { λ reader. reader };

    fn try_resolve(&self, key: Spur) -> Option<&str> {
        RodeoReader::try_resolve(self, key)
    }

    fn contains_key(&self, key: Spur) -> bool {
        RodeoReader::contains_key(self, key)
    }

    fn len(&self) -> usize {
        RodeoReader::len(self)
    }
}

impl<S: BuildHasher, A: Allocator> SpurReader for RodeoReader<Spur, S, A> {
    fn get(&self, text: &str) -> Option<Spur> {
        RodeoReader::get(self, text)
    }

    fn contains(&self, text: &str) -> bool {
        RodeoReader::contains(self, text)
    }
}

impl<A: Allocator> SpurResolver for RodeoResolver<Spur, A> {
    ghost texts = { λ resolver. resolver };

    fn try_resolve(&self, key: Spur) -> Option<&str> {
        RodeoResolver::try_resolve(self, key)
    }

    fn contains_key(&self, key: Spur) -> bool {
        RodeoResolver::contains_key(self, key)
    }

    fn len(&self) -> usize {
        RodeoResolver::len(self)
    }
}
