//! The frozen forms of a `Rodeo`.
ghost use Rattle.std.specs.Prelude.{◌≡◌};

use super::Rodeo;
use crate::reader::RodeoReader;
use crate::resolver::RodeoResolver;
use lasso_parts::keys::Key;
use std::alloc::Allocator;
use std::hash::BuildHasher;

impl<K: Key, S: BuildHasher, A: Allocator> Rodeo<K, S, A> {
    /// Freezes it: returns a reader with the same texts under the same keys. It takes no memory, copies nothing
    /// and can't fail.
    ///
    /// ```rust
    /// let mut rodeo = Rodeo::default(rt.alloc())?;
    /// let hello = rodeo.try_get_or_intern("Hello, world!")?;
    /// let reader = rodeo.into_reader();
    /// assert!(rt; reader.get("Hello, world!") == Some(hello));
    /// assert!(rt; reader.try_resolve(hello) == Some("Hello, world!"));
    /// ```
    pub fn into_reader(self) -> RodeoReader<K, S, A>
        ensures { result ≡ self.texts }
    {
        RodeoReader::new(self)
    }

    /// Freezes it: returns a resolver with the same texts under the same keys, which finds no keys of texts. It
    /// takes no memory, copies nothing and can't fail; the index and the hasher are dropped.
    ///
    /// ```rust
    /// let mut rodeo = Rodeo::default(rt.alloc())?;
    /// let hello = rodeo.try_get_or_intern("Hello, world!")?;
    /// let resolver = rodeo.into_resolver();
    /// assert!(rt; resolver.try_resolve(hello) == Some("Hello, world!"));
    /// assert!(rt; resolver.len() == 1);
    /// ```
    pub fn into_resolver(self) -> RodeoResolver<K, A>
    where
        S: Drop,
        ensures { result ≡ self.texts }
    {
        let Rodeo {
            list,
            index: _,
            hasher: _,
        } = self;
        RodeoResolver::new(list)
    }
}
