//! The interfaces of the frozen forms, whose meaning is their list of texts.
ghost use Rattle.std.specs.Prelude.{◌≡◌, Some, IsOkAnd};

use super::{IntoResolver, Reader, Resolver};
use lasso_parts::keys::Key;
use lasso_parts::util::LassoResult;
use lasso_single::reader::RodeoReader;
use lasso_single::resolver::RodeoResolver;
use std::alloc::Allocator;
use std::hash::BuildHasher;
use std::sync::Wait;

impl<K: Key, S: BuildHasher, A: Allocator> Resolver<K> for RodeoReader<K, S, A> {
    ghost meaning = { λ reader. Some reader };

    fn try_resolve(&self, key: K) -> Option<&str> {
        RodeoReader::try_resolve(self, key)
    }

    fn contains_key(&self, key: K) -> bool {
        RodeoReader::contains_key(self, key)
    }

    fn len(&self) -> usize {
        RodeoReader::len(self)
    }
}

impl<K: Key, S: BuildHasher, A: Allocator> Reader<K> for RodeoReader<K, S, A> {
    fn get<R: Wait>(&self, _rt: &R, text: &str) -> Option<K> {
        RodeoReader::get(self, text)
    }

    fn contains<R: Wait>(&self, _rt: &R, text: &str) -> bool {
        RodeoReader::contains(self, text)
    }
}

impl<K: Key, S: BuildHasher + Drop, A: Allocator> IntoResolver<K> for RodeoReader<K, S, A> {
    type Resolver = RodeoResolver<K, A>;

    fn into_resolver<R: Wait>(self, _rt: &R) -> LassoResult<RodeoResolver<K, A>> {
        Ok(RodeoReader::into_resolver(self))
    }

    fn into_resolver_boxed<R: Wait>(of: Box<Self>, _rt: &R) -> LassoResult<RodeoResolver<K, A>>
        ensures { IsOkAnd result (λ resolver. resolver ≡ of.value) }
    {
        Ok(Box::into_inner(of).into_resolver())
    }
}

impl<K: Key, A: Allocator> Resolver<K> for RodeoResolver<K, A> {
    ghost meaning = { λ resolver. Some resolver };

    fn try_resolve(&self, key: K) -> Option<&str> {
        RodeoResolver::try_resolve(self, key)
    }

    fn contains_key(&self, key: K) -> bool {
        RodeoResolver::contains_key(self, key)
    }

    fn len(&self) -> usize {
        RodeoResolver::len(self)
    }
}
