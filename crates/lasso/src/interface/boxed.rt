//! The interfaces of a box: those of what it holds, with its meaning.
ghost use Rattle.std.specs.Prelude.{◌≡◌, IfErr};
ghost use Rattle.lasso_parts.specs.declared.util.LassoErrorKind.TheVariants.{FailedAllocation};
ghost use Rattle.lasso.specs.Interning.{FreezesTo};

use super::{Interner, IntoReader, IntoResolver, Reader, Resolver};
use lasso_parts::keys::Key;
use lasso_parts::util::LassoResult;
use std::sync::Wait;

impl<K: Key, I: Resolver<K>> Resolver<K> for Box<I> {
    ghost meaning = { λ of. I.meaning of.value };

    fn try_resolve(&self, key: K) -> Option<&str> {
        (**self).try_resolve(key)
    }

    fn contains_key(&self, key: K) -> bool {
        (**self).contains_key(key)
    }

    fn len(&self) -> usize {
        (**self).len()
    }
}

impl<K: Key, I: Reader<K>> Reader<K> for Box<I> {
    fn get<R: Wait>(&self, rt: &R, text: &str) -> Option<K> {
        (**self).get(rt, text)
    }

    fn contains<R: Wait>(&self, rt: &R, text: &str) -> bool {
        (**self).contains(rt, text)
    }
}

impl<K: Key, I: Interner<K>> Interner<K> for Box<I> {
    fn try_get_or_intern<R: Wait>(&mut self, rt: &R, text: &str) -> LassoResult<K> {
        (**self).try_get_or_intern(rt, text)
    }

    fn try_get_or_intern_static<R: Wait>(&mut self, rt: &R, text: &'static str) -> LassoResult<K> {
        (**self).try_get_or_intern_static(rt, text)
    }
}

impl<K: Key, I: IntoReader<K>> IntoReader<K> for Box<I> {
    type Reader = I::Reader;

    fn into_reader<R: Wait>(self, rt: &R) -> LassoResult<I::Reader> {
        I::into_reader_boxed(self, rt)
    }

    fn into_reader_boxed<R: Wait>(of: Box<Box<I>>, rt: &R) -> LassoResult<I::Reader>
        ensures frozen { FreezesTo (I.meaning of.value.value) ⟦<I::Reader as Resolver<K>>⟧.meaning result }
        ensures refused { IfErr result (λ error. error ≡ FailedAllocation) }
    {
        I::into_reader_boxed(Box::into_inner(of), rt)
    }
}

impl<K: Key, I: IntoResolver<K>> IntoResolver<K> for Box<I> {
    type Resolver = I::Resolver;

    fn into_resolver<R: Wait>(self, rt: &R) -> LassoResult<I::Resolver> {
        I::into_resolver_boxed(self, rt)
    }

    fn into_resolver_boxed<R: Wait>(of: Box<Box<I>>, rt: &R) -> LassoResult<I::Resolver>
        ensures frozen { FreezesTo (I.meaning of.value.value) ⟦<I::Resolver as Resolver<K>>⟧.meaning result }
        ensures refused { IfErr result (λ error. error ≡ FailedAllocation) }
    {
        I::into_resolver_boxed(Box::into_inner(of), rt)
    }
}
