//! The interfaces of `Rodeo`, whose meaning is its list of texts.
//! What its intern calls do to the account of bytes is said of it alone: the clauses are those of `Rodeo`.
ghost use Rattle.std.specs.Prelude.{◌≡◌, Some, IsOkAnd};
ghost use Rattle.lasso_single.specs.Intern.{InternsIn, InternsStaticIn};

use super::{Interner, IntoReader, IntoReaderAndResolver, IntoResolver, Reader, Resolver};
use lasso_parts::keys::Key;
use lasso_parts::util::LassoResult;
use lasso_single::reader::RodeoReader;
use lasso_single::resolver::RodeoResolver;
use lasso_single::rodeo::Rodeo;
use std::alloc::Allocator;
use std::hash::BuildHasher;
use std::sync::Wait;

impl<K: Key, S: BuildHasher, A: Allocator> Resolver<K> for Rodeo<K, S, A> {
    ghost meaning = { λ rodeo. Some rodeo.texts };

    fn try_resolve(&self, key: K) -> Option<&str> {
        Rodeo::try_resolve(self, key)
    }

    fn contains_key(&self, key: K) -> bool {
        Rodeo::contains_key(self, key)
    }

    fn len(&self) -> usize {
        Rodeo::len(self)
    }
}

impl<K: Key, S: BuildHasher, A: Allocator> Reader<K> for Rodeo<K, S, A> {
    fn get<R: Wait>(&self, _rt: &R, text: &str) -> Option<K> {
        Rodeo::get(self, text)
    }

    fn contains<R: Wait>(&self, _rt: &R, text: &str) -> bool {
        Rodeo::contains(self, text)
    }
}

impl<K: Key, S: BuildHasher, A: Allocator + Clone> Interner<K> for Rodeo<K, S, A> {
    fn try_get_or_intern<R: Wait>(&mut self, _rt: &R, text: &str) -> LassoResult<K>
        ensures { InternsIn K.key_at self.old text.now result self.new }
    {
        Rodeo::try_get_or_intern(self, text)
    }

    fn try_get_or_intern_static<R: Wait>(&mut self, _rt: &R, text: &'static str) -> LassoResult<K>
        ensures { InternsStaticIn K.key_at self.old text.now result self.new }
    {
        Rodeo::try_get_or_intern_static(self, text)
    }

    fn get_or_intern<R: Wait>(&mut self, _rt: &R, text: &str) -> LassoResult<K>
        ensures { InternsIn K.key_at self.old text.now result self.new }
    {
        Rodeo::get_or_intern(self, text)
    }

    fn get_or_intern_static<R: Wait>(&mut self, _rt: &R, text: &'static str) -> LassoResult<K>
        ensures { InternsStaticIn K.key_at self.old text.now result self.new }
    {
        Rodeo::get_or_intern_static(self, text)
    }
}

impl<K: Key, S: BuildHasher, A: Allocator + Clone> IntoReader<K> for Rodeo<K, S, A> {
    type Reader = RodeoReader<K, S, A>;

    fn into_reader<R: Wait>(self, _rt: &R) -> LassoResult<RodeoReader<K, S, A>> {
        Ok(Rodeo::into_reader(self))
    }

    fn into_reader_boxed<R: Wait>(of: Box<Self>, _rt: &R) -> LassoResult<RodeoReader<K, S, A>>
        ensures { IsOkAnd result (λ reader. reader ≡ of.value.texts) }
    {
        Ok(Box::into_inner(of).into_reader())
    }
}

impl<K: Key, S: BuildHasher + Drop, A: Allocator> IntoResolver<K> for Rodeo<K, S, A> {
    type Resolver = RodeoResolver<K, A>;

    fn into_resolver<R: Wait>(self, _rt: &R) -> LassoResult<RodeoResolver<K, A>> {
        Ok(Rodeo::into_resolver(self))
    }

    fn into_resolver_boxed<R: Wait>(of: Box<Self>, _rt: &R) -> LassoResult<RodeoResolver<K, A>>
        ensures { IsOkAnd result (λ resolver. resolver ≡ of.value.texts) }
    {
        Ok(Box::into_inner(of).into_resolver())
    }
}

impl<K: Key, S: BuildHasher + Drop, A: Allocator + Clone> IntoReaderAndResolver<K>
    for Rodeo<K, S, A> {}
