//! The interfaces of a `&mut` reference: those of the value that it refers to, with its meaning.

use super::{Interner, Reader, Resolver};
use lasso_parts::keys::Key;
use lasso_parts::util::LassoResult;
use std::sync::Wait;

impl<K: Key, T: Resolver<K>> Resolver<K> for &mut T {
    ghost meaning = { λ of. T.meaning of.now };

    fn try_resolve(&self, key: K) -> Option<&str> {
        (**self).try_resolve(key)
    }

    fn contains_key(&self, key: K) -> bool {
        (**self).contains_key(key)
    }

    fn len(&self) -> usize {
        (**self).len()
    }
}

impl<K: Key, T: Reader<K>> Reader<K> for &mut T {
    fn get<R: Wait>(&self, rt: &R, text: &str) -> Option<K> {
        (**self).get(rt, text)
    }

    fn contains<R: Wait>(&self, rt: &R, text: &str) -> bool {
        (**self).contains(rt, text)
    }
}

impl<K: Key, T: Interner<K>> Interner<K> for &mut T {
    fn try_get_or_intern<R: Wait>(&mut self, rt: &R, text: &str) -> LassoResult<K> {
        (**self).try_get_or_intern(rt, text)
    }

    fn try_get_or_intern_static<R: Wait>(&mut self, rt: &R, text: &'static str) -> LassoResult<K> {
        (**self).try_get_or_intern_static(rt, text)
    }
}
