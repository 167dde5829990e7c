//! The interfaces of a shared reference: those of the value that it refers to, with its meaning.

use super::{Reader, Resolver};
use lasso_parts::keys::Key;
use std::sync::Wait;

impl<K: Key, T: Resolver<K>> Resolver<K> for &T {
    ghost meaning = { λ of. T.meaning of.now };

    fn try_resolve(&self, key: K) -> Option<&str> {
        (**self).try_resolve(key)
    }

    fn contains_key(&self, key: K) -> bool {
        (**self).contains_key(key)
    }

    fn len(&self) -> usize {
        (**self).len()
    }
}

impl<K: Key, T: Reader<K>> Reader<K> for &T {
    fn get<R: Wait>(&self, rt: &R, text: &str) -> Option<K> {
        (**self).get(rt, text)
    }

    fn contains<R: Wait>(&self, rt: &R, text: &str) -> bool {
        (**self).contains(rt, text)
    }
}
