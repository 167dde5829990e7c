//! A `Rodeo` that copies a list of texts, and the list that it shows to another that copies it.
ghost use Rattle.std.specs.Prelude.{◌≡◌, ◌≤◌, ◌^◌, Some, Err, IfOk, IfErr, length, map};
ghost use Rattle.lasso_parts.specs.Texts.{IsDistinct, Fits};
ghost use Rattle.lasso_parts.specs.declared.util.LassoErrorKind.TheVariants.{FailedAllocation};
ghost use Rattle.lasso_single.specs.Copies.{bytes_of, clone_size, read_of};
ghost use Rattle.lasso_single.specs.Interner.{IsMadeWith};

use super::Rodeo;
use crate::list_copies::{CopyTarget, copy_all};
use crate::room::one_bucket;
use lasso_parts::index::Texts;
use lasso_parts::keys::Key;
use lasso_parts::util::LassoResult;
use std::alloc::Allocator;
use std::hash::BuildHasher;

impl<K: Key, S: BuildHasher, A: Allocator> Texts for Rodeo<K, S, A> {
    ghost list = { λ r. r.texts };

    fn text_at(&self, position: usize) -> &str {
        self.list.text_at(position)
    }
}

impl<K: Key, S: BuildHasher, A: Allocator + Clone> CopyTarget for Rodeo<K, S, A> {
    ghost use Rattle.std.specs.Prelude.{None, IsSome};
    ghost use Rattle.lasso_parts.specs.Texts.{position_of};

    ghost holds = { λ r. r };

    // an absent text, at a position that has a key
    ghost takes = { λ texts text. (position_of texts text ≡ None) × IsSome (K.key_at (length texts)) };

    fn copy_text(&mut self, text: &str) -> LassoResult<()> {
        match self.try_get_or_intern(text) {
            Ok(_key) => Ok(()),
            Err(error) => Err(error),
        }
    }
}

impl<K: Key, S: BuildHasher + Drop, A: Allocator + Clone> Rodeo<K, S, A> {
    /// An interner with the texts of a distinct list that fits the keys, in order, all copied into one bucket
    /// of just their bytes (4096 if they have none), with the limit `usize::MAX`. The only error is
    /// `FailedAllocation`, also when a `usize` can't count the texts' bytes.
    pub(crate) fn of_texts(alloc: A, hasher: S, texts: &[&str]) -> LassoResult<Self>
        requires distinct { IsDistinct (map (λ t. t.now) texts.now) }
        requires fits { Fits K.key_at (length (map (λ t. t.now) texts.now)) }
        ensures texts { IfOk result (λ r. r.texts ≡ map (λ t. t.now) texts.now) }
        ensures account { IfOk result (λ r. read_of (map (λ t. t.now) texts.now) ≡ Some r.account) }
        ensures made { let list = map (λ t. t.now) texts.now in IfOk result (IsMadeWith (clone_size list) (bytes_of list)) }
        ensures refused { IfErr result (λ error. error ≡ FailedAllocation) }
        ensures overflow { 2 ^ 64 ≤ bytes_of (map (λ t. t.now) texts.now) → result ≡ Err FailedAllocation }
    {
        let capacity = one_bucket(&texts, texts.len())?;
        let mut copy = Rodeo::with_capacity_and_hasher(alloc, capacity, hasher)?;
        match copy_all(&mut copy, &texts, texts.len()) {
            Ok(()) => Ok(copy),
            Err(error) => Err(error),
        }
    }
}
