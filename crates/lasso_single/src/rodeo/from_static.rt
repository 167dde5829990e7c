//! A `Rodeo` that opens with a list of keywords, none of which is copied.
ghost use Rattle.std.specs.Prelude.{◌≡◌, ◌-◌, ◌^◌, ◌⊎◌, IfOk, IfErr, IsTrue, length, map};
ghost use Rattle.lasso_parts.specs.Account.{fresh};
ghost use Rattle.lasso_parts.specs.Texts.{Fits, IsDistinct};
ghost use Rattle.lasso_parts.specs.declared.util.LassoErrorKind.TheVariants.{FailedAllocation, KeySpaceExhaustion};
ghost use Rattle.lasso_single.specs.Interner.{IsMadeWith};
ghost use Rattle.lasso_single.specs.KeywordLists.{all_differ};

use super::Rodeo;
use crate::keyword_lists::have_keys;
use lasso_parts::keys::Key;
use lasso_parts::util::{Capacity, LassoError, LassoErrorKind, LassoResult};
use std::alloc::Allocator;
use std::hash::BuildHasher;

impl<K: Key, S: BuildHasher + Default + Drop, A: Allocator + Clone> Rodeo<K, S, A> {
    /// An interner that begins with these keywords: the keyword at position n has the key of position n, and every text
    /// interned later has a greater key. So a key below `keywords.len()` is a keyword's. The keywords are not copied. No keyword
    /// may come twice; `are_distinct` is the test. There is room for the keywords; the first bucket has 4096 bytes, and
    /// there is no limit. Fails with `KeySpaceExhaustion` if the key type has too few keys for the keywords, and otherwise
    /// only when out of memory.
    ///
    /// ```rust
    /// let keywords = ["if", "else", "while"];
    /// let mut rodeo = SpurRodeo::from_static(rt.alloc(), &keywords)?;
    /// let name = rodeo.try_get_or_intern("width")?;
    /// let keyword = rodeo.try_get_or_intern("else")?;
    /// assert!(rt; keyword.into_usize() == 1);
    /// assert!(rt; keyword.into_usize() < keywords.len());
    /// assert!(rt; name.into_usize() >= keywords.len());
    /// ```
    pub fn from_static(alloc: A, keywords: &[&'static str]) -> LassoResult<Self>
        requires { IsTrue (all_differ (map (λ t. t.now) keywords.now)) }
        ensures texts { IfOk result (λ r. r.texts ≡ map (λ t. t.now) keywords.now) }
        ensures account { IfOk result (λ r. r.account ≡ fresh 4096 (2 ^ 64 - 1)) }
        ensures made { IfOk result (IsMadeWith 4096 0) }
        ensures fits { IfOk result (λ _. Fits K.key_at (length keywords.now)) }
        ensures refused { IfErr result (λ error. ((error ≡ KeySpaceExhaustion) × ¬ Fits K.key_at (length keywords.now))
            ⊎ ((error ≡ FailedAllocation) × Fits K.key_at (length keywords.now))) }
    {
        if !have_keys::<K>(keywords.len()) {
            return Err(LassoError::new(LassoErrorKind::KeySpaceExhaustion));
        }
        Rodeo::of_keywords(alloc, S::default(), keywords)
    }
}

impl<K: Key, S: BuildHasher + Drop, A: Allocator + Clone> Rodeo<K, S, A> {
    // An interner that begins with these keywords, which are distinct and fit the keys. Fails only when out of memory.
    fn of_keywords(alloc: A, hasher: S, keywords: &[&'static str]) -> LassoResult<Self>
        requires distinct { IsDistinct (map (λ t. t.now) keywords.now) }
        requires fits { Fits K.key_at (length keywords.now) }
        ensures texts { IfOk result (λ r. r.texts ≡ map (λ t. t.now) keywords.now) }
        ensures account { IfOk result (λ r. r.account ≡ fresh 4096 (2 ^ 64 - 1)) }
        ensures made { IfOk result (IsMadeWith 4096 0) }
        ensures refused { IfErr result (λ error. error ≡ FailedAllocation) }
    {
        let capacity = Capacity::for_strings(keywords.len());
        let mut rodeo = Rodeo::with_capacity_and_hasher(alloc, capacity, hasher)?;
        for keyword in keywords {
            rodeo.try_get_or_intern_static(keyword)?;
        }
        Ok(rodeo)
    }
}
