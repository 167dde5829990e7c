//! An interner that threads share and that opens with a list of keywords, none of which is copied.
ghost use Rattle.std.specs.Prelude.{◌≡◌, ◌-◌, ◌^◌, ◌⊎◌, IfOk, IfErr, IsTrue, length, map};
ghost use Rattle.lasso_parts.specs.declared.util.LassoErrorKind.TheVariants.{FailedAllocation, KeySpaceExhaustion};
ghost use Rattle.lasso_parts.specs.Texts.{Fits};
ghost use Rattle.lasso_single.specs.KeywordLists.{all_differ};
ghost use Rattle.lasso_log.specs.History.{opened};
ghost use Rattle.lasso_log.specs.Views.{InternerId};

use crate::shards::Shards;
use crate::threaded::ThreadedRodeo;
use lasso_parts::keys::Key;
use lasso_parts::util::{LassoError, LassoErrorKind, LassoResult};
use lasso_single::keyword_lists::have_keys;
use std::alloc::Global;
use std::hash::BuildHasher;

impl<K: Key, S: BuildHasher + Default + Drop> ThreadedRodeo<K, S> {
    /// An interner that opens with these keywords: the keyword at position n has the key of position n, and every text interned later has
    /// a greater key. So a key below `keywords.len()` is a keyword's. The keywords are not copied. No keyword may come twice; `are_distinct` is the
    /// test. The first bucket has 4096 bytes, and there is no limit. Fails with `KeySpaceExhaustion` if the key type has too few
    /// keys for the keywords, and otherwise only when out of memory. It takes no lock and does not wait.
    ///
    /// ```rust
    /// let keywords = ["if", "else", "while"];
    /// let rodeo = SpurThreadedRodeo::from_static(rt.alloc(), &keywords)?;
    /// let keyword = rodeo.try_get_or_intern(&rt, "else")?;
    /// assert!(rt; keyword.into_usize() == 1);
    /// let name = rodeo.try_get_or_intern(&rt, "width")?;
    /// assert!(rt; name.into_usize() >= keywords.len());
    /// ```
    pub fn from_static(alloc: Global, keywords: &[&'static str]) -> LassoResult<Self>
        requires { IsTrue (all_differ (map (λ t. t.now) keywords.now)) }
        ensures opening { IfOk result (λ t. t.opening ≡ opened (map (λ t. t.now) keywords.now) 4096 0 (2 ^ 64 - 1)) }
        ensures fits { IfOk result (λ _. Fits K.key_at (length keywords.now)) }
        ensures refused { IfErr result (λ error. ((error ≡ KeySpaceExhaustion) × ¬ Fits K.key_at (length keywords.now))
            ⊎ ((error ≡ FailedAllocation) × Fits K.key_at (length keywords.now))) }
    {
        if !have_keys::<K>(keywords.len()) {
            return Err(LassoError::new(LassoErrorKind::KeySpaceExhaustion));
        }
        let shards = Shards::of_keywords(alloc, S::default(), keywords)?;
        Ok(ThreadedRodeo { shards })
    }
}
