//! The opening of an interner with keywords, none of which is copied.
ghost use Rattle.std.specs.Prelude.{◌≡◌, ◌-◌, ◌^◌, IfOk, IfErr, length, map};
ghost use Rattle.lasso_parts.specs.declared.util.LassoErrorKind.TheVariants.{FailedAllocation};
ghost use Rattle.lasso_parts.specs.Texts.{IsDistinct, Fits};
ghost use Rattle.lasso_log.specs.History.{opened};

use crate::shards::Shards;
use lasso_log::log::OpeningTexts;
use lasso_log::shared_memory::piece::Piece;
use lasso_parts::keys::Key;
use lasso_parts::util::LassoResult;
use std::alloc::Global;
use std::hash::BuildHasher;

impl<K: Key, S: BuildHasher + Drop> Shards<K, S> {
    /// The parts of an interner that opens with these keywords, in order. The keywords are not copied. They must be distinct and fit the keys.
    /// The first bucket has 4096 free bytes, and the limit is the greatest number. Fails only when out of memory.
    pub fn of_keywords(
        alloc: Global,
        hasher: S,
        keywords: &[&'static str],
    ) -> LassoResult<Shards<K, S>>
        requires distinct { IsDistinct (map (λ t. t.now) keywords.now) }
        requires fits { Fits K.key_at (length (map (λ t. t.now) keywords.now)) }
        ensures opening { IfOk result (λ s. s.log.opening ≡ opened (map (λ t. t.now) keywords.now) 4096 0 (2 ^ 64 - 1)) }
        ensures hasher { IfOk result (λ s. s.hasher ≡ hasher) }
        ensures refused { IfErr result (λ error. error ≡ FailedAllocation) }
    {
        let mut opening = OpeningTexts::new(alloc, 4096)?;
        for keyword in keywords {
            opening.push(alloc, Piece::from_static(keyword))?;
        }
        Shards::open_with(alloc, hasher, opening, u64::MAX, 0)
    }
}
