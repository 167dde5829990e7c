//! Code over any interner: two texts are compared once, when they go in, and from then on by their keys.
ghost use Rattle.std.specs.Prelude.{◌≡◌, ◌↔◌, IfSome, IfOk, IsTrue};

use lasso::{Interner, Key, LassoResult};
use std::sync::Wait;

/// Whether the texts are equal, by their keys: if the interner has its own list, the keys are equal exactly
/// if the texts are.
pub fn have_one_key<K: Key, R: Wait, I: Interner<K>>(
    rt: &R,
    interner: &mut I,
    left: &str,
    right: &str,
) -> LassoResult<bool>
    ensures { IfSome (I.meaning interner.old) (λ _. IfOk result (λ one. IsTrue one ↔ (left.now ≡ right.now))) }
{
    let left_key = interner.try_get_or_intern(rt, left)?;
    let right_key = interner.try_get_or_intern(rt, right)?;
    Ok(left_key.into_usize() == right_key.into_usize())
}
