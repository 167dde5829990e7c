//! Two threads intern a name each, by passes of their own. Then the caller's pass learns what theirs have
//! seen: both names have their keys there, and the keys are equal exactly if the names are.
ghost use Rattle.std.specs.Prelude.{◌≡◌, ◌↔◌, ℕ, IfErr, IfOk, Some, slice_get};
ghost use Rattle.lasso.specs.Texts.{Text};
ghost use Rattle.lasso.specs.Views.{InternerId, IsSamePass, SnapshotView, PassView, list_of, seen};
ghost use Rattle.lasso.specs.CallerLaws.{HasKey};
ghost use Rattle.lasso_guide.specs.Pairs.{IsFind};

use lasso::laws::keys_are_equal_where_texts_are;
use lasso::{FixedState, Key, LassoResult, Pass, Snapshot, ThreadedRodeo};
use std::sync::Wait;
use std::thread::{Threads, join};

/// The keys of both names, which two threads intern if a thread can be started. Fails as
/// `try_get_or_intern_as` does: the pass is unchanged then, and one of the names may be interned.
pub fn intern_pair<R: Threads + Wait + Sync, K: Key + Send + Sync + Drop>(
    rt: &R,
    rodeo: &ThreadedRodeo<K, FixedState>,
    pass: &mut Pass<K>,
    left: &str,
    right: &str,
) -> LassoResult<(K, K)>
    requires { pass.old.of ≡ rodeo.now }
    ensures same { IsSamePass pass.new pass.old }
    ensures left { IfOk result (λ keys. HasKey K.key_at rodeo.now.opening (seen pass.new) left.now keys.0) }
    ensures right { IfOk result (λ keys. HasKey K.key_at rodeo.now.opening (seen pass.new) right.now keys.1) }
    ensures equal { IfOk result (λ keys. (keys.0 ≡ keys.1) ↔ (left.now ≡ right.now)) }
    ensures kept { (n : ℕ) (text : Text) → slice_get (list_of rodeo.now pass.old.notes) n ≡ Some text
        → slice_get (list_of rodeo.now pass.new.notes) n ≡ Some text }
    ensures refused { IfErr result (λ _. pass.new ≡ pass.old) }
{
    let here = move || -> LassoResult<Find<K>>
        ensures { IfOk result (λ find. IsFind K.key_at rodeo.entry.now left.entry.now find.known find.key) }
    { intern_alone(rt, rodeo, left) };
    let there = move || -> LassoResult<Find<K>>
        ensures { IfOk result (λ find. IsFind K.key_at rodeo.entry.now right.entry.now find.known find.key) }
    { intern_alone(rt, rodeo, right) };
    let (first, second) = join(rt, here, there);
    let one = first?;
    let other = second?;
    pass.learn(&one.known);
    pass.learn(&other.known);
    keys_are_equal_where_texts_are::<K>();
    Ok((one.key, other.key))
}

// The key of a name, and what the pass has seen that interned it.
#[derive(Drop)]
struct Find<K: Key + Drop> {
    key: K,
    known: Snapshot<K>,
}

// Interns the name by a new pass.
fn intern_alone<R: Wait, K: Key + Drop>(
    rt: &R,
    rodeo: &ThreadedRodeo<K, FixedState>,
    name: &str,
) -> LassoResult<Find<K>>
    ensures { IfOk result (λ find. IsFind K.key_at rodeo.now name.now find.known find.key) }
{
    let mut pass = rodeo.pass();
    let key = rodeo.try_get_or_intern_as(rt, &mut pass, name)?;
    Ok(Find {
        key,
        known: pass.snapshot(),
    })
}
