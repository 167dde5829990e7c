//! A call with a pass, a pass in a loop, and an interner that threads own together.
ghost use Rattle.std.specs.Prelude.{◌≡◌, ℕ, IfOk, Some, slice_get};
ghost use Rattle.lasso.specs.Texts.{Text};
ghost use Rattle.lasso.specs.Views.{IsSamePass, list_of};

use lasso::{FixedState, Key, LassoResult, Pass, ThreadedRodeo};
use std::sync::Wait;

/// The key of the name, which stands for it from now on in all that passes of this interner see. Each text
/// that the pass had seen keeps its position. Fails as `try_get_or_intern_as` does.
pub fn declare<K: Key, R: Wait>(
    rt: &R,
    rodeo: &ThreadedRodeo<K, FixedState>,
    pass: &mut Pass<K>,
    name: &str,
) -> LassoResult<K>
    requires { pass.old.of ≡ rodeo.now }
    ensures same { IsSamePass pass.new pass.old }
    ensures named { IfOk result (λ key. slice_get (list_of rodeo.now pass.new.notes) (K.number key) ≡ Some name.now) }
    ensures kept { (n : ℕ) (text : Text) → slice_get (list_of rodeo.now pass.old.notes) n ≡ Some text
        → slice_get (list_of rodeo.now pass.new.notes) n ≡ Some text }
{
    rodeo.try_get_or_intern_as(rt, pass, name)
}

/// Interns the names in order by the pass. Stops at the first error and returns it; the names before it stay.
pub fn intern_names<K: Key, R: Wait>(
    rt: &R,
    rodeo: &ThreadedRodeo<K, FixedState>,
    pass: &mut Pass<K>,
    names: &[&str],
) -> LassoResult<()>
    requires { pass.old.of ≡ rodeo.now }
    ensures { pass.new.of ≡ rodeo.now }
{
    for name in names {
        declare(rt, rodeo, pass, name)?;
    }
    Ok(())
}
