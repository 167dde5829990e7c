//! What the callers of one interner with two passes can rely on. The contract of each function follows from
//! those of the calls, by the laws of `lasso_shared::laws`.
ghost use Rattle.std.specs.Prelude.{◌≡◌, ◌≢◌, ◌↔◌, Some, IsTrue, IfOk, option_map};

use crate::checks::is_so;
use lasso_log::log::Pass;
use lasso_parts::keys::{Key, Spur};
use lasso_parts::util::{FixedState, LassoResult};
use lasso_shared::laws::{
    answered_keys_resolve, calls_tell_keys, keys_are_equal_where_texts_are, passes_share_keys,
    seen_texts_keep_keys,
};
use lasso_shared::threaded::ThreadedRodeo;
use std::sync::Wait;
use std::test::*;
use test_steps::Host;
use test_steps::calls::{Shared, made, pass_of};

// Interns the text by one pass, and resolves its key by another, which has met the first.
fn resolved_by_another<'a, R: Wait>(
    rt: &R,
    shared: &'a ThreadedRodeo<Spur, FixedState>,
    one: &mut Pass<Spur>,
    other: &mut Pass<Spur>,
    text: &'static str,
) -> LassoResult<Option<&'a str>>
    requires of { (one.old.of ≡ shared.now) × (other.old.of ≡ shared.now) }
    ensures of { (one.new.of ≡ shared.now) × (other.new.of ≡ shared.now) }
    ensures text { IfOk result (λ found. option_map (λ t. t.now) found ≡ Some text.now) }
{
    let key = shared.try_get_or_intern_static_as(rt, one, text)?;
    other.meet(one);
    passes_share_keys::<Spur>();
    answered_keys_resolve::<Spur>();
    Ok(shared.try_resolve_as(other, key))
}

// Interns the text by one pass, and again by another, which has met the first.
fn interned_by_both<R: Wait>(
    rt: &R,
    shared: &ThreadedRodeo<Spur, FixedState>,
    one: &mut Pass<Spur>,
    other: &mut Pass<Spur>,
    text: &'static str,
) -> LassoResult<(Spur, Option<Spur>)>
    requires of { (one.old.of ≡ shared.now) × (other.old.of ≡ shared.now) }
    ensures of { (one.new.of ≡ shared.now) × (other.new.of ≡ shared.now) }
    ensures same { IfOk result (λ keys. keys.1 ≡ Some keys.0) }
{
    let key = shared.try_get_or_intern_static_as(rt, one, text)?;
    other.meet(one);
    calls_tell_keys::<Spur>();
    seen_texts_keep_keys::<Spur>();
    passes_share_keys::<Spur>();
    let again = shared.try_get_or_intern_static_as(rt, other, text);
    Ok((key, again.ok()))
}

// Interns a text by each of two passes. Returns whether the two texts have the same key.
fn have_one_key<R: Wait>(
    rt: &R,
    shared: &ThreadedRodeo<Spur, FixedState>,
    one: &mut Pass<Spur>,
    other: &mut Pass<Spur>,
    text: &'static str,
    word: &'static str,
) -> LassoResult<bool>
    requires of { (one.old.of ≡ shared.now) × (other.old.of ≡ shared.now) }
    ensures of { (one.new.of ≡ shared.now) × (other.new.of ≡ shared.now) }
    ensures same { IfOk result (λ same. IsTrue same ↔ (text.now ≡ word.now)) }
{
    let key = shared.try_get_or_intern_static_as(rt, one, text)?;
    let other_key = shared.try_get_or_intern_static_as(rt, other, word)?;
    one.prove_comparable(other);
    passes_share_keys::<Spur>();
    calls_tell_keys::<Spur>();
    keys_are_equal_where_texts_are::<Spur>();
    Ok(key == other_key)
}

// Does nothing. Its contract shows that the passes have different numbers.
fn numbers_differ(
    shared: &ThreadedRodeo<Spur, FixedState>,
    one: &mut Pass<Spur>,
    other: &mut Pass<Spur>,
)
    requires of { (one.old.of ≡ shared.now) × (other.old.of ≡ shared.now) }
    ensures of { (one.new.of ≡ shared.now) × (other.new.of ≡ shared.now) }
    ensures numbers { one.new.number ≢ other.new.number }
{
    let _ = shared;
    one.prove_differs(other);
}

// Interns the text by one pass. Returns whether the other resolves its key to it.
fn resolves<R: Wait>(
    rt: &R,
    shared: &Shared,
    one: &mut Pass<Spur>,
    other: &mut Pass<Spur>,
    text: &'static str,
) -> LassoResult<bool>
    requires of { (one.old.of ≡ shared.now) × (other.old.of ≡ shared.now) }
    ensures of { (one.new.of ≡ shared.now) × (other.new.of ≡ shared.now) }
{
    Ok(resolved_by_another(rt, shared, one, other, text)? == Some(text))
}

// Interns the text by both passes. Returns its number if both calls return the same key.
fn number_by_both<R: Wait>(
    rt: &R,
    shared: &Shared,
    one: &mut Pass<Spur>,
    other: &mut Pass<Spur>,
    text: &'static str,
) -> LassoResult<Option<usize>>
    requires of { (one.old.of ≡ shared.now) × (other.old.of ≡ shared.now) }
    ensures of { (one.new.of ≡ shared.now) × (other.new.of ≡ shared.now) }
{
    let (key, again) = interned_by_both(rt, shared, one, other, text)?;
    Ok(if again == Some(key) {
        Some(key.into_usize())
    } else {
        None
    })
}

// Interns the text by both passes, as `have_one_key`, but promises nothing of the passes (no clause `same`).
fn one_key<R: Wait>(
    rt: &R,
    shared: &Shared,
    one: &mut Pass<Spur>,
    other: &mut Pass<Spur>,
    text: &'static str,
    word: &'static str,
) -> LassoResult<bool>
    requires of { (one.old.of ≡ shared.now) × (other.old.of ≡ shared.now) }
    ensures of { (one.new.of ≡ shared.now) × (other.new.of ≡ shared.now) }
{
    have_one_key(rt, shared, one, other, text, word)
}

// Whether each pass finds what the other interned.
fn find_each_other<R: Wait>(
    rt: &R,
    shared: &Shared,
    one: &mut Pass<Spur>,
    other: &mut Pass<Spur>,
) -> LassoResult<bool>
    requires of { (one.old.of ≡ shared.now) × (other.old.of ≡ shared.now) }
    ensures of { (one.new.of ≡ shared.now) × (other.new.of ≡ shared.now) }
{
    let read = resolves(rt, shared, one, other, "p")?;
    Ok(number_by_both(rt, shared, other, one, "q")? == Some(1) && read)
}

// Whether two passes give one text one key, and two texts two.
fn have_their_keys<R: Wait>(
    rt: &R,
    shared: &Shared,
    one: &mut Pass<Spur>,
    other: &mut Pass<Spur>,
) -> LassoResult<bool>
    requires of { (one.old.of ≡ shared.now) × (other.old.of ≡ shared.now) }
{
    let same = one_key(rt, shared, one, other, "r", "r")?;
    Ok(!one_key(rt, shared, other, one, "r", "s")? && same)
}

// Makes two passes. Fails unless they rely on each other.
fn rely_on_each_other<R: Host>(rt: &R, shared: &Shared) -> LassoResult<()> {
    let mut one = pass_of(shared);
    let mut other = pass_of(shared);
    numbers_differ(shared, &mut one, &mut other);
    let holds = find_each_other(rt, shared, &mut one, &mut other)?;
    is_so(rt, holds, "the texts");
    let holds = have_their_keys(rt, shared, &mut one, &mut other)?;
    is_so(rt, holds, "the keys");
    Ok(())
}

#[test]
fn two_passes_rely_on_each_other(rt: HostRuntime) -> Result<(), Fail> {
    let shared = made(rt.alloc())?;
    rely_on_each_other(&rt, &shared)?;
    Ok(())
}
