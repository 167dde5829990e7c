//! Freezing: the last handle of a shared interner makes it one that interns no more, without copying a text.
ghost use Rattle.std.specs.Prelude.{◌≡◌, IsSome, None, true};
ghost use Rattle.lasso_c.specs.Members.{Sees, is_frozen, shared_seed};

use crate::shared::handle::LassoShared;
use crate::status::{DONE, NO_INTERNER, OTHER_HANDLES};

/// Freezes the interner, if this is its last handle: the handle then sees the whole list, and neither it nor a handle that joins it
/// later interns a text. Frozen is frozen: the call then returns `DONE` again, whatever handles there are. It returns `NO_INTERNER`
/// without an interner, and `OTHER_HANDLES` if it has other handles and is not frozen; the handle is as it was then.
#[unsafe(no_mangle)]
pub extern "C" fn lasso_shared_freeze(shared: &mut LassoShared) -> u32
    // On success
    ensures sees { result ≡ DONE → Sees shared.old.seat.value shared.new.seat.value }
    ensures frozen { result ≡ DONE → is_frozen shared.new.seat.value ≡ true }

    // On failure
    ensures none { shared.old.seat.value ≡ None → result ≡ NO_INTERNER }
    ensures refused { IsSome shared.old.seat.value → ¬ (result ≡ DONE) → result ≡ OTHER_HANDLES }
    ensures already { is_frozen shared.old.seat.value ≡ true → result ≡ DONE }
    ensures kept { ¬ (result ≡ DONE) → shared.new.seat.value ≡ shared.old.seat.value }

    // What stays
    ensures seed { shared_seed shared.new.seat.value ≡ shared_seed shared.old.seat.value }
{
    let Some(member) = shared.member() else {
        return NO_INTERNER;
    };
    if member.freeze() {
        return DONE;
    }
    OTHER_HANDLES
}
