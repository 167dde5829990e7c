//! The memory limit of a shared interner, and how much of it is taken.
ghost use Rattle.std.specs.Prelude.{◌≡◌};
ghost use Rattle.lasso_log.specs.Replies.{Done, MaxUsage, Number, SetLimit, Usage};
ghost use Rattle.lasso_c.specs.Members.{Calls, IsTriedStatus, MakesNone, is_frozen, shared_seed, texts_seen};

use crate::shared::handle::LassoShared;
use crate::status::{BUSY, DONE, NO_INTERNER};

/// Writes how many bytes the interner's buckets take. It returns `NO_INTERNER` without an interner, `BUSY` if another thread is inside a
/// step, and writes nothing then.
#[unsafe(no_mangle)]
pub extern "C" fn lasso_shared_memory(shared: &mut LassoShared, bytes: &mut usize) -> u32
    ensures status { IsTriedStatus shared.old.seat.value result }
    ensures done { result ≡ DONE → Calls shared.old.seat.value shared.new.seat.value Usage (Number bytes.new) }
    ensures busy { result ≡ BUSY → MakesNone shared.old.seat.value shared.new.seat.value }
    ensures kept { result ≡ NO_INTERNER → shared.new.seat.value ≡ shared.old.seat.value }
    ensures bytes_kept { ¬ (result ≡ DONE) → bytes.new ≡ bytes.old }
    ensures seen { texts_seen shared.new.seat.value ≡ texts_seen shared.old.seat.value }
    ensures seed { shared_seed shared.new.seat.value ≡ shared_seed shared.old.seat.value }
    ensures frozen { is_frozen shared.new.seat.value ≡ is_frozen shared.old.seat.value }
{
    let Some(member) = shared.member() else {
        return NO_INTERNER;
    };
    let Some(usage) = member.memory() else {
        return BUSY;
    };
    *bytes = usage;
    DONE
}

/// Writes how many bytes the interner's buckets may take. It returns `NO_INTERNER` without an interner, `BUSY` if another thread is
/// inside a step, and writes nothing then.
#[unsafe(no_mangle)]
pub extern "C" fn lasso_shared_limit(shared: &mut LassoShared, bytes: &mut usize) -> u32
    ensures status { IsTriedStatus shared.old.seat.value result }
    ensures done { result ≡ DONE → Calls shared.old.seat.value shared.new.seat.value MaxUsage (Number bytes.new) }
    ensures busy { result ≡ BUSY → MakesNone shared.old.seat.value shared.new.seat.value }
    ensures kept { result ≡ NO_INTERNER → shared.new.seat.value ≡ shared.old.seat.value }
    ensures bytes_kept { ¬ (result ≡ DONE) → bytes.new ≡ bytes.old }
    ensures seen { texts_seen shared.new.seat.value ≡ texts_seen shared.old.seat.value }
    ensures seed { shared_seed shared.new.seat.value ≡ shared_seed shared.old.seat.value }
    ensures frozen { is_frozen shared.new.seat.value ≡ is_frozen shared.old.seat.value }
{
    let Some(member) = shared.member() else {
        return NO_INTERNER;
    };
    let Some(limit) = member.limit() else {
        return BUSY;
    };
    *bytes = limit;
    DONE
}

/// Sets how many bytes the interner's buckets may take, for all its handles. It may be less than they take: then no bucket comes. It
/// returns `NO_INTERNER` without an interner, `BUSY` if another thread is inside a step, and sets nothing then.
#[unsafe(no_mangle)]
pub extern "C" fn lasso_shared_set_limit(shared: &mut LassoShared, limit: usize) -> u32
    ensures status { IsTriedStatus shared.old.seat.value result }
    ensures done { result ≡ DONE → Calls shared.old.seat.value shared.new.seat.value (SetLimit limit) Done }
    ensures busy { result ≡ BUSY → MakesNone shared.old.seat.value shared.new.seat.value }
    ensures kept { result ≡ NO_INTERNER → shared.new.seat.value ≡ shared.old.seat.value }
    ensures seen { texts_seen shared.new.seat.value ≡ texts_seen shared.old.seat.value }
    ensures seed { shared_seed shared.new.seat.value ≡ shared_seed shared.old.seat.value }
    ensures frozen { is_frozen shared.new.seat.value ≡ is_frozen shared.old.seat.value }
{
    let Some(member) = shared.member() else {
        return NO_INTERNER;
    };
    if member.set_limit(limit) {
        return DONE;
    }
    BUSY
}
