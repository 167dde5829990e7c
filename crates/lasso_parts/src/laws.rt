//! Laws of the definitions, each as the contract of a function that does nothing: of accounts, and of the equality,
//! the order and the hash of keys, capacities and limits.
ghost use Rattle.lasso_parts.specs.Account.{NeverGrowsPastLimit, RefusesExactlyPastLimit};
ghost use Rattle.lasso_parts.specs.AccountSteps.{ServesAsWorked};
ghost use Rattle.lasso_parts.specs.Sizes.{sizes_cmp, sizes_eq};
ghost use Rattle.lasso_parts.specs.Spurs.{large_spur_at, large_spur_number, micro_spur_at, micro_spur_number};
ghost use Rattle.lasso_parts.specs.Spurs.{mini_spur_at, mini_spur_number, spur_at, spur_number};
ghost use Rattle.std.specs.Hash as fed;
ghost use Rattle.std.specs.Ordering.{nat_cmp};
ghost use Rattle.std.specs.Prelude.{◌≡◌, ◌==◌, ◌++◌, ℕ, Some};

use crate::keys::{Key, LargeSpur, MicroSpur, MiniSpur, Spur};
use crate::util::{Capacity, MemoryLimits};
use std::cmp::{Ord, PartialEq, PartialOrd};
use std::hash::Hash;

/// A text is refused exactly if it is longer than the room of the current bucket, no spare bucket
/// has its bytes, and the usage and its bytes pass the limit.
pub fn store_refuses_exactly_past_limit()
    ensures { RefusesExactlyPastLimit }
{}

/// Steps of an account that were worked by hand come out as worked.
pub fn store_serves_as_worked()
    ensures { ServesAsWorked }
{}

/// Storing never takes the usage past the limit: if the usage grows, it is at most the limit then.
pub fn store_never_grows_past_limit()
    ensures { NeverGrowsPastLimit }
{}

/// `spur_number` is the position that a `Spur` stands for, and `spur_at` the key of a position.
pub fn spur_number(_key: Spur)
    ensures number { spur_number _key ≡ ⟦<Spur as Key>⟧.number _key }
    ensures keys { (n : ℕ) → spur_at n ≡ ⟦<Spur as Key>⟧.key_at n }
{}

/// `mini_spur_number` is the position that a `MiniSpur` stands for, and `mini_spur_at` the key of a position.
pub fn mini_spur_number(_key: MiniSpur)
    ensures number { mini_spur_number _key ≡ ⟦<MiniSpur as Key>⟧.number _key }
    ensures keys { (n : ℕ) → mini_spur_at n ≡ ⟦<MiniSpur as Key>⟧.key_at n }
{}

/// `micro_spur_number` is the position that a `MicroSpur` stands for, and `micro_spur_at` the key of a position.
pub fn micro_spur_number(_key: MicroSpur)
    ensures number { micro_spur_number _key ≡ ⟦<MicroSpur as Key>⟧.number _key }
    ensures keys { (n : ℕ) → micro_spur_at n ≡ ⟦<MicroSpur as Key>⟧.key_at n }
{}

/// `large_spur_number` is the position that a `LargeSpur` stands for, and `large_spur_at` the key of a position.
pub fn large_spur_number(_key: LargeSpur)
    ensures number { large_spur_number _key ≡ ⟦<LargeSpur as Key>⟧.number _key }
    ensures keys { (n : ℕ) → large_spur_at n ≡ ⟦<LargeSpur as Key>⟧.key_at n }
{}

/// Keys of 32 bits are equal, ordered and hashed by their positions.
pub fn spurs_compare_by_position(one: Spur, other: Spur)
    ensures equal { ⟦<Spur as PartialEq>⟧.eq one other ≡ (spur_number one == spur_number other) }
    ensures order { ⟦<Spur as Ord>⟧.cmp one other ≡ nat_cmp (spur_number one) (spur_number other) }
    ensures partial { ⟦<Spur as PartialOrd>⟧.partial_cmp one other ≡ Some (nat_cmp (spur_number one) (spur_number other)) }
    ensures hash { ⟦<Spur as Hash>⟧.hash_input one ≡ fed.u32 one }
{
    one.show_value();
    other.show_value();
}

/// Keys of 16 bits are equal, ordered and hashed by their positions.
pub fn mini_spurs_compare_by_position(one: MiniSpur, other: MiniSpur)
    ensures equal { ⟦<MiniSpur as PartialEq>⟧.eq one other ≡ (mini_spur_number one == mini_spur_number other) }
    ensures order { ⟦<MiniSpur as Ord>⟧.cmp one other ≡ nat_cmp (mini_spur_number one) (mini_spur_number other) }
    ensures partial { ⟦<MiniSpur as PartialOrd>⟧.partial_cmp one other ≡ Some (nat_cmp (mini_spur_number one) (mini_spur_number other)) }
    ensures hash { ⟦<MiniSpur as Hash>⟧.hash_input one ≡ fed.u16 one }
{
    one.show_value();
    other.show_value();
}

/// Keys of 8 bits are equal, ordered and hashed by their positions.
pub fn micro_spurs_compare_by_position(one: MicroSpur, other: MicroSpur)
    ensures equal { ⟦<MicroSpur as PartialEq>⟧.eq one other ≡ (micro_spur_number one == micro_spur_number other) }
    ensures order { ⟦<MicroSpur as Ord>⟧.cmp one other ≡ nat_cmp (micro_spur_number one) (micro_spur_number other) }
    ensures partial { ⟦<MicroSpur as PartialOrd>⟧.partial_cmp one other ≡ Some (nat_cmp (micro_spur_number one) (micro_spur_number other)) }
    ensures hash { ⟦<MicroSpur as Hash>⟧.hash_input one ≡ fed.u8 one }
{
    one.show_value();
    other.show_value();
}

/// Keys of 64 bits are equal, ordered and hashed by their positions.
pub fn large_spurs_compare_by_position(one: LargeSpur, other: LargeSpur)
    ensures equal { ⟦<LargeSpur as PartialEq>⟧.eq one other ≡ (large_spur_number one == large_spur_number other) }
    ensures order { ⟦<LargeSpur as Ord>⟧.cmp one other ≡ nat_cmp (large_spur_number one) (large_spur_number other) }
    ensures partial { ⟦<LargeSpur as PartialOrd>⟧.partial_cmp one other ≡ Some (nat_cmp (large_spur_number one) (large_spur_number other)) }
    ensures hash { ⟦<LargeSpur as Hash>⟧.hash_input one ≡ fed.usize one }
{
    one.show_value();
    other.show_value();
}

/// Capacities are ordered by the texts that they have room for, and if these are equal by the bytes.
pub fn capacities_compare_texts_first(_one: &Capacity, _other: &Capacity)
    ensures { ⟦<Capacity as Ord>⟧.cmp _one.now _other.now ≡ sizes_cmp _one.now _other.now }
{}

/// Capacities are equal if the texts and the bytes that they have room for are, and hashed by both. Their order is by the texts, and
/// if these are equal by the bytes.
pub fn capacities_compare_by_both(_one: Capacity, _other: Capacity)
    ensures equal { ⟦<Capacity as PartialEq>⟧.eq _one _other ≡ sizes_eq _one _other }
    ensures partial { ⟦<Capacity as PartialOrd>⟧.partial_cmp _one _other ≡ Some (sizes_cmp _one _other) }
    ensures hash { ⟦<Capacity as Hash>⟧.hash_input _one ≡ fed.usize _one.strings ++ fed.usize _one.bytes }
{}

/// Limits are equal, ordered and hashed as their bytes.
pub fn limits_compare_by_bytes(_one: MemoryLimits, _other: MemoryLimits)
    ensures equal { ⟦<MemoryLimits as PartialEq>⟧.eq _one _other ≡ (_one == _other) }
    ensures order { ⟦<MemoryLimits as Ord>⟧.cmp _one _other ≡ nat_cmp _one _other }
    ensures partial { ⟦<MemoryLimits as PartialOrd>⟧.partial_cmp _one _other ≡ Some (nat_cmp _one _other) }
    ensures hash { ⟦<MemoryLimits as Hash>⟧.hash_input _one ≡ fed.usize _one }
{}
