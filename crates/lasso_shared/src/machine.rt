//! The shared interner as a machine: what holds whatever steps its calls take, in whatever order.

ghost use Rattle.std.specs.Prelude.{ℕ, Option};
ghost use Rattle.lasso_shared.specs.Example.{IsWorked};
ghost use Rattle.lasso_shared.specs.MachineCalls.{EachCallIsACall};
ghost use Rattle.lasso_shared.specs.Runs.{EachRunHolds};

use lasso_parts::keys::Key;

/// Whatever keys there are, whatever shard each text has, and whatever steps the calls take: each
/// state is good, the list only grows, a step that raises the usage ends with it at most the limit,
/// each reply is explained by what the state holds, and the events are a legal history that adds up
/// to the state.
pub fn all_runs()
    ensures { (key_at : ℕ → Option ℕ) → EachRunHolds key_at }
{}

/// `all_runs` for each type of keys.
pub fn all_runs_of<K: Key>()
    ensures { EachRunHolds K.key_at }
{}

/// Each call of the machine, from its first step to its last, is a *call* of its pass in the legal history of
/// [`all_runs_of`]: its reply is that of the history at a step between the two, and its pass made exactly the events of
/// that reply. So the machine is a model of what the contracts of the calls promise, if a pass makes one call at a
/// time.
pub fn machine_calls_are_calls<K: Key>()
    ensures { EachCallIsACall K.key_at }
{}

/// There are such runs: one was worked by hand, with two calls at once, a bucket of doubled size,
/// each refusal, a static text and another limit.
pub fn some_run()
    ensures { IsWorked }
{}
