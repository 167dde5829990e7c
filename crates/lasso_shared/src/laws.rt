//! Laws of the shared history, each as the contract of a function that does nothing.

ghost use Rattle.lasso_shared.specs.ExampleCalls.{AreCalls, AreNoCalls};
ghost use Rattle.lasso_shared.specs.ExamplePlain.{AreNoPlainCalls};
ghost use Rattle.lasso_log.specs.Laws.{EachHistoryHolds, ChargeRefusesExactlyPastLimit};

mod callers;

pub use callers::{
    answered_keys_resolve, calls_tell_keys, keys_are_equal_where_texts_are, passes_share_keys,
    resolved_texts_stay, seen_texts_keep_keys,
};
use lasso_parts::keys::Key;

/// In every legal history of an opening no text occurs twice and each position has a key, no bucket holds
/// more bytes than it has, and the usage is the sum of their sizes. A longer history has a longer list, and
/// no event raises the usage past the limit in force.
pub fn legal_histories_hold<K: Key>()
    ensures { EachHistoryHolds K.key_at }
{}

/// If no bucket has room, a text's bytes get no new bucket exactly if the usage and the bytes
/// pass the limit: so such a text may always be stored or refused, and never both.
pub fn charge_refuses_exactly_past_limit()
    ensures { ChargeRefusesExactlyPastLimit }
{}

/// Calls that were worked by hand are calls by the definition, in an interner that opens with no text and in one that opens with two.
pub fn worked_calls_are_calls()
    ensures { AreCalls }
{}

/// Wrong calls are none: an append that is dropped or doubled, a refusal that takes a position, a text that
/// the pass had seen and that is not found, a list that is older than the end, a limit that is not set or set
/// twice, a refusal for which there is no ground, and others. Nor may an interner open with a text that
/// occurs twice, or without a key for each text.
pub fn wrong_calls_are_none()
    ensures { AreNoCalls }
{}

/// Wrong plain calls are none either, whatever history explains them: a length, a usage or a list that is smaller than the opening's; a
/// text of the opening that is not found, gets another key or is refused; a static text refused by the limit; and others.
pub fn wrong_plain_calls_are_none()
    ensures { AreNoPlainCalls }
{}
