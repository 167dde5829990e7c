//! What callers of a shared interner can rely on, over calls and legal histories alone. Who has called one of these functions
//! can use its contract, whatever passes and threads made the calls.

ghost use Rattle.lasso_shared.specs.CallerLaws.{CallsTellKeys, SeenTextsKeepKeys, AnsweredKeysResolve};
ghost use Rattle.lasso_shared.specs.CallerLaws.{ResolvedTextsStay, KeysAreEqualWhereTextsAre, PassesShare};

use lasso_parts::keys::Key;

/// A key that a call returns for a text is the text's key at the call's end. A text that a call resolved has
/// the key that was asked.
pub fn calls_tell_keys<K: Key>()
    ensures { CallsTellKeys K.key_at }
{}

/// A text that a pass has seen keeps its key: interning it again returns that key, never fails and makes no
/// event; it is found and contained; its key is contained, and resolves to it.
pub fn seen_texts_keep_keys<K: Key>()
    ensures { SeenTextsKeepKeys K.key_at K.number }
{}

/// A key that interning returned resolves to its text, in each later call of any pass that has seen that
/// call's end.
pub fn answered_keys_resolve<K: Key>()
    ensures { AnsweredKeysResolve K.key_at K.number }
{}

/// A key that was resolved to a text resolves to that text for ever.
pub fn resolved_texts_stay<K: Key>()
    ensures { ResolvedTextsStay K.key_at }
{}

/// Keys that were returned in one history are equal exactly if their texts are.
pub fn keys_are_equal_where_texts_are<K: Key>()
    ensures { KeysAreEqualWhereTextsAre K.key_at }
{}

/// A pass that has met another has the other's keys, for the other's texts. Two passes that were compared have seen one history.
pub fn passes_share_keys<K: Key>()
    ensures { PassesShare K.key_at }
{}
