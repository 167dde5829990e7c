//! Laws of the JSON forms of lists of texts, each as the contract of a function that does nothing.
ghost use Rattle.lasso_parts.specs.JsonLaws.{ReadsExactly, ReadsBack, FaultsExactly};
ghost use Rattle.lasso_parts.specs.JsonObjectLaws.{ReadsObjectExactly, ReadsObjectBack, FaultsObjectExactly};

use crate::keys::Key;

/// A value is read as a list of texts exactly if it is the array of these texts, each of their positions
/// has a key, and, if distinct texts are asked for, no two of them are equal.
pub fn json_reads_exactly<K: Key>()
    ensures { ReadsExactly K.key_at }
{}

/// Reading back what was written for a list of distinct texts that fits the keys gives that list.
#[tactic(auto, using(crate::proofs::JsonLaws::reads_back))]
pub fn json_reads_back<K: Key>()
    ensures { ReadsBack K.key_at }
{}

/// The fault of an array is that of the first item that can't be read after the texts before it.
pub fn json_faults_exactly<K: Key>()
    ensures { FaultsExactly K.key_at }
{}

/// A value whose members are in the byte order of their texts, as `read_map` says of any that it is given, is
/// read as a list of texts exactly if it is the object from these texts to their positions plus one, each
/// of the positions has a key, and no two texts are equal.
pub fn json_object_reads_exactly<K: Key>()
    ensures { ReadsObjectExactly K.key_at }
{}

/// Reading back the object that was written for a list of distinct texts that fits the keys gives that list.
pub fn json_object_reads_back<K: Key>()
    ensures { ReadsObjectBack K.key_at }
{}

/// The fault of an object is that of the first member that can't be read after the members before it.
pub fn json_object_faults_exactly<K: Key>()
    ensures { FaultsObjectExactly K.key_at }
{}
