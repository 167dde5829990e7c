//! An interner that threads share as JSON: the object from its texts to their positions plus one. It is read from such an object, or from
//! the array of its texts.
ghost use Rattle.std.specs.Prelude.{◌≡◌, ◌⊎◌, ◌<◌, List, Ok, Err, IfOk, IfErr, length, map};
ghost use Rattle.serde_json.specs.View.{view};
ghost use Rattle.lasso_parts.specs.declared.util.LassoErrorKind.TheVariants.{FailedAllocation};
ghost use Rattle.lasso_parts.specs.Json.{shown};
ghost use Rattle.lasso_parts.specs.JsonObjects.{json_object};
ghost use Rattle.lasso_parts.specs.Texts.{Text, IsDistinct, Fits};
ghost use Rattle.lasso_log.specs.Calls.{IsPlainCall};
ghost use Rattle.lasso_log.specs.History.{IsLegal, IsOpening};
ghost use Rattle.lasso_log.specs.Replies.{Serialize, Listed};
ghost use Rattle.lasso_log.specs.Views.{PassView, InternerId, IsSamePass, list_of, seen};
ghost use Rattle.lasso_shared.specs.Json.{IsJsonOf, ReadsShared, ReadsList, RefusesTooLong, written_of};
ghost use Rattle.lasso_shared.specs.OpenedTexts.{opened_with_copies};
ghost use Rattle.lasso_shared.specs.PassCalls.{IsPassCall};

use crate::shards::Shards;
use crate::threaded::ThreadedRodeo;
use lasso_log::log::Pass;
use lasso_parts::json::{JsonError, read_array, read_map, write_map};
use lasso_parts::keys::Key;
use serde_json::Value;
use std::alloc::Global;
use std::hash::BuildHasher;

impl<K: Key, S: BuildHasher + Drop> ThreadedRodeo<K, S> {
    /// The object from each text to its position plus one, of the list that the pass has then seen, whatever
    /// the key type. It fails only out of memory (`FailedAllocation`), and never for an empty list. It does
    /// not wait.
    ///
    /// ```rust
    /// let rodeo: SpurThreadedRodeo = ThreadedRodeo::default(rt.alloc())?;
    /// let mut pass = rodeo.pass();
    /// rodeo.try_get_or_intern_as(&rt, &mut pass, "b")?;
    /// rodeo.try_get_or_intern_as(&rt, &mut pass, "a")?;
    /// let written = rodeo
    ///     .serialize_as(rt.alloc(), &mut pass)?
    ///     .to_string(rt.alloc())?;
    /// assert!(rt; written.as_str() == r#"{"a":2,"b":1}"#);
    /// ```
    pub fn serialize_as(&self, alloc: Global, pass: &mut Pass<K>) -> Result<Value, JsonError>
        requires { pass.old.of ≡ self.now }
        // The pass stays the same one.
        ensures same { IsSamePass pass.new pass.old }

        // The value is of the list that the pass has then seen, unless memory runs out. The call adds no event.
        ensures call { IsPassCall K.key_at self.now pass.old pass.new Serialize (Listed (written_of (list_of self.now pass.new.notes) result)) }
        ensures written { IfOk result (λ value. view value ≡ json_object (list_of self.now pass.new.notes)) }
        ensures refused { IfErr result (λ error. (error ≡ JsonError.Lasso FailedAllocation) × (0 < length (list_of self.now pass.new.notes))) }
        ensures opening { IsOpening K.key_at self.now.opening }
        ensures legal { IsLegal K.key_at self.now.opening (seen pass.new) }
    {
        let len = self.shards.log.len(pass) as usize;
        pass.prove_legal();
        let texts = self.shards.log.seen_texts(pass);
        write_map(alloc, &texts, len)
    }

    /// The object from each text to its position plus one, of the list at one step, whatever the key type. It
    /// fails only out of memory (`FailedAllocation`), and never for an empty list. It does not wait.
    ///
    /// ```rust
    /// let rodeo: SpurThreadedRodeo = ThreadedRodeo::default(rt.alloc())?;
    /// rodeo.get_or_intern(&rt, "b")?;
    /// rodeo.get_or_intern(&rt, "a")?;
    /// let written = rodeo.serialize(rt.alloc())?.to_string(rt.alloc())?;
    /// assert!(rt; written.as_str() == r#"{"a":2,"b":1}"#);
    /// ```
    pub fn serialize(&self, alloc: Global) -> Result<Value, JsonError>
        ensures call { (texts : List Text) × IsPlainCall K.key_at self.now.opening Serialize (Listed (written_of texts result))
            × IfOk result (λ value. view value ≡ json_object texts)
            × IfErr result (λ error. (error ≡ JsonError.Lasso FailedAllocation) × (0 < length texts)) }
        ensures opening { IsOpening K.key_at self.now.opening }
    {
        let mut pass = self.pass();
        self.serialize_as(alloc, &mut pass)
    }
}

impl<K: Key, S: BuildHasher + Default + Drop> ThreadedRodeo<K, S> {
    /// An interner with the texts of an object, each at the position that its number is the one after, or
    /// with those of an array, in order. All are copied into one bucket of just their bytes (4096 if they
    /// have none), and there is no limit below the greatest number. The first faulty member or item decides.
    /// A member, in the byte order of the texts: it is no whole number from 1 to the count of members
    /// (`NotAPosition`), or the key type has no key for its position (`TooMany`), or an earlier member has
    /// the position (`Taken`). An item: it is no text (`NotText`), or an earlier item has its text
    /// (`Doubled`), or its position has no key (`TooMany`). A value that is neither is `NotAnObject`. It may
    /// fail out of memory (`Lasso`) unless the value is neither or its first member or item is faulty; that
    /// error also says that the texts have more bytes than a `usize` counts.
    ///
    /// ```rust
    /// let value = Value::from_str(rt.alloc(), r#"{"a":2,"b":1}"#)?;
    /// let rodeo = SpurThreadedRodeo::deserialize(rt.alloc(), &value)?;
    /// let second = rodeo.get(&rt, "a").ok_or("not there")?;
    /// assert!(rt; second.into_usize() == 1);
    /// ```
    pub fn deserialize(alloc: Global, value: &Value) -> Result<Self, JsonError>
        // On success it has the texts that the value is read as. On failure the error is what is wrong with the value: the fault of the
        // first faulty member or item, or `NotAnObject`. Memory may run out (`Lasso`) in place of any, but not if the value is neither
        // an array nor an object or its first item or member is faulty.
        ensures read { ReadsShared K.key_at (view value.now) (shown (λ t. t.opening.texts) result) }

        // The texts are in one bucket of their bytes (4096 if they have none), without a limit.
        ensures opening { IfOk result (λ t. t.opening ≡ opened_with_copies t.opening.texts) }

        // What `serialize` writes is read again, unless memory runs out. It does if a `usize` can't count the texts' bytes.
        ensures back { (list : List Text) → IsDistinct list → Fits K.key_at (length list) → IsJsonOf list (view value.now)
            → (shown (λ t. t.opening.texts) result ≡ Ok list) ⊎ (result ≡ Err (JsonError.Lasso FailedAllocation)) }
        ensures overflow { RefusesTooLong K.key_at (view value.now) result }
    {
        let texts = texts_of::<K>(alloc, value)?;
        let shards = Shards::of_texts(alloc, S::default(), texts.as_slice())?;
        Ok(ThreadedRodeo { shards })
    }
}

// The texts of an array or of an object. A value that is neither is reported as no object.
fn texts_of<K: Key>(alloc: Global, value: &Value) -> Result<Vec<&str>, JsonError>
    ensures read { ReadsList K.key_at (view value.now) (shown (λ texts. map (λ t. t.now) texts.items) result) }
    ensures distinct { IfOk result (λ texts. IsDistinct (map (λ t. t.now) texts.items)) }
    ensures fits { IfOk result (λ texts. Fits K.key_at (length (map (λ t. t.now) texts.items))) }
{
    if value.is_array() {
        read_array::<K, Global>(alloc, value, true)
    } else {
        read_map::<K, Global>(alloc, value)
    }
}
