//! A `Rodeo` as JSON: the array of its texts, in the order of their keys.
ghost use Rattle.std.specs.Prelude.{◌≡◌, ◌-◌, ◌^◌, ◌<◌, ◌⊎◌, Some, Ok, Err, IfOk, IfErr, length};
ghost use Rattle.serde_json.specs.View.{view};
ghost use Rattle.lasso_parts.specs.Json.{json_array, read_array, shown};
ghost use Rattle.lasso_parts.specs.declared.util.LassoErrorKind.TheVariants.{FailedAllocation};
ghost use Rattle.lasso_single.specs.Copies.{bytes_of, clone_size, read_of};
ghost use Rattle.lasso_single.specs.Interner.{IsMadeWith};
ghost use Rattle.lasso_single.specs.Json.{IsOutOfMemory, ReadsInto, RefusesFirstItem, RefusesNoArray, RefusesUncountableBytes, must_differ};

use super::Rodeo;
use lasso_parts::json::{JsonError, read_array, write_array};
use lasso_parts::keys::Key;
use serde_json::Value;
use std::alloc::{Allocator, Global};
use std::hash::BuildHasher;

impl<K: Key, S: BuildHasher, A: Allocator> Rodeo<K, S, A> {
    /// The array of the texts, in the order of their keys. The only error is out of memory (`Lasso`), and an
    /// empty list never has it.
    ///
    /// ```rust
    /// let rodeo = SpurRodeo::from_iter(rt.alloc(), ["b", "a"])?;
    /// let written = rodeo.serialize(rt.alloc())?.to_string(rt.alloc())?;
    /// assert!(rt; written.as_str() == r#"["b","a"]"#);
    /// ```
    pub fn serialize(&self, alloc: Global) -> Result<Value, JsonError>
        ensures written { IfOk result (λ value. view value ≡ json_array self.now.texts) }
        ensures refused { IfErr result (λ error. (error ≡ JsonError.Lasso FailedAllocation) × (0 < length self.now.texts)) }
    {
        write_array(alloc, &self.list, self.len())
    }
}

impl<K: Key, S: BuildHasher + Default + Drop, A: Allocator + Clone> Rodeo<K, S, A> {
    /// An interner with the texts of an array, in order, all copied into one bucket of just their bytes (4096
    /// if they have none), and the limit `usize::MAX`. The first faulty item decides: it is no text
    /// (`NotText`), or an earlier item has its text (`Doubled`), or the key type has no key for its position
    /// (`TooMany`). A value that is no array is `NotAnArray`. It may run out of memory (`Lasso`) unless the
    /// value is no array or its first item is faulty, and it does when a `usize` can't count the texts'
    /// bytes.
    ///
    /// ```rust
    /// let value = Value::from_str(rt.alloc(), r#"["b", "a"]"#)?;
    /// let rodeo = SpurRodeo::deserialize(rt.alloc(), &value)?;
    /// let first = rodeo.get("b").ok_or("not there")?;
    /// assert!(rt; first.into_usize() == 0);
    /// ```
    pub fn deserialize(alloc: A, value: &Value) -> Result<Self, JsonError>
        // On success it has the texts that the value is read as, in one bucket of their bytes (4096 if they have none), without a limit. Its
        // first bucket is that one, all bytes are copied, and it was never cleared.
        ensures texts { IfOk result (λ r. read_array K.key_at must_differ (view value.now) ≡ Ok r.texts) }
        ensures account { IfOk result (λ r. read_of r.texts ≡ Some r.account) }
        ensures limit { IfOk result (λ r. r.account.limit ≡ 2 ^ 64 - 1) }
        ensures usage { IfOk result (λ r. r.account.usage ≡ clone_size r.texts) }
        ensures made { IfOk result (λ r. IsMadeWith (clone_size r.texts) (bytes_of r.texts) r) }

        // On failure the error is the first of these: the value is no array (`NotAnArray`); or of the first faulty item, it is no text
        // (`NotText`), an earlier item has its text (`Doubled`), or its position has no key (`TooMany`). Memory may run out (`Lasso`) in
        // place of any, but not if the value is no array or its first item is faulty. It does if a `usize` can't count the texts' bytes.
        ensures no_array { RefusesNoArray (view value.now) result }
        ensures first_item { RefusesFirstItem K.key_at must_differ (view value.now) result }
        ensures fault { IfErr result (λ error. (read_array K.key_at must_differ (view value.now) ≡ Err error)
            ⊎ IsOutOfMemory K.key_at must_differ (view value.now) error) }
        ensures overflow { RefusesUncountableBytes K.key_at must_differ (view value.now) result }

        // The same facts as one relation
        ensures read { ReadsInto K.key_at must_differ (view value.now) (shown (λ r. r.texts) result) }
    {
        Rodeo::read_value(alloc, value)
    }

    // The call with its contract in relations.
    #[inline(always)]
    fn read_value(alloc: A, value: &Value) -> Result<Self, JsonError>
        ensures texts { IfOk result (λ r. read_array K.key_at must_differ (view value.now) ≡ Ok r.texts) }
        ensures account { IfOk result (λ r. read_of r.texts ≡ Some r.account) }
        ensures made { IfOk result (λ r. IsMadeWith (clone_size r.texts) (bytes_of r.texts) r) }
        ensures fault { IfErr result (λ error. (read_array K.key_at must_differ (view value.now) ≡ Err error)
            ⊎ IsOutOfMemory K.key_at must_differ (view value.now) error) }
        ensures overflow { RefusesUncountableBytes K.key_at must_differ (view value.now) result }
        ensures read { ReadsInto K.key_at must_differ (view value.now) (shown (λ r. r.texts) result) }
    {
        let texts = read_array::<K, A>(alloc, value, true)?;
        let alloc = texts.allocator().clone()?;
        let rodeo = Rodeo::of_texts(alloc, S::default(), texts.as_slice())?;
        Ok(rodeo)
    }
}
