//! The frozen forms as JSON: the array of their texts, in the order of their keys. That of a `Rodeo` is in
//! `rodeo/json.rt`.
ghost use Rattle.std.specs.Prelude.{◌≡◌, ◌<◌, ◌⊎◌, Ok, Err, IfOk, IfErr, length};
ghost use Rattle.serde_json.specs.View.{view};
ghost use Rattle.lasso_parts.specs.Json.{json_array, read_array};
ghost use Rattle.lasso_parts.specs.declared.util.LassoErrorKind.TheVariants.{FailedAllocation};
ghost use Rattle.lasso_single.specs.Json.{IsOutOfMemory, ReadsInto, RefusesFirstItem, RefusesNoArray, RefusesUncountableBytes, may_repeat, must_differ};

use crate::reader::RodeoReader;
use crate::resolver::RodeoResolver;
use crate::rodeo::Rodeo;
use crate::text_list::TextList;
use lasso_parts::json::{JsonError, read_array, write_array};
use lasso_parts::keys::Key;
use serde_json::Value;
use std::alloc::{Allocator, Global};
use std::hash::BuildHasher;

impl<K: Key, S: BuildHasher, A: Allocator> RodeoReader<K, S, A> {
    /// The array of the texts, in the order of their keys. The only error is out of memory (`Lasso`), and an
    /// empty list never has it.
    pub fn serialize(&self, alloc: Global) -> Result<Value, JsonError>
        ensures written { IfOk result (λ value. view value ≡ json_array self.now) }
        ensures refused { IfErr result (λ error. (error ≡ JsonError.Lasso FailedAllocation) × (0 < length self.now)) }
    {
        self.rodeo().serialize(alloc)
    }
}

impl<K: Key, S: BuildHasher + Default + Drop, A: Allocator + Clone> RodeoReader<K, S, A> {
    /// A reader with the texts of an array, in order. It is the frozen form of what `Rodeo::deserialize`
    /// reads, and refused as that is.
    pub fn deserialize(alloc: A, value: &Value) -> Result<Self, JsonError>
        // On success it has the texts that the value is read as: they are distinct.
        ensures texts { IfOk result (λ texts. read_array K.key_at must_differ (view value.now) ≡ Ok texts) }

        // On failure the error is the first of these: the value is no array (`NotAnArray`); or of the first faulty item, it is no text
        // (`NotText`), an earlier item has its text (`Doubled`), or its position has no key (`TooMany`). Memory may run out (`Lasso`) in
        // place of any, but not if the value is no array or its first item is faulty. It does if a `usize` can't count the texts' bytes.
        ensures no_array { RefusesNoArray (view value.now) result }
        ensures first_item { RefusesFirstItem K.key_at must_differ (view value.now) result }
        ensures fault { IfErr result (λ error. (read_array K.key_at must_differ (view value.now) ≡ Err error)
            ⊎ IsOutOfMemory K.key_at must_differ (view value.now) error) }
        ensures overflow { RefusesUncountableBytes K.key_at must_differ (view value.now) result }

        // The same facts as one relation
        ensures read { ReadsInto K.key_at must_differ (view value.now) result }
    {
        match Rodeo::<K, S, A>::deserialize(alloc, value) {
            Ok(rodeo) => Ok(rodeo.into_reader()),
            Err(fault) => Err(fault),
        }
    }
}

impl<K: Key, A: Allocator> RodeoResolver<K, A> {
    /// The array of the texts, in the order of their keys. The only error is out of memory (`Lasso`), and an
    /// empty list never has it.
    pub fn serialize(&self, alloc: Global) -> Result<Value, JsonError>
        ensures written { IfOk result (λ value. view value ≡ json_array self.now) }
        ensures refused { IfErr result (λ error. (error ≡ JsonError.Lasso FailedAllocation) × (0 < length self.now)) }
    {
        let list = self.list();
        write_array(alloc, list, list.len())
    }
}

impl<K: Key, A: Allocator + Clone> RodeoResolver<K, A> {
    /// A resolver with the texts of an array, in order. Texts may be equal, each under its own key. The first
    /// faulty item decides: it is no text (`NotText`), or the key type has no key for its position
    /// (`TooMany`). A value that is no array is `NotAnArray`. It may run out of memory (`Lasso`) unless the
    /// value is no array or its first item is faulty, and it does when a `usize` can't count the texts'
    /// bytes.
    pub fn deserialize(alloc: A, value: &Value) -> Result<Self, JsonError>
        // On success it has the texts that the value is read as: they may repeat.
        ensures texts { IfOk result (λ texts. read_array K.key_at may_repeat (view value.now) ≡ Ok texts) }

        // On failure the error is the first of these: the value is no array (`NotAnArray`); or of the first faulty item, it is no text
        // (`NotText`), or its position has no key (`TooMany`). Memory may run out (`Lasso`) in place of any, but not if the value is no
        // array or its first item is faulty. It does if a `usize` can't count the texts' bytes.
        ensures no_array { RefusesNoArray (view value.now) result }
        ensures first_item { RefusesFirstItem K.key_at may_repeat (view value.now) result }
        ensures fault { IfErr result (λ error. (read_array K.key_at may_repeat (view value.now) ≡ Err error)
            ⊎ IsOutOfMemory K.key_at may_repeat (view value.now) error) }
        ensures overflow { RefusesUncountableBytes K.key_at may_repeat (view value.now) result }

        // The same facts as one relation
        ensures read { ReadsInto K.key_at may_repeat (view value.now) result }
    {
        RodeoResolver::read_value(alloc, value)
    }

    // The call with its contract in relations.
    #[inline(always)]
    fn read_value(alloc: A, value: &Value) -> Result<Self, JsonError>
        ensures texts { IfOk result (λ texts. read_array K.key_at may_repeat (view value.now) ≡ Ok texts) }
        ensures fault { IfErr result (λ error. (read_array K.key_at may_repeat (view value.now) ≡ Err error)
            ⊎ IsOutOfMemory K.key_at may_repeat (view value.now) error) }
        ensures overflow { RefusesUncountableBytes K.key_at may_repeat (view value.now) result }
        ensures read { ReadsInto K.key_at may_repeat (view value.now) result }
    {
        let texts = read_array::<K, A>(alloc, value, false)?;
        let alloc = texts.allocator().clone()?;
        let list = TextList::copy_of(alloc, texts.as_slice())?;
        Ok(RodeoResolver::new(list))
    }
}
