//! Lists of texts as JSON objects, from each text to its position plus one: read and written.
ghost use Rattle.std.specs.Prelude.{◌≡◌, ◌<◌, [], IfOk, IfErr, length, map};
ghost use Rattle.serde_json.specs.Events.{members_len};
ghost use Rattle.serde_json.specs.View.{view, members_view};
ghost use Rattle.lasso_parts.specs.declared.util.LassoErrorKind.TheVariants.{FailedAllocation};
ghost use Rattle.lasso_parts.specs.Json.{shown, whole_number};
ghost use Rattle.lasso_parts.specs.JsonObjects.{json_object, member_position, IsInOrder, ReadsMembers, ReadsObject};

use crate::index::Texts;
use crate::json::JsonError;
use crate::keys::Key;
use serde_json::{Map, Number, Value};
use std::alloc::{Allocator, Global};

/// The texts of an object, in the order of their keys: each member's text at the position that the member is
/// the number after; or what is wrong with the first member, in the byte order of the texts, that is faulty:
/// it is no whole number from 1 to the count of members (`NotAPosition`); or the key type has no key for its
/// position (`TooMany`); or an earlier member has the position (`Taken`). A value that is no object, an array
/// too, is `NotAnObject`. It may run out of memory (`Lasso`), unless the first member is faulty.
pub fn read_map<K: Key, A: Allocator + Clone>(
    alloc: A,
    value: &Value,
) -> Result<Vec<&str, A>, JsonError>
    ensures read { ReadsObject K.key_at (view value.now) (shown (λ texts. map (λ t. t.now) texts.items) result) }
    ensures order { IsInOrder (view value.now) }
{
    let Some(members) = value.as_object() else {
        return Err(JsonError::NotAnObject);
    };
    let texts = Vec::new(alloc);
    let count = members.len();
    let Some((_, first)) = members.first_key_value() else {
        return Ok(texts);
    };
    // a fault of the first member is found before memory is asked for
    let _position = member_position::<K>(first, 0, count)?;
    let taken = Vec::new(texts.allocator().clone()?);
    read_members::<K, A>(texts, taken, members)
}

// Reads the members into a list and marks that are empty.
fn read_members<'a, K: Key, A: Allocator>(
    texts: Vec<&'a str, A>,
    taken: Vec<bool, A>,
    members: &'a Map<String, Value>,
) -> Result<Vec<&'a str, A>, JsonError>
    requires empty { texts.items ≡ [] }
    requires none { taken.items ≡ [] }
    ensures { ReadsMembers K.key_at (length members.now.entries) (members_view members.now.entries) (shown (λ list. map (λ t. t.now) list.items) result) }
{
    let mut texts = texts;
    let mut taken = taken;
    let count = members.len();
    texts.resize(count, "")?;
    taken.resize(count, false)?;
    let mut at = 0;
    for (text, member) in members {
        let position = member_position::<K>(member, at, count)?;
        if taken[position] {
            return Err(JsonError::Taken(at));
        }
        taken[position] = true;
        texts[position] = text.as_str();
        at += 1;
    }
    Ok(texts)
}

// The position, among `count`, that the member is the number after, and that has a key.
fn member_position<K: Key>(member: &Value, at: usize, count: usize) -> Result<usize, JsonError>
    ensures { result ≡ member_position K.key_at count at (whole_number (view member.now)) }
{
    let Some(number) = member.as_u64() else {
        return Err(JsonError::NotAPosition(at));
    };
    if number == 0 || number > count as u64 {
        return Err(JsonError::NotAPosition(at));
    }
    let position = number as usize - 1;
    match K::try_from_usize(position) {
        Some(_) => Ok(position),
        None => Err(JsonError::TooMany(at)),
    }
}

/// The object from each text to its position plus one; `len` must be how many texts there are. The only error
/// is out of memory (`Lasso`), and the empty object never has it.
pub fn write_map<T: Texts>(alloc: Global, texts: &T, len: usize) -> Result<Value, JsonError>
    requires { len ≡ length (T.list texts.now) }
    ensures written { IfOk result (λ value. view value ≡ json_object (T.list texts.now)) }
    ensures refused { IfErr result (λ error. (error ≡ JsonError.Lasso FailedAllocation) × (0 < len)) }
{
    let mut members: Map<String, Value> = Map::new(alloc);
    for position in 0..len {
        let text = String::from_str(alloc, texts.text_at(position))?;
        let number = Value::Number(Number::from(position + 1));
        members.insert(text, number)?;
    }
    Ok(Value::Object(members))
}
