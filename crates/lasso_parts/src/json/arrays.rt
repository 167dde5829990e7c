//! Lists of texts as JSON arrays, in order: read and written.
ghost use Rattle.std.specs.Prelude.{◌≡◌, ◌<◌, [], ℕ, Some, IsTrue, IfOk, IfErr, OnOk, length, map};
ghost use Rattle.serde_json.specs.Find.{as_str};
ghost use Rattle.serde_json.specs.View.{view, items_view};
ghost use Rattle.lasso_parts.specs.declared.util.LassoErrorKind.TheVariants.{FailedAllocation};
ghost use Rattle.lasso_parts.specs.Hashing.{hash_by};
ghost use Rattle.lasso_parts.specs.Index.{HoldsNone, IsIndexOf};
ghost use Rattle.lasso_parts.specs.Json.{json_array, item_text, new_text, key_or_too_many, earlier, shown};
ghost use Rattle.lasso_parts.specs.Json.{ReadsArray, ReadsItems, IsFaultOfText, IndexesWith};

use crate::index::{Index, Texts, hash_text};
use crate::json::JsonError;
use crate::keys::Key;
use crate::util::FixedState;
use serde_json::Value;
use std::alloc::{Allocator, Global};
use std::hash::BuildHasher;

/// The texts of an array, in the order of their keys; or what is wrong with the first item that is faulty: it
/// is no text (`NotText`); or `distinct` asks for distinct texts, and an earlier item has it (`Doubled`); or
/// the key type has no key for its position (`TooMany`). A value that is no array is `NotAnArray`. Equal
/// texts are found by their hashes. It may run out of memory (`Lasso`), unless the first item is faulty.
pub fn read_array<K: Key, A: Allocator + Clone>(
    alloc: A,
    value: &Value,
    distinct: bool,
) -> Result<Vec<&str, A>, JsonError>
    ensures { ReadsArray K.key_at distinct (view value.now) (shown (λ texts. map (λ t. t.now) texts.items) result) }
{
    let Some(items) = value.as_array() else {
        return Err(JsonError::NotAnArray);
    };
    let texts = Vec::new(alloc);
    let Some(first) = items.first() else {
        return Ok(texts);
    };
    // a fault of the first item is found before memory is asked for
    let _text = item_str(first, 0)?;
    let _key = key_for::<K>(0)?;
    let index: Index<K, A> = Index::new(texts.allocator().clone()?);
    read_items(texts, index, &FixedState::new(), items.as_slice(), distinct)
}

// Reads the items into a list and an index that are empty.
fn read_items<'a, K: Key, S: BuildHasher, A: Allocator + Clone>(
    texts: Vec<&'a str, A>,
    index: Index<K, A>,
    hasher: &S,
    items: &'a [Value],
    distinct: bool,
) -> Result<Vec<&'a str, A>, JsonError>
    requires empty { texts.items ≡ [] }
    requires none { HoldsNone index.slots }
    ensures { ReadsItems K.key_at distinct (items_view items.now) (shown (λ list. map (λ t. t.now) list.items) result) }
{
    let mut texts = texts;
    let mut index = index;
    for item in items {
        let text = item_str(item, texts.len())?;
        enter_text(&mut index, texts.as_slice(), hasher, text, distinct)?;
        texts.push(text)?;
    }
    Ok(texts)
}

// The item's text.
fn item_str(item: &Value, at: usize) -> Result<&str, JsonError>
    ensures { shown (λ t. t.now) result ≡ item_text at (as_str (view item.now)) }
{
    match item.as_str() {
        Some(text) => Ok(text),
        None => Err(JsonError::NotText(at)),
    }
}

// The key of the position.
fn key_for<K: Key>(at: usize) -> Result<K, JsonError>
    ensures { result ≡ key_or_too_many at (K.key_at at) }
{
    match K::try_from_usize(at) {
        Some(key) => Ok(key),
        None => Err(JsonError::TooMany(at)),
    }
}

// Checks that a text may go last in the list. If the texts must be distinct, its position is entered in the
// index, which must be that of the list.
fn enter_text<K: Key, S: BuildHasher, A: Allocator + Clone>(
    index: &mut Index<K, A>,
    texts: &[&str],
    hasher: &S,
    text: &str,
    distinct: bool,
) -> Result<(), JsonError>
    requires { IsTrue distinct → IsIndexOf (hash_by S.BuildHasher S.Hasher.Hasher hasher.now) (map (λ t. t.now) texts.now) index.old }
    ensures taken { OnOk result (new_text K.key_at (length texts.now) text.now (earlier distinct (map (λ t. t.now) texts.now) text.now) ≡ Ok text.now) }
    ensures fault { IfErr result (λ e. IsFaultOfText K.key_at (length texts.now) distinct (map (λ t. t.now) texts.now) text.now e) }
    ensures whole { OnOk result (IndexesWith distinct (hash_by S.BuildHasher S.Hasher.Hasher hasher.now) (map (λ t. t.now) texts.now) text.now index.new) }
{
    let at = texts.len();
    if !distinct {
        let _key = key_for::<K>(at)?;
        return Ok(());
    }
    let hash = hash_text(hasher, text);
    if index.find_hashed(&texts, hasher, hash, text).is_some() {
        return Err(JsonError::Doubled(at));
    }
    let key = key_for(at)?;
    index.reserve_one(&texts, hasher)?;
    index.insert_reserved(hash, key);
    Ok(())
}

/// The array of the texts, in order; `len` must be how many there are. The only error is out of memory
/// (`Lasso`), and the empty array never has it.
pub fn write_array<T: Texts>(alloc: Global, texts: &T, len: usize) -> Result<Value, JsonError>
    requires { len ≡ length (T.list texts.now) }
    ensures written { IfOk result (λ value. view value ≡ json_array (T.list texts.now)) }
    ensures refused { IfErr result (λ error. (error ≡ JsonError.Lasso FailedAllocation) × (0 < len)) }
{
    let mut items: Vec<Value> = Vec::new(alloc);
    for position in 0..len {
        let text = String::from_str(alloc, texts.text_at(position))?;
        items.push(Value::String(text))?;
    }
    Ok(Value::Array(items))
}
