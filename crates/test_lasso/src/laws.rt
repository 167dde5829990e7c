//! Code that is written once for every interner, and proved from the interfaces alone: what each of them keeps if it
//! has its own list.
ghost use Rattle.std.specs.Prelude.{◌≡◌, ◌↔◌, Some, None, length, is_ok, if◌then◌else◌, IfSome, IfOk, IfErr, IsTrue, option_map};
ghost use Rattle.lasso_parts.specs.Texts.{position_of, key_of};
ghost use Rattle.lasso_parts.specs.declared.util.LassoErrorKind.TheVariants.{KeySpaceExhaustion};
ghost use Rattle.lasso.specs.Interning.{with_last};

use lasso::{Interner, IntoReader, IntoResolver, Reader, Resolver, SpurInterner, SpurRodeo};
use lasso_parts::keys::{Key, Spur};
use lasso_parts::util::LassoResult;
use lasso_single::reader::RodeoReader;
use lasso_single::resolver::RodeoResolver;
use lasso_single::rodeo::Rodeo;
use std::alloc::Allocator;
use std::hash::BuildHasher;
use std::sync::Wait;

/// Whether the three look-ups of a key agree, and find a text exactly if the key is said to stand for one.
pub fn looks_up_alike<K: Key, T: Resolver<K>>(resolver: &T, key: K) -> bool
    ensures { IfSome (T.meaning resolver.now) (λ _. IsTrue result) }
{
    let text = resolver.try_resolve(key);
    resolver.resolve(key) == text
        && resolver.resolve_unchecked(key) == text
        && resolver.contains_key(key) == text.is_some()
}

/// Whether the key that is found for the text, if one is, resolves to the text, which is then said to be there.
pub fn finds_what_resolves<K: Key, R: Wait, T: Reader<K>>(rt: &R, reader: &T, text: &str) -> bool
    ensures { IfSome (T.meaning reader.now) (λ _. IsTrue result) }
{
    match reader.get(rt, text) {
        Some(key) => reader.contains(rt, text) && stands_for(rt, reader, key, text),
        None => true,
    }
}

/// Interns the text twice. Returns whether both calls gave one key, which is found for the text and resolves
/// to it. The list then has the text, and no other text more. A refusal is that of the first call.
pub fn interns_as_one<K: Key, R: Wait, I: Interner<K>>(
    rt: &R,
    interner: &mut I,
    text: &str,
) -> LassoResult<bool>
    ensures one { IfSome (I.meaning interner.old) (λ _. IfOk result IsTrue) }
    ensures list { IfSome (I.meaning interner.old) (λ texts. I.meaning interner.new ≡ Some (if is_ok result then with_last texts text.now else texts)) }
    ensures refused { IfSome (I.meaning interner.old) (λ texts. IfErr result (λ error. (position_of texts text.now ≡ None)
        × ((error ≡ KeySpaceExhaustion) ↔ (K.key_at (length texts) ≡ None)))) }
{
    let first = interner.try_get_or_intern(rt, text)?;
    let again = interner.try_get_or_intern(rt, text)?;
    Ok(is_key(Some(again), first) && stands_for(rt, interner, first, text))
}

/// Interns the text and freezes the interner. Returns whether the reader finds the key that was given for the
/// text, and resolves it to the text. If the interner has a list, only the intern is refused.
pub fn reader_knows<K: Key, R: Wait, I: IntoReader<K> + Drop>(
    rt: &R,
    mut interner: I,
    text: &str,
) -> LassoResult<bool>
where
    I::Reader: Drop,
    ensures known { IfSome (I.meaning interner) (λ _. IfOk result IsTrue) }
    ensures refused { IfSome (I.meaning interner) (λ texts. IfErr result (λ error. (position_of texts text.now ≡ None)
        × ((error ≡ KeySpaceExhaustion) ↔ (K.key_at (length texts) ≡ None)))) }
{
    let key = interner.try_get_or_intern(rt, text)?;
    let reader = interner.into_reader(rt)?;
    Ok(stands_for(rt, &reader, key, text))
}

/// Interns the text and freezes the interner. Returns whether the resolver resolves the key that was given to
/// the text. If the interner has a list, only the intern is refused.
pub fn resolver_knows<K: Key, R: Wait, I: Interner<K> + IntoResolver<K> + Drop>(
    rt: &R,
    mut interner: I,
    text: &str,
) -> LassoResult<bool>
where
    I::Resolver: Drop,
    ensures known { IfSome (I.meaning interner) (λ _. IfOk result IsTrue) }
    ensures refused { IfSome (I.meaning interner) (λ texts. IfErr result (λ error. (position_of texts text.now ≡ None)
        × ((error ≡ KeySpaceExhaustion) ↔ (K.key_at (length texts) ≡ None)))) }
{
    let key = interner.try_get_or_intern(rt, text)?;
    let resolver = interner.into_resolver(rt)?;
    Ok(is_text(resolver.try_resolve(key), text))
}

// Whether the key is found for the text, and resolves to it: so it is where the key is the text's.
fn stands_for<K: Key, R: Wait, T: Reader<K>>(rt: &R, reader: &T, key: K, text: &str) -> bool
    ensures { IfSome (T.meaning reader.now) (λ texts. key_of K.key_at texts text.now ≡ Some key → IsTrue result) }
{
    is_key(reader.get(rt, text), key) && is_text(reader.try_resolve(key), text)
}

/// Whether there is a key, and it has the number of this one.
pub(crate) fn is_key<K: Key>(found: Option<K>, key: K) -> bool
    ensures { found ≡ Some key → IsTrue result }
{
    match found {
        Some(found) => found.into_usize() == key.into_usize(),
        None => false,
    }
}

/// Whether there is a text, and it is this one.
pub(crate) fn is_text(found: Option<&str>, text: &str) -> bool
    ensures { IsTrue result ↔ (option_map (λ t. t.now) found.entry ≡ Some text.now) }
{
    match found {
        Some(found) => found == text,
        None => false,
    }
}

// The laws of interners at each type that holds one: the code is that of `laws`, and what it says of a list
// is said here of the list of texts that the held interner has.

/// `interns_as_one` of a `Rodeo`.
pub fn rodeo_interns_as_one<K: Key, S: BuildHasher, A: Allocator + Clone, R: Wait>(
    rt: &R,
    rodeo: &mut Rodeo<K, S, A>,
    text: &str,
) -> LassoResult<bool>
    ensures one { IfOk result IsTrue }
    ensures list { rodeo.new.texts ≡ (if is_ok result then with_last rodeo.old.texts text.now else rodeo.old.texts) }
    ensures refused { IfErr result (λ error. (position_of rodeo.old.texts text.now ≡ None)
        × ((error ≡ KeySpaceExhaustion) ↔ (K.key_at (length rodeo.old.texts) ≡ None))) }
{
    interns_as_one(rt, rodeo, text)
}

/// `interns_as_one` of a `Rodeo` that is lent.
pub fn lent_rodeo_interns_as_one<'a, K: Key, S: BuildHasher, A: Allocator + Clone, R: Wait>(
    rt: &R,
    lent: &mut &'a mut Rodeo<K, S, A>,
    text: &str,
) -> LassoResult<bool>
    ensures one { IfOk result IsTrue }
    ensures list { lent.new.now.texts ≡ (if is_ok result then with_last lent.old.now.texts text.now else lent.old.now.texts) }
    ensures refused { IfErr result (λ error. (position_of lent.old.now.texts text.now ≡ None)
        × ((error ≡ KeySpaceExhaustion) ↔ (K.key_at (length lent.old.now.texts) ≡ None))) }
{
    interns_as_one(rt, lent, text)
}

/// `interns_as_one` of a `Rodeo` in a box.
pub fn boxed_rodeo_interns_as_one<K: Key, S: BuildHasher, A: Allocator + Clone, R: Wait>(
    rt: &R,
    boxed: &mut Box<Rodeo<K, S, A>>,
    text: &str,
) -> LassoResult<bool>
    ensures one { IfOk result IsTrue }
    ensures list { boxed.new.value.texts ≡ (if is_ok result then with_last boxed.old.value.texts text.now else boxed.old.value.texts) }
    ensures refused { IfErr result (λ error. (position_of boxed.old.value.texts text.now ≡ None)
        × ((error ≡ KeySpaceExhaustion) ↔ (K.key_at (length boxed.old.value.texts) ≡ None))) }
{
    interns_as_one(rt, boxed, text)
}

/// `reader_knows` of a `Rodeo`.
pub fn reader_of_rodeo_knows<K: Key, S: BuildHasher + Drop, A: Allocator + Clone, R: Wait>(
    rt: &R,
    rodeo: Rodeo<K, S, A>,
    text: &str,
) -> LassoResult<bool>
    ensures known { IfOk result IsTrue }
    ensures refused { IfErr result (λ error. (position_of rodeo.texts text.now ≡ None)
        × ((error ≡ KeySpaceExhaustion) ↔ (K.key_at (length rodeo.texts) ≡ None))) }
{
    reader_knows(rt, rodeo, text)
}

/// `reader_knows` of a `Rodeo` in a box.
pub fn reader_of_boxed_rodeo_knows<K: Key, S: BuildHasher + Drop, A: Allocator + Clone, R: Wait>(
    rt: &R,
    boxed: Box<Rodeo<K, S, A>>,
    text: &str,
) -> LassoResult<bool>
    ensures known { IfOk result IsTrue }
    ensures refused { IfErr result (λ error. (position_of boxed.value.texts text.now ≡ None)
        × ((error ≡ KeySpaceExhaustion) ↔ (K.key_at (length boxed.value.texts) ≡ None))) }
{
    reader_knows(rt, boxed, text)
}

/// `resolver_knows` of a `Rodeo`.
pub fn resolver_of_rodeo_knows<K: Key, S: BuildHasher + Drop, A: Allocator + Clone, R: Wait>(
    rt: &R,
    rodeo: Rodeo<K, S, A>,
    text: &str,
) -> LassoResult<bool>
    ensures known { IfOk result IsTrue }
    ensures refused { IfErr result (λ error. (position_of rodeo.texts text.now ≡ None)
        × ((error ≡ KeySpaceExhaustion) ↔ (K.key_at (length rodeo.texts) ≡ None))) }
{
    resolver_knows(rt, rodeo, text)
}

/// `resolver_knows` of a `Rodeo` in a box.
pub fn resolver_of_boxed_rodeo_knows<K: Key, S: BuildHasher + Drop, A: Allocator + Clone, R: Wait>(
    rt: &R,
    boxed: Box<Rodeo<K, S, A>>,
    text: &str,
) -> LassoResult<bool>
    ensures known { IfOk result IsTrue }
    ensures refused { IfErr result (λ error. (position_of boxed.value.texts text.now ≡ None)
        × ((error ≡ KeySpaceExhaustion) ↔ (K.key_at (length boxed.value.texts) ≡ None))) }
{
    resolver_knows(rt, boxed, text)
}

/// `finds_what_resolves` of a reader, owned and lent.
pub fn reader_finds_what_resolves<K: Key, S: BuildHasher, A: Allocator, R: Wait>(
    rt: &R,
    reader: &RodeoReader<K, S, A>,
    text: &str,
) -> bool
    ensures { IsTrue result }
{
    finds_what_resolves(rt, reader, text) && finds_what_resolves(rt, &reader, text)
}

/// `looks_up_alike` of a resolver, owned and lent.
pub fn resolver_looks_up_alike<K: Key, A: Allocator>(resolver: &RodeoResolver<K, A>, key: K) -> bool
    ensures { IsTrue result }
{
    looks_up_alike(resolver, key) && looks_up_alike(&resolver, key)
}

// What `interns_as_one` says of every interner, said of boxed interners and of what is lent from them.

/// Interns the text twice. Returns whether both calls gave one key, which is found for the text and resolves
/// to it. The list then has the text, and no other text more. A refusal is that of the first call.
pub fn object_interns_as_one(interner: &mut dyn SpurInterner, text: &str) -> LassoResult<bool>
    ensures one { IfOk result IsTrue }
    ensures list { texts interner.new ≡ (if is_ok result then with_last (texts interner.old) text.now else texts interner.old) }
    ensures refused { IfErr result (λ error. (position_of (texts interner.old) text.now ≡ None)
        × ((error ≡ KeySpaceExhaustion) ↔ (⟦<Spur as Key>⟧.key_at (length (texts interner.old)) ≡ None))) }
{
    let first = interner.try_get_or_intern(text)?;
    let again = interner.try_get_or_intern(text)?;
    let is_same = is_key(Some(again), first);
    let is_found = is_key(interner.get(text), first);
    let is_back = is_text(interner.try_resolve(first), text);
    Ok(is_same & is_found & is_back)
}

/// Interns the text twice in a boxed object, as `object_interns_as_one` does, and drops the box.
pub fn boxed_object_interns_as_one(
    mut interner: Box<dyn SpurInterner + Drop>,
    text: &str,
) -> LassoResult<bool>
    ensures one { IfOk result IsTrue }
    ensures refused { IfErr result (λ error. (position_of (texts interner) text.now ≡ None)
        × ((error ≡ KeySpaceExhaustion) ↔ (⟦<Spur as Key>⟧.key_at (length (texts interner)) ≡ None))) }
{
    object_interns_as_one(&mut *interner, text)
}

/// Interns the text twice in a boxed `SpurRodeo`, which becomes an object here.
pub fn boxed_rodeo_object_interns_as_one(rodeo: Box<SpurRodeo>, text: &str) -> LassoResult<bool>
    ensures one { IfOk result IsTrue }
    ensures refused { IfErr result (λ error. (position_of rodeo.value.texts text.now ≡ None)
        × ((error ≡ KeySpaceExhaustion) ↔ (⟦<Spur as Key>⟧.key_at (length rodeo.value.texts) ≡ None))) }
{
    let interner: Box<dyn SpurInterner + Drop> = rodeo;
    boxed_object_interns_as_one(interner, text)
}
