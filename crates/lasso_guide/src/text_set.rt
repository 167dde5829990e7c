//! A container of your own over `lasso::arena` and `lasso::index`: a set of texts, each stored once, that knows the
//! position at which each came.
ghost use Rattle.std.specs.Prelude.{◌≡◌, ◌++◌, [], ◌∷◌, length, None, Some, IfOk, IfErr, OnOk};
ghost use Rattle.lasso.specs.Hashing.{hash_by};
ghost use Rattle.lasso.specs.Index.{IsIndexOf, IsVacancy};
ghost use Rattle.lasso.specs.Texts.{Fits, position_of};
ghost use Rattle.lasso.specs.Interning.{with_last};
ghost use Rattle.lasso.specs.LassoErrorKind.TheVariants.{FailedAllocation};

use lasso::arena::{Arena, Span};
use lasso::index::{Index, Texts, Vacancy, hash_text};
use lasso::{FixedState, Key, LassoError, LassoErrorKind, LassoResult};
use std::alloc::Global;
use std::hash::BuildHasher;
use std::marker::Model;

/// Texts in an arena, in the order in which they came. Contracts see the list of them.
#[derive(Drop)]
pub struct StoredTexts {
    arena: Arena<Global>,
    spans: Vec<Span>,
}

impl Model for StoredTexts {
    ghost use Rattle.std.specs.Prelude.{List};
    ghost use Rattle.lasso.specs.Texts.{Text};
    ghost use Rattle.lasso_guide.specs.TextSets.{texts_in, AreStored};

    ghost Value = { List Text };

    ghost view = { λ s. texts_in s.arena.all s.spans.items };

    ghost invariant = { λ s. AreStored s.arena.all s.spans.items };
}

impl StoredTexts {
    /// No texts yet, in at most `limit` bytes of buckets. The only error is out of memory.
    pub fn new(alloc: Global, limit: usize) -> LassoResult<Self>
        ensures empty { IfOk result (λ texts. texts ≡ []) }
        ensures refused { IfErr result (λ error. error ≡ FailedAllocation) }
    {
        Ok(StoredTexts {
            arena: Arena::new(alloc, 4096, limit)?,
            spans: Vec::new(alloc),
        })
    }

    /// How many texts there are.
    pub fn len(&self) -> usize
        ensures { result ≡ length self.now }
    {
        self.spans.len()
    }

    /// Copies the text to the end. The limit or lack of memory may refuse it, and nothing changes then.
    pub fn push(&mut self, text: &str) -> LassoResult<()>
        ensures pushed { OnOk result (self.new ≡ self.old ++ text.now ∷ []) }
        ensures refused { IfErr result (λ _. self.new ≡ self.old) }
    {
        self.spans.reserve(1)?;
        let span = self.arena.store_str(text)?;
        self.spans.push_reserved(span);
        Ok(())
    }
}

impl Texts for StoredTexts {
    ghost list = { λ texts. texts };

    fn text_at(&self, position: usize) -> &str {
        self.arena.text(self.spans[position])
    }
}

/// A set of texts. Contracts see the list of its texts, in which each comes once.
#[derive(Drop)]
pub struct TextSet<K: Key, S: BuildHasher> {
    texts: StoredTexts,
    index: Index<K, Global>,
    hasher: S,
}

impl<K: Key, S: BuildHasher> Model for TextSet<K, S> {
    ghost use Rattle.std.specs.Prelude.{List, length};
    ghost use Rattle.lasso.specs.Hashing.{hash_by};
    ghost use Rattle.lasso.specs.Index.{IsIndexOf};
    ghost use Rattle.lasso.specs.Texts.{Text, Fits};

    ghost Value = { List Text };

    ghost view = { λ s. s.texts };

    ghost invariant = { λ s. IsIndexOf (hash_by S.BuildHasher S.Hasher.Hasher s.hasher) s.texts s.index × Fits K.key_at (length s.texts) };
}

impl<K: Key, S: BuildHasher + Drop> TextSet<K, S> {
    /// An empty set, whose buckets take at most `limit` bytes after the first one. The only error is out of memory.
    pub fn new(alloc: Global, hasher: S, limit: usize) -> LassoResult<Self>
        ensures empty { IfOk result (λ set. set ≡ []) }
        ensures refused { IfErr result (λ error. error ≡ FailedAllocation) }
    {
        Ok(TextSet {
            texts: StoredTexts::new(alloc, limit)?,
            index: Index::new(alloc),
            hasher,
        })
    }
}

impl<K: Key, S: BuildHasher> TextSet<K, S> {
    /// The position of the text, counted from 0, or `None` if it is not in the set.
    pub fn position(&self, text: &str) -> Option<usize>
        ensures { result ≡ position_of self.now text.now }
    {
        self.index.find(&self.texts, &self.hasher, text)
    }

    /// The position of the text, which goes last if it is new, and stays there. A present text is never refused. A new one is
    /// refused by the limit, for lack of a key or out of memory, and nothing changes then.
    pub fn insert(&mut self, text: &str) -> LassoResult<usize>
        ensures inserted { IfOk result (λ n. (self.new ≡ with_last self.old text.now) × (position_of self.new text.now ≡ Some n)) }
        ensures refused { IfErr result (λ _. (self.new ≡ self.old) × (position_of self.old text.now ≡ None)) }
    {
        let hash = hash_text(&self.hasher, text);
        match self.index.locate(&self.texts, &self.hasher, hash, text) {
            Ok(position) => Ok(position),
            Err(vacancy) => append(
                &mut self.texts,
                &mut self.index,
                &self.hasher,
                text,
                hash,
                vacancy,
            ),
        }
    }
}

// Puts an absent text last, and its key into the index at the vacancy where it was not found. If it is refused, nothing changes.
fn append<K: Key, S: BuildHasher>(
    texts: &mut StoredTexts,
    index: &mut Index<K, Global>,
    hasher: &S,
    text: &str,
    hash: u64,
    vacancy: Vacancy,
) -> LassoResult<usize>
    requires whole { IsIndexOf (hash_by S.BuildHasher S.Hasher.Hasher hasher.now) texts.old index.old × Fits K.key_at (length texts.old) }
    requires hashed { hash ≡ hash_by S.BuildHasher S.Hasher.Hasher hasher.now text.now }
    requires absent { position_of texts.old text.now ≡ None }
    requires vacant { IsVacancy hash vacancy index.old.slots }
    ensures appended { IfOk result (λ n. (texts.new ≡ texts.old ++ text.now ∷ []) × (n ≡ length texts.old)) }
    ensures refused { IfErr result (λ _. texts.new ≡ texts.old) }
    ensures whole { IsIndexOf (hash_by S.BuildHasher S.Hasher.Hasher hasher.now) texts.new index.new × Fits K.key_at (length texts.new) }
{
    let position = texts.len();
    let Some(key) = K::try_from_usize(position) else {
        return Err(LassoError::new(LassoErrorKind::KeySpaceExhaustion));
    };
    let place = index.reserve_in_order(texts, hasher, hash, vacancy)?;
    texts.push(text)?;
    index.insert_at(place, hash, key);
    Ok(position)
}
