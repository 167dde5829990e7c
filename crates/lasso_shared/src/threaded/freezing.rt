//! The frozen forms of an interner that threads share: its texts are interned in order into a `Rodeo`, which is frozen.
ghost use Rattle.std.specs.Prelude.{◌≡◌, ◌≤◌, ◌^◌, Err, IfOk, IfErr, Some, length};
ghost use Rattle.lasso_parts.specs.Texts.{IsDistinct, Fits};
ghost use Rattle.lasso_parts.specs.declared.util.LassoErrorKind.TheVariants.{FailedAllocation};
ghost use Rattle.lasso_single.specs.Copies.{bytes_of, clone_size, read_of};
ghost use Rattle.lasso_single.specs.Interner.{IsMadeWith};
ghost use Rattle.lasso_log.specs.History.{IsLegal, IsOpening};
ghost use Rattle.lasso_log.specs.Replies.{Freeze, Listed};
ghost use Rattle.lasso_log.specs.Calls.{IsPlainCall};
ghost use Rattle.lasso_log.specs.Views.{PassView, InternerId, SnapshotView, IsSamePass, list_of, seen};
ghost use Rattle.lasso_shared.specs.PassCalls.{IsPassCall};

use crate::shards::parts::Parts;
use crate::threaded::ThreadedRodeo;
use lasso_log::log::{Pass, SeenList};
use lasso_parts::index::Texts;
use lasso_parts::keys::Key;
use lasso_parts::util::LassoResult;
use lasso_single::reader::RodeoReader;
use lasso_single::resolver::RodeoResolver;
use lasso_single::rodeo::Rodeo;
use lasso_single::room::one_bucket;
use std::alloc::Global;
use std::hash::BuildHasher;
use std::sync::Wait;

impl<K: Key, S: BuildHasher + Drop> ThreadedRodeo<K, S> {
    /// Freezes it: returns a reader with the same texts under the same keys, and the same hasher. All texts
    /// are copied, static ones too, into one bucket of just their bytes (4096 if they have none), and no
    /// limit refuses it. It fails only out of memory (`FailedAllocation`), also if the texts have
    /// more bytes than a `usize` counts; the interner is gone then too. Nobody else has the interner any
    /// more, so it waits for nobody. The pass has afterwards seen just the list of the reader.
    ///
    /// ```rust
    /// let rodeo: SpurThreadedRodeo = ThreadedRodeo::default(rt.alloc())?;
    /// let mut pass = rodeo.pass();
    /// let key = rodeo.try_get_or_intern_as(&rt, &mut pass, "Hello, world!")?;
    /// let reader = rodeo.into_reader_as(&rt, &mut pass)?;
    /// assert!(rt; reader.get("Hello, world!") == Some(key));
    /// ```
    pub fn into_reader_as<R: Wait>(
        self,
        _rt: &R,
        pass: &mut Pass<K>,
    ) -> LassoResult<RodeoReader<K, S, Global>>
        requires { pass.old.of ≡ self }
        // The pass stays the same one.
        ensures same { IsSamePass pass.new pass.old }

        // The reader has the list that the pass has then seen, unless memory runs out. It does if a `usize` can't count the texts' bytes.
        ensures call { IsPassCall K.key_at self pass.old pass.new Freeze (Listed result) }
        ensures overflow { 2 ^ 64 ≤ bytes_of (list_of self pass.new.notes) → result ≡ Err FailedAllocation }
        ensures opening { IsOpening K.key_at self.opening }
        ensures legal { IsLegal K.key_at self.opening (seen pass.new) }
    {
        let ThreadedRodeo { shards } = self;
        let Parts { log, hasher, alloc } = shards.into_parts();
        let len = log.len(pass) as usize;
        pass.prove_legal();
        let texts = log.seen_texts(pass);
        match copy_of(alloc, hasher, &texts, len) {
            Ok(rodeo) => Ok(rodeo.into_reader()),
            Err(error) => Err(error),
        }
    }

    /// Freezes it: returns a reader with the same texts under the same keys, and the same hasher. All texts
    /// are copied, static ones too, into one bucket of just their bytes (4096 if they have none), and no
    /// limit refuses it. It fails only out of memory (`FailedAllocation`), also if the texts have
    /// more bytes than a `usize` counts; the interner is gone then too. It waits for nobody.
    ///
    /// ```rust
    /// let rodeo: SpurThreadedRodeo = ThreadedRodeo::default(rt.alloc())?;
    /// let key = rodeo.try_get_or_intern(&rt, "Hello, world!")?;
    /// let reader = rodeo.into_reader(&rt)?;
    /// assert!(rt; reader.get("Hello, world!") == Some(key));
    /// assert!(rt; reader.try_resolve(key) == Some("Hello, world!"));
    /// ```
    pub fn into_reader<R: Wait>(self, rt: &R) -> LassoResult<RodeoReader<K, S, Global>>
        ensures call { IsPlainCall K.key_at self.opening Freeze (Listed result) }
        ensures opening { IsOpening K.key_at self.opening }
    {
        let mut pass = self.pass();
        self.into_reader_as(rt, &mut pass)
    }

    /// Freezes it: returns a resolver with the same texts under the same keys, which finds no keys of texts. It
    /// is the reader of `into_reader`, made a resolver, and fails in the same cases.
    ///
    /// ```rust
    /// let rodeo: SpurThreadedRodeo = ThreadedRodeo::default(rt.alloc())?;
    /// let key = rodeo.try_get_or_intern(&rt, "Hello, world!")?;
    /// let resolver = rodeo.into_resolver(&rt)?;
    /// assert!(rt; resolver.try_resolve(key) == Some("Hello, world!"));
    /// ```
    pub fn into_resolver<R: Wait>(self, rt: &R) -> LassoResult<RodeoResolver<K, Global>>
        ensures call { IsPlainCall K.key_at self.opening Freeze (Listed result) }
        ensures opening { IsOpening K.key_at self.opening }
    {
        match self.into_reader(rt) {
            Ok(reader) => Ok(reader.into_resolver()),
            Err(error) => Err(error),
        }
    }
}

impl<K: Key, S: BuildHasher + Drop> ThreadedRodeo<K, S> {
    /// An interner of one thread with the texts of a list that was seen, under the same keys. All texts are copied, static ones too,
    /// into one bucket of just their bytes (4096 if they have none), and it has no limit below the greatest number. It fails only out
    /// of memory (`FailedAllocation`), also if the texts have more bytes than a `usize` counts. It does not wait.
    pub fn copy_list<H: BuildHasher + Drop>(
        &self,
        alloc: Global,
        list: &SeenList<K>,
        hasher: H,
    ) -> LassoResult<Rodeo<K, H, Global>>
        requires { list.now.of ≡ self.now }
        ensures texts { IfOk result (λ r. r.texts ≡ list_of list.now.of list.now.notes) }
        ensures account { IfOk result (λ r. read_of (list_of list.now.of list.now.notes) ≡ Some r.account) }
        ensures made { IfOk result (IsMadeWith (clone_size (list_of list.now.of list.now.notes)) (bytes_of (list_of list.now.of list.now.notes))) }
        ensures refused { IfErr result (λ error. error ≡ FailedAllocation) }
        ensures overflow { 2 ^ 64 ≤ bytes_of (list_of list.now.of list.now.notes) → result ≡ Err FailedAllocation }
    {
        list.prove_legal();
        let texts = self.shards.log.texts_of(list);
        copy_of(alloc, hasher, &texts, list.len())
    }
}

// An interner with the texts of a distinct list that fits the keys, in order, all copied into one bucket of
// just their bytes (4096 if they have none), with no limit below the greatest number. There must be `len`
// texts. It fails only out of memory (`FailedAllocation`), also if the texts have more bytes than a
// `usize` counts.
fn copy_of<K: Key, S: BuildHasher + Drop, T: Texts>(
    alloc: Global,
    hasher: S,
    texts: &T,
    len: usize,
) -> LassoResult<Rodeo<K, S, Global>>
    requires counted { len ≡ length (T.list texts.now) }
    requires distinct { IsDistinct (T.list texts.now) }
    requires fits { Fits K.key_at (length (T.list texts.now)) }
    ensures texts { IfOk result (λ r. r.texts ≡ T.list texts.now) }
    ensures account { IfOk result (λ r. read_of (T.list texts.now) ≡ Some r.account) }
    ensures made { IfOk result (IsMadeWith (clone_size (T.list texts.now)) (bytes_of (T.list texts.now))) }
    ensures refused { IfErr result (λ error. error ≡ FailedAllocation) }
    ensures overflow { 2 ^ 64 ≤ bytes_of (T.list texts.now) → result ≡ Err FailedAllocation }
{
    let capacity = one_bucket(texts, len)?;
    let mut copy = Rodeo::with_capacity_and_hasher(alloc, capacity, hasher)?;
    for position in 0..len {
        copy.try_get_or_intern(texts.text_at(position))?;
    }
    Ok(copy)
}
