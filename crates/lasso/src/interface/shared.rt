//! The interfaces of `ThreadedRodeo`, which other threads may fill between any two calls: it has no list of
//! its own, so its meaning is none. What each call returns is said of it alone: the clauses are those of its
//! plain calls. A `&ThreadedRodeo` interns too.
ghost use Rattle.std.specs.Prelude.{◌≡◌, None, IfErr, option_map};
ghost use Rattle.lasso_parts.specs.declared.util.LassoErrorKind.TheVariants.{FailedAllocation};
ghost use Rattle.lasso_log.specs.History.{IsOpening};
ghost use Rattle.lasso_log.specs.Replies.{Copied, Static, Intern, Get, Contains, ContainsKey, Resolve, Len};
ghost use Rattle.lasso_log.specs.Replies.{IsEmpty, Freeze, Interned, Found, Flag, Resolved, Number, Listed};
ghost use Rattle.lasso_log.specs.Calls.{IsPlainCall};

use super::{Interner, IntoReader, IntoReaderAndResolver, IntoResolver, Reader, Resolver};
use lasso_parts::keys::Key;
use lasso_parts::util::LassoResult;
use lasso_shared::threaded::ThreadedRodeo;
use lasso_single::reader::RodeoReader;
use lasso_single::resolver::RodeoResolver;
use std::alloc::Global;
use std::hash::BuildHasher;
use std::sync::Wait;

impl<K: Key, S: BuildHasher + Drop> Resolver<K> for ThreadedRodeo<K, S> {
    ghost meaning = { λ _. None };

    fn try_resolve(&self, key: K) -> Option<&str>
        ensures call { IsPlainCall K.key_at self.now.opening (Resolve (K.number key)) (Resolved (option_map (λ t. t.now) result)) }
        ensures opening { IsOpening K.key_at self.now.opening }
    {
        ThreadedRodeo::try_resolve(self, key)
    }

    fn contains_key(&self, key: K) -> bool
        ensures call { IsPlainCall K.key_at self.now.opening (ContainsKey (K.number key)) (Flag result) }
        ensures opening { IsOpening K.key_at self.now.opening }
    {
        ThreadedRodeo::contains_key(self, key)
    }

    fn len(&self) -> usize
        ensures call { IsPlainCall K.key_at self.now.opening Len (Number result) }
        ensures opening { IsOpening K.key_at self.now.opening }
    {
        ThreadedRodeo::len(self)
    }

    fn resolve(&self, key: K) -> Option<&str>
        ensures call { IsPlainCall K.key_at self.now.opening (Resolve (K.number key)) (Resolved (option_map (λ t. t.now) result)) }
        ensures opening { IsOpening K.key_at self.now.opening }
    {
        ThreadedRodeo::resolve(self, key)
    }

    fn resolve_unchecked(&self, key: K) -> Option<&str>
        ensures call { IsPlainCall K.key_at self.now.opening (Resolve (K.number key)) (Resolved (option_map (λ t. t.now) result)) }
        ensures opening { IsOpening K.key_at self.now.opening }
    {
        ThreadedRodeo::resolve(self, key)
    }

    fn is_empty(&self) -> bool
        ensures call { IsPlainCall K.key_at self.now.opening IsEmpty (Flag result) }
        ensures opening { IsOpening K.key_at self.now.opening }
    {
        ThreadedRodeo::is_empty(self)
    }
}

impl<K: Key, S: BuildHasher + Drop> Reader<K> for ThreadedRodeo<K, S> {
    fn get<R: Wait>(&self, rt: &R, text: &str) -> Option<K>
        ensures call { IsPlainCall K.key_at self.now.opening (Get text.now) (Found result) }
        ensures opening { IsOpening K.key_at self.now.opening }
    {
        ThreadedRodeo::get(self, rt, text)
    }

    fn contains<R: Wait>(&self, rt: &R, text: &str) -> bool
        ensures call { IsPlainCall K.key_at self.now.opening (Contains text.now) (Flag result) }
        ensures opening { IsOpening K.key_at self.now.opening }
    {
        ThreadedRodeo::contains(self, rt, text)
    }
}

impl<K: Key, S: BuildHasher + Drop> Interner<K> for ThreadedRodeo<K, S> {
    fn try_get_or_intern<R: Wait>(&mut self, rt: &R, text: &str) -> LassoResult<K>
        ensures same { self.new ≡ self.old }
        ensures call { IsPlainCall K.key_at self.old.opening (Intern Copied text.now) (Interned result) }
        ensures opening { IsOpening K.key_at self.old.opening }
    {
        ThreadedRodeo::try_get_or_intern(self, rt, text)
    }

    fn try_get_or_intern_static<R: Wait>(&mut self, rt: &R, text: &'static str) -> LassoResult<K>
        ensures same { self.new ≡ self.old }
        ensures call { IsPlainCall K.key_at self.old.opening (Intern Static text.now) (Interned result) }
        ensures opening { IsOpening K.key_at self.old.opening }
    {
        ThreadedRodeo::try_get_or_intern_static(self, rt, text)
    }

    fn get_or_intern<R: Wait>(&mut self, rt: &R, text: &str) -> LassoResult<K>
        ensures same { self.new ≡ self.old }
        ensures call { IsPlainCall K.key_at self.old.opening (Intern Copied text.now) (Interned result) }
        ensures opening { IsOpening K.key_at self.old.opening }
    {
        ThreadedRodeo::get_or_intern(self, rt, text)
    }

    fn get_or_intern_static<R: Wait>(&mut self, rt: &R, text: &'static str) -> LassoResult<K>
        ensures same { self.new ≡ self.old }
        ensures call { IsPlainCall K.key_at self.old.opening (Intern Static text.now) (Interned result) }
        ensures opening { IsOpening K.key_at self.old.opening }
    {
        ThreadedRodeo::get_or_intern_static(self, rt, text)
    }
}

impl<'a, K: Key, S: BuildHasher + Drop> Interner<K> for &'a ThreadedRodeo<K, S> {
    fn try_get_or_intern<R: Wait>(&mut self, rt: &R, text: &str) -> LassoResult<K>
        ensures same { self.new ≡ self.old }
        ensures call { IsPlainCall K.key_at self.old.now.opening (Intern Copied text.now) (Interned result) }
        ensures opening { IsOpening K.key_at self.old.now.opening }
    {
        ThreadedRodeo::try_get_or_intern(*self, rt, text)
    }

    fn try_get_or_intern_static<R: Wait>(&mut self, rt: &R, text: &'static str) -> LassoResult<K>
        ensures same { self.new ≡ self.old }
        ensures call { IsPlainCall K.key_at self.old.now.opening (Intern Static text.now) (Interned result) }
        ensures opening { IsOpening K.key_at self.old.now.opening }
    {
        ThreadedRodeo::try_get_or_intern_static(*self, rt, text)
    }

    fn get_or_intern<R: Wait>(&mut self, rt: &R, text: &str) -> LassoResult<K>
        ensures same { self.new ≡ self.old }
        ensures call { IsPlainCall K.key_at self.old.now.opening (Intern Copied text.now) (Interned result) }
        ensures opening { IsOpening K.key_at self.old.now.opening }
    {
        ThreadedRodeo::get_or_intern(*self, rt, text)
    }

    fn get_or_intern_static<R: Wait>(&mut self, rt: &R, text: &'static str) -> LassoResult<K>
        ensures same { self.new ≡ self.old }
        ensures call { IsPlainCall K.key_at self.old.now.opening (Intern Static text.now) (Interned result) }
        ensures opening { IsOpening K.key_at self.old.now.opening }
    {
        ThreadedRodeo::get_or_intern_static(*self, rt, text)
    }
}

// That its only error is out of memory is what the call says of its reply.
#[tactic(auto, using(crate::proofs::Frozen::want_alone))]
impl<K: Key, S: BuildHasher + Drop> IntoReader<K> for ThreadedRodeo<K, S> {
    type Reader = RodeoReader<K, S, Global>;

    fn into_reader<R: Wait>(self, rt: &R) -> LassoResult<RodeoReader<K, S, Global>>
        ensures call { IsPlainCall K.key_at self.opening Freeze (Listed result) }
        ensures opening { IsOpening K.key_at self.opening }
        ensures refused { IfErr result (λ error. error ≡ FailedAllocation) }
    {
        ThreadedRodeo::into_reader(self, rt)
    }

    fn into_reader_boxed<R: Wait>(of: Box<Self>, rt: &R) -> LassoResult<RodeoReader<K, S, Global>>
        ensures call { IsPlainCall K.key_at of.value.opening Freeze (Listed result) }
        ensures opening { IsOpening K.key_at of.value.opening }
        ensures refused { IfErr result (λ error. error ≡ FailedAllocation) }
    {
        ThreadedRodeo::into_reader(Box::into_inner(of), rt)
    }
}

#[tactic(auto, using(crate::proofs::Frozen::want_alone))]
impl<K: Key, S: BuildHasher + Drop> IntoResolver<K> for ThreadedRodeo<K, S> {
    type Resolver = RodeoResolver<K, Global>;

    fn into_resolver<R: Wait>(self, rt: &R) -> LassoResult<RodeoResolver<K, Global>>
        ensures call { IsPlainCall K.key_at self.opening Freeze (Listed result) }
        ensures opening { IsOpening K.key_at self.opening }
        ensures refused { IfErr result (λ error. error ≡ FailedAllocation) }
    {
        ThreadedRodeo::into_resolver(self, rt)
    }

    fn into_resolver_boxed<R: Wait>(of: Box<Self>, rt: &R) -> LassoResult<RodeoResolver<K, Global>>
        ensures call { IsPlainCall K.key_at of.value.opening Freeze (Listed result) }
        ensures opening { IsOpening K.key_at of.value.opening }
        ensures refused { IfErr result (λ error. error ≡ FailedAllocation) }
    {
        ThreadedRodeo::into_resolver(Box::into_inner(of), rt)
    }
}

impl<K: Key, S: BuildHasher + Drop> IntoReaderAndResolver<K> for ThreadedRodeo<K, S> {}
