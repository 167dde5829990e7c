//! The laws of the meaning of each interner: where it is none, every clause of the interfaces holds of any body.
//! Each is the contract of a function that does nothing.
ghost use Rattle.std.specs.Prelude.{◌≡◌, Some, None};

use super::{Resolver, SpurResolver};
use lasso_parts::keys::{Key, Spur};
use lasso_shared::threaded::ThreadedRodeo;
use lasso_single::reader::RodeoReader;
use lasso_single::resolver::RodeoResolver;
use lasso_single::rodeo::Rodeo;
use std::alloc::Allocator;
use std::hash::BuildHasher;

/// The meaning of a `Rodeo` is its list of texts.
pub fn rodeo_means_its_texts<K: Key, S: BuildHasher, A: Allocator>(_rodeo: &Rodeo<K, S, A>)
    ensures { ⟦<Rodeo<K, S, A> as Resolver<K>>⟧.meaning _rodeo.now ≡ Some _rodeo.now.texts }
{}

/// The meaning of a reader is its list of texts.
pub fn reader_means_its_texts<K: Key, S: BuildHasher, A: Allocator>(_reader: &RodeoReader<K, S, A>)
    ensures { ⟦<RodeoReader<K, S, A> as Resolver<K>>⟧.meaning _reader.now ≡ Some _reader.now }
{}

/// The meaning of a resolver is its list of texts.
pub fn resolver_means_its_texts<K: Key, A: Allocator>(_resolver: &RodeoResolver<K, A>)
    ensures { ⟦<RodeoResolver<K, A> as Resolver<K>>⟧.meaning _resolver.now ≡ Some _resolver.now }
{}

/// A `ThreadedRodeo` has no list of its own: other threads may fill it between any two calls.
pub fn threaded_means_no_list<K: Key, S: BuildHasher + Drop>(_rodeo: &ThreadedRodeo<K, S>)
    ensures { ⟦<ThreadedRodeo<K, S> as Resolver<K>>⟧.meaning _rodeo.now ≡ None }
{}

/// The meaning of a shared reference is that of what it lends.
pub fn lent_means_the_same<'a, K: Key, T: Resolver<K>>(_lent: &&'a T)
    ensures { ⟦<&'a T as Resolver<K>>⟧.meaning _lent.now ≡ T.meaning _lent.now.now }
{}

/// The meaning of a reference to change something by is that of what it lends.
pub fn lent_mut_means_the_same<'a, K: Key, T: Resolver<K>>(_lent: &&'a mut T)
    ensures { ⟦<&'a mut T as Resolver<K>>⟧.meaning _lent.now ≡ T.meaning _lent.now.now }
{}

/// The meaning of a box is that of what it holds.
pub fn boxed_means_the_same<K: Key, I: Resolver<K>>(_boxed: &Box<I>)
    ensures { ⟦<Box<I> as Resolver<K>>⟧.meaning _boxed.now ≡ I.meaning _boxed.now.value }
{}

/// As an object, a `Rodeo` has its list of texts.
pub fn rodeo_object_has_its_texts<S: BuildHasher, A: Allocator>(_rodeo: &Rodeo<Spur, S, A>)
    ensures { ⟦<Rodeo<Spur, S, A> as SpurResolver>⟧.texts _rodeo.now ≡ _rodeo.now.texts }
{}

/// As an object, a reader has its list of texts.
pub fn reader_object_has_its_texts<S: BuildHasher, A: Allocator>(_reader: &RodeoReader<Spur, S, A>)
    ensures { ⟦<RodeoReader<Spur, S, A> as SpurResolver>⟧.texts _reader.now ≡ _reader.now }
{}

/// As an object, a resolver has its list of texts.
pub fn resolver_object_has_its_texts<A: Allocator>(_resolver: &RodeoResolver<Spur, A>)
    ensures { ⟦<RodeoResolver<Spur, A> as SpurResolver>⟧.texts _resolver.now ≡ _resolver.now }
{}
