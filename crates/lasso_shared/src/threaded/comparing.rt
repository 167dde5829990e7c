//! Comparing an interner that threads share with another one, with an interner for one thread and with frozen forms.
ghost use Rattle.std.specs.Prelude.{◌≡◌, ◌↔◌, List, IsTrue, length};
ghost use Rattle.lasso_parts.specs.Texts.{Text};
ghost use Rattle.lasso_log.specs.History.{IsOpening};
ghost use Rattle.lasso_log.specs.Replies.{Strings, Listed};
ghost use Rattle.lasso_log.specs.Calls.{IsPlainCall};
ghost use Rattle.lasso_log.specs.Views.{PassView, InternerId};
ghost use Rattle.lasso_shared.specs.Comparing.{ComparesList};

use crate::threaded::ThreadedRodeo;
use lasso_parts::index::Texts;
use lasso_parts::keys::Key;
use lasso_single::reader::RodeoReader;
use lasso_single::resolver::RodeoResolver;
use lasso_single::rodeo::Rodeo;
use std::alloc::Allocator;
use std::hash::BuildHasher;
use std::sync::Wait;

impl<K: Key, S: BuildHasher + Drop> ThreadedRodeo<K, S> {
    /// Whether the other interner has the same texts under the same keys. Each list is read at a step of its
    /// own, so what other threads intern meanwhile may be in it or not. It takes no memory and waits for
    /// nobody.
    ///
    /// ```rust
    /// let colours = ["red", "green"];
    /// let rodeo: SpurThreadedRodeo = ThreadedRodeo::from_iter(rt.alloc(), &rt, colours)?;
    /// let other: SpurThreadedRodeo = ThreadedRodeo::from_iter(rt.alloc(), &rt, colours)?;
    /// assert!(rt; rodeo.eq_threaded(&rt, &other));
    /// ```
    pub fn eq_threaded<R: Wait, T: BuildHasher + Drop>(
        &self,
        _rt: &R,
        other: &ThreadedRodeo<K, T>,
    ) -> bool
        ensures lists { (mine : List Text) × (theirs : List Text)
            × IsPlainCall K.key_at self.now.opening Strings (Listed (Ok mine))
            × IsPlainCall K.key_at other.now.opening Strings (Listed (Ok theirs))
            × (IsTrue result ↔ (mine ≡ theirs)) }
        ensures opening { IsOpening K.key_at self.now.opening × IsOpening K.key_at other.now.opening }
    {
        let mut pass = other.pass();
        let len = other.shards.log.len(&mut pass) as usize;
        pass.prove_legal();
        let theirs = other.shards.log.seen_texts(&pass);
        self.eq_texts(&theirs, len)
    }

    /// Whether the interner for one thread has the same texts under the same keys. The list here is read at
    /// one step. It takes no memory and waits for nobody.
    ///
    /// ```rust
    /// let colours = ["red", "green"];
    /// let shared: SpurThreadedRodeo = ThreadedRodeo::from_iter(rt.alloc(), &rt, colours)?;
    /// let rodeo: SpurRodeo = Rodeo::from_iter(rt.alloc(), colours)?;
    /// assert!(rt; shared.eq_rodeo(&rt, &rodeo));
    /// ```
    pub fn eq_rodeo<R: Wait, T: BuildHasher, A: Allocator>(
        &self,
        _rt: &R,
        rodeo: &Rodeo<K, T, A>,
    ) -> bool
        ensures list { ComparesList K.key_at self.now.opening rodeo.now.texts result }
        ensures opening { IsOpening K.key_at self.now.opening }
    {
        self.eq_texts(rodeo, rodeo.len())
    }

    /// Whether the reader has the same texts under the same keys. The list here is read at one step. It takes
    /// no memory and waits for nobody.
    pub fn eq_reader<R: Wait, T: BuildHasher, A: Allocator>(
        &self,
        _rt: &R,
        reader: &RodeoReader<K, T, A>,
    ) -> bool
        ensures list { ComparesList K.key_at self.now.opening reader.now result }
        ensures opening { IsOpening K.key_at self.now.opening }
    {
        self.eq_texts(reader, reader.len())
    }

    /// Whether the resolver has the same texts under the same keys. The list here is read at one step. It
    /// takes no memory and waits for nobody.
    pub fn eq_resolver<R: Wait, A: Allocator>(
        &self,
        _rt: &R,
        resolver: &RodeoResolver<K, A>,
    ) -> bool
        ensures list { ComparesList K.key_at self.now.opening resolver.now result }
        ensures opening { IsOpening K.key_at self.now.opening }
    {
        self.eq_texts(resolver, resolver.len())
    }

    // Whether the list at one step is the other one, which must have `other_len` texts.
    fn eq_texts<T: Texts>(&self, other: &T, other_len: usize) -> bool
        requires { other_len ≡ length (T.list other.now) }
        ensures list { ComparesList K.key_at self.now.opening (T.list other.now) result }
        ensures opening { IsOpening K.key_at self.now.opening }
    {
        let mut pass = self.pass();
        let len = self.shards.log.len(&mut pass) as usize;
        pass.prove_legal();
        let texts = self.shards.log.seen_texts(&pass);
        have_same_texts(&texts, len, other, other_len)
    }
}

// Whether two lists have the same texts in the same order. `len` and `other_len` must be how many texts they have.
fn have_same_texts<T: Texts, U: Texts>(one: &T, len: usize, other: &U, other_len: usize) -> bool
    requires one { len ≡ length (T.list one.now) }
    requires other { other_len ≡ length (U.list other.now) }
    ensures { IsTrue result ↔ (T.list one.now ≡ U.list other.now) }
{
    if len != other_len {
        return false;
    }
    for position in 0..len {
        if one.text_at(position) != other.text_at(position) {
            return false;
        }
    }
    true
}
