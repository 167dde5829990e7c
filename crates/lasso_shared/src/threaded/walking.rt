//! Walks over the texts of an interner that threads share, from the front alone. A walk has the list as it was when the walk was made:
//! texts that come later are not in it. No step of it takes memory or waits.
ghost use Rattle.std.specs.Prelude.{◌≡◌, ◌<◌, ◌^◌, Some, Ok, IsSome, IfSome, length};
ghost use Rattle.std.specs.Iterator.{YieldsFirstBy, item_count, at_most, UpTo};
ghost use Rattle.std.specs.Iterator.SizeHint.{IsWithinCount};
ghost use Rattle.lasso_log.specs.History.{IsLegal, IsOpening};
ghost use Rattle.lasso_log.specs.Replies as replies;
ghost use Rattle.lasso_log.specs.Views.{PassView, InternerId, IsSamePass, seen};
ghost use Rattle.lasso_shared.specs.PassCalls.{IsPassCall};

mod debug;

use crate::threaded::ThreadedRodeo;
use lasso_log::log::Pass;
use lasso_log::log::snapshot::seen_texts::SeenTexts;
use lasso_parts::keys::Key;
use std::hash::BuildHasher;
use std::iter::FusedIterator;
use std::marker::Model;

/// A walk over texts in the order of their keys. Contracts see it as the list of the texts that are left.
#[derive(Drop)]
pub struct Strings<'a, K: Key> {
    texts: SeenTexts<'a, K>,
    position: usize,
    end: usize,
}

impl<'a, K: Key> Model for Strings<'a, K> {
    ghost use Rattle.std.specs.Prelude.{◌≡◌, ◌≤◌, List, length, drop};
    ghost use base.Stored.{coded_list, coded_ℕ};
    ghost use Rattle.lasso_parts.specs.Texts.{Text};

    ghost Value = { List Text };

    ghost coded = { coded_list (coded_list coded_ℕ) };

    ghost view = { λ s. drop s.position s.texts };

    ghost invariant = { λ s. (s.position ≤ s.end) × (s.end ≡ length s.texts) };
}

#[tactic(auto, using(crate::proofs::Walked::walk_steps))]
impl<'a, K: Key> Strings<'a, K> {
    // Does nothing. Contracts learn that the number of texts is one that a word can have.
    fn prove_short(&self)
        ensures { length self.now < 2 ^ 64 }
    {
        // Proofs learn the range of a word from code that reads it.
        let _ = self.end - self.position;
    }
}

#[tactic(auto, using(crate::proofs::Walked::walk_steps))]
impl<'a, K: Key> Iterator for Strings<'a, K> {
    type Item = &'a str;

    ghost next_gives = { YieldsFirstBy (λ t. t.now) (λ texts. texts) };

    ghost remaining = { item_count (λ texts. texts) };

    fn next(&mut self) -> Option<&'a str> {
        let position = self.position;
        if position == self.end {
            return None;
        }
        self.position = position + 1;
        Some(self.texts.lend(position))
    }

    fn size_hint(&self) -> (usize, Option<usize>)
        ensures lower { IsWithinCount result.0 (at_most (length self.now)) }
        ensures upper { IfSome result.1 (UpTo (at_most (length self.now))) }
        ensures least { result.0 ≡ length self.now }
        ensures most { result.1 ≡ Some (length self.now) }
    {
        let left = self.end - self.position;
        (left, Some(left))
    }
}

#[tactic(auto, using(crate::proofs::Walked::walk_steps))]
impl<'a, K: Key> ExactSizeIterator for Strings<'a, K> {
    fn len(&self) -> usize {
        self.size_hint().0
    }
}

impl<'a, K: Key> FusedIterator for Strings<'a, K> {}

/// A walk over texts and their keys, in the order of the keys. Contracts see it as the list of the texts that
/// are left, each after its key.
#[derive(Drop)]
pub struct Iter<'a, K: Key> {
    strings: Strings<'a, K>,
    first: usize,
}

impl<'a, K: Key> Model for Iter<'a, K> {
    ghost use Rattle.std.specs.Prelude.{◌+◌, ◌<◌, ◌^◌, List, length};
    ghost use base.Stored.{coded×, coded_list, coded_ℕ};
    ghost use Rattle.lasso_parts.specs.Texts.{Text, Fits};
    ghost use Rattle.lasso_shared.specs.Walks.{pairs_from};

    ghost Value = { List (K × Text) };

    ghost coded = { coded_list (coded× K.code (coded_list coded_ℕ)) };

    ghost view = { λ s. pairs_from K.key_at s.first s.strings };

    ghost invariant = { λ s. (s.first + length s.strings < 2 ^ 64) × Fits K.key_at (s.first + length s.strings) };
}

#[tactic(auto, using(crate::proofs::Walked::walk_steps))]
impl<'a, K: Key> Iterator for Iter<'a, K> {
    type Item = (K, &'a str);

    ghost next_gives = { YieldsFirstBy (λ x. (x.0, x.1.now)) (λ pairs. pairs) };

    ghost remaining = { item_count (λ pairs. pairs) };

    fn next(&mut self) -> Option<(K, &'a str)> {
        let text = self.strings.next()?;
        let number = self.first;
        self.first = number + 1;
        Some((key_at(number), text))
    }

    fn size_hint(&self) -> (usize, Option<usize>)
        ensures lower { IsWithinCount result.0 (at_most (length self.now)) }
        ensures upper { IfSome result.1 (UpTo (at_most (length self.now))) }
        ensures least { result.0 ≡ length self.now }
        ensures most { result.1 ≡ Some (length self.now) }
    {
        self.strings.size_hint()
    }
}

#[tactic(auto, using(crate::proofs::Walked::walk_steps))]
impl<'a, K: Key> ExactSizeIterator for Iter<'a, K> {
    fn len(&self) -> usize {
        self.strings.len()
    }
}

impl<'a, K: Key> FusedIterator for Iter<'a, K> {}

// The key of a number that has one.
fn key_at<K: Key>(number: usize) -> K
    requires { IsSome (K.key_at number) }
    ensures { K.key_at number ≡ Some result }
{
    K::try_from_usize(number).unwrap()
}

impl<K: Key, S: BuildHasher + Drop> ThreadedRodeo<K, S> {
    /// A walk over the texts and their keys, in the order of the keys: over those that there are at one step. It takes no memory and
    /// does not wait.
    pub fn iter_as(&self, pass: &mut Pass<K>) -> Iter<'_, K>
        requires { pass.old.of ≡ self.now }
        // The pass stays the same one.
        ensures same { IsSamePass pass.new pass.old }

        // The walk is over the list that the pass has then seen. The call adds no event.
        ensures call { IsPassCall K.key_at self.now pass.old pass.new replies.Iterate (replies.Pairs result) }
        ensures opening { IsOpening K.key_at self.now.opening }
        ensures legal { IsLegal K.key_at self.now.opening (seen pass.new) }
    {
        let strings = self.strings_as(pass);
        strings.prove_short();
        Iter { strings, first: 0 }
    }

    /// A walk over the texts, in the order of their keys: over those that there are at one step. It takes no memory and does not wait.
    pub fn strings_as(&self, pass: &mut Pass<K>) -> Strings<'_, K>
        requires { pass.old.of ≡ self.now }
        // The pass stays the same one.
        ensures same { IsSamePass pass.new pass.old }

        // The walk is over the list that the pass has then seen. The call adds no event.
        ensures call { IsPassCall K.key_at self.now pass.old pass.new replies.Strings (replies.Listed (Ok result)) }
        ensures opening { IsOpening K.key_at self.now.opening }
        ensures legal { IsLegal K.key_at self.now.opening (seen pass.new) }
    {
        let len = self.shards.log.len(pass);
        pass.prove_legal();
        Strings {
            texts: self.shards.log.seen_texts(pass),
            position: 0,
            end: len as usize,
        }
    }
}
