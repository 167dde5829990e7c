//! Walks as debug text: the texts that are left.
use super::{Iter, Strings};
use lasso_parts::keys::Key;
use std::fmt;

#[tactic(auto, using(crate::proofs::Walked::walk_steps))]
impl<'a, K: Key> fmt::Debug for Strings<'a, K> {
    fn fmt<W: fmt::Write>(&self, f: &mut fmt::Formatter<W>) -> fmt::Result {
        let mut list = f.debug_list();
        for position in self.position..self.end {
            list.entry(&self.texts.lend(position));
        }
        list.finish()
    }
}

impl<'a, K: Key> fmt::Debug for Iter<'a, K> {
    fn fmt<W: fmt::Write>(&self, f: &mut fmt::Formatter<W>) -> fmt::Result {
        f.debug_struct("Iter")
            .field("strings", &self.strings)
            .finish_non_exhaustive()
    }
}
