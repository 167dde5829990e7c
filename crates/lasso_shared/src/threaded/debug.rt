//! An interner that threads share as debug text: its texts, as a walk made now has them. Nothing is locked. Usage and
//! limit are under a lock, so they are left out.
use crate::threaded::ThreadedRodeo;
use lasso_parts::keys::Key;
use std::fmt;
use std::hash::BuildHasher;

impl<K: Key, S: BuildHasher + Drop> fmt::Debug for ThreadedRodeo<K, S> {
    fn fmt<W: fmt::Write>(&self, f: &mut fmt::Formatter<W>) -> fmt::Result {
        f.debug_struct("ThreadedRodeo")
            .field("strings", &self.strings())
            .finish_non_exhaustive()
    }
}
