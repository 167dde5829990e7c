//! Two passes: how one learns what the other has seen, and that no two of one interner have one number.
//!
//! No test could tell two interners apart: none has a number that no other has, and addresses of two blocks may not be compared. So the
//! contract of `meet_if_same`, which callers such as those in C need, says what holds if they are one. `prove_differs` is for callers
//! alone: nothing in the library calls it.
ghost use Rattle.std.specs.Prelude.{◌≡◌, ◌≢◌, []};
ghost use mathlib.Core.List.{IsPrefix};
ghost use Rattle.lasso_log.specs.History.{IsLegal};
ghost use Rattle.lasso_log.specs.Notes.{Since};
ghost use Rattle.lasso_log.specs.Views.{PassView, seen, IsSamePass};

use crate::log::book::looks::{learn_if_same, look, prove_pens_differ};
use crate::log::pass::Pass;
use lasso_parts::keys::Key;

impl<K: Key> Pass<K> {
    /// Afterwards it has seen what either had. It adds no event, takes no memory and does not wait.
    ///
    /// ```rust
    /// let rodeo: SpurThreadedRodeo = ThreadedRodeo::default(rt.alloc())?;
    /// let mut first = rodeo.pass();
    /// let key = rodeo.try_get_or_intern_as(&rt, &mut first, "Hello, world!")?;
    /// let mut second = rodeo.pass();
    /// second.meet(&first);
    /// assert!(rt; rodeo.try_resolve_as(&mut second, key) == Some("Hello, world!"));
    /// ```
    pub fn meet(&mut self, other: &Pass<K>)
        requires { self.old.of ≡ other.now.of }
        ensures same { IsSamePass self.new self.old }
        ensures since { Since self.old.number self.old.notes self.new.notes [] }
        ensures other { IsPrefix other.now.notes self.new.notes }
        ensures legal { IsLegal K.key_at self.new.of.opening (seen self.new) }
    {
        self.learn_seen(&other.seen);
    }

    /// Afterwards it has seen what either had, if the other is of the same interner. It adds no event, takes no memory and does not wait.
    ///
    /// ```rust
    /// let rodeo: SpurThreadedRodeo = ThreadedRodeo::default(rt.alloc())?;
    /// let mut first = rodeo.pass();
    /// let key = rodeo.try_get_or_intern_as(&rt, &mut first, "Hello, world!")?;
    /// let mut second = rodeo.pass();
    /// second.meet_if_same(&first);
    /// assert!(rt; rodeo.try_resolve_as(&mut second, key) == Some("Hello, world!"));
    /// ```
    pub fn meet_if_same(&mut self, other: &Pass<K>)
        ensures same { IsSamePass self.new self.old }
        ensures since { Since self.old.number self.old.notes self.new.notes [] }
        ensures other { other.now.of ≡ self.old.of → IsPrefix other.now.notes self.new.notes }
        ensures legal { IsLegal K.key_at self.new.of.opening (seen self.new) }
    {
        learn_if_same(&mut self.seen, &other.seen);
        let mut later = self.seen.again();
        look(&mut later, &mut self.ticket.pen);
    }

    /// Does nothing. Contracts learn that the other pass of the interner has another number, so that the events of this one's
    /// number are not the other's.
    pub fn prove_differs(&mut self, other: &mut Pass<K>)
        requires { self.old.of ≡ other.old.of }
        ensures same { (self.new ≡ self.old) × (other.new ≡ other.old) }
        ensures numbers { self.old.number ≢ other.old.number }
    {
        let mut both = self.seen.again();
        both.learn(&other.seen);
        let mut later = both.again();
        look(&mut later, &mut self.ticket.pen);
        let mut last = both.again();
        look(&mut last, &mut other.ticket.pen);
        prove_pens_differ(&mut self.ticket.pen, &mut other.ticket.pen);
    }
}
