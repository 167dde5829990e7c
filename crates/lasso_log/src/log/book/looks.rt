//! Looks at the log that take no step. Each has an empty body and a contract that is proved by hand. Used by passes and by the
//! loads of words.
ghost use Rattle.std.specs.Prelude.{◌≡◌, List};
ghost use mathlib.Core.List.{IsPrefix};
ghost use Rattle.logbook.specs.Pages.{Cell, may_write};
ghost use Rattle.lasso_log.specs.Book.{IsOutAt, PensDiffer};

use logbook::{Pen, Rule, Seen};

/// Sees the log as it is at some moment, at which the pen's word is not at home. It takes no step.
pub fn look<E, A, P: Rule<E, A>>(seen: &mut Seen<E, A, P>, pen: &mut Pen)
    requires { (pen.old.book ≡ seen.old.book) × (pen.old.nib.right ≡ may_write) }
    ensures { (seen.new.book ≡ seen.old.book) × (seen.new.names ≡ seen.old.names) × (pen.new.book ≡ pen.old.book) × (pen.new.nib ≡ pen.old.nib)
        × IsPrefix seen.old.log seen.new.log × IsOutAt P.holds seen.new.log pen.old.nib.key }
{}

/// Sees the log as it is at some moment. If the other is of the same book, that is past what the other has seen. It takes no step.
pub fn learn_if_same<E, A, P: Rule<E, A>>(seen: &mut Seen<E, A, P>, other: &Seen<E, A, P>)
    ensures { (seen.new.book ≡ seen.old.book) × (seen.new.names ≡ seen.old.names) × IsPrefix seen.old.log seen.new.log
        × (other.now.book ≡ seen.old.book → IsPrefix other.now.log seen.new.log) × ((cells : List Cell) × P.holds cells seen.new.log) }
{}

/// Does nothing. Contracts learn that two pens of one book, whose words are not at home, are of two words.
pub fn prove_pens_differ(one: &mut Pen, other: &mut Pen)
    requires { (one.old.book ≡ other.old.book) × (one.old.nib.right ≡ may_write) × (other.old.nib.right ≡ may_write) }
    ensures { PensDiffer one.old one.new other.old other.new }
{}
