//! Laws of the contracts, each as the contract of a function that does nothing.
ghost use Rattle.lasso_single.specs.CloneFacts.{CloneFactsSayAll};
ghost use Rattle.lasso_single.specs.FillingFacts.{FillingFactsSayAll};
ghost use Rattle.lasso_single.specs.InternFacts.{CopiedFactsSayAll, StaticFactsSayAll};
ghost use Rattle.lasso_single.specs.RefusalFacts.{RefusalFactsSayAll};

use lasso_parts::keys::Key;

/// The clauses of `Rodeo::try_get_or_intern` hold exactly if the last of them, `all`, does.
#[tactic(auto, using(crate::proofs::InternFacts::copied_facts_say_all))]
pub fn copied_facts_say_all<K: Key>()
    ensures { CopiedFactsSayAll K.key_at }
{}

/// The clauses of `Rodeo::try_get_or_intern_static` hold exactly if the last of them, `all`, does.
#[tactic(auto, using(crate::proofs::InternFacts::static_facts_say_all))]
pub fn static_facts_say_all<K: Key>()
    ensures { StaticFactsSayAll K.key_at }
{}

/// The clauses `keys`, `texts`, `account`, `copied` and `origin` of a call that interns several texts hold exactly if its clause `list` does.
#[tactic(auto, using(crate::proofs::FillingFacts::filling_facts_say_all))]
pub fn filling_facts_say_all<K: Key>()
    ensures { FillingFactsSayAll K.key_at }
{}

/// The clauses `no_key`, `limit` and `memory` of a call with codes hold exactly if its clauses `refused` and `lacking` do.
#[tactic(auto, using(crate::proofs::RefusalFacts::refusal_facts_say_all))]
pub fn refusal_facts_say_all()
    ensures { RefusalFactsSayAll }
{}

/// The clauses of `Rodeo::try_clone_from` hold exactly if the last of them, `all`, does.
#[tactic(auto, using(crate::proofs::CloneFacts::clone_facts_say_all))]
pub fn clone_facts_say_all()
    ensures { CloneFactsSayAll }
{}
