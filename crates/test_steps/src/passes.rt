//! Rows that passes make, also of calls that take a list of texts.
use crate::Host;
use crate::calls::{Caller, Shared, number_of, numbered, refusal_of};
use crate::cases::{Case, Forms};
use crate::steps::{Call, Step, is_reply};
use crate::texts::{KeyNumbers, count_of, items_of, may_have};
use lasso_parts::keys::Key;
use lasso_parts::util::{LassoErrorKind, LassoResult};
use lasso_shared::threaded::ThreadedRodeo;
use std::hash::BuildHasher;
use std::thread::join;

// More texts than a round of hints has.
const ROUND: usize = 70_000;

impl<'a, K: Key, S: BuildHasher + Drop, R: Host> Caller<'a, K, S, R> {
    // Whether the key with this number stands for the text, or for none, by each call with the pass, and so in its
    // list.
    fn reads_by(&mut self, number: usize, text: Option<&str>) -> bool {
        match K::try_from_usize(number) {
            Some(key) => {
                let is_key = self.has(key) == text.is_some();
                self.resolves(key, text) && is_key && self.listed(number) == text
            }
            None => text.is_none(),
        }
    }

    // Interns the static texts by the pass, and looks each up. Returns whether they have these numbers.
    fn takes_by(&mut self, items: &[&'static str], first: usize) -> LassoResult<bool> {
        let mut all = true;
        for position in 0..items.len() {
            let number = position.saturating_add(first);
            all &= is_reply(numbered(self.kept(items[position])), Ok(number))?;
            all &= self.found(items[position]) == Some(number);
        }
        Ok(all)
    }

    // Interns the static texts by the pass. Returns whether each key resolves to its text.
    fn resolves_by(&mut self, items: &[&'static str]) -> LassoResult<bool> {
        let mut all = true;
        for text in items.iter() {
            let key = self.kept(*text)?;
            all &= self.resolves(key, Some(*text));
        }
        Ok(all)
    }

    // Looks the text up until hints serve. Returns whether they do.
    fn serves_by(&mut self, text: &str) -> bool {
        for _ in 0..ROUND {
            if self.hints_serve() || self.found(text).is_none() {
                break;
            }
        }
        self.hints_serve()
    }

    // Whether the keys are those of the first texts: with these numbers, and each resolves to its text.
    fn are_keys_of(&mut self, keys: &[K], items: &[&'static str], numbers: KeyNumbers) -> bool {
        let mut all = keys.len() == count_of(numbers, items.len());
        for place in 0..keys.len().min(items.len()) {
            all &= may_have(numbers, place, keys[place].into_usize());
            all &= self.resolves(keys[place], Some(items[place]));
        }
        all
    }

    // Interns the texts by one call of the pass. Returns whether it was refused for this reason, if one is given,
    // and the other texts got keys with these numbers. A key that was there before has to stay.
    fn takes_all_by(
        &mut self,
        items: &[&'static str],
        numbers: KeyNumbers,
        wanted: Option<LassoErrorKind>,
    ) -> LassoResult<bool> {
        let mut keys = Vec::new(self.rt.alloc());
        let earlier = K::try_from_usize(0);
        if let Some(key) = earlier {
            keys.push(key)?;
        }
        let first = keys.len();
        let refusal = refusal_of(self.interned_all(items, &mut keys))?;
        let are_kept = first == 0 || keys.first().copied() == earlier;
        let are_right = self.are_keys_of(keys.get(first..).unwrap_or(&[]), items, numbers);
        Ok(refusal == wanted && are_kept && are_right)
    }

    // Looks the texts up by one call of the pass. Returns whether they have these numbers. What was there before has
    // to stay.
    fn finds_all_by(
        &mut self,
        texts: &[&'static str],
        numbers: &[Option<usize>],
    ) -> LassoResult<bool> {
        let mut keys = Vec::new(self.rt.alloc());
        let earlier = K::try_from_usize(0);
        keys.push(earlier)?;
        self.found_all(texts, &mut keys)?;
        let mut all = keys.len() == numbers.len().saturating_add(1);
        all &= keys.first().copied() == Some(earlier);
        for (key, number) in keys.iter().skip(1).zip(numbers) {
            all &= number_of(*key) == *number;
        }
        Ok(all)
    }

    // Makes a call that sets the limit, or one that is about a list. Returns whether it returned what it has to.
    fn holds_more_by(&mut self, call: Call) -> LassoResult<bool> {
        let alloc = self.rt.alloc();
        match call {
            Call::Limits(bytes) => {
                self.set_limit(bytes);
                Ok(true)
            }
            Call::Takes(list, first) => self.takes_by(&items_of(alloc, list)?, first),
            Call::Resolves(list) => self.resolves_by(&items_of(alloc, list)?),
            Call::TakesAll(list, numbers, wanted) => {
                self.takes_all_by(&items_of(alloc, list)?, numbers, wanted)
            }
            Call::FindsAll(texts, numbers) => self.finds_all_by(texts, numbers),
            Call::Serves(text) => Ok(self.serves_by(text)),
            _ => Ok(false),
        }
    }

    // Makes the call by the pass. Returns whether it returned what it has to.
    fn holds_by(&mut self, call: Call) -> LassoResult<bool> {
        match call {
            Call::Copies(text, wanted) => is_reply(numbered(self.copied(text)), wanted),
            Call::Keeps(text, wanted) => is_reply(numbered(self.kept(text)), wanted),
            Call::Finds(text, number) => {
                Ok(self.found(text) == number && self.found_now(text) == number)
            }
            Call::Reads(number, text) => Ok(self.reads_by(number, text)),
            Call::Counts(count) => Ok(self.seen() == count),
            Call::Sums(limit, usage) => {
                let wanted = (limit, usage);
                Ok(self.sums() == wanted && self.sums_now() == wanted)
            }
            Call::Uses(usage) => {
                let (limit, used) = self.sums();
                let (limit_now, used_now) = self.sums_now();
                Ok(used == usage && used_now == usage && limit.min(limit_now) >= usage)
            }
            _ => self.holds_more_by(call),
        }
    }

    // Makes the call, by one of the passes or without them. Returns whether it returned what it has to.
    fn holds_with(&mut self, step: Step) -> LassoResult<bool> {
        match step {
            Step::ByNew(call) => Caller::new(self.rt, self.shared).holds_by(call),
            Step::ByOne(call) => self.holds_by(call),
            Step::ByOther(call) => {
                self.change();
                let is_right = self.holds_by(call);
                self.change();
                is_right
            }
            Step::Meets => {
                self.meet();
                Ok(true)
            }
            _ => self.holds(step),
        }
    }
}

/// Makes the calls in order, without a pass or by two new ones, each as often as the case says, up to the first that
/// returns something else than it has to. Returns how many returned what they have to.
pub fn first_wrong_of<K: Key, S: BuildHasher + Drop>(
    rt: &impl Host,
    shared: &ThreadedRodeo<K, S>,
    steps: &[Step],
    case: Case,
) -> LassoResult<usize> {
    let mut caller = if case.is_hinted {
        Caller::hinted(rt, shared)
    } else {
        Caller::new(rt, shared)
    };
    let mut forms = Forms::new(rt.alloc(), case);
    for index in 0..steps.len() {
        let step = forms.step(steps[index])?;
        for _ in 0..case.times {
            if !caller.holds_with(step)? {
                return Ok(index);
            }
        }
    }
    Ok(steps.len())
}

/// The same in two threads, of which each makes other calls. Returns whether all returned what they have to.
pub fn are_right_beside(
    rt: &impl Host,
    shared: &Shared,
    steps: (&[Step], &[Step]),
    case: Case,
) -> LassoResult<bool> {
    let (here, there) = join(
        rt,
        || first_wrong_of(rt, shared, steps.0, case),
        || first_wrong_of(rt, shared, steps.1, case),
    );
    let (here, there) = (here?, there?);
    Ok(here == steps.0.len() && there == steps.1.len())
}
