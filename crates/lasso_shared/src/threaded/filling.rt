//! Filling an interner that threads share from the items of an iterator.
ghost use Rattle.std.specs.Prelude.{◌≡◌, ◌-◌, ◌^◌, ◌⊎◌, [], List, None, map, IfOk, IfErr, OnOk};
ghost use Rattle.std.specs.Iterator.{IsFinite, Drains, Yields, YieldsThen};
ghost use Rattle.lasso_parts.specs.declared.util.LassoErrorKind.TheVariants.{FailedAllocation};
ghost use Rattle.lasso_shared.specs.Filling.{InternsEach, FillingEndsRefused, IsPlainFilling};
ghost use Rattle.lasso_log.specs.History.{IsLegal, IsOpening, opened};
ghost use Rattle.lasso_log.specs.Views.{InternerId, PassView, IsSamePass, seen};

use crate::threaded::ThreadedRodeo;
use lasso_log::log::Pass;
use lasso_parts::keys::Key;
use lasso_parts::util::LassoResult;
use std::alloc::Global;
use std::convert::AsStr;
use std::hash::BuildHasher;
use std::sync::Wait;

impl<K: Key, S: BuildHasher + Drop> ThreadedRodeo<K, S> {
    /// Interns the items in order by one new pass, each of them a `&str` or another type that lends a text.
    /// It stops at the first error and returns it: the items before it stay, and no item after it is taken.
    /// Other threads may intern texts between them. If the items end and no call waits for ever, it returns.
    /// To go on with a lent iterator after an error, use `extend_as`, whose contract says where it stands.
    ///
    /// ```rust
    /// let rodeo: SpurThreadedRodeo = ThreadedRodeo::default(rt.alloc())?;
    /// rodeo.extend(&rt, ["red", "green", "red"])?;
    /// assert!(rt; rodeo.len() == 2);
    /// assert!(rt; rodeo.contains(&rt, "green"));
    /// ```
    pub fn extend<R: Wait, T: AsStr + Drop, I: IntoIterator<Item = T>>(
        &self,
        rt: &R,
        items: I,
    ) -> LassoResult<()>
        requires { (it : I.IntoIter) → I.into_iter_gives items it → I.IntoIter.can_next it × IsFinite (I.IntoIter.remaining it) }
        // On success the items ended, and each was interned.
        ensures filled { OnOk result ((it : I.IntoIter) × (xs : List T) × I.into_iter_gives items it
            × Drains I.IntoIter.next_gives it xs × IsPlainFilling K.key_at self.now.opening (map T.text xs) (Ok tt)) }

        // On failure the items before the refused one are interned, and no later item is. The error is that of
        // `try_get_or_intern` for it.
        ensures refused { IfErr result (λ error. (it : I.IntoIter) × (xs : List T) × I.into_iter_gives items it
            × ((rest : I.IntoIter) × Yields I.IntoIter.next_gives it xs rest) × IsPlainFilling K.key_at self.now.opening (map T.text xs) (Err error)) }
        ensures opening { IsOpening K.key_at self.now.opening }
    {
        let mut pass = self.pass();
        let mut items = items.into_iter();
        self.extend_as(rt, &mut pass, &mut items)
    }

    /// Interns the items of a lent iterator in order, as `try_get_or_intern_as` does. It stops at the first
    /// error and returns it. The items before the refused one stay, and the iterator stands right after the
    /// refused one: the next call of `next` gives the item after it. Other threads may intern texts between
    /// them.
    ///
    /// ```rust
    /// let rodeo: SpurThreadedRodeo = ThreadedRodeo::default(rt.alloc())?;
    /// let mut pass = rodeo.pass();
    /// let colours = ["red", "green", "red"];
    /// let mut items = colours.iter();
    /// rodeo.extend_as(&rt, &mut pass, &mut items)?;
    /// assert!(rt; rodeo.len_as(&mut pass) == 2);
    /// assert!(rt; items.next().is_none());
    /// ```
    pub fn extend_as<R: Wait, T: AsStr + Drop, I: Iterator<Item = T>>(
        &self,
        rt: &R,
        pass: &mut Pass<K>,
        items: &mut I,
    ) -> LassoResult<()>
        requires of { pass.old.of ≡ self.now }
        requires can { I.can_next items.old }
        requires ends { IsFinite (I.remaining items.old) }
        // On success the items ended, and each was interned.
        ensures filled { OnOk result ((xs : List T) × YieldsThen I.next_gives items.old xs None items.new
            × InternsEach K.key_at self.now.opening (seen pass.old) (seen pass.new) pass.old.number (map T.text xs)) }

        // On failure the items before the refused one are interned, and the iterator stands right after that one. The error is that of
        // `try_get_or_intern_as` for it.
        ensures refused { IfErr result (λ error. (xs : List T) × Yields I.next_gives items.old xs items.new
            × FillingEndsRefused K.key_at self.now.opening (seen pass.old) (seen pass.new) pass.old.number (map T.text xs) error) }

        // What stays, and what the pass has then seen
        ensures same { IsSamePass pass.new pass.old }
        ensures opening { IsOpening K.key_at self.now.opening }
        ensures legal { IsLegal K.key_at self.now.opening (seen pass.new) }
    {
        pass.prove_legal();
        while let Some(text) = items.next() {
            self.try_get_or_intern_as(rt, pass, text.as_str())?;
        }
        Ok(())
    }
}

impl<K: Key, S: BuildHasher + Default + Drop> ThreadedRodeo<K, S> {
    /// An interner of default capacity and limit (4096 bytes in its first bucket), with the items interned in
    /// order. It stops at the first error, and returns it in place of the interner. If the items end and no
    /// call waits for ever, it returns.
    ///
    /// ```rust
    /// let colours = ["red", "green", "red", "blue"];
    /// let rodeo: SpurThreadedRodeo = ThreadedRodeo::from_iter(rt.alloc(), &rt, colours)?;
    /// assert!(rt; rodeo.len() == 3);
    /// assert!(rt; rodeo.contains(&rt, "blue"));
    /// ```
    pub fn from_iter<R: Wait, T: AsStr + Drop, I: IntoIterator<Item = T> + Drop>(
        alloc: Global,
        rt: &R,
        items: I,
    ) -> LassoResult<Self>
        requires { (it : I.IntoIter) → I.into_iter_gives items it → I.IntoIter.can_next it × IsFinite (I.IntoIter.remaining it) }
        // On success the items ended, and each was interned in order into a new interner: of 4096 bytes in its first bucket, without a limit.
        ensures opening { IfOk result (λ t. t.opening ≡ opened [] 4096 0 (2 ^ 64 - 1)) }
        ensures filled { IfOk result (λ t. (it : I.IntoIter) × (xs : List T) × I.into_iter_gives items it
            × Drains I.IntoIter.next_gives it xs
            × IsPlainFilling K.key_at t.opening (map T.text xs) (Ok tt)) }

        // On failure memory ran out for the new interner, or an item was refused as by `extend`, after those before it were interned. The
        // interner that is left then is dropped.
        ensures refused { IfErr result (λ error. (error ≡ FailedAllocation)
            ⊎ ((it : I.IntoIter) × (xs : List T) × I.into_iter_gives items it
            × ((rest : I.IntoIter) × Yields I.IntoIter.next_gives it xs rest)
            × IsPlainFilling K.key_at (opened [] 4096 0 (2 ^ 64 - 1)) (map T.text xs) (Err error))) }
    {
        let shared = ThreadedRodeo::with_hasher(alloc, S::default())?;
        shared.extend(rt, items)?;
        Ok(shared)
    }
}
