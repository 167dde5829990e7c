//! Locks whose content keeps a fact about a tag that the lock was made with.
//!
//! A lock's content is known by its type alone, and a type has no parameter that could name a value, such as
//! the log that a list was read off. Here the content is in a latch next to the lock. The latch keeps `fits`
//! of its tag, which is fixed when the lock is made, and a contract sees a lock as that tag.
//!
//! A holder has the value itself, and gives it back before the next one can have it. A holder also has a
//! guard, which ends only by giving a value back. No lock is poisoned: a panic under one ends the process,
//! if the runtime is the host's.
//!
//! Locking a lock that nobody has is one locked step, and so is unlocking it. A thread that finds a lock locked goes out of line: it looks
//! a few times more, and then joins the lock's queue, whose first looks on and lets other threads run between.
ghost use Rattle.std.specs.Prelude.{◌≡◌, true, Some, IfSome};
ghost use Rattle.lasso_lock.specs.Locks.{has_value};
ghost use Rattle.lasso_lock.specs.LatchWords.{shared, whole};

use crate::latch::{Claim, Fits, Latch};
use std::hint::spin_loop;
use std::marker::Model;
use std::mem::ManuallyDrop;
use std::sync::{Mutex, Wait};
use std::thread::yield_now;

// How often a thread looks before it joins the queue. What a holder does takes about as long, and less than
// going to sleep.
const LOOKS: u32 = 100;

/// A value that one thread at a time has. If the value must be spent, the lock must be, by `into_inner`.
pub struct TaggedMutex<X: Fits> {
    latch: Latch<Option<X>>,
    queue: Mutex<()>,
}

impl<X: Fits> Model for TaggedMutex<X> {
    ghost Value = { X.Tag };

    ghost coded = { X.Tag.code };

    ghost view = { λ l. l.latch };
}

/// A holder's guard, next to the value that it took. Only `unlock` ends it. A contract sees
/// the lock's tag.
pub struct TaggedMutexGuard<'a, X: Fits> {
    claim: Claim<'a, Option<X>>,
    ghost right: { claim.right ≡ whole },
}

impl<'a, X: Fits> Model for TaggedMutexGuard<'a, X> {
    ghost Value = { X.Tag };

    ghost coded = { X.Tag.code };

    ghost view = { λ t. t.claim.tag };
}

impl<X: Fits + Drop> Drop for TaggedMutex<X> {
    fn drop(self) {
        drop(self.into_inner());
    }
}

impl<X: Fits> TaggedMutex<X> {
    /// An unlocked lock with this value.
    pub fn new(value: X, tag: &X::Tag) -> TaggedMutex<X>
        requires { X.fits tag.now value }
        ensures { result ≡ tag.now }
    {
        TaggedMutex {
            latch: Latch::new(Some(value), tag),
            queue: Mutex::new(()),
        }
    }

    /// Locks it, and takes the value out.
    pub fn lock<R: Wait>(&self, rt: &R) -> (TaggedMutexGuard<'_, X>, X)
        ensures { (result.0 ≡ self.now) × X.fits self.now result.1 }
    {
        match pull_free(&self.latch) {
            Some((claim, value)) => (TaggedMutexGuard { claim }, value),
            None => self.wait(rt),
        }
    }

    // Waits for the mutex, and takes the value out, after another thread was faster.
    #[inline(never)]
    fn wait<R: Wait>(&self, rt: &R) -> (TaggedMutexGuard<'_, X>, X)
        ensures { (result.0 ≡ self.now) × X.fits self.now result.1 }
    {
        for _ in 0..LOOKS {
            if let Some((claim, value)) = pull(&self.latch) {
                return (TaggedMutexGuard { claim }, value);
            }
            spin_loop();
        }
        let _first = self.queue.lock(rt);
        for _ in rt.forever() {
            if let Some((claim, value)) = pull(&self.latch) {
                return (TaggedMutexGuard { claim }, value);
            }
            yield_now();
        }
        unreachable!()
    }
}

impl<X: Fits> TaggedMutex<X> {
    /// Locks it as `lock` does, and takes the value out, but looks only a few times. It does not wait.
    pub fn lock_now(&self) -> Option<(TaggedMutexGuard<'_, X>, X)>
        ensures { IfSome result (λ r. (r.0 ≡ self.now) × X.fits self.now r.1) }
    {
        match pull_free(&self.latch) {
            Some((claim, value)) => Some((TaggedMutexGuard { claim }, value)),
            None => self.look_again(),
        }
    }

    // Tries a few more times to lock the mutex, after another thread was faster.
    #[inline(never)]
    fn look_again(&self) -> Option<(TaggedMutexGuard<'_, X>, X)>
        ensures { IfSome result (λ r. (r.0 ≡ self.now) × X.fits self.now r.1) }
    {
        for _ in 0..LOOKS {
            if let Some((claim, value)) = pull(&self.latch) {
                return Some((TaggedMutexGuard { claim }, value));
            }
            spin_loop();
        }
        None
    }

    /// The value that is in the lock, which ends.
    pub fn into_inner(self) -> Option<X>
        ensures { IfSome result (λ x. X.fits self x) }
    {
        let TaggedMutex { latch, queue } = self;
        drop(queue);
        latch.into_inner()
    }
}

impl<'a, X: Fits> TaggedMutexGuard<'a, X> {
    /// Puts the value back, and unlocks it.
    pub fn unlock<R: Wait>(self, rt: &R, value: X)
        requires { X.fits self value }
    {
        let TaggedMutexGuard { claim } = self;
        push(claim, rt, value);
    }
}

impl<'a, X: Fits> TaggedMutexGuard<'a, X> {
    /// Puts the value back, and unlocks it. It does not wait.
    pub fn put_back(self, value: X)
        requires { X.fits self value }
    {
        let TaggedMutexGuard { claim } = self;
        put(claim, value);
    }
}

/// A value that many threads read at once, or one has.
#[derive(Drop)]
pub struct TaggedRwLock<X: Fits + Drop> {
    latch: Latch<Option<X>>,
    queue: Mutex<()>,
    // Nothing is read in these. They keep the locks of a row on lines of memory of their own, where the value is a pointer.
    apart: [u64; 4],
}

impl<X: Fits + Drop> Model for TaggedRwLock<X> {
    ghost Value = { X.Tag };

    ghost coded = { X.Tag.code };

    ghost view = { λ l. l.latch };
}

/// A reader's hold of a value. Only `unlock` ends it.
pub struct TaggedRwLockReadGuard<'a, X: Fits + Drop> {
    claim: Claim<'a, Option<X>>,
    ghost right: { claim.right ≡ shared },
    ghost there: { has_value claim.value ≡ true },
}

impl<'a, X: Fits + Drop> Model for TaggedRwLockReadGuard<'a, X> {
    ghost use Rattle.lasso_lock.specs.Locks.{Hold, hold_coded, value_of};

    ghost Value = { Hold X.Tag X };

    ghost coded = { hold_coded X.Tag.code X.code };

    ghost view = { λ r. record { tag = r.claim.tag; value = value_of r.claim.value } };
}

/// A writer's guard, next to the value that it took. Only `unlock` ends it. A contract sees
/// the lock's tag.
pub struct TaggedRwLockWriteGuard<'a, X: Fits + Drop> {
    claim: Claim<'a, Option<X>>,
    ghost right: { claim.right ≡ whole },
}

impl<'a, X: Fits + Drop> Model for TaggedRwLockWriteGuard<'a, X> {
    ghost Value = { X.Tag };

    ghost coded = { X.Tag.code };

    ghost view = { λ c. c.claim.tag };
}

impl<X: Fits + Drop> TaggedRwLock<X> {
    /// An unlocked lock with this value.
    pub fn new(value: X, tag: &X::Tag) -> TaggedRwLock<X>
        requires { X.fits tag.now value }
        ensures { result ≡ tag.now }
    {
        TaggedRwLock {
            latch: Latch::new(Some(value), tag),
            queue: Mutex::new(()),
            apart: [0; 4],
        }
    }

    /// Locks it for reading, together with other readers. No new reader comes while the first writer of the
    /// queue waits for the readers present.
    pub fn read<R: Wait>(&self, rt: &R) -> TaggedRwLockReadGuard<'_, X>
        ensures { result.tag ≡ self.now }
    {
        match self.try_read() {
            Some(guard) => guard,
            None => self.wait_to_read(rt),
        }
    }

    // Waits to read, after a writer had the lock or another reader was faster.
    #[inline(never)]
    fn wait_to_read<R: Wait>(&self, rt: &R) -> TaggedRwLockReadGuard<'_, X>
        ensures { result.tag ≡ self.now }
    {
        for _ in 0..LOOKS {
            if let Some(guard) = self.try_read() {
                return guard;
            }
            spin_loop();
        }
        let _first = self.queue.lock(rt);
        for _ in rt.forever() {
            if let Some(guard) = self.try_read() {
                return guard;
            }
            yield_now();
        }
        unreachable!()
    }

    /// Locks it for reading as `read` does, but looks only a few times. It does not wait.
    pub fn read_now(&self) -> Option<TaggedRwLockReadGuard<'_, X>>
        ensures { IfSome result (λ r. r.tag ≡ self.now) }
    {
        match self.try_read() {
            Some(guard) => Some(guard),
            None => self.look_to_read(),
        }
    }

    // Tries a few more times to read, after a writer had the lock or another reader was faster.
    #[inline(never)]
    fn look_to_read(&self) -> Option<TaggedRwLockReadGuard<'_, X>>
        ensures { IfSome result (λ r. r.tag ≡ self.now) }
    {
        for _ in 0..LOOKS {
            if let Some(guard) = self.try_read() {
                return Some(guard);
            }
            spin_loop();
        }
        None
    }

    /// Locks it for writing as `write` does, but looks only a few times. It does not wait, nor does it keep readers out.
    pub fn write_now(&self) -> Option<(TaggedRwLockWriteGuard<'_, X>, X)>
        ensures { IfSome result (λ r. (r.0 ≡ self.now) × X.fits self.now r.1) }
    {
        match pull_free(&self.latch) {
            Some((claim, value)) => Some((TaggedRwLockWriteGuard { claim }, value)),
            None => self.look_to_write(),
        }
    }

    // Tries a few more times to write, after another thread had the lock.
    #[inline(never)]
    fn look_to_write(&self) -> Option<(TaggedRwLockWriteGuard<'_, X>, X)>
        ensures { IfSome result (λ r. (r.0 ≡ self.now) × X.fits self.now r.1) }
    {
        for _ in 0..LOOKS {
            if let Some((claim, value)) = pull(&self.latch) {
                return Some((TaggedRwLockWriteGuard { claim }, value));
            }
            spin_loop();
        }
        None
    }

    // A reader's hold of the value, where readers may come.
    fn try_read(&self) -> Option<TaggedRwLockReadGuard<'_, X>>
        ensures { IfSome result (λ r. r.tag ≡ self.now) }
    {
        let claim = self.latch.try_read()?;
        if claim.get().is_some() {
            return Some(TaggedRwLockReadGuard { claim });
        }
        claim.unlock_read();
        None
    }

    /// Locks it for writing, and takes the value out.
    pub fn write<R: Wait>(&self, rt: &R) -> (TaggedRwLockWriteGuard<'_, X>, X)
        ensures { (result.0 ≡ self.now) × X.fits self.now result.1 }
    {
        match pull_free(&self.latch) {
            Some((claim, value)) => (TaggedRwLockWriteGuard { claim }, value),
            None => self.wait_to_write(rt),
        }
    }

    // Waits to write, and takes the value out, after another thread had the lock.
    #[inline(never)]
    fn wait_to_write<R: Wait>(&self, rt: &R) -> (TaggedRwLockWriteGuard<'_, X>, X)
        ensures { (result.0 ≡ self.now) × X.fits self.now result.1 }
    {
        for _ in 0..LOOKS {
            if let Some((claim, value)) = pull(&self.latch) {
                return (TaggedRwLockWriteGuard { claim }, value);
            }
            spin_loop();
        }
        let _first = self.queue.lock(rt);
        for _ in rt.forever() {
            if let Some((claim, value)) = pull(&self.latch) {
                return (TaggedRwLockWriteGuard { claim }, value);
            }
            self.latch.keep_readers_out();
            yield_now();
        }
        unreachable!()
    }
}

impl<'a, X: Fits + Drop> TaggedRwLockWriteGuard<'a, X> {
    /// Puts the value back, and unlocks it.
    pub fn unlock<R: Wait>(self, rt: &R, value: X)
        requires { X.fits self value }
    {
        let TaggedRwLockWriteGuard { claim } = self;
        push(claim, rt, value);
    }
}

impl<'a, X: Fits + Drop> TaggedRwLockWriteGuard<'a, X> {
    /// Puts the value back, and unlocks it. It does not wait.
    pub fn put_back(self, value: X)
        requires { X.fits self value }
    {
        let TaggedRwLockWriteGuard { claim } = self;
        put(claim, value);
    }
}

impl<'a, X: Fits + Drop> TaggedRwLockReadGuard<'a, X> {
    /// The value, which stays as it is until the reading ends.
    pub fn get(&self) -> &X
        ensures { (Some result.now ≡ self.now.value) × X.fits self.now.tag result.now }
    {
        match self.claim.get() {
            Some(value) => value,
            None => unreachable!(),
        }
    }

    /// Ends the reading.
    pub fn unlock(self) {
        let TaggedRwLockReadGuard { claim } = self;
        claim.unlock_read();
    }
}

// Takes the value out, where nobody has the latch and nobody waits for it. It doesn't look first.
fn pull_free<X: Fits>(latch: &Latch<Option<X>>) -> Option<(Claim<'_, Option<X>>, X)>
    ensures { IfSome result (λ r. (r.0.right ≡ whole) × (r.0.tag ≡ latch.now) × X.fits latch.now r.1) }
{
    emptied(latch.try_free()?)
}

// Takes the value out, where nobody has the latch. It looks first.
fn pull<X: Fits>(latch: &Latch<Option<X>>) -> Option<(Claim<'_, Option<X>>, X)>
    ensures { IfSome result (λ r. (r.0.right ≡ whole) × (r.0.tag ≡ latch.now) × X.fits latch.now r.1) }
{
    emptied(latch.try_lock()?)
}

// The value of a latch that is claimed whole, which keeps everybody else out until the value is back.
fn emptied<X: Fits>(claim: Claim<'_, Option<X>>) -> Option<(Claim<'_, Option<X>>, X)>
    requires { claim.right ≡ whole }
    ensures { IfSome result (λ r. (r.0.right ≡ whole) × (r.0.tag ≡ claim.entry.tag) × X.fits claim.entry.tag r.1) }
{
    let (claim, value) = claim.swap(None);
    match value {
        Some(value) => Some((claim, value)),
        None => {
            claim.unlock();
            None
        }
    }
}

// Puts the value back into the latch that it was taken out of, which then is free.
fn push<X: Fits, R: Wait>(claim: Claim<'_, Option<X>>, rt: &R, value: X)
    requires { (claim.right ≡ whole) × X.fits claim.tag value }
{
    let (claim, other) = claim.swap(Some(value));
    claim.unlock();
    if let Some(other) = other {
        keep(rt, other);
    }
}

// Puts the value back as `push` does, without a right to wait. A second value of the latch, which no type excludes, is lost.
fn put<X: Fits>(claim: Claim<'_, Option<X>>, value: X)
    requires { (claim.right ≡ whole) × X.fits claim.tag value }
{
    let (claim, other) = claim.swap(Some(value));
    claim.unlock();
    if let Some(other) = other {
        let _lost = unsafe { ManuallyDrop::new_unchecked(other) };
    }
}

// Keeps a second value of a latch, next to the one that was taken out. No latch has one, but no type says so,
// and a value need not be droppable.
#[inline(never)]
fn keep<X, R: Wait>(rt: &R, _other: X) {
    for _ in rt.forever() {
        yield_now();
    }
    unreachable!()
}
