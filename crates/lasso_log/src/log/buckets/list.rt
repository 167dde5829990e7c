//! The buckets of an interner, in set-once cells that threads walk without a lock. Used by whoever reserves bytes.
//!
//! A bucket has the cell of its position in the history. Cells are in rows that double in length, as the texts' are, and
//! a row is made before the step that adds the bucket: so nobody waits to put a bucket in.
ghost use Rattle.std.specs.Prelude.{◌≡◌, ◌∷◌, IfOk, IfErr, IfSome};
ghost use Rattle.lasso_parts.specs.declared.util.LassoErrorKind.TheVariants.{FailedAllocation};
ghost use Rattle.lasso_log.specs.BucketRows.{AreTagged};
ghost use Rattle.lasso_log.specs.SharedBuckets.{SharedView, names_with_book};
ghost use Rattle.lasso_log.specs.Views.{InternerId};

use crate::chunks::{chunk_and_offset, length_of};
use crate::log::Log;
use crate::log::buckets::SharedBucket;
use boxcar::slot::{OnceSlot, SlotRule};
use boxcar::tag::{Names, Tag};
use lasso_parts::keys::Key;
use lasso_parts::util::LassoResult;
use std::alloc::{AllocError, Global};
use std::hint::spin_loop;
use std::marker::Model;
use std::sync::Wait;
use std::sync::atomic::{AtomicU64, Ordering};

const ROWS: usize = 60;

/// The buckets are of the interner that the list was made for.
pub struct OfInterner;

impl<K: Key> SlotRule<SharedBucket<K>> for OfInterner {
    ghost use Rattle.std.specs.Prelude.{◌≡◌};
    ghost use Rattle.lasso_log.specs.SharedBuckets.{names_with_book};

    ghost holds = { λ tag b. names_with_book b.of ≡ tag };
}

impl<K: Key> Names<Log<K>> for OfInterner {
    ghost use Rattle.lasso_log.specs.SharedBuckets.{names_with_book};

    ghost numbers = { λ l. names_with_book l };
}

/// Cells for buckets.
pub type Row<K> = Vec<OnceSlot<SharedBucket<K>, OfInterner>>;

/// A row has the length that its number gives it, and its cells are for buckets of the list's interner.
pub struct OfList;

impl<K: Key> SlotRule<Vec<OnceSlot<SharedBucket<K>, OfInterner>>> for OfList {
    ghost use Rattle.lasso_log.specs.BucketRows.{IsRow};

    ghost holds = { λ tag row. IsRow tag row.items };
}

/// The buckets of one interner: first the one that it opened with, then the later ones, each at its position in the
/// history. It only grows. A contract sees of which interner they are, by its book and its names.
#[derive(Drop)]
pub struct BucketList<K: Key> {
    first: SharedBucket<K>,
    rows: Vec<OnceSlot<Row<K>, OfList>>,
    tag: Tag,
    // How many later buckets were put in.
    later: AtomicU64,
}

impl<K: Key> Model for BucketList<K> {
    ghost use Rattle.std.specs.Prelude.{◌≡◌, ℕ, List};
    ghost use base.Stored.{coded_list, coded_ℕ};
    ghost use Rattle.lasso_log.specs.BucketRows.{AreRows};
    ghost use Rattle.lasso_log.specs.SharedBuckets.{SharedView, names_with_book};

    ghost Value = { List ℕ };

    ghost coded = { coded_list coded_ℕ };

    ghost view = { λ l. l.tag.numbers };

    ghost invariant = { λ l. (names_with_book l.first.of ≡ l.tag.numbers) × AreRows l.tag.numbers 60 l.rows.items };
}

// The number of a row, and the tag of its cells.
#[derive(Drop)]
struct RowTag {
    number: usize,
    cells: Tag,
}

struct ByNumber;

impl Names<RowTag> for ByNumber {
    ghost use Rattle.std.specs.Prelude.{◌∷◌};

    ghost numbers = { λ r. r.number ∷ r.cells.numbers };
}

struct Same;

impl Names<Tag> for Same {
    ghost numbers = { λ t. t.numbers };
}

// The tag of the row of this number.
fn row_tag(number: usize, tag: &Tag) -> Tag
    ensures { result.numbers ≡ number ∷ tag.now.numbers }
{
    let cells = Tag::of::<Tag, Same>(tag);
    Tag::of::<RowTag, ByNumber>(&RowTag { number, cells })
}

// Cells with this tag that are not filled.
fn new_row<K: Key>(alloc: Global, tag: &Tag, cells: usize) -> Result<Row<K>, AllocError>
    ensures { IfOk result (λ row. AreTagged tag.now.numbers cells row.items) }
{
    let mut row = Vec::with_capacity(alloc, cells)?;
    for _ in 0..cells {
        row.push_reserved(OnceSlot::new(tag));
    }
    Ok(row)
}

impl<K: Key> BucketList<K> {
    /// The list of a new interner, with its first bucket. It fails only out of memory (`FailedAllocation`),
    /// and does not wait.
    pub fn new(alloc: Global, log: &Log<K>, bucket: SharedBucket<K>) -> LassoResult<BucketList<K>>
        requires { bucket.of ≡ log.now }
        ensures list { IfOk result (λ l. l ≡ names_with_book log.now) }
        ensures refused { IfErr result (λ error. error ≡ FailedAllocation) }
    {
        let tag = Tag::of::<Log<K>, OfInterner>(log);
        let mut rows = Vec::with_capacity(alloc, ROWS)?;
        for number in 0..ROWS {
            rows.push_reserved(OnceSlot::new(&row_tag(number, &tag)));
        }
        Ok(BucketList {
            first: bucket,
            rows,
            tag,
            later: AtomicU64::new(0),
        })
    }

    /// Makes the cell of a later bucket's position, if it is not made. Returns false while another thread is making it. It
    /// fails only out of memory (`FailedAllocation`), and does not wait.
    pub fn make_room(&self, alloc: Global, position: u64) -> LassoResult<bool>
        ensures { IfErr result (λ error. error ≡ FailedAllocation) }
    {
        let (number, _) = chunk_and_offset(position.saturating_sub(1));
        if self.rows[number].witness().is_some() {
            return Ok(true);
        }
        let row = new_row(alloc, &self.tag, length_of(number))?;
        Ok(self.rows[number].set_written(row).is_ok())
    }

    /// Puts a later bucket in, at its position. It hands the bucket back if the cell is not made, or if it is filled. It does
    /// not wait.
    pub fn try_push(&self, bucket: SharedBucket<K>) -> Result<(), SharedBucket<K>>
        requires { names_with_book bucket.of ≡ self.now }
        ensures { IfErr result (λ b. b ≡ bucket) }
    {
        let Some(index) = bucket.position().checked_sub(1) else {
            return Err(bucket);
        };
        let (number, offset) = chunk_and_offset(index);
        let Some(row) = self.rows[number].get() else {
            return Err(bucket);
        };
        if let Err(back) = row[offset].set_written(bucket) {
            return Err(back);
        }
        self.later.fetch_add(1, Ordering::SeqCst);
        Ok(())
    }

    /// The bucket that the interner opened with.
    pub fn first(&self) -> &SharedBucket<K>
        ensures { names_with_book result.now.of ≡ self.now }
    {
        &self.first
    }

    /// The number of the bucket that was added last. This bucket mostly has the most room.
    pub fn newest(&self) -> u64 {
        self.later.load(Ordering::SeqCst)
    }

    /// The number of buckets.
    pub fn len(&self) -> u64 {
        self.later.load(Ordering::SeqCst).saturating_add(1)
    }

    /// The bucket of this number, from 0 on, in the order of their positions. Returns `None` if it is not in the list. It takes
    /// no memory and does not wait.
    pub fn get(&self, number: u64) -> Option<&SharedBucket<K>>
        ensures { IfSome result (λ b. names_with_book b.now.of ≡ self.now) }
    {
        let Some(index) = number.checked_sub(1) else {
            return Some(&self.first);
        };
        let (number, offset) = chunk_and_offset(index);
        let row = self.rows[number].get()?;
        row[offset].get()
    }

    /// The bucket at this position of the history. Returns `None` if it is not in the list yet. It takes no memory, and does
    /// not wait.
    pub fn find_now(&self, log: &Log<K>, position: u64) -> Option<&SharedBucket<K>>
        requires { self.now ≡ names_with_book log.now }
        ensures { IfSome result (λ b. (b.now.of ≡ log.now) × (b.now.position ≡ position)) }
    {
        let bucket = self.get(position)?;
        if bucket.position() != position {
            return None;
        }
        log.prove_shared_opening(bucket);
        Some(bucket)
    }

    /// The bucket at this position of the history. It takes no memory. It waits until the bucket is in the list.
    pub fn find<R: Wait>(&self, rt: &R, log: &Log<K>, position: u64) -> &SharedBucket<K>
        requires { self.now ≡ names_with_book log.now }
        ensures { (result.now.of ≡ log.now) × (result.now.position ≡ position) }
    {
        for _ in rt.forever() {
            if let Some(bucket) = self.find_now(log, position) {
                return bucket;
            }
            spin_loop();
        }
        unreachable!()
    }
}
