//! Texts in set-once cells, which are in chunks that double in length and are made on demand.
//!
//! A cell is filled once, before the list has its position, and never changes after. So a thread that has
//! seen the list's length reads a cell below it without a lock, and what it reads is lent as long as the chunks.
//! The chunks own the era for which the bytes of the texts are lent: it is over when the chunks are.
ghost use Rattle.std.specs.Prelude.{◌≡◌, ◌<◌, ℕ, List, [], ◌∷◌, length, IfOk, IfErr, IfSome, slice_index_or};
ghost use Rattle.lasso_log.specs.Chunks.{IsCellAt, ListOnlyGrows, era_named, chunk_named, chunk_of, offset_of, chunk_length};

pub mod facts;
pub mod rule;
pub mod taking;

use crate::chunks::facts::{Lines, found_chunk, found_item};
use crate::chunks::rule::{HasCells, HasText, InChunks, Listed};
use crate::shared_memory::era::{Ended, Era};
use boxcar::slot::{OnceSlot, SlotRule, Written};
use boxcar::tag::{Names, Tag};
use logbook::Seen;
use std::alloc::{AllocError, Global};
use std::marker::Model;
use std::sync::Wait;

const CHUNKS: usize = 60;

const FIRST_LENGTH: u64 = 32;

/// The rule of a cell: it may hold anything.
pub struct Any;

impl<T> SlotRule<T> for Any {
    ghost holds = { λ tag x. Unit {0} };
}

/// The rule of a chunk: it has the length that its number gives it.
pub struct ByNumber;

impl<T> SlotRule<Vec<OnceSlot<T, Any>>> for ByNumber {
    ghost use Rattle.std.specs.Prelude.{◌≡◌, length};
    ghost use Rattle.lasso_log.specs.Chunks.{chunk_length, first_number};

    ghost holds = { λ tag chunk. length chunk.items ≡ chunk_length (first_number tag) };
}

/// A chunk of cells.
pub type Chunk<T> = Vec<OnceSlot<T, Any>>;

impl<T> HasCells for Vec<OnceSlot<T, Any>> {
    ghost cells = { λ chunk. chunk.items };
}

/// The chunks, with their era. A contract sees the number of the era, and after it the names of the cells that the chunks are in.
/// None of these ever changes.
pub struct Chunks<T: Drop> {
    chunks: Vec<OnceSlot<Chunk<T>, ByNumber>>,
    era: Era,
    // Two tokens to copy, since `found_chunk` and `found_item` want one of the right type. They have no bytes.
    chunk: Written<Chunk<T>>,
    item: Written<T>,
}

impl<T: Drop> Model for Chunks<T> {
    ghost use Rattle.std.specs.Prelude.{ℕ, List, ◌∷◌};
    ghost use base.Stored.{coded_list, coded_ℕ};
    ghost use Rattle.lasso_log.specs.Chunks.{names_of, IsNumbered};

    ghost Value = { List ℕ };

    ghost coded = { coded_list coded_ℕ };

    ghost view = { λ r. r.era.id ∷ names_of r.chunks.items };

    ghost invariant = { λ r. IsNumbered 60 r.chunks.items };
}

// Drops the chunks and ends their era.
impl<T: Drop> Drop for Chunks<T> {
    fn drop(self) {
        drop(self.end());
    }
}

impl<T: Drop> Chunks<T> {
    /// The era for which the bytes of their texts are lent.
    pub fn era(&self) -> &Era
        ensures { result.now.id ≡ era_named self.now }
    {
        &self.era
    }

    /// Ends their era, and frees them.
    pub fn end(self) -> Ended
        ensures { result.id ≡ era_named self }
    {
        let Chunks {
            chunks,
            era,
            chunk: _,
            item: _,
        } = self;
        drop(chunks);
        era.end()
    }
}

/// The chunk of a position, and its offset from the chunk's first cell.
pub fn chunk_and_offset(position: u64) -> (usize, usize)
    ensures value { (result.0 ≡ chunk_of position) × (result.1 ≡ offset_of position) }
    ensures there { (result.0 < 60) × (result.1 < chunk_length result.0) }
{
    if position < FIRST_LENGTH {
        return (0, position as usize);
    }
    let top = position.ilog2();
    (top as usize - 4, (position - (1 << top)) as usize)
}

// How many cells the chunk has.
pub(crate) fn length_of(chunk: usize) -> usize
    requires { chunk < 60 }
    ensures { result ≡ chunk_length chunk }
{
    if chunk == 0 { 32 } else { 32 << (chunk - 1) }
}

// Cells that are not filled.
fn new_chunk<T: Drop>(alloc: Global, cells: usize) -> Result<Chunk<T>, AllocError>
    ensures { IfOk result (λ chunk. length chunk.items ≡ cells) }
{
    let mut chunk = Vec::with_capacity(alloc, cells)?;
    for _ in 0..cells {
        chunk.push_reserved(OnceSlot::new(&Tag::empty()));
    }
    Ok(chunk)
}

// The tag of a chunk.
struct Number;

impl Names<usize> for Number {
    ghost use Rattle.std.specs.Prelude.{[], ◌∷◌};

    ghost numbers = { λ n. n ∷ [] };
}

// The names that the chunks have.
struct ChunkNames;

impl<T: Drop> Names<Chunks<T>> for ChunkNames {
    ghost numbers = { λ chunks. chunks };
}

impl<T: HasText + Drop> Chunks<T> {
    /// Chunks of which none is made yet. `sample` is dropped: from it the tokens have their type.
    pub fn new(alloc: Global, sample: T) -> Result<Chunks<T>, AllocError>
        ensures { IfOk result (λ chunks. length chunks ≡ 61) }
    {
        let item: OnceSlot<T, Any> = OnceSlot::new(&Tag::empty());
        let Ok(item) = item.set_written(sample) else {
            return Err(AllocError);
        };
        let empty: OnceSlot<Chunk<T>, Any> = OnceSlot::new(&Tag::empty());
        let Ok(chunk) = empty.set_written(Vec::new(alloc)) else {
            return Err(AllocError);
        };
        let mut chunks = Vec::with_capacity(alloc, CHUNKS)?;
        for number in 0..CHUNKS {
            chunks.push_reserved(OnceSlot::new(&Tag::of::<usize, Number>(&number)));
        }
        Ok(Chunks {
            chunks,
            era: Era::begin(),
            chunk,
            item,
        })
    }

    /// Makes the chunk of a position, if it is not made. Returns `None` while another thread is making it.
    /// Out of memory, the chunks are as they were.
    pub fn make_chunk(
        &self,
        alloc: Global,
        position: u64,
    ) -> Result<Option<Written<Chunk<T>>>, AllocError>
        ensures { IfOk result (λ r. IfSome r (λ chunk. chunk.of ≡ chunk_named self.now position)) }
    {
        if let Some(chunk) = self.find_chunk(position) {
            return Ok(Some(chunk));
        }
        let (number, _) = chunk_and_offset(position);
        let chunk = new_chunk(alloc, length_of(number))?;
        Ok(self.chunks[number].set_written(chunk).ok())
    }

    /// Shows that the chunk of a position is made. Returns `None` if it is not. It takes no memory and
    /// does not wait.
    pub fn find_chunk(&self, position: u64) -> Option<Written<Chunk<T>>>
        ensures { IfSome result (λ chunk. chunk.of ≡ chunk_named self.now position) }
    {
        let (number, _) = chunk_and_offset(position);
        self.chunks[number].witness()
    }

    /// Makes the chunk of a position, if it is not made, and shows that it is. Out of memory, the chunks
    /// are as they were. It waits while another thread is putting the chunk in, and takes no memory then.
    pub fn make_chunk_or_wait<R: Wait>(
        &self,
        rt: &R,
        alloc: Global,
        position: u64,
    ) -> Result<Written<Chunk<T>>, AllocError>
        ensures { IfOk result (λ chunk. chunk.of ≡ chunk_named self.now position) }
    {
        if let Some(chunk) = self.make_chunk(alloc, position)? {
            return Ok(chunk);
        }
        for _ in rt.forever() {
            if let Some(chunk) = self.find_chunk(position) {
                return Ok(chunk);
            }
            std::hint::spin_loop();
        }
        unreachable!()
    }

    /// Makes the missing chunks of the first `count` positions, the longest first, so that a count too large
    /// for memory fails at once. Out of memory, the chunks made by then stay.
    pub fn make_cells(&self, alloc: Global, count: u64) -> Result<(), AllocError> {
        if count == 0 {
            return Ok(());
        }
        let (last, _) = chunk_and_offset(count - 1);
        for shorter in 0..last + 1 {
            let number = last - shorter;
            let first = if number == 0 {
                0
            } else {
                length_of(number) as u64
            };
            self.make_chunk(alloc, first)?;
        }
        Ok(())
    }

    /// How many cells the chunks have that are made, from the first on, or 2^64 - 1 if all are. It takes no memory and does
    /// not wait.
    pub fn cells(&self) -> u64 {
        let mut cells: u64 = 0;
        for number in 0..CHUNKS {
            if self.chunks[number].witness().is_none() {
                return cells;
            }
            cells = cells.saturating_add(length_of(number) as u64);
        }
        cells
    }

    // Hands the text back if the chunk is not made, or if the cell is filled or being filled.
    pub(crate) fn try_fill(
        &self,
        position: u64,
        text: T,
    ) -> Result<(Written<Chunk<T>>, Written<T>), T>
        ensures ok { IfOk result (λ r. IsCellAt self.now position r.0.of r.0.value.items r.1.of × (r.1.value ≡ text)) }
        ensures err { IfErr result (λ t. t ≡ text) }
    {
        let (number, offset) = chunk_and_offset(position);
        let cell = &self.chunks[number];
        let Some(chunk) = cell.witness() else {
            return Err(text);
        };
        match cell.value(&chunk)[offset].set_written(text) {
            Ok(item) => Ok((chunk, item)),
            Err(text) => Err(text),
        }
    }

    /// Fills the cell of a position, and returns the proof that it is filled. It waits if the chunk is not
    /// made, or if the cell is filled or being filled.
    pub fn fill<R: Wait>(&self, rt: &R, position: u64, text: T) -> (Written<Chunk<T>>, Written<T>)
        ensures cell { IsCellAt self.now position result.0.of result.0.value.items result.1.of }
        ensures text { result.1.value ≡ text }
    {
        let mut text = text;
        for _ in rt.forever() {
            match self.try_fill(position, text) {
                Ok(filled) => return filled,
                Err(back) => text = back,
            }
            std::hint::spin_loop();
        }
        unreachable!()
    }

    /// What shows that no text is in the chunks yet.
    pub fn lines(&self) -> Lines<T, Chunk<T>>
        ensures { (result.names ≡ self.now) × (result.texts ≡ []) }
    {
        Lines::none::<Chunks<T>, ChunkNames>(self)
    }

    /// Lends what the cell of a position holds, to whoever shows that it is filled. It takes no memory and does
    /// not wait.
    pub fn value(&self, position: u64, chunk: &Written<Chunk<T>>, item: &Written<T>) -> &T
        requires { IsCellAt self.now position chunk.now.of chunk.now.value.items item.now.of }
        ensures { result.now ≡ item.now.value }
    {
        let (number, offset) = chunk_and_offset(position);
        self.chunks[number].value(chunk)[offset].value(item)
    }

    /// Shows that the chunk of a position below the length that was seen is made. It takes no memory and does
    /// not wait.
    pub fn chunk_below<E, B: Listed<E>>(
        &self,
        seen: &mut Seen<E, u64, InChunks<B, T, Chunk<T>>>,
        position: u64,
    ) -> Written<Chunk<T>>
        requires chunks { self.now ≡ seen.old.names }
        requires grows { ListOnlyGrows B.shows B.texts }
        requires below { position < length (B.texts (B.shows seen.old.log)) }
        ensures chunk { result.of ≡ chunk_named self.now position }
        ensures same { seen.new ≡ seen.old }
    {
        found_chunk(seen, position, self.chunk.again())
    }

    /// Lends what the cell of a position below the length that was seen holds, as long as the chunks. It takes no
    /// memory and does not wait.
    pub fn lend<E, B: Listed<E>>(
        &self,
        seen: &mut Seen<E, u64, InChunks<B, T, Chunk<T>>>,
        position: u64,
    ) -> &T
        requires chunks { self.now ≡ seen.old.names }
        requires grows { ListOnlyGrows B.shows B.texts }
        requires below { position < length (B.texts (B.shows seen.old.log)) }
        ensures text { T.meaning result.now ≡ slice_index_or (B.texts (B.shows seen.old.log)) position [] }
        ensures lasts { T.lasts result.now (era_named self.now) }
        ensures same { seen.new ≡ seen.old }
    {
        let chunk = self.chunk_below(seen, position);
        let item = found_item(seen, &chunk, position, self.item.again());
        self.value(position, &chunk, &item)
    }
}
