//! Encodes the lines of blocks beside an interner that nobody changes meanwhile.
ghost use Rattle.std.specs.Prelude.{◌≡◌, ◌<◌, ℕ, [], IfSome, IfOk, length, slice_index_or, vec_len};
ghost use Rattle.lasso_columns.specs.Blocks.{IsAddedAt, IsBlockAt, IsBlockBeside, IsBlockOf, IsCodedBeside, IsRowBeside};
ghost use Rattle.lasso_columns.specs.Rows.{is_null, word_of};

use crate::interners::{SpurRodeo, SpurRodeoReader};
use crate::rows::{NULL, is_null};
use lasso_input::Stretch;
use lasso_parts::hasher::TextState;
use lasso_parts::keys::Spur;
use lasso_parts::util::LassoResult;
use lasso_single::batch::{Batch, get_next};
use lasso_single::coding::intern_code;
use lasso_single::rodeo::Rodeo;
use std::alloc::{AllocError, Allocator, Global};
use std::hash::BuildHasher;
use std::thread::{Threads, map_indices};

/// The lines of a block as rows, encoded beside an interner.
#[derive(Drop)]
pub struct Block {
    /// How many texts the interner had.
    pub base: usize,
    /// The texts of the lines that the interner lacked, each once, in the order of their first occurrences.
    pub added: SpurRodeoReader,
    /// The entry of each line: `NULL` for a null, and else the position of the line among the texts of the
    /// interner, followed by `added`.
    pub entries: Vec<u32>,
    /// Whether these are all lines of the block. If not, the next line is not UTF-8.
    pub is_complete: bool,
}

/// Encodes the lines of the bytes, up to the first that is not UTF-8. Lines that equal `null` are nulls. Texts
/// that the interner lacks go into a list of the block's own, whose index hashes by this seed. Returns `None` if memory or codes run out.
pub fn encode_block<S: BuildHasher, A: Allocator>(
    alloc: Global,
    rodeo: &Rodeo<Spur, S, A>,
    bytes: &[u8],
    null: Option<&[u8]>,
    hasher: TextState,
) -> Option<Block>
    ensures block { IfSome result (λ block. IsBlockOf (word_of null.entry) rodeo.now.texts bytes.now block) }
    ensures base { IfSome result (λ block. block.base ≡ length rodeo.now.texts) }
{
    let Ok(mut added) = new_rodeo(alloc, hasher) else {
        return None;
    };
    let base = rodeo.len();
    let mut entries = Vec::new(alloc);
    let mut batch = Batch::new();
    let mut lines = Stretch::new(bytes);
    lines.look_ahead(rodeo, &mut batch);
    while let Some(line) = lines.next_line() {
        let Ok(text) = line.text() else {
            return Some(Block {
                base,
                added: added.into_reader(),
                entries,
                is_complete: false,
            });
        };
        let entry = entry_beside(rodeo, &mut added, text, null, &mut batch)?;
        if entries.push(entry).is_err() {
            return None;
        }
        lines.look_ahead(rodeo, &mut batch);
    }
    Some(Block {
        base,
        added: added.into_reader(),
        entries,
        is_complete: true,
    })
}

// The entry of the text beside the interner. Adds the text, unless it is a null or one of both lists has it.
// Returns `None` if memory or codes run out.
#[inline(always)]
fn entry_beside<S: BuildHasher, A: Allocator>(
    rodeo: &Rodeo<Spur, S, A>,
    added: &mut SpurRodeo,
    text: &str,
    null: Option<&[u8]>,
    batch: &mut Batch,
) -> Option<u32>
    ensures { IfSome result (IsRowBeside (is_null (word_of null.entry) text.now) rodeo.now.texts added.old.texts text.now added.new.texts) }
{
    if is_null(null, text.as_bytes()) {
        batch.skip();
        return Some(NULL);
    }
    code_beside(rodeo, added, text, batch)
}

// The position of the text among the texts of the interner, followed by `added`. Adds the text if both lack
// it. Returns `None` if memory or codes run out.
#[inline(always)]
fn code_beside<S: BuildHasher, A: Allocator>(
    rodeo: &Rodeo<Spur, S, A>,
    added: &mut SpurRodeo,
    text: &str,
    batch: &mut Batch,
) -> Option<u32>
    ensures { IfSome result (IsCodedBeside rodeo.now.texts added.old.texts text.now added.new.texts) }
{
    if let Some(key) = get_next(rodeo, text, batch) {
        return Some(key.into_position());
    }
    added_code(added, text, rodeo.len())
}

// The position of the text among `added`, plus `base`. Adds the text if it is absent. Returns `None` if memory
// or codes run out.
#[inline(never)]
fn added_code(added: &mut SpurRodeo, text: &str, base: usize) -> Option<u32>
    ensures { IfSome result (IsAddedAt base added.old.texts text.now added.new.texts) }
{
    let Ok(position) = intern_code(added, text) else {
        return None;
    };
    let code = base.checked_add(position as usize)?;
    if code >= NULL as usize {
        return None;
    }
    Some(code as u32)
}

// An interner for the texts of one block, without a limit, which hashes by this seed.
fn new_rodeo(alloc: Global, hasher: TextState) -> LassoResult<SpurRodeo>
    ensures { IfOk result (λ rodeo. rodeo.texts ≡ []) }
{
    let rodeo: SpurRodeo = Rodeo::with_hasher(alloc, hasher)?;
    Ok(rodeo)
}

/// Encodes the lines of each block beside the interner, by a thread for each if one can be started, each with this seed. A block
/// whose worker runs out of memory or of codes is `None`.
///
/// # Errors
/// Out of memory.
pub fn encode_blocks<R: AllocGlobal + Threads + Sync>(
    rt: &R,
    rodeo: &SpurRodeo,
    blocks: &[Vec<u8>],
    null: Option<&[u8]>,
    hasher: TextState,
) -> Result<Vec<Option<Block>>, AllocError>
    ensures len { IfOk result (λ made. vec_len made ≡ length blocks.now) }
    ensures each { IfOk result (λ made. (i : ℕ) (d : _) (e : _) → i < length blocks.now →
        IfSome (slice_index_or made.items i d) (λ block. IsBlockBeside (word_of null.entry) rodeo.now.texts (slice_index_or blocks.now i e).items block)) }
{
    let work = move |i: usize| -> Option<Block>
        requires { i < length blocks.now }
        ensures { IfSome result (λ block. IsBlockAt (word_of null.entry) rodeo.entry.now.texts blocks.entry.now i block) }
    { encode_block(rt.alloc(), rodeo, &blocks[i], null, hasher) };
    map_indices(rt, rt.alloc(), blocks.len(), &work)
}
