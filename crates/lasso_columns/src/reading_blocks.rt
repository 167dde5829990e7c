//! Reads blocks of a stream, each of which ends at the end of a line.
ghost use Rattle.std.specs.Prelude.{◌≡◌, ◌<◌, ◌≤◌, [], IfOk, false, drop, length, take, vec_len};
ghost use Rattle.std.specs.Io.KnownBytes.{Consumes, IsAtEnd};
ghost use Rattle.lasso_columns.specs.Streams.{CutsLast, EndsLine, ReadsBlocks, ReadsLines};
ghost use Rattle.lasso_input.specs.Lines.{NoFeed};

use std::alloc::Global;
use std::io;
use std::io::{BufRead, ErrorKind};

// The bytes of a read at most.
const CHUNK: usize = 65_536;

// For at most this number of bytes room is reserved before a block is read.
const MOST_RESERVED: usize = 4_194_304;

// Blocks of the input, and whether more may follow, or why a read failed after them.
#[derive(Drop)]
pub(crate) struct Blocks {
    pub blocks: Vec<Vec<u8>>,
    pub more: io::Result<bool>,
}

// How many blocks are read, and how many bytes each has at least.
#[derive(Clone, Copy)]
pub(crate) struct Sizes {
    pub count: usize,
    // of all blocks but the last
    pub size: usize,
    pub last: usize,
}

impl Sizes {
    // The bytes of the block at the index, at least 1.
    fn at(self, index: usize) -> usize {
        if index < self.count.saturating_sub(1) {
            self.size.max(1)
        } else {
            self.last.max(1)
        }
    }
}

// Room for a read of at most this number of bytes.
pub(crate) fn new_chunk(alloc: Global, size: usize) -> io::Result<Vec<u8>>
    ensures { IfOk result (λ chunk. 0 < vec_len chunk) }
{
    let mut chunk = Vec::new(alloc);
    chunk.resize(size.clamp(1, CHUNK), 0)?;
    Ok(chunk)
}

// Reads up to `sizes.count` blocks of at least these sizes, each up to the end of a line. A block has at least one
// byte, unless the input ends. `spare` has earlier blocks, whose memory is used again.
pub(crate) fn read_blocks<I: BufRead>(
    alloc: Global,
    input: &mut I,
    chunk: &mut [u8],
    spare: &mut Vec<Vec<u8>>,
    sizes: Sizes,
) -> Blocks
    requires { 0 < length chunk.old }
    ensures { ReadsBlocks (I.remaining input.old) (I.remaining input.new) result.blocks.items result.more }
{
    let mut blocks = Vec::new(alloc);
    for index in 0..sizes.count {
        // Room for the block is reserved before it is read.
        if blocks.reserve(1).is_err() {
            return Blocks {
                blocks,
                more: Err(io::Error::from(ErrorKind::OutOfMemory)),
            };
        }
        let mut block = empty_block(alloc, spare);
        let more = read_block(input, chunk, &mut block, sizes.at(index));
        blocks.push_reserved(block);
        let Ok(true) = more else {
            return Blocks { blocks, more };
        };
    }
    Blocks {
        blocks,
        more: Ok(true),
    }
}

// A block without bytes, in the memory of an earlier one, if there is one.
fn empty_block(alloc: Global, spare: &mut Vec<Vec<u8>>) -> Vec<u8>
    ensures { result.items ≡ [] }
{
    let Some(mut block) = spare.pop() else {
        return Vec::new(alloc);
    };
    block.clear();
    block
}

// Reads a block of at least `size` bytes, up to the end of a line. Returns whether more may follow. If a read
// fails, the block ends with the last line that was read as a whole.
fn read_block<I: BufRead>(
    input: &mut I,
    chunk: &mut [u8],
    block: &mut Vec<u8>,
    size: usize,
) -> io::Result<bool>
    requires chunk { 0 < length chunk.old }
    requires empty { block.old.items ≡ [] }
    ensures { ReadsLines (I.remaining input.old) (I.remaining input.new) [] block.new.items result }
{
    match fill(input, chunk, block, size) {
        Ok(true) => end_line(input, block),
        Ok(false) => Ok(false),
        Err(error) => {
            cut_last_line(block);
            Err(error)
        }
    }
}

// Reads at least `size` bytes. Returns whether more may follow. If a read fails, the block has all bytes that
// were read.
fn fill<I: BufRead>(
    input: &mut I,
    chunk: &mut [u8],
    block: &mut Vec<u8>,
    size: usize,
) -> io::Result<bool>
    requires chunk { 0 < length chunk.old }
    requires empty { block.old.items ≡ [] }
    ensures taken { Consumes (I.remaining input.old) (I.remaining input.new) block.new.items }
    ensures end { IfOk result (λ more. more ≡ false → IsAtEnd (I.remaining input.new)) }
{
    // Without this room each read asks for its own.
    let _ = block.reserve(size.saturating_add(chunk.len()).min(MOST_RESERVED));
    for _ in 0..u64::MAX {
        if block.len() >= size {
            return Ok(true);
        }
        block.reserve(chunk.len())?;
        match input.read(chunk) {
            Ok(0) => return Ok(false),
            Ok(count) => {
                let Ok(()) = block.extend_from_slice(&chunk[..count]) else {
                    unreachable!();
                };
            }
            Err(error) if error.kind() == ErrorKind::Interrupted => {}
            Err(error) => return Err(error),
        }
    }
    Err(io::Error::from(ErrorKind::TimedOut))
}

// Reads on to the end of a line. If a read fails, the block ends with the last line that was read as a whole.
fn end_line<I: BufRead>(input: &mut I, block: &mut Vec<u8>) -> io::Result<bool>
    ensures { ReadsLines (I.remaining input.old) (I.remaining input.new) block.old.items block.new.items result }
{
    match input.read_until(b'\n', block) {
        Ok(_) => Ok(true),
        Err(error) => {
            cut_last_line(block);
            Err(error)
        }
    }
}

// Removes the bytes after the last line feed.
fn cut_last_line(block: &mut Vec<u8>)
    ensures { CutsLast block.old.items block.new.items }
{
    let count = ended_len(block);
    block.truncate(count);
}

// How many bytes there are up to the last line feed, and with it.
fn ended_len(bytes: &[u8]) -> usize
    ensures within { result ≤ length bytes.now }
    ensures ended { EndsLine (take result bytes.now) }
    ensures begun { NoFeed (drop result bytes.now) }
{
    let mut count = bytes.len();
    while count > 0 {
        if bytes[count - 1] == b'\n' {
            return count;
        }
        count -= 1;
    }
    0
}
