//! Sorts texts in the order of their bytes, with several threads.
ghost use Rattle.std.specs.Prelude.{◌≡◌, ◌<◌, All, IsPermutation, IsSorted, slice_index};
ghost use Rattle.lasso_lines.specs.Fronts.{front, fronted_cmp};

use std::thread::{Threads, for_each_chunk_mut};

// A text after its front (`front_of`). Such pairs have the order of their texts.
pub(crate) type Fronted<'a> = (u64, &'a str);

// The front of a text: its first eight bytes as a big-endian number, with zeros past its end. If the fronts
// of two texts differ, the texts have the order of their fronts.
pub(crate) fn front_of(text: &str) -> u64
    ensures front { result ≡ front text.now }
    ensures bytes { All (λ b. b < 256) text.now }
{
    let bytes = text.as_bytes();
    let mut number = 0u64;
    for at in 0..8usize {
        number = number * 256 + u64::from(byte_at(bytes, at));
    }
    number
}

// The byte at the position, or 0 past the end.
fn byte_at(bytes: &[u8], at: usize) -> u8
    ensures { result ≡ slice_index bytes.now at }
{
    bytes.get(at).copied().unwrap_or(0)
}

// Sorts the texts. Each thread sorts a part of them, and then the parts are merged. With one thread, or
// without memory to merge, all are sorted in place.
pub(crate) fn sort<R: AllocGlobal + Threads + Sync>(
    rt: &R,
    texts: &mut Vec<Fronted<'_>>,
    threads: usize,
)
    ensures permutation { IsPermutation texts.old.items texts.new.items }
    ensures sorted { IsSorted fronted_cmp texts.new.items }
{
    if threads > 1 {
        sort_parts(rt, texts, threads);
        if texts.sort().is_ok() {
            return;
        }
    }
    texts.sort_unstable();
}

// Cuts the texts into at most `threads` parts, and sorts each part in a thread.
fn sort_parts<R: Threads + Sync>(rt: &R, texts: &mut [Fronted<'_>], threads: usize)
    ensures { IsPermutation texts.old texts.new }
{
    let size = texts.len().div_ceil(threads.max(1)).max(1);
    let work = move |_: usize, part: &mut [Fronted<'_>]|
        ensures { IsPermutation part.entry.now part.exit.now }
    { sort_part(part) };
    for_each_chunk_mut(rt, texts, size, &work);
}

fn sort_part(part: &mut [Fronted<'_>])
    ensures { IsPermutation part.old part.new }
{
    part.sort_unstable();
}
