//! Lists of texts, texts that are never freed, texts that have one hash under the fixed seed, and pseudorandom
//! numbers.
ghost use Rattle.std.specs.Prelude.{◌<◌};

use std::alloc::{AllocError, Allocator, Global};
use std::slice::Iter;
use std::test::Fail;

/// The text as a static one. It is never freed.
pub fn leaked(text: String) -> Result<&'static str, Fail> {
    let bytes: &'static [u8] = text.into_bytes().leak();
    Ok(std::str::from_utf8(bytes).ok().ok_or("no text")?)
}

/// The texts of the letter and each number below `count`, from 0 on.
pub fn lettered(alloc: Global, letter: &str, count: u32) -> Result<Vec<String>, AllocError> {
    let mut texts = Vec::new(alloc);
    for number in 0..count {
        texts.push(format!(in alloc; "{letter}{number}")?)?;
    }
    Ok(texts)
}

/// The first `count` texts of five digits, from `00000` on. The list and the texts own memory of the allocator.
pub fn numbered<A: Allocator + Copy>(
    alloc: A,
    count: usize,
) -> Result<Vec<String<A>, A>, AllocError> {
    let mut texts = Vec::new(alloc);
    for number in 0..count {
        texts.push(format!(in alloc; "{number:05}")?)?;
    }
    Ok(texts)
}

/// Whether the next item is the text at this index.
pub fn is_next(items: &mut Iter<'_, String>, texts: &[String], index: usize) -> bool {
    match (items.next(), texts.get(index)) {
        (Some(next), Some(wanted)) => next.as_str() == wanted.as_str(),
        _ => false,
    }
}

// Texts that have one hash under the fixed seed.

// The hasher multiplies 16 bytes at a time, and carries the result over by xor with the next 8 bytes. For a text of 32
// bytes, the first 16 of these give a result under the fixed seed that is equal to the last 8 of these. So the second product has
// a factor 0, whatever 8 bytes follow. The letters were tried at random until the result was of letters and digits too.
const COLLIDES: &str = "ojzwhcinehxilittzUxcXGS6";

/// Different texts of 32 bytes, `count` of them, that have one hash under the fixed seed. They show what a keyed hasher is for.
pub fn colliding(alloc: Global, count: u32) -> Result<Vec<String>, AllocError> {
    let mut texts = Vec::new(alloc);
    for number in 0..count {
        texts.push(format!(in alloc; "{COLLIDES}{number:08}")?)?;
    }
    Ok(texts)
}

/// Different texts of 32 bytes, `count` of them, that are not known to collide under any seed.
pub fn not_colliding(alloc: Global, count: u32) -> Result<Vec<String>, AllocError> {
    let mut texts = Vec::new(alloc);
    for number in 0..count {
        texts.push(format!(in alloc; "{number:08}{COLLIDES}")?)?;
    }
    Ok(texts)
}

// Pseudorandom numbers.

/// A generator of pseudorandom numbers. From the same seed it draws the same numbers.
#[derive(Clone, Copy, Debug)]
pub struct Draws {
    state: u64,
}

impl Draws {
    /// A generator that starts from the seed.
    pub fn new(seed: u64) -> Self {
        Draws {
            state: seed.wrapping_mul(0x9e37_79b9_7f4a_7c15),
        }
    }

    /// Draws a number below `count`, or 0 if `count` is 0.
    pub fn below(&mut self, count: usize) -> usize
        ensures { 0 < count → result < count }
    {
        self.state = self
            .state
            .wrapping_mul(6_364_136_223_846_793_005)
            .wrapping_add(1_442_695_040_888_963_407);
        (self.state >> 33) as usize % count.max(1)
    }
}
