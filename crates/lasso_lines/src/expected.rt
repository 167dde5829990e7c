//! An estimate of the number of texts of an input.
//!
//! An interner with room for them does not grow, and workers that share it wait while it grows. A wrong estimate only
//! costs time or memory: no contract says anything of it.
use crate::answers::LineRodeo;
use lasso_input::Stretch;
use lasso_parts::hasher::TextState;
use lasso_single::rodeo::Rodeo;
use memchr::memchr_iter;
use std::alloc::Global;

// Lines of the first bytes, this many, are interned to see how many texts come again.
const FIRST_BYTES: usize = 65_536;

// Line feeds are counted in this number of places, and in this number of bytes of each.
const PLACES: usize = 16;

const PLACE_BYTES: usize = 4096;

// With several workers, there is room for a text in each eighth line at least: the first lines don't show how many
// rare texts follow.
const LINES_OF_A_TEXT: usize = 8;

/// Estimates how many texts the lines of the input have. 0 for an input of at most `FIRST_BYTES` bytes, or out of
/// memory. `hasher` hashes them.
pub(crate) fn expected_texts(
    alloc: Global,
    input: &[u8],
    workers: usize,
    hasher: TextState,
) -> usize {
    if input.len() <= FIRST_BYTES {
        return 0;
    }
    let Ok(mut rodeo) = Rodeo::with_hasher(alloc, hasher) else {
        return 0;
    };
    let end = input.len().min(FIRST_BYTES);
    let count = intern_first(&mut rodeo, Stretch::new(&input[..end]));
    let lines = expected_lines(input);
    let texts = texts_of(lines, count, count.saturating_sub(rodeo.len()));
    if workers > 1 {
        texts.max(lines / LINES_OF_A_TEXT)
    } else {
        texts
    }
}

// Estimates how many lines the input has, by the line feeds in some places of it.
fn expected_lines(input: &[u8]) -> usize {
    let mut at = 0usize;
    let mut feeds = 0usize;
    for _ in 0..PLACES {
        feeds = feeds.saturating_add(feeds_near(input, at));
        at = at.saturating_add(input.len() / PLACES);
    }
    input.len().saturating_mul(feeds) / (PLACES * PLACE_BYTES)
}

// The number of line feeds in the `PLACE_BYTES` bytes from the position on.
fn feeds_near(input: &[u8], at: usize) -> usize {
    let rest = &input[at.min(input.len())..];
    let end = rest.len().min(PLACE_BYTES);
    memchr_iter(b'\n', &rest[..end]).count()
}

// Interns lines, up to the first that is not UTF-8 or is refused, and returns their number.
fn intern_first(rodeo: &mut LineRodeo, lines: Stretch<'_>) -> usize {
    let mut lines = lines;
    for count in 0..FIRST_BYTES {
        let Some(line) = lines.next_ended() else {
            return count;
        };
        let Ok(text) = line.text() else {
            return count;
        };
        if rodeo.try_get_or_intern(text).is_err() {
            return count;
        }
    }
    FIRST_BYTES
}

// Estimates how many texts `lines` lines have, if of the first `count` lines `repeats` had the text of a line before
// them. With t texts of equal frequency, one pair of lines in t has equal texts, and there are about count^2 / 2
// pairs: so about count^2 / 2t lines repeat a text.
fn texts_of(lines: usize, count: usize, repeats: usize) -> usize {
    let pairs = count.saturating_mul(count);
    match pairs.checked_div(repeats.saturating_mul(2)) {
        Some(texts) => texts.min(lines),
        None => lines,
    }
}
