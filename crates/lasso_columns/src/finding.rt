//! Finds the codes that an interner's texts have in another, which is not changed.
ghost use Rattle.std.specs.Prelude.{◌≡◌, Some, IfOk, IfErr};
ghost use Rattle.lasso_single.specs.Codes.{AreCodes};
ghost use Rattle.lasso_columns.specs.Finding.{find_error_text, IsFindError};

use lasso_parts::index::Texts;
use lasso_parts::keys::Spur;
use lasso_single::reader::RodeoReader;
use lasso_single::rodeo::Rodeo;
use std::alloc::{AllocError, Allocator, Global};
use std::error::Error;
use std::fmt;
use std::hash::BuildHasher;

/// Why the codes of texts were not found.
#[derive(Clone, Copy, Debug, PartialEq, Eq, Hash)]
pub enum FindError {
    /// The text with this number is absent. Texts are numbered from 1.
    Absent(usize),
    /// Out of memory for the codes.
    NoMemory,
}

impl fmt::Display for FindError {
    ghost output = { λ error. Some (find_error_text error) };

    fn fmt<W: fmt::Write>(&self, f: &mut fmt::Formatter<W>) -> fmt::Result {
        match self {
            FindError::Absent(number) => write!(f, "text {number} is absent"),
            FindError::NoMemory => f.write_str("Failed to allocate memory"),
        }
    }
}

impl Error for FindError {}

/// Returns the codes that the texts of `from` have in `list`: the number at position n is the code there of the
/// text with code n in `from`. So rewriting codes by them gives codes of `list`, as after `merge`, which would
/// intern absent texts.
///
/// # Errors
/// The first text that `list` does not have, or out of memory.
///
/// ```rust
/// let list = SpurRodeo::from_iter(rt.alloc(), ["red", "green", "blue"])?;
/// let from = SpurRodeo::from_iter(rt.alloc(), ["blue", "green"])?.into_reader();
/// let codes = find_codes(rt.alloc(), &list, &from)?;
/// assert!(rt; codes.as_slice() == [2, 1].as_slice());
/// ```
pub fn find_codes<S: BuildHasher, A: Allocator, T: BuildHasher, B: Allocator>(
    alloc: Global,
    list: &Rodeo<Spur, S, A>,
    from: &RodeoReader<Spur, T, B>,
) -> Result<Vec<u32>, FindError>
    ensures codes { IfOk result (λ codes. AreCodes list.now.texts from.now codes.items) }
    ensures error { IfErr result (IsFindError list.now.texts from.now) }
{
    let mut codes = Vec::new(alloc);
    for position in 0..from.len() {
        let Some(key) = list.get(from.text_at(position)) else {
            return Err(FindError::Absent(position + 1));
        };
        let Ok(()) = codes.push(key.into_position()) else {
            return Err(FindError::NoMemory);
        };
    }
    Ok(codes)
}

/// Returns the codes of the interner's texts in itself: the numbers from 0 up to that of the last text.
///
/// # Errors
/// Out of memory.
///
/// ```rust
/// let list = SpurRodeo::from_iter(rt.alloc(), ["red", "green"])?;
/// assert!(rt; own_codes(rt.alloc(), &list)?.as_slice() == [0, 1].as_slice());
/// ```
pub fn own_codes<S: BuildHasher, A: Allocator>(
    alloc: Global,
    list: &Rodeo<Spur, S, A>,
) -> Result<Vec<u32>, AllocError>
    ensures { IfOk result (λ codes. AreCodes list.now.texts list.now.texts codes.items) }
{
    let mut codes = Vec::new(alloc);
    for position in 0..list.len() {
        codes.push(position as u32)?;
    }
    Ok(codes)
}
