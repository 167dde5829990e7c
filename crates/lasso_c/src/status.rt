//! How a call from C ended, as a number. `include/lasso.h` has the same names, with `LASSO_` before them.

/// The call was done.
pub const DONE: u32 = 0;
/// An offset is below the one before it.
pub const OFFSETS_FALL: u32 = 1;
/// An offset is past the bytes.
pub const OFFSET_PAST_BYTES: u32 = 2;
/// A text is not UTF-8.
pub const NOT_UTF8: u32 = 3;
/// The dictionary has no text for a code.
pub const NO_SUCH_CODE: u32 = 4;
/// The texts have more bytes than offsets can tell.
pub const TOO_MANY_BYTES: u32 = 5;
/// There is no room for the codes.
pub const CODES_TOO_SHORT: u32 = 6;
/// There is no room for the offsets.
pub const OFFSETS_TOO_SHORT: u32 = 7;
/// There is no room for the bytes.
pub const BYTES_TOO_SHORT: u32 = 8;
/// Out of memory.
pub const NO_MEMORY: u32 = 9;
/// The interner's limit leaves no room for a text.
pub const LIMIT_REACHED: u32 = 10;
/// The interner has a text for each code.
pub const NO_CODE_LEFT: u32 = 11;
/// The handle holds no interner.
pub const NO_INTERNER: u32 = 12;
/// The interner does not have the text.
pub const NO_SUCH_TEXT: u32 = 13;
/// A bitmap has no bit for a row.
pub const BITMAP_TOO_SHORT: u32 = 14;
/// Another thread is inside a step of the interner that handles share: try again.
pub const BUSY: u32 = 15;
/// The interner has other handles.
pub const OTHER_HANDLES: u32 = 16;
/// The interner is frozen.
pub const FROZEN: u32 = 17;
