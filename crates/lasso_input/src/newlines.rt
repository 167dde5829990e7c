//! Line feeds in bytes, and the first line.
ghost use Rattle.std.specs.Prelude.{◌≡◌, ◌+◌, ◌<◌, ◌∷◌, [], MatchOption, IfSome, drop, length};
ghost use Rattle.memchr.specs.Find.{IsFirstByte, is_byte};
ghost use Rattle.lasso_input.specs.Lines.{IsFirstLine, lines_of};

use memchr::memchr_iter;

/// The position of the first line feed, or `None` without one. It is mostly near, and this search looks there
/// first.
///
/// ```rust
/// assert!(rt; find_newline(b"to be\nor not\n") == Some(5));
/// assert!(rt; find_newline(b"to be") == None);
/// ```
#[inline]
pub fn find_newline(bytes: &[u8]) -> Option<usize>
    ensures { IsFirstByte (is_byte 10) bytes.now result }
{
    memchr_iter(b'\n', bytes).next()
}

/// The bytes after the one at this position.
///
/// ```rust
/// assert!(rt; after_newline(b"to be\nor not\n", 5) == b"or not\n".as_slice());
/// ```
#[inline]
pub fn after_newline(bytes: &[u8], at: usize) -> &[u8]
    requires { at < length bytes.now }
    ensures value { result.now ≡ drop (at + 1) bytes.now }
    ensures less { length result.now < length bytes.now }
{
    &bytes[at + 1..]
}

/// The first line, without the line feed that ends it, and the bytes after it; or `None` if there are no
/// bytes. Bytes without a line feed are a line.
///
/// ```rust
/// let (line, rest) = first_line(b"to be\nor not\n").ok_or("no line")?;
/// assert!(rt; line == b"to be".as_slice());
/// assert!(rt; rest == b"or not\n".as_slice());
/// ```
#[inline]
pub fn first_line(bytes: &[u8]) -> Option<(&[u8], &[u8])>
    ensures lines { MatchOption result (bytes.now ≡ []) (λ cut. lines_of bytes.now ≡ cut.0.now ∷ lines_of cut.1.now) }
    ensures rest { IfSome result (λ cut. IsFirstLine bytes.now cut.0.now cut.1.now) }
    ensures less { IfSome result (λ cut. length cut.1.now < length bytes.now) }
{
    if bytes.is_empty() {
        return None;
    }
    match find_newline(bytes) {
        Some(at) => Some((&bytes[..at], after_newline(bytes, at))),
        None => Some((bytes, &[])),
    }
}
