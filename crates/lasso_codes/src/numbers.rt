//! Parses numbers.
ghost use Rattle.std.specs.Prelude.{◌≡◌, ◌-◌, length, slice_get};
ghost use Rattle.lasso_codes.specs.Arguments.{number_of, unit_of};

use lasso_input::parse_digits;

/// Parses 1 to 20 digits, and after them nothing, `K`, `M` or `G`, which multiply by 1024, its square and its
/// cube. `None` for other words, and for numbers that are not below 2^64.
pub fn parse_number(word: &[u8]) -> Option<usize>
    ensures { result ≡ number_of word.now }
{
    let unit = unit_of(word);
    let digits = if unit == 1 {
        word
    } else {
        &word[..word.len() - 1]
    };
    parse_digits(digits)?.checked_mul(unit)
}

// The factor that the last byte stands for; 1 if it is no unit.
fn unit_of(word: &[u8]) -> usize
    ensures { result ≡ unit_of (slice_get word.now (length word.now - 1)) }
{
    match word.last() {
        Some(b'K') => 1024,
        Some(b'M') => 1024 * 1024,
        Some(b'G') => 1024 * 1024 * 1024,
        _ => 1,
    }
}
