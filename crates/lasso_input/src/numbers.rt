//! Parses decimal digits.
ghost use Rattle.std.specs.Prelude.{◌≡◌};
ghost use Rattle.lasso_input.specs.Numbers.{digits_value};

/// Parses 1 to 20 digits. `None` for other words, and for numbers that are not below 2^64.
pub fn parse_digits(digits: &[u8]) -> Option<usize>
    ensures { result ≡ digits_value digits.now }
{
    if digits.is_empty() || digits.len() > 20 {
        return None;
    }
    let mut value = 0usize;
    for digit in digits {
        if !digit.is_ascii_digit() {
            return None;
        }
        value = value
            .checked_mul(10)?
            .checked_add(usize::from(*digit - b'0'))?;
    }
    Some(value)
}
