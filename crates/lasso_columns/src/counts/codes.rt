//! Counts texts by their codes.
ghost use Rattle.std.specs.Prelude.{◌≡◌, ◌+◌, ◌-◌, ◌^◌, ◌<◌, length, sum};
ghost use Rattle.lasso_columns.specs.Adding.{CountsCodes};
ghost use Rattle.lasso_columns.specs.Counts.{raised, raised_by};

/// Adds one to the count of each code. A code without a count is passed over.
///
/// The sum of the counts plus the number of codes must be below 2^64.
///
/// ```rust
/// let mut counts = Vec::new(rt.alloc());
/// counts.resize(2, 0)?;
/// count_codes(&[0, 1, 0], &mut counts);
/// assert!(rt; counts.as_slice() == [2, 1].as_slice());
/// ```
pub fn count_codes(codes: &[u32], counts: &mut Vec<u64>)
    requires { sum counts.old.items + length codes.now < 2 ^ 64 }
    ensures counts { CountsCodes codes.now counts.old.items counts.new.items }
    ensures each { counts.new.items ≡ raised_by counts.old.items codes.now }
    ensures len { length counts.new.items ≡ length counts.old.items }
{
    for position in 0..codes.len() {
        count_code(counts, codes[position] as usize);
    }
}

// Adds one to the count of the code, if it has one.
#[inline]
fn count_code(counts: &mut Vec<u64>, code: usize)
    requires { sum counts.old.items < 2 ^ 64 - 1 }
    ensures { counts.new.items ≡ raised counts.old.items code }
{
    if code < counts.len() {
        counts[code] += 1;
    }
}
