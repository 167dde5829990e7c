//! Keys as JSON: the numbers that they keep. It is for callers alone: an interner is written as its texts.
ghost use Rattle.std.specs.Prelude.{◌≡◌, ◌+◌, ◌<◌, ◌≤◌, ◌^◌, ◌↔◌, ℕ, IsSome, IsOk, IsOkAnd, Some};
ghost use Rattle.std.proofs.Common.{lit<};
ghost use Rattle.serde_json.specs.Data.{number, unsigned};
ghost use Rattle.serde_json.specs.View.{view};
ghost use Rattle.lasso_parts.specs.Json.{whole_number, key_kept};
ghost use Rattle.lasso_parts.specs.Kept.{kept_range};

use crate::json::JsonError;
use crate::keys::{Key, LargeSpur, MicroSpur, MiniSpur, Spur};
use serde_json::{Number, Value};
use std::alloc::Global;

/// A key type that JSON can hold. A key is written as the number that it keeps: its position plus one,
/// never 0.
pub trait JsonKey: Key {
    // the greatest number that a key of the type keeps
    ghost greatest: { ℕ };

    /// The number that the key keeps. It takes no memory and is never refused.
    ///
    /// ```rust
    /// let first = Spur::try_from_usize(0).ok_or("no key")?;
    /// let value = first.key_to_json(rt.alloc())?;
    /// let kept = value.as_u64().ok_or("no number")?;
    /// assert!(rt; kept == 1);
    /// ```
    final fn key_to_json(self, _alloc: Global) -> Result<Value, JsonError>
        ensures { IsOkAnd result (λ v. view v ≡ number (unsigned (Self.number self + 1))) }
    {
        self.show_value();
        Ok(Value::Number(Number::from(self.into_usize() + 1)))
    }

    /// The key that keeps the number. A value that is no whole number from 1 to the greatest that the
    /// type keeps is `NotAKey`, 0 too.
    ///
    /// ```rust
    /// let first = Spur::try_from_usize(0).ok_or("no key")?;
    /// let value = first.key_to_json(rt.alloc())?;
    /// assert!(rt; Spur::key_from_json(&value) == Ok(first));
    /// let zero = Value::from_str(rt.alloc(), "0")?;
    /// assert!(rt; Spur::key_from_json(&zero) == Err(JsonError::NotAKey));
    /// ```
    final fn key_from_json(value: &Value) -> Result<Self, JsonError>
        ensures read { result ≡ key_kept Self.key_at (whole_number (view value.now)) }
        ensures range { IsOk result ↔ ((n : ℕ) × (whole_number (view value.now) ≡ Some n) × (0 < n) × (n ≤ greatest)) }
    {
        let Some(kept) = value.as_u64() else {
            return Err(JsonError::NotAKey);
        };
        if kept == 0 {
            return Err(JsonError::NotAKey);
        }
        match Self::try_from_usize(kept as usize - 1) {
            Some(key) => Ok(key),
            None => Err(JsonError::NotAKey),
        }
    }

    ghost range: { (greatest < 2 ^ 64) × ((n : ℕ) → IsSome (Self.key_at n) ↔ (n < greatest)) };
}

impl JsonKey for Spur {
    ghost greatest = { 4294967295 };

    ghost range = { (lit< tt, kept_range 4294967295) };
}

impl JsonKey for MiniSpur {
    ghost greatest = { 65535 };

    ghost range = { (lit< tt, kept_range 65535) };
}

impl JsonKey for MicroSpur {
    ghost greatest = { 255 };

    ghost range = { (lit< tt, kept_range 255) };
}

impl JsonKey for LargeSpur {
    ghost greatest = { 18446744073709551615 };

    ghost range = { (lit< tt, kept_range 18446744073709551615) };
}
