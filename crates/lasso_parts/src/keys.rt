//! Keys: small copyable values that stand for positions in a list of texts.
ghost use Rattle.std.specs.Prelude.{◌≡◌, ℕ, ◌<◌, ◌^◌, Option, Some, IsTrue, ◌↔◌};

mod spurs;

pub use spurs::{LargeSpur, MicroSpur, MiniSpur, Spur};

/// A key stands for a position, counted from 0. A key type may lack positions: a list then ends
/// before the first that it lacks.
pub trait Key: Copy + Eq {
    // whether the type makes the key
    ghost is_value: { Self → Type 0 };

    // the position that the key stands for
    ghost number: { Self → ℕ };

    // the key of a position, where the type has one
    ghost key_at: { ℕ → Option Self };

    /// The key's position.
    ///
    /// ```rust
    /// let third = Spur::try_from_usize(2).ok_or("no key")?;
    /// assert!(rt; third.into_usize() == 2);
    /// ```
    fn into_usize(self) -> usize
        ensures { result ≡ number self };

    /// The key of the position, or `None` if the type lacks it.
    ///
    /// ```rust
    /// let last = MicroSpur::try_from_usize(254).ok_or("no key")?;
    /// assert!(rt; last.into_usize() == 254);
    /// assert!(rt; MicroSpur::try_from_usize(255).is_none());
    /// ```
    fn try_from_usize(position: usize) -> Option<Self>
        ensures { result ≡ key_at position };

    /// Does nothing. Contracts learn that the type makes the key.
    fn show_value(self)
        ensures { is_value self };

    ghost made: { (n : ℕ) (k : Self) → key_at n ≡ Some k → (n < 2 ^ 64) × is_value k × (number k ≡ n) };

    ghost made_again: { (k : Self) → is_value k → key_at (number k) ≡ Some k };

    ghost equal: { (a b : Self) → is_value a → is_value b → (IsTrue (Self.eq a b) ↔ (number a ≡ number b)) };
}
