//! The list of texts that its owner shows to an index.
ghost use Rattle.std.specs.Prelude.{◌≡◌, ◌<◌, ℕ, List, Some, length, slice_get, map};
ghost use Rattle.lasso_parts.specs.Texts.{Text};

/// A list of texts. An index keeps keys alone, and reads each key's text here, so that one type of
/// index serves every owner of texts.
pub trait Texts {
    // the texts in the order of their positions
    ghost list: { Self → List Text };

    /// The text at the position, counted from 0. The position must be below the list's length.
    fn text_at(&self, position: usize) -> &str
        requires { position < length (list self.now) }
        ensures { slice_get (list self.now) position ≡ Some result.now };
}

impl Texts for &[&str] {
    ghost list = { λ texts. map (λ t. t.now) texts.now };

    #[inline]
    fn text_at(&self, position: usize) -> &str {
        self[position]
    }
}
