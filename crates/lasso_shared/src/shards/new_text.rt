//! A text to intern, by how it is kept.
ghost use Rattle.std.specs.Prelude.{◌≡◌};
ghost use Rattle.lasso_shared.specs.NewTexts.{text_of};

/// A text to intern.
#[derive(Clone, Copy)]
pub enum NewText<'a> {
    /// It is kept where it is.
    Static(&'static str),
    /// Its bytes are copied into a bucket.
    Copied(&'a str),
}

impl<'a> NewText<'a> {
    /// The text.
    #[inline(always)]
    pub(super) fn as_str(self) -> &'a str
        ensures { result.now ≡ text_of self.entry }
    {
        match self {
            NewText::Static(text) => text,
            NewText::Copied(text) => text,
        }
    }
}
