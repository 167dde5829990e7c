//! The hash of a text.
ghost use Rattle.std.specs.Prelude.{◌≡◌};
ghost use Rattle.lasso_parts.specs.Hashing.{hash_by};

use std::hash::{BuildHasher, Hash, Hasher};

// A text that is hashed as its bytes alone, by one write. Nothing is hashed after it, so nothing has to mark its end.
#[derive(Clone, Copy, PartialEq, Eq)]
struct Whole<'a> {
    text: &'a str,
}

impl Hash for Whole<'_> {
    ghost use Rattle.std.specs.Prelude.{◌∷◌, []};
    ghost use Rattle.lasso_parts.specs.Hashing.{fed_alike};

    ghost hash_input = { λ w. w.text.now ∷ [] };

    ghost respects_eq = { λ x y. fed_alike x.text.now y.text.now };

    fn hash<H: Hasher>(&self, state: &mut H) {
        state.write(self.text.as_bytes());
    }
}

/// The hash that the hasher gives the text. An index takes it in place of the text if the text's hash is
/// needed twice.
#[inline]
pub fn hash_text<S: BuildHasher>(hasher: &S, text: &str) -> u64
    ensures { result ≡ hash_by S.BuildHasher S.Hasher.Hasher hasher.now text.now }
{
    hasher.hash_one(Whole { text })
}
