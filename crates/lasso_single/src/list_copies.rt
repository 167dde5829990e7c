//! Copying a list of texts, one after another, to the end of an empty list.
ghost use Rattle.std.specs.Prelude.{◌≡◌, ◌+◌, ℕ, List, [], Some, OnOk, IfErr, length, take, slice_get};
ghost use Rattle.lasso_parts.specs.Texts.{Text};
ghost use Rattle.lasso_single.specs.Copies.{bytes_of, store_all, CopiesOne, StopsCopying};
ghost use Rattle.lasso_single.specs.Interner.{InternerView, KeepsOrigin};

use lasso_parts::index::Texts;
use lasso_parts::util::LassoResult;

/// What texts are copied to the end of.
pub(crate) trait CopyTarget {
    // its texts and its memory
    ghost holds: { Self → InternerView };

    // whether a text may go after the texts
    ghost takes: { List Text → Text → Type 0 };

    /// Copies the text to the end of the list. It fails if the limit has no room for its bytes, or when out
    /// of memory, and nothing changes then.
    fn copy_text(&mut self, text: &str) -> LassoResult<()>
        requires { takes (holds self.old).texts text.now }
        ensures { CopiesOne (holds self.old) text.now result (holds self.new) };
}

/// Copies each text to the end of the list, which must be empty, up to the first refusal. There must be `len`
/// texts, each of which the list takes after those before it.
pub(crate) fn copy_all<C: CopyTarget, T: Texts>(
    target: &mut C,
    texts: &T,
    len: usize,
) -> LassoResult<()>
    requires counted { len ≡ length (T.list texts.now) }
    requires empty { (C.holds target.old).texts ≡ [] }
    requires taken { (i : ℕ) (text : Text) → slice_get (T.list texts.now) i ≡ Some text → C.takes (take i (T.list texts.now)) text }
    ensures texts { OnOk result ((C.holds target.new).texts ≡ T.list texts.now) }
    ensures account { OnOk result (store_all (C.holds target.old).first (C.holds target.old).account (T.list texts.now) ≡ Some (C.holds target.new).account) }
    ensures copied { OnOk result ((C.holds target.new).copied ≡ (C.holds target.old).copied + bytes_of (T.list texts.now)) }
    ensures origin { KeepsOrigin (C.holds target.old) (C.holds target.new) }
    ensures stopped { IfErr result (λ error. StopsCopying (C.holds target.old) (T.list texts.now) error (C.holds target.new)) }
{
    for position in 0..len {
        target.copy_text(texts.text_at(position))?;
    }
    Ok(())
}
