//! The laws of codes and of dictionaries. Each is the contract of a function that does nothing.
ghost use Rattle.lasso_single.specs.Codes.{DecodingGivesTexts, CodesTellTexts, RewritingKeepsTexts};
ghost use Rattle.lasso_columns.specs.Dictionaries.{LayoutsByHand, ReadingUndoesWriting};

/// Decoding gives back the encoded texts, also after more texts were appended to the list.
#[tactic(auto, using(lasso_single::proofs::Coded::decoding_gives_texts_lem))]
pub fn decoding_gives_texts()
    ensures { DecodingGivesTexts }
{}

/// Codes of one interner are equal exactly when their texts are. Examples are the codes of one column, and
/// those of one call of `encode_shared`.
#[tactic(auto, using(lasso_single::proofs::Coded::codes_tell_texts_lem))]
pub fn codes_tell_texts()
    ensures { CodesTellTexts }
{}

/// Codes of one interner, rewritten by the result of `merge`, are the codes of the same texts in the other.
#[tactic(auto, using(lasso_single::proofs::Coded::rewriting_keeps_texts_lem))]
pub fn rewriting_keeps_texts()
    ensures { RewritingKeepsTexts }
{}

/// What `write_dictionary` writes of a list from a position on is a layout without a fault. Its texts,
/// appended to those before the position, are the list again, and each is absent until its turn. So
/// `append_dictionary` to an interner with the texts before the position gives the same list with the same
/// codes, unless the interner refuses a text. So does `read_dictionary` of what was written from 0.
pub fn reading_undoes_writing()
    ensures { ReadingUndoesWriting }
{}

/// Layouts worked out by hand: what is written, what is read from it, and the first fault of wrong layouts.
#[tactic(auto, using(crate::proofs::LayoutLaws::by_hand))]
pub fn layouts_by_hand()
    ensures { LayoutsByHand }
{}
