//! Laws of lines' texts. Each law is the contract of a function that does nothing.
ghost use Rattle.lasso_input.specs.Texts.{EqualTextsHaveEqualLines, TextsAreUtf8, TextsGiveLines};

/// The line of a line's text is the line.
#[tactic(auto, using(crate::proofs::LineTexts::text_gives_line))]
pub fn texts_give_lines()
    ensures { TextsGiveLines }
{}

/// Lines that have one text are equal.
#[tactic(auto, using(crate::proofs::LineTexts::equal_texts))]
pub fn equal_texts_have_equal_lines()
    ensures { EqualTextsHaveEqualLines }
{}

/// The text of a line is UTF-8.
#[tactic(auto, using(crate::proofs::LineTexts::text_is_utf8))]
pub fn texts_are_utf8()
    ensures { TextsAreUtf8 }
{}
