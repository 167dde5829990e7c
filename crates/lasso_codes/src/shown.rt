//! A word of the command line, as a message shows it.
ghost use Rattle.std.specs.Prelude.{Some};
ghost use Rattle.std.specs.Fmt.{WritesOnOk};
ghost use Rattle.lasso_codes.specs.Shown.{shown_letter, shown_text};

use std::fmt;

/// A word that prints with each control character as `\u{1b}`, say: a message changes nothing on a terminal.
#[derive(Clone, Copy)]
pub struct Shown<'a>(pub &'a str);

impl fmt::Display for Shown<'_> {
    ghost output = { λ shown. Some (shown_text shown.0.now) };

    fn fmt<W: fmt::Write>(&self, f: &mut fmt::Formatter<W>) -> fmt::Result {
        for letter in self.0.chars() {
            write_letter(f, letter)?;
        }
        Ok(())
    }
}

// Writes the character, or its number if it is a control character.
fn write_letter<W: fmt::Write>(f: &mut fmt::Formatter<W>, letter: char) -> fmt::Result
    ensures { WritesOnOk W.write_str_gives f.old result (shown_letter letter) f.new }
{
    if !letter.is_control() {
        return f.write_char(letter);
    }
    let code = u32::from(letter);
    write!(f, "\\u{{{code:x}}}")
}
