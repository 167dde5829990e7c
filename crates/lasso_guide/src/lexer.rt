//! A lexer with keywords. It interns the keywords first, so a key below `KEYWORDS.len()` is a keyword's, and
//! any other is a name's.
ghost use Rattle.std.specs.Prelude.{◌≡◌, ◌↔◌, ◌<◌, ◌≤◌, ◌++◌, ℕ, false, true, IfOk, Some, IsTrue};
ghost use Rattle.std.specs.Prelude.{MatchOption, length, option_map, slice_get, slice_index};
ghost use Rattle.lasso.specs.Spurs.{spur_number};
ghost use Rattle.lasso_guide.specs.declared.lexer.Kind.TheVariants.{Space};
ghost use Rattle.lasso_guide.specs.Lexing.{IsCutInto, IsKeyword, IsPiece, IsTokenOf, Keep, kind_of, continues, keywords};

use lasso::{Key, LassoResult, Rodeo, Spur, SpurRodeo};
use std::alloc::Global;

/// The words that are not names.
pub const KEYWORDS: [&str; 4] = ["else", "if", "let", "while"];

/// A token of a source text.
#[derive(Clone, Copy, PartialEq, Debug)]
pub enum Token<'s> {
    /// The key of a keyword or a name: `is_keyword` says which.
    Name(Spur),
    /// Its digits.
    Number(&'s str),
    /// Any other character that is not white space.
    Symbol(&'s str),
}

/// What a piece of a text is, by its first byte.
#[derive(Clone, Copy, PartialEq, Debug)]
enum Kind {
    Letters,
    Digits,
    Mark,
    Space,
}

/// The keywords, and the names that were read so far.
#[derive(Drop)]
pub struct Lexer {
    names: SpurRodeo,
    ghost keywords_first: { Keep keywords names.texts },
}

impl Lexer {
    /// A lexer that has read no name. It fails only if it is out of memory.
    pub fn new(alloc: Global) -> LassoResult<Self>
        ensures { IfOk result (λ lexer. lexer.names.texts ≡ keywords) }
    {
        Ok(Lexer {
            names: Rodeo::from_static(alloc, &KEYWORDS)?,
        })
    }

    /// Whether the key's text is a keyword.
    pub fn is_keyword(&self, key: Spur) -> bool
        ensures { IsTrue result ↔ IsKeyword self.now.names.texts key }
    {
        // contracts learn from `len` that no text comes twice
        let _count = self.names.len();
        key.into_usize() < KEYWORDS.len()
    }

    /// The text of the key, or `None` if this lexer has not read it.
    pub fn name_of(&self, key: Spur) -> Option<&str>
        ensures { option_map (λ name. name.now) result ≡ slice_get self.now.names.texts (spur_number key) }
    {
        self.names.try_resolve(key)
    }

    /// The tokens of the source text. Each key from before keeps its text, also after an error.
    pub fn tokens<'s>(&mut self, alloc: Global, source: &'s str) -> LassoResult<Vec<Token<'s>>>
        ensures cut { IfOk result (λ tokens. IsCutInto self.new.names.texts source.now tokens.items) }
        ensures kept { Keep self.old.names.texts self.new.names.texts }
    {
        let mut tokens = Vec::new(alloc);
        let mut rest = source;
        while !rest.is_empty() {
            let (piece, after) = first_piece(rest);
            if let Some(token) = self.token_of(piece)? {
                tokens.reserve(1)?;
                tokens.push_reserved(token);
            }
            rest = after;
        }
        Ok(tokens)
    }

    // The token of a piece, or `None` for white space.
    fn token_of<'s>(&mut self, piece: &'s str) -> LassoResult<Option<Token<'s>>>
        requires { 0 < length piece.now }
        ensures token { IfOk result (λ found. MatchOption found (kind_of (slice_index piece.now 0) ≡ Space) (IsTokenOf self.new.names.texts piece.now)) }
        ensures kept { Keep self.old.names.texts self.new.names.texts }
    {
        Ok(match kind_of(piece.as_bytes()[0]) {
            Kind::Letters => Some(Token::Name(self.intern(piece)?)),
            Kind::Digits => Some(Token::Number(piece)),
            Kind::Mark => Some(Token::Symbol(piece)),
            Kind::Space => None,
        })
    }

    // The key of a word.
    fn intern(&mut self, word: &str) -> LassoResult<Spur>
        ensures named { IfOk result (λ key. slice_get self.new.names.texts (spur_number key) ≡ Some word.now) }
        ensures kept { Keep self.old.names.texts self.new.names.texts }
    {
        self.names.try_get_or_intern(word)
    }
}

// The piece that the text begins with, and what follows it.
fn first_piece(text: &str) -> (&str, &str)
    requires { 0 < length text.now }
    ensures { IsPiece text.now result.0.now result.1.now }
{
    text.split_at(piece_len(text.as_bytes()))
}

// How many bytes the first piece has.
fn piece_len(bytes: &[u8]) -> usize
    requires { 0 < length bytes.now }
    ensures within { (0 < result) × (result ≤ length bytes.now) }
    ensures inside { (i : ℕ) → 0 < i → i < result → continues (kind_of (slice_index bytes.now 0)) (slice_index bytes.now i) ≡ true }
    ensures stops { result < length bytes.now → continues (kind_of (slice_index bytes.now 0)) (slice_index bytes.now result) ≡ false }
{
    let kind = kind_of(bytes[0]);
    let mut len = 1;
    while len < bytes.len() && continues(kind, bytes[len]) {
        len += 1;
    }
    len
}

// The kind of a piece that begins with the byte. The bytes past ASCII are letters.
fn kind_of(byte: u8) -> Kind
    ensures { result ≡ kind_of byte }
{
    if byte.is_ascii_digit() {
        Kind::Digits
    } else if byte.is_ascii_whitespace() {
        Kind::Space
    } else if byte.is_ascii_alphabetic() || byte == b'_' || byte >= 0x80 {
        Kind::Letters
    } else {
        Kind::Mark
    }
}

// Whether a piece of this kind goes on with the byte.
fn continues(kind: Kind, byte: u8) -> bool
    ensures { result ≡ continues kind byte }
{
    match kind {
        Kind::Letters => matches!(kind_of(byte), Kind::Letters | Kind::Digits),
        Kind::Digits => kind_of(byte) == Kind::Digits,
        Kind::Space => kind_of(byte) == Kind::Space,
        Kind::Mark => false,
    }
}
