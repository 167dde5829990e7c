//! Interns lines, and says how far a stretch of them is taken.
ghost use Rattle.std.specs.Prelude.{◌≡◌, ◌-◌, ◌≤◌, false, IfErr, MatchResult, drop, length};
ghost use Rattle.hex.specs.Hex.{IsBytes};
ghost use Rattle.lasso_input.specs.Texts.{is_own_text, text_of};
ghost use Rattle.lasso_codes.specs.Limits.{InternsOrFinds, IsLetIn, IsLineFault, IsNotLetIn, LacksMemory};

use lasso_columns::LineError;
use lasso_input::{Line, Stretch, escape_in, is_let_in, own_text};
use lasso_parts::hasher::TextState;
use lasso_parts::keys::Spur;
use lasso_parts::util::{LassoError, LassoErrorKind};
use lasso_single::batch::{Batch, intern_next};
use lasso_single::rodeo::Rodeo;
use std::alloc::{Allocator, Global};
use std::hash::BuildHasher;

/// How lines get their texts.
#[derive(Clone, Copy)]
pub struct TextRule {
    /// Makes the texts of lines that are not their own texts.
    pub alloc: Global,
    /// Whether a line that is not UTF-8 is refused.
    pub only_utf8: bool,
    /// The seed by which interners hash.
    pub hasher: TextState,
}

/// What is kept from line to line.
#[derive(Drop)]
pub struct Walk {
    /// The batch of texts that are looked up.
    pub batch: Batch,
    /// A buffer for the text of a line that is not its own text.
    pub text: Vec<u8>,
}

impl Walk {
    /// Before the first line.
    pub fn new(alloc: Global) -> Self {
        Walk {
            batch: Batch::new(),
            text: Vec::new(alloc),
        }
    }
}

/// The text of any line with this number. It is the line, or is made in `buffer`.
///
/// # Errors
/// The line is not UTF-8, and only UTF-8 is let in; or memory ran out for the text of a line that is not its own
/// text.
#[inline(always)]
pub fn text_in<'a>(
    rule: TextRule,
    buffer: &'a mut Vec<u8>,
    line: &'a Line<'_>,
    number: usize,
) -> Result<&'a str, LineError>
    ensures { MatchResult result
        (λ text. IsLetIn rule.only_utf8 line.now × (text.now ≡ text_of line.now))
        (IsNotLetIn rule.only_utf8 line.now number) }
{
    let bytes = line.bytes();
    known_bytes(bytes);
    match line.plain_text() {
        Some(text) => Ok(text),
        None => any_text_in(rule, buffer, line, number),
    }
}

// The text of a line that may not be its own text. Out of line, so that the text of a plain one stays in registers.
#[inline(never)]
fn any_text_in<'a>(
    rule: TextRule,
    buffer: &'a mut Vec<u8>,
    line: &'a Line<'_>,
    number: usize,
) -> Result<&'a str, LineError>
    ensures { MatchResult result
        (λ text. IsLetIn rule.only_utf8 line.now × (text.now ≡ text_of line.now))
        (IsNotLetIn rule.only_utf8 line.now number) }
{
    let bytes = line.bytes();
    known_bytes(bytes);
    match own_text(line) {
        Some(text) => Ok(text),
        None => made_text(rule, buffer, line, number),
    }
}

// The text of a line that is not its own text, if the rule lets it in.
#[inline(always)]
fn made_text<'a>(
    rule: TextRule,
    buffer: &'a mut Vec<u8>,
    line: &Line<'_>,
    number: usize,
) -> Result<&'a str, LineError>
    requires bytes { IsBytes line.now }
    requires other { is_own_text line.now ≡ false }
    ensures { MatchResult result
        (λ text. IsLetIn rule.only_utf8 line.now × (text.now ≡ text_of line.now))
        (IsNotLetIn rule.only_utf8 line.now number) }
{
    if !is_let_in(line, rule.only_utf8) {
        return Err(LineError::NotText(number));
    }
    match escape_in(buffer, line.bytes()) {
        Ok(text) => Ok(text),
        Err(_) => {
            let error = LassoError::new(LassoErrorKind::FailedAllocation);
            Err(LineError::Refused(number, error))
        }
    }
}

/// Bytes are numbers below 256. It does nothing: proofs cite its contract.
#[inline(always)]
pub fn known_bytes(bytes: &[u8])
    ensures { IsBytes bytes.now }
{
    let _ = bytes;
}

/// Interns the text of the line with this number, the next one of the walk, and returns whether it is new.
///
/// # Errors
/// The line is not let in, or its text is refused. The interner is as it was. Out of memory occurs only for a
/// text that the interner lacks and would take, or for a line that is not its own text.
pub fn intern_line<S: BuildHasher, A: Allocator + Clone>(
    rule: TextRule,
    rodeo: &mut Rodeo<Spur, S, A>,
    walk: &mut Walk,
    line: &Line<'_>,
    number: usize,
) -> Result<bool, LineError>
    ensures interned { MatchResult result
        (InternsOrFinds rule.only_utf8 rodeo.old line.now rodeo.new)
        (λ error. (rodeo.new ≡ rodeo.old) × IsLineFault rule.only_utf8 rodeo.old line.now number error) }
    ensures memory { IfErr result (LacksMemory rodeo.old line.now) }
{
    let text = text_in(rule, &mut walk.text, line, number)?;
    let count = rodeo.len();
    match intern_next(rodeo, text, &mut walk.batch) {
        Ok(_) => Ok(rodeo.len() > count),
        Err(error) => Err(LineError::Refused(number, error)),
    }
}

/// How many bytes of the stretch are taken, if these are the lines that are left of it.
pub fn taken(stretch: &[u8], lines: &Stretch<'_>) -> usize
    requires { (length lines.now ≤ length stretch.now) × (lines.now ≡ drop (length stretch.now - length lines.now) stretch.now) }
    ensures within { result ≤ length stretch.now }
    ensures left { drop result stretch.now ≡ lines.now }
{
    stretch.len() - lines.rest().len()
}
