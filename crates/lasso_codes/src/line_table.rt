//! The lines of an interner's texts.
//!
//! Most texts are their own lines. If all are, the table is the interner. If not, each other line is read back once,
//! into one buffer.
ghost use Rattle.std.specs.Prelude.{◌≡◌, ◌<◌, ◌≤◌, ◌++◌, [], true, Some, IfOk, IfErr, IfSome, OnOk, flat_map, length, map, slice_get};
ghost use Rattle.lasso_columns.specs.declared.faults.LineError.TheVariants.{Refused};
ghost use Rattle.lasso_codes.specs.Tables.{AreTableLines, bounds_of, kept_line};
ghost use Rattle.lasso_input.specs.Texts.{line_of};
ghost use Rattle.lasso_parts.specs.declared.util.LassoErrorKind.TheVariants.{FailedAllocation};

use crate::error::RunError;
use lasso_columns::SpurRodeo;
use lasso_input::{append_line, is_marked};
use lasso_parts::index::Texts;
use std::alloc::{AllocError, Global};
use std::marker::Model;

/// The lines of an interner's texts, in the order of the texts. Contracts see the list of the lines.
#[derive(Drop)]
pub struct LineTable<'a> {
    rodeo: &'a SpurRodeo,
    // the lines that are not their own texts, one after another
    others: Vec<u8>,
    // where the line of each text begins in `others`, and where the last one ends; a text that is its own line has no
    // bytes there. None at all if all texts are their own lines
    bounds: Vec<usize>,
}

impl<'a> Model for LineTable<'a> {
    ghost use Rattle.std.specs.Prelude.{ℕ, List, map};
    ghost use Rattle.lasso_input.specs.Texts.{line_of};
    ghost use Rattle.lasso_codes.specs.Tables.{AreTableLines};

    ghost Value = { List (List ℕ) };

    ghost view = { λ t. map line_of t.rodeo.now.texts };

    ghost invariant = { λ t. AreTableLines t.others.items t.bounds.items t.rodeo.now.texts };
}

impl<'a> LineTable<'a> {
    /// Reads the lines back.
    ///
    /// # Errors
    /// Out of memory, with the line number 0.
    pub fn new(alloc: Global, rodeo: &'a SpurRodeo) -> Result<Self, RunError>
        ensures lines { IfOk result (λ table. table ≡ map line_of rodeo.now.texts) }
        ensures refused { IfErr result (λ error. error ≡ RunError.Line (Refused 0 FailedAllocation)) }
    {
        let mut others = Vec::new(alloc);
        let mut bounds = Vec::new(alloc);
        if !are_own_lines(rodeo) {
            let Ok(()) = read_back(rodeo, &mut others, &mut bounds) else {
                return Err(RunError::no_memory(0));
            };
        }
        Ok(LineTable {
            rodeo,
            others,
            bounds,
        })
    }

    /// The interner, if all its texts are their own lines.
    pub fn own(&self) -> Option<&'a SpurRodeo>
        ensures { IfSome result (λ rodeo. rodeo.now.texts ≡ self.now) }
    {
        if self.bounds.is_empty() {
            Some(self.rodeo)
        } else {
            None
        }
    }

    /// The number of lines.
    pub fn len(&self) -> usize
        ensures { result ≡ length self.now }
    {
        self.rodeo.len()
    }

    /// The line at the position, counted from 0. The position must be below the number of lines.
    #[inline(always)]
    pub fn at(&self, position: usize) -> &[u8]
        requires { position < length self.now }
        ensures { slice_get self.now position ≡ Some result.now }
    {
        if self.bounds.is_empty() {
            return self.rodeo.text_at(position).as_bytes();
        }
        line_at(self.rodeo, &self.others, &self.bounds, position)
    }
}

// The line at the position, in a table that keeps lines. Out of line, so that the caller's code for lines that are
// their own texts stays short.
#[inline(never)]
fn line_at<'t>(
    rodeo: &'t SpurRodeo,
    others: &'t [u8],
    bounds: &[usize],
    position: usize,
) -> &'t [u8]
    requires others { others.now ≡ flat_map kept_line rodeo.now.texts }
    requires bounds { bounds.now ≡ bounds_of 0 (map kept_line rodeo.now.texts) }
    requires inside { position < length rodeo.now.texts }
    ensures { slice_get (map line_of rodeo.now.texts) position ≡ Some result.now }
{
    let kept = &others[bounds[position]..bounds[position + 1]];
    if !kept.is_empty() {
        return kept;
    }
    // The text is its own line, or its line is empty.
    let text = rodeo.text_at(position).as_bytes();
    if is_marked(text) { kept } else { text }
}

// Appends the lines that are not their own texts to `others`, and the bounds of the lines to `bounds`.
fn read_back(
    rodeo: &SpurRodeo,
    others: &mut Vec<u8>,
    bounds: &mut Vec<usize>,
) -> Result<(), AllocError>
    requires no_others { others.old.items ≡ [] }
    requires no_bounds { bounds.old.items ≡ [] }
    ensures { OnOk result (AreTableLines others.new.items bounds.new.items rodeo.now.texts) }
{
    bounds.push(0)?;
    for position in 0..rodeo.len() {
        keep_line(rodeo.text_at(position), others)?;
        bounds.push(others.len())?;
    }
    Ok(())
}

// Appends the line of the text, if it is not the text.
#[inline(always)]
fn keep_line(text: &str, others: &mut Vec<u8>) -> Result<(), AllocError>
    ensures { OnOk result (others.new.items ≡ others.old.items ++ kept_line text.now) }
{
    if is_marked(text.as_bytes()) {
        return append_line(others, text);
    }
    Ok(())
}

// Whether each text is its own line.
fn are_own_lines(rodeo: &SpurRodeo) -> bool
    ensures { result ≡ true → map line_of rodeo.now.texts ≡ rodeo.now.texts }
{
    for position in 0..rodeo.len() {
        if is_marked(rodeo.text_at(position).as_bytes()) {
            return false;
        }
    }
    true
}
