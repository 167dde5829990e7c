//! Writes the distinct lines in the order of their bytes.
ghost use Rattle.std.specs.Prelude.{◌≡◌, ◌+◌, ◌++◌, ◌∷◌, [], true, false, ◌↔◌, ◌<◌, ℕ, Some, OnOk, IfOk, IfErr};
ghost use Rattle.std.specs.Prelude.{Err, All, Contains, length, map, slice_index_or, vec_len, if◌then◌else◌};
ghost use mathlib.Core.List.{IsPrefix};
ghost use Rattle.lasso_log.specs.Views.{PassView, InternerId, list_of};
ghost use Rattle.lasso_lines.specs.Stream.{OnlyGrows, Writes};
ghost use Rattle.lasso_lines.specs.Answer.{IsEndFault, OnWriteFailed, WritesAll, failed_writes};
ghost use Rattle.lasso_lines.specs.Fronts.{IsFronted};
ghost use Rattle.lasso_lines.specs.Ordered.{told, AreNamed, WritesNamed, BeginsNamed};
ghost use Rattle.lasso_lines.specs.declared.fault.RunFault.TheVariants.{WriteFailed};

use crate::answers::write_line;
use crate::engine::flush_all;
use crate::fault::RunFault;
use crate::sorting::{Fronted, front_of, sort};
use crate::stream::ByteWriter;
use lasso_log::log::Pass;
use lasso_parts::keys::Spur;
use lasso_shared::threaded::SpurThreadedRodeo;
use std::alloc::{AllocError, Global};
use std::thread::Threads;

// Writes the texts at these positions of the interner's list, each once, in the order of their bytes, each
// followed by a line feed. Sorts them with `threads` threads. Out of memory is reported as line 0, and
// nothing is written then.
pub(crate) fn write_in_order<R: AllocGlobal + Threads + Sync, O: ByteWriter>(
    rt: &R,
    rodeo: &SpurThreadedRodeo,
    pass: &mut Pass<Spur>,
    codes: &[u32],
    threads: usize,
    writer: &mut O,
) -> Result<(), RunFault>
    requires { pass.old.of ≡ rodeo.now }
    ensures writes { O.failures writer.new ≡ O.failures writer.old + failed_writes result }
    ensures delivered { OnlyGrows (O.delivered writer.old) (O.delivered writer.new) }
    ensures all { OnOk result (O.pending writer.new ≡ Some []) }
    ensures refused { IfErr result (λ fault. ¬ (fault ≡ WriteFailed) → writer.new ≡ writer.old) }
    ensures faults { IfErr result IsEndFault }
    ensures grows { IsPrefix (list_of rodeo.now pass.old.notes) (list_of rodeo.now pass.new.notes) }
    ensures texts { OnOk result (Writes O.delivered O.pending writer.old writer.new (WritesNamed (list_of rodeo.now pass.new.notes) codes.now)) }
    ensures begins { OnWriteFailed result (Writes O.delivered O.pending writer.old writer.new (BeginsNamed (list_of rodeo.now pass.new.notes) codes.now)) }
{
    let mut texts = collect(rt, rodeo, pass, codes)?;
    sort(rt, &mut texts, threads);
    write_texts(writer, &texts)?;
    flush_all(writer)
}

// The texts at these positions of the interner's list, each once, each with its front.
fn collect<'a, R: AllocGlobal>(
    rt: &R,
    rodeo: &'a SpurThreadedRodeo,
    pass: &mut Pass<Spur>,
    codes: &[u32],
) -> Result<Vec<Fronted<'a>>, RunFault>
    requires { pass.old.of ≡ rodeo.now }
    ensures faults { IfErr result IsEndFault }
    ensures no_write { IfErr result (λ fault. ¬ (fault ≡ WriteFailed)) }
    ensures grows { IsPrefix (list_of rodeo.now pass.old.notes) (list_of rodeo.now pass.new.notes) }
    ensures texts { IfOk result (λ texts. AreNamed (list_of rodeo.now pass.new.notes) codes.now (map (λ p. p.1.now) texts.items)) }
    ensures fronts { IfOk result (λ texts. All IsFronted texts.items) }
{
    let mut strings = rodeo.strings_as(pass);
    let Ok(marks) = marks_of(rt.alloc(), codes, strings.len()) else {
        return Err(RunFault::no_memory(0));
    };
    let mut texts = Vec::new(rt.alloc());
    for is_marked in &marks {
        let Some(text) = strings.next() else {
            return Ok(texts);
        };
        take_marked(&mut texts, text, *is_marked)?;
    }
    Ok(texts)
}

// Appends the text and its front if it is marked.
fn take_marked<'a>(
    texts: &mut Vec<Fronted<'a>>,
    text: &'a str,
    is_marked: bool,
) -> Result<(), RunFault>
    ensures faults { IfErr result IsEndFault }
    ensures no_write { IfErr result (λ fault. ¬ (fault ≡ WriteFailed)) }
    ensures texts { OnOk result (map (λ p. p.1.now) texts.new.items ≡ map (λ p. p.1.now) texts.old.items ++ (if is_marked then text.now ∷ [] else [])) }
    ensures fronts { All IsFronted texts.old.items → OnOk result (All IsFronted texts.new.items) }
{
    if !is_marked {
        return Ok(());
    }
    match texts.push((front_of(text), text)) {
        Ok(()) => Ok(()),
        Err(_) => Err(RunFault::no_memory(0)),
    }
}

// A list of `len` marks, set at these positions. Positions past its end are ignored.
fn marks_of(alloc: Global, codes: &[u32], len: usize) -> Result<Vec<bool>, AllocError>
    ensures { IfOk result (λ marks. (vec_len marks ≡ len)
        × ((p : ℕ) → p < len → (slice_index_or marks.items p false ≡ true) ↔ Contains codes.now p)) }
{
    let mut marks = vec![in alloc; false; len]?;
    for code in codes {
        mark(&mut marks, *code as usize);
    }
    Ok(marks)
}

// Sets the mark at the position. Does nothing past the end.
fn mark(marks: &mut [bool], at: usize)
    ensures here { at < length marks.old → slice_index_or marks.new at false ≡ true }
    ensures others { (p : ℕ) → ¬ (p ≡ at) → slice_index_or marks.new p false ≡ slice_index_or marks.old p false }
{
    if at < marks.len() {
        marks[at] = true;
    }
}

// Writes the texts in this order, each followed by a line feed.
fn write_texts<O: ByteWriter>(writer: &mut O, texts: &[Fronted<'_>]) -> Result<(), RunFault>
    ensures writes { O.failures writer.new ≡ O.failures writer.old + failed_writes result }
    ensures delivered { OnlyGrows (O.delivered writer.old) (O.delivered writer.new) }
    ensures texts { Writes O.delivered O.pending writer.old writer.new (WritesAll (told (map (λ p. p.1.now) texts.now)) result) }
    ensures faults { IfErr result (λ fault. fault ≡ WriteFailed) }
{
    'lines: for (_, text) in texts {
        write_line(writer, b"", text.as_bytes())?;
    }
    Ok(())
}
