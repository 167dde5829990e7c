//! Encodes texts to codes by several threads over one interner.
ghost use Rattle.std.specs.Prelude.{◌≡◌, ◌-◌, ◌++◌, [], OnOk, OnErr, IfOk, IfErr, map};
ghost use Rattle.lasso_parts.specs.declared.util.LassoErrorKind.TheVariants.{FailedAllocation};
ghost use Rattle.lasso_log.specs.History.{IsLegal};
ghost use Rattle.lasso_log.specs.Notes.{Since};
ghost use Rattle.lasso_log.specs.Views.{PassView, InternerId, IsSamePass, list_of, seen};
ghost use Rattle.lasso_single.specs.Codes.{AreCodes, AddsCodes};
ghost use Rattle.lasso_single.specs.Coding.{spur_at};
ghost use Rattle.lasso_shared_columns.specs.Sharing.{AddsSharedCodes, IsPartOf, IsRefusalIn, IsRefusalOnce};

use lasso_log::log::{Pass, Snapshot};
use lasso_parts::keys::Spur;
use lasso_parts::util::{LassoError, LassoResult};
use lasso_shared::threaded::ThreadedRodeo;
use std::hash::BuildHasher;
use std::sync::Wait;
use std::thread::{Threads, map_chunks};

// How many texts a worker interns by one call.
const BATCH: usize = 1024;

/// Interns the texts with up to `workers` threads, and appends their codes to `codes`, in the order of the
/// texts. A code is the position that the text then has in the interner's list, and keeps. So equal texts
/// have equal codes. 0 workers count as 1. If a thread can't be started, the caller does its work.
///
/// Use it when other threads use the interner meanwhile. For a column alone `encode_in_parts` is faster, and
/// gives the codes of one thread. The interner may have any hasher that threads can share, also a keyed one
/// for texts that a stranger chooses.
///
/// Each worker stops at the first of its texts that is refused. The call returns the error of the first such
/// worker, in the order of the texts. After an error, also when out of memory for the codes, no code is
/// added, and the texts that were interned stay.
///
/// ```rust
/// let rodeo: SpurThreadedRodeo = ThreadedRodeo::default(rt.alloc())?;
/// let mut codes = Vec::new(rt.alloc());
/// encode_shared(&rt, &rodeo, &["red", "green", "red"], &mut codes, 2)?;
/// assert!(rt; codes.first() == codes.last());
/// assert!(rt; rodeo.len() == 2);
/// ```
pub fn encode_shared<R: AllocGlobal + Threads + Wait + Sync, S: BuildHasher + Send + Sync + Drop>(
    rt: &R,
    rodeo: &ThreadedRodeo<Spur, S>,
    texts: &[&str],
    codes: &mut Vec<u32>,
    workers: usize,
) -> LassoResult<()>
where
    S::Hasher: Send,
    ensures codes { OnOk result (AddsSharedCodes rodeo.now.opening (map (λ t. t.now) texts.now) codes.old.items codes.new.items) }
    ensures refused { OnErr result (codes.new.items ≡ codes.old.items) }
    ensures reason { IfErr result (λ error. IsRefusalOnce rodeo.now.opening (map (λ t. t.now) texts.now) error) }
{
    let mut pass = rodeo.pass();
    pass.prove_legal();
    encode_shared_as(rt, rodeo, &mut pass, texts, codes, workers)
}

/// Encodes by workers as `encode_shared` does, with a pass. Afterwards the pass has seen what the workers did,
/// and the codes are the positions of the texts in the list that it has seen. The pass itself adds no event. After a refusal it
/// has seen what the workers up to the refused one did, and so what explains the refusal. When out of
/// memory, it may have seen no more than before.
pub fn encode_shared_as<
    R: AllocGlobal + Threads + Wait + Sync,
    S: BuildHasher + Send + Sync + Drop,
>(
    rt: &R,
    rodeo: &ThreadedRodeo<Spur, S>,
    pass: &mut Pass<Spur>,
    texts: &[&str],
    codes: &mut Vec<u32>,
    workers: usize,
) -> LassoResult<()>
where
    S::Hasher: Send,
    requires { pass.old.of ≡ rodeo.now }
    ensures same { IsSamePass pass.new pass.old }
    ensures since { Since pass.old.number pass.old.notes pass.new.notes [] }
    ensures codes { OnOk result (AddsCodes (list_of rodeo.now pass.new.notes) (map (λ t. t.now) texts.now) codes.old.items codes.new.items) }
    ensures refused { OnErr result (codes.new.items ≡ codes.old.items) }
    ensures reason { IfErr result (λ error. IsRefusalIn rodeo.now.opening (seen pass.new) (map (λ t. t.now) texts.now) error) }
    ensures legal { IsLegal spur_at rodeo.now.opening (seen pass.new) }
{
    pass.prove_legal();
    let size = texts.len().div_ceil(workers.max(1)).max(1);
    let work = move |_: usize, part: &[&str]| -> Part
        ensures { IsPartOf rodeo.entry.now (map (λ t. t.now) part.entry.now) result.known result.codes }
    { encode_part(rt, rodeo, part) };
    let parts = map_chunks(rt, rt.alloc(), texts, size, &work)?;
    let mut added = Vec::new(rt.alloc());
    for part in 0..parts.len() {
        let done = &parts[part];
        pass.learn(&done.known);
        match &done.codes {
            Ok(part_codes) => added.extend_from_slice(part_codes)?,
            Err(error) => return Err(LassoError::new(error.kind())),
        }
    }
    codes.extend_from_slice(&added)?;
    Ok(())
}

// What a worker returns: what its pass has seen of the interner, and the codes of its texts, or the error at
// which it stopped.
#[derive(Drop)]
struct Part {
    known: Snapshot<Spur>,
    codes: LassoResult<Vec<u32>>,
}

// Interns the texts with a new pass.
fn encode_part<R: AllocGlobal + Wait, S: BuildHasher + Drop>(
    rt: &R,
    rodeo: &ThreadedRodeo<Spur, S>,
    texts: &[&str],
) -> Part
    ensures { IsPartOf rodeo.now (map (λ t. t.now) texts.now) result.known result.codes }
{
    let mut pass = rodeo.pass();
    let codes = encode_by(rt, rodeo, &mut pass, texts);
    Part {
        known: pass.snapshot(),
        codes,
    }
}

// Interns the texts with the pass, and returns their codes.
fn encode_by<R: AllocGlobal + Wait, S: BuildHasher + Drop>(
    rt: &R,
    rodeo: &ThreadedRodeo<Spur, S>,
    pass: &mut Pass<Spur>,
    texts: &[&str],
) -> LassoResult<Vec<u32>>
    requires { pass.old.of ≡ rodeo.now }
    ensures of { pass.new.of ≡ rodeo.now }
    ensures codes { IfOk result (λ codes. AreCodes (list_of rodeo.now pass.new.notes) (map (λ t. t.now) texts.now) codes.items) }
    ensures reason { IfErr result (λ error. IsRefusalIn rodeo.now.opening (seen pass.new) (map (λ t. t.now) texts.now) error) }
{
    let mut codes = Vec::new(rt.alloc());
    codes.reserve(texts.len())?;
    let mut keys = Vec::new(rt.alloc());
    for batch in texts.chunks(BATCH) {
        keys.clear();
        rodeo.try_get_or_intern_all_as(rt, pass, batch, &mut keys)?;
        add_codes(&keys, &mut codes)?;
    }
    Ok(codes)
}

// Appends the position of each key.
fn add_codes(keys: &[Spur], codes: &mut Vec<u32>) -> LassoResult<()>
    ensures added { OnOk result (codes.new.items ≡ codes.old.items ++ map (λ k. k - 1) keys.now) }
    ensures refused { IfErr result (λ error. error ≡ FailedAllocation) }
{
    for key in keys {
        codes.push(key.into_position())?;
    }
    Ok(())
}
