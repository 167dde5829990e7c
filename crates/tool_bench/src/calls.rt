//! Calls of an interner that threads share, with a pass, in batches and plain, over many texts or keys; walks over it,
//! and freezing it.
ghost use Rattle.std.specs.Prelude.{◌≡◌};

use crate::texts::Lines;
use crate::timing::{
    REFUSED, ROUNDS, Table, Tenths, elapsed_since, last_byte, least, started, sum_of_last_bytes,
    sum_of_positions, tenths_if,
};
use anyhow::Result;
use lasso::{Key, LassoResult, Pass, Spur, SpurThreadedRodeo, ThreadedRodeo};
use std::alloc::Global;
use std::io::BufRead;
use std::rt::Clock;
use std::sync::Wait;

/// A way to call an interner that threads share.
pub trait Calls: Sync {
    /// Interns the texts, and answers the sum of their positions, or `None` where one was refused.
    fn intern_all<R: AllocGlobal + Wait>(
        rt: &R,
        rodeo: &SpurThreadedRodeo,
        texts: &[String],
    ) -> Option<usize>;

    /// Looks the texts up, and answers the sum of their positions, or `None` where one is absent.
    fn get_all<R: AllocGlobal + Wait>(
        rt: &R,
        rodeo: &SpurThreadedRodeo,
        texts: &[String],
    ) -> Option<usize>;
}

/// An interner with a pass of it, which its calls are made by.
#[derive(Drop)]
pub struct Caller<'a> {
    rodeo: &'a SpurThreadedRodeo,
    pass: Pass<Spur>,
    ghost of: { pass.of ≡ rodeo.now },
}

impl<'a> Caller<'a> {
    /// A new pass, which keeps hints or not.
    pub fn new(alloc: Global, rodeo: &'a SpurThreadedRodeo, is_hinted: bool) -> Self {
        let pass = if is_hinted {
            rodeo.pass_with_hints(alloc)
        } else {
            rodeo.pass()
        };
        Caller { rodeo, pass }
    }

    // Interns the text.
    fn intern<R: Wait>(&mut self, rt: &R, text: &str) -> LassoResult<usize> {
        let key = self.rodeo.try_get_or_intern_as(rt, &mut self.pass, text)?;
        Ok(key.into_usize())
    }

    // The position of the text, or `None` if it is absent.
    fn find<R: Wait>(&mut self, rt: &R, text: &str) -> Option<usize> {
        let key = self.rodeo.get_as(rt, &mut self.pass, text)?;
        Some(key.into_usize())
    }

    // The length of the key's text, in bytes, or 0 if it stands for none.
    fn length(&mut self, key: Spur) -> usize {
        match self.rodeo.try_resolve_as(&mut self.pass, key) {
            Some(text) => text.len(),
            None => 0,
        }
    }

    // How many texts there are.
    fn count(&mut self) -> usize {
        self.rodeo.len_as(&mut self.pass)
    }

    /// Interns the texts by one call, and puts their keys in place of those in `keys`. Answers whether none was refused.
    pub fn intern_batch<R: Wait>(&mut self, rt: &R, texts: &[&str], keys: &mut Vec<Spur>) -> bool {
        keys.clear();
        self.rodeo
            .try_get_or_intern_all_as(rt, &mut self.pass, texts, keys)
            .is_ok()
    }

    /// Looks the texts up by one call, and puts what is found in place of what is in `keys`. Answers whether there was memory.
    pub fn find_batch<R: Wait>(
        &mut self,
        rt: &R,
        texts: &[&str],
        keys: &mut Vec<Option<Spur>>,
    ) -> bool {
        keys.clear();
        self.rodeo
            .get_all_as(rt, &mut self.pass, texts, keys)
            .is_ok()
    }
}

/// All calls with one pass, which keeps hints or not.
pub struct ByPass<const HINTED: bool>;

/// All calls with one pass without hints.
pub type WithPass = ByPass<false>;

/// All calls with one pass, which keeps hints.
pub type WithHints = ByPass<true>;

impl<const HINTED: bool> Calls for ByPass<HINTED> {
    fn intern_all<R: AllocGlobal + Wait>(
        rt: &R,
        rodeo: &SpurThreadedRodeo,
        texts: &[String],
    ) -> Option<usize> {
        intern_by(rt, Caller::new(rt.alloc(), rodeo, HINTED), texts)
    }

    fn get_all<R: AllocGlobal + Wait>(
        rt: &R,
        rodeo: &SpurThreadedRodeo,
        texts: &[String],
    ) -> Option<usize> {
        get_by(rt, Caller::new(rt.alloc(), rodeo, HINTED), texts)
    }
}

// Interns the texts.
fn intern_by<R: Wait>(rt: &R, mut caller: Caller<'_>, texts: &[String]) -> Option<usize> {
    let mut sum = 0usize;
    for text in texts {
        sum = sum.wrapping_add(caller.intern(rt, text.as_str()).ok()?);
    }
    Some(sum)
}

// Looks the texts up.
fn get_by<R: Wait>(rt: &R, mut caller: Caller<'_>, texts: &[String]) -> Option<usize> {
    let mut sum = 0usize;
    for text in texts {
        sum = sum.wrapping_add(caller.find(rt, text.as_str())?);
    }
    Some(sum)
}

/// Resolves the keys with a pass, and answers the sum of their texts' lengths, in bytes.
pub fn resolve_keys(alloc: Global, rodeo: &SpurThreadedRodeo, keys: &[Spur]) -> usize {
    let mut caller = Caller::new(alloc, rodeo, false);
    let mut sum = 0usize;
    for key in keys {
        sum = sum.wrapping_add(caller.length(*key));
    }
    sum
}

/// Plain calls, each with a pass of its own.
pub struct Plain;

impl Calls for Plain {
    fn intern_all<R: AllocGlobal + Wait>(
        rt: &R,
        rodeo: &SpurThreadedRodeo,
        texts: &[String],
    ) -> Option<usize> {
        let mut sum = 0usize;
        for text in texts {
            let Ok(key) = rodeo.try_get_or_intern(rt, text.as_str()) else {
                return None;
            };
            sum = sum.wrapping_add(key.into_usize());
        }
        Some(sum)
    }

    fn get_all<R: AllocGlobal + Wait>(
        rt: &R,
        rodeo: &SpurThreadedRodeo,
        texts: &[String],
    ) -> Option<usize> {
        let mut sum = 0usize;
        for text in texts {
            let key = rodeo.get(rt, text.as_str())?;
            sum = sum.wrapping_add(key.into_usize());
        }
        Some(sum)
    }
}

/// Resolves the keys without a pass, and answers the sum of their texts' lengths, in bytes.
pub fn resolve_keys_plainly(rodeo: &SpurThreadedRodeo, keys: &[Spur]) -> usize {
    let mut sum = 0usize;
    for key in keys {
        if let Some(text) = rodeo.try_resolve(*key) {
            sum = sum.wrapping_add(text.len());
        }
    }
    sum
}

/// An interner with these texts; `None` if one is refused.
pub fn filled<R: AllocGlobal + Wait>(rt: &R, texts: &[String]) -> Option<SpurThreadedRodeo> {
    let Ok(rodeo) = ThreadedRodeo::default(rt.alloc()) else {
        return None;
    };
    WithPass::intern_all(rt, &rodeo, texts)?;
    Some(rodeo)
}

/// Interns each line of the reader as it comes, in a new interner, and returns how many texts there are then.
/// It fails if a read does, and if a text is refused.
pub fn fill<R: AllocGlobal + Wait, B: BufRead + Drop>(rt: &R, reader: B) -> Result<usize> {
    let rodeo = ThreadedRodeo::default(rt.alloc())?;
    intern_lines(rt, &rodeo, reader)
}

// Interns each line of the reader as it comes, with one pass, and returns how many texts there are then.
fn intern_lines<R: AllocGlobal + Wait, B: BufRead + Drop>(
    rt: &R,
    rodeo: &SpurThreadedRodeo,
    reader: B,
) -> Result<usize> {
    let mut caller = Caller::new(rt.alloc(), rodeo, false);
    for line in reader.lines(rt.alloc()) {
        let line = line?;
        caller.intern(rt, line.as_str())?;
    }
    Ok(caller.count())
}

// Walks over an interner that threads share, and freezing it: how long they take a text.

/// Times walks over the distinct lines and freezing them, by a text: the least of several rounds, each with a new interner.
pub fn time_walks<R: AllocGlobal + Clock + Print + Wait>(rt: &R, table: &mut Table, lines: &Lines) {
    let mut best = [Ok(u64::MAX); 3];
    for _ in 0..ROUNDS {
        best = least_of_three(best, round(rt, &lines.distinct));
    }
    let count = lines.distinct.len();
    let [iter, strings, into_reader] = best;
    table.add(rt, "iter", count, iter);
    table.add(rt, "strings", count, strings);
    table.add(rt, "into_reader", count, into_reader);
}

// The less of both, for each of three times.
fn least_of_three(one: [Tenths; 3], other: [Tenths; 3]) -> [Tenths; 3] {
    [
        least(one[0], other[0]),
        least(one[1], other[1]),
        least(one[2], other[2]),
    ]
}

// What each took once over the distinct texts: `iter`, `strings` and `into_reader`.
fn round<R: AllocGlobal + Clock + Wait>(rt: &R, texts: &[String]) -> [Tenths; 3] {
    let Some(rodeo) = filled(rt, texts) else {
        return [Err(REFUSED); 3];
    };
    let last_bytes = sum_of_last_bytes(texts);
    let iter = time_entries(rt, &rodeo, texts.len(), last_bytes);
    let strings = time_texts(rt, &rodeo, texts.len(), last_bytes);
    [iter, strings, time_freezing(rt, rodeo, texts.len())]
}

// Walks over the keys and texts of an interner, which has `count` texts with this sum of their last bytes.
fn time_entries<R: Clock>(
    rt: &R,
    rodeo: &SpurThreadedRodeo,
    count: usize,
    last_bytes: usize,
) -> Tenths {
    let start = started(rt);
    let (positions, found) = walk_entries(rodeo);
    let elapsed = elapsed_since(rt, start);
    let is_right = positions == sum_of_positions(count) && found == last_bytes;
    tenths_if(is_right, "a key or a text is wrong", elapsed, count)
}

// Walks over the texts of an interner, which has `count` texts with this sum of their last bytes.
fn time_texts<R: Clock>(
    rt: &R,
    rodeo: &SpurThreadedRodeo,
    count: usize,
    last_bytes: usize,
) -> Tenths {
    let start = started(rt);
    let found = walk_texts(rodeo);
    let elapsed = elapsed_since(rt, start);
    tenths_if(found == last_bytes, "a text is wrong", elapsed, count)
}

// Freezes an interner of `count` texts.
fn time_freezing<R: Clock + Wait>(rt: &R, rodeo: SpurThreadedRodeo, count: usize) -> Tenths {
    let start = started(rt);
    let reader = rodeo.into_reader(rt);
    let elapsed = elapsed_since(rt, start);
    let Ok(reader) = reader else {
        return Err(REFUSED);
    };
    tenths_if(reader.len() == count, "a text is missing", elapsed, count)
}

/// The sum of the positions that `iter` gives, and that of its texts' last bytes.
pub fn walk_entries(rodeo: &SpurThreadedRodeo) -> (usize, usize) {
    let mut positions = 0usize;
    let mut last_bytes = 0usize;
    for (key, text) in rodeo.iter() {
        positions = positions.wrapping_add(key.into_usize());
        last_bytes = last_bytes.wrapping_add(last_byte(text));
    }
    (positions, last_bytes)
}

/// The sum of the last bytes of the texts that `strings` gives.
pub fn walk_texts(rodeo: &SpurThreadedRodeo) -> usize {
    let mut last_bytes = 0usize;
    for text in rodeo.strings() {
        last_bytes = last_bytes.wrapping_add(last_byte(text));
    }
    last_bytes
}
