//! The texts that are interned and looked up: made ones, the lines of an input, and random positions.
ghost use Rattle.std.specs.Prelude.{◌≡◌, ◌<◌, ◌*◌, ◌%◌, ◌++◌, IfOk, codes, decimal, string_bytes, All, vec_len};

use anyhow::{Result, bail, ensure};
use std::alloc::{AllocError, Global};
use std::collections::HashMap;
use std::io::BufRead;
use test_common::texts::Draws;

const STRIDE: u64 = 7919;

/// How texts are written.
#[derive(Drop, Clone, Copy)]
pub enum Form {
    /// `text ` and the number.
    Named,
    /// The number in at least seven digits, and after it hyphens up to this number of bytes.
    Padded(usize),
}

/// Texts to intern, and texts to ask for.
#[derive(Drop)]
pub struct Sample {
    /// Distinct texts, in the order in which they are interned.
    pub texts: Vec<String>,
    /// The same texts in another order, so that a look-up seldom finds its neighbour at hand.
    pub again: Vec<String>,
    /// As many texts that are not among them.
    pub missing: Vec<String>,
}

impl Sample {
    /// `count` texts of this form, and as many others. Each list is made on its own, so that a walk over it
    /// meets its texts side by side. The only error is out of memory.
    pub fn new(alloc: Global, form: Form, count: u32) -> Result<Self, AllocError> {
        Ok(Sample {
            texts: numbered_texts(alloc, form, 0, count)?,
            again: jumped_texts(alloc, form, count)?,
            missing: numbered_texts(alloc, form, count, count)?,
        })
    }
}

// The texts of `count` numbers, from `first` on.
fn numbered_texts(
    alloc: Global,
    form: Form,
    first: u32,
    count: u32,
) -> Result<Vec<String>, AllocError> {
    let mut texts = Vec::new(alloc);
    for number in 0..count {
        texts.push(text_of(alloc, form, u64::from(first) + u64::from(number))?)?;
    }
    Ok(texts)
}

// The texts of the numbers below `count`, in the other order.
fn jumped_texts(alloc: Global, form: Form, count: u32) -> Result<Vec<String>, AllocError> {
    let mut texts = Vec::new(alloc);
    for number in 0..count {
        texts.push(text_of(alloc, form, jumped(number, count))?)?;
    }
    Ok(texts)
}

// The text with this number.
fn text_of(alloc: Global, form: Form, number: u64) -> Result<String, AllocError> {
    match form {
        Form::Named => numbered_text(alloc, number),
        Form::Padded(bytes) => padded_text(alloc, number, bytes),
    }
}

// The number in at least seven digits, and after it hyphens up to this number of bytes.
fn padded_text(alloc: Global, number: u64, bytes: usize) -> Result<String, AllocError> {
    let mut text = format!(in alloc; "{number:07}")?;
    for _ in text.len()..bytes {
        text.push('-')?;
    }
    Ok(text)
}

/// The text with this number: no other number has it.
pub fn numbered_text(alloc: Global, number: u64) -> Result<String, AllocError>
    ensures { IfOk result (λ text. string_bytes text ≡ codes "text " ++ decimal number) }
{
    format!(in alloc; "text {number}")
}

/// The number at this position of the other order. Where the stride and the count have no common divisor,
/// each number below the count comes once.
pub fn jumped(position: u32, count: u32) -> u64
    requires { position < count }
    ensures value { result ≡ (position * STRIDE) % count }
    ensures below { result < count }
{
    u64::from(position) * STRIDE % u64::from(count)
}

// The lines of an input, and what interning them has to answer.

// The position of each text among the distinct ones.
type Positions = HashMap<String, usize>;

/// The lines of an input, at least one.
#[derive(Drop)]
pub struct Lines {
    /// The lines, in their order.
    pub texts: Vec<String>,
    /// The same lines in another order, so that a look-up seldom finds its neighbour at hand.
    pub again: Vec<String>,
    /// The distinct lines, in the order in which each comes first.
    pub distinct: Vec<String>,
    /// The sum of the positions that the lines have among the distinct ones.
    pub positions: usize,
    /// The sum of the lengths of the lines, in bytes.
    pub lengths: usize,
}

impl Lines {
    /// The lines that the reader gives until it ends. It fails if a read does, when out of memory, if there
    /// is no line, and if there are more than a `u32` can count.
    pub fn read<B: BufRead + Drop>(alloc: Global, reader: B) -> Result<Lines> {
        let texts = read_all(alloc, reader)?;
        let count = count_of(&texts)?;
        Ok(Lines::of(alloc, texts, count)?)
    }

    // The `count` lines.
    fn of(alloc: Global, texts: Vec<String>, count: u32) -> Result<Lines, AllocError> {
        let again = in_other_order(alloc, &texts, count)?;
        let mut positions = HashMap::new(alloc);
        let distinct = distinct_texts(alloc, &mut positions, &texts)?;
        Ok(Lines {
            positions: sum_of_found(&positions, &texts),
            lengths: sum_of_lengths(&texts),
            texts,
            again,
            distinct,
        })
    }
}

// The lines that the reader gives until it ends.
fn read_all<B: BufRead + Drop>(alloc: Global, reader: B) -> Result<Vec<String>> {
    let mut texts = Vec::new(alloc);
    for line in reader.lines(alloc) {
        texts.push(line?)?;
    }
    Ok(texts)
}

// How many lines there are.
fn count_of(texts: &[String]) -> Result<u32> {
    let Ok(count) = u32::try_from(texts.len()) else {
        bail!("too many lines");
    };
    ensure!(count > 0, "no line");
    Ok(count)
}

// Copies of these `count` texts in another order.
fn in_other_order(alloc: Global, texts: &[String], count: u32) -> Result<Vec<String>, AllocError> {
    let mut again = Vec::new(alloc);
    for position in 0..count {
        if let Some(text) = texts.get(jumped(position, count) as usize) {
            again.push(text.clone()?)?;
        }
    }
    Ok(again)
}

// Copies of the texts, each once, in the order in which they first come; their positions are put into the map.
fn distinct_texts(
    alloc: Global,
    positions: &mut Positions,
    texts: &[String],
) -> Result<Vec<String>, AllocError> {
    let mut distinct = Vec::new(alloc);
    for text in texts {
        if positions.get(text.as_str()).is_none() {
            positions.insert(text.clone()?, distinct.len())?;
            distinct.push(text.clone()?)?;
        }
    }
    Ok(distinct)
}

// The sum of the positions that the texts have.
fn sum_of_found(positions: &Positions, texts: &[String]) -> usize {
    let mut sum = 0usize;
    for text in texts {
        if let Some(position) = positions.get(text.as_str()) {
            sum = sum.wrapping_add(*position);
        }
    }
    sum
}

// The sum of the texts' lengths.
fn sum_of_lengths(texts: &[String]) -> usize {
    let mut sum = 0usize;
    for text in texts {
        sum = sum.wrapping_add(text.len());
    }
    sum
}

// Random positions of texts, which may repeat.

/// `draws` draws of a position below `count`. Each is drawn on its own, so that a position may come more than
/// once or not at all. They are the same in each run. Its only error is out of memory.
pub fn random_positions(alloc: Global, count: u32, draws: u32) -> Result<Vec<u32>, AllocError>
    requires { 0 < count }
    ensures as_many { IfOk result (λ positions. vec_len positions ≡ draws) }
    ensures below { IfOk result (λ positions. All (λ position. position < count) positions.items) }
{
    let mut positions = Vec::new(alloc);
    let mut drawn = Draws::new(0);
    for _ in 0..draws {
        positions.push(drawn.below(count as usize) as u32)?;
    }
    Ok(positions)
}
