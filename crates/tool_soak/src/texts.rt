//! The texts of a round, each with its number at its head, and the frozen list that has to explain the answers.
use crate::answers::sum_with;
use anyhow::{Result, bail};
use std::alloc::{AllocError, Global};

// How many texts are also there as static ones.
const FIXED: usize = 32;

const STATIC: [&str; FIXED] = [
    "", "1", "2", "3", "4", "5", "6", "7", "8", "9", "10", "11", "12", "13", "14", "15", "16",
    "17", "18", "19", "20", "21", "22", "23", "24", "25", "26", "27", "28", "29", "30", "31",
];

const TAILS: [&str; 4] = ["", ".", "......", "................................"];

/// Distinct texts. The first is empty.
#[derive(Drop)]
pub struct Texts {
    texts: Vec<String>,
}

impl Texts {
    /// `count` texts. The only error is out of memory.
    pub fn new(alloc: Global, count: usize) -> Result<Self, AllocError> {
        let mut texts = Vec::new(alloc);
        for number in 0..count {
            texts.push(numbered_text(alloc, number)?)?;
        }
        Ok(Texts { texts })
    }

    /// How many texts there are.
    pub fn count(&self) -> usize {
        self.texts.len()
    }

    /// The text with the number; empty, where there is none.
    pub fn text(&self, number: usize) -> &str {
        match self.texts.get(number) {
            Some(text) => text.as_str(),
            None => "",
        }
    }

    /// The number of the text, or `None` where it is not one of these.
    pub fn number_of(&self, text: &str) -> Option<usize> {
        let mut number = 0usize;
        for byte in text.bytes() {
            if byte.is_ascii_digit() {
                number = number
                    .wrapping_mul(10)
                    .wrapping_add(usize::from(byte.wrapping_sub(b'0')));
            }
        }
        if number < self.texts.len() && self.text(number) == text {
            Some(number)
        } else {
            None
        }
    }
}

// The text with the number.
fn numbered_text(alloc: Global, number: usize) -> Result<String, AllocError> {
    if let Some(text) = STATIC.get(number) {
        return String::from_str(alloc, text);
    }
    let tail = TAILS[number % 4];
    format!(in alloc; "{number}{tail}")
}

/// How many texts can be interned as static ones: those with the first numbers.
pub const fn fixed_count() -> usize {
    FIXED
}

/// The static text with the number, where there is one.
pub fn fixed_text(number: usize) -> Option<&'static str> {
    STATIC.get(number).copied()
}

// The frozen list that has to explain the answers.

/// A list of distinct texts.
#[derive(Drop)]
pub struct Frozen {
    // the number of the text at each position
    numbers: Vec<usize>,
    // the position of each text by its number, and where it has none the greatest number
    positions: Vec<usize>,
    // `sums[count]` is the sum of the first `count` texts
    sums: Vec<u64>,
}

impl Frozen {
    /// A list without texts. The only error is out of memory.
    pub fn new(alloc: Global, texts: &Texts) -> Result<Self, AllocError> {
        let mut positions = Vec::new(alloc);
        for _ in 0..texts.count() {
            positions.push(usize::MAX)?;
        }
        let mut sums = Vec::new(alloc);
        sums.push(0u64)?;
        Ok(Frozen {
            numbers: Vec::new(alloc),
            positions,
            sums,
        })
    }

    /// Puts a text at the end. It fails if the text is none of `texts`, if it was there already, and when out
    /// of memory.
    pub fn push(&mut self, texts: &Texts, text: &str) -> Result<()> {
        let position = self.numbers.len();
        let Some(number) = texts.number_of(text) else {
            bail!("the text at {position} is none that was interned: {text}");
        };
        match self.positions.get_mut(number) {
            Some(found) if *found == usize::MAX => *found = position,
            _ => bail!("the text at {position} came before: {text}"),
        }
        let sum = self.sums.last().copied().unwrap_or(0);
        self.sums.push(sum_with(sum, text))?;
        self.numbers.push(number)?;
        Ok(())
    }

    /// How many texts there are.
    pub fn len(&self) -> usize {
        self.numbers.len()
    }

    /// The position of the text with the number, or the greatest number where it has none.
    pub fn position(&self, number: usize) -> usize {
        self.positions.get(number).copied().unwrap_or(usize::MAX)
    }

    /// The number of the text at the position.
    pub fn number(&self, position: usize) -> Option<usize> {
        self.numbers.get(position).copied()
    }

    /// The sum of the first `count` texts, or `None` if there are fewer.
    pub fn sum(&self, count: usize) -> Option<u64> {
        self.sums.get(count).copied()
    }
}
