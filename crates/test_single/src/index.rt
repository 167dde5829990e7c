//! What no contract says of an index: which texts it hashes again, which it reads, and that it works with a
//! constant hasher.
use crate::interners::{CountedTexts, Host};
use lasso_parts::index::{Index, hash_text};
use lasso_parts::keys::{Key, Spur};
use lasso_parts::util::LassoResult;
use std::alloc::Global;
use std::cell::Cell;
use std::hash::BuildHasher;
use std::test::Fail;
use test_common::hashers::{CountingState, LengthState, SameState};
use test_common::texts::numbered;

static WORDS: [&str; 24] = [
    "", "a", "b", "aa", "ab", "ba", "bb", "aaa", "aab", "aba", "abb", "baa", "bab", "bba", "bbb",
    "aaaa", "one", "two", "three", "four", "five", "six", "seven", "eight",
];

// A list of texts with an index of some of them.
#[derive(Drop)]
struct Entered<'a, S: BuildHasher + Drop> {
    texts: &'a [&'a str],
    index: Index<Spur, Global>,
    hasher: S,
}

impl<'a, S: BuildHasher + Drop> Entered<'a, S> {
    // An index that has no room for a text.
    fn new(alloc: Global, hasher: S, texts: &'a [&'a str]) -> Self {
        let index = Index::new(alloc);
        Entered {
            texts,
            index,
            hasher,
        }
    }

    // Enters the text at this position.
    fn enter(&mut self, position: usize) -> LassoResult<()> {
        if let Some(text) = self.texts.get(position) {
            if let Some(key) = Spur::try_from_usize(position) {
                let hash = hash_text(&self.hasher, text);
                self.index.reserve_one(&self.texts, &self.hasher)?;
                self.index.insert_reserved(hash, key);
            }
        }
        Ok(())
    }

    fn find(&self, text: &str) -> Option<usize> {
        self.index.find(&self.texts, &self.hasher, text)
    }

    // Whether a search finds the text as wanted, and reads `count` texts.
    fn reads(&self, text: &str, wanted: Option<usize>, count: u64) -> bool {
        let read = Cell::new(0u64);
        let texts = CountedTexts::new(self.texts, &read);
        self.index.find(&texts, &self.hasher, text) == wanted && read.get() == count
    }

    // Whether each text is found at its position.
    fn has_all(&self) -> bool {
        let mut all = true;
        for (position, text) in self.texts.iter().enumerate() {
            all &= self.find(*text) == Some(position);
        }
        all
    }

    // Enters each text. Returns whether none was found before.
    fn enter_new(&mut self) -> LassoResult<bool> {
        let mut are_new = true;
        for position in 0..self.texts.len() {
            are_new &= self.find(self.texts[position]).is_none();
            self.enter(position)?;
        }
        Ok(are_new)
    }

    // Takes the step. Returns whether it went as it has to.
    fn takes(&mut self, step: Step) -> LassoResult<bool> {
        match step {
            Step::EntersNew => self.enter_new(),
            Step::HasAll => Ok(self.has_all()),
            Step::Has(text, wanted) => Ok(self.find(text) == wanted),
            Step::Reads(text, wanted, count) => Ok(self.reads(text, wanted, count)),
        }
    }
}

// What a test does with an index, and what it then has to find.
#[derive(Clone, Copy)]
enum Step {
    // enters each text, which is not found before
    EntersNew,
    // each text is found at its position
    HasAll,
    // the text is found at the position, or not if that is `None`
    Has(&'static str, Option<usize>),
    // the same, and how many texts the search reads
    Reads(&'static str, Option<usize>, u64),
}

// Takes the steps with an index that has no room for a text.
fn run_steps<S: BuildHasher + Drop>(
    rt: &impl Host,
    hasher: S,
    texts: &[&str],
    steps: &[Step],
) -> Result<(), Fail> {
    let mut words = Entered::new(rt.alloc(), hasher, texts);
    for (number, step) in steps.iter().enumerate() {
        assert!(rt; words.takes(*step)?, "step {number}");
    }
    Ok(())
}

#[test]
fn constant_hash(rt: HostRuntime) -> Result<(), Fail> {
    let steps = [Step::EntersNew, Step::HasAll, Step::Has("bbba", None)];
    run_steps(&rt, SameState::new(), WORDS.as_slice(), &steps)
}

// Numbers of texts at which an index without slots at first grows, and how many texts and slots it has then.
static GROWTHS: [(usize, u64, u64); 10] = [
    (7, 6, 8),
    (13, 12, 16),
    (25, 24, 32),
    (49, 48, 64),
    (97, 96, 128),
    (193, 192, 256),
    (385, 384, 512),
    (769, 768, 1024),
    (1537, 1536, 2048),
    (3073, 3072, 4096),
];

// Each text is hashed once to be entered. A growth hashes each text that is there, and else at most the empty text for
// an empty slot.
#[test]
fn hashed_again(rt: HostRuntime) -> Result<(), Fail> {
    let asked = Cell::new(0u64);
    let numbers = numbered(rt.alloc(), 3200)?;
    let mut texts = Vec::new(rt.alloc());
    for number in numbers.iter() {
        texts.push(number.as_str())?;
    }
    let mut entered = Entered::new(rt.alloc(), CountingState::new(&asked), texts.as_slice());
    for position in 0..texts.len() {
        let before = asked.get();
        entered.enter(position)?;
        let again = asked.get().wrapping_sub(before + 1);
        let (mut least, mut most) = (0, 0);
        for (count, used, slots) in &GROWTHS {
            if *count == position + 1 {
                (least, most) = (*used, *slots);
            }
        }
        assert!(rt;
            least <= again && again <= most,
            "{again} texts at {position}"
        );
    }
    assert!(rt; entered.has_all());
    Ok(())
}

static LENGTHS: [&str; 4] = ["x", "xx", "xxx", "yy"];

#[test]
fn other_fingerprints_are_passed_over(rt: HostRuntime) -> Result<(), Fail> {
    let steps = [
        Step::EntersNew,
        Step::Reads("xxx", Some(2), 1),
        Step::Reads("yy", Some(3), 2),
        Step::Reads("zz", None, 2),
        Step::Reads("zzzz", None, 0),
    ];
    run_steps(&rt, LengthState::new(), LENGTHS.as_slice(), &steps)
}
