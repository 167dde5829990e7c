//! Turns in which workers intern new texts.
//!
//! A new text goes into lists that all workers share. If two workers append at the same time, the cache lines of
//! those lists move from core to core at each text, which takes about as long as interning it. So a worker whose
//! lines mostly have new texts holds a lock, its turn, while that lasts; other such workers sleep until it ends. A
//! worker whose texts are mostly known takes no turn and waits for none.
//!
//! Turns only save time: no contract says anything of them, and a worker gives up its turn when it ends.
use std::sync::{Mutex, MutexGuard, Wait};

// The number of lines after which a worker first decides whether to take a turn.
const FIRST_LINES: u32 = 256;

// The number of lines after which it decides again.
const MORE_LINES: u32 = 4096;

/// A worker's turn, if it has one, and how many of its last lines had new texts.
#[derive(Drop)]
pub(crate) struct Turns<'a> {
    // The lock of all workers' turns. None if the worker takes no turns.
    lock: Option<&'a Mutex<()>>,
    turn: Option<MutexGuard<'a, ()>>,
    // The number of lines between the last decision and the next, and how many of them are left.
    lines: u32,
    left: u32,
    // How many of these lines had a later text than all of the worker's lines before. A new text is appended, so
    // most new texts are later.
    later: u32,
    // The position after the latest text.
    end: u32,
}

impl<'a> Turns<'a> {
    /// No turn yet. `lock` is that of all workers' turns. Without `take_turns` the worker takes none.
    pub(crate) fn new(lock: &'a Mutex<()>, take_turns: bool) -> Self {
        Turns {
            lock: if take_turns { Some(lock) } else { None },
            turn: None,
            lines: FIRST_LINES,
            left: FIRST_LINES,
            later: 0,
            end: 0,
        }
    }

    /// Counts a line whose text has this position. From time to time it ends the turn, or waits for one.
    #[inline(always)]
    pub(crate) fn count_line<R: Wait>(&mut self, rt: &R, position: u32) {
        if position >= self.end {
            self.end = position.wrapping_add(1);
            self.later = self.later.wrapping_add(1);
        }
        self.left = self.left.wrapping_sub(1);
        if self.left == 0 {
            self.decide(rt);
        }
    }

    // Ends the turn if most of the last lines had known texts. Else waits for a turn, unless the worker has it.
    #[inline(never)]
    fn decide<R: Wait>(&mut self, rt: &R) {
        match self.wanted_lock() {
            None => self.turn = None,
            Some(lock) if self.turn.is_none() => self.turn = Some(lock.lock(rt)),
            Some(_) => {}
        }
        self.lines = MORE_LINES;
        self.left = MORE_LINES;
        self.later = 0;
    }

    // The lock, if the worker takes turns and at least half of its last lines had new texts.
    fn wanted_lock(&self) -> Option<&'a Mutex<()>> {
        if self.later >= self.lines / 2 {
            self.lock
        } else {
            None
        }
    }
}
