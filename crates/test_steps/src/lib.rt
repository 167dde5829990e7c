//! What the tests of the interner that threads share have in common: its calls, each in a function of its own or
//! as a row, rows of cases, and lists of texts.
#![tactic(auto)]

pub mod calls;
pub mod cases;
pub mod passes;
pub mod steps;
pub mod texts;

use std::process::Abort;
use std::sync::Wait;
use std::thread::Threads;

/// What a test is given: memory, threads, waiting, and the end of the process.
pub trait Host: AllocGlobal + Abort + Wait + Threads + Sync {}

impl<R: AllocGlobal + Abort + Wait + Threads + Sync> Host for R {}
