//! A closure with a loop, which another thread runs: what it ensures is written at the closure.
ghost use Rattle.std.specs.Prelude.{◌≡◌, length};

use std::thread::{Threads, join};

/// How many texts each list has, counted by two threads if a thread can be started.
pub fn counts<R: Threads>(rt: &R, left: &[&str], right: &[&str]) -> (usize, usize)
    ensures left { result.0 ≡ length left.now }
    ensures right { result.1 ≡ length right.now }
{
    let here = || -> usize
        ensures { result ≡ length left.entry.now }
    {
        let mut count = 0;
        for _ in left {
            count += 1;
        }
        count
    };
    join(rt, here, || right.len())
}
