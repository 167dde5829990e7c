//! How many bytes of memory a list takes.
ghost use Rattle.std.specs.Prelude.{◌≡◌, ◌*◌, ◌<◌, ◌≤◌, ◌^◌, vec_len};
ghost use Rattle.std.specs.Vec.{vec_capacity};

use std::alloc::Allocator;

/// How many bytes the allocator gave for a list whose elements have `size` bytes each, or the greatest number if a
/// `usize` can't count them.
pub fn list_bytes<T, A: Allocator>(list: &Vec<T, A>, size: usize) -> usize
    ensures room { vec_capacity list.now * size < 2 ^ 64 → result ≡ vec_capacity list.now * size }
    ensures least { vec_len list.now * size < 2 ^ 64 → vec_len list.now * size ≤ result }
{
    list.capacity().saturating_mul(size)
}
