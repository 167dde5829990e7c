//! An allocator that refuses one of its requests, and counts its refusals and the bytes in use.
//! `each_refused` runs a script with each of its requests refused in turn.
use std::alloc::{AllocError, Allocator, Global};
use std::cell::Cell;
use std::test::Fail;

/// Counts of the requests to an allocator, and of the bytes in use.
#[derive(Drop)]
pub struct Requests {
    // the number of the request that is refused
    refused: u64,
    made: Cell<u64>,
    // how many requests got their bytes
    met: Cell<u64>,
    // how many refusals `has_refused_anew` has reported
    told: Cell<u64>,
    bytes_out: Cell<usize>,
}

// Counts a request. Returns whether it is the one to refuse.
fn refuses(requests: &Requests) -> bool {
    let number = requests.made.get().saturating_add(1);
    requests.made.set(number);
    number == requests.refused
}

// Counts a request that got `size` bytes.
fn gives_out(requests: &Requests, size: usize) {
    requests.met.set(requests.met.get().saturating_add(1));
    requests
        .bytes_out
        .set(requests.bytes_out.get().wrapping_add(size));
}

// Subtracts `size` bytes, which were freed.
fn takes_back(requests: &Requests, size: usize) {
    requests
        .bytes_out
        .set(requests.bytes_out.get().wrapping_sub(size));
}

/// Passes requests on to another allocator, but refuses one of them. A request that the other allocator
/// refuses is refused too. A `&` to it is an allocator too, which the interners under test use.
pub struct Refusing<B: Allocator> {
    inner: B,
    requests: Requests,
}

impl<B: Allocator> Refusing<B> {
    /// Refuses the request of this number, counted from 1. The number 0 refuses none.
    pub fn new(inner: B, refused: u64) -> Self {
        let requests = Requests {
            refused,
            made: Cell::new(0),
            met: Cell::new(0),
            told: Cell::new(0),
            bytes_out: Cell::new(0),
        };
        Refusing { inner, requests }
    }

    /// How many requests were refused, by number or by the inner allocator.
    pub fn refusals(&self) -> u64 {
        self.requests
            .made
            .get()
            .saturating_sub(self.requests.met.get())
    }

    /// Whether a request was refused since this was last called.
    pub fn has_refused_anew(&self) -> bool {
        let refusals = self.refusals();
        let is_new = refusals > self.requests.told.get();
        self.requests.told.set(refusals);
        is_new
    }

    /// How many requests were made.
    pub fn requests(&self) -> u64 {
        self.requests.made.get()
    }

    /// How many bytes were allocated and are not yet freed.
    pub fn bytes_out(&self) -> usize {
        self.requests.bytes_out.get()
    }
}

impl<B: Allocator> Drop for Refusing<B> {
    fn drop(self) {
        let Self {
            inner: _,
            requests: _,
        } = self;
    }
}

unsafe impl<B: Allocator> Allocator for Refusing<B> {
    ghost dealloc_token = { λ heap ty ptr. B.dealloc_token heap.inner ty ptr };

    fn allocate(&self, size: usize, align: usize) -> Result<*mut u8, AllocError> {
        if refuses(&self.requests) {
            return Err(AllocError);
        }
        match self.inner.allocate(size, align) {
            Ok(block) => {
                gives_out(&self.requests, size);
                Ok(block)
            }
            Err(error) => Err(error),
        }
    }

    unsafe fn deallocate(&self, ptr: *mut u8, size: usize, align: usize) {
        self.inner.deallocate(ptr, size, align);
        takes_back(&self.requests, size);
    }
}

// More requests than a script makes.
const MOST: u64 = 1000;

/// Runs the script with its first request refused, then with its second, and so on until a run meets no
/// refusal. Each run has to free all its bytes. Fails if the script fails, if the first run makes no request,
/// or if 999 runs meet refusals.
pub fn each_refused<R: AllocGlobal, F: Fn(&R, &Refusing<Global>) -> Result<(), Fail> + Drop>(
    rt: &R,
    script: F,
) -> Result<(), Fail>
    requires { F.IsAlwaysCallable script }
{
    for refused in 1..MOST {
        let memory = Refusing::new(rt.alloc(), refused);
        script(rt, &memory)?;
        if memory.bytes_out() > 0 {
            return Err(Fail::from("a run did not give all its bytes back"));
        }
        if memory.refusals() == 0 && refused == 1 {
            return Err(Fail::from("no run makes a request"));
        }
        if memory.refusals() == 0 {
            return Ok(());
        }
    }
    Err(Fail::from("each run met a refusal"))
}
