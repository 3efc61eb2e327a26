//! An allocator that refuses chosen requests.
ghost use Rattle.std.specs.Prelude.{◌≡◌};

use super::requests::{Requests, Rule};
use std::alloc::{AllocError, Allocator};
use std::cell::Cell;

/// An allocator over another one, the backing, which refuses the requests that it is told to refuse.
///
/// A `&Refusing<Global>` is an allocator too, and `Copy`: give that to the code under test, and keep the value
/// itself to say what is refused. Each request for a block counts. Growing and shrinking a block are each a
/// request for a new one, since both are made of `allocate` and `deallocate` here. Giving a block back is no
/// request, and is never refused.
#[derive(Drop)]
pub struct Refusing<B: Allocator> {
    backing: B,
    requests: Cell<Requests>,
}

impl<B: Allocator> Refusing<B> {
    ghost use Rattle.trac_faults.specs.Memory.{backing_of};

    /// An allocator that accepts all requests until it is told otherwise. It needs no memory of its own.
    pub fn new(backing: B) -> Refusing<B>
        ensures { backing_of result ≡ backing }
    {
        Refusing {
            backing,
            requests: Cell::new(Requests::none()),
        }
    }

    /// Accepts all requests from now on.
    pub fn accept_all(&self) {
        self.requests
            .set(self.requests.get().under(Rule::AcceptAll));
    }

    /// Refuses every request from now on.
    pub fn refuse_all(&self) {
        self.requests
            .set(self.requests.get().under(Rule::RefuseAll));
    }

    /// Refuses the request of number `nth` from now, and accepts all others. 1 is the next one. At 0 it refuses none.
    pub fn refuse_nth(&self, nth: u64) {
        self.requests
            .set(self.requests.get().under(Rule::RefuseNth(nth)));
    }

    /// How many requests were made since `new`, the refused ones among them.
    pub fn requests(&self) -> u64 {
        self.requests.get().made
    }

    /// How many requests were refused since `new`. A request for which the backing has no memory is not among them.
    pub fn refusals(&self) -> u64 {
        self.requests.get().refused
    }
}

fn accepts(requests: &Cell<Requests>) -> bool {
    let mut now = requests.get();
    let accepted = now.accepts();
    requests.set(now);
    accepted
}

unsafe impl<B: Allocator> Allocator for Refusing<B> {
    ghost use Rattle.trac_faults.specs.Memory.{backing_of};

    ghost dealloc_token = { λ heap ty ptr. B.dealloc_token (backing_of heap) ty ptr };

    fn allocate(&self, size: usize, align: usize) -> Result<*mut u8, AllocError> {
        if !accepts(&self.requests) {
            return Err(AllocError);
        }
        self.backing.allocate(size, align)
    }

    unsafe fn deallocate(&self, ptr: *mut u8, size: usize, align: usize) {
        unsafe { self.backing.deallocate(ptr, size, align) };
    }
}
