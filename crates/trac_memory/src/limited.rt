//! An allocator that keeps within a limit.
ghost use Rattle.std.specs.Prelude.{◌≡◌};

use super::room::exchange;
use std::alloc::{AllocError, Allocator};
use std::cell::Cell;
use std::mem::size_of;

/// An allocator over another one, the backing: the bytes of all its blocks together, with `BLOCK_COST` more for each,
/// are never more than a limit. It refuses a block that would pass it, and then asks the backing for nothing.
///
/// A `&Limited<Global>` is an allocator too, and `Copy`: give that to what is to be limited.
#[derive(Drop)]
pub struct Limited<B: Allocator> {
    backing: B,
    // how many bytes it may still hand out
    room: Cell<usize>,
}

impl<B: Allocator> Limited<B> {
    ghost use Rattle.trac_memory.specs.Limited.{backing_of};

    /// An allocator that hands out so many bytes. It needs no memory of its own.
    pub fn new(backing: B, limit: usize) -> Limited<B>
        ensures { backing_of result ≡ backing }
    {
        Limited {
            backing,
            room: Cell::new(limit),
        }
    }
}

unsafe impl<B: Allocator> Allocator for Limited<B> {
    ghost use Rattle.trac_memory.specs.Limited.{backing_of};

    ghost dealloc_token = { λ heap ty ptr. B.dealloc_token (backing_of heap) ty ptr };

    fn allocate(&self, size: usize, align: usize) -> Result<*mut u8, AllocError> {
        if !exchange(&self.room, 0, 1, size) {
            return Err(AllocError);
        }
        match self.backing.allocate(size, align) {
            Ok(block) => Ok(block),
            Err(error) => {
                let _is_counted = exchange(&self.room, 1, 0, size);
                Err(error)
            }
        }
    }

    unsafe fn deallocate(&self, ptr: *mut u8, size: usize, align: usize) {
        let _is_counted = exchange(&self.room, 1, 0, size);
        self.backing.deallocate(ptr, size, align);
    }

    unsafe fn grow<T>(
        &self,
        ptr: *mut T,
        len: usize,
        old_cap: usize,
        new_cap: usize,
    ) -> Result<*mut T, AllocError> {
        if !exchange(&self.room, old_cap, new_cap, size_of::<T>()) {
            return Err(AllocError);
        }
        match self.backing.grow(ptr, len, old_cap, new_cap) {
            Ok(block) => Ok(block),
            Err(error) => {
                let _is_counted = exchange(&self.room, new_cap, old_cap, size_of::<T>());
                Err(error)
            }
        }
    }
}
