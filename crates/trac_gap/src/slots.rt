//! The block: a row of places, each of which is empty or has an item.
//! All of this crate's raw pointers are in this file.
ghost use Rattle.std.specs.Prelude.{◌≡◌, ℕ, ◌+◌, ◌<◌, ◌≤◌, ◌⊎◌, [], List, Option, Some, None, length, replicate};
ghost use Rattle.std.specs.Prelude.{slice_set, IfOk, ⊤};
ghost use Rattle.std.specs.Vec.Ownership.{FitsInBlock};
ghost use base.Fml.{ftrue};
ghost use denote.RawPtr.{Ptr};
ghost use Rattle.trac_gap.specs.Slots.{items_of, IsFull, IsShifted, run};
ghost use Rattle.trac_gap.specs.Ownership.{places_own, places_lent, lease_owns};

use std::alloc::{AllocError, Allocator};
use std::marker::{Model, PhantomData};
use std::mem::{align_of, size_of};
use std::ptr::copy_nonoverlapping;
use std::slice;

/// Where a block begins. It owns nothing.
pub struct BlockStart<T> {
    ptr: *mut T,
}

impl<T> Clone for BlockStart<T> {
    ghost is_clone = { λ x y. y ≡ x };

    ghost is_infallible = { λ _. ⊤ };

    fn clone(&self) -> Result<BlockStart<T>, AllocError> {
        Ok(*self)
    }
}

impl<T> Copy for BlockStart<T> {}

/// The places of a block with the items in them. It takes no bytes: `BlockStart` has the pointer. Dropping places frees
/// nothing. So no block is lost: a lease cannot be dropped, and `deallocate` takes it with its places.
#[derive(Drop)]
pub struct Slots<T> {
    mark: PhantomData<*const T>,
    ghost at: { Ptr },
    ghost slots: { List (Option T) },
}

impl<T> Model for Slots<T> {
    ghost also_owns = { λ p. places_own T.row p.at p.slots };

    ghost also_shares = { λ p _ κ. places_lent T.row p.at p.slots κ };
}

/// The right to give a block of `count` places at `at` back to `alloc`. It takes no bytes.
pub struct Lease<T, A: Allocator> {
    mark: PhantomData<*const (T, A)>,
    ghost at: { Ptr },
    ghost count: { ℕ },
    ghost alloc: { A },
}

impl<T, A: Allocator> Model for Lease<T, A> {
    ghost also_owns = { λ l. lease_owns T.row (A.dealloc_token l.alloc) l.at l.count };

    ghost also_shares = { λ _ _ _. ftrue };
}

/// No places. Takes no memory: the pointer is that of an array without items, which is gone. It is aligned and not
/// null, as a slice without items needs, and nothing is read there.
pub(crate) fn no_places<T>() -> (BlockStart<T>, Slots<T>)
    ensures { (result.1.at ≡ result.0.ptr) × (result.1.slots ≡ []) }
{
    let none: [T; 0] = [];
    let start = BlockStart {
        ptr: &raw const none as *mut T,
    };
    (start, Slots { mark: PhantomData })
}

/// A block of `count` empty places.
pub(crate) fn allocate<T, A: Allocator>(
    alloc: &A,
    count: usize,
) -> Result<(BlockStart<T>, Slots<T>, Lease<T, A>), AllocError>
    requires { FitsInBlock T.row count }
    ensures { IfOk result (λ r.
        (r.1.at ≡ r.0.ptr) × (r.1.slots ≡ replicate count None)
        × (r.2.at ≡ r.0.ptr) × (r.2.count ≡ count) × (r.2.alloc ≡ alloc.now)) }
{
    match alloc.allocate(count * size_of::<T>(), align_of::<T>()) {
        Ok(block) => {
            let start = BlockStart {
                ptr: block as *mut T,
            };
            Ok((
                start,
                Slots { mark: PhantomData },
                Lease { mark: PhantomData },
            ))
        }
        Err(error) => Err(error),
    }
}

/// Gives the block of `count` places back. The items in it are forgotten.
pub(crate) fn deallocate<T, A: Allocator>(
    alloc: &A,
    start: BlockStart<T>,
    count: usize,
    places: Slots<T>,
    lease: Lease<T, A>,
)
    requires { (places.at ≡ start.ptr) × (length places.slots ≡ count)
        × (lease.at ≡ start.ptr) × (lease.count ≡ count) × (lease.alloc ≡ alloc.now) }
{
    let Slots { mark: _ } = places;
    let Lease { mark: _ } = lease;
    unsafe {
        alloc.deallocate(
            start.ptr as *mut u8,
            count * size_of::<T>(),
            align_of::<T>(),
        );
    }
}

impl<T> Slots<T> {
    /// Puts `item` into the place `index`. An item that was there is forgotten.
    #[inline]
    pub(crate) fn put(&mut self, start: BlockStart<T>, index: usize, item: T)
        requires { (start.ptr ≡ self.old.at) × (index < length self.old.slots) }
        ensures { (self.new.at ≡ self.old.at)
            × (self.new.slots ≡ slice_set self.old.slots index (Some item)) }
    {
        unsafe { start.ptr.add(index).write(item) }
    }

    /// The items in the `count` places from `from` on, each of which has one.
    #[inline]
    pub(crate) fn items(&self, start: BlockStart<T>, from: usize, count: usize) -> &[T]
        requires { (start.ptr ≡ self.now.at) × (from + count ≤ length self.now.slots)
            × IsFull (run from count self.now.slots) }
        ensures { result.now ≡ items_of (run from count self.now.slots) }
    {
        unsafe { slice::from_raw_parts(start.ptr.add(from), count) }
    }

    /// Moves the `count` items from the place `from` on to the places from `to` on, which lie apart
    /// from them, by one copy of memory.
    #[inline]
    pub(crate) fn move_apart(&mut self, start: BlockStart<T>, from: usize, to: usize, count: usize)
        requires { (start.ptr ≡ self.old.at) × (from + count ≤ length self.old.slots)
            × (to + count ≤ length self.old.slots)
            × ((from + count ≤ to) ⊎ (to + count ≤ from))
            × IsFull (run from count self.old.slots) }
        ensures { (self.new.at ≡ self.old.at)
            × IsShifted self.old.slots from to count self.new.slots }
    {
        unsafe { copy_nonoverlapping(start.ptr.add(from), start.ptr.add(to), count) }
    }
}
