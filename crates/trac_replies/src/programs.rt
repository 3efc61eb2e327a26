//! The program that is walked through.

use std::alloc::Allocator;

/// A program, which is lent, or was read anew.
#[derive(Drop)]
pub(crate) enum Program<'p, A: Allocator + Copy> {
    Lent(&'p [u8]),
    Anew(Vec<u8, A>),
}

impl<A: Allocator + Copy> Program<'_, A> {
    /// Its bytes.
    pub(crate) fn bytes(&self) -> &[u8] {
        match self {
            Program::Lent(bytes) => bytes,
            Program::Anew(bytes) => bytes.as_slice(),
        }
    }
}
