//! Where the program that a dialogue is about is read anew.

use std::alloc::Allocator;

/// Why a program is not read anew.
#[derive(Clone, Copy, PartialEq, Eq)]
pub enum Unread {
    /// The file cannot be opened or read, or no file can be.
    NoFile,
    /// It is too long for a program.
    TooLong,
    /// Memory was refused.
    Memory,
}

/// Who has the programs that a dialogue may be about.
pub trait Programs<A: Allocator + Copy> {
    /// Reads the program in the file at this path, or if none is given the first one, as that is now. None if it is in
    /// no file.
    fn read(&self, alloc: A, path: Option<&[u8]>) -> Result<Option<Vec<u8, A>>, Unread>;
}

/// One program, which is in no file.
#[derive(Clone, Copy)]
pub struct OneProgram;

impl<A: Allocator + Copy> Programs<A> for OneProgram {
    fn read(&self, _: A, path: Option<&[u8]>) -> Result<Option<Vec<u8, A>>, Unread> {
        match path {
            None => Ok(None),
            Some(_) => Err(Unread::NoFile),
        }
    }
}
