//! The files that are walked through.

use std::alloc::Allocator;
use trac_memory::tape_in;
use trac_streams::Ending;
use trac_walk::{Programs, Unread};

/// The files that a walk may be through.
#[derive(Clone, Copy)]
pub(crate) struct Files<'r> {
    rt: &'r HostRuntime,
    // the path of the one that it is through at first
    first: &'r str,
}

impl<'r> Files<'r> {
    /// At first the file at this path.
    pub(crate) fn new(rt: &'r HostRuntime, path: &'r str) -> Self {
        Files { rt, first: path }
    }
}

impl<A: Allocator + Copy> Programs<A> for Files<'_> {
    fn read(&self, alloc: A, path: Option<&[u8]>) -> Result<Option<Vec<u8, A>>, Unread> {
        let Some(path) = path else {
            return Ok(Some(program_at(self.rt, alloc, self.first)?));
        };
        let Ok(path) = str::from_utf8(path) else {
            return Err(Unread::NoFile);
        };
        Ok(Some(program_at(self.rt, alloc, path)?))
    }
}

// The program in the file at this path.
fn program_at<A: Allocator + Copy>(
    rt: &HostRuntime,
    alloc: A,
    path: &str,
) -> Result<Vec<u8, A>, Unread> {
    match tape_in(rt, alloc, path) {
        Ok(program) => Ok(program),
        Err(Ending::Limit) => Err(Unread::TooLong),
        Err(Ending::Memory) => Err(Unread::Memory),
        Err(_) => Err(Unread::NoFile),
    }
}
