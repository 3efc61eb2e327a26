//! A tape in memory that is limited.

use std::alloc::Allocator;
use std::fs::File;
use std::io::ErrorKind;
use trac_streams::{Ending, read_tape};

/// The bytes of the file at this path, in memory of `alloc`. The file is closed before any command is read: if standard
/// input is closed, the system opens the file in its place. `Ending::Read`: it cannot be opened, or not be read.
/// `Ending::Limit` and `Ending::Memory` are those of `read_tape`, and `Memory` also if there is none to open the file.
pub fn tape_in<A: Allocator + Copy>(
    rt: &HostRuntime,
    alloc: A,
    path: &str,
) -> Result<Vec<u8, A>, Ending> {
    match File::open(rt, path) {
        Ok(mut file) => read_tape(alloc, &mut file),
        Err(error) if error.kind() == ErrorKind::OutOfMemory => Err(Ending::Memory),
        Err(_) => Err(Ending::Read),
    }
}
