//! Where programs come from.

use std::alloc::Allocator;
use trac_streams::Ending;

/// Who has the programs that are debugged.
pub trait Programs<A: Allocator + Copy> {
    /// The bytes of the file at a path. `Ending::Limit`: it has more than 33,554,432. `Ending::Memory`: memory was
    /// refused. Any other: it cannot be read.
    fn read(&self, path: &str) -> Result<Vec<u8, A>, Ending>;
}

/// Why a file cannot be had.
pub(crate) fn unread(ending: Ending) -> &'static str {
    match ending {
        Ending::Limit => "it has more than 33554432 bytes",
        Ending::Memory => "there is no memory for it",
        _ => "it cannot be read",
    }
}
