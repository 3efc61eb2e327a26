//! Names of files and words of the command line as they are shown, so that a terminal obeys none of their bytes. The
//! error of each function is that memory was refused.

use std::alloc::{AllocError, Global};
use trac_streams::escaped_into;

/// A name or a word in a message, as `trac debug` shows a text.
pub fn shown(alloc: Global, name: &str) -> Result<String, AllocError> {
    let mut bytes = Vec::new(alloc);
    escaped_into(name.as_bytes(), &mut bytes)?;
    String::from_str(alloc, str::from_utf8(bytes.as_slice()).unwrap_or(""))
}

/// The name of a file in a message. An empty name is two quotes.
pub fn named(alloc: Global, path: &str) -> Result<String, AllocError> {
    shown(alloc, if path.is_empty() { "''" } else { path })
}
