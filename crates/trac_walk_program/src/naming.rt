//! Names of files in lines that an editor reads.

use std::alloc::{AllocError, Global};
use trac_person_lines::is_seen;
use trac_words::names::shown;

/// The name of a file in a line that an editor reads, which opens it: only what cannot be seen is shown as `trac debug`
/// shows a text. An empty name is two quotes. The error is that memory was refused.
pub(crate) fn legible(alloc: Global, name: &str) -> Result<String, AllocError> {
    let mut line = String::new(alloc);
    if name.is_empty() {
        line.push_str("''")?;
    }
    for sign in name.chars() {
        if is_seen(sign) {
            line.push(sign)?;
        } else {
            let mut bytes = [0; 4];
            let escaped = shown(alloc, sign.encode_utf8(&mut bytes))?;
            line.push_str(escaped.as_str())?;
        }
    }
    Ok(line)
}
