//! Places in the output that is kept.

use memchr::memmem;
use trac_person_lines::Stop;

/// The place in the output that is kept of the byte of this number, counted from 1 from the start of the program, if so
/// many bytes were printed before what is kept.
pub fn printed(released: u64, pending: &[u8], number: u64) -> Result<usize, Stop> {
    if number == 0 {
        return Err(Stop::FromOne);
    }
    if number <= released {
        return Err(Stop::PrintedEarlier);
    }
    let place = (number - released - 1) as usize;
    if place >= pending.len() {
        return Err(Stop::NotPrinted);
    }
    Ok(place)
}

/// The place of the last byte of the output.
pub(crate) fn last_printed(released: u64, pending: &[u8]) -> Result<usize, Stop> {
    let len = pending.len();
    if len > 0 {
        return Ok(len - 1);
    }
    match released {
        0 => Err(Stop::NotPrinted),
        _ => Err(Stop::PrintedEarlier),
    }
}

/// The place of the last byte of the last occurrence of a text in the output.
pub fn printed_text(released: u64, pending: &[u8], text: &[u8]) -> Result<usize, Stop> {
    if text.is_empty() {
        return Err(Stop::EmptyText);
    }
    match memmem::rfind(pending, text) {
        Some(place) => Ok(place.saturating_add(text.len() - 1)),
        None if released == 0 => Err(Stop::NotPrinted),
        None => Err(Stop::NotPrintedSince),
    }
}
