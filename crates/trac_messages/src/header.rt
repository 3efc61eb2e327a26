//! Headers, which announce how long messages are.
ghost use Rattle.std.specs.Prelude.{◌≡◌, length, take};
ghost use Rattle.trac_messages.specs.Headers.{IsWithin, announced, heading_of, is_length_field, length_in, number_of};

use memchr::memmem;
use trac_rules::byte::{CARRIAGE_RETURN, LINE_FEED};
use trac_streams::place_of;

/// A header has at most so many bytes, the empty line after it counted.
pub const HEADER_LIMIT: usize = 4096;

/// A message has at most so many bytes: 16 MiB.
pub const MESSAGE_LIMIT: u64 = 16_777_216;

/// The number that a header announces has at most so many digits.
pub const DIGIT_LIMIT: usize = 15;

/// What ends a header: the end of its last line, and an empty line.
pub(crate) const HEADER_END: &[u8] = b"\r\n\r\n";

/// What the line begins with that announces a length, in either case of letters.
pub(crate) const LENGTH_FIELD: &[u8] = b"Content-Length: ";

/// What the header says with which bytes begin. Sizes count bytes.
#[derive(Clone, Copy, Debug, PartialEq, Eq)]
pub enum Heading {
    /// The header is not read to its end yet.
    Open,
    /// The header is this long, and announces no length; or no header ends within so many bytes.
    Silent(usize),
    /// The header announces a message.
    Announces {
        /// How long the header is, with the empty line after it.
        size: usize,
        /// How long the message is.
        len: u64,
    },
}

/// What the header says with which bytes begin. Its lines end with a line feed, and before that perhaps a carriage
/// return; the first that is `Content-Length: ` and a number of 1 to 15 digits counts, and no other is looked at. It
/// takes no memory.
pub fn heading_of(bytes: &[u8]) -> Heading
    ensures heading { result ≡ heading_of bytes.now }
    ensures within { IsWithin (length bytes.now) result }
{
    let front = front_of(bytes);
    let Some(place) = memmem::find(front, HEADER_END) else {
        if front.len() < HEADER_LIMIT {
            return Heading::Open;
        }
        return Heading::Silent(HEADER_LIMIT);
    };
    let size = place + HEADER_END.len();
    match announced(front.split_at(place).0) {
        Some(len) => Heading::Announces { size, len },
        None => Heading::Silent(size),
    }
}

// The bytes among which a header ends.
fn front_of(bytes: &[u8]) -> &[u8]
    ensures { result.now ≡ take HEADER_LIMIT bytes.now }
{
    if bytes.len() < HEADER_LIMIT {
        return bytes;
    }
    bytes.split_at(HEADER_LIMIT).0
}

// The length that a header announces, the empty line after it left out.
fn announced(header: &[u8]) -> Option<u64>
    ensures { result ≡ announced header.now }
{
    let mut rest = header;
    while let Some(place) = place_of(LINE_FEED, rest) {
        let (line, after) = rest.split_at(place);
        if let Some(len) = length_in(line) {
            return Some(len);
        }
        rest = after.split_at(1).1;
    }
    length_in(rest)
}

// The length that a line of a header announces.
fn length_in(line: &[u8]) -> Option<u64>
    ensures { result ≡ length_in line.now }
{
    if !is_length_field(line) {
        return None;
    }
    let value = line.split_at(LENGTH_FIELD.len()).1;
    match value.split_last() {
        Some((&CARRIAGE_RETURN, number)) => number_of(number),
        _ => number_of(value),
    }
}

// Whether a line begins as the one does that announces a length.
fn is_length_field(line: &[u8]) -> bool
    ensures { result ≡ is_length_field line.now }
{
    line.len() >= LENGTH_FIELD.len()
        && line
            .split_at(LENGTH_FIELD.len())
            .0
            .eq_ignore_ascii_case(LENGTH_FIELD)
}

// The number that 1 to 15 digits write.
fn number_of(digits: &[u8]) -> Option<u64>
    ensures { result ≡ number_of digits.now }
{
    if digits.is_empty() || digits.len() > DIGIT_LIMIT {
        return None;
    }
    let mut number = 0;
    for digit in digits {
        if !digit.is_ascii_digit() {
            return None;
        }
        number = 10 * number + u64::from(digit - b'0');
    }
    Some(number)
}
