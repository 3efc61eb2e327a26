//! Positions in a text, and its bytes.
ghost use Rattle.std.specs.Prelude.{◌≡◌, ◌≤◌, ◌<◌, length};
ghost use Rattle.trac_documents.specs.Positions.{before_line, bytes_within, ends_line, is_line_end, lines_before};
ghost use Rattle.trac_documents.specs.Positions.{offset_of, position_of, units, units_of};

use trac_rules::byte::{CARRIAGE_RETURN, LINE_FEED};

/// In which units the characters of a line are counted.
#[derive(Clone, Copy, Debug, PartialEq, Eq)]
pub enum Encoding {
    /// In bytes.
    Utf8,
    /// In code units of UTF-16: a character beyond U+FFFF has two.
    Utf16,
}

/// A place in a text. Both count from 0.
#[derive(Clone, Copy, Debug, PartialEq, Eq)]
pub struct Position {
    /// The line. A line feed, a carriage return, or both in this order end a line.
    pub line: u64,
    /// How many units of the line stand before the place.
    pub character: u64,
}

/// How many bytes of a text stand before a position. Past the end of a line it is the line's end, past the last line
/// the text's; within a character it is that character's start.
pub fn offset_of(text: &[u8], encoding: Encoding, position: Position) -> usize
    ensures place { result ≡ offset_of text.now encoding position }
    ensures within { result ≤ length text.now }
{
    let start = before_line(text, position.line);
    start + bytes_within(text.split_at(start).1, encoding, position.character)
}

/// The position before which so many bytes of a text stand; past its end, that of its end.
pub fn position_of(text: &[u8], encoding: Encoding, offset: usize) -> Position
    ensures { result ≡ position_of text.now encoding offset }
{
    let offset = offset.min(text.len());
    let line = lines_before(text, offset);
    let start = before_line(text, line);
    let units = units_of(text.split_at(offset).0.split_at(start).1, encoding);
    let character = units.min(u64::MAX as u128) as u64;
    Position { line, character }
}

// How many bytes of a text stand before its line of this number; all, if it has fewer lines.
fn before_line(text: &[u8], line: u64) -> usize
    ensures place { result ≡ before_line line text.now }
    ensures within { result ≤ length text.now }
{
    let mut left = line;
    for (place, byte) in text.iter().enumerate() {
        if left == 0 {
            return place;
        }
        if ends_line(text, place) {
            left -= 1;
        }
    }
    text.len()
}

// How many lines end in the first bytes of a text.
fn lines_before(text: &[u8], offset: usize) -> u64
    requires { offset ≤ length text.now }
    ensures { result ≡ lines_before offset text.now }
{
    let mut lines = 0;
    for place in 0..offset {
        if ends_line(text, place) {
            lines += 1;
        }
    }
    lines
}

// Whether a line ends with the byte at this place: a line feed, or a carriage return that no line feed follows.
fn ends_line(text: &[u8], place: usize) -> bool
    requires { place < length text.now }
    ensures { result ≡ ends_line text.now place }
{
    let byte = text[place];
    byte == LINE_FEED || byte == CARRIAGE_RETURN && text.get(place + 1) != Some(&LINE_FEED)
}

// How many bytes of the first line of a text make so many units at most, in whole characters.
fn bytes_within(text: &[u8], encoding: Encoding, most: u64) -> usize
    ensures place { result ≡ bytes_within encoding most text.now }
    ensures within { result ≤ length text.now }
{
    let mut left = most;
    for (place, byte) in text.iter().enumerate() {
        let size = units(*byte, encoding);
        if is_line_end(*byte) || size > left {
            return place;
        }
        left -= size;
    }
    text.len()
}

// How many units bytes make.
fn units_of(bytes: &[u8], encoding: Encoding) -> u128
    ensures { result ≡ units_of encoding bytes.now }
{
    let mut sum = 0_u128;
    for byte in bytes {
        sum += units(*byte, encoding) as u128;
    }
    sum
}

// Whether a byte belongs to a line's end.
fn is_line_end(byte: u8) -> bool
    ensures { result ≡ is_line_end byte }
{
    byte == LINE_FEED || byte == CARRIAGE_RETURN
}

// How many units a character has of which this is the first byte; none, if it is a later one.
fn units(byte: u8, encoding: Encoding) -> u64
    ensures value { result ≡ units encoding byte }
    ensures few { result ≤ 4 }
{
    match encoding {
        Encoding::Utf8 => match byte {
            0..128 => 1,
            128..192 => 0,
            192..224 => 2,
            224..240 => 3,
            240.. => 4,
        },
        Encoding::Utf16 => match byte {
            0..128 => 1,
            128..192 => 0,
            192..240 => 1,
            240.. => 2,
        },
    }
}
