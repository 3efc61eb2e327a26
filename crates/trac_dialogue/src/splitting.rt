//! The words of a line that a person types.
ghost use Rattle.std.specs.Prelude.{◌≤◌, ◌<◌, length, IfOk, IfSome};

use std::alloc::{AllocError, Allocator};

/// A word of a line.
#[derive(Drop)]
pub struct Word<A: Allocator + Copy> {
    /// Its bytes; of a word in quotes, those that it stands for.
    pub text: Vec<u8, A>,
    /// Whether it stood in quotes.
    pub quoted: bool,
}

// A word at the front of a text, and how many bytes of the text it takes.
#[derive(Drop)]
struct Found<A: Allocator + Copy> {
    word: Word<A>,
    len: usize,
}

/// The words of a line, which any blanks and tabs stand between. A word may stand in quotes, and in those `\n` is a
/// line feed, `\xHH` the byte of that hexadecimal number, and `\"` and `\\` are the second of the two. After the word
/// `i` the rest of the line is one word, unless it stands in quotes. None if quotes are not ended, or hold another `\`.
/// The error is that memory was refused.
pub fn words_of<A: Allocator + Copy>(
    alloc: A,
    line: &[u8],
) -> Result<Option<Vec<Word<A>, A>>, AllocError> {
    let mut words = Vec::new(alloc);
    let mut rest = without_blanks(line);
    while !rest.is_empty() {
        let Some(found) = first_word(alloc, rest, feeds(&words))? else {
            return Ok(None);
        };
        let Found { word, len } = found;
        words.push(word)?;
        rest = without_blanks(rest.split_at(len).1);
    }
    Ok(Some(words))
}

/// Whether a line has words.
pub fn has_words(line: &[u8]) -> bool {
    !without_blanks(line).is_empty()
}

/// What stands in a line after its first word and the blanks behind that.
pub fn after_first(line: &[u8]) -> &[u8] {
    let line = without_blanks(line);
    if line.is_empty() {
        return line;
    }
    without_blanks(line.split_at(plain_len(line)).1)
}

/// The bytes of words. The error is that memory was refused.
pub fn texts_of<'w, A: Allocator + Copy>(
    alloc: A,
    words: &'w Vec<Word<A>, A>,
) -> Result<Vec<&'w [u8], A>, AllocError> {
    let mut texts = Vec::new(alloc);
    for word in words {
        texts.push(word.text.as_slice())?;
    }
    Ok(texts)
}

/// Whether the second of these words stood in quotes.
pub fn is_second_quoted<A: Allocator + Copy>(words: &Vec<Word<A>, A>) -> bool {
    match words.as_slice() {
        [_, second, ..] => second.quoted,
        _ => false,
    }
}

// Whether these words are `i` alone.
fn feeds<A: Allocator + Copy>(words: &Vec<Word<A>, A>) -> bool {
    match words.as_slice() {
        [only] => only.text.as_slice() == b"i".as_slice(),
        _ => false,
    }
}

// Whether a byte may stand between two words.
fn is_blank(byte: u8) -> bool {
    byte == b' ' || byte == b'\t'
}

// A text without the blanks at its front.
fn without_blanks(text: &[u8]) -> &[u8]
    ensures { length result.now ≤ length text.now }
{
    for (place, byte) in text.iter().enumerate() {
        if !is_blank(*byte) {
            return text.split_at(place).1;
        }
    }
    &[]
}

// The word at the front of a text that is not empty; the whole text if that is wanted and no quote begins it.
fn first_word<A: Allocator + Copy>(
    alloc: A,
    text: &[u8],
    whole: bool,
) -> Result<Option<Found<A>>, AllocError>
    requires { 0 < length text.now }
    ensures { IfOk result (λ found. IfSome found (λ f. (0 < f.len) × (f.len ≤ length text.now))) }
{
    if text[0] == b'"' {
        return quoted_word(alloc, text);
    }
    let len = if whole { text.len() } else { plain_len(text) };
    let text = Vec::from_slice(alloc, text.split_at(len).0)?;
    Ok(Some(Found {
        word: Word {
            text,
            quoted: false,
        },
        len,
    }))
}

// How many bytes stand before the first blank, which does not begin the text.
fn plain_len(text: &[u8]) -> usize
    requires { 0 < length text.now }
    ensures some { 0 < result }
    ensures within { result ≤ length text.now }
{
    for place in 1..text.len() {
        if is_blank(text[place]) {
            return place;
        }
    }
    text.len()
}

// The word in quotes that begins a text; none if it does not end, or if a `\` in it stands for nothing.
fn quoted_word<A: Allocator + Copy>(alloc: A, text: &[u8]) -> Result<Option<Found<A>>, AllocError>
    ensures { IfOk result (λ found. IfSome found (λ f. (0 < f.len) × (f.len ≤ length text.now))) }
{
    let mut bytes = Vec::new(alloc);
    let mut at = 1;
    while at < text.len() {
        if text[at] == b'"' {
            return Ok(Some(Found {
                word: Word {
                    text: bytes,
                    quoted: true,
                },
                len: at + 1,
            }));
        }
        let Some((byte, len)) = quoted_byte(text.split_at(at).1) else {
            return Ok(None);
        };
        bytes.push(byte)?;
        at += len;
    }
    Ok(None)
}

// The byte that the front of a text in quotes stands for, and how many bytes it takes to write it.
fn quoted_byte(text: &[u8]) -> Option<(u8, usize)>
    ensures { IfSome result (λ r. (0 < r.1) × (r.1 ≤ length text.now)) }
{
    match text {
        [b'\\', b'n', ..] => Some((b'\n', 2)),
        [b'\\', b'x', high, low, ..] => {
            let high = hexadecimal_value(*high)?;
            let low = hexadecimal_value(*low)?;
            Some((16 * high + low, 4))
        }
        [b'\\', b'\\', ..] => Some((b'\\', 2)),
        [b'\\', b'"', ..] => Some((b'"', 2)),
        [b'\\', ..] => None,
        [byte, ..] => Some((*byte, 1)),
        [] => None,
    }
}

// What a hexadecimal digit stands for.
fn hexadecimal_value(digit: u8) -> Option<u8>
    ensures { IfSome result (λ value. value < 16) }
{
    match digit {
        b'0'..=b'9' => Some(digit - b'0'),
        b'a'..=b'f' => Some(digit - b'a' + 10),
        b'A'..=b'F' => Some(digit - b'A' + 10),
        _ => None,
    }
}
