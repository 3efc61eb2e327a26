//! How bytes, texts and numbers are shown. The error of each function is that memory was refused.
ghost use Rattle.std.specs.Prelude.{◌≡◌, ◌++◌, ◌<◌, codes, OnOk, decimal};
ghost use Rattle.std.specs.Char.{digit_char};
ghost use Rattle.trac_streams.specs.Escapes.{bracketed, escaped, escaped_byte, is_shown, number_line, text_line};

use itoa::Buffer;
use std::alloc::{AllocError, Allocator};
use trac_rules::byte::LINE_FEED;

// Whether a byte is shown as itself.
fn is_plain(byte: u8) -> bool
    ensures { result ≡ is_shown byte }
{
    matches!(byte, 32..=126) && !matches!(byte, b'[' | b'\\' | b']')
}

// A hexadecimal digit, in lower case.
fn hexadecimal_digit(digit: u8) -> u8
    requires { digit < 16 }
    ensures { result ≡ digit_char digit }
{
    if digit < 10 {
        b'0' + digit
    } else {
        b'a' + (digit - 10)
    }
}

/// Puts a byte at the end of a text, as `escaped_into` does.
pub fn byte_into<A: Allocator>(byte: u8, out: &mut Vec<u8, A>) -> Result<(), AllocError>
    ensures { OnOk result (out.new.items ≡ out.old.items ++ escaped_byte byte) }
{
    if is_plain(byte) {
        return Ok(out.push(byte)?);
    }
    out.extend_from_slice(b"\\x")?;
    out.push(hexadecimal_digit(byte / 16))?;
    Ok(out.push(hexadecimal_digit(byte % 16))?)
}

/// Puts a text in brackets at the end of another one, byte by byte: bytes 32 to 126 but for `[`, `\` and `]` as
/// themselves, every other one as `\x` and two hexadecimal digits in lower case.
pub fn text_into<A: Allocator>(text: &[u8], out: &mut Vec<u8, A>) -> Result<(), AllocError>
    ensures { OnOk result (out.new.items ≡ out.old.items ++ bracketed text.now) }
{
    out.extend_from_slice(b"[")?;
    escaped_into(text, out)?;
    out.extend_from_slice(b"]")
}

/// Puts a text at the end of another one, byte by byte, as `text_into` does, but without brackets.
pub fn escaped_into<A: Allocator>(text: &[u8], out: &mut Vec<u8, A>) -> Result<(), AllocError>
    ensures { OnOk result (out.new.items ≡ out.old.items ++ escaped text.now) }
{
    for byte in text {
        byte_into(*byte, out)?;
    }
    Ok(())
}

/// Puts a number in decimal at the end of a text.
pub fn number_into<A: Allocator>(number: u64, out: &mut Vec<u8, A>) -> Result<(), AllocError>
    ensures { OnOk result (out.new.items ≡ out.old.items ++ decimal number) }
{
    let mut buffer = Buffer::new();
    out.extend_from_slice(buffer.format(number).as_bytes())
}

/// Puts a line of a word and a text at the end of a text.
pub fn text_line_into<A: Allocator>(
    word: &[u8],
    text: &[u8],
    out: &mut Vec<u8, A>,
) -> Result<(), AllocError>
    ensures { OnOk result (out.new.items ≡ out.old.items ++ text_line word.now text.now) }
{
    lead_into(word, text, out)?;
    Ok(out.push(LINE_FEED)?)
}

/// Puts a word and a text in brackets, with a space between them, at the end of a text.
pub fn lead_into<A: Allocator>(
    word: &[u8],
    text: &[u8],
    out: &mut Vec<u8, A>,
) -> Result<(), AllocError>
    ensures { OnOk result (out.new.items ≡ out.old.items ++ (word.now ++ (codes " " ++ bracketed text.now))) }
{
    out.extend_from_slice(word)?;
    out.extend_from_slice(b" ")?;
    text_into(text, out)
}

/// Puts a line of a word and a number at the end of a text.
pub fn number_line_into<A: Allocator>(
    word: &[u8],
    number: u64,
    out: &mut Vec<u8, A>,
) -> Result<(), AllocError>
    ensures { OnOk result (out.new.items ≡ out.old.items ++ number_line word.now number) }
{
    out.extend_from_slice(word)?;
    out.extend_from_slice(b" ")?;
    number_into(number, out)?;
    Ok(out.push(LINE_FEED)?)
}
