//! After each of many random edits the server's text is the editor's own, which here is a list of characters.
ghost use Rattle.std.specs.Prelude.{◌<◌, ◌≤◌, length};

use std::alloc::{AllocError, Global};
use std::process::Abort;
use trac_documents::{Encoding, Position, Range, changed, offset_of, position_of};

// Characters of one to four bytes, and what ends lines.
const SIGNS: &[char] = &[
    'a',
    '(',
    '\u{e9}',
    '\u{20ac}',
    '\u{1f600}',
    '\u{10ffff}',
    '\n',
    '\r',
];

// How many characters a text has at most, and how many edits there are.
const MOST: usize = 40;

const EDITS: u64 = 1_000;

// Numbers that look random.
#[derive(Clone, Copy)]
struct Dice {
    state: u64,
}

impl Dice {
    // The next one below n.
    fn below(&mut self, n: usize) -> usize
        requires { 0 < n }
        ensures { result < n }
    {
        let state = self
            .state
            .wrapping_mul(6_364_136_223_846_793_005)
            .wrapping_add(1_442_695_040_888_963_407);
        self.state = state;
        (state >> 33) as usize % n
    }

    // A few characters.
    fn signs(&mut self, alloc: Global) -> Result<Vec<char>, AllocError> {
        let mut signs = Vec::new(alloc);
        for turn in 0..self.below(4) {
            signs.push(SIGNS[self.below(SIGNS.len())])?;
        }
        Ok(signs)
    }

    // A place in a text: not between the two characters of a line's end.
    fn place(&mut self, text: &[char]) -> usize
        ensures { result ≤ length text.now }
    {
        let place = self.below(text.len().saturating_add(1));
        if place > 0 && place < text.len() && text[place - 1] == '\r' && text[place] == '\n' {
            return place - 1;
        }
        place
    }
}

// How many units a character has.
fn width(sign: char, encoding: Encoding) -> u64 {
    match encoding {
        Encoding::Utf8 => sign.len_utf8() as u64,
        Encoding::Utf16 => sign.len_utf16() as u64,
    }
}

// The position of a place, as an editor counts it.
fn position_at(text: &[char], place: usize, encoding: Encoding) -> Position
    requires { place ≤ length text.now }
{
    let mut line = 0_u64;
    let mut character = 0_u64;
    for at in 0..place {
        let sign = text[at];
        if sign == '\n' || sign == '\r' && text.get(at + 1) != Some(&'\n') {
            line = line.wrapping_add(1);
            character = 0;
        } else {
            character = character.wrapping_add(width(sign, encoding));
        }
    }
    Position { line, character }
}

// The bytes of characters.
fn bytes_of(alloc: Global, text: &[char]) -> Result<Vec<u8>, AllocError> {
    let mut bytes = Vec::new(alloc);
    for sign in text {
        let mut buffer = [0; 4];
        bytes.extend_from_slice(sign.encode_utf8(&mut buffer).as_bytes())?;
    }
    Ok(bytes)
}

// The characters between two places replaced by others.
fn replaced(
    alloc: Global,
    text: &[char],
    start: usize,
    end: usize,
    new: &[char],
) -> Result<Vec<char>, AllocError>
    requires start { start ≤ length text.now }
    requires end { end ≤ length text.now }
{
    let mut made = Vec::from_slice(alloc, text.split_at(start).0)?;
    made.extend_from_slice(new)?;
    made.extend_from_slice(text.split_at(end).1)?;
    Ok(made)
}

// Both texts: the editor's and the server's.
#[derive(Drop)]
struct Texts {
    editor: Vec<char>,
    server: Vec<u8>,
}

// Edits both once, at places of the editor's text.
fn edit(
    alloc: Global,
    texts: &mut Texts,
    dice: &mut Dice,
    encoding: Encoding,
) -> Result<(), AllocError> {
    let text = texts.editor.as_slice();
    if text.len() > MOST {
        texts.editor = Vec::new(alloc);
        texts.server = changed(alloc, texts.server.as_slice(), encoding, None, b"")?;
        return Ok(());
    }
    let one = dice.place(text);
    let other = dice.place(text);
    let (start, end) = (one.min(other), one.max(other));
    let new = dice.signs(alloc)?;
    let range = Range {
        start: position_at(text, start, encoding),
        end: position_at(text, end, encoding),
    };
    let bytes = bytes_of(alloc, new.as_slice())?;
    texts.server = changed(
        alloc,
        texts.server.as_slice(),
        encoding,
        Some(range),
        bytes.as_slice(),
    )?;
    texts.editor = replaced(alloc, text, start, end, new.as_slice())?;
    Ok(())
}

// Whether a place of the editor's text has the position that it counts, and that position its place.
fn is_placed(
    alloc: Global,
    texts: &Texts,
    place: usize,
    encoding: Encoding,
) -> Result<bool, AllocError>
    requires { place ≤ length texts.now.editor.items }
{
    let text = texts.editor.as_slice();
    let offset = bytes_of(alloc, text.split_at(place).0)?.len();
    let position = position_at(text, place, encoding);
    let server = texts.server.as_slice();
    Ok(
        offset_of(server, encoding, position) == offset
            && position_of(server, encoding, offset) == position,
    )
}

// Whether both texts are the same after each of many edits.
fn is_same(alloc: Global, encoding: Encoding, seed: u64) -> Result<bool, AllocError> {
    let mut dice = Dice { state: seed };
    let mut texts = Texts {
        editor: Vec::new(alloc),
        server: Vec::new(alloc),
    };
    for turn in 0..EDITS {
        edit(alloc, &mut texts, &mut dice, encoding)?;
        let bytes = bytes_of(alloc, texts.editor.as_slice())?;
        if bytes.as_slice() != texts.server.as_slice() {
            return Ok(false);
        }
        let place = dice.place(texts.editor.as_slice());
        if !is_placed(alloc, &texts, place, encoding)? {
            return Ok(false);
        }
    }
    Ok(true)
}

#[test]
fn each_edit(rt: HostRuntime) {
    assert!(rt; matches!(is_same(rt.alloc(), Encoding::Utf16, 1), Ok(true)));
    assert!(rt; matches!(is_same(rt.alloc(), Encoding::Utf8, 2), Ok(true)));
}
