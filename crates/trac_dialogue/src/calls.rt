//! The calls that a line asks for, which a move looks for.

use crate::splitting::Word;
use std::alloc::{AllocError, Allocator};

/// What an argument of a call has to be that is looked for, its name first.
#[derive(Clone, Copy)]
pub enum Wanted<'a> {
    /// This text.
    Text(&'a [u8]),
    /// Any text.
    Any,
    /// A text that ends in a number greater than this.
    Greater(&'a [u8]),
    /// A text that ends in a number less than this.
    Less(&'a [u8]),
    /// None: with the next word another call begins, which may be met too.
    Or,
}

/// Calls that are looked for, by their first arguments.
#[derive(Clone, Copy)]
pub struct Calls<'a> {
    /// The words, as they were typed.
    pub texts: &'a [&'a [u8]],
    /// What each of them means.
    pub wanted: &'a [Wanted<'a>],
}

impl<'a> Calls<'a> {
    /// Whether one call is meant, and each word is an argument.
    pub fn is_plain(self) -> bool {
        self.wanted
            .iter()
            .all(|wanted| matches!(*wanted, Wanted::Text(_)))
    }

    /// Whether each call that is meant has a word, or there are no words at all.
    pub fn is_whole(self) -> bool {
        let mut is_begun = self.wanted.is_empty();
        for wanted in self.wanted {
            match *wanted {
                Wanted::Or if !is_begun => return false,
                Wanted::Or => is_begun = false,
                _ => is_begun = true,
            }
        }
        is_begun
    }

    /// The same without the first word.
    pub fn rest(self) -> Self {
        match (self.texts, self.wanted) {
            ([_, texts @ ..], [_, wanted @ ..]) => Calls { texts, wanted },
            _ => self,
        }
    }
}

/// What each of these words means in a call that is looked for: `*` any text, `>N` and `<N` a number, `|` that another
/// call follows, and else itself. So does a word in quotes. The error is that memory was refused.
pub fn wanted_of<'w, A: Allocator + Copy>(
    alloc: A,
    words: &'w Vec<Word<A>, A>,
) -> Result<Vec<Wanted<'w>, A>, AllocError> {
    let mut wanted = Vec::new(alloc);
    for word in words {
        wanted.push(meaning(word.text.as_slice(), word.quoted))?;
    }
    Ok(wanted)
}

// What a word means, in quotes or not.
fn meaning<'w>(text: &'w [u8], is_quoted: bool) -> Wanted<'w> {
    if is_quoted {
        return Wanted::Text(text);
    }
    match text {
        b"*" => Wanted::Any,
        b"|" => Wanted::Or,
        [b'>', number @ ..] if is_number(number) => Wanted::Greater(number),
        [b'<', number @ ..] if is_number(number) => Wanted::Less(number),
        text => Wanted::Text(text),
    }
}

// Whether a word writes a number, perhaps with a sign.
fn is_number(word: &[u8]) -> bool {
    let digits = match word {
        [b'-' | b'+', digits @ ..] => digits,
        digits => digits,
    };
    !digits.is_empty() && digits.iter().all(|byte| byte.is_ascii_digit())
}
