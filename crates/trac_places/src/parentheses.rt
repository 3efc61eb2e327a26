//! Where a parenthesis of a text may be missing, or one too many: a guess by the bytes beside it, and by how lines are
//! indented. All of it is this project's profile.
ghost use Rattle.std.specs.Prelude.{◌≡◌, ◌⊎◌, ◌≤◌, ◌<◌, ◌+◌, length, None, IfOk};
ghost use Rattle.trac_places.specs.Places.{IsTooDeep, IsWithin, fault_words};
ghost use Rattle.trac_rules.specs.Matching.{IsBalanced};

use std::alloc::{AllocError, Allocator};
use trac_rules::byte::{CARRIAGE_RETURN, CLOSING, COMMA, LINE_FEED, OPENING, SHARP, TAB};

/// Of a text in which so many parentheses are begun at once nothing is guessed.
pub const DEPTH_LIMIT: usize = 65_536;

/// What may be wrong with a parenthesis.
#[derive(Clone, Copy, Debug, PartialEq, Eq)]
pub enum Fault {
    /// A `(` may be missing.
    MissingOpening,
    /// A `)` may be missing.
    MissingClosing,
    /// A `(` may be one too many.
    SurplusOpening,
    /// A `)` may be one too many.
    SurplusClosing,
}

/// Which parenthesis of a text may be wrong: the number of its byte, the first being number 0. Of one that may be
/// missing it is that of the byte before which it may be, or the text's length.
#[derive(Clone, Copy, Debug, PartialEq, Eq)]
pub struct Advice {
    /// What may be wrong.
    pub fault: Fault,
    /// The number of the byte.
    pub place: usize,
}

// What a `(` begins: a call, a protected text that begins with a call, or another protected text.
#[derive(Clone, Copy, PartialEq, Eq)]
enum Kind {
    Call,
    Code,
    Text,
}

// A `(` whose match is not met, and by how many blanks the line is indented on which it stands.
#[derive(Clone, Copy)]
struct Begun {
    kind: Kind,
    indent: usize,
}

// What stands before a byte of a text.
#[derive(Clone, Copy)]
struct Before {
    // the number of the byte after the last one that is no blank, and this last one
    end: usize,
    byte: u8,
    // what it ends, if it is the match of a `(`
    ended: Option<Kind>,
    // whether only blanks stand before on the same line, and how many
    is_fresh: bool,
    blanks: usize,
    // by how many blanks the line is indented, if others do
    indent: usize,
}

// A byte of a text, and what stands before it.
#[derive(Clone, Copy)]
struct Here {
    place: usize,
    byte: u8,
    before: Before,
    // the innermost `(` whose match is not met
    inner: Option<Begun>,
}

// The first places of a text that look wrong, if a `)` is missing or a `(` one too many, and the other way round. A `(`
// within a word is a weaker sign than others.
#[derive(Clone, Copy)]
struct Signs {
    unclosed: Option<Advice>,
    within: Option<Advice>,
    unbegun: Option<Advice>,
}

/// Which parenthesis of a text is probably wrong; none if each has its match, or too many are begun at once. The error
/// is that memory was refused.
pub fn advice_on<A: Allocator + Copy>(alloc: A, text: &[u8]) -> Result<Option<Advice>, AllocError>
    ensures within { IfOk result (λ given. IsWithin text.now given) }
    ensures balanced { IfOk result (λ given. IsBalanced text.now → given ≡ None) }
    ensures unbalanced { IfOk result (λ given. given ≡ None → IsBalanced text.now ⊎ IsTooDeep text.now) }
{
    let mut begun: Vec<Begun, A> = Vec::new(alloc);
    let mut before = Before::nothing();
    let mut signs = Signs::none();
    for (place, byte) in text.iter().enumerate() {
        let here = Here {
            place,
            byte: *byte,
            before,
            inner: begun.last().copied(),
        };
        signs = signs.or_of(here, text);
        if *byte == OPENING {
            if begun.len() >= DEPTH_LIMIT {
                return Ok(None);
            }
            begun.push(here.begins(text))?;
        } else if *byte == CLOSING && begun.pop().is_none() {
            return Ok(Some(
                signs.unbegun.unwrap_or(Advice {
                    fault: Fault::SurplusClosing,
                    place,
                }),
            ));
        }
        before = here.passed();
    }
    if begun.is_empty() {
        return Ok(None);
    }
    Ok(Some(
        signs.unclosed.or(signs.within).unwrap_or(Advice {
            fault: Fault::MissingClosing,
            place: before.end,
        }),
    ))
}

impl Fault {
    /// What is said of it.
    pub fn words(self) -> &'static [u8]
        ensures { result.now ≡ fault_words self }
    {
        match self {
            Fault::MissingOpening => b"a ( may be missing here",
            Fault::MissingClosing => b"a ) may be missing here",
            Fault::SurplusOpening => b"this ( may be one too many",
            Fault::SurplusClosing => b"this ) may be one too many",
        }
    }
}

impl Before {
    // At the beginning, which is taken for that of an argument.
    fn nothing() -> Self
        ensures { result.end ≡ 0 }
    {
        Before {
            end: 0,
            byte: COMMA,
            ended: None,
            is_fresh: true,
            blanks: 0,
            indent: 0,
        }
    }
}

impl Here {
    // What stands before the next byte.
    fn passed(self) -> Before
        requires { self.before.end ≤ self.place }
        ensures { result.end ≤ self.place + 1 }
    {
        if self.byte == LINE_FEED {
            return Before {
                is_fresh: true,
                blanks: 0,
                ..self.before
            };
        }
        if is_blank(self.byte) {
            return Before {
                blanks: self.before.blanks.saturating_add(1),
                ..self.before
            };
        }
        Before {
            end: self.place.saturating_add(1),
            byte: self.byte,
            ended: self.ends(),
            is_fresh: false,
            blanks: 0,
            indent: self.indent(),
        }
    }

    // What it ends, if it is the match of a `(`.
    fn ends(self) -> Option<Kind> {
        match self.inner {
            Some(inner) if self.byte == CLOSING => Some(inner.kind),
            _ => None,
        }
    }

    // What begins with this `(`.
    fn begins(self, text: &[u8]) -> Begun
        requires { self.place < length text.now }
    {
        let kind = if byte_before(text, self.place) == SHARP {
            Kind::Call
        } else if begins_with_call(text, self.place) {
            Kind::Code
        } else {
            Kind::Text
        };
        Begun {
            kind,
            indent: self.indent(),
        }
    }

    // By how many blanks its line is indented. A line that begins with a `)` counts as that of its `(`: a line end
    // that is to be printed often stands before.
    fn indent(self) -> usize {
        match self.inner {
            _ if !self.before.is_fresh => self.before.indent,
            Some(inner) if self.byte == CLOSING => inner.indent,
            _ => self.before.blanks,
        }
    }

    // Whether it stands in the arguments of a call.
    fn is_in_call(self) -> bool {
        self.inner.is_some_and(|inner| inner.kind == Kind::Call)
    }

    // Whether it stands in a protected text that begins with no call, so mostly in prose.
    fn is_in_text(self) -> bool {
        self.inner.is_some_and(|inner| inner.kind == Kind::Text)
    }

    // Whether it seldom stands after a `)` that is before it, or, if it begins a line, after what ends the one before.
    fn is_odd(self) -> bool {
        if let Some(kind) = self.before.ended
            && self.is_odd_after(kind)
        {
            return true;
        }
        // a line goes on with an argument by a call
        self.byte == SHARP
            && self.before.is_fresh
            && self.is_in_call()
            && !matches!(self.before.byte, COMMA | OPENING)
    }

    // Whether it seldom stands after a `)` that ends this.
    fn is_odd_after(self, kind: Kind) -> bool {
        match self.byte {
            // a comma outside the arguments of calls
            COMMA => !self.is_in_call(),
            // a line that begins with a `)`, and is indented otherwise than that of the `(`
            CLOSING => self.before.is_fresh && self.is_indented_otherwise(),
            OPENING => false,
            // a protected call that is only a part of an argument
            SHARP => kind == Kind::Code,
            // other text after a protected one, but in prose
            _ => kind != Kind::Call && !self.is_in_text(),
        }
    }

    // Whether the blanks before it are more or less than those before the line of the innermost `(`.
    fn is_indented_otherwise(self) -> bool {
        self.inner
            .is_some_and(|inner| inner.indent != self.before.blanks)
    }

    // What may be wrong, if a `)` is missing or a `(` one too many.
    fn sign_of_unclosed(self, text: &[u8]) -> Option<Advice>
        requires end { self.before.end ≤ self.place }
        requires place { self.place < length text.now }
        ensures { IsWithin text.now result }
    {
        if self.is_odd() {
            return Some(Advice {
                fault: Fault::MissingClosing,
                place: self.before.end,
            });
        }
        // two in a row
        if self.byte == OPENING && byte_before(text, self.place) == OPENING {
            return Some(Advice {
                fault: Fault::SurplusOpening,
                place: self.place,
            });
        }
        None
    }

    // That this `(` may be one too many, if it stands within a word.
    fn sign_within(self, text: &[u8]) -> Option<Advice>
        requires place { self.place < length text.now }
        ensures { IsWithin text.now result }
    {
        let before = byte_before(text, self.place);
        let is_usual = is_blank(before) || matches!(before, SHARP | COMMA | OPENING | CLOSING);
        if self.byte != OPENING || is_usual {
            return None;
        }
        Some(Advice {
            fault: Fault::SurplusOpening,
            place: self.place,
        })
    }

    // What may be wrong, if a `(` is missing or a `)` one too many.
    fn sign_of_unbegun(self, text: &[u8]) -> Option<Advice>
        requires end { self.before.end ≤ self.place }
        requires place { self.place < length text.now }
        ensures { IsWithin text.now result }
    {
        // (only a `)` can be one too many: what follows another byte says nothing of one)
        if self.is_odd() && self.before.ended.is_some() {
            return Some(Advice {
                fault: Fault::SurplusClosing,
                place: self.before.end.saturating_sub(1),
            });
        }
        // a `#` before no `(`
        if self.byte == SHARP && !matches!(text.get(self.place + 1), Some(&SHARP | &OPENING)) {
            return Some(Advice {
                fault: Fault::MissingOpening,
                place: self.place + 1,
            });
        }
        None
    }
}

impl Signs {
    // Nothing looks wrong.
    fn none() -> Self
        ensures { result ≡ record { unclosed = None; within = None; unbegun = None } }
    {
        Signs {
            unclosed: None,
            within: None,
            unbegun: None,
        }
    }

    // The same with those of a byte.
    fn or_of(self, here: Here, text: &[u8]) -> Self
        requires end { here.before.end ≤ here.place }
        requires place { here.place < length text.now }
        ensures unclosed { IsWithin text.now self.unclosed → IsWithin text.now result.unclosed }
        ensures within { IsWithin text.now self.within → IsWithin text.now result.within }
        ensures unbegun { IsWithin text.now self.unbegun → IsWithin text.now result.unbegun }
    {
        if is_blank(here.byte) {
            return self;
        }
        Signs {
            unclosed: self.unclosed.or(here.sign_of_unclosed(text)),
            within: self.within.or(here.sign_within(text)),
            unbegun: self.unbegun.or(here.sign_of_unbegun(text)),
        }
    }
}

// Whether it is a blank, a tab or a line end.
fn is_blank(byte: u8) -> bool {
    matches!(byte, b' ' | TAB | CARRIAGE_RETURN | LINE_FEED)
}

// The byte before that of this number; a comma if there is none.
fn byte_before(text: &[u8], place: usize) -> u8 {
    match text.get(place.wrapping_sub(1)) {
        Some(byte) => *byte,
        None => COMMA,
    }
}

// Whether the first byte after this one that is no blank begins a call.
fn begins_with_call(text: &[u8], place: usize) -> bool
    requires { place < length text.now }
{
    for byte in &text[place + 1..] {
        if !is_blank(*byte) {
            return *byte == SHARP;
        }
    }
    false
}
