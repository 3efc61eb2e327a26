//! The neutral text with its marks, read as the text outside all functions and the begun functions.
ghost use Rattle.std.specs.Prelude.{◌≡◌, ◌==◌, ◌≤◌, [], length, reverse, slice_get, MatchOption};
ghost use Rattle.trac_text.specs.Frames.{IsFrame, IsInnermost};
ghost use Rattle.trac_text.specs.Neutral.{AreMarks, IsDepth, IsOrdered, MarkedText};
ghost use Rattle.trac_text.specs.Neutral.{cut_back, marked_text_code, neutral_of};

use crate::args::Args;
use crate::begun::BegunFunctions;
use crate::mark::Mark;
use std::marker::Model;
use trac_rules::kind::Kind;

/// A neutral text with its marks, borrowed: the marks are in order, and the first of them begins a function. It knows
/// how many functions are begun. Base text and begun functions are read from it.
#[derive(Drop)]
pub struct NeutralText<'a> {
    text: &'a [u8],
    marks: &'a [Mark],
    // how many of the marks begin functions
    functions: usize,
}

impl<'a> Model for NeutralText<'a> {
    ghost Value = { MarkedText };

    ghost coded = { marked_text_code };

    ghost view = { λ n. record { text = n.text.now; marks = n.marks.now } };

    ghost invariant = { λ n. IsOrdered (record { text = n.text.now; marks = n.marks.now })
        × IsDepth n.functions (record { text = n.text.now; marks = n.marks.now }) };
}

/// The innermost begun function.
#[derive(Drop)]
pub struct Innermost<'a> {
    /// The number of the mark at which it begins, the first mark being number 0.
    pub number: usize,
    /// How many bytes of the neutral text stand before it.
    pub place: usize,
    /// Its kind.
    pub kind: Kind,
    /// All its arguments, of which the last is being gathered.
    pub arguments: Args<'a>,
}

impl<'a> NeutralText<'a> {
    /// This text with these marks, so many of which have to begin functions. No place of a mark may be less
    /// than that of a mark before it, or pass the end of the text, and the first of the marks has to begin
    /// a function. Nothing is copied.
    pub fn new(text: &'a [u8], marks: &'a [Mark], functions: usize) -> NeutralText<'a>
        requires marks { AreMarks (length text.now) (reverse marks.now) }
        requires functions { IsDepth functions (record { text = text.now; marks = marks.now }) }
        ensures { result ≡ record { text = text.now; marks = marks.now } }
    {
        NeutralText {
            text,
            marks,
            functions,
        }
    }

    /// Whether no function is begun, by T-64's rules of scanning. It takes the same time however long the text is.
    pub fn is_outside(&self) -> bool
        ensures { result ≡ (length (neutral_of self.now).frames == 0) }
    {
        self.marks.is_empty()
    }

    /// The text outside all begun functions, a front of T-64's neutral string.
    pub fn base(&self) -> &'a [u8]
        ensures { result.now ≡ (neutral_of self.now).base }
    {
        if self.marks.is_empty() {
            return self.text;
        }
        self.text.split_at(self.marks[0].place).0
    }

    /// How many functions are begun, by T-64's rules of scanning, and not ended. It is known, so this takes the
    /// same time however many these are.
    pub fn depth(&self) -> usize
        ensures { result ≡ length (neutral_of self.now).frames }
    {
        self.functions
    }

    /// The innermost begun function, which the next `)` ends by T-64's rule; none if no function is begun.
    pub fn innermost(&self) -> Option<Innermost<'a>>
        ensures { MatchOption result ((neutral_of self.now).frames ≡ [])
            (λ f. IsInnermost self.now f.number f.place f.kind f.arguments) }
    {
        innermost_in(self.text, self.marks)
    }

    /// The text before its innermost function, which this one has to be. Nothing is copied.
    pub fn before(&self, innermost: &Innermost<'a>) -> NeutralText<'a>
        requires { IsInnermost self.now innermost.now.number innermost.now.place innermost.now.kind
            innermost.now.arguments }
        ensures { result ≡ cut_back innermost.now.number innermost.now.place self.now }
    {
        NeutralText {
            text: self.text.split_at(innermost.place).0,
            marks: self.marks.split_at(innermost.number).0,
            functions: self.functions - 1,
        }
    }

    /// The begun function of this number, the outermost being number 0: its kind, and all its arguments, of which the
    /// last is being gathered. None past the innermost. It takes time for the marks of this
    /// function and of those inside it alone.
    pub fn frame(&self, i: usize) -> Option<(Kind, Args<'a>)>
        ensures { MatchOption result (length (neutral_of self.now).frames ≤ i)
            (λ r. IsFrame (slice_get (reverse (neutral_of self.now).frames) i) r.0 r.1) }
    {
        if i >= self.functions {
            return None;
        }
        let mut rest = NeutralText {
            text: self.text,
            marks: self.marks,
            functions: self.functions,
        };
        while let Some(innermost) = rest.innermost() {
            rest = rest.before(&innermost);
            if rest.depth() == i {
                return Some((innermost.kind, innermost.arguments));
            }
        }
        None
    }

    /// The begun functions, one after another from the outermost on. Nothing is copied.
    pub fn begun_functions(&self) -> BegunFunctions<'a>
        ensures { result ≡ reverse (neutral_of self.now).frames }
    {
        BegunFunctions::new(self.text, self.marks)
    }
}

// The innermost function of a text with these marks. It begins at the last mark that begins one, and each mark after
// that begins an argument of it. None if no function is begun.
pub(crate) fn innermost_in<'a>(text: &'a [u8], marks: &'a [Mark]) -> Option<Innermost<'a>>
    requires { IsOrdered (record { text = text.now; marks = marks.now }) }
    ensures { MatchOption result ((neutral_of (record { text = text.now; marks = marks.now })).frames ≡ [])
        (λ f. IsInnermost (record { text = text.now; marks = marks.now }) f.number f.place f.kind f.arguments) }
{
    let mut number = marks.len();
    while number > 0 {
        number -= 1;
        if let Some(kind) = marks[number].frame {
            let place = marks[number].place;
            return Some(Innermost {
                number,
                place,
                kind,
                arguments: Args::new(text, marks.split_at(number + 1).1, place),
            });
        }
    }
    None
}
