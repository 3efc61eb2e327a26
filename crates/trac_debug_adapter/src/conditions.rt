//! When a breakpoint stops that is met: under a condition, or at some of its hits.

use crate::messages::text_at;
use serde_json::Value;
use std::alloc::{AllocError, Allocator};
use trac_dialogue::{Word, words_of};
use trac_session::{Form, Item};
use trac_sight::{Sight, performed_in};

/// When a breakpoint stops that is met.
#[derive(Drop)]
pub(crate) struct When<A: Allocator + Copy> {
    /// What has to hold; none, if nothing has to.
    pub(crate) condition: Option<Condition<A>>,
    /// At which hits it stops; none, if at all.
    pub(crate) hits: Option<Hits>,
}

/// What has to hold where a breakpoint is met: a text is this, or is another one.
#[derive(Drop)]
pub(crate) struct Condition<A: Allocator + Copy> {
    subject: Subject<A>,
    text: Vec<u8, A>,
    is_same: bool,
}

// What a condition looks at.
#[derive(Drop)]
enum Subject<A: Allocator + Copy> {
    // the argument of this number of the call that comes next, its name being number 0
    Argument(usize),
    // the form of this name, without its gaps
    Form(Vec<u8, A>),
}

/// At which hits a breakpoint stops.
#[derive(Clone, Copy, Debug, PartialEq, Eq)]
pub(crate) struct Hits {
    relation: Relation,
    number: u64,
}

// How the number of a hit is compared.
#[derive(Clone, Copy, Debug, PartialEq, Eq)]
enum Relation {
    Is,
    AtLeast,
    Above,
    AtMost,
    Below,
    Divides,
}

// How each is written; the longer before what they begin with.
const RELATIONS: [(&str, Relation); 7] = [
    ("==", Relation::Is),
    ("=", Relation::Is),
    (">=", Relation::AtLeast),
    (">", Relation::Above),
    ("<=", Relation::AtMost),
    ("<", Relation::Below),
    ("%", Relation::Divides),
];

const NO_CONDITION: &str =
    "a condition is NAME = TEXT, NAME != TEXT, or so of the number of an argument";

const NO_HITS: &str = "hits are a number, or one after =, >, >=, <, <= or %";

/// When a breakpoint stops, as the editor asks for it, or why that is not understood. The error is that memory was
/// refused, here and below.
pub(crate) fn when_of<A: Allocator + Copy>(
    alloc: A,
    wanted: &Value,
) -> Result<Result<When<A>, &'static str>, AllocError> {
    let condition = match asked_at(wanted, "/condition") {
        None => None,
        Some(line) => match condition_of(alloc, line)? {
            Some(condition) => Some(condition),
            None => return Ok(Err(NO_CONDITION)),
        },
    };
    let hits = match asked_at(wanted, "/hitCondition") {
        None => None,
        Some(text) => match hits_of(text) {
            Some(hits) => Some(hits),
            None => return Ok(Err(NO_HITS)),
        },
    };
    Ok(Ok(When { condition, hits }))
}

// The text there without the blanks around it; none, if it is empty.
fn asked_at<'v>(wanted: &'v Value, path: &str) -> Option<&'v str> {
    let text = text_at(wanted, path)?.trim();
    if text.is_empty() { None } else { Some(text) }
}

// What a line says has to hold; none, if it is not understood.
fn condition_of<A: Allocator + Copy>(
    alloc: A,
    line: &str,
) -> Result<Option<Condition<A>>, AllocError> {
    let Some((left, right)) = line.split_once("=") else {
        return Ok(None);
    };
    let (left, is_same) = match left.strip_suffix("!") {
        Some(left) => (left, false),
        None => (left, true),
    };
    let right = right.strip_prefix("=").unwrap_or(right);
    let (Some(left), Some(right)) = (only_word(alloc, left)?, only_word(alloc, right)?) else {
        return Ok(None);
    };
    Ok(Some(Condition {
        subject: subject_of(left),
        text: right.text,
        is_same,
    }))
}

// The word that a text is; none, if it is several, or none.
fn only_word<A: Allocator + Copy>(alloc: A, text: &str) -> Result<Option<Word<A>>, AllocError> {
    let Some(mut words) = words_of(alloc, text.as_bytes())? else {
        return Ok(None);
    };
    let word = words.pop();
    Ok(if words.is_empty() { word } else { None })
}

// What a word names: an argument by its number, and else a form.
fn subject_of<A: Allocator + Copy>(word: Word<A>) -> Subject<A> {
    let Word { text, quoted } = word;
    match number_of(text.as_slice()) {
        Some(number) if !quoted => Subject::Argument(number),
        _ => Subject::Form(text),
    }
}

// The number that a text is; none, if it is no number.
fn number_of(text: &[u8]) -> Option<usize> {
    let text = str::from_utf8(text).ok()?;
    text.parse::<usize>().ok()
}

// At which hits a text says that a breakpoint stops; none, if it is not understood.
fn hits_of(text: &str) -> Option<Hits> {
    let mut relation = Relation::Is;
    let mut number = text;
    for (sign, meaning) in RELATIONS {
        if let Some(rest) = text.strip_prefix(sign) {
            relation = meaning;
            number = rest;
            break;
        }
    }
    let number = number.trim().parse::<u64>().ok()?;
    if number == 0 && relation == Relation::Divides {
        return None;
    }
    Some(Hits { relation, number })
}

impl Hits {
    /// Whether this hit is one of them, the first being number 1.
    pub(crate) fn hold(self, hit: u64) -> bool {
        match self.relation {
            Relation::Is => hit == self.number,
            Relation::AtLeast => hit >= self.number,
            Relation::Above => hit > self.number,
            Relation::AtMost => hit <= self.number,
            Relation::Below => hit < self.number,
            Relation::Divides => hit.checked_rem(self.number) == Some(0),
        }
    }
}

impl<A: Allocator + Copy> When<A> {
    /// Whether what has to hold does at the call that comes next.
    pub(crate) fn holds(&self, sight: &Sight<'_, A>) -> bool {
        match &self.condition {
            None => true,
            Some(condition) => condition.holds(sight),
        }
    }
}

impl<A: Allocator + Copy> Condition<A> {
    fn holds(&self, sight: &Sight<'_, A>) -> bool {
        let text = self.text.as_slice();
        let is_text = match &self.subject {
            Subject::Argument(number) => {
                performed_in(sight).is_some_and(|arguments| arguments.get(*number) == text)
            }
            Subject::Form(name) => sight
                .store
                .get(name.as_slice())
                .is_some_and(|form| reads_as(form, text)),
        };
        is_text == self.is_same
    }
}

// Whether a form without its gaps is this text.
fn reads_as<A: Allocator + Copy>(form: &Form<A>, text: &[u8]) -> bool {
    let mut count = 0;
    for place in 0..form.len() {
        if let Some(Item::Byte(byte)) = form.item(place) {
            if text.get(count) != Some(&byte) {
                return false;
            }
            count += 1;
        }
    }
    count == text.len()
}
