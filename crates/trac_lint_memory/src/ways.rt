//! What is known of the places through which bytes were followed back, so that no way is gone twice.

use crate::stand::Stand;
use std::alloc::{AllocError, Allocator};
use std::collections::BTreeMap;

// So many places in forms, and so many others, are remembered; if there are more, all of them are forgotten.
const KNOWN_LIMIT: usize = 262_144;

// Over so many steps a byte of a form is followed at once: then it is looked whether the form is the same.
const PART: u64 = 4_096;

// So many forms are remembered; if there are more, all of them are forgotten.
const FORM_LIMIT: usize = 65_536;

/// A place of the state before the step of a number, with a number for the name of its form.
#[derive(Clone, Copy, PartialEq, Eq, PartialOrd, Ord, Debug)]
pub struct Post {
    pub step: u64,
    pub stand: Stand,
    pub name: u64,
}

/// From which step to which a form was seen not to change, but for its pointer, and how many items it has.
#[derive(Clone, Copy, PartialEq, Eq, Debug)]
pub struct Span {
    pub from: u64,
    pub to: u64,
    pub len: usize,
}

/// Since which step a form has not changed, at the latest, and over how many steps before that it is to be followed
/// until what is known is looked at again.
#[derive(Clone, Copy, PartialEq, Eq, Debug)]
pub struct Since {
    pub from: u64,
    pub most: u64,
}

// The last two spans of a form that are known.
#[derive(Clone, Copy)]
struct Spans {
    last: Span,
    before: Option<Span>,
}

/// What is known.
#[derive(Drop)]
pub struct Ways<A: Allocator + Copy> {
    // which byte of the files stands at a place of a form, and at one of another kind
    forms: BTreeMap<Post, u64, A>,
    others: BTreeMap<Post, u64, A>,
    // where a form is known not to change, by the number of its name
    spans: BTreeMap<u64, Spans, A>,
}

impl<A: Allocator + Copy> Ways<A> {
    /// Nothing is known. It takes no memory.
    pub fn new(alloc: A) -> Self {
        Ways {
            forms: BTreeMap::new(alloc),
            others: BTreeMap::new(alloc),
            spans: BTreeMap::new(alloc),
        }
    }

    /// Which byte of the files stands at a place, if that is known.
    pub fn number(&self, post: Post) -> Option<u64> {
        let known = match post.stand {
            Stand::Form(_) => self.forms.get(&post),
            _ => self.others.get(&post),
        };
        known.copied()
    }

    /// Keeps which byte of the files stands at a place. The error is that memory was refused, here and below.
    pub fn keep(&mut self, post: Post, number: u64) -> Result<(), AllocError> {
        match post.stand {
            Stand::Form(_) => keep_in(&mut self.forms, KNOWN_LIMIT, post, number),
            _ => keep_in(&mut self.others, KNOWN_LIMIT, post, number),
        }
    }

    /// Since when a form of this name is as it was seen to be over these steps. From now on that is known too, unless
    /// more is known of a later form of the name.
    pub fn since(&mut self, name: u64, seen: Span) -> Result<Since, AllocError> {
        let spans = match self.spans.get(&name) {
            Some(spans) if seen.to < spans.last.from => {
                return Ok(Since {
                    from: seen.from,
                    most: PART,
                });
            }
            Some(spans) => spans_with(*spans, seen),
            None => Spans {
                last: seen,
                before: None,
            },
        };
        keep_in(&mut self.spans, FORM_LIMIT, name, spans)?;
        Ok(since_in(spans))
    }
}

// Two spans, and what was seen of the same form or of a later one.
fn spans_with(spans: Spans, seen: Span) -> Spans {
    if !is_shared(spans.last, seen) {
        return Spans {
            last: seen,
            before: Some(spans.last),
        };
    }
    let last = joined(spans.last, seen);
    match spans.before {
        Some(before) if is_shared(before, last) => Spans {
            last: joined(before, last),
            before: None,
        },
        before => Spans { last, before },
    }
}

// Since when the later of two spans began, and how far it may be to the end of the other.
fn since_in(spans: Spans) -> Since {
    let from = spans.last.from;
    let most = match spans.before {
        Some(before) if before.len == spans.last.len => PART.min(from.saturating_sub(before.to)),
        _ => PART,
    };
    Since { from, most }
}

// Whether two spans share a step, and are of one form.
fn is_shared(one: Span, other: Span) -> bool {
    one.len == other.len && one.from <= other.to && other.from <= one.to
}

// The steps of two spans that share one.
fn joined(one: Span, other: Span) -> Span {
    Span {
        from: one.from.min(other.from),
        to: one.to.max(other.to),
        len: one.len,
    }
}

// Keeps a value, and forgets all others first if there are so many.
fn keep_in<K: Ord + Drop, V: Drop, A: Allocator + Copy>(
    map: &mut BTreeMap<K, V, A>,
    limit: usize,
    key: K,
    value: V,
) -> Result<(), AllocError> {
    if map.len() >= limit {
        map.clear();
    }
    match map.insert(key, value) {
        Ok(_) => Ok(()),
        Err(_) => Err(AllocError),
    }
}
