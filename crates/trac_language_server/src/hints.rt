//! What is said of a primitive or a form that stands at a place, and what may stand there.
use crate::calls::{Around, call_around, name_at};
use crate::forms::{cut_of, places_of};
use crate::marked::Marked;
use crate::primitives::{PRIMITIVES, Primitive, primitive_named};
use serde_json::{Value, json};
use std::alloc::{AllocError, Global};
use trac_mentions::{KnownForm, Mentions};

// The numbers that the protocol has for what completes: a function, a variable.
const FUNCTION: u64 = 3;

const VARIABLE: u64 = 6;

/// What a primitive does, in a few lines. The error is that memory was refused, here and below.
pub(crate) fn primitive_hint(alloc: Global, primitive: &Primitive) -> Result<String, AllocError> {
    let mut words = String::from_str(alloc, primitive.call)?;
    words.push_str("\n")?;
    words.push_str(primitive.deed)?;
    words.push_str("\nExample: ")?;
    words.push_str(primitive.example)?;
    Ok(words)
}

/// What a form is, in a few lines: a call of it, its text, where the calls stand that defined it.
pub(crate) fn form_hint(
    alloc: Global,
    marked: &Marked<'_>,
    known: &Mentions,
    name: &[u8],
) -> Result<String, AllocError> {
    let mut words = String::new(alloc);
    match known.form(name) {
        Some(form) => {
            push_call(&mut words, known, form)?;
            words.push_str("\n")?;
            push_shown(&mut words, form.text.as_slice())?;
            if form.is_cut {
                words.push_str("..")?;
            }
        }
        None => {
            push_shown(&mut words, name)?;
            words.push_str("\nThere is no such form at the end.")?;
        }
    }
    let places = places_of(alloc, known, name)?;
    for (place, defines) in places.as_slice() {
        if *defines {
            words.push_str("\nDefined: ")?;
            push_spot(alloc, &mut words, marked, *place)?;
        }
    }
    Ok(words)
}

// Adds a call of a form, with the words that its gaps replaced.
fn push_call(words: &mut String, known: &Mentions, form: &KnownForm) -> Result<(), AllocError> {
    words.push_str("#(cl,")?;
    push_shown(words, form.name.as_slice())?;
    if let Some(cut) = cut_of(known, form.name.as_slice()) {
        for (place, word) in cut.words.iter().enumerate() {
            if place as u64 >= form.gaps {
                break;
            }
            words.push_str(",")?;
            push_shown(words, word.as_slice())?;
        }
    }
    words.push_str(")")
}

// Adds a line and a column, both counted from 1.
pub(crate) fn push_spot(
    alloc: Global,
    words: &mut String,
    marked: &Marked<'_>,
    place: usize,
) -> Result<(), AllocError> {
    let position = marked.position(place);
    let line = position.line.saturating_add(1);
    let column = position.character.saturating_add(1);
    let spot = format!(in alloc; "line {line}, column {column}")?;
    words.push_str(spot.as_str())
}

// Adds bytes: what is no UTF-8 of them as question marks.
pub(crate) fn push_shown(words: &mut String, bytes: &[u8]) -> Result<(), AllocError> {
    match str::from_utf8(bytes) {
        Ok(text) => words.push_str(text),
        Err(_) => {
            for byte in bytes {
                let sign = if byte.is_ascii() {
                    char::from(*byte)
                } else {
                    '?'
                };
                words.push(sign)?;
            }
            Ok(())
        }
    }
}

/// The names that may stand at a place: those of primitives right after `#(` and letters, and those of forms where a
/// primitive wants one.
pub(crate) fn completions_at(
    alloc: Global,
    text: &[u8],
    known: &Mentions,
    offset: usize,
) -> Result<Value, AllocError> {
    let mut names = Vec::new(alloc);
    if name_at(text, offset).is_some() {
        for primitive in PRIMITIVES {
            names.push(primitive_completion(alloc, primitive)?)?;
        }
    }
    if let Some(call) = call_around(text, offset)
        && wants_form(call)
    {
        for form in known.forms.as_slice() {
            names.push(form_completion(alloc, known, form)?)?;
        }
    }
    Ok(Value::Array(names))
}

// Whether this argument of a call names a form.
fn wants_form(call: Around<'_>) -> bool {
    primitive_named(call.name).is_some_and(|primitive| primitive.takes_form(call.argument))
}

// A primitive, as it completes a name.
fn primitive_completion(alloc: Global, primitive: &Primitive) -> Result<Value, AllocError> {
    json!(in alloc; {
        "label": primitive.name,
        "kind": FUNCTION,
        "detail": primitive.call,
        "documentation": primitive.deed
    })
}

// A form, as it does.
fn form_completion(alloc: Global, known: &Mentions, form: &KnownForm) -> Result<Value, AllocError> {
    let mut label = String::new(alloc);
    push_shown(&mut label, form.name.as_slice())?;
    let mut call = String::new(alloc);
    push_call(&mut call, known, form)?;
    let mut text = String::new(alloc);
    push_shown(&mut text, form.text.as_slice())?;
    json!(in alloc; {
        "label": label.as_str(),
        "kind": VARIABLE,
        "detail": call.as_str(),
        "documentation": text.as_str()
    })
}
