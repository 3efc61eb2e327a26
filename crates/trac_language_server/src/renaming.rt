//! A form gets another name.
use crate::findings::Linter;
use crate::forms::places_of;
use crate::hints::{push_shown, push_spot};
use crate::marked::Marked;
use crate::parts::{after, front};
use serde_json::{Value, json};
use std::alloc::{AllocError, Global};
use trac_mentions::Mentions;

/// What becomes of a renaming.
#[derive(Drop)]
pub(crate) enum Renaming {
    /// These edits of the file do it.
    Edits(Value),
    /// It is refused for this reason.
    Refused(String),
}

/// The edits of a file that give a form another name, if every call that a run performed has the old one from the file,
/// and the program then prints the same. The error is that memory was refused, here and below.
pub(crate) fn renaming_of<L: Linter>(
    alloc: Global,
    linter: &L,
    (uri, marked): (&str, &Marked<'_>),
    known: &Mentions,
    (name, new): (&[u8], &str),
) -> Result<Renaming, AllocError> {
    if let Some(why) = fault_of(alloc, marked, known, (name, new.as_bytes()))? {
        return Ok(Renaming::Refused(why));
    }
    let places = places_of(alloc, known, name)?;
    let mut edits = Vec::new(alloc);
    let mut text = Vec::new(alloc);
    let mut end = 0_usize;
    for (place, _) in places.as_slice() {
        text.extend_from_slice(after(front(marked.text, *place), end))?;
        text.extend_from_slice(new.as_bytes())?;
        end = place.saturating_add(name.len());
        let range = marked.range(alloc, (*place, end))?;
        edits.push(json!(in alloc; {"range": range, "newText": new})?)?;
    }
    text.extend_from_slice(after(marked.text, end))?;
    if !linter.prints_alike(marked.text, text.as_slice()) {
        let why = "the program prints something else with this name";
        return Ok(Renaming::Refused(String::from_str(alloc, why)?));
    }
    let mut changes = serde_json::Map::new(alloc);
    changes.insert(String::from_str(alloc, uri)?, Value::Array(edits))?;
    let changes = Value::Object(changes);
    Ok(Renaming::Edits(json!(in alloc; {"changes": changes})?))
}

// Why a form cannot get another name; none, if that is not known before it is tried.
fn fault_of(
    alloc: Global,
    marked: &Marked<'_>,
    known: &Mentions,
    (name, new): (&[u8], &[u8]),
) -> Result<Option<String>, AllocError> {
    if new.is_empty() || new.iter().any(|byte| is_special(*byte)) {
        let why =
            "a name has no parentheses, commas, number signs, apostrophes or line ends, and is not empty";
        return Ok(Some(String::from_str(alloc, why)?));
    }
    if known.is_cut {
        let why = "the program is too long to follow all names of it";
        return Ok(Some(String::from_str(alloc, why)?));
    }
    let is_taken = known
        .mentions
        .iter()
        .any(|mention| mention.name.as_slice() == new);
    if is_taken || known.form(new).is_some() {
        let why = "another form has this name";
        return Ok(Some(String::from_str(alloc, why)?));
    }
    let made = known.mentions.iter().find(|mention| !mention.is_written
        && mention.name.as_slice() == name);
    let Some(made) = made else {
        return Ok(None);
    };
    let mut why = String::from_str(alloc, "the program makes the name ")?;
    push_shown(&mut why, name)?;
    why.push_str(" at ")?;
    push_spot(alloc, &mut why, marked, made.place)?;
    Ok(Some(why))
}

// Whether a byte is not taken into a name.
fn is_special(byte: u8) -> bool {
    byte.is_ascii_control() || matches!(byte, b'#' | b'(' | b')' | b',' | b'\'')
}
