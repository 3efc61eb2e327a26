//! What is asked about a place of a text that was run.
use crate::calls::{between, name_at};
use crate::forms::named_at;
use crate::hints::{completions_at, form_hint, primitive_hint};
use crate::marked::Marked;
use crate::matching::matches_at;
use crate::primitives::primitive_named;
use crate::uses::{Wanted, highlights_of, locations_of};
use serde_json::{Value, json};
use std::alloc::{AllocError, Global};
use trac_mentions::Mentions;

/// What is asked.
#[derive(Clone, Copy, Debug, PartialEq, Eq)]
pub(crate) enum Asked {
    /// What stands there.
    Hint,
    /// What may stand there.
    Completions,
    /// What belongs together.
    Highlights,
    /// From where to where the name of a form stands that may be another one.
    Name,
    /// Where the form is that is named there.
    Places(Wanted),
}

impl Asked {
    /// What a request of this method asks; none, if it is another one.
    pub(crate) fn of(method: &[u8], message: &Value) -> Option<Self> {
        Some(match method {
            b"textDocument/hover" => Asked::Hint,
            b"textDocument/completion" => Asked::Completions,
            b"textDocument/documentHighlight" => Asked::Highlights,
            b"textDocument/prepareRename" => Asked::Name,
            b"textDocument/definition" => Asked::Places(Wanted::Definitions),
            b"textDocument/references" => {
                let declared = message.pointer("/params/context/includeDeclaration");
                match declared.and_then(Value::as_bool) {
                    Some(false) => Asked::Places(Wanted::Uses),
                    _ => Asked::Places(Wanted::All),
                }
            }
            _ => return None,
        })
    }

    /// The reply, of a place of this text, of which a run tells this. The error is that memory was refused, here and
    /// below.
    pub(crate) fn result(
        self,
        alloc: Global,
        (uri, marked): (&str, &Marked<'_>),
        known: &Mentions,
        offset: usize,
    ) -> Result<Value, AllocError> {
        if self == Asked::Completions {
            return completions_at(alloc, marked.text, known, offset);
        }
        if self == Asked::Hint
            && let Some(hint) = primitive_at(alloc, marked, offset)?
        {
            return Ok(hint);
        }
        let Some(named) = named_at(alloc, marked.text, known, offset)? else {
            return match self {
                Asked::Highlights => matches_at(alloc, marked, offset),
                Asked::Places(_) => Ok(Value::Array(Vec::new(alloc))),
                _ => Ok(Value::Null),
            };
        };
        match self {
            Asked::Hint => {
                let words = form_hint(alloc, marked, known, named.name)?;
                hint_of(alloc, marked, words.as_str(), named.part)
            }
            Asked::Highlights => highlights_of(alloc, marked, known, named.name),
            Asked::Places(wanted) => {
                locations_of(alloc, (uri, marked), known, named.name, wanted)
            }
            Asked::Name | Asked::Completions => marked.range(alloc, named.part),
        }
    }
}

// What the primitive does whose name stands at a place; none, if there is none.
fn primitive_at(
    alloc: Global,
    marked: &Marked<'_>,
    offset: usize,
) -> Result<Option<Value>, AllocError> {
    let Some(part) = name_at(marked.text, offset) else {
        return Ok(None);
    };
    let Some(primitive) = primitive_named(between(marked.text, part)) else {
        return Ok(None);
    };
    let words = primitive_hint(alloc, primitive)?;
    Ok(Some(hint_of(alloc, marked, words.as_str(), part)?))
}

// Words about a part of a text.
fn hint_of(
    alloc: Global,
    marked: &Marked<'_>,
    words: &str,
    part: (usize, usize),
) -> Result<Value, AllocError> {
    let range = marked.range(alloc, part)?;
    json!(in alloc; {"contents": {"kind": "plaintext", "value": words}, "range": range})
}
