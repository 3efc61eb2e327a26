//! What has come from the editor and is not done yet.

use crate::json::{is_same_id, text_at};
use serde_json::Value;

/// What came.
#[derive(Drop)]
pub(crate) enum Came {
    /// A message.
    Message(Value),
    /// What is no message: the number that the protocol has for that, and words.
    Fault(i64, &'static str),
}

/// Whether a later message cancels the request with this `id`.
pub(crate) fn is_cancelled(later: &[Came], id: &Value) -> bool {
    later.iter().any(|one| match one {
        Came::Message(message) => cancels(message, id),
        Came::Fault(_, _) => false,
    })
}

// Whether a message cancels this request.
fn cancels(message: &Value, id: &Value) -> bool {
    if text_at(message, "/method") != Some("$/cancelRequest") {
        return false;
    }
    match message.pointer("/params/id") {
        Some(other) => is_same_id(id, other),
        None => false,
    }
}

/// Whether a later message changes or closes the document of this name.
pub(crate) fn is_changed(later: &[Came], uri: &str) -> bool {
    later.iter().any(|one| match one {
        Came::Message(message) => changes(message, uri),
        Came::Fault(_, _) => false,
    })
}

// Whether a message changes or closes this document.
fn changes(message: &Value, uri: &str) -> bool {
    let method = text_at(message, "/method").unwrap_or("");
    let is_change = method == "textDocument/didChange" || method == "textDocument/didClose";
    is_change && text_at(message, "/params/textDocument/uri") == Some(uri)
}
