//! Messages as JSON: what is looked up in those that come, and how those that go are made.

use serde_json::{Value, json};
use std::alloc::{AllocError, Global};
use trac_documents::{Position, Range};

/// The message is no JSON.
pub(crate) const NO_JSON: i64 = -32700;

/// The message is no request, or none that may come now.
pub(crate) const NO_REQUEST: i64 = -32600;

/// There is no such method.
pub(crate) const NO_METHOD: i64 = -32601;

/// The method takes other arguments.
pub(crate) const NO_ARGUMENTS: i64 = -32602;

/// The editor has cancelled the request.
pub(crate) const CANCELLED: i64 = -32800;

/// The request was understood, and is refused.
pub(crate) const FAILED: i64 = -32803;

/// `initialize` has to come first.
pub(crate) const NOT_YET: i64 = -32002;

/// A reply to the request with this `id`. The error is that memory was refused, here and below.
pub(crate) fn reply(alloc: Global, id: &Value, value: Value) -> Result<Value, AllocError> {
    json!(in alloc; {"jsonrpc": "2.0", "id": id, "result": value})
}

/// A refusal of the request with this `id`, which is null if it has none.
pub(crate) fn refusal(
    alloc: Global,
    id: &Value,
    code: i64,
    words: &str,
) -> Result<Value, AllocError> {
    json!(in alloc; {"jsonrpc": "2.0", "id": id, "error": {"code": code, "message": words}})
}

/// A message that asks for nothing.
pub(crate) fn notice(alloc: Global, method: &str, params: Value) -> Result<Value, AllocError> {
    json!(in alloc; {"jsonrpc": "2.0", "method": method, "params": params})
}

/// What stands between two positions, as a range.
pub(crate) fn range_between(
    alloc: Global,
    start: Position,
    end: Position,
) -> Result<Value, AllocError> {
    let start = place_of(alloc, start)?;
    let end = place_of(alloc, end)?;
    json!(in alloc; {"start": start, "end": end})
}

// A position.
fn place_of(alloc: Global, position: Position) -> Result<Value, AllocError> {
    json!(in alloc; {"line": position.line, "character": position.character})
}

/// The text at a path of a message.
pub(crate) fn text_at<'a>(message: &'a Value, path: &str) -> Option<&'a str> {
    message.pointer(path).and_then(Value::as_str)
}

/// Whether two ids of requests are the same: both texts, or both numbers.
pub(crate) fn is_same_id(one: &Value, other: &Value) -> bool {
    match (one.as_str(), other.as_str()) {
        (Some(one), Some(other)) => one == other,
        (None, None) => one.as_i64().is_some() && one.as_i64() == other.as_i64(),
        _ => false,
    }
}

/// The position of a value.
pub(crate) fn position_in(value: &Value) -> Option<Position> {
    let line = value.get("line").and_then(Value::as_u64)?;
    let character = value.get("character").and_then(Value::as_u64)?;
    Some(Position { line, character })
}

/// The range of a value.
pub(crate) fn range_in(value: &Value) -> Option<Range> {
    let start = position_in(value.get("start")?)?;
    let end = position_in(value.get("end")?)?;
    Some(Range { start, end })
}
