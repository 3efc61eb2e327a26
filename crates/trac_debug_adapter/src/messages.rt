//! What is looked up in messages that come.

use serde_json::Value;

/// A request of the editor.
#[derive(Clone, Copy)]
pub(crate) struct Request<'m> {
    /// Its number, which the response tells.
    pub(crate) seq: u64,
    /// What it asks for.
    pub(crate) command: &'m str,
    /// With what; null, if with nothing.
    pub(crate) arguments: &'m Value,
}

impl<'m> Request<'m> {
    /// The text at a path of the arguments.
    pub(crate) fn text(&self, path: &str) -> Option<&'m str> {
        text_at(self.arguments, path)
    }

    /// The number there.
    pub(crate) fn number(&self, path: &str) -> Option<u64> {
        number_at(self.arguments, path)
    }

    /// Whether it is so there; if nothing stands there, this.
    pub(crate) fn flag(&self, path: &str, default: bool) -> bool {
        let value = self.arguments.pointer(path);
        value.and_then(Value::as_bool).unwrap_or(default)
    }

    /// The list there.
    pub(crate) fn list(&self, path: &str) -> &'m [Value] {
        match self.arguments.pointer(path) {
            Some(Value::Array(list)) => list.as_slice(),
            _ => &[],
        }
    }
}

/// The text at a path of a value.
pub(crate) fn text_at<'v>(value: &'v Value, path: &str) -> Option<&'v str> {
    value.pointer(path).and_then(Value::as_str)
}

/// The number there.
pub(crate) fn number_at(value: &Value, path: &str) -> Option<u64> {
    value.pointer(path).and_then(Value::as_u64)
}
