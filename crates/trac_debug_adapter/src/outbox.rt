//! Messages that go to the editor.

use crate::messages::Request;
use serde_json::{Value, json};
use std::alloc::{AllocError, Global};

/// The messages that are to be sent, and how many there were before.
#[derive(Drop)]
pub struct Outbox {
    alloc: Global,
    count: u64,
    messages: Vec<Value>,
}

impl Outbox {
    /// None. It takes no memory.
    pub fn new(alloc: Global) -> Self {
        Outbox {
            alloc,
            count: 0,
            messages: Vec::new(alloc),
        }
    }

    /// Those that are to be sent.
    pub fn messages(&self) -> &[Value] {
        self.messages.as_slice()
    }

    /// They are sent.
    pub fn clear(&mut self) {
        self.messages.clear();
    }

    // The number of the next message.
    fn number(&mut self) -> u64 {
        self.count = self.count.saturating_add(1);
        self.count
    }

    /// Responds to a request that was carried out. The error is that memory was refused, here and below.
    pub(crate) fn respond(&mut self, request: Request<'_>, body: Value) -> Result<(), AllocError> {
        let number = self.number();
        let message = json!(in self.alloc; {
            "seq": number,
            "type": "response",
            "request_seq": request.seq,
            "success": true,
            "command": request.command,
            "body": body
        })?;
        Ok(self.messages.push(message)?)
    }

    /// Responds to a request that is refused for this.
    pub(crate) fn refuse(&mut self, request: Request<'_>, why: &str) -> Result<(), AllocError> {
        let number = self.number();
        let message = json!(in self.alloc; {
            "seq": number,
            "type": "response",
            "request_seq": request.seq,
            "success": false,
            "command": request.command,
            "message": why,
            "body": {"error": {"id": 1, "format": why, "showUser": true}}
        })?;
        Ok(self.messages.push(message)?)
    }

    /// Tells of an event.
    pub(crate) fn tell(&mut self, event: &str, body: Value) -> Result<(), AllocError> {
        let number = self.number();
        let message = json!(in self.alloc; {
            "seq": number, "type": "event", "event": event, "body": body
        })?;
        Ok(self.messages.push(message)?)
    }
}
