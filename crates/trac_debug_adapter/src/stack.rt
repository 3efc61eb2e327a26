//! The begun calls, as frames.

use crate::debuggee::{Debuggee, shown};
use crate::messages::Request;
use serde_json::{Value, json};
use std::alloc::{AllocError, Allocator, Global};
use trac_person_lines::begun_line;

// So many frames are told at most where the editor asks for all.
const FRAME_COUNT: u64 = 100;

// What the line of a begun call has before the call.
const LABEL: usize = 8;

impl<A: Allocator + Copy> Debuggee<A> {
    /// The begun calls, the innermost first, each with the place where its name was written; one frame, if none is
    /// begun. Lines and columns are counted from these. The walker goes back for the places, and forward again. The
    /// error is that memory was refused, here and below.
    pub(crate) fn stack(
        &mut self,
        global: Global,
        request: Request<'_>,
        firsts: (u64, u64),
    ) -> Result<Value, AllocError> {
        let depth = self.walker.glance().depth as u64;
        let mut frames = Vec::new(global);
        if depth == 0 {
            frames.push(between_calls(global)?)?;
        }
        let from = request.number("/startFrame").unwrap_or(0);
        let levels = match request.number("/levels") {
            Some(levels) if levels > 0 => levels,
            _ => FRAME_COUNT,
        };
        for place in from..depth.min(from.saturating_add(levels)) {
            let number = depth.saturating_sub(1).saturating_sub(place);
            frames.push(self.frame(global, number as usize, firsts)?)?;
        }
        let frames = Value::Array(frames);
        let count = depth.max(1);
        json!(in global; {"stackFrames": frames, "totalFrames": count})
    }

    // The begun call of this number, the outermost being number 0.
    fn frame(
        &mut self,
        global: Global,
        number: usize,
        firsts: (u64, u64),
    ) -> Result<Value, AllocError> {
        let written = self.written(number);
        self.frame_at(global, number, written, firsts)
    }

    // The same, if the first byte of its name is that of this number of all input.
    fn frame_at(
        &self,
        global: Global,
        number: usize,
        written: Option<u64>,
        (first_line, first_column): (u64, u64),
    ) -> Result<Value, AllocError> {
        let name = self.call(global, number)?;
        let id = (number as u64).saturating_add(1);
        match self.spot(written) {
            None => json!(in global; {
                "id": id, "name": name.as_str(), "line": 0, "column": 0, "presentationHint": "subtle"
            }),
            Some(spot) => {
                let source = source_of(global, spot.path)?;
                let line = spot.position.line.saturating_add(first_line);
                let column = spot.position.character.saturating_add(first_column);
                json!(in global; {
                    "id": id, "name": name.as_str(), "line": line, "column": column, "source": source
                })
            }
        }
    }

    // The begun call of this number with its arguments so far, as it is shown.
    fn call(&self, global: Global, number: usize) -> Result<String, AllocError> {
        let here = self.walker.glance();
        let is_innermost = number.saturating_add(1) == here.depth;
        let line = begun_line(self.alloc, self.walker.machine(), number, is_innermost);
        line.check()?;
        let bytes = line.bytes();
        let call = bytes.split_at(bytes.len().min(LABEL)).1;
        let blanks = call
            .iter()
            .rev()
            .position(|byte| *byte != b' ')
            .unwrap_or(0);
        let mut name = shown(global, call.split_at(call.len().saturating_sub(blanks)).0)?;
        if is_innermost && here.performs {
            name.push_str(")")?;
        }
        Ok(name)
    }
}

// The frame where no call is begun.
fn between_calls(global: Global) -> Result<Value, AllocError> {
    json!(in global; {
        "id": 1, "name": "between calls", "line": 0, "column": 0, "presentationHint": "subtle"
    })
}

/// A file, as a frame tells it.
pub(crate) fn source_of(global: Global, path: &str) -> Result<Value, AllocError> {
    let name = match path.rsplit_once("/") {
        Some((_, name)) => name,
        None => path,
    };
    json!(in global; {"name": name, "path": path})
}
