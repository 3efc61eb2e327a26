//! Where a program is to stop.

use crate::conditions::{Hits, When, when_of};
use crate::messages::{Request, number_at, text_at};
use serde_json::{Value, json};
use std::alloc::{AllocError, Allocator, Global};
use trac_dialogue::{Word, words_of};

/// A line of a file: the next call stops that was written there.
#[derive(Drop)]
pub(crate) struct LineBreak<A: Allocator + Copy> {
    pub(crate) id: u64,
    pub(crate) path: String,
    /// Its number, counted from 0.
    pub(crate) line: u64,
    pub(crate) when: When<A>,
}

/// A call, by its first arguments.
#[derive(Drop)]
pub(crate) struct CallBreak<A: Allocator + Copy> {
    pub(crate) id: u64,
    pub(crate) words: Vec<Word<A>, A>,
    pub(crate) when: When<A>,
}

/// What may be watched.
#[derive(Drop)]
pub(crate) enum Watched {
    /// The form of this name.
    Form(Vec<u8>),
    /// The byte of this number of the output, the first being number 1.
    Printed(u64),
}

/// A thing that is watched: a change stops.
#[derive(Drop)]
pub(crate) struct DataBreak<A: Allocator + Copy> {
    pub(crate) id: u64,
    pub(crate) watched: Watched,
    pub(crate) when: When<A>,
}

/// All places where a program is to stop.
#[derive(Drop)]
pub(crate) struct Breakpoints<A: Allocator + Copy> {
    alloc: A,
    global: Global,
    // how often each was met that was set so far, by its number, since a program was launched
    hits: Vec<u64, A>,
    pub(crate) lines: Vec<LineBreak<A>, A>,
    pub(crate) calls: Vec<CallBreak<A>, A>,
    pub(crate) watches: Vec<DataBreak<A>, A>,
    /// Whether it stops at each doubtful step.
    pub(crate) doubts: bool,
    /// Whether it is an exception that a limit is passed.
    pub(crate) limit: bool,
}

// What an identifier of data begins with, before the name of a form.
const FORM: &str = "form ";

// And before the number of a byte of the output.
const BYTE: &str = "byte ";

impl<A: Allocator + Copy> Breakpoints<A> {
    /// None. It takes no memory.
    pub(crate) fn new(alloc: A, global: Global) -> Self {
        Breakpoints {
            alloc,
            global,
            hits: Vec::new(alloc),
            lines: Vec::new(alloc),
            calls: Vec::new(alloc),
            watches: Vec::new(alloc),
            doubts: false,
            limit: false,
        }
    }

    // The number of the next breakpoint, from 1. The error is that memory was refused, here and below.
    fn number(&mut self) -> Result<u64, AllocError> {
        self.hits.push(0)?;
        Ok(self.hits.len() as u64)
    }

    /// None was met so far: a program is launched.
    pub(crate) fn forget_hits(&mut self) {
        for hits in self.hits.iter_mut() {
            *hits = 0;
        }
    }

    /// The breakpoint of this number is met. Whether it stops now, if it stops at such hits.
    pub(crate) fn hit(&mut self, id: u64, hits: Option<Hits>) -> bool {
        let Some(count) = self.hits.get_mut(id.saturating_sub(1) as usize) else {
            return false;
        };
        *count = count.saturating_add(1);
        match hits {
            None => true,
            Some(hits) => hits.hold(*count),
        }
    }

    /// Sets those of the lines of a file, if the first line has this number, in place of those that were set there. The
    /// body of the response says what became of each.
    pub(crate) fn set_lines(
        &mut self,
        request: Request<'_>,
        first: u64,
    ) -> Result<Value, AllocError> {
        let path = request.text("/source/path").unwrap_or("");
        self.lines.retain(|line| line.path.as_str() != path);
        let mut set = Vec::new(self.global);
        for wanted in request.list("/breakpoints") {
            let line = number_at(wanted, "/line").unwrap_or(first);
            let id = self.number()?;
            match when_of(self.alloc, wanted)? {
                Ok(when) => {
                    self.lines.push(LineBreak {
                        id,
                        path: String::from_str(self.global, path)?,
                        line: line.saturating_sub(first),
                        when,
                    })?;
                    set.push(json!(in self.global; {"id": id, "verified": true, "line": line})?)?;
                }
                Err(why) => set.push(self.unset(id, why)?)?,
            }
        }
        self.are_set(set)
    }

    /// Sets those of calls, in place of all that were set.
    pub(crate) fn set_calls(&mut self, request: Request<'_>) -> Result<Value, AllocError> {
        self.calls.clear();
        let mut set = Vec::new(self.global);
        for wanted in request.list("/breakpoints") {
            let id = self.number()?;
            match self.call_of(id, wanted)? {
                Ok(call) => {
                    self.calls.push(call)?;
                    set.push(json!(in self.global; {"id": id, "verified": true})?)?;
                }
                Err(why) => set.push(self.unset(id, why)?)?,
            }
        }
        self.are_set(set)
    }

    /// Sets those of data, in place of all that were set.
    pub(crate) fn set_watches(&mut self, request: Request<'_>) -> Result<Value, AllocError> {
        self.watches.clear();
        let mut set = Vec::new(self.global);
        for wanted in request.list("/breakpoints") {
            let id = self.number()?;
            match self.watch_of(id, wanted)? {
                Ok(watch) => {
                    self.watches.push(watch)?;
                    set.push(json!(in self.global; {"id": id, "verified": true})?)?;
                }
                Err(why) => set.push(self.unset(id, why)?)?,
            }
        }
        self.are_set(set)
    }

    /// Sets which exceptions stop, in place of all that were set.
    pub(crate) fn set_exceptions(&mut self, request: Request<'_>) -> Result<Value, AllocError> {
        let filters = request.list("/filters");
        self.doubts = filters
            .iter()
            .any(|filter| filter.as_str() == Some("doubts"));
        self.limit = filters
            .iter()
            .any(|filter| filter.as_str() == Some("limit"));
        json!(in self.global; {"breakpoints": []})
    }

    // The breakpoint of a call that the editor asks for, or why it is not understood.
    fn call_of(
        &self,
        id: u64,
        wanted: &Value,
    ) -> Result<Result<CallBreak<A>, &'static str>, AllocError> {
        let name = text_at(wanted, "/name").unwrap_or("");
        let words = match words_of(self.alloc, name.as_bytes())? {
            Some(words) if !words.is_empty() => words,
            _ => return Ok(Err("a call is named by its first arguments")),
        };
        Ok(match when_of(self.alloc, wanted)? {
            Ok(when) => Ok(CallBreak { id, words, when }),
            Err(why) => Err(why),
        })
    }

    // The same of data. A byte is printed once, so it takes no condition.
    fn watch_of(
        &self,
        id: u64,
        wanted: &Value,
    ) -> Result<Result<DataBreak<A>, &'static str>, AllocError> {
        let Some(watched) = watched_by(self.global, text_at(wanted, "/dataId").unwrap_or(""))?
        else {
            return Ok(Err("there is no such thing to watch"));
        };
        let when = match when_of(self.alloc, wanted)? {
            Ok(when) => when,
            Err(why) => return Ok(Err(why)),
        };
        let is_plain = when.condition.is_none() && when.hits.is_none();
        if !is_plain && matches!(&watched, Watched::Printed(_)) {
            return Ok(Err("a byte is printed once: it takes no condition and no hits"));
        }
        Ok(Ok(DataBreak { id, watched, when }))
    }

    // What became of a breakpoint that is not set.
    fn unset(&self, id: u64, why: &str) -> Result<Value, AllocError> {
        json!(in self.global; {"id": id, "verified": false, "message": why})
    }

    // What became of several.
    fn are_set(&self, set: Vec<Value>) -> Result<Value, AllocError> {
        let set = Value::Array(set);
        json!(in self.global; {"breakpoints": set})
    }

    /// Of the bytes of the output that are watched after so many, up to so many, the first or the last: its number, and
    /// that of its breakpoint.
    pub(crate) fn byte_between(&self, from: u64, to: u64, is_first: bool) -> Option<(u64, u64)> {
        let mut found = None;
        for watch in self.watches.iter() {
            if let Watched::Printed(number) = watch.watched
                && from < number
                && number <= to
            {
                found = match found {
                    Some((other, id)) if (other < number) == is_first => Some((other, id)),
                    _ => Some((number, watch.id)),
                };
            }
        }
        found
    }

    /// Whether nothing stops but what cannot go on.
    pub(crate) fn is_empty(&self) -> bool {
        self.lines.is_empty() && self.calls.is_empty() && self.watches.is_empty() && !self.doubts
    }
}

/// What can be watched of this name: the byte of the output of this number, after `#`, or a form.
pub(crate) fn watchable(alloc: Global, name: &str) -> Result<Value, AllocError> {
    let number = name
        .strip_prefix("#")
        .and_then(|rest| rest.parse::<u64>().ok());
    let (id, words) = match number {
        Some(number) => (
            format!(in alloc; "{BYTE}{number}")?,
            format!(in alloc; "byte {number} of the output")?,
        ),
        None => (
            format!(in alloc; "{FORM}{name}")?,
            format!(in alloc; "the form {name}")?,
        ),
    };
    json!(in alloc; {
        "dataId": id.as_str(),
        "description": words.as_str(),
        "accessTypes": ["write"],
        "canPersist": true
    })
}

// What an identifier of data means.
fn watched_by(alloc: Global, id: &str) -> Result<Option<Watched>, AllocError> {
    if let Some(name) = id.strip_prefix(FORM) {
        return Ok(Some(Watched::Form(Vec::from_slice(alloc, name.as_bytes())?)));
    }
    let number = id
        .strip_prefix(BYTE)
        .and_then(|rest| rest.parse::<u64>().ok());
    Ok(number.map(|number| Watched::Printed(number)))
}
