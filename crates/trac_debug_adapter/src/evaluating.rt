//! What a person asks for at the console, or by pointing at a name.
//!
//! A command of the console is carried out by a walk of its own, which is brought to where the program stands; then the
//! program goes to where that walk ended.

use crate::debuggee::{Debuggee, KEEP, shown};
use crate::messages::Request;
use serde_json::{Value, json};
use std::alloc::{AllocError, Allocator, Global};
use trac_dialogue::{texts_of, words_of};
use trac_person_lines::{refused, standing_into};
use trac_rules::limit::JOURNAL_LIMIT;
use trac_session::Refusal;
use trac_streams::number_into;
use trac_walk::{Settings, walk};

impl<A: Allocator + Copy> Debuggee<A> {
    /// What is replied to a request of the console: a line that `trac walk` takes, and what that replies. The error is
    /// that memory was refused, here and below.
    pub(crate) fn obey(
        &mut self,
        global: Global,
        request: Request<'_>,
    ) -> Result<Value, AllocError> {
        let line = first_line(request.text("/expression").unwrap_or("").as_bytes());
        let reply = match self.fed_by(line)? {
            Some(reply) => reply,
            None => self.walked_by(line)?,
        };
        result_of(global, without_end(reply.as_slice()))
    }

    // What is replied to a line that gives the program input, or ends it; none, if this is no such line.
    fn fed_by(&mut self, line: &[u8]) -> Result<Option<Vec<u8, A>>, AllocError> {
        let Some(words) = words_of(self.alloc, line)? else {
            return Ok(None);
        };
        let texts = texts_of(self.alloc, &words)?;
        let fed = match texts.as_slice() {
            [command, text] if *command == b"i".as_slice() => self.feed(*text),
            [command] if *command == b"i".as_slice() => self.feed(b""),
            [command] if *command == b"e".as_slice() => self.end_input(),
            _ => return Ok(None),
        };
        let mut reply = Vec::new(self.alloc);
        match fed {
            Ok(()) => {
                let step = self.walker.step();
                standing_into(self.alloc, step, &self.walker.sight(), &mut reply)?;
            }
            Err(refusal) => reply.extend_from_slice(refused(refusal))?,
        }
        Ok(Some(reply))
    }

    // Gives the program a line of input.
    fn feed(&mut self, text: &[u8]) -> Result<(), Refusal> {
        let len = self.typed.len();
        if fed_into(text, &mut self.typed).is_err() {
            self.typed.truncate(len);
            return Err(Refusal::Memory);
        }
        let fed = self.walker.feed(self.alloc, text);
        if fed.is_err() {
            self.typed.truncate(len);
        }
        fed
    }

    // Ends the input of the program.
    fn end_input(&mut self) -> Result<(), Refusal> {
        self.walker.end_input();
        self.has_ended = true;
        Ok(())
    }

    // What a walk replies to a line that stands where the program does, which goes to where that walk ends.
    fn walked_by(&mut self, line: &[u8]) -> Result<Vec<u8, A>, AllocError> {
        let mut lines = Vec::from_slice(self.alloc, self.typed.as_slice())?;
        if self.has_ended {
            lines.extend_from_slice(b"e\n")?;
        }
        lines.extend_from_slice(b"g ")?;
        number_into(self.walker.step(), &mut lines)?;
        lines.extend_from_slice(b"\n")?;
        let before = self.said(lines.as_slice()).len();
        lines.extend_from_slice(line)?;
        lines.extend_from_slice(b"\n")?;
        let said = self.said(lines.as_slice());
        let said = said.as_slice().split_at(before.min(said.len())).1;
        let (reply, step) = replied(said);
        if let Some(step) = step {
            let _ = self.walker.go_to(step);
        }
        Vec::from_slice(self.alloc, reply)
    }

    // What a walk writes that reads these lines.
    fn said(&self, lines: &[u8]) -> Vec<u8, A> {
        let mut said = Vec::new(self.alloc);
        let settings = Settings {
            journal: JOURNAL_LIMIT,
            keep: KEEP,
            decimals: self.walker.width(),
            prompt: true,
        };
        let mut rest = lines;
        // It ends where the lines do: whatever became of it, what it wrote is there.
        let _ = walk(
            self.alloc,
            self.tape.as_slice(),
            &mut rest,
            &mut said,
            settings,
        );
        said
    }

    /// The form whose name a person points at; none, if there is none.
    pub(crate) fn form_named(
        &self,
        global: Global,
        request: Request<'_>,
    ) -> Result<Option<Value>, AllocError> {
        let name = request.text("/expression").unwrap_or("").trim().as_bytes();
        if self.walker.sight().store.get(name).is_none() {
            return Ok(None);
        }
        let text = self.form_text(name)?;
        Ok(Some(result_of(global, text.as_slice())?))
    }
}

// What is replied with this text.
fn result_of(global: Global, text: &[u8]) -> Result<Value, AllocError> {
    let text = shown(global, text)?;
    json!(in global; {"result": text.as_str(), "variablesReference": 0})
}

// A text without the line feed at its end.
fn without_end(text: &[u8]) -> &[u8] {
    match text {
        [front @ .., b'\n'] => front,
        text => text,
    }
}

// The first line of a text.
fn first_line(text: &[u8]) -> &[u8] {
    let len = text.iter().position(|byte| *byte == b'\n');
    text.split_at(len.unwrap_or(text.len())).0
}

// Puts the line at the end of a text that gives a walk this as a line of input.
fn fed_into<A: Allocator>(text: &[u8], lines: &mut Vec<u8, A>) -> Result<(), AllocError> {
    lines.extend_from_slice(b"i \"")?;
    for byte in text {
        lines.extend_from_slice(b"\\x")?;
        lines.push(digit_of(*byte / 16))?;
        lines.push(digit_of(*byte % 16))?;
    }
    lines.extend_from_slice(b"\"\n")
}

// A digit of a byte in quotes.
fn digit_of(value: u8) -> u8 {
    match value {
        0..=9 => value + b'0',
        10..=15 => value - 10 + b'a',
        _ => b'f',
    }
}

// A reply of a walk, and the number of the step with which it asks for the next line; none, if it asks for none.
fn replied(said: &[u8]) -> (&[u8], Option<u64>) {
    let asked = match said {
        [front @ .., b'>', b' '] => front,
        said => return (said, None),
    };
    let digits = asked.iter().rev().position(|byte| !byte.is_ascii_digit());
    let start = asked.len().saturating_sub(digits.unwrap_or(asked.len()));
    let (reply, number) = asked.split_at(start.min(asked.len()));
    let step = str::from_utf8(number)
        .ok()
        .and_then(|number| number.parse::<u64>().ok());
    (reply, step)
}
