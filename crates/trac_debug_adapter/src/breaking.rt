//! Whether a program has come to a place where it is to stop.

use crate::breakpoints::{Breakpoints, CallBreak, Watched};
use crate::debuggee::Debuggee;
use crate::stopping::Halt;
use memchr::memmem;
use std::alloc::{AllocError, Allocator};
use trac_documents::{Encoding, Position, offset_of};
use trac_session::{Args, Form, Goal, Refusal};
use trac_sight::performed_in;

/// What is watched, as it was when a run began, and what stands in the lines of breakpoints.
#[derive(Drop)]
pub(crate) struct Seen<A: Allocator + Copy> {
    // the form of each watch of one, in their order
    forms: Vec<Option<Form<A>>, A>,
    // the lines of breakpoints, in their order
    lines: Vec<Vec<u8, A>, A>,
    /// How much was printed.
    pub(crate) printed: u64,
}

// The steps gone back over to find out where calls were written, beside those of a run, are so many at most.
const WORK_LIMIT: u64 = 4_000_000;

impl<A: Allocator + Copy> Debuggee<A> {
    /// What is watched, as it is now. The error is that memory was refused, here and below.
    pub(crate) fn seen(&self, breakpoints: &Breakpoints<A>) -> Result<Seen<A>, AllocError> {
        let mut forms = Vec::new(self.alloc);
        for watch in breakpoints.watches.iter() {
            let form = match &watch.watched {
                Watched::Form(name) => self.form(name.as_slice())?,
                Watched::Printed(_) => None,
            };
            forms.push(form)?;
        }
        let mut lines = Vec::new(self.alloc);
        for wanted in breakpoints.lines.iter() {
            let line = self.line(wanted.path.as_str(), wanted.line);
            lines.push(Vec::from_slice(self.alloc, line)?)?;
        }
        Ok(Seen {
            forms,
            lines,
            printed: self.printed(),
        })
    }

    // A copy of the form of this name, if there is one.
    fn form(&self, name: &[u8]) -> Result<Option<Form<A>>, AllocError> {
        let copy = self.walker.sight().store.get(name).map(|form| form.copy());
        copy.transpose().map_err(|_| AllocError)
    }

    /// Why the program is to stop at the call that comes next, if it is.
    pub(crate) fn stop_here(
        &mut self,
        breakpoints: &mut Breakpoints<A>,
        seen: &mut Seen<A>,
    ) -> Result<Option<Halt>, AllocError> {
        if let Some(id) = self.call_met(breakpoints) {
            return Ok(Some(Halt::Call(id)));
        }
        if let Some(id) = self.change_met(breakpoints, seen)? {
            return Ok(Some(Halt::Change(id)));
        }
        if self.followed > WORK_LIMIT {
            return Ok(Some(Halt::Sought));
        }
        Ok(match self.line_met(breakpoints, seen) {
            Some(id) => Some(Halt::Line(id)),
            None => None,
        })
    }

    // The breakpoint of the call that comes next, if it has one that stops.
    fn call_met(&self, breakpoints: &mut Breakpoints<A>) -> Option<u64> {
        let sight = self.walker.sight();
        let arguments = performed_in(&sight)?;
        let mut met = None;
        for place in 0..breakpoints.calls.len() {
            let Some(wanted) = breakpoints.calls.get(place) else {
                break;
            };
            if begin_with(arguments, wanted) && wanted.when.holds(&sight) {
                let (id, hits) = (wanted.id, wanted.when.hits);
                if breakpoints.hit(id, hits) {
                    met = met.or(Some(id));
                }
            }
        }
        met
    }

    // The breakpoint that watches a form that has changed since this was seen, if there is one that stops. Of what does
    // not stop the form is seen anew.
    fn change_met(
        &self,
        breakpoints: &mut Breakpoints<A>,
        seen: &mut Seen<A>,
    ) -> Result<Option<u64>, AllocError> {
        let sight = self.walker.sight();
        for place in 0..breakpoints.watches.len() {
            let (Some(watch), Some(form)) = (
                breakpoints.watches.get(place),
                seen.forms.get_mut(place),
            ) else {
                break;
            };
            let Watched::Form(name) = &watch.watched else {
                continue;
            };
            if !self.is_changed(name.as_slice(), form) {
                continue;
            }
            let (id, hits, holds) = (watch.id, watch.when.hits, watch.when.holds(&sight));
            let now = self.form(name.as_slice())?;
            if holds && breakpoints.hit(id, hits) {
                return Ok(Some(id));
            }
            *form = now;
        }
        Ok(None)
    }

    // Whether the form of this name is another one than this.
    fn is_changed(&self, name: &[u8], form: &Option<Form<A>>) -> bool {
        let session = &self.walker.window.session;
        session.meets(&Goal::OtherForm(name, form))
    }

    // The breakpoint of the line in which the name of the call that comes next was written, if there is one that stops.
    // It is looked for only if the name stands whole in the line of one, and what has to hold there does.
    fn line_met(&mut self, breakpoints: &mut Breakpoints<A>, seen: &Seen<A>) -> Option<u64> {
        if !self.may_be_in_lines(breakpoints, seen) {
            return None;
        }
        let depth = self.walker.glance().depth;
        let written = self.written(depth.checked_sub(1)?);
        self.line_at(breakpoints, written)
    }

    // The breakpoint of the line where the byte of this number of all input was written, if there is one that stops.
    fn line_at(&self, breakpoints: &mut Breakpoints<A>, written: Option<u64>) -> Option<u64> {
        let spot = self.spot(written)?;
        let sight = self.walker.sight();
        let mut met = None;
        for place in 0..breakpoints.lines.len() {
            let Some(wanted) = breakpoints.lines.get(place) else {
                break;
            };
            let is_there = wanted.line == spot.position.line && wanted.path.as_str() == spot.path;
            if is_there && wanted.when.holds(&sight) {
                let (id, hits) = (wanted.id, wanted.when.hits);
                if breakpoints.hit(id, hits) {
                    met = met.or(Some(id));
                }
            }
        }
        met
    }

    // Whether the name of the call that comes next stands in a line that has a breakpoint, whose condition holds.
    fn may_be_in_lines(&self, breakpoints: &Breakpoints<A>, seen: &Seen<A>) -> bool {
        let sight = self.walker.sight();
        let Some(arguments) = performed_in(&sight) else {
            return false;
        };
        let name = arguments.get(0);
        for (wanted, line) in breakpoints.lines.iter().zip(seen.lines.iter()) {
            let is_there = memmem::find(line.as_slice(), name).is_some();
            if is_there && wanted.when.holds(&sight) {
                return true;
            }
        }
        false
    }

    // A line of the program, or of its input; empty, if the path is that of neither.
    fn line(&self, path: &str, line: u64) -> &[u8] {
        let is_input = match &self.launch.input {
            Some(input) => input.as_str() == path,
            None => false,
        };
        let text = if self.launch.program.as_str() == path {
            self.program()
        } else if is_input {
            self.input()
        } else {
            &[]
        };
        let start = offset_of(text, Encoding::Utf8, Position { line, character: 0 });
        let next = Position {
            line: line.saturating_add(1),
            character: 0,
        };
        let end = offset_of(text, Encoding::Utf8, next).max(start);
        text.split_at(end).0.split_at(start).1
    }
}

// Whether arguments begin with those of a breakpoint.
fn begin_with<A: Allocator + Copy>(arguments: &Args<'_>, wanted: &CallBreak<A>) -> bool {
    let words = wanted.words.as_slice();
    if arguments.count() < words.len() {
        return false;
    }
    for (number, word) in words.iter().enumerate() {
        if arguments.get(number) != word.text.as_slice() {
            return false;
        }
    }
    true
}
