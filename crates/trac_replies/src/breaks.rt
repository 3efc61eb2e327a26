//! The calls at which a walk to the end, or back to the start, stops too.
ghost use Rattle.std.specs.Prelude.{◌≡◌, ◌+◌, [], length, OnOk};

use std::alloc::{AllocError, Allocator};
use trac_person_lines::ScreenLine;

/// What was typed of these calls, in the order in which they were named.
#[derive(Drop)]
pub(crate) struct Breaks<A: Allocator + Copy> {
    lines: Vec<Vec<u8, A>, A>,
}

impl<A: Allocator + Copy> Breaks<A> {
    /// None. It takes no memory.
    pub(crate) fn new(alloc: A) -> Self
        ensures { result.lines.items ≡ [] }
    {
        Breaks {
            lines: Vec::new(alloc),
        }
    }

    /// Whether there are none.
    pub(crate) fn is_empty(&self) -> bool {
        self.lines.is_empty()
    }

    /// Adds calls, by what was typed of them. The error is that memory was refused, here and below.
    pub(crate) fn add(&mut self, alloc: A, typed: &[u8]) -> Result<(), AllocError>
        ensures { OnOk result (length self.new.lines.items ≡ length self.old.lines.items + 1) }
    {
        let line = Vec::from_slice(alloc, typed)?;
        Ok(self.lines.push(line)?)
    }

    /// Removes those of this number, counted from 1; whether there were such.
    pub(crate) fn remove(&mut self, number: u64) -> bool {
        if number == 0 || number > self.lines.len() as u64 {
            return false;
        }
        self.lines.remove((number - 1) as usize);
        true
    }

    /// All of them, as the words of one line.
    pub(crate) fn line(&self, alloc: A) -> Result<Vec<u8, A>, AllocError> {
        let mut line = Vec::new(alloc);
        for calls in self.lines.iter() {
            line.extend_from_slice(b" | ")?;
            line.extend_from_slice(calls.as_slice())?;
        }
        Ok(line)
    }

    /// Puts a line for each at the end of a text, with its number.
    pub(crate) fn list_into(&self, alloc: A, out: &mut Vec<u8, A>) -> Result<(), AllocError> {
        if self.lines.is_empty() {
            return out.extend_from_slice(b"there are no breaks\n");
        }
        for (number, calls) in self.lines.iter().enumerate() {
            let mut line = ScreenLine::new(alloc);
            line.say(b"break ");
            line.count((number as u64).saturating_add(1));
            line.say(b"  ");
            line.show(calls.as_slice());
            line.end_into(out)?;
        }
        Ok(())
    }
}
