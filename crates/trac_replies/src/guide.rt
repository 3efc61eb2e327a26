//! Who replies to the lines of a person.

use crate::programs::Program;
use crate::replying::Memo;
use crate::telling::Telling;
use crate::walks::Walks;
use std::alloc::{AllocError, Allocator};
use std::mem;
use trac_dialogue::{Programs, Replier};

/// A walk, and what is kept of the lines so far.
#[derive(Drop)]
pub struct Guide<'p, W: Walks<A>, A: Allocator + Copy> {
    telling: Telling<'p, W, A>,
    memo: Memo<A>,
}

impl<'p, W: Walks<A>, A: Allocator + Copy> Guide<'p, W, A> {
    /// Before the first line, of a walk through this program. It takes no memory.
    pub fn new(alloc: A, walker: W, program: &'p [u8]) -> Self {
        Guide {
            telling: Telling {
                alloc,
                walker,
                program: Program::Lent(program),
                recalled: None,
                out: Vec::new(alloc),
            },
            memo: Memo::new(alloc),
        }
    }

    // Does what a line asks for, and begins anew if it asks for that; whether the dialogue goes on. The error is that
    // memory was refused.
    fn obey<P: Programs<A>>(&mut self, programs: &P, line: &[u8]) -> Result<bool, AllocError> {
        let goes_on = self.telling.reply(&mut self.memo, line)?;
        if let Some(asked) = self.memo.asked.take() {
            self.telling.restart(&mut self.memo, programs, asked)?;
        }
        Ok(goes_on)
    }
}

impl<'p, W: Walks<A>, A: Allocator + Copy> Replier<A> for Guide<'p, W, A> {
    fn number(&self) -> u64 {
        self.telling.walker.step()
    }

    // The text is lent to what is told for as long as that is: to own it there is cheaper to prove than a loan.
    fn reply_into<P: Programs<A>>(
        &mut self,
        alloc: A,
        programs: &P,
        line: &[u8],
        out: &mut Vec<u8, A>,
    ) -> Result<bool, AllocError> {
        self.telling.recalled = self.memo.recalled(&self.telling.walker);
        mem::swap(&mut self.telling.out, out);
        let goes_on = self.obey(programs, line);
        mem::swap(&mut self.telling.out, out);
        goes_on
    }
}
