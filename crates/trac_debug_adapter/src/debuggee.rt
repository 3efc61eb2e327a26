//! A program that is debugged.

use std::alloc::{AllocError, Allocator, Global};
use trac_documents::{Encoding, Position, position_of};
use trac_follow::{End, Place, Witness, trace};
use trac_moves::Walker;
use trac_rules::limit::JOURNAL_LIMIT;
use trac_rules::width::Width;
use trac_session::Machine;
use trac_streams::Ending;

/// The records of the steps that can be gone back over take so many bytes, about.
pub(crate) const KEEP: u64 = 256 << 20;

/// What was asked for when the program was launched.
#[derive(Drop)]
pub(crate) struct Launch {
    /// The file of the program.
    pub(crate) program: String,
    /// The file of what it reads after that, if there is one.
    pub(crate) input: Option<String>,
    /// How wide its numbers are.
    pub(crate) width: Width,
    /// Whether it stops before the first step.
    pub(crate) stops_on_entry: bool,
}

/// A program that is debugged.
#[derive(Drop)]
pub(crate) struct Debuggee<A: Allocator + Copy> {
    pub(crate) alloc: A,
    pub(crate) walker: Walker<A>,
    /// How it was launched.
    pub(crate) launch: Launch,
    /// The program, and what it reads after that.
    pub(crate) tape: Vec<u8, A>,
    /// How long the program is.
    pub(crate) len: usize,
    /// How many bytes of the output the editor was told.
    pub(crate) told: u64,
    /// The lines of input that were typed, as a walk takes them.
    pub(crate) typed: Vec<u8, A>,
    /// Whether the input has ended.
    pub(crate) has_ended: bool,
    /// Over how many steps it went back to find out where calls were written.
    pub(crate) followed: u64,
}

/// Where something was written.
#[derive(Clone, Copy)]
pub(crate) struct Spot<'d> {
    /// The file.
    pub(crate) path: &'d str,
    /// The place in it.
    pub(crate) position: Position,
}

// A witness of a byte's way of which nothing is said.
#[derive(Clone, Copy)]
struct Unsaid;

impl<A: Allocator + Copy> Witness<A> for Unsaid {
    fn passed(&mut self, _: &Machine<A>, _: u64, _: Place<'_>) -> Result<(), AllocError> {
        Ok(())
    }
}

impl<A: Allocator + Copy> Debuggee<A> {
    /// Before the first step. The tape is the program, which is so long, and what it reads after that.
    pub(crate) fn new(
        alloc: A,
        launch: Launch,
        tape: Vec<u8, A>,
        len: usize,
    ) -> Result<Self, Ending> {
        let walker = Walker::new(alloc, tape.as_slice(), JOURNAL_LIMIT, KEEP, launch.width)?;
        Ok(Debuggee {
            alloc,
            walker,
            launch,
            tape,
            len,
            told: 0,
            typed: Vec::new(alloc),
            has_ended: false,
            followed: 0,
        })
    }

    /// How it was launched.
    pub(crate) fn into_launch(self) -> Launch {
        let Debuggee {
            alloc: _,
            walker: _,
            launch,
            tape: _,
            len: _,
            told: _,
            typed: _,
            has_ended: _,
            followed: _,
        } = self;
        launch
    }

    /// The program.
    pub(crate) fn program(&self) -> &[u8] {
        let tape = self.tape.as_slice();
        tape.split_at(self.len.min(tape.len())).0
    }

    /// What it reads after that.
    pub(crate) fn input(&self) -> &[u8] {
        let tape = self.tape.as_slice();
        tape.split_at(self.len.min(tape.len())).1
    }

    /// Which byte of all input the first byte of the name of a begun call was; none, if it was not read, or that is
    /// not known. The outermost call has number 0. The walker goes back for that, and forward again.
    pub(crate) fn written(&mut self, number: usize) -> Option<u64> {
        let start = self.walker.step();
        let most = self.walker.steps_back() as u64;
        let place = Place::Argument {
            function: number,
            argument: 0,
            byte: 0,
        };
        let session = &mut self.walker.window.session;
        let found = trace(self.alloc, session, place, most, &mut Unsaid);
        let read = match found.end {
            End::Read(byte) => Some(self.walker.input_number(byte)),
            _ => None,
        };
        let steps = start.saturating_sub(self.walker.step());
        self.followed = self.followed.saturating_add(steps);
        let _ = self.walker.forward(steps);
        read
    }

    /// Where the byte of this number of all input was written; none, if in no file, or if there is no number.
    pub(crate) fn spot(&self, number: Option<u64>) -> Option<Spot<'_>> {
        let number = number?;
        let program = self.program();
        if number < program.len() as u64 {
            return Some(Spot {
                path: self.launch.program.as_str(),
                position: position_of(program, Encoding::Utf16, number as usize),
            });
        }
        let input = self.input();
        let number = number - program.len() as u64;
        if number >= input.len() as u64 {
            return None;
        }
        let path = self.launch.input.as_ref()?;
        Some(Spot {
            path: path.as_str(),
            position: position_of(input, Encoding::Utf16, number as usize),
        })
    }

    /// How many bytes are printed.
    pub(crate) fn printed(&self) -> u64 {
        let kept = self.walker.pending().len() as u64;
        self.walker.released().saturating_add(kept)
    }
}

/// A text of bytes as an editor shows it: what is no UTF-8 is replaced. The error is that memory was refused.
pub(crate) fn shown(alloc: Global, text: &[u8]) -> Result<String, AllocError> {
    String::from_utf8_lossy(alloc, text)
}
