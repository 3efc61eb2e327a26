//! Beginning a walk anew.

use crate::programs::Program;
use crate::replying::Memo;
use crate::telling::Telling;
use crate::walks::Walks;
use std::alloc::{AllocError, Allocator};
use trac_dialogue::{Programs, Unread};
use trac_person_lines::{ScreenLine, Stop};
use trac_rules::refusal::Refusal;

// What is said if the file has other bytes than before.
const CHANGED: &[u8] = b"FILE has changed, and is read anew\n";

/// With which program a walk is asked to begin anew.
#[derive(Drop)]
pub(crate) enum Asked<A: Allocator + Copy> {
    /// That of the same file, as it is now.
    Same,
    /// That of the file at this path.
    Other(Vec<u8, A>),
}

/// The same by a path, if one is given. The error is that memory was refused.
pub(crate) fn asked_for<A: Allocator + Copy>(
    alloc: A,
    path: Option<&[u8]>,
) -> Result<Asked<A>, AllocError> {
    match path {
        None => Ok(Asked::Same),
        Some(path) => Ok(Asked::Other(Vec::from_slice(alloc, path)?)),
    }
}

impl<W: Walks<A>, A: Allocator + Copy> Telling<'_, W, A> {
    /// Begins anew at the first step, over the same input, and says if the program is another one, and where it stands.
    /// If it cannot, it says why, and nothing is changed. The error is that memory was refused, here and below.
    pub(crate) fn restart<P: Programs<A>>(
        &mut self,
        memo: &mut Memo<A>,
        programs: &P,
        asked: Asked<A>,
    ) -> Result<(), AllocError> {
        let stop = match asked {
            Asked::Same => match read_again(self.alloc, programs, &memo.file) {
                Ok(None) => self.begin_same(),
                Ok(Some(program)) => self.begin_again(program)?,
                Err(why) => Some(stop_for(why)),
            },
            Asked::Other(path) => match programs.read(self.alloc, Some(path.as_slice())) {
                Ok(None) => Some(Stop::NoFile),
                Ok(Some(program)) => self.begin_other(memo, program, path)?,
                Err(why) => Some(stop_for(why)),
            },
        };
        match stop {
            None => memo.begin_anew(),
            Some(stop) => self.stop(stop)?,
        }
        self.stand()
    }

    // Begins with the program as it was. Returns why it did not, if so, here and below.
    fn begin_same(&mut self) -> Option<Stop> {
        let refusal = self.walker.begin_anew(self.alloc, self.program.bytes())?;
        Some(Stop::Refused(refusal))
    }

    // Begins with the program of the same file.
    fn begin_again(&mut self, program: Vec<u8, A>) -> Result<Option<Stop>, AllocError> {
        if let Some(refusal) = self.walker.begin_anew(self.alloc, program.as_slice()) {
            return Ok(Some(Stop::Refused(refusal)));
        }
        if program.as_slice() != self.program.bytes() {
            self.say(CHANGED)?;
        }
        self.program = Program::Anew(program);
        Ok(None)
    }

    // Begins with the program of the file at this path, which is FILE from now on.
    fn begin_other(
        &mut self,
        memo: &mut Memo<A>,
        program: Vec<u8, A>,
        path: Vec<u8, A>,
    ) -> Result<Option<Stop>, AllocError> {
        if let Some(refusal) = self.walker.begin_anew(self.alloc, program.as_slice()) {
            return Ok(Some(Stop::Refused(refusal)));
        }
        let mut line = ScreenLine::new(self.alloc);
        line.say(b"FILE is ");
        line.show(path.as_slice());
        line.end_into(&mut self.out)?;
        self.program = Program::Anew(program);
        memo.file = Some(path);
        Ok(None)
    }
}

// The program of the file read last, as it is now; none if it is in no file. A pipe that was read gives nothing
// more: so it is none too if that file is empty.
fn read_again<P: Programs<A>, A: Allocator + Copy>(
    alloc: A,
    programs: &P,
    file: &Option<Vec<u8, A>>,
) -> Result<Option<Vec<u8, A>>, Unread> {
    let path = match file {
        Some(path) => Some(path.as_slice()),
        None => None,
    };
    let Some(program) = programs.read(alloc, path)? else {
        return Ok(None);
    };
    Ok(if program.is_empty() {
        None
    } else {
        Some(program)
    })
}

// Why it does not begin, if its program is not read so.
fn stop_for(why: Unread) -> Stop {
    match why {
        Unread::NoFile => Stop::NoFile,
        Unread::TooLong => Stop::Refused(Refusal::TooLong),
        Unread::Memory => Stop::Refused(Refusal::Memory),
    }
}
