//! How a run ends.
use std::fmt;

/// Why a run, or a session of the debugger, ended.
#[derive(Clone, Copy, Debug, PartialEq, Eq)]
pub enum Ending {
    /// The input has ended and is all read, or the program halted; the commands of the debugger
    /// have ended, or said `q`.
    Ended,
    /// As many steps were taken as the budget allows, or as many lines of commands as there may be.
    Budget,
    /// The next step, or more input, would pass a limit; or what is to be debugged is longer than a tape may be.
    Limit,
    /// The allocator refused memory.
    Memory,
    /// The reader failed.
    Read,
    /// The writer failed, or took nothing.
    Write,
    /// A command of the debugger was not understood.
    NotUnderstood {
        /// The number of its line, counted from 1, empty lines too.
        line: u64,
    },
}

impl Ending {
    ghost use Rattle.std.specs.Prelude.{◌≡◌};
    ghost use Rattle.trac_streams.specs.Endings.{status_of};

    /// The exit status of the program.
    pub fn status(self) -> u8
        ensures { result ≡ status_of self }
    {
        match self {
            Ending::Ended => 0,
            Ending::Budget => 3,
            Ending::Limit => 4,
            Ending::Memory => 5,
            Ending::Read => 6,
            Ending::Write => 7,
            Ending::NotUnderstood { line: _ } => 8,
        }
    }
}

impl fmt::Display for Ending {
    /// The line on standard error, without its line feed; empty if the input ended.
    fn fmt<W: fmt::Write>(&self, f: &mut fmt::Formatter<W>) -> fmt::Result {
        match self {
            Ending::Ended => write!(f, ""),
            Ending::Budget => write!(f, "trac: budget spent"),
            Ending::Limit => write!(f, "trac: limit passed"),
            Ending::Memory => write!(f, "trac: no memory"),
            Ending::Read => write!(f, "trac: read fault"),
            Ending::Write => write!(f, "trac: write fault"),
            Ending::NotUnderstood { line } => write!(f, "trac: line {line}: not understood"),
        }
    }
}
