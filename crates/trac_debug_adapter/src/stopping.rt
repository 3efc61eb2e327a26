//! Why a program stands, as the editor is told.

use crate::debuggee::{Debuggee, shown};
use crate::outbox::Outbox;
use serde_json::{Value, json};
use std::alloc::{AllocError, Allocator, Global};
use trac_person_lines::{ScreenLine, doubt_into, refused};
use trac_session::Refusal;

/// Why a program stands.
#[derive(Clone, Copy, Debug, PartialEq, Eq)]
pub(crate) enum Halt {
    /// It has not begun.
    Entry,
    /// The steps were taken that were asked for.
    Step,
    /// A command of the console went here.
    Moved,
    /// The call that comes next was written in the line of this breakpoint.
    Line(u64),
    /// The call that comes next is that of this breakpoint.
    Call(u64),
    /// What this breakpoint watches changed.
    Change(u64),
    /// The step that comes next is doubtful.
    Doubt,
    /// A step was refused.
    Refused(Refusal),
    /// This is the first step that is kept.
    First,
    /// As many steps were taken as the program may run without a stop.
    Spent,
    /// It went back over as many steps as it may to find out where calls were written.
    Sought,
    /// The editor asked it to stand, and it does.
    Paused,
}

/// The thread that every program has.
pub(crate) const THREAD: u64 = 1;

// What is said of a run that has gone on for long.
const SPENT: &str = "1000000 steps were taken; continue goes on";

// What is said of a run that looked for long for where calls were written.
const SOUGHT: &str =
    "4000000 steps were gone back over to find where calls were written; continue goes on";

// What is said at the first step that is kept.
const FIRST: &str = "this is the first step that is kept";

// The word that the protocol has for a reason. That a limit is passed is an exception, if the editor asked for that.
fn reason_of(halt: Halt, limit: bool) -> &'static str {
    match halt {
        Halt::Entry => "entry",
        Halt::Step => "step",
        Halt::Moved => "goto",
        Halt::Line(_) => "breakpoint",
        Halt::Call(_) => "function breakpoint",
        Halt::Change(_) => "data breakpoint",
        Halt::Doubt => "exception",
        Halt::Refused(Refusal::TooLong) if limit => "exception",
        Halt::Refused(_) | Halt::First | Halt::Spent | Halt::Sought | Halt::Paused => "pause",
    }
}

// What a person is told beside the reason; empty, if nothing.
fn words_of<A: Allocator + Copy>(
    alloc: Global,
    debuggee: &Debuggee<A>,
    halt: Halt,
) -> Result<String, AllocError> {
    match halt {
        Halt::Refused(refusal) => shown(alloc, refused(refusal)),
        Halt::First => String::from_str(alloc, FIRST),
        Halt::Spent => String::from_str(alloc, SPENT),
        Halt::Sought => String::from_str(alloc, SOUGHT),
        Halt::Doubt => doubt_words(alloc, debuggee),
        _ => Ok(String::new(alloc)),
    }
}

// What is said of the first doubt of the next step.
fn doubt_words<A: Allocator + Copy>(
    alloc: Global,
    debuggee: &Debuggee<A>,
) -> Result<String, AllocError> {
    let doubts = debuggee.walker.doubts(debuggee.alloc)?;
    let mut line = ScreenLine::new(debuggee.alloc);
    if let Some(doubt) = doubts.first() {
        doubt_into(&debuggee.walker.sight(), *doubt, &mut line);
    }
    line.check()?;
    shown(alloc, line.bytes())
}

/// Tells the editor that the program stands, and why. The error is that memory was refused.
pub(crate) fn tell_stop<A: Allocator + Copy>(
    alloc: Global,
    debuggee: &Debuggee<A>,
    halt: Halt,
    limit: bool,
    outbox: &mut Outbox,
) -> Result<(), AllocError> {
    let words = words_of(alloc, debuggee, halt)?;
    let mut hit = Vec::new(alloc);
    if let Halt::Line(id) | Halt::Call(id) | Halt::Change(id) = halt {
        hit.push(json!(in alloc; id)?)?;
    }
    let hit = Value::Array(hit);
    let body = if words.is_empty() {
        json!(in alloc; {
            "reason": reason_of(halt, limit),
            "threadId": THREAD,
            "allThreadsStopped": true,
            "hitBreakpointIds": hit
        })?
    } else {
        json!(in alloc; {
            "reason": reason_of(halt, limit),
            "description": words.as_str(),
            "text": words.as_str(),
            "threadId": THREAD,
            "allThreadsStopped": true,
            "hitBreakpointIds": hit
        })?
    };
    outbox.tell("stopped", body)
}

/// Why a walk stopped that looked for something.
pub(crate) fn halt_of(refusal: Refusal) -> Halt {
    match refusal {
        Refusal::NotMet => Halt::Spent,
        Refusal::AtStart => Halt::First,
        refusal => Halt::Refused(refusal),
    }
}
