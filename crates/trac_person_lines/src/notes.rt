//! What is said of a move that stopped before its goal, and other notes.

use crate::screen_line::Part::{Number, Shown, Words};
use crate::screen_line::{ScreenLine, put_line};
use std::alloc::{AllocError, Allocator};
use trac_rules::refusal::Refusal;
use trac_sight::Forgetting;

/// A search forward stops after so many steps.
pub const SEARCH_LIMIT: u64 = 10_000_000;

/// Why a move stopped before its goal.
#[derive(Clone, Copy)]
pub enum Stop {
    /// A step forward was refused so.
    Refused(Refusal),
    /// A step forward was refused so before the call was met that was looked for.
    Unmet(Refusal),
    /// So too, at the step of this number, and the walk went back to where it began.
    UnmetUpTo(Refusal, u64),
    /// The steps of a search were spent, which can go on from there.
    Spent,
    /// So too, at the step of this number, and the walk went back to where it began.
    SpentUpTo(u64),
    /// So many steps were taken on the way to where the program waits or ends.
    Going,
    /// The steps of a search were spent, which looked for the end of a call. The same command would
    /// be about another call there.
    Unended,
    /// There is no step to go back over.
    AtFirst,
    /// What was looked for is not met on the way back.
    NotMet,
    /// No change of the form of this name is met on the way back, and there is no form of this name.
    NoForm,
    /// No function is begun.
    Outside,
    /// The function that the next step performs is the outermost one.
    Outermost,
    /// The value of no function ends here.
    NoValue,
    /// Nor of one that was performed since the first step that one can go back to; which were
    /// performed before is not known.
    NoValueSince,
    /// Byte 0 was named, of the output, of a form or of an argument; the first is number 1.
    FromOne,
    /// An empty text was given, and its last byte is wanted.
    EmptyText,
    /// The output has no such byte or text.
    NotPrinted,
    /// The output has no such text since the first step that one can go back to; what was printed before is not known.
    NotPrintedSince,
    /// The byte was printed before the first step that one can go back to.
    PrintedEarlier,
    /// Nothing stands at the place.
    NoByte,
    /// Of the name of the call that comes next nothing is scanned.
    NoName,
    /// There is no form of this name.
    NoSuchForm,
    /// The innermost begun function has no argument of this number.
    NoArgument(u64),
    /// Its argument of this number has so many bytes, one at least, and which one is meant was not said.
    WhichByte(u64, u64),
    /// It has so many, one at least, and a byte after these was named.
    ShortArgument(u64, u64),
    /// The call is the idle program's.
    Idle,
    /// There is no file to read.
    NoFile,
    /// No calls have this number, at which it stops.
    NoBreak,
}

// What may have been meant if there is no form of a name.
const NO_FORM: &[u8] =
    b"there is no form of this name; printed text stands in quotes: w \"TEXT\"\n";

/// What is said if no command began at a step that is kept.
pub const NO_PLACE: &[u8] = b"no earlier place is kept\n";

/// What may have been meant if a call is not met whose first word is the name of no primitive.
pub const NO_PRIMITIVE: &[u8] =
    b"no primitive has this name; a form is met by its call: u cl NAME, r cl NAME\n";

/// What may have been meant if a text is not printed so far that is the name of a form.
pub const FORM_NAMED: &[u8] =
    b"there is a form of this name: w set \"NAME\" looks for its last change\n";

/// Puts a line at the end of a text that says why a move stopped, if one can go back to this step. The error is that
/// memory was refused.
pub fn stop_into<A: Allocator + Copy>(
    alloc: A,
    first_step: u64,
    stop: Stop,
    out: &mut Vec<u8, A>,
) -> Result<(), AllocError> {
    let mut line = ScreenLine::new(alloc);
    say_stop(first_step, stop, &mut line);
    line.end_into(out)?;
    match stop {
        Stop::NoForm => out.extend_from_slice(NO_FORM),
        Stop::UnmetUpTo(_, step) | Stop::SpentUpTo(step) => {
            let ended = b", where the search ended";
            let parts = [Words(b"m goes to step "), Number(step), Words(ended)];
            put_line(alloc, &parts, out)
        }
        _ => Ok(()),
    }
}

// Why a move stopped, in words.
fn say_stop<A: Allocator + Copy>(first_step: u64, stop: Stop, line: &mut ScreenLine<A>) {
    if matches!(stop, Stop::Unmet(_) | Stop::UnmetUpTo(_, _)) {
        line.say(b"not met; ");
    }
    line.say(reason(stop));
    match stop {
        Stop::Spent | Stop::SpentUpTo(_) | Stop::Going => {
            line.put(&[
                Number(SEARCH_LIMIT),
                Words(b" steps; an empty line goes on"),
            ])
        }
        Stop::Unended => line.put(&[
            Number(SEARCH_LIMIT),
            Words(b" steps; s N goes on by N steps"),
        ]),
        Stop::AtFirst | Stop::NotMet | Stop::NoForm => line.count(first_step),
        Stop::NoValueSince => {
            line.put(&[
                Number(first_step),
                Words(b", the first that is kept, ends here"),
            ])
        }
        Stop::NotPrintedSince | Stop::PrintedEarlier => line.count(first_step),
        Stop::NoArgument(argument) => line.count(argument),
        Stop::WhichByte(argument, len) => {
            line.put(&[
                Number(argument),
                Words(b" is not empty: y . "),
                Number(argument),
            ]);
            match len {
                1 => line.say(b" 1 follows its byte"),
                len => line.put(&[Words(b" K follows its byte K, 1 to "), Number(len)]),
            }
        }
        Stop::ShortArgument(argument, 1) => line.put(&[Number(argument), Words(b" has 1 byte")]),
        Stop::ShortArgument(argument, len) => {
            line.put(&[
                Number(argument),
                Words(b" has "),
                Number(len),
                Words(b" bytes"),
            ])
        }
        _ => {}
    }
}

// Why a move stopped, up to the number that is said with it, if one is.
fn reason(stop: Stop) -> &'static [u8] {
    match stop {
        Stop::Refused(refusal) | Stop::Unmet(refusal) | Stop::UnmetUpTo(refusal, _) => {
            refused(refusal)
        }
        Stop::Spent | Stop::SpentUpTo(_) => b"not met after ",
        Stop::Going => b"the program goes on after ",
        Stop::Unended => b"the call has not ended after ",
        Stop::AtFirst => b"this is the first step that is kept, step ",
        Stop::NotMet | Stop::NoForm => b"not met since the first step that is kept, step ",
        Stop::Outside => b"no call is begun here; u goes on to one, r back to one",
        Stop::Outermost => b"no call is begun around this one",
        Stop::NoValue => b"the value of no call ends here",
        Stop::NoValueSince => b"no value of a call since step ",
        Stop::FromOne => b"bytes are counted from 1",
        Stop::EmptyText => b"an empty text has no last byte",
        Stop::NotPrinted => b"that was not printed up to here",
        Stop::NotPrintedSince => b"that was not printed since the first step that is kept, step ",
        Stop::PrintedEarlier => b"that was printed before the first step that is kept, step ",
        Stop::NoByte => b"no byte stands there",
        Stop::NoName => b"no byte of the name of this call is scanned; s goes on",
        Stop::NoSuchForm => b"there is no form of this name; f lists the forms",
        Stop::NoArgument(_) => b"this call has no argument ",
        Stop::WhichByte(_, _) | Stop::ShortArgument(_, _) => b"argument ",
        Stop::NoFile => b"this file cannot be read",
        Stop::NoBreak => b"there is no break of this number; breaks lists them",
        Stop::Idle => b"this call is the idle program's: it is written nowhere in FILE",
    }
}

/// Why a step forward or more input was refused, in words.
pub fn refused(refusal: Refusal) -> &'static [u8] {
    match refusal {
        Refusal::NeedInput => b"the program waits for input: i TEXT feeds a line, e ends the input",
        Refusal::Ended => b"the program has ended",
        Refusal::TooLong =>
            b"a limit is passed: too much text, or too many arguments, forms or blocks",
        Refusal::Memory => b"there is no memory for this",
        Refusal::Closed => b"the input has ended",
        Refusal::JournalFull => b"the way back is full",
        Refusal::AtStart => b"the way back ends here",
        Refusal::NotMet => b"not met",
    }
}

/// Where a text is printed that was not printed so far.
#[derive(Clone, Copy)]
pub enum Later {
    /// By this step first.
    By(u64),
    /// Not before this step; what the program does from there on is not known.
    NotUpTo(u64),
}

/// Puts a line at the end of a text that says where a text is printed later. The error is that memory was refused.
pub fn later_into<A: Allocator + Copy>(
    alloc: A,
    later: Later,
    out: &mut Vec<u8, A>,
) -> Result<(), AllocError> {
    let mut line = ScreenLine::new(alloc);
    match later {
        Later::By(step) => {
            let words = Words(b"it is printed first by step ");
            line.put(&[
                words,
                Number(step),
                Words(b": g "),
                Number(step),
                Words(b" goes there"),
            ])
        }
        Later::NotUpTo(step) => line.put(&[Words(b"nor is it printed up to step "), Number(step)]),
    }
    line.end_into(out)
}

/// Puts a line at the end of a text that says that `m` goes to this step, further on than here. The error is that
/// memory was refused.
pub fn recalled_into<A: Allocator + Copy>(
    alloc: A,
    step: u64,
    out: &mut Vec<u8, A>,
) -> Result<(), AllocError> {
    let began = b", where the last command began";
    let parts = [Words(b"m goes to step "), Number(step), Words(began)];
    put_line(alloc, &parts, out)
}

/// Puts a line at the end of a text that says that this is the first step that is kept from now on, and why. The
/// error is that memory was refused.
pub fn window_into<A: Allocator + Copy>(
    alloc: A,
    first_step: u64,
    why: Forgetting,
    out: &mut Vec<u8, A>,
) -> Result<(), AllocError> {
    let why = Words(forgotten(why));
    let parts = [Words(b"steps before "), Number(first_step), why];
    put_line(alloc, &parts, out)
}

// That steps are forgotten, and why.
fn forgotten(why: Forgetting) -> &'static [u8] {
    match why {
        Forgetting::ForOutput => b" are forgotten, to make room for the output",
        Forgetting::ForMemory => b" are forgotten, to take no more memory; --keep keeps more",
        Forgetting::ForSteps => b" are forgotten; --journal keeps more",
        Forgetting::ForMostSteps => b" are forgotten",
    }
}

/// Puts a line at the end of a text that says that a line of input does not end the text that `rs` reads, since it has
/// no meta character, which is this one. The error is that memory was refused.
pub fn no_end_into<A: Allocator + Copy>(
    alloc: A,
    meta: u8,
    out: &mut Vec<u8, A>,
) -> Result<(), AllocError> {
    let reads_on = b" in this line: rs reads on until one comes";
    let parts = [Words(b"no "), Shown(&[meta]), Words(reads_on)];
    put_line(alloc, &parts, out)
}
