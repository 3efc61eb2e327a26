//! The way of a byte back: what steps did with it, one in a line.

use crate::screen_line::Part::{Number, Words};
use crate::screen_line::ScreenLine;
use crate::standing_line::{begun_into, next_into};
use std::alloc::{AllocError, Allocator};
use trac_gap::TwoEnds;
use trac_sight::Sight;
use trac_step::{Core, Machine, Mark};

// So many columns a step takes at most, so that what it did is seen.
const STEP_WIDTH: usize = 48;

// What it did begins in this column, if the step leaves room.
const TREATMENT_COLUMN: usize = 34;

/// What a step did with a byte.
#[derive(Clone, Copy)]
pub enum Treatment {
    /// A call printed it that was given it, or had it from a form.
    Prints,
    /// A call put it into a form or a block.
    Puts,
    /// A call gave it in its value.
    Gives,
    /// A call gave it in its value, where it filled the gap of this number.
    Fills(u64),
    /// A call gave it in its value, which was its default argument.
    Defaults,
    /// A call that stood there gave an empty value.
    GivesNothing,
    /// A call filled the gap of this number with nothing.
    LeavesGap(u64),
    /// A call made the gap.
    MakesGap,
    /// A call left a form with nothing in it.
    Empties,
    /// The way of the byte ends here, so.
    Ends(Origin),
}

/// Where a byte comes from.
#[derive(Clone, Copy)]
pub enum Origin {
    /// The step made it.
    Made,
    /// A call read it, as this byte of this line of the program, both counted from 1.
    Read(u64, u64),
    /// A call read it, as the byte of this number, counted from 1, of the input after the program.
    ReadFed(u64),
    /// It stood there already at the first step that is kept.
    There,
}

/// The beginning of a line: the number of the next step, which is this, and what the step does.
pub fn step_line<A: Allocator + Copy>(alloc: A, step: u64, sight: &Sight<'_, A>) -> ScreenLine<A> {
    let mut line = ScreenLine::new(alloc);
    next_into(step, sight, &mut line);
    line.cut(STEP_WIDTH);
    line.pad(TREATMENT_COLUMN);
    line
}

/// The beginning of a line: a call that is begun, and whether it is the innermost one; of a machine, and its number,
/// the outermost being number 0.
pub fn begun_line<A: Allocator + Copy>(
    alloc: A,
    machine: &Machine<A>,
    number: usize,
    is_innermost: bool,
) -> ScreenLine<A> {
    let mut line = ScreenLine::new(alloc);
    let label: &[u8] = if is_innermost {
        b"here    "
    } else {
        b"begun   "
    };
    line.say(label);
    begun_in(machine, number, &mut line);
    line.cut(STEP_WIDTH);
    line.pad(TREATMENT_COLUMN);
    line
}

// Puts the begun function of this number at the end of a line.
fn begun_in<E: TwoEnds<u8, A>, M: TwoEnds<Mark, A>, A: Allocator + Copy>(
    machine: &Core<E, M, A>,
    number: usize,
    line: &mut ScreenLine<A>,
) {
    if let Some((kind, arguments)) = machine.frame(number) {
        begun_into(kind, &arguments, line);
    }
}

/// Puts a line at the end of a text: the number of the next step, what the step does, and what it did with a byte. The
/// error is that memory was refused, here and below.
pub fn treatment_into<A: Allocator + Copy>(
    alloc: A,
    step: u64,
    sight: &Sight<'_, A>,
    treatment: Treatment,
    out: &mut Vec<u8, A>,
) -> Result<(), AllocError> {
    let mut line = step_line(alloc, step, sight);
    treated_into(treatment, &mut line);
    line.end_into(out)
}

/// Puts what a step did with a byte at the end of a line.
pub fn treated_into<A: Allocator + Copy>(treatment: Treatment, line: &mut ScreenLine<A>) {
    line.say(words_of(treatment));
    match treatment {
        Treatment::Ends(origin) => read_into(origin, line),
        Treatment::LeavesGap(number) => line.put(&[Number(number), Words(b" empty")]),
        Treatment::Fills(number) => line.count(number),
        _ => {}
    }
}

// The place of a byte that was read; nothing of another one.
fn read_into<A: Allocator + Copy>(origin: Origin, line: &mut ScreenLine<A>) {
    match origin {
        Origin::Read(row, column) => {
            line.put(&[
                Words(b"line "),
                Number(row),
                Words(b", column "),
                Number(column),
            ])
        }
        Origin::ReadFed(number) => {
            line.put(&[Words(b"byte "), Number(number), Words(b" after FILE")])
        }
        Origin::Made | Origin::There => {}
    }
}

/// Puts where a byte comes from at the end of a line; its way ends at the step of this number.
pub fn origin_into<A: Allocator + Copy>(origin: Origin, step: u64, line: &mut ScreenLine<A>) {
    match origin {
        Origin::Made => line.put(&[Words(b"made by step "), Number(step)]),
        Origin::There => line.put(&[Words(b"there at step "), Number(step)]),
        read => read_into(read, line),
    }
}

// What was done, in words that its place or its number may follow.
fn words_of(treatment: Treatment) -> &'static [u8] {
    match treatment {
        Treatment::Prints => b"prints it",
        Treatment::Puts => b"sets it",
        Treatment::Gives => b"gives it",
        Treatment::Fills(_) => b"fills gap ",
        Treatment::Defaults => b"gives its default",
        Treatment::GivesNothing => b"gives an empty value",
        Treatment::LeavesGap(_) => b"leaves gap ",
        Treatment::MakesGap => b"makes the gap",
        Treatment::Empties => b"empties it",
        Treatment::Ends(Origin::Made) => b"makes it",
        Treatment::Ends(Origin::Read(_, _) | Origin::ReadFed(_)) => b"reads it: ",
        Treatment::Ends(Origin::There) => b"it is there already",
    }
}

/// Puts a line at the end of a text that says how many lines are left out.
pub fn left_out_into<A: Allocator + Copy>(
    alloc: A,
    count: usize,
    out: &mut Vec<u8, A>,
) -> Result<(), AllocError> {
    let mut line = ScreenLine::new(alloc);
    line.say_left_out(count);
    line.end_into(out)
}
