//! The state on one screen.
ghost use Rattle.std.specs.Prelude.{◌≤◌, length};

use crate::characters::{columns_in, filling, shown_into};
use crate::screen_line::Part::{Number, Shown, Words};
use crate::screen_line::{ScreenLine, put_line, shown_tail, tail};
use crate::standing_line::begun_into;
use std::alloc::{AllocError, Allocator};
use trac_gap::TwoEnds;
use trac_rules::byte::LINE_FEED;
use trac_sight::Reach;
use trac_step::{Core, Machine, Mark};
use trac_text::front::beginning_of;

// So many begun functions are shown at most: the outermost and the innermost of them.
const OUTER_ROWS: usize = 3;

const INNER_ROWS: usize = 8;

// So many columns of scanned text stand left of the mark at most. A function that is begun takes two of them at least,
// so the innermost of so many fill them.
const SCANNED: usize = 34;

const SCANNED_ROWS: usize = SCANNED / 2 + 1;

// So many lines of the output are shown at most, of so many bytes together, and of each so many columns.
const OUTPUT_ROWS: usize = 4;

const OUTPUT_BYTES: usize = 1280;

const OUTPUT_WIDTH: usize = 70;

/// Puts the state at the end of a text, in at most 20 lines of 80 columns: the begun functions, the text with a mark
/// between what is scanned and what is not yet, and the end of the output. It takes no more time for a long text, a
/// large form or many forms than for small ones. The error is that memory was refused, here and below.
pub fn screen_into<A: Allocator + Copy>(
    alloc: A,
    machine: &Machine<A>,
    reach: Reach,
    out: &mut Vec<u8, A>,
) -> Result<(), AllocError> {
    parts_into(alloc, machine, reach, out)
}

// All parts of the state. Here and below the machine may be of any representation: that the gap buffer is one is shown
// once, by the public call, and not by each function.
fn parts_into<E: TwoEnds<u8, A>, M: TwoEnds<Mark, A>, A: Allocator + Copy>(
    alloc: A,
    machine: &Core<E, M, A>,
    reach: Reach,
    out: &mut Vec<u8, A>,
) -> Result<(), AllocError> {
    functions_into(alloc, machine, out)?;
    text_into(alloc, machine, out)?;
    output_into(alloc, machine.output(), out)?;
    storage_into(alloc, machine, out)?;
    reach_into(alloc, reach, out)
}

// A line that begins with a word.
fn labelled<A: Allocator + Copy>(alloc: A, label: &[u8]) -> ScreenLine<A> {
    let mut line = ScreenLine::new(alloc);
    line.say(label);
    line
}

// The begun functions, one a line: the outermost first, and of many those in the middle left out.
fn functions_into<E: TwoEnds<u8, A>, M: TwoEnds<Mark, A>, A: Allocator + Copy>(
    alloc: A,
    machine: &Core<E, M, A>,
    out: &mut Vec<u8, A>,
) -> Result<(), AllocError> {
    let depth = machine.depth();
    if depth <= OUTER_ROWS + INNER_ROWS {
        return rows_into(alloc, machine, 0, depth, out);
    }
    rows_into(alloc, machine, 0, OUTER_ROWS, out)?;
    let mut line = labelled(alloc, b"begun   ");
    line.say_left_out(depth - OUTER_ROWS - INNER_ROWS);
    line.end_into(out)?;
    rows_into(alloc, machine, depth - INNER_ROWS, depth, out)
}

// The begun functions from one number up to another, each in a line.
fn rows_into<E: TwoEnds<u8, A>, M: TwoEnds<Mark, A>, A: Allocator + Copy>(
    alloc: A,
    machine: &Core<E, M, A>,
    from: usize,
    to: usize,
    out: &mut Vec<u8, A>,
) -> Result<(), AllocError> {
    for i in from..to {
        if let Some((kind, arguments)) = machine.frame(i) {
            let mut line = labelled(alloc, b"begun   ");
            begun_into(kind, &arguments, &mut line);
            line.end_into(out)?;
        }
    }
    Ok(())
}

// The text around the place that scanning has reached.
fn text_into<E: TwoEnds<u8, A>, M: TwoEnds<Mark, A>, A: Allocator + Copy>(
    alloc: A,
    machine: &Core<E, M, A>,
    out: &mut Vec<u8, A>,
) -> Result<(), AllocError> {
    let scanned = scanned_end(alloc, machine)?;
    let mut line = labelled(alloc, b"text    ");
    end_of_into(scanned.as_slice(), SCANNED, false, &mut line);
    line.say(b"[|]");
    line.show(machine.active());
    line.end_into(out)
}

// The end of a shown text, of so many columns at most, after `..` if something stands before it.
pub(crate) fn end_of_into<A: Allocator + Copy>(
    shown: &[u8],
    columns: usize,
    is_cut: bool,
    line: &mut ScreenLine<A>,
) {
    if is_cut || columns_in(shown) > columns {
        line.say(b"..");
    }
    line.say(shown_tail(shown, columns));
}

// The end of the scanned text in reading order, shown, so that the columns that are wanted of it are there.
fn scanned_end<E: TwoEnds<u8, A>, M: TwoEnds<Mark, A>, A: Allocator + Copy>(
    alloc: A,
    machine: &Core<E, M, A>,
) -> Result<Vec<u8, A>, AllocError> {
    let mut shown = Vec::new(alloc);
    let depth = machine.depth();
    if depth <= SCANNED_ROWS {
        shown_into(tail(machine.base(), filling(SCANNED)), &mut shown)?;
    }
    for i in depth.saturating_sub(SCANNED_ROWS)..depth {
        frame_end_into(machine, i, &mut shown)?;
    }
    Ok(shown)
}

// The end of a begun function, as it was written.
fn frame_end_into<E: TwoEnds<u8, A>, M: TwoEnds<Mark, A>, A: Allocator + Copy>(
    machine: &Core<E, M, A>,
    i: usize,
    shown: &mut Vec<u8, A>,
) -> Result<(), AllocError> {
    let Some((kind, arguments)) = machine.frame(i) else {
        return Ok(());
    };
    shown.extend_from_slice(beginning_of(kind))?;
    let count = arguments.count();
    for number in count.saturating_sub(SCANNED + 1)..count {
        if number > 0 {
            shown.extend_from_slice(b",")?;
        }
        shown_into(tail(arguments.get(number), filling(SCANNED)), shown)?;
    }
    Ok(())
}

// The last lines of the output, the end of each.
fn output_into<A: Allocator + Copy>(
    alloc: A,
    output: &[u8],
    out: &mut Vec<u8, A>,
) -> Result<(), AllocError> {
    let mut rest = last_lines(tail(output, OUTPUT_BYTES));
    // whether these lines begin within a line of the output
    let start = output.len() - output.len().min(rest.len());
    let before = output.split_at(start).0;
    let within_line = before.last().is_some_and(|byte| *byte != LINE_FEED);
    for row in 0..OUTPUT_ROWS {
        let label: &[u8] = if row == 0 { b"output  " } else { b"        " };
        let (text, others) = rest.split_at(line_len(rest));
        output_line_into(alloc, label, text, row == 0 && within_line, out)?;
        if others.is_empty() {
            return Ok(());
        }
        rest = others;
    }
    Ok(())
}

// A line of the output, the end of it, after a label; whether it is cut at its front.
fn output_line_into<A: Allocator + Copy>(
    alloc: A,
    label: &[u8],
    text: &[u8],
    is_cut: bool,
    out: &mut Vec<u8, A>,
) -> Result<(), AllocError> {
    let mut shown = Vec::new(alloc);
    shown_into(text, &mut shown)?;
    let mut line = labelled(alloc, label);
    end_of_into(shown.as_slice(), OUTPUT_WIDTH, is_cut, &mut line);
    line.end_into(out)
}

// How long the first line of a text is, with its line feed.
fn line_len(text: &[u8]) -> usize
    ensures { result ≤ length text.now }
{
    match text.iter().position(|byte| *byte == LINE_FEED) {
        Some(place) => place + 1,
        None => text.len(),
    }
}

// The last lines of a text, as many as are shown.
fn last_lines(text: &[u8]) -> &[u8] {
    let mut rows = 0_usize;
    for back in 1..text.len() {
        let place = text.len() - back;
        if text[place - 1] == LINE_FEED {
            rows = rows.saturating_add(1);
        }
        if rows == OUTPUT_ROWS {
            return text.split_at(place).1;
        }
    }
    text
}

// How many forms and blocks there are.
fn storage_into<E: TwoEnds<u8, A>, M: TwoEnds<Mark, A>, A: Allocator + Copy>(
    alloc: A,
    machine: &Core<E, M, A>,
    out: &mut Vec<u8, A>,
) -> Result<(), AllocError> {
    let forms = machine.store().form_count() as u64;
    let blocks = machine.store().block_count() as u64;
    let trace: &[u8] = if machine.trace() {
        b", trace on"
    } else {
        b", trace off"
    };
    let parts = [
        Words(b"forms   "),
        Number(forms),
        Words(b" (f lists them), blocks "),
        Number(blocks),
        Words(b", meta "),
        Shown(&[machine.meta()]),
        Words(trace),
    ];
    put_line(alloc, &parts, out)
}

// How far one can go back, and what is read and printed.
fn reach_into<A: Allocator + Copy>(
    alloc: A,
    reach: Reach,
    out: &mut Vec<u8, A>,
) -> Result<(), AllocError> {
    let parts = [
        Words(b"step    "),
        Number(reach.step),
        Words(b", back to "),
        Number(reach.first_step),
        Words(b"; "),
        Number(reach.unread),
        Words(bytes(reach.unread)),
        Words(b" of input not read, "),
        Number(reach.printed),
        Words(bytes(reach.printed)),
        Words(b" printed"),
    ];
    put_line(alloc, &parts, out)
}

// What so many are called.
fn bytes(count: u64) -> &'static [u8] {
    if count == 1 { b" byte" } else { b" bytes" }
}
