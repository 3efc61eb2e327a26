//! Where a byte comes from, as data.
ghost use Rattle.std.specs.Prelude.{◌≡◌, ◌≤◌, ℕ, List, ◌++◌, IfErr, IfOk, OnOk};
ghost use Rattle.std.specs.Option.{option_map};
ghost use Rattle.trac_debug.specs.Debugging.{ready};
ghost use Rattle.trac_follow_step.specs.Places.{place_of};
ghost use Rattle.trac_run.specs.Runs.{TakesSteps};
ghost use Rattle.trac_web_requests.specs.Ways.{IsReason, IsSaid, IsWay, WindowGoes, WritesWay};
ghost use Rattle.trac_web_requests.specs.Ways.{end_field, place_in, read_field, spot_seen};
ghost use Rattle.trac_moves.specs.Windows.{IsWindow};

use crate::outcome::Outcome;
use crate::rows::{Rows, word_into};
use std::alloc::{AllocError, Allocator};
use trac_follow::{End, Place, trace};
use trac_moves::Window;
use trac_rules::byte::LINE_FEED;
use trac_rules::limit::JOURNAL_LIMIT;
use trac_rules::width::Width;
use trac_session::{Refusal, Session};
use trac_streams::{Ending, number_into};

/// A place of a state, in numbers.
#[derive(Clone, Copy)]
pub struct Spot<'a> {
    /// What kind of place it is: 0 to 5.
    pub kind: u64,
    /// Its numbers. A kind that has fewer does not look at the others.
    pub first: u64,
    pub second: u64,
    pub third: u64,
    /// The name of its form.
    pub name: &'a [u8],
}

/// Goes to a step of a program with all of its input, and follows what stands at a place there back. Returns the rows
/// of its way. The error is why there are none.
pub fn way_text<A: Allocator + Copy>(
    alloc: A,
    tape: &[u8],
    step: u64,
    spot: Spot<'_>,
    journal: usize,
    width: Width,
) -> Result<Vec<u8, A>, Outcome>
    requires some_records { 1 ≤ journal }
    requires most_records { journal ≤ JOURNAL_LIMIT }
    ensures way { IfOk result (λ text. WritesWay tape.now journal width step (spot_seen spot.entry) text.items) }
    ensures none { IfErr result IsReason }
{
    let mut window = window_at(alloc, tape, step, journal, width)?;
    let Some(place) = place_in(spot, window.released) else {
        return Err(Outcome::WrongPlace);
    };
    match rows_of(alloc, &mut window, tape, step, place) {
        Ok(text) => Ok(text),
        Err(AllocError) => Err(Outcome::Ends(Ending::Memory)),
    }
}

// The place in a state of which so many bytes of the output are released. None if there is no such kind.
fn place_in(spot: Spot<'_>, released: u64) -> Option<Place<'_>>
    ensures { option_map place_of result ≡ place_in released (spot_seen spot.entry) }
{
    match spot.kind {
        0 => Some(Place::Output(spot.first.saturating_sub(released) as usize)),
        1 => Some(Place::Active(spot.first as usize)),
        2 => Some(Place::Base(spot.first as usize)),
        3 => Some(Place::Argument {
            function: spot.first as usize,
            argument: spot.second as usize,
            byte: spot.third as usize,
        }),
        4 => Some(Place::Form(spot.name, spot.first as usize)),
        5 => Some(Place::Held(spot.first as usize, spot.name, spot.second as usize)),
        _ => None,
    }
}

// A session over the whole input, so many steps after the start. The error is why it does not come there.
fn window_at<A: Allocator + Copy>(
    alloc: A,
    tape: &[u8],
    step: u64,
    limit: usize,
    width: Width,
) -> Result<Window<A>, Outcome>
    requires some_records { 1 ≤ limit }
    requires most_records { limit ≤ JOURNAL_LIMIT }
    ensures reached { IfOk result (λ w. TakesSteps step (ready tape.now limit width) w.session) }
    ensures output { IfOk result
        (λ w. (text : List ℕ) × IsWindow tape.now step text w.forgotten w.released w.session) }
    ensures none { IfErr result IsReason }
{
    let mut window = match Window::over(alloc, tape, limit, width) {
        Ok(window) => window,
        Err(Ending::Limit) => return Err(Outcome::Ends(Ending::Limit)),
        Err(_) => return Err(Outcome::Ends(Ending::Memory)),
    };
    window.session.end();
    go(&mut window, step)?;
    Ok(window)
}

// Goes forward by so many steps. If there is no room for more, it forgets the older half of those so far.
fn go<A: Allocator + Copy>(window: &mut Window<A>, steps: u64) -> Result<(), Outcome>
    ensures went { OnOk result (TakesSteps steps window.old.session window.new.session) }
    ensures output { OnOk result (WindowGoes steps window.old.forgotten window.old.released window.old.session
        window.new.forgotten window.new.released window.new.session) }
    ensures none { IfErr result IsReason }
{
    let mut left = steps;
    loop {
        let walk = window.session.forward(left);
        left -= walk.done;
        let Some(refusal) = walk.why else {
            return Ok(());
        };
        let len = window.session.len();
        match refusal {
            Refusal::JournalFull | Refusal::TooLong if len > 0 => window.keep_steps(len / 2),
            Refusal::Memory => return Err(Outcome::Ends(Ending::Memory)),
            Refusal::TooLong => return Err(Outcome::Ends(Ending::Limit)),
            _ => return Err(Outcome::NotReached),
        }
    }
}

// The rows of the way of what stands at a place before this step. The error is that memory was refused.
fn rows_of<A: Allocator + Copy>(
    alloc: A,
    window: &mut Window<A>,
    tape: &[u8],
    step: u64,
    place: Place<'_>,
) -> Result<Vec<u8, A>, AllocError>
    ensures { IfOk result
        (λ text. IsWay window.old.session step window.old.released (place_of place.entry) text.items) }
{
    let mut rows = Rows::new(alloc, step, window.released);
    let most = window.session.len() as u64;
    let found = trace(alloc, &mut window.session, place, most, &mut rows);
    let read = read_at(&window.session, tape, found.end);
    let mut text = rows.into_text();
    number_into(step.saturating_sub(found.steps), &mut text)?;
    end_into(found.end, read, &mut text)?;
    text.push(LINE_FEED)?;
    Ok(text)
}

// Which byte of all input was read.
#[derive(Clone, Copy)]
struct ReadByte {
    // its number, from 0
    number: u64,
    // its line and column, from 1
    line: u64,
    column: u64,
}

// How a way ends. The error is that memory was refused, also that of a row before, or that of the trace.
fn end_into<A: Allocator>(end: End, read: ReadByte, out: &mut Vec<u8, A>) -> Result<(), AllocError>
    ensures said { OnOk result (out.new.items ≡ out.old.items ++ end_field end read.number read.line read.column) }
    ensures told { OnOk result (IsSaid end) }
{
    match end {
        End::Nothing => out.extend_from_slice(b" nothing"),
        End::Earlier => out.extend_from_slice(b" earlier"),
        End::Made => out.extend_from_slice(b" made"),
        End::Untold | End::Memory => Err(AllocError),
        End::Read(_) => read_into(read, out),
    }
}

// Says that a byte was read.
fn read_into<A: Allocator>(read: ReadByte, out: &mut Vec<u8, A>) -> Result<(), AllocError>
    ensures { OnOk result (out.new.items ≡ out.old.items ++ read_field read.number read.line read.column) }
{
    word_into(b" read", read.number, out)?;
    word_into(b"", read.line, out)?;
    word_into(b"", read.column, out)
}

// The byte of all input that a session read next, if a way ends so: the session has dropped a front of the input.
fn read_at<A: Allocator + Copy>(session: &Session<A>, tape: &[u8], end: End) -> ReadByte {
    let End::Read(n) = end else {
        return ReadByte {
            number: 0,
            line: 0,
            column: 0,
        };
    };
    let kept = session
        .machine()
        .position()
        .saturating_add(session.unread().len());
    let number = tape.len().saturating_sub(kept).saturating_add(n);
    let (line, column) = line_of(tape, number);
    ReadByte {
        number: number as u64,
        line,
        column,
    }
}

// The line and the column, counted from 1, of the byte of this number.
fn line_of(tape: &[u8], number: usize) -> (u64, u64) {
    let mut line = 1_u64;
    let mut column = 1_u64;
    for byte in tape.iter().take(number) {
        if *byte == LINE_FEED {
            line = line.saturating_add(1);
            column = 1;
        } else {
            column = column.saturating_add(1);
        }
    }
    (line, column)
}
