//! A dialogue with a person: lines from a reader, and what they ask for to a writer.
ghost use Rattle.std.specs.Prelude.{◌≡◌, true, IfErr, OnOk};
ghost use Rattle.std.specs.Io.KnownBytes.{IsAtEnd};
ghost use Rattle.trac_dialogue.specs.Talks.{Gives, IsFault, IsRestStop, IsStop, Takes, TakesFew};

use crate::order::NOT_UNDERSTOOD;
use crate::programs::Programs;
use std::alloc::{AllocError, Allocator};
use std::io::{Read, Write};
use trac_streams::writing::{flush, write_whole};
use trac_streams::{Ending, LINE_COUNT_LIMIT, LINE_LIMIT, Lines, NextLine, number_into};

/// Who replies to lines, one after another.
pub trait Replier<A: Allocator + Copy> {
    /// The number that stands in the prompt before the next line.
    fn number(&self) -> u64;

    /// Does what a line asks for, and puts what is to be said of it at the end of a text; whether the dialogue goes on.
    /// A program is read anew from these, if the line asks for that. The error is that memory was refused.
    fn reply_into<P: Programs<A>>(
        &mut self,
        alloc: A,
        programs: &P,
        line: &[u8],
        out: &mut Vec<u8, A>,
    ) -> Result<bool, AllocError>;
}

// What is said of a line that is too long to be passed over.
const ENDLESS: &[u8] = b"this line has more than 4,294,967,296 bytes: it ends the walk\n";

/// Reads lines, and writes the reply to each, which is flushed before more is read. A line of more than 4,096 bytes is
/// said not to be understood, and passed over: nobody is asked. Before each line the replier's number is written if a
/// prompt is wanted. A line may ask for a program to be read anew from these.
///
/// It ends with `Ended` at the end of the lines, and if the replier ends it. It ends with `Read` if the reader fails,
/// and with `Write` if the writer does. It ends with `Memory` if there is no memory for a line or for what is to be
/// written. It ends with `Budget` at a line that goes on once 1,048,576 parts of it are passed over, of which each is
/// longer than a line may be, and after as many lines as a number of 64 bits counts.
#[tactic(auto, using(crate::proofs::Talked::for_converse))]
pub fn converse<R: Read, W: Write, P: Programs<A>, A: Allocator + Copy, T: Replier<A>>(
    alloc: A,
    replier: &mut T,
    programs: &P,
    prompt: bool,
    input: &mut R,
    output: &mut W,
) -> Ending
    ensures took { Takes (R.remaining input.old) (R.remaining input.new) }
    ensures gave { Gives (W.contents output.old) (W.contents output.new) }
    ensures ends { IsStop result }
{
    let mut lines = Lines::new(alloc);
    for turn in 0..u64::MAX {
        match take_line(alloc, replier, programs, prompt, &mut lines, input, output) {
            Ok(()) => {}
            Err(ending) => return ending,
        }
    }
    Ending::Budget
}

// Takes a line.
#[tactic(auto, using(crate::proofs::Talked::for_take_line))]
fn take_line<R: Read, W: Write, P: Programs<A>, A: Allocator + Copy, T: Replier<A>>(
    alloc: A,
    replier: &mut T,
    programs: &P,
    prompt: bool,
    lines: &mut Lines<A>,
    input: &mut R,
    output: &mut W,
) -> Result<(), Ending>
    requires { lines.old.ended ≡ true → IsAtEnd (R.remaining input.old) }
    ensures took { Takes (R.remaining input.old) (R.remaining input.new) }
    ensures gave { Gives (W.contents output.old) (W.contents output.new) }
    ensures at_end { OnOk result (lines.new.ended ≡ true → IsAtEnd (R.remaining input.new)) }
    ensures stopped { IfErr result IsStop }
{
    if let Err(ending) = ask(alloc, replier.number(), prompt, output) {
        return Err(ending);
    }
    match lines.seek(input) {
        Err(ending) => Err(ending),
        Ok(NextLine::End) => Err(Ending::Ended),
        Ok(NextLine::TooLong) => pass_line(lines, input, output),
        Ok(NextLine::Line { len, whole }) => {
            let replied = answer(alloc, replier, programs, lines.front(len), output);
            lines.pass(whole);
            replied
        }
        Ok(NextLine::Part) => unreachable!(),
    }
}

// Says that a line is not understood, which is too long and of which some is read, and passes it over.
#[tactic(auto, using(crate::proofs::Talked::for_pass_line))]
fn pass_line<R: Read, W: Write, A: Allocator + Copy>(
    lines: &mut Lines<A>,
    input: &mut R,
    output: &mut W,
) -> Result<(), Ending>
    requires { lines.old.ended ≡ true → IsAtEnd (R.remaining input.old) }
    ensures took { TakesFew (R.remaining input.old) (R.remaining input.new) }
    ensures gave { Gives (W.contents output.old) (W.contents output.new) }
    ensures at_end { OnOk result (lines.new.ended ≡ true → IsAtEnd (R.remaining input.new)) }
    ensures stopped { IfErr result IsStop }
{
    if let Err(ending) = say(output, NOT_UNDERSTOOD) {
        return Err(ending);
    }
    match pass_rest(lines, input) {
        Err(Ending::Budget) => match say(output, ENDLESS) {
            Ok(()) => Err(Ending::Budget),
            Err(ending) => Err(ending),
        },
        passed => passed,
    }
}

// Passes over a line that is too long, of which some is read. It has parts that are longer than a line may be, and no
// more of them are read than there may be lines.
//
// `Ending::Budget`: it goes on after these. `Ending::Read`, `Ending::Memory`: as of `Lines::seek`.
#[tactic(auto, using(crate::proofs::Passed::for_pass_rest))]
fn pass_rest<R: Read, A: Allocator + Copy>(
    lines: &mut Lines<A>,
    input: &mut R,
) -> Result<(), Ending>
    requires { lines.old.ended ≡ true → IsAtEnd (R.remaining input.old) }
    ensures took { TakesFew (R.remaining input.old) (R.remaining input.new) }
    ensures at_end { OnOk result (lines.new.ended ≡ true → IsAtEnd (R.remaining input.new)) }
    ensures stopped { IfErr result (IsRestStop (R.remaining input.old) (R.remaining input.new)) }
{
    for part in 0..LINE_COUNT_LIMIT {
        lines.pass_all();
        match lines.seek(input) {
            Err(ending) => return Err(ending),
            Ok(NextLine::TooLong) => {}
            Ok(NextLine::Line { len: _, whole }) => {
                lines.pass(whole);
                return Ok(());
            }
            Ok(NextLine::End) => return Ok(()),
            Ok(NextLine::Part) => unreachable!(),
        }
    }
    Err(Ending::Budget)
}

// Writes a number as a prompt before a line, if one is wanted.
fn ask<W: Write, A: Allocator + Copy>(
    alloc: A,
    number: u64,
    prompt: bool,
    output: &mut W,
) -> Result<(), Ending>
    ensures gave { Gives (W.contents output.old) (W.contents output.new) }
    ensures fault { IfErr result IsFault }
{
    if prompt {
        return write_text(output, prompt_of(alloc, number));
    }
    Ok(())
}

// Writes and flushes a text, if there was memory for it.
fn write_text<W: Write, A: Allocator>(
    output: &mut W,
    text: Result<Vec<u8, A>, AllocError>,
) -> Result<(), Ending>
    ensures gave { Gives (W.contents output.old) (W.contents output.new) }
    ensures fault { IfErr result IsFault }
{
    let Ok(text) = text else {
        return Err(Ending::Memory);
    };
    say(output, text.as_slice())
}

// Writes and flushes a text.
fn say<W: Write>(output: &mut W, text: &[u8]) -> Result<(), Ending>
    ensures gave { Gives (W.contents output.old) (W.contents output.new) }
    ensures fault { IfErr result IsFault }
{
    write_whole(output, text)?;
    flush(output)
}

// A number, as a prompt.
fn prompt_of<A: Allocator + Copy>(alloc: A, number: u64) -> Result<Vec<u8, A>, AllocError> {
    let mut text = Vec::new(alloc);
    number_into(number, &mut text)?;
    text.extend_from_slice(b"> ")?;
    Ok(text)
}

// Does what a line asks for, and writes what is to be said of it.
#[tactic(auto, using(crate::proofs::Talked::faults_stop, crate::proofs::Talked::gives_none))]
fn answer<W: Write, P: Programs<A>, A: Allocator + Copy, T: Replier<A>>(
    alloc: A,
    replier: &mut T,
    programs: &P,
    line: &[u8],
    output: &mut W,
) -> Result<(), Ending>
    ensures gave { Gives (W.contents output.old) (W.contents output.new) }
    ensures stopped { IfErr result IsStop }
{
    match reply_to(alloc, replier, programs, line) {
        Ok(Some(text)) => write_text(output, Ok(text)),
        Ok(None) => Err(Ending::Ended),
        Err(AllocError) => Err(Ending::Memory),
    }
}

// What is to be said of a line, once what it asks for is done; none if it asks for the end. The error is that memory
// was refused.
fn reply_to<P: Programs<A>, A: Allocator + Copy, T: Replier<A>>(
    alloc: A,
    replier: &mut T,
    programs: &P,
    line: &[u8],
) -> Result<Option<Vec<u8, A>>, AllocError> {
    let mut text = Vec::new(alloc);
    if line.len() > LINE_LIMIT {
        text.extend_from_slice(NOT_UNDERSTOOD)?;
        return Ok(Some(text));
    }
    let goes_on = replier.reply_into(alloc, programs, line, &mut text)?;
    Ok(if goes_on { Some(text) } else { None })
}
