//! A session of the debugger: commands from a reader, replies to a writer.
ghost use Rattle.std.specs.Prelude.{◌≡◌, ◌+◌, ◌<◌, ◌≤◌, ℕ, List, Option, true, length};
ghost use Rattle.std.specs.Prelude.{IfOk, IfErr, IsOkUnless, OnErr, OnOk};
ghost use Rattle.std.specs.Io.KnownBytes.{Appends, IsAtEnd};
ghost use Rattle.trac_rules.specs.Session.{PlainSession};
ghost use Rattle.trac_debug.specs.Debugging.{FollowsFirst, FollowsInPart, MayFollow, MayShow, RepliesToFirst};
ghost use Rattle.trac_debug.specs.Debugging.{turn_at, turn_of};
ghost use Rattle.trac_debug.specs.Debugs.{Advances, Debugs, DebugsBy, Halts, MOST_READ, IsReady, IsReplied};
ghost use Rattle.trac_debug.specs.Debugs.{IsNotReplied, Settles, Stops};
ghost use Rattle.trac_debug.specs.Views.{command_seen};
ghost use Rattle.trac_streams.specs.Tape.{MayRefuseTape};
ghost use Rattle.trac_streams.specs.Written.{WritesFront};

use crate::command::{LineCommand, command_in};
use crate::replies::{reply_to_other, reply_to_walk};
use std::alloc::Allocator;
use std::io::{Read, Write};
use trac_rules::limit::{JOURNAL_LIMIT, TAPE_LIMIT};
use trac_rules::width::Width;
use trac_session::Session;
use trac_streams::writing::{flush, write_whole};
use trac_streams::{
    Ending, LINE_COUNT_LIMIT, LINE_LIMIT, Lines, NextLine, Options, READ_COUNT_LIMIT,
};

/// How a session of the debugger ended, and what it did.
#[derive(Clone, Copy, Debug, PartialEq, Eq)]
pub struct DebugReport {
    /// How it ended.
    pub ending: Ending,
    /// How many lines were done with: replied to, or empty. The line that ended the session is none of them.
    pub lines: u64,
    /// How often the commands were read, the last read too, which saw the end or failed.
    pub reads: u64,
}

/// Goes forwards and backwards over a program, the tape being the whole of its input. It reads commands, one a line,
/// carries each of them out, and writes the reply to it. The reply is flushed before more is read. The commands are
/// read by at most 4,096 bytes at a time.
///
/// The session ends with `Ended` at the end of the commands, and when it is asked to. It ends with `NotUnderstood` at a
/// line that says no command, and with `Budget` if there is a line after the first 1,048,576. It ends with `Limit` if
/// the tape has more than 33,554,432 bytes: no command is read then, and nothing is written. It ends with `Read` if the
/// reader fails, and with `Write` if the writer fails. It ends with `Memory` if there is no memory for the session, or
/// for a line that is still being read. It does so too if there is none for the reply to `p` or `c`, of which nothing
/// is written then. A walk for which memory was refused is replied to as any other: so no walk that was read whole is
/// left without its reply.
pub fn debug<R: Read, W: Write, A: Allocator + Copy>(
    alloc: A,
    tape: &[u8],
    commands: &mut R,
    output: &mut W,
    options: Options,
) -> Ending
    requires some_records { 1 ≤ options.journal }
    requires most_records { options.journal ≤ JOURNAL_LIMIT }
    ensures debugs { Debugs (R.remaining commands.old) (R.remaining commands.new)
        (W.contents output.old) (W.contents output.new) (MayShow tape.now options.journal options.decimals)
        (RepliesToFirst tape.now options.journal options.decimals) result }
    ensures too_long { TAPE_LIMIT < length tape.now → result ≡ Ending.Limit }
    ensures unread { TAPE_LIMIT < length tape.now → R.remaining commands.new ≡ R.remaining commands.old }
{
    let mut session = match session_over(alloc, tape, options.journal, options.decimals) {
        Ok(session) => session,
        Err(ending) => return ending,
    };
    debug_session(alloc, &mut session, commands, output).ending
}

/// Takes the lines of the commands, as `debug` does, from the session as it stands, and counts what it does. There are
/// at most 1,048,576 lines. The session is left as the lines left it that were replied to. If the writer failed, the
/// line after them led to it, and a front of the reply to that line is written. Each read but the last gave a byte at
/// least, and so did the last, unless it saw the end or failed.
pub fn debug_session<R: Read, W: Write, A: Allocator + Copy>(
    alloc: A,
    session: &mut Session<A>,
    commands: &mut R,
    output: &mut W,
) -> DebugReport
    ensures debugs { DebugsBy (R.remaining commands.old)
        (R.remaining commands.new) (W.contents output.old) (W.contents output.new)
        (MayFollow session.old) (FollowsFirst session.old session.new) (FollowsInPart session.old session.new)
        result.lines result.reads result.ending }
    ensures few_lines { result.lines ≤ LINE_COUNT_LIMIT }
    ensures few_reads { result.reads ≤ MOST_READ + 1 }
{
    let mut lines = Lines::new(alloc);
    let mut reads = 0;
    for number in 1..LINE_COUNT_LIMIT + 1 {
        if let Err(ending) = take_line(
            alloc, number, session, &mut lines, commands, output, &mut reads,
        ) {
            return DebugReport {
                ending,
                lines: number - 1,
                reads,
            };
        }
    }
    let ending = last_ending(&mut lines, commands, &mut reads);
    DebugReport {
        ending,
        lines: LINE_COUNT_LIMIT,
        reads,
    }
}

// How a session ends after as many lines as there may be: by whether there is any byte more.
fn last_ending<R: Read, A: Allocator + Copy>(
    lines: &mut Lines<A>,
    commands: &mut R,
    reads: &mut u64,
) -> Ending
    requires at_end { lines.old.ended ≡ true → IsAtEnd (R.remaining commands.old) }
    requires few_reads { reads.old ≤ READ_COUNT_LIMIT }
    ensures { (number : ℕ) → (output : Option (List ℕ)) → (p : PlainSession) → LINE_COUNT_LIMIT < number →
        Halts (R.remaining commands.old) (R.remaining commands.new) output output reads.old reads.new number
        lines.old p p result }
{
    match lines.has_more(commands, reads) {
        Ok(true) => Ending::Budget,
        Ok(false) => Ending::Ended,
        Err(ending) => ending,
    }
}

// A session over a tape that has ended.
fn session_over<A: Allocator + Copy>(
    alloc: A,
    tape: &[u8],
    journal: usize,
    decimals: Width,
) -> Result<Session<A>, Ending>
    requires some_records { 1 ≤ journal }
    requires most_records { journal ≤ JOURNAL_LIMIT }
    ensures made { IfOk result (IsReady tape.now journal decimals) }
    ensures refused { IfErr result (MayRefuseTape tape.now) }
{
    if tape.len() > TAPE_LIMIT {
        return Err(Ending::Limit);
    }
    let Ok(mut session) = Session::new(alloc, journal, decimals) else {
        return Err(Ending::Memory);
    };
    let Ok(()) = session.feed(tape) else {
        return Err(Ending::Memory);
    };
    session.end();
    Ok(session)
}

// Takes the line of this number: its command is carried out and replied to, or the session ends.
fn take_line<R: Read, W: Write, A: Allocator + Copy>(
    alloc: A,
    number: u64,
    session: &mut Session<A>,
    lines: &mut Lines<A>,
    commands: &mut R,
    output: &mut W,
    reads: &mut u64,
) -> Result<(), Ending>
    requires few { number ≤ LINE_COUNT_LIMIT }
    requires at_end { lines.old.ended ≡ true → IsAtEnd (R.remaining commands.old) }
    requires few_reads { reads.old ≤ READ_COUNT_LIMIT }
    ensures ok { OnOk result (Advances (R.remaining commands.old) (R.remaining commands.new) (W.contents output.old)
        (W.contents output.new) reads.old reads.new number lines.old session.old lines.new session.new) }
    ensures err { IfErr result (Halts (R.remaining commands.old) (R.remaining commands.new) (W.contents output.old)
        (W.contents output.new) reads.old reads.new number lines.old session.old session.new) }
{
    match lines.seek_counted(commands, reads)? {
        NextLine::End => Err(Ending::Ended),
        NextLine::TooLong => Err(Ending::NotUnderstood { line: number }),
        NextLine::Line { len, whole } => {
            if len > LINE_LIMIT {
                return Err(Ending::NotUnderstood { line: number });
            }
            carry_out(alloc, number, session, lines.front(len), output)?;
            lines.pass(whole);
            Ok(())
        }
        NextLine::Part => unreachable!(),
    }
}

// Carries out what a line says, and replies to it. An empty line is passed over.
fn carry_out<W: Write, A: Allocator + Copy>(
    alloc: A,
    number: u64,
    session: &mut Session<A>,
    line: &[u8],
    output: &mut W,
) -> Result<(), Ending>
    requires few { number ≤ LINE_COUNT_LIMIT }
    requires short { length line.now ≤ LINE_LIMIT }
    ensures ok { OnOk result
        (Settles (turn_at number line.now) session.old session.new (W.contents output.old) (W.contents output.new)) }
    ensures err { IfErr result
        (Stops (turn_at number line.now) session.old session.new (W.contents output.old) (W.contents output.new)) }
{
    if line.is_empty() {
        return Ok(());
    }
    let Some(command) = command_in(line) else {
        return Err(Ending::NotUnderstood { line: number });
    };
    match command {
        LineCommand::Quit => Err(Ending::Ended),
        _ => reply(alloc, session, command, output),
    }
}

// Carries out a command, and writes and flushes the reply to it.
fn reply<W: Write, A: Allocator + Copy>(
    alloc: A,
    session: &mut Session<A>,
    command: LineCommand<'_>,
    output: &mut W,
) -> Result<(), Ending>
    ensures ok { OnOk result (IsReplied (command_seen command.entry) session.old session.new (W.contents output.old)
        (W.contents output.new)) }
    ensures err { IfErr result (IsNotReplied (command_seen command.entry) session.old session.new
        (W.contents output.old) (W.contents output.new)) }
{
    if let Some(line) = reply_to_walk(session, command) {
        return write_reply(output, line.as_slice());
    }
    let Ok(reply) = reply_to_other(alloc, session, command) else {
        return Err(Ending::Memory);
    };
    write_reply(output, reply.as_slice())
}

// Writes and flushes a reply.
fn write_reply<W: Write>(output: &mut W, reply: &[u8]) -> Result<(), Ending>
    ensures ok { OnOk result (Appends (W.contents output.old) (W.contents output.new) reply.now) }
    ensures err { OnErr result (WritesFront (W.contents output.old) (W.contents output.new) reply.now) }
    ensures fault { IsOkUnless result Ending.Write }
{
    write_whole(output, reply)?;
    flush(output)
}
