//! The reply to a command.
ghost use Rattle.std.specs.Prelude.{◌≡◌, ◌+◌, ◌≤◌, ◌++◌, false, true, length, IfOk, IfNone, IfSome, OnErr, OnOk, codes};
ghost use Rattle.trac_debug.specs.Commands.{Commit};
ghost use Rattle.trac_debug.specs.Replies.{Replies, is_walk, reason, refusal_name, walk_line};
ghost use Rattle.trac_state_lines.specs.StateLines.{state_text};
ghost use Rattle.trac_streams.specs.Escapes.{text_line};
ghost use Rattle.trac_debug.specs.Views.{command_seen};

use crate::command::LineCommand;
use arrayvec::ArrayVec;
use itoa::Buffer;
use std::alloc::{AllocError, Allocator};
use trac_rules::byte::LINE_FEED;
use trac_session::{Refusal, Session, Walk};
use trac_state_lines::machine_lines;
use trac_streams::text_line_into;

/// No reply to a walk has more bytes.
const WALK_LINE_LIMIT: usize = 64;

/// The reply to a walk. It stands here, so that no memory is requested for it.
pub(crate) type WalkLine = ArrayVec<u8, WALK_LINE_LIMIT>;

/// Carries out a command that is a walk, and gives the reply to it. That is a word, how many steps were taken, and why
/// no more were. No memory is requested for it, so it cannot be refused. None if the command is another one: then
/// nothing is done.
pub(crate) fn reply_to_walk<A: Allocator + Copy>(
    session: &mut Session<A>,
    command: LineCommand<'_>,
) -> Option<WalkLine>
    ensures replied { IfSome result (λ line. Replies (command_seen command.entry) session.old line.items session.new) }
    ensures walk { IfSome result (λ line. is_walk (command_seen command.entry) ≡ true) }
    ensures other { IfNone result (is_walk (command_seen command.entry) ≡ false) }
    ensures undone { IfNone result (session.new ≡ session.old) }
{
    match command {
        LineCommand::Forward(count) => Some(walk_reply(b"forward", session.forward(count))),
        LineCommand::Back(count) => Some(walk_reply(b"back", session.back(count))),
        LineCommand::Until(name, count) => Some(walk_reply(b"until", session.until(name, count))),
        LineCommand::Return(name) => Some(walk_reply(b"return", session.back_until(name))),
        LineCommand::Print | LineCommand::Commit(_) | LineCommand::Quit => None,
    }
}

/// Carries out a command that is no walk, and gives the reply to it: the state, or what was released. To `Quit` nothing
/// is replied. The error is that memory was refused for the reply: then nothing has changed.
pub(crate) fn reply_to_other<A: Allocator + Copy>(
    alloc: A,
    session: &mut Session<A>,
    command: LineCommand<'_>,
) -> Result<Vec<u8, A>, AllocError>
    requires { is_walk (command_seen command) ≡ false }
    ensures replied { IfOk result (λ reply. Replies (command_seen command.entry) session.old reply.items session.new) }
    ensures unreplied { OnErr result (session.new ≡ session.old) }
{
    match command {
        LineCommand::Print => state_lines(alloc, session),
        LineCommand::Commit(keep) => commit_reply(alloc, session, keep as usize),
        LineCommand::Quit => Ok(Vec::new(alloc)),
        _ => unreachable!(),
    }
}

/// All parts of a session's last state and how many records it has, as lines. The error is that memory was refused.
pub fn state_lines<A: Allocator + Copy>(
    alloc: A,
    session: &Session<A>,
) -> Result<Vec<u8, A>, AllocError>
    ensures { IfOk result (λ text. text.items ≡ state_text session.now) }
{
    machine_lines(alloc, session.machine(), session.len())
}

// Keeps so many steps, and shows what was released, as a line. Nothing is committed if memory is refused for the line.
fn commit_reply<A: Allocator + Copy>(
    alloc: A,
    session: &mut Session<A>,
    keep: usize,
) -> Result<Vec<u8, A>, AllocError>
    ensures replied { IfOk result (λ reply. Replies (Commit keep) session.old reply.items session.new) }
    ensures unreplied { OnErr result (session.new ≡ session.old) }
{
    let mut reply = Vec::new(alloc);
    text_line_into(b"commit", session.pending_before(keep), &mut reply)?;
    session.commit(keep);
    Ok(reply)
}

// A word, how many steps a walk took, and why it took no more, as a line.
fn walk_reply(word: &[u8], walk: Walk) -> WalkLine
    requires { length word.now ≤ 8 }
    ensures { result.items ≡ walk_line word.now walk.done walk.why }
{
    let mut line = ArrayVec::new();
    let mut buffer = Buffer::new();
    put(word, &mut line);
    put(b" ", &mut line);
    put(buffer.format(walk.done).as_bytes(), &mut line);
    if let Some(refusal) = walk.why {
        put(b" ", &mut line);
        put(name_of(refusal), &mut line);
    }
    line.push(LINE_FEED);
    line
}

// Puts bytes at the end of a line that has room for them.
fn put(bytes: &[u8], line: &mut WalkLine)
    requires { length line.old.items + length bytes.now ≤ WALK_LINE_LIMIT }
    ensures { line.new.items ≡ line.old.items ++ bytes.now }
{
    let Ok(()) = line.try_extend_from_slice(bytes) else {
        unreachable!()
    };
}

// The name of a refusal.
fn name_of(refusal: Refusal) -> &'static [u8]
    ensures name { result.now ≡ refusal_name refusal }
    ensures short { length result.now ≤ 11 }
{
    match refusal {
        Refusal::Memory => b"Memory",
        Refusal::TooLong => b"TooLong",
        Refusal::NeedInput => b"NeedInput",
        Refusal::Ended => b"Ended",
        Refusal::JournalFull => b"JournalFull",
        Refusal::AtStart => b"AtStart",
        Refusal::Closed => b"Closed",
        Refusal::NotMet => b"NotMet",
    }
}
