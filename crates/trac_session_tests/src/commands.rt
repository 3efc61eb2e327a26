//! Lists of commands to a session.
use crate::sessions::{Subject, SubjectOver, made};
use std::alloc::Global;
use std::process::Abort;
use trac_faults::Refusing;
use trac_machine_tests::Memory;
use trac_rules::refusal::Refusal;
use trac_rules::width::Width;
use trac_session::{Command, Reply, Session};

const COMMANDS: &[Command<'static>] = &[
    Command::Feed(b"AB'"),
    Command::Step,
    Command::Step,
    Command::Step,
    Command::Step,
    Command::Step,
    Command::Back,
    Command::End,
    Command::Feed(b"C"),
    Command::Commit(0),
    Command::Back,
    // one step, which a commit keeps
    Command::Step,
    Command::Commit(1),
    Command::Back,
    Command::Back,
];

// The replies to these. A command that is refused memory changes nothing, so what is replied to the
// others may differ then.
const REPLIES: &[u8] = b"dddddJddCdAdddA";

// A reply as these rows write it.
fn letter_of(reply: Reply) -> u8 {
    match reply {
        Reply::Done => b'd',
        Reply::Refused(Refusal::Memory) => b'M',
        Reply::Refused(Refusal::JournalFull) => b'J',
        Reply::Refused(Refusal::Closed) => b'C',
        Reply::Refused(Refusal::AtStart) => b'A',
        Reply::Refused(_) => b'?',
    }
}

/// Adds a letter for each of these replies.
pub(crate) fn add_letters(replies: &[Reply], letters: &mut Vec<u8>) -> Result<(), Refusal> {
    for reply in replies.iter() {
        if letters.push(letter_of(*reply)).is_err() {
            return Err(Refusal::Memory);
        }
    }
    Ok(())
}

fn perform_list(session: &mut impl Subject, replies: &mut Vec<u8>) -> Result<(), Refusal> {
    session.carry_out_all(COMMANDS, replies)
}

// There is nothing to go back over, and so much is not read yet.
fn is_at_start(session: &impl Subject, unread: &[u8]) -> bool {
    session.is_empty() && session.unread() == unread
}

// Performs the list. If there is no memory for the replies, nothing is done, and the next try is accepted: whether that
// was so.
fn is_performed_again(rt: &impl Abort, session: &mut impl Subject, replies: &mut Vec<u8>) -> bool {
    let Err(refusal) = perform_list(session, replies) else {
        return false;
    };
    assert!(rt; refusal == Refusal::Memory && is_at_start(session, b""));
    perform_list(session, replies).expect(rt, "it was refused again");
    true
}

// If no command is refused memory, the replies are these, and the text is not read again after the commit and the last
// step.
fn is_replied(session: &impl Subject, replies: &[u8]) -> bool {
    replies == REPLIES && is_at_start(session, b"AB'")
}

// A refused request is the reply of one command, or of the list.
fn expect_replies(
    rt: &impl Abort,
    memory: Memory<'_>,
    session: &mut impl Subject,
    replies: &mut Vec<u8>,
) {
    let refusals = memory.refusals();
    let is_again = is_performed_again(rt, session, replies);
    let is_refused = memory.refusals() > refusals;
    let is_said = replies.contains(&b'M');
    assert!(rt; (is_again || is_said) == is_refused);
    assert!(rt; is_said || is_replied(session, replies.as_slice()));
}

// A list of none has no replies.
fn commands_and_replies<'a, S: SubjectOver<Memory<'a>>>(
    rt: &impl Abort,
    plain: Global,
    memory: Memory<'a>,
) {
    let mut session: S = made(rt, memory, memory, 4, Width::W128);
    let mut replies = Vec::new(plain);
    session
        .carry_out_all(&[], &mut replies)
        .expect(rt, "it was refused");
    expect_replies(rt, memory, &mut session, &mut replies);
    assert!(rt; session.active() == b",#(rs))".as_slice());
}

// In the last run none is refused.
fn expect_each_request<'a, S: SubjectOver<Memory<'a>>>(
    rt: &impl Abort,
    plain: Global,
    memory: Memory<'a>,
) {
    for nth in 1..1_000 {
        let refusals = memory.refusals();
        memory.refuse_nth(nth);
        commands_and_replies::<S>(rt, plain, memory);
        memory.accept_all();
        if memory.refusals() == refusals {
            assert!(rt; nth > 2, "{nth} runs");
            return;
        }
    }
    panic!(rt; "too few runs");
}

#[test]
fn each_request_of_a_list(rt: HostRuntime) {
    let memory = Refusing::new(rt.alloc());
    expect_each_request::<Session<Memory<'_>>>(&rt, rt.alloc(), &memory);
}
