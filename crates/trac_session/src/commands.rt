//! Lists of commands to a session, and the replies to them. A session keeps a list of states, of which the last is the
//! present one.
ghost use Rattle.std.specs.Prelude.{◌≡◌, map, IfOk, IfErr};
ghost use Rattle.trac_rules.specs.Session.{Answers, Run};
ghost use Rattle.trac_session.specs.Commands.{command_of};
ghost use Rattle.trac_session.specs.Replies.{reply_of};

use crate::session::Session;
use std::alloc::{Allocator, Global};
use trac_rules::refusal::Refusal;
pub use trac_rules::reply::Reply;

/// A command that `Session::perform` carries out. A refused command changes nothing.
#[derive(Clone, Copy, Debug, PartialEq, Eq)]
pub enum Command<'a> {
    /// Add these bytes to the end of the tape. Refused as `Closed` after `End`, as `TooLong` if the tape would pass
    /// 33,554,432 bytes, and as `Memory` if the tape cannot grow.
    Feed(&'a [u8]),
    /// End the input after what was fed. Never refused.
    End,
    /// Go forward by one step. Refused as `JournalFull` if the session keeps as many earlier states as its limit
    /// allows. Else as `NeedInput`, or after `End` as `Ended`, if the step reads input that is not there, and as
    /// `Ended` if it performs `hl`. Else as `TooLong` if the next state passes a limit, and as `Memory` if there is not
    /// enough memory.
    Step,
    /// Go back over the last step. Refused as `AtStart` if no earlier state is kept.
    Back,
    /// Keep the last state and this many before it, or all if there are fewer, and forget the older ones. Each kept
    /// state loses from its output what the first kept state had printed, and the tape loses what that first state had
    /// read. To save that output, carry out the commands before this one in a list of their own, and then call
    /// `Session::pending_before`. Never refused.
    Commit(usize),
}

/// The replies to a list of commands, one for each, in their order.
pub type Replies<A = Global> = Vec<Reply, A>;

// Turns the result of a call of the session into a reply.
fn reply_to(outcome: Result<(), Refusal>) -> Reply
    ensures { result ≡ reply_of outcome }
{
    match outcome {
        Ok(()) => Reply::Done,
        Err(refusal) => Reply::Refused(refusal),
    }
}

impl<A: Allocator + Copy> Session<A> {
    // Carries out one command, and gives its reply.
    fn carry_out(&mut self, command: Command<'_>) -> Reply
        ensures { Answers (command_of command.entry) self.old result self.new }
    {
        match command {
            Command::Feed(bytes) => reply_to(self.feed(bytes)),
            Command::End => {
                self.end();
                Reply::Done
            }
            Command::Step => reply_to(self.step()),
            Command::Back => reply_to(self.step_back()),
            Command::Commit(keep) => {
                self.commit(keep);
                Reply::Done
            }
        }
    }

    /// Carries out these commands one after another, and gives the reply to each. A refused one changes nothing, and
    /// those after it are tried.
    ///
    /// Whatever the commands are, the session keeps its states as a plain list would. An accepted `Step` appends the
    /// next state by T-64's rules, and an accepted `Back` takes the last state away. `Feed` and `End` change the tape
    /// alone. `Command::Commit` says what a commit takes away.
    ///
    /// Gives `Err(Memory)`, and carries out no command, if there is no memory for the replies: it is taken first. A
    /// command that itself lacks memory gets the reply `Refused(Memory)`.
    pub fn perform(&mut self, commands: &[Command<'_>]) -> Result<Replies<A>, Refusal>
        ensures done { IfOk result (λ replies. Run (map command_of commands.now) replies.items self.old self.new) }
        ensures nothing_done { IfErr result (λ e. (e ≡ Refusal.Memory) × (self.new ≡ self.old)) }
    {
        let alloc = *self.tape.allocator();
        let Ok(mut replies) = Vec::with_capacity(alloc, commands.len()) else {
            return Err(Refusal::Memory);
        };
        for command in commands.iter() {
            let reply = self.carry_out(*command);
            replies.push_reserved(reply);
        }
        Ok(replies)
    }
}
