//! A session of the debugger over a text.
ghost use Rattle.std.specs.Prelude.{◌≤◌};
ghost use Rattle.trac_web_requests.specs.Replies.{Gives};
ghost use Rattle.trac_web_requests.specs.Requests.{WritesReplies};

use crate::outcome::Outcome;
use crate::reply::{Reply, deliver};
use std::alloc::Allocator;
use trac_debug::debug;
use trac_rules::limit::JOURNAL_LIMIT;
use trac_rules::width::Width;
use trac_streams::Options;

/// Debugs a program, the tape being the whole of its input, by these commands, as `trac_debug::debug` does, with a
/// journal of so many records. The replies go into the buffer of the host.
pub fn replies_text<A: Allocator + Copy>(
    alloc: A,
    tape: &[u8],
    commands: &[u8],
    journal: usize,
    width: Width,
    output: &mut [u8],
    written: &mut usize,
) -> Outcome
    requires some_records { 1 ≤ journal }
    requires most_records { journal ≤ JOURNAL_LIMIT }
    ensures { Gives (WritesReplies tape.now journal width commands.now) output.old output.new written.new result }
{
    let options = Options {
        budget: 1,
        journal,
        decimals: width,
    };
    let mut rest = commands;
    let mut reply = Reply::new(alloc, output.len());
    let ending = debug(alloc, tape, &mut rest, &mut reply, options);
    deliver(reply.text(), ending, output, written)
}
