//! The doubts of a text.
ghost use Rattle.std.specs.Prelude.{◌≡◌, ◌≤◌};
ghost use Rattle.trac_places.specs.declared.report.TheConstants.{PLACE_LIMIT};
ghost use Rattle.trac_web.specs.Requests.{WritesDoubts, search_ending};
ghost use Rattle.trac_web_requests.specs.Replies.{Gives};

use std::alloc::Allocator;
use trac_lint::{Halt, Settings, Sources, lint};
use trac_rules::width::Width;
use trac_streams::Ending;
use trac_web_requests::{Outcome, Reply, deliver};

// How many bytes the records may take of the steps that can be gone back over, as of `trac-lint` if nothing else is
// said.
const KEEP: u64 = 268_435_456;

/// Looks for the doubts of a program with all of its input, as `trac_lint::lint` does, and puts a row for each
/// place into the buffer of the host. The rows are the lines of `trac-lint` for a file that has no name: so they
/// begin with the line and the column.
pub fn doubts_text<A: Allocator + Copy>(
    alloc: A,
    tape: &[u8],
    budget: u64,
    width: Width,
    output: &mut [u8],
    written: &mut usize,
    places: &mut usize,
) -> Outcome
    ensures gives { Gives (WritesDoubts places.new) output.old output.new written.new result }
    ensures few { places.new ≤ PLACE_LIMIT }
{
    let sources = Sources {
        name: b"",
        input_name: b"",
        tape,
        len: tape.len(),
    };
    let settings = Settings {
        steps: budget,
        keep: KEEP,
        decimals: width,
    };
    let mut reply = Reply::new(alloc, output.len());
    let found = lint(alloc, sources, &mut reply, settings);
    *places = found.told;
    deliver(reply.text(), ending_of(found.halt), output, written)
}

// How a search ended, as a run does.
fn ending_of(halt: Halt) -> Ending
    ensures { result ≡ search_ending halt }
{
    match halt {
        Halt::Ended => Ending::Ended,
        Halt::Spent => Ending::Budget,
        Halt::Limit(_) | Halt::TooLong => Ending::Limit,
        Halt::Memory => Ending::Memory,
        Halt::Write => Ending::Write,
    }
}
