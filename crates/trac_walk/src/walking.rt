//! A walk through a program.
ghost use Rattle.std.specs.Prelude.{◌≤◌, ◌<◌, ◌≡◌, ◌↔◌, length};
ghost use Rattle.std.specs.Io.KnownBytes.{Keeps};
ghost use Rattle.trac_rules.specs.declared.limit.TheConstants.{JOURNAL_LIMIT, TAPE_LIMIT};
ghost use Rattle.trac_dialogue.specs.Talks.{Gives, IsStop, Takes};
ghost use Rattle.trac_walk.specs.Ends.{MayEnd};

use crate::restarting::Kept;
use crate::walks::Walked;
use std::alloc::Allocator;
use std::io::{Read, Write};
use trac_dialogue::{OneProgram, Programs, converse};
use trac_moves::Walker;
use trac_replies::Guide;
use trac_rules::width::Width;
use trac_streams::Ending;

/// How a program is walked through.
#[derive(Clone, Copy, Debug, PartialEq, Eq)]
pub struct Settings {
    /// How many steps can be gone back over at most: 1 to 1,048,576.
    pub journal: usize,
    /// How many bytes the records of these steps may take, about.
    pub keep: u64,
    /// How wide the program's numbers are.
    pub decimals: Width,
    /// Whether the number of the next step is written before each line is read.
    pub prompt: bool,
}

/// Walks through a program, forwards and backwards, for a person. It reads lines, does what each asks for, and writes
/// where it stands then, which is flushed before more is read. A line that is not understood gets one line, and changes
/// nothing.
///
/// It ends with `Ended` at the end of the lines, and when it is asked to. It ends with `Limit`, and nothing read or
/// written, if the program has more than 33,554,432 bytes. It ends with `Read` if the reader fails, and with `Write` if
/// the writer does. It ends with `Memory` if there is no memory for the session, for a line or for what is to be
/// written. It ends with `Budget` after as many lines as a number of 64 bits counts.
#[tactic(auto, using(crate::proofs::Ended::for_walk))]
pub fn walk<R: Read, W: Write, A: Allocator + Copy>(
    alloc: A,
    tape: &[u8],
    input: &mut R,
    output: &mut W,
    settings: Settings,
) -> Ending
    requires some_records { 1 ≤ settings.journal }
    requires most_records { settings.journal ≤ JOURNAL_LIMIT }
    ensures took { Takes (R.remaining input.old) (R.remaining input.new) }
    ensures gave { Gives (W.contents output.old) (W.contents output.new) }
    ensures ends { MayEnd result }
    ensures too_long { (result ≡ Ending.Limit) ↔ (TAPE_LIMIT < length tape.now) }
    ensures unread { result ≡ Ending.Limit → Keeps (R.remaining input.old) (R.remaining input.new) }
    ensures unwritten { result ≡ Ending.Limit → Keeps (W.contents output.old) (W.contents output.new) }
{
    walk_among(alloc, &OneProgram, tape, input, output, settings)
}

/// The same through a program that is read anew where the person asks for it.
#[tactic(auto, using(crate::proofs::Ended::for_walk))]
pub fn walk_among<P: Programs<A>, R: Read, W: Write, A: Allocator + Copy>(
    alloc: A,
    programs: &P,
    tape: &[u8],
    input: &mut R,
    output: &mut W,
    settings: Settings,
) -> Ending
    requires some_records { 1 ≤ settings.journal }
    requires most_records { settings.journal ≤ JOURNAL_LIMIT }
    ensures took { Takes (R.remaining input.old) (R.remaining input.new) }
    ensures gave { Gives (W.contents output.old) (W.contents output.new) }
    ensures ends { MayEnd result }
    ensures too_long { (result ≡ Ending.Limit) ↔ (TAPE_LIMIT < length tape.now) }
    ensures unread { result ≡ Ending.Limit → Keeps (R.remaining input.old) (R.remaining input.new) }
    ensures unwritten { result ≡ Ending.Limit → Keeps (W.contents output.old) (W.contents output.new) }
{
    let Settings {
        journal,
        keep,
        decimals,
        prompt,
    } = settings;
    match Walker::new(alloc, tape, journal, keep, decimals) {
        Ok(walker) => {
            let kept = Kept {
                journal,
                keep,
                width: decimals,
            };
            let walked = Walked::new(alloc, walker, kept);
            talk(alloc, walked, programs, tape, prompt, input, output)
        }
        Err(ending) => ending,
    }
}

// Replies to a person who walks through this program with a walker that stands at its start.
fn talk<P: Programs<A>, R: Read, W: Write, A: Allocator + Copy>(
    alloc: A,
    walked: Walked<A>,
    programs: &P,
    program: &[u8],
    prompt: bool,
    input: &mut R,
    output: &mut W,
) -> Ending
    ensures took { Takes (R.remaining input.old) (R.remaining input.new) }
    ensures gave { Gives (W.contents output.old) (W.contents output.new) }
    ensures ends { IsStop result }
{
    let mut guide = Guide::new(alloc, walked, program);
    converse(alloc, &mut guide, programs, prompt, input, output)
}
