//! What a host calls: each over slices alone, with any numbers.
ghost use Rattle.std.specs.Prelude.{◌≤◌};
ghost use Rattle.trac_places.specs.declared.report.TheConstants.{PLACE_LIMIT};
ghost use Rattle.trac_web.specs.Requests.{WritesDoubts, WritesTalk};
ghost use Rattle.trac_web_requests.specs.declared.outcome.Outcome.TheVariants.{WrongBudget, WrongJournal};
ghost use Rattle.trac_web_requests.specs.Replies.{Answers};
ghost use Rattle.trac_web_requests.specs.Requests.{IsBudget, IsJournal, Tells, WritesReplies, WritesRun};
ghost use Rattle.trac_web_requests.specs.Ways.{AnswersWay};

use crate::doubting::doubts_text;
use std::alloc::Global;
use trac_streams::Ending;
use trac_walk::{Settings, walk};
use trac_web_requests::{
    Reply, Spot, deliver, replies_text, run_text, way_text, width_for_run, width_for_walk,
};

/// Runs a program with all of its input by so many steps at most, with numbers of 64 or 128 bits. What it prints
/// goes into `output`, how many bytes that are into `written`, and how many steps were accepted into `steps`.
/// Returns the number of an `Outcome`.
#[unsafe(no_mangle)]
pub extern "C" fn trac_web_run(
    alloc: Global,
    input: &[u8],
    budget: u64,
    decimals: u64,
    output: &mut [u8],
    written: &mut usize,
    steps: &mut u64,
) -> u32
    ensures told { Tells (IsBudget budget) WrongBudget decimals
        (λ width. Answers (WritesRun width budget steps.new input.now)) output.old output.new written.new result }
    ensures steps { steps.new ≤ budget }
{
    *written = 0;
    *steps = 0;
    match width_for_run(budget, decimals) {
        Ok(width) => run_text(alloc, input, budget, width, output, written, steps).status(),
        Err(why) => why.status(),
    }
}

/// Debugs a program, the tape being the whole of its input, by these commands, with a journal of 1 to
/// 1,048,576 records. The replies go into `output`, and how many bytes they are into `written`.
/// Returns the number of an `Outcome`.
#[unsafe(no_mangle)]
pub extern "C" fn trac_web_debug(
    alloc: Global,
    tape: &[u8],
    commands: &[u8],
    journal: u64,
    decimals: u64,
    output: &mut [u8],
    written: &mut usize,
) -> u32
    ensures { Tells (IsJournal journal) WrongJournal decimals
        (λ width. Answers (WritesReplies tape.now journal width commands.now))
        output.old output.new written.new result }
{
    *written = 0;
    match width_for_walk(journal, decimals) {
        Ok(width) => replies_text(
            alloc,
            tape,
            commands,
            journal as usize,
            width,
            output,
            written,
        )
        .status(),
        Err(why) => why.status(),
    }
}

/// Walks through a program by these lines, as a person would type them, with a journal of 1 to 1,048,576 records of
/// some `keep` bytes at most. What is replied goes into `output`, and how many bytes that are into `written`.
/// Returns the number of an `Outcome`.
#[unsafe(no_mangle)]
pub extern "C" fn trac_web_walk(
    alloc: Global,
    program: &[u8],
    lines: &[u8],
    journal: u64,
    keep: u64,
    decimals: u64,
    output: &mut [u8],
    written: &mut usize,
) -> u32
    ensures { Tells (IsJournal journal) WrongJournal decimals (λ width. Answers (WritesTalk program.now))
        output.old output.new written.new result }
{
    *written = 0;
    match width_for_walk(journal, decimals) {
        Ok(decimals) => {
            let settings = Settings {
                journal: journal as usize,
                keep,
                decimals,
                prompt: false,
            };
            let mut rest = lines;
            let mut reply = Reply::new(alloc, output.len());
            let ending = walk(alloc, program, &mut rest, &mut reply, settings);
            deliver(reply.text(), ending, output, written).status()
        }
        Err(why) => why.status(),
    }
}

/// Follows a byte back that stands, after so many steps over this tape, at a place, which `kind`, three numbers and a
/// name say: 0 a byte of the output, counted from the start of the program; 1 of the active text; 2 of the base text; 3
/// of an argument of a begun function (function, argument, byte); 4 an item of a form; 5 one of a form in a block
/// (block, item). All numbers begin with 0. The rows of its way go into `output`, and how many bytes they are into
/// `written`. Returns the number of an `Outcome`.
#[unsafe(no_mangle)]
pub extern "C" fn trac_web_way(
    alloc: Global,
    tape: &[u8],
    step: u64,
    kind: u64,
    first: u64,
    second: u64,
    third: u64,
    name: &[u8],
    journal: u64,
    decimals: u64,
    output: &mut [u8],
    written: &mut usize,
) -> u32
    ensures { Tells (IsJournal journal) WrongJournal decimals (λ width. AnswersWay tape.now journal width step
        (record { kind = kind; first = first; second = second; third = third; name = name.now }))
        output.old output.new written.new result }
{
    *written = 0;
    let spot = Spot {
        kind,
        first,
        second,
        third,
        name,
    };
    match width_for_walk(journal, decimals) {
        Ok(width) => match way_text(alloc, tape, step, spot, journal as usize, width) {
            Ok(text) => deliver(text.as_slice(), Ending::Ended, output, written).status(),
            Err(why) => why.status(),
        },
        Err(why) => why.status(),
    }
}

/// Runs a program with all of its input by so many steps at most, and looks for what a person is unlikely to have
/// meant, as `trac-lint` does. The rows of these doubts go into `output`, one for each place, how many bytes they are
/// into `written`, and how many places they tell into `places`. Returns the number of an `Outcome`.
#[unsafe(no_mangle)]
pub extern "C" fn trac_web_doubts(
    alloc: Global,
    tape: &[u8],
    budget: u64,
    decimals: u64,
    output: &mut [u8],
    written: &mut usize,
    places: &mut usize,
) -> u32
    ensures told { Tells (IsBudget budget) WrongBudget decimals (λ width. Answers (WritesDoubts places.new))
        output.old output.new written.new result }
    ensures places { places.new ≤ PLACE_LIMIT }
{
    *written = 0;
    *places = 0;
    match width_for_run(budget, decimals) {
        Ok(width) => doubts_text(alloc, tape, budget, width, output, written, places).status(),
        Err(why) => why.status(),
    }
}
