//! A run: a program's input from a reader, its output to a writer.
ghost use Rattle.std.specs.Prelude.{◌≡◌, ℕ, ◌+◌, ◌-◌, ◌*◌, ◌<◌, ◌≤◌, true, false, List, [], length, Option};
ghost use Rattle.std.specs.Prelude.{OnOk, IfOk, IfErr};
ghost use Rattle.std.specs.Io.KnownBytes.{Appends, IsAtEnd};
ghost use Rattle.trac_rules.specs.Session.{PlainSession, Feed, Step, Commit, done, new_session, refused, answer};
ghost use Rattle.trac_streams.specs.Written.{WritesFront};
ghost use Rattle.trac_run.specs.Runs.{RunsAnew, RunsBy, FeedsAsFar, FeedsToLast, TakesSteps};
ghost use Rattle.trac_run.specs.Runs.{ending_of_feed as ending_of};
ghost use Rattle.trac_run.specs.Runs.{most_reads, IsFresh, GoesOn, Finishes, TakesMore, TakesNone, StillWaits};
ghost use Rattle.trac_run.specs.Runs.{turns_left};

use memchr::memchr;
use std::alloc::Allocator;
use std::io::{Read, Write};
use trac_rules::limit::{JOURNAL_LIMIT, TAPE_LIMIT};
use trac_rules::refusal::Refusal;
use trac_session::{Session, WEIGHED_BYTES};
use trac_streams::writing::{finish, flush, write_whole};
use trac_streams::{BUDGET_LIMIT, Ending, Options, READ_SIZE};

// How much the records of a run may weigh before it commits: as much as 8 MiB may hold. A run never goes back, so it
// keeps them for nothing; and memory that is soon used again costs less than new.
const JOURNAL_WEIGHT: u64 = 8 * 1024 * 1024 / WEIGHED_BYTES;

// After how many steps a run commits at the latest. It never goes back, and a short journal stays
// in the processor's caches.
const TURN_STEPS: u64 = 8192;

/// How a run ended, and what it did.
#[derive(Clone, Copy, Debug, PartialEq, Eq)]
pub struct RunReport {
    /// How it ended.
    pub ending: Ending,
    /// How many steps were accepted.
    pub steps: u64,
    /// How often the reader was read, the last read too, which saw the end or failed. A run of as many steps as may be
    /// allowed can read more often than 64 bits count.
    pub reads: u128,
}

/// Runs what the reader gives, and writes what it prints. It ends if the budget is spent, if the input has ended, or
/// for a limit, memory, the reader or the writer. Output is written and flushed before each read, and before the end.
/// However it ends, unless the writer fails, it writes just what the steps print that it takes. No byte is read but
/// while the next step waits for input. Each read asks for at most 4,096 bytes. All of them together give no more than
/// 33,554,432 for each of these steps, as many once more, and one read.
pub fn run<R: Read, W: Write, A: Allocator + Copy>(
    alloc: A,
    input: &mut R,
    output: &mut W,
    options: Options,
) -> Ending
    requires some_steps { 1 ≤ options.budget }
    requires most_steps { options.budget ≤ BUDGET_LIMIT }
    requires some_records { 1 ≤ options.journal }
    requires most_records { options.journal ≤ JOURNAL_LIMIT }
    ensures { RunsAnew (R.remaining input.old) (R.remaining input.new) (W.contents output.old) (W.contents output.new)
        options.journal options.decimals options.budget result }
{
    let Ok(mut session) = Session::new(alloc, options.journal, options.decimals) else {
        return finish(output, &[], Ending::Memory);
    };
    run_session(&mut session, input, output, options.budget).ending
}

/// Runs a new session as `run` does, by so many steps at most, and counts what it does. The session is left as the last
/// step, commit or read made it: it took just the steps that are counted. What it released is written, and its tape is
/// ended only if the reader came to its end. No byte is read but while the next step waits for input, and so none once
/// the program halts. Each read but the last gave a byte at least, and so did the last, unless it saw the end or
/// failed. For each step, and once more, there are at most 33,554,433 reads.
pub fn run_session<R: Read, W: Write, A: Allocator + Copy>(
    session: &mut Session<A>,
    input: &mut R,
    output: &mut W,
    budget: u64,
) -> RunReport
    requires new { session.old ≡ new_session session.old.limit session.old.width }
    requires some_records { 1 ≤ session.old.limit }
    requires most_steps { budget ≤ BUDGET_LIMIT }
    ensures runs { RunsBy (R.remaining input.old)
        (R.remaining input.new) (W.contents output.old) (W.contents output.new)
        session.old.width budget result.steps result.reads result.ending }
    ensures within { result.steps ≤ budget }
    ensures steps { TakesSteps result.steps session.old session.new }
    ensures feeds { FeedsToLast result.ending (R.remaining input.old) (R.remaining input.new) (W.contents output.old)
        (W.contents output.new) result.steps session.old session.new }
    ensures ended { session.new.tape.ended ≡ true → IsAtEnd (R.remaining input.new) }
{
    let mut left = budget;
    let mut reads = 0;
    loop {
        if let Err(ending) = take_turn(session, input, output, &mut left, &mut reads) {
            return RunReport {
                ending,
                steps: budget - left,
                reads,
            };
        }
    }
}

// Goes forward until a step is refused, the budget is spent, `TURN_STEPS` are taken or the records weigh
// enough; then reads, commits or ends.
fn take_turn<R: Read, W: Write, A: Allocator + Copy>(
    session: &mut Session<A>,
    input: &mut R,
    output: &mut W,
    left: &mut u64,
    reads: &mut u128,
) -> Result<(), Ending>
    requires fresh { IsFresh session.old }
    requires at_end { session.old.tape.ended ≡ true → IsAtEnd (R.remaining input.old) }
    requires fits { length session.old.tape.bytes ≤ TAPE_LIMIT }
    requires few_reads { reads.old ≤ most_reads BUDGET_LIMIT }
    ensures ok { OnOk result (GoesOn (R.remaining input.old) (R.remaining input.new) (W.contents output.old)
        (W.contents output.new) reads.old reads.new session.old left.old session.new left.new) }
    ensures err { IfErr result (Finishes (R.remaining input.old) (R.remaining input.new) (W.contents output.old)
        (W.contents output.new) reads.old reads.new session.old left.old left.new) }
    ensures within { left.new ≤ left.old }
    ensures steps { FeedsAsFar result (R.remaining input.old) (R.remaining input.new) (W.contents output.old)
        (W.contents output.new) (left.old - left.new) session.old session.new }
    ensures fresh { OnOk result (IsFresh session.new) }
    ensures fewer { OnOk result (turns_left session.new left.new < turns_left session.old left.old) }
    ensures ended { IfErr result (λ ending. session.new.tape.ended ≡ true → IsAtEnd (R.remaining input.new)) }
{
    let walk = session.forward_within((*left).min(TURN_STEPS), JOURNAL_WEIGHT);
    *left -= walk.done;
    let Some(refusal) = walk.why else {
        if *left > 0 {
            return release(session, output);
        }
        return Err(finish(output, session.pending(), Ending::Budget));
    };
    match refusal {
        Refusal::NeedInput => take_input(session, input, output, reads),
        Refusal::JournalFull => release(session, output),
        Refusal::TooLong if !session.is_empty() => release(session, output),
        Refusal::TooLong => Err(finish(output, session.pending(), Ending::Limit)),
        Refusal::Ended => Err(finish(output, session.pending(), Ending::Ended)),
        Refusal::Memory => Err(finish(output, session.pending(), Ending::Memory)),
        Refusal::AtStart | Refusal::Closed | Refusal::NotMet => unreachable!(),
    }
}

// Writes what is pending, and commits.
fn release<W: Write, A: Allocator + Copy>(
    session: &mut Session<A>,
    output: &mut W,
) -> Result<(), Ending>
    ensures ok { OnOk result (Appends (W.contents output.old) (W.contents output.new) session.old.last.output) }
    ensures committed { OnOk result (answer (Commit 0) session.old ≡ done session.new) }
    ensures err { IfErr result (λ ending.
        (ending ≡ Ending.Write) × WritesFront (W.contents output.old) (W.contents output.new) session.old.last.output) }
    ensures steps { (input : Option (List ℕ)) → FeedsAsFar result input input (W.contents output.old)
        (W.contents output.new) 0 session.old session.new }
    ensures ended { session.new.tape.ended ≡ session.old.tape.ended }
{
    write_whole(output, session.pending())?;
    session.commit(0);
    Ok(())
}

// Takes input for a step that waits for it. It does not try the step while that is sure to go on waiting. So each byte
// of a long line is looked at once.
fn take_input<R: Read, W: Write, A: Allocator + Copy>(
    session: &mut Session<A>,
    input: &mut R,
    output: &mut W,
    reads: &mut u128,
) -> Result<(), Ending>
    requires wanted { answer Step session.old ≡ refused Refusal.NeedInput session.old }
    requires on_tape { session.old.last.position ≤ length session.old.tape.bytes }
    requires fits { length session.old.tape.bytes ≤ TAPE_LIMIT }
    requires some_records { 1 ≤ session.old.limit }
    requires few_reads { reads.old ≤ most_reads BUDGET_LIMIT }
    ensures ok { (n : ℕ) → OnOk result (GoesOn (R.remaining input.old) (R.remaining input.new) (W.contents output.old)
        (W.contents output.new) reads.old reads.new session.old n session.new n) }
    ensures err { (n : ℕ) → IfErr result (Finishes (R.remaining input.old) (R.remaining input.new)
        (W.contents output.old) (W.contents output.new) reads.old reads.new session.old (n + 1) (n + 1)) }
    ensures steps { FeedsAsFar result (R.remaining input.old) (R.remaining input.new) (W.contents output.old)
        (W.contents output.new) 0 session.old session.new }
    ensures fresh { OnOk result (IsFresh session.new) }
    ensures ended { IfErr result (λ ending. session.new.tape.ended ≡ true → IsAtEnd (R.remaining input.new)) }
    ensures fewer { (n : ℕ) → session.old.last.position ≡ 0 →
        OnOk result (turns_left session.new n < turns_left session.old n) }
{
    let mut waits = take_piece(session, input, output, reads)?;
    while waits {
        waits = take_piece(session, input, output, reads)?;
    }
    Ok(())
}

// Writes and flushes what is pending, commits, and reads once. Returns whether the step is sure to go on waiting.
fn take_piece<R: Read, W: Write, A: Allocator + Copy>(
    session: &mut Session<A>,
    input: &mut R,
    output: &mut W,
    reads: &mut u128,
) -> Result<bool, Ending>
    requires wanted { answer Step session.old ≡ refused Refusal.NeedInput session.old }
    requires on_tape { session.old.last.position ≤ length session.old.tape.bytes }
    requires some_records { 1 ≤ session.old.limit }
    requires few_reads { reads.old ≤ 2 * most_reads BUDGET_LIMIT }
    ensures ok { (n : ℕ) → OnOk result (GoesOn (R.remaining input.old) (R.remaining input.new) (W.contents output.old)
        (W.contents output.new) reads.old reads.new session.old n session.new n) }
    ensures err { (n : ℕ) → IfErr result (Finishes (R.remaining input.old) (R.remaining input.new)
        (W.contents output.old) (W.contents output.new) reads.old reads.new session.old (n + 1) (n + 1)) }
    ensures steps { FeedsAsFar result (R.remaining input.old) (R.remaining input.new) (W.contents output.old)
        (W.contents output.new) 0 session.old session.new }
    ensures fresh { OnOk result (IsFresh session.new) }
    ensures ended { IfErr result (λ ending. session.new.tape.ended ≡ true → IsAtEnd (R.remaining input.new)) }
    ensures fewer { (n : ℕ) → session.old.last.position ≡ 0 →
        OnOk result (turns_left session.new n < turns_left session.old n) }
    ensures waits { IfOk result
        (λ waits. waits ≡ true → answer Step session.new ≡ refused Refusal.NeedInput session.new) }
{
    write_whole(output, session.pending())?;
    flush(output)?;
    session.commit(0);
    let ending = match read_more(session, input, reads) {
        Ok(waits) => return Ok(waits),
        Err(ending) => ending,
    };
    match ending {
        Ending::Read => Err(Ending::Read),
        _ => Err(finish(output, session.pending(), ending)),
    }
}

// Reads once, counts it, and feeds what the reader gives; nothing is the end of the input. Returns whether a step that
// waits is sure to go on waiting.
fn read_more<R: Read, A: Allocator + Copy>(
    session: &mut Session<A>,
    input: &mut R,
    reads: &mut u128,
) -> Result<bool, Ending>
    requires open_ { session.old.tape.ended ≡ false }
    requires few_reads { reads.old ≤ 2 * most_reads BUDGET_LIMIT }
    ensures ok { OnOk result (TakesMore (R.remaining input.old) (R.remaining input.new) session.old session.new) }
    ensures err { IfErr result (TakesNone (R.remaining input.old) (R.remaining input.new) session.old session.new) }
    ensures waits { IfOk result (λ waits. waits ≡ true → StillWaits session.old session.new) }
    ensures counted { reads.new ≡ reads.old + 1 }
{
    *reads += 1;
    let mut bytes = [0; READ_SIZE];
    let Ok(count) = input.read(&mut bytes) else {
        return Err(Ending::Read);
    };
    if count == 0 {
        session.end();
        return Ok(false);
    }
    let waits = waits_after(session, &bytes[..count]);
    match session.feed(&bytes[..count]) {
        Ok(()) => Ok(waits),
        Err(refusal) => Err(ending_of_feed(refusal)),
    }
}

// Whether a step that waits is sure to go on waiting once these bytes are fed. If a byte is unread already, it waits
// for the meta character.
fn waits_after<A: Allocator + Copy>(session: &Session<A>, bytes: &[u8]) -> bool
    ensures { (fed : PlainSession) → result ≡ true → answer (Feed bytes.now) session.now ≡ done fed →
        StillWaits session.now fed }
{
    !session.unread().is_empty() && memchr(session.machine().meta(), bytes).is_none()
}

// How a run ends whose feed is refused: the input is not closed before its end was seen, so else a
// limit would be passed.
fn ending_of_feed(refusal: Refusal) -> Ending
    ensures { result ≡ ending_of refusal }
{
    match refusal {
        Refusal::Memory => Ending::Memory,
        _ => Ending::Limit,
    }
}
