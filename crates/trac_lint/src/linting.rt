//! The doubts of a program that is run to its end.
ghost use Rattle.std.specs.Prelude.{◌≡◌, ◌≤◌, ◌<◌};
ghost use Rattle.trac_places.specs.Findings.{IsWritten};
ghost use Rattle.trac_places.specs.declared.report.TheConstants.{PLACE_LIMIT};

use crate::near::{definition_of, near_name};
use crate::origins::Origins;
use crate::scout::Run;
use crate::texts::{read_number, text_before, text_read};
use std::alloc::{AllocError, Allocator};
use std::io::Write;
use trac_lint_memory::{Meeting, Memory, kind_of, number_of};
use trac_moves::{Aim, Walker};
use trac_person_lines::{ScreenLine, doubt_into};
use trac_places::{Found, Halt, Report, Sources, advice_on, write_found};
use trac_rules::refusal::Refusal;
use trac_rules::width::Width;
use trac_session::Doubt;
use trac_sight::Glance;
use trac_streams::Ending;

// What is said beside a doubt of which no place is known, after its words.
const UNPLACED: &[u8] = b"; its place is not known: this text was read last";

// What is said where a form is defined that has nearly the name of which there is none.
const NEAR: &[u8] = b"a form of nearly this name is defined here";

// To look at the name of a form counts for so many steps that are gone over.
const NAME_STEPS: u64 = 8;

// The call that reads a text.
const READ: &[&[u8]] = &[b"rs"];

// So many of these are gone back over at most for the one that read the text which is scanned.
const READ_LIMIT: u32 = 1_000;

/// How doubts are looked for.
#[derive(Clone, Copy, Debug, PartialEq, Eq)]
pub struct Settings {
    /// How many steps the program may take.
    pub steps: u64,
    /// How many bytes the records of the steps may take that can be gone back over, about.
    pub keep: u64,
    /// How wide the program's numbers are.
    pub decimals: Width,
}

// A program that is run, and what was found in it.
#[derive(Drop)]
struct Linter<'s, A: Allocator + Copy> {
    alloc: A,
    origins: Origins<'s, A>,
    walker: Walker<A>,
    memory: Memory<A>,
    // the first byte of the text of which it was said last which parenthesis is wrong
    advised: Option<u64>,
    // at how many places there were doubts that are not told since as many are told as are
    more: u64,
}

/// Runs a program to its end, by so many steps at most, and writes a line for each doubt, once for each place. Each
/// line has the file, the line and the column, what is doubtful, and the number of the step. What the program prints is
/// thrown away. After 1,000 places it says how many more there are.
///
/// It ends with `Ended` if the program does, or waits for more than the files have. It ends with `Spent` after so many
/// steps, and with `Limit` if a step would pass a limit. It ends with `TooLong`, and nothing done, if the files have
/// more than 33,554,432 bytes. It ends with `Memory` if memory is refused, once what was found is written; and with
/// `Write` if the writer fails.
pub fn lint<W: Write, A: Allocator + Copy>(
    alloc: A,
    sources: Sources<'_>,
    output: &mut W,
    settings: Settings,
) -> Found
    ensures written { IsWritten (W.contents output.old) (W.contents output.new) result }
    ensures most { result.told ≤ PLACE_LIMIT }
{
    let mut report = Report::new(alloc);
    let halt = look(alloc, sources, settings, &mut report);
    write_found(output, &report, halt)
}

// Looks for doubts to the end of a program, and puts the lines into a report.
fn look<A: Allocator + Copy>(
    alloc: A,
    sources: Sources<'_>,
    settings: Settings,
    report: &mut Report<A>,
) -> Halt {
    let run = Run {
        sources,
        keep: settings.keep,
        width: settings.decimals,
    };
    match run.walker(alloc) {
        Ok(walker) => look_on(alloc, run, walker, settings.steps, report),
        Err(Ending::Limit) => Halt::TooLong,
        Err(_) => Halt::Memory,
    }
}

// The same from where a walker stands.
fn look_on<A: Allocator + Copy>(
    alloc: A,
    run: Run<'_>,
    walker: Walker<A>,
    steps: u64,
    report: &mut Report<A>,
) -> Halt {
    let mut linter = Linter {
        alloc,
        origins: Origins::new(alloc, run),
        walker,
        memory: Memory::new(alloc),
        advised: None,
        more: 0,
    };
    linter.look(steps, report)
}

impl<'s, A: Allocator + Copy> Linter<'s, A> {
    // Goes on to the end of the program, and tells at last at how many places more there were doubts.
    fn look(&mut self, steps: u64, report: &mut Report<A>) -> Halt {
        let halt = self.go(steps, report);
        match report.tell_more(self.alloc, self.more) {
            Ok(()) => halt,
            Err(AllocError) => Halt::Memory,
        }
    }

    // Goes on until the program ends, by so many steps at most, and tells the doubts that it meets.
    fn go(&mut self, steps: u64, report: &mut Report<A>) -> Halt {
        let aim = Aim::Doubtful(self.walker.width());
        // Each turn takes a step at least.
        for _ in 0..steps {
            let left = steps.saturating_sub(self.walker.step());
            if let Some(refusal) = self.walker.forward_to(aim, left) {
                return halt_of(refusal, self.walker.step());
            }
            if self.walker.step() >= steps {
                break;
            }
            if let Err(refusal) = self.tell_all(report) {
                return halt_of(refusal, self.walker.step());
            }
        }
        Halt::Spent
    }

    // Tells the doubts of the state at which it stands, of those that are not told.
    fn tell_all(&mut self, report: &mut Report<A>) -> Result<(), Refusal> {
        let doubts = self.walker.doubts(self.alloc)?;
        for doubt in doubts.iter() {
            let mut words = said_of(self.alloc, &self.walker, *doubt)?;
            self.meet(*doubt, &mut words, report)?;
        }
        Ok(())
    }

    // Tells one of them in these words, unless it was met before, or as many are told as are.
    fn meet(
        &mut self,
        doubt: Doubt,
        words: &mut ScreenLine<A>,
        report: &mut Report<A>,
    ) -> Result<(), Refusal> {
        let meeting = self.meeting(doubt, words.bytes());
        let is_new = self.memory.is_new(meeting)?;
        if !is_new && !self.origins.is_free() {
            return Ok(());
        }
        if report.is_full() && !self.origins.is_counting() {
            // its place is not looked for any more: each meeting counts for one
            self.more = self.more.saturating_add(1);
            return Ok(());
        }
        self.tell(doubt, words, report)
    }

    // Where scanning stands, at a doubt of these words.
    fn meeting(&self, doubt: Doubt, words: &[u8]) -> Meeting {
        let glance = self.walker.glance();
        Meeting {
            read: read_number(&self.walker),
            depth: glance.depth,
            rest: glance.rest,
            kind: kind_of(doubt),
            words: number_of(words),
        }
    }

    // Tells a doubt of the state at which it stands in these words, unless it was told, or counts it if no more are
    // told. One of which no place is known has that of the text that was read last, which is said, and is not counted.
    fn tell(
        &mut self,
        doubt: Doubt,
        words: &mut ScreenLine<A>,
        report: &mut Report<A>,
    ) -> Result<(), Refusal> {
        let number = self.origins.number(&mut self.walker, doubt)?;
        if self.memory.is_kept(doubt, number, words.bytes()) {
            return Ok(());
        }
        if report.is_full() {
            return self.count(doubt, number);
        }
        self.memory.keep_words(words.bytes())?;
        let number = match number {
            Some(number) => {
                self.memory.keep(doubt, number)?;
                number
            }
            None => {
                self.memory.keep_unplaced(doubt)?;
                words.say(UNPLACED);
                self.text()
            }
        };
        let spot = self.origins.sources.spot(number);
        report.tell(self.alloc, spot, words.bytes(), self.walker.step())?;
        match doubt {
            Doubt::NoForm => self.tell_near(report),
            Doubt::Unended(_) | Doubt::Unclosed | Doubt::EndsNothing => self.advise(report),
            _ => Ok(()),
        }
    }

    // Says where the form is defined that has nearly the name of which there is none. It goes back, and forward again.
    fn tell_near(&mut self, report: &mut Report<A>) -> Result<(), Refusal>
        requires { 0 < report.old.told }
        ensures { report.new.told ≡ report.old.told }
    {
        if !self.origins.is_counting() {
            return Ok(());
        }
        let forms = self.walker.sight().store.form_count() as u64;
        self.origins.spend(forms.saturating_mul(NAME_STEPS));
        let Some(name) = near_name(self.alloc, &self.walker)? else {
            return Ok(());
        };
        if let Some(number) = self.definition(name.as_slice())? {
            let spot = self.origins.sources.spot(number);
            report.note(self.alloc, spot, NEAR)?;
        }
        Ok(())
    }

    // The number of the first byte of this name where the form is defined that has it; none if that is not known.
    fn definition(&mut self, name: &[u8]) -> Result<Option<u64>, Refusal> {
        let end = self.walker.step();
        if let Some(place) = definition_of(self.alloc, &mut self.walker, name)? {
            return self.origins.number_at(&mut self.walker, place, end);
        }
        match self.walker.go_to(end) {
            Some(refusal) => Err(refusal),
            None => Ok(None),
        }
    }

    // Says which parenthesis is probably wrong in the text that the idle program read last, once for each text.
    fn advise(&mut self, report: &mut Report<A>) -> Result<(), Refusal>
        requires { 0 < report.old.told }
        ensures { report.new.told ≡ report.old.told }
    {
        let Some((start, text)) = self.text_scanned()? else {
            return Ok(());
        };
        if self.advised == Some(start) {
            return Ok(());
        }
        self.advised = Some(start);
        if let Some(advice) = advice_on(self.alloc, text)? {
            let place = start.saturating_add(advice.place as u64);
            let spot = self.origins.sources.spot(place);
            report.note(self.alloc, spot, advice.fault.words())?;
        }
        Ok(())
    }

    // The text that the idle program read last, and the number of its first byte; none if the steps since then are not
    // kept. It goes back, and forward again.
    fn text_scanned(&mut self) -> Result<Option<(u64, &'s [u8])>, Refusal> {
        let end = self.walker.step();
        let mut text = None;
        for _ in 0..READ_LIMIT {
            if self.walker.return_to(Aim::Call(READ)).is_some() {
                break;
            }
            if reads_text(self.walker.glance()) {
                let meta = self.walker.sight().meta;
                let tape = self.origins.sources.tape;
                text = Some(text_read(tape, read_number(&self.walker), meta));
                break;
            }
        }
        match self.walker.forward(end.saturating_sub(self.walker.step())) {
            Some(refusal) => Err(refusal),
            None => Ok(text),
        }
    }

    // Counts a doubt that is not told, of the byte of this number, if one is known.
    fn count(&mut self, doubt: Doubt, number: Option<u64>) -> Result<(), Refusal> {
        if let Some(number) = number {
            self.memory.keep(doubt, number)?;
            self.more = self.more.saturating_add(1);
        }
        Ok(())
    }

    // The number of the first byte of the text that was read last.
    fn text(&self) -> u64 {
        let meta = self.walker.sight().meta;
        let tape = self.origins.sources.tape;
        text_before(tape, read_number(&self.walker), meta)
    }
}

// Why a run ended whose next step, after so many, is refused so.
fn halt_of(refusal: Refusal, steps: u64) -> Halt {
    match refusal {
        Refusal::NotMet => Halt::Spent,
        Refusal::TooLong => Halt::Limit(steps),
        Refusal::Memory => Halt::Memory,
        _ => Halt::Ended,
    }
}

// Whether the `rs` that comes next is that of the idle program, which reads a text to be scanned.
fn reads_text(glance: Glance) -> bool {
    glance.depth == 2 && glance.rest == 2
}

// What is said of a doubt of the next step. The error is that memory was refused.
fn said_of<A: Allocator + Copy>(
    alloc: A,
    walker: &Walker<A>,
    doubt: Doubt,
) -> Result<ScreenLine<A>, AllocError> {
    let mut line = ScreenLine::uncut(alloc);
    doubt_into(&walker.sight(), doubt, &mut line);
    line.check()?;
    Ok(line)
}
