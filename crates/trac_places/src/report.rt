//! What is told of a program that is looked through, and how that ends.
ghost use Rattle.std.specs.Prelude.{◌≡◌, ◌≢◌, ◌<◌, ◌≤◌, ◌+◌, ◌++◌, nat_le, IfOk, OnOk};
ghost use Rattle.trac_places.specs.Findings.{IsReport, IsWritten, Lines, line_text, more_text};
ghost use Rattle.trac_places.specs.Findings.{note_text, spot_text, status_of};

use crate::sources::Spot;
use std::alloc::{AllocError, Allocator};
use std::io::Write;
use std::marker::Model;
use trac_streams::number_into;
use trac_streams::writing::{flush, write_whole};

/// So many places are told of a program at most.
pub const PLACE_LIMIT: usize = 1_000;

/// Why a run ended in which doubts were looked for.
#[derive(Clone, Copy, Debug, PartialEq, Eq)]
pub enum Halt {
    /// The program has ended, or reads on at the end of its files.
    Ended,
    /// As many steps were taken as are allowed.
    Spent,
    /// The next step, after so many, would pass a limit.
    Limit(u64),
    /// The program and what it reads are longer than a tape may be.
    TooLong,
    /// Memory was refused.
    Memory,
    /// The writer failed.
    Write,
}

/// What was found in a program.
#[derive(Clone, Copy, Debug, PartialEq, Eq)]
pub struct Found {
    /// How many places were told.
    pub told: usize,
    /// Why it ended.
    pub halt: Halt,
}

impl Found {
    /// The exit status of the program: 2 if the program was not run, or was refused memory, or its doubts were not
    /// written. Else it is 1 if there are some, and 0 for none.
    pub fn status(&self) -> u8
        ensures { result ≡ status_of self.now }
    {
        match self.halt {
            Halt::TooLong | Halt::Memory | Halt::Write => 2,
            Halt::Ended | Halt::Spent | Halt::Limit(_) if self.told > 0 => 1,
            Halt::Ended | Halt::Spent | Halt::Limit(_) => 0,
        }
    }
}

/// The lines that are written, and how many places they tell.
#[derive(Drop)]
pub struct Report<A: Allocator + Copy> {
    told: usize,
    text: Vec<u8, A>,
}

impl<A: Allocator + Copy> Model for Report<A> {
    ghost Value = { Lines };

    ghost view = { λ r. record { told = r.told; text = r.text.items } };

    ghost invariant = { λ r. IsReport r.told r.text.items };
}

impl<A: Allocator + Copy> Report<A> {
    /// Nothing is told. It takes no memory.
    pub fn new(alloc: A) -> Self
        ensures { result.told ≡ 0 }
    {
        Report {
            told: 0,
            text: Vec::new(alloc),
        }
    }

    /// How many places are told.
    pub fn told(&self) -> usize
        ensures told { result ≡ self.now.told }
        ensures report { IsReport self.now.told self.now.text }
    {
        self.told
    }

    /// The lines.
    pub fn text(&self) -> &[u8]
        ensures { result.now ≡ self.now.text }
    {
        self.text.as_slice()
    }

    /// Whether no more places are told.
    pub fn is_full(&self) -> bool
        ensures { result ≡ nat_le PLACE_LIMIT self.now.told }
    {
        self.told >= PLACE_LIMIT
    }

    /// Adds a line for a doubt of the next step, which has this number. The error is that memory was refused, here and
    /// below; nothing is added then.
    pub fn tell(
        &mut self,
        alloc: A,
        spot: Spot<'_>,
        words: &[u8],
        step: u64,
    ) -> Result<(), AllocError>
        requires { self.old.told < PLACE_LIMIT }
        ensures told { OnOk result (self.new.told ≡ self.old.told + 1) }
        ensures line { OnOk result (self.new.text ≡ self.old.text ++ line_text (spot_text spot.entry) words.now step) }
    {
        let line = line_of(alloc, spot, words, step)?;
        self.text.extend_from_slice(line.as_slice())?;
        self.told += 1;
        Ok(())
    }

    /// Adds a line to that of a doubt: that this may be wrong here. The error is that memory was refused.
    pub fn note(&mut self, alloc: A, spot: Spot<'_>, words: &[u8]) -> Result<(), AllocError>
        requires { 0 < self.old.told }
        ensures told { self.new.told ≡ self.old.told }
        ensures line { OnOk result (self.new.text ≡ self.old.text ++ note_text (spot_text spot.entry) words.now) }
    {
        let mut line = place_of(alloc, spot)?;
        line.extend_from_slice(b": note: ")?;
        line.extend_from_slice(words)?;
        line.extend_from_slice(b"\n")?;
        self.text.extend_from_slice(line.as_slice())?;
        Ok(())
    }

    /// Adds a line that says how many more places there are, if there are some, and others are told. The error is that
    /// memory was refused.
    pub fn tell_more(&mut self, alloc: A, more: u64) -> Result<(), AllocError>
        ensures told { self.new.told ≡ self.old.told }
        ensures none { more ≡ 0 → self.new ≡ self.old }
        ensures line { 0 < more → 0 < self.old.told → OnOk result (self.new.text ≡ self.old.text ++ more_text more) }
    {
        if more == 0 || self.told == 0 {
            return Ok(());
        }
        let line = more_of(alloc, more)?;
        self.text.extend_from_slice(line.as_slice())
    }
}

/// Writes the lines of a report, and flushes: what was found by a run that ended so, or `Write` if the writer fails.
#[tactic(auto, using(crate::proofs::Written::all_is_written, crate::proofs::Written::front_is_written))]
pub fn write_found<W: Write, A: Allocator + Copy>(
    output: &mut W,
    report: &Report<A>,
    halt: Halt,
) -> Found
    ensures written { IsWritten (W.contents output.old) (W.contents output.new) result }
    ensures most { result.told ≤ PLACE_LIMIT }
    ensures halt { result.halt ≢ Halt.Write → result.halt ≡ halt }
{
    let told = report.told();
    if write_whole(output, report.text()).is_err() || flush(output).is_err() {
        return Found {
            told,
            halt: Halt::Write,
        };
    }
    Found { told, halt }
}

// A line: a place, words, and the number of a step.
fn line_of<A: Allocator + Copy>(
    alloc: A,
    spot: Spot<'_>,
    words: &[u8],
    step: u64,
) -> Result<Vec<u8, A>, AllocError>
    ensures { IfOk result (λ line. line.items ≡ line_text (spot_text spot.entry) words.now step) }
{
    let mut line = place_of(alloc, spot)?;
    line.extend_from_slice(b": ")?;
    line.extend_from_slice(words)?;
    line.extend_from_slice(b" (step ")?;
    number_into(step, &mut line)?;
    line.extend_from_slice(b")\n")?;
    Ok(line)
}

// A place, as it stands in a line.
fn place_of<A: Allocator + Copy>(alloc: A, spot: Spot<'_>) -> Result<Vec<u8, A>, AllocError>
    ensures { IfOk result (λ place. place.items ≡ spot_text spot.entry) }
{
    let mut place = Vec::from_slice(alloc, spot.name)?;
    place.extend_from_slice(b":")?;
    number_into(spot.line, &mut place)?;
    place.extend_from_slice(b":")?;
    number_into(spot.column, &mut place)?;
    Ok(place)
}

// The line that says how many more places there are.
fn more_of<A: Allocator + Copy>(alloc: A, more: u64) -> Result<Vec<u8, A>, AllocError>
    ensures { IfOk result (λ line. line.items ≡ more_text more) }
{
    let mut line = Vec::from_slice(alloc, b".. and ")?;
    number_into(more, &mut line)?;
    line.extend_from_slice(b" more place")?;
    if more > 1 {
        line.extend_from_slice(b"s")?;
    }
    line.extend_from_slice(b"\n")?;
    Ok(line)
}
