//! The lines of a text that comes in pieces.
ghost use Rattle.std.specs.Prelude.{◌≡◌, ◌+◌, ◌*◌, ◌++◌, ◌<◌, ◌≤◌, true, false, [], length, take, drop, not, ◌==◌};
ghost use Rattle.std.specs.Prelude.{IfOk, IfErr, OnOk};
ghost use Rattle.std.specs.Io.KnownBytes.{IsAtEnd};
ghost use Rattle.trac_streams.specs.Lines.{without_return};
ghost use Rattle.trac_streams.specs.declared.lines.NextLine.TheVariants.{Part};
ghost use Rattle.trac_streams.specs.Reading.{IsFront, IsWhole, Gathers, GathersBy, ReadsMore, MayFail, FailsBy};

use crate::ending::Ending;
use crate::finding::place_of;
use crate::input::READ_SIZE;
use std::alloc::Allocator;
use std::io::Read;
use std::marker::Model;
use trac_rules::byte::{CARRIAGE_RETURN, LINE_FEED};

/// A line has at most so many bytes, what ends it not counted.
pub const LINE_LIMIT: usize = 4096;

/// There are at most so many lines.
pub const LINE_COUNT_LIMIT: u64 = 1_048_576;

/// Before a read that is counted there may have been so many.
pub const READ_COUNT_LIMIT: u64 = 1_000_000_000_000_000_000;

/// What stands at the front of bytes that were read.
#[derive(Clone, Copy, PartialEq, Eq)]
pub enum NextLine {
    /// A line, which may be longer than a line may be. Lengths count bytes.
    Line {
        /// How long it is without what ends it.
        len: usize,
        /// How long it is with what ends it.
        whole: usize,
    },
    /// A line whose end is not read yet, and which is longer already than a line may be.
    TooLong,
    /// Not a whole line yet.
    Part,
    /// The end of the text.
    End,
}

/// Takes a text apart into its lines, as its bytes are read. It is seen as the bytes that were read and are not taken
/// yet, and whether the text ends after them.
#[derive(Drop)]
pub struct Lines<A: Allocator + Copy> {
    // as they were read, from the last read on that found too few of them
    bytes: Vec<u8, A>,
    // how many of them are taken
    taken: usize,
    ended: bool,
}

impl<A: Allocator + Copy> Model for Lines<A> {
    ghost use Rattle.std.specs.Prelude.{◌≤◌, drop, length};
    ghost use Rattle.trac_streams.specs.Pending.{Pending, pending_code};

    ghost Value = { Pending };

    ghost coded = { pending_code };

    ghost view = { λ l. record { bytes = drop l.taken l.bytes.items; ended = l.ended } };

    ghost invariant = { λ l. l.taken ≤ length l.bytes.items };
}

impl<A: Allocator + Copy> Lines<A> {
    /// Before anything is read. It takes no memory.
    pub fn new(alloc: A) -> Self
        ensures { result ≡ record { bytes = []; ended = false } }
    {
        Lines {
            bytes: Vec::new(alloc),
            taken: 0,
            ended: false,
        }
    }

    /// What stands at the front of the text, after as many reads as it takes to see a whole line, or that it is too
    /// long, or the end; each read asks for at most 4,096 bytes.
    ///
    /// `Ending::Read`: the reader failed. `Ending::Memory`: memory was refused, before a read. All that was read stands
    /// then, and is not a whole line yet.
    pub fn seek<R: Read>(&mut self, input: &mut R) -> Result<NextLine, Ending>
        requires at_end { self.old.ended ≡ true → IsAtEnd (R.remaining input.old) }
        ensures front { IfOk result (IsFront self.new.bytes self.new.ended) }
        ensures whole { IfOk result IsWhole }
        ensures read { OnOk result (Gathers (R.remaining input.old) (R.remaining input.new) self.old self.new) }
        ensures failed { IfErr result (MayFail (R.remaining input.old) (R.remaining input.new) self.old self.new) }
    {
        let mut reads = 0;
        self.seek_counted(input, &mut reads)
    }

    /// What stands at the front of the text, as `seek` finds it. Adds how often it reads to a count, the read
    /// that sees the end or fails too.
    pub fn seek_counted<R: Read>(
        &mut self,
        input: &mut R,
        reads: &mut u64,
    ) -> Result<NextLine, Ending>
        requires at_end { self.old.ended ≡ true → IsAtEnd (R.remaining input.old) }
        requires few_reads { reads.old ≤ READ_COUNT_LIMIT }
        ensures front { IfOk result (IsFront self.new.bytes self.new.ended) }
        ensures whole { IfOk result IsWhole }
        ensures read { OnOk result
            (GathersBy (R.remaining input.old) (R.remaining input.new) reads.old reads.new self.old self.new) }
        ensures failed { IfErr result
            (FailsBy (R.remaining input.old) (R.remaining input.new) reads.old reads.new self.old self.new) }
    {
        loop {
            let front = front_of(self.rest(), self.ended);
            if front != NextLine::Part {
                return Ok(front);
            }
            self.read_more(input, reads)?;
        }
    }

    /// Whether there is any byte more, after one read if that is needed. The read is added to a count.
    ///
    /// `Ending::Read`: the reader failed. `Ending::Memory`: memory was refused, before the read.
    pub fn has_more<R: Read>(&mut self, input: &mut R, reads: &mut u64) -> Result<bool, Ending>
        requires at_end { self.old.ended ≡ true → IsAtEnd (R.remaining input.old) }
        requires few_reads { reads.old ≤ READ_COUNT_LIMIT }
        ensures more { IfOk result (λ more. more ≡ not (length self.new.bytes == 0)) }
        ensures ended { IfOk result (λ more. more ≡ false → self.new.ended ≡ true) }
        ensures read { OnOk result
            (GathersBy (R.remaining input.old) (R.remaining input.new) reads.old reads.new self.old self.new) }
        ensures failed { IfErr result
            (FailsBy (R.remaining input.old) (R.remaining input.new) reads.old reads.new self.old self.new) }
    {
        if self.rest().is_empty() && !self.ended {
            self.read_more(input, reads)?;
        }
        Ok(!self.rest().is_empty())
    }

    /// The first bytes that were read and are not taken yet, as many as are wanted. It takes no memory.
    pub fn front(&self, len: usize) -> &[u8]
        requires { len ≤ length self.now.bytes }
        ensures { result.now ≡ take len self.now.bytes }
    {
        self.rest().split_at(len).0
    }

    /// Takes so many bytes from the front. It takes no memory.
    pub fn pass(&mut self, len: usize)
        requires { len ≤ length self.old.bytes }
        ensures { self.new ≡ record self.old { bytes = drop len self.old.bytes } }
    {
        self.taken += len;
    }

    /// Takes all bytes that were read: of a line that is too long, what was read of it. It takes no memory.
    pub fn pass_all(&mut self)
        ensures { self.new ≡ record self.old { bytes = [] } }
    {
        self.taken = self.bytes.len();
    }

    // The bytes that were read and are not taken yet.
    fn rest(&self) -> &[u8]
        ensures { result.now ≡ self.now.bytes }
    {
        self.bytes.as_slice().split_at(self.taken).1
    }

    // Reads once, and counts it: more bytes, or the end. It takes memory before it reads, so that no byte is lost.
    fn read_more<R: Read>(&mut self, input: &mut R, reads: &mut u64) -> Result<(), Ending>
        requires part { IsFront self.old.bytes self.old.ended Part }
        requires few_reads { reads.old ≤ 2 * READ_COUNT_LIMIT }
        ensures more { OnOk result
            (ReadsMore (R.remaining input.old) (R.remaining input.new) reads.old reads.new self.old self.new) }
        ensures failed { IfErr result
            (FailsBy (R.remaining input.old) (R.remaining input.new) reads.old reads.new self.old self.new) }
    {
        drop_front(&mut self.bytes, self.taken);
        self.taken = 0;
        let Ok(()) = self.bytes.reserve(READ_SIZE) else {
            return Err(Ending::Memory);
        };
        let mut bytes = [0; READ_SIZE];
        *reads += 1;
        let Ok(count) = input.read(&mut bytes) else {
            return Err(Ending::Read);
        };
        if count == 0 {
            self.ended = true;
            return Ok(());
        }
        let Ok(()) = self.bytes.extend_from_slice(&bytes[..count]) else {
            unreachable!()
        };
        Ok(())
    }
}

// Takes so many bytes from the front of others.
fn drop_front<A: Allocator>(bytes: &mut Vec<u8, A>, n: usize)
    requires { n ≤ length bytes.old.items }
    ensures { bytes.new.items ≡ drop n bytes.old.items }
{
    bytes.rotate_left(n);
    bytes.truncate(bytes.len() - n);
}

// What stands at the front of these bytes, after which the text ends or may go on.
fn front_of(bytes: &[u8], ended: bool) -> NextLine
    ensures { IsFront bytes.now ended result }
{
    if let Some(place) = place_of(LINE_FEED, bytes) {
        return NextLine::Line {
            len: len_without_return(bytes.split_at(place).0),
            whole: place + 1,
        };
    }
    if bytes.len() > LINE_LIMIT + 1 {
        return NextLine::TooLong;
    }
    if !ended {
        return NextLine::Part;
    }
    if bytes.is_empty() {
        return NextLine::End;
    }
    NextLine::Line {
        len: len_without_return(bytes),
        whole: bytes.len(),
    }
}

// How long a line is without the one carriage return at its end, if there is one.
fn len_without_return(line: &[u8]) -> usize
    ensures within { result ≤ length line.now }
    ensures cut { take result line.now ≡ without_return line.now }
{
    match line.last() {
        Some(&CARRIAGE_RETURN) => line.len() - 1,
        _ => line.len(),
    }
}
