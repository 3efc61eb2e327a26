//! Messages, as their frames are read.
ghost use Rattle.std.specs.Prelude.{◌≡◌, ◌≢◌, ℕ, ◌+◌, ◌<◌, ◌≤◌, List, [], ◌∷◌, length, take, drop, false, true, IfOk, OnOk};
ghost use Rattle.std.specs.Prelude.{IfErr};
ghost use Rattle.trac_messages.specs.Incoming.{Fails, Gathers, Gives, HELD_LIMIT, IsFront, IsGiven, IsReady, ReadsMore, coming};
ghost use Rattle.trac_messages.specs.Frames.{Frame, frames_of};

use crate::header::{Heading, MESSAGE_LIMIT, heading_of};
use std::alloc::Allocator;
use std::io::Read;
use std::marker::Model;
use trac_streams::{Ending, READ_SIZE};

/// What comes next of a reader.
#[derive(Clone, Copy, Debug, PartialEq, Eq)]
pub enum Next {
    /// A message: `Incoming::message` lends it.
    Message,
    /// A message of so many bytes, which is more than it may have. It is passed over.
    TooLong(u64),
    /// A header that announces no length, or 4,096 bytes in which no header ends. They are passed over.
    NoLength,
    /// A part of a frame, in which the bytes end.
    Cut,
    /// The end.
    End,
}

/// What stands at the front of bytes that were read. Sizes count bytes.
#[derive(Clone, Copy, PartialEq, Eq)]
pub enum Front {
    /// A header of this size, and a message of this length.
    Whole(usize, usize),
    /// A header of this size, which announces a message of this length, longer than one may be.
    Beyond(usize, u64),
    /// A header of this size, which announces no length.
    Unannounced(usize),
    /// A part of a frame, in which the bytes end.
    Broken,
    /// The end.
    End,
    /// Not a whole frame yet.
    Part,
}

/// Messages whose frames are read. It is seen as the bytes that were read and not given yet.
#[derive(Drop)]
pub struct Incoming<A: Allocator + Copy> {
    // as they were read, from the message on that was given last
    bytes: Vec<u8, A>,
    // where that message begins, and where it ends
    start: usize,
    taken: usize,
    // how many bytes are to be passed over that are not read yet
    skip: u64,
    ended: bool,
}

impl<A: Allocator + Copy> Model for Incoming<A> {
    ghost use Rattle.std.specs.Prelude.{◌≡◌, ◌≤◌, ◌<◌, take, drop, length};
    ghost use Rattle.trac_messages.specs.Incoming.{Pending, pending_code};

    ghost Value = { Pending };

    ghost coded = { pending_code };

    ghost view = { λ m. record {
      message = drop m.start (take m.taken m.bytes.items);
      bytes = drop m.taken m.bytes.items;
      skip = m.skip;
      ended = m.ended;
    } };

    ghost invariant = { λ m. (m.start ≤ m.taken) × (m.taken ≤ length m.bytes.items)
        × (0 < m.skip → m.taken ≡ length m.bytes.items) };
}

impl<A: Allocator + Copy> Incoming<A> {
    /// Before anything is read. It takes no memory.
    pub fn new(alloc: A) -> Self
        ensures bytes { result.bytes ≡ [] }
        ensures skip { result.skip ≡ 0 }
        ensures ended { result.ended ≡ false }
    {
        Incoming {
            bytes: Vec::new(alloc),
            start: 0,
            taken: 0,
            skip: 0,
            ended: false,
        }
    }

    /// What comes next, after as many reads as it takes to see it; each asks for at most 4,096 bytes. The message that
    /// was given before is let go.
    ///
    /// `Ending::Read`: the reader failed. `Ending::Memory`: memory was refused, before a read. The same comes next then
    /// as before.
    pub fn next<R: Read>(&mut self, input: &mut R) -> Result<Next, Ending>
        ensures given { IfOk result (λ next. Gives (R.remaining input.old) (R.remaining input.new) self.old self.new
            next) }
        ensures failed { IfErr result (λ ending. Fails (R.remaining input.old) (R.remaining input.new) self.old self.new
            ending) }
    {
        let front = self.seek(input)?;
        Ok(self.give(front))
    }

    /// Whether `next` would give something of what was read already, or the end, without a read.
    pub fn is_ready(&self) -> bool
        ensures ready { result ≡ true → IsReady self.now.bytes self.now.ended }
        ensures part { result ≡ false → IsFront self.now.bytes self.now.ended Front.Part }
    {
        let front = front_of(self.rest(), self.ended);
        match front {
            Front::Part => false,
            _ => true,
        }
    }

    /// The message that was given last. It takes no memory.
    pub fn message(&self) -> &[u8]
        ensures { result.now ≡ self.now.message }
    {
        self.bytes
            .as_slice()
            .split_at(self.taken)
            .0
            .split_at(self.start)
            .1
    }

    // What stands at the front, after as many reads as it takes to see it.
    fn seek<R: Read>(&mut self, input: &mut R) -> Result<Front, Ending>
        ensures front { IfOk result (λ front. IsFront self.new.bytes self.new.ended front) }
        ensures whole { IfOk result (λ front. front ≢ Front.Part) }
        ensures none { OnOk result (0 < self.new.skip → self.new.bytes ≡ []) }
        ensures read { OnOk result (Gathers (R.remaining input.old) (R.remaining input.new) self.old self.new) }
        ensures failed { IfErr result
            (λ ending. Fails (R.remaining input.old) (R.remaining input.new) self.old self.new ending) }
    {
        loop {
            let front = front_of(self.rest(), self.ended);
            if front != Front::Part {
                return Ok(front);
            }
            self.read_more(input)?;
        }
    }

    // Gives what stands at the front.
    fn give(&mut self, front: Front) -> Next
        requires front { IsFront self.old.bytes self.old.ended front }
        requires whole { front ≢ Front.Part }
        requires none { 0 < self.old.skip → self.old.bytes ≡ [] }
        ensures ended { self.new.ended ≡ self.old.ended }
        ensures frames { IsGiven self.old self.new result }
    {
        match front {
            Front::Whole(size, len) => {
                self.lend(size, len);
                Next::Message
            }
            Front::Beyond(size, len) => {
                self.pass(size as u64);
                self.pass(len);
                Next::TooLong(len)
            }
            Front::Unannounced(size) => {
                self.pass(size as u64);
                Next::NoLength
            }
            Front::Broken => {
                self.pass_all(0);
                Next::Cut
            }
            Front::End => Next::End,
            Front::Part => unreachable!(),
        }
    }

    // Takes a header of this size, and a message of this length, which is lent from then on.
    fn lend(&mut self, size: usize, len: usize)
        requires { size + len ≤ length self.old.bytes }
        ensures message { self.new.message ≡ take len (drop size self.old.bytes) }
        ensures bytes { self.new.bytes ≡ drop (size + len) self.old.bytes }
        ensures skip { self.new.skip ≡ self.old.skip }
        ensures ended { self.new.ended ≡ self.old.ended }
    {
        let start = self.taken + size;
        self.start = start;
        self.taken = start + len;
    }

    // Passes over so many bytes, those that are not read yet too. The message that was given before is let go.
    fn pass(&mut self, len: u64)
        requires { self.old.skip ≡ 0 }
        ensures coming { (more : List ℕ) → coming self.new more ≡ drop len (coming self.old more) }
        ensures skip { length self.old.bytes ≤ len → self.new.bytes ≡ [] }
        ensures held { len ≤ length self.old.bytes → self.new.skip ≡ 0 }
        ensures ended { self.new.ended ≡ self.old.ended }
    {
        let held = self.rest().len();
        if len <= held as u64 {
            self.pass_held(len as usize);
        } else {
            self.pass_all(len - held as u64);
        }
    }

    // Passes over so many bytes of those that are held.
    fn pass_held(&mut self, len: usize)
        requires { len ≤ length self.old.bytes }
        ensures bytes { self.new.bytes ≡ drop len self.old.bytes }
        ensures skip { self.new.skip ≡ self.old.skip }
        ensures ended { self.new.ended ≡ self.old.ended }
    {
        let place = self.taken + len;
        self.start = place;
        self.taken = place;
    }

    // Passes over all bytes that are held, and so many that are not read yet.
    fn pass_all(&mut self, skip: u64)
        ensures bytes { self.new.bytes ≡ [] }
        ensures skip { self.new.skip ≡ skip }
        ensures ended { self.new.ended ≡ self.old.ended }
    {
        let place = self.bytes.len();
        self.start = place;
        self.taken = place;
        self.skip = skip;
    }

    // The bytes that were read and not given yet.
    fn rest(&self) -> &[u8]
        ensures { result.now ≡ self.now.bytes }
    {
        self.bytes.as_slice().split_at(self.taken).1
    }

    // Reads once: more bytes, or the end. It takes memory before it reads, so that no byte is lost.
    fn read_more<R: Read>(&mut self, input: &mut R) -> Result<(), Ending>
        requires { self.old.ended ≡ false }
        ensures read { OnOk result (ReadsMore (R.remaining input.old) (R.remaining input.new) self.old self.new) }
        ensures failed { IfErr result
            (λ ending. Fails (R.remaining input.old) (R.remaining input.new) self.old self.new ending) }
    {
        drop_front(&mut self.bytes, self.taken);
        self.start = 0;
        self.taken = 0;
        let Ok(()) = self.bytes.reserve(READ_SIZE) else {
            return Err(Ending::Memory);
        };
        let mut bytes = [0; READ_SIZE];
        let Ok(count) = input.read(&mut bytes) else {
            return Err(Ending::Read);
        };
        if count == 0 {
            self.ended = true;
            return Ok(());
        }
        let over = self.skip.min(count as u64);
        let Ok(()) = self.bytes.extend_from_slice(&bytes[over as usize..count]) else {
            unreachable!()
        };
        self.skip -= over;
        Ok(())
    }
}

// Takes so many bytes from the front of others. It moves none if it takes none.
fn drop_front<A: Allocator>(bytes: &mut Vec<u8, A>, n: usize)
    requires { n ≤ length bytes.old.items }
    ensures { bytes.new.items ≡ drop n bytes.old.items }
{
    if n == 0 {
        return;
    }
    bytes.rotate_left(n);
    bytes.truncate(bytes.len() - n);
}

// What stands at the front of these bytes, after which there are no more, or may be.
fn front_of(bytes: &[u8], ended: bool) -> Front
    ensures { IsFront bytes.now ended result }
{
    match heading_of(bytes) {
        Heading::Open => part_of(bytes, ended),
        Heading::Silent(size) => Front::Unannounced(size),
        Heading::Announces { size, len } => {
            if len > MESSAGE_LIMIT {
                return Front::Beyond(size, len);
            }
            if size + len as usize <= bytes.len() {
                return Front::Whole(size, len as usize);
            }
            part_of(bytes, ended)
        }
    }
}

// The same of bytes that are no whole frame.
fn part_of(bytes: &[u8], ended: bool) -> Front
    requires few { length bytes.now < HELD_LIMIT }
    requires cut { 0 < length bytes.now → frames_of bytes.now ≡ Frame.Cut ∷ [] }
    ensures { IsFront bytes.now ended result }
{
    if !ended {
        return Front::Part;
    }
    if bytes.is_empty() {
        Front::End
    } else {
        Front::Broken
    }
}
