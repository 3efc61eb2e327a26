//! A reply for a buffer of the host.
ghost use Rattle.std.specs.Prelude.{◌≡◌, ◌≤◌, ℕ, List, None, Some, [], ◌++◌, length, min, take, drop, IfOk, IfErr};
ghost use Rattle.std.specs.Prelude.{IsOk, OnOk, OnErr};
ghost use Rattle.std.specs.Io.KnownBytes.{Keeps, WriteAppends};
ghost use Rattle.trac_web_requests.specs.Replies.{Delivers, ends_where};

use crate::outcome::Outcome;
use std::alloc::Allocator;
use std::io;
use std::io::Write;
use trac_streams::Ending;

/// A reply, which takes no more bytes than its room, so that one without end is broken off there.
#[derive(Drop)]
pub struct Reply<A: Allocator> {
    /// What was written.
    pub text: Vec<u8, A>,
    room: usize,
}

impl<A: Allocator> Reply<A> {
    /// An empty reply with room for so many bytes.
    pub fn new(alloc: A, room: usize) -> Self
        ensures { result.text.items ≡ [] }
    {
        Reply {
            text: Vec::new(alloc),
            room,
        }
    }

    /// What was written.
    pub fn text(&self) -> &[u8]
        ensures { result.now ≡ self.now.text.items }
    {
        self.text.as_slice()
    }
}

impl<A: Allocator> Write for Reply<A> {
    ghost contents = { λ r. Some r.text.items };

    fn write(&mut self, buf: &[u8]) -> io::Result<usize> {
        let left = self.room.saturating_sub(self.text.len());
        let count = buf.len().min(left);
        self.text.extend_from_slice(&buf[..count])?;
        Ok(count)
    }

    fn flush(&mut self) -> io::Result<()> {
        Ok(())
    }
}

/// Puts a reply, which ended so, into the buffer of the host, as much of it as has room there.
pub fn deliver(text: &[u8], ending: Ending, output: &mut [u8], written: &mut usize) -> Outcome
    ensures { Delivers text.now ending output.old output.new written.new result }
{
    let count = text.len().min(output.len());
    output[..count].copy_from_slice(&text[..count]);
    *written = count;
    ended(
        ending,
        output.len() <= text.len(),
        output.len() < text.len(),
    )
}

// How a request ended whose reply fills the buffer, and perhaps is longer.
fn ended(ending: Ending, full: bool, longer: bool) -> Outcome
    ensures { result ≡ ends_where ending full longer }
{
    match ending {
        Ending::Write if full => Outcome::TooLong,
        Ending::Write => Outcome::Ends(Ending::Memory),
        _ if longer => Outcome::TooLong,
        ending => Outcome::Ends(ending),
    }
}
