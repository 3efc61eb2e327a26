//! A reader over bytes in memory, which gives little at a time and fails when it is told to.
ghost use Rattle.std.specs.Prelude.{◌≡◌, ◌↔◌, min, length, take, drop, position, true, Ok, IsErr, IfOk, IfErr, IfSome};
ghost use Rattle.std.specs.Prelude.{None, Some, ◌<◌};
ghost use Rattle.std.specs.Io.{ReadsAtMost};
ghost use Rattle.std.specs.Io.KnownBytes.{ReadConsumes};
ghost use Rattle.std.specs.IoError.{error_kind};
ghost use Rattle.trac_faults.specs.Lines.{first_line_len, is_line_feed};

use super::schedule::is_chosen;
use std::io::{Error, ErrorKind, Read, Result};

/// A reader over bytes in memory, which gives them once, in order, and then is at its end.
///
/// `new` makes one that never fails. The calls `at_most`, `by_lines`, `failing_at`, `failing_at_end` and
/// `with_kind` each add an option, as in `FaultyReader::new(b"AB'").at_most(1).failing_at(2)`. A failed
/// read gives no byte and loses none.
#[derive(Drop)]
pub struct FaultyReader<'a> {
    rest: &'a [u8],
    most: usize,
    by_lines: bool,
    reads: u64,
    fails_at: Option<u64>,
    fails_at_end: bool,
    kind: ErrorKind,
}

impl<'a> FaultyReader<'a> {
    ghost use Rattle.trac_faults.specs.Reading.{first_reader, with_most, with_lines, with_fault, with_fault_at_end};
    ghost use Rattle.trac_faults.specs.Reading.{with_kind, bytes_left, read_count};

    /// A reader of these bytes, which gives as many a call as there is room for, and never fails.
    pub fn new(bytes: &'a [u8]) -> FaultyReader<'a>
        ensures { result ≡ first_reader bytes.entry }
    {
        FaultyReader {
            rest: bytes,
            most: usize::MAX,
            by_lines: false,
            reads: 0,
            fails_at: None,
            fails_at_end: false,
            kind: ErrorKind::Other,
        }
    }

    /// Gives at most this many bytes a call. 0 counts as 1: a read that gives none says that the end is there.
    pub fn at_most(self, most: usize) -> FaultyReader<'a>
        ensures { result ≡ with_most self.entry most }
    {
        FaultyReader { most, ..self }
    }

    /// Gives at most one line a call, up to its line feed and with it.
    pub fn by_lines(self) -> FaultyReader<'a>
        ensures { result ≡ with_lines self.entry }
    {
        let by_lines = true;
        FaultyReader { by_lines, ..self }
    }

    /// Fails at the call of this number, and goes on after it. 1 is the first call. At 0 no call fails.
    pub fn failing_at(self, call: u64) -> FaultyReader<'a>
        ensures { result ≡ with_fault self.entry call }
    {
        let fails_at = Some(call);
        FaultyReader { fails_at, ..self }
    }

    /// Fails once, when all bytes are given. The call after that sees the end.
    pub fn failing_at_end(self) -> FaultyReader<'a>
        ensures { result ≡ with_fault_at_end self.entry }
    {
        let fails_at_end = true;
        FaultyReader {
            fails_at_end,
            ..self
        }
    }

    /// Fails with an error of this kind, in place of `ErrorKind::Other`.
    pub fn with_kind(self, kind: ErrorKind) -> FaultyReader<'a>
        ensures { result ≡ with_kind self.entry kind }
    {
        FaultyReader { kind, ..self }
    }

    /// The bytes that no call has given yet.
    pub fn rest(&self) -> &'a [u8]
        ensures { result.now ≡ bytes_left self.now }
    {
        self.rest
    }

    /// How many calls were made, the failed ones among them.
    pub fn reads(&self) -> u64
        ensures { result ≡ read_count self.now }
    {
        self.reads
    }
}

impl Read for FaultyReader<'_> {
    ghost use Rattle.trac_faults.specs.Reading.{bytes_left, fails_next, given_count, kind_of, IsAfterRead};

    ghost remaining = { λ r. Some (bytes_left r) };

    fn read(&mut self, buf: &mut [u8]) -> Result<usize>
        ensures bound { ReadsAtMost result buf.new }
        ensures bytes { ReadConsumes (Some (bytes_left self.old)) (Some (bytes_left self.new)) result buf.new }
        ensures fails { IsErr result ↔ (fails_next self.old (length buf.old) ≡ true) }
        ensures count { IfOk result (λ n. n ≡ given_count self.old (length buf.old)) }
        ensures kind { IfErr result (λ e. error_kind e ≡ kind_of self.old) }
        ensures after { IsAfterRead self.old self.new (length buf.old) }
    {
        self.reads = self.reads.saturating_add(1);
        if is_chosen(self.fails_at, self.reads) {
            return Err(Error::from(self.kind));
        }
        if self.fails_at_end && self.rest.is_empty() && !buf.is_empty() {
            self.fails_at_end = false;
            return Err(Error::from(self.kind));
        }
        let line = if self.by_lines {
            line_len(self.rest)
        } else {
            self.rest.len()
        };
        let n = give(self.rest, line.min(self.most.max(1)), buf);
        self.rest = &self.rest[n..];
        Ok(n)
    }
}

/// Writes the first bytes of `bytes` into the front of `buf`, at most `most` of them, and says how many.
fn give(bytes: &[u8], most: usize, buf: &mut [u8]) -> usize
    ensures count { result ≡ min (min (length bytes.now) most) (length buf.old) }
    ensures given { take result buf.new ≡ take result bytes.now }
{
    let n = bytes.len().min(most).min(buf.len());
    buf[..n].copy_from_slice(&bytes[..n]);
    n
}

/// How many bytes the first line has, with its line feed. Without a line feed all bytes are one line.
fn line_len(bytes: &[u8]) -> usize
    ensures { result ≡ first_line_len bytes.now }
{
    match first_line_feed(bytes) {
        Some(at) => at + 1,
        None => bytes.len(),
    }
}

fn first_line_feed(bytes: &[u8]) -> Option<usize>
    ensures at { result ≡ position is_line_feed bytes.now }
    ensures within { IfSome result (λ at. at < length bytes.now) }
{
    bytes.iter().position(|byte| *byte == b'\n')
}
