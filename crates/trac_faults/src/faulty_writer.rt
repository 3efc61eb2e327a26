//! A writer into memory that takes little at a time, and fails when it is told to.
ghost use Rattle.std.specs.Prelude.{◌≡◌, ◌↔◌, length, true, false, IsErr, IsErrAnd, IfOk, IfErr, Some};
ghost use Rattle.std.specs.Io.{WritesAtMost};
ghost use Rattle.std.specs.Io.KnownBytes.{WriteAppends, Keeps};
ghost use Rattle.std.specs.IoError.{error_kind};

use super::schedule::is_chosen;
use std::alloc::{Allocator, Global};
use std::io::{Error, ErrorKind, Result, Write};

/// A writer that keeps what it takes in memory, where `contents` shows it.
///
/// `new` makes one that takes all and never fails, as long as its allocator has memory. The calls `at_most`,
/// `failing_at`, `taking_none_at`, `failing_flush_at` and `with_kind` each add an option, as in
/// `FaultyWriter::new(rt.alloc()).at_most(1).failing_at(2)`. A failed write takes nothing.
#[derive(Drop)]
pub struct FaultyWriter<A: Allocator = Global> {
    taken: Vec<u8, A>,
    most: usize,
    writes: u64,
    flushes: u64,
    fails_at: Option<u64>,
    takes_none_at: Option<u64>,
    flush_fails_at: Option<u64>,
    kind: ErrorKind,
}

impl<A: Allocator> FaultyWriter<A> {
    ghost use Rattle.trac_faults.specs.Writing.{IsFirstWriter, with_most, with_fault, with_empty_write};
    ghost use Rattle.trac_faults.specs.Writing.{with_flush_fault, with_kind, bytes_taken, write_count, flush_count};

    /// A writer that holds nothing yet, takes whole texts and never fails but for want of memory.
    pub fn new(alloc: A) -> FaultyWriter<A>
        ensures { IsFirstWriter result }
    {
        FaultyWriter {
            taken: Vec::new(alloc),
            most: usize::MAX,
            writes: 0,
            flushes: 0,
            fails_at: None,
            takes_none_at: None,
            flush_fails_at: None,
            kind: ErrorKind::Other,
        }
    }

    /// Takes at most this many bytes a call. At 0 it takes none at all.
    pub fn at_most(mut self, most: usize) -> FaultyWriter<A>
        ensures { result ≡ with_most self most }
    {
        self.most = most;
        self
    }

    /// Fails at the write of this number, and goes on after it. 1 is the first call of `write`. At 0 no write fails.
    pub fn failing_at(mut self, write: u64) -> FaultyWriter<A>
        ensures { result ≡ with_fault self write }
    {
        self.fails_at = Some(write);
        self
    }

    /// Takes no byte at the write of this number, and answers 0. 1 is the first call of `write`. At 0 no write does.
    pub fn taking_none_at(mut self, write: u64) -> FaultyWriter<A>
        ensures { result ≡ with_empty_write self write }
    {
        self.takes_none_at = Some(write);
        self
    }

    /// Fails at the flush of this number, and goes on after it. 1 is the first call of `flush`. At 0 no flush fails.
    pub fn failing_flush_at(mut self, flush: u64) -> FaultyWriter<A>
        ensures { result ≡ with_flush_fault self flush }
    {
        self.flush_fails_at = Some(flush);
        self
    }

    /// Fails with an error of this kind, in place of `ErrorKind::Other`. For want of memory it is
    /// `ErrorKind::OutOfMemory`.
    pub fn with_kind(mut self, kind: ErrorKind) -> FaultyWriter<A>
        ensures { result ≡ with_kind self kind }
    {
        self.kind = kind;
        self
    }

    /// The bytes that it took, in order.
    pub fn contents(&self) -> &[u8]
        ensures { result.now ≡ bytes_taken self.now }
    {
        self.taken.as_slice()
    }

    /// How many calls of `write` were made, the failed ones among them.
    pub fn writes(&self) -> u64
        ensures { result ≡ write_count self.now }
    {
        self.writes
    }

    /// How many calls of `flush` were made, the failed ones among them.
    pub fn flushes(&self) -> u64
        ensures { result ≡ flush_count self.now }
    {
        self.flushes
    }
}

impl<A: Allocator> Write for FaultyWriter<A> {
    ghost use Rattle.trac_faults.specs.Writing.{bytes_taken, write_fails_next, flush_fails_next, taken_count, kind_of};
    ghost use Rattle.trac_faults.specs.Writing.{IsAfterWrite, IsAfterFlush};

    ghost contents = { λ w. Some (bytes_taken w) };

    fn write(&mut self, buf: &[u8]) -> Result<usize>
        ensures bound { WritesAtMost result buf.now }
        ensures bytes { WriteAppends (Some (bytes_taken self.old)) (Some (bytes_taken self.new)) result buf.now }
        ensures fault { write_fails_next self.old ≡ true → IsErrAnd result (λ e. error_kind e ≡ kind_of self.old) }
        ensures memory { write_fails_next self.old ≡ false → IfErr result (λ e. error_kind e ≡ ErrorKind.OutOfMemory) }
        ensures count { IfOk result (λ n. n ≡ taken_count self.old (length buf.now)) }
        ensures after { IsAfterWrite self.old self.new }
    {
        self.writes = self.writes.saturating_add(1);
        if is_chosen(self.fails_at, self.writes) {
            return Err(Error::from(self.kind));
        }
        if is_chosen(self.takes_none_at, self.writes) {
            return Ok(0);
        }
        let n = buf.len().min(self.most);
        self.taken.extend_from_slice(&buf[..n])?;
        Ok(n)
    }

    fn flush(&mut self) -> Result<()>
        ensures bytes { Keeps (Some (bytes_taken self.old)) (Some (bytes_taken self.new)) }
        ensures fails { IsErr result ↔ (flush_fails_next self.old ≡ true) }
        ensures kind { IfErr result (λ e. error_kind e ≡ kind_of self.old) }
        ensures after { IsAfterFlush self.old self.new }
    {
        self.flushes = self.flushes.saturating_add(1);
        if is_chosen(self.flush_fails_at, self.flushes) {
            return Err(Error::from(self.kind));
        }
        Ok(())
    }
}
