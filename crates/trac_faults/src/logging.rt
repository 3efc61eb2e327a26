//! A log of the calls of readers and writers, in order.
ghost use Rattle.std.specs.Prelude.{◌≡◌};

use std::alloc::{Allocator, Global};
use std::cell::{Cell, RefCell};
use std::io::{Read, Result, Write};

/// One call of a reader or a writer, and what came of it.
#[derive(Debug, Clone, Copy, PartialEq, Eq)]
pub enum LoggedCall {
    /// A read that gave this many bytes. At 0 it saw the end, or had no room.
    Read(usize),
    /// A read that failed.
    ReadFault,
    /// A write that took this many bytes.
    Write(usize),
    /// A write that failed.
    WriteFault,
    /// A flush.
    Flush,
    /// A flush that failed.
    FlushFault,
}

/// A log of calls. Readers and writers that hold a `&` to one log write into it in the order of their calls.
#[derive(Drop)]
pub struct CallLog<A: Allocator = Global> {
    alloc: A,
    calls: RefCell<Vec<LoggedCall, A>>,
    is_missing_one: Cell<bool>,
}

impl<A: Allocator + Copy> CallLog<A> {
    ghost use Rattle.trac_faults.specs.Logging.{allocator_of};

    /// An empty log, which takes memory from `alloc` as calls come.
    pub fn new(alloc: A) -> CallLog<A>
        ensures { allocator_of result ≡ alloc }
    {
        CallLog {
            alloc,
            calls: RefCell::new(Vec::new(alloc)),
            is_missing_one: Cell::new(false),
        }
    }

    /// The calls since the log was made, or since they were last taken, in order. `None` if one of them is missing,
    /// since there was no memory to note it. The log is empty after this.
    pub fn take_calls(&self) -> Option<Vec<LoggedCall, A>> {
        let calls = self.calls.try_replace(Vec::new(self.alloc)).ok()?;
        if self.is_missing_one.replace(false) {
            return None;
        }
        Some(calls)
    }
}

impl<A: Allocator> CallLog<A> {
    fn note(&self, call: LoggedCall) {
        match self.calls.try_borrow_mut() {
            Ok(mut calls) => {
                if calls.push(call).is_err() {
                    self.is_missing_one.set(true);
                }
            }
            Err(_) => self.is_missing_one.set(true),
        }
    }
}

/// A reader or a writer whose calls are noted in a log, and which is as the inner one otherwise.
#[derive(Drop)]
pub struct Logged<'a, T, A: Allocator = Global> {
    inner: T,
    log: &'a CallLog<A>,
}

impl<'a, T, A: Allocator> Logged<'a, T, A> {
    ghost use Rattle.trac_faults.specs.Logging.{inner_of};

    /// Notes each call of `inner` in `log` from now on.
    pub fn new(inner: T, log: &'a CallLog<A>) -> Logged<'a, T, A>
        ensures { inner_of result ≡ inner }
    {
        Logged { inner, log }
    }

    /// The reader or writer whose calls are noted.
    pub fn inner(&self) -> &T
        ensures { result.now ≡ inner_of self.now }
    {
        &self.inner
    }
}

impl<R: Read, A: Allocator> Read for Logged<'_, R, A> {
    ghost use Rattle.trac_faults.specs.Logging.{inner_of};

    ghost remaining = { λ r. R.remaining (inner_of r) };

    fn read(&mut self, buf: &mut [u8]) -> Result<usize> {
        let given = self.inner.read(buf);
        self.log.note(match &given {
            Ok(n) => LoggedCall::Read(*n),
            Err(_) => LoggedCall::ReadFault,
        });
        given
    }
}

impl<W: Write, A: Allocator> Write for Logged<'_, W, A> {
    ghost use Rattle.trac_faults.specs.Logging.{inner_of};

    ghost contents = { λ w. W.contents (inner_of w) };

    fn write(&mut self, buf: &[u8]) -> Result<usize> {
        let taken = self.inner.write(buf);
        self.log.note(match &taken {
            Ok(n) => LoggedCall::Write(*n),
            Err(_) => LoggedCall::WriteFault,
        });
        taken
    }

    fn flush(&mut self) -> Result<()> {
        let flushed = self.inner.flush();
        self.log.note(match &flushed {
            Ok(()) => LoggedCall::Flush,
            Err(_) => LoggedCall::FlushFault,
        });
        flushed
    }
}
