//! Readers, writers and memory of which a call fails.
use std::alloc::Global;
use std::io::ErrorKind;
use trac_faults::{FaultyReader, FaultyWriter, Refusing};

/// Memory of which a request may be refused.
pub type Memory<'a> = &'a Refusing<Global>;

/// What fails: the call of this number.
#[derive(Clone, Copy)]
pub enum Fault {
    None,
    Read(u64),
    /// Once all bytes are given.
    ReadAtEnd,
    Write(u64),
    /// Nothing is taken.
    TakeNone(u64),
    /// Each write takes one byte, and the write of this number fails. At 0 none fails.
    TakeOne(u64),
    Flush(u64),
}

/// The kinds of errors that a call fails with. By the rule of std a call that was interrupted may be tried again; what
/// is tested here tries no call again, and ends for any error.
pub const KINDS: &[ErrorKind] = &[ErrorKind::Other, ErrorKind::Interrupted];

/// What fails, and with which kind of error.
pub type Failing = (Fault, ErrorKind);

/// No call fails.
pub const NO_FAULT: Failing = (Fault::None, ErrorKind::Other);

/// A reader of these bytes, at most so many at a time.
pub fn reader_of(input: &[u8], most: usize, (fault, kind): Failing) -> FaultyReader<'_> {
    let reader = FaultyReader::new(input).at_most(most).with_kind(kind);
    match fault {
        Fault::Read(nth) => reader.failing_at(nth),
        Fault::ReadAtEnd => reader.failing_at_end(),
        _ => reader,
    }
}

/// A writer.
pub fn writer_of(plain: Global, (fault, kind): Failing) -> FaultyWriter {
    let writer = FaultyWriter::new(plain).with_kind(kind);
    match fault {
        Fault::Write(nth) => writer.failing_at(nth),
        Fault::TakeNone(nth) => writer.taking_none_at(nth),
        Fault::TakeOne(nth) => writer.at_most(1).failing_at(nth),
        Fault::Flush(nth) => writer.failing_flush_at(nth),
        _ => writer,
    }
}
