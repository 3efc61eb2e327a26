//! Messages in frames, however they are cut, and frames that are none.
use std::alloc::{AllocError, Allocator};
use std::io::{Read, Write};
use std::process::Abort;
use trac_faults::{FaultyReader, FaultyWriter, Refusing};
use trac_messages::{Incoming, Next, write_message};
use trac_streams::{Ending, number_into};

// Three messages: one with another field before its length, and an empty one.
const THREE: &[u8] =
    b"Content-Length: 5\r\n\r\nhelloContent-Type: x; charset=utf-8\r\ncontent-LENGTH: 2\r\n\r\nhi\
    Content-Length: 0\r\n\r\n";

const TOLD: &[u8] = b"[hello][hi][].";

// Bytes, and what is told of them: a message in brackets, (N) for one of N bytes that is too long, ? for a header
// without a length, ! for a frame in which they end, and a full stop for the end.
const ROWS: &[(&[u8], &[u8])] = &[
    (THREE, TOLD),
    (b"", b"."),
    (b"Content-Length: 9\r\n\r\nhello", b"!."),
    (b"Content-Length: 9\r\n", b"!."),
    (b"C", b"!."),
    (
        b"Content-Length: 3\r\n\r\nhelloContent-Length: 2\r\n\r\nhi",
        b"[hel]?!.",
    ),
    (b"Content-Length: 1073741824\r\n\r\nabc", b"(1073741824)."),
    (
        b"Content-Length: 16777217\r\n\r\nContent-Length: 2\r\n\r\nhi",
        b"(16777217).",
    ),
    (
        b"Content-Length: 999999999999999\r\n\r\n",
        b"(999999999999999).",
    ),
    (b"Content-Length: 9999999999999999\r\n\r\n", b"?."),
    (b"Content-Length: 99999999999999999999999\r\n\r\n", b"?."),
    (b"Content-Length: -5\r\n\r\n", b"?."),
    (b"Content-Length: +5\r\n\r\n", b"?."),
    (b"Content-Length: \r\n\r\n", b"?."),
    (b"Content-Length: 2 \r\n\r\nhi", b"?!."),
    (b"Content-Length:2\r\n\r\nhi", b"?!."),
    (b"Content-Length: 0x2\r\n\r\nhi", b"?!."),
    (b" Content-Length: 2\r\n\r\nhi", b"?!."),
    (b"Content-Length: 02\r\n\r\nhi", b"[hi]."),
    (b"Content-Length: 2\n\nhi", b"!."),
    (b"Content-Length: 2\nX: y\r\n\r\nhi", b"[hi]."),
    (
        b"Content-Length: 2\r\nContent-Length: 4\r\n\r\nhi",
        b"[hi].",
    ),
    (
        b"Content-Length: two\r\nContent-Length: 2\r\n\r\nhi",
        b"[hi].",
    ),
    (b"{\"id\":1}", b"!."),
    (b"\r\n\r\n", b"?."),
    (b"\r\n\r\nContent-Length: 2\r\n\r\nhi", b"?[hi]."),
    (b"no header\r\n\r\nContent-Length: 2\r\n\r\nhi", b"?[hi]."),
    (&[b'x'; 5000], b"?!."),
    (&[b'\n'; 4096], b"?."),
    (&[0; 4095], b"!."),
];

// What comes next.
fn next_of<R: Read, A: Allocator + Copy>(
    incoming: &mut Incoming<A>,
    input: &mut R,
) -> Result<Next, Ending> {
    incoming.next(input)
}

// Puts what came next at the end of a text; whether more may come. The error is that memory was refused.
fn tell<A: Allocator + Copy>(
    incoming: &Incoming<A>,
    next: Next,
    told: &mut Vec<u8>,
) -> Result<bool, AllocError> {
    match next {
        Next::Message => {
            told.push(b'[')?;
            told.extend_from_slice(incoming.message())?;
            told.push(b']')?;
        }
        Next::TooLong(len) => {
            told.push(b'(')?;
            number_into(len, told)?;
            told.push(b')')?;
        }
        Next::NoLength => told.push(b'?')?,
        Next::Cut => told.push(b'!')?,
        Next::End => told.push(b'.')?,
    }
    Ok(next != Next::End)
}

// Puts what a reader gives at the end of a text, to its end or the first fault.
fn tell_all<R: Read, A: Allocator + Copy>(
    incoming: &mut Incoming<A>,
    input: &mut R,
    told: &mut Vec<u8>,
) -> Option<Ending> {
    for turn in 0..64 {
        match next_of(incoming, input) {
            Err(ending) => return Some(ending),
            Ok(next) => match tell(incoming, next, told) {
                Ok(true) => {}
                Ok(false) => return None,
                Err(AllocError) => return Some(Ending::Memory),
            },
        }
    }
    None
}

// Whether this is told of bytes, as many at a read as that.
fn is_told(rt: &impl AllocGlobal, bytes: &[u8], most: usize, wanted: &[u8]) -> bool {
    let mut told = Vec::new(rt.alloc());
    let mut input = FaultyReader::new(bytes).at_most(most);
    let mut incoming = Incoming::new(rt.alloc());
    let fault = tell_all(&mut incoming, &mut input, &mut told);
    fault.is_none() && told.as_slice() == wanted
}

#[test]
fn each_row_at_each_cut(rt: HostRuntime) {
    for (bytes, wanted) in ROWS.iter() {
        for most in [1, 2, 3, 5, 64, 4096] {
            assert!(rt; is_told(&rt, bytes, most, wanted));
        }
    }
    for most in 1..=THREE.len() {
        assert!(rt; is_told(&rt, THREE, most, TOLD));
    }
}

// Whether three messages are told if this read fails and the next are tried again.
fn is_told_after_fault(rt: &impl AllocGlobal, read: u64) -> bool {
    let mut told = Vec::new(rt.alloc());
    let mut input = FaultyReader::new(THREE).at_most(7).failing_at(read);
    let mut incoming = Incoming::new(rt.alloc());
    let fault = tell_all(&mut incoming, &mut input, &mut told);
    let rest = tell_all(&mut incoming, &mut input, &mut told);
    fault == Some(Ending::Read) && rest.is_none() && told.as_slice() == TOLD
}

// Whether the same are told if this request for memory is refused and the next are tried again.
fn is_told_after_refusal(rt: &impl AllocGlobal, request: u64) -> bool {
    let memory = Refusing::new(rt.alloc());
    memory.refuse_nth(request);
    let mut told = Vec::new(rt.alloc());
    let mut input = FaultyReader::new(THREE).at_most(7);
    let mut incoming = Incoming::new(&memory);
    let fault = tell_all(&mut incoming, &mut input, &mut told);
    let rest = fault.is_some() && tell_all(&mut incoming, &mut input, &mut told).is_none();
    fault == Some(Ending::Memory) && rest && told.as_slice() == TOLD
}

#[test]
fn after_faults(rt: HostRuntime) {
    for read in 1..=15 {
        assert!(rt; is_told_after_fault(&rt, read));
    }
    assert!(rt; is_told_after_refusal(&rt, 1));
}

// What is written of a message, and how that ends.
fn write_to<W: Write>(rt: &impl AllocGlobal, output: &mut W, message: &[u8]) -> Option<Ending> {
    write_message(rt.alloc(), output, message).err()
}

// Whether this is written of `hello, world` if this write fails, at most five bytes a write.
fn is_written(rt: &impl AllocGlobal, write: u64, wanted: &[u8], ending: Option<Ending>) -> bool {
    let mut output = FaultyWriter::new(rt.alloc()).at_most(5).failing_at(write);
    let ended = write_to(rt, &mut output, b"hello, world");
    ended == ending && output.contents() == wanted
}

#[test]
fn writes(rt: HostRuntime) {
    let frame = b"Content-Length: 12\r\n\r\nhello, world";
    assert!(rt; is_written(&rt, 8, frame, None));
    for write in 1..=7_u64 {
        let front = frame.split_at(5 * (write - 1) as usize).0;
        assert!(rt; is_written(&rt, write, front, Some(Ending::Write)));
    }
}

// What was read is ready, and so is the end once it was seen.
#[test]
fn what_was_read_is_ready(rt: HostRuntime) {
    let mut incoming = Incoming::new(rt.alloc());
    let mut input = THREE;
    assert!(rt; !incoming.is_ready());
    for is_last in [false, false, true] {
        let next = incoming.next(&mut input);
        assert_eq!(rt; next, Ok(Next::Message));
        assert_eq!(rt; incoming.is_ready(), !is_last);
    }
    let next = incoming.next(&mut input);
    assert_eq!(rt; next, Ok(Next::End));
    assert!(rt; incoming.is_ready());
}
