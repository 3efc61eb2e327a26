//! Messages, written.
ghost use Rattle.std.specs.Prelude.{◌≡◌, ◌⊎◌, ◌++◌, OnOk, OnErr, IfErr, IfOk, decimal};
ghost use Rattle.std.specs.Io.KnownBytes.{Appends};
ghost use Rattle.trac_streams.specs.Written.{WritesFront};
ghost use Rattle.trac_messages.specs.Frames.{frame_bytes};
ghost use Rattle.trac_messages.specs.Headers.{header_end, length_field};

use crate::header::{HEADER_END, LENGTH_FIELD};
use std::alloc::{AllocError, Allocator};
use std::io::Write;
use trac_streams::writing::{flush, write_whole};
use trac_streams::{Ending, number_into};

/// Writes a message as one frame, and flushes.
///
/// `Ending::Memory`: memory was refused for the header, before anything is written. `Ending::Write`: the writer failed;
/// a front of the frame is written then.
pub fn write_message<W: Write, A: Allocator>(
    alloc: A,
    output: &mut W,
    message: &[u8],
) -> Result<(), Ending>
    ensures ok { OnOk result (Appends (W.contents output.old) (W.contents output.new) (frame_bytes message.now)) }
    ensures err { OnErr result (WritesFront (W.contents output.old) (W.contents output.new) (frame_bytes message.now)) }
    ensures fault { IfErr result (λ ending. (ending ≡ Ending.Memory) ⊎ (ending ≡ Ending.Write)) }
{
    let Ok(mut frame) = header_for(alloc, message.len()) else {
        return Err(Ending::Memory);
    };
    let Ok(()) = frame.extend_from_slice(message) else {
        return Err(Ending::Memory);
    };
    write_whole(output, frame.as_slice())?;
    flush(output)
}

// The header of a message of this length, with the empty line after it. The error is that memory was refused.
fn header_for<A: Allocator>(alloc: A, len: usize) -> Result<Vec<u8, A>, AllocError>
    ensures { IfOk result (λ header. header.items ≡ length_field ++ (decimal len ++ header_end)) }
{
    let mut header = Vec::from_slice(alloc, LENGTH_FIELD)?;
    number_into(len as u64, &mut header)?;
    header.extend_from_slice(HEADER_END)?;
    Ok(header)
}
