//! What is read of a reader: how much at a time, and a whole tape.
ghost use Rattle.std.specs.Prelude.{◌≡◌, ◌+◌, ◌≤◌, IfErr, IfOk, length};
ghost use Rattle.trac_streams.specs.Tape.{AddsPart, IsNoPart, IsNoTape, IsTape};

use crate::ending::Ending;
use std::alloc::Allocator;
use std::io::Read;
use trac_rules::limit::TAPE_LIMIT;

/// How many bytes one read may give.
pub const READ_SIZE: usize = 4096;

/// All bytes of a reader, as the tape of a session. Each read asks for at most 4,096 bytes, and none is read after the
/// first that is too many.
///
/// `Ending::Limit`: there are more than 33,554,432. `Ending::Read`: the reader failed.
/// `Ending::Memory`: memory was refused.
pub fn read_tape<R: Read, A: Allocator + Copy>(
    alloc: A,
    input: &mut R,
) -> Result<Vec<u8, A>, Ending>
    ensures whole { IfOk result (λ tape. IsTape (R.remaining input.old) (R.remaining input.new) tape.items) }
    ensures none { IfErr result (IsNoTape (R.remaining input.old) (R.remaining input.new)) }
{
    let mut tape = Vec::new(alloc);
    while tape.len() <= TAPE_LIMIT {
        let count = read_part(&mut tape, input)?;
        if count == 0 {
            return Ok(tape);
        }
    }
    Err(Ending::Limit)
}

// Reads once, and returns how many bytes that gave; none at the end.
fn read_part<R: Read, A: Allocator>(tape: &mut Vec<u8, A>, input: &mut R) -> Result<usize, Ending>
    requires { length tape.old.items ≤ TAPE_LIMIT }
    ensures part { IfOk result
        (AddsPart (R.remaining input.old) (R.remaining input.new) tape.old.items tape.new.items) }
    ensures longer { IfOk result (λ count. length tape.new.items ≡ length tape.old.items + count) }
    ensures none { IfErr result (IsNoPart (R.remaining input.old) (R.remaining input.new) tape.old.items) }
{
    let mut bytes = [0; READ_SIZE];
    let most = READ_SIZE.min(TAPE_LIMIT + 1 - tape.len());
    let Ok(count) = input.read(&mut bytes[..most]) else {
        return Err(Ending::Read);
    };
    match tape.extend_from_slice(&bytes[..count]) {
        Ok(()) => Ok(count),
        Err(_) => Err(Ending::Memory),
    }
}
