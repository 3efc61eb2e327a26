//! Numbers as texts.
ghost use Rattle.std.specs.Prelude.{◌≡◌, ◌+◌, ◌<◌, ◌++◌, OnErr, OnOk, length};
ghost use Rattle.std.specs.Vec.{vec_capacity};
ghost use Rattle.trac_rules.specs.Number.{number_text};

use crate::error::NumError;
use itoa::Buffer;
use std::alloc::Allocator;

/// Adds a number in decimal to the end of a text: `-` if it is negative, no `+` and no leading zeros.
///
/// `Memory`: the text had to grow for it and could not. The text is then as before.
pub fn print_into<A: Allocator + Copy>(n: i128, out: &mut Vec<u8, A>) -> Result<(), NumError>
    ensures ok { OnOk result (out.new.items ≡ out.old.items ++ number_text n) }
    ensures err { OnErr result (out.new.items ≡ out.old.items) }
    ensures full { OnErr result (vec_capacity out.old < length out.old.items + length (number_text n)) }
{
    let mut buffer = Buffer::new();
    out.extend_from_slice(buffer.format(n).as_bytes())?;
    Ok(())
}
