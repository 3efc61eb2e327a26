//! How far into the neutral text a byte of an argument stands.
ghost use Rattle.std.specs.Prelude.{◌≡◌, ◌+◌, drop, reverse, slice_get, MatchBool};
ghost use Rattle.trac_follow_step.specs.Offsets.{offset};
ghost use Rattle.trac_follow_step.specs.Places.{Stands};
ghost use Rattle.trac_origins.specs.Places.{InArgument};
ghost use Rattle.trac_rules.specs.declared.kind.Kind.{Kind};
ghost use Rattle.trac_rules.specs.Limits.{argument_bytes};
ghost use Rattle.trac_text.specs.Frames.{IsFrame};

use std::alloc::Allocator;
use trac_gap::TwoEnds;
use trac_step::{Core, Mark};
use trac_text::Args;

/// How many bytes of the neutral text stand before a byte of an argument, if one stands there. Its function, the
/// argument and the byte have their numbers in `Place::Argument`.
pub fn argument_offset<E: TwoEnds<u8, A>, M: TwoEnds<Mark, A>, A: Allocator + Copy>(
    machine: &Core<E, M, A>,
    function: usize,
    argument: usize,
    byte: usize,
) -> usize
    ensures { Stands machine.now.state (InArgument function argument byte) →
        result ≡ offset machine.now.state (InArgument function argument byte) }
{
    let Some((_, arguments)) = machine.frame(function) else {
        return 0;
    };
    // So many bytes of the neutral text stand from the function, from the argument and from the byte on.
    let from_function = bytes_from(machine, function, &arguments);
    let mut from_argument = from_function;
    for i in 0..argument.min(arguments.count()) {
        from_argument = from_argument.saturating_sub(arguments.get(i).len());
    }
    let from_byte = from_argument.saturating_sub(byte);
    machine.neutral_len().saturating_sub(from_byte)
}

// How many bytes the arguments of the functions from this number on hold, counted from the outermost; the one of this
// number has these. If it is the innermost, no other one is looked at.
fn bytes_from<E: TwoEnds<u8, A>, M: TwoEnds<Mark, A>, A: Allocator + Copy>(
    machine: &Core<E, M, A>,
    function: usize,
    arguments: &Args<'_>,
) -> usize
    requires { (kind : Kind) × IsFrame (slice_get (reverse machine.now.state.frames) function) kind arguments.now }
    ensures { result ≡ argument_bytes (drop function (reverse machine.now.state.frames)) }
{
    if is_innermost(function, machine.depth()) {
        return arguments.joined().len();
    }
    let mut functions = machine.begun_functions();
    // The bytes of all arguments, without those of the functions before this one.
    let mut bytes = machine.neutral_len() - machine.base().len();
    for number in 0..function {
        match functions.next() {
            Some((_, arguments)) => bytes -= arguments.joined().len(),
            None => return bytes,
        }
    }
    bytes
}

/// Whether the begun function of this number is the last of so many. The outermost has number 0.
pub fn is_innermost(function: usize, depth: usize) -> bool
    ensures { MatchBool result (function + 1 ≡ depth) (function + 1 ≡ depth → ⊥) }
{
    function < depth && depth - function == 1
}
