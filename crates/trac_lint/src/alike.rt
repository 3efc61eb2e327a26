//! Whether two programs print the same.

use crate::linting::Settings;
use crate::scout::Run;
use std::alloc::{AllocError, Allocator};
use trac_moves::Walker;
use trac_places::Sources;
use trac_rules::refusal::Refusal;

// So many steps are gone over at once: so few that what they print is not released before it is looked at.
const STRIDE: u64 = 4_096;

// So many bytes of the output are compared at most.
const MOST: usize = 1 << 20;

/// Whether two programs that are run as these settings say print the same, as far as that takes them. The answer is no
/// if memory is refused.
pub fn prints_alike<A: Allocator + Copy>(
    alloc: A,
    one: &[u8],
    other: &[u8],
    settings: Settings,
) -> bool {
    let (Some(one), Some(other)) = (
        printed(alloc, one, settings),
        printed(alloc, other, settings),
    ) else {
        return false;
    };
    one.as_slice() == other.as_slice()
}

// What a program prints; none if memory is refused.
fn printed<A: Allocator + Copy>(alloc: A, tape: &[u8], settings: Settings) -> Option<Vec<u8, A>> {
    let run = Run {
        sources: Sources {
            name: b"",
            input_name: b"",
            tape,
            len: tape.len(),
        },
        keep: settings.keep,
        width: settings.decimals,
    };
    let mut walker = run.walker(alloc).ok()?;
    let mut output = Vec::new(alloc);
    for _stride in 0..settings.steps / STRIDE {
        let refusal = walker.forward(STRIDE);
        if take(&walker, &mut output).is_err() || refusal == Some(Refusal::Memory) {
            return None;
        }
        if refusal.is_some() || output.len() >= MOST {
            break;
        }
    }
    Some(output)
}

// Adds what a walker has printed since this was asked last.
fn take<A: Allocator + Copy>(
    walker: &Walker<A>,
    output: &mut Vec<u8, A>,
) -> Result<(), AllocError> {
    let pending = walker.pending();
    let known = (output.len() as u64).saturating_sub(walker.released());
    let (_, more) = pending.split_at(pending.len().min(known as usize));
    output.extend_from_slice(more)
}
