//! Walks that begin anew.
ghost use Rattle.std.specs.Prelude.{◌≡◌, ◌≤◌, ◌++◌, IfOk};
ghost use Rattle.trac_rules.specs.declared.limit.TheConstants.{JOURNAL_LIMIT};
ghost use Rattle.trac_moves.specs.Walkers.{Stands};

use std::alloc::Allocator;
use trac_moves::Walker;
use trac_rules::limit::JOURNAL_LIMIT;
use trac_rules::width::Width;
use trac_streams::Ending;

/// What is kept of a walk, however often it begins.
#[derive(Clone, Copy)]
pub(crate) struct Kept {
    /// How many steps can be gone back over at most.
    pub(crate) journal: usize,
    /// How many bytes their records may take, about.
    pub(crate) keep: u64,
    /// How wide numbers are.
    pub(crate) width: Width,
    ghost some: { 1 ≤ journal },
    ghost most: { journal ≤ JOURNAL_LIMIT },
}

/// A walker at the start of a program, whose input is the program, and then what was typed after it; whether that has
/// ended. The error is as of `Walker::new`.
pub(crate) fn begun<A: Allocator + Copy>(
    alloc: A,
    program: &[u8],
    typed: &[u8],
    has_ended: bool,
    kept: Kept,
) -> Result<Walker<A>, Ending>
    ensures { IfOk result (Stands (record { bytes = program.now ++ typed.now; ended = has_ended }) kept.width 0) }
{
    let Ok(mut input) = Vec::from_slice(alloc, program) else {
        return Err(Ending::Memory);
    };
    let Ok(()) = input.extend_from_slice(typed) else {
        return Err(Ending::Memory);
    };
    let mut walker = Walker::new(alloc, input.as_slice(), kept.journal, kept.keep, kept.width)?;
    if !has_ended {
        return Ok(walker);
    }
    walker.end_input();
    Ok(walker)
}
