//! Walkers over the program: the one that looks for doubts, and a second one, a scout, which goes to steps that the
//! first one keeps no more.

use std::alloc::Allocator;
use trac_moves::Walker;
use trac_places::Sources;
use trac_rules::limit::JOURNAL_LIMIT;
use trac_rules::refusal::Refusal;
use trac_rules::width::Width;
use trac_streams::Ending;

/// How the program is run.
#[derive(Clone, Copy)]
pub(crate) struct Run<'s> {
    /// What it is read from.
    pub(crate) sources: Sources<'s>,
    /// How many bytes the records may take of the steps that can be gone back over.
    pub(crate) keep: u64,
    /// How wide its numbers are.
    pub(crate) width: Width,
}

impl<'s> Run<'s> {
    /// A walker at its start. `Ending::Limit`: the files have more than 33,554,432 bytes. `Ending::Memory`: memory was
    /// refused.
    pub(crate) fn walker<A: Allocator + Copy>(&self, alloc: A) -> Result<Walker<A>, Ending> {
        let tape = self.sources.tape;
        let mut walker = Walker::new(alloc, tape, JOURNAL_LIMIT, self.keep, self.width)?;
        walker.end_input();
        Ok(walker)
    }
}

/// The scout, if there is one.
#[derive(Drop)]
pub(crate) struct Scout<'s, A: Allocator + Copy> {
    alloc: A,
    pub(crate) run: Run<'s>,
    pub(crate) walker: Option<Walker<A>>,
}

impl<'s, A: Allocator + Copy> Scout<'s, A> {
    /// No scout is needed yet. It takes no memory.
    pub(crate) fn new(alloc: A, run: Run<'s>) -> Self {
        Scout {
            alloc,
            run,
            walker: None,
        }
    }

    /// Sends the scout to this step, so that it keeps steps before it; over how many steps it has gone for that. The
    /// refusal is `Memory`.
    pub(crate) fn go_to(&mut self, step: u64) -> Result<u64, Refusal> {
        if !self.keeps_before(step) {
            self.begin()?;
        }
        match &mut self.walker {
            Some(walker) => sent_to(walker, step),
            None => Err(Refusal::Memory),
        }
    }

    // Whether there is a scout that keeps steps before this one.
    fn keeps_before(&self, step: u64) -> bool {
        match &self.walker {
            Some(walker) => walker.first_step() < step,
            None => false,
        }
    }

    // Has a new scout at the start take the place of the one that there is.
    fn begin(&mut self) -> Result<(), Refusal> {
        let Ok(walker) = self.run.walker(self.alloc) else {
            return Err(Refusal::Memory);
        };
        self.walker = Some(walker);
        Ok(())
    }
}

// Sends a walker to a step; over how many steps it has gone.
fn sent_to<A: Allocator + Copy>(walker: &mut Walker<A>, step: u64) -> Result<u64, Refusal> {
    let way = walker.step().abs_diff(step);
    match walker.go_to(step) {
        Some(refusal) => Err(refusal),
        None => Ok(way),
    }
}
