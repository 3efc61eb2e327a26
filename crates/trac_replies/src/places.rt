//! Steps to go back to.
ghost use Rattle.std.specs.Prelude.{◌≡◌, [], MatchOption, OnOk};
ghost use Rattle.trac_replies.specs.Places.{ArePassed, IsLatest, IsTaken, with_place};

use std::alloc::{AllocError, Allocator};

/// The steps at which moves began that can be taken back, the latest last.
#[derive(Drop)]
pub(crate) struct Places<A: Allocator + Copy> {
    steps: Vec<u64, A>,
}

impl<A: Allocator + Copy> Places<A> {
    /// None. It takes no memory.
    pub(crate) fn new(alloc: A) -> Self
        ensures { result.steps.items ≡ [] }
    {
        Places {
            steps: Vec::new(alloc),
        }
    }

    /// Forgets all.
    pub(crate) fn clear(&mut self)
        ensures { self.new.steps.items ≡ [] }
    {
        self.steps.clear();
    }

    /// Keeps a place, unless it is this step, at which the walk stands. The error is that memory was refused.
    pub(crate) fn keep(&mut self, place: u64, step: u64) -> Result<(), AllocError>
        ensures { OnOk result (self.new.steps.items ≡ with_place place step self.old.steps.items) }
    {
        if place == step {
            return Ok(());
        }
        Ok(self.steps.push(place)?)
    }

    /// The latest place that is another step than this and not before the first one that is kept.
    pub(crate) fn latest(&self, step: u64, first_step: u64) -> Option<u64> {
        let at = latest_in(self.steps.as_slice(), step, first_step)?;
        self.steps.as_slice().get(at).copied()
    }

    /// Takes out the latest place that is another step than this and not before the first one that
    /// is kept, with all after it.
    pub(crate) fn take(&mut self, step: u64, first_step: u64) -> Option<u64>
        ensures { IsTaken step first_step self.old.steps.items result self.new.steps.items }
    {
        let Some(at) = latest_in(self.steps.as_slice(), step, first_step) else {
            self.steps.clear();
            return None;
        };
        let place = self.steps[at];
        self.steps.truncate(at);
        Some(place)
    }
}

// The number of the latest of these places that is another step than this and not before the first one that is kept.
fn latest_in(places: &[u64], step: u64, first_step: u64) -> Option<usize>
    ensures { MatchOption result (ArePassed step first_step places.now 0) (IsLatest step first_step places.now) }
{
    for back in 0..places.len() {
        let at = places.len() - 1 - back;
        if places[at] != step && places[at] >= first_step {
            return Some(at);
        }
    }
    None
}
