//! The byte of the files that a doubt is about.
ghost use Rattle.std.specs.Prelude.{◌≡◌, ◌==◌, ◌-◌};

use crate::scout::{Run, Scout};
use crate::track::{Next, Track};
use std::alloc::Allocator;
use trac_follow::Place;
use trac_lint_memory::Ways;
use trac_moves::{Walker, place_of};
use trac_places::Sources;
use trac_rules::doubt::Doubt;
use trac_rules::refusal::Refusal;

// So many steps are gone over at most to find where doubts come from, all ways together.
const WAYS_LIMIT: u64 = 200_000_000;

// Until so many are gone over, each doubt is followed, also where it was met before.
const FREE_WAYS: u64 = 100_000_000;

// Until so many are gone over, the place of a doubt is looked for that is only counted.
const COUNTED_WAYS: u64 = 20_000_000;

// A way counts for so many steps at least.
const LEAST_WAY: u64 = 64;

// The walker that looks for doubts goes back so far at most, if a scout can go further back instead.
const NEAR: u64 = 65_536;

/// Finds from which bytes of the files the bytes come that doubts are about.
#[derive(Drop)]
pub(crate) struct Origins<'s, A: Allocator + Copy> {
    alloc: A,
    pub(crate) sources: Sources<'s>,
    ways: Ways<A>,
    scout: Scout<'s, A>,
    // how many steps may still be gone over
    left: u64,
}

impl<'s, A: Allocator + Copy> Origins<'s, A> {
    /// Of the bytes of these files, in a program that is run so.
    pub(crate) fn new(alloc: A, run: Run<'s>) -> Self {
        Origins::within(alloc, run, WAYS_LIMIT)
    }

    /// The same, over so many steps at most.
    pub(crate) fn within(alloc: A, run: Run<'s>, left: u64) -> Self {
        Origins {
            alloc,
            sources: run.sources,
            ways: Ways::new(alloc),
            scout: Scout::new(alloc, run),
            left,
        }
    }

    /// Whether so few steps were gone over that a doubt is followed also where it was met before.
    pub(crate) fn is_free(&self) -> bool {
        self.gone() < FREE_WAYS
    }

    /// Whether so few were gone over that a doubt is followed which is only counted.
    pub(crate) fn is_counting(&self) -> bool {
        self.gone() < COUNTED_WAYS
    }

    // How many steps were gone over.
    fn gone(&self) -> u64 {
        WAYS_LIMIT.saturating_sub(self.left)
    }

    /// Whether so many steps were gone over that no place is found any more.
    pub(crate) fn is_spent(&self) -> bool
        ensures { result ≡ (self.now.left == 0) }
    {
        self.left == 0
    }

    /// The number of the byte of the files from which that of a doubt of the next step comes, the first being number 0.
    /// None if too many steps were gone over. It goes back, and forward again; the refusal is of a step on that way,
    /// here and below.
    pub(crate) fn number(
        &mut self,
        walker: &mut Walker<A>,
        doubt: Doubt,
    ) -> Result<Option<u64>, Refusal> {
        if self.is_spent() {
            return Ok(None);
        }
        let end = walker.step();
        let place = place_of(walker, doubt);
        self.number_at(walker, place, end)
    }

    /// The same for the byte at a place of the state at which a walker stands, which has gone back to there from step
    /// `end`, and goes forward to that again.
    pub(crate) fn number_at(
        &mut self,
        walker: &mut Walker<A>,
        place: Place<'_>,
        end: u64,
    ) -> Result<Option<u64>, Refusal> {
        let mut track = Track::new(self.alloc, walker, place);
        let next = track.go_back(walker, &self.sources, &mut self.ways, NEAR)?;
        let steps = end.saturating_sub(walker.step());
        self.spend(steps.max(LEAST_WAY));
        if let Some(refusal) = walker.forward(steps) {
            return Err(refusal);
        }
        let number = self.further(next, &mut track)?;
        if let Some(number) = number {
            self.keep(&track, number)?;
        }
        Ok(number)
    }

    // The same from where a track goes on, by the scout.
    fn further(&mut self, next: Next, track: &mut Track<A>) -> Result<Option<u64>, Refusal> {
        let mut next = next;
        while !self.is_spent() {
            let Next::From(step) = next else {
                break;
            };
            let (onward, way) = scouted(&mut self.scout, &mut self.ways, step, track)?;
            self.spend(way.max(LEAST_WAY));
            next = onward;
        }
        match next {
            Next::Found(number) => Ok(Some(number)),
            Next::From(_) | Next::Lost => Ok(None),
        }
    }

    // Keeps of all places on a track that this byte stands there.
    fn keep(&mut self, track: &Track<A>, number: u64) -> Result<(), Refusal> {
        for post in track.posts() {
            self.ways.keep(*post, number)?;
        }
        Ok(())
    }

    /// Counts so many steps.
    pub(crate) fn spend(&mut self, steps: u64)
        ensures { self.new.left ≡ self.old.left - steps }
    {
        self.left = self.left.saturating_sub(steps);
    }
}

// How a track goes on from this step, after the scout has gone back from there, and over how many steps it has gone.
fn scouted<A: Allocator + Copy>(
    scout: &mut Scout<'_, A>,
    ways: &mut Ways<A>,
    step: u64,
    track: &mut Track<A>,
) -> Result<(Next, u64), Refusal> {
    let there = scout.go_to(step)?;
    let sources = scout.run.sources;
    match &mut scout.walker {
        Some(walker) => {
            let next = track.go_back(walker, &sources, ways, u64::MAX)?;
            let back = step.saturating_sub(walker.step());
            Ok((next, there.saturating_add(back)))
        }
        None => Ok((Next::Lost, there)),
    }
}
