//! A walker, as the replies ask it.

use crate::calls_told::{Way, end_way, told_way};
use crate::carrying_out::carry_out;
use crate::following::{end_of, follow, follow_in_forms};
use crate::restarting::{Kept, begun};
use std::alloc::{AllocError, Allocator};
use trac_dialogue::Move;
use trac_follow::Place;
use trac_moves::{Aim, Walker, place_of};
use trac_person_lines::Stop;
use trac_replies::{End, Walks};
use trac_rules::byte::LINE_FEED;
use trac_rules::width::Width;
use trac_session::{Doubt, Machine, Refusal};
use trac_sight::{Forgetting, Glance, Reach, Sight};
use trac_streams::Ending;

/// A walker of which the replies are made.
#[derive(Drop)]
pub(crate) struct Walked<A: Allocator + Copy> {
    alloc: A,
    walker: Walker<A>,
    // what was typed as input after the program, and whether that has ended
    typed: Vec<u8, A>,
    has_ended: bool,
    kept: Kept,
}

impl<A: Allocator + Copy> Walked<A> {
    /// Before anything is typed.
    pub(crate) fn new(alloc: A, walker: Walker<A>, kept: Kept) -> Self {
        Walked {
            alloc,
            walker,
            typed: Vec::new(alloc),
            has_ended: false,
            kept,
        }
    }

    // Runs the program anew up to this step, which is kept no more, and stands there. Returns what was refused on the
    // way, and then nothing is changed.
    fn come_back(&mut self, program: &[u8], step: u64) -> Option<Stop> {
        let typed = self.typed.as_slice();
        let Ok(mut walker) = begun(self.alloc, program, typed, self.has_ended, self.kept) else {
            return Some(Stop::Refused(Refusal::Memory));
        };
        if let Some(refusal) = walker.forward(step) {
            return Some(Stop::Refused(refusal));
        }
        self.walker = walker;
        None
    }
}

impl<A: Allocator + Copy> Walks<A> for Walked<A> {
    type Way = Way<A>;

    fn step(&self) -> u64 {
        self.walker.step()
    }

    fn first_step(&self) -> u64 {
        self.walker.first_step()
    }

    fn steps_back(&self) -> usize {
        self.walker.steps_back()
    }

    fn machine(&self) -> &Machine<A> {
        self.walker.machine()
    }

    fn glance(&self) -> Glance {
        self.walker.glance()
    }

    fn sight(&self) -> Sight<'_, A> {
        self.walker.sight()
    }

    fn width(&self) -> Width {
        self.walker.width()
    }

    fn pending(&self) -> &[u8] {
        self.walker.pending()
    }

    fn released(&self) -> u64 {
        self.walker.released()
    }

    fn unread(&self) -> &[u8] {
        self.walker.unread()
    }

    fn input_number(&self) -> u64 {
        self.walker.input_number(self.walker.sight().position)
    }

    fn reach(&self) -> Reach {
        self.walker.reach()
    }

    fn forgetting(&self) -> Forgetting {
        self.walker.forgetting()
    }

    fn doubts(&self, alloc: A) -> Result<Vec<Doubt, A>, AllocError> {
        self.walker.doubts(alloc)
    }

    fn begin_anew(&mut self, alloc: A, program: &[u8]) -> Option<Refusal> {
        match begun(
            alloc,
            program,
            self.typed.as_slice(),
            self.has_ended,
            self.kept,
        ) {
            Ok(walker) => {
                self.walker = walker;
                None
            }
            Err(Ending::Limit) => Some(Refusal::TooLong),
            Err(_) => Some(Refusal::Memory),
        }
    }

    fn feed(&mut self, alloc: A, text: &[u8]) -> Result<(), Refusal> {
        let len = self.typed.len();
        let fed = match line_into(text, &mut self.typed) {
            Ok(()) => self.walker.feed(alloc, text),
            Err(AllocError) => Err(Refusal::Memory),
        };
        if fed.is_err() {
            self.typed.truncate(len);
        }
        fed
    }

    fn end_input(&mut self) {
        self.has_ended = true;
        self.walker.end_input();
    }

    fn carry_out(&mut self, program: &[u8], way: Move<'_>, searched: u64) -> Option<Stop> {
        let start = self.walker.step();
        let stop = carry_out(&mut self.walker, way, searched);
        match stop {
            Some(Stop::Unmet(_) | Stop::UnmetUpTo(_, _) | Stop::SpentUpTo(_))
                if self.walker.step() != start => { self.come_back(program, start).or(stop) }
            stop => stop,
        }
    }

    fn forward(&mut self, most: u64) -> Option<Refusal> {
        self.walker.forward(most)
    }

    fn look_ahead(&mut self) -> Option<Refusal> {
        self.walker.look_ahead()
    }

    fn back(&mut self, steps: u64) {
        let _ = self.walker.back(steps);
    }

    fn go_to(&mut self, step: u64) -> Option<Refusal> {
        self.walker.go_to(step)
    }

    fn return_to_call(&mut self) -> Option<Refusal> {
        self.walker.return_to(Aim::OwnCall)
    }

    fn return_to_unprinted(&mut self, most: usize) -> Option<Refusal> {
        self.walker.return_to(Aim::Unprinted(most))
    }

    fn return_to_change(&mut self, name: &[u8]) -> Option<Refusal> {
        self.walker.return_to_change(name)
    }

    fn place_doubted<'p>(&mut self, doubt: Doubt) -> Place<'p> {
        place_of(&mut self.walker, doubt)
    }

    fn follow(&mut self, alloc: A, place: Place<'_>) -> End {
        follow(alloc, &mut self.walker, place)
    }

    fn tell_way(&mut self, alloc: A, place: Place<'_>) -> (Way<A>, End) {
        let (mut way, found) = told_way(alloc, &mut self.walker, place);
        match end_way(&mut self.walker, &mut way, found.end) {
            Ok(()) => (way, end_of(&self.walker, found)),
            Err(AllocError) => (way, End::Untold),
        }
    }

    fn told_count(way: &Way<A>) -> usize {
        way.told_count()
    }

    fn told_into(
        way: &Way<A>,
        number: usize,
        out: &mut Vec<u8, A>,
    ) -> Result<Option<u64>, AllocError> {
        way.told_into(number, out)
    }

    fn left_out(way: &Way<A>) -> usize {
        way.left_out()
    }

    fn follow_in_forms(&mut self, alloc: A, place: Place<'_>) -> (Vec<(u64, usize), A>, End) {
        follow_in_forms(alloc, &mut self.walker, place)
    }
}

// Puts a line at the end of a text.
fn line_into<A: Allocator>(line: &[u8], text: &mut Vec<u8, A>) -> Result<(), AllocError> {
    text.extend_from_slice(line)?;
    Ok(text.push(LINE_FEED)?)
}
