//! Searches forward that stay where they began unless they meet something.
ghost use Rattle.std.specs.Prelude.{◌≡◌, ℕ, ◌+◌, ◌-◌, ◌<◌, ◌≤◌, None, Some, min, true};
ghost use Rattle.trac_rules.specs.declared.refusal.Refusal.TheVariants.{NotMet};
ghost use Rattle.trac_rules.specs.declared.width.Width.{Width};
ghost use Rattle.trac_rules.specs.Session.{Step, repeated};
ghost use Rattle.trac_rules.specs.State.{Tape};
ghost use Rattle.trac_rules.specs.Weights.{weights_from};
ghost use Rattle.trac_moves.specs.Aims.{goal_of_aim};
ghost use Rattle.trac_session.specs.Within.{IsSearchWithin};
ghost use Rattle.trac_moves.specs.Searches.{HasGone, HasStayed, IsAsNear, IsReason, found_by, is_unmet, near_weight};
ghost use Rattle.trac_moves.specs.Walkers.{IsBeyond, IsSearched, Moves, Stands};
ghost use Rattle.trac_moves.specs.Windows.{IsOver};

use crate::aim::{Aim, goal_for};
use crate::walker::Walker;
use crate::window::Window;
use std::alloc::Allocator;
use std::mem;
use trac_session::{Refusal, Session, Walk};
use trac_sight::lacks_output_room;

// A search over more steps than are kept may add so much to the weight of the records before the program is run anew:
// what they take is new memory, and soon costs more than that run.
const NEAR_WEIGHT: u64 = 32_768;

// How far a search goes before the program is run anew.
#[derive(Clone, Copy)]
struct Room {
    // how many steps are kept
    steps: u64,
    // how much the records may weigh over so many
    weight: u64,
    // how much they may weigh over more
    light: u64,
    ghost lighter: { light ≤ weight },
}

// A part of a search: so many steps at most, while the records weigh no more than this.
#[derive(Clone, Copy)]
struct Leg {
    most: u64,
    weight: u64,
}

impl Room {
    // How a search by so many steps at most goes on after so many. If some of the steps that are kept are left, it goes
    // over those, and their records may weigh more. Else it goes over all that are left.
    fn second_leg(self, done: u64, most: u64) -> Leg
        requires { done ≤ most }
        ensures kept { done < min most self.steps →
            (result.most ≡ min most self.steps - done) × (result.weight ≡ self.weight) }
        ensures others { min most self.steps ≤ done → (result.most ≡ most - done) × (result.weight ≡ self.light) }
    {
        let kept = most.min(self.steps);
        if done < kept {
            Leg {
                most: kept - done,
                weight: self.weight,
            }
        } else {
            Leg {
                most: most - done,
                weight: self.light,
            }
        }
    }
}

/// How a search forward ended.
#[derive(Clone, Copy)]
pub enum Search {
    /// It stands at what was looked for.
    Met,
    /// A step was refused so, after so many steps on which nothing was met; `NotMet` if all its steps were taken. It
    /// stands where it began.
    Unmet(Refusal, u64),
}

impl<A: Allocator + Copy> Walker<A> {
    /// Goes forward to a goal, by so many steps at most. If it is not met, or a step is refused before, also for
    /// memory, all that is kept is as it was. The walker runs the program anew from its start, beside it, to go further
    /// than 1,048,576 steps from the first one that is kept, or over records that weigh more than it may keep. It does
    /// so too after as many steps as it keeps, if the records weigh 32,768 more than at first.
    pub fn search(&mut self, aim: Aim<'_>, most: u64) -> Search
        ensures moved { Moves (IsSearched result 0 most) self.old self.new }
        ensures stayed { HasStayed result self.old.window self.new.window }
        ensures met { result ≡ Search.Met → goal_of_aim aim.entry self.new.window.session.last ≡ true }
        ensures near { weights_from self.old.window.session.earlier ≤ self.old.weight → IsAsNear
            (near_weight self.old.weight self.old.window.session) (goal_of_aim aim.entry) most most
            self.old.window.session result self.new.window.session }
        ensures kept { weights_from self.old.window.session.earlier ≤ self.old.weight → IsAsNear
            self.old.weight (goal_of_aim aim.entry) (min most self.old.limit) most
            self.old.window.session result self.new.window.session }
    {
        let now = self.window.session.weight();
        let room = Room {
            steps: self.limit as u64,
            weight: self.weight,
            light: self.weight.min(now.saturating_add(NEAR_WEIGHT)),
        };
        match search_near(&mut self.window.session, aim, most, room) {
            Search::Met => Search::Met,
            Search::Unmet(Refusal::JournalFull, done) => self.search_far(aim, done, most),
            Search::Unmet(refusal, done) => Search::Unmet(refusal, done),
        }
    }

    /// The same after so many steps on which nothing was met, in a run of the program anew. What that keeps takes the
    /// place of what was kept if it meets the goal.
    pub fn search_far(&mut self, aim: Aim<'_>, done: u64, most: u64) -> Search
        ensures moved { Moves (IsSearched result done most) self.old self.new }
        ensures stayed { HasStayed result self.old.window self.new.window }
        ensures met { result ≡ Search.Met → goal_of_aim aim.entry self.new.window.session.last ≡ true }
    {
        match self.window_anew() {
            Ok(mut window) => self.search_in(&mut window, aim, done, most),
            Err(refusal) => Search::Unmet(refusal, done),
        }
    }

    // The same in this window, which is at the start of the program. The window that does not stay is left there.
    fn search_in(&mut self, window: &mut Window<A>, aim: Aim<'_>, done: u64, most: u64) -> Search
        ensures moved { (input : Tape) (width : Width) (steps : ℕ) → Stands input width steps self.old →
            IsOver input width 0 window.old →
            (after : ℕ) × IsSearched result done most steps after × Stands input width after self.new }
        ensures stayed { HasStayed result self.old.window self.new.window }
        ensures met { result ≡ Search.Met → goal_of_aim aim.entry self.new.window.session.last ≡ true }
    {
        let (start, reason) = (self.step(), self.reason);
        mem::swap(&mut self.window, window);
        let found = self.search_from(start, aim, done, most);
        if let Search::Unmet(_, _) = found {
            mem::swap(&mut self.window, window);
            self.reason = reason;
        }
        found
    }

    // Goes forward from the start to this step and so many further, and from there to a goal.
    fn search_from(&mut self, start: u64, aim: Aim<'_>, done: u64, most: u64) -> Search
        ensures moved { Moves (λ before after. result ≡ Search.Met →
            IsBeyond (start + done) (start + most) before after) self.old self.new }
        ensures met { result ≡ Search.Met → goal_of_aim aim.entry self.new.window.session.last ≡ true }
    {
        if let Some(refusal) = self.forward(start.saturating_add(done)) {
            return Search::Unmet(refusal, done);
        }
        match self.forward_to(aim, most.saturating_sub(done)) {
            None => Search::Met,
            Some(refusal) => Search::Unmet(refusal, self.step().saturating_sub(start)),
        }
    }
}

// Goes forward to a goal, by so many steps at most, as far as there is room for their records: `JournalFull` if there
// is no more.
#[tactic(auto, using(crate::proofs::SteppedBack::came_back))]
fn search_near<A: Allocator + Copy>(
    session: &mut Session<A>,
    aim: Aim<'_>,
    most: u64,
    room: Room,
) -> Search
    ensures gone { HasGone result most session.old session.new }
    ensures stayed { HasStayed result session.old session.new }
    ensures met { result ≡ Search.Met → goal_of_aim aim.entry session.new.last ≡ true }
    ensures near { weights_from session.old.earlier ≤ room.light →
        IsAsNear room.light (goal_of_aim aim.entry) most most session.old result session.new }
    ensures kept { weights_from session.old.earlier ≤ room.light →
        IsAsNear room.weight (goal_of_aim aim.entry) (min most room.steps) most session.old result session.new }
{
    let walk = walk_near(session, aim, most, room);
    let Some(refusal) = walk.why else {
        return Search::Met;
    };
    session.back(walk.done);
    Search::Unmet(refusal, walk.done)
}

// The same, and stays where it has come to: `NotMet` after all the steps.
fn walk_near<A: Allocator + Copy>(
    session: &mut Session<A>,
    aim: Aim<'_>,
    most: u64,
    room: Room,
) -> Walk
    ensures within { result.done ≤ most }
    ensures walked { repeated Step result.done session.old ≡ Some session.new }
    ensures met { result.why ≡ None → goal_of_aim aim.entry session.new.last ≡ true }
    ensures near { weights_from session.old.earlier ≤ room.light → IsAsNear room.light
        (goal_of_aim aim.entry) most most session.old (found_by result.done result.why) session.new }
    ensures kept { weights_from session.old.earlier ≤ room.light → IsAsNear room.weight
        (goal_of_aim aim.entry) (min most room.steps) most session.old (found_by result.done result.why) session.new }
{
    // While the records weigh little, there is no difference between the steps that are kept and others.
    let leg = Leg {
        most: most.min(room.steps),
        weight: room.light,
    };
    let first = walk_leg(session, aim, leg);
    if has_met_nothing(first) {
        let leg = room.second_leg(first.done, most);
        let second = walk_leg(session, aim, leg);
        let done = first.done + second.done;
        Walk {
            done,
            why: full_for(session, done, second.why, most),
        }
    } else {
        Walk {
            done: first.done,
            why: full_for(session, first.done, first.why, most),
        }
    }
}

// Whether a walk towards a goal met nothing, and no step of it was refused.
fn has_met_nothing(walk: Walk) -> bool
    ensures { result ≡ is_unmet walk.why }
{
    matches!(walk.why, Some(Refusal::NotMet))
}

// Goes forward to a goal over one leg: `NotMet` if it meets nothing there.
fn walk_leg<A: Allocator + Copy>(session: &mut Session<A>, aim: Aim<'_>, leg: Leg) -> Walk
    ensures within { result.done ≤ leg.most }
    ensures walked { repeated Step result.done session.old ≡ Some session.new }
    ensures met { result.why ≡ None → goal_of_aim aim.entry session.new.last ≡ true }
    ensures light { weights_from session.old.earlier ≤ leg.weight → IsSearchWithin leg.weight
        (goal_of_aim aim.entry) leg.most session.old result.done result.why session.new }
    ensures heavy { leg.weight < weights_from session.old.earlier →
        (result.done ≡ 0) × (result.why ≡ Some NotMet) × (session.new ≡ session.old) }
{
    if session.weight() > leg.weight {
        return Walk {
            done: 0,
            why: Some(Refusal::NotMet),
        };
    }
    session.forward_to_within(goal_for(aim), leg.most, leg.weight)
}

// Why a walk towards a goal ended. If its records weigh too much before so many steps, or what is printed next has no
// room beside what is kept, there is no room for the next step.
fn full_for<A: Allocator + Copy>(
    session: &Session<A>,
    done: u64,
    why: Option<Refusal>,
    most: u64,
) -> Option<Refusal>
    ensures { IsReason done most why result }
{
    match why {
        Some(Refusal::NotMet) if done < most => Some(Refusal::JournalFull),
        Some(Refusal::TooLong) if session.len() > 0 && lacks_output_room(session.machine()) => {
            Some(Refusal::JournalFull)
        }
        why => why,
    }
}
