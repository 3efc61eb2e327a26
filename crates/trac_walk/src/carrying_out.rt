//! Moves, carried out.
ghost use Rattle.trac_walk.specs.Stops.{IsAsToldOf};

use crate::seeking::{Sought, seek_ahead, seek_back};
use std::alloc::Allocator;
use trac_dialogue::Move;
use trac_moves::{Aim, Search, Walker};
use trac_person_lines::{SEARCH_LIMIT, Stop};
use trac_replies::{printed, printed_text};
use trac_session::Refusal;

/// Carries out a move, and says why it stopped before its goal, if it did. It takes no memory but for steps, and for a
/// copy of the form of which the last change is looked for.
///
/// A search forward goes on after so many steps on which it has met nothing.
pub(crate) fn carry_out<A: Allocator + Copy>(
    walker: &mut Walker<A>,
    way: Move<'_>,
    searched: u64,
) -> Option<Stop> {
    match way {
        Move::Forward(steps) => stop_ahead(walker.forward(steps)),
        Move::Back(steps) => stop_back(walker.back(steps)),
        Move::ToEnd => to_end(walker),
        Move::ToStart => to_start(walker),
        Move::ToEndOr(calls) => to_end_or(walker, Sought::Calls(calls.wanted)),
        Move::ToStartOr(calls) => to_start_or(walker, Sought::Calls(calls.wanted)),
        Move::To(step) => stop_back(walker.go_to(step)),
        Move::Over => over(walker),
        Move::OverBack => over_back(walker),
        Move::Out => out(walker),
        Move::OutBack => out_back(walker),
        Move::Until(calls) if calls.is_plain() => until(walker, call_aim(calls.texts), searched),
        Move::Until(calls) => seek(walker, Sought::Calls(calls.wanted), searched),
        Move::UntilSet(name) => seek(walker, Sought::Change(name), searched),
        Move::Return(calls) if calls.is_plain() => {
            stop_back(walker.return_to(call_aim(calls.texts)))
        }
        Move::Return(calls) => seek_return(walker, Sought::Calls(calls.wanted)),
        Move::Changed(name) => to_change(walker, name),
        Move::Printed(number) => {
            to_unprinted(printed(walker.released(), walker.pending(), number), walker)
        }
        Move::PrintedText(text) => {
            to_unprinted(
                printed_text(walker.released(), walker.pending(), text),
                walker,
            )
        }
        Move::ToDoubt => until(walker, Aim::Doubtful(walker.width()), searched),
        Move::BackToDoubt => stop_back(walker.return_to(Aim::Doubtful(walker.width()))),
    }
}

// Why a walk forward stopped that has no goal.
fn stop_ahead(why: Option<Refusal>) -> Option<Stop> {
    Some(Stop::Refused(why?))
}

// Why a walk forward to the end of a call stopped, or over what is left of its value.
fn stop_before_end(why: Option<Refusal>) -> Option<Stop> {
    match why? {
        Refusal::NotMet => Some(Stop::Unended),
        refusal => Some(Stop::Refused(refusal)),
    }
}

// Why a walk back stopped.
fn stop_back(why: Option<Refusal>) -> Option<Stop> {
    match why? {
        Refusal::NotMet => Some(Stop::NotMet),
        Refusal::AtStart => Some(Stop::AtFirst),
        refusal => Some(Stop::Refused(refusal)),
    }
}

// Forward until a step is refused, by as many steps at most as a search takes.
fn to_end<A: Allocator + Copy>(walker: &mut Walker<A>) -> Option<Stop> {
    match walker.forward(SEARCH_LIMIT) {
        None => Some(Stop::Going),
        refused => stop_ahead(refused),
    }
}

// Back to the first step that is kept. If that is not the start of the program, it says so.
fn to_start<A: Allocator + Copy>(walker: &mut Walker<A>) -> Option<Stop> {
    let stopped = stop_back(walker.back(u64::MAX));
    if walker.first_step() == 0 {
        return None;
    }
    stopped
}

// Forward to a goal, after so many steps on which it was not met. If it is not met before a step is refused, or by the
// steps of a search, the walker stays as it was.
fn until<A: Allocator + Copy>(walker: &mut Walker<A>, aim: Aim<'_>, searched: u64) -> Option<Stop>
    ensures { IsAsToldOf result walker.old.window walker.new.window }
{
    let start = walker.step();
    let found = match searched {
        0 => walker.search(aim, SEARCH_LIMIT),
        done => walker.search_far(aim, done, done.saturating_add(SEARCH_LIMIT)),
    };
    match found {
        Search::Met => {
            walker.forget_surplus();
            None
        }
        Search::Unmet(Refusal::NotMet, done) => Some(Stop::SpentUpTo(start.saturating_add(done))),
        Search::Unmet(refusal, 0) => Some(Stop::Unmet(refusal)),
        Search::Unmet(refusal, done) => {
            Some(Stop::UnmetUpTo(refusal, start.saturating_add(done)))
        }
    }
}

// Forward to what is sought, after so many steps on which it was not met. If it is not met before a step is refused, or
// by the steps of a search, the walker goes back to where it was, or as far as steps are kept.
fn seek<A: Allocator + Copy>(
    walker: &mut Walker<A>,
    sought: Sought<'_>,
    searched: u64,
) -> Option<Stop> {
    let start = walker.step();
    let found = match walker.forward(searched) {
        None => seek_ahead(walker, sought, SEARCH_LIMIT),
        refused => refused,
    };
    let why = found?;
    let reached = walker.step();
    let _ = walker.back(reached.saturating_sub(start));
    Some(match why {
        Refusal::NotMet => Stop::SpentUpTo(reached),
        refusal if reached == start => Stop::Unmet(refusal),
        refusal => Stop::UnmetUpTo(refusal, reached),
    })
}

// Back to what is sought, and forward again if it is not met.
fn seek_return<A: Allocator + Copy>(walker: &mut Walker<A>, sought: Sought<'_>) -> Option<Stop> {
    let start = walker.step();
    match seek_back(walker, sought) {
        Some(Refusal::NotMet) => match walker.go_to(start) {
            None => Some(Stop::NotMet),
            refused => stop_ahead(refused),
        },
        found => stop_back(found),
    }
}

// Forward until a step is refused, by as many steps at most as a search takes, or to what is sought.
fn to_end_or<A: Allocator + Copy>(walker: &mut Walker<A>, sought: Sought<'_>) -> Option<Stop> {
    match seek_ahead(walker, sought, SEARCH_LIMIT) {
        Some(Refusal::NotMet) => Some(Stop::Going),
        found => stop_ahead(found),
    }
}

// Back to what is sought, or to the first step that is kept.
fn to_start_or<A: Allocator + Copy>(walker: &mut Walker<A>, sought: Sought<'_>) -> Option<Stop> {
    match seek_back(walker, sought) {
        None => None,
        Some(_) => to_start(walker),
    }
}

// What a walk to a call looks for.
fn call_aim<'a>(call: &'a [&'a [u8]]) -> Aim<'a> {
    if call.is_empty() {
        Aim::OwnCall
    } else {
        Aim::Call(call)
    }
}

// Back to the call that changed the form of this name last.
fn to_change<A: Allocator + Copy>(walker: &mut Walker<A>, name: &[u8]) -> Option<Stop> {
    let stopped = stop_back(walker.return_to_change(name));
    if matches!(stopped, Some(Stop::NotMet)) && walker.sight().store.get(name).is_none() {
        return Some(Stop::NoForm);
    }
    stopped
}

// Over the function that begins or is performed next: until its value is scanned too.
fn over<A: Allocator + Copy>(walker: &mut Walker<A>) -> Option<Stop> {
    if let Some(stop) = to_function(walker) {
        return Some(stop);
    }
    let here = walker.glance();
    if here.beginning > 0 {
        let inside = here.depth.saturating_add(1);
        let ended = stop_before_end(walker.forward_to(Aim::End(inside), SEARCH_LIMIT));
        if ended.is_some() {
            return ended;
        }
    }
    over_call(walker)
}

// Forward until a function begins or is performed next; that may be so already.
fn to_function<A: Allocator + Copy>(walker: &mut Walker<A>) -> Option<Stop> {
    for _ in 0..SEARCH_LIMIT {
        let here = walker.glance();
        if here.performs || here.beginning > 0 {
            return None;
        }
        let stopped = stop_ahead(walker.forward(1));
        if stopped.is_some() {
            return stopped;
        }
    }
    Some(Stop::Spent)
}

// Over the call that is performed next, and its value.
fn over_call<A: Allocator + Copy>(walker: &mut Walker<A>) -> Option<Stop> {
    let rest = walker.glance().rest.saturating_sub(1);
    let stopped = stop_ahead(walker.forward(1));
    if stopped.is_some() || walker.glance().rest <= rest {
        return stopped;
    }
    stop_before_end(walker.forward_to(Aim::Rest(rest), SEARCH_LIMIT))
}

// Back to where the function began whose value ends here, the way over it back; forward again if there is none.
fn over_back<A: Allocator + Copy>(walker: &mut Walker<A>) -> Option<Stop> {
    let here = walker.step();
    let stopped = to_beginning(walker, here)?;
    match stop_ahead(walker.forward(here.saturating_sub(walker.step()))) {
        None => Some(stopped),
        refused => refused,
    }
}

// Back to the beginning of a function whose value ends at this step, that of the earliest if there are several. What is
// left to scan here was left after the `)` that ended it, and until here no less was left. If none is met, that holds
// only since the first step that is kept.
fn to_beginning<A: Allocator + Copy>(walker: &mut Walker<A>, here: u64) -> Option<Stop> {
    let rest = walker.glance().rest;
    let unmet = match walker.return_to(Aim::Rest(rest)) {
        None => Stop::NoValue,
        Some(Refusal::NotMet) => {
            let _ = walker.back(u64::MAX);
            match walker.first_step() {
                0 => Stop::NoValue,
                _ => Stop::NoValueSince,
            }
        }
        Some(refusal) => return Some(Stop::Refused(refusal)),
    };
    for _ in walker.step()..here {
        let now = walker.glance();
        // A call takes its `)`, so after it one byte less is left.
        if now.performs && now.rest.saturating_sub(1) == rest {
            return stop_back(walker.return_to(Aim::Shallower(now.depth)));
        }
        let stopped = stop_ahead(walker.forward(1));
        if stopped.is_some() {
            return stopped;
        }
    }
    Some(unmet)
}

// To the end of the innermost begun function; from there to that of the one around it.
fn out<A: Allocator + Copy>(walker: &mut Walker<A>) -> Option<Stop> {
    let here = walker.glance();
    if here.depth == 0 {
        return Some(Stop::Outside);
    }
    let inside = here.depth - usize::from(here.performs);
    if inside == 0 {
        return Some(Stop::Outermost);
    }
    stop_before_end(walker.forward_to(Aim::End(inside), SEARCH_LIMIT))
}

// To the beginning of the innermost begun function.
fn out_back<A: Allocator + Copy>(walker: &mut Walker<A>) -> Option<Stop> {
    let inside = walker.glance().depth;
    if inside == 0 {
        return Some(Stop::Outside);
    }
    stop_back(walker.return_to(Aim::Shallower(inside)))
}

// Back to where the byte at this place of the output was not printed yet.
fn to_unprinted<A: Allocator + Copy>(
    place: Result<usize, Stop>,
    walker: &mut Walker<A>,
) -> Option<Stop> {
    match place {
        Ok(place) => stop_back(walker.return_to(Aim::Unprinted(place))),
        Err(stop) => Some(stop),
    }
}
