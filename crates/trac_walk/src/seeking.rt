//! Searches for calls that are told by more than their first words, call by call.

use std::alloc::Allocator;
use trac_dialogue::Wanted;
use trac_forms::Form;
use trac_moves::{Aim, Walker};
use trac_num::{greater, read_tail};
use trac_prims::{Args, primitive_named};
use trac_rules::primitive::{FormAction, Primitive};
use trac_session::Refusal;
use trac_sight::{Sight, performed_in};

/// What a search stops at.
#[derive(Clone, Copy)]
pub(crate) enum Sought<'a> {
    /// One of these calls.
    Calls(&'a [Wanted<'a>]),
    /// A call that changes the form of this name.
    Change(&'a [u8]),
}

/// Goes forward to what is sought, by so many steps at most, until one is refused, which is returned. Returns `NotMet`
/// if the steps were taken.
pub(crate) fn seek_ahead<A: Allocator + Copy>(
    walker: &mut Walker<A>,
    sought: Sought<'_>,
    most: u64,
) -> Option<Refusal> {
    let end = walker.step().saturating_add(most);
    for _ in 0..most {
        let left = end.saturating_sub(walker.step());
        if let Some(refusal) = walker.forward_to(Aim::Call(&[]), left) {
            return Some(refusal);
        }
        if stands_at(walker, sought) {
            return None;
        }
    }
    Some(Refusal::NotMet)
}

/// Goes back to what is sought. Returns `NotMet` if it is not met, and a step forward again that is refused on the way;
/// then it stands somewhere before where it began.
pub(crate) fn seek_back<A: Allocator + Copy>(
    walker: &mut Walker<A>,
    sought: Sought<'_>,
) -> Option<Refusal> {
    for _ in 0..walker.steps_back() {
        if let Some(refusal) = walker.return_to(Aim::Call(&[])) {
            return Some(refusal);
        }
        if stands_at(walker, sought) {
            return None;
        }
    }
    Some(Refusal::NotMet)
}

// Whether the call that comes next is sought.
fn stands_at<A: Allocator + Copy>(walker: &mut Walker<A>, sought: Sought<'_>) -> bool {
    match sought {
        Sought::Calls(wanted) => performs_wanted(&walker.sight(), wanted),
        Sought::Change(name) => may_change(&walker.sight(), name) && changes(walker, name),
    }
}

// Whether the call that comes next is wanted.
fn performs_wanted<A: Allocator + Copy>(sight: &Sight<'_, A>, wanted: &[Wanted<'_>]) -> bool {
    match performed_in(sight) {
        Some(arguments) => is_wanted(wanted, arguments),
        None => false,
    }
}

// Whether a call with these arguments is wanted.
fn is_wanted(wanted: &[Wanted<'_>], arguments: &Args<'_>) -> bool {
    let mut number = 0_usize;
    let mut fits = true;
    for part in wanted {
        match *part {
            Wanted::Or => {
                if fits && number > 0 {
                    return true;
                }
                fits = true;
                number = 0;
            }
            part => {
                fits = fits && number < arguments.count() && suits(part, arguments.get(number));
                number = number.saturating_add(1);
            }
        }
    }
    fits && number > 0
}

// Whether an argument is as it is wanted.
fn suits(wanted: Wanted<'_>, argument: &[u8]) -> bool {
    let number = read_tail(argument).numeral;
    match wanted {
        Wanted::Any => true,
        Wanted::Text(text) => text == argument,
        Wanted::Greater(least) => !number.is_empty() && greater(number, read_tail(least).numeral),
        Wanted::Less(most) => !number.is_empty() && greater(read_tail(most).numeral, number),
        Wanted::Or => false,
    }
}

// Whether the call that comes next may change the form of this name.
fn may_change<A: Allocator + Copy>(sight: &Sight<'_, A>, name: &[u8]) -> bool {
    let Some(arguments) = performed_in(sight) else {
        return false;
    };
    match primitive_named(arguments.get(0)) {
        Primitive::HandleBlock(_) | Primitive::Handle(FormAction::DeleteAll) => true,
        Primitive::Handle(_) => (1..arguments.count()).any(|number| arguments.get(number) == name),
        _ => false,
    }
}

// Whether it does. For that it is performed, and gone back over. If there is no memory for a copy of the form, it is
// taken for one that does.
fn changes<A: Allocator + Copy>(walker: &mut Walker<A>, name: &[u8]) -> bool {
    let copy = walker.sight().store.get(name).map(|form| form.copy());
    let Ok(before) = copy.transpose() else {
        return true;
    };
    if walker.forward(1).is_some() {
        return false;
    }
    let is_same = are_same(before.as_ref(), walker.sight().store.get(name));
    let _ = walker.back(1);
    !is_same
}

// Whether two forms have the same items and the same pointer, or there are none.
fn are_same<A: Allocator + Copy>(one: Option<&Form<A>>, other: Option<&Form<A>>) -> bool {
    match (one, other) {
        (None, None) => true,
        (Some(one), Some(other)) => {
            one.pointer() == other.pointer()
                && one.len() == other.len()
                && (0..one.len()).all(|place| one.item(place) == other.item(place))
        }
        _ => false,
    }
}
