//! Why nothing stands where a byte is wanted: in an empty argument, or in an empty form.

use crate::telling::Telling;
use crate::walks::{End, Walks};
use std::alloc::{AllocError, Allocator};
use trac_follow_step::Place;
use trac_forms::Item;
use trac_person_lines::{Origin, Stop, Treatment};
use trac_sight::{Sight, argument_count, argument_of};

/// How many bytes this argument of the innermost begun function has. `Err`: no function is begun,
/// or it has no such argument.
pub(crate) fn argument_len<A: Allocator + Copy>(
    sight: &Sight<'_, A>,
    argument: u64,
) -> Result<u64, Stop> {
    match &sight.begun {
        None => Err(Stop::Outside),
        Some((_, arguments)) if argument < arguments.count() as u64 => {
            Ok(arguments.get(argument as usize).len() as u64)
        }
        Some(_) => Err(Stop::NoArgument(argument)),
    }
}

impl<W: Walks<A>, A: Allocator + Copy> Telling<'_, W, A> {
    /// Goes back to what left this argument of the innermost begun function empty, and says so: the last call that
    /// stood there, whose value is empty; the gap of a form that a call filled with nothing, with the `ss` that made
    /// it; else the way of the byte after which nothing stands. The error is that memory was refused, here and below.
    pub(crate) fn empty_argument_into(&mut self, argument: usize) -> Result<(), AllocError> {
        let start = self.walker.step();
        match back_into_argument(&mut self.walker, argument) {
            Within::Call => {
                self.tell(Treatment::GivesNothing)?;
                self.why_into()?;
                self.stand_here()
            }
            Within::Beginning(place) => self.unwritten_into(place),
            Within::Unkept => match self.walker.go_to(start) {
                None => self.stay(Stop::NotMet),
                Some(refusal) => self.stay(Stop::Refused(refusal)),
            },
        }
    }

    /// Goes back to the call that emptied the form of this name, and says so.
    pub(crate) fn empty_form_into(&mut self, name: &[u8]) -> Result<(), AllocError> {
        match self.walker.return_to_change(name) {
            None => self.tell_here(Treatment::Empties),
            Some(_) => self.stay(Stop::NotMet),
        }
    }

    // Says where an argument is empty in which nothing stood: after the byte at this place of the active text.
    fn unwritten_into(&mut self, place: usize) -> Result<(), AllocError> {
        let start = self.walker.step();
        if let Some((item, gap)) = to_gap(self.alloc, &mut self.walker, place)? {
            self.tell(Treatment::LeavesGap(u64::from(gap)))?;
            return self.gap_into(item);
        }
        if let Some(refusal) = self.walker.go_to(start) {
            return self.stay(Stop::Refused(refusal));
        }
        self.say(b"it is empty where it was written, after this byte:\n")?;
        self.followed_into(Place::Active(place))
    }

    // Goes back to the call that made the gap which is this item of the form that the call names which comes next.
    fn gap_into(&mut self, item: usize) -> Result<(), AllocError> {
        let name = Vec::from_slice(self.alloc, argument_of(&self.walker.sight(), 1))?;
        let place = Place::Form(name.as_slice(), item);
        let end = self.walker.follow(self.alloc, place);
        is_told(end)?;
        self.tell_here(match end {
            End::Made => Treatment::MakesGap,
            _ => Treatment::Ends(Origin::There),
        })
    }
}

// What is met on the way back in an argument.
enum Within {
    // a call that stood in it
    Call,
    // its beginning, which this byte of the active text makes
    Beginning(usize),
    // the first step that is kept
    Unkept,
}

// Goes back into an argument of the innermost begun function, to the last call that stood there, or to its beginning.
fn back_into_argument<W: Walks<A>, A: Allocator + Copy>(walker: &mut W, argument: usize) -> Within {
    let depth = walker.glance().depth;
    for _ in 0..walker.steps_back() {
        walker.back(1);
        let here = walker.glance();
        if here.depth < depth {
            return Within::Beginning(here.beginning.saturating_sub(1));
        }
        let count = argument_count(walker.machine(), depth.saturating_sub(1));
        if count <= argument {
            return Within::Beginning(0);
        }
        if count == argument.saturating_add(1) && here.performs && here.depth > depth {
            return Within::Call;
        }
    }
    Within::Unkept
}

// Goes to the call that gave the byte at this place of the active text from a form in which a gap follows that was
// filled with nothing. Returns which item the gap is, and its number. None if there is no such call.
fn to_gap<W: Walks<A>, A: Allocator + Copy>(
    alloc: A,
    walker: &mut W,
    place: usize,
) -> Result<Option<(usize, u32)>, AllocError> {
    let start = walker.step();
    let (items, end) = walker.follow_in_forms(alloc, Place::Active(place));
    is_told(end)?;
    for (steps, item) in items.iter() {
        if walker.go_to(start.saturating_sub(*steps)).is_some() {
            return Err(AllocError);
        }
        if let Some(gap) = gap_at(&walker.sight(), item.saturating_add(1)) {
            return Ok(Some((item.saturating_add(1), gap)));
        }
    }
    Ok(None)
}

// The number of the gap that is this item of the form which the call names that comes next, if it is one.
fn gap_at<A: Allocator + Copy>(sight: &Sight<'_, A>, item: usize) -> Option<u32> {
    let (_, arguments) = sight.begun.as_ref()?;
    match sight.store.get(arguments.get(1))?.item(item)? {
        Item::Gap { ordinal, width: _ } => Some(ordinal),
        Item::Byte(_) => None,
    }
}

// That a way was told to its end. The error is that it was not, for want of memory.
fn is_told(end: End) -> Result<(), AllocError> {
    match end {
        End::Untold | End::Memory => Err(AllocError),
        _ => Ok(()),
    }
}
