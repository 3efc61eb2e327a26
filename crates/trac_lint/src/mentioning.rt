//! Where a program names its forms, found by running it and following the names back.

use crate::linting::Settings;
use crate::origins::Origins;
use crate::scout::Run;
use std::alloc::{AllocError, Allocator, Global};
use trac_follow::Place;
use trac_forms::Form;
use trac_mentions::{KnownForm, Mention, Mentions, Role};
use trac_moves::{Aim, Walker};
use trac_places::Sources;
use trac_prims::primitive_named;
use trac_rules::item::Item;
use trac_rules::primitive::{BlockAction, FormAction, Primitive};
use trac_rules::refusal::Refusal;
use trac_sight::performed_in;

// So many names are told at most.
const MOST: usize = 10_000;

// Longer names are not followed.
const NAME_LIMIT: usize = 256;

// So many arguments of a call are looked at for names.
const ARGUMENT_LIMIT: usize = 100;

// A name is followed so often in one role at most without finding a new place for it.
const MISSES: u32 = 16;

// So many bytes of a form's text are shown, and so many of a word that is cut out.
const TEXT_LIMIT: usize = 2_000;

// A name that was followed, and what became of that.
#[derive(Drop)]
struct Followed {
    name: Vec<u8>,
    role: Role,
    // how often it stands in the file
    written: usize,
    // at how many places of the file it was found
    found: usize,
    // how often no new place was found
    misses: u32,
}

// A program that is run, and what was found.
#[derive(Drop)]
struct Namer<'s, A: Allocator + Copy> {
    alloc: A,
    made: Global,
    origins: Origins<'s, A>,
    walker: Walker<A>,
    followed: Vec<Followed>,
    told: Mentions,
}

/// Runs a program as these settings say, follows the names of forms in its calls back, over so many steps in all at
/// most, and tells where they come from. If memory is refused, it tells what was found so far.
pub fn mentions<A: Allocator + Copy>(
    alloc: A,
    made: Global,
    tape: &[u8],
    settings: Settings,
    ways: u64,
) -> Mentions {
    let sources = Sources {
        name: b"",
        input_name: b"",
        tape,
        len: tape.len(),
    };
    let run = Run {
        sources,
        keep: settings.keep,
        width: settings.decimals,
    };
    let mut told = Mentions::none(made);
    let Ok(walker) = run.walker(alloc) else {
        told.is_cut = true;
        return told;
    };
    let mut namer = Namer {
        alloc,
        made,
        origins: Origins::within(alloc, run, ways),
        walker,
        followed: Vec::new(made),
        told,
    };
    let is_whole = namer.go(settings.steps).is_ok() && namer.tell_forms().is_ok();
    let Namer {
        alloc: _,
        made: _,
        origins: _,
        walker: _,
        followed: _,
        mut told,
    } = namer;
    told.is_cut = told.is_cut || !is_whole;
    told
}

impl<'s, A: Allocator + Copy> Namer<'s, A> {
    // Runs the program on, by so many steps at most. If it goes on after them, names may be missing.
    fn go(&mut self, steps: u64) -> Result<(), Refusal> {
        // Each turn takes a step at least.
        for _ in 0..steps {
            let left = steps.saturating_sub(self.walker.step());
            match self.walker.forward_to(Aim::OwnCall, left) {
                None => {}
                Some(Refusal::Memory) => return Err(Refusal::Memory),
                Some(refusal) => {
                    self.told.is_cut = matches!(refusal, Refusal::NotMet | Refusal::TooLong);
                    break;
                }
            }
            self.look()?;
        }
        Ok(())
    }

    // Looks at the call that comes next.
    fn look(&mut self) -> Result<(), Refusal> {
        let Some((primitive, count)) = performed(&self.walker) else {
            return Ok(());
        };
        let Some(role) = role_of(primitive) else {
            return Ok(());
        };
        self.name(role, 1)?;
        let others = match primitive {
            Primitive::Handle(FormAction::Delete)
            | Primitive::HandleBlock(BlockAction::StoreBlock) => count.min(ARGUMENT_LIMIT),
            _ => 0,
        };
        for argument in 2..others {
            self.name(Role::Uses, argument)?;
        }
        Ok(())
    }

    // Follows the name that is this argument of the call that comes next, if that may tell something new.
    fn name(&mut self, role: Role, argument: usize) -> Result<(), Refusal> {
        let name = self.walker.argument(self.alloc, argument)?;
        if name.is_empty() || name.len() > NAME_LIMIT {
            return Ok(());
        }
        let Some(number) = self.number_of(role, name.as_slice())? else {
            return Ok(());
        };
        if self.told.mentions.len() >= MOST {
            self.told.is_cut = true;
            return Ok(());
        }
        let Some((place, is_written)) = self.place_of(argument, name.as_slice())? else {
            self.told.is_cut = true;
            return Ok(());
        };
        let is_new = self.is_new(role, name.as_slice(), place);
        if let Some(followed) = self.followed.get_mut(number) {
            if is_new {
                followed.found = followed.found.saturating_add(1);
            } else {
                followed.misses = followed.misses.saturating_add(1);
            }
        }
        if is_new {
            self.tell(role, name.as_slice(), (place, is_written))?;
        }
        Ok(())
    }

    // The number of a name in this role among those that were followed, if it is to be followed again.
    fn number_of(&mut self, role: Role, name: &[u8]) -> Result<Option<usize>, AllocError> {
        let known = self.followed.iter().position(|followed| followed.role == role
            && followed.name.as_slice() == name);
        if let Some(number) = known {
            let goes_on = self.followed.get(number).is_some_and(goes_on);
            return Ok(goes_on.then_some(number));
        }
        if self.followed.len() >= MOST {
            self.told.is_cut = true;
            return Ok(None);
        }
        let number = self.followed.len();
        self.followed.push(Followed {
            name: Vec::from_slice(self.made, name)?,
            role,
            written: count_of(self.origins.sources.tape, name),
            found: 0,
            misses: 0,
        })?;
        Ok(Some(number))
    }

    // The byte of the file from which the first byte of this argument comes; whether the whole name stands there. None
    // if that is not known.
    fn place_of(&mut self, argument: usize, name: &[u8]) -> Result<Option<(usize, bool)>, Refusal> {
        let last = name.len().saturating_sub(1);
        let Some(first_place) = self.byte_of(argument, 0)? else {
            return Ok(None);
        };
        let tape = self.origins.sources.tape;
        let (_, rest) = tape.split_at(first_place.min(tape.len()));
        if !rest.starts_with(name) {
            return Ok(Some((first_place, false)));
        }
        let last_place = match last {
            0 => Some(first_place),
            last => self.byte_of(argument, last)?,
        };
        let is_written = last_place == Some(first_place.saturating_add(last));
        Ok(Some((first_place, is_written)))
    }

    // The byte of the file that this byte of an argument comes from; none if that is not known.
    fn byte_of(&mut self, argument: usize, byte: usize) -> Result<Option<usize>, Refusal> {
        if self.origins.is_spent() {
            return Ok(None);
        }
        let end = self.walker.step();
        let place = Place::Argument {
            function: self.walker.glance().depth.saturating_sub(1),
            argument,
            byte,
        };
        let number = self.origins.number_at(&mut self.walker, place, end)?;
        Ok(number.map(|number| number as usize))
    }

    // Whether a name was not found at this place in this role before.
    fn is_new(&self, role: Role, name: &[u8], place: usize) -> bool {
        self.told.mentions.iter().all(|mention| {
            mention.place != place || mention.role != role || mention.name.as_slice() != name
        })
    }

    // Tells of a name.
    fn tell(
        &mut self,
        role: Role,
        name: &[u8],
        (place, is_written): (usize, bool),
    ) -> Result<(), AllocError> {
        let words = match role {
            Role::Cuts => words_of(self.made, &self.walker)?,
            Role::Defines | Role::Uses => Vec::new(self.made),
        };
        self.told.mentions.push(Mention {
            name: Vec::from_slice(self.made, name)?,
            role,
            place,
            is_written,
            words,
        })?;
        Ok(())
    }

    // Tells of the forms that there are.
    fn tell_forms(&mut self) -> Result<(), AllocError> {
        let (forms, is_cut) = forms_of(self.made, &self.walker)?;
        self.told.forms = forms;
        self.told.is_cut = self.told.is_cut || is_cut;
        Ok(())
    }
}

// The texts that the call which comes next cuts out of a form.
fn words_of<A: Allocator + Copy>(
    made: Global,
    walker: &Walker<A>,
) -> Result<Vec<Vec<u8>>, AllocError> {
    let mut words = Vec::new(made);
    let sight = walker.sight();
    if let Some(arguments) = performed_in(&sight) {
        for argument in 2..arguments.count().min(ARGUMENT_LIMIT) {
            let word = front(arguments.get(argument), TEXT_LIMIT);
            words.push(Vec::from_slice(made, word)?)?;
        }
    }
    Ok(words)
}

// The forms that there are, and whether there are more than are told.
fn forms_of<A: Allocator + Copy>(
    made: Global,
    walker: &Walker<A>,
) -> Result<(Vec<KnownForm>, bool), AllocError> {
    let mut forms = Vec::new(made);
    let sight = walker.sight();
    let Ok(names) = sight.store.names() else {
        return Err(AllocError);
    };
    for name in names.iter() {
        if forms.len() >= MOST {
            return Ok((forms, true));
        }
        if let Some(form) = sight.store.get(*name) {
            forms.push(known_of(made, *name, form)?)?;
        }
    }
    Ok((forms, false))
}

// What is told of the form of this name.
fn known_of<A: Allocator + Copy>(
    made: Global,
    name: &[u8],
    form: &Form<A>,
) -> Result<KnownForm, AllocError> {
    let mut known = KnownForm {
        name: Vec::from_slice(made, name)?,
        text: Vec::new(made),
        is_cut: form.len() > TEXT_LIMIT,
        gaps: 0,
    };
    for number in 0..form.len().min(TEXT_LIMIT) {
        if let Some(item) = form.item(number) {
            show(item, &mut known)?;
        }
    }
    Ok(known)
}

// Shows an item of a form at the end of its text.
fn show(item: Item, known: &mut KnownForm) -> Result<(), AllocError> {
    match item {
        Item::Byte(byte) => Ok(known.text.push(byte)?),
        Item::Gap { ordinal, .. } => {
            known.gaps = known.gaps.max(u64::from(ordinal));
            known.text.push(b'<')?;
            trac_streams::number_into(u64::from(ordinal), &mut known.text)?;
            Ok(known.text.push(b'>')?)
        }
    }
}

// Whether a name is to be followed again.
fn goes_on(followed: &Followed) -> bool {
    let all_found = followed.written > 0 && followed.found >= followed.written;
    followed.misses < MISSES && !all_found
}

// The primitive that the next step performs, and how many arguments it has, its name among them.
fn performed<A: Allocator + Copy>(walker: &Walker<A>) -> Option<(Primitive, usize)> {
    let sight = walker.sight();
    let arguments = performed_in(&sight)?;
    Some((primitive_named(arguments.get(0)), arguments.count()))
}

// What a primitive does with the form that its argument 1 names; none, if that names none.
fn role_of(primitive: Primitive) -> Option<Role> {
    match primitive {
        Primitive::Handle(FormAction::Define) | Primitive::HandleBlock(BlockAction::StoreBlock) =>
            Some(Role::Defines),
        Primitive::Handle(FormAction::Segment) => Some(Role::Cuts),
        Primitive::Handle(FormAction::DeleteAll | FormAction::ListNames) => None,
        Primitive::Handle(_) | Primitive::HandleBlock(_) => Some(Role::Uses),
        _ => None,
    }
}

// How often a name stands in a text.
fn count_of(text: &[u8], name: &[u8]) -> usize {
    let mut count = 0_usize;
    for place in 0..text.len() {
        if text.split_at(place).1.starts_with(name) {
            count = count.saturating_add(1);
        }
    }
    count
}

// The first bytes of a text, so many of them.
fn front(text: &[u8], len: usize) -> &[u8] {
    text.split_at(len.min(text.len())).0
}
