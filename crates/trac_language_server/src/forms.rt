//! Forms, as a run tells of them.

use crate::calls::between;
use crate::pairs::{argument_around, pairs_of};
use std::alloc::{AllocError, Global};
use trac_mentions::{Mention, Mentions, Role};

/// The name of a form, and from where to where it stands in a text.
#[derive(Clone, Copy)]
pub(crate) struct Named<'t> {
    /// The name.
    pub name: &'t [u8],
    /// From where to where it stands.
    pub part: (usize, usize),
}

/// The name of a form at a place of a text, of which a run tells this: a name that a call took from there, or a whole
/// argument that is a form's name. The error is that memory was refused, here and below.
pub(crate) fn named_at<'t>(
    alloc: Global,
    text: &'t [u8],
    known: &'t Mentions,
    offset: usize,
) -> Result<Option<Named<'t>>, AllocError> {
    if let Some(mention) = known.mention_at(offset) {
        let name = mention.name.as_slice();
        let part = (mention.place, mention.place.saturating_add(name.len()));
        return Ok(Some(Named { name, part }));
    }
    let pairs = pairs_of(alloc, text)?;
    let around = pairs.as_slice().iter().rev().find(|pair| {
        let (start, end) = pair.inside();
        start <= offset && offset <= end
    });
    let Some(pair) = around else {
        return Ok(None);
    };
    let part = argument_around(text, *pair, offset);
    let name = between(text, part);
    Ok(known.form(name).map(|_form| Named { name, part }))
}

/// Where the calls have a form's name from that a run performed, in the order of the file, each place once: the place,
/// and whether the form is defined there.
pub(crate) fn places_of(
    alloc: Global,
    known: &Mentions,
    name: &[u8],
) -> Result<Vec<(usize, bool)>, AllocError> {
    let mut places = Vec::new(alloc);
    for mention in known.mentions.as_slice() {
        if mention.name.as_slice() != name {
            continue;
        }
        let is_listed = places
            .iter()
            .any(|other: &(usize, bool)| other.0 == mention.place);
        if !is_listed {
            let defines = is_defined_at(known, name, mention.place);
            places.push((mention.place, defines))?;
        }
    }
    places.sort_by_key(|place: &(usize, bool)| place.0)?;
    Ok(places)
}

// Whether a call that defines the form has its name from this place.
fn is_defined_at(known: &Mentions, name: &[u8], place: usize) -> bool {
    known.mentions.iter().any(|mention| {
        mention.place == place && mention.role == Role::Defines && mention.name.as_slice() == name
    })
}

/// The call that cut this form last, of those of which a run tells.
pub(crate) fn cut_of<'k>(known: &'k Mentions, name: &[u8]) -> Option<&'k Mention> {
    known.mentions.iter().rev().find(|mention| mention.role == Role::Cuts
        && mention.name.as_slice() == name)
}
