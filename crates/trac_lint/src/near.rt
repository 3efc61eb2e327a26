//! Names of forms that are nearly the same.
ghost use Rattle.std.specs.Prelude.{◌≤◌, length};

use crate::texts::is_blank;
use std::alloc::{AllocError, Allocator};
use trac_follow::Place;
use trac_moves::Walker;

// So many calls are gone back to at most, each of which changed a form, for the one that defined it.
const CHANGE_LIMIT: u32 = 1_000;

// Shorter names are not taken for one another because of a slip.
const SLIP_LEN: usize = 5;

// Longer names are not compared.
const NAME_LIMIT: usize = 256;

/// The name of a form that is nearly argument 1 of the innermost begun function: the same without blanks and in small
/// letters; else the same but for a slip. None if there is no such form. The error is that memory was refused, here
/// and below.
pub(crate) fn near_name<A: Allocator + Copy>(
    alloc: A,
    walker: &Walker<A>,
) -> Result<Option<Vec<u8, A>>, AllocError> {
    let wanted = walker.argument(alloc, 1)?;
    if wanted.len() > NAME_LIMIT {
        return Ok(None);
    }
    let wanted = bare(wanted.as_slice(), Vec::new(alloc))?;
    nearest(alloc, walker, wanted.as_slice())
}

// The name of a form that is nearly this one, without blanks and in small letters.
fn nearest<A: Allocator + Copy>(
    alloc: A,
    walker: &Walker<A>,
    wanted: &[u8],
) -> Result<Option<Vec<u8, A>>, AllocError> {
    let Ok(names) = walker.sight().store.names() else {
        return Err(AllocError);
    };
    let mut near = None;
    let mut other = Vec::new(alloc);
    for name in names.iter() {
        if name.len() > NAME_LIMIT {
            continue;
        }
        other = bare(*name, other)?;
        if other.as_slice() == wanted {
            return Ok(Some(Vec::from_slice(alloc, *name)?));
        }
        if near.is_none() && is_slip(wanted, other.as_slice()) {
            near = Some(Vec::from_slice(alloc, *name)?);
        }
    }
    Ok(near)
}

/// Goes back to the call that defined the form of this name, and answers where the name stands in that call. None if it
/// stands there no more, or the steps since then are not kept.
pub(crate) fn definition_of<'p, A: Allocator + Copy>(
    alloc: A,
    walker: &mut Walker<A>,
    name: &[u8],
) -> Result<Option<Place<'p>>, AllocError> {
    for _ in 0..CHANGE_LIMIT {
        if walker.return_to_change(name).is_some() {
            return Ok(None);
        }
        if walker.sight().store.get(name).is_none() {
            let named = walker.argument(alloc, 1)?;
            if named.as_slice() != name {
                return Ok(None);
            }
            return Ok(Some(Place::Argument {
                function: walker.glance().depth.saturating_sub(1),
                argument: 1,
                byte: 0,
            }));
        }
    }
    Ok(None)
}

// A name without its blanks, in small letters, in a buffer that is emptied for it.
fn bare<A: Allocator + Copy>(
    name: &[u8],
    mut buffer: Vec<u8, A>,
) -> Result<Vec<u8, A>, AllocError> {
    buffer.clear();
    for byte in name {
        if !is_blank(*byte) {
            buffer.push(byte.to_ascii_lowercase())?;
        }
    }
    Ok(buffer)
}

// Whether two different names are the same but for a slip: one byte more or less, another one, or two in the other
// order. Names that differ by a digit alone are mostly meant to.
fn is_slip(one: &[u8], other: &[u8]) -> bool {
    if one.len().min(other.len()) < SLIP_LEN {
        return false;
    }
    let front = shared_front(one, other);
    let one = one.split_at(front).1;
    let other = other.split_at(front).1;
    match (one.split_first(), other.split_first()) {
        (Some((first, one_rest)), Some((second, other_rest))) => {
            let is_letter = !first.is_ascii_digit() || !second.is_ascii_digit();
            one_rest == other_rest && is_letter
                || one_rest == other && !first.is_ascii_digit()
                || one == other_rest && !second.is_ascii_digit()
                || is_swapped(*first, one_rest, *second, other_rest) && is_letter
        }
        (Some((last, rest)), None) | (None, Some((last, rest))) => {
            rest.is_empty() && !last.is_ascii_digit()
        }
        (None, None) => false,
    }
}

// With how many bytes that are the same two texts begin.
fn shared_front(one: &[u8], other: &[u8]) -> usize
    ensures one { result ≤ length one.now }
    ensures other { result ≤ length other.now }
{
    let shorter = one.len().min(other.len());
    for place in 0..shorter {
        if one[place] != other[place] {
            return place;
        }
    }
    shorter
}

// Whether two texts, each given as its first byte and the rest, are the same but for the order of their first two
// bytes.
fn is_swapped(first: u8, rest: &[u8], second: u8, other: &[u8]) -> bool {
    match (rest.split_first(), other.split_first()) {
        (Some((third, rest)), Some((fourth, other))) => {
            first == *fourth && *third == second && rest == other
        }
        _ => false,
    }
}
