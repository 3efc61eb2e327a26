//! What a doubt of the next step is about.

use crate::sight::Sight;
use std::alloc::Allocator;
use trac_rules::doubt::Doubt;

/// The argument of the innermost begun function at which a doubt of the next step has its place. That is the one that
/// the doubt speaks of, or the name of the call if that argument is empty. None if the doubt speaks of no call, or if
/// the name is empty too.
pub fn argument_doubted<A: Allocator + Copy>(sight: &Sight<'_, A>, doubt: Doubt) -> Option<usize> {
    let number = match doubt {
        Doubt::NoPrimitive | Doubt::FormUncalled | Doubt::NoResult => 0,
        Doubt::NoForm | Doubt::NoBlock => 1,
        Doubt::Unused(k) | Doubt::NoNumber(k) | Doubt::Nowhere(k) => k,
        Doubt::Unended(_) | Doubt::Unclosed | Doubt::EndsNothing => return None,
    };
    if !argument_of(sight, number).is_empty() {
        return Some(number);
    }
    if argument_of(sight, 0).is_empty() {
        return None;
    }
    Some(0)
}

/// An argument of the innermost begun function; empty if it has none of this number.
pub fn argument_of<'m, A: Allocator + Copy>(sight: &Sight<'m, A>, number: usize) -> &'m [u8] {
    match &sight.begun {
        Some((_, arguments)) => arguments.get(number),
        None => &[],
    }
}
