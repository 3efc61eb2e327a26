//! What is seen of a machine around the place that scanning has reached. Which representation the machine has is shown
//! here once, and not by each function above that is asked what stands there.

use std::alloc::Allocator;
use trac_forms::Store;
use trac_gap::TwoEnds;
use trac_prims::primitive_named;
use trac_rules::primitive::Primitive;
use trac_step::{Args, Core, Kind, Machine, Mark};

/// What is seen of a machine. It is lent, and takes no memory.
#[derive(Drop)]
pub struct Sight<'m, A: Allocator + Copy> {
    /// What is not scanned yet.
    pub active: &'m [u8],
    /// The innermost begun function, with its arguments so far.
    pub begun: Option<(Kind, Args<'m>)>,
    /// The text that this function stands in; the base text if none is begun.
    pub around: &'m [u8],
    /// The forms and blocks.
    pub store: &'m Store<A>,
    /// The byte that ends a text of the input.
    pub meta: u8,
    /// How many bytes of the tape are read.
    pub position: usize,
}

/// What is seen of a machine.
pub fn sight_of<A: Allocator + Copy>(machine: &Machine<A>) -> Sight<'_, A> {
    sight_in(machine)
}

// What is seen of a machine of any representation.
fn sight_in<E: TwoEnds<u8, A>, M: TwoEnds<Mark, A>, A: Allocator + Copy>(
    machine: &Core<E, M, A>,
) -> Sight<'_, A> {
    let outside = machine.depth().saturating_sub(1);
    Sight {
        active: machine.active(),
        begun: machine.frame(outside),
        around: text_at(machine, outside),
        store: machine.store(),
        meta: machine.meta(),
        position: machine.position(),
    }
}

/// How many arguments the begun function of this number has so far, its name among them, the outermost function being
/// number 0.
pub fn argument_count<A: Allocator + Copy>(machine: &Machine<A>, number: usize) -> usize {
    arguments_in(machine, number).map_or(0, |arguments| arguments.count())
}

/// Whether the begun function of this number, the outermost being number 0, has an empty name.
pub fn is_nameless<A: Allocator + Copy>(machine: &Machine<A>, number: usize) -> bool {
    arguments_in(machine, number).is_some_and(|arguments| arguments.get(0).is_empty())
}

// The arguments so far of the begun function of this number; none if none is begun.
fn arguments_in<E: TwoEnds<u8, A>, M: TwoEnds<Mark, A>, A: Allocator + Copy>(
    machine: &Core<E, M, A>,
    number: usize,
) -> Option<Args<'_>> {
    let (_, arguments) = machine.frame(number)?;
    Some(arguments)
}

// The text that is gathered at this depth.
fn text_at<E: TwoEnds<u8, A>, M: TwoEnds<Mark, A>, A: Allocator + Copy>(
    machine: &Core<E, M, A>,
    depth: usize,
) -> &[u8] {
    if depth == 0 {
        return machine.base();
    }
    match arguments_in(machine, depth - 1) {
        Some(arguments) => last_of(&arguments),
        None => &[],
    }
}

/// The argument that is being gathered.
pub fn last_of<'m>(arguments: &Args<'m>) -> &'m [u8] {
    arguments.get(arguments.count().saturating_sub(1))
}

/// The arguments of the call that the next step performs; none if it performs none.
pub fn performed_in<'s, 'm, A: Allocator + Copy>(sight: &'s Sight<'m, A>) -> Option<&'s Args<'m>> {
    match (sight.active, &sight.begun) {
        ([b')', ..], Some((_, arguments))) => Some(arguments),
        _ => None,
    }
}

/// Whether the next step performs `rs`, which reads a text up to the meta character.
pub fn reads_text<A: Allocator + Copy>(sight: &Sight<'_, A>) -> bool {
    match performed_in(sight) {
        Some(arguments) => primitive_named(arguments.get(0)) == Primitive::ReadString,
        None => false,
    }
}
