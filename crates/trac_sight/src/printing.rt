//! What the next step prints.

use std::alloc::Allocator;
use trac_forms::Store;
use trac_gap::TwoEnds;
use trac_prims::primitive_named;
use trac_rules::limit::OUTPUT_LIMIT;
use trac_rules::primitive::{FormAction, Primitive};
use trac_step::{Args, Core, Kind, Machine, Mark};
use trac_text::front::beginning_of;

/// Whether the next step prints more bytes than there is room for beside the output that is not released, though
/// it would have room if all of that were: 16,777,216 bytes are kept at most. It takes no memory, and for `pf`
/// time for the items of the form.
pub fn lacks_output_room<A: Allocator + Copy>(machine: &Machine<A>) -> bool {
    lacks_room(machine)
}

// The same of a machine of any representation.
fn lacks_room<E: TwoEnds<u8, A>, M: TwoEnds<Mark, A>, A: Allocator + Copy>(
    machine: &Core<E, M, A>,
) -> bool {
    let Some((kind, arguments)) = machine.next_call() else {
        return false;
    };
    let line = if machine.trace() {
        line_len(kind, &arguments)
    } else {
        0
    };
    let len = line.saturating_add(print_len(&arguments, machine.store()));
    len <= OUTPUT_LIMIT && len > OUTPUT_LIMIT.saturating_sub(machine.output().len())
}

// How long the line of a call is that is printed when the trace is on: with a `*` between two arguments, a `)` and a
// line feed.
fn line_len(kind: Kind, arguments: &Args<'_>) -> usize {
    let texts = arguments.joined().len();
    let marks = beginning_of(kind).len() + 2;
    texts
        .saturating_add(arguments.comma_count())
        .saturating_add(marks)
}

// How many bytes a call prints by itself; of a form that is too long to be printed more than any output holds.
fn print_len<A: Allocator + Copy>(arguments: &Args<'_>, store: &Store<A>) -> usize {
    match primitive_named(arguments.get(0)) {
        Primitive::PrintString => arguments.get(1).len(),
        Primitive::Handle(FormAction::PrintForm) => match store.get(arguments.get(1)) {
            Some(form) => form.show_len().unwrap_or(usize::MAX),
            None => 0,
        },
        _ => 0,
    }
}
