//! Whether a call gives its default argument, or nothing whatever it is given.

use crate::sight::{Sight, performed_in};
use std::alloc::Allocator;
use trac_forms::{FormError, Store};
use trac_prims::{number_at, primitive_named, result_on};
use trac_rules::primitive::{Computation, FormAction, FormReading, Primitive};
use trac_rules::width::Width;
use trac_step::Args;

/// Whether the call that the next step performs gives its default argument. `cs`, `cc`, `cn` and `in` give it if
/// nothing is read; `ad`, `su`, `ml` and `dv` if there is no result that fits this width. The argument need not be
/// there: then the value is empty. The error is that memory was refused for the search of `in`.
pub fn takes_default<A: Allocator + Copy>(
    sight: &Sight<'_, A>,
    width: Width,
) -> Result<bool, FormError> {
    let Some(arguments) = performed_in(sight) else {
        return Ok(false);
    };
    match primitive_named(arguments.get(0)) {
        Primitive::Compute(Computation::Calculate(operation)) => {
            Ok(result_on(operation, arguments, width).is_none())
        }
        Primitive::Handle(FormAction::Read(reading)) => {
            reads_nothing(reading, arguments, sight.store, width)
        }
        _ => Ok(false),
    }
}

/// Whether the call that the next step performs is one of a primitive whose value is always empty.
pub fn gives_nothing<A: Allocator + Copy>(sight: &Sight<'_, A>) -> bool {
    let Some(arguments) = performed_in(sight) else {
        return false;
    };
    match primitive_named(arguments.get(0)) {
        Primitive::PrintString | Primitive::SetMeta | Primitive::SetTrace(_) => true,
        Primitive::HandleBlock(_) => true,
        Primitive::Handle(action) => !matches!(
            action,
            FormAction::Call | FormAction::Read(_) | FormAction::ListNames
        ),
        // the others may give a value or halt; an unknown name is no primitive's, though its value is empty
        _ => false,
    }
}

// Whether there is a form of the name that is argument 1, of which nothing is read so.
fn reads_nothing<A: Allocator + Copy>(
    reading: FormReading,
    arguments: &Args<'_>,
    store: &Store<A>,
    width: Width,
) -> Result<bool, FormError> {
    let Some(form) = store.get(arguments.get(1)) else {
        return Ok(false);
    };
    let piece = match reading {
        FormReading::ReadSegment => form.read_segment(),
        FormReading::ReadChar => form.read_char(),
        FormReading::ReadCount => form.read_count(number_at(arguments, 2, width).unwrap_or(0)),
        FormReading::ReadUntil => form.read_until(arguments.get(2))?,
    };
    Ok(piece.is_none())
}
