//! Why a call gives what it gives, where its arguments alone do not tell it.

use std::alloc::Allocator;
use trac_forms::{Form, FormError};
use trac_num::{greater, read_tail};
use trac_prims::{number_at, primitive_named, result_on};
use trac_rules::primitive::{Computation, FormAction, FormReading, Operation, Primitive};
use trac_rules::width::Width;
use trac_sight::{Sight, performed_in};
use trac_step::Args;

/// Why a call gives what it gives. Names and texts are lent by the machine.
#[derive(Clone, Copy)]
pub enum Reason<'m> {
    /// Neither a primitive nor a form has this name.
    NoPrimitive(&'m [u8]),
    /// A form has this name, and no primitive.
    FormUncalled(&'m [u8]),
    /// No form has this name.
    NoForm(&'m [u8]),
    /// So it is with the form of this name, which there is.
    OfForm(Lack, &'m [u8]),
    /// This text does not stand after the pointer of the form of this name.
    NotAhead(&'m [u8], &'m [u8]),
    /// This text stands right at the pointer of the form of this name.
    RightAhead(&'m [u8], &'m [u8]),
    /// A number is divided by 0.
    ByZero,
    /// A number, or the result, does not fit.
    NoResult,
    /// These texts, or the numbers at their ends, are related so.
    Compared(Relation, &'m [u8], &'m [u8]),
}

/// What a form lacks, so that nothing, or an empty text, is had from it.
#[derive(Clone, Copy, PartialEq, Eq)]
pub enum Lack {
    /// Nothing stands in it.
    Empty,
    /// Nothing stands after its pointer.
    AtEnd,
    /// Nothing stands before its pointer.
    AtStart,
    /// Gaps alone stand after its pointer.
    GapsAhead,
    /// Gaps alone stand before its pointer.
    GapsBehind,
    /// Gaps alone stand after its pointer, and each is filled with nothing.
    Unfilled,
    /// A gap stands right at its pointer.
    GapHere,
    /// No byte of it is asked for.
    Unasked,
}

/// How two texts are related, or two numbers.
#[derive(Clone, Copy, PartialEq, Eq)]
pub enum Relation {
    /// The texts are the same.
    Same,
    /// They are not.
    Different,
    /// The first number is greater.
    Greater,
    /// It is not.
    NotGreater,
}

/// Why the call that the next step performs gives what it gives, if this is more than its arguments tell. `eq` and `gr`
/// give the argument that their comparison chooses; a call on a form depends on the form. Of a call of `cl` it says why
/// the value is empty, if it is. The error is that memory was refused for the search of `in`.
pub fn reason_of<'m, A: Allocator + Copy>(
    sight: &Sight<'m, A>,
    width: Width,
) -> Result<Option<Reason<'m>>, FormError> {
    let Some(arguments) = performed_in(sight) else {
        return Ok(None);
    };
    match primitive_named(arguments.get(0)) {
        Primitive::Unknown => Ok(Some(unnamed(sight, arguments.get(0)))),
        Primitive::Compute(computation) => Ok(computed(computation, arguments, width)),
        Primitive::Handle(action) if needs_form(action) => {
            match sight.store.get(arguments.get(1)) {
                None => Ok(Some(Reason::NoForm(arguments.get(1)))),
                Some(form) => of_form(action, form, arguments, width),
            }
        }
        _ => Ok(None),
    }
}

/// Which texts the call compares that the next step performs, if it is one of `eq` or `gr`, and how they are related.
pub fn comparison_of<'m, A: Allocator + Copy>(sight: &Sight<'m, A>) -> Option<Reason<'m>> {
    let arguments = performed_in(sight)?;
    match primitive_named(arguments.get(0)) {
        Primitive::Compute(computation) => compared(computation, arguments),
        _ => None,
    }
}

// Whether a call does nothing without a form of the name that is argument 1.
fn needs_form(action: FormAction) -> bool {
    !matches!(
        action,
        FormAction::Define | FormAction::Delete | FormAction::DeleteAll | FormAction::ListNames
    )
}

// Why a call of a name that is no primitive's gives nothing.
fn unnamed<'m, A: Allocator + Copy>(sight: &Sight<'m, A>, name: &'m [u8]) -> Reason<'m> {
    match sight.store.get(name) {
        None => Reason::NoPrimitive(name),
        Some(_) => Reason::FormUncalled(name),
    }
}

// Which texts a computation compares, and how they are related; or why it has no result.
fn computed<'m>(
    computation: Computation,
    arguments: &Args<'m>,
    width: Width,
) -> Option<Reason<'m>> {
    match computation {
        Computation::Calculate(operation) => match result_on(operation, arguments, width) {
            Some(_) => None,
            None => Some(without_result(operation, arguments, width)),
        },
        computation => compared(computation, arguments),
    }
}

// Which texts a computation compares, and how they are related.
fn compared<'m>(computation: Computation, arguments: &Args<'m>) -> Option<Reason<'m>> {
    match computation {
        Computation::Equal => Some(of_texts(arguments.get(1), arguments.get(2))),
        Computation::Greater => Some(of_numbers(arguments.get(1), arguments.get(2))),
        _ => None,
    }
}

// How two texts are related.
fn of_texts<'m>(first: &'m [u8], second: &'m [u8]) -> Reason<'m> {
    let relation = if first == second {
        Relation::Same
    } else {
        Relation::Different
    };
    Reason::Compared(relation, first, second)
}

// How the numbers are related that end two texts.
fn of_numbers<'m>(first: &'m [u8], second: &'m [u8]) -> Reason<'m> {
    let first = read_tail(first).numeral;
    let second = read_tail(second).numeral;
    let relation = if greater(first, second) {
        Relation::Greater
    } else {
        Relation::NotGreater
    };
    Reason::Compared(relation, first, second)
}

// Why a calculation has no result.
fn without_result<'m>(operation: Operation, arguments: &Args<'m>, width: Width) -> Reason<'m> {
    match (operation, number_at(arguments, 2, width)) {
        (Operation::Divide, Some(0)) => Reason::ByZero,
        _ => Reason::NoResult,
    }
}

// Why a call has nothing from the form that it names, or an empty text.
fn of_form<'m, A: Allocator + Copy>(
    action: FormAction,
    form: &Form<A>,
    arguments: &Args<'m>,
    width: Width,
) -> Result<Option<Reason<'m>>, FormError> {
    let name = arguments.get(1);
    match action {
        FormAction::Call => Ok(Some(Reason::OfForm(lack_of_call(form), name))),
        FormAction::Read(FormReading::ReadUntil) => not_ahead(form, arguments),
        FormAction::Read(reading) => {
            let asked = number_at(arguments, 2, width).unwrap_or(0);
            Ok(lack_of_reading(reading, form, asked).map(|lack| Reason::OfForm(lack, name)))
        }
        _ => Ok(None),
    }
}

// Why a call of a form has an empty value, if it has.
fn lack_of_call<A: Allocator + Copy>(form: &Form<A>) -> Lack {
    if form.pointer() < form.len() {
        Lack::Unfilled
    } else {
        lack_ahead(form)
    }
}

// Why nothing is read of a form from its pointer on.
fn lack_ahead<A: Allocator + Copy>(form: &Form<A>) -> Lack {
    if form.len() == 0 {
        Lack::Empty
    } else if form.pointer() < form.len() {
        Lack::GapsAhead
    } else {
        Lack::AtEnd
    }
}

// Why nothing is read of a form up to its pointer.
fn lack_behind<A: Allocator + Copy>(form: &Form<A>) -> Lack {
    if form.len() == 0 {
        Lack::Empty
    } else if form.pointer() > 0 {
        Lack::GapsBehind
    } else {
        Lack::AtStart
    }
}

// Why nothing is read of a form, or an empty text; if `cn` reads, so many bytes are asked for.
fn lack_of_reading<A: Allocator + Copy>(
    reading: FormReading,
    form: &Form<A>,
    asked: i128,
) -> Option<Lack> {
    match reading {
        FormReading::ReadSegment => match form.read_segment() {
            None => Some(lack_ahead(form)),
            Some(piece) if piece.len == 0 => Some(Lack::GapHere),
            Some(_) => None,
        },
        FormReading::ReadCount if asked == 0 => Some(Lack::Unasked),
        FormReading::ReadCount => match form.read_count(asked) {
            None if asked < 0 => Some(lack_behind(form)),
            None => Some(lack_ahead(form)),
            Some(_) => None,
        },
        _ => match form.read_char() {
            None => Some(lack_ahead(form)),
            Some(_) => None,
        },
    }
}

// Why `in` reads nothing of a form, or an empty text.
fn not_ahead<'m, A: Allocator + Copy>(
    form: &Form<A>,
    arguments: &Args<'m>,
) -> Result<Option<Reason<'m>>, FormError> {
    let (name, text) = (arguments.get(1), arguments.get(2));
    Ok(match form.read_until(text)? {
        None if form.pointer() < form.len() => Some(Reason::NotAhead(text, name)),
        None => Some(Reason::OfForm(lack_ahead(form), name)),
        Some(_) if text.is_empty() => Some(Reason::OfForm(Lack::Unasked, name)),
        Some(piece) if piece.len == 0 => Some(Reason::RightAhead(text, name)),
        Some(_) => None,
    })
}
