//! How many arguments a primitive uses.
ghost use Rattle.std.specs.Prelude.{◌≡◌, ◌+◌, ◌<◌, ◌^◌, ◌≤◌, option_copied, IfSome, None, Some};
ghost use Rattle.std.specs.Option.{option_to_list};
ghost use Rattle.trac_rules.specs.Doubts.{arguments_used, unused_doubts};
ghost use Rattle.trac_rules.specs.declared.primitive.Primitive.TheVariants.{Compute, Handle};

use crate::gaps::highest_ordinal;
use std::alloc::Allocator;
use trac_forms::Form;
use trac_rules::doubt::Doubt;
use trac_rules::primitive::{BlockAction, Computation, FormAction, FormReading, Primitive};

// The doubt of a call of so many arguments, its name among them, that gives one more than its primitive uses. The form
// is the one that argument 1 names.
pub(crate) fn unused_doubt<A: Allocator + Copy>(
    primitive: Primitive,
    form: Option<&Form<A>>,
    count: usize,
) -> Option<Doubt>
    ensures { option_to_list result ≡ unused_doubts (arguments_used primitive (option_copied form.entry)) count }
{
    // A call of a form without texts is common, and then its gaps need not be looked at.
    if count <= 2 && primitive == Primitive::Handle(FormAction::Call) {
        return None;
    }
    let used = used(primitive, form)?;
    (used + 1 < count).then_some(Doubt::Unused(used + 1))
}

// How many arguments after its name a primitive uses at most; none: all that there are.
fn used<A: Allocator + Copy>(primitive: Primitive, form: Option<&Form<A>>) -> Option<usize>
    ensures used { result ≡ arguments_used primitive (option_copied form.entry) }
    ensures few { IfSome result (λ n. n < 2 ^ 33) }
{
    match primitive {
        Primitive::ReadString | Primitive::ReadByte | Primitive::Halt | Primitive::SetTrace(_) =>
            Some(0),
        Primitive::PrintString
        | Primitive::SetMeta
        | Primitive::HandleBlock(BlockAction::FetchBlock | BlockAction::EraseBlock) => Some(1),
        Primitive::Compute(computation) => Some(used_to_compute(computation)),
        Primitive::Handle(action) => used_on_form(action, form),
        Primitive::HandleBlock(BlockAction::StoreBlock) | Primitive::Unknown => None,
    }
}

fn used_to_compute(computation: Computation) -> usize
    ensures used { Some result ≡ arguments_used (Compute computation) None }
    ensures few { result ≤ 4 }
{
    match computation {
        Computation::Complement => 1,
        Computation::Union | Computation::Meet | Computation::Shift | Computation::Rotate => 2,
        Computation::Calculate(_) => 3,
        Computation::Equal | Computation::Greater => 4,
    }
}

fn used_on_form<A: Allocator + Copy>(action: FormAction, form: Option<&Form<A>>) -> Option<usize>
    ensures used { result ≡ arguments_used (Handle action) (option_copied form.entry) }
    ensures few { IfSome result (λ n. n < 2 ^ 33) }
{
    match action {
        FormAction::DeleteAll => Some(0),
        FormAction::Restore | FormAction::ListNames | FormAction::PrintForm => Some(1),
        FormAction::Define | FormAction::Read(FormReading::ReadSegment | FormReading::ReadChar) =>
            Some(2),
        FormAction::Read(FormReading::ReadCount | FormReading::ReadUntil) => Some(3),
        // Its name, and a text for each of its gaps.
        FormAction::Call => Some(1 + highest_ordinal(form?) as usize),
        FormAction::Delete | FormAction::Segment => None,
    }
}
