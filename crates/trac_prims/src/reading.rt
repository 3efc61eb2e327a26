//! Calls that read a form at its pointer.
ghost use Rattle.std.specs.Prelude.{◌≡◌, List, ℕ, option_map, IfOk, IfSome, IsOkUnless, OnOk};
ghost use Rattle.trac_forms.specs.Taken.{IsThere, taken};
ghost use Rattle.trac_forms.specs.Stored.{storage_in};
ghost use Rattle.trac_rules.specs.Effect.{argument};
ghost use Rattle.trac_rules.specs.Handling.{default_argument, handled, piece_read};
ghost use Rattle.trac_rules.specs.declared.primitive.FormAction.TheVariants.{Read};
ghost use Rattle.trac_rules.specs.declared.primitive.Primitive.TheVariants.{Handle};
ghost use Rattle.trac_change.specs.declared.change.UnnamedChange.TheVariants.{Keep};
ghost use Rattle.trac_change.specs.Changes.{IsChangeOf};
ghost use Rattle.trac_prims.specs.Effects.{IsDone};

use crate::computing::number_at;
use crate::effect::{Deed, Made, NOTHING};
use std::alloc::Allocator;
use trac_change::UnnamedChange;
use trac_forms::{Form, Piece, Store};
use trac_rules::primitive::FormReading;
use trac_rules::refusal::Refusal;
use trac_rules::width::Width;
use trac_text::Args;

// `cs`, `cc`, `cn` and `in`: what is read of a form at its pointer, and the pointer where it stands then. If there is
// nothing to read, the default argument, which is forced, and the pointer where it stands already.
pub(crate) fn read<A: Allocator + Copy>(
    reading: FormReading,
    args: &Args<'_>,
    store: &Store<A>,
    width: Width,
    made: &mut Made<A>,
    change: &mut UnnamedChange<A>,
) -> Result<Deed, Refusal>
    requires { change.old ≡ Keep }
    ensures outcome { IsDone args.now (storage_in store.now)
        (handled (Read reading) width args.now (storage_in store.now)) made.old made.new change.new result }
    ensures change { OnOk result (IsChangeOf (Handle (Read reading)) args.now (storage_in store.now) change.new) }
{
    let Some(form) = store.get(args.get(1)) else {
        return Ok(NOTHING);
    };
    let Some(piece) = piece_of(reading, args, form, width)? else {
        // Nothing is read: the default argument is the value, and the pointer stays.
        let other = args.get(default_place(reading));
        made.value.extend_from_slice(other)?;
        *change = UnnamedChange::Point(form.pointer());
        return Ok(Deed {
            forced: true,
            ..NOTHING
        });
    };
    // The value is made first: the pointer moves when the call is carried out.
    made.value.reserve(piece.len)?;
    form.piece_into(&piece, &mut made.value)?;
    *change = UnnamedChange::Point(piece.pointer);
    Ok(NOTHING)
}

// What is read of a form with these arguments; none in the case of the default argument.
fn piece_of<A: Allocator + Copy>(
    reading: FormReading,
    args: &Args<'_>,
    form: &Form<A>,
    width: Width,
) -> Result<Option<Piece>, Refusal>
    ensures read { IfOk result
        (λ found. option_map (λ piece. taken piece form.now) found ≡ piece_read reading width args.now form.now) }
    ensures there { IfOk result (λ found. IfSome found (IsThere form.now)) }
    ensures err { IsOkUnless result Refusal.Memory }
{
    match reading {
        FormReading::ReadSegment => Ok(form.read_segment()),
        FormReading::ReadChar => Ok(form.read_char()),
        FormReading::ReadCount => Ok(form.read_count(number_at(args, 2, width).unwrap_or(0))),
        FormReading::ReadUntil => Ok(form.read_until(args.get(2))?),
    }
}

// The number of the default argument.
fn default_place(reading: FormReading) -> usize
    ensures { (arguments : List (List ℕ)) → argument result arguments ≡ default_argument reading arguments }
{
    match reading {
        FormReading::ReadSegment | FormReading::ReadChar => 2,
        FormReading::ReadCount | FormReading::ReadUntil => 3,
    }
}
