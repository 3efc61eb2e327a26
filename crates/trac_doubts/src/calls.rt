//! The doubts of a call.
ghost use Rattle.std.specs.Prelude.{◌≡◌, ◌++◌, length, nat_lt, option_copied, OnOk, IsOkUnless, Some};
ghost use Rattle.std.specs.FinMap as finite;
ghost use Rattle.std.specs.Option.{option_and_then, option_to_list};
ghost use Rattle.trac_forms.specs.Stored.{storage_in};
ghost use Rattle.trac_rules.specs.Blocks.{number_addressed};
ghost use Rattle.trac_rules.specs.Doubts.{block_doubts, doubts_of_call, form_doubts, name_doubts, needs_block};
ghost use Rattle.trac_rules.specs.Doubts.{needs_form};
ghost use Rattle.trac_rules.specs.Effect.{argument};

use crate::addresses::is_address;
use crate::counts::unused_doubt;
use crate::numbers::{has_no_numbers, number_doubts_into, result_doubt};
use crate::texts::{has_missing_text, nowhere_into};
use std::alloc::Allocator;
use trac_forms::{Form, Store};
use trac_prims::primitive_named;
use trac_rules::doubt::Doubt;
use trac_rules::primitive::{BlockAction, FormAction, Primitive};
use trac_rules::refusal::Refusal;
use trac_rules::width::Width;
use trac_text::Args;

// Whether a call of these arguments, its name first, has a doubt.
pub(crate) fn is_doubtful_call<A: Allocator + Copy>(
    args: &Args<'_>,
    store: &Store<A>,
    width: Width,
) -> bool
    ensures { result ≡ nat_lt 0 (length (doubts_of_call width (Some args.now) (storage_in store.now))) }
{
    let primitive = primitive_named(args.get(0));
    let form = store.get(args.get(1));
    name_doubt(primitive, args, store).is_some()
        || form_doubt(primitive, form, store).is_some()
        || unused_doubt(primitive, form, args.count()).is_some()
        || has_no_numbers(primitive, args)
        || result_doubt(primitive, args, width).is_some()
        || has_missing_text(primitive, args, form)
}

// Puts the doubts of a call of these arguments at the end of `out`.
pub(crate) fn call_doubts_into<A: Allocator + Copy, B: Allocator>(
    args: &Args<'_>,
    store: &Store<A>,
    width: Width,
    out: &mut Vec<Doubt, B>,
) -> Result<(), Refusal>
    ensures ok { OnOk result
        (out.new.items ≡ out.old.items ++ doubts_of_call width (Some args.now) (storage_in store.now)) }
    ensures err { IsOkUnless result Refusal.Memory }
{
    let primitive = primitive_named(args.get(0));
    let form = store.get(args.get(1));
    add(name_doubt(primitive, args, store), out)?;
    add(form_doubt(primitive, form, store), out)?;
    add(unused_doubt(primitive, form, args.count()), out)?;
    number_doubts_into(primitive, args, out)?;
    add(result_doubt(primitive, args, width), out)?;
    nowhere_into(primitive, args, form, out)
}

// Puts a doubt, if there is one, at the end of `out`.
pub(crate) fn add<B: Allocator>(
    doubt: Option<Doubt>,
    out: &mut Vec<Doubt, B>,
) -> Result<(), Refusal>
    ensures ok { OnOk result (out.new.items ≡ out.old.items ++ option_to_list doubt) }
    ensures err { IsOkUnless result Refusal.Memory }
{
    match doubt {
        Some(doubt) => Ok(out.push(doubt)?),
        None => Ok(()),
    }
}

// The doubt of the name of a call, which stands for this.
fn name_doubt<A: Allocator + Copy>(
    primitive: Primitive,
    args: &Args<'_>,
    store: &Store<A>,
) -> Option<Doubt>
    ensures { option_to_list result ≡ name_doubts primitive (finite.get store.now.forms (argument 0 args.now)) }
{
    if primitive != Primitive::Unknown {
        return None;
    }
    Some(match store.get(args.get(0)) {
        Some(_) => Doubt::FormUncalled,
        None => Doubt::NoPrimitive,
    })
}

// The doubt of a primitive that needs a form or its block, by the form that argument 1 names: there is at most one.
fn form_doubt<A: Allocator + Copy>(
    primitive: Primitive,
    form: Option<&Form<A>>,
    store: &Store<A>,
) -> Option<Doubt>
    ensures { option_to_list result ≡ form_doubts primitive (option_copied form.entry)
        ++ block_doubts primitive (option_copied form.entry)
        (option_and_then (λ form. number_addressed form store.now.blocks) (option_copied form.entry)) }
{
    let Some(form) = form else {
        return needs_form(primitive).then_some(Doubt::NoForm);
    };
    (needs_block(primitive) && !is_address(form, store)).then_some(Doubt::NoBlock)
}

// Whether a primitive looks for the form that argument 1 names.
fn needs_form(primitive: Primitive) -> bool
    ensures { result ≡ needs_form primitive }
{
    match primitive {
        Primitive::Handle(action) => match action {
            FormAction::Segment
            | FormAction::Restore
            | FormAction::Call
            | FormAction::Read(_)
            | FormAction::PrintForm => true,
            FormAction::Define
            | FormAction::Delete
            | FormAction::DeleteAll
            | FormAction::ListNames => false,
        },
        _ => needs_block(primitive),
    }
}

// Whether it looks for that form's block.
fn needs_block(primitive: Primitive) -> bool
    ensures { result ≡ needs_block primitive }
{
    match primitive {
        Primitive::HandleBlock(BlockAction::FetchBlock | BlockAction::EraseBlock) => true,
        _ => false,
    }
}
