//! Calls that put forms aside in a block, bring copies of them back, or erase a block.
ghost use Rattle.std.specs.Prelude.{◌≡◌, ◌<◌, ◌≤◌, ◌^◌, bytes_eq, decimal, length, nat_le, option_map};
ghost use Rattle.std.specs.Prelude.{List, ℕ, IfOk, IsOkUnless, OnOk};
ghost use Rattle.std.specs.List.{list_any};
ghost use Rattle.std.specs.FinMap as finite;
ghost use Rattle.trac_forms.specs.Stored.{storage_in};
ghost use Rattle.trac_rules.specs.Blocks.{block_handled, moved_out, named_block_number, number_addressed, with_all};
ghost use Rattle.trac_rules.specs.Form.{Form as Divided, all_items, defined};
ghost use Rattle.trac_rules.specs.Handling.{without};
ghost use Rattle.trac_rules.specs.Limits.{may_be_put};
ghost use Rattle.trac_rules.specs.Pieces.{bytes_in};
ghost use Rattle.trac_rules.specs.declared.primitive.BlockAction.TheVariants.{EraseBlock, FetchBlock, StoreBlock};
ghost use Rattle.trac_prims.specs.Blocks.{IsBlock};
ghost use Rattle.trac_rules.specs.declared.primitive.Primitive.TheVariants.{HandleBlock};
ghost use Rattle.trac_change.specs.declared.change.UnnamedChange.TheVariants.{Keep};
ghost use Rattle.trac_change.specs.Changes.{IsChangeOf};
ghost use Rattle.trac_rules.specs.Undone.{names_in};
ghost use Rattle.trac_prims.specs.declared.effect.Made as made;
ghost use Rattle.trac_prims.specs.Effects.{IsDone};
ghost use Rattle.trac_change.specs.Changed.{named_forms};
ghost use Rattle.trac_text.specs.Framing.{texts_of};

use crate::effect::{Deed, NOTHING};
use std::alloc::Allocator;
use std::collections::HashSet;
use trac_change::{LaterArguments, UnnamedChange, after};
use trac_forms::{Block, Form, Item, Store, Texts};
use trac_num::{print_into, read_tail, value};
use trac_rules::limit::{BLOCK_LIMIT, FORM_COUNT_LIMIT, NAME_LIMIT};
use trac_rules::refusal::Refusal;
use trac_rules::width::Width;
use trac_text::Args;

// `sb`: forms are moved into a new block, and a form becomes its number.
pub(crate) fn store_block<A: Allocator + Copy>(
    alloc: A,
    args: &Args<'_>,
    store: &Store<A>,
    change: &mut UnnamedChange<A>,
) -> Result<Deed, Refusal>
    ensures outcome { (texts : made.Made A) → IsDone args.now (storage_in store.now)
        (block_handled StoreBlock args.now (storage_in store.now)) texts texts change.new result }
    ensures change { OnOk result (IsChangeOf (HandleBlock StoreBlock) args.now (storage_in store.now) change.new) }
{
    let held = leaving(alloc, store, &after(args, 2))?;
    let number = store.block_count();
    if held.len() > FORM_COUNT_LIMIT || number >= BLOCK_LIMIT {
        return Err(Refusal::TooLong);
    }
    if !may_stand(store, args.get(1), held.as_slice()) {
        return Err(Refusal::TooLong);
    }
    let address = address_of(alloc, number)?;
    *change = UnnamedChange::MoveIn { held, address };
    Ok(NOTHING)
}

// `fb`: copies of a block's forms are put among the forms.
pub(crate) fn fetch_block<A: Allocator + Copy>(
    alloc: A,
    args: &Args<'_>,
    store: &Store<A>,
    change: &mut UnnamedChange<A>,
) -> Result<Deed, Refusal>
    requires { change.old ≡ Keep }
    ensures outcome { (texts : made.Made A) → IsDone args.now (storage_in store.now)
        (block_handled FetchBlock args.now (storage_in store.now)) texts texts change.new result }
    ensures change { OnOk result (IsChangeOf (HandleBlock FetchBlock) args.now (storage_in store.now) change.new) }
{
    let Some((number, block)) = named_block(alloc, args, store)? else {
        return Ok(NOTHING);
    };
    if !may_come_back(store, block) {
        return Err(Refusal::TooLong);
    }
    let forms = copies_of(alloc, block)?;
    *change = UnnamedChange::Bring { number, forms };
    Ok(NOTHING)
}

// `eb`: a block is erased, and the form that names it deleted.
pub(crate) fn erase_block<A: Allocator + Copy>(
    alloc: A,
    args: &Args<'_>,
    store: &Store<A>,
    change: &mut UnnamedChange<A>,
) -> Result<Deed, Refusal>
    requires { change.old ≡ Keep }
    ensures outcome { (texts : made.Made A) → IsDone args.now (storage_in store.now)
        (block_handled EraseBlock args.now (storage_in store.now)) texts texts change.new result }
    ensures change { OnOk result (IsChangeOf (HandleBlock EraseBlock) args.now (storage_in store.now) change.new) }
{
    let Some((number, _block)) = named_block(alloc, args, store)? else {
        return Ok(NOTHING);
    };
    *change = UnnamedChange::Erase { number };
    Ok(NOTHING)
}

// ---- forms that leave

// So many names are compared each with those before it: to look them up would take longer.
const FEW_NAMES: usize = 16;

// The names of the forms that leave, of those that are given: each that has a form, once.
fn leaving<A: Allocator + Copy>(
    alloc: A,
    store: &Store<A>,
    names: &LaterArguments<'_>,
) -> Result<Vec<Vec<u8, A>, A>, Refusal>
    ensures made { IfOk result (λ held. texts_of held.items ≡ names_in (moved_out names.now store.now.forms)) }
    ensures err { IsOkUnless result Refusal.Memory }
{
    if names.count() <= FEW_NAMES {
        leaving_few(alloc, store, names)
    } else {
        leaving_many(alloc, store, names)
    }
}

// The same, where each is compared with those before it.
fn leaving_few<A: Allocator + Copy>(
    alloc: A,
    store: &Store<A>,
    names: &LaterArguments<'_>,
) -> Result<Vec<Vec<u8, A>, A>, Refusal>
    ensures made { IfOk result (λ held. texts_of held.items ≡ names_in (moved_out names.now store.now.forms)) }
    ensures err { IsOkUnless result Refusal.Memory }
{
    let mut held = Vec::new(alloc);
    for i in 0..names.count() {
        let name = names.get(i);
        if store.get(name).is_some() && !stands_among(held.as_slice(), name) {
            held.push(Vec::from_slice(alloc, name)?)?;
        }
    }
    Ok(held)
}

// The same, where each is looked up: so the time is not the square of their number.
fn leaving_many<A: Allocator + Copy>(
    alloc: A,
    store: &Store<A>,
    names: &LaterArguments<'_>,
) -> Result<Vec<Vec<u8, A>, A>, Refusal>
    ensures made { IfOk result (λ held. texts_of held.items ≡ names_in (moved_out names.now store.now.forms)) }
    ensures err { IsOkUnless result Refusal.Memory }
{
    let mut held = Vec::new(alloc);
    let mut seen = HashSet::new(alloc);
    for i in 0..names.count() {
        let name = names.get(i);
        if store.get(name).is_some() && seen.insert(name)? {
            held.push(Vec::from_slice(alloc, name)?)?;
        }
    }
    Ok(held)
}

// Whether a name stands among others.
fn stands_among<A: Allocator + Copy>(names: &[Vec<u8, A>], name: &[u8]) -> bool
    ensures { result ≡ list_any (bytes_eq name.now) (texts_of names.now) }
{
    names.iter().any(|held| name == held.as_slice())
}

// Whether the number of a block may be put under this name, once the forms of these names have left.
fn may_stand<A: Allocator + Copy>(store: &Store<A>, name: &[u8], held: &[Vec<u8, A>]) -> bool
    requires { length held.now ≤ finite.len store.now.forms }
    ensures { (names : List (List ℕ)) (number : ℕ) → number < 2 ^ 64 →
        texts_of held.now ≡ names_in (moved_out names store.now.forms) →
        result ≡ may_be_put name.now (defined (decimal number)) (without names store.now.forms) }
{
    if name.len() > NAME_LIMIT {
        return false;
    }
    let left = store.form_count() - held.len();
    if store.get(name).is_some() && !stands_among(held, name) {
        left <= FORM_COUNT_LIMIT
    } else {
        left < FORM_COUNT_LIMIT
    }
}

// The number of a block in decimal, as a form.
fn address_of<A: Allocator + Copy>(alloc: A, number: usize) -> Result<Form<A>, Refusal>
    requires { number < BLOCK_LIMIT }
    ensures made { IfOk result (λ form. form ≡ defined (decimal number)) }
    ensures err { IsOkUnless result Refusal.Memory }
{
    let mut text = Vec::new(alloc);
    print_into(number as i128, &mut text)?;
    Ok(Form::new(alloc, text.as_slice())?)
}

// ---- the block that a form names

// The block whose address is the form that the first argument after the name names, if there is one, and its number.
fn named_block<'a, A: Allocator + Copy>(
    alloc: A,
    args: &Args<'_>,
    store: &'a Store<A>,
) -> Result<Option<(usize, &'a Block<A>)>, Refusal>
    ensures found { IfOk result (λ found. IsBlock (named_block_number args.now (storage_in store.now)) store.now.blocks
        (option_map (λ x. (x.0, x.1.now.held)) found)) }
    ensures err { IsOkUnless result Refusal.Memory }
{
    let Some(form) = store.get(args.get(1)) else {
        return Ok(None);
    };
    let text = bytes_of(alloc, form)?;
    addressed(alloc, text.as_slice(), store)
}

// The bytes of a form on both sides of its pointer, its gaps left out.
fn bytes_of<A: Allocator + Copy>(alloc: A, form: &Form<A>) -> Result<Vec<u8, A>, Refusal>
    ensures made { IfOk result (λ text. text.items ≡ bytes_in (all_items form.now)) }
    ensures err { IsOkUnless result Refusal.Memory }
{
    let mut text = Vec::new(alloc);
    for i in 0..form.len() {
        match form.item(i) {
            Some(Item::Byte(b)) => text.push(b)?,
            Some(Item::Gap { .. }) => {}
            None => {}
        }
    }
    Ok(text)
}

// The live block whose number in decimal is this text, if there is one, and that number.
fn addressed<'a, A: Allocator + Copy>(
    alloc: A,
    text: &[u8],
    store: &'a Store<A>,
) -> Result<Option<(usize, &'a Block<A>)>, Refusal>
    ensures found { (form : Divided) → bytes_in (all_items form) ≡ text.now → IfOk result (λ found. IsBlock
        (number_addressed form store.now.blocks) store.now.blocks (option_map (λ x. (x.0, x.1.now.held)) found)) }
    ensures err { IsOkUnless result Refusal.Memory }
{
    let _count = store.block_count();
    // Whatever the width of the program's numbers, the number of a block fits 64 bits.
    let Some(number) = value(read_tail(text).numeral, Width::W64) else {
        return Ok(None);
    };
    // No block has a number below zero.
    let Ok(place) = usize::try_from(number) else {
        return Ok(None);
    };
    let Some(block) = store.block(place) else {
        return Ok(None);
    };
    let mut digits = Vec::new(alloc);
    print_into(number, &mut digits)?;
    if digits.as_slice() == text {
        return Ok(Some((place, block)));
    }
    Ok(None)
}

// ---- forms that come back

// Whether copies of a block's forms may be put among the forms. Each of its names that has no form yet adds one form:
// no name stands twice in a block.
fn may_come_back<A: Allocator + Copy>(store: &Store<A>, block: &Block<A>) -> bool
    ensures { result ≡ nat_le (finite.len (with_all block.now.held store.now.forms)) FORM_COUNT_LIMIT }
{
    let mut more = 0;
    for i in 0..block.len() {
        if let Some((name, _form)) = block.get(i) {
            if store.get(name).is_none() {
                more += 1;
            }
        }
    }
    let count = store.form_count();
    count <= FORM_COUNT_LIMIT && more <= FORM_COUNT_LIMIT - count
}

// The forms of a block with their names, with memory of their own.
fn copies_of<A: Allocator + Copy>(
    alloc: A,
    block: &Block<A>,
) -> Result<Vec<(Vec<u8, A>, Form<A>), A>, Refusal>
    ensures made { IfOk result (λ copies. named_forms copies.items ≡ block.now.held) }
    ensures err { IsOkUnless result Refusal.Memory }
{
    let mut copies = Vec::new(alloc);
    for i in 0..block.len() {
        let Some((name, form)) = block.get(i) else {
            return Ok(copies);
        };
        let name = Vec::from_slice(alloc, name)?;
        let form = form.copy()?;
        copies.push((name, form))?;
    }
    Ok(copies)
}
