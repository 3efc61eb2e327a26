//! Forms that `fb` brings back from a block.
ghost use Rattle.std.specs.Prelude.{◌≡◌, ◌++◌, bytes_eq, false, List, MatchOption, option_copied, option_to_list};
ghost use Rattle.trac_follow_step.specs.Fetched.{block_named, place_fetched};
ghost use Rattle.trac_follow_step.specs.Places.{place_of};
ghost use Rattle.trac_forms.specs.Stored.{storage_in};
ghost use Rattle.trac_origins.specs.Places.{held_form};
ghost use Rattle.trac_rules.specs.Blocks.{block_at, is_address};
ghost use Rattle.trac_rules.specs.Form.{all_items};
ghost use Rattle.trac_rules.specs.Pieces.{bytes_in};
ghost use Rattle.trac_rules.specs.declared.item.Item.{Item};

use crate::place::Place;
use itoa::Buffer;
use std::alloc::Allocator;
use trac_forms::{Form, Store};
use trac_rules::item::Item;

// Where an item stood that stands in the form of a name after `fb` of the block whose address the form `given` is. It
// stood in that block, if the block holds a form of this name. Else it has not moved.
pub(crate) fn before_fetch<'a, A: Allocator + Copy>(
    store: &Store<A>,
    given: &[u8],
    name: &'a [u8],
    i: usize,
) -> Place<'a>
    ensures { place_of result
        ≡ place_fetched (block_named given.now (storage_in store.now)) name.now i (storage_in store.now) }
{
    match named_block(store, given) {
        Some(number) if held_in(store, number, name).is_some() => Place::Held(number, name, i),
        _ => Place::Form(name, i),
    }
}

// ---- the block that a form names

// The number of the block whose address the form of a name is, if there is one.
fn named_block<A: Allocator + Copy>(store: &Store<A>, given: &[u8]) -> Option<usize>
    ensures { result ≡ block_named given.now (storage_in store.now) }
{
    let form = store.get(given)?;
    let count = store.block_count();
    for number in 0..count {
        if is_address(store, form, number) {
            return Some(number);
        }
    }
    None
}

// Whether a form is the address of the block of this number. There is such a block, and the form's bytes, its gaps left
// out, are the number in decimal.
fn is_address<A: Allocator + Copy>(store: &Store<A>, form: &Form<A>, number: usize) -> bool
    ensures { result ≡ is_address form.now store.now.blocks number }
{
    let mut buffer = Buffer::new();
    store.block(number).is_some() && reads_as(form, buffer.format(number).as_bytes())
}

// Whether the bytes of a form, its gaps left out, are this text.
fn reads_as<A: Allocator + Copy>(form: &Form<A>, text: &[u8]) -> bool
    ensures { result ≡ bytes_eq text.now (bytes_in (all_items form.now)) }
{
    let mut rest = text;
    for place in 0..form.len() {
        let Some(others) = after_item(form.item(place), rest) else {
            return false;
        };
        rest = others;
    }
    rest.is_empty()
}

// What is left of a text after the byte of an item, if it begins with that; a gap has none.
fn after_item(item: Option<Item>, text: &[u8]) -> Option<&[u8]>
    ensures { MatchOption result
        ((others : List Item) → bytes_eq text.now (bytes_in (option_to_list item ++ others)) ≡ false)
        (λ rest. text.now ≡ bytes_in (option_to_list item) ++ rest.now) }
{
    let Some(Item::Byte(b)) = item else {
        return Some(text);
    };
    let (first, rest) = text.split_first()?;
    if *first == b {
        return Some(rest);
    }
    None
}

// ---- the forms that a block holds

// The form of this name that the block of this number holds, if there is one.
pub(crate) fn held_in<'s, A: Allocator + Copy>(
    store: &'s Store<A>,
    number: usize,
    name: &[u8],
) -> Option<&'s Form<A>>
    ensures { option_copied result ≡ held_form name.now (block_at number store.now.blocks) }
{
    let block = store.block(number)?;
    for i in 0..block.len() {
        let Some((other, form)) = block.get(i) else {
            unreachable!();
        };
        if name == other {
            return Some(form);
        }
    }
    None
}
