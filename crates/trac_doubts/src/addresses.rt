//! Whether a form is the address of a block, found without memory.
ghost use Rattle.std.specs.Prelude.{◌≡◌, ◌<◌, ◌++◌, false, true, length, is_some, option_to_list, MatchOption};
ghost use Rattle.trac_rules.specs.Blocks.{number_addressed};
ghost use Rattle.trac_rules.specs.Form.{Form as Divided, all_items};
ghost use Rattle.trac_rules.specs.Pieces.{bytes_in};

use arrayvec::ArrayVec;
use itoa::Buffer;
use std::alloc::Allocator;
use trac_forms::{Form, Item, Store};
use trac_num::{read_tail, value};
use trac_rules::width::Width;

// No number of a block has more digits.
const DIGITS: usize = 20;

// Whether the bytes of a form are the number of a live block.
pub(crate) fn is_address<A: Allocator + Copy>(form: &Form<A>, store: &Store<A>) -> bool
    ensures { result ≡ is_some (number_addressed form.now store.now.blocks) }
{
    // For what it says: the number of a block is not too long for the buffer.
    let _count = store.block_count();
    match short_text(form) {
        Some(text) => is_live(text.as_slice(), store),
        None => false,
    }
}

// The bytes of a form on both sides of its pointer, its gaps left out; none if these are too many for a number.
fn short_text<A: Allocator + Copy>(form: &Form<A>) -> Option<ArrayVec<u8, DIGITS>>
    ensures { MatchOption result (DIGITS < length (bytes_in (all_items form.now)))
        (λ text. text.items ≡ bytes_in (all_items form.now)) }
{
    let mut text = ArrayVec::new();
    for place in 0..form.len() {
        let is_added = add_byte(form.item(place), &mut text);
        if !is_added {
            return None;
        }
    }
    Some(text)
}

// Puts the byte of an item, if there is one, at the end of a text, and answers whether there was
// room for it; a gap takes none.
fn add_byte(item: Option<Item>, text: &mut ArrayVec<u8, DIGITS>) -> bool
    ensures added { result ≡ true → text.new.items ≡ text.old.items ++ bytes_in (option_to_list item) }
    ensures full { result ≡ false → DIGITS < length (text.old.items ++ bytes_in (option_to_list item)) }
{
    match item {
        Some(Item::Byte(b)) => text.try_push(b).is_ok(),
        Some(Item::Gap { .. }) => true,
        None => true,
    }
}

// Whether this text is the number of a live block in decimal.
fn is_live<A: Allocator + Copy>(text: &[u8], store: &Store<A>) -> bool
    ensures { (form : Divided) → bytes_in (all_items form) ≡ text.now →
        result ≡ is_some (number_addressed form store.now.blocks) }
{
    let _count = store.block_count();
    // Whatever the width of the program's numbers, the number of a block fits 64 bits.
    let Some(number) = value(read_tail(text).numeral, Width::W64) else {
        return false;
    };
    // No block has a number below zero.
    let Ok(place) = usize::try_from(number) else {
        return false;
    };
    if store.block(place).is_none() {
        return false;
    }
    let mut buffer = Buffer::new();
    buffer.format(place).as_bytes() == text
}
