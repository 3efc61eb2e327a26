//! Texts packed as items, many bytes at a time.
ghost use Rattle.std.specs.Prelude.{◌≡◌, ◌+◌, ◌++◌, ◌≤◌, length};
ghost use Rattle.trac_gap.specs.Ends.{item_count};
ghost use Rattle.trac_rules.specs.Form.{as_items};

use crate::form::Items;
use std::alloc::Allocator;
use trac_gap::TwoEnds;
use trac_items::PackedItem;

// How many bytes are packed together if there are so many, so that there is no call for each.
const CHUNK: usize = 32;

// Puts the bytes of a text at the end of the items on the left, if there is room for them.
pub(crate) fn put_text<A: Allocator + Copy>(text: &[u8], items: &mut Items<A>)
    requires { item_count items.old + length text.now ≤ items.old.capacity }
    ensures { items.new ≡ record items.old { left = items.old.left ++ as_items text.now } }
{
    let mut rest = text;
    'chunks: while CHUNK <= rest.len() {
        let (chunk, after) = rest.split_at(CHUNK);
        items.put_left(&packed(chunk));
        rest = after;
    }
    for b in rest {
        items.push_left(PackedItem::from_byte(*b));
    }
}

// A chunk of bytes as items.
fn packed(bytes: &[u8]) -> [PackedItem; CHUNK]
    requires { length bytes.now ≡ CHUNK }
    ensures { result ≡ as_items bytes.now }
{
    let mut items = [PackedItem::from_byte(0); CHUNK];
    for i in 0..CHUNK {
        items[i] = PackedItem::from_byte(bytes[i]);
    }
    items
}
