//! The gaps of a form.
ghost use Rattle.std.specs.Prelude.{◌≡◌};
ghost use Rattle.std.specs.Option.{option_map_or};
ghost use Rattle.trac_rules.specs.Doubts.{highest_ordinal, ordinal_of};
ghost use Rattle.trac_rules.specs.Form.{all_items};

use std::alloc::Allocator;
use trac_forms::{Form, Item};

// The highest ordinal of the gaps of a form; 0 without a gap. Runs of bytes are passed many at a time.
pub(crate) fn highest_ordinal<A: Allocator + Copy>(form: &Form<A>) -> u32
    ensures { result ≡ highest_ordinal (all_items form.now) }
{
    let len = form.len();
    let mut highest = 0;
    let mut place = 0;
    while place < len {
        let gap = place + form.run_len(place, len);
        highest = highest.max(ordinal_of(form.item(gap)));
        place = gap + 1;
    }
    highest
}

// The ordinal of a gap; 0 of a byte, and if there is no item.
fn ordinal_of(item: Option<Item>) -> u32
    ensures { result ≡ option_map_or ordinal_of item 0 }
{
    match item {
        Some(Item::Gap { ordinal, width: _ }) => ordinal,
        Some(Item::Byte(_)) => 0,
        None => 0,
    }
}
