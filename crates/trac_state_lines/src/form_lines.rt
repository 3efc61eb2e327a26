//! How forms are shown.
ghost use Rattle.std.specs.Prelude.{◌≡◌, ◌++◌, ◌-◌, ◌≤◌, length, take, drop, OnOk};
ghost use Rattle.trac_rules.specs.Form.{all_items};
ghost use Rattle.trac_state_lines.specs.StateLines.{bracketed_form, escaped_item, escaped_items, form_line};

use std::alloc::{AllocError, Allocator};
use trac_forms::Form;
use trac_rules::byte::LINE_FEED;
use trac_rules::item::Item;
use trac_streams::{byte_into, lead_into, number_into};

// Puts an item at the end of a text: a byte as in a text, and a gap of number k as `<k>`.
fn item_into<A: Allocator>(item: Item, out: &mut Vec<u8, A>) -> Result<(), AllocError>
    ensures { OnOk result (out.new.items ≡ out.old.items ++ escaped_item item) }
{
    match item {
        Item::Byte(byte) => byte_into(byte, out),
        Item::Gap { ordinal, width: _ } => {
            out.extend_from_slice(b"<")?;
            number_into(u64::from(ordinal), out)?;
            out.extend_from_slice(b">")
        }
    }
}

// Puts the items of a form from one place up to another at the end of a text.
fn items_into<A: Allocator + Copy, B: Allocator>(
    form: &Form<A>,
    from: usize,
    to: usize,
    out: &mut Vec<u8, B>,
) -> Result<(), AllocError>
    requires rising { from ≤ to }
    requires within { to ≤ length (all_items form.now) }
    ensures { OnOk result
        (out.new.items ≡ out.old.items ++ escaped_items (take (to - from) (drop from (all_items form.now)))) }
{
    for place in from..to {
        let Some(item) = form.item(place) else {
            unreachable!();
        };
        item_into(item, out)?;
    }
    Ok(())
}

/// Puts a form in brackets at the end of a text: its items, with `<^>` at the place of its pointer. The
/// error is that memory was refused.
pub fn form_into<A: Allocator + Copy, B: Allocator>(
    form: &Form<A>,
    out: &mut Vec<u8, B>,
) -> Result<(), AllocError>
    ensures { OnOk result (out.new.items ≡ out.old.items ++ bracketed_form form.now) }
{
    out.extend_from_slice(b"[")?;
    items_into(form, 0, form.pointer(), out)?;
    out.extend_from_slice(b"<^>")?;
    items_into(form, form.pointer(), form.len(), out)?;
    out.extend_from_slice(b"]")
}

/// Puts a line of a word, a name and the form of that name at the end of a text. The error is that memory was refused.
pub fn form_line_into<A: Allocator + Copy, B: Allocator>(
    word: &[u8],
    name: &[u8],
    form: &Form<A>,
    out: &mut Vec<u8, B>,
) -> Result<(), AllocError>
    ensures { OnOk result (out.new.items ≡ out.old.items ++ form_line word.now (name.now, form.now)) }
{
    lead_into(word, name, out)?;
    out.extend_from_slice(b" ")?;
    form_into(form, out)?;
    Ok(out.push(LINE_FEED)?)
}
