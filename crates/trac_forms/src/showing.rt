//! How a form is printed.
ghost use Rattle.std.specs.Prelude.{◌≡◌, ◌++◌, ◌≤◌, length, OnOk, OnErr, IsOkUnless, SomeIff};
ghost use Rattle.trac_rules.specs.Fronts.{IsFrontOf};
ghost use Rattle.trac_rules.specs.Showing.{shown, shown_item, shown_items};

use crate::error::FormError;
use crate::form::Form;
use itoa::Buffer;
use std::alloc::Allocator;
use trac_items::{PackedItem, text_within};
use trac_rules::item::Item;
use trac_rules::limit::OUTPUT_LIMIT;

impl<A: Allocator + Copy> Form<A> {
    /// How many bytes `show_into` would give, found without building them; `None` if these are more than 16,777,216. It
    /// takes no memory.
    pub fn show_len(&self) -> Option<usize>
        ensures { SomeIff result (length (shown self.now) ≤ OUTPUT_LIMIT) (length (shown self.now)) }
    {
        let mark = b"<^>".len();
        let before = items_len(self.before(), OUTPUT_LIMIT - mark)?;
        let after = self.after();
        let text = text_within(after.text, OUTPUT_LIMIT - mark - before)?;
        let items = items_len(after.items, OUTPUT_LIMIT - mark - before - text)?;
        Some(before + mark + text + items)
    }

    /// Puts the form as it is printed at the end of `out`. It is printed as its bytes, each gap of ordinal k as `<k>`,
    /// and `<^>` at the place of the pointer, also at an end. This is the rule of `pf`, in this project's profile.
    ///
    /// Refused with `Memory` if the allocator refuses; then `out` still begins with what it held.
    pub fn show_into<B: Allocator>(&self, out: &mut Vec<u8, B>) -> Result<(), FormError>
        ensures ok { OnOk result (out.new.items ≡ out.old.items ++ shown self.now) }
        ensures left { OnErr result (IsFrontOf out.old.items out.new.items) }
        ensures err { IsOkUnless result FormError.Memory }
    {
        items_into(self.before(), out)?;
        out.extend_from_slice(b"<^>")?;
        let after = self.after();
        out.extend_from_slice(after.text)?;
        items_into(after.items, out)
    }
}

// How many bytes these items are printed as, if that is no more than `most`.
fn items_len(items: &[PackedItem], most: usize) -> Option<usize>
    ensures { SomeIff result (length (shown_items items.now) ≤ most) (length (shown_items items.now)) }
{
    let mut total = 0;
    for item in items {
        let len = item_len(*item);
        if len > most - total {
            return None;
        }
        total += len;
    }
    Some(total)
}

// How many bytes an item is printed as.
fn item_len(item: PackedItem) -> usize
    ensures { result ≡ length (shown_item item) }
{
    match item.item() {
        Item::Byte(_) => 1,
        Item::Gap { ordinal, width: _ } => {
            let mut buffer = Buffer::new();
            b"<".len() + buffer.format(ordinal).len() + b">".len()
        }
    }
}

// Puts items as they are printed at the end of `out`.
fn items_into<B: Allocator>(items: &[PackedItem], out: &mut Vec<u8, B>) -> Result<(), FormError>
    ensures ok { OnOk result (out.new.items ≡ out.old.items ++ shown_items items.now) }
    ensures left { OnErr result (IsFrontOf out.old.items out.new.items) }
    ensures err { IsOkUnless result FormError.Memory }
{
    for item in items {
        item_into(*item, out)?;
    }
    Ok(())
}

// Puts an item as it is printed at the end of `out`.
fn item_into<B: Allocator>(item: PackedItem, out: &mut Vec<u8, B>) -> Result<(), FormError>
    ensures ok { OnOk result (out.new.items ≡ out.old.items ++ shown_item item) }
    ensures left { OnErr result (IsFrontOf out.old.items out.new.items) }
    ensures err { IsOkUnless result FormError.Memory }
{
    match item.item() {
        Item::Byte(b) => Ok(out.push(b)?),
        Item::Gap { ordinal, width: _ } => {
            let mut buffer = Buffer::new();
            out.extend_from_slice(b"<")?;
            out.extend_from_slice(buffer.format(ordinal).as_bytes())?;
            out.extend_from_slice(b">")?;
            Ok(())
        }
    }
}
