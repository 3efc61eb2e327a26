//! A form: a text with gaps and a pointer.
ghost use Rattle.std.specs.Prelude.{◌≡◌, ◌+◌, ◌-◌, ◌++◌, ◌≤◌, [], drop, length, slice_get, take, IfOk, IfErr};
ghost use Rattle.std.specs.Prelude.{OnOk, IsOkUnless, SomeIff};
ghost use Rattle.std.specs.List.{All, position_or_len};
ghost use Rattle.trac_gap.specs.Ends.{item_count};
ghost use Rattle.trac_rules.specs.Form.{IsWide, all_items, defined, extent, pointed_at, width_of};
ghost use Rattle.trac_rules.specs.Pieces.{is_gap};
ghost use Rattle.trac_forms.specs.Layout.{IsSound, divided, with_text};
ghost use Rattle.trac_forms.specs.Outcomes.{MayRefuseForm};

use crate::error::FormError;
use crate::packing::put_text;
use std::alloc::{Allocator, Global};
use std::marker::Model;
use trac_gap::{GapBuf, TwoEnds};
use trac_items::{After, PackedItem, run_len};
use trac_rules::item::Item;
use trac_rules::limit::FORM_LIMIT;

// From how many bytes on a form keeps its text as one, until it is pointed or cut: for a shorter one a second block of
// memory would cost more than it takes to pack all bytes as items.
const LONG: usize = 16;

// What holds the items of a form: those before its pointer on the left, those after it on the right.
pub(crate) type Items<A> = GapBuf<PackedItem, A>;

/// A text in which gaps may stand, with a pointer before one of its items or at its end.
/// It is seen as the items before and after its pointer. Lengths and places count items.
///
/// From the moment that it is made it has room for as many items as it stands for bytes, so that what is cut
/// out of it can come back without more memory. A long text is kept as one as long as it is neither pointed nor
/// cut; then that room is untouched.
#[derive(Drop)]
pub struct Form<A: Allocator + Copy = Global> {
    pub(crate) alloc: A,
    // the bytes after the pointer, if there is no other item; else empty
    pub(crate) text: Vec<u8, A>,
    pub(crate) items: Items<A>,
}

impl<A: Allocator + Copy> Model for Form<A> {
    ghost use Rattle.trac_rules.specs.Codes.{form_code};
    ghost use Rattle.trac_rules.specs.Form.{Form as Divided};
    ghost use Rattle.trac_forms.specs.Layout.{IsHeld, divided, with_text};

    ghost Value = { Divided };

    ghost coded = { form_code };

    ghost view = { λ f. divided (with_text f.text.items f.items) };

    ghost invariant = { λ f. IsHeld f.text.items f.items };
}

impl<A: Allocator + Copy> Form<A> {
    /// A form of the bytes of `text`, with its pointer at the start.
    ///
    /// Refused with `TooLong` if `text` has more than 16,777,216 bytes, and with `Memory` if the allocator refuses.
    pub fn new(alloc: A, text: &[u8]) -> Result<Self, FormError>
        ensures made { IfOk result (λ f. f ≡ defined text.now) }
        ensures fits { OnOk result (length text.now ≤ FORM_LIMIT) }
        ensures sound { IfOk result IsSound }
        ensures err { IfErr result (MayRefuseForm (length text.now)) }
    {
        if text.len() > FORM_LIMIT {
            return Err(FormError::TooLong);
        }
        let mut items = Items::new(alloc);
        items.reserve(text.len())?;
        if text.len() < LONG {
            put_text(text, &mut items);
            items.shift_right(text.len());
            let text = Vec::new(alloc);
            return Ok(Form { alloc, text, items });
        }
        let text = Vec::from_slice(alloc, text)?;
        Ok(Form { alloc, text, items })
    }

    /// A form of these items, with its pointer between the two lists. Each gap has to be at least one byte wide.
    ///
    /// Refused with `TooLong` if there are more than 16,777,216 items, or if their bytes and the widths of their gaps
    /// are more than that together. Refused with `Memory` if the allocator refuses.
    pub fn of(alloc: A, before: &[Item], after: &[Item]) -> Result<Self, FormError>
        requires { All IsWide (before.now ++ after.now) }
        ensures made { IfOk result (λ f. f ≡ record { before = before.now; after = after.now }) }
        ensures fits { OnOk result (extent (before.now ++ after.now) ≤ FORM_LIMIT) }
        ensures sound { IfOk result IsSound }
        ensures err { IfErr result (MayRefuseForm (extent (before.now ++ after.now))) }
    {
        let Some(front) = extent_within(before, FORM_LIMIT) else {
            return Err(FormError::TooLong);
        };
        let Some(back) = extent_within(after, FORM_LIMIT - front) else {
            return Err(FormError::TooLong);
        };
        let mut items = Items::new(alloc);
        items.reserve(front + back)?;
        put_items(before, &mut items);
        put_items(after, &mut items);
        items.shift_right(after.len());
        let text = Vec::new(alloc);
        Ok(Form { alloc, text, items })
    }

    /// How many items the form has, gaps counted like bytes. It takes no memory.
    pub fn len(&self) -> usize
        ensures len { result ≡ length (all_items self.now) }
        ensures within { extent (all_items self.now) ≤ FORM_LIMIT }
        ensures wide { All IsWide (all_items self.now) }
    {
        self.items.left().len() + self.text.len() + self.items.right().len()
    }

    /// How many items are before the pointer. It takes no memory.
    pub fn pointer(&self) -> usize
        ensures { result ≡ length self.now.before }
    {
        self.before().len()
    }

    /// The item at this place, from 0 on; `None` past the last. It takes no memory.
    pub fn item(&self, i: usize) -> Option<Item>
        ensures { result ≡ slice_get (all_items self.now) i }
    {
        let before = self.before();
        if i < before.len() {
            return Some(before[i].item());
        }
        let item = self.after().get(i - before.len())?;
        Some(item.item())
    }

    /// A second form of the same items and with the same pointer, with memory and room of its own. Refused with
    /// `Memory` if the allocator refuses.
    pub fn copy(&self) -> Result<Self, FormError>
        ensures same { IfOk result (λ f. f ≡ self.now) }
        ensures err { IsOkUnless result FormError.Memory }
    {
        let items = self.items.copy()?;
        let text = Vec::from_slice(self.alloc, self.text.as_slice())?;
        Ok(Form {
            alloc: self.alloc,
            text,
            items,
        })
    }

    /// Sets the pointer before the item at this place, or at the end, and returns its old place.
    /// The form has to have at least as many items. It takes no memory.
    pub fn set_pointer(&mut self, place: usize) -> usize
        requires { place ≤ length (all_items self.old) }
        ensures old { result ≡ length self.old.before }
        ensures moved { self.new ≡ pointed_at place (all_items self.old) }
    {
        let old = self.pointer();
        pack(&mut self.text, &mut self.items);
        if place < old {
            self.items.shift_right(old - place);
        } else {
            self.items.shift_left(place - old);
        }
        old
    }

    /// How many items from one place on, up to another, stand before the first gap among them; all if there is none. It
    /// takes no memory, and looks at many items together.
    pub fn run_len(&self, from: usize, to: usize) -> usize
        requires order { from ≤ to }
        requires within { to ≤ length (all_items self.now) }
        ensures { result ≡ position_or_len is_gap (take (to - from) (drop from (all_items self.now))) }
    {
        let before = self.before();
        if before.len() <= from {
            return self.after().run_len(from - before.len(), to - before.len());
        }
        let front = &before[from..to.min(before.len())];
        let run = run_len(front);
        if run < front.len() {
            return run;
        }
        run + self.after().run_len(0, to.saturating_sub(before.len()))
    }

    // The items before the pointer.
    pub(crate) fn before(&self) -> &[PackedItem]
        ensures { result.now ≡ self.now.before }
    {
        self.items.left()
    }

    // The items after the pointer.
    pub(crate) fn after(&self) -> After<'_>
        ensures { result ≡ self.now.after }
    {
        After {
            text: self.text.as_slice(),
            items: self.items.right(),
        }
    }
}

// Keeps the bytes of a text as items, before those on the right, if there is room for them.
pub(crate) fn pack<A: Allocator + Copy>(text: &mut Vec<u8, A>, items: &mut Items<A>)
    requires { item_count items.old + length text.old.items ≤ items.old.capacity }
    ensures none { text.new.items ≡ [] }
    ensures packed { items.new ≡ with_text text.old.items items.old }
{
    if text.is_empty() {
        return;
    }
    put_text(text.as_slice(), items);
    items.shift_right(text.len());
    text.clear();
}

// Puts these items at the end of those on the left, if there is room for them.
fn put_items<A: Allocator + Copy>(from: &[Item], items: &mut Items<A>)
    requires wide { All IsWide from.now }
    requires room { item_count items.old + length from.now ≤ items.old.capacity }
    ensures { items.new ≡ record items.old { left = items.old.left ++ from.now } }
{
    for item in from {
        items.push_left(PackedItem::new(*item));
    }
}

// How many bytes these items stand for, if that is no more than `most`.
fn extent_within(items: &[Item], most: usize) -> Option<usize>
    ensures { SomeIff result (extent items.now ≤ most) (extent items.now) }
{
    let mut total = 0;
    for item in items {
        let width = width(*item);
        if width > most - total {
            return None;
        }
        total += width;
    }
    Some(total)
}

// How many bytes an item stands for.
fn width(item: Item) -> usize
    ensures { result ≡ width_of item }
{
    match item {
        Item::Byte(_) => 1,
        Item::Gap { ordinal: _, width } => width as usize,
    }
}
