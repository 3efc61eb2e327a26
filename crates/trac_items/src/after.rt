//! What stands after the pointer of a form.
ghost use Rattle.std.specs.List.{position_or_len};
ghost use Rattle.std.specs.Prelude.{◌≡◌, ◌-◌, ◌≤◌, ◌==◌, drop, length, slice_get, take, SomeIff};
ghost use Rattle.trac_rules.specs.Pieces.{is_gap};

use crate::byte_runs::run_len;
use crate::packed::PackedItem;
use std::marker::Model;

/// The items after the pointer of a form: the bytes of a text that is kept as one, or items that are kept as such. It
/// is seen as the list of these items.
#[derive(Drop)]
pub struct After<'a> {
    /// The bytes, if these are all that there is; else empty.
    pub text: &'a [u8],
    /// The items, if there are others.
    pub items: &'a [PackedItem],
}

impl<'a> Model for After<'a> {
    ghost use Rattle.std.specs.Prelude.{List, ◌++◌};
    ghost use Rattle.trac_rules.specs.Form.{as_items};
    ghost use Rattle.trac_rules.specs.declared.item.Item.{Item};
    ghost use Rattle.trac_items.specs.Either.{IsEither};

    ghost Value = { List Item };

    ghost view = { λ a. as_items a.text.now ++ a.items.now };

    ghost invariant = { λ a. IsEither a.text.now a.items.now };
}

impl<'a> After<'a> {
    /// Whether no item stands there.
    pub fn is_empty(&self) -> bool
        ensures { result ≡ (length self.now == 0) }
    {
        self.text.is_empty() && self.items.is_empty()
    }

    /// The item of this number, from 0 on.
    pub fn get(&self, i: usize) -> Option<PackedItem>
        ensures { result ≡ slice_get self.now i }
    {
        if i < self.text.len() {
            return Some(PackedItem::from_byte(self.text[i]));
        }
        self.items.get(i - self.text.len()).copied()
    }

    /// How many items from one number on, up to another, stand before the first gap among them; all if there is none.
    pub fn run_len(&self, from: usize, to: usize) -> usize
        requires order { from ≤ to }
        requires within { to ≤ length self.now }
        ensures { result ≡ position_or_len is_gap (take (to - from) (drop from self.now)) }
    {
        if self.text.is_empty() {
            return run_len(&self.items[from..to]);
        }
        to - from
    }
}

/// How many bytes a text has, if that is no more than `most`.
pub fn text_within(text: &[u8], most: usize) -> Option<usize>
    ensures { SomeIff result (length text.now ≤ most) (length text.now) }
{
    if text.len() > most {
        return None;
    }
    Some(text.len())
}
