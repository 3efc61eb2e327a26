//! An item of a form as it is kept: it takes eight bytes, `Item` takes twelve.
ghost use Rattle.std.specs.Prelude.{◌≡◌, false};
ghost use Rattle.trac_rules.specs.Form.{IsWide};
ghost use Rattle.trac_rules.specs.Pieces.{is_gap};
ghost use Rattle.trac_rules.specs.declared.item.Item.TheVariants.{Byte};

use std::marker::Model;
use trac_rules::item::Item;

/// An item of a form, seen as that item. A gap is at least one byte wide, so that a width of 0 tells a byte.
#[derive(Clone, Copy)]
pub struct PackedItem {
    // The value of a byte, or the ordinal of a gap.
    number: u32,
    // How wide a gap is; 0 for a byte.
    width: u32,
}

impl Model for PackedItem {
    ghost use Rattle.trac_rules.specs.declared.item.Item.{Item};

    ghost Value = { Item };

    ghost use Rattle.trac_items.specs.Packed.{IsPacked, packed, unpacked, packed_again};

    ghost view = { unpacked };

    ghost invariant = { IsPacked };

    ghost inverse = { packed };

    ghost inverse_ok = { packed_again };
}

impl PackedItem {
    /// Packs an item. A gap has to be at least one byte wide.
    pub fn new(item: Item) -> Self
        requires { IsWide item }
        ensures { result ≡ item }
    {
        match item {
            Item::Byte(b) => PackedItem::from_byte(b),
            Item::Gap { ordinal, width } => PackedItem {
                number: ordinal,
                width,
            },
        }
    }

    /// The item that is this byte.
    pub fn from_byte(b: u8) -> Self
        ensures { result ≡ Byte b }
    {
        PackedItem {
            number: u32::from(b),
            width: 0,
        }
    }

    /// The item that is kept.
    pub fn item(self) -> Item
        ensures { result ≡ self }
    {
        if self.is_gap() {
            return Item::Gap {
                ordinal: self.number,
                width: self.width,
            };
        }
        Item::Byte(self.number as u8)
    }

    /// Whether the item is a gap.
    pub fn is_gap(self) -> bool
        ensures { result ≡ is_gap self }
    {
        self.width != 0
    }

    /// The value of a byte.
    pub fn byte(self) -> u8
        requires { is_gap self ≡ false }
        ensures { self ≡ Byte result }
    {
        self.number as u8
    }
}
