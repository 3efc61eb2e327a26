//! Which item of a form gives a byte, and which stands after so many bytes.
ghost use Rattle.std.specs.Prelude.{◌≡◌, ◌<◌, ◌≤◌, ◌-◌, drop, length, take, MatchOption, Some, slice_get, ℕ};
ghost use Rattle.trac_rules.specs.Form.{all_items, extent, width_of};
ghost use Rattle.trac_rules.specs.declared.item.Item.{Item};
ghost use Rattle.trac_follow_step.specs.Formed.{IsAfter};
ghost use Rattle.trac_follow_step.specs.Items.{IsAmong, given_by};

use itoa::Buffer;
use std::alloc::Allocator;
use trac_forms::Form;
use trac_rules::item::Item;
use trac_text::Args;

/// What items give.
#[derive(Clone, Copy)]
pub(crate) enum Giving<'a> {
    // In a call of the form with these arguments: a gap gives the argument of its number.
    Filled(&'a Args<'a>),
    // When it is read: a gap gives nothing.
    Read,
    // When it is printed: a gap gives a mark.
    Shown,
}

/// A byte of what an item gives.
#[derive(Clone, Copy)]
pub(crate) struct Given {
    /// The item.
    pub item: Item,
    /// How many items stand before it.
    pub at: usize,
    /// How many bytes of what it gives stand before the byte.
    pub byte: usize,
}

/// Where a byte is among what items give.
#[derive(Clone, Copy)]
pub(crate) enum Among {
    // There.
    Here(Given),
    // So far past all of it.
    Past(usize),
}

// Where the byte of this number is among what the items of a form give from one place up to another.
pub(crate) fn byte_among<A: Allocator + Copy>(
    form: &Form<A>,
    from: usize,
    to: usize,
    giving: Giving<'_>,
    i: usize,
) -> Among
    requires order { from ≤ to }
    requires within { to ≤ length (all_items form.now) }
    ensures { IsAmong (given_by giving.entry) (drop from (all_items form.now)) (to - from) i result }
{
    let mut place = from;
    let mut rest = i;
    'runs: while place < to {
        let run = form.run_len(place, to);
        if rest < run {
            return Among::Here(given_at(form, from, place + rest, 0));
        }
        place += run;
        rest -= run;
        if place == to {
            break;
        }
        let given = given_at(form, from, place, rest);
        let len = given_len(giving, given.item);
        if rest < len {
            return Among::Here(given);
        }
        place += 1;
        rest -= len;
    }
    Among::Past(rest)
}

// This byte of what the item at a place gives, of the items from an earlier place on.
fn given_at<A: Allocator + Copy>(form: &Form<A>, from: usize, place: usize, byte: usize) -> Given
    requires order { from ≤ place }
    requires within { place < length (all_items form.now) }
    ensures there { slice_get (all_items form.now) place ≡ Some result.item }
    ensures at { result.at ≡ place - from }
    ensures byte { result.byte ≡ byte }
{
    let Some(item) = form.item(place) else {
        unreachable!();
    };
    Given {
        item,
        at: place - from,
        byte,
    }
}

// How many bytes an item gives.
fn given_len(giving: Giving<'_>, item: Item) -> usize
    ensures { result ≡ length (given_by giving.entry item) }
{
    let Item::Gap { ordinal, width: _ } = item else {
        return 1;
    };
    match giving {
        // Nothing fills a gap of ordinal 0.
        Giving::Filled(_) if ordinal == 0 => 0,
        Giving::Filled(arguments) => arguments.get(ordinal as usize + 1).len(),
        Giving::Read => 0,
        Giving::Shown => {
            let mut buffer = Buffer::new();
            b"<".len() + buffer.format(ordinal).len() + b">".len()
        }
    }
}

/// How many bytes the items before a place of a form stand for: a byte for itself, and a gap for its width. The place
/// is the number of an item, those before the pointer first, or the number of all items.
pub fn extent_before<A: Allocator + Copy>(form: &Form<A>, place: usize) -> usize
    requires { place ≤ length (all_items form.now) }
    ensures { result ≡ extent (take place (all_items form.now)) }
{
    // For the sum: a form stands for no more than the limit on forms.
    let _count = form.len();
    let mut bytes = 0;
    for i in 0..place {
        let Some(item) = form.item(i) else {
            unreachable!();
        };
        bytes += width_of(item);
    }
    bytes
}

// The item before which items stand that stand for so many bytes, and its place.
pub(crate) fn item_after<A: Allocator + Copy>(form: &Form<A>, bytes: usize) -> Option<(usize, Item)>
    ensures { MatchOption result ((n : ℕ) (item : Item) → slice_get (all_items form.now) n ≡ Some item →
        extent (take n (all_items form.now)) ≡ bytes → ⊥) (λ found. IsAfter form.now bytes found.0 found.1) }
{
    let mut left = bytes;
    for place in 0..form.len() {
        let Some(item) = form.item(place) else {
            unreachable!();
        };
        if left == 0 {
            return Some((place, item));
        }
        let width = width_of(item);
        if width > left {
            return None;
        }
        left -= width;
    }
    None
}

// How many bytes an item stands for.
fn width_of(item: Item) -> usize
    ensures { result ≡ width_of item }
{
    match item {
        Item::Byte(_) => 1,
        Item::Gap { ordinal: _, width } => width as usize,
    }
}
