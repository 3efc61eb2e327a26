//! Texts that `ss` does not find.
ghost use Rattle.std.specs.Prelude.{◌≡◌, ◌++◌, ◌*◌, ◌<◌, ◌≤◌, ◌&&◌, not, ◌+◌, drop, length, nat_lt, option_copied};
ghost use Rattle.std.specs.Prelude.{option_to_list, slice_get, sum, take, false, [], ◌∷◌};
ghost use Rattle.std.specs.Prelude.{MatchOption, OnOk, IsOkUnless};
ghost use Rattle.std.specs.Option.{option_map_or};
ghost use Rattle.trac_rules.specs.Doubts.{is_null, nowhere_doubts, stands_in};
ghost use Rattle.trac_rules.specs.Form.{all_items};
ghost use Rattle.trac_rules.specs.Pieces.{begin_with};
ghost use Rattle.trac_rules.specs.Segmenting.{runs_of};
ghost use Rattle.trac_doubts.specs.Sums.{code_of, sum_among};

use crate::calls::add;
use std::alloc::Allocator;
use trac_forms::{Form, Item};
use trac_rules::doubt::Doubt;
use trac_rules::limit::FORM_LIMIT;
use trac_rules::primitive::{FormAction, Primitive};
use trac_rules::refusal::Refusal;
use trac_text::Args;

// Whether a call of `ss` has a text that stands nowhere in the form that argument 1 names.
pub(crate) fn has_missing_text<A: Allocator + Copy>(
    primitive: Primitive,
    args: &Args<'_>,
    form: Option<&Form<A>>,
) -> bool
    ensures { result ≡ nat_lt 0 (length (nowhere_doubts primitive args.now (option_copied form.entry))) }
{
    let (Primitive::Handle(FormAction::Segment), Some(form)) = (primitive, form) else {
        return false;
    };
    // The texts begin after argument 1.
    for k in 2..args.count() {
        if is_nowhere(args.get(k), form) {
            return true;
        }
    }
    false
}

// Puts the doubt of each such text at the end of `out`.
pub(crate) fn nowhere_into<A: Allocator + Copy, B: Allocator>(
    primitive: Primitive,
    args: &Args<'_>,
    form: Option<&Form<A>>,
    out: &mut Vec<Doubt, B>,
) -> Result<(), Refusal>
    ensures ok { OnOk result
        (out.new.items ≡ out.old.items ++ nowhere_doubts primitive args.now (option_copied form.entry)) }
    ensures err { IsOkUnless result Refusal.Memory }
{
    let (Primitive::Handle(FormAction::Segment), Some(form)) = (primitive, form) else {
        return Ok(());
    };
    for k in 2..args.count() {
        let doubt = is_nowhere(args.get(k), form).then_some(Doubt::Nowhere(k));
        add(doubt, out)?;
    }
    Ok(())
}

// Whether a text is not null, and stands in no run of bytes between gaps.
fn is_nowhere<A: Allocator + Copy>(text: &[u8], form: &Form<A>) -> bool
    ensures { result ≡ (not (is_null text.now) && not (stands_in text.now (runs_of (all_items form.now)))) }
{
    !text.is_empty() && !stands_in(text, form)
}

// Whether a text stands in a run of bytes between gaps. It takes no memory. All bytes of the text are compared only at
// places where as many bytes have the same sum, so that most texts take time for the form alone.
fn stands_in<A: Allocator + Copy>(text: &[u8], form: &Form<A>) -> bool
    requires { 0 < length text.now }
    ensures { result ≡ stands_in text.now (runs_of (all_items form.now)) }
{
    let size = text.len();
    let Some(last) = last_place(form, size) else {
        return false;
    };
    let wanted = sum_of(text);
    let mut sum = first_sum(form, size);
    for place in 0..last {
        if sum == wanted && begins_at(text, form, place) {
            return true;
        }
        // The sum of as many items from the next place on: one item comes in, and one goes out.
        let coming = code_at(form, place + size);
        let going = code_at(form, place);
        sum = sum + coming - going;
    }
    begins_at(text, form, last)
}

// The last place of a form from which on it has so many items; none if it has fewer.
fn last_place<A: Allocator + Copy>(form: &Form<A>, size: usize) -> Option<usize>
    ensures place { MatchOption result (length (all_items form.now) < size)
        (λ last. last + size ≡ length (all_items form.now)) }
    ensures fits { length (all_items form.now) ≤ FORM_LIMIT }
{
    form.len().checked_sub(size)
}

// Whether a text stands at this place of a form.
fn begins_at<A: Allocator + Copy>(text: &[u8], form: &Form<A>, place: usize) -> bool
    requires within { place + length text.now ≤ length (all_items form.now) }
    requires fits { place + length text.now ≤ FORM_LIMIT }
    ensures { result ≡ begin_with text.now (drop place (all_items form.now)) }
{
    for (i, b) in text.iter().enumerate() {
        let is_there = is_byte(form.item(place + i), *b);
        if !is_there {
            return false;
        }
    }
    true
}

// Whether an item is this byte.
fn is_byte(item: Option<Item>, b: u8) -> bool
    ensures { result ≡ begin_with (b ∷ []) (option_to_list item) }
{
    match item {
        Some(Item::Byte(c)) => b == c,
        Some(Item::Gap { .. }) => false,
        None => false,
    }
}

// The sum of the bytes of a text.
fn sum_of(text: &[u8]) -> usize
    requires { length text.now ≤ FORM_LIMIT }
    ensures { result ≡ sum text.now }
{
    let mut sum = 0;
    for b in text {
        sum += usize::from(*b);
    }
    sum
}

// The sum of the bytes among so many items of a form, from the first on.
fn first_sum<A: Allocator + Copy>(form: &Form<A>, count: usize) -> usize
    requires within { count ≤ length (all_items form.now) }
    requires fits { count ≤ FORM_LIMIT }
    ensures sum { result ≡ sum_among (take count (all_items form.now)) }
    ensures small { result ≤ 255 * count }
{
    let mut sum = 0;
    for place in 0..count {
        sum += code_at(form, place);
    }
    sum
}

// The byte at this place of a form; 0 of a gap, and past the end.
fn code_at<A: Allocator + Copy>(form: &Form<A>, place: usize) -> usize
    ensures code { result ≡ option_map_or code_of (slice_get (all_items form.now) place) 0 }
    ensures byte { result < 256 }
{
    match form.item(place) {
        Some(Item::Byte(b)) => usize::from(b),
        Some(Item::Gap { .. }) => 0,
        None => 0,
    }
}
