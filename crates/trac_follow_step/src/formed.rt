//! Where bytes come from that a call takes out of a form, prints of it, or cuts in it.
ghost use Rattle.std.specs.Prelude.{◌≡◌, ◌≤◌, drop, false, length, option_map, IfSome, List, Option, ℕ};
ghost use Rattle.trac_forms.specs.Taken.{IsThere, taken};
ghost use Rattle.trac_rules.specs.Effect.{argument};
ghost use Rattle.trac_rules.specs.Form.{all_items};
ghost use Rattle.trac_rules.specs.Handling.{piece_read};
ghost use Rattle.trac_rules.specs.Pieces.{begin_with};
ghost use Rattle.trac_rules.specs.declared.primitive.FormAction.TheVariants.{Call, Read as Reads};
ghost use Rattle.trac_rules.specs.declared.primitive.Primitive.TheVariants.{Handle};
ghost use Rattle.trac_rules.specs.declared.primitive.FormReading.TheVariants.{ReadCount, ReadUntil};
ghost use Rattle.trac_rules.specs.declared.width.Width.{Width};
ghost use Rattle.trac_follow_step.specs.Formed.{IsFound, IsPrintedAt, TellsOfForm, ToldAsFormCut, ToldAsFormShown};
ghost use Rattle.trac_follow_step.specs.Formed.{ToldAsPiece, ToldAsShownAfter, ToldAsShownAt, ToldFrom, is_byte};
ghost use Rattle.trac_follow_step.specs.Formed.{of_shown};
ghost use Rattle.trac_follow_step.specs.Places.{is_from_form};

use crate::items::{Among, Giving, byte_among, item_after};
use crate::place::{After, Origin, Place};
use crate::valued::{Asked, argument_byte};
use std::alloc::Allocator;
use trac_forms::{Form, Item, Piece};
use trac_gap::TwoEnds;
use trac_prims::number_at;
use trac_rules::primitive::FormReading;
use trac_rules::width::Width;
use trac_step::{Core, Mark};
use trac_text::Args;

// Of the value of `cl`: of the form, or of the argument that fills a gap.
pub(crate) fn called_byte<'a, A: Allocator + Copy>(
    form: &Form<A>,
    arguments: &Args<'_>,
    function: usize,
    i: usize,
) -> Origin<'a>
    ensures tells { (width : Width) (seen : Option ℕ) →
        TellsOfForm (Handle Call) form.now arguments.now function width seen i result }
    ensures taken { is_from_form result ≡ false }
{
    let start = form.pointer();
    let Among::Here(given) = byte_among(form, start, form.len(), Giving::Filled(arguments), i)
    else {
        return Origin::Nothing;
    };
    match given.item {
        Item::Byte(_) => Origin::OfForm(start + given.at),
        Item::Gap { ordinal, width: _ } => {
            argument_byte(function, ordinal as usize + 1, given.byte)
        }
    }
}

// Of the value of `cs`, `cc`, `cn` or `in`: of the form, or of the default argument.
pub(crate) fn read_byte_of<'a, A: Allocator + Copy>(
    reading: FormReading,
    form: &Form<A>,
    arguments: &Args<'_>,
    asked: Asked,
) -> Origin<'a>
    ensures tells { TellsOfForm (Handle (Reads reading)) form.now arguments.now asked.function asked.width
        asked.seen asked.byte result }
    ensures taken { is_from_form result ≡ false }
{
    let (function, i) = (asked.function, asked.byte);
    match reading {
        FormReading::ReadSegment => piece_byte(form, form.read_segment(), function, 2, i),
        FormReading::ReadChar => piece_byte(form, form.read_char(), function, 2, i),
        FormReading::ReadCount => {
            piece_byte(form, counted(form, arguments, asked.width), function, 3, i)
        }
        FormReading::ReadUntil => until_byte(form, arguments.get(2), function, asked.seen, i),
    }
}

// What `cn` reads of a form: as many bytes as the number says; nothing if that does not fit the width.
fn counted<A: Allocator + Copy>(form: &Form<A>, arguments: &Args<'_>, width: Width) -> Option<Piece>
    ensures read { option_map (λ piece. taken piece form.now) result
        ≡ piece_read ReadCount width arguments.now form.now }
    ensures there { IfSome result (IsThere form.now) }
{
    form.read_count(number_at(arguments, 2, width).unwrap_or(0))
}

// Of a piece that is read of a form; without one, of the default argument.
fn piece_byte<'a, A: Allocator + Copy>(
    form: &Form<A>,
    found: Option<Piece>,
    function: usize,
    other: usize,
    i: usize,
) -> Origin<'a>
    requires { IfSome found (IsThere form.now) }
    ensures tells { ToldAsPiece form.now found function other i result }
    ensures taken { is_from_form result ≡ false }
{
    match found {
        Some(piece) => byte_from(form, piece.pointer.min(form.pointer()), i),
        None => argument_byte(function, other, i),
    }
}

// Of the value of `in`, which searches this text: what stands before it is the form's. If the text is not found, the
// value is the default argument.
fn until_byte<'a, A: Allocator + Copy>(
    form: &Form<A>,
    text: &[u8],
    function: usize,
    seen: Option<usize>,
    i: usize,
) -> Origin<'a>
    ensures tells { (arguments : List (List ℕ)) (width : Width) → argument 2 arguments ≡ text.now →
        TellsOfForm (Handle (Reads ReadUntil)) form.now arguments function width seen i result }
    ensures taken { is_from_form result ≡ false }
{
    if is_found(form, text, seen) {
        return byte_from(form, form.pointer(), i);
    }
    argument_byte(function, 3, i)
}

// Whether `in` found a text. If not, its value is forced, and so is scanned: for a value that is not scanned, it did.
// For a scanned one, it did if the text stands in the form after as many bytes as the value has, from the pointer on.
fn is_found<A: Allocator + Copy>(form: &Form<A>, text: &[u8], seen: Option<usize>) -> bool
    ensures { IsFound form.now text.now seen result }
{
    let Some(bytes) = seen else {
        return true;
    };
    let start = form.pointer();
    match byte_among(form, start, form.len(), Giving::Read, bytes) {
        Among::Here(given) => begins_at(form, start + given.at, text),
        Among::Past(_) => false,
    }
}

// Whether the items of a form from this place on begin with a text.
fn begins_at<A: Allocator + Copy>(form: &Form<A>, place: usize, text: &[u8]) -> bool
    requires { place ≤ length (all_items form.now) }
    ensures { result ≡ begin_with text.now (drop place (all_items form.now)) }
{
    let mut rest = text;
    for at in place..form.len() {
        let Some((first, others)) = rest.split_first() else {
            return true;
        };
        if !is_byte(form.item(at), *first) {
            return false;
        }
        rest = others;
    }
    rest.is_empty()
}

// Whether an item is this byte.
fn is_byte(item: Option<Item>, b: u8) -> bool
    ensures { result ≡ is_byte item b }
{
    match item {
        Some(Item::Byte(c)) => b == c,
        _ => false,
    }
}

// Of the bytes of a form from a place on.
fn byte_from<'a, A: Allocator + Copy>(form: &Form<A>, first: usize, i: usize) -> Origin<'a>
    requires { first ≤ length (all_items form.now) }
    ensures tells { ToldFrom form.now first i result }
    ensures taken { is_from_form result ≡ false }
{
    let Among::Here(given) = byte_among(form, first, form.len(), Giving::Read, i) else {
        return Origin::Nothing;
    };
    Origin::OfForm(first + given.at)
}

// Of what `pf` prints of the form of this name, after which the output ends. Bytes are the form's, and marks are made.
// So is the line of the trace before them. Without a form only that line is new.
pub(crate) fn shown_byte<'a, E: TwoEnds<u8, A>, M: TwoEnds<Mark, A>, A: Allocator + Copy>(
    before: &Core<E, M, A>,
    name: &[u8],
    end: usize,
    i: usize,
) -> Origin<'a>
    ensures tells { ToldAsFormShown before.now.state name.now end i result }
    ensures taken { is_from_form result ≡ false }
{
    let Some(form) = before.store().get(name) else {
        return Origin::Made;
    };
    let Some(len) = form.show_len() else {
        return Origin::Nothing;
    };
    match printed_at(len, end, i) {
        Printed::Text(byte) => shown_item(form, byte),
        Printed::Line => Origin::Made,
        Printed::Nowhere => Origin::Nothing,
    }
}

// Where a byte of the output is that a call printed.
#[derive(Clone, Copy)]
pub(crate) enum Printed {
    // In the text that its primitive prints: the byte of this number.
    Text(usize),
    // Before the text, in the line of the trace.
    Line,
    // Past the end, or in an output that is too short for the text.
    Nowhere,
}

// Where byte `i` is of an output that a text of this length ends at `end`.
pub(crate) fn printed_at(text: usize, end: usize, i: usize) -> Printed
    ensures { IsPrintedAt text end i result }
{
    if text > end || i >= end {
        return Printed::Nowhere;
    }
    if i < end - text {
        return Printed::Line;
    }
    Printed::Text(i - (end - text))
}

// Of the byte of this number that a form is printed as.
fn shown_item<'a, A: Allocator + Copy>(form: &Form<A>, i: usize) -> Origin<'a>
    ensures tells { ToldAsShownAt form.now i result }
    ensures taken { is_from_form result ≡ false }
{
    let pointer = form.pointer();
    match byte_among(form, 0, pointer, Giving::Shown, i) {
        Among::Here(given) => of_shown(given.item, given.at),
        Among::Past(rest) if rest < b"<^>".len() => Origin::Made,
        Among::Past(rest) => shown_after(form, rest - b"<^>".len()),
    }
}

// The same, of what stands after the mark of the pointer.
fn shown_after<'a, A: Allocator + Copy>(form: &Form<A>, i: usize) -> Origin<'a>
    ensures tells { ToldAsShownAfter form.now i result }
    ensures taken { is_from_form result ≡ false }
{
    let pointer = form.pointer();
    match byte_among(form, pointer, form.len(), Giving::Shown, i) {
        Among::Here(given) => of_shown(given.item, pointer + given.at),
        Among::Past(_) => Origin::Nothing,
    }
}

// Of an item that is printed, which has this place.
fn of_shown<'a>(item: Item, place: usize) -> Origin<'a>
    ensures tells { result ≡ of_shown item place }
    ensures taken { is_from_form result ≡ false }
{
    match item {
        Item::Byte(_) => Origin::OfForm(place),
        Item::Gap { .. } => Origin::Made,
    }
}

// Of an item of the form of this name that `ss` leaves. It stood where as many bytes stood before it. If a byte stood
// where a gap stands now, the gap is made.
pub(crate) fn cut_item<'a, E: TwoEnds<u8, A>, M: TwoEnds<Mark, A>, A: Allocator + Copy>(
    before: &Core<E, M, A>,
    name: &'a [u8],
    after: After,
) -> Origin<'a>
    ensures { ToldAsFormCut before.now.state name.now after result }
{
    let Some(form) = before.store().get(name) else {
        return Origin::Nothing;
    };
    let Some((place, item)) = item_after(form, after.extent) else {
        return Origin::Nothing;
    };
    if after.is_gap && matches!(item, Item::Byte(_)) {
        return Origin::Made;
    }
    Origin::Carried(Place::Form(name, place))
}
