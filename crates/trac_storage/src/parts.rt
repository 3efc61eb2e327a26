//! The parts of a state, from which a machine is loaded, and whether they are within the limits.
ghost use Rattle.std.specs.Prelude.{◌≡◌, ◌&&◌, nat_le, IsTrue};
ghost use Rattle.std.specs.List.{All};
ghost use Rattle.trac_change.specs.Changed.{named_forms};
ghost use Rattle.trac_text.specs.Framing.{texts_of, EachGathers};
ghost use Rattle.trac_storage.specs.Loading.{AreProperEntries, IsProperList, blocks_fit, entries_fit};
ghost use Rattle.trac_storage.specs.Loading.{lengths_fit, names_fit};

use crate::blocking::Named;
use std::alloc::{Allocator, Global};
use trac_forms::Form;
use trac_rules::limit::{BLOCK_LIMIT, MARK_LIMIT, NAME_LIMIT, OUTPUT_LIMIT, TEXT_LIMIT};
use trac_text::Kind;
use trac_text::framing::{each_gathers, mark_count, text_len};

/// The parts of a state, from which a machine is made that shows it, and the room that the machine is to have.
/// Texts and names are any bytes.
#[derive(Drop)]
pub struct Parts<A: Allocator + Copy = Global> {
    /// What is not scanned yet.
    pub active: Vec<u8, A>,
    /// The neutral text outside all begun functions.
    pub base: Vec<u8, A>,
    /// The begun functions, from the outermost on: the kind of each, and its arguments, of which
    /// the last is being gathered.
    pub frames: Vec<(Kind, Vec<Vec<u8, A>, A>), A>,
    /// The forms with their names. If a name stands again, the later form replaces the earlier one.
    pub forms: Vec<(Vec<u8, A>, Form<A>), A>,
    /// The blocks in the order of their numbers, from 0 on; an erased one is none. If a name stands again in a block,
    /// the later form stands in the place of the earlier one.
    pub blocks: Vec<Option<Vec<(Vec<u8, A>, Form<A>), A>>, A>,
    /// The byte that ends a text of the input.
    pub meta: u8,
    /// Whether each call is printed.
    pub trace: bool,
    /// How many bytes of the tape are read.
    pub position: usize,
    /// What is printed and not released yet.
    pub output: Vec<u8, A>,
    /// For how many bytes of active text, base text and arguments the machine is to have room, at least.
    pub text_room: usize,
    /// For how many marks, at least: one for each begun function, and one for each of its finished arguments.
    pub mark_room: usize,
    /// For how many bytes of output, at least.
    pub output_room: usize,
    /// The names that the machine is to know beside those of the forms.
    pub names: Vec<Vec<u8, A>, A>,
}

impl<A: Allocator + Copy> Parts<A> {
    /// Whether each begun function has an argument, as loading asks. It takes no memory.
    pub fn each_gathers(&self) -> bool
        ensures yes { IsTrue result → EachGathers self.now.frames.items }
        ensures no { EachGathers self.now.frames.items → IsTrue result }
    {
        each_gathers(self.frames.as_slice())
    }
}

// Whether so many bytes of texts, so many marks and so many bytes of output are within the limits.
fn are_within(text: usize, marks: usize, output: usize) -> bool
    ensures { result ≡ (nat_le text TEXT_LIMIT && nat_le marks MARK_LIMIT && nat_le output OUTPUT_LIMIT) }
{
    text <= TEXT_LIMIT && marks <= MARK_LIMIT && output <= OUTPUT_LIMIT
}

// Whether each of these names is within the limit.
fn names_within<A: Allocator + Copy>(names: &[Vec<u8, A>]) -> bool
    ensures { result ≡ names_fit (texts_of names.now) }
{
    for name in names {
        if name.len() > NAME_LIMIT {
            return false;
        }
    }
    true
}

// Whether the name of each of these forms is within the limit. The forms themselves always are.
fn entries_within<A: Allocator + Copy>(forms: &[Named<A>]) -> bool
    ensures fits { result ≡ entries_fit (named_forms forms.now) }
    ensures proper { IsTrue result → AreProperEntries (named_forms forms.now) }
{
    for (name, form) in forms {
        // For the clause `proper`: what is true of the items of every form.
        let _items = form.len();
        if name.len() > NAME_LIMIT {
            return false;
        }
    }
    true
}

// Whether blocks are within the limits: their number, and the names of the forms of each.
fn blocks_within<A: Allocator + Copy>(blocks: &[Option<Vec<Named<A>, A>>]) -> bool
    ensures fits { result ≡ blocks_fit blocks.now }
    ensures proper { IsTrue result → All IsProperList blocks.now }
{
    if blocks.len() > BLOCK_LIMIT {
        return false;
    }
    for block in blocks {
        let Some(forms) = block else {
            continue;
        };
        if !entries_within(forms.as_slice()) {
            return false;
        }
    }
    true
}

/// Whether all is within the limits but the number of forms, and that of the forms of a block, since only a store tells
/// how many of them replace others. Each begun function has to have an argument. It takes no memory.
pub fn lengths_within<A: Allocator + Copy>(parts: &Parts<A>) -> bool
    requires { EachGathers parts.now.frames.items }
    ensures fits { result ≡ lengths_fit parts.now }
    ensures forms { IsTrue result → AreProperEntries (named_forms parts.now.forms.items) }
    ensures blocks { IsTrue result → All IsProperList parts.now.blocks.items }
{
    let texts = are_within(
        text_len(
            parts.active.as_slice(),
            parts.base.as_slice(),
            parts.frames.as_slice(),
        ),
        mark_count(parts.frames.as_slice()),
        parts.output.len(),
    );
    let rooms = are_within(parts.text_room, parts.mark_room, parts.output_room);
    let names = names_within(parts.names.as_slice());
    let forms = entries_within(parts.forms.as_slice());
    let blocks = blocks_within(parts.blocks.as_slice());
    texts & rooms & names & forms & blocks
}
