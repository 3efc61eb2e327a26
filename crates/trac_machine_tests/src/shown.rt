//! What a machine shows of its state, written as texts. To end where memory is refused for what is added would be one
//! more return, which a proof carries through each caller: a text that lacks something says so at its end alone.
use std::alloc::{Allocator, Global};
use trac_forms::{Block, Form, Item, Store};
use trac_gap::TwoEnds;
use trac_step::{Args, Core, Kind, Mark};

// Names under which the programs of these tests keep forms.
const NAMES: &[&[u8]] = &[
    b"",
    b"A",
    b"AA",
    b"B",
    b"BB",
    b"E",
    b"F",
    b"Factorial",
    b"G",
    b"a",
    b"b",
];

// A text, and whether all is in it that was added.
#[derive(Drop)]
struct Listing {
    text: Vec<u8>,
    is_whole: bool,
}

impl Listing {
    fn new(plain: Global) -> Self {
        Listing {
            text: Vec::new(plain),
            is_whole: true,
        }
    }

    fn add(&mut self, text: &[u8]) {
        if self.text.extend_from_slice(text).is_err() {
            self.is_whole = false;
        }
    }

    // Eight bytes, so that a number can be told apart from any other.
    fn add_number(&mut self, number: usize) {
        self.add(&number.to_be_bytes());
    }

    fn whole(self) -> Option<Vec<u8>> {
        if self.is_whole { Some(self.text) } else { None }
    }
}

// A begun function as it is written, without its end.
fn add_function(out: &mut Listing, kind: Kind, arguments: &Args<'_>) {
    if kind == Kind::Neutral {
        out.add(b"#");
    }
    for k in 0..arguments.count() {
        out.add(if k == 0 { b"#(" } else { b"," });
        out.add(arguments.get(k));
    }
}

fn add_texts<E: TwoEnds<u8, A>, M: TwoEnds<Mark, A>, A: Allocator + Copy>(
    out: &mut Listing,
    machine: &Core<E, M, A>,
) {
    out.add(machine.base());
    for i in 0..machine.depth() {
        if let Some((kind, arguments)) = machine.frame(i) {
            add_function(out, kind, &arguments);
        }
    }
    out.add(b"^");
    out.add(machine.active());
}

/// The texts of a machine: its base text, the begun functions from the outermost on, a `^`, and
/// what is not scanned yet. None if memory was refused.
pub fn texts_shown<E: TwoEnds<u8, A>, M: TwoEnds<Mark, A>, A: Allocator + Copy>(
    plain: Global,
    machine: &Core<E, M, A>,
) -> Option<Vec<u8>> {
    let mut out = Listing::new(plain);
    add_texts(&mut out, machine);
    out.whole()
}

// How many bytes an argument has, of each of a function: the texts alone do not tell where these end.
fn add_lengths(out: &mut Listing, kind: Kind, arguments: &Args<'_>) {
    out.add_number((kind == Kind::Neutral) as usize);
    out.add_number(arguments.count());
    for k in 0..arguments.count() {
        out.add_number(arguments.get(k).len());
    }
}

// How long the base text and the active text are, how many functions are begun, and of each its kind and lengths.
fn add_shape<E: TwoEnds<u8, A>, M: TwoEnds<Mark, A>, A: Allocator + Copy>(
    out: &mut Listing,
    machine: &Core<E, M, A>,
) {
    out.add_number(machine.base().len());
    out.add_number(machine.active().len());
    out.add_number(machine.depth());
    for i in 0..machine.depth() {
        if let Some((kind, arguments)) = machine.frame(i) {
            add_lengths(out, kind, &arguments);
        }
    }
}

fn add_item(out: &mut Listing, item: Item) {
    match item {
        Item::Byte(byte) => out.add(&[0, byte]),
        Item::Gap { ordinal, width } => {
            out.add_number(ordinal as usize);
            out.add_number(width as usize);
        }
    }
}

fn add_form<A: Allocator + Copy>(out: &mut Listing, form: &Form<A>) {
    out.add_number(form.len());
    out.add_number(form.pointer());
    for i in 0..form.len() {
        if let Some(item) = form.item(i) {
            add_item(out, item);
        }
    }
}

fn add_forms<A: Allocator + Copy>(out: &mut Listing, store: &Store<A>) {
    out.add_number(store.form_count());
    for name in NAMES.iter() {
        match store.get(name) {
            Some(form) => add_form(out, form),
            None => out.add(b"none"),
        }
    }
}

fn add_block<A: Allocator + Copy>(out: &mut Listing, block: &Block<A>) {
    out.add_number(block.len());
    for i in 0..block.len() {
        if let Some((name, form)) = block.get(i) {
            out.add_number(name.len());
            out.add(name);
            add_form(out, form);
        }
    }
}

fn add_blocks<A: Allocator + Copy>(out: &mut Listing, store: &Store<A>) {
    out.add_number(store.block_count());
    for i in 0..store.block_count() {
        match store.block(i) {
            Some(block) => add_block(out, block),
            None => out.add(b"erased"),
        }
    }
}

/// All that a machine shows: its texts, its numbers, its forms and blocks, and what is printed; with what was released
/// before it: bytes of the output, and so many bytes of the input. None if memory was refused.
pub fn shown_after<E: TwoEnds<u8, A>, M: TwoEnds<Mark, A>, A: Allocator + Copy>(
    plain: Global,
    machine: &Core<E, M, A>,
    printed: &[u8],
    read: usize,
) -> Option<Vec<u8>> {
    let mut out = Listing::new(plain);
    add_texts(&mut out, machine);
    add_shape(&mut out, machine);
    out.add_number(machine.position().saturating_add(read));
    out.add(&[machine.meta(), machine.trace() as u8]);
    add_forms(&mut out, machine.store());
    add_blocks(&mut out, machine.store());
    out.add(printed);
    out.add(machine.output());
    out.whole()
}
