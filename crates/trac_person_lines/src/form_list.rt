//! The forms, listed and shown.

use crate::screen_line::Part::{Number, Shown, Words};
use crate::screen_line::{ScreenLine, put_line};
use std::alloc::{AllocError, Allocator};
use trac_forms::{Form, Store};
use trac_rules::item::Item;

/// Puts a line for each form at the end of a text, by the bytes of the names: how many items the form has, and its
/// name. It begins with a word, so that it is not taken for a line that says where the walker stands, nor for a prompt.
/// The error is that memory was refused, here and below.
pub fn list_into<A: Allocator + Copy>(
    alloc: A,
    store: &Store<A>,
    out: &mut Vec<u8, A>,
) -> Result<(), AllocError> {
    let names = store.names().map_err(|_| AllocError)?;
    if names.is_empty() {
        return out.extend_from_slice(b"there are no forms\n");
    }
    for name in &names {
        let len = store.get(name).map_or(0, |form| form.len());
        listed_into(alloc, name, len, out)?;
    }
    Ok(())
}

// Puts the line for a form of so many items at the end of a text.
fn listed_into<A: Allocator + Copy>(
    alloc: A,
    name: &[u8],
    len: usize,
    out: &mut Vec<u8, A>,
) -> Result<(), AllocError> {
    let parts = [
        Words(b"length "),
        Number(len as u64),
        Words(b"  "),
        Shown(name),
    ];
    put_line(alloc, &parts, out)
}

/// Puts the form of a name at the end of a text, all of it, in one line: a gap of number k as `[k]`, and the pointer as
/// `[^]`. The bytes are shown as `trac debug` shows them, so none of them is taken for these.
pub fn form_into<A: Allocator + Copy>(
    alloc: A,
    store: &Store<A>,
    name: &[u8],
    out: &mut Vec<u8, A>,
) -> Result<(), AllocError> {
    let Some(form) = store.get(name) else {
        return out.extend_from_slice(b"there is no form of this name\n");
    };
    let mut line = ScreenLine::uncut(alloc);
    line.say(b"form    ");
    items_into(alloc, form, 0, usize::MAX, &mut line)?;
    line.end_into(out)
}

/// Puts so many items of a form at the end of a line, or all that there are from this one on, with its pointer.
pub(crate) fn items_into<A: Allocator + Copy>(
    alloc: A,
    form: &Form<A>,
    from: usize,
    most: usize,
    line: &mut ScreenLine<A>,
) -> Result<(), AllocError> {
    let pointer = form.pointer();
    let mut run = Vec::new(alloc);
    for place in from..form.len().min(from.saturating_add(most)) {
        if place == pointer {
            end_run(&mut run, b"[^]", line);
        }
        match form.item(place) {
            Some(Item::Byte(byte)) => run.push(byte)?,
            Some(Item::Gap { ordinal, width: _ }) => {
                end_run(&mut run, b"[", line);
                line.put(&[Number(u64::from(ordinal)), Words(b"]")]);
            }
            None => {}
        }
    }
    end_run(&mut run, b"", line);
    if pointer == form.len() {
        line.say(b"[^]");
    }
    Ok(())
}

// Puts bytes of a form that stand together at the end of a line, and a mark after them.
fn end_run<A: Allocator + Copy>(run: &mut Vec<u8, A>, mark: &[u8], line: &mut ScreenLine<A>) {
    line.show(run.as_slice());
    line.say(mark);
    run.clear();
}
