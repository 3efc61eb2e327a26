//! Calling a form: its gaps are filled with the call's texts.
ghost use Rattle.std.specs.Prelude.{◌≡◌, ◌++◌, ◌≤◌, length, OnOk, OnErr, IsOkUnless, SomeIff};
ghost use Rattle.trac_rules.specs.Fronts.{IsFrontOf};
ghost use Rattle.trac_rules.specs.Filling.{all_filled, called, filled, text_numbered};

use crate::error::FormError;
use crate::form::Form;
use std::alloc::Allocator;
use trac_items::{PackedItem, Texts, first_run_into, run_len, text_within};
use trac_rules::item::Item;
use trac_rules::limit::TEXT_LIMIT;

impl<A: Allocator + Copy> Form<A> {
    /// How many bytes a call with these texts would give, found without building them; `None` if these are more than
    /// 16,777,216. It takes no memory.
    pub fn call_len<T: Texts>(&self, args: &T) -> Option<usize>
        ensures { SomeIff result (length (called (T.texts args.now) self.now) ≤ TEXT_LIMIT)
            (length (called (T.texts args.now) self.now)) }
    {
        let after = self.after();
        if after.text.is_empty() {
            return all_filled_len(after.items, args, TEXT_LIMIT);
        }
        text_within(after.text, TEXT_LIMIT)
    }

    /// Puts the value of a call with these texts at the end of `out`. The value is the bytes after the pointer, with
    /// each gap replaced by the text of its number, which counts from 1. A text that is missing is empty. The pointer
    /// stays. This is the rule of `cl`; that it starts at the pointer is this project's profile.
    ///
    /// Refused with `Memory` if the allocator refuses; then `out` still begins with what it held.
    pub fn call_into<T: Texts, B: Allocator>(
        &self,
        args: &T,
        out: &mut Vec<u8, B>,
    ) -> Result<(), FormError>
        ensures ok { OnOk result (out.new.items ≡ out.old.items ++ called (T.texts args.now) self.now) }
        ensures left { OnErr result (IsFrontOf out.old.items out.new.items) }
        ensures err { IsOkUnless result FormError.Memory }
    {
        let after = self.after();
        if after.text.is_empty() {
            return fill_all_into(after.items, args, out);
        }
        Ok(out.extend_from_slice(after.text)?)
    }
}

// How many bytes these items give in a call, if that is no more than `most`.
fn all_filled_len<T: Texts>(items: &[PackedItem], args: &T, most: usize) -> Option<usize>
    ensures { SomeIff result (length (all_filled (T.texts args.now) items.now) ≤ most)
        (length (all_filled (T.texts args.now) items.now)) }
{
    let mut total = 0;
    let mut rest = items;
    'runs: loop {
        let (run, after) = rest.split_at(run_len(rest));
        if run.len() > most - total {
            return None;
        }
        total += run.len();
        let Some((item, after)) = after.split_first() else {
            return Some(total);
        };
        let len = filled_len(*item, args);
        if len > most - total {
            return None;
        }
        total += len;
        rest = after;
    }
}

// Puts what these items give in a call at the end of `out`.
fn fill_all_into<T: Texts, B: Allocator>(
    items: &[PackedItem],
    args: &T,
    out: &mut Vec<u8, B>,
) -> Result<(), FormError>
    ensures ok { OnOk result (out.new.items ≡ out.old.items ++ all_filled (T.texts args.now) items.now) }
    ensures left { OnErr result (IsFrontOf out.old.items out.new.items) }
    ensures err { IsOkUnless result FormError.Memory }
{
    let mut rest = items;
    'runs: loop {
        out.reserve(rest.len())?;
        let run = first_run_into(rest, out);
        let Some((item, after)) = rest.split_at(run).1.split_first() else {
            return Ok(());
        };
        fill_into(*item, args, out)?;
        rest = after;
    }
}

// How many bytes an item gives in a call.
fn filled_len<T: Texts>(item: PackedItem, args: &T) -> usize
    ensures { result ≡ length (filled (T.texts args.now) item) }
{
    match item.item() {
        Item::Byte(_) => 1,
        Item::Gap { ordinal, width: _ } => text(args, ordinal).len(),
    }
}

// Puts what an item gives in a call at the end of `out`.
fn fill_into<T: Texts, B: Allocator>(
    item: PackedItem,
    args: &T,
    out: &mut Vec<u8, B>,
) -> Result<(), FormError>
    ensures ok { OnOk result (out.new.items ≡ out.old.items ++ filled (T.texts args.now) item) }
    ensures left { OnErr result (out.new.items ≡ out.old.items) }
    ensures err { IsOkUnless result FormError.Memory }
{
    match item.item() {
        Item::Byte(b) => Ok(out.push(b)?),
        Item::Gap { ordinal, width: _ } => {
            out.extend_from_slice(text(args, ordinal))?;
            Ok(())
        }
    }
}

// The text of this number, the first being number 1; empty if it is missing.
pub(crate) fn text<T: Texts>(texts: &T, number: u32) -> &[u8]
    ensures { result.now ≡ text_numbered number (T.texts texts.now) }
{
    if number == 0 {
        return &[];
    }
    texts.get(number as usize - 1)
}
