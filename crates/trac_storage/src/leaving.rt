//! Changes by which forms leave the store for a record: those that are deleted, and those that others replace.
ghost use Rattle.std.specs.Prelude.{◌≡◌, map, IfOk, IsOkUnless, OnErr, OnOk};
ghost use Rattle.std.specs.FinMap as finite;
ghost use Rattle.trac_rules.specs.Blocks.{moved_out, with_all};
ghost use Rattle.trac_rules.specs.Handling.{keeping, without};
ghost use Rattle.trac_forms.specs.Stored.{AreApart, storage_in};
ghost use Rattle.trac_change.specs.Changed.{named_forms};
ghost use Rattle.trac_change.specs.Undone.{undone_in};
ghost use Rattle.trac_text.specs.Framing.{texts_of};
ghost use Rattle.trac_rules.specs.Undone.{Restore, Unbring, names_in};
ghost use Rattle.trac_storage.specs.Changing.{AreAmong, KnowsSome, knowing};

use crate::blocking::{Named, know_each};
use std::alloc::Allocator;
use trac_change::Undone;
use trac_forms::{FormError, Store};
use trac_rules::refusal::Refusal;

// Deletes the forms of these names; a name without a form is passed over. Returns what that destroyed. It takes memory
// for the list of these forms, before any of them leaves.
pub(crate) fn delete_each<A: Allocator + Copy>(
    store: &mut Store<A>,
    alloc: A,
    names: Vec<Vec<u8, A>, A>,
) -> Result<Undone<A>, Refusal>
    ensures storage { OnOk result
        (storage_in store.new ≡ keeping (without (texts_of names.items) store.old.forms) (storage_in store.old)) }
    ensures undone { IfOk result
        (λ undone. undone_in undone ≡ Restore (moved_out (texts_of names.items) store.old.forms)) }
    ensures unchanged { OnErr result (storage_in store.new ≡ storage_in store.old) }
    ensures names { store.new.known ≡ store.old.known }
    ensures recent { AreAmong store.old.recent store.new.recent }
    ensures places { store.new.spare ≡ store.old.spare }
    ensures err { IsOkUnless result Refusal.Memory }
{
    let mut taken = Vec::with_capacity(alloc, names.len())?;
    for name in names {
        if let Some(form) = store.take(name.as_slice()) {
            taken.push_reserved((name, form));
        }
    }
    Ok(Undone::Restore(taken))
}

// Deletes all forms. Returns what that destroyed. It takes memory for copies of their names, and as `delete_each` does.
pub(crate) fn delete_all<A: Allocator + Copy>(
    store: &mut Store<A>,
    alloc: A,
) -> Result<Undone<A>, Refusal>
    ensures storage { OnOk result (storage_in store.new ≡ keeping finite.empty (storage_in store.old)) }
    ensures undone { IfOk result (λ undone. undone_in undone ≡ Restore (finite.entries store.old.forms)) }
    ensures unchanged { OnErr result (storage_in store.new ≡ storage_in store.old) }
    ensures names { store.new.known ≡ store.old.known }
    ensures recent { AreAmong store.old.recent store.new.recent }
    ensures places { store.new.spare ≡ store.old.spare }
    ensures err { IsOkUnless result Refusal.Memory }
{
    let copies = copies_of(alloc, store.names()?.as_slice())?;
    delete_each(store, alloc, copies)
}

// Copies of these texts.
fn copies_of<A: Allocator + Copy>(
    alloc: A,
    texts: &[&[u8]],
) -> Result<Vec<Vec<u8, A>, A>, FormError>
    ensures copies { IfOk result (λ copies. texts_of copies.items ≡ map (λ text. text.now) texts.now) }
    ensures err { IsOkUnless result FormError.Memory }
{
    let mut copies = Vec::with_capacity(alloc, texts.len())?;
    for text in texts {
        copies.push(Vec::from_slice(alloc, *text)?)?;
    }
    Ok(copies)
}

// Puts copies of the forms of the block of this number under their names, which are each different. Returns what that
// destroyed, which are the forms that they replace. It takes memory for the list of these, and also if a name is not
// known: all before any form is put.
pub(crate) fn bring<A: Allocator + Copy>(
    store: &mut Store<A>,
    alloc: A,
    number: usize,
    forms: Vec<Named<A>, A>,
) -> Result<Undone<A>, Refusal>
    requires { AreApart (named_forms forms.items) }
    ensures storage { OnOk result
        (storage_in store.new ≡ keeping (with_all (named_forms forms.items) store.old.forms) (storage_in store.old)) }
    ensures undone { IfOk result
        (λ undone. undone_in undone ≡ Unbring number (moved_out (names_in (named_forms forms.items)) store.old.forms)) }
    ensures unchanged { OnErr result (storage_in store.new ≡ storage_in store.old) }
    ensures names { OnOk result (store.new.known ≡ knowing (names_in (named_forms forms.items)) store.old.known) }
    ensures some { OnErr result (KnowsSome (names_in (named_forms forms.items)) store.old.known store.new.known) }
    ensures recent { AreAmong store.old.recent store.new.recent }
    ensures places { store.new.spare ≡ store.old.spare }
    ensures err { IsOkUnless result Refusal.Memory }
{
    let mut replaced = Vec::with_capacity(alloc, forms.len())?;
    know_each(store, forms.as_slice())?;
    for (name, form) in forms {
        if let Some(old) = store.put(name.as_slice(), form) {
            replaced.push_reserved((name, old));
        }
    }
    Ok(Undone::Unbring { number, replaced })
}
