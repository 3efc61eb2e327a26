//! The way back over a call, on forms and blocks.
ghost use Rattle.std.specs.Prelude.{◌≡◌, None, Some};
ghost use Rattle.trac_rules.specs.Handling.{keeping};
ghost use Rattle.trac_rules.specs.Undone.{MoveOut, storage_before, swapped_back, unbrought};
ghost use Rattle.trac_forms.specs.Stored.{storage_in};
ghost use Rattle.trac_change.specs.Changed.{named_forms};
ghost use Rattle.trac_storage.specs.Changing.{AreAmong};
ghost use Rattle.trac_storage.specs.Returning.{KnowsBefore, recent_back};
ghost use Rattle.trac_change.specs.Undone.{undone_in};

use crate::blocking::put_each;
use std::alloc::Allocator;
use trac_change::{Undone, after};
use trac_forms::{Form, Store};
use trac_text::Args;

/// Puts back what a call of these arguments destroyed of forms and blocks. It takes no memory, and forgets no name.
/// Names that are recent stay so.
/// There have to be forms and blocks before the call (`storage_before`), and the names of these forms have to be known.
pub fn put_storage<A: Allocator + Copy>(
    store: &mut Store<A>,
    arguments: &Args<'_>,
    undone: Undone<A>,
)
    requires { KnowsBefore store.old.known (storage_before arguments.now (undone_in undone) (storage_in store.old)) }
    ensures storage { storage_before arguments.now (undone_in undone) (storage_in store.old)
        ≡ Some (storage_in store.new) }
    ensures names { store.new.known ≡ store.old.known }
    ensures recent { AreAmong store.old.recent store.new.recent }
{
    let name = arguments.get(1);
    match undone {
        Undone::Nothing => {}
        Undone::Point(place) => {
            store.set_pointer(name, place);
        }
        Undone::Join { cut, pointer } => store.unsegment(name, cut, &after(arguments, 2), pointer),
        Undone::Swap(old) => swap(store, name, old),
        Undone::Restore(forms) => put_each(store, forms),
        Undone::MoveOut(old) => move_out(store, arguments, old),
        Undone::Unbring { number, replaced } => unbring(store, number, replaced),
        Undone::Unerase {
            number,
            block,
            address,
        } => {
            store.set_block(number, block);
            store.put(name, address);
        }
    }
}

// Puts a form under a name again, or takes away the one that is there.
fn swap<A: Allocator + Copy>(store: &mut Store<A>, name: &[u8], old: Option<Form<A>>)
    requires { KnowsBefore store.old.known
        (Some (keeping (swapped_back name.now old store.old.forms) (storage_in store.old))) }
    ensures { store.new ≡ record store.old {
      forms = swapped_back name.now old store.old.forms;
      recent = recent_back name.now old store.old.recent;
    } }
{
    match old {
        Some(form) => store.put(name, form),
        None => store.take(name),
    };
}

// Takes the last block off the list. Under the name that the arguments give it puts the earlier form again, or, if
// there was none, leaves no form. Then it puts back what the block holds.
fn move_out<A: Allocator + Copy>(store: &mut Store<A>, arguments: &Args<'_>, old: Option<Form<A>>)
    requires { KnowsBefore store.old.known (storage_before arguments.now (MoveOut old) (storage_in store.old)) }
    ensures storage { storage_before arguments.now (MoveOut old) (storage_in store.old) ≡ Some (storage_in store.new) }
    ensures names { store.new.known ≡ store.old.known }
    ensures recent { AreAmong store.old.recent store.new.recent }
{
    let name = arguments.get(1);
    let Some(mut block) = store.pop_block() else {
        unreachable!()
    };
    swap(store, name, old);
    // The contract of `len` says that no name stands twice in a block. So its forms may be put from the last one on.
    let _len = block.len();
    while let Some((name, form)) = block.pop() {
        store.put(name.as_slice(), form);
    }
}

// Takes away the forms of all names in the block of this number, and puts back those that they replaced.
fn unbring<A: Allocator + Copy>(
    store: &mut Store<A>,
    number: usize,
    replaced: Vec<(Vec<u8, A>, Form<A>), A>,
)
    requires { KnowsBefore store.old.known (unbrought number (named_forms replaced.items) (storage_in store.old)) }
    ensures storage { unbrought number (named_forms replaced.items) (storage_in store.old)
        ≡ Some (storage_in store.new) }
    ensures names { store.new.known ≡ store.old.known }
    ensures recent { AreAmong store.old.recent store.new.recent }
{
    let Some(block) = store.take_block(number) else {
        unreachable!()
    };
    for i in 0..block.len() {
        let Some((name, _form)) = block.get(i) else {
            unreachable!()
        };
        store.take(name);
    }
    store.set_block(number, block);
    put_each(store, replaced);
}
