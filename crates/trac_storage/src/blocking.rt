//! Many forms at once: places for them are made, they move into a block, or are put under their names.
ghost use Rattle.std.specs.Prelude.{◌≡◌, ◌≤◌, [], length, IsOkUnless, OnErr, OnOk};
ghost use Rattle.trac_rules.specs.Blocks.{moved_out, with_all};
ghost use Rattle.trac_rules.specs.Handling.{without};
ghost use Rattle.trac_rules.specs.Undone.{names_in};
ghost use Rattle.trac_change.specs.Changed.{named_forms};
ghost use Rattle.trac_text.specs.Framing.{texts_of};
ghost use Rattle.trac_storage.specs.Changing.{AreAmong, KnowsNamed, KnowsSome, knowing};

use std::alloc::Allocator;
use trac_forms::{Block, Form, FormError, Store};

/// A form with its name.
pub(crate) type Named<A> = (Vec<u8, A>, Form<A>);

// Makes a place for each of these forms. The forms of the store stay as they are.
pub(crate) fn know_each<A: Allocator + Copy>(
    store: &mut Store<A>,
    forms: &[Named<A>],
) -> Result<(), FormError>
    ensures names { OnOk result (store.new.known ≡ knowing (names_in (named_forms forms.now)) store.old.known) }
    ensures some { OnErr result (KnowsSome (names_in (named_forms forms.now)) store.old.known store.new.known) }
    ensures recent { AreAmong store.old.recent store.new.recent }
    ensures stays { store.new ≡ record store.old { known = store.new.known; recent = store.new.recent } }
    ensures err { IsOkUnless result FormError.Memory }
{
    for (name, _form) in forms {
        store.know(name.as_slice())?;
    }
    Ok(())
}

// Moves the forms of these names out of the store into a block that has places for them and holds none; a name
// without a form is passed over.
pub(crate) fn move_into<A: Allocator + Copy>(
    store: &mut Store<A>,
    names: Vec<Vec<u8, A>, A>,
    block: &mut Block<A>,
)
    requires none { block.old.held ≡ [] }
    requires room { length names.items ≤ block.old.room }
    ensures store { store.new ≡ record store.old { forms = without (texts_of names.items) store.old.forms } }
    ensures block { block.new.held ≡ moved_out (texts_of names.items) store.old.forms }
{
    for name in names {
        if let Some(form) = store.take(name.as_slice()) {
            block.push(name, form);
        }
    }
}

// Puts forms under their names, which are known, and are recent then.
pub(crate) fn put_each<A: Allocator + Copy>(store: &mut Store<A>, forms: Vec<Named<A>, A>)
    requires { KnowsNamed (named_forms forms.items) store.old.known }
    ensures { store.new ≡ record store.old {
      forms = with_all (named_forms forms.items) store.old.forms;
      recent = knowing (names_in (named_forms forms.items)) store.old.recent;
    } }
{
    for (name, form) in forms {
        store.put(name.as_slice(), form);
    }
}
