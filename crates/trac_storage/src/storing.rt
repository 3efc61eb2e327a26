//! A store from lists of forms, blocks and names.
ghost use Rattle.std.specs.Prelude.{◌≡◌, ◌-◌, ◌++◌, ◌∷◌, ◌≤◌, [], map, option_map, IfErr, IfOk, IsOkUnless, IsTrue, Ok};
ghost use Rattle.std.specs.Prelude.{OnOk, Some, None, true};
ghost use Rattle.std.specs.FinSet as set;
ghost use Rattle.std.specs.List.{All, list_all};
ghost use Rattle.trac_rules.specs.Outcomes.{MayAnswer, MayRefuse, limited};
ghost use Rattle.trac_rules.specs.State.{storage_of};
ghost use Rattle.trac_forms.specs.Stored.{KnowsAll, storage_in};
ghost use Rattle.trac_change.specs.Changed.{named_forms};
ghost use Rattle.trac_text.specs.Framing.{texts_of};
ghost use Rattle.trac_storage.specs.Changing.{AreAmong, KnowsNamed};
ghost use Rattle.trac_storage.specs.Loading.{block_few, block_of, counts_fit, forms_of, held_of, state_in};

use crate::blocking::{Named, move_into};
use crate::parts::Parts;
use std::alloc::Allocator;
use trac_forms::{Block, FormError, Store};
use trac_rules::limit::FORM_COUNT_LIMIT;
use trac_rules::refusal::Refusal;

// A store of copies of these forms, which knows their names.
fn store_of<A: Allocator + Copy>(alloc: A, forms: &[Named<A>]) -> Result<Store<A>, FormError>
    ensures forms { IfOk result
        (λ store. storage_in store ≡ record { forms = forms_of (named_forms forms.now); blocks = [] }) }
    ensures names { IfOk result (λ store. KnowsNamed (named_forms forms.now) store.known) }
    ensures err { IsOkUnless result FormError.Memory }
{
    let mut store = Store::new(alloc);
    for (name, form) in forms {
        store.insert(name.as_slice(), form.copy()?)?;
    }
    Ok(store)
}

// A block of copies of these forms. If a name stands again, its last form stands in the first one's place. So all forms
// go into a store first, and leave it in the order of their names.
fn block_with<A: Allocator + Copy>(alloc: A, forms: &[Named<A>]) -> Result<Block<A>, FormError>
    ensures held { IfOk result (λ block. block.held ≡ held_of (named_forms forms.now)) }
    ensures err { IsOkUnless result FormError.Memory }
{
    let mut names = Vec::with_capacity(alloc, forms.len())?;
    for (name, _form) in forms {
        names.push(Vec::from_slice(alloc, name.as_slice())?)?;
    }
    let mut block = Block::with_room(alloc, names.len())?;
    let mut store = store_of(alloc, forms)?;
    move_into(&mut store, names, &mut block);
    Ok(block)
}

// The same, unless there are too many forms; an erased block is none.
fn copied_block<A: Allocator + Copy>(
    alloc: A,
    forms: &Option<Vec<Named<A>, A>>,
) -> Result<Option<Block<A>>, Refusal>
    ensures { MayAnswer (λ block. option_map (λ b. b.held) block) (limited block_few (Ok (block_of forms.now))) result }
{
    let Some(forms) = forms else {
        return Ok(None);
    };
    let block = block_with(alloc, forms.as_slice())?;
    if block.len() > FORM_COUNT_LIMIT {
        return Err(Refusal::TooLong);
    }
    Ok(Some(block))
}

// Puts a block after all others, or, if there is none, an erased one. A place has to be spare.
fn push_any<A: Allocator + Copy>(
    alloc: A,
    store: &mut Store<A>,
    block: Option<Block<A>>,
) -> Result<(), FormError>
    requires { 1 ≤ store.old.spare }
    ensures pushed { OnOk result (store.new ≡ record store.old {
      blocks = store.old.blocks ++ option_map (λ b. b.held) block ∷ [];
      spare = store.old.spare - 1;
    }) }
    ensures err { IsOkUnless result FormError.Memory }
{
    let Some(block) = block else {
        let number = store.block_count();
        store.push_block(Block::with_room(alloc, 0)?);
        store.take_block(number);
        return Ok(());
    };
    store.push_block(block);
    Ok(())
}

// Puts copies of these blocks after all others.
fn push_copies<A: Allocator + Copy>(
    alloc: A,
    store: &mut Store<A>,
    blocks: &[Option<Vec<Named<A>, A>>],
) -> Result<(), Refusal>
    ensures pushed { OnOk result (storage_in store.new
        ≡ record (storage_in store.old) { blocks = store.old.blocks ++ map block_of blocks.now }) }
    ensures names { OnOk result (store.new.known ≡ store.old.known) }
    ensures few { OnOk result (list_all block_few (map block_of blocks.now) ≡ true) }
    ensures err { IfErr result (MayRefuse (limited (λ bs. list_all block_few bs) (Ok (map block_of blocks.now)))) }
{
    store.reserve_blocks(blocks.len())?;
    for forms in blocks {
        let block = copied_block(alloc, forms)?;
        push_any(alloc, store, block)?;
    }
    Ok(())
}

// Makes a place for each of these names.
fn know_names<A: Allocator + Copy>(
    store: &mut Store<A>,
    names: &[Vec<u8, A>],
) -> Result<(), FormError>
    ensures known { OnOk result (All (λ name. IsTrue (set.contains store.new.known name)) (texts_of names.now)) }
    ensures kept { storage_in store.new ≡ storage_in store.old }
    ensures names { AreAmong store.old.known store.new.known }
    ensures err { IsOkUnless result FormError.Memory }
{
    for name in names {
        store.know(name.as_slice())?;
    }
    Ok(())
}

/// A store of copies of the forms and blocks of parts, which knows the names of the forms and the further names.
///
/// Refused with `TooLong` if there are too many forms, or too many in a block. Refused with `Memory` if the allocator
/// refuses, which may come first.
pub fn stored<A: Allocator + Copy>(alloc: A, parts: &Parts<A>) -> Result<Store<A>, Refusal>
    ensures answer { MayAnswer (λ store. storage_in store)
        (limited counts_fit (Ok (storage_of (state_in parts.now)))) result }
    ensures names { IfOk result (λ store. KnowsAll store.known store.forms) }
    ensures further { IfOk result
        (λ store. All (λ name. IsTrue (set.contains store.known name)) (texts_of parts.now.names.items)) }
{
    let mut store = store_of(alloc, parts.forms.as_slice())?;
    if store.form_count() > FORM_COUNT_LIMIT {
        return Err(Refusal::TooLong);
    }
    push_copies(alloc, &mut store, parts.blocks.as_slice())?;
    know_names(&mut store, parts.names.as_slice())?;
    Ok(store)
}
