//! Changing forms and blocks as a call planned it.
ghost use Rattle.std.specs.Prelude.{◌≡◌, ◌≤◌, ◌+◌, drop, is_some, IfOk, IfSome, IsOk, IsOkUnless, IsTrue, OnErr, OnOk};
ghost use Rattle.std.specs.Prelude.{Some};
ghost use Rattle.std.specs.FinMap as finite;
ghost use Rattle.std.specs.FinSet as set;
ghost use Rattle.trac_rules.specs.Blocks.{block_at, erased, put_aside};
ghost use Rattle.trac_rules.specs.Cuts.{cut_of};
ghost use Rattle.trac_rules.specs.Handling.{without};
ghost use Rattle.trac_rules.specs.Proper.{IsProperStorage};
ghost use Rattle.trac_rules.specs.Undone.{MoveOut, Swap, block_lost, pointer_lost};
ghost use Rattle.trac_forms.specs.Stored.{storage_in};
ghost use Rattle.trac_change.specs.Changes.{PiecesAreOf, cut_lost, undone_of};
ghost use Rattle.trac_change.specs.Changed.{changed, cut_in, pointed, with_form};
ghost use Rattle.trac_text.specs.Framing.{texts_of};
ghost use Rattle.trac_storage.specs.Changing.{AreAmong, HasPlaces, IsOther, KnowsSome, TakesNone, knowing};
ghost use Rattle.trac_storage.specs.Changing.{names_put};
ghost use Rattle.trac_change.specs.Undone.{undone_in};

use crate::blocking::move_into;
use crate::leaving::{bring, delete_all, delete_each};
use std::alloc::Allocator;
use std::mem;
use trac_change::{Undone, UnnamedChange, after};
use trac_forms::{Block, Cut, Form, Store};
use trac_rules::refusal::Refusal;
use trac_text::Args;

/// Changes forms and blocks as a call of these arguments planned it, and returns what that destroyed. The names under
/// which it puts forms are known then, and no other name becomes known or is forgotten. Names that are recent stay so.
/// What stands in `change` after it is not claimed: what was planned may have been taken out of there, even if the call
/// is refused.
///
/// Refused with `Memory` if the allocator refuses, and then forms and blocks are as before. Setting a pointer, cutting
/// and erasing take no memory, and putting a form takes some only if its name is not known. But for that, these are
/// never refused.
pub fn change_forms<A: Allocator + Copy>(
    store: &mut Store<A>,
    alloc: A,
    arguments: &Args<'_>,
    change: &mut UnnamedChange<A>,
) -> Result<Undone<A>, Refusal>
    requires pieces { PiecesAreOf arguments.now (storage_in store.old) change.old }
    requires proper { IsProperStorage (storage_in store.old) }
    ensures storage { OnOk result (storage_in store.new ≡ changed arguments.now change.old (storage_in store.old)) }
    ensures undone { IfOk result
        (λ undone. undone_in undone ≡ undone_of arguments.now change.old (storage_in store.old)) }
    ensures unchanged { OnErr result (storage_in store.new ≡ storage_in store.old) }
    ensures names { OnOk result (store.new.known ≡ knowing (names_put arguments.now change.old) store.old.known) }
    ensures some { OnErr result (KnowsSome (names_put arguments.now change.old) store.old.known store.new.known) }
    ensures recent { AreAmong store.old.recent store.new.recent }
    ensures places { HasPlaces change.old store.old.spare store.new.spare }
    ensures free { TakesNone arguments.now store.old.known change.old → IsOk result }
    ensures err { IsOkUnless result Refusal.Memory }
{
    // Most changes set a pointer or define a form: these are made at once, and the first leaves the
    // change where it stands.
    let name = arguments.get(1);
    if let UnnamedChange::Point(place) = change {
        return Ok(set_pointer(store, name, *place));
    }
    match mem::replace(change, UnnamedChange::Keep) {
        UnnamedChange::Put(form) => Ok(Undone::Swap(store.insert(name, form)?)),
        other => change_other(store, alloc, arguments, other),
    }
}

// Makes any of the other changes, as `change_forms` says. It is compiled apart, since it is seldom called and clears
// room for all that it may make.
#[inline(never)]
fn change_other<A: Allocator + Copy>(
    store: &mut Store<A>,
    alloc: A,
    arguments: &Args<'_>,
    change: UnnamedChange<A>,
) -> Result<Undone<A>, Refusal>
    requires other { IsOther change }
    requires pieces { PiecesAreOf arguments.now (storage_in store.old) change }
    requires proper { IsProperStorage (storage_in store.old) }
    ensures storage { OnOk result (storage_in store.new ≡ changed arguments.now change (storage_in store.old)) }
    ensures undone { IfOk result (λ undone. undone_in undone ≡ undone_of arguments.now change (storage_in store.old)) }
    ensures unchanged { OnErr result (storage_in store.new ≡ storage_in store.old) }
    ensures names { OnOk result (store.new.known ≡ knowing (names_put arguments.now change) store.old.known) }
    ensures some { OnErr result (KnowsSome (names_put arguments.now change) store.old.known store.new.known) }
    ensures recent { AreAmong store.old.recent store.new.recent }
    ensures places { HasPlaces change store.old.spare store.new.spare }
    ensures free { TakesNone arguments.now store.old.known change → IsOk result }
    ensures err { IsOkUnless result Refusal.Memory }
{
    let name = arguments.get(1);
    match change {
        UnnamedChange::Put(_) | UnnamedChange::Point(_) => unreachable!(),
        UnnamedChange::Keep => Ok(Undone::Nothing),
        UnnamedChange::Cut(cut) => Ok(cut_out(store, arguments, name, cut)),
        UnnamedChange::Remove(names) => delete_each(store, alloc, names),
        UnnamedChange::Clear => delete_all(store, alloc),
        UnnamedChange::MoveIn { held, address } => put_aside(store, alloc, held, name, address),
        UnnamedChange::Bring { number, forms } => bring(store, alloc, number, forms),
        UnnamedChange::Erase { number } => Ok(erase(store, number, name)),
    }
}

// Cuts the texts that the arguments give after the name out of the form of this name, if there is one:
// these are the gaps that this makes.
fn cut_out<A: Allocator + Copy>(
    store: &mut Store<A>,
    arguments: &Args<'_>,
    name: &[u8],
    cut: Cut<A>,
) -> Undone<A>
    requires { IfSome (finite.get store.old.forms name.now) (λ form. cut ≡ cut_of (drop 2 arguments.now) form) }
    ensures storage { storage_in store.new
        ≡ cut_in name.now (drop 2 arguments.now) (finite.get store.old.forms name.now) (storage_in store.old) }
    ensures undone { undone_in result ≡ cut_lost cut (finite.get store.old.forms name.now) }
    ensures names { store.new.known ≡ store.old.known }
    ensures recent { AreAmong store.old.recent store.new.recent }
    ensures places { store.new.spare ≡ store.old.spare }
{
    match store.segment(name, &cut, &after(arguments, 2)) {
        Some(pointer) => Undone::Join { cut, pointer },
        None => Undone::Nothing,
    }
}

// Sets the pointer of the form of this name, if there is one. The pointer then stands before the item at this place, or
// at the end if the form has none there. Returns what that destroyed, which is where the pointer stood.
fn set_pointer<A: Allocator + Copy>(store: &mut Store<A>, name: &[u8], place: usize) -> Undone<A>
    ensures storage { storage_in store.new
        ≡ pointed name.now place (finite.get store.old.forms name.now) (storage_in store.old) }
    ensures undone { undone_in result ≡ pointer_lost (finite.get store.old.forms name.now) }
    ensures names { store.new.known ≡ store.old.known }
    ensures recent { AreAmong store.old.recent store.new.recent }
    ensures places { store.new.spare ≡ store.old.spare }
{
    match store.set_pointer(name, place) {
        Some(old) => Undone::Point(old),
        None => Undone::Nothing,
    }
}

// Moves the forms of these names into a new block, and puts its address under a name. Returns what that destroyed,
// which is what the address replaces. It takes memory for the block, for its place, and also if the name is not known:
// all before any form leaves.
fn put_aside<A: Allocator + Copy>(
    store: &mut Store<A>,
    alloc: A,
    held: Vec<Vec<u8, A>, A>,
    name: &[u8],
    address: Form<A>,
) -> Result<Undone<A>, Refusal>
    ensures storage { OnOk result
        (storage_in store.new ≡ with_form name.now address (put_aside (texts_of held.items) (storage_in store.old))) }
    ensures undone { IfOk result
        (λ undone. undone_in undone ≡ MoveOut (finite.get (without (texts_of held.items) store.old.forms) name.now)) }
    ensures unchanged { OnErr result (storage_in store.new ≡ storage_in store.old) }
    ensures names { OnOk result (store.new.known ≡ set.insert store.old.known name.now) }
    ensures same { OnErr result (store.new.known ≡ store.old.known) }
    ensures recent { AreAmong store.old.recent store.new.recent }
    ensures places { store.old.spare ≤ store.new.spare + 1 }
    ensures err { IsOkUnless result Refusal.Memory }
{
    let mut block = Block::with_room(alloc, held.len())?;
    store.reserve_blocks(1)?;
    store.know(name)?;
    move_into(store, held, &mut block);
    store.push_block(block);
    Ok(Undone::MoveOut(store.put(name, address)))
}

// Erases the block of this number, which is not erased, and deletes the form of this name.
fn erase<A: Allocator + Copy>(store: &mut Store<A>, number: usize, name: &[u8]) -> Undone<A>
    requires { IsTrue (is_some (block_at number store.old.blocks)) }
    ensures storage { storage_in store.new ≡ erased number name.now (storage_in store.old) }
    ensures undone { undone_in result
        ≡ block_lost (Some number) (finite.get store.old.forms name.now) store.old.blocks }
    ensures names { store.new.known ≡ store.old.known }
    ensures recent { AreAmong store.old.recent store.new.recent }
    ensures places { store.new.spare ≡ store.old.spare }
{
    let Some(block) = store.take_block(number) else {
        unreachable!()
    };
    match store.take(name) {
        Some(address) => Undone::Unerase {
            number,
            block,
            address,
        },
        None => Undone::Nothing,
    }
}
