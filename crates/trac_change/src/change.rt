//! What a call will change among the forms and blocks.
ghost use Rattle.std.specs.Prelude.{◌≡◌, IfOk, IsOkUnless};
ghost use Rattle.trac_change.specs.Naming.{IsNamed, unnamed};

use std::alloc::{Allocator, Global};
use trac_forms::{Cut, Form};
use trac_rules::refusal::Refusal;

/// A change of the forms and blocks, its pieces already made.
#[derive(Drop)]
pub enum Change<A: Allocator + Copy = Global> {
    /// The forms stay as they are.
    Keep,
    /// A form is put under a name, in place of an earlier one.
    Put(Vec<u8, A>, Form<A>),
    /// The texts that the call gives after this name are cut out of the form of this name:
    /// these are the gaps that this makes.
    Cut(Vec<u8, A>, Cut<A>),
    /// The forms of these names are deleted; names without a form are passed over.
    Remove(Vec<Vec<u8, A>, A>),
    /// All forms are deleted.
    Clear,
    /// The pointer of the form of this name, if there is one, is set: so many items are before it then.
    Point(Vec<u8, A>, usize),
    /// Forms are moved into a new block, and then a form is put under a name.
    MoveIn {
        /// The names of the forms that are moved, in their order: each has a form, and none stands twice.
        held: Vec<Vec<u8, A>, A>,
        /// The name under which the number of the block is put.
        name: Vec<u8, A>,
        /// The number of the block as a form.
        address: Form<A>,
    },
    /// Copies of a block's forms are put among the forms, each in place of an earlier one of its name.
    Bring {
        /// The number of the block.
        number: usize,
        /// The copies with their names, in the block's order.
        forms: Vec<(Vec<u8, A>, Form<A>), A>,
    },
    /// A block is erased, and a form deleted.
    Erase {
        /// The number of the block.
        number: usize,
        /// The name of the form.
        name: Vec<u8, A>,
    },
}

/// A change as it is planned and made. It holds no copy of the name that the call gives: this is the first argument
/// after the name of the primitive, and stands there all the while.
#[derive(Drop)]
pub enum UnnamedChange<A: Allocator + Copy = Global> {
    /// The forms stay as they are.
    Keep,
    /// This form is put under the name, in place of an earlier one.
    Put(Form<A>),
    /// The texts that the call gives after the name are cut out of the form of the name: these are the gaps that this
    /// makes.
    Cut(Cut<A>),
    /// The forms of these names are deleted; names without a form are passed over.
    Remove(Vec<Vec<u8, A>, A>),
    /// All forms are deleted.
    Clear,
    /// The pointer of the form of the name, if there is one, is set: so many items are before it then.
    Point(usize),
    /// Forms are moved into a new block, and then a form is put under the name.
    MoveIn {
        /// The names of the forms that are moved, in their order: each has a form, and none stands twice.
        held: Vec<Vec<u8, A>, A>,
        /// The number of the block as a form.
        address: Form<A>,
    },
    /// Copies of a block's forms are put among the forms, each in place of an earlier one of its name.
    Bring {
        /// The number of the block.
        number: usize,
        /// The copies with their names, in the block's order.
        forms: Vec<(Vec<u8, A>, Form<A>), A>,
    },
    /// A block is erased, and the form of the name deleted.
    Erase {
        /// The number of the block.
        number: usize,
    },
}

impl<A: Allocator + Copy> UnnamedChange<A> {
    /// This change with a copy of its name. Refused with `Memory` if the allocator refuses; only a change that has a
    /// name takes memory.
    pub fn with_name(self, alloc: A, name: &[u8]) -> Result<Change<A>, Refusal>
        ensures change { IfOk result (λ change. unnamed change ≡ self) }
        ensures named { IfOk result (IsNamed name.now) }
        ensures err { IsOkUnless result Refusal.Memory }
    {
        match self {
            UnnamedChange::Keep => Ok(Change::Keep),
            UnnamedChange::Put(form) => Ok(Change::Put(Vec::from_slice(alloc, name)?, form)),
            UnnamedChange::Cut(cut) => Ok(Change::Cut(Vec::from_slice(alloc, name)?, cut)),
            UnnamedChange::Remove(names) => Ok(Change::Remove(names)),
            UnnamedChange::Clear => Ok(Change::Clear),
            UnnamedChange::Point(place) => Ok(Change::Point(Vec::from_slice(alloc, name)?, place)),
            UnnamedChange::MoveIn { held, address } => Ok(Change::MoveIn {
                held,
                name: Vec::from_slice(alloc, name)?,
                address,
            }),
            UnnamedChange::Bring { number, forms } => Ok(Change::Bring { number, forms }),
            UnnamedChange::Erase { number } => Ok(Change::Erase {
                number,
                name: Vec::from_slice(alloc, name)?,
            }),
        }
    }
}
