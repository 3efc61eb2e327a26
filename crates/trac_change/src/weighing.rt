//! How much a call's loss of forms and blocks weighs.
ghost use Rattle.std.specs.Prelude.{◌≡◌, ◌<◌, ◌^◌};
ghost use Rattle.trac_rules.specs.Weights.{held_weight, undone_weight};
ghost use Rattle.trac_change.specs.Changed.{named_forms};
ghost use Rattle.trac_change.specs.Undone.{undone_in};

use crate::undone::Undone;
use std::alloc::Allocator;
use trac_forms::{Block, Form};

impl<A: Allocator + Copy> Undone<A> {
    /// What this weighs: items of forms, one for each gap that was made, bytes of names, and one for each name.
    /// Old pointers and numbers of blocks are not weighed. The sum has to fit a `usize`. It takes time for the
    /// forms alone, whatever their length.
    #[inline(always)]
    pub fn weight(&self) -> usize
        requires { undone_weight (undone_in self.now) < 2 ^ 64 }
        ensures { result ≡ undone_weight (undone_in self.now) }
    {
        match self {
            Undone::Nothing | Undone::Point(_) | Undone::Swap(None) | Undone::MoveOut(None) => 0,
            Undone::Join { cut, pointer: _ } => cut.gaps().len(),
            Undone::Swap(Some(form)) | Undone::MoveOut(Some(form)) => form.len(),
            Undone::Restore(forms) => weigh_forms(forms.as_slice()),
            Undone::Unbring {
                number: _,
                replaced,
            } => weigh_forms(replaced.as_slice()),
            Undone::Unerase {
                number: _,
                block,
                address,
            } => weigh_block(block) + address.len(),
        }
    }
}

// Forms with their names: of each its items, the bytes of its name, and one.
fn weigh_forms<A: Allocator + Copy>(forms: &[(Vec<u8, A>, Form<A>)]) -> usize
    requires { held_weight (named_forms forms.now) < 2 ^ 64 }
    ensures { result ≡ held_weight (named_forms forms.now) }
{
    let mut weight = 0;
    for (name, form) in forms {
        weight += form.len() + name.len() + 1;
    }
    weight
}

// The forms of a block with their names, each weighed as in `weigh_forms`.
fn weigh_block<A: Allocator + Copy>(block: &Block<A>) -> usize
    requires { held_weight block.now.held < 2 ^ 64 }
    ensures { result ≡ held_weight block.now.held }
{
    let mut weight = 0;
    for i in 0..block.len() {
        let Some((name, form)) = block.get(i) else {
            unreachable!()
        };
        weight += form.len() + name.len() + 1;
    }
    weight
}
