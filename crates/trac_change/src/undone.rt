//! What a call destroys of forms and blocks.
use std::alloc::{Allocator, Global};
use trac_forms::{Block, Cut, Form};

/// What a call destroyed of forms and blocks, by which they can be got back from those that stand there
/// afterwards. What still stands there is not kept: of forms that went into a block nothing, and of a form whose
/// pointer moved the old pointer.
#[derive(Drop)]
pub enum Undone<A: Allocator + Copy = Global> {
    /// Nothing of forms and blocks was destroyed.
    Nothing,
    /// A form was restored or read: so many items stood before its pointer.
    Point(usize),
    /// A form was segmented.
    Join {
        /// The gaps that were made.
        cut: Cut<A>,
        /// How many items stood before its pointer.
        pointer: usize,
    },
    /// A form was defined, in place of this one, if there was one.
    Swap(Option<Form<A>>),
    /// These forms were deleted.
    Restore(Vec<(Vec<u8, A>, Form<A>), A>),
    /// Forms went into a new block, the last one, and its number became a form, in place of this one, if there was one
    /// that did not go into the block.
    MoveOut(Option<Form<A>>),
    /// Copies of the forms of a block were put among the forms.
    Unbring {
        /// The number of the block.
        number: usize,
        /// The forms in whose places copies were put.
        replaced: Vec<(Vec<u8, A>, Form<A>), A>,
    },
    /// A block was erased, and the form deleted that was its address.
    Unerase {
        /// The number of the block.
        number: usize,
        /// The block with the forms that it held.
        block: Block<A>,
        /// The form that was its address.
        address: Form<A>,
    },
}
