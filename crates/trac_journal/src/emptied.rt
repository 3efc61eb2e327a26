//! What an idle step empties.
use std::alloc::{Allocator, Global};
use trac_text::Functions;

/// What the step empties that loads the idle program: the text outside all begun functions, and these.
#[derive(Drop)]
pub struct Emptied<A: Allocator + Copy = Global> {
    /// The text outside all begun functions.
    pub base: Vec<u8, A>,
    /// The begun functions, the innermost first.
    pub frames: Functions<A>,
}
