//! What a move reads off a machine. That the gap buffer has two ends is shown here once, and not by each function above
//! that asks a machine something.

use std::alloc::Allocator;
use trac_gap::TwoEnds;
use trac_rules::scan::Front;
use trac_step::{Core, Machine, Mark};
use trac_text::front::front_at;

/// Where scanning stands.
#[derive(Clone, Copy)]
pub struct Glance {
    /// How many functions are begun.
    pub depth: usize,
    /// How many bytes are left to scan.
    pub rest: usize,
    /// How many bytes at the front of the active text begin a function by the next step; 0 if it begins none.
    pub beginning: usize,
    /// Whether the next step performs a function.
    pub performs: bool,
}

/// Where scanning stands in a machine.
pub fn glance_at<A: Allocator + Copy>(machine: &Machine<A>) -> Glance {
    glance_of(machine)
}

// Where scanning stands in a machine of any representation.
fn glance_of<E: TwoEnds<u8, A>, M: TwoEnds<Mark, A>, A: Allocator + Copy>(
    machine: &Core<E, M, A>,
) -> Glance {
    let active = machine.active();
    Glance {
        depth: machine.depth(),
        rest: active.len(),
        beginning: match front_at(active) {
            Front::ActiveCall => 2,
            Front::NeutralCall => 3,
            _ => 0,
        },
        performs: machine.at_call().is_some(),
    }
}
