//! How far a walk has come, and what it keeps.

/// How far a walk has come.
#[derive(Clone, Copy)]
pub struct Reach {
    /// The number of the next step.
    pub step: u64,
    /// The first step that one can go back to.
    pub first_step: u64,
    /// How many bytes of the input are not read.
    pub unread: u64,
    /// How many bytes are printed.
    pub printed: u64,
}

/// Why steps are forgotten.
#[derive(Clone, Copy)]
pub enum Forgetting {
    /// To make room for the output.
    ForOutput,
    /// To take no more memory, of which `--keep` allows more.
    ForMemory,
    /// So many are kept, and `--journal` can keep more.
    ForSteps,
    /// So many are kept, and no more can be.
    ForMostSteps,
}
