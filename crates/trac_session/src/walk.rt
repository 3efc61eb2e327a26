//! What a walk over several steps answers.
ghost use Rattle.std.specs.Prelude.{◌≡◌, Some};

use trac_rules::refusal::Refusal;

/// How far a walk went. Its steps stand, also if it was ended early.
#[derive(Clone, Copy, Debug, PartialEq, Eq)]
pub struct Walk {
    /// How many steps were taken.
    pub done: u64,
    /// Why it went no further. This is the refusal that ended it, or `NotMet` if it looked for a goal, as a name, and
    /// did not meet it. None if all the steps that were wanted were taken, if the goal was met, or if `forward_within`
    /// stopped for what the records weigh.
    pub why: Option<Refusal>,
}

impl Walk {
    // So many steps, the next of which was refused for this.
    #[inline(always)]
    pub(crate) fn refused(done: u64, refusal: Refusal) -> Walk
        ensures { result ≡ record { done = done; why = Some refusal } }
    {
        Walk {
            done,
            why: Some(refusal),
        }
    }
}

/// How a search back ended that goes forward again if it meets nothing.
#[derive(Clone, Copy, Debug, PartialEq, Eq)]
pub enum Return {
    /// The goal was met after so many steps back, where the session now stands.
    Met(u64),
    /// No earlier state meets the goal, and the session shows the states that it had.
    NotMet,
    /// No earlier state meets the goal. On the way forward again a step was refused for this, which is `Memory`. The
    /// session stands so many steps, one at least, before the state that it had. The step moves no plain byte.
    Stopped { left: u64, why: Refusal },
}
