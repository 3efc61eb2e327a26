//! How a request ended.
ghost use Rattle.std.specs.Prelude.{◌≡◌};
ghost use Rattle.trac_web_requests.specs.Outcomes.{status_told};

use trac_streams::Ending;

/// How a request ended: as a run, a session of the debugger or a walk does, or before it began.
#[derive(Clone, Copy, Debug, PartialEq, Eq)]
pub enum Outcome {
    /// It ended so.
    Ends(Ending),
    /// The reply is longer than its buffer, which has a front of it.
    TooLong,
    /// The budget is not a number from 1 to 1,000,000,000,000.
    WrongBudget,
    /// The journal is not a number from 1 to 1,048,576.
    WrongJournal,
    /// The width of numbers is neither 64 nor 128.
    WrongDecimals,
    /// There is no such kind of place.
    WrongPlace,
    /// The program ends before this step.
    NotReached,
}

impl Outcome {
    /// The number that a host is told: the exit status of the program, or one after these.
    pub fn status(self) -> u32
        ensures { result ≡ status_told self }
    {
        match self {
            Outcome::Ends(ending) => u32::from(ending.status()),
            Outcome::TooLong => 9,
            Outcome::WrongBudget => 10,
            Outcome::WrongJournal => 11,
            Outcome::WrongDecimals => 12,
            Outcome::WrongPlace => 13,
            Outcome::NotReached => 14,
        }
    }
}
