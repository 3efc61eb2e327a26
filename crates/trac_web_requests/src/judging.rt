//! Which numbers are taken.
ghost use Rattle.trac_web_requests.specs.Requests.{IsBudget, IsJournal, IsJudged};

use crate::outcome::Outcome;
use trac_rules::limit::JOURNAL_LIMIT;
use trac_rules::width::Width;
use trac_streams::{BUDGET_LIMIT, decimals_of, is_in_range};

/// How wide numbers are to be, if a run may be allowed so many steps.
///
/// `Outcome::WrongBudget`: it may not. `Outcome::WrongDecimals`: there are no numbers of so many bits.
pub fn width_for_run(budget: u64, decimals: u64) -> Result<Width, Outcome>
    ensures { IsJudged (IsBudget budget) Outcome.WrongBudget decimals result }
{
    if !is_in_range(budget, BUDGET_LIMIT) {
        return Err(Outcome::WrongBudget);
    }
    decimals_of(Some(decimals)).ok_or(Outcome::WrongDecimals)
}

/// How wide numbers are to be, if a journal may be allowed so many records.
///
/// `Outcome::WrongJournal`: it may not. `Outcome::WrongDecimals`: there are no numbers of so many bits.
pub fn width_for_walk(journal: u64, decimals: u64) -> Result<Width, Outcome>
    ensures { IsJudged (IsJournal journal) Outcome.WrongJournal decimals result }
{
    if !is_in_range(journal, JOURNAL_LIMIT as u64) {
        return Err(Outcome::WrongJournal);
    }
    decimals_of(Some(decimals)).ok_or(Outcome::WrongDecimals)
}
