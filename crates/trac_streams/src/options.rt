//! The options of a run.
ghost use Rattle.std.specs.Prelude.{◌≡◌, ◌≤◌, ◌↔◌, MatchOption, Some, true};
ghost use Rattle.trac_rules.specs.declared.width.Width.TheVariants.{W128};
ghost use Rattle.trac_streams.specs.Widths.{width_of};

use trac_rules::width::Width;

/// The most steps that a run may be allowed.
pub const BUDGET_LIMIT: u64 = 1_000_000_000_000;

/// How many steps a run may take if nothing else is said.
pub const DEFAULT_BUDGET: u64 = 1_000_000_000;

/// The options of a run.
#[derive(Clone, Copy, Debug, PartialEq, Eq)]
pub struct Options {
    /// How many steps it may take: 1 to 1,000,000,000,000.
    pub budget: u64,
    /// How many records its journal may hold: 1 to 1,048,576.
    pub journal: usize,
    /// How wide its numbers are.
    pub decimals: Width,
}

/// Whether a number is one from 1 to the most.
pub fn is_in_range(number: u64, most: u64) -> bool
    ensures { (result ≡ true) ↔ ((1 ≤ number) × (number ≤ most)) }
{
    1 <= number && number <= most
}

/// How wide numbers are to be if so many bits are wanted, and of 128 bits if nothing is said. None if another width is
/// wanted.
pub fn decimals_of(asked: Option<u64>) -> Option<Width>
    ensures { MatchOption asked (result ≡ Some W128) (λ bits. result ≡ width_of bits) }
{
    match asked {
        None | Some(128) => Some(Width::W128),
        Some(64) => Some(Width::W64),
        _ => None,
    }
}
