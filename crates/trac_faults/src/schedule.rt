//! Which call of several is the one that something happens at.
ghost use Rattle.std.specs.Prelude.{◌≡◌};
ghost use Rattle.trac_faults.specs.Schedule.{is_chosen as chosen_now};

/// Whether the call of this number is the chosen one, if one is chosen.
pub(crate) fn is_chosen(chosen: Option<u64>, call: u64) -> bool
    ensures { result ≡ chosen_now chosen call }
{
    match chosen {
        Some(number) => number == call,
        None => false,
    }
}
