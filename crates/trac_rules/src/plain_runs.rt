//! Runs of plain bytes, which a processor may move at once.
ghost use Rattle.std.specs.Prelude.{◌≡◌, ◌+◌, ◌≤◌, ◌++◌, length, replicate, Some, ℕ};
ghost use Rattle.trac_rules.specs.PlainRuns.{BeginsPlain, moved_on, on_the_way};
ghost use Rattle.trac_rules.specs.Proper.{IsProper};
ghost use Rattle.trac_rules.specs.Records.{Moved, led_back};
ghost use Rattle.trac_rules.specs.Session.{PlainSession, Step, repeated};
ghost use Rattle.trac_rules.specs.State.{State};

/// So many plain bytes are as many steps. All are accepted if the journal has room for them, and together they move the
/// bytes to the current text. And as many records of moved bytes lead back, whatever the bytes are.
#[tactic(auto, using(crate::proofs::MovedOn::plain_bytes_there, crate::proofs::MovedOn::moved_bytes_back))]
pub fn plain_bytes_move_on()
    ensures there { (n : ℕ) (p : PlainSession) →
        IsProper p.last → BeginsPlain n p.last → length p.earlier + n ≤ p.limit →
        repeated Step n p ≡ Some (record p { earlier = on_the_way n p.last ++ p.earlier; last = moved_on n p.last }) }
    ensures back { (n : ℕ) (s : State) → IsProper s → n ≤ length s.active →
        led_back (replicate n Moved) (moved_on n s) ≡ Some s }
{}
