//! The law of steps over an input that goes on.
ghost use Rattle.std.specs.Prelude.{◌≡◌, ◌++◌, Err, List, false, true, ℕ};
ghost use Rattle.trac_rules.specs.GoingOn.{whole};
ghost use Rattle.trac_rules.specs.Session.{over};
ghost use Rattle.trac_rules.specs.State.{State, Tape};
ghost use Rattle.trac_rules.specs.Stepping.{step};
ghost use Rattle.trac_rules.specs.declared.refusal.Refusal.TheVariants.{NeedInput};
ghost use Rattle.trac_rules.specs.declared.width.Width.{Width};

/// A step that does not wait for input is the same however the input goes on: once a tape that has not
/// ended is lengthened, once it is ended, and once it is both. So steps that are taken again give the same
/// states, whatever was fed meanwhile.
pub fn steps_do_not_see_more_input()
    ensures lengthened { (width : Width) (tape : Tape) (s : State) (more : List ℕ) →
        tape.ended ≡ false → ¬ (step (over width tape) s ≡ Err NeedInput) →
        step (over width (record tape { bytes = tape.bytes ++ more })) s ≡ step (over width tape) s }
    ensures ended { (width : Width) (tape : Tape) (s : State) →
        tape.ended ≡ false → ¬ (step (over width tape) s ≡ Err NeedInput) →
        step (over width (record tape { ended = true })) s ≡ step (over width tape) s }
    ensures both { (width : Width) (tape : Tape) (s : State) (more : List ℕ) →
        tape.ended ≡ false → ¬ (step (over width tape) s ≡ Err NeedInput) →
        step (over width (whole tape more)) s ≡ step (over width tape) s }
{}

/// Only a tape that has not ended makes a step wait for input.
#[tactic(auto, using(crate::proofs::Refusals::wants_input_of_open))]
pub fn only_open_tapes_make_a_step_wait()
    ensures { (width : Width) (tape : Tape) (s : State) →
        step (over width tape) s ≡ Err NeedInput → tape.ended ≡ false }
{}
