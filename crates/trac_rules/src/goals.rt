//! Goals of walks: a law, and worked rows.
ghost use Rattle.std.specs.Prelude.{◌≡◌, false, true};
ghost use Rattle.trac_rules.specs.Form.{Form};
ghost use Rattle.trac_rules.specs.Goals.{is_call_with, is_end_of, is_idle_printing, is_idle_reading, is_own_call};
ghost use Rattle.trac_rules.specs.Goals.{is_same_form, is_shallower, is_unprinted, leaves_at_most};
ghost use Rattle.trac_rules.specs.Rows.{fed, state_of, texts_of};

/// A form passes for the same as another exactly if the two are one: the same items, and the pointer at the same place.
#[tactic(auto, using(crate::proofs::AlikeForms::alike_equal, crate::proofs::AlikeForms::equal_alike))]
pub fn forms_are_told_apart()
    ensures alike { (a b : Form) → is_same_form a b ≡ true → a ≡ b }
    ensures equal { (a b : Form) → a ≡ b → is_same_form a b ≡ true }
{}

/// Goals along a text that is printed, after seven steps at its `rs` and after ten at its `ps`, and along one that
/// defines a form, whose `ds` is performed by the sixteenth step.
pub fn worked_goals()
    ensures read { is_idle_reading (state_of (fed "AB'" 7)) ≡ true }
    ensures read_is_a_call { is_call_with (texts_of "rs") (state_of (fed "AB'" 7)) ≡ true }
    ensures read_is_no_own_call { is_own_call (state_of (fed "AB'" 7)) ≡ false }
    ensures read_ends_the_second { is_end_of 2 (state_of (fed "AB'" 7)) ≡ true }
    ensures printed { is_idle_printing (state_of (fed "AB'" 10)) ≡ true }
    ensures printed_with { is_call_with (texts_of "ps,AB") (state_of (fed "AB'" 10)) ≡ true }
    ensures printed_is_no_own_call { is_own_call (state_of (fed "AB'" 10)) ≡ false }
    ensures unprinted { is_unprinted 0 (state_of (fed "AB'" 10)) ≡ true }
    ensures printed_now { is_unprinted 1 (state_of (fed "AB'" 11)) ≡ false }
    ensures outside { is_shallower 1 (state_of (fed "AB'" 11)) ≡ true }
    ensures one_is_left { leaves_at_most 1 (state_of (fed "AB'" 10)) ≡ true }
    ensures two_are_left { leaves_at_most 1 (state_of (fed "AB'" 9)) ≡ false }
    ensures defined_by { is_own_call (state_of (fed "#(ds,a,1)'" 15)) ≡ true }
{}
