//! What is shown of a program's output is what its steps print: a law.
ghost use Rattle.std.specs.Prelude.{◌≡◌, ℕ, ◌+◌, List, ◌∷◌};
ghost use Rattle.trac_rules.specs.declared.width.Width.{Width};
ghost use Rattle.trac_rules.specs.Session.{PlainSession};
ghost use Rattle.trac_session.specs.Outputs.{Prints};
ghost use Rattle.trac_debug.specs.Commands.{Commit, Forward};
ghost use Rattle.trac_debug.specs.Debugging.{Does, TellsOutput, turn_at};
ghost use Rattle.trac_web_requests.specs.Shown.{IsShown, ShowsBoth};

/// A run, the debugger, a window and the module of the page show of a program just what the rules print by as many
/// steps. So the input, the width of numbers and how many steps were taken determine the text, whatever shows it.
/// Wherever the debugger is told to go forward, and then to release all, its two replies show it.
pub fn every_way_shows_what_steps_print()
    ensures printed { (width : Width) (input text : List ℕ) (steps : ℕ) →
        IsShown width input steps text → Prints width input steps text }
    ensures alike { (width : Width) (input first second : List ℕ) (steps : ℕ) →
        IsShown width input steps first → IsShown width input steps second → first ≡ second }
    ensures replied { (input text written forward release : List ℕ) (lines : List (List ℕ)) (number most before : ℕ)
        (p : PlainSession) → turn_at number forward ≡ Does (Forward most) →
        turn_at (number + 1) release ≡ Does (Commit 0) →
        TellsOutput input (forward ∷ release ∷ lines) number before text p written →
        ShowsBoth p.width input before text written }
{}
