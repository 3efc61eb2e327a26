//! What a session has released and what is pending are what its steps print, by whatever way it came there: laws.
ghost use Rattle.std.specs.Prelude.{◌≡◌, ◌≢◌, ◌+◌, ◌-◌, ◌≤◌, ◌++◌, [], List, Some, true, ℕ};
ghost use Rattle.trac_rules.specs.Running.{BudgetSpent, InputEnded, output_of};
ghost use Rattle.trac_rules.specs.Session.{Answers, Back, Command, PlainSession, Step, answer, new_session, refused};
ghost use Rattle.trac_rules.specs.Session.{repeated};
ghost use Rattle.trac_rules.specs.State.{Tape};
ghost use Rattle.trac_rules.specs.declared.refusal.Refusal.TheVariants.{Ended};
ghost use Rattle.trac_rules.specs.declared.reply.Reply.{Reply};
ghost use Rattle.trac_rules.specs.declared.width.Width.{Width};
ghost use Rattle.trac_session.specs.Outputs.{HasReleased, Prints, fed_by, released_by, steps_after};

/// A new session over any tape has released nothing after no steps. Each command that is answered, refused or not, adds
/// to input, steps and released text what it says. So it is after any steps forward and back. What is released and then
/// what is pending is what the steps print. If the next step is refused as `Ended`, it is all that a run prints,
/// however many more steps it may take.
pub fn sessions_release_what_steps_print()
    ensures start { (limit : ℕ) (width : Width) (tape : Tape) →
        HasReleased tape.bytes 0 [] (record (new_session limit width) { tape = tape }) }
    ensures each_answer { (command : Command) (reply : Reply) (input text : List ℕ) (steps : ℕ) (p q : PlainSession) →
        HasReleased input steps text p → Answers command p reply q →
        HasReleased (input ++ fed_by command reply) (steps_after command reply steps)
        (text ++ released_by command reply p) q }
    ensures forward { (n : ℕ) (input text : List ℕ) (steps : ℕ) (p q : PlainSession) →
        HasReleased input steps text p → repeated Step n p ≡ Some q → HasReleased input (steps + n) text q }
    ensures back { (n : ℕ) (input text : List ℕ) (steps : ℕ) (p q : PlainSession) →
        HasReleased input steps text p → repeated Back n p ≡ Some q →
        (n ≤ steps) × HasReleased input (steps - n) text q }
    ensures printed { (input text : List ℕ) (steps : ℕ) (p : PlainSession) → HasReleased input steps text p →
        (more : List ℕ) → (p.tape.ended ≡ true → more ≡ []) →
        Prints p.width (input ++ more) steps (text ++ p.last.output) }
    ensures ended { (input text : List ℕ) (steps : ℕ) (p : PlainSession) → HasReleased input steps text p →
        answer Step p ≡ refused Ended p → (n : ℕ) (more : List ℕ) → (p.tape.ended ≡ true → more ≡ []) →
        output_of p.width (input ++ more) (steps + 1 + n)
        ≡ record { bytes = text ++ p.last.output; stop = InputEnded } }
{}

/// Two sessions have the same input and numbers of the same width. If equally many steps led to both, by whatever ways,
/// both have released the same text, what is pending included. It is the one that these steps print. So it is of two
/// runs that both end before their budgets are spent.
pub fn ways_release_the_same()
    ensures sessions { (input first second : List ℕ) (steps : ℕ) (p q : PlainSession) →
        HasReleased input steps first p → HasReleased input steps second q → p.width ≡ q.width →
        first ++ p.last.output ≡ second ++ q.last.output }
    ensures texts { (width : Width) (input first second : List ℕ) (steps : ℕ) →
        Prints width input steps first → Prints width input steps second → first ≡ second }
    ensures to_the_end { (width : Width) (input : List ℕ) (m n : ℕ) →
        (output_of width input m).stop ≢ BudgetSpent → (output_of width input n).stop ≢ BudgetSpent →
        output_of width input m ≡ output_of width input n }
{}
