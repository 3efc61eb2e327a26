//! Steps that are gone back over and taken again: laws.
ghost use Rattle.std.specs.Prelude.{◌≡◌, ◌≤◌, List, Some, ℕ};
ghost use Rattle.trac_rules.specs.Session.{Answers, Back, Command, PlainSession, Run, Step, new_session, repeated};
ghost use Rattle.trac_rules.specs.Trails.{IsTrail};
ghost use Rattle.trac_rules.specs.declared.reply.Reply.{Reply};
ghost use Rattle.trac_rules.specs.declared.width.Width.{Width};

/// Of a new session, and after any list of commands, refused ones among them, each state but the first is
/// the step from the one before it: over the tape as it is then, whatever was fed meanwhile, and after a
/// commit over the tape that is left.
pub fn sessions_are_trails()
    ensures start { (limit : ℕ) (width : Width) → IsTrail (new_session limit width) }
    ensures each_answer { (command : Command) (reply : Reply) (p q : PlainSession) → IsTrail p →
        Answers command p reply q → IsTrail q }
    ensures every_run { (commands : List Command) (replies : List Reply) (p q : PlainSession) → IsTrail p →
        Run commands replies p q → IsTrail q }
{}

/// Steps that are gone back over and taken again give the same states: so many steps back and as many forward
/// lead to the session as it was.
#[tactic(auto, using(crate::proofs::TakenAgain::steps_again))]
pub fn steps_are_taken_again()
    ensures { (n : ℕ) (p q : PlainSession) → IsTrail p → repeated Back n p ≡ Some q → repeated Step n q ≡ Some p }
{}
