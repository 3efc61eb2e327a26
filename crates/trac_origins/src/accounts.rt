//! The laws of origins, each the contract of a function that does nothing.
ghost use Rattle.std.specs.FinMap as finite;
ghost use Rattle.std.specs.Prelude.{◌≡◌, length, map, List, Ok, Some, ℕ};
ghost use Rattle.trac_origins.specs.Accounts.{Accounts, IsSource};
ghost use Rattle.trac_origins.specs.Following.{followed};
ghost use Rattle.trac_origins.specs.Lists.{lists_of};
ghost use Rattle.trac_origins.specs.Places.{Place, arguments_of, found_at, held_form};
ghost use Rattle.trac_origins.specs.Stepping.{origin, origins};
ghost use Rattle.trac_rules.specs.Blocks.{block_at};
ghost use Rattle.trac_rules.specs.Form.{Form, all_items};
ghost use Rattle.trac_rules.specs.Session.{Command, PlainSession, Run, new_session, over};
ghost use Rattle.trac_rules.specs.State.{Environment, State};
ghost use Rattle.trac_rules.specs.Stepping.{step};
ghost use Rattle.trac_rules.specs.Trails.{AreSteps};
ghost use Rattle.trac_rules.specs.declared.item.Item.{Item};
ghost use Rattle.trac_rules.specs.declared.reply.Reply.{Reply};
ghost use Rattle.trac_rules.specs.declared.width.Width.{Width};

/// Of whatever stands at a place after a step: if it is said to be carried from a place, it stood there before the
/// step. If it is said to be read, it is that byte of the tape, which was not read before the step and is read after
/// it. If it is said to be made, the step makes such items.
#[tactic(auto, using(crate::proofs::Accounted::accounted))]
pub fn origins_are_true()
    ensures { (environment : Environment) (s t : State) (place : Place) (item : Item) → step environment s ≡ Ok t →
        found_at t place ≡ Some item → Accounts environment s t (origin environment s place) item }
{}

/// There is one origin for each byte after a step, and one for each item of a form that stands then
/// or is held in a block.
pub fn each_has_one_origin()
    ensures active { (environment : Environment) (s t : State) → step environment s ≡ Ok t →
        length (origins environment s).active ≡ length t.active }
    ensures base { (environment : Environment) (s t : State) → step environment s ≡ Ok t →
        length (origins environment s).base ≡ length t.base }
    ensures arguments { (environment : Environment) (s t : State) → step environment s ≡ Ok t →
        map (λ f. map (λ text. length text) (lists_of f)) (origins environment s).frames
        ≡ map (λ f. map (λ text. length text) (arguments_of f)) t.frames }
    ensures output { (environment : Environment) (s t : State) → step environment s ≡ Ok t →
        length (origins environment s).output ≡ length t.output }
    ensures forms { (environment : Environment) (s t : State) (name : List ℕ) (form : Form) →
        step environment s ≡ Ok t → finite.get t.forms name ≡ Some form →
        length ((origins environment s).forms name) ≡ length (all_items form) }
    ensures blocks { (environment : Environment) (s t : State) (number : ℕ) (name : List ℕ) (form : Form) →
        step environment s ≡ Ok t → held_form name (block_at number t.blocks) ≡ Some form →
        length ((origins environment s).blocks number name) ≡ length (all_items form) }
{}

/// Of whatever stands at a place after many steps, followed back: all steps that are said to have carried it
/// did, and the step before these read or made it as said; or all steps carried it, and it stood at the
/// place that is named before them.
#[tactic(auto, using(crate::proofs::Accounted::followed_back))]
pub fn many_steps_are_followed()
    ensures { (environment : Environment) (earlier : List State) (t : State) (place : Place) (item : Item) →
        AreSteps environment earlier t → found_at t place ≡ Some item → IsSource environment earlier t
        (followed environment earlier place).carried (followed environment earlier place).origin item }
{}

/// So it is in every session that a new one becomes by any list of commands, refused ones among them: whatever was fed,
/// gone back over and committed meanwhile. Nothing is known of what stands before the oldest state that is kept, and a
/// byte that was read is counted from the start of the tape as it is then.
#[tactic(auto, using(crate::proofs::Accounted::followed_in_session))]
pub fn sessions_are_followed()
    ensures { (limit : ℕ) (width : Width)
        (commands : List Command) (replies : List Reply) (p : PlainSession) (place : Place) (item : Item) →
        Run commands replies (new_session limit width) p → found_at p.last place ≡ Some item →
        IsSource (over p.width p.tape) p.earlier p.last (followed (over p.width p.tape) p.earlier place).carried
        (followed (over p.width p.tape) p.earlier place).origin item }
{}
