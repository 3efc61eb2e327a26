//! The law that the debugger has one text if there is memory for each step.
ghost use Rattle.std.specs.Prelude.{◌≡◌, ◌⊎◌, List, ℕ};
ghost use Rattle.trac_rules.specs.Session.{PlainSession};
ghost use Rattle.trac_rules.specs.declared.width.Width.{Width};
ghost use Rattle.trac_streams.specs.declared.ending.Ending.{Ending};
ghost use Rattle.trac_debug.specs.Commands.{LineCommand};
ghost use Rattle.trac_debug.specs.Debugging.{MayShow, ShowsWithMemory};
ghost use Rattle.trac_debug.specs.Replies.{HasMemoryReply, Replies, RepliesWithMemory, SaysMemory};

/// For each tape and each text of commands there is just one text, with one ending, in which no reply says that memory
/// was refused. It is one of those that `debug` may write. Each other reply that there may be does say so. Each other
/// text has somewhere what such a reply says.
pub fn one_text_has_no_refused_memory()
    ensures there { (tape : List ℕ) (limit : ℕ) (width : Width) (commands : List ℕ) →
        (text : List ℕ) × (stop : Ending) × ShowsWithMemory tape limit width commands text stop }
    ensures one { (tape : List ℕ) (limit : ℕ) (width : Width) (commands text other : List ℕ) (stop last : Ending) →
        ShowsWithMemory tape limit width commands text stop → ShowsWithMemory tape limit width commands other last →
        (text ≡ other) × (stop ≡ last) }
    ensures among { (tape : List ℕ) (limit : ℕ) (width : Width) (commands text : List ℕ) (stop : Ending) →
        ShowsWithMemory tape limit width commands text stop → MayShow tape limit width commands text stop }
    ensures else_said { (command : LineCommand) (old new : PlainSession) (reply : List ℕ) →
        Replies command old reply new → RepliesWithMemory command old reply new ⊎ SaysMemory reply }
    ensures else_has { (tape : List ℕ) (limit : ℕ) (width : Width) (commands text : List ℕ) (stop : Ending) →
        MayShow tape limit width commands text stop →
        ShowsWithMemory tape limit width commands text stop ⊎ HasMemoryReply text }
{}
