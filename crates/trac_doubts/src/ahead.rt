//! What the next step is judged by.
ghost use Rattle.std.specs.Prelude.{◌≡◌, ◌++◌, ◌<◌, length, nat_lt, OnOk, IsOkUnless};
ghost use Rattle.std.specs.Option.{option_to_list};
ghost use Rattle.trac_rules.specs.Doubts.{doubts_of_scanning};
ghost use Rattle.trac_rules.specs.Scanning.{front_of};
ghost use Rattle.trac_doubts.specs.Ahead.{doubts_ahead};

use crate::calls::{add, call_doubts_into, is_doubtful_call};
use std::alloc::{Allocator, Global};
use trac_forms::Store;
use trac_rules::doubt::Doubt;
use trac_rules::refusal::Refusal;
use trac_rules::scan::Front;
use trac_rules::width::Width;
use trac_text::Args;
use trac_text::front::front_at;
use trac_text::matching::match_in;

/// What the next step is judged by: parts of the state from which it goes.
#[derive(Drop)]
pub struct Ahead<'a, A: Allocator + Copy = Global> {
    /// What is not scanned yet.
    pub active: &'a [u8],
    /// How many functions are begun.
    pub depth: usize,
    /// All arguments of the call that the step performs, its name first, if it performs one.
    pub call: Option<Args<'a>>,
    /// The forms and blocks.
    pub store: &'a Store<A>,
    /// How wide numbers are.
    pub width: Width,
}

impl<'a, A: Allocator + Copy> Ahead<'a, A> {
    /// Whether there is a doubt: the step does something that a person is unlikely to have meant. It takes no memory.
    pub fn is_doubtful(&self) -> bool
        ensures { result ≡ nat_lt 0 (length (doubts_ahead self.now)) }
    {
        let in_call = match &self.call {
            Some(args) => is_doubtful_call(args, self.store, self.width),
            None => false,
        };
        in_call || scanning_doubt(self.active, self.depth).is_some()
    }

    /// Puts all doubts at the end of `out`, in the order in which they are defined. Refused with `Memory` if the
    /// allocator of `out` refuses.
    pub fn doubts_into<B: Allocator>(&self, out: &mut Vec<Doubt, B>) -> Result<(), Refusal>
        ensures ok { OnOk result (out.new.items ≡ out.old.items ++ doubts_ahead self.now) }
        ensures err { IsOkUnless result Refusal.Memory }
    {
        if let Some(args) = &self.call {
            call_doubts_into(args, self.store, self.width, out)?;
        }
        add(scanning_doubt(self.active, self.depth), out)
    }
}

// The doubt of scanning this active text, while so many functions are begun.
fn scanning_doubt(active: &[u8], depth: usize) -> Option<Doubt>
    ensures { option_to_list result ≡ doubts_of_scanning (front_of active.now) active.now depth }
{
    match front_at(active) {
        Front::Nothing => (depth > 0).then_some(Doubt::Unended(depth)),
        Front::Opening => {
            // What stands after the `(`. If it has no match, nothing closes that `(`.
            let rest = active.split_at(active.len().min(1)).1;
            match_in(rest).is_none().then_some(Doubt::Unclosed)
        }
        Front::Closing => (depth == 0).then_some(Doubt::EndsNothing),
        Front::Layout
        | Front::Comma
        | Front::ActiveCall
        | Front::NeutralCall
        | Front::Sharp
        | Front::Plain => None,
    }
}
