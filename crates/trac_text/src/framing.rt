//! Texts and marks from active text, base text and begun functions.
ghost use Rattle.std.specs.Prelude.{◌≡◌, ◌+◌, ◌-◌, ◌≤◌, ◌<◌, ◌^◌, [], ◌++◌, length, min};
ghost use Rattle.std.specs.Prelude.{IfOk, IsOkUnless, IsTrue, Some};
ghost use Rattle.std.specs.List.{concat};
ghost use Rattle.trac_gap.specs.Ends.{item_count};
ghost use Rattle.trac_rules.specs.declared.limit.TheConstants.{MARK_LIMIT, TEXT_LIMIT};
ghost use Rattle.trac_rules.specs.Limits.{total_length};
ghost use Rattle.trac_text.specs.Framing.{EachGathers, argument_count, frames_of, function_bytes, functions_of};
ghost use Rattle.trac_text.specs.Framing.{marked_in, texts_of};
ghost use Rattle.trac_text.specs.Holding.{CanHold};
ghost use Rattle.trac_text.specs.Marks.{argument_marks};
ghost use Rattle.trac_text.specs.Neutral.{IsOrdered, neutral_of};

use crate::ends;
use crate::mark::Mark;
use crate::texts::Texts;
use std::alloc::Allocator;
use trac_gap::TwoEnds;
use trac_rules::kind::Kind;
use trac_rules::refusal::Refusal;

/// A begun function: its kind, and its arguments, of which the last is being gathered.
type Function<A> = (Kind, Vec<Vec<u8, A>, A>);

impl<E: TwoEnds<u8, A>, M: TwoEnds<Mark, A>, A: Allocator + Copy> Texts<E, M, A> {
    /// This active text, this base text, and these begun functions, from the outermost on, with room for at least so
    /// many bytes and marks. Each function has to have an argument, the one that is being gathered, and texts and marks
    /// may not pass the limits. Refused with `Memory` if the allocator refuses.
    pub fn load(
        alloc: A,
        active: &[u8],
        base: &[u8],
        functions: &[Function<A>],
        text_room: usize,
        mark_room: usize,
    ) -> Result<Self, Refusal>
        requires some { EachGathers functions.now }
        requires text { length active.now + length base.now + function_bytes (functions_of functions.now)
            ≤ TEXT_LIMIT }
        requires marks { argument_count (functions_of functions.now) ≤ MARK_LIMIT }
        ensures loaded { IfOk result (λ t. t.texts
            ≡ record { active = active.now; base = base.now; frames = frames_of (functions_of functions.now) }) }
        ensures text_room { IfOk result (λ t. text_room ≤ t.text_room) }
        ensures mark_room { IfOk result (λ t. mark_room ≤ t.mark_room) }
        ensures err { IsOkUnless result Refusal.Memory }
    {
        let (text, marks) = texts_and_marks(alloc, active, base, functions, text_room, mark_room)?;
        Ok(Texts {
            text,
            marks,
            functions: functions.len(),
            alloc,
        })
    }
}

/// How many bytes active text, base text and the arguments of begun functions hold together; `usize::MAX` if there are
/// more.
pub fn text_len<A: Allocator + Copy>(active: &[u8], base: &[u8], functions: &[Function<A>]) -> usize
    ensures { result
        ≡ min (length active.now + length base.now + function_bytes (functions_of functions.now)) (2 ^ 64 - 1) }
{
    let mut total = active.len().saturating_add(base.len());
    for (_, arguments) in functions {
        for argument in arguments {
            total = total.saturating_add(argument.len());
        }
    }
    total
}

/// How many marks begun functions have, as many as arguments; `usize::MAX` if there are more.
pub fn mark_count<A: Allocator + Copy>(functions: &[Function<A>]) -> usize
    ensures { result ≡ min (argument_count (functions_of functions.now)) (2 ^ 64 - 1) }
{
    let mut total: usize = 0;
    for (_, arguments) in functions {
        total = total.saturating_add(arguments.len());
    }
    total
}

// Begins a function of this kind with these arguments.
fn put_function<A: Allocator + Copy, E: TwoEnds<u8, A>, M: TwoEnds<Mark, A>>(
    text: &mut E,
    marks: &mut M,
    kind: Kind,
    arguments: &[Vec<u8, A>],
)
    requires text { item_count (E.ends text.old) + total_length (texts_of arguments.now) ≤ (E.ends text.old).capacity }
    requires marks { item_count (M.ends marks.old) + length arguments.now ≤ (M.ends marks.old).capacity }
    ensures text { E.ends text.new
        ≡ record (E.ends text.old) { left = (E.ends text.old).left ++ concat (texts_of arguments.now) } }
    ensures marks { M.ends marks.new ≡ record (M.ends marks.old) {
      left = (M.ends marks.old).left
          ++ argument_marks (length (E.ends text.old).left) (Some kind) (texts_of arguments.now);
    } }
{
    let mut frame = Some(kind);
    for argument in arguments {
        let place = text.left().len();
        marks.push_left(Mark { place, frame });
        text.put_left(argument.as_slice());
        frame = None;
    }
}

// Lists that hold these texts and begun functions, from the outermost on: active text, base text and arguments, and
// the marks. They have room for at least so many bytes and marks. Each function has to have an argument, the one that
// is being gathered, and texts and marks may not pass the limits. Refused with `Memory` if the allocator refuses.
fn texts_and_marks<A: Allocator + Copy, E: TwoEnds<u8, A>, M: TwoEnds<Mark, A>>(
    alloc: A,
    active: &[u8],
    base: &[u8],
    functions: &[Function<A>],
    text_room: usize,
    mark_room: usize,
) -> Result<(E, M), Refusal>
    requires some { EachGathers functions.now }
    requires text { length active.now + length base.now + function_bytes (functions_of functions.now) ≤ TEXT_LIMIT }
    requires marks { argument_count (functions_of functions.now) ≤ MARK_LIMIT }
    ensures neutral { IfOk result (λ r. neutral_of (marked_in (E.ends r.0) (M.ends r.1))
        ≡ record { base = base.now; frames = frames_of (functions_of functions.now) }) }
    ensures active { IfOk result (λ r. (E.ends r.0).right ≡ active.now) }
    ensures ordered { IfOk result (λ r. IsOrdered (marked_in (E.ends r.0) (M.ends r.1))) }
    ensures on_left { IfOk result (λ r. (M.ends r.1).right ≡ []) }
    ensures holds { IfOk result (λ r. item_count (E.ends r.0) ≤ (E.ends r.0).capacity) }
    ensures mark_holds { IfOk result (λ r. length (M.ends r.1).left ≤ (M.ends r.1).capacity) }
    ensures room { IfOk result (λ r. text_room ≤ (E.ends r.0).capacity) }
    ensures mark_room { IfOk result (λ r. mark_room ≤ (M.ends r.1).capacity) }
    ensures err { IsOkUnless result Refusal.Memory }
{
    let mut text = E::new(alloc);
    ends::reserve(&mut text, text_len(active, base, functions).max(text_room))?;
    text.put_right(active);
    text.put_left(base);
    let mut marks = M::new(alloc);
    ends::reserve(&mut marks, mark_count(functions).max(mark_room))?;
    for (kind, arguments) in functions {
        put_function(&mut text, &mut marks, *kind, arguments.as_slice());
    }
    Ok((text, marks))
}

/// Whether each begun function has an argument, the one that is being gathered. It takes no memory.
pub fn each_gathers<A: Allocator + Copy>(functions: &[Function<A>]) -> bool
    ensures yes { IsTrue result → EachGathers functions.now }
    ensures no { EachGathers functions.now → IsTrue result }
{
    for (_, arguments) in functions {
        if arguments.len() < 1 {
            return false;
        }
    }
    true
}
