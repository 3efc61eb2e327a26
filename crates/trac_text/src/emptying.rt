//! The idle step, and the way back over it: what the step empties is taken out of the neutral text beforehand, and put
//! back.
ghost use Rattle.std.specs.Prelude.{◌≡◌, ◌+◌, ◌<◌, ◌≤◌, ◌^◌, ◌++◌, [], length, map, IfOk, IsOkUnless, OnErr, OnOk};
ghost use Rattle.std.specs.List.{concat};
ghost use Rattle.trac_gap.specs.Ends.{item_count};
ghost use Rattle.trac_rules.specs.Bytes.{idle_program};
ghost use Rattle.trac_rules.specs.Limits.{argument_bytes, marks as mark_count};
ghost use Rattle.trac_text.specs.Holding.{CanHold};
ghost use Rattle.trac_text.specs.Marks.{function_marks};
ghost use Rattle.trac_text.specs.Neutral.{IsOrdered, neutral_of};
ghost use Rattle.trac_text.specs.Pieces.{all_texts, frames_in};

use crate::ends::refill;
use crate::frames::NeutralText;
use crate::mark::Mark;
use crate::pieces::{Functions, Pieces, PiecesRef};
use crate::texts::{Texts, restart};
use std::alloc::Allocator;
use trac_gap::TwoEnds;
use trac_rules::kind::Kind;
use trac_rules::refusal::Refusal;

impl<E: TwoEnds<u8, A>, M: TwoEnds<Mark, A>, A: Allocator + Copy> Texts<E, M, A> {
    /// Empties all texts, of which the active one has to be empty, and loads the idle program, as T-64 does when there
    /// is nothing to scan. Returns copies of what went: the base text, and the begun functions. Refused with `Memory`
    /// if the allocator refuses; then nothing changed.
    pub fn reload(&mut self) -> Result<(Vec<u8, A>, Functions<A>), Refusal>
        requires { self.old.texts.active ≡ [] }
        ensures loaded { OnOk result
            (self.new.texts ≡ record { active = idle_program; base = []; frames = [] }) }
        ensures base { IfOk result (λ kept. kept.0.items ≡ self.old.texts.base) }
        ensures functions { IfOk result (λ kept. frames_in kept.1.items ≡ self.old.texts.frames) }
        ensures text_room { self.old.text_room ≤ self.new.text_room }
        ensures mark_room { self.new.mark_room ≡ self.old.mark_room }
        ensures unchanged { OnErr result (self.new ≡ self.old) }
        ensures err { IsOkUnless result Refusal.Memory }
    {
        let kept = kept_of(self.alloc, self.neutral())?;
        restart(&mut self.text, &mut self.marks)?;
        self.functions = 0;
        Ok(kept)
    }

    /// Puts a base text and begun functions in the place of all texts, the idle program too: the way back over
    /// `reload`. There has to be room for these. It takes no memory.
    pub fn unload(&mut self, base: &[u8], functions: Functions<A>)
        requires { CanHold self.old (record { active = []; base = base.now; frames = frames_in functions.items }) }
        ensures { self.new ≡ record self.old {
          texts = record { active = []; base = base.now; frames = frames_in functions.items };
        } }
    {
        self.functions = functions.len();
        put_functions(&mut self.text, &mut self.marks, base, functions);
    }
}

// Copies of the base text and all begun functions of a neutral text, whose arguments have fewer than 2^32 bytes
// together. Refused with `Memory` if the allocator refuses.
fn kept_of<A: Allocator + Copy>(
    alloc: A,
    text: NeutralText<'_>,
) -> Result<(Vec<u8, A>, Functions<A>), Refusal>
    requires short { argument_bytes (neutral_of text).frames < 2 ^ 32 }
    ensures base { IfOk result (λ kept. kept.0.items ≡ (neutral_of text.entry).base) }
    ensures functions { IfOk result (λ kept. frames_in kept.1.items ≡ (neutral_of text.entry).frames) }
    ensures err { IsOkUnless result Refusal.Memory }
{
    let base = Vec::from_slice(alloc, text.base())?;
    let mut functions = Vec::with_capacity(alloc, text.depth())?;
    let mut rest = text;
    while let Some(innermost) = rest.innermost() {
        let arguments = Pieces::of(alloc, &innermost.arguments)?;
        functions.push_reserved((innermost.kind, arguments));
        rest = rest.before(&innermost);
    }
    Ok((base, functions))
}

// Puts a base text and begun functions in the place of all that the lists hold. There has to be room
// for these. It takes no memory.
fn put_functions<A: Allocator + Copy, E: TwoEnds<u8, A>, M: TwoEnds<Mark, A>>(
    text: &mut E,
    marks: &mut M,
    base: &[u8],
    mut functions: Functions<A>,
)
    requires text_room { length base.now + argument_bytes (frames_in functions.items) ≤ (E.ends text.old).capacity }
    requires mark_room { mark_count (frames_in functions.items) ≤ (M.ends marks.old).capacity }
    ensures same { neutral_of (record { text = (E.ends text.new).left; marks = (M.ends marks.new).left })
        ≡ record { base = base.now; frames = frames_in functions.items } }
    ensures ordered { IsOrdered (record { text = (E.ends text.new).left; marks = (M.ends marks.new).left }) }
    ensures right { (E.ends text.new).right ≡ [] }
    ensures on_left { (M.ends marks.new).right ≡ [] }
    ensures text_room { (E.ends text.new).capacity ≡ (E.ends text.old).capacity }
    ensures mark_room { (M.ends marks.new).capacity ≡ (M.ends marks.old).capacity }
{
    refill(text, base, &[]);
    refill(marks, &[], &[]);
    while let Some((kind, arguments)) = functions.pop() {
        put_function(text, marks, kind, &arguments.lend());
    }
}

// Puts a begun function at the end of the text on the left: the mark at which it begins, its bytes,
// and a mark for each `,`.
pub(crate) fn put_function<A: Allocator + Copy, E: TwoEnds<u8, A>, M: TwoEnds<Mark, A>>(
    text: &mut E,
    marks: &mut M,
    kind: Kind,
    arguments: &PiecesRef<'_>,
)
    requires text_room { item_count (E.ends text.old) + length (concat (all_texts arguments.now))
        ≤ (E.ends text.old).capacity }
    requires mark_room { item_count (M.ends marks.old) + 1 + length arguments.now.finished
        ≤ (M.ends marks.old).capacity }
    ensures text { E.ends text.new
        ≡ record (E.ends text.old) { left = (E.ends text.old).left ++ concat (all_texts arguments.now) } }
    ensures marks { M.ends marks.new ≡ record (M.ends marks.old) {
      left = (M.ends marks.old).left
          ++ function_marks (length (E.ends text.old).left) kind (map length arguments.now.finished);
    } }
{
    let bytes = arguments.text();
    text.put_left(bytes);
    let mut place = text.left().len() - bytes.len();
    marks.push_left(Mark {
        place,
        frame: Some(kind),
    });
    for length in arguments.commas() {
        place += *length as usize;
        marks.push_left(Mark { place, frame: None });
    }
}
