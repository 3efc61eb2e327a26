//! The rules of scanning: which one comes next, and what it makes of the texts.
ghost use Rattle.std.specs.Prelude.{◌≡◌, ◌<◌, ◌≤◌, IfOk, IsOkUnless, OnErr, OnOk, true};
ghost use Rattle.trac_rules.specs.declared.limit.TheConstants.{MARK_LIMIT};
ghost use Rattle.trac_rules.specs.Limits.{marks as mark_count};
ghost use Rattle.trac_rules.specs.Records.{recorded};
ghost use Rattle.trac_rules.specs.Scanning.{Moves, scan};
ghost use Rattle.trac_text.specs.Holding.{alone};
ghost use Rattle.trac_text.specs.Ruled.{IsShort, makes_mark, rule_at, rule_of, said_by};

use crate::front::front_at;
use crate::mark::Mark;
use crate::texts::Texts;
use std::alloc::Allocator;
use trac_gap::TwoEnds;
use trac_rules::kind::Kind;
use trac_rules::refusal::Refusal;
use trac_rules::scan::Front;

/// A rule of scanning of T-64, chosen by what the active text begins with and, at a `,` or a `)`, by whether a function
/// is begun.
#[derive(Clone, Copy)]
pub enum Rule {
    /// The active text is empty: all texts are emptied, and the idle program is loaded.
    Restart,
    /// A `(`: what it protects goes to the current text.
    Protect,
    /// A line end or a tab; outside any function also a `,` or a `)`: it is deleted.
    Delete,
    /// The beginning of a function of this kind: it is deleted, and the function is begun.
    Begin(Kind),
    /// A `,` in a function: it is deleted, and a further argument is begun.
    NextArgument,
    /// Any other byte goes to the current text.
    Gather,
    /// A `)` in a function, which is performed.
    Perform,
}

/// What a rule of scanning destroyed, if it did not empty the texts: small, copied freely, and it owns no memory. What
/// the rule only moved is not kept: this says how much it was.
#[derive(Clone, Copy)]
pub enum Short {
    /// A byte went to the current text.
    Moved,
    /// An argument was finished, and an empty one begun.
    Comma,
    /// A function was begun.
    Begun,
    /// A protected text went to the current text.
    Quoted {
        /// How many bytes it has.
        inner: usize,
        /// Whether a match of its `(` was deleted.
        closed: bool,
    },
    /// This byte was deleted.
    Deleted(u8),
}

// The rule for this front, in a function or outside any.
fn rule_for(front: Front, is_inside: bool) -> Rule
    ensures { result ≡ rule_at front is_inside }
{
    match front {
        Front::Nothing => Rule::Restart,
        Front::Opening => Rule::Protect,
        Front::Comma if is_inside => Rule::NextArgument,
        Front::Closing if is_inside => Rule::Perform,
        Front::Layout | Front::Comma | Front::Closing => Rule::Delete,
        Front::ActiveCall => Rule::Begin(Kind::Active),
        Front::NeutralCall => Rule::Begin(Kind::Neutral),
        Front::Sharp | Front::Plain => Rule::Gather,
    }
}

impl Rule {
    /// Whether the rule makes a mark: it begins a function, or a further argument of one.
    pub fn makes_mark(self) -> bool
        ensures { result ≡ makes_mark self }
    {
        match self {
            Rule::Begin(_) | Rule::NextArgument => true,
            Rule::Restart | Rule::Protect | Rule::Delete | Rule::Gather | Rule::Perform => false,
        }
    }
}

impl<E: TwoEnds<u8, A>, M: TwoEnds<Mark, A>, A: Allocator + Copy> Texts<E, M, A> {
    /// The rule that comes next. It takes the same time however long the texts are.
    #[inline(always)]
    pub fn rule(&self) -> Rule
        ensures { result ≡ rule_of self.now.texts }
    {
        rule_for(front_at(self.text.right()), self.functions > 0)
    }

    /// Carries out this rule, which has to come next, and returns what it destroyed. It may not be the one that empties
    /// the texts, nor the one that performs a function. If it makes a mark, there have to be fewer than the limit.
    /// Refused with `Memory` if there is no room for a mark and the allocator refuses; then nothing changed.
    #[inline(always)]
    pub fn carry_out(&mut self, rule: Rule) -> Result<Short, Refusal>
        requires next { rule ≡ rule_of self.old.texts }
        requires short { IsShort rule }
        requires limit { makes_mark rule ≡ true → mark_count self.old.texts.frames < MARK_LIMIT }
        ensures scanned { OnOk result (scan (alone self.old.texts) ≡ Moves (alone self.new.texts)) }
        ensures told { IfOk result (λ short. said_by short ≡ recorded (alone self.old.texts)) }
        ensures text_room { self.new.text_room ≡ self.old.text_room }
        ensures mark_room { self.old.mark_room ≤ self.new.mark_room }
        ensures unchanged { OnErr result (self.new ≡ self.old) }

        // Memory is refused only if there is no room for a mark.
        ensures mark { OnErr result (makes_mark rule ≡ true) }
        ensures full { OnErr result (self.old.mark_room ≤ mark_count self.old.texts.frames) }
        ensures err { IsOkUnless result Refusal.Memory }
    {
        match rule {
            Rule::Protect => {
                let (inner, closed) = self.protect();
                Ok(Short::Quoted { inner, closed })
            }
            Rule::Delete => {
                let byte = self.delete();
                Ok(Short::Deleted(byte))
            }
            Rule::Begin(kind) => {
                self.begin(kind)?;
                Ok(Short::Begun)
            }
            Rule::NextArgument => {
                self.next_argument()?;
                Ok(Short::Comma)
            }
            Rule::Gather => {
                self.gather(1);
                Ok(Short::Moved)
            }
            Rule::Restart | Rule::Perform => unreachable!(),
        }
    }
}
