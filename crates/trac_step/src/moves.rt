//! The steps that perform no function.
ghost use Rattle.std.specs.Prelude.{◌≡◌, ◌≢◌, ◌<◌, length, true};
ghost use Rattle.trac_rules.specs.Scanning.{front_of, scan};
ghost use Rattle.trac_rules.specs.Limits.{texts_fit};
ghost use Rattle.trac_rules.specs.Proper.{IsProper};
ghost use Rattle.trac_rules.specs.Records.{texts_in};
ghost use Rattle.trac_text.specs.Ruled.{IsShort, rule_of};
ghost use Rattle.trac_step.specs.Calling.{IfMoves};
ghost use Rattle.trac_step.specs.Kept.{IsCarriedOut};

use crate::engine::Core;
use std::alloc::Allocator;
use trac_gap::TwoEnds;
use trac_journal::Keeper;
use trac_rules::limit::MARK_LIMIT;
use trac_rules::scan::Front;
use trac_text::{Mark, Refusal, Rule};

impl<E: TwoEnds<u8, A>, M: TwoEnds<Mark, A>, A: Allocator + Copy> Core<E, M, A> {
    // Whether the state that this rule moves on to is within the limits: only a further mark can be one too many.
    pub(crate) fn move_fits(&self, rule: Rule) -> bool
        requires next { rule ≡ rule_of (texts_in self.now.state) }
        requires proper { IsProper self.now.state }
        ensures { IfMoves (scan self.now.state) (λ t. result ≡ texts_fit t) }
    {
        !rule.makes_mark() || self.texts.mark_count() < MARK_LIMIT
    }

    // Carries out this rule, which asks for no call, and keeps what it destroys.
    #[inline(always)]
    pub(crate) fn carry_out<K: Keeper<A>>(
        &mut self,
        keeper: &mut K,
        rule: Rule,
    ) -> Result<(), Refusal>
        requires next { rule ≡ rule_of (texts_in self.old.state) }
        requires moves { rule ≢ Rule.Perform }
        requires fits { IfMoves (scan self.old.state) (λ t. texts_fit t ≡ true) }
        requires proper { IsProper self.old.state }
        requires not_full { length (K.records keeper.old) < K.most }
        ensures { IsCarriedOut result self.old self.new (K.records keeper.old) (K.records keeper.new)
            (K.places keeper.old) }
    {
        match rule {
            Rule::Restart => self.empty_into(keeper),
            Rule::Gather => {
                self.texts.gather(1);
                keeper.push_moved_byte();
                Ok(())
            }
            _ => self.scan_into(keeper, rule),
        }
    }

    // The same, if what it destroys is short.
    #[inline(always)]
    fn scan_into<K: Keeper<A>>(&mut self, keeper: &mut K, rule: Rule) -> Result<(), Refusal>
        requires next { rule ≡ rule_of (texts_in self.old.state) }
        requires short { IsShort rule }
        requires fits { IfMoves (scan self.old.state) (λ t. texts_fit t ≡ true) }
        requires proper { IsProper self.old.state }
        requires not_full { length (K.records keeper.old) < K.most }
        ensures { IsCarriedOut result self.old self.new (K.records keeper.old) (K.records keeper.new)
            (K.places keeper.old) }
    {
        keeper.reserve_short()?;
        let short = self.texts.carry_out(rule)?;
        keeper.push_short(short);
        Ok(())
    }

    // The active text is empty: all other text is kept, and the idle program is loaded.
    #[inline(never)]
    fn empty_into<K: Keeper<A>>(&mut self, keeper: &mut K) -> Result<(), Refusal>
        requires front { front_of self.old.state.active ≡ Front.Nothing }
        requires proper { IsProper self.old.state }
        requires not_full { length (K.records keeper.old) < K.most }
        ensures { IsCarriedOut result self.old self.new (K.records keeper.old) (K.records keeper.new)
            (K.places keeper.old) }
    {
        keeper.reserve_idle()?;
        let (mut base, mut frames) = self.texts.reload()?;
        keeper.push_idle(&mut base, &mut frames);
        Ok(())
    }
}
