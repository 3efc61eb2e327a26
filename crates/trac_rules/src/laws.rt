//! Laws of the definitions, each the contract of a function that does nothing.
ghost use Rattle.std.specs.FinMap as finite;
ghost use Rattle.std.specs.List.{All, IsDistinct};
ghost use Rattle.std.specs.Prelude.{◌≡◌, ◌<◌, ◌≤◌, ◌++◌, ◌∷◌, [], bytes_eq, length, map, List, Ok, Some, true, ℕ};
ghost use Rattle.trac_rules.specs.Blocks.{AreKept, block_fits, fetched, fetching, is_address};
ghost use Rattle.trac_rules.specs.Blocks.{moved_out, number_addressed, put_aside};
ghost use Rattle.trac_rules.specs.Effect.{leaves};
ghost use Rattle.trac_rules.specs.Form.{Form, IsWide, all_items};
ghost use Rattle.trac_rules.specs.Handling.{keeping};
ghost use Rattle.trac_rules.specs.Limits.{may_be_put};
ghost use Rattle.trac_rules.specs.Matching.{protected, IsBalanced};
ghost use Rattle.trac_rules.specs.Proper.{AreProperForms, IsProper, IsProperStorage, is_proper};
ghost use Rattle.trac_rules.specs.Session.{Command, PlainSession, answer};
ghost use Rattle.trac_rules.specs.State.{Block, Environment, Forms, State, Storage, initial};
ghost use Rattle.trac_rules.specs.Stepping.{step};

use crate::byte::CLOSING;
use crate::limit::{
    BLOCK_LIMIT, FORM_COUNT_LIMIT, FORM_LIMIT, JOURNAL_LIMIT, MARK_LIMIT, NAME_LIMIT, OUTPUT_LIMIT,
    TAPE_LIMIT, TEXT_LIMIT,
};

/// The match of a protecting `(`, which is found as the first place that fits, is the one of balanced texts:
/// what is protected is the text before a `)` that has as many `(` as `)`, and no front of it has more `)` than `(`.
/// If there is no such text, the whole rest is protected.
#[tactic(auto, using(crate::proofs::Balanced::protected_of_balanced, crate::proofs::Balanced::protected_of_unbalanced))]
pub fn match_is_balanced()
    ensures found { (text inner rest : List ℕ) → IsBalanced inner → text ≡ inner ++ CLOSING ∷ rest →
        protected text ≡ record { inner = inner; rest = rest } }
    ensures none { (text : List ℕ) → ((inner rest : List ℕ) → IsBalanced inner → ¬ (text ≡ inner ++ CLOSING ∷ rest)) →
        protected text ≡ record { inner = text; rest = [] } }
{}

/// No step takes a block off the list, or changes one but to erase it. So an erased block keeps its
/// number, which is not used again.
pub fn blocks_stay()
    ensures { (environment : Environment) (s t : State) → step environment s ≡ Ok t → AreKept s.blocks t.blocks }
{}

/// Judging forms and blocks when they are put is the same as judging the whole state after the step. The state at the
/// start is proper, and each step leads from a proper state to a proper one. So a step whose new state would pass any
/// limit is refused. A form that may be put among proper forms, its gaps wide, leaves them proper; and a form that
/// leaves them proper may be put. So too a new block fits if it leaves a proper storage, and a block's forms may be put
/// among the others if they leave proper forms.
pub fn states_stay_proper()
    ensures start { IsProper initial }
    ensures each_step { (environment : Environment) (s t : State) → IsProper s →
        step environment s ≡ Ok t → IsProper t }
    ensures sufficient { (name : List ℕ) (form : Form) (forms : Forms) →
        AreProperForms forms → All IsWide (all_items form) →
        may_be_put name form forms ≡ true → AreProperForms (finite.insert forms name form) }
    ensures necessary { (name : List ℕ) (form : Form) (forms : Forms) → AreProperForms (finite.insert forms name form) →
        may_be_put name form forms ≡ true }
    ensures necessary_of_a_block { (names : List (List ℕ)) (storage : Storage) →
        IsProperStorage (put_aside names storage) → block_fits (moved_out names storage.forms) storage.blocks ≡ true }
    ensures necessary_of_its_forms { (number : ℕ) (storage : Storage) → AreProperForms (fetched number storage) →
        fetching number storage ≡ Ok (leaves (keeping (fetched number storage) storage)) }
{}

/// A form is the address of one block at most: of a live block whose number its bytes are, if there are not more blocks
/// than there may be.
pub fn one_block_is_addressed()
    ensures { (form : Form) (blocks : List Block) (number : ℕ) → length blocks ≤ BLOCK_LIMIT → number < length blocks →
        is_address form blocks number ≡ true → number_addressed form blocks ≡ Some number }
{}

/// What a block holds when it is made: each form as it stood under its name, and no name twice.
#[tactic(auto, using(crate::proofs::ProperBlocks::moved_out_among, crate::proofs::ProperBlocks::moved_out_distinct))]
pub fn moved_forms_stand_as_before()
    ensures forms { (names : List (List ℕ)) (forms : Forms) →
        All (λ entry. finite.get forms entry.0 ≡ Some entry.1) (moved_out names forms) }
    ensures distinct { (names : List (List ℕ)) (forms : Forms) →
        IsDistinct bytes_eq (map (λ entry. entry.0) (moved_out names forms)) }
{}

/// Whether a state is proper is decided by `is_proper`.
pub fn properness_is_decided()
    ensures sufficient { (s : State) → is_proper s ≡ true → IsProper s }
    ensures necessary { (s : State) → IsProper s → is_proper s ≡ true }
{}

/// The limits are those of this project's profile: bytes of texts, marks, bytes of a form, of a name and of the output,
/// live forms, blocks, bytes of a tape, and records of a journal.
pub fn limits_are_as_stated()
    ensures texts { TEXT_LIMIT ≡ 16777216 }
    ensures marks { MARK_LIMIT ≡ 1048576 }
    ensures form { FORM_LIMIT ≡ 16777216 }
    ensures name { NAME_LIMIT ≡ 16777216 }
    ensures live_forms { FORM_COUNT_LIMIT ≡ 65536 }
    ensures blocks { BLOCK_LIMIT ≡ 65536 }
    ensures output { OUTPUT_LIMIT ≡ 16777216 }
    ensures tape { TAPE_LIMIT ≡ 33554432 }
    ensures journal { JOURNAL_LIMIT ≡ 1048576 }
{}

/// Whatever is asked of a session, it has numbers of the width that it began with.
#[tactic(auto, using(crate::proofs::Replies::answer_width))]
pub fn widths_stay()
    ensures { (command : Command) (p : PlainSession) → (answer command p).session.width ≡ p.width }
{}
