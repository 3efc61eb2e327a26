//! Active text, base text and begun functions in lists with two ends, and the rules of scanning on them.
ghost use Rattle.std.specs.Prelude.{◌≡◌, ◌+◌, ◌-◌, ◌<◌, ◌≤◌, [], ◌∷◌, ◌++◌, false, get_or, is_some, length, take, drop};
ghost use Rattle.std.specs.Prelude.{IfOk, IsOkUnless, OnErr, OnOk, true, ℕ};
ghost use Rattle.trac_gap.specs.Ends.{item_count};
ghost use Rattle.trac_rules.specs.declared.limit.TheConstants.{MARK_LIMIT};
ghost use Rattle.trac_rules.specs.Bytes.{idle_program};
ghost use Rattle.trac_rules.specs.Limits.{argument_bytes, marks as mark_count};
ghost use Rattle.trac_rules.specs.Matching.{match_of, protected};
ghost use Rattle.trac_rules.specs.Performing.{beginning_of};
ghost use Rattle.trac_rules.specs.PlainRuns.{is_plain, moved_on};
ghost use Rattle.trac_rules.specs.Scanning.{begun, comma_in, deleted, front_of, protect};
ghost use Rattle.trac_text.specs.Holding.{BeginsInnermost, CanHold, bytes_in, innermost_arguments, texts_by};
ghost use Rattle.trac_text.specs.Marks.{mark_at};
ghost use Rattle.trac_text.specs.Moving.{with_protected};
ghost use Rattle.trac_text.specs.Neutral.{neutral_of};

use crate::args::Args;
use crate::calls::Beginning;
use crate::ends;
use crate::frames::NeutralText;
use crate::front::{front_at, plain_front};
use crate::mark::Mark;
use crate::matching::match_in;
use std::alloc::Allocator;
use std::marker::Model;
use trac_gap::TwoEnds;
use trac_rules::kind::Kind;
use trac_rules::refusal::Refusal;
use trac_rules::scan::Front;

/// What a processor with nothing to do runs: it reads a text of the input and prints its value.
pub const IDLE_PROGRAM: &[u8; 11] = b"#(ps,#(rs))";

/// The texts of a processor: the active text, the base text, which is the neutral text outside all begun functions, and
/// the begun functions with their arguments. It is seen as these, and as how many bytes and how many marks it has room
/// for without more memory: a mark for each argument of a begun function. They are always within the limits.
#[derive(Drop)]
pub struct Texts<E: TwoEnds<u8, A>, M: TwoEnds<Mark, A>, A: Allocator + Copy> {
    // the neutral text on the left, the active text on the right
    pub(crate) text: E,
    // on the left, from the first on
    pub(crate) marks: M,
    // how many of the marks begin functions
    pub(crate) functions: usize,
    pub(crate) alloc: A,
}

impl<E: TwoEnds<u8, A>, M: TwoEnds<Mark, A>, A: Allocator + Copy> Model for Texts<E, M, A> {
    ghost use Rattle.trac_text.specs.Holding.{AreSound, ShownTexts, shown_texts, shown_texts_code};

    ghost Value = { ShownTexts };

    ghost coded = { shown_texts_code };

    ghost view = { λ t. shown_texts (E.ends t.text) (M.ends t.marks) };

    ghost invariant = { λ t. AreSound t.functions (E.ends t.text) (M.ends t.marks) };
}

impl<E: TwoEnds<u8, A>, M: TwoEnds<Mark, A>, A: Allocator + Copy> Texts<E, M, A> {
    /// The idle program of T-64 is the active text, and there is nothing else. Refused with `Memory` if the allocator
    /// refuses.
    pub fn new(alloc: A) -> Result<Self, Refusal>
        ensures made { IfOk result (λ t. t.texts ≡ record { active = idle_program; base = []; frames = [] }) }
        ensures err { IsOkUnless result Refusal.Memory }
    {
        let mut text = E::new(alloc);
        ends::reserve(&mut text, IDLE_PROGRAM.len())?;
        text.put_right(IDLE_PROGRAM);
        Ok(Texts {
            text,
            marks: M::new(alloc),
            functions: 0,
            alloc,
        })
    }

    /// What is not scanned yet: the active string of T-64.
    pub fn active(&self) -> &[u8]
        ensures { result.now ≡ self.now.texts.active }
    {
        self.text.right()
    }

    /// What the active text begins with, which decides the rule of scanning, as T-64 has it.
    #[inline(always)]
    pub fn front(&self) -> Front
        ensures { result ≡ front_of self.now.texts.active }
    {
        front_at(self.text.right())
    }

    /// Base text and begun functions, the neutral string of T-64.
    pub fn neutral(&self) -> NeutralText<'_>
        ensures { neutral_of result ≡ record { base = self.now.texts.base; frames = self.now.texts.frames } }
    {
        NeutralText::new(self.text.left(), self.marks.left(), self.functions)
    }

    /// All arguments of the innermost function, which begins here. Nothing is copied.
    pub fn arguments_at(&self, beginning: Beginning) -> Args<'_>
        requires { BeginsInnermost self.now.texts beginning }
        ensures { result ≡ innermost_arguments self.now.texts.frames }
    {
        let further = self.marks.left().split_at(beginning.number + 1).1;
        Args::new(self.text.left(), further, beginning.place)
    }

    /// How many bytes base text and the arguments of all begun functions hold together. It takes the
    /// same time however many these are.
    pub fn neutral_len(&self) -> usize
        ensures { result ≡ length self.now.texts.base + argument_bytes self.now.texts.frames }
    {
        self.text.left().len()
    }

    /// How many arguments the begun functions have together. It takes the same time however many these are.
    pub fn mark_count(&self) -> usize
        ensures { result ≡ mark_count self.now.texts.frames }
    {
        self.marks.left().len()
    }

    /// Does nothing when it runs. The call tells the prover what holds of all texts: there is room for them, and they
    /// pass no limit.
    pub fn recall_room(&self)
        ensures { CanHold self.now self.now.texts }
    {
        let _functions = self.functions;
    }

    /// The first n bytes of the active text, which has to have them, go to the current text. It takes no memory.
    pub fn gather(&mut self, n: usize)
        requires { n ≤ length self.old.texts.active }
        ensures { self.new ≡ record self.old { texts = texts_by (moved_on n) self.old.texts } }
    {
        self.text.shift_left(n);
    }

    /// The plain bytes with which the active text begins, counted up to `most`, go to the current text: bytes that go
    /// there whatever stands after them. Returns how many these are. It takes no memory.
    #[inline(always)]
    pub fn gather_plain(&mut self, most: usize) -> usize
        ensures moved { self.new ≡ record self.old { texts = texts_by (moved_on result) self.old.texts } }
        ensures most { result ≤ most }
        ensures within { result ≤ length self.old.texts.active }
        ensures plain { (k : ℕ) → k < result → is_plain (get_or self.old.texts.active k 0) ≡ true }
        ensures end { result < most → result < length self.old.texts.active →
            is_plain (get_or self.old.texts.active result 0) ≡ false }
    {
        let count = plain_front(self.text.right(), most);
        gather_some(&mut self.text, count);
        count
    }

    /// Takes a `(` away, the first byte of the active text: what it protects goes to the current text, by T-64's rule.
    /// Returns how many bytes these are, and whether there was a match, which is taken away too. It takes no memory.
    pub fn protect(&mut self) -> (usize, bool)
        requires { 0 < length self.old.texts.active }
        ensures protected { self.new ≡ record self.old {
          texts = texts_by (protect (protected (drop 1 self.old.texts.active))) self.old.texts;
        } }
        ensures inner { result.0 ≡ length (protected (drop 1 self.old.texts.active)).inner }
        ensures closed { result.1 ≡ is_some (match_of (drop 1 self.old.texts.active)) }
    {
        take_protected(&mut self.text)
    }

    /// Deletes the first byte of the active text, and returns it. It takes no memory.
    pub fn delete(&mut self) -> u8
        requires { 0 < length self.old.texts.active }
        ensures deleted { self.new ≡ record self.old { texts = texts_by (deleted 1) self.old.texts } }
        ensures byte { result ≡ get_or self.old.texts.active 0 0 }
    {
        take_first(&mut self.text)
    }

    /// Deletes the beginning of a function of this kind, with which the active text has to begin, and begins the
    /// function. Refused with `Memory` if there is no room for a mark and the allocator refuses; then nothing changed.
    #[inline(always)]
    pub fn begin(&mut self, kind: Kind) -> Result<(), Refusal>
        requires front { length (beginning_of kind) ≤ length self.old.texts.active }
        requires limit { mark_count self.old.texts.frames < MARK_LIMIT }
        ensures begun { OnOk result
            (self.new.texts ≡ texts_by (λ s. begun kind (deleted (length (beginning_of kind)) s)) self.old.texts) }
        ensures text_room { self.new.text_room ≡ self.old.text_room }
        ensures mark_room { self.old.mark_room ≤ self.new.mark_room }
        ensures unchanged { OnErr result (self.new ≡ self.old) }

        // Memory is refused only if there is no room.
        ensures full { OnErr result (self.old.mark_room ≤ mark_count self.old.texts.frames) }
        ensures err { IsOkUnless result Refusal.Memory }
    {
        let n = match kind {
            Kind::Active => 2,
            Kind::Neutral => 3,
        };
        push_mark(&mut self.text, &mut self.marks, n, Some(kind))?;
        self.functions += 1;
        Ok(())
    }

    /// Deletes a `,`, the first byte of the active text, and begins a further argument of the innermost function, which
    /// has to be there. Refused with `Memory` if there is no room for a mark and the allocator refuses; then nothing
    /// changed.
    #[inline(always)]
    pub fn next_argument(&mut self) -> Result<(), Refusal>
        requires front { 0 < length self.old.texts.active }
        requires inside { 0 < length self.old.texts.frames }
        requires limit { mark_count self.old.texts.frames < MARK_LIMIT }
        ensures begun { OnOk result
            (self.new.texts ≡ texts_by (λ s. comma_in s.frames (deleted 1 s)) self.old.texts) }
        ensures text_room { self.new.text_room ≡ self.old.text_room }
        ensures mark_room { self.old.mark_room ≤ self.new.mark_room }
        ensures unchanged { OnErr result (self.new ≡ self.old) }

        // Memory is refused only if there is no room.
        ensures full { OnErr result (self.old.mark_room ≤ mark_count self.old.texts.frames) }
        ensures err { IsOkUnless result Refusal.Memory }
    {
        push_mark(&mut self.text, &mut self.marks, 1, None)?;
        Ok(())
    }

    /// Makes room for n more bytes. The texts stay. Refused with `Memory` if the allocator refuses; then nothing
    /// changed.
    #[inline]
    pub fn reserve(&mut self, n: usize) -> Result<(), Refusal>
        ensures same { self.new ≡ record self.old { text_room = self.new.text_room } }
        ensures grows { self.old.text_room ≤ self.new.text_room }
        ensures ok { OnOk result (bytes_in self.old.texts + n ≤ self.new.text_room) }
        ensures unchanged { OnErr result (self.new ≡ self.old) }
        ensures err { IsOkUnless result Refusal.Memory }
    {
        ends::reserve(&mut self.text, n)
    }
}

// Moves so many bytes of the active text, which has to have them, to the current text. After most steps there are none.
#[inline(always)]
fn gather_some<E: TwoEnds<u8, A>, A: Allocator + Copy>(text: &mut E, count: usize)
    requires { count ≤ length (E.ends text.old).right }
    ensures { E.ends text.new ≡ record (E.ends text.old) {
      left = (E.ends text.old).left ++ take count (E.ends text.old).right;
      right = drop count (E.ends text.old).right;
    } }
{
    if count > 0 {
        text.shift_left(count);
    }
}

// Takes a `(` away, the first byte on the right: what it protects goes to the left, by T-64's rule. Returns how many
// bytes these are, and whether there was a match, which is taken away too. It takes no memory.
fn take_protected<A: Allocator + Copy, E: TwoEnds<u8, A>>(text: &mut E) -> (usize, bool)
    requires { 0 < length (E.ends text.old).right }
    ensures taken { E.ends text.new ≡ with_protected (protected (drop 1 (E.ends text.old).right)) (E.ends text.old) }
    ensures inner { result.0 ≡ length (protected (drop 1 (E.ends text.old).right)).inner }
    ensures closed { result.1 ≡ is_some (match_of (drop 1 (E.ends text.old).right)) }
{
    text.cut_right(1);
    let Some(place) = match_in(text.right()) else {
        let inner = text.right().len();
        text.shift_left(inner);
        return (inner, false);
    };
    text.shift_left(place);
    text.cut_right(1);
    (place, true)
}

// Takes the first byte on the right away, and returns it. It takes no memory.
fn take_first<A: Allocator + Copy, E: TwoEnds<u8, A>>(text: &mut E) -> u8
    requires { 0 < length (E.ends text.old).right }
    ensures taken { E.ends text.new ≡ record (E.ends text.old) { right = drop 1 (E.ends text.old).right } }
    ensures byte { result ≡ get_or (E.ends text.old).right 0 0 }
{
    let first = text.right()[0];
    text.cut_right(1);
    first
}

// Takes the first n bytes on the right away, and puts a mark after all others, at the end of the text on the left. It
// is the mark of a function of this kind, or, if none is named, of a further argument. Refused with `Memory` if the
// marks have no room and the allocator refuses; then nothing changed.
#[inline(always)]
fn push_mark<A: Allocator + Copy, E: TwoEnds<u8, A>, M: TwoEnds<Mark, A>>(
    text: &mut E,
    marks: &mut M,
    n: usize,
    frame: Option<Kind>,
) -> Result<(), Refusal>
    requires front { n ≤ length (E.ends text.old).right }
    requires on_left { (M.ends marks.old).right ≡ [] }
    ensures text { OnOk result (E.ends text.new ≡ record (E.ends text.old) { right = drop n (E.ends text.old).right }) }
    ensures marks { OnOk result (M.ends marks.new ≡ record (M.ends marks.old) {
      left = (M.ends marks.old).left ++ mark_at (length (E.ends text.old).left) frame ∷ [];
      capacity = (M.ends marks.new).capacity;
    }) }
    ensures holds { OnOk result (length (M.ends marks.old).left + 1 ≤ (M.ends marks.new).capacity) }
    ensures room { (M.ends marks.old).capacity ≤ (M.ends marks.new).capacity }
    ensures unchanged_text { OnErr result (E.ends text.new ≡ E.ends text.old) }
    ensures unchanged_marks { OnErr result (M.ends marks.new ≡ M.ends marks.old) }

    // Memory is refused only if there is no room.
    ensures full { OnErr result ((M.ends marks.old).capacity ≤ length (M.ends marks.old).left) }
    ensures err { IsOkUnless result Refusal.Memory }
{
    ends::reserve(marks, 1)?;
    text.cut_right(n);
    marks.push_left(Mark {
        place: text.left().len(),
        frame,
    });
    Ok(())
}

// Empties both lists, and puts the idle program on the right, as T-64 does when the active text is empty. Refused with
// `Memory` if there is no room for it and the allocator refuses; then nothing changed.
pub(crate) fn restart<A: Allocator + Copy, E: TwoEnds<u8, A>, M: TwoEnds<Mark, A>>(
    text: &mut E,
    marks: &mut M,
) -> Result<(), Refusal>
    requires { (E.ends text.old).right ≡ [] }
    ensures left { OnOk result ((E.ends text.new).left ≡ []) }
    ensures right { OnOk result ((E.ends text.new).right ≡ idle_program) }
    ensures holds { OnOk result (11 ≤ (E.ends text.new).capacity) }
    ensures room { (E.ends text.old).capacity ≤ (E.ends text.new).capacity }
    ensures marks { OnOk result (M.ends marks.new ≡ record (M.ends marks.old) { left = [] }) }
    ensures unchanged_text { OnErr result (E.ends text.new ≡ E.ends text.old) }
    ensures unchanged_marks { OnErr result (M.ends marks.new ≡ M.ends marks.old) }
    ensures err { IsOkUnless result Refusal.Memory }
{
    ends::reserve(text, IDLE_PROGRAM.len())?;
    text.cut_left(text.left().len());
    marks.cut_left(marks.left().len());
    text.put_right(IDLE_PROGRAM);
    Ok(())
}
