//! What segmenting cuts: the gaps that it makes, kept so that they can be filled again.
ghost use Rattle.std.specs.Prelude.{◌≡◌, ◌+◌, ◌++◌, ◌<◌, ◌≤◌, ◌∷◌, [], length, take, drop, is_some, option_map, Some};
ghost use Rattle.std.specs.Prelude.{IfOk, IsOkUnless, IsTrue, OnOk};
ghost use Rattle.std.specs.List.{All};
ghost use Rattle.trac_gap.specs.Ends.{item_count};
ghost use Rattle.trac_rules.specs.Cuts.{cut_of, joined};
ghost use Rattle.trac_rules.specs.Form.{all_items, as_items, at_start};
ghost use Rattle.trac_rules.specs.Segmenting.{segmented};
ghost use Rattle.trac_rules.specs.declared.item.Item.TheVariants.{Gap};
ghost use Rattle.trac_forms.specs.Layout.{IsKept, divided};
ghost use Rattle.trac_items.specs.RunGaps.{AreWithin, IsOld, gapped};

use crate::error::FormError;
use crate::filling::text;
use crate::form::{Form, Items, pack};
use crate::packing::put_text;
use std::alloc::{Allocator, Global};
use std::marker::Model;
use trac_gap::TwoEnds;
use trac_items::{PackedItem, RunGap, Texts, cut_run};
use trac_rules::item::{CutGap, Item};
use trac_rules::limit::{FORM_LIMIT, MARK_LIMIT};

/// The gaps that segmenting makes in a form, at rising places: how many items stand before each in the
/// segmented form, and its ordinal. With the texts that were cut out it says what the form was before. It is
/// seen as the list of these gaps.
#[derive(Drop)]
pub struct Cut<A: Allocator + Copy = Global> {
    gaps: Vec<CutGap, A>,
}

impl<A: Allocator + Copy> Model for Cut<A> {
    ghost use Rattle.std.specs.Prelude.{List};
    ghost use Rattle.trac_rules.specs.declared.item.CutGap.{CutGap};

    ghost Value = { List CutGap };

    ghost view = { λ c. c.gaps.items };
}

impl<A: Allocator + Copy> Cut<A> {
    /// The gaps, one after another. It takes no memory.
    pub fn gaps(&self) -> &[CutGap]
        ensures { result.now ≡ self.now }
    {
        self.gaps.as_slice()
    }
}

impl<A: Allocator + Copy> Form<A> {
    /// What segmenting with these texts would cut: the gaps that it would make. There may be at most 1,048,576
    /// texts. The form stays as it is.
    ///
    /// Refused with `Memory` if the allocator refuses.
    pub fn cut_for<T: Texts>(&self, texts: &T) -> Result<Cut<A>, FormError>
        requires { length (T.texts texts.now) ≤ MARK_LIMIT }
        ensures cut { IfOk result (λ c. c ≡ cut_of (T.texts texts.now) self.now) }
        ensures err { IsOkUnless result FormError.Memory }
    {
        let mut gaps = Vec::new(self.alloc);
        // A text that is kept as one has no gaps, and is searched where it stands. Of any other form the bytes are
        // copied into one text first.
        if self.items.left().is_empty() && self.items.right().is_empty() {
            let gaps = cut_run(self.alloc, texts, self.text.as_slice(), gaps)?;
            return Ok(Cut { gaps });
        }
        let mut run = Vec::with_capacity(self.alloc, self.len())?;
        self.take_apart(&mut run, &mut gaps)?;
        let gaps = cut_run(self.alloc, texts, run.as_slice(), gaps)?;
        Ok(Cut { gaps })
    }

    /// Cuts these texts out of the form: for each text in turn, every run of bytes between gaps is searched from
    /// the left, and the leftmost occurrences that do not overlap become gaps of that text's number, which
    /// counts from 1. Earlier gaps stay, an empty text uses up its number, and the pointer goes to the start.
    /// `cut` has to be what `cut_for` returns for this form and these texts. This is the rule of `ss`, in this
    /// project's profile. It takes no memory.
    pub fn segment<T: Texts>(&mut self, cut: &Cut<A>, texts: &T)
        requires { cut.now ≡ cut_of (T.texts texts.now) self.old }
        ensures { self.new ≡ segmented (T.texts texts.now) self.old }
    {
        pack(&mut self.text, &mut self.items);
        cut_gaps(&mut self.items, cut.gaps(), texts);
    }

    /// Undoes `segment`: puts the texts in place of the gaps of a cut again, and the pointer at the start. At each
    /// place of the cut, which rise, a gap of its ordinal has to stand, as wide as the text of that number. Other gaps
    /// stay. It takes no memory, since the form has room for all bytes that it stands for.
    pub fn unsegment<T: Texts>(&mut self, cut: Cut<A>, texts: &T)
        requires { IsTrue (is_some (joined (T.texts texts.now) cut (all_items self.old))) }
        ensures { option_map at_start (joined (T.texts texts.now) cut (all_items self.old)) ≡ Some self.new }
    {
        pack(&mut self.text, &mut self.items);
        fill_gaps(&mut self.items, cut.gaps(), texts);
    }

    // Puts the bytes of the form into `run` and its gaps into `gaps`; both are empty before.
    fn take_apart(&self, run: &mut Vec<u8, A>, gaps: &mut Vec<RunGap, A>) -> Result<(), FormError>
        requires run { run.old.items ≡ [] }
        requires gaps { gaps.old.items ≡ [] }
        ensures items { OnOk result (gapped run.new.items gaps.new.items ≡ all_items self.now) }
        ensures fits { OnOk result (length run.new.items ≤ FORM_LIMIT) }
        ensures within { OnOk result (AreWithin (length run.new.items) gaps.new.items) }
        ensures old { OnOk result (All IsOld gaps.new.items) }
        ensures err { IsOkUnless result FormError.Memory }
    {
        // how many bytes stand before the last gap
        let mut before = 0;
        for i in 0..self.len() {
            let Some(item) = self.item(i) else {
                unreachable!();
            };
            match item {
                Item::Byte(b) => {
                    run.push(b)?;
                    continue;
                }
                Item::Gap { ordinal, width } => {
                    let gap = RunGap {
                        passed: (run.len() - before) as u32,
                        taken: 0,
                        width,
                        ordinal,
                    };
                    gaps.push(gap)?;
                }
            }
            before = run.len();
        }
        Ok(())
    }
}

// Cuts the texts of these gaps out of all items, and leaves all of them on the right.
fn cut_gaps<T: Texts, A: Allocator + Copy>(items: &mut Items<A>, gaps: &[CutGap], texts: &T)
    requires cut { gaps.now ≡ cut_of (T.texts texts.now) (divided items.old) }
    requires kept { IsKept items.old }
    ensures cut { divided items.new ≡ segmented (T.texts texts.now) (divided items.old) }
    ensures kept { IsKept items.new }
{
    let before = items.left().len();
    items.shift_right(before);
    for gap in gaps {
        let passed = gap.place - items.left().len();
        cut_gap(items, passed, gap.ordinal, text(texts, gap.ordinal).len());
    }
    let made = items.left().len();
    items.shift_right(made);
}

// Passes so many items, and puts a gap in place of those after them, as many as it is wide.
fn cut_gap<A: Allocator + Copy>(items: &mut Items<A>, passed: usize, ordinal: u32, width: usize)
    requires some { 0 < width }
    requires fits { width ≤ FORM_LIMIT }
    requires there { passed + width ≤ length items.old.right }
    requires room { item_count items.old ≤ items.old.capacity }
    ensures { items.new ≡ record items.old {
      left = items.old.left ++ (take passed items.old.right ++ Gap ordinal width ∷ []);
      right = drop (passed + width) items.old.right;
    } }
{
    items.shift_left(passed);
    items.cut_right(width);
    items.push_left(PackedItem::new(Item::Gap {
        ordinal,
        width: width as u32,
    }));
}

// Puts the texts of these gaps in their place again, and leaves all items on the right.
fn fill_gaps<T: Texts, A: Allocator + Copy>(items: &mut Items<A>, gaps: &[CutGap], texts: &T)
    requires there { IsTrue (is_some (joined (T.texts texts.now) gaps.now (all_items (divided items.old)))) }
    requires kept { IsKept items.old }
    ensures filled { option_map at_start (joined (T.texts texts.now) gaps.now (all_items (divided items.old)))
        ≡ Some (divided items.new) }
    ensures kept { IsKept items.new }
{
    let before = items.left().len();
    items.shift_right(before);
    // the place of the first item on the right, among the items with gaps
    let mut place = 0;
    for gap in gaps {
        fill_gap(items, gap.place - place, text(texts, gap.ordinal));
        place = gap.place + 1;
    }
    let joined = items.left().len();
    items.shift_right(joined);
}

// Passes so many items, and puts the bytes of a text in place of the item after them.
fn fill_gap<A: Allocator + Copy>(items: &mut Items<A>, passed: usize, text: &[u8])
    requires there { passed < length items.old.right }
    requires room { length items.old.left + length items.old.right + length text.now ≤ items.old.capacity + 1 }
    ensures { items.new ≡ record items.old {
      left = items.old.left ++ (take passed items.old.right ++ as_items text.now);
      right = drop (passed + 1) items.old.right;
    } }
{
    items.shift_left(passed);
    items.cut_right(1);
    put_text(text, items);
}
