//! Segmenting a form, as the run of its bytes and gaps in it: gaps are found in the run itself, and no byte is moved.
ghost use Rattle.std.specs.Prelude.{◌≡◌, ◌<◌, ◌≤◌, [], length, IfOk, OnOk};
ghost use Rattle.std.specs.List.{All};
ghost use Rattle.trac_rules.specs.Cuts.{cut_between};
ghost use Rattle.trac_rules.specs.Segmenting.{cut_out, segmented_from};
ghost use Rattle.trac_items.specs.RunGaps.{AreWithin, IsCutOut, IsOld, earlier, gapped, gaps_from};

use crate::text_lists::Texts;
use memchr::memmem::Finder;
use std::alloc::{AllocError, Allocator};
use trac_rules::item::CutGap;
use trac_rules::limit::{FORM_LIMIT, MARK_LIMIT};

/// A gap in a run of bytes.
#[derive(Clone, Copy)]
pub struct RunGap {
    /// How many bytes stand before it, after the gap before it.
    pub passed: u32,
    /// How many bytes of the run it takes: none if it was there before, else as many as it is wide.
    pub taken: u32,
    /// How many bytes wide the gap is.
    pub width: u32,
    /// Its ordinal.
    pub ordinal: u32,
}

/// The gaps that segmenting a form of this run and these gaps with these texts would make. Refused if the allocator
/// refuses memory.
pub fn cut_run<T: Texts, A: Allocator + Copy>(
    alloc: A,
    texts: &T,
    run: &[u8],
    old: Vec<RunGap, A>,
) -> Result<Vec<CutGap, A>, AllocError>
    requires count { length (T.texts texts.now) ≤ MARK_LIMIT }
    requires fits { length run.now ≤ FORM_LIMIT }
    requires within { AreWithin (length run.now) old.items }
    requires old { All IsOld old.items }
    ensures cut { IfOk result (λ gaps. gaps.items ≡ cut_between 0 (gapped run.now old.items)
        (segmented_from 1 (T.texts texts.now) (gapped run.now old.items))) }
{
    let mut gaps = old;
    let mut number = 0;
    for i in 0..texts.count() {
        number += 1;
        gaps = with_text(alloc, number, texts.get(i), run, gaps)?;
    }
    places_of(alloc, gaps.as_slice())
}

// The gaps with those of the text of this number; an empty text makes none.
fn with_text<A: Allocator + Copy>(
    alloc: A,
    number: u32,
    text: &[u8],
    run: &[u8],
    gaps: Vec<RunGap, A>,
) -> Result<Vec<RunGap, A>, AllocError>
    requires fits { length run.now ≤ FORM_LIMIT }
    requires within { AreWithin (length run.now) gaps.items }
    ensures cut { IfOk result (λ out. gapped run.now out.items ≡ cut_out number text.now (gapped run.now gaps.items)) }
    ensures old { IfOk result (λ out. earlier 0 out.items ≡ earlier 0 gaps.items) }
    ensures within { IfOk result (λ out. AreWithin (length run.now) out.items) }
{
    if text.is_empty() {
        return Ok(gaps);
    }
    let mut out = Vec::with_capacity(alloc, gaps.len())?;
    gaps_into(number, text, run, gaps.as_slice(), &mut out)?;
    Ok(out)
}

// Puts these gaps of a run into `out`, which is empty, with those that the text of this number makes between them.
fn gaps_into<A: Allocator>(
    number: u32,
    text: &[u8],
    run: &[u8],
    gaps: &[RunGap],
    out: &mut Vec<RunGap, A>,
) -> Result<(), AllocError>
    requires some { 0 < length text.now }
    requires fits { length run.now ≤ FORM_LIMIT }
    requires within { AreWithin (length run.now) gaps.now }
    requires empty { out.old.items ≡ [] }
    ensures cut { OnOk result (gapped run.now out.new.items ≡ cut_out number text.now (gapped run.now gaps.now)) }
    ensures old { OnOk result (earlier 0 out.new.items ≡ earlier 0 gaps.now) }
    ensures within { OnOk result (AreWithin (length run.now) out.new.items) }
{
    let finder = Finder::new(text);
    let mut rest = run;
    for gap in gaps {
        let (bytes, after) = rest.split_at(gap.passed as usize);
        let passed = new_gaps_into(number, text, &finder, bytes, out)?;
        let moved = RunGap {
            passed: passed as u32,
            ..*gap
        };
        out.push(moved)?;
        rest = after.split_at(gap.taken as usize).1;
    }
    new_gaps_into(number, text, &finder, rest, out)?;
    Ok(())
}

// Puts the gaps that the text of this number makes in a run at the end of `gaps`. The result says how many bytes are
// left after them.
fn new_gaps_into<A: Allocator>(
    number: u32,
    text: &[u8],
    finder: &Finder<'_>,
    run: &[u8],
    gaps: &mut Vec<RunGap, A>,
) -> Result<usize, AllocError>
    requires finds { finder.now ≡ text.now }
    requires some { 0 < length text.now }
    requires fits { length run.now ≤ FORM_LIMIT }
    ensures cut { IfOk result (λ left. IsCutOut number text.now run.now gaps.old.items gaps.new.items left) }
{
    let mut rest = run;
    'occurrences: while let Some(passed) = finder.find(rest) {
        let gap = RunGap {
            passed: passed as u32,
            taken: text.len() as u32,
            width: text.len() as u32,
            ordinal: number,
        };
        gaps.push(gap)?;
        rest = rest.split_at(passed + text.len()).1;
    }
    Ok(rest.len())
}

// The places of those of these gaps that are made, among the items that the run is with all of them.
fn places_of<A: Allocator + Copy>(alloc: A, gaps: &[RunGap]) -> Result<Vec<CutGap, A>, AllocError>
    requires { AreWithin FORM_LIMIT gaps.now }
    ensures places { IfOk result (λ places. places.items ≡ gaps_from 0 gaps.now) }
{
    let mut places = Vec::with_capacity(alloc, gaps.len())?;
    let mut place = 0;
    for gap in gaps {
        place += gap.passed as usize;
        if gap.taken != 0 {
            places.push(CutGap {
                place,
                ordinal: gap.ordinal,
            })?;
        }
        place += 1;
    }
    Ok(places)
}
