//! Reading a form at its pointer: what is given, and where the pointer goes. A pointer before a gap and one after it
//! are two places. Each call is measured before anything is built or moved.
ghost use Rattle.std.specs.Prelude.{◌≡◌, ◌+◌, ◌-◌, ◌^◌, ◌++◌, ◌∷◌, [], ◌≤◌, ◌<◌, length, take, drop, position};
ghost use Rattle.std.specs.Prelude.{option_map, true, vec_capacity, vec_len, IfOk, IfSome, OnOk, OnErr, IsOkUnless};
ghost use Rattle.memchr.specs.Find.{FindsNeedle};
ghost use Rattle.trac_rules.specs.Cuts.{begins_with_gap};
ghost use Rattle.trac_rules.specs.Fronts.{IsFrontOf};
ghost use Rattle.trac_rules.specs.Pieces.{at_most_all, bytes_in, char_read, count_read, is_gap, last_bytes, next_bytes};
ghost use Rattle.trac_rules.specs.Pieces.{place_before, place_after, place_of_text, segment_items, segment_read};
ghost use Rattle.trac_rules.specs.Pieces.{until_read};
ghost use Rattle.trac_rules.specs.Weights.{gap_count};
ghost use Rattle.trac_forms.specs.Taken.{IsThere, taken};

use crate::error::FormError;
use crate::form::Form;
use memchr::memmem::{Finder, find};
use std::alloc::Allocator;
use trac_gap::TwoEnds;
use trac_items::{After, PackedItem, first_run_into, last_run_len, run_len};

/// What a call reads of a form, measured: its bytes are the first `len` from the lesser of the form's and the piece's
/// pointer on, with gaps passed and not given.
#[derive(Clone, Copy, Debug, PartialEq, Eq)]
pub struct Piece {
    /// How many bytes are given.
    pub len: usize,
    /// How many items stand before the pointer afterwards.
    pub pointer: usize,
}

impl<A: Allocator + Copy> Form<A> {
    /// The bytes from the pointer up to the next gap, the pointer after that gap; without a gap all bytes, the pointer
    /// at the end. `None` if nothing stands after the pointer, no gap either. This is the rule of `cs`. It takes no
    /// memory.
    pub fn read_segment(&self) -> Option<Piece>
        ensures read { option_map (λ p. taken p self.now) result ≡ segment_read self.now }
        ensures there { IfSome result (IsThere self.now) }
    {
        let after = self.after();
        if after.is_empty() {
            return None;
        }
        let reached = segment(&after);
        Some(Piece {
            len: reached.bytes,
            pointer: self.ahead(reached.items),
        })
    }

    /// The next byte, the pointer right after it; gaps before it are passed. `None` if no byte stands after the
    /// pointer. This is the rule of `cc`. It takes no memory.
    pub fn read_char(&self) -> Option<Piece>
        ensures read { option_map (λ p. taken p self.now) result ≡ char_read self.now }
        ensures there { IfSome result (IsThere self.now) }
    {
        self.read_next(1)
    }

    /// For `n` above 0 the next `n` bytes, or as many as there are, the pointer right after the last of them. For `n`
    /// below 0 as many bytes before the pointer, in the order of the text, the pointer right before the first of them.
    /// For 0 empty, the pointer unmoved. Gaps are passed and not given. `None` if `n` is not 0 and no byte stands on
    /// that side. This is the rule of `cn`. It takes no memory.
    pub fn read_count(&self, n: i128) -> Option<Piece>
        ensures read { option_map (λ p. taken p self.now) result ≡ count_read n self.now }
        ensures there { IfSome result (IsThere self.now) }
    {
        if n == 0 {
            return Some(Piece {
                len: 0,
                pointer: self.pointer(),
            });
        }
        // The contract of `len` says that forms are short. So a count too great for a length reads all bytes.
        let _items = self.len();
        // The least number has no negative: it is as many bytes as its absolute value says.
        let count = n.unsigned_abs().min(usize::MAX as u128) as usize;
        if n < 0 {
            return self.read_last(count);
        }
        self.read_next(count)
    }

    /// The bytes before the first occurrence of `text` after the pointer, the pointer right after that occurrence. No
    /// occurrence crosses a gap; an empty text occurs at once, also at the end. `None` if it does not occur. This is
    /// the rule of `in`.
    ///
    /// Refused with `Memory` if the allocator refuses: runs of bytes between gaps are copied for the search. They are
    /// copied in growing parts, so that time and memory grow with what is passed, and not with all that is left.
    pub fn read_until(&self, text: &[u8]) -> Result<Option<Piece>, FormError>
        ensures read { IfOk result (λ r. option_map (λ p. taken p self.now) r ≡ until_read text.now self.now) }
        ensures there { IfOk result (λ r. IfSome r (IsThere self.now)) }
        ensures err { IsOkUnless result FormError.Memory }
    {
        let Some(at) = place_of(self.alloc, text, &self.after())? else {
            return Ok(None);
        };
        Ok(Some(Piece {
            len: at.bytes,
            pointer: self.ahead(at.items + text.len()),
        }))
    }

    /// Puts the bytes of a piece at the end of `out`. These are the first `piece.len` bytes from the lesser of the
    /// form's and the piece's pointer on, with gaps passed. The pointer stays. A form that has fewer gives what it has.
    ///
    /// Refused with `Memory` if the allocator refuses; then `out` still begins with what it held.
    pub fn piece_into<B: Allocator>(
        &self,
        piece: &Piece,
        out: &mut Vec<u8, B>,
    ) -> Result<(), FormError>
        ensures ok { OnOk result (out.new.items ≡ out.old.items ++ (taken piece.now self.now).value) }
        ensures left { OnErr result (IsFrontOf out.old.items out.new.items) }
        ensures err { IsOkUnless result FormError.Memory }
    {
        let before = self.before();
        let rest = before.split_at(piece.pointer.min(before.len())).1;
        let put = first_bytes_into(rest, piece.len, out)?;
        let most = piece.len - put;
        let after = self.after();
        if after.text.is_empty() {
            first_bytes_into(after.items, most, out)?;
            return Ok(());
        }
        let len = most.min(after.text.len());
        Ok(out.extend_from_slice(after.text.split_at(len).0)?)
    }

    // The place that is so many items after the pointer.
    fn ahead(&self, count: usize) -> usize
        requires { count ≤ length self.now.after }
        ensures { result ≡ length self.now.before + count }
    {
        self.items.left().len() + count
    }

    // The next `n` bytes, or as many as there are.
    #[inline(always)]
    fn read_next(&self, n: usize) -> Option<Piece>
        requires { 0 < n }
        ensures read { option_map (λ p. taken p self.now) result ≡ next_bytes n self.now }
        ensures there { IfSome result (IsThere self.now) }
    {
        let reached = reach(&self.after(), n);
        if reached.bytes == 0 {
            return None;
        }
        Some(Piece {
            len: reached.bytes,
            pointer: self.ahead(reached.items),
        })
    }

    // The last `n` bytes before the pointer, or as many as there are.
    fn read_last(&self, n: usize) -> Option<Piece>
        requires { 0 < n }
        ensures read { option_map (λ p. taken p self.now) result ≡ last_bytes n self.now }
        ensures there { IfSome result (IsThere self.now) }
    {
        let reached = reach_back(self.before(), n);
        if reached.bytes == 0 {
            return None;
        }
        Some(Piece {
            len: reached.bytes,
            pointer: reached.items,
        })
    }
}

// A place among items, and the bytes that are passed on the way to it.
#[derive(Clone, Copy)]
struct Reached {
    items: usize,
    bytes: usize,
}

// The place after so many bytes of a text.
fn after_bytes(count: usize) -> Reached
    ensures items { result.items ≡ count }
    ensures bytes { result.bytes ≡ count }
{
    Reached {
        items: count,
        bytes: count,
    }
}

// The items of the first segment: those up to the first gap and that gap, or all if there is none.
fn segment(after: &After<'_>) -> Reached
    ensures items { result.items ≡ segment_items (position is_gap after.now) after.now }
    ensures bytes { result.bytes ≡ length (bytes_in (take result.items after.now)) }
    ensures within { result.items ≤ length after.now }
{
    if !after.text.is_empty() {
        return after_bytes(after.text.len());
    }
    let bytes = run_len(after.items);
    let items = if bytes < after.items.len() {
        bytes + 1
    } else {
        bytes
    };
    Reached { items, bytes }
}

// The place right after the first `n` bytes of these items, or after all bytes if there are fewer.
fn reach(after: &After<'_>, n: usize) -> Reached
    ensures place { Some result.items ≡ place_after (at_most_all n after.now) after.now }
    ensures bytes { result.bytes ≡ at_most_all n after.now }
    ensures passed { result.bytes ≡ length (bytes_in (take result.items after.now)) }
    ensures within { result.items ≤ length after.now }
{
    if after.text.is_empty() {
        return reach_among(after.items, n);
    }
    after_bytes(n.min(after.text.len()))
}

// The same among items.
#[inline(always)]
fn reach_among(items: &[PackedItem], n: usize) -> Reached
    ensures place { Some result.items ≡ place_after (at_most_all n items.now) items.now }
    ensures bytes { result.bytes ≡ at_most_all n items.now }
    ensures passed { result.bytes ≡ length (bytes_in (take result.items items.now)) }
    ensures within { result.items ≤ length items.now }
{
    let mut reached = Reached { items: 0, bytes: 0 };
    let mut passed = 0;
    'runs: while passed < items.len() {
        if reached.bytes == n {
            return reached;
        }
        let most = (n - reached.bytes).min(items.len() - passed);
        let run = run_len(&items[passed..passed + most]);
        if run == 0 {
            passed += 1;
            continue;
        }
        passed += run;
        reached = Reached {
            items: passed,
            bytes: reached.bytes + run,
        };
    }
    reached
}

// The place right before the last `n` bytes of these items, or before all bytes if there are fewer.
fn reach_back(items: &[PackedItem], n: usize) -> Reached
    ensures place { Some result.items ≡ place_before (at_most_all n items.now) items.now }
    ensures bytes { result.bytes ≡ at_most_all n items.now }
    ensures passed { result.bytes ≡ length (bytes_in (drop result.items items.now)) }
    ensures within { result.items ≤ length items.now }
{
    let mut reached = Reached {
        items: items.len(),
        bytes: 0,
    };
    let mut place = items.len();
    'runs: while 0 < place {
        if reached.bytes == n {
            return reached;
        }
        let most = (n - reached.bytes).min(place);
        let run = last_run_len(&items[place - most..place]);
        if run == 0 {
            place -= 1;
            continue;
        }
        place -= run;
        reached = Reached {
            items: place,
            bytes: reached.bytes + run,
        };
    }
    reached
}

// The first place of a text among these items, if it occurs.
fn place_of<A: Allocator>(
    alloc: A,
    text: &[u8],
    after: &After<'_>,
) -> Result<Option<Reached>, FormError>
    ensures place { IfOk result (λ r. option_map (λ at. at.items) r ≡ place_of_text text.now after.now) }
    ensures bytes { IfOk result (λ r. IfSome r (λ at. at.bytes ≡ length (bytes_in (take at.items after.now)))) }
    ensures within { IfOk result (λ r. IfSome r (λ at. at.items + length text.now ≤ length after.now)) }
    ensures err { IsOkUnless result FormError.Memory }
{
    if text.is_empty() {
        return Ok(Some(after_bytes(0)));
    }
    if after.text.is_empty() {
        let mut run = Vec::new(alloc);
        return search(&Finder::new(text), after.items, &mut run);
    }
    let Some(place) = find(after.text, text) else {
        return Ok(None);
    };
    Ok(Some(after_bytes(place)))
}

// How many bytes are read at least before they are searched for the first time.
const FIRST_ROOM: usize = 16;

// The first place of the finder's text, which is not empty, among these items, if it occurs. `run` is an empty text,
// for the run of bytes that is read; it is lent, so that no end of the search has to drop it.
fn search<A: Allocator>(
    finder: &Finder<'_>,
    items: &[PackedItem],
    run: &mut Vec<u8, A>,
) -> Result<Option<Reached>, FormError>
    requires some { 0 < length finder.now }
    requires empty { run.old.items ≡ [] }
    ensures place { IfOk result (λ r. option_map (λ at. at.items) r ≡ place_of_text finder.now items.now) }
    ensures bytes { IfOk result (λ r. IfSome r (λ at. at.bytes ≡ length (bytes_in (take at.items items.now)))) }
    ensures within { IfOk result (λ r. IfSome r (λ at. at.items + length finder.now ≤ length items.now)) }
    ensures err { IsOkUnless result FormError.Memory }
{
    // where the run begins, and how many bytes stand before it
    let mut start = Reached { items: 0, bytes: 0 };
    let mut passed = 0;
    'runs: while passed < items.len() {
        // Searched each time before its room doubles: so it is read at most about twice as far as the text stands, and
        // searched about twice in all, however much is left of it.
        if run.len() == run.capacity() {
            if let Some(at) = place_in_run(finder, run.as_slice(), start) {
                return Ok(Some(at));
            }
        }
        let read = read_run(&items[passed..], run)?;
        if read > 0 {
            passed += read;
            continue;
        }
        if let Some(at) = place_in_run(finder, run.as_slice(), start) {
            return Ok(Some(at));
        }
        // No occurrence crosses a gap: what comes after this one is searched by itself.
        start = Reached {
            items: start.items + run.len() + 1,
            bytes: start.bytes + run.len(),
        };
        run.clear();
        passed += 1;
    }
    Ok(place_in_run(finder, run.as_slice(), start))
}

// Puts the bytes with which these items begin at the end of a run, as many as it has room for, and returns how many. If
// it has none, it gets room for as many again. None are put only if there are none.
fn read_run<A: Allocator>(items: &[PackedItem], run: &mut Vec<u8, A>) -> Result<usize, FormError>
    ensures within { IfOk result (λ read. read ≤ length items.now) }
    ensures bytes { IfOk result (λ read. gap_count (take read items.now) ≡ 0) }
    ensures gap { IfOk result (λ read. read ≡ 0 → 0 < length items.now → begins_with_gap items.now ≡ true) }
    ensures put { IfOk result (λ read. run.new.items ≡ run.old.items ++ bytes_in (take read items.now)) }
    ensures err { IsOkUnless result FormError.Memory }
{
    make_room(run)?;
    let room = run.capacity() - run.len();
    Ok(first_run_into(&items[..room.min(items.len())], run))
}

// Makes room for as many more bytes of a run as it has, if it has room for none.
fn make_room<A: Allocator>(run: &mut Vec<u8, A>) -> Result<(), FormError>
    ensures room { OnOk result (vec_len run.new < vec_capacity run.new) }
    ensures items { OnOk result (run.new.items ≡ run.old.items) }
    ensures err { IsOkUnless result FormError.Memory }
{
    if run.len() < run.capacity() {
        return Ok(());
    }
    Ok(run.reserve(run.len().max(FIRST_ROOM))?)
}

// The first place of a text in a run of bytes that begins at `start`, if it occurs there.
fn place_in_run(finder: &Finder<'_>, run: &[u8], start: Reached) -> Option<Reached>
    requires items { start.items + length run.now < 2 ^ 64 }
    requires bytes { start.bytes ≤ start.items }
    ensures place { FindsNeedle run.now finder.now 0 (option_map (λ at. at.items - start.items) result) }
    ensures after { IfSome result (λ at. start.items ≤ at.items) }
    ensures bytes { IfSome result (λ at. at.bytes + start.items ≡ start.bytes + at.items) }
{
    let place = finder.find(run)?;
    Some(Reached {
        items: start.items + place,
        bytes: start.bytes + place,
    })
}

// Puts the first `most` bytes of these items, or as many as there are, at the end of `out`, and returns how many.
#[inline(always)]
fn first_bytes_into<B: Allocator>(
    items: &[PackedItem],
    most: usize,
    out: &mut Vec<u8, B>,
) -> Result<usize, FormError>
    ensures count { IfOk result (λ put. put ≡ at_most_all most items.now) }
    ensures ok { OnOk result (out.new.items ≡ out.old.items ++ take most (bytes_in items.now)) }
    ensures left { OnErr result (IsFrontOf out.old.items out.new.items) }
    ensures err { IsOkUnless result FormError.Memory }
{
    let mut put = 0;
    let mut passed = 0;
    'runs: while passed < items.len() {
        if put == most {
            return Ok(put);
        }
        let more = (most - put).min(items.len() - passed);
        let part = &items[passed..passed + more];
        out.reserve(part.len())?;
        let run = first_run_into(part, out);
        if run == 0 {
            passed += 1;
            continue;
        }
        passed += run;
        put += run;
    }
    Ok(put)
}
