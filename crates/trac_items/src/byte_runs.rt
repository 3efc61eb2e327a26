//! Runs of bytes among items, many at a time.
ghost use Rattle.std.specs.Prelude.{◌≡◌, ◌+◌, ◌-◌, ◌++◌, ◌<◌, ◌≤◌, false, true, drop, length, take};
ghost use Rattle.std.specs.Prelude.{vec_capacity, vec_len};
ghost use Rattle.trac_rules.specs.Cuts.{begins_with_gap};
ghost use Rattle.trac_rules.specs.Pieces.{bytes_in};
ghost use Rattle.trac_rules.specs.Weights.{gap_count};

use crate::packed::PackedItem;
use std::alloc::Allocator;

// How many items are looked at together, so that there is no jump for each, or unpacked together at the end of a run.
const GROUP: usize = 8;

// How many are looked at or unpacked together if there are so many, so that there is neither a jump nor a call for
// each.
const CHUNK: usize = 32;

/// How many items there are up to the first gap, or all if there is none.
#[inline(always)]
pub fn run_len(items: &[PackedItem]) -> usize
    ensures within { result ≤ length items.now }
    ensures bytes { gap_count (take result items.now) ≡ 0 }
    ensures gap { result < length items.now → begins_with_gap (drop result items.now) ≡ true }
{
    let mut run = 0;
    'groups: while GROUP <= items.len() - run {
        if has_gap::<GROUP>(items, run) {
            break;
        }
        run += GROUP;
        if run == CHUNK {
            run = far_run_len(items, run);
        }
    }
    'items: while run < items.len() {
        if items[run].is_gap() {
            return run;
        }
        run += 1;
    }
    run
}

// The same from a place on before which there is no gap, as far as there is none in a whole chunk. It is called once
// for a long run, and kept out of the way of the short ones.
#[inline(never)]
fn far_run_len(items: &[PackedItem], from: usize) -> usize
    requires within { from ≤ length items.now }
    requires bytes { gap_count (take from items.now) ≡ 0 }
    ensures from { from ≤ result }
    ensures within { result ≤ length items.now }
    ensures bytes { gap_count (take result items.now) ≡ 0 }
    ensures far { result + CHUNK ≤ length items.now → 0 < gap_count (take (result + CHUNK) items.now) }
{
    let mut run = from;
    'chunks: while CHUNK <= items.len() - run {
        if has_gap::<CHUNK>(items, run) {
            break;
        }
        run += CHUNK;
    }
    run
}

/// How many items there are after the last gap, or all if there is none.
pub fn last_run_len(items: &[PackedItem]) -> usize
    ensures within { result ≤ length items.now }
    ensures bytes { gap_count (drop (length items.now - result) items.now) ≡ 0 }
    ensures gap { result < length items.now → 0 < gap_count (drop (length items.now - result - 1) items.now) }
{
    let mut start = items.len();
    'groups: while GROUP <= start {
        if has_gap::<GROUP>(items, start - GROUP) {
            break;
        }
        start -= GROUP;
    }
    'items: while 0 < start {
        if items[start - 1].is_gap() {
            return items.len() - start;
        }
        start -= 1;
    }
    items.len()
}

// Whether there is a gap among so many items from this place on.
fn has_gap<const N: usize>(items: &[PackedItem], at: usize) -> bool
    requires { at + N ≤ length items.now }
    ensures none { result ≡ false → gap_count (take at items.now) ≡ 0 → gap_count (take (at + N) items.now) ≡ 0 }
    ensures none_behind { result ≡ false → gap_count (drop (at + N) items.now) ≡ 0 → gap_count (drop at items.now) ≡ 0 }
    ensures some { result ≡ true → 0 < gap_count (take (at + N) items.now) }
{
    let mut gap = false;
    for i in 0..N {
        gap |= items[at + i].is_gap();
    }
    gap
}

/// Puts the bytes with which these items begin, up to the first gap, at the end of `out`, which has room for as many as
/// there are items. Returns how many these are.
#[inline(always)]
pub fn first_run_into<B: Allocator>(items: &[PackedItem], out: &mut Vec<u8, B>) -> usize
    requires room { vec_len out.old + length items.now ≤ vec_capacity out.old }
    ensures within { result ≤ length items.now }
    ensures bytes { gap_count (take result items.now) ≡ 0 }
    ensures gap { result < length items.now → begins_with_gap (drop result items.now) ≡ true }
    ensures put { out.new.items ≡ out.old.items ++ bytes_in (take result items.now) }
{
    let mut run = 0;
    'groups: while GROUP <= items.len() - run {
        if has_gap::<GROUP>(items, run) {
            break;
        }
        chunk_into::<GROUP, B>(&items[run..run + GROUP], out);
        run += GROUP;
        if run == CHUNK {
            run += far_run_into(&items[run..], out);
        }
    }
    'items: while run < items.len() {
        let item = items[run];
        if item.is_gap() {
            return run;
        }
        out.push_reserved(item.byte());
        run += 1;
    }
    run
}

// The same as far as there is no gap in a whole chunk. It is called once for a long run, and kept out of the way of the
// short ones.
#[inline(never)]
fn far_run_into<B: Allocator>(items: &[PackedItem], out: &mut Vec<u8, B>) -> usize
    requires room { vec_len out.old + length items.now ≤ vec_capacity out.old }
    ensures within { result ≤ length items.now }
    ensures bytes { gap_count (take result items.now) ≡ 0 }
    ensures far { result + CHUNK ≤ length items.now → 0 < gap_count (take (result + CHUNK) items.now) }
    ensures put { out.new.items ≡ out.old.items ++ bytes_in (take result items.now) }
    ensures room { vec_len out.new + (length items.now - result) ≤ vec_capacity out.new }
{
    let mut run = 0;
    'chunks: while CHUNK <= items.len() - run {
        if has_gap::<CHUNK>(items, run) {
            break;
        }
        chunk_into::<CHUNK, B>(&items[run..run + CHUNK], out);
        run += CHUNK;
    }
    run
}

// Puts so many items, which are all bytes, at the end of `out`, which has room for them.
fn chunk_into<const N: usize, B: Allocator>(chunk: &[PackedItem], out: &mut Vec<u8, B>)
    requires len { length chunk.now ≡ N }
    requires bytes { gap_count chunk.now ≡ 0 }
    requires room { vec_len out.old + length chunk.now ≤ vec_capacity out.old }
    ensures items { out.new.items ≡ out.old.items ++ bytes_in chunk.now }
    ensures len { vec_len out.new ≡ vec_len out.old + length chunk.now }
    ensures capacity { vec_capacity out.old ≤ vec_capacity out.new }
{
    let mut bytes = [0; N];
    for i in 0..N {
        bytes[i] = chunk[i].byte();
    }
    let Ok(()) = out.extend_from_slice(&bytes) else {
        unreachable!()
    };
}
