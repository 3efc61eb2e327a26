//! What a text begins with.
ghost use Rattle.std.specs.Prelude.{◌≡◌, ◌+◌, ◌<◌, ◌≤◌, false, get_or, length, true, ℕ};
ghost use Rattle.trac_rules.specs.PlainRuns.{is_plain as is_plain_byte};
ghost use Rattle.trac_rules.specs.Performing.{beginning_of};
ghost use Rattle.trac_rules.specs.Scanning.{front_of};

use trac_rules::byte;
use trac_rules::kind::Kind;
use trac_rules::scan::Front;

/// What the active text begins with, which decides the rule of scanning, as T-64 has it.
pub fn front_at(active: &[u8]) -> Front
    ensures { result ≡ front_of active.now }
{
    let Some((&first, rest)) = active.split_first() else {
        return Front::Nothing;
    };
    match first {
        byte::OPENING => Front::Opening,
        byte::CLOSING => Front::Closing,
        byte::COMMA => Front::Comma,
        byte::SHARP if rest.starts_with(b"(") => Front::ActiveCall,
        byte::SHARP if rest.starts_with(b"#(") => Front::NeutralCall,
        byte::SHARP => Front::Sharp,
        byte::CARRIAGE_RETURN | byte::LINE_FEED | byte::TAB => Front::Layout,
        _ => Front::Plain,
    }
}

// Whether a byte goes to the current text, whatever stands after it.
fn is_plain(b: u8) -> bool
    ensures { result ≡ is_plain_byte b }
{
    b != byte::OPENING
        && b != byte::CLOSING
        && b != byte::COMMA
        && b != byte::SHARP
        && b != byte::CARRIAGE_RETURN
        && b != byte::LINE_FEED
        && b != byte::TAB
}

// How many bytes are looked at one by one before more are looked at together: most runs are short.
const NEAR: usize = 8;

// How many bytes are looked at together, so that there is no jump for each.
const GROUP: usize = 16;

/// With how many plain bytes a text begins, counted up to `most`: bytes that go to the current text
/// whatever stands after them.
#[inline(always)]
pub fn plain_front(text: &[u8], most: usize) -> usize
    ensures most { result ≤ most }
    ensures within { result ≤ length text.now }
    ensures plain { (k : ℕ) → k < result → is_plain_byte (get_or text.now k 0) ≡ true }
    ensures end { result < most → result < length text.now → is_plain_byte (get_or text.now result 0) ≡ false }
{
    let mut n = 0;
    while n < most && n < text.len() && is_plain(text[n]) {
        n += 1;
        if n == NEAR {
            return far_plain_end(text, n, most.min(text.len()));
        }
    }
    n
}

// Where the plain bytes end that go on from one place, up to another. Many are looked at together. If one of them is
// low, or fewer are left, they are looked at one by one. It is called once for a long run, and kept out of the way of
// the short ones.
#[inline(never)]
fn far_plain_end(text: &[u8], from: usize, end: usize) -> usize
    requires from { from ≤ end }
    requires within { end ≤ length text.now }
    requires plain { (k : ℕ) → k < from → is_plain_byte (get_or text.now k 0) ≡ true }
    ensures within { result ≤ end }
    ensures plain { (k : ℕ) → k < result → is_plain_byte (get_or text.now k 0) ≡ true }
    ensures end { result < end → is_plain_byte (get_or text.now result 0) ≡ false }
{
    let mut place = from;
    while place < end {
        if GROUP <= end - place && !group_has_low(text, place) {
            place += GROUP;
            continue;
        }
        let stop = end.min(place + GROUP);
        while place < stop && is_plain(text[place]) {
            place += 1;
        }
        if place < stop {
            return place;
        }
    }
    place
}

// Whether one of the group of bytes that begins at this place is low: below `-`, and no space. All bytes that are not
// plain are low, and few others in most texts.
fn group_has_low(text: &[u8], at: usize) -> bool
    requires { at + GROUP ≤ length text.now }
    ensures { result ≡ false → ((k : ℕ) → k < at → is_plain_byte (get_or text.now k 0) ≡ true)
        → (k : ℕ) → k < at + GROUP → is_plain_byte (get_or text.now k 0) ≡ true }
{
    let mut low = false;
    for i in 0..GROUP {
        let b = text[at + i];
        low |= (b < b'-') & (b != b' ');
    }
    low
}

/// How a function of this kind begins, by T-64's rules of scanning.
pub fn beginning_of(kind: Kind) -> &'static [u8]
    ensures { result.now ≡ beginning_of kind }
{
    match kind {
        Kind::Active => b"#(",
        Kind::Neutral => b"##(",
    }
}
