//! What a program is read from, and places in it.
ghost use Rattle.std.specs.Prelude.{◌≡◌, ◌≤◌, ◌<◌, drop, length, take};
ghost use Rattle.trac_places.specs.Spots.{IsSpot, IsSpotIn};

use trac_rules::byte::LINE_FEED;
use trac_rules::limit::TAPE_LIMIT;

/// A program, and what it reads after that.
#[derive(Clone, Copy)]
pub struct Sources<'a> {
    /// The name of the program's file.
    pub name: &'a [u8],
    /// The name of the file that is read after it.
    pub input_name: &'a [u8],
    /// The bytes of both, one after the other.
    pub tape: &'a [u8],
    /// How many of them are the program's.
    pub len: usize,
}

/// A place in a file: a line and a column, both counted from 1, the column by bytes.
#[derive(Clone, Copy)]
pub struct Spot<'a> {
    /// The file's name.
    pub name: &'a [u8],
    /// The line.
    pub line: u64,
    /// The column.
    pub column: u64,
}

impl<'a> Sources<'a> {
    /// Where the byte of this number stands, the first being number 0, or, if the files end before it, where they end.
    /// It is in the second file only if that has a byte. Bytes past 33,554,432 count for none.
    pub fn spot(&self, number: u64) -> Spot<'a>
        ensures program { length self.now.tape.now ≤ TAPE_LIMIT → number < self.now.len →
            IsSpotIn self.now.name.now (take number self.now.tape.now) result }
        ensures input { length self.now.tape.now ≤ TAPE_LIMIT → self.now.len ≤ number →
            self.now.len < length self.now.tape.now →
            IsSpotIn self.now.input_name.now (drop self.now.len (take number self.now.tape.now)) result }
        ensures end { length self.now.tape.now ≤ TAPE_LIMIT → length self.now.tape.now ≤ self.now.len →
            IsSpotIn self.now.name.now (take number self.now.tape.now) result }
    {
        let end = self.tape.len().min(TAPE_LIMIT);
        let start = end.min(self.len);
        let number = end.min(number as usize);
        let before = self.tape.split_at(number).0;
        if number < start || start == end {
            return spot_after(self.name, before);
        }
        spot_after(self.input_name, before.split_at(start).1)
    }
}

// Where the byte stands before which a file has these.
#[tactic(auto, using(crate::proofs::Passed::for_spot_after))]
fn spot_after<'a>(name: &'a [u8], before: &[u8]) -> Spot<'a>
    requires { length before.now ≤ TAPE_LIMIT }
    ensures name { result.name.now ≡ name.now }
    ensures spot { IsSpot before.now result.line result.column }
{
    let mut line = 1_u64;
    let mut column = 1_u64;
    for byte in before {
        if *byte == LINE_FEED {
            line += 1;
            column = 1;
        } else {
            column += 1;
        }
    }
    Spot { name, line, column }
}
