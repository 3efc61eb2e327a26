//! Lines that fit the screen.
ghost use Rattle.std.specs.Prelude.{◌≤◌, length};

use crate::characters::{column_start, columns_in, filling, shown_into};
use std::alloc::{AllocError, Allocator};
use trac_rules::byte::LINE_FEED;
use trac_streams::number_into;

/// How many columns a screen has.
pub const WIDTH: usize = 80;

// Of a line of two parts the first has so many columns if both are long.
const FIRST_WIDTH: usize = 56;

// What stands at the end of a line if more does not fit.
const CUT: &[u8] = b"..";

/// A part of a line.
#[derive(Clone, Copy)]
pub(crate) enum Part<'a> {
    /// Words, which are printable.
    Words(&'a [u8]),
    /// A number.
    Number(u64),
    /// A text: UTF-8 as itself, and its other bytes as `trac debug` shows them.
    Shown(&'a [u8]),
}

/// A line that is being written. What does not fit the screen is not kept, so that to show a little of a long text
/// takes the same time as to show a short one. If memory is refused for a part of it, its end says so.
#[derive(Drop)]
pub struct ScreenLine<A: Allocator + Copy> {
    bytes: Vec<u8, A>,
    // how many columns these take
    columns: usize,
    width: usize,
    // whether memory was refused for a part
    is_refused: bool,
}

impl<A: Allocator + Copy> ScreenLine<A> {
    /// An empty line. It takes no memory.
    pub fn new(alloc: A) -> Self {
        ScreenLine {
            bytes: Vec::new(alloc),
            columns: 0,
            width: WIDTH,
            is_refused: false,
        }
    }

    /// Whether what comes next would not be seen.
    pub fn is_full(&self) -> bool {
        self.columns > self.width
    }

    /// An empty line that is never cut. It takes no memory.
    pub fn uncut(alloc: A) -> Self {
        ScreenLine {
            bytes: Vec::new(alloc),
            columns: 0,
            width: usize::MAX,
            is_refused: false,
        }
    }

    /// How many columns it has so far.
    pub fn columns(&self) -> usize {
        self.columns
    }

    /// Whether so many columns more are seen.
    pub fn has_room(&self, columns: usize) -> bool {
        self.columns.saturating_add(columns) <= self.width
    }

    /// Puts words at the end, which are printable, or a text that is shown already.
    pub fn say(&mut self, words: &[u8]) {
        if !self.is_full() {
            let put = self.bytes.extend_from_slice(words);
            self.note(put);
            self.columns = self.columns.saturating_add(columns_in(words));
        }
    }

    /// Puts a number at the end.
    pub fn count(&mut self, number: u64) {
        if !self.is_full() {
            let len = self.bytes.len();
            let put = number_into(number, &mut self.bytes);
            self.note(put);
            self.add_columns(len);
        }
    }

    /// Puts these parts at the end.
    pub(crate) fn put(&mut self, parts: &[Part<'_>]) {
        for part in parts {
            match *part {
                Part::Words(words) => self.say(words),
                Part::Number(number) => self.count(number),
                Part::Shown(text) => self.show(text),
            }
        }
    }

    /// Puts at the end that so many are left out.
    pub fn say_left_out(&mut self, number: usize) {
        self.put(&[
            Part::Words(b".. "),
            Part::Number(number as u64),
            Part::Words(b" more .."),
        ]);
    }

    /// Puts a text at the end: UTF-8 as itself, and its other bytes as `trac debug` shows them.
    pub fn show(&mut self, text: &[u8]) {
        if !self.is_full() {
            let len = self.bytes.len();
            let put = shown_into(front(text, filling(self.width)), &mut self.bytes);
            self.note(put);
            self.add_columns(len);
        }
    }

    // Adds the columns of what was put after so many bytes.
    fn add_columns(&mut self, len: usize) {
        let bytes = self.bytes.as_slice();
        let put = columns_in(bytes.split_at(len.min(bytes.len())).1);
        self.columns = self.columns.saturating_add(put);
    }

    // Keeps it if memory was refused for a part.
    fn note(&mut self, put: Result<(), AllocError>) {
        self.is_refused |= put.is_err();
    }

    /// Puts an argument of a call at the end. With a comma or a parenthesis it stands in parentheses, as it would be
    /// written, so that it is not taken for several. Of a long one what can be seen decides.
    pub fn show_argument(&mut self, text: &[u8]) {
        let seen = front(text, filling(self.width));
        if !seen.iter().any(|byte| matches!(*byte, b',' | b'(' | b')')) {
            self.show(seen);
        } else {
            self.put(&[Part::Words(b"("), Part::Shown(seen), Part::Words(b")")]);
        }
    }

    /// Puts blanks at the end, two or as many as lead to this column.
    pub fn pad(&mut self, column: usize) {
        self.say(b"  ");
        for _ in self.columns..column {
            self.say(b" ");
        }
    }

    /// Cuts the line if it has more columns than these.
    pub fn cut(&mut self, columns: usize) {
        if self.columns <= columns {
            return;
        }
        // the line ends before a byte that is shown by four, and not within it
        let most = column_start(self.bytes.as_slice(), columns.saturating_sub(CUT.len()));
        let place = shown_by_four(self.bytes.as_slice(), most).unwrap_or(most);
        self.bytes.truncate(place);
        let put = self.bytes.extend_from_slice(CUT);
        self.note(put);
        self.columns = columns_in(self.bytes.as_slice());
    }

    /// Cuts the line to the screen, and puts it at the end of a text, with another line after it. If both are too long,
    /// the second has what the first leaves of the screen, or a third of it. The error is as below.
    pub fn end_before(mut self, next: Self, out: &mut Vec<u8, A>) -> Result<(), AllocError> {
        let width = self.width;
        let left = width.saturating_sub(next.columns());
        self.cut(left.max(FIRST_WIDTH.min(width)));
        let put = self.bytes.extend_from_slice(next.bytes.as_slice());
        self.note(put);
        self.columns = self.columns.saturating_add(next.columns);
        self.is_refused |= next.is_refused;
        self.end_into(out)
    }

    /// What it has so far.
    pub fn bytes(&self) -> &[u8] {
        self.bytes.as_slice()
    }

    /// Whether it has all its parts. The error is that memory was refused for one.
    pub fn check(&self) -> Result<(), AllocError> {
        if self.is_refused {
            return Err(AllocError);
        }
        Ok(())
    }

    /// Cuts the line to the screen, and puts it at the end of a text. The error is that memory was refused for a part
    /// of it, or there.
    pub fn end_into(mut self, out: &mut Vec<u8, A>) -> Result<(), AllocError> {
        let width = self.width;
        self.cut(width);
        self.check()?;
        out.extend_from_slice(self.bytes.as_slice())?;
        Ok(out.push(LINE_FEED)?)
    }
}

/// Puts a line of these parts at the end of a text.
pub(crate) fn put_line<A: Allocator + Copy>(
    alloc: A,
    parts: &[Part<'_>],
    out: &mut Vec<u8, A>,
) -> Result<(), AllocError> {
    let mut line = ScreenLine::new(alloc);
    line.put(parts);
    line.end_into(out)
}

/// The first bytes of a text, so many at most.
pub fn front(text: &[u8], most: usize) -> &[u8]
    ensures { length result.now ≤ most }
{
    text.split_at(text.len().min(most)).0
}

/// The last bytes of a text, so many at most.
pub fn tail(text: &[u8], most: usize) -> &[u8] {
    text.split_at(text.len() - text.len().min(most)).1
}

/// The end of a text of shown bytes, of so many columns at most, where no byte is cut that is shown by four.
pub fn shown_tail(shown: &[u8], most: usize) -> &[u8] {
    let columns = columns_in(shown);
    let place = column_start(shown, columns - columns.min(most));
    let from = shown_by_four(shown, place).map_or(place, |start| start.saturating_add(4));
    shown.split_at(shown.len().min(from)).1
}

// Where a byte begins that is shown by four, if a cut at this place of a text of shown bytes would go through it.
fn shown_by_four(shown: &[u8], place: usize) -> Option<usize> {
    for back in 1..4 {
        if back <= place && shown.get(place - back) == Some(&b'\\') {
            return Some(place - back);
        }
    }
    None
}
