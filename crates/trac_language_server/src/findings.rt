//! What is doubtful in a text, as the lines of `trac lint` tell it.
use crate::codes::{UNUSED, code_of};
use crate::marked::Marked;
use crate::parts::after;
use serde_json::{Value, json};
use std::alloc::{AllocError, Global};
use trac_mentions::Mentions;
use trac_rules::byte::LINE_FEED;

// The number that the protocol has for a warning.
const WARNING: u64 = 2;

// The number that the protocol has for what is not needed, which editors show in a paler colour.
const UNNECESSARY: u64 = 1;

// What the words of a note begin with.
const NOTE: &str = "note: ";

// What a line tells, of a byte of the text.
#[derive(Clone, Copy)]
struct Finding<'a> {
    offset: usize,
    words: &'a str,
}

/// Who runs programs, and says what is doubtful in them and how they name their forms.
pub trait Linter {
    /// Puts a line for each doubt of a text at the end of others: `:LINE:COLUMN: WORDS`, both counted from 1, columns
    /// by bytes. A line whose words begin with `note: ` belongs to the one before it. There are fewer lines if memory
    /// is refused.
    fn lint_into(&self, text: &[u8], lines: &mut Vec<u8>);

    /// What a run of a text tells of its forms.
    fn mentions(&self, alloc: Global, text: &[u8]) -> Mentions;

    /// Whether two texts print the same, as far as they are run.
    fn prints_alike(&self, one: &[u8], other: &[u8]) -> bool;
}

/// The doubts of a text of this name, as the editor is told of them. The error is that memory was refused, here and
/// below.
pub(crate) fn findings_of<L: Linter>(
    alloc: Global,
    linter: &L,
    uri: &str,
    marked: &Marked<'_>,
) -> Result<Value, AllocError> {
    let mut lines = Vec::new(alloc);
    linter.lint_into(marked.text, &mut lines);
    let starts = line_starts(alloc, marked.text)?;
    let mut found = Vec::new(alloc);
    let mut notes = Vec::new(alloc);
    let mut last = None;
    for line in lines.as_slice().split(|byte| *byte == LINE_FEED) {
        let Some(finding) = finding_of(starts.as_slice(), line) else {
            continue;
        };
        if let Some(words) = finding.words.strip_prefix(NOTE) {
            notes.push(note(alloc, uri, marked, finding.offset, words)?)?;
            continue;
        }
        if let Some(finding) = last {
            found.push(told(alloc, marked, finding, notes)?)?;
            notes = Vec::new(alloc);
        }
        last = Some(finding);
    }
    if let Some(finding) = last {
        found.push(told(alloc, marked, finding, notes)?)?;
    }
    Ok(Value::Array(found))
}

// Where the lines of a text begin, as the lines of `trac lint` count them: after line feeds alone.
fn line_starts(alloc: Global, text: &[u8]) -> Result<Vec<usize>, AllocError> {
    let mut starts = Vec::new(alloc);
    starts.push(0)?;
    for (place, byte) in text.iter().enumerate() {
        if *byte == LINE_FEED {
            starts.push(place.saturating_add(1))?;
        }
    }
    Ok(starts)
}

// What a line tells: `:LINE:COLUMN: WORDS`, both counted from 1, columns by bytes.
fn finding_of<'a>(starts: &[usize], line: &'a [u8]) -> Option<Finding<'a>> {
    let line = str::from_utf8(line).ok()?;
    let (number, rest) = line.strip_prefix(":")?.split_once(":")?;
    let (column, words) = rest.split_once(": ")?;
    let number = number.parse::<usize>().ok()?;
    let column = column.parse::<usize>().ok()?;
    let start = starts.get(number.checked_sub(1)?)?;
    let offset = start.saturating_add(column.checked_sub(1)?);
    Some(Finding { offset, words })
}

// A finding, as the editor is told of it.
fn told(
    alloc: Global,
    marked: &Marked<'_>,
    finding: Finding<'_>,
    notes: Vec<Value>,
) -> Result<Value, AllocError> {
    let range = word_at(alloc, marked, finding.offset)?;
    let code = code_of(finding.words);
    let mut tags = Vec::new(alloc);
    if code == UNUSED {
        tags.push(Value::from(UNNECESSARY))?;
    }
    json!(in alloc; {
        "range": range,
        "severity": WARNING,
        "code": code,
        "source": "trac",
        "message": finding.words,
        "tags": Value::Array(tags),
        "relatedInformation": Value::Array(notes)
    })
}

// A note beside a finding.
fn note(
    alloc: Global,
    uri: &str,
    marked: &Marked<'_>,
    offset: usize,
    words: &str,
) -> Result<Value, AllocError> {
    let range = word_at(alloc, marked, offset)?;
    json!(in alloc; {"location": {"uri": uri, "range": range}, "message": words})
}

// The range of the word that begins at a byte: up to what ends an argument, or a blank; at least the byte.
fn word_at(alloc: Global, marked: &Marked<'_>, offset: usize) -> Result<Value, AllocError> {
    let rest = after(marked.text, offset);
    let len = rest.iter().position(|byte| byte.is_ascii_whitespace()
        || matches!(*byte, b',' | b'(' | b')'));
    let end = offset.saturating_add(len.unwrap_or(rest.len()).max(1));
    marked.range(alloc, (offset, end))
}
