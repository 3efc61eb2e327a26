//! The command that a line says.
ghost use Rattle.std.specs.Prelude.{◌≡◌, option_copied};
ghost use Rattle.std.specs.Option.{option_map};
ghost use Rattle.trac_debug.specs.Commands.{command_of, count_of, name_of, alone, with_one, with_two};
ghost use Rattle.trac_debug.specs.Views.{command_seen};

use trac_streams::place_of;

/// What stands between two words of a line.
pub const SPACE: u8 = b' ';

/// A count has at most so many digits.
pub const DIGIT_LIMIT: usize = 9;

/// What the debugger is told to do.
#[derive(Clone, Copy)]
pub enum LineCommand<'a> {
    /// Go forward by so many steps.
    Forward(u64),
    /// Go back over so many steps.
    Back(u64),
    /// Go forward to a call of this name, by so many steps at most.
    Until(&'a [u8], u64),
    /// Go back to a call of this name.
    Return(&'a [u8]),
    /// Show the state.
    Print,
    /// Keep so many steps, show what was released.
    Commit(u64),
    /// End the session.
    Quit,
}

/// The command that a line says, without what ends it; none if it is not understood. Words are separated by exactly one
/// space. It takes no memory.
pub fn command_in(line: &[u8]) -> Option<LineCommand<'_>>
    ensures { option_map command_seen result ≡ command_of line.now }
{
    let Some(end) = place_of(SPACE, line) else {
        return command_alone(line);
    };
    let word = line.split_at(end).0;
    let rest = line.split_at(end + 1).1;
    let Some(end) = place_of(SPACE, rest) else {
        return command_with_one(word, rest);
    };
    let first = rest.split_at(end).0;
    let rest = rest.split_at(end + 1).1;
    if place_of(SPACE, rest).is_some() {
        return None;
    }
    command_with_two(word, first, rest)
}

// The command of a letter alone.
fn command_alone(word: &[u8]) -> Option<LineCommand<'static>>
    ensures { option_map command_seen result ≡ alone word.now }
{
    match word {
        b"p" => Some(LineCommand::Print),
        b"c" => Some(LineCommand::Commit(0)),
        b"q" => Some(LineCommand::Quit),
        _ => None,
    }
}

// The command of a letter and one word.
fn command_with_one<'a>(word: &[u8], first: &'a [u8]) -> Option<LineCommand<'a>>
    ensures { option_map command_seen result ≡ with_one word.now first.now }
{
    match word {
        b"s" => Some(LineCommand::Forward(count(first)?)),
        b"b" => Some(LineCommand::Back(count(first)?)),
        b"r" => Some(LineCommand::Return(name(first)?)),
        b"c" => Some(LineCommand::Commit(count(first)?)),
        _ => None,
    }
}

// The command of a letter and two words.
fn command_with_two<'a>(word: &[u8], first: &'a [u8], second: &[u8]) -> Option<LineCommand<'a>>
    ensures { option_map command_seen result ≡ with_two word.now first.now second.now }
{
    match word {
        b"u" => Some(LineCommand::Until(name(first)?, count(second)?)),
        _ => None,
    }
}

// A word as a name.
fn name(word: &[u8]) -> Option<&[u8]>
    ensures { option_copied result ≡ name_of word.now }
{
    if word.is_empty() { None } else { Some(word) }
}

// The number that a word of one to nine digits writes.
fn count(word: &[u8]) -> Option<u64>
    ensures { result ≡ count_of word.now }
{
    if word.is_empty() || word.len() > DIGIT_LIMIT {
        return None;
    }
    let mut number = 0;
    for byte in word {
        if !byte.is_ascii_digit() {
            return None;
        }
        number = 10 * number + u64::from(byte - b'0');
    }
    Some(number)
}

/// What stands between two words, a blank, and the limit on the digits of a count are those of this project's profile.
pub fn words_are_as_stated()
    ensures space { SPACE ≡ 32 }
    ensures digits { DIGIT_LIMIT ≡ 9 }
{}
