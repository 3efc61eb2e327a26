//! The option that says how much memory a program may take.
ghost use Rattle.std.specs.Prelude.{◌≤◌, IfOk, IfSome};
ghost use Rattle.trac_words.specs.Words.{IsMemory};

use crate::names::shown;
use clap::{Arg, ArgMatches};
use std::alloc::{AllocError, Global};

const KIB: u64 = 1 << 10;

const MIB: u64 = 1 << 20;

const GIB: u64 = 1 << 30;

/// The least memory that a program may be allowed: one MiB.
pub const LEAST_MEMORY: u64 = MIB;

/// The most: one TiB.
pub const MOST_MEMORY: u64 = 1 << 40;

// What may stand after a number, and how many bytes it counts then.
const UNITS: [(char, u64); 6] = [
    ('K', KIB),
    ('k', KIB),
    ('M', MIB),
    ('m', MIB),
    ('G', GIB),
    ('g', GIB),
];

/// How much memory a command line allows, in bytes, if it says so; or why what it says is not understood. The error is
/// that memory was refused.
pub(crate) fn memory_in(
    alloc: Global,
    found: &ArgMatches<'_>,
) -> Result<Result<Option<u64>, String>, AllocError>
    ensures { IfOk result (λ asked. IfOk asked IsMemory) }
{
    let Some(word) = found.get_str("memory") else {
        return Ok(Ok(None));
    };
    match size_in(word) {
        Some(size) => Ok(Ok(Some(size))),
        None => Ok(Err(no_size(alloc, word)?)),
    }
}

// How many bytes a word says: a number, or one with a letter for its unit. None if it is no such word, or if it says
// less than may be allowed, or more.
fn size_in(word: &str) -> Option<u64>
    ensures { IfSome result (λ size. (LEAST_MEMORY ≤ size) × (size ≤ MOST_MEMORY)) }
{
    let (number, unit) = parts_of(word);
    let size = number.parse::<u64>().ok()?.checked_mul(unit)?;
    (LEAST_MEMORY <= size && size <= MOST_MEMORY).then_some(size)
}

// The number of a size, and how many bytes it counts.
fn parts_of(word: &str) -> (&str, u64) {
    for (letter, unit) in UNITS {
        if let Some(number) = word.strip_suffix(letter) {
            return (number, unit);
        }
    }
    (word, 1)
}

// What is said of a word that is no size, in clap's form.
fn no_size(alloc: Global, word: &str) -> Result<String, AllocError> {
    let word = shown(alloc, word)?;
    format!(in alloc;
        "error: invalid value '{word}' for '--memory <SIZE>': it is not in 1M..=1024G\n\n\
         For more information, try '--help'.\n"
    )
}

/// The option.
pub(crate) fn memory<'a>(alloc: Global) -> Arg<'a> {
    Arg::new(alloc, "memory")
        .long("memory")
        .value_name("SIZE")
        .help(
            "Most memory, in bytes or with K, M or G: 1M to 1024G [default: 2G, or half the machine's if less]",
        )
}
