//! How much memory a program may take.
ghost use Rattle.std.specs.Prelude.{◌≡◌, ◌/◌, MatchOption, min};

use std::fs::File;
use std::io::Read;
use std::str;

/// The most that a program may take if nothing else is asked for: 2 GiB.
pub const MOST_BY_DEFAULT: u64 = 1 << 31;

// Where Linux says what memory the machine has, and how the first line there begins.
const MEMINFO: &str = "/proc/meminfo";

const TOTAL: &str = "MemTotal:";

// The unit of its numbers, in bytes.
const KIB: u64 = 1 << 10;

/// How many bytes a program may take: as many as are asked for; else 2 GiB, or half of the machine's memory if that is
/// less.
pub fn limit_in(rt: &HostRuntime, asked: Option<u64>) -> usize {
    let limit = match asked {
        Some(limit) => limit,
        None => limit_by(memory_of(rt)),
    };
    limit as usize
}

// How many bytes a program may take on a machine that has so many, or nobody knows how many.
fn limit_by(memory: Option<u64>) -> u64
    ensures { MatchOption memory (result ≡ MOST_BY_DEFAULT) (λ bytes. result ≡ min (bytes / 2) MOST_BY_DEFAULT) }
{
    match memory {
        Some(bytes) => (bytes / 2).min(MOST_BY_DEFAULT),
        None => MOST_BY_DEFAULT,
    }
}

// How many bytes of memory the machine has; none if that cannot be read.
fn memory_of(rt: &HostRuntime) -> Option<u64> {
    let mut bytes = [0; 128];
    let mut file = File::open(rt, MEMINFO).ok()?;
    let count = file.read(&mut bytes).ok()?;
    total_in(str::from_utf8(&bytes[..count]).ok()?)
}

// How many bytes the first line says; none if it says nothing of the kind.
fn total_in(text: &str) -> Option<u64> {
    let number = text.strip_prefix(TOTAL)?.split_ascii_whitespace().next()?;
    number.parse::<u64>().ok()?.checked_mul(KIB)
}
