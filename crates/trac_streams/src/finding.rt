//! Where a byte stands first.
ghost use Rattle.trac_streams.specs.Reading.{IsPlace};

use memchr::memchr;

/// The place of the first byte of this value; none if there is none.
pub fn place_of(wanted: u8, bytes: &[u8]) -> Option<usize>
    ensures { IsPlace wanted bytes.now result }
{
    memchr(wanted, bytes)
}
