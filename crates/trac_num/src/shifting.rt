//! Octal texts moved and rotated by places of a bit. Texts hold octal digits alone, and each digit is three bits.
ghost use Rattle.std.specs.Prelude.{◌≡◌, ◌<◌, ◌≤◌, ◌+◌, ◌-◌, ◌*◌, ◌/◌, ◌%◌, ◌++◌, length, take, drop, IfOk, IsTrue};
ghost use Rattle.trac_rules.specs.Octal.{IsOctal, bits_of, digit_bits, is_octal_digit, rotate, shift, shifted_left};
ghost use Rattle.trac_rules.specs.Octal.{shifted_right};

use crate::error::NumError;
use std::alloc::Allocator;
use trac_rules::octals::ZERO;

// The digit of three of the six bits of two neighbours, after so many skipped bits.
fn across(first: u8, second: u8, skipped: u8) -> u8
    requires octal_first { IsTrue (is_octal_digit first) }
    requires octal_second { IsTrue (is_octal_digit second) }
    requires within { skipped ≤ 3 }
    ensures bits { digit_bits result ≡ take 3 (drop skipped (digit_bits first ++ digit_bits second)) }
    ensures octal { IsTrue (is_octal_digit result) }
{
    let pair = (first - ZERO) * 8 + (second - ZERO);
    ZERO + (pair >> (3 - skipped)) % 8
}

// Moves the bits by at most three places to the left, and drops the last digit, of which the others have taken bits.
fn slide<A: Allocator>(digits: &mut Vec<u8, A>, skipped: u8)
    requires octal { IsOctal digits.old.items }
    requires some { 0 < length digits.old.items }
    requires within { skipped ≤ 3 }
    ensures bits { bits_of digits.new.items
        ≡ take (3 * (length digits.old.items - 1)) (drop skipped (bits_of digits.old.items)) }
    ensures still_octal { IsOctal digits.new.items }
{
    let last = digits.len() - 1;
    for k in 0..last {
        digits[k] = across(digits[k], digits[k + 1], skipped);
    }
    digits.truncate(last);
}

// How many whole digits so many places are, and how many bits more. What fits 64 bits is divided in 64 bits, since a
// division of 128 bits takes much longer.
fn digits_and_bits(places: u128) -> (u128, u8)
    ensures digits { result.0 ≡ places / 3 }
    ensures bits { result.1 ≡ places % 3 }
{
    if let Ok(narrow) = u64::try_from(places) {
        return ((narrow / 3) as u128, (narrow % 3) as u8);
    }
    (places / 3, (places % 3) as u8)
}

// What is left of so many digits when a length is taken off as often as it can be; in 64 bits, if they fit.
fn left_of(digits: u128, len: usize) -> usize
    requires { 0 < len }
    ensures { result ≡ digits % len }
{
    if let Ok(narrow) = usize::try_from(digits) {
        return narrow % len;
    }
    (digits % len as u128) as usize
}

// Moved to the left, zeros coming in at the right.
fn shifted_left<A: Allocator + Copy>(alloc: A, by: u128, a: &[u8]) -> Result<Vec<u8, A>, NumError>
    requires { IsOctal a.now }
    ensures bits { IfOk result (λ v. bits_of v.items ≡ shifted_left by (bits_of a.now)) }
    ensures octal { IfOk result (λ v. IsOctal v.items) }
{
    let (whole, part) = digits_and_bits(by);
    let lost = (a.len() as u128).min(whole) as usize;
    let mut digits = Vec::with_capacity(alloc, a.len() + 1)?;
    digits.extend_from_slice(a.split_at(lost).1)?;
    digits.resize(a.len() + 1, ZERO)?;
    slide(&mut digits, part);
    Ok(digits)
}

// Moved to the right, zeros coming in at the left.
fn shifted_right<A: Allocator + Copy>(alloc: A, by: u128, a: &[u8]) -> Result<Vec<u8, A>, NumError>
    requires { IsOctal a.now }
    ensures bits { IfOk result (λ v. bits_of v.items ≡ shifted_right by (bits_of a.now)) }
    ensures octal { IfOk result (λ v. IsOctal v.items) }
{
    let (whole, part) = digits_and_bits(by);
    let lost = (a.len() as u128).min(whole) as usize;
    let mut digits = Vec::with_capacity(alloc, a.len() + 1)?;
    digits.resize(lost + 1, ZERO)?;
    digits.extend_from_slice(a.split_at(a.len() - lost).0)?;
    slide(&mut digits, 3 - part);
    Ok(digits)
}

// The bits from so many digits and bits on, and then those before them.
fn turned<A: Allocator + Copy>(
    alloc: A,
    start: usize,
    skipped: u8,
    a: &[u8],
) -> Result<Vec<u8, A>, NumError>
    requires octal { IsOctal a.now }
    requires inside { start < length a.now }
    requires within { skipped ≤ 3 }
    ensures bits { IfOk result
        (λ v. let k = 3 * start + skipped in bits_of v.items ≡ drop k (bits_of a.now) ++ take k (bits_of a.now)) }
    ensures still_octal { IfOk result (λ v. IsOctal v.items) }
{
    let mut digits = Vec::with_capacity(alloc, a.len() + 1)?;
    digits.extend_from_slice(a.split_at(start).1)?;
    digits.extend_from_slice(a.split_at(start + 1).0)?;
    slide(&mut digits, skipped);
    Ok(digits)
}

/// An octal text whose bits are moved by so many places, to the left if positive. The length stays, and zeros come in.
///
/// `NumError::Memory`: memory was refused.
pub fn shift<A: Allocator + Copy>(alloc: A, by: i128, a: &[u8]) -> Result<Vec<u8, A>, NumError>
    requires { IsOctal a.now }
    ensures bits { IfOk result (λ v. bits_of v.items ≡ shift by (bits_of a.now)) }
    ensures octal { IfOk result (λ v. IsOctal v.items) }
{
    if by < 0 {
        return shifted_right(alloc, by.unsigned_abs(), a);
    }
    shifted_left(alloc, by.unsigned_abs(), a)
}

/// An octal text whose bits are rotated by so many places, to the left if positive. An empty text stays empty.
///
/// `NumError::Memory`: memory was refused.
pub fn rotate<A: Allocator + Copy>(alloc: A, by: i128, a: &[u8]) -> Result<Vec<u8, A>, NumError>
    requires { IsOctal a.now }
    ensures bits { IfOk result (λ v. bits_of v.items ≡ rotate by (bits_of a.now)) }
    ensures octal { IfOk result (λ v. IsOctal v.items) }
{
    if a.is_empty() {
        return Ok(Vec::new(alloc));
    }
    let (digits, part) = digits_and_bits(by.unsigned_abs());
    let whole = left_of(digits, a.len());
    if by < 0 {
        return turned(alloc, a.len() - 1 - whole, 3 - part, a);
    }
    turned(alloc, whole, part, a)
}
