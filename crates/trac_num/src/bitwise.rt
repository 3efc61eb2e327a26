//! Octal texts bit by bit, lined up at the right. Texts hold octal digits alone, and each digit is three bits.
ghost use Rattle.std.specs.Prelude.{◌≡◌, ◌≤◌, length, IfOk};
ghost use Rattle.trac_rules.specs.Octal.{IsOctal, bits_of, complement, meet, union};

use crate::error::NumError;
use std::alloc::Allocator;

// The bitwise or of a text with one that is not longer.
fn union_of_longer<A: Allocator + Copy>(
    alloc: A,
    long: &[u8],
    short: &[u8],
) -> Result<Vec<u8, A>, NumError>
    requires octal_long { IsOctal long.now }
    requires octal_short { IsOctal short.now }
    requires longer { length short.now ≤ length long.now }
    ensures bits { IfOk result (λ v. bits_of v.items ≡ union (bits_of long.now) (bits_of short.now)) }
    ensures octal { IfOk result (λ v. IsOctal v.items) }
{
    let (left, right) = long.split_at(long.len() - short.len());
    let mut digits = Vec::with_capacity(alloc, long.len())?;
    digits.extend_from_slice(left)?;
    for (i, digit) in short.iter().enumerate() {
        digits.push(right[i] | *digit)?;
    }
    Ok(digits)
}

/// The bitwise or of two octal texts, the shorter of which gets zeros at its left.
///
/// `NumError::Memory`: memory was refused.
pub fn union<A: Allocator + Copy>(alloc: A, a: &[u8], b: &[u8]) -> Result<Vec<u8, A>, NumError>
    requires octal_a { IsOctal a.now }
    requires octal_b { IsOctal b.now }
    ensures bits { IfOk result (λ v. bits_of v.items ≡ union (bits_of a.now) (bits_of b.now)) }
    ensures octal { IfOk result (λ v. IsOctal v.items) }
{
    if a.len() < b.len() {
        return union_of_longer(alloc, b, a);
    }
    union_of_longer(alloc, a, b)
}

/// The bitwise and of two octal texts, the longer of which loses digits at its left.
///
/// `NumError::Memory`: memory was refused.
pub fn meet<A: Allocator + Copy>(alloc: A, a: &[u8], b: &[u8]) -> Result<Vec<u8, A>, NumError>
    requires octal_a { IsOctal a.now }
    requires octal_b { IsOctal b.now }
    ensures bits { IfOk result (λ v. bits_of v.items ≡ meet (bits_of a.now) (bits_of b.now)) }
    ensures octal { IfOk result (λ v. IsOctal v.items) }
{
    let common = a.len().min(b.len());
    let first = a.split_at(a.len() - common).1;
    let second = b.split_at(b.len() - common).1;
    let mut digits = Vec::with_capacity(alloc, common)?;
    for (i, digit) in first.iter().enumerate() {
        digits.push(*digit & second[i])?;
    }
    Ok(digits)
}

/// An octal text with each bit turned over.
///
/// `NumError::Memory`: memory was refused.
pub fn complement<A: Allocator + Copy>(alloc: A, a: &[u8]) -> Result<Vec<u8, A>, NumError>
    requires { IsOctal a.now }
    ensures bits { IfOk result (λ v. bits_of v.items ≡ complement (bits_of a.now)) }
    ensures octal { IfOk result (λ v. IsOctal v.items) }
{
    let mut digits = Vec::with_capacity(alloc, a.len())?;
    for digit in a {
        digits.push(*digit ^ 7)?;
    }
    Ok(digits)
}
