//! The arguments of begun functions, kept apart from the neutral text.
ghost use Rattle.std.specs.Prelude.{◌≡◌, ◌+◌, ◌≤◌, ◌<◌, ◌^◌, length, map, IfOk, IsOkUnless};
ghost use Rattle.std.specs.List.{concat, sum};
ghost use Rattle.trac_text.specs.Pieces.{Arguments, all_texts, arguments_code, cut_at};

use crate::args::Args;
use std::alloc::{Allocator, Global};
use std::marker::Model;
use trac_rules::kind::Kind;
use trac_rules::refusal::Refusal;

/// All arguments of a begun function, of which the last is being gathered: seen as these texts.
/// They stand one after another in one block of memory, and the lengths of all but the last in another.
#[derive(Drop)]
pub struct Pieces<A: Allocator + Copy = Global> {
    text: Vec<u8, A>,
    // how many bytes the argument has that each `,` ended
    commas: Vec<u32, A>,
}

impl<A: Allocator + Copy> Model for Pieces<A> {
    ghost Value = { Arguments };

    ghost coded = { arguments_code };

    ghost view = { λ p. cut_at p.commas.items p.text.items };

    ghost invariant = { λ p. sum p.commas.items ≤ length p.text.items };
}

/// The same, borrowed from where they are kept.
#[derive(Drop)]
pub struct PiecesRef<'a> {
    text: &'a [u8],
    commas: &'a [u32],
}

impl<'a> Model for PiecesRef<'a> {
    ghost Value = { Arguments };

    ghost coded = { arguments_code };

    ghost view = { λ p. cut_at p.commas.now p.text.now };

    ghost invariant = { λ p. sum p.commas.now ≤ length p.text.now };
}

/// Begun functions, the innermost first: the kind of each, and all its arguments, of which the last was being gathered.
pub type Functions<A = Global> = Vec<(Kind, Pieces<A>), A>;

impl<A: Allocator + Copy> Pieces<A> {
    /// A copy of these arguments, which have fewer than 2^32 bytes together. It is made in memory for exactly their
    /// bytes and a length for each but the last. If there are no bytes, or no further argument, no block is taken. It
    /// takes time for the bytes and the arguments. Refused with `Memory` if the allocator refuses.
    pub fn of(alloc: A, arguments: &Args<'_>) -> Result<Self, Refusal>
        requires short { length (concat arguments.now) < 2 ^ 32 }
        ensures same { IfOk result (λ p. all_texts p ≡ arguments.now) }
        ensures err { IsOkUnless result Refusal.Memory }
    {
        let joined = arguments.joined();
        let mut text = Vec::with_capacity(alloc, joined.len())?;
        text.extend_from_slice(joined)?;
        let count = arguments.comma_count();
        let mut commas = Vec::with_capacity(alloc, count)?;
        for i in 0..count {
            commas.push_reserved(arguments.get(i).len() as u32);
        }
        Ok(Pieces { text, commas })
    }

    /// The same arguments, lent.
    pub fn lend(&self) -> PiecesRef<'_>
        ensures { result ≡ self.now }
    {
        PiecesRef {
            text: self.text.as_slice(),
            commas: self.commas.as_slice(),
        }
    }
}

impl<'a> PiecesRef<'a> {
    /// Arguments of these bytes, one after another, of which all but the last have these lengths, together no more than
    /// there are bytes. Nothing is copied.
    pub fn new(text: &'a [u8], commas: &'a [u32]) -> PiecesRef<'a>
        requires { sum commas.now ≤ length text.now }
        ensures { result ≡ cut_at commas.now text.now }
    {
        PiecesRef { text, commas }
    }

    /// The bytes of all arguments, one after another.
    pub fn text(&self) -> &'a [u8]
        ensures { result.now ≡ concat (all_texts self.now) }
    {
        self.text
    }

    /// How many bytes each argument has, but for the last one: a length for each `,` that ended
    /// one, by T-64's rules of scanning.
    pub fn commas(&self) -> &'a [u32]
        ensures { result.now ≡ map length self.now.finished }
    {
        self.commas
    }
}
