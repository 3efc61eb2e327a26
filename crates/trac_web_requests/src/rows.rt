//! The way of a byte as rows.
ghost use Rattle.std.specs.Prelude.{◌≡◌, ◌++◌, [], codes, OnOk};
ghost use Rattle.trac_follow_step.specs.Places.{place_of};
ghost use Rattle.trac_web_requests.specs.Rows.{AddsRow, HasRows, deed_field, name_field, place_field, word_field};

use std::alloc::{AllocError, Allocator};
use trac_follow::{Place, Witness};
use trac_rules::byte::LINE_FEED;
use trac_session::Machine;
use trac_streams::number_into;

/// The rows of a way so far, one for each call that passed the byte on, the latest first.
#[derive(Drop)]
pub struct Rows<A: Allocator + Copy> {
    // the step at which it begins
    step: u64,
    // how many bytes of the output are released
    released: u64,
    text: Vec<u8, A>,
}

impl<A: Allocator + Copy> Rows<A> {
    /// None so far, of a way that begins at this step, when so many bytes of the output are released.
    pub fn new(alloc: A, step: u64, released: u64) -> Self
        ensures { HasRows step released [] result }
    {
        Rows {
            step,
            released,
            text: Vec::new(alloc),
        }
    }

    /// The rows as a text.
    pub fn into_text(self) -> Vec<u8, A>
        ensures { result.items ≡ self.text.items }
    {
        let Rows { text, .. } = self;
        text
    }
}

impl<A: Allocator + Copy> Witness<A> for Rows<A> {
    ghost passes = { λ old call new. AddsRow old call new };

    fn passed(
        &mut self,
        _machine: &Machine<A>,
        steps: u64,
        from: Place<'_>,
    ) -> Result<(), AllocError> {
        number_into(self.step.saturating_sub(steps), &mut self.text)?;
        self.text.extend_from_slice(deed_of(from))?;
        place_into(self.released, from, &mut self.text)?;
        Ok(self.text.push(LINE_FEED)?)
    }
}

// What a call did with a byte that is here after it.
fn deed_of(from: Place<'_>) -> &'static [u8]
    ensures { result.now ≡ deed_field (place_of from.entry) }
{
    match from {
        Place::Output(_) => b" prints",
        Place::Form(_, _) | Place::Held(_, _, _) => b" sets",
        _ => b" gives",
    }
}

// Puts a place at the end of a text, when so many bytes of the output are released.
fn place_into<A: Allocator>(
    released: u64,
    place: Place<'_>,
    out: &mut Vec<u8, A>,
) -> Result<(), AllocError>
    ensures { OnOk result (out.new.items ≡ out.old.items ++ place_field released (place_of place.entry)) }
{
    match place {
        Place::Active(byte) => word_into(b" active", byte as u64, out),
        Place::Base(byte) => word_into(b" base", byte as u64, out),
        Place::Argument {
            function,
            argument,
            byte,
        } => {
            word_into(b" argument", function as u64, out)?;
            word_into(b"", argument as u64, out)?;
            word_into(b"", byte as u64, out)
        }
        Place::Form(name, item) => {
            word_into(b" form", item as u64, out)?;
            name_into(name, out)
        }
        Place::Held(block, name, item) => {
            word_into(b" held", block as u64, out)?;
            word_into(b"", item as u64, out)?;
            name_into(name, out)
        }
        Place::Output(byte) => word_into(b" output", released.saturating_add(byte as u64), out),
    }
}

/// Puts a word and a number at the end of a text. The error is that memory was refused.
pub fn word_into<A: Allocator>(
    word: &[u8],
    number: u64,
    out: &mut Vec<u8, A>,
) -> Result<(), AllocError>
    ensures { OnOk result (out.new.items ≡ out.old.items ++ word_field word.now number) }
{
    out.extend_from_slice(word)?;
    out.extend_from_slice(b" ")?;
    number_into(number, out)
}

// Puts a name at the end of a text, after its length.
fn name_into<A: Allocator>(name: &[u8], out: &mut Vec<u8, A>) -> Result<(), AllocError>
    ensures { OnOk result (out.new.items ≡ out.old.items ++ name_field name.now) }
{
    word_into(b"", name.len() as u64, out)?;
    out.extend_from_slice(b" ")?;
    out.extend_from_slice(name)
}
