//! Lists of borrowed texts: what a call is given.
ghost use Rattle.std.specs.Prelude.{◌≡◌, [], length, get_or, map};

use std::alloc::Allocator;

/// A list of texts, such as the arguments of a call. Places count from 0; a form's gaps number the texts from 1.
pub trait Texts {
    ghost use Rattle.std.specs.Prelude.{ℕ, List};

    ghost texts: { Self → List (List ℕ) };

    /// How many texts there are. It takes no memory.
    fn count(&self) -> usize
        ensures { result ≡ length (texts self.now) };

    /// The text at this place; empty past the last. It takes no memory.
    fn get(&self, i: usize) -> &[u8]
        ensures { result.now ≡ get_or (texts self.now) i [] };
}

impl<'t, 'a> Texts for &'t [&'a [u8]] {
    ghost use Rattle.std.specs.Prelude.{map};

    ghost texts = { λ slices. map (λ text. text.now) slices.now };

    fn count(&self) -> usize {
        self.len()
    }

    fn get(&self, i: usize) -> &[u8] {
        text_at(*self, i)
    }
}

impl<'a, A: Allocator> Texts for Vec<&'a [u8], A> {
    ghost use Rattle.std.specs.Prelude.{map};

    ghost texts = { λ slices. map (λ text. text.now) slices.items };

    fn count(&self) -> usize {
        self.as_slice().len()
    }

    fn get(&self, i: usize) -> &[u8] {
        text_at(self.as_slice(), i)
    }
}

// The text at this place; empty past the last.
fn text_at<'a>(texts: &[&'a [u8]], i: usize) -> &'a [u8]
    ensures { result.now ≡ get_or (map (λ text. text.now) texts.now) i [] }
{
    if i < texts.len() { texts[i] } else { &[] }
}
