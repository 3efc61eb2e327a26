//! The match of a protecting parenthesis.
ghost use Rattle.std.specs.Prelude.{◌≡◌, IfSome, ◌<◌, length};
ghost use Rattle.trac_rules.specs.Matching.{match_of};

use trac_rules::byte;

/// The place of the `)` that matches the `(` before this text, by T-64's rule; none if there is no match. Bytes count
/// from 0.
pub fn match_in(text: &[u8]) -> Option<usize>
    ensures place { result ≡ match_of text.now }
    ensures within { IfSome result (λ k. k < length text.now) }
{
    let mut depth: usize = 0;
    for (i, b) in text.iter().enumerate() {
        if *b == byte::OPENING {
            depth += 1;
        } else if *b == byte::CLOSING {
            if depth == 0 {
                return Some(i);
            }
            depth -= 1;
        }
    }
    None
}
