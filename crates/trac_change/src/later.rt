//! The later arguments of a call, as forms are given them.
ghost use Rattle.std.specs.Prelude.{◌≡◌, drop};

use std::marker::Model;
use trac_forms::Texts;
use trac_text::Args;

/// Arguments without the first of them: seen as the list of those that are left.
#[derive(Drop)]
pub struct LaterArguments<'a> {
    args: &'a Args<'a>,
    passed: usize,
}

impl<'a> Model for LaterArguments<'a> {
    ghost use Rattle.std.specs.Prelude.{ℕ, List, drop};

    ghost Value = { List (List ℕ) };

    ghost view = { λ later. drop later.passed later.args.now };
}

/// All arguments but the first n; none if there are no more than n. Nothing is copied.
pub fn after<'a>(args: &'a Args<'a>, n: usize) -> LaterArguments<'a>
    ensures { result ≡ drop n args.now }
{
    LaterArguments { args, passed: n }
}

impl<'a> Texts for LaterArguments<'a> {
    ghost texts = { λ later. later };

    fn count(&self) -> usize {
        self.args.count().saturating_sub(self.passed)
    }

    fn get(&self, i: usize) -> &[u8] {
        let left = self.args.count().saturating_sub(self.passed);
        if i < left {
            self.args.get(self.passed + i)
        } else {
            &[]
        }
    }
}
