//! Which of the coming requests are refused, and how many were made and refused.
ghost use Rattle.std.specs.Prelude.{◌≡◌, not};
ghost use Rattle.trac_faults.specs.Requests.{refuses_next, after_request, under_rule};

/// Which of the coming requests are refused.
#[derive(Clone, Copy)]
pub(crate) enum Rule {
    AcceptAll,
    /// The request of this number; 1 is the next one. Once it is refused, the number is 0, and the rest is accepted.
    RefuseNth(u64),
    RefuseAll,
}

/// The rule in force, and the counts of all requests up to now. A count stays at `u64::MAX` once it is there.
#[derive(Clone, Copy)]
pub(crate) struct Requests {
    pub(crate) rule: Rule,
    pub(crate) made: u64,
    pub(crate) refused: u64,
}

impl Requests {
    /// No request up to now, and none to be refused.
    pub(crate) fn none() -> Requests
        ensures rule { result.rule ≡ Rule.AcceptAll }
        ensures made { result.made ≡ 0 }
        ensures refused { result.refused ≡ 0 }
    {
        Requests {
            rule: Rule::AcceptAll,
            made: 0,
            refused: 0,
        }
    }

    /// The same counts, under another rule from now on.
    pub(crate) fn under(self, rule: Rule) -> Requests
        ensures { result ≡ under_rule self rule }
    {
        Requests { rule, ..self }
    }

    /// Counts one request, and says whether it is accepted.
    pub(crate) fn accepts(&mut self) -> bool
        ensures answer { result ≡ not (refuses_next self.old.rule) }
        ensures counted { self.new ≡ after_request self.old }
    {
        self.made = self.made.saturating_add(1);
        match self.rule {
            Rule::AcceptAll => true,
            Rule::RefuseNth(1) => {
                self.rule = Rule::RefuseNth(0);
                self.refused = self.refused.saturating_add(1);
                false
            }
            Rule::RefuseNth(n) => {
                self.rule = Rule::RefuseNth(n.saturating_sub(1));
                true
            }
            Rule::RefuseAll => {
                self.refused = self.refused.saturating_add(1);
                false
            }
        }
    }
}
